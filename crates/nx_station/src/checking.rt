//! Checking: from an air file to the message file of its emission.
ghost use Rattle.std.specs.Prelude.{◌≡◌, ◌++◌, IfOk, OnOk};
ghost use Rattle.nx_fec.specs.Transfers.{devices};
ghost use Rattle.nx_station.specs.Checking.{Checks, report};
ghost use Rattle.nx_station.specs.MessageFile.{file_message_of, file_message_bytes};

use crate::broadcast::text_bytes;
use crate::fault::CheckFault;
use crate::reading::read_emission;
use nx_code::NEWLINE;
use nx_envelope::{Letter, Message};
use nx_fec::{Counting, read_bits, write_out};
use std::alloc::{AllocError, Global};
use std::io::{Read, Write};

/// Reads an air file to its end, reads its elements on channel 0 as an emission, and writes the
/// line `station E`, with the station of its messages for E, and their message file. Answers how
/// many messages there are. Good lines of other channels are skipped.
///
/// The faults of `read_bits` come first, as `Run`; then those of `read_emission`, as `Emission`;
/// then `Write`, as `Run`. Nothing is written before all else succeeded. Memory may run out at any
/// growth.
pub fn check_run<R: Read, W: Write>(
    alloc: Global,
    reader: &mut Counting<R>,
    writer: &mut Counting<W>,
) -> Result<u64, CheckFault>
    requires reader { reader.old.failures ≡ 0 }
    requires writer { writer.old.failures ≡ 0 }
    ensures { Checks
        (devices R.remaining W.contents reader.old reader.new writer.old writer.new) result }
{
    let bits = read_bits(alloc, reader)?;
    let messages = read_emission(alloc, &bits)?;
    let station = messages[0].identity().b1();
    let text = report_of(alloc, station, &messages)?;
    write_out(writer, &text)?;
    Ok(messages.len() as u64)
}

/// The line of a station and the message file of its messages.
fn report_of(alloc: Global, station: Letter, messages: &[Message]) -> Result<Vec<u8>, AllocError>
    ensures { IfOk result (λ text. text.items ≡ report station.byte messages.now) }
{
    let mut text = Vec::new(alloc);
    text.extend_from_slice(b"station ")?;
    text.extend_from_slice(&[station.byte(), NEWLINE])?;
    for message in messages {
        push_file_message(alloc, &mut text, message)?;
    }
    Ok(text)
}

/// Appends a message as a message file has it.
fn push_file_message(alloc: Global, file: &mut Vec<u8>, message: &Message) -> Result<(), AllocError>
    ensures { OnOk result (file.new.items
        ≡ file.old.items ++ file_message_bytes (file_message_of message.now)) }
{
    let [_, subject, tens, units] = message.identity().bytes();
    let text = text_bytes(alloc, message)?;
    file.extend_from_slice(&[b'#', subject, tens, units, NEWLINE])?;
    file.extend_from_slice(&text)?;
    file.extend_from_slice(&[b';', NEWLINE])
}
