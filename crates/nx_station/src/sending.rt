//! Sending: from a message file to the air file of its emission.
ghost use Rattle.std.specs.Prelude.{◌≡◌, ◌++◌, IfErr, IfOk, OnOk};
ghost use Rattle.std.specs.Io.KnownBytes.{Appends};
ghost use Rattle.nx_fec.specs.air_files.AirFile.{moment};
ghost use Rattle.nx_fec.specs.air_files.BitLines.{bit_lines};
ghost use Rattle.nx_fec.specs.Transfers.{FailsOnce, WroteSome, devices};
ghost use Rattle.nx_fec.specs.air_files.Lines.{file_of, line_bytes};
ghost use Rattle.nx_station.specs.FileSending.{Sends};

use crate::broadcast::emission;
use crate::fault::{SendFault, SendRunFault};
use crate::message_file::messages_in;
use crate::slots::next_slot;
use nx_envelope::Letter;
use nx_fec::{Counting, WriteFault, read_whole, to_bits, write_bits, write_out};
use std::alloc::{AllocError, Global};
use std::io::{Read, Write};

/// What was sent.
#[derive(Clone, Copy, Debug, PartialEq, Eq)]
pub struct Sent {
    /// The moment at which the slot begins, in seconds since 1970-01-01 00:00:00 UTC.
    pub slot: u64,
    /// How many positions the emission has.
    pub positions: u64,
    /// How many messages it has.
    pub messages: u64,
}

/// Reads a message file whole, and writes the air file of its emission in the station's next slot
/// from a moment on. The air file is a line `T` with the moment at which the slot begins, and the
/// elements in lines of 490 that name no channel.
///
/// `Read` and `FileTooLong` come first; then the first fault in the file, `BadLine`, `Text`,
/// `LineCut` or `Open`; then `Send` with `NoMessages`, `NoSlot` (also where there is no next slot)
/// or `SlotFull`; then `Write`. Nothing is written before all else succeeded. Memory may run out at
/// any growth.
pub fn send<R: Read, W: Write>(
    alloc: Global,
    reader: &mut Counting<R>,
    writer: &mut Counting<W>,
    station: Letter,
    moment: u64,
) -> Result<Sent, SendRunFault>
    requires reader { reader.old.failures ≡ 0 }
    requires writer { writer.old.failures ≡ 0 }
    ensures { Sends (devices R.remaining W.contents reader.old reader.new writer.old writer.new)
        station.byte moment result }
{
    let file = read_whole(alloc, reader)?;
    let messages = messages_in(alloc, station, &file)?;
    if messages.is_empty() {
        return Err(SendRunFault::Send(SendFault::NoMessages));
    }
    let Some(slot) = next_slot(station, moment) else {
        return Err(SendRunFault::Send(SendFault::NoSlot));
    };
    let positions = emission(alloc, &messages)?;
    let bits = to_bits(alloc, &positions)?;
    let line = moment_line(alloc, slot)?;
    write_air(writer, line.as_bytes(), &bits)?;
    Ok(Sent {
        slot,
        positions: positions.len() as u64,
        messages: messages.len() as u64,
    })
}

/// The line of a moment in an air file.
fn moment_line(alloc: Global, at: u64) -> Result<String, AllocError>
    ensures { IfOk result (λ line. line.bytes.items ≡ line_bytes (moment at)) }
{
    format!(in alloc; "T {at}\n")
}

/// Writes a line and the lines of elements after it.
fn write_air<W: Write>(
    writer: &mut Counting<W>,
    line: &[u8],
    bits: &[bool],
) -> Result<(), WriteFault>
    requires { writer.old.failures ≡ 0 }
    ensures ok { OnOk result
        (Appends (W.contents writer.old.inner) (W.contents writer.new.inner)
        (line.now ++ file_of (bit_lines bits.now))) }
    ensures err { IfErr result (λ fault.
        WroteSome (W.contents writer.old.inner) (W.contents writer.new.inner)
        (line.now ++ file_of (bit_lines bits.now)) fault.written) }
    ensures counts { FailsOnce writer.new result }
{
    write_out(writer, line)?;
    match write_bits(writer, bits) {
        Ok(()) => Ok(()),
        Err(fault) => Err(WriteFault {
            written: (line.len() as u64).saturating_add(fault.written),
        }),
    }
}
