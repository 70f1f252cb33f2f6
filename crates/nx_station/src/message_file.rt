//! Message files: the messages of a station as lines of text (this profile).
ghost use Rattle.std.specs.Prelude.{◌≡◌, ◌≢◌, ◌+◌, ◌-◌, ◌<◌, ◌^◌, ◌++◌, ◌∷◌, ℕ, IfErr, IfOk, IfSome, IsNone, length, map};
ghost use Rattle.std.specs.List.{AllByRecursion};
ghost use Rattle.nx_envelope.specs.Message.{text_of, MessageView};
ghost use Rattle.nx_station.specs.MessageFile.{IsFileMessage, IsInside, IsMessageFile, IsNamed, IsOneLine, file_message_of, heading, file_message_bytes};
ghost use Rattle.nx_station.specs.FileSending.{ExplainsFile};
ghost use Rattle.nx_station.specs.private.MessageParts.{ExplainsFirst, text_fault};

use crate::fault::SendRunFault;
use nx_code::NEWLINE;
use nx_envelope::{Identity, Letter, Message, MessageFault};
use std::alloc::{AllocError, Global};

/// The line that ends a message.
const CLOSING: &[u8] = b";";

/// The first message of some bytes, how many lines it has, and what follows it.
#[derive(Drop)]
struct FirstMessage<'a> {
    message: Message,
    lines: u64,
    rest: &'a [u8],
}

/// The lines of a message's text, and what follows the line that ends it.
#[derive(Drop)]
pub(crate) struct Body<'a> {
    pub(crate) lines: Vec<&'a [u8]>,
    pub(crate) rest: &'a [u8],
}

/// The messages of a message file, all of this station. The fault is the first in the file; memory
/// may run out at any growth.
pub(crate) fn messages_in(
    alloc: Global,
    station: Letter,
    file: &[u8],
) -> Result<Vec<Message>, SendRunFault>
    ensures messages { IfOk result (λ messages.
        IsMessageFile file.now (map file_message_of messages.items)) }
    ensures station { IfOk result (λ messages.
        AllByRecursion
        (λ (message : MessageView). message.identity.b1.byte ≡ station.byte) messages.items) }
    ensures fault { IfErr result (ExplainsFile file.now) }
{
    let mut messages = Vec::new(alloc);
    let mut lines = 0;
    let mut rest = file;
    while !rest.is_empty() {
        let part = first_message(alloc, station, rest, lines)?;
        if let Err(error) = messages.push(part.message) {
            return Err(AllocError::from(error).into());
        }
        lines += part.lines;
        rest = part.rest;
    }
    Ok(messages)
}

/// The first message of some bytes, before which so many lines stand in their file.
fn first_message<'a>(
    alloc: Global,
    station: Letter,
    bytes: &'a [u8],
    before: u64,
) -> Result<FirstMessage<'a>, SendRunFault>
    requires some { 0 < length bytes.now }
    requires room { before + length bytes.now < 2 ^ 64 - 1 }
    ensures whole { IfOk result (λ part.
        bytes.now ≡ file_message_bytes (file_message_of part.message) ++ part.rest.now) }
    ensures sound { IfOk result (λ part. IsFileMessage (file_message_of part.message)) }
    ensures station { IfOk result (λ part. part.message.identity.b1.byte ≡ station.byte) }
    ensures lines { IfOk result (λ part. part.lines ≡ 2 + length part.message.lines) }
    ensures fault { IfErr result (ExplainsFirst before bytes.now) }
{
    let Some((line, rest)) = split_line(bytes) else {
        return Err(SendRunFault::LineCut { line: before + 1 });
    };
    let Some(identity) = identity_in(station, line) else {
        return Err(SendRunFault::BadLine { line: before + 1 });
    };
    let body = text_lines(alloc, rest, before)?;
    match Message::new(alloc, identity, &body.lines) {
        Ok(message) => Ok(FirstMessage {
            message,
            lines: body.lines.len() as u64 + 2,
            rest: body.rest,
        }),
        Err(fault) => Err(text_fault(before + 1, fault)),
    }
}

/// The fault of a run for the fault of the message that begins at this line.
fn text_fault(line: u64, fault: MessageFault) -> SendRunFault
    ensures { result ≡ text_fault line fault }
{
    match fault {
        MessageFault::Memory(error) => SendRunFault::Memory(error),
        fault => SendRunFault::Text { line, fault },
    }
}

/// The first line of some bytes, without its end, and what follows it; None where they have no end
/// of a line.
pub(crate) fn split_line(bytes: &[u8]) -> Option<(&[u8], &[u8])>
    ensures one_line { IfSome result (λ parts. IsOneLine parts.0.now) }
    ensures whole { IfSome result (λ parts. bytes.now ≡ parts.0.now ++ 10 ∷ parts.1.now) }
    ensures none { IsNone result → IsOneLine bytes.now }
{
    let end = bytes.iter().position(|byte| *byte == NEWLINE)?;
    Some((&bytes[..end], &bytes[end + 1..]))
}

/// The identity of a message of this station that begins with this line; None where the line begins
/// none.
fn identity_in(station: Letter, line: &[u8]) -> Option<Identity>
    ensures named { IfSome result (λ identity.
        line.now ≡ heading identity.b2.byte identity.number) }
    ensures station { IfSome result (λ identity. identity.b1.byte ≡ station.byte) }
    ensures none { IsNone result → (subject number : ℕ) → IsNamed subject number
        → line.now ≢ heading subject number }
{
    let [b'#', subject, tens, units] = line else {
        return None;
    };
    if !tens.is_ascii_digit() || !units.is_ascii_digit() {
        return None;
    }
    let number = 10 * (*tens - b'0') + (*units - b'0');
    Identity::new(station.byte(), *subject, number)
}

/// The lines of a message behind its first, up to the line that ends it. So many lines stand before
/// the message in its file.
fn text_lines<'a>(alloc: Global, bytes: &'a [u8], before: u64) -> Result<Body<'a>, SendRunFault>
    requires { before + length bytes.now < 2 ^ 64 - 2 }
    ensures whole { IfOk result (λ body.
        bytes.now ≡ text_of (map (λ line. line.now) body.lines.items) ++ 59 ∷ 10 ∷ body.rest.now) }
    ensures inside { IfOk result (λ body.
        AllByRecursion IsInside (map (λ line. line.now) body.lines.items)) }
    ensures fault { IfErr result (λ fault. (subject number : ℕ) → IsNamed subject number
        → ExplainsFirst before (heading subject number ++ 10 ∷ bytes.now) fault) }
{
    let mut lines = Vec::new(alloc);
    let mut rest = bytes;
    while let Some((line, after)) = split_line(rest) {
        rest = after;
        if line == CLOSING {
            return Ok(Body { lines, rest });
        }
        if let Err(error) = lines.push(line) {
            return Err(AllocError::from(error).into());
        }
    }
    if rest.is_empty() {
        return Err(SendRunFault::Open { line: before + 1 });
    }
    Err(SendRunFault::LineCut {
        line: before + 2 + lines.len() as u64,
    })
}
