//! What a receiver prints of messages, read back (M.540, form of a message).
ghost use Rattle.std.specs.Prelude.{◌≡◌, ◌≢◌, ◌++◌, ◌∷◌, ℕ, List, IfErr, IfOk, IfSome, IsNone, map};
ghost use Rattle.std.specs.List.{AllByRecursion, flat_map};
ghost use Rattle.nx_envelope.specs.Identity.{identity_bytes};
ghost use Rattle.nx_envelope.specs.Message.{AreLines};
ghost use Rattle.nx_envelope.specs.declared.identity.Identity as named;
ghost use Rattle.nx_station.specs.Broadcast.{header, printed_text};
ghost use Rattle.nx_station.specs.private.PrintedText.{AreSound, ExplainsFirstPrinted, ExplainsPrintedLines, ExplainsPrinted, IsTextLine, ended_lines};

use crate::fault::EmissionFault;
use crate::message_file::{Body, split_line};
use nx_code::NEWLINE;
use nx_envelope::{END_MARKER, Identity, Message};
use std::alloc::{AllocError, Global};

/// The first message of a printed text, and what follows it.
#[derive(Drop)]
struct FirstPrinted<'a> {
    message: Message,
    rest: &'a [u8],
}

/// The messages of which this is printed: `BadEnvelope` where it is of none.
pub(crate) fn messages_printed(alloc: Global, text: &[u8]) -> Result<Vec<Message>, EmissionFault>
    ensures messages { IfOk result (λ messages. text.now ≡ flat_map printed_text messages.items) }
    ensures sound { IfOk result (λ messages. AreSound messages.items) }
    ensures fault { IfErr result (ExplainsPrinted text.now) }
{
    let mut messages = Vec::new(alloc);
    let mut rest = text;
    while !rest.is_empty() {
        let part = first_printed(alloc, rest)?;
        if let Err(error) = messages.push(part.message) {
            return Err(AllocError::from(error).into());
        }
        rest = part.rest;
    }
    Ok(messages)
}

/// The first message of a printed text: its header, its lines, NNNN, and an empty line.
fn first_printed<'a>(alloc: Global, text: &'a [u8]) -> Result<FirstPrinted<'a>, EmissionFault>
    ensures whole { IfOk result (λ part. text.now ≡ printed_text part.message ++ part.rest.now) }
    ensures sound { IfOk result (λ part. AreLines part.message.lines) }
    ensures fault { IfErr result (ExplainsFirstPrinted text.now) }
{
    let Some((line, rest)) = split_line(text) else {
        return Err(EmissionFault::BadEnvelope);
    };
    let Some(identity) = identity_of_header(line) else {
        return Err(EmissionFault::BadEnvelope);
    };
    let body = lines_printed(alloc, rest)?;
    let Some(rest) = past_newline(body.rest) else {
        return Err(EmissionFault::BadEnvelope);
    };
    let message = Message::new(alloc, identity, &body.lines)?;
    Ok(FirstPrinted { message, rest })
}

/// What follows a newline that stands first.
fn past_newline(text: &[u8]) -> Option<&[u8]>
    ensures some { IfSome result (λ rest. text.now ≡ 10 ∷ rest.now) }
    ensures none { IsNone result → (rest : List ℕ) → text.now ≢ 10 ∷ rest }
{
    match text {
        [NEWLINE, rest @ ..] => Some(rest),
        _ => None,
    }
}

/// The identity of which this line is the header.
fn identity_of_header(line: &[u8]) -> Option<Identity>
    ensures some { IfSome result (λ identity. line.now ≡ header identity) }
    ensures none { IsNone result → (identity : named.Identity) → line.now ≢ header identity }
{
    let [b'Z', b'C', b'Z', b'C', b' ', name @ ..] = line else {
        return None;
    };
    identity_named(name)
}

/// The identity that is written so, as `EA01`.
fn identity_named(name: &[u8]) -> Option<Identity>
    ensures some { IfSome result (λ identity. name.now ≡ identity_bytes identity) }
    ensures none { IsNone result → (identity : named.Identity)
        → name.now ≢ identity_bytes identity }
{
    let [b1, b2, tens, units] = name else {
        return None;
    };
    Identity::from_bytes([*b1, *b2, *tens, *units])
}

/// The lines of a message up to the line NNNN.
fn lines_printed<'a>(alloc: Global, text: &'a [u8]) -> Result<Body<'a>, EmissionFault>
    ensures whole { IfOk result (λ body.
        text.now ≡ ended_lines (map (λ line. line.now) body.lines.items) body.rest.now) }
    ensures inside { IfOk result (λ body.
        AllByRecursion IsTextLine (map (λ line. line.now) body.lines.items)) }
    ensures fault { IfErr result (ExplainsPrintedLines text.now) }
{
    let mut lines = Vec::new(alloc);
    let mut rest = text;
    while let Some((line, after)) = split_line(rest) {
        rest = after;
        if line == END_MARKER.as_slice() {
            return Ok(Body { lines, rest });
        }
        if let Err(error) = lines.push(line) {
            return Err(AllocError::from(error).into());
        }
    }
    Err(EmissionFault::BadEnvelope)
}
