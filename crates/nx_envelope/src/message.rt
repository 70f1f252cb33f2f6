//! A message: its identity and its lines.

ghost use Rattle.std.specs.Prelude.{◌≡◌, ◌↔◌, ◌<◌, ◌+◌, IfErr, IfOk, IsTrue, OnOk, length, map, slice_get};
ghost use Rattle.std.specs.Option.{option_copied};
ghost use Rattle.nx_envelope.specs.Header.{HoldsWord};
ghost use Rattle.nx_envelope.specs.Message.{MessageView};

use crate::identity::Identity;
use nx_code::{NEWLINE, char_to_code};
use std::alloc::{AllocError, Global};
use std::marker::Model;
use thiserror::Error;

/// The most characters of a line.
pub const MAX_LINE: usize = 69;

/// The most characters of a message's text, with the newline after each line.
pub const MAX_TEXT: usize = 4096;

/// The letters that begin a message.
pub const START_MARKER: [u8; 4] = *b"ZCZC";

/// The letters that end a message.
pub const END_MARKER: [u8; 4] = *b"NNNN";

/// Why lines make no message.
#[derive(Debug, PartialEq, Eq, Drop, Error)]
pub enum MessageFault {
    /// A line has more than 69 characters.
    #[error("line {line} is too long")]
    LongLine {
        /// The line, from 1.
        line: u64,
    },
    /// A byte of a line is a newline or not in the code.
    #[error("line {line} has no signal at {at}")]
    BadCharacter {
        /// The line, from 1.
        line: u64,
        /// The place of the byte in the line, from 0.
        at: u64,
    },
    /// A line contains `ZCZC` or `NNNN`.
    #[error("line {line} has a reserved word")]
    Reserved {
        /// The line, from 1.
        line: u64,
    },
    /// The text has more than 4,096 characters.
    #[error("text is too long")]
    LongText,
    /// There was no memory for the lines.
    #[error("out of memory")]
    Memory(AllocError),
}

/// A message (ITU-R M.540): its identity and its lines, without their newlines.
#[derive(Debug, Drop)]
pub struct Message {
    identity: Identity,
    lines: Vec<Vec<u8>>,
}

impl Model for Message {
    ghost use Rattle.std.specs.Prelude.{map};
    ghost use Rattle.nx_envelope.specs.Message.{MessageView};

    ghost Value = { MessageView };

    ghost use Rattle.nx_envelope.specs.Message.{AreLines};

    ghost view = { λ m. record {
      identity = m.identity;
      lines = map (λ line. line.items) m.lines.items;
    } };

    ghost invariant = { λ m. AreLines (map (λ line. line.items) m.lines.items) };
}

ghost use Rattle.nx_envelope.specs.Message.{AreLines, IsMessageLine, IsLineByte, IsLineFault, IsMessageFault};

impl Message {
    /// The message of an identity and lines, which are looked at in order. Of the first line that
    /// is at fault, `LongLine` where it has more than 69 characters, else `BadCharacter` at the
    /// first byte that is a newline or not in the code. Else `Reserved` where that line has `ZCZC`
    /// or `NNNN`. Then `LongText` where all lines with their newlines have more than 4,096
    /// characters; and `Memory` where it ran out.
    pub fn new(alloc: Global, identity: Identity, lines: &[&[u8]]) -> Result<Message, MessageFault>
        ensures identity { IfOk result (λ message. message.identity ≡ identity) }
        ensures lines { IfOk result (λ message. message.lines ≡ map (λ line. line.now) lines.now) }
        ensures sound { IfOk result (λ message. AreLines message.lines) }
        ensures refused { IfErr result (IsMessageFault (map (λ line. line.now) lines.now)) }
    {
        prove!(size_of::<Message>() == 32);
        check_lines(lines)?;
        match line_copies(alloc, lines) {
            Ok(lines) => Ok(Message { identity, lines }),
            Err(fault) => Err(MessageFault::Memory(fault)),
        }
    }

    /// Its identity.
    pub fn identity(&self) -> Identity
        ensures { result ≡ self.now.identity }
    {
        self.identity
    }

    /// How many lines it has.
    pub fn line_count(&self) -> u64
        ensures count { result ≡ length self.now.lines }
        ensures sound { AreLines self.now.lines }
    {
        self.lines.len() as u64
    }

    /// The line at that place, from 0, without its newline; `None` past the last line.
    pub fn line(&self, i: u64) -> Option<&[u8]>
        ensures line { option_copied result ≡ slice_get self.now.lines i }
        ensures sound { AreLines self.now.lines }
    {
        let line = self.lines.get(i as usize)?;
        Some(line.as_slice())
    }
}

/// Whether a byte may stand in a line.
fn is_line_byte(byte: u8) -> bool
    ensures { IsTrue result ↔ IsLineByte byte }
{
    byte != NEWLINE && char_to_code(byte).is_some()
}

/// Whether the word stands somewhere in the line.
fn holds_word(line: &[u8], word: &[u8; 4]) -> bool
    ensures { IsTrue result ↔ HoldsWord word.now line.now }
{
    for at in 0..line.len() {
        if line[at..].starts_with(word) {
            return true;
        }
    }
    false
}

/// Checks one line, whose number counts from 1.
fn check_line(number: u64, line: &[u8]) -> Result<(), MessageFault>
    ensures good { OnOk result (IsMessageLine line.now) }
    ensures fault { IfErr result (IsLineFault number line.now) }
{
    if line.len() > MAX_LINE {
        return Err(MessageFault::LongLine { line: number });
    }
    if let Some(at) = line.iter().position(|byte| !is_line_byte(*byte)) {
        return Err(MessageFault::BadCharacter {
            line: number,
            at: at as u64,
        });
    }
    if holds_word(line, &START_MARKER) || holds_word(line, &END_MARKER) {
        return Err(MessageFault::Reserved { line: number });
    }
    Ok(())
}

/// Checks the lines in order, and after them the length of their text.
fn check_lines(lines: &[&[u8]]) -> Result<(), MessageFault>
    ensures good { OnOk result (AreLines (map (λ line. line.now) lines.now)) }
    ensures fault { IfErr result (IsMessageFault (map (λ line. line.now) lines.now)) }
{
    let mut text_len = 0usize;
    let mut number = 0u64;
    for line in lines {
        number += 1;
        check_line(number, line)?;
        text_len = text_len.saturating_add(line.len() + 1);
    }
    if text_len > MAX_TEXT {
        return Err(MessageFault::LongText);
    }
    Ok(())
}

/// Copies of the lines.
fn line_copies(alloc: Global, lines: &[&[u8]]) -> Result<Vec<Vec<u8>>, AllocError>
    ensures { IfOk result (λ kept.
        map (λ line. line.items) kept.items ≡ map (λ line. line.now) lines.now) }
{
    let mut kept = Vec::with_capacity(alloc, lines.len())?;
    for line in lines {
        let copy = Vec::from_slice(alloc, line)?;
        kept.push(copy)?;
    }
    Ok(kept)
}
