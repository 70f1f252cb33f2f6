//! Readers and writers that give and take in pieces, fail at a call, never end, discard or take
//! nothing.

mod clocked;
mod endings;
mod failures;
mod interrupted;

use std::io::{Error, ErrorKind, Read, Result, Write};

/// A reader that gives its text in pieces.
#[derive(Drop)]
pub struct Source<'a> {
    text: &'a [u8],
    rest: &'a [u8],
    /// The most bytes that one call gives.
    pub piece: usize,
    /// Whether the text begins anew where it ends.
    pub endless: bool,
    /// The call that fails, from 1.
    pub fails_at: Option<u64>,
    /// The calls so far.
    pub calls: u64,
}

impl<'a> Source<'a> {
    /// A reader that gives the text whole.
    pub fn of(text: &'a [u8]) -> Source<'a> {
        Source {
            text,
            rest: text,
            piece: usize::MAX,
            endless: false,
            fails_at: None,
            calls: 0,
        }
    }
}

impl Read for Source<'_> {
    fn read(&mut self, buf: &mut [u8]) -> Result<usize> {
        self.calls = self.calls.saturating_add(1);
        if self.fails_at == Some(self.calls) {
            return Err(Error::from(ErrorKind::Other));
        }
        if self.endless && self.rest.is_empty() {
            self.rest = self.text;
        }
        let count = self.rest.len().min(self.piece).min(buf.len());
        let (given, rest) = self.rest.split_at(count);
        buf[..count].copy_from_slice(given);
        self.rest = rest;
        Ok(count)
    }
}

/// A writer that takes pieces.
#[derive(Drop)]
pub struct Sink {
    /// The bytes that it took.
    pub taken: Vec<u8>,
    /// The most bytes that one call takes.
    pub piece: usize,
    /// Whether it forgets what it takes.
    pub discards: bool,
    /// The call that fails, from 1.
    pub fails_at: Option<u64>,
    /// The calls so far.
    pub calls: u64,
}

impl Sink {
    /// A writer that takes every piece whole.
    pub fn new(taken: Vec<u8>) -> Sink {
        Sink {
            taken,
            piece: usize::MAX,
            discards: false,
            fails_at: None,
            calls: 0,
        }
    }
}

impl Write for Sink {
    fn write(&mut self, buf: &[u8]) -> Result<usize> {
        self.calls = self.calls.saturating_add(1);
        if self.fails_at == Some(self.calls) {
            return Err(Error::from(ErrorKind::Other));
        }
        let count = buf.len().min(self.piece);
        if !self.discards {
            self.taken.extend_from_slice(&buf[..count])?;
        }
        Ok(count)
    }

    fn flush(&mut self) -> Result<()> {
        self.calls = self.calls.saturating_add(1);
        if self.fails_at == Some(self.calls) {
            return Err(Error::from(ErrorKind::Other));
        }
        Ok(())
    }
}
