//! A reader and a writer on one clock, each of which fails once and then goes on.

use std::cell::Cell;
use std::io::{Error, ErrorKind, Read, Result as IoResult, Write};

/// Counts the calls on a reader and a writer together, so that a call on either after a failure
/// shows.
#[derive(Drop)]
pub struct Clock {
    calls: Cell<u64>,
    failed_at: Cell<u64>,
}

impl Clock {
    /// No call so far.
    pub fn new() -> Clock {
        Clock {
            calls: Cell::new(0),
            failed_at: Cell::new(0),
        }
    }

    /// Whether the last call is the one that failed.
    pub fn stands_at_failure(&self) -> bool {
        self.calls.get() == self.failed_at.get()
    }

    fn tick(&self) {
        self.calls.set(self.calls.get().saturating_add(1));
    }

    fn fail(&self) -> Error {
        self.failed_at.set(self.calls.get());
        Error::from(ErrorKind::Other)
    }
}

/// Where the pieces end that a reader gives.
#[derive(Clone, Copy, Debug)]
pub enum Pieces {
    /// Each byte is a piece.
    Bytes,
    /// The first half of a line is a piece, and its rest is the next one.
    HalfLines,
}

impl Pieces {
    /// How many bytes the next piece of a text has at most, behind so many pieces.
    fn next(self, text: &[u8], given: u64) -> usize {
        match self {
            Pieces::Bytes => 1,
            Pieces::HalfLines => {
                let end = text.iter().position(|byte| *byte == b'\n');
                let line = end.unwrap_or(text.len()).saturating_add(1);
                if given % 2 == 0 {
                    (line / 2).max(1)
                } else {
                    line
                }
            }
        }
    }

    /// How many pieces a text has, behind so many others.
    pub fn count(self, text: &[u8], given: u64) -> usize {
        let mut rest = text;
        let mut count = 0_usize;
        for _ in 0..text.len() {
            if rest.is_empty() {
                break;
            }
            let place = given.saturating_add(count as u64);
            let piece = self.next(rest, place).min(rest.len());
            rest = &rest[piece..];
            count = count.saturating_add(1);
        }
        count
    }
}

/// A reader that gives its text in pieces, fails once, and then goes on.
#[derive(Drop)]
pub struct Reader<'a> {
    pub clock: &'a Clock,
    pub rest: &'a [u8],
    pub pieces: Pieces,
    /// How many pieces it gave.
    pub given: u64,
    /// How many calls succeed before the one that fails; none fails where there is no number.
    pub sound: Option<usize>,
}

impl Read for Reader<'_> {
    fn read(&mut self, buf: &mut [u8]) -> IoResult<usize> {
        self.clock.tick();
        match self.sound {
            Some(0) => {
                self.sound = None;
                return Err(self.clock.fail());
            }
            Some(count) => self.sound = Some(count - 1),
            None => {}
        }
        let piece = self.pieces.next(self.rest, self.given);
        self.given = self.given.saturating_add(1);
        let count = self.rest.len().min(piece).min(buf.len());
        let (given, rest) = self.rest.split_at(count);
        buf[..count].copy_from_slice(given);
        self.rest = rest;
        Ok(count)
    }
}

/// A writer that takes bytes while it has room, fails once, and then has room for all.
#[derive(Drop)]
pub struct Writer<'a> {
    pub clock: &'a Clock,
    pub taken: Vec<u8>,
    /// How many bytes it takes before it fails; it never fails where there is no number.
    pub room: Option<usize>,
}

impl Write for Writer<'_> {
    fn write(&mut self, buf: &[u8]) -> IoResult<usize> {
        self.clock.tick();
        let mut count = buf.len();
        if let Some(room) = self.room {
            if room == 0 {
                self.room = None;
                return Err(self.clock.fail());
            }
            count = count.min(room);
            self.room = Some(room - count);
        }
        self.taken.extend_from_slice(&buf[..count])?;
        Ok(count)
    }

    fn flush(&mut self) -> IoResult<()> {
        self.clock.tick();
        Ok(())
    }
}
