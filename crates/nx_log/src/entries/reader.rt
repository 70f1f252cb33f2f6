//! A log read in pieces.

ghost use Rattle.std.specs.Prelude.{◌≡◌, ◌+◌, ◌-◌, ◌≤◌, ◌==◌, ℕ, List, [], ◌++◌, count_by, length, min, take};
ghost use Rattle.nx_code.specs.Reading.{newline};
ghost use Rattle.nx_copies.specs.copies.Shares.{MarkedCopy};
ghost use Rattle.nx_log.specs.LogReader.{most_lines};
ghost use Rattle.nx_log.specs.Reading.{line_behind};
ghost use Rattle.nx_log.specs.Starts.{StartsAs};
ghost use Rattle.nx_log.specs.private.Steps.{part_held};

use crate::entries::entry::MAX_LOGGED;
use crate::entries::start::{EntryStart, entry_start};
use crate::entries::tail::{Tail, TailEnd, TailPassed, pass_tail};
use arrayvec::ArrayVec;
use std::marker::Model;
use std::mem::size_of;
use thiserror::Error;

/// The line at which bytes stop being a log, from 1.
#[derive(Clone, Copy, Debug, Drop, Error, PartialEq, Eq)]
#[error("line {line} is not of a log")]
pub struct BadLine {
    /// Its number.
    pub line: u64,
}

/// The line on which a torn entry stands, from 1.
#[derive(Clone, Copy, Debug, Drop, PartialEq, Eq)]
pub struct TornLine {
    /// Its number.
    pub line: u64,
}

/// What a piece of a log brings.
#[derive(Clone, Copy, Debug, Drop, PartialEq, Eq)]
pub enum Pushed {
    /// With its first so many bytes an entry ended, which the reader shows until the next piece;
    /// the others weren't taken.
    Entry {
        /// How many bytes were taken.
        taken: usize,
    },
    /// Before the last of its first so many bytes a torn entry ended; the others weren't taken.
    Torn {
        /// How many bytes were taken.
        taken: usize,
        /// Where it stands.
        at: TornLine,
    },
    /// All its bytes were taken, and no entry ended.
    All,
    /// The bytes stop being a log. The reader is of no use any more.
    Bad(BadLine),
}

/// What a reader has read of the bytes from the last bracket on.
#[derive(Clone, Copy, Debug, Drop, PartialEq, Eq)]
pub(crate) enum EntryStage {
    /// The beginning of an entry.
    Begun(Begun),
    /// What stands behind an entry, or behind the beginning of a torn one.
    Behind(Tail),
}

/// Where an entry begins: how many bytes the last space before it reaches, and its line.
#[derive(Clone, Copy, Debug, Drop, PartialEq, Eq)]
pub(crate) struct Begun {
    pub(crate) reach: usize,
    pub(crate) line: u64,
}

/// Reads a log of which it is given the bytes in pieces of any length. It gives each entry with its
/// last byte, and each torn one with the bracket behind it.
///
/// It holds the beginning of an entry, and how far the last space reaches, and else nothing.
#[derive(Debug, Drop)]
pub struct LogReader {
    /// What it has read from the last bracket on.
    stage: EntryStage,
    /// The bytes of the entry that has begun, or of the one that was given last.
    held: ArrayVec<u8, MAX_LOGGED>,
    /// The line on which the next byte stands.
    line: u64,
}

impl Model for LogReader {
    ghost use Rattle.nx_log.specs.LogReading.{LogReading};

    ghost Value = { LogReading };

    ghost view = { λ r. record { stage = r.stage; held = r.held.items; line = r.line } };

    ghost inverse = { λ v. record {
      stage = v.stage;
      held = record { items = v.held };
      line = v.line;
    } };
}

impl LogReader {
    ghost use Rattle.nx_log.specs.LogReader.{EndsSo, IsAt, Shows, Takes};
    ghost use Rattle.nx_log.specs.Logged.{IsLoggedAs};
    ghost use Rattle.nx_log.specs.private.Steps.{Ends, IsAtTail, Opens, TakesWithin};

    /// A reader that was given no byte yet.
    pub fn new() -> LogReader
        ensures { IsAt result [] [] [] }
    {
        prove!(size_of::<LogReader>() == 4208);
        LogReader {
            stage: EntryStage::Behind(Tail::behind(0)),
            held: ArrayVec::new(),
            line: 1,
        }
    }

    /// Takes the bytes of the piece up to the end of the first entry that ends in it, or up to the
    /// bracket behind the first torn one, or all of them.
    pub fn push(&mut self, piece: &[u8]) -> Pushed
        ensures { (bytes : List ℕ) (entries : List MarkedCopy) (torn : List ℕ)
            → IsAt self.old bytes entries torn
            → Takes bytes entries torn piece.now self.new result }
    {
        match self.stage {
            EntryStage::Begun(entry) => self.go_on(entry, piece),
            EntryStage::Behind(tail) => self.pass(tail, piece),
        }
    }

    /// The bytes of the entry that the last piece ended.
    pub fn entry_bytes(&self) -> &[u8]
        ensures { (one : MarkedCopy) → Shows self.now one → IsLoggedAs one result.now }
    {
        self.held.as_slice()
    }

    /// The line on which the next byte stands.
    pub(crate) fn line(&self) -> u64
        ensures { result ≡ self.now.line }
    {
        self.line
    }

    /// The torn entry with which the bytes end that were given, where they end with one.
    pub fn finish(&self) -> Option<TornLine>
        ensures { (bytes : List ℕ) (entries : List MarkedCopy) (torn : List ℕ)
            → IsAt self.now bytes entries torn → EndsSo bytes entries torn result }
    {
        match self.stage {
            EntryStage::Begun(entry) => Some(TornLine { line: entry.line }),
            EntryStage::Behind(tail) => tail.torn(),
        }
    }

    /// Takes bytes behind an entry.
    fn pass(&mut self, tail: Tail, bytes: &[u8]) -> Pushed
        ensures within { TakesWithin (length bytes.now) result }
        ensures takes { (given : List ℕ) (entries : List MarkedCopy) (torn : List ℕ)
            → IsAtTail tail self.old.line given entries torn bytes.now
            → Takes given entries torn bytes.now self.new result }
    {
        let passed = pass_tail(tail, self.line, bytes);
        if passed.opens() {
            let begun = Begun {
                reach: passed.tail.reach,
                line: passed.line,
            };
            self.held.clear();
            self.line = passed.line;
            return self
                .go_on(begun, &bytes[passed.count..])
                .behind(passed.count);
        }
        self.end(passed)
    }

    /// Takes bytes with which an entry begins or goes on.
    fn go_on(&mut self, entry: Begun, bytes: &[u8]) -> Pushed
        ensures within { TakesWithin (length bytes.now) result }
        ensures takes { (given : List ℕ) (entries : List MarkedCopy) (torn : List ℕ)
            → Opens entry self.old.held self.old.line given entries torn bytes.now
            → Takes given entries torn bytes.now self.new result }
    {
        let held = self.held.len();
        match judge(&mut self.held, bytes) {
            EntryStart::Whole(len) => {
                // What is held isn't whole yet, so it is less.
                let taken = len.saturating_sub(held);
                self.line = line_after(self.line, &bytes[..taken]);
                self.stage = EntryStage::Behind(Tail::behind(entry.reach.saturating_sub(len)));
                Pushed::Entry { taken }
            }
            EntryStart::Unfinished => {
                self.line = line_after(self.line, bytes);
                self.stage = EntryStage::Begun(entry);
                Pushed::All
            }
            EntryStart::Broken(place) => {
                let tail = Tail::behind_begun(entry.reach.saturating_sub(place), entry.line);
                // Nor is it broken yet.
                let begun = place.saturating_sub(held);
                let line = line_after(self.line, &bytes[..begun]);
                let passed = pass_tail(tail, line, &bytes[begun..]);
                self.end(passed).behind(begun)
            }
        }
    }

    /// Takes bytes that were passed behind an entry, and the bracket behind a torn one.
    fn end(&mut self, passed: TailPassed) -> Pushed
        ensures { Ends passed self.new result }
    {
        self.line = passed.line;
        match passed.end {
            TailEnd::All => {
                self.stage = EntryStage::Behind(passed.tail);
                Pushed::All
            }
            TailEnd::Bracket => {
                self.held.clear();
                self.held.push(b'[');
                self.stage = EntryStage::Begun(Begun {
                    reach: passed.tail.reach,
                    line: passed.line,
                });
                Pushed::Torn {
                    taken: passed.count.saturating_add(1),
                    at: TornLine {
                        line: passed.tail.torn_line,
                    },
                }
            }
            TailEnd::Bad => Pushed::Bad(BadLine { line: passed.line }),
        }
    }
}

impl Pushed {
    ghost use Rattle.nx_log.specs.private.Steps.{TakesWithin, passed_and};

    /// The same where so many more bytes were passed over before. All of them are no more than a
    /// `usize` counts.
    fn behind(self, passed: usize) -> Pushed
        requires { TakesWithin (usize.MAX - passed) self }
        ensures { result ≡ passed_and passed self }
    {
        match self {
            Pushed::Entry { taken } => Pushed::Entry {
                taken: passed + taken,
            },
            Pushed::Torn { taken, at } => Pushed::Torn {
                taken: passed + taken,
                at,
            },
            Pushed::All | Pushed::Bad(_) => self,
        }
    }
}

/// What stands at the held bytes and these behind them. Then the entry is held that is whole, or
/// all of the one that has begun.
pub(crate) fn judge(held: &mut ArrayVec<u8, MAX_LOGGED>, bytes: &[u8]) -> EntryStart
    ensures starts { StartsAs (held.old.items ++ bytes.now) result }
    ensures holds { held.new.items
        ≡ take (part_held result (length held.old.items + length bytes.now))
        (held.old.items ++ bytes.now) }
{
    if held.is_empty() {
        let start = entry_start(bytes);
        hold(held, &bytes[..held_part(start, bytes.len())]);
        return start;
    }
    let fitting = bytes.len().min(held.remaining_capacity());
    hold(held, &bytes[..fitting]);
    let start = entry_start(held.as_slice());
    let part = held_part(start, held.len());
    held.truncate(part);
    start
}

/// How many bytes are held of so many with which an entry begins: all of an entry that is whole or
/// has begun.
fn held_part(start: EntryStart, count: usize) -> usize
    ensures { result ≡ part_held start count }
{
    match start {
        EntryStart::Whole(len) => len,
        EntryStart::Unfinished => count,
        EntryStart::Broken(_) => 0,
    }
}

/// Holds these bytes too, for which there is room.
fn hold(held: &mut ArrayVec<u8, MAX_LOGGED>, bytes: &[u8])
    requires { length held.old.items + length bytes.now ≤ MAX_LOGGED }
    ensures { held.new.items ≡ held.old.items ++ bytes.now }
{
    match held.try_extend_from_slice(bytes) {
        Ok(()) => {}
        Err(_) => unreachable!(),
    }
}

/// The line of the byte behind these, where they begin on this line.
pub(crate) fn line_after(line: u64, bytes: &[u8]) -> u64
    ensures { (before : List ℕ) → line ≡ min (line_behind before) most_lines
        → result ≡ min (line_behind (before ++ bytes.now)) most_lines }
{
    line.saturating_add(line_feeds(bytes) as u64)
}

/// How many of the bytes are newlines.
pub(crate) fn line_feeds(bytes: &[u8]) -> usize
    ensures { result ≡ count_by (λ byte. byte == newline) bytes.now }
{
    bytes.iter().filter(|byte| **byte == b'\n').count()
}
