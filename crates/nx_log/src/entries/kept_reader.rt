//! A kept log read in pieces, as what it stands for.

ghost use Rattle.std.specs.Prelude.{◌≡◌, ◌<◌, ◌≤◌, ◌+◌, ◌-◌, ◌^◌, ℕ, List, [], ◌++◌, length};
ghost use Rattle.nx_log.specs.KeptLog.{longest_entry};
ghost use Rattle.nx_log.specs.Places.{PlacedCopy};
ghost use Rattle.nx_log.specs.private.KeptReading.{EndsKept, IsAtKept, IsBegun, IsSound, TakesKept, TakesSome};
ghost use Rattle.nx_log.specs.declared.entries.kept_reader.KeptStage.TheVariants as stages;

use crate::entries::entry::MAX_LOGGED;
use crate::entries::reader::{BadLine, judge, line_after};
use crate::entries::start::EntryStart;
use crate::writing::places::Places;
use arrayvec::ArrayVec;

/// The gate that is closed: a space.
const CLOSED_GATE: u8 = b' ';

/// The most bytes behind a closed gate: those of the longest entry and its gate.
const MAX_TAIL: usize = MAX_LOGGED + 1;

/// What a piece of a kept log brings.
#[derive(Clone, Copy, Debug, Drop, PartialEq, Eq)]
pub(crate) enum KeptPushed {
    /// With its first so many bytes an entry ended, which the reader shows until the next piece.
    /// The others weren't taken.
    Entry {
        /// How many bytes were taken.
        taken: usize,
        /// Where the entry stands.
        places: Places,
    },
    /// Its first so many bytes were taken, and no entry ended.
    Part {
        /// How many bytes were taken.
        taken: usize,
    },
    /// The bytes stand for no entries, whatever follows. The reader is of no use any more.
    Bad(BadLine),
}

/// What a reader has read of the bytes from the last gate on.
#[derive(Clone, Copy, Debug, Drop, PartialEq, Eq)]
pub(crate) enum KeptStage {
    /// Nothing: a gate comes next.
    Gate,
    /// An open gate, and the beginning of an entry, which is held.
    Open,
    /// A closed gate, and so many bytes behind it.
    Closed(usize),
}

/// Reads a kept log of which it is given the bytes in pieces of any length. It gives each entry
/// that the log stands for with its last byte.
#[derive(Debug, Drop)]
pub(crate) struct KeptReader {
    /// What it has read from the last gate on.
    stage: KeptStage,
    /// The bytes of the entry that has begun, or of the one that was given last.
    held: ArrayVec<u8, MAX_LOGGED>,
    /// The line on which the next byte stands.
    line: u64,
    /// How many bytes stand before the last gate.
    gate: u64,
}

impl KeptReader {
    /// A reader that was given no byte yet, where so many stand before the first.
    pub(crate) fn new(from: u64) -> KeptReader
        ensures at { IsAtKept result from [] [] }
        ensures sound { IsSound result }
    {
        KeptReader {
            stage: KeptStage::Gate,
            held: ArrayVec::new(),
            line: 1,
            gate: from,
        }
    }

    /// Takes the bytes of the piece up to the end of the first entry that ends in it, or some of
    /// its first bytes in which none ends. The piece isn't empty (`some`), and nothing that was
    /// given before was bad (`sound`).
    pub(crate) fn push(&mut self, piece: &[u8]) -> KeptPushed
        requires some { 0 < length piece.now }
        requires sound { IsSound self.old }
        ensures takes { (from : ℕ) (bytes : List ℕ) (entries : List PlacedCopy)
            → from + length (bytes ++ piece.now) ≤ 2 ^ 64 - 1
            → IsAtKept self.old from bytes entries
            → TakesKept from bytes entries piece.now self.new result }
        ensures some { TakesSome (length piece.now) self.new result }
    {
        match self.stage {
            KeptStage::Gate => self.take_gate(piece),
            KeptStage::Open => self.go_on(piece),
            KeptStage::Closed(count) => self.pass_tail(count, piece),
        }
    }

    /// The bytes of the entry that the last piece ended.
    pub(crate) fn entry_bytes(&self) -> &[u8]
        ensures { result.now ≡ self.now.held.items }
    {
        self.held.as_slice()
    }

    /// The line at which the bytes that were given are damaged, where they end here: they end
    /// within an entry behind an open gate.
    pub(crate) fn finish(&self) -> Option<BadLine>
        ensures { (from : ℕ) (bytes : List ℕ) (entries : List PlacedCopy)
            → IsAtKept self.now from bytes entries → EndsKept from bytes entries result }
    {
        match self.stage {
            KeptStage::Open => self.finish_entry(),
            KeptStage::Gate | KeptStage::Closed(_) => None,
        }
    }

    /// The same behind an open gate.
    fn finish_entry(&self) -> Option<BadLine>
        requires { self.now.stage ≡ stages.Open }
        ensures { (from : ℕ) (bytes : List ℕ) (entries : List PlacedCopy)
            → IsAtKept self.now from bytes entries → EndsKept from bytes entries result }
    {
        if self.held.is_empty() {
            return None;
        }
        Some(BadLine { line: self.line })
    }

    /// Takes a gate, the first byte of a piece, where one comes next (`stage`).
    fn take_gate(&mut self, piece: &[u8]) -> KeptPushed
        requires some { 0 < length piece.now }
        requires stage { self.old.stage ≡ stages.Gate }
        ensures takes { (from : ℕ) (bytes : List ℕ) (entries : List PlacedCopy)
            → IsAtKept self.old from bytes entries
            → TakesKept from bytes entries piece.now self.new result }
        ensures some { TakesSome (length piece.now) self.new result }
    {
        self.line = line_after(self.line, &piece[..1]);
        self.held.clear();
        self.stage = if piece[0] == CLOSED_GATE {
            KeptStage::Closed(0)
        } else {
            KeptStage::Open
        };
        KeptPushed::Part { taken: 1 }
    }

    /// Takes bytes, one or more, of an entry behind an open gate. What is held is the beginning of
    /// one, or nothing (`begun`).
    fn go_on(&mut self, bytes: &[u8]) -> KeptPushed
        requires some { 0 < length bytes.now }
        requires stage { self.old.stage ≡ stages.Open }
        requires begun { IsBegun self.old.held.items }
        ensures takes { (from : ℕ) (given : List ℕ) (entries : List PlacedCopy)
            → from + length (given ++ bytes.now) ≤ 2 ^ 64 - 1
            → IsAtKept self.old from given entries
            → TakesKept from given entries bytes.now self.new result }
        ensures some { TakesSome (length bytes.now) self.new result }
    {
        let held = self.held.len();
        match judge(&mut self.held, bytes) {
            EntryStart::Whole(len) => {
                // What is held isn't whole yet, so it is less.
                let taken = len.saturating_sub(held);
                self.line = line_after(self.line, &bytes[..taken]);
                let next = self.gate.saturating_add(1).saturating_add(len as u64);
                let places = Places {
                    place: self.gate,
                    next,
                };
                self.gate = next;
                self.stage = KeptStage::Gate;
                KeptPushed::Entry { taken, places }
            }
            EntryStart::Unfinished => {
                self.line = line_after(self.line, bytes);
                KeptPushed::Part { taken: bytes.len() }
            }
            EntryStart::Broken(place) => {
                // Nor is it broken yet.
                let begun = place.saturating_sub(held);
                let line = line_after(self.line, &bytes[..begun]);
                KeptPushed::Bad(BadLine { line })
            }
        }
    }

    /// Takes bytes, one or more, behind a closed gate, behind which so many stand, at most 4,147.
    fn pass_tail(&mut self, count: usize, bytes: &[u8]) -> KeptPushed
        requires some { 0 < length bytes.now }
        requires stage { self.old.stage ≡ stages.Closed count }
        requires few { count ≤ longest_entry + 1 }
        ensures takes { (from : ℕ) (given : List ℕ) (entries : List PlacedCopy)
            → IsAtKept self.old from given entries
            → TakesKept from given entries bytes.now self.new result }
        ensures some { TakesSome (length bytes.now) self.new result }
    {
        let room = MAX_TAIL - count;
        if bytes.len() > room {
            let line = line_after(self.line, &bytes[..room]);
            return KeptPushed::Bad(BadLine { line });
        }
        self.line = line_after(self.line, bytes);
        self.stage = KeptStage::Closed(count + bytes.len());
        KeptPushed::Part { taken: bytes.len() }
    }
}
