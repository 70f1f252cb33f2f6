//! A table of moments with a place for each identity.

ghost use Rattle.std.specs.Prelude.{◌≡◌, ◌<◌, Some, None, IfOk, if◌then◌else◌};
ghost use Rattle.std.specs.Prelude.{get_or, replicate, slice_set};
ghost use Rattle.std.specs.Vec.{SameBlock};
ghost use Rattle.nx_memory.specs.private.RingAndTable.{holds_moment};
ghost use Rattle.nx_memory.specs.Table.{index_of as the_index_of};

use crate::letter_set::{LETTERS, place_in_alphabet};
use crate::memories::entry::MemoryEntry;
use nx_envelope::Identity;
use std::alloc::{AllocError, Global};
use std::marker::Model;

/// How many numbers a message can have, 00 to 99.
const NUMBERS: usize = 100;

/// How many identities there are.
const IDENTITIES: usize = LETTERS * LETTERS * NUMBERS;

/// A moment, or that there is none, for each of the 67,600 identities. Contracts see it as the
/// block of these, by station, subject and number.
#[derive(Drop)]
pub(crate) struct MomentTable {
    moments: Vec<Option<u64>>,
}

impl Model for MomentTable {
    ghost use Rattle.std.specs.Prelude.{◌≡◌, ℕ, Option, length};
    ghost use Rattle.std.specs.Global.{Vec};

    ghost Value = { Vec (Option ℕ) };

    ghost view = { λ table. table.moments };

    ghost invariant = { λ table. length table.moments.items ≡ 67600 };

    ghost inverse = { λ moments. record { moments = moments } };
}

impl MomentTable {
    /// A table without a moment.
    pub(crate) fn new(alloc: Global) -> Result<Self, AllocError>
        ensures { IfOk result (λ table. table.items ≡ replicate 67600 None) }
    {
        prove!(size_of::<MomentTable>() == 24);
        Ok(MomentTable {
            moments: vec![in alloc; None; IDENTITIES]?,
        })
    }

    /// The moment of the identity.
    pub(crate) fn moment_of(&self, identity: Identity) -> Option<u64>
        ensures { result ≡ get_or self.now.items (the_index_of identity) None }
    {
        self.moments[index_of(identity)]
    }

    /// Sets the moment of the entry's identity to the entry's. The block stays where it is, and as
    /// large.
    pub(crate) fn set(&mut self, entry: MemoryEntry)
        ensures moments { self.new.items
            ≡ slice_set self.old.items (the_index_of entry.identity) (Some entry.moment) }
        ensures in_place { SameBlock self.old self.new }
    {
        self.moments[index_of(entry.identity)] = Some(entry.moment);
    }

    /// Takes out the moment of the entry's identity, where it is the entry's: a later one stays.
    /// The block stays where it is, and as large.
    pub(crate) fn clear(&mut self, entry: MemoryEntry)
        ensures moments { self.new.items ≡ (if holds_moment self.old.items entry
            then slice_set self.old.items (the_index_of entry.identity) None
            else self.old.items) }
        ensures in_place { SameBlock self.old self.new }
    {
        let place = index_of(entry.identity);
        if self.moments[place] == Some(entry.moment) {
            self.moments[place] = None;
        }
    }
}

/// The place of an identity in a table.
fn index_of(identity: Identity) -> usize
    ensures place { result ≡ the_index_of identity }
    ensures within { result < 67600 }
{
    let letters = place_in_alphabet(identity.b1) * LETTERS + place_in_alphabet(identity.b2);
    letters * NUMBERS + usize::from(identity.number)
}
