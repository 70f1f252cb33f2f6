//! A memory in a fixed array, in which what is known can be entered once more.

ghost use Rattle.std.specs.Prelude.{◌≡◌, ◌<◌, ◌≤◌, []};
ghost use Rattle.nx_memory.specs.Content.{IsRenewedContent};
ghost use Rattle.nx_memory.specs.Memory.{content_after, newest_moment};

use crate::memories::entry::MemoryEntry;
use crate::memories::recall::{CAPACITY, Recall, is_recent};
use crate::memories::renewing::Renewing;
use arrayvec::ArrayVec;
use nx_envelope::Identity;
use std::marker::Model;

/// A memory that looks through all its entries, of which several may bear one identity. So it has
/// nothing that a forgotten entry could take from a later one. Contracts see it as their list,
/// oldest first, and it holds nothing else. None is numbered 00, and their moments never fall.
#[derive(Drop)]
pub struct RenewingRecall {
    entries: ArrayVec<MemoryEntry, CAPACITY>,
}

impl Model for RenewingRecall {
    ghost use Rattle.std.specs.Prelude.{List};
    ghost use Rattle.nx_memory.specs.declared.memories.entry.MemoryEntry.{MemoryEntry};
    ghost use Rattle.nx_memory.specs.Content.{IsRenewedContent};

    ghost Value = { List MemoryEntry };

    ghost view = { λ memory. memory.entries.items };

    ghost invariant = { λ memory. IsRenewedContent memory.entries.items };

    ghost inverse = { λ content. record { entries = record { items = content } } };
}

impl RenewingRecall {
    /// A memory with no entry.
    pub fn new() -> Self
        ensures { result ≡ [] }
    {
        prove!(size_of::<RenewingRecall>() == 3208);
        RenewingRecall {
            entries: ArrayVec::new(),
        }
    }

    /// The entries, oldest first.
    pub(crate) fn entries(&self) -> &[MemoryEntry]
        ensures entries { result.now ≡ self.now }
        ensures content { IsRenewedContent self.now }
    {
        self.entries.as_slice()
    }

    /// Enters the identity with the moment, which isn't before the newest; where there are 200
    /// entries already the oldest is forgotten. The number 00 is never entered.
    pub(crate) fn push(&mut self, identity: Identity, moment: u64)
        requires not_before { newest_moment self.old ≤ moment }
        requires numbered { 0 < identity.number }
        ensures { self.new ≡ content_after self.old identity moment }
    {
        if self.entries.is_full() {
            self.entries.remove(0);
        }
        self.entries.push(MemoryEntry { identity, moment });
    }
}

impl Recall for RenewingRecall {
    ghost content = { λ memory. memory };

    fn newest(&self) -> Option<u64> {
        self.entries.as_slice().last().map(|entry| entry.moment)
    }

    fn knows(&self, identity: &Identity, moment: u64) -> bool {
        self.entries.as_slice().iter().any(|entry| entry.identity == *identity
            && is_recent(entry.moment, moment))
    }

    fn enter(&mut self, identity: Identity, moment: u64) {
        self.push(identity, moment);
    }
}

impl Renewing for RenewingRecall {
    fn renew(&mut self, identity: Identity, moment: u64) {
        self.push(identity, moment);
    }
}
