//! A memory that keeps its entries in order in a fixed array, and enters nothing that it knows.

ghost use Rattle.std.specs.Prelude.{◌≡◌, []};

use crate::memories::listed::Listed;
use crate::memories::recall::Recall;
use crate::memories::renewing_recall::RenewingRecall;
use nx_envelope::Identity;
use std::marker::Model;

/// A memory that looks through all its entries. Contracts see it as their list, oldest first, and
/// it holds nothing else.
#[derive(Drop)]
pub struct PlainRecall {
    entries: RenewingRecall,
}

impl Model for PlainRecall {
    ghost use Rattle.std.specs.Prelude.{List};
    ghost use Rattle.nx_memory.specs.declared.memories.entry.MemoryEntry.{MemoryEntry};
    ghost use Rattle.nx_memory.specs.Content.{IsContent};

    ghost Value = { List MemoryEntry };

    ghost view = { λ memory. memory.entries };

    ghost invariant = { λ memory. IsContent memory.entries };

    ghost inverse = { λ content. record { entries = content } };
}

impl PlainRecall {
    /// A memory with no entry.
    #[inline(always)]
    pub fn new() -> Self
        ensures { result ≡ [] }
    {
        prove!(size_of::<PlainRecall>() == 3208);
        PlainRecall {
            entries: RenewingRecall::new(),
        }
    }
}

/// A memory with no entry.
impl Default for PlainRecall {
    ghost is_default = { λ memory. memory ≡ [] };

    fn default() -> Self {
        PlainRecall::new()
    }
}

impl Recall for PlainRecall {
    ghost content = { λ memory. memory };

    fn newest(&self) -> Option<u64> {
        self.entries.newest()
    }

    fn knows(&self, identity: &Identity, moment: u64) -> bool {
        self.entries.knows(identity, moment)
    }

    fn enter(&mut self, identity: Identity, moment: u64) {
        self.entries.enter(identity, moment);
    }
}

impl Listed for PlainRecall {
    fn count(&self) -> usize {
        self.entries.entries().len()
    }

    fn entry(&self, place: usize) -> Option<(Identity, u64)> {
        let entry = self.entries.entries().get(place)?;
        Some((entry.identity, entry.moment))
    }
}
