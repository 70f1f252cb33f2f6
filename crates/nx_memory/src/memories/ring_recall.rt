//! A memory that keeps its entries in a ring, and beside it a table of the last moment of each
//! identity.

ghost use Rattle.std.specs.Prelude.{◌≡◌, [], IfOk};

use crate::memories::entry::MemoryEntry;
use crate::memories::listed::Listed;
use crate::memories::moment_table::MomentTable;
use crate::memories::recall::{CAPACITY, Recall, is_recent};
use circular_buffer::HeapCircularBuffer;
use nx_envelope::Identity;
use std::alloc::{AllocError, Global};
use std::marker::Model;

/// A memory that knows an identity by one look into a table. Contracts see it as the list of its
/// entries, oldest first, and the block of its table, and it holds nothing else.
#[derive(Drop)]
pub struct RingRecall {
    entries: HeapCircularBuffer<MemoryEntry>,
    table: MomentTable,
}

impl Model for RingRecall {
    ghost use Rattle.std.proofs.Common.{sym};
    ghost use Rattle.circular_buffer.specs.Buffer.{buffer};
    ghost use Rattle.nx_memory.specs.Ring.{RingMemory};
    ghost use Rattle.nx_memory.specs.private.RingAndTable.{IsRingMemory};

    ghost Value = { RingMemory };

    ghost view = { λ memory. record { content = memory.entries.items; table = memory.table } };

    ghost invariant = { λ memory. IsRingMemory memory.entries memory.table };

    ghost inverse = { λ held. record { entries = buffer held.content 200; table = held.table } };

    ghost inverse_ok = { λ memory is i. record {
      entries = buffer memory.entries.items (sym is.capacity i);
      table = memory.table;
    } };
}

impl RingRecall {
    /// A memory with no entry. Its calls take no memory from then on. Fails where memory ran out.
    pub fn new(alloc: Global) -> Result<Self, AllocError>
        ensures { IfOk result (λ memory. memory.content ≡ []) }
    {
        prove!(size_of::<RingRecall>() == 56);
        Ok(RingRecall {
            entries: HeapCircularBuffer::with_capacity(alloc, CAPACITY)?,
            table: MomentTable::new(alloc)?,
        })
    }
}

impl Recall for RingRecall {
    ghost content = { λ memory. memory.content };

    fn newest(&self) -> Option<u64> {
        self.entries.back().map(|entry| entry.moment)
    }

    fn knows(&self, identity: &Identity, moment: u64) -> bool {
        match self.table.moment_of(*identity) {
            Some(last) => is_recent(last, moment),
            None => false,
        }
    }

    fn enter(&mut self, identity: Identity, moment: u64) {
        let entry = MemoryEntry { identity, moment };
        if let Some(forgotten) = self.entries.push_back(entry) {
            self.table.clear(forgotten);
        }
        self.table.set(entry);
    }
}

impl Listed for RingRecall {
    fn count(&self) -> usize {
        self.entries.len()
    }

    fn entry(&self, place: usize) -> Option<(Identity, u64)> {
        let entry = self.entries.get(place)?;
        Some((entry.identity, entry.moment))
    }
}
