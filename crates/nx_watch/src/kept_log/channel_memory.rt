//! What a kept log remembers of a channel.

ghost use Rattle.std.specs.Prelude.{◌≡◌, ◌<◌, ◌≤◌, List, [], ◌∷◌, ◌++◌};
ghost use Rattle.std.specs.FinSet as set;
ghost use Rattle.std.specs.List.{All};
ghost use Rattle.nx_code.specs.Lists.{last_of};
ghost use Rattle.nx_envelope.specs.Moment.{last_moment};
ghost use Rattle.nx_memory.specs.Memory.{most_entries};
ghost use Rattle.nx_memory.specs.declared.memories.entry.MemoryEntry.{MemoryEntry as TheEntry};
ghost use Rattle.nx_watch.specs.Start.{remembered_at};

use crate::kept_log::start::remembered;
use arrayvec::ArrayVec;
use nx_memory::{CAPACITY, MemoryEntry, Saved};

/// The last 200 entries of a memory that the log remembers of a channel.
#[derive(Drop)]
pub(crate) struct ChannelMemory {
    pub(crate) entries: ArrayVec<MemoryEntry, CAPACITY>,
    ghost numbered: { All (λ entry. 0 < entry.identity.number) entries.items },
    ghost in_range: { All (λ entry. entry.moment ≤ last_moment) entries.items },
}

impl ChannelMemory {
    /// Nothing is remembered.
    pub(crate) fn new() -> ChannelMemory
        ensures { result.entries.items ≡ [] }
    {
        ChannelMemory {
            entries: ArrayVec::new(),
        }
    }

    /// Remembers one entry more, behind the others.
    pub(crate) fn enter(&mut self, entry: MemoryEntry)
        requires numbered { 0 < entry.identity.number }
        requires in_range { entry.moment ≤ last_moment }
        ensures { (all : List TheEntry) → self.old.entries.items ≡ last_of most_entries all
            → self.new.entries.items ≡ last_of most_entries (all ++ entry ∷ []) }
    {
        if self.entries.is_full() {
            self.entries.remove(0);
        }
        self.entries.push(entry);
    }

    /// What is remembered at a moment. Everything is selected.
    pub(crate) fn saved_at(&self, moment: u64) -> Saved
        ensures entries { result.entries ≡ remembered_at moment self.now.entries.items }
        ensures stations { result.refused.stations ≡ set.empty }
        ensures subjects { result.refused.subjects ≡ set.empty }
    {
        remembered(moment, self.entries.as_slice())
    }
}
