//! What a receiver keeps while it is switched off.

ghost use Rattle.std.specs.Prelude.{◌≡◌, ◌≤◌, [], length};
ghost use Rattle.std.specs.FinSet as set;
ghost use Rattle.nx_envelope.specs.Moment.{last_moment};
ghost use Rattle.std.specs.List.{list_any};
ghost use Rattle.nx_memory.specs.Content.{is_last_known, last_known, renews};
ghost use Rattle.nx_memory.specs.Memory.{entry_at, newest_of, newest_moment};
ghost use Rattle.nx_memory.specs.Saved.{AreSavedEntries};

use crate::memories::entry::MemoryEntry;
use crate::memories::listed::Listed;
use crate::memories::recall::{CAPACITY, Recall, is_recent};
use crate::memories::renewing_recall::RenewingRecall;
use crate::selection::Selection;
use arrayvec::ArrayVec;
use nx_envelope::Identity;
use std::marker::Model;

mod text;

/// A selection and the entries of a memory, at most 200, none past the last moment. Contracts see
/// it as what is refused and the list of the entries, oldest first, and it holds nothing else.
#[derive(Drop)]
pub struct Saved {
    selection: Selection,
    entries: ArrayVec<MemoryEntry, CAPACITY>,
}

impl Model for Saved {
    ghost use Rattle.std.specs.Coded.{codes};
    ghost use Rattle.nx_memory.specs.private.RefusedCode.{refused_code};
    ghost use Rattle.nx_memory.specs.Saved.{SavedState, AreSavedEntries};

    ghost Value = { SavedState };

    ghost coded = { Prim.hlevel (codes, refused_code) };

    ghost view = { λ saved. record {
      refused = saved.selection;
      entries = saved.entries.items;
    } };

    ghost invariant = { λ saved. AreSavedEntries saved.entries.items };

    ghost inverse = { λ state. record {
      selection = state.refused;
      entries = record { items = state.entries };
    } };
}

impl Saved {
    /// Everything is selected, and there is no entry.
    #[inline(always)]
    pub fn new() -> Self
        ensures stations { result.refused.stations ≡ set.empty }
        ensures subjects { result.refused.subjects ≡ set.empty }
        ensures entries { result.entries ≡ [] }
    {
        prove!(size_of::<Saved>() == 3264);
        Saved {
            selection: Selection::all(),
            entries: ArrayVec::new(),
        }
    }

    /// The selection and the entries of the memory, none of which is past the last moment.
    pub fn of<M: Listed>(selection: &Selection, memory: &M) -> Self
        requires { newest_moment (M.content memory.now) ≤ last_moment }
        ensures refused { result.refused ≡ selection.now }
        ensures entries { result.entries ≡ M.content memory.now }
    {
        let mut entries = ArrayVec::new();
        for place in 0..memory.count() {
            if let Some((identity, moment)) = memory.entry(place) {
                entries.push(MemoryEntry { identity, moment });
            }
        }
        Saved {
            selection: *selection,
            entries,
        }
    }

    /// The selection, and of the entries of a memory that enters what it knows those that tell what
    /// is known: an entry is left out behind which one of its identity stands less than 66 hours
    /// later. None of them is past the last moment.
    pub fn of_renewing(selection: &Selection, memory: &RenewingRecall) -> Self
        requires { newest_moment memory.now ≤ last_moment }
        ensures refused { result.refused ≡ selection.now }
        ensures entries { result.entries ≡ last_known memory.now }
    {
        let selection = *selection;
        let all = memory.entries();
        let mut entries = ArrayVec::new();
        for place in 0..all.len() {
            let entry = all[place];
            if is_last_known(&entry, &all[place + 1..]) {
                entries.push(entry);
            }
        }
        Saved { selection, entries }
    }

    /// The selection.
    pub fn selection(&self) -> Selection
        ensures selection { result ≡ self.now.refused }
        ensures sound { AreSavedEntries self.now.entries }
    {
        self.selection
    }

    /// How many entries there are, at most 200.
    pub fn count(&self) -> usize
        ensures count { result ≡ length self.now.entries }
        ensures sound { AreSavedEntries self.now.entries }
    {
        self.entries.len()
    }

    /// The entry at that place, from 0, the oldest, with its moment in whole seconds since
    /// 1970-01-01 00:00:00 UTC; `None` past the newest.
    pub fn entry(&self, place: usize) -> Option<(Identity, u64)>
        ensures entry { result ≡ entry_at self.now.entries place }
        ensures sound { AreSavedEntries self.now.entries }
    {
        self.entries
            .as_slice()
            .get(place)
            .map(|entry| (entry.identity, entry.moment))
    }

    /// The moment of the newest entry, `None` where there is none.
    pub fn newest(&self) -> Option<u64>
        ensures newest { result ≡ newest_of self.now.entries }
        ensures sound { AreSavedEntries self.now.entries }
    {
        self.entries.as_slice().last().map(|entry| entry.moment)
    }

    /// Enters the entries, oldest first, into a memory that has none.
    pub fn load<M: Recall>(&self, memory: &mut M)
        requires { M.content memory.old ≡ [] }
        ensures { M.content memory.new ≡ self.now.entries }
    {
        for entry in self.entries.as_slice() {
            memory.enter(entry.identity, entry.moment);
        }
    }
}

/// Whether none of its identity stands less than 66 hours later behind an entry.
pub fn is_last_known(entry: &MemoryEntry, behind: &[MemoryEntry]) -> bool
    ensures { result ≡ is_last_known entry.now behind.now }
{
    !is_renewed(entry, behind)
}

/// Whether one of its identity stands less than 66 hours later behind an entry.
fn is_renewed(entry: &MemoryEntry, behind: &[MemoryEntry]) -> bool
    ensures { result ≡ list_any (λ other. renews entry.now other) behind.now }
{
    behind.iter().any(|other| {
        entry.identity == other.identity && is_recent(entry.moment, other.moment)
    })
}
