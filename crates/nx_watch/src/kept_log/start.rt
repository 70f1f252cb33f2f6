//! What a watch remembers of its log when it starts.

ghost use Rattle.std.specs.Prelude.{◌≡◌, ◌<◌, ◌≤◌, ◌+◌, Bool, List, [], ◌++◌, length, filter};
ghost use Rattle.std.specs.FinSet as set;
ghost use Rattle.std.specs.List.{All};
ghost use Rattle.nx_envelope.specs.Moment.{last_moment};
ghost use Rattle.nx_memory.specs.Saved.{AreSavedEntries};
ghost use Rattle.nx_memory.specs.declared.memories.entry.MemoryEntry.{MemoryEntry};
ghost use Rattle.nx_memory.specs.Content.{is_last_known, passing};
ghost use Rattle.nx_watch.specs.Start.{is_in_order, is_near, remembered_at};

use arrayvec::ArrayVec;
use nx_memory::{
    CAPACITY, MemoryEntry, PlainRecall, Recall, Saved, Selection, is_last_known, is_recent,
};

/// What is remembered at a moment of the entries that a log remembers on a channel, at most 200 in
/// their order. They are chosen in three steps. First, those less than 66 hours after the moment
/// stay. Of these, those stay behind which none with an earlier moment stands. Of these again,
/// those stay behind which none of their identity stands less than 66 hours later. Everything is
/// selected.
pub fn remembered(moment: u64, entries: &[MemoryEntry]) -> Saved
    requires few { length entries.now ≤ 200 }
    requires numbered { All (λ entry. 0 < entry.identity.number) entries.now }
    requires range { All (λ entry. entry.moment ≤ last_moment) entries.now }
    ensures entries { result.entries ≡ remembered_at moment entries.now }
    ensures stations { result.refused.stations ≡ set.empty }
    ensures subjects { result.refused.subjects ≡ set.empty }
{
    let near = near_entries(moment, entries);
    let in_order = entries_passing(near.as_slice(), stands_in_order);
    let last_known = entries_passing(in_order.as_slice(), is_last);
    saved_of(last_known.as_slice())
}

/// Those entries that lie less than 66 hours after a moment, or before it.
fn near_entries(moment: u64, entries: &[MemoryEntry]) -> ArrayVec<MemoryEntry, CAPACITY>
    requires { length entries.now ≤ 200 }
    ensures near { result.items ≡ filter (is_near moment) entries.now }
    ensures few { length result.items ≤ 200 }
{
    let mut near = ArrayVec::new();
    for entry in entries {
        if is_recent(moment, entry.moment) {
            near.push(*entry);
        }
    }
    near
}

/// Those entries that pass a test of them and of the entries behind them.
fn entries_passing<P: Fn(&MemoryEntry, &[MemoryEntry]) -> bool>(
    entries: &[MemoryEntry],
    passes: P,
) -> ArrayVec<MemoryEntry, CAPACITY>
    requires few { length entries.now ≤ 200 }
    requires callable { P.IsAlwaysCallable passes }
    ensures passing { (test : MemoryEntry → List MemoryEntry → Bool)
        → ((entry : _) (behind : _) (answer : Bool) → P.post passes entry behind answer
        → answer ≡ test entry.now behind.now)
        → result.items ≡ passing test entries.now }
    ensures few { length result.items ≤ 200 }
{
    let mut kept = ArrayVec::new();
    for place in 0..entries.len() {
        let entry = entries[place];
        let behind = &entries[place + 1..];
        if passes(&entry, behind) {
            kept.push(entry);
        }
    }
    kept
}

/// Whether none with an earlier moment stands behind an entry.
fn stands_in_order(entry: &MemoryEntry, behind: &[MemoryEntry]) -> bool
    ensures { result ≡ is_in_order entry.now behind.now }
{
    behind.iter().all(|other| entry.moment <= other.moment)
}

/// Whether none of its identity stands less than 66 hours later behind an entry.
// A function of another crate isn't taken for a closure.
fn is_last(entry: &MemoryEntry, behind: &[MemoryEntry]) -> bool
    ensures { result ≡ is_last_known entry.now behind.now }
{
    is_last_known(entry, behind)
}

/// What is saved where these are the entries of a memory, and everything is selected.
fn saved_of(entries: &[MemoryEntry]) -> Saved
    requires { AreSavedEntries entries.now }
    ensures entries { result.entries ≡ entries.now }
    ensures stations { result.refused.stations ≡ set.empty }
    ensures subjects { result.refused.subjects ≡ set.empty }
{
    let mut memory = PlainRecall::new();
    for entry in entries {
        memory.enter(entry.identity, entry.moment);
    }
    Saved::of(&Selection::all(), &memory)
}
