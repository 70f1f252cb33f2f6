//! Whether a copy is printed, and entered.

ghost use Rattle.std.specs.Prelude.{◌≡◌, ◌≤◌, ◌==◌, ◌&&◌, ◌||◌, ◌++◌, List, not};
ghost use Rattle.nx_memory.specs.declared.memories.entry.MemoryEntry.{MemoryEntry};
ghost use Rattle.nx_code.specs.Lists.{last_of};
ghost use Rattle.nx_memory.specs.Memory.{is_known, most_entries, newest_moment};
ghost use Rattle.nx_copies.specs.copies.Printing as spec;
ghost use Rattle.nx_copies.specs.copies.Printing.{entry_made};
ghost use Rattle.nx_envelope.specs.Copies.{errors_of};
ghost use Rattle.nx_copies.specs.copies.FoundCopies.{headed_copy};

use crate::entry::EntryHead;
use nx_envelope::How;
use nx_memory::Recall;

/// A share is good where this many times the part is less than the whole: it is less than 4 per
/// cent (ITU-R M.540).
const GOOD_SHARE: usize = 25;

/// Whether the part is less than 4 per cent of the whole, as the errors of a good copy are of its
/// characters. An empty whole counts as one.
pub fn is_good_share(part: usize, whole: usize) -> bool
    ensures { result ≡ spec.is_good_share part whole }
{
    GOOD_SHARE.saturating_mul(part) < whole.max(1)
}

/// Whether a copy that was found is printed, by its head, its text and whether it is selected. Its
/// moment isn't before the newest of the memory, and the errors of its head are those of its text,
/// its `*`. It is printed where it is selected, and is numbered 00 (ITU-R M.540) or unknown. A good
/// copy that is printed and not numbered 00 is entered into the memory.
///
/// The memory holds the last 200 of all the entries made so far, whichever they are.
pub fn judge<M: Recall>(head: &EntryHead, text: &[u8], selected: bool, memory: &mut M) -> bool
    requires newest { newest_moment (M.content memory.old) ≤ head.now.moment }
    requires errors { head.now.errors ≡ errors_of text.now }
    ensures printed { (entries : List MemoryEntry)
        → M.content memory.old ≡ last_of most_entries entries
        → result ≡ spec.is_printed entries (headed_copy head.now text.now selected) }
    ensures entered { (entries : List MemoryEntry)
        → M.content memory.old ≡ last_of most_entries entries
        → M.content memory.new ≡ last_of most_entries
        (entries ++ entry_made entries (headed_copy head.now text.now selected)) }
    ensures not_before { newest_moment (M.content memory.new) ≤ head.now.moment }
{
    let (identity, moment) = (&head.identity, head.moment);
    let printed = selected && (identity.number == 0 || !memory.knows(identity, moment));
    let is_good = head.how == How::Full && is_good_share(usize::from(head.errors), text.len());
    if printed && is_good && identity.number != 0 {
        memory.enter(*identity, moment);
    }
    printed
}
