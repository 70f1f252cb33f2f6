//! What is remembered of a logged entry.

ghost use Rattle.std.specs.Prelude.{◌≡◌, ℕ, List, length, Some, None, if◌then◌else◌};
ghost use Rattle.nx_envelope.specs.Copies.{errors_of};
ghost use Rattle.nx_log.specs.Logged.{is_memorable as the_is_memorable};
ghost use Rattle.nx_log.specs.View.{IsViewOf, copy_said};
ghost use Rattle.nx_copies.specs.copies.Printing.{entry_of};
ghost use Rattle.nx_copies.specs.copies.Printing as spec;

use crate::entries::entry::EntryView;
use crate::entries::head::LoggedHead;
use nx_copies::is_good_share;
use nx_envelope::How;
use nx_memory::MemoryEntry;

impl LoggedHead {
    /// Whether the entry that it heads is good: full, and less than 4 per cent of its characters
    /// are errors.
    pub fn is_good(&self) -> bool
        ensures { (text : List ℕ) → self.now.errors ≡ errors_of text
            → self.now.characters ≡ length text
            → result ≡ spec.is_good (copy_said self.now text).copy }
    {
        self.how == How::Full
            && is_good_share(usize::from(self.errors), usize::from(self.characters))
    }
}

/// What is remembered of a logged entry: its identity with its moment, where it is good and isn't
/// numbered 00, and else nothing.
pub fn remembered_of(view: &EntryView) -> Option<MemoryEntry>
    ensures { (bytes : List ℕ) → IsViewOf bytes view.now
        → let copy = (copy_said view.now.head view.now.text.now).copy
        in result ≡ (if the_is_memorable copy then Some (entry_of copy) else None) }
{
    let head = &view.head;
    if is_remembered(head) {
        Some(MemoryEntry {
            identity: head.identity,
            moment: head.moment,
        })
    } else {
        None
    }
}

/// Whether the entry that this heads is remembered.
fn is_remembered(head: &LoggedHead) -> bool
    ensures { (text : List ℕ) → head.now.errors ≡ errors_of text
        → head.now.characters ≡ length text
        → result ≡ the_is_memorable (copy_said head.now text).copy }
{
    head.is_good() && head.identity.number() != 0
}
