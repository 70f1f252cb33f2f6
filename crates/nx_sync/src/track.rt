//! How a lock is followed. What runs for each word is inlined always, since a call would cost more
//! than its few instructions.

ghost use Rattle.std.specs.Prelude.{◌≡◌, ◌∷◌, ◌++◌, [], Some, None};
ghost use Rattle.circular_buffer.specs.Buffer.{keep_last};
ghost use Rattle.nx_code.specs.Word.{is_wrong};
ghost use Rattle.nx_sync.specs.Words.{marked_words};
ghost use Rattle.nx_sync.specs.declared.step.Change.{Change};
ghost use Rattle.nx_sync.specs.private.Calls.{track_from, track_after, change_of};
ghost use Rattle.nx_sync.specs.Synchroniser as held;

use crate::mark_bits::Marks;
use crate::phasing::PHASING_1;
use crate::step::{Change, Role, Step};
use nx_code::{Word, check_bits};

/// How a lock is followed. One that is copied for each word, so all of it is small.
#[derive(Clone, Copy, Debug)]
pub(crate) struct Track {
    /// The role of the word that is being filled.
    pub(crate) role: Role,
    /// How many of its elements were heard.
    pub(crate) filled: u8,
    /// Which of the five words before it were DX words that were phasing signal 1, as bits, the
    /// oldest word in the least place. A word that isn't there was none.
    pub(crate) was_p1: u8,
}

impl Track {
    /// The track of a lock whose first word has this role.
    #[inline(always)]
    pub(crate) fn begin(role: Role) -> Track
        ensures { result ≡ track_from role }
    {
        Track {
            role,
            filled: 0,
            was_p1: 0,
        }
    }

    /// Whether the next element is the first of a DX word, and neither of the two DX words before
    /// it was phasing signal 1.
    #[inline(always)]
    pub(crate) fn awaits_free_dx(self) -> bool
        ensures { result ≡ held.awaits_free_dx (Some self) }
    {
        (self.filled == 0) & (self.role == Role::Dx) & (self.was_p1 == 0)
    }

    /// What the word that was being filled brings, now that it is complete; and the track after it,
    /// None where it brings a change. Its mark is added to those of the lock.
    #[inline(always)]
    pub(crate) fn complete(self, word: Word, marks: &mut Marks) -> (Option<Track>, Step)
        ensures marks { marks.new ≡ keep_last marked_words (marks.old ++ is_wrong word ∷ []) }
        ensures change { result.1.change ≡ change_of self marks.new }
        ensures word { result.1.word ≡ Some (word, self.role) }
        ensures goes_on { result.1.change ≡ None → result.0 ≡ Some (track_after self word) }
        ensures over { (how : Change) → result.1.change ≡ Some how → result.0 ≡ None }
    {
        marks.push(!check_bits(word));
        let is_lost = marks.loses_lock();
        // A lock has ended where the words three and five before, which are DX words, are both
        // phasing signal 1.
        let is_ended = self.was_p1 % 2 == 1 && self.was_p1 / 4 % 2 == 1;
        // Most words bring no change.
        let change = if !is_ended && !is_lost {
            None
        } else if is_ended {
            Some(Change::Ended)
        } else {
            Some(Change::LostLock)
        };
        let is_p1 = self.role == Role::Dx && word.number() == PHASING_1;
        let next = match change {
            None => Some(Track {
                role: self.role.other(),
                filled: 0,
                was_p1: (self.was_p1 >> 1) + (u8::from(is_p1) << 4),
            }),
            Some(_) => None,
        };
        let step = Step {
            word: Some((word, self.role)),
            change,
        };
        (next, step)
    }
}
