//! The taker of copies: it reads the words that elements bring, and says what is over with them.
//! What runs for each word is inlined always, since its answers would go through memory otherwise.

ghost use Rattle.std.specs.Prelude.{◌≡◌};
ghost use Rattle.nx_envelope.specs.Finder.{is_over};
ghost use Rattle.nx_copies.specs.hearing.CopyTaker.{setting_of, tag_after};
ghost use Rattle.nx_copies.specs.private.CopyTaker.{ReadsStep};
ghost use Rattle.nx_copies.specs.hearing.CopyHearer.{IsFresh, over_with};

use crate::lock_reader::LockReader;
use crate::word_loop::WordTaker;
use nx_code::Word;
use nx_envelope::TextEvent;
use nx_memory::Selection;
use nx_sync::Step;

/// What is over with an element that was heard, where anything is. It is copied for each element,
/// so it is small; a copy that is over is left with the finder.
#[derive(Clone, Copy, Debug, PartialEq, Eq)]
pub enum Over {
    /// A copy, which is ready.
    Copy,
    /// The lock: its text ends.
    Lock,
    /// A copy, which is ready, and the lock.
    CopyAndLock,
}

/// What was in force at the second digit of a header.
#[derive(Clone, Copy, Debug)]
pub struct CopyTag {
    /// The moment, in whole seconds since 1970-01-01 00:00:00 UTC.
    pub moment: u64,
    /// Whether the copy's station and subject were selected.
    pub is_selected: bool,
}

/// Finds the copies in what a synchroniser hears, each with the moment and the selection in force
/// at its second digit.
///
/// It holds what the reader of a lock holds, what is refused, the moment, and what was in force at
/// the header that was heard last.
#[derive(Drop)]
pub struct CopyTaker {
    /// Reads the text of the lock that stands.
    pub reader: LockReader,
    /// What is selected.
    pub selection: Selection,
    /// The moment in force, in whole seconds since 1970-01-01 00:00:00 UTC.
    pub moment: u64,
    /// What was in force at the header that was heard last.
    pub tag: CopyTag,
}

impl CopyTaker {
    /// A taker that has taken nothing, from this moment on, with what is selected at first.
    pub fn new(moment: u64, selection: Selection) -> CopyTaker
        ensures fresh { IsFresh result.reader }
        ensures selection { result.selection ≡ selection }
        ensures moment { result.moment ≡ moment }
        ensures tag { result.tag.moment ≡ moment }
    {
        prove!(size_of::<CopyTaker>() == size_of::<LockReader>() + 80);
        CopyTaker {
            reader: LockReader::new(),
            selection,
            moment,
            tag: CopyTag {
                moment,
                is_selected: false,
            },
        }
    }

    /// Reads the word that a step of the synchroniser completes, if it completes one.
    #[inline(always)]
    fn read(&mut self, step: Step) -> Option<Over>
        ensures { ReadsStep self.old self.new step result }
    {
        let Step { word, change } = step;
        let Some((word, role)) = word else {
            return None;
        };
        let event = self.reader.take_word(word, role);
        self.meet(event, change.is_some())
    }

    /// Meets what a word brings to the text of its lock: a header gets what is in force. Answers
    /// what is over with the word, by whether its lock is.
    #[inline(always)]
    pub fn meet(&mut self, event: TextEvent, is_lock_over: bool) -> Option<Over>
        ensures tag { self.new ≡ record self.old {
          tag = tag_after (setting_of self.old) self.old.tag event;
        } }
        ensures over { result ≡ over_with (is_over event) is_lock_over }
    {
        let is_copy_over = match event {
            TextEvent::Nothing => false,
            TextEvent::Header(identity) => {
                self.tag = CopyTag {
                    moment: self.moment,
                    is_selected: self.selection.admits(&identity),
                };
                false
            }
            TextEvent::CopyOver => true,
        };
        match (is_copy_over, is_lock_over) {
            (false, false) => None,
            (true, false) => Some(Over::Copy),
            (false, true) => Some(Over::Lock),
            (true, true) => Some(Over::CopyAndLock),
        }
    }
}

impl WordTaker for CopyTaker {
    ghost use Rattle.nx_copies.specs.hearing.CopyTaker.{Hears};
    ghost use Rattle.nx_copies.specs.hearing.CopyTakerLaws.{heard-both, heard-none};

    type Over = Over;

    ghost hears = { Hears };

    #[inline(always)]
    fn take_step(&mut self, _count: usize, step: Step) -> Option<Over> {
        self.read(step)
    }

    #[inline(always)]
    fn take_plain(&mut self, words: &[Word]) -> bool {
        self.reader.hear_plain(words)
    }

    // Few words go this way, and a loop over words has the registers to itself.
    #[inline(never)]
    fn take_pairs(&mut self, words: &[Word]) -> (usize, Option<Over>) {
        let (heard, event) = self.reader.hear_pairs(words);
        (heard, self.meet(event, false))
    }

    ghost none = { heard-none };

    ghost both = { heard-both };

    ghost room = { λ old new before after bits over count more hears few room. room };
}
