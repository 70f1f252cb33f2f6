//! What takes what the elements bring, and shows their locks. What runs for each word is inlined
//! always; what opens or closes a lock never is.

ghost use Rattle.std.specs.Prelude.{◌≡◌, ◌+◌, ◌*◌, ◌≤◌, [], ◌∷◌, ◌++◌, length};
ghost use Rattle.std.specs.List.{flat_map};
ghost use Rattle.nx_code.specs.Packed.{packed_elements, packed_part};
ghost use Rattle.nx_code.specs.Word.{elements};
ghost use Rattle.nx_sync.specs.Ahead.{BringsWords};
ghost use Rattle.nx_sync.specs.Synchroniser.{Held};
ghost use Rattle.nx_envelope.specs.Moment.{last_moment};
ghost use Rattle.nx_locks.specs.ReportText.{last_line};
ghost use Rattle.nx_locks.specs.private.Taker.{Closes, HasRoom, Hears, Opens, ReadsWord, ShowsStep, TakerShows};

use crate::reader::CountingReader;
use crate::report_text::{Counts, Shown, close_lock, end_report, open_lock};
use arrayvec::ArrayVec;
use nx_code::{ELEMENTS, NEWLINE, Word};
use nx_copies::{WordTaker, hear_elements};
use nx_sync::{Change, Role, Step, Synchroniser};
use std::convert::Infallible;
use std::marker::Model;

/// Takes what the elements bring, and shows their locks.
///
/// It holds what the reader of a lock holds, the moment in force, counts, and what was shown since
/// it was last cleared.
#[derive(Drop)]
pub(crate) struct LockTaker {
    reader: CountingReader,
    /// The moment in force, in whole seconds since 1970-01-01 00:00:00 UTC.
    moment: u64,
    /// How many elements were heard.
    elements: u64,
    /// How many locks began.
    locks: u64,
    /// How many headers stand in the texts of the locks that are over.
    copies: u64,
    shown: Shown,
}

impl Model for LockTaker {
    ghost use Rattle.std.specs.Prelude.{◌≤◌};
    ghost use Rattle.nx_envelope.specs.Moment.{last_moment};
    ghost use Rattle.nx_locks.specs.private.Taker.{Taking};

    ghost Value = { Taking };

    ghost view = { λ t. record {
      reader = t.reader;
      moment = t.moment;
      elements = t.elements;
      locks = t.locks;
      copies = t.copies;
      shown = t.shown.items;
    } };

    ghost invariant = { λ t. t.moment ≤ last_moment };

    ghost inverse = { λ v. record {
      reader = v.reader;
      moment = v.moment;
      elements = v.elements;
      locks = v.locks;
      copies = v.copies;
      shown = record { items = v.shown };
    } };
}

impl LockTaker {
    /// A taker that has taken nothing, at moment 0.
    pub(crate) fn new() -> LockTaker
        ensures shows { TakerShows result [] [] [] }
        ensures moment { result.moment ≡ 0 }
    {
        prove!(size_of::<LockTaker>() == size_of::<CountingReader>() + size_of::<Shown>() + 32);
        LockTaker {
            reader: CountingReader::new(),
            moment: 0,
            elements: 0,
            locks: 0,
            copies: 0,
            shown: ArrayVec::new(),
        }
    }

    /// The moment in force.
    pub(crate) fn moment(&self) -> u64
        ensures { result ≡ self.now.moment }
    {
        self.moment
    }

    /// Sets the moment in force, which is at most the last one.
    pub(crate) fn set_moment(&mut self, moment: u64)
        requires { moment ≤ last_moment }
        ensures { self.new ≡ record self.old { moment = moment } }
    {
        self.moment = moment;
    }

    /// How many elements were heard.
    pub(crate) fn elements(&self) -> u64
        ensures { result ≡ self.now.elements }
    {
        self.elements
    }

    /// What was shown since it was last cleared.
    pub(crate) fn shown(&self) -> &[u8]
        ensures { result.now ≡ self.now.shown }
    {
        self.shown.as_slice()
    }

    /// Clears what was shown.
    pub(crate) fn clear(&mut self)
        ensures { self.new ≡ record self.old { shown = [] } }
    {
        self.shown.clear();
    }

    /// Shows what a step of the synchroniser brings. There is room for what one element may show.
    #[inline(always)]
    fn show(&mut self, step: Step)
        requires room { HasRoom self.old 1 }
        ensures few { length self.new.shown ≤ length self.old.shown + 113 }
        ensures shows { ShowsStep self.old self.new step }
        ensures moment { self.new.moment ≡ self.old.moment }
    {
        let Step { word, change } = step;
        match word {
            Some((word, role)) => self.read(word, role, change),
            None => {
                if change.is_some() {
                    self.open();
                }
            }
        }
    }

    /// Opens a lock that was found. There is room for what one element may show.
    #[inline(never)]
    fn open(&mut self)
        requires room { HasRoom self.old 1 }
        ensures few { length self.new.shown ≤ length self.old.shown + 113 }
        ensures opens { Opens self.old self.new }
    {
        self.locks = self.locks.saturating_add(1);
        open_lock(&mut self.shown, self.moment, self.elements);
    }

    /// Reads a word of the lock, which may end it. There is room for what one element may show.
    #[inline(always)]
    fn read(&mut self, word: Word, role: Role, change: Option<Change>)
        requires room { HasRoom self.old 1 }
        ensures few { length self.new.shown ≤ length self.old.shown + 113 }
        ensures reads { ReadsWord self.old self.new word role change }
    {
        self.reader.hear_word(word, role, &mut self.shown);
        if let Some(how) = change {
            self.close(how);
        }
    }

    /// Closes the text of the lock, of which this came, and begins anew for the next one. There is
    /// room for 112 bytes more.
    #[inline(never)]
    pub(crate) fn close(&mut self, how: Change)
        requires room { length self.old.shown + 112 ≤ 57856 }
        ensures few { length self.new.shown ≤ length self.old.shown + 112 }
        ensures closes { Closes self.old self.new how }
    {
        if self.reader.is_line_open() {
            self.shown.push(NEWLINE);
        }
        let counts = Counts {
            words: self.reader.words(),
            wrong: self.reader.wrong(),
            copies: self.reader.copies(),
        };
        close_lock(&mut self.shown, self.moment, how, counts);
        self.copies = self.copies.saturating_add(self.reader.copies());
        self.reader.restart();
    }

    /// Ends the report, all locks of which are closed: shows the last line. Answers how many locks
    /// there are, and how many headers stand in their texts. There is room for 87 bytes more.
    pub(crate) fn end(&mut self) -> (u64, u64)
        requires room { length self.old.shown + 87 ≤ 57856 }
        ensures line { self.new.shown
            ≡ self.old.shown ++ last_line self.old.elements self.old.locks self.old.copies }
        ensures counts { result ≡ (self.old.locks, self.old.copies) }
    {
        end_report(&mut self.shown, self.elements, self.locks, self.copies);
        (self.locks, self.copies)
    }
}

impl LockTaker {
    /// Hears the first `count` packed elements of these numbers by this synchroniser, and shows
    /// their locks. So many are in them, and there is room for what they may show.
    #[inline(always)]
    pub(crate) fn hear(&mut self, synchroniser: &mut Synchroniser, numbers: &[u64], count: usize)
        requires part { count ≤ packed_elements * length numbers.now }
        requires room { HasRoom self.old count }
        ensures { Hears synchroniser.old self.old (packed_part numbers.now 0 count)
            synchroniser.new self.new }
    {
        let (_all, None) = hear_elements(self, synchroniser, numbers, 0, count);
    }

    /// Takes two words of a lock that bring no change, a DX word and an RX word. There is room for
    /// what their 14 elements may show. Never inlined: few words go this way, and a loop over words
    /// has the registers to itself. They are handed over by value, so that the words at once
    /// needn't stand in memory for it.
    #[inline(never)]
    fn take_pair(&mut self, dx: Word, rx: Word)
        requires room { HasRoom self.old 14 }
        ensures { (old new : Held) → BringsWords old new (dx ∷ rx ∷ [])
            → Hears old self.old (flat_map elements (dx ∷ rx ∷ [])) new self.new }
    {
        self.elements = self.elements.saturating_add(2 * ELEMENTS as u64);
        self.reader.hear_word(dx, Role::Dx, &mut self.shown);
        self.reader.hear_word(rx, Role::Rx, &mut self.shown);
    }
}

impl WordTaker for LockTaker {
    ghost use Rattle.nx_locks.specs.private.Taker.{HasRoom, Hears};
    ghost use Rattle.nx_locks.specs.private.TakerLaws.{hears_both, hears_none, room_behind};

    /// Nothing is ever over: the next lock is shown as this one is.
    type Over = Infallible;

    ghost has_room = { HasRoom };

    ghost hears = { λ old before bits new after over. Hears old before bits new after };

    #[inline(always)]
    fn take_step(&mut self, count: usize, step: Step) -> Option<Infallible> {
        self.elements = self.elements.saturating_add(count as u64);
        self.show(step);
        None
    }

    #[inline(always)]
    fn take_plain(&mut self, words: &[Word]) -> bool {
        if !self.reader.hear_words(words, &mut self.shown) {
            return false;
        }
        let elements = (ELEMENTS * words.len()) as u64;
        self.elements = self.elements.saturating_add(elements);
        true
    }

    #[inline(always)]
    fn take_pairs(&mut self, words: &[Word]) -> (usize, Option<Infallible>) {
        self.take_pair(words[0], words[1]);
        (2, None)
    }

    ghost none = { λ held taker. hears_none held taker };

    ghost both = { λ old mid new first between last xs ys over one rest.
        hears_both old mid new first between last xs ys one rest };

    ghost room = { λ old new before after bits over count more hears within room.
        room_behind old new before after bits count more hears within room };
}
