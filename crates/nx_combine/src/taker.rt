//! The taker of copies and of their positions: it reads the words that elements bring, notes the
//! positions of the copy that stands open, and says what is over with them. What runs for each word
//! is inlined always, since its answers would go through memory otherwise.

ghost use Rattle.std.specs.Prelude.{◌≡◌, ◌<◌, ◌≤◌, ℕ, Bool, false, true, List, [], None, IfSome, length};
ghost use Rattle.nx_code.specs.Packed.{packed_part};
ghost use Rattle.nx_envelope.specs.Finder.{is_over, is_ready};
ghost use Rattle.nx_sync.specs.Synchroniser.{Held, StandsAfter};
ghost use Rattle.nx_copies.specs.Events.{Setting};
ghost use Rattle.nx_sync.specs.Ahead.{HasPart};
ghost use Rattle.nx_copies.specs.hearing.CopyHearer.{over_now, over_with};
ghost use Rattle.nx_copies.specs.hearing.CopyTaker.{hearer_of, setting_of, tag_after};
ghost use Rattle.nx_combine.specs.CopyPositions.{HeardCopy, LockPositions};
ghost use Rattle.nx_combine.specs.CombinedHearing.{AllHeard, CombinedOver, CombinedStands, HearsHeard, LockHeard};
ghost use Rattle.nx_combine.specs.Notes.{IsNoted};
ghost use Rattle.nx_combine.specs.private.TakerSteps.{NotesWord, TakesPair, TakesStep, TakesWord, from_after, left_by, with_read};

use crate::notes::PositionNotes;
use crate::position::Position;
use nx_code::Word;
use nx_copies::{CopyTaker, Over, ReadPosition, WordTaker, hear_elements};
use nx_envelope::TextEvent;
use nx_memory::Selection;
use nx_sync::{Change, Role, Step, Synchroniser};

/// Finds the copies in what a synchroniser hears, each with the moment and the selection in force
/// at its second digit, and with its positions.
#[derive(Drop)]
pub struct CombinedTaker {
    /// Finds the copies.
    pub copies: CopyTaker,
    /// Notes the positions of the copy that stands open, or that ended last.
    pub notes: PositionNotes,
}

impl PositionNotes {
    /// Takes the position that a word completes, if it completes one, and what the word brings: the
    /// notes begin anew behind a header.
    #[inline(always)]
    fn take(&mut self, read: Option<ReadPosition>, event: TextEvent)
        requires { IfSome read (λ position. position.class < 34) }
        ensures { (lock : LockPositions) (from : ℕ) → IsNoted self.old lock from
            → IsNoted self.new (with_read lock read)
            (from_after event (length (with_read lock read).taken) from) }
    {
        self.note_read(read);
        if let TextEvent::Header(_) = event {
            self.begin();
        }
    }

    /// Notes the position that a word completes, if it completes one.
    #[inline(always)]
    fn note_read(&mut self, read: Option<ReadPosition>)
        requires { IfSome read (λ position. position.class < 34) }
        ensures { (lock : LockPositions) (from : ℕ) → IsNoted self.old lock from
            → IsNoted self.new (with_read lock read) from }
    {
        if let Some(position) = read {
            self.note(Position::of_class(position.class), position.is_alike);
        }
    }

    /// Leaves out what is not sure where this change loses the lock, unless a copy ended with its
    /// last word.
    #[inline(always)]
    fn leave(&mut self, change: Option<Change>, event: TextEvent)
        ensures { self.new ≡ left_by change event self.old }
    {
        if change == Some(Change::LostLock) && !is_over(event) {
            self.leave_unsure();
        }
    }
}

/// Whether the event is the end of a copy.
#[inline(always)]
fn is_over(event: TextEvent) -> bool
    ensures { result ≡ is_over event }
{
    match event {
        TextEvent::CopyOver => true,
        TextEvent::Nothing | TextEvent::Header(_) => false,
    }
}

impl CombinedTaker {
    /// A taker that has taken nothing, from this moment on, with what is selected at first.
    pub fn new(moment: u64, selection: Selection) -> CombinedTaker
        ensures stands { (first : Setting) (held : Held) → StandsAfter held []
            → CombinedStands first held result [] [] [] }
        ensures selection { result.copies.selection ≡ selection }
        ensures moment { result.copies.moment ≡ moment }
        ensures tag { result.copies.tag.moment ≡ moment }
    {
        CombinedTaker {
            copies: CopyTaker::new(moment, selection),
            notes: PositionNotes::new(),
        }
    }

    /// Hears packed elements by this synchroniser, so many from a place on, as `hear_elements`
    /// does: up to and with the first one with which anything is over. Says how many, and what is
    /// over.
    #[inline(always)]
    pub fn hear(
        &mut self,
        synchroniser: &mut Synchroniser,
        numbers: &[u64],
        from: usize,
        count: usize,
    ) -> (usize, Option<Over>)
        requires part { HasPart numbers.now from count }
        ensures within { result.0 ≤ count }
        ensures some { 0 < count → 0 < result.0 }
        ensures all { result.1 ≡ None → result.0 ≡ count }
        ensures heard { HearsHeard synchroniser.old self.old (packed_part numbers.now from result.0)
            synchroniser.new self.new result.1 }
    {
        hear_elements(self, synchroniser, numbers, from, count)
    }

    /// Ends the text: of the lock that is over, where it alone is, or of that which stands, where
    /// all elements were heard. A copy that stood open is ready then, and what was noted are its
    /// positions. Those are kept until the next lock is found.
    pub fn close(&mut self)
        ensures lock { (first : Setting) (held : Held) (bits : List Bool) (settings : List Setting)
            (copies : List HeardCopy) → LockHeard first held self.old bits settings copies
            → CombinedOver first held self.new bits settings copies
            (over_now (hearer_of held self.new.copies) false) }
        ensures all { (first : Setting) (held : Held) (bits : List Bool) (settings : List Setting)
            (copies : List HeardCopy) → CombinedStands first held self.old bits settings copies
            → AllHeard first held self.new bits settings copies }
        ensures kept { self.new ≡ record self.old {
          copies = record self.old.copies { reader = self.new.copies.reader };
        } }
    {
        self.copies.reader.close();
    }

    /// Ends the text of a lock that is over where a copy ended with its last word. That copy is
    /// gone then, but for its text and its positions.
    pub fn leave_lock(&mut self)
        ensures stands { (first : Setting) (held : Held) (bits : List Bool)
            (settings : List Setting) (copies : List HeardCopy)
            → is_ready self.old.copies.reader.finder ≡ true
            → LockHeard first held self.old bits settings copies
            → CombinedStands first held self.new bits settings copies }
        ensures text { self.new.copies.reader.finder.text ≡ self.old.copies.reader.finder.text }
        ensures kept { self.new ≡ record self.old {
          copies = record self.old.copies { reader = self.new.copies.reader };
        } }
    {
        self.copies.reader.restart();
    }

    /// Reads a word of the lock, and notes the position that it completes. Answers what it brings.
    #[inline(always)]
    fn read(&mut self, word: Word, role: Role) -> TextEvent
        ensures notes { NotesWord self.old self.new word role result }
        ensures kept { self.new.copies
            ≡ record self.old.copies { reader = self.new.copies.reader } }
    {
        let (position, event) = self.copies.reader.read_position(word, role);
        self.notes.take(position, event);
        event
    }

    /// Takes a step of the synchroniser.
    #[inline(always)]
    fn take(&mut self, step: Step) -> Option<Over>
        ensures { TakesStep self.old self.new step result }
    {
        let Step { word, change } = step;
        let Some((word, role)) = word else {
            if change.is_some() {
                self.notes.restart();
            }
            return None;
        };
        self.take_word(word, role, change)
    }

    /// Takes two words of the lock that bring no change, a DX word and an RX word.
    #[inline(always)]
    fn take_pair(&mut self, dx: Word, rx: Word) -> Option<Over>
        ensures { TakesPair self.old self.new dx rx result }
    {
        let _nothing = self.read(dx, Role::Dx);
        self.take_word(rx, Role::Rx, None)
    }

    /// Takes a word of the lock, which has that role and brings that change.
    #[inline(always)]
    fn take_word(&mut self, word: Word, role: Role, change: Option<Change>) -> Option<Over>
        ensures { TakesWord self.old self.new word role change result }
    {
        let event = self.read(word, role);
        self.notes.leave(change, event);
        self.copies.meet(event, change.is_some())
    }
}

impl WordTaker for CombinedTaker {
    ghost use Rattle.nx_combine.specs.CombinedTaker.{Hears};
    ghost use Rattle.nx_combine.specs.CombinedTakerLaws.{heard-both, heard-none};

    type Over = Over;

    ghost hears = { Hears };

    #[inline(always)]
    fn take_step(&mut self, _count: usize, step: Step) -> Option<Over> {
        self.take(step)
    }

    // Each position is noted, so no words are taken at once.
    #[inline(always)]
    fn take_plain(&mut self, _words: &[Word]) -> bool {
        false
    }

    #[inline(always)]
    fn take_pairs(&mut self, words: &[Word]) -> (usize, Option<Over>) {
        (2, self.take_pair(words[0], words[1]))
    }

    ghost none = { heard-none };

    ghost both = { heard-both };

    ghost room = { λ old new before after bits over count more hears few room. room };
}
