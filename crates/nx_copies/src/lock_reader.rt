//! The text of one lock, read from its words. What runs for each word or for some at once is
//! inlined always, since its answers would go through memory otherwise.

ghost use Rattle.std.specs.Prelude.{◌≡◌, ◌↔◌, ◌+◌, ◌*◌, ◌%◌, ◌<◌, ◌≤◌, ℕ, List, Some, None, false, [], ◌∷◌, length, take, IfSome, IsNone, IsTrue, MatchOption};
ghost use Rattle.std.specs.Option.{ForSome, option_map, option_to_list};
ghost use Rattle.nx_sync.specs.Ahead.{ArePairs};
ghost use Rattle.nx_sync.specs.Words.{role_of};
ghost use Rattle.nx_sync.specs.declared.step.Role.{Role};
ghost use Rattle.nx_envelope.specs.Copies.{Copy};
ghost use Rattle.nx_envelope.specs.Finder.{Closes, ClosesHeld, ClosesNone, HasReady, HappensAt, StandsAfter, is_over, is_ready};
ghost use Rattle.nx_envelope.specs.declared.found.TextEvent.{TextEvent};
ghost use Rattle.nx_envelope.specs.Found.{IsFound};
ghost use Rattle.nx_copies.specs.LockReader.{HasReadWords, ReadsLock, ReadsWords};
ghost use Rattle.nx_copies.specs.ReadPositions.{IsPositionAt};
ghost use Rattle.nx_copies.specs.ReaderWords.{HearsNext, HearsPairsUpTo, IsBrought, HearsPairs, ReadsPlain, is_open};
ghost use Rattle.nx_copies.specs.copies.LockText.{text_after};

use crate::lock_printer::{LockPrinter, ReadPosition};
use nx_code::{FourPrinted, Word};
use nx_envelope::{Finder, Found, FoundHead, TextEvent};
use nx_sync::Role;
use std::marker::Model;

/// Reads the text of a lock, of which it is given one word after the other, and finds the copies in
/// it.
///
/// It holds the latest three DX words, the shift in force, and what the finder holds. Of an earlier
/// lock it holds nothing but the text of its last copy.
#[derive(Drop)]
pub struct LockReader {
    printer: LockPrinter,
    finder: Finder,
}

impl Model for LockReader {
    ghost use Rattle.nx_copies.specs.LockReader.{LockReading};

    ghost Value = { LockReading };

    ghost view = { λ r. record {
      diversity = r.printer.diversity;
      printer = r.printer.printer;
      finder = r.finder;
    } };

    ghost inverse = { λ v. record {
      printer = record { diversity = v.diversity; printer = v.printer };
      finder = v.finder;
    } };
}

impl LockReader {
    /// A reader of a lock of which no word was heard yet.
    pub fn new() -> LockReader
        ensures { (first : Role) (words : ℕ → ℕ) → ReadsLock result first words 0 }
    {
        prove!(size_of::<LockReader>() == size_of::<Finder>() + 8);
        LockReader {
            printer: LockPrinter::new(),
            finder: Finder::new(),
        }
    }

    /// The finder of the copies in the text.
    #[inline(always)]
    pub fn finder(&self) -> &Finder
        ensures { result.now ≡ self.now.finder }
    {
        &self.finder
    }

    /// Reads the next word of the lock, which has that role. Answers the byte that it prints, if it
    /// prints one, and what that brings. A copy that it ends is ready until the next word.
    #[inline(always)]
    pub fn read_word(&mut self, word: Word, role: Role) -> Option<(u8, TextEvent)>
        ensures reads { (first : Role) (words : ℕ → ℕ) (n : ℕ) → ReadsLock self.old first words n
            → words n ≡ word → role ≡ role_of first n → HasReadWords self.new first words n 1
            (option_to_list (option_map (λ printed. printed.0) result)) }
        ensures brings { (byte : ℕ) (event : TextEvent) → result ≡ Some (byte, event)
            → (text : List ℕ) → StandsAfter self.old.finder text
            → HappensAt text byte self.new.finder event }
        ensures ready { (byte : ℕ) (event : TextEvent) → result ≡ Some (byte, event)
            → is_ready self.new.finder ≡ is_over event }
        ensures kept { result ≡ None → self.new.finder ≡ self.old.finder }
    {
        match role {
            Role::Dx => {
                self.printer.diversity.dx_by_word(word);
                None
            }
            Role::Rx => {
                let class = self.printer.diversity.rx_by_word(word);
                match self.printer.printer.step_by_class(class) {
                    Some(byte) => Some((byte, self.finder.hear(byte))),
                    None => None,
                }
            }
        }
    }

    /// Reads the next words of the lock at once, two to eight, DX and RX by turns, where surely
    /// none of them begins or ends a copy, and answers what they print. Else nothing changed.
    #[inline(always)]
    pub fn read_words(&mut self, words: &[Word]) -> Option<FourPrinted>
        requires { ArePairs words.now }
        ensures reads { ForSome result (λ printed. ReadsWords self.old self.new words.now
            (take printed.count printed.bytes)) }
        ensures count { ForSome result (λ printed. 2 * printed.count ≤ length words.now) }
        ensures same { result ≡ None → self.new ≡ self.old }
    {
        // Copied field by field: as one number of four bytes it would have to be cut apart.
        let mut printer = LockPrinter {
            diversity: self.printer.diversity,
            printer: self.printer.printer,
        };
        let printed = printer.print_words(words);
        if !self.finder.hear_plain(printed.bytes, printed.count) {
            return None;
        }
        self.printer.diversity = printer.diversity;
        self.printer.printer = printer.printer;
        Some(printed)
    }

    /// Takes the next word of the lock, which has that role, and answers what it brings. A copy
    /// that it ends is ready until the next word.
    #[inline(always)]
    pub fn take_word(&mut self, word: Word, role: Role) -> TextEvent
        ensures stands { (first : Role) (words : ℕ → ℕ) (n : ℕ) → ReadsLock self.old first words n
            → words n ≡ word → role ≡ role_of first n → ReadsLock self.new first words (n + 1) }
        ensures hears { (first : Role) (words : ℕ → ℕ) (n : ℕ) → ReadsLock self.old first words n
            → words n ≡ word → role ≡ role_of first n
            → IsBrought (text_after first words n) (text_after first words (n + 1)) self.new.finder
            result }
        ensures ready { is_ready self.old.finder ≡ false
            → is_ready self.new.finder ≡ is_over result }
    {
        match self.read_word(word, role) {
            Some((_, event)) => event,
            None => TextEvent::Nothing,
        }
    }

    /// Takes the next word of the lock, which has that role, as `take_word` does. Answers the
    /// position that it completes, if it completes one, and what it brings.
    #[inline(always)]
    pub fn read_position(&mut self, word: Word, role: Role) -> (Option<ReadPosition>, TextEvent)
        ensures position { (first : Role) (words : ℕ → ℕ) (n : ℕ) → ReadsLock self.old first words n
            → words n ≡ word → role ≡ role_of first n → IsPositionAt first words n result.0 }
        ensures hears { HearsNext self.old self.new word role result.1 }
        ensures ready { is_ready self.old.finder ≡ false
            → is_ready self.new.finder ≡ is_over result.1 }
        ensures range { IfSome result.0 (λ position. position.class < 34) }
    {
        let position = self.printer.position(word, role);
        (position, self.take_word(word, role))
    }

    /// Hears the first of the next words of the lock, two to eight, DX and RX by turns: those up
    /// to and with the first one that begins or ends a copy, all of them where none does. Says how
    /// many these are, in whole pairs, and what the last one brings. A copy that it ends is ready
    /// until the next word.
    #[inline(always)]
    pub fn hear_pairs(&mut self, words: &[Word]) -> (usize, TextEvent)
        requires { ArePairs words.now }
        ensures within { result.0 ≤ length words.now }
        ensures even { result.0 % 2 ≡ 0 }
        ensures some { 0 < result.0 }
        ensures hears { HearsPairs self.old self.new (take result.0 words.now) result.1 }
    {
        let mut heard = 0;
        while heard < words.len() {
            let event = self.hear_pair(words[heard], words[heard + 1]);
            heard += 2;
            match event {
                TextEvent::Nothing => {}
                TextEvent::Header(_) | TextEvent::CopyOver => return (heard, event),
            }
        }
        (heard, TextEvent::Nothing)
    }

    /// Hears the next two words of the lock, a DX word and an RX word, and answers what the second
    /// brings. The first brings nothing.
    #[inline(always)]
    fn hear_pair(&mut self, dx: Word, rx: Word) -> TextEvent
        ensures { HearsPairsUpTo self.old self.new (dx ∷ rx ∷ []) result }
    {
        self.printer.diversity.dx_by_word(dx);
        self.take_word(rx, Role::Rx)
    }

    /// Hears the next words of the lock at once, two to eight, DX and RX by turns, where surely
    /// none of them begins or ends a copy: `true` where it did. Else nothing changed.
    #[inline(always)]
    pub fn hear_plain(&mut self, words: &[Word]) -> bool
        requires { ArePairs words.now }
        ensures plain { IsTrue result → ReadsPlain self.old self.new words.now }
        ensures same { result ≡ false → self.new ≡ self.old }
    {
        match self.read_words(words) {
            Some(_) => true,
            None => false,
        }
    }

    /// Ends the text; the reader is then as new, for the next lock, but for the copy that stood
    /// open, which is ready then.
    pub fn close(&mut self)
        ensures closes { (first : Role) (words : ℕ → ℕ) (n : ℕ) → ReadsLock self.old first words n
            → ClosesHeld (text_after first words n) self.new.finder }
        ensures as_new { (first : Role) (words : ℕ → ℕ) → ReadsLock self.new first words 0 }
    {
        self.finder.close();
        self.printer = LockPrinter::new();
    }

    /// Ends the text; the reader is then as new, for the next lock. A copy that stands open or
    /// could be taken is gone, but for its text.
    pub fn restart(&mut self)
        ensures none { (first : Role) (words : ℕ → ℕ) (n : ℕ) → ReadsLock self.old first words n
            → is_open self.old.finder.copy ≡ false → ClosesNone (text_after first words n) }
        ensures as_new { (first : Role) (words : ℕ → ℕ) → ReadsLock self.new first words 0 }
        ensures text { self.new.finder.text ≡ self.old.finder.text }
    {
        let fresh = LockPrinter::new();
        self.printer = fresh;
        self.finder.restart();
    }
}
