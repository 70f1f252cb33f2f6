//! What lies ahead among packed elements. A caller asks for words that bring no change, and says
//! how many of these it took. Else it has the next word pushed, a part of one, or a hunt. What
//! runs for each word is inlined always, since its answers would go through memory otherwise.

ghost use Rattle.std.specs.Prelude.{◌≡◌, ◌+◌, ◌*◌, ◌%◌, ◌<◌, ◌≤◌, length, IsTrue};
ghost use Rattle.nx_code.specs.Packed.{packed_elements, packed_part};
ghost use Rattle.nx_code.specs.Word.{word_elements};
ghost use Rattle.nx_sync.specs.Ahead.{ArePairs, BringsStep, BringsWords, HasPart, LieAhead};
ghost use Rattle.nx_sync.specs.Synchroniser as spec;
ghost use Rattle.nx_sync.specs.Synchroniser.{is_between_words, is_hunting, keeps_lock};

use crate::packed_hunt::element;
use crate::phasing::PHASING_1;
use crate::step::Step;
use crate::synchroniser::Synchroniser;
use crate::track::Track;
use crate::windows_after::{window_after_few, window_after_words};
use nx_code::{ELEMENTS, WORDS_AT_ONCE, Word, elements_at, words_of};

/// How many words are proposed where eight aren't left. Such a number is even, so that the roles
/// stay in step (this project's own).
const SIX_WORDS: usize = 6;

/// How many are proposed where neither eight nor six are left.
const TWO_WORDS: usize = 2;

impl Synchroniser {
    /// Proposes the next words of these elements, so many of them from a place on: eight, six or
    /// two words of a lock, DX and RX by turns, where surely none of them brings a change, or none.
    /// Says how many; those behind them mean nothing. `accept` hears as many as are taken. Element
    /// i is bit `i % 64` of number `i / 64`, set for B.
    #[inline(always)]
    pub fn words_ahead(
        &self,
        numbers: &[u64],
        from: usize,
        count: usize,
    ) -> (usize, [Word; WORDS_AT_ONCE])
        requires { from + count ≤ packed_elements * length numbers.now }
        ensures { LieAhead self.now numbers.now from count result }
    {
        if !self.is_between_words() {
            return (0, words_of(0));
        }
        if count >= ELEMENTS * WORDS_AT_ONCE {
            return self.words_if_kept(numbers, from, WORDS_AT_ONCE);
        }
        if count >= ELEMENTS * SIX_WORDS {
            return self.words_if_kept(numbers, from, SIX_WORDS);
        }
        if count >= ELEMENTS * TWO_WORDS {
            return self.words_if_kept(numbers, from, TWO_WORDS);
        }
        (0, words_of(0))
    }

    /// The next words, so many of them, where surely none brings a change, or none.
    #[inline(always)]
    fn words_if_kept(
        &self,
        numbers: &[u64],
        from: usize,
        count: usize,
    ) -> (usize, [Word; WORDS_AT_ONCE])
        requires between { IsTrue (is_between_words self.now) }
        requires some { 0 < count }
        requires few { count ≤ 8 }
        requires even { count % 2 ≡ 0 }
        requires room { from + word_elements * count ≤ packed_elements * length numbers.now }
        ensures { LieAhead self.now numbers.now from (word_elements * count) result }
    {
        let words = words_of(elements_at(numbers, from, ELEMENTS * count));
        if !self.keeps_lock(&words[..count]) {
            return (0, words);
        }
        (count, words)
    }

    /// Hears the first words of those that `words_ahead` proposed.
    #[inline(always)]
    pub fn accept(&mut self, words: &[Word])
        requires pairs { ArePairs words.now }
        requires keeps { IsTrue (keeps_lock self.old words.now) }
        ensures { BringsWords self.old self.new words.now }
    {
        // The track stays: the next word is a DX word again, and none of the DX words before it
        // was phasing signal 1.
        self.marks.push_words(words);
        self.recent = window_after_words(self.recent, words);
    }

    /// Whether surely none of the next words, if they are these, brings a change, so that `accept`
    /// may hear them. They are two, four, six or eight, DX and RX by turns. It says no to some that
    /// bring none: where a lock is in phasing the other way round, where a DX word is phasing
    /// signal 1, and in a lock that is nearly lost.
    #[inline(always)]
    pub fn keeps_lock(&self, words: &[Word]) -> bool
        requires { ArePairs words.now }
        ensures { result ≡ keeps_lock self.now words.now }
    {
        let Some(track) = self.track else {
            return false;
        };
        track.awaits_free_dx() & !has_dx_phasing_1(words) & self.marks.keeps_lock_for(words.len())
    }

    /// Hears the packed element at a place, which is one of those that are there, as `push` does.
    #[inline(always)]
    pub fn push_at(&mut self, numbers: &[u64], place: usize) -> Step
        requires { place + 1 ≤ packed_elements * length numbers.now }
        ensures { BringsStep self.old self.new (packed_part numbers.now place 1) result }
    {
        self.push(element(numbers, place))
    }

    /// Hears packed elements, so many from a place on: at least one, and all of them there. It
    /// hears those up to and with the first one that may bring something, all where none may. In a
    /// lock these are of one word, else they are of a hunt. Says how many, and what the last one
    /// brings; those before it bring nothing.
    #[inline(always)]
    pub fn push_some(&mut self, numbers: &[u64], from: usize, count: usize) -> (usize, Step)
        requires some { 0 < count }
        requires part { HasPart numbers.now from count }
        ensures within { result.0 ≤ count }
        ensures some { 0 < result.0 }
        ensures brings { BringsStep self.old self.new (packed_part numbers.now from result.0)
            result.1 }
    {
        let Some(track) = self.track else {
            return self.seek(numbers, from, count);
        };
        // The elements up to the end of the word in which they stand, all where they are fewer.
        let heard = count.min(ELEMENTS - usize::from(track.filled));
        let number = elements_at(numbers, from, heard);
        self.recent = window_after_few(self.recent, number, heard);
        let filled = track.filled + (heard - 1) as u8;
        (heard, self.follow(Track { filled, ..track }))
    }

    /// Hunts through packed elements, so many from a place on: hears those up to and with the one
    /// that locks, all where none does. Says how many, and what the last one brings; those before
    /// it bring nothing.
    fn seek(&mut self, numbers: &[u64], from: usize, count: usize) -> (usize, Step)
        requires hunting { IsTrue (is_hunting self.old) }
        requires some { 0 < count }
        requires part { HasPart numbers.now from count }
        ensures within { result.0 ≤ count }
        ensures some { 0 < result.0 }
        ensures brings { BringsStep self.old self.new (packed_part numbers.now from result.0)
            result.1 }
    {
        let quiet = self.hunt_packed(numbers, from, count);
        if quiet == count {
            return (count, Step::NOTHING);
        }
        let step = self.push(element(numbers, from + quiet));
        (quiet + 1, step)
    }
}

/// Whether one of the DX words among these, which are DX and RX by turns, is phasing signal 1.
#[inline(always)]
fn has_dx_phasing_1(words: &[Word]) -> bool
    requires { ArePairs words.now }
    ensures { result ≡ spec.has_dx_phasing_1 words.now }
{
    let mut found = false;
    for pair in 0..words.len() / 2 {
        found |= words[2 * pair].number() == PHASING_1;
    }
    found
}
