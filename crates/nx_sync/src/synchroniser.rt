//! The synchroniser. It keeps the last 28 elements and, where a lock stands, a few facts on its
//! last words. Calls that run for each element, each word or each stride are inlined always, since
//! their answers would go through memory otherwise.

ghost use Rattle.std.specs.Prelude.{◌≡◌, ◌+◌, ◌-◌, ◌*◌, ◌/◌, ◌^◌, ◌<◌, ◌≤◌, ◌↔◌, List, Bool, false, [], ◌∷◌, ◌++◌, length, take, min, not, IsTrue, IsOk, IfOk};
ghost use Rattle.nx_sync.specs.declared.step.Change.TheVariants.{Locked};
ghost use Rattle.nx_code.specs.Word.{elements_from};
ghost use Rattle.nx_code.specs.Packed.{packed_elements, packed_part};
ghost use Rattle.nx_sync.specs.Locks.{pattern_elements};
ghost use Rattle.nx_sync.specs.Steps.{step, LockStands, LimitStands, IsStep, HuntsThrough, IsWordStep};
ghost use Rattle.nx_sync.specs.private.Windows as spec;
ghost use Rattle.nx_sync.specs.private.Calls.{heard_one, track_from, BeginsLock, Fills, Completes, Passes, Skips, SkipsSome, SkipsEarly};
ghost use Rattle.nx_sync.specs.Ahead.{HasPart};
ghost use Rattle.nx_sync.specs.Synchroniser.{StandsAfter, is_hunting, is_between_words};

use crate::mark_bits::Marks;
use crate::packed_hunt::{count_before_lock_in, element, has_no_lock};
use crate::phasing::{PATTERN, may_lock, role_after};
use crate::step::{Role, Step};
use crate::track::Track;
use crate::windows::count_before_lock;
use crate::windows_after::{
    STRIDE, next_window, next_word_window, window_after_number, window_after_stride,
    window_after_whole, windows_after,
};
use nx_code::{ELEMENTS, PACKED, Word};
use std::alloc::{AllocError, Global};
use std::marker::Model;

/// How many bytes the fields take (on the target of this toolchain).
const BYTES: usize = 32;

/// The synchroniser of a receiver. It keeps no history but the last 28 elements, and whether each
/// of the last 64 words of a lock was wrong.
#[derive(Drop)]
pub struct Synchroniser {
    /// The last 28 elements, the oldest in the least place.
    pub(crate) recent: u32,
    /// How many elements were heard, up to 28.
    seen: u32,
    pub(crate) track: Option<Track>,
    /// Whether each of the last words of the lock was wrong.
    pub(crate) marks: Marks,
}

impl Model for Synchroniser {
    ghost use Rattle.std.specs.Prelude.{◌≡◌, ◌≤◌, ◌<◌, ◌^◌};
    ghost use Rattle.std.specs.Option.{ForSome};
    ghost use Rattle.nx_sync.specs.Locks.{pattern_elements};
    ghost use Rattle.nx_sync.specs.Synchroniser.{Held};

    ghost Value = { Held };

    ghost view = { λ s. record {
      recent = s.recent;
      seen = s.seen;
      track = s.track;
      wrong = s.marks;
    } };

    ghost invariant = { λ s. (s.recent < 2 ^ pattern_elements)
        × (s.seen ≤ pattern_elements)
        × ForSome s.track (λ t. (t.filled < 7) × (s.seen ≡ pattern_elements)) };

    ghost inverse = { λ h. record {
      recent = h.recent;
      seen = h.seen;
      track = h.track;
      marks = h.wrong;
    } };
}

impl Synchroniser {
    /// A synchroniser that has heard nothing, and hunts. It takes no memory of the allocator, so
    /// this never fails: the call stays as it was when it took some.
    pub fn new(_alloc: Global) -> Result<Synchroniser, AllocError>
        ensures always { IsOk result }
        ensures stands { IfOk result (λ s. StandsAfter s []) }
        ensures hunting { IfOk result (λ s. IsTrue (is_hunting s)) }
    {
        Ok(Synchroniser::hunting())
    }

    /// A synchroniser that has heard nothing, and hunts.
    pub fn hunting() -> Synchroniser
        ensures stands { StandsAfter result [] }
        ensures hunting { IsTrue (is_hunting result) }
    {
        prove!(size_of::<Synchroniser>() == BYTES);
        Synchroniser {
            recent: 0,
            seen: 0,
            track: None,
            marks: Marks::none(),
        }
    }

    /// Whether a lock stands.
    #[inline(always)]
    pub fn is_locked(&self) -> bool
        ensures stands { (bits : List Bool) → StandsAfter self.now bits
            → (IsTrue result ↔ LockStands bits) }
        ensures hunting { result ≡ not (is_hunting self.now) }
    {
        self.track.is_some()
    }

    /// Whether a lock stands, and the next element is the first of a word.
    #[inline(always)]
    pub fn is_between_words(&self) -> bool
        ensures stands { (bits : List Bool) → StandsAfter self.now bits
            → (IsTrue result ↔ LimitStands bits) }
        ensures between { result ≡ is_between_words self.now }
    {
        match self.track {
            None => false,
            Some(track) => track.filled == 0,
        }
    }

    /// Hears one element, true for B, and says what it brings.
    #[inline(always)]
    pub fn push(&mut self, bit: bool) -> Step
        ensures stands { (bits : List Bool) → StandsAfter self.old bits
            → StandsAfter self.new (bits ++ bit ∷ []) }
        ensures step { (bits : List Bool) → StandsAfter self.old bits
            → IsStep (bits ++ bit ∷ []) result }
        ensures limit { result.change ≡ Some Locked → IsTrue (is_between_words self.new) }
    {
        self.shift_in(bit);
        match self.track {
            None => self.hunt_on(),
            Some(track) => self.follow(track),
        }
    }

    /// Hears seven elements from the end of a word on, which are the next word of the lock: what
    /// seven pushes do. The first six bring nothing; says what the last one brings.
    #[inline(always)]
    pub fn push_word(&mut self, bits: &[bool; ELEMENTS]) -> Step
        requires { IsTrue (is_between_words self.old) }
        ensures stands { (h : List Bool) → StandsAfter self.old h
            → StandsAfter self.new (h ++ bits.now) }
        ensures step { (h : List Bool) → StandsAfter self.old h → IsWordStep h bits.now result }
        ensures limit { result.change ≡ None → IsTrue (is_between_words self.new) }
    {
        let Some(track) = self.track else {
            unreachable!();
        };
        let word = Word::from_elements(*bits);
        self.recent = next_word_window(self.recent, word);
        // A word that brings a change gives the lock up.
        let (next, step) = track.complete(word, &mut self.marks);
        self.track = next;
        step
    }

    /// Hunts through these elements: hears those before the first one that locks, all of them where
    /// none does, and says how many that were.
    pub fn hunt(&mut self, bits: &[bool]) -> usize
        requires { IsTrue (is_hunting self.old) }
        ensures within { result ≤ length bits.now }
        ensures stands { (h : List Bool) → StandsAfter self.old h
            → StandsAfter self.new (h ++ take result bits.now) }
        ensures pushes { (h : List Bool) → StandsAfter self.old h → HuntsThrough h bits.now result }
        ensures hunting { IsTrue (is_hunting self.new) }
    {
        let mut at = self.skip_early(bits);
        while at < bits.len() {
            let part = &bits[at..(at + STRIDE).min(bits.len())];
            let count = self.skip_part(part);
            at += count;
            if count < part.len() {
                return at;
            }
        }
        at
    }

    /// The same over packed elements: hunts through `count` of them from the place `from` on.
    /// Element i is bit `i % 64` of number `i / 64`, set for B.
    pub fn hunt_packed(&mut self, numbers: &[u64], from: usize, count: usize) -> usize
        requires hunting { IsTrue (is_hunting self.old) }
        requires room { from + count ≤ packed_elements * length numbers.now }
        requires counted { from + count < 2 ^ 64 }
        ensures within { result ≤ count }
        ensures stands { (h : List Bool) → StandsAfter self.old h
            → StandsAfter self.new (h ++ take result (packed_part numbers.now from count)) }
        ensures pushes { (h : List Bool) → StandsAfter self.old h
            → HuntsThrough h (packed_part numbers.now from count) result }
        ensures hunting { IsTrue (is_hunting self.new) }
    {
        let mut at = self.skip_packed_early(numbers, from, count);
        while at < count {
            let heard = self.skip_some(numbers, from + at, count - at);
            if heard == 0 {
                return at;
            }
            at += heard;
        }
        at
    }

    /// Takes one element into the last 28.
    #[inline(always)]
    fn shift_in(&mut self, bit: bool)
        ensures { self.new ≡ heard_one self.old bit }
    {
        self.recent = next_window(self.recent, bit);
        self.seen = (self.seen + 1).min(PATTERN);
    }

    /// Locks where the last 28 elements are one of the patterns.
    #[inline(always)]
    fn hunt_on(&mut self) -> Step
        ensures early { self.old.seen < pattern_elements → (self.new ≡ self.old)
            × (result ≡ step None None) }
        ensures none { spec.role_after self.old.recent ≡ None → (self.new ≡ self.old)
            × (result ≡ step None None) }
        ensures found { (role : Role) → pattern_elements ≤ self.old.seen
            → spec.role_after self.old.recent ≡ Some role
            → BeginsLock self.old role self.new result }
    {
        if self.seen < PATTERN {
            return Step::NOTHING;
        }
        match role_after(self.recent) {
            None => Step::NOTHING,
            Some(role) => {
                self.begin(role);
                Step::LOCKED
            }
        }
    }

    /// Begins to follow a lock whose first word has this role.
    fn begin(&mut self, role: Role)
        requires { self.old.seen ≡ pattern_elements }
        ensures { self.new ≡ record self.old { track = Some (track_from role); wrong = [] } }
    {
        // No word of this lock was heard yet.
        self.marks = Marks::none();
        self.track = Some(Track::begin(role));
    }

    /// Adds the element that was heard last to the word that the track fills, and gives the lock up
    /// where that completes a word which brings a change.
    #[inline(always)]
    pub(crate) fn follow(&mut self, track: Track) -> Step
        requires filled { track.filled < 7 }
        requires seen { self.old.seen ≡ pattern_elements }
        ensures inside { track.filled + 1 < 7 → Fills self.old track self.new result }
        ensures whole { track.filled ≡ 6 → Completes self.old track self.new result }
    {
        let filled = track.filled + 1;
        if filled < 7 {
            self.track = Some(Track { filled, ..track });
            return Step::NOTHING;
        }
        // The word is the last seven elements of the 28.
        let last_word = Word::new((self.recent >> 21) as u8).unwrap();
        let (next, step) = track.complete(last_word, &mut self.marks);
        self.track = next;
        step
    }

    /// Hears the packed elements that come too early to be the last of 28, and says how many.
    fn skip_packed_early(&mut self, numbers: &[u64], from: usize, count: usize) -> usize
        requires { HasPart numbers.now from count }
        ensures { SkipsEarly self.old (packed_part numbers.now from count) result self.new }
    {
        let early = ((PATTERN - 1).saturating_sub(self.seen) as usize).min(count);
        for at in 0..early {
            self.shift_in(element(numbers, from + at));
        }
        early
    }

    /// Hears some of these packed elements, none of which ends a pattern, and says how many: none
    /// of them only where the first one ends one.
    #[inline(always)]
    fn skip_some(&mut self, numbers: &[u64], place: usize, count: usize) -> usize
        requires seen { pattern_elements ≤ self.old.seen + 1 }
        requires some { 0 < count }
        requires room { place + count ≤ packed_elements * length numbers.now }
        ensures { SkipsSome self.old (packed_part numbers.now place count) result self.new }
    {
        if place % PACKED == 0 {
            let whole = self.skip_clear(numbers, place / PACKED, count / PACKED);
            if whole > 0 {
                return PACKED * whole;
            }
        }
        let few = count.min(PACKED - place % PACKED);
        self.skip_number(numbers[place / PACKED] >> (place % PACKED), few)
    }

    /// Hears whole numbers, so many of them from an index on, as long as surely none of their
    /// elements ends a pattern, and says how many.
    #[inline(always)]
    fn skip_clear(&mut self, numbers: &[u64], first: usize, count: usize) -> usize
        requires seen { pattern_elements ≤ self.old.seen + 1 }
        requires room { first + count ≤ length numbers.now }
        ensures passes { Passes self.old (packed_part numbers.now (packed_elements * first)
            (packed_elements * count)) (packed_elements * result) self.new }
        ensures none { result ≡ 0 → self.new ≡ self.old }
    {
        // That the count fits its type is all that this says, and nothing runs for it.
        let _seen = self.seen;
        let mut at = 0;
        while at < count {
            if !self.hear_clear(numbers[first + at]) {
                return at;
            }
            at += 1;
        }
        at
    }

    /// Hears the elements of a number where surely none of them ends a pattern, and says whether.
    #[inline(always)]
    fn hear_clear(&mut self, number: u64) -> bool
        requires { pattern_elements ≤ self.old.seen + 1 }
        ensures heard { IsTrue result → Passes self.old (elements_from packed_elements number)
            packed_elements self.new }
        ensures none { result ≡ false → self.new ≡ self.old }
    {
        if !has_no_lock(self.recent, number) {
            return false;
        }
        self.recent = window_after_whole(number);
        self.seen = PATTERN;
        true
    }

    /// Hears the first elements of a number as long as none ends a pattern, and says how many.
    #[inline(always)]
    fn skip_number(&mut self, number: u64, count: usize) -> usize
        requires seen { pattern_elements ≤ self.old.seen + 1 }
        requires few { count ≤ packed_elements }
        ensures { Skips self.old (elements_from count number) result self.new }
    {
        let heard = count_before_lock_in(self.recent, number, count);
        self.recent = window_after_number(self.recent, number, heard);
        self.seen = (self.seen + heard as u32).min(PATTERN);
        heard
    }

    /// Hears the elements that come too early to be the last of 28, and says how many.
    fn skip_early(&mut self, bits: &[bool]) -> usize
        ensures { SkipsEarly self.old bits.now result self.new }
    {
        let count = bits
            .len()
            .min((PATTERN - 1).saturating_sub(self.seen) as usize);
        for bit in &bits[..count] {
            self.shift_in(*bit);
        }
        count
    }

    /// Hears at most 21 elements as long as none ends a pattern, and says how many.
    #[inline(always)]
    fn skip_part(&mut self, part: &[bool]) -> usize
        requires seen { pattern_elements ≤ self.old.seen + 1 }
        requires few { length part.now ≤ 21 }
        ensures { Skips self.old part.now result self.new }
    {
        if part.len() < STRIDE || may_lock(self.recent) {
            return self.skip_block(part);
        }
        self.recent = window_after_stride(self.recent, part);
        self.seen = PATTERN;
        STRIDE
    }

    /// The same, by the windows after each element.
    fn skip_block(&mut self, block: &[bool]) -> usize
        requires seen { pattern_elements ≤ self.old.seen + 1 }
        requires few { length block.now ≤ 21 }
        ensures { Skips self.old block.now result self.new }
    {
        let windows = windows_after(self.recent, block);
        let count = count_before_lock(&windows[..block.len()]);
        if count > 0 {
            self.recent = windows[count - 1];
            self.seen = PATTERN;
        }
        count
    }
}
