//! The marks of the last words of a lock, in one number. What runs for each word is inlined always,
//! since its answers would go through memory otherwise.

ghost use Rattle.std.specs.Prelude.{◌≡◌, ◌∷◌, ◌++◌, ◌≤◌, ◌<◌, ◌^◌, ◌+◌, ◌==◌, [], length, map, nat_le};
ghost use Rattle.std.specs.List.{count_by};
ghost use Rattle.circular_buffer.specs.Buffer.{keep_last};
ghost use Rattle.nx_code.specs.Word.{number_of};
ghost use Rattle.nx_sync.specs.Words.{losing_count, marked_words};
ghost use Rattle.nx_sync.specs.private.Eight.{marks_after_words, wrong_ones};

use crate::windows_after::numbers;
use nx_code::{NO_CLASS, WORDS_AT_ONCE, Word, check_bits, class_of};
use std::marker::Model;
use std::simd::prelude::*;

/// How many marks of its last words a lock keeps, whether each was wrong (this profile).
const MARKS: u32 = 64;

/// How many wrong words among the marked ones lose the lock (this profile).
const LOSING_COUNT: u32 = 40;

/// The marks of the last words of a lock, at most 64, whether each was wrong.
#[derive(Clone, Copy)]
pub(crate) struct Marks {
    /// The newest mark is the highest bit. A mark that isn't there is not set.
    bits: u64,
    /// How many marks there are.
    count: u32,
}

impl Model for Marks {
    ghost use Rattle.std.specs.Prelude.{◌≡◌, ◌≤◌, List, Bool, length};
    ghost use Rattle.nx_code.specs.Word.{number_of};
    ghost use Rattle.nx_sync.specs.Words.{marked_words};
    ghost use Rattle.nx_sync.specs.private.MarkBits.{marks_in, padded};

    ghost Value = { List Bool };

    ghost view = { λ m. marks_in m.count m.bits };

    ghost invariant = { λ m. (m.count ≤ marked_words)
        × (length (marks_in m.count m.bits) ≡ m.count)
        × (number_of (padded (marks_in m.count m.bits)) ≡ m.bits) };

    ghost inverse = { λ xs. record { bits = number_of (padded xs); count = length xs } };

    ghost inverse_ok = { λ m told i. record { bits = told.2 i; count = told.1 i } };
}

impl Marks {
    /// No marks.
    #[inline(always)]
    pub(crate) fn none() -> Marks
        ensures { result ≡ [] }
    {
        Marks { bits: 0, count: 0 }
    }

    /// Adds a mark; of 64 the oldest goes.
    #[inline(always)]
    pub(crate) fn push(&mut self, is_wrong: bool)
        ensures { self.new ≡ keep_last marked_words (self.old ++ is_wrong ∷ []) }
    {
        self.bits = (self.bits >> 1) + (u64::from(is_wrong) << 63);
        self.count = (self.count + 1).min(MARKS);
    }

    /// Adds the marks of words; of more than 64 the oldest go.
    #[inline(always)]
    pub(crate) fn push_words(&mut self, words: &[Word])
        ensures { self.new ≡ marks_after_words self.old words.now }
    {
        if words.len() == WORDS_AT_ONCE {
            // Eight marks at once.
            self.bits = (self.bits >> 8) + (wrong_bits(words) << 56);
            self.count = (self.count + 8).min(MARKS);
        } else {
            for place in 0..words.len() {
                self.push(!check_bits(words[place]));
            }
        }
    }

    /// How many of the marks are set.
    #[inline(always)]
    fn wrong_count(&self) -> u32
        ensures count { result ≡ count_by (λ b. b) self.now }
        ensures within { result ≤ marked_words }
    {
        self.bits.count_ones()
    }

    /// Whether as many of the marks are set as lose the lock.
    #[inline(always)]
    pub(crate) fn loses_lock(&self) -> bool
        ensures { result ≡ nat_le losing_count (count_by (λ b. b) self.now) }
    {
        self.wrong_count() >= LOSING_COUNT
    }

    /// Whether fewer would be set than lose the lock, if so many more words were wrong.
    #[inline(always)]
    pub(crate) fn keeps_lock_for(&self, count: usize) -> bool
        requires { count ≤ 8 }
        ensures { result ≡ nat_le (count_by (λ b. b) self.now + count + 1) losing_count }
    {
        self.wrong_count() + (count as u32) < LOSING_COUNT
    }
}

/// The marks of eight words, whether each has the wrong weight, as bits of a number, the first
/// word's in the least place.
#[inline(always)]
fn wrong_bits(words: &[Word]) -> u64
    requires { length words.now ≡ 8 }
    ensures number { result ≡ number_of (wrong_ones words.now) }
    ensures within { result < 2 ^ 8 }
{
    u8x8::from_array(classes(words))
        .simd_eq(u8x8::splat(NO_CLASS))
        .to_bitmask()
}

/// The classes of eight words.
#[inline(always)]
fn classes(words: &[Word]) -> [u8; WORDS_AT_ONCE]
    requires { length words.now ≡ 8 }
    ensures { map (λ class. class == 0) result ≡ wrong_ones words.now }
{
    // Each word is one of 128. That is all that this says, and nothing runs for it.
    let _words = numbers(words);
    [
        class_of(words[0]),
        class_of(words[1]),
        class_of(words[2]),
        class_of(words[3]),
        class_of(words[4]),
        class_of(words[5]),
        class_of(words[6]),
        class_of(words[7]),
    ]
}
