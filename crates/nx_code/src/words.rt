//! Words: what is sent for one signal, seven elements each.

ghost use Rattle.std.specs.Prelude.{◌≡◌, ◌<◌, ◌^◌, ◌↔◌, IsTrue, IsSome, IfSome};
ghost use Rattle.nx_code.specs.Word.{elements, number_of, signal_weight, weight};

use crate::classes::{NO_CLASS, class_of};
use std::marker::Model;

/// How many elements a word has (M.625, mode B; one element lasts 10 ms).
pub const ELEMENTS: usize = 7;

/// Gathers seven elements, each in the least place of a byte: times this number the element of byte
/// `n` stands in place `56 + n`, and no other sum of places reaches as far.
const GATHER: u64 = 0x0102_0408_1020_4000;

/// A word: seven elements, each B or Y, of any weight. Contracts see it as its number, in which the
/// element that is sent first has the least place and B counts as 1: 0 to 127.
#[derive(Clone, Copy, Debug, PartialEq, Eq)]
pub struct Word {
    number: u8,
}

impl Model for Word {
    ghost use Rattle.std.specs.Prelude.{ℕ, ◌<◌};

    ghost Value = { ℕ };

    ghost view = { λ w. w.number };

    ghost invariant = { λ w. w.number < 128 };

    ghost inverse = { λ n. record { number = n } };
}

impl Word {
    /// The word of this number; None from 128 on.
    pub fn new(number: u8) -> Option<Word>
        ensures range { IsSome result ↔ (number < 128) }
        ensures value { IfSome result (λ word. word ≡ number) }
    {
        if number < 128 {
            Some(Word { number })
        } else {
            None
        }
    }

    /// The word of a number that is known to be in range.
    pub(crate) fn at(number: u8) -> Word
        requires { number < 128 }
        ensures { result ≡ number }
    {
        Word { number }
    }

    /// The number of the word, 0 to 127.
    pub fn number(self) -> u8
        ensures number { result ≡ self }
        ensures range { result < 128 }
    {
        self.number
    }

    /// The word of seven elements in the order of sending; true is B.
    pub fn from_elements(bits: [bool; ELEMENTS]) -> Word
        ensures { result ≡ number_of bits }
    {
        let mut spread: u64 = 0;
        for place in (0..ELEMENTS).rev() {
            spread = 256 * spread + u64::from(bits[place]);
        }
        Word {
            number: (spread.wrapping_mul(GATHER) >> 56) as u8,
        }
    }

    /// The seven elements in the order of sending; true is B.
    pub fn elements(self) -> [bool; ELEMENTS]
        ensures { result ≡ elements self }
    {
        let mut bits = [false; ELEMENTS];
        let mut rest = self.number;
        for place in 0..ELEMENTS {
            bits[place] = rest % 2 == 1;
            rest /= 2;
        }
        bits
    }
}

/// Whether a word has the weight of a signal, four B and three Y (M.476, M.625).
pub fn check_bits(word: Word) -> bool
    ensures { IsTrue result ↔ (weight word ≡ signal_weight) }
{
    // The proof takes from this that the number is below 128; nothing runs for it.
    let _ = word.number();
    class_of(word) != NO_CLASS
}
