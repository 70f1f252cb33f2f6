//! A set of letters.

ghost use Rattle.std.specs.Prelude.{◌≡◌, ◌+◌, ◌<◌};
ghost use Rattle.std.specs.FinSet as set;
ghost use Rattle.nx_memory.specs.StateText.{rising};

use arrayvec::ArrayVec;
use nx_envelope::Letter;
use std::marker::Model;

/// How many letters there are, A to Z.
pub(crate) const LETTERS: usize = 26;

/// A set of letters, with a flag for each. Contracts see it as the set of their bytes, from which
/// the flags can be told again: it holds nothing else.
#[derive(Clone, Copy, Debug)]
pub struct LetterSet {
    flags: [bool; LETTERS],
}

impl Model for LetterSet {
    ghost use Rattle.std.specs.Ordering.{nat_cmp};
    ghost use Rattle.std.specs.Coded.{coded_ℕ};
    ghost use Rattle.std.specs.FinSet as set;
    ghost use Rattle.std.specs.Prelude.{◌≡◌};
    ghost use Rattle.nx_memory.specs.private.LetterFlags.{letters_of, flags_of};

    ghost Value = { set.FinSet nat_cmp };

    ghost coded = { set.code coded_ℕ };

    ghost view = { λ s. letters_of s.flags };

    ghost invariant = { λ s. flags_of (letters_of s.flags) ≡ s.flags };

    ghost inverse = { λ letters. record { flags = flags_of letters } };

    ghost inverse_ok = { λ s told i. record { flags = told i } };
}

impl LetterSet {
    /// The set without a letter.
    pub fn new() -> Self
        ensures { result ≡ set.empty }
    {
        LetterSet {
            flags: [false; LETTERS],
        }
    }

    /// Whether the letter is in the set.
    pub fn contains(&self, letter: Letter) -> bool
        ensures { result ≡ set.contains self.now letter.byte }
    {
        self.flags[place_in_alphabet(letter)]
    }

    /// Adds the letter, where it isn't in the set already.
    pub fn insert(&mut self, letter: Letter)
        ensures { self.new ≡ set.insert self.old letter.byte }
    {
        self.flags[place_in_alphabet(letter)] = true;
    }

    /// Takes the letter out, where it is in the set.
    pub fn remove(&mut self, letter: Letter)
        ensures { self.new ≡ set.remove self.old letter.byte }
    {
        self.flags[place_in_alphabet(letter)] = false;
    }

    /// The letters in rising order, each by its byte.
    pub(crate) fn letters(&self) -> ArrayVec<u8, LETTERS>
        ensures { result.items ≡ rising self.now }
    {
        let mut letters = ArrayVec::new();
        for place in 0..LETTERS {
            if self.flags[place] {
                letters.push(b'A' + place as u8);
            }
        }
        letters
    }
}

/// The place of a letter in the alphabet, 0 for A.
pub(crate) fn place_in_alphabet(letter: Letter) -> usize
    ensures place { result + 65 ≡ letter.byte }
    ensures within { result < 26 }
{
    usize::from(letter.byte - b'A')
}
