//! A set of letters that a query names.

ghost use Rattle.std.specs.Prelude.{◌≡◌, ◌↔◌, IfSome, IsSome};
ghost use Rattle.std.specs.FinSet as set;
ghost use Rattle.nx_log.specs.Query.{AreLetters, IsSetOf};

use nx_envelope::Letter;
use nx_memory::LetterSet;
use std::marker::Model;
use std::mem::size_of;

/// The letters that a query names. Contracts see them as the set of their bytes, and nothing else
/// is held.
#[derive(Clone, Copy, Debug)]
pub struct Letters {
    letters: LetterSet,
}

impl Model for Letters {
    ghost use Rattle.std.specs.Ordering.{nat_cmp};
    ghost use Rattle.std.specs.Coded.{coded_ℕ};
    ghost use Rattle.std.specs.FinSet as set;

    ghost Value = { set.FinSet nat_cmp };

    ghost coded = { set.code coded_ℕ };

    ghost view = { λ l. l.letters };

    ghost inverse = { λ v. record { letters = v } };
}

impl Letters {
    /// The letters that a text names, one or more, A to Z, in any order, also more than once.
    /// `None` exactly where it names none, or has another byte.
    pub fn of(text: &str) -> Option<Letters>
        ensures named { IsSome result ↔ AreLetters text.now }
        ensures these { IfSome result (IsSetOf text.now) }
    {
        if text.is_empty() {
            return None;
        }
        // The set, and nothing beside it.
        prove!(size_of::<Letters>() == 26);
        let mut letters = LetterSet::new();
        for byte in text.as_bytes() {
            letters.insert(Letter::new(*byte)?);
        }
        Some(Letters { letters })
    }

    /// Whether the letter is in the set.
    pub fn contains(&self, letter: Letter) -> bool
        ensures { result ≡ set.contains self.now letter.byte }
    {
        self.letters.contains(letter)
    }
}
