//! Diversity reception: a position is taken from its DX word and the RX word five slots later
//! (M.625). What runs for each word is inlined always.

ghost use Rattle.std.specs.Prelude.{◌≡◌, ◌+◌, ◌<◌, [], ◌∷◌, ◌++◌, List};
ghost use Rattle.nx_code.specs.Classes.{reception_of_class};
ghost use Rattle.nx_code.specs.Taken.{reception_of};
ghost use Rattle.nx_fec.specs.declared.emissions.diversity.Heard.TheVariants.{Wrong};
ghost use Rattle.nx_fec.specs.emissions.Pairing.{Counted, IsHeardOf, IsLatest, counts_as, heard_as, pairing, third_last};
ghost use Rattle.nx_fec.specs.private.WordClasses.{counted_by};

use nx_code::{Comb, NO_CLASS, Signal, Taken, Word, class_of, pair_classes, signal_of};
use std::marker::Model;
use std::mem::size_of;

/// What arrived of a word.
#[derive(Clone, Copy, Debug, PartialEq, Eq)]
pub enum Heard {
    /// The word had the weight of a signal.
    Intact(Signal),
    /// The word had a wrong weight, or it wasn't seen.
    Wrong,
}

impl Default for Heard {
    ghost is_default = { λ heard. heard ≡ Wrong };

    /// A word that wasn't seen.
    fn default() -> Heard {
        Heard::Wrong
    }
}

/// The class of a service signal, and of an idle position.
const SERVICE_CLASS: u8 = 33;

impl Heard {
    /// What arrived of this word: the signal that it stands for, or a wrong weight.
    pub fn of(word: Word) -> Heard
        ensures heard { IsHeardOf result word }
        ensures counts { heard_as result ≡ counts_as word }
    {
        match signal_of(word) {
            Some(signal) => Heard::Intact(signal),
            None => Heard::Wrong,
        }
    }

    /// The class of what arrived.
    fn class(self) -> u8
        ensures counts { counted_by result ≡ heard_as self }
        ensures range { result < 34 }
    {
        match self {
            Heard::Intact(Signal::Traffic(comb)) => comb.number(),
            Heard::Intact(_) => SERVICE_CLASS,
            Heard::Wrong => NO_CLASS,
        }
    }
}

/// What is taken of a position of this class.
fn taken_of(class: u8) -> Taken
    requires { class < 34 }
    ensures { reception_of result ≡ reception_of_class class }
{
    if class == NO_CLASS {
        return Taken::Lost;
    }
    match Comb::new(class) {
        Some(comb) => Taken::Char(comb),
        None => Taken::Idle,
    }
}

/// Takes a position from its two words: what both count as, or the only one that counts; all else
/// is lost.
pub fn combine(dx: Heard, rx: Heard) -> Taken
    ensures { reception_of result ≡ pairing (heard_as dx) (heard_as rx) }
{
    taken_of(pair_classes(dx.class(), rx.class()))
}

/// The last three DX words, each of which waits for its RX: the RX of a position comes after the DX
/// of the second next one. They are kept by their classes. Contracts see what they count as, oldest
/// first: nothing where fewer were given.
#[derive(Clone, Copy, Debug)]
pub struct Diversity {
    oldest: u8,
    middle: u8,
    newest: u8,
}

impl Model for Diversity {
    ghost use Rattle.std.specs.Prelude.{◌<◌, List, [], ◌∷◌, slice_index_or};
    ghost use Rattle.nx_fec.specs.emissions.Pairing.{Counted, nothing};
    ghost use Rattle.nx_fec.specs.private.WordClasses.{class_by, counted_by, same_class};

    ghost Value = { List Counted };

    ghost view = { λ d. counted_by d.oldest ∷ counted_by d.middle ∷ counted_by d.newest ∷ [] };

    ghost invariant = { λ d. (d.oldest < 34) × (d.middle < 34) × (d.newest < 34) };

    ghost inverse = { λ words. record {
      oldest = class_by (slice_index_or words 0 nothing);
      middle = class_by (slice_index_or words 1 nothing);
      newest = class_by (slice_index_or words 2 nothing);
    } };

    ghost inverse_ok = { λ d h i. record {
      oldest = same_class d.oldest i;
      middle = same_class d.middle i;
      newest = same_class d.newest i;
    } };
}

impl Diversity {
    /// No DX word was given.
    pub fn new() -> Diversity
        ensures { IsLatest result [] }
    {
        prove!(size_of::<Diversity>() == 3);
        Diversity {
            oldest: NO_CLASS,
            middle: NO_CLASS,
            newest: NO_CLASS,
        }
    }

    /// Takes the next DX word.
    #[inline(always)]
    pub fn dx(&mut self, heard: Heard)
        ensures latest { IsLatest self.new (self.old ++ heard_as heard ∷ []) }

        // The value keeps the latest three of the DX words so far, whichever they are.
        ensures stands { (words : List Counted) → IsLatest self.old words
            → IsLatest self.new (words ++ heard_as heard ∷ []) }
    {
        self.push(heard.class());
    }

    /// Takes the next DX word, as `dx` takes what arrived of it.
    #[inline(always)]
    pub fn dx_by_word(&mut self, word: Word)
        ensures latest { IsLatest self.new (self.old ++ counts_as word ∷ []) }
        ensures stands { (words : List Counted) → IsLatest self.old words
            → IsLatest self.new (words ++ counts_as word ∷ []) }
    {
        self.push(class_of(word));
    }

    /// Takes the next DX word by its class, in place of the oldest.
    #[inline(always)]
    fn push(&mut self, class: u8)
        requires { class < 34 }
        ensures latest { IsLatest self.new (self.old ++ counted_by class ∷ []) }
        ensures stands { (words : List Counted) → IsLatest self.old words
            → IsLatest self.new (words ++ counted_by class ∷ []) }
    {
        self.oldest = self.middle;
        self.middle = self.newest;
        self.newest = class;
    }

    /// Takes the next RX word, and answers the position that it completes: it is paired with the
    /// third last DX word that was given, or with a wrong weight where fewer than three were.
    #[inline(always)]
    pub fn rx(&mut self, heard: Heard) -> Taken
        ensures paired { reception_of result
            ≡ pairing (third_last self.old) (heard_as heard) }
        ensures stands { (words : List Counted) → IsLatest self.old words
            → reception_of result ≡ pairing (third_last words) (heard_as heard) }
        ensures unchanged { self.new ≡ self.old }
    {
        taken_of(pair_classes(self.oldest, heard.class()))
    }

    /// The class of the position that the next RX word completes, paired as by `rx`: the number of
    /// a combination, 33 for an idle position, and 0 for a lost one.
    #[inline(always)]
    pub fn rx_by_word(&self, word: Word) -> u8
        ensures paired { reception_of_class result
            ≡ pairing (third_last self.now) (counts_as word) }
        ensures stands { (words : List Counted) → IsLatest self.now words
            → reception_of_class result ≡ pairing (third_last words) (counts_as word) }
        ensures range { result < 34 }
    {
        pair_classes(self.oldest, class_of(word))
    }
}
