//! Where words and characters stand in the table. The class of a word, and an index of characters,
//! save a search of the table for each of them; that they answer as the search would is proved.

ghost use Rattle.std.specs.Prelude.{◌≡◌, ℕ, ◌+◌, ◌-◌, ◌≤◌, ◌<◌, Some, IfSome};
ghost use Rattle.nx_code.specs.Reading.{character_of};
ghost use Rattle.nx_code.specs.private.Rows.{place_below, place_given};
ghost use Rattle.nx_code.specs.Table.{place_of};
ghost use Rattle.nx_code.specs.declared.shifts.Shift.{Shift};

use crate::classes::{NO_CLASS, class_of};
use crate::table::{ALPHA, BETA, REPEAT};
use crate::words::Word;

/// In an index: no place of the table.
const NOWHERE: u8 = 35;

/// The words of idle signal alpha, of idle signal beta and of signal repetition.
const ALPHA_WORD: u8 = 0x0F;

const BETA_WORD: u8 = 0x33;

const REPEAT_WORD: u8 = 0x66;

/// The place in the table of the combination that prints each byte.
#[rattlefmt::skip]
static BY_CHARACTER: [u8; 256] = [
    35, 35, 35, 35, 35, 35, 35, 35, 35, 35, 27, 35, 35, 35, 35, 35,
    35, 35, 35, 35, 35, 35, 35, 35, 35, 35, 35, 35, 35, 35, 35, 35,
    30, 35, 35, 35, 35, 35, 35, 18, 10, 11, 35, 25, 13,  0, 12, 23,
    15, 16, 22,  4, 17, 19, 24, 20,  8, 14,  2, 35, 35, 21, 35,  1,
    35,  0,  1,  2,  3,  4,  5,  6,  7,  8,  9, 10, 11, 12, 13, 14,
    15, 16, 17, 18, 19, 20, 21, 22, 23, 24, 25, 35, 35, 35, 35, 35,
    35, 35, 35, 35, 35, 35, 35, 35, 35, 35, 35, 35, 35, 35, 35, 35,
    35, 35, 35, 35, 35, 35, 35, 35, 35, 35, 35, 35, 35, 35, 35, 35,
    35, 35, 35, 35, 35, 35, 35, 35, 35, 35, 35, 35, 35, 35, 35, 35,
    35, 35, 35, 35, 35, 35, 35, 35, 35, 35, 35, 35, 35, 35, 35, 35,
    35, 35, 35, 35, 35, 35, 35, 35, 35, 35, 35, 35, 35, 35, 35, 35,
    35, 35, 35, 35, 35, 35, 35, 35, 35, 35, 35, 35, 35, 35, 35, 35,
    35, 35, 35, 35, 35, 35, 35, 35, 35, 35, 35, 35, 35, 35, 35, 35,
    35, 35, 35, 35, 35, 35, 35, 35, 35, 35, 35, 35, 35, 35, 35, 35,
    35, 35, 35, 35, 35, 35, 35, 35, 35, 35, 35, 35, 35, 35, 35, 35,
    35, 35, 35, 35, 35, 35, 35, 35, 35, 35, 35, 35, 35, 35, 35, 35,
];

/// The place that an index gives.
fn place_given(place: u8) -> Option<usize>
    ensures { result ≡ place_given place }
{
    if place < NOWHERE {
        Some(usize::from(place))
    } else {
        None
    }
}

/// The place of a word in the table, from 0; None where the word is none of the 35.
pub(crate) fn place_of_word(word: Word) -> Option<usize>
    ensures place { result ≡ place_of word }
    ensures range { word < 128 }
{
    match word.number() {
        ALPHA_WORD => Some(ALPHA),
        BETA_WORD => Some(BETA),
        REPEAT_WORD => Some(REPEAT),
        _ => place_below(class_of(word)),
    }
}

/// The place of a combination, one below its class; None for class 0.
fn place_below(class: u8) -> Option<usize>
    ensures { result ≡ place_below class }
{
    if class == NO_CLASS {
        None
    } else {
        Some(usize::from(class - 1))
    }
}

/// The place in the table of the combination that prints a byte, from 0; None where none does.
pub(crate) fn place_of_character(character: u8) -> Option<usize>
    ensures found { (number : ℕ) (shift : Shift) → 1 ≤ number → number ≤ 32
        → character_of number shift ≡ Some character → result ≡ Some (number - 1) }
    ensures printed { IfSome result (λ place. (place < 32) × (shift : Shift)
        × (character_of (place + 1) shift ≡ Some character)) }
{
    place_given(BY_CHARACTER[usize::from(character)])
}
