//! The characters of the combinations, by the table.

ghost use Rattle.std.specs.Prelude.{◌≡◌, ℕ, ◌+◌, ◌≤◌, ◌<◌, ◌↔◌, Some, IsSome, IfSome, IsSomeAnd, IsTrue};
ghost use Rattle.nx_code.specs.Reading.{character_of, holds_in, is_in_code};
ghost use Rattle.nx_code.specs.private.Rows.{case_kept};
ghost use Rattle.nx_code.specs.declared.shifts.Shift.{Shift};

use crate::shifts::{Case, Shift};
use crate::signals::Comb;
use crate::table::row_at;
use crate::table_indexes::place_of_character;

/// The newline, which combination 28 prints, and which ends each line of a text.
pub const NEWLINE: u8 = b'\n';

/// The byte that a combination prints in a shift (M.476 and M.625, conversion tables): a letter or
/// a figure, a newline for combination 28, a space for 31. None where nothing is printed; that 32
/// and the figures of D, F, G, H and J print nothing is this profile's.
pub fn code_to_char(comb: Comb, shift: Shift) -> Option<u8>
    ensures { result ≡ character_of comb.number shift }
{
    row_at(usize::from(comb.number - 1)).character(shift)
}

/// The combination that prints a character, and in which shift; None for a byte that is not in the
/// code (M.476 and M.625, conversion tables; which figures are left out, and `Case::Either`, are
/// this profile's).
pub fn char_to_code(character: u8) -> Option<(Comb, Case)>
    ensures in_code { IsSome result ↔ IsTrue (is_in_code character) }
    ensures found { (number : ℕ) (shift : Shift) → 1 ≤ number → number ≤ 32
        → character_of number shift ≡ Some character
        → IsSomeAnd result (λ code. (code.0.number ≡ number) × IsTrue (holds_in code.1 shift)) }
    ensures printed { IfSome result (λ code. (shift : Shift) → IsTrue (holds_in code.1 shift)
        → character_of code.0.number shift ≡ Some character) }
{
    let place = place_of_character(character)?;
    Some((comb_at(place), case_of(character)))
}

/// In which shifts a character of the code is printed: a letter in letters, a newline and a space
/// in both, and each other in figures.
#[tactic(auto, using(std::proofs::lemmas::Bool::Decides::nat_tests))]
fn case_of(character: u8) -> Case
    ensures { result ≡ case_kept character }
{
    match character {
        b'\n' | b' ' => Case::Either,
        b'A'..=b'Z' => Case::Letters,
        _ => Case::Figures,
    }
}

/// The combination at a place of the table.
fn comb_at(place: usize) -> Comb
    requires { place < 32 }
    ensures { result.number ≡ place + 1 }
{
    Comb {
        number: place as u8 + 1,
    }
}
