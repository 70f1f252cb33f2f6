//! Spelling: the combinations that a text is sent as.

ghost use Rattle.std.specs.Prelude.{◌≡◌, ◌≤◌, ◌*◌, ◌↔◌, ◌++◌, ◌∷◌, [], ℕ, List, Some, Err, IsSome, IfSome, IfOk, OnOk, IsTrue, length, map, not, position};
ghost use Rattle.std.specs.List.{list_all};
ghost use Rattle.nx_code.specs.Reading.{is_in_code, combination, shift_after_all, text as reading_of};
ghost use Rattle.nx_code.specs.private.Pieces.{numbers_of_piece};
ghost use Rattle.nx_code.specs.Spelling.{Spells};
ghost use Rattle.nx_code.specs.declared.signals.Comb.{Comb};

use crate::characters::{NEWLINE, char_to_code};
use crate::shifts::Shift;
use crate::signals::Comb;
use std::alloc::{AllocError, Global};
use thiserror::Error;

/// Why a text is not spelled.
#[derive(Debug, Drop, Error)]
pub enum SpellFault {
    /// The least index, from 0, of a byte that is not in the code.
    #[error("no signal for the character at {at}")]
    NoSuchCharacter { at: u64 },
    /// Memory ran out.
    #[error("out of memory")]
    Memory(AllocError),
}

impl From<AllocError> for SpellFault {
    ghost use Rattle.std.specs.Prelude.{◌≡◌};
    ghost use Rattle.nx_code.specs.declared.spelling.SpellFault.TheVariants.{Memory};

    ghost from_gives = { λ error fault. fault ≡ Memory error };

    fn from(error: AllocError) -> SpellFault {
        SpellFault::Memory(error)
    }
}

/// What a character is sent as: a carriage return or a shift ahead, where one is needed, and its
/// combination; and the shift that is then in force.
#[derive(Clone, Copy)]
struct Piece {
    ahead: Option<Comb>,
    comb: Comb,
    shift: Shift,
}

impl Piece {
    /// How many combinations it has, one or two.
    fn length(self) -> u64
        ensures { result ≡ length (numbers_of_piece self) }
    {
        match self.ahead {
            Some(_) => 2,
            None => 1,
        }
    }
}

/// The index of the first byte that is not in the code.
fn first_unknown(text: &[u8]) -> Option<usize>
    ensures { result ≡ position (λ byte. not (is_in_code byte)) text.now }
{
    text.iter().position(|byte| char_to_code(*byte).is_none())
}

/// What a character of the code is sent as in a shift.
fn piece_of(character: u8, shift: Shift) -> Piece
    requires { IsTrue (is_in_code character) }
    ensures spells { Spells (character ∷ []) shift (numbers_of_piece result) }
    ensures shift { result.shift
        ≡ shift_after_all (map combination (numbers_of_piece result)) shift }
{
    if character == NEWLINE {
        return Piece {
            ahead: Some(Comb::CARRIAGE_RETURN),
            comb: Comb::LINE_FEED,
            shift,
        };
    }
    let (comb, case) = char_to_code(character).unwrap();
    if case.stands_in(shift) {
        return Piece {
            ahead: None,
            comb,
            shift,
        };
    }
    let shift = shift.other();
    Piece {
        ahead: Some(shift.comb()),
        comb,
        shift,
    }
}

/// Writes a piece at the end.
fn push_piece(combs: &mut Vec<Comb>, piece: Piece) -> Result<(), AllocError>
    ensures { OnOk result (map (λ comb. comb.number) combs.new.items
        ≡ map (λ comb. comb.number) combs.old.items ++ numbers_of_piece piece) }
{
    if let Some(ahead) = piece.ahead {
        combs.push(ahead)?;
    }
    combs.push(piece.comb)?;
    Ok(())
}

/// How far the spelling of a text goes.
#[derive(Clone, Copy, Debug, PartialEq, Eq)]
pub struct Extent {
    /// How many combinations it has.
    pub length: u64,
    /// The shift in force after it.
    pub shift: Shift,
}

/// The extent of the spelling of a text from a shift; None where a byte is not in the code. It
/// takes no memory.
pub fn extent_of(text: &[u8], from: Shift) -> Option<Extent>
    ensures in_code { IsSome result ↔ IsTrue (list_all is_in_code text.now) }
    ensures length { IfSome result (λ extent. (numbers : List ℕ) → Spells text.now from numbers
        → extent.length ≡ length numbers) }
    ensures shift { IfSome result (λ extent. (numbers : List ℕ) → Spells text.now from numbers
        → extent.shift ≡ shift_after_all (map combination numbers) from) }
    ensures few { IfSome result (λ extent. extent.length ≤ 2 * length text.now) }
{
    if first_unknown(text).is_some() {
        return None;
    }
    let mut extent = Extent {
        length: 0,
        shift: from,
    };
    for character in text {
        let piece = piece_of(*character, extent.shift);
        extent.length += piece.length();
        extent.shift = piece.shift;
    }
    Some(extent)
}

/// The spelling of a text from a shift: the one list of combinations that is read as the text and
/// has no needless shift (M.476, M.540). A byte that is not in the code is refused before any
/// memory is taken, the first by its place (`NoSuchCharacter`); `Memory` where it ran out.
pub fn spell(alloc: Global, text: &[u8], from: Shift) -> Result<Vec<Comb>, SpellFault>
    ensures spelling { IfOk result (λ combs.
        Spells text.now from (map (λ comb. comb.number) combs.items)) }
    ensures reading { IfOk result (λ combs.
        reading_of (map combination (map (λ comb. comb.number) combs.items)) from ≡ text.now) }
    ensures no_such_character { (at : ℕ) → (result ≡ Err (SpellFault.NoSuchCharacter at))
        ↔ (position (λ byte. not (is_in_code byte)) text.now ≡ Some at) }
{
    if let Some(at) = first_unknown(text) {
        return Err(SpellFault::NoSuchCharacter { at: at as u64 });
    }
    let mut combs = Vec::new(alloc);
    let mut shift = from;
    for character in text {
        let piece = piece_of(*character, shift);
        shift = piece.shift;
        push_piece(&mut combs, piece)?;
    }
    Ok(combs)
}
