//! The elements of an emission.

ghost use Rattle.std.specs.Prelude.{◌≡◌, IfOk, map};
ghost use Rattle.nx_fec.specs.emissions.Emission.{bits_of, emission, sent_position};

use crate::emissions::positions::{Position, word_at};
use std::alloc::{AllocError, Global};

/// The elements of the emission of these positions, slot by slot, each in the order of sending;
/// true is B (ITU-R M.625, mode B). Fails where memory ran out.
pub fn to_bits(alloc: Global, positions: &[Position]) -> Result<Vec<bool>, AllocError>
    ensures { IfOk result
        (λ bits. bits.items ≡ bits_of (emission (map sent_position positions.now))) }
{
    let mut bits = Vec::new(alloc);
    let mut slot = 0;
    while let Some(word) = word_at(positions, slot) {
        bits.extend_from_slice(&word.elements())?;
        slot += 1;
    }
    Ok(bits)
}
