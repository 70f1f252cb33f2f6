//! Decoding of words that stand in their slots from slot 0 on.

ghost use Rattle.std.specs.Prelude.{◌≡◌, ◌+◌, ◌*◌, ◌≤◌, length, IfOk, IfErr, OnOk, slice_get};
ghost use Rattle.nx_fec.specs.emissions.Aligned.{AreWhole, ExplainsAligned, aligned_text, word_in, words_of};

use crate::emissions::diversity::{Diversity, Heard};
use nx_code::{ELEMENTS, Printer, Word};
use std::alloc::{AllocError, Global};
use thiserror::Error;

/// Why elements can't be decoded as words from slot 0 on.
#[derive(Clone, Copy, Debug, Drop, PartialEq, Eq, Error)]
pub enum AlignedFault {
    /// The count of elements is no multiple of seven.
    #[error("{bits} elements are no whole words")]
    Ragged {
        /// How many elements were given.
        bits: u64,
    },
    /// Memory for the text was refused.
    #[error("out of memory")]
    Memory(AllocError),
}

/// The word in a slot of elements that begin with slot 0. None past the last whole word.
pub fn get_word(bits: &[bool], slot: usize) -> Option<Word>
    ensures { result ≡ slice_get (words_of bits.now) slot }
{
    if slot < bits.len() / ELEMENTS {
        Some(word_of_slot(bits, slot))
    } else {
        None
    }
}

/// The word in a slot of elements that have it.
pub(crate) fn word_of_slot(bits: &[bool], slot: usize) -> Word
    requires { 7 * slot + 7 ≤ length bits.now }
    ensures { result ≡ word_in bits.now slot }
{
    let at = ELEMENTS * slot;
    let mut elements = [false; ELEMENTS];
    elements.copy_from_slice(&bits[at..at + ELEMENTS]);
    Word::from_elements(elements)
}

/// The text of the elements, whose first word is that of slot 0. Each RX word is paired with the
/// word five slots before it, or with a wrong weight where there is none, and the pairs are read
/// from letters. `Ragged` exactly where the count is no multiple of seven; `Memory` where it ran
/// out (ITU-R M.625, mode B; that slot 0 comes first is this profile's).
pub fn decode_aligned(alloc: Global, bits: &[bool]) -> Result<Vec<u8>, AlignedFault>
    ensures text { IfOk result (λ text. text.items ≡ aligned_text (words_of bits.now)) }
    ensures whole { OnOk result (AreWhole bits.now) }
    ensures refused { IfErr result (ExplainsAligned bits.now) }
{
    if bits.len() % ELEMENTS != 0 {
        return Err(AlignedFault::Ragged {
            bits: bits.len() as u64,
        });
    }
    let mut diversity = Diversity::new();
    let mut printer = Printer::new();
    let mut text = Vec::new(alloc);
    for position in 0..bits.len() / (2 * ELEMENTS) {
        diversity.dx(Heard::of(word_of_slot(bits, 2 * position)));
        let taken = diversity.rx(Heard::of(word_of_slot(bits, 2 * position + 1)));
        if let Some(byte) = printer.step(taken) {
            text.push(byte)
                .map_err(|_| AlignedFault::Memory(AllocError))?;
        }
    }
    Ok(text)
}
