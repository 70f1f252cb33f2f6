//! Strict reading: from the elements of an emission back to its messages (M.625, mode B; M.540).
ghost use Rattle.std.specs.Prelude.{◌≡◌, ◌↔◌, ◌<◌, ◌/◌, IfErr, IfOk, IfSome, IsNone, IsTrue, OnOk, length};
ghost use Rattle.nx_fec.specs.emissions.Aligned.{AreWhole, aligned_text, words_of};
ghost use Rattle.nx_station.specs.StrictReading.{ArePaired, AreRight, ExplainsEmission, IsEmissionOf, IsLeast, IsPair, IsUnpaired, IsWrongWord};

use crate::broadcast::emission;
use crate::fault::EmissionFault;
use crate::printed::messages_printed;
use nx_code::{ELEMENTS, Signal, Word, check_bits, signal_of, word_of};
use nx_envelope::Message;
use nx_fec::{AlignedFault, SPREAD, decode_aligned, get_word, to_bits};
use std::alloc::{AllocError, Global};

/// The messages whose emission has just these elements: one list at most has them. The words are
/// read as text, and the emission of what was read is compared with all elements, so nothing is
/// left to chance. A needless shift, a character that prints nothing, or a word that isn't sent
/// again are refused with the rest.
///
/// `Ragged` where the elements are no whole words; then `WrongWord` with the least slot of a word
/// of the wrong weight. Then comes `Unpaired` with the least position whose two words are there and
/// are neither one traffic word twice, nor P2 and then P1, nor P1 twice. Then comes `BadEnvelope`
/// for everything else. Memory is taken after the first three, and may run out at any growth
/// (M.625, mode B, and M.540; what is refused, and in which order, is this profile's).
pub fn read_emission(alloc: Global, bits: &[bool]) -> Result<Vec<Message>, EmissionFault>
    ensures messages { IfOk result (λ messages. IsEmissionOf messages.items bits.now) }
    ensures fault { IfErr result (ExplainsEmission bits.now) }
{
    check_words(bits)?;
    let text = decoded_text(alloc, bits)?;
    let messages = messages_printed(alloc, &text)?;
    let positions = emission(alloc, &messages)?;
    let sent = to_bits(alloc, &positions)?;
    if sent.as_slice() != bits {
        return Err(EmissionFault::BadEnvelope);
    }
    Ok(messages)
}

/// Checks the words: that they are whole, that each has the right weight, and that each position
/// has a pair.
fn check_words(bits: &[bool]) -> Result<(), EmissionFault>
    ensures whole { OnOk result (AreWhole bits.now) }
    ensures right { OnOk result (AreRight bits.now) }
    ensures paired { OnOk result (ArePaired bits.now) }
    ensures fault { IfErr result (ExplainsEmission bits.now) }
{
    if bits.len() % ELEMENTS != 0 {
        return Err(EmissionFault::Ragged {
            bits: bits.len() as u64,
        });
    }
    if let Some(slot) = first_wrong_word(bits) {
        return Err(EmissionFault::WrongWord { slot: slot as u64 });
    }
    if let Some(position) = first_unpaired(bits) {
        return Err(EmissionFault::Unpaired {
            position: position as u64,
        });
    }
    Ok(())
}

/// The least slot of a word of the wrong weight.
fn first_wrong_word(bits: &[bool]) -> Option<usize>
    ensures some { IfSome result (IsLeast (IsWrongWord (words_of bits.now))) }
    ensures none { IsNone result → AreRight bits.now }
{
    for slot in 0..bits.len() / ELEMENTS {
        if is_wrong_word(bits, slot) {
            return Some(slot);
        }
    }
    None
}

/// Whether the word of a slot has the wrong weight.
fn is_wrong_word(bits: &[bool], slot: usize) -> bool
    ensures { IsTrue result ↔ IsWrongWord (words_of bits.now) slot }
{
    match get_word(bits, slot) {
        Some(word) => !check_bits(word),
        None => false,
    }
}

/// The least position whose two words are there and are no pair.
fn first_unpaired(bits: &[bool]) -> Option<usize>
    ensures some { IfSome result (IsLeast (IsUnpaired (words_of bits.now))) }
    ensures none { IsNone result → ArePaired bits.now }
{
    for position in 0..bits.len() / ELEMENTS {
        if is_unpaired(bits, position) {
            return Some(position);
        }
    }
    None
}

/// Whether the two words of a position are there and are no pair.
fn is_unpaired(bits: &[bool], position: usize) -> bool
    requires { position < length bits.now / 7 }
    ensures { IsTrue result ↔ IsUnpaired (words_of bits.now) position }
{
    let dx = get_word(bits, 2 * position);
    let rx = get_word(bits, 2 * position + SPREAD);
    match (dx, rx) {
        (Some(dx), Some(rx)) => !is_pair(dx, rx),
        _ => false,
    }
}

/// Whether two words are those of one position: one traffic word twice, P2 and then P1, or P1
/// twice.
fn is_pair(dx: Word, rx: Word) -> bool
    ensures { IsTrue result ↔ IsPair dx rx }
{
    match signal_of(dx) {
        Some(Signal::Traffic(_)) => rx == dx,
        Some(Signal::Repeat) => rx == word_of(Signal::Alpha),
        Some(Signal::Alpha) => rx == dx,
        Some(Signal::Beta) => false,
        None => false,
    }
}

/// The text of elements that are whole words.
fn decoded_text(alloc: Global, bits: &[bool]) -> Result<Vec<u8>, AllocError>
    requires { AreWhole bits.now }
    ensures { IfOk result (λ text. text.items ≡ aligned_text (words_of bits.now)) }
{
    match decode_aligned(alloc, bits) {
        Ok(text) => Ok(text),
        Err(AlignedFault::Memory(error)) => Err(error),
        Err(AlignedFault::Ragged { .. }) => unreachable!(),
    }
}
