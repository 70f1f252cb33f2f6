//! Words as text.

ghost use Rattle.std.specs.Prelude.{◌≡◌, ◌+◌, ◌*◌, ◌≤◌, ◌++◌, IfErr, IfOk, OnOk};
ghost use Rattle.nx_fec.specs.emissions.Aligned.{AreWhole, ExplainsAligned, words_of};
ghost use Rattle.nx_fec.specs.texts.WordLines.{role_name, word_line, word_lines, word_name};

use crate::emissions::aligned::{AlignedFault, word_of_slot};
use crate::texts::hexadecimal::two_hex_digits;
use itoa::Buffer;
use nx_code::{ELEMENTS, Shift, Word, cell_of, signal_of};
use std::alloc::{AllocError, Global};

/// The lines of the words of these elements, the first of which is that of slot 0. `Ragged` exactly
/// where the count of elements is no multiple of seven.
pub(crate) fn word_lines(alloc: Global, bits: &[bool]) -> Result<Vec<u8>, AlignedFault>
    ensures text { IfOk result (λ text. text.items ≡ word_lines (words_of bits.now)) }
    ensures whole { OnOk result (AreWhole bits.now) }
    ensures refused { IfErr result (ExplainsAligned bits.now) }
{
    if bits.len() % ELEMENTS != 0 {
        return Err(AlignedFault::Ragged {
            bits: bits.len() as u64,
        });
    }
    let mut text = Vec::new(alloc);
    for slot in 0..bits.len() / ELEMENTS {
        if let Err(error) = push_line(slot, word_of_slot(bits, slot), &mut text) {
            return Err(AlignedFault::Memory(error));
        }
    }
    Ok(text)
}

/// Appends the line of a word in a slot.
fn push_line(slot: usize, word: Word, text: &mut Vec<u8>) -> Result<(), AllocError>
    ensures { OnOk result (text.new.items ≡ text.old.items ++ word_line slot word) }
{
    text.extend_from_slice(Buffer::new().format(slot).as_bytes())?;
    text.push(b' ')?;
    text.extend_from_slice(role_of_slot(slot))?;
    text.push(b' ')?;
    text.extend_from_slice(&two_hex_digits(word.number()))?;
    text.push(b' ')?;
    text.extend_from_slice(name_of_word(word))?;
    text.push(b'\n')?;
    Ok(())
}

/// The role of a slot.
fn role_of_slot(slot: usize) -> &'static [u8]
    ensures { result.now ≡ role_name slot }
{
    if slot % 2 == 0 { b"DX" } else { b"RX" }
}

/// The name of a word: its letter, the name of its signal, or `wrong`.
fn name_of_word(word: Word) -> &'static [u8]
    ensures { result.now ≡ word_name word }
{
    match signal_of(word) {
        Some(signal) => cell_of(signal, Shift::Letters),
        None => b"wrong",
    }
}
