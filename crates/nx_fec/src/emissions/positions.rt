//! Positions of an emission, and the words of its slots (M.625, collective mode B).

ghost use Rattle.std.specs.Prelude.{◌≡◌, map, slice_get};
ghost use Rattle.nx_fec.specs.emissions.Emission.{dx_word, emission, sent_position, rx_word};

use nx_code::{Comb, Signal, Word, word_of};

/// What is sent twice, as a DX word and five slots later as an RX word.
#[derive(Clone, Copy, Debug, PartialEq, Eq)]
pub enum Position {
    /// Phasing: signal repetition as DX, idle alpha as RX.
    Phasing,
    /// A traffic combination, the same word twice.
    Traffic(Comb),
    /// The end of the emission: idle alpha twice.
    End,
}

/// How many slots the RX word of a position comes after its DX word: the time diversity of mode B
/// (ITU-R M.476 and M.625).
pub const SPREAD: usize = 5;

impl Position {
    /// The word that is sent first.
    pub(crate) fn dx(self) -> Word
        ensures { result ≡ dx_word (sent_position self) }
    {
        word_of(match self {
            Position::Phasing => Signal::Repeat,
            Position::Traffic(comb) => Signal::Traffic(comb),
            Position::End => Signal::Alpha,
        })
    }

    /// The word that is sent again.
    pub(crate) fn rx(self) -> Word
        ensures { result ≡ rx_word (sent_position self) }
    {
        word_of(match self {
            Position::Phasing | Position::End => Signal::Alpha,
            Position::Traffic(comb) => Signal::Traffic(comb),
        })
    }
}

/// The word in a slot of the emission of these positions, from slot 0. The DX word of position i
/// stands in slot 2i and its RX word in slot 2i+5, and idle alpha stands in the slots 1 and 3. None
/// past the last slot, which is that of the last DX word.
pub fn word_at(positions: &[Position], slot: usize) -> Option<Word>
    ensures { result ≡ slice_get (emission (map sent_position positions.now)) slot }
{
    if slot % 2 == 0 {
        return Some(positions.get(slot / 2)?.dx());
    }
    // An RX slot stands before the slot of another DX word.
    positions.get(slot / 2 + 1)?;
    if slot < SPREAD {
        return Some(word_of(Signal::Alpha));
    }
    Some(positions.get((slot - SPREAD) / 2)?.rx())
}
