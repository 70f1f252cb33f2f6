//! The lines of an emission, written from its positions. What runs for each position is inlined
//! always.

ghost use Rattle.std.specs.Prelude.{◌≡◌, ◌+◌, ◌*◌, ◌<◌, ◌≤◌, ◌++◌, length, map, take, IfErr, OnOk};
ghost use Rattle.std.specs.Int.{to_le_bytes, w64};
ghost use Rattle.std.specs.Io.KnownBytes.{Appends};
ghost use Rattle.nx_code.specs.Word.{elements};
ghost use Rattle.nx_fec.specs.air_files.AirFile.{element_digit};
ghost use Rattle.nx_fec.specs.air_files.BitLines.{bit_line, bit_lines};
ghost use Rattle.nx_fec.specs.emissions.Emission.{bits_of, dx_word, emission, rx_word, sent_position, word_sent};
ghost use Rattle.nx_fec.specs.air_files.Lines.{file_of, line_bytes};
ghost use Rattle.nx_fec.specs.Transfers.{FailsOnce, WroteSome};

use crate::air_files::bounded_bytes::BoundedBytes;
use crate::devices::counting::Counting;
use crate::devices::writing::{LINE_BATCH_BYTES, LINE_BYTES, LINE_ELEMENTS, push_digits, write_on};
use crate::emissions::positions::Position;
use crate::fault::WriteFault;
use nx_code::{ELEMENTS, Signal, Word, word_of};
use std::io::Write;

/// How many elements the slots of a position have: that of its DX word, and the one behind it.
const POSITION_ELEMENTS: usize = 2 * ELEMENTS;

/// How many positions begin in a line, which has whole slots.
const LINE_POSITIONS: usize = LINE_ELEMENTS / POSITION_ELEMENTS;

/// How many bytes a number of 64 bits has.
const NUMBER_BYTES: usize = 8;

/// The places of the elements of a word when each has a byte of its own. Times this number, element
/// `n`, which stands in place `n`, comes to place `8n`, and to no other multiple of 8.
const SPREAD: u64 = 0x0002_0408_1020_4081;

/// The least place of each of seven bytes.
const PLACES: u64 = 0x0001_0101_0101_0101;

/// The digit 0 in each of seven bytes.
const ZEROS: u64 = 0x0030_3030_3030_3030;

/// Writes the elements of the emission of these positions as lines of 490, the last of what is
/// left, as `to_bits` and `write_bits` do; but it takes no memory. No positions are no line.
///
/// Where a write fails, the first `written` bytes of those lines were written.
pub(crate) fn write_emission<W: Write>(
    writer: &mut Counting<W>,
    positions: &[Position],
) -> Result<(), WriteFault>
    requires { writer.old.failures ≡ 0 }
    ensures ok { OnOk result
        (Appends (W.contents writer.old.inner) (W.contents writer.new.inner)
        (file_of (bit_lines (bits_of (emission (map sent_position positions.now)))))) }
    ensures err { IfErr result (λ fault.
        WroteSome (W.contents writer.old.inner) (W.contents writer.new.inner)
        (file_of (bit_lines (bits_of (emission (map sent_position positions.now)))))
        fault.written) }
    ensures counts { FailsOnce writer.new result }
{
    let mut batch = BoundedBytes::new();
    let mut sent = 0;
    for index in 0..positions.len().div_ceil(LINE_POSITIONS) {
        if batch.len() > LINE_BATCH_BYTES - LINE_BYTES {
            sent = write_on(writer, sent, batch.as_slice())?;
            batch.clear();
        }
        push_slots(positions, index, &mut batch);
    }
    write_on(writer, sent, batch.as_slice())?;
    Ok(())
}

/// Appends a line, by its index: the elements of 70 slots, or of as many as are left.
fn push_slots(positions: &[Position], index: usize, batch: &mut BoundedBytes<LINE_BATCH_BYTES>)
    requires some { LINE_POSITIONS * index < length positions.now }
    requires room { length batch.old + LINE_BYTES ≤ LINE_BATCH_BYTES }
    ensures { batch.new ≡ batch.old
        ++ line_bytes (bit_line (bits_of (emission (map sent_position positions.now))) index) }
{
    let first = LINE_POSITIONS * index;
    let count = LINE_POSITIONS.min(positions.len() - first);
    let mut digits = [b'0'; LINE_ELEMENTS + 1];
    let mut behind = digits_of(rx_behind(positions, first));
    let mut behind_next = digits_of(rx_behind(positions, first + 1));
    for place in 0..count {
        let (dx, rx) = digits_sent(positions[first + place]);
        let at = POSITION_ELEMENTS * place;
        digits[at..at + NUMBER_BYTES].copy_from_slice(&dx.to_le_bytes());
        digits[at + ELEMENTS..at + ELEMENTS + NUMBER_BYTES].copy_from_slice(&behind.to_le_bytes());
        behind = behind_next;
        behind_next = rx;
    }
    // No word comes behind the last DX word.
    let slots = if first + count < positions.len() {
        2 * count
    } else {
        2 * count - 1
    };
    push_digits(&digits[..ELEMENTS * slots], batch);
}

/// The digits of the word of a position that is sent first, and of the one that is sent again.
#[inline(always)]
fn digits_sent(position: Position) -> (u64, u64)
    ensures dx { take 7 (to_le_bytes w64 result.0)
        ≡ map element_digit (elements (dx_word (sent_position position))) }
    ensures rx { take 7 (to_le_bytes w64 result.1)
        ≡ map element_digit (elements (rx_word (sent_position position))) }
{
    match position {
        // The same word twice, which is looked up once.
        Position::Traffic(_) => {
            let digits = digits_of(position.dx());
            (digits, digits)
        }
        _ => (digits_of(position.dx()), digits_of(position.rx())),
    }
}

/// The word in the slot behind the DX word of a position, by the position's index.
fn rx_behind(positions: &[Position], index: usize) -> Word
    requires { index < length positions.now + 2 }
    ensures { result ≡ word_sent (map sent_position positions.now) (2 * index + 1) }
{
    if index < 2 {
        return word_of(Signal::Alpha);
    }
    positions[index - 2].rx()
}

/// The elements of a word as digits, 1 for B and 0 for Y, as the bytes of a number, the first in
/// the least place; and one more byte.
fn digits_of(word: Word) -> u64
    ensures { take 7 (to_le_bytes w64 result) ≡ map element_digit (elements word) }
{
    u64::from(word.number()) * SPREAD & PLACES | ZEROS
}
