//! Packed elements, taken out of their numbers, and their words. What runs for each number or word
//! is inlined always, since a call would cost more than its few instructions.

ghost use Rattle.std.specs.Prelude.{◌≡◌, ◌+◌, ◌*◌, ◌/◌, ◌%◌, ◌^◌, ◌<◌, ◌≤◌, length};
ghost use Rattle.std.specs.List.{flat_map};
ghost use Rattle.nx_code.specs.Word as words;
ghost use Rattle.nx_code.specs.Word.{elements_from};
ghost use Rattle.nx_code.specs.Packed.{packed_elements, packed_part};

use crate::words::{ELEMENTS, Word};

/// How many elements a packed number has (this project's own).
pub const PACKED: usize = 64;

/// How many words `words_of` answers (this project's own: as many whole words as a packed number
/// has room for, less one).
pub const WORDS_AT_ONCE: usize = 8;

/// The elements from a place on, at most 56 of them, as a number with the first one in the least
/// place.
#[inline(always)]
pub fn elements_at(numbers: &[u64], place: usize, count: usize) -> u64
    requires some { 0 < count }
    requires few { count ≤ 56 }
    requires room { place + count ≤ packed_elements * length numbers.now }
    ensures elements { elements_from count result ≡ packed_part numbers.now place count }
    ensures within { result < 2 ^ count }
{
    let shift = place % PACKED;
    let here = PACKED - shift;
    let low = numbers[place / PACKED] >> shift;
    if count <= here {
        return low % (1 << count);
    }
    (low + (numbers[place / PACKED + 1] << here)) % (1 << count)
}

/// The eight words of 56 elements, given as a number with the first one in the least place, in the
/// order of sending.
#[inline(always)]
pub fn words_of(elements: u64) -> [Word; WORDS_AT_ONCE]
    requires { elements < 2 ^ 56 }
    ensures { flat_map words.elements result ≡ elements_from 56 elements }
{
    [
        nth_word(elements, 0),
        nth_word(elements, 1),
        nth_word(elements, 2),
        nth_word(elements, 3),
        nth_word(elements, 4),
        nth_word(elements, 5),
        nth_word(elements, 6),
        nth_word(elements, 7),
    ]
}

/// The word of this index among packed elements.
#[inline(always)]
fn nth_word(elements: u64, index: usize) -> Word
    requires { index < 8 }
    ensures { result ≡ elements / 2 ^ (7 * index) % 128 }
{
    Word::at(((elements >> (ELEMENTS * index)) % 128) as u8)
}
