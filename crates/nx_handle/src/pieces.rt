//! Hearing elements, piece by piece.

ghost use Rattle.std.specs.Prelude.{◌≡◌, ◌≤◌, length, true};
ghost use Rattle.nx_fec.specs.air_files.AirFile.{element_digit};
ghost use Rattle.nx_handle.specs.CallerRoom.{room};
ghost use Rattle.nx_handle.specs.Hearing.{element_of, elements_of};
ghost use Rattle.nx_handle.specs.private.Hearing.{HearsAndCopiesOut, HearsOn};

use crate::caller_room::{copy_entry_out, copy_out};
use crate::kept_place::KeptPlace;
use nx_fec::{Channel, PackedElements};

/// The most elements of a piece.
const MAX_PIECE: usize = 512;

/// Hears elements of a channel in its place, up to and with the one that ends the first copy that
/// is printed, and copies the bytes of its entry into the caller's room; says how many it heard.
pub(crate) fn hear_all<P: KeptPlace>(
    place: &mut P,
    channel: Channel,
    elements: &[u8],
    log: &mut [u8],
    written: &mut usize,
) -> usize
    requires { P.kind.is_hearing place.old ≡ true }
    ensures { HearsAndCopiesOut (HearsOn P.kind channel place.old place.new) elements.now result
        (room log.old log.new written.new) }
{
    let mut heard = 0;
    while heard < elements.len() {
        let end = elements.len().min(heard.saturating_add(MAX_PIECE));
        let packed = pack(&elements[heard..end]);
        let (count, head) = place.next_printed(&packed, 0);
        heard += count;
        if let Some(head) = head {
            copy_entry_out(&head, place.text(), channel, log, written);
            return heard;
        }
    }
    copy_out(&[], log, written);
    heard
}

/// Packs the elements of these bytes.
fn pack(bytes: &[u8]) -> PackedElements
    requires { length bytes.now ≤ 512 }
    ensures { result ≡ elements_of bytes.now }
{
    let mut digits = [b'0'; MAX_PIECE];
    for place in 0..bytes.len() {
        digits[place] = digit_of(bytes[place]);
    }
    let mut packed = PackedElements::new();
    // True exactly where there are elements.
    let _ = packed.read(&digits[..bytes.len()]);
    packed
}

/// The digit of the element of a byte.
fn digit_of(byte: u8) -> u8
    ensures { result ≡ element_digit (element_of byte) }
{
    if byte == 1 { b'1' } else { b'0' }
}
