//! The markers that end a copy: at the end of a text, and among the next four of its bytes. All of
//! it is inlined always, since it runs for each byte of a copy or for each four of a text.

ghost use Rattle.std.specs.Prelude.{◌≡◌, ◌+◌, ◌*◌, ◌^◌, ◌/◌, ◌%◌, ◌≤◌, ℕ, List, None, false};
ghost use Rattle.std.specs.Int.{from_le_bytes, w32};
ghost use Rattle.nx_envelope.specs.private.Backward.{last_four, marker_back};
ghost use Rattle.nx_envelope.specs.private.FourBytes.{Four, IsEight, IsUnmarked, four_behind};

use crate::found::How;
use crate::message::{END_MARKER, START_MARKER};

/// How the copy ends whose text has these last four bytes, if they are a marker.
// Compared as one number, which takes fewer instructions than byte by byte.
#[inline(always)]
pub(crate) fn marker_of(recent: [u8; 4]) -> Option<How>
    ensures { (back : List ℕ) → recent ≡ last_four back → result ≡ marker_back back }
{
    let four = u32::from_le_bytes(recent);
    if four == u32::from_le_bytes(END_MARKER) {
        Some(How::Full)
    } else if four == u32::from_le_bytes(START_MARKER) {
        Some(How::Cut)
    } else {
        None
    }
}

/// The last four bytes of a text and the four that come next, as a number with the oldest byte
/// lowest.
#[inline(always)]
pub(crate) fn eight_of(recent: [u8; 4], bytes: [u8; 4]) -> u64
    ensures { (back : List ℕ) → recent ≡ last_four back → IsEight result back bytes }
{
    u64::from(u32::from_le_bytes(recent)) + (u64::from(u32::from_le_bytes(bytes)) << 32)
}

/// The four of eight bytes that stand behind so many of them.
#[inline(always)]
pub(crate) fn four_behind(eight: u64, count: usize) -> u32
    requires { count ≤ 4 }
    ensures { result ≡ four_behind eight count }
{
    ((eight >> (8 * count)) % (1 << 32)) as u32
}

/// Whether a marker ends with one of the last four of eight bytes.
#[inline(always)]
pub(crate) fn ends_marker(eight: u64) -> bool
    ensures one { result ≡ false → IsUnmarked eight 1 }
    ensures two { result ≡ false → IsUnmarked eight 2 }
    ensures three { result ≡ false → IsUnmarked eight 3 }
    ensures four { result ≡ false → IsUnmarked eight 4 }
{
    if !may_end_marker(eight) {
        return false;
    }
    is_marker(four_behind(eight, 1))
        | is_marker(four_behind(eight, 2))
        | is_marker(four_behind(eight, 3))
        | is_marker(four_behind(eight, 4))
}

/// Whether the first of the last four of eight bytes is in a marker: each marker that ends with one
/// of these four has it.
#[inline(always)]
fn may_end_marker(eight: u64) -> bool
    ensures one { result ≡ false → IsUnmarked eight 1 }
    ensures two { result ≡ false → IsUnmarked eight 2 }
    ensures three { result ≡ false → IsUnmarked eight 3 }
    ensures four { result ≡ false → IsUnmarked eight 4 }
{
    let byte = (eight >> 32) % (1 << 8);
    (byte == u64::from(b'N')) | (byte == u64::from(b'Z')) | (byte == u64::from(b'C'))
}

/// Whether four bytes are a marker.
#[inline(always)]
fn is_marker(four: u32) -> bool
    ensures { result ≡ false → (back : List ℕ) → Four (last_four back)
        → four ≡ from_le_bytes w32 (last_four back) → marker_back back ≡ None }
{
    marker_of(four.to_le_bytes()).is_some()
}
