//! Line feeds, which end the lines of an air file. What runs for each line is inlined always, so
//! that its vector stays in registers.
ghost use Rattle.std.specs.Prelude.{◌≡◌, ◌↔◌, ◌<◌, ◌≤◌, ℕ, length, slice_index};
ghost use Rattle.std.specs.Int.{bit_at};
ghost use Rattle.memchr.specs.Find.{IsFirstByte, is_byte};
ghost use Rattle.nx_code.specs.Reading.{newline};

use memchr::memchr;
use nx_code::NEWLINE;
use std::simd::prelude::*;

/// How many bytes are compared at once.
const BYTES_AT_ONCE: usize = 32;

/// The place of the first line feed of a piece, if it has one.
#[inline(always)]
pub(crate) fn first_feed(piece: &[u8]) -> Option<usize>
    ensures { IsFirstByte (is_byte newline) piece.now result }
{
    // A short line ends within one vector; `memchr` sets out for long ones.
    if piece.len() >= BYTES_AT_ONCE {
        let near = feeds(piece);
        if near != 0 {
            return Some(near.trailing_zeros() as usize);
        }
    }
    memchr(NEWLINE, piece)
}

/// The line feeds among the first 32 bytes of a piece: bit k says whether byte k is one.
#[inline(always)]
fn feeds(piece: &[u8]) -> u64
    requires { 32 ≤ length piece.now }
    ensures { (k : ℕ) → (bit_at result k ≡ 1) ↔ ((k < 32) × (slice_index piece.now k ≡ newline)) }
{
    u8x32::from_slice(piece)
        .simd_eq(u8x32::splat(NEWLINE))
        .to_bitmask()
}
