//! Many windows: the first one that is a pattern. What runs for each block of them is inlined
//! always, since a call would cost more than its few instructions.

ghost use Rattle.std.specs.Prelude.{◌≡◌, ℕ, ◌+◌, ◌<◌, ◌≤◌, length, slice_index, IfSome, IsTrue, false};
ghost use Rattle.nx_sync.specs.Windows as locking;
ghost use Rattle.nx_sync.specs.Windows.{IsFirstLock, HasNoLock};
ghost use Rattle.nx_sync.specs.private.Windows.{IsBeforeLock};

use crate::phasing::{BEFORE_DX, BEFORE_RX, is_lock_window};
use std::simd::prelude::*;

/// How many windows are compared at once.
const WINDOWS_AT_ONCE: usize = 8;

/// The least index whose window is one of the two lock patterns; None where none is. A window has
/// its oldest element in the least place; the patterns are 1F987E6 (P2 first) and CC3F30F (P1
/// first) hexadecimal (this profile).
pub fn first_lock(windows: &[u32]) -> Option<usize>
    ensures found { IfSome result (λ at. IsFirstLock windows.now at) }
    ensures none { result ≡ None → HasNoLock windows.now (length windows.now) }
{
    let mut at = clear_blocks(windows);
    while at < windows.len() {
        if is_lock_window(windows[at]) {
            return Some(at);
        }
        at += 1;
    }
    None
}

/// How many windows come before the first lock pattern, all where there is none.
#[inline(always)]
pub(crate) fn count_before_lock(windows: &[u32]) -> usize
    ensures { IsBeforeLock windows.now result }
{
    match first_lock(windows) {
        Some(at) => at,
        None => windows.len(),
    }
}

/// How many windows stand in whole blocks of eight without a lock pattern, from the first on.
fn clear_blocks(windows: &[u32]) -> usize
    ensures within { result ≤ length windows.now }
    ensures clear { HasNoLock windows.now result }
{
    let mut at = 0;
    while windows.len() - at >= WINDOWS_AT_ONCE {
        if !is_clear(windows, at) {
            return at;
        }
        at += WINDOWS_AT_ONCE;
    }
    at
}

/// Whether none of the eight windows from an index on is a lock pattern.
#[inline(always)]
fn is_clear(windows: &[u32], at: usize) -> bool
    requires { at + 8 ≤ length windows.now }
    ensures { IsTrue result → (k : ℕ) → at ≤ k → k < at + 8
        → locking.is_lock_window (slice_index windows.now k) ≡ false }
{
    let block = u32x8::from_slice(&windows[at..]);
    let dx = block.simd_eq(u32x8::splat(BEFORE_DX)).to_bitmask();
    let rx = block.simd_eq(u32x8::splat(BEFORE_RX)).to_bitmask();
    dx == 0 && rx == 0
}
