//! Hunting in packed elements, 64 of them in a number. What runs for each number is inlined always,
//! since a call would cost more than its few instructions.

ghost use Rattle.std.specs.Prelude.{◌≡◌, ℕ, ◌*◌, ◌^◌, ◌<◌, ◌≤◌, length, [], ◌∷◌, IsTrue};
ghost use Rattle.nx_code.specs.Packed.{packed_elements, packed_part};
ghost use Rattle.nx_sync.specs.Locks.{pattern_elements};
ghost use Rattle.nx_sync.specs.private.Windows as spec;
ghost use Rattle.nx_sync.specs.private.Windows.{IsBeforeLockIn};

use crate::phasing::{PATTERN, is_block, is_lock_window};
use crate::windows_after::joined;
use nx_code::elements_at;

/// So few elements are looked at window by window at once, which costs less than the tests of
/// blocks (this project's own).
const FEW: usize = 16;

/// The element at a place.
#[inline(always)]
pub(crate) fn element(numbers: &[u64], place: usize) -> bool
    requires { place < packed_elements * length numbers.now }
    ensures { result ∷ [] ≡ packed_part numbers.now place 1 }
{
    elements_at(numbers, place, 1) % 2 == 1
}

/// Whether one of the windows after each of the 64 elements of a number may be a pattern. The first
/// 18 of these have the last ten elements of the window before, the next 19 have ten others, and so
/// on. Where none of the four tens stands in a pattern, none of the windows is one.
#[inline(always)]
fn may_lock_in_blocks(window: u32, number: u64) -> bool
    requires { window < 2 ^ pattern_elements }
    ensures { result ≡ spec.may_lock_in_blocks (spec.joined window number) }
{
    is_block(u64::from(window >> 18))
        | is_block((number >> 9) % 1024)
        | is_block((number >> 28) % 1024)
        | is_block((number >> 47) % 1024)
}

/// The same by two tens of elements for each window. Where one of the four stands in a pattern, the
/// earlier ones of its windows also have the ten from nine places before it on. The later ones also
/// have those from ten places behind it on.
#[inline(never)]
fn may_lock_in_both(window: u32, number: u64) -> bool
    requires { window < 2 ^ pattern_elements }
    ensures { result ≡ spec.may_lock_in_both (spec.joined window number) }
{
    let joined = joined(window, number);
    let [first, second] = [block_at(joined, 9), block_at(joined, 28)];
    let [third, fourth] = [block_at(joined, 47), block_at(joined, 66)];
    (block_at(joined, 18) & (first | second))
        | (block_at(joined, 37) & (second | third))
        | (block_at(joined, 56) & (third | fourth))
        | (block_at(joined, 75) & fourth)
}

/// Whether the ten elements from a place on stand in a pattern.
#[inline(always)]
fn block_at(joined: u128, place: u32) -> bool
    requires { place < 128 }
    ensures { result ≡ spec.is_block (spec.block_in joined place) }
{
    is_block(((joined >> place) % 1024) as u64)
}

/// Whether surely none of the windows after each of the 64 elements of a number is a pattern.
#[inline(always)]
pub(crate) fn has_no_lock(window: u32, number: u64) -> bool
    requires { window < 2 ^ pattern_elements }
    ensures { IsTrue result → (count : ℕ) → count ≤ packed_elements
        → IsBeforeLockIn (spec.joined window number) count count }
{
    if !may_lock_in_blocks(window, number) {
        return true;
    }
    !may_lock_in_both(window, number)
}

/// How many of the first elements of a number come before the one that ends the first pattern, all
/// of them where none does.
#[inline(always)]
pub(crate) fn count_before_lock_in(window: u32, number: u64, count: usize) -> usize
    requires window { window < 2 ^ pattern_elements }
    requires few { count ≤ packed_elements }
    ensures { IsBeforeLockIn (spec.joined window number) count result }
{
    if count > FEW && has_no_lock(window, number) {
        return count;
    }
    count_by_windows(window, number, count)
}

/// The same, window by window.
#[inline(never)]
fn count_by_windows(window: u32, number: u64, count: usize) -> usize
    requires window { window < 2 ^ pattern_elements }
    requires few { count ≤ packed_elements }
    ensures { IsBeforeLockIn (spec.joined window number) count result }
{
    let mut rest = joined(window, number);
    let mut at = 0;
    while at < count {
        rest >>= 1;
        if is_lock_window((rest % (1 << PATTERN)) as u32) {
            return at;
        }
        at += 1;
    }
    at
}
