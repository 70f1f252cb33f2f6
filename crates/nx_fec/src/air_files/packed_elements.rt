//! The elements of one line, packed into numbers of 64 bits. What runs for each line is inlined
//! always, so that its vectors stay in registers.
ghost use Rattle.std.specs.Prelude.{◌≡◌, ◌≢◌, ◌<◌, ◌≤◌, ◌==◌, Bool, List, [], false, true, length, map, take, IsTrue};
ghost use Rattle.std.specs.Simd.Lanes.{mask_l};
ghost use Rattle.nx_code.specs.Packed.{elements_of_numbers};
ghost use Rattle.nx_code.specs.Word.{elements_from};
ghost use Rattle.nx_fec.specs.air_files.AirFile.{element_digit};
ghost use Rattle.nx_fec.specs.private.Packing.{are_elements, is_one};

use crate::air_files::lines::MAX_ELEMENTS;
use nx_code::PACKED;
use std::marker::Model;
use std::mem::size_of;
use std::simd::prelude::*;

/// Fewer digits than so many are packed one by one, without a copy of 64.
const FEW: usize = 16;

/// How many numbers the elements of one line have.
const NUMBERS: usize = MAX_ELEMENTS / PACKED;

/// At most 512 elements, each one bit: element i is bit i % 64 of number i / 64, and 1 is B. What
/// lies in the places behind them, bits of earlier elements, no contract sees and nothing reads.
#[derive(Drop)]
pub struct PackedElements {
    numbers: [u64; NUMBERS],
    length: usize,
}

impl Model for PackedElements {
    ghost use Rattle.std.specs.Prelude.{◌≤◌, Bool, List, take};
    ghost use Rattle.nx_code.specs.Packed.{elements_of_numbers};

    ghost Value = { List Bool };

    ghost view = { λ packed. take packed.length (elements_of_numbers packed.numbers) };

    ghost invariant = { λ packed. packed.length ≤ 512 };
}

impl PackedElements {
    /// No element.
    pub fn new() -> PackedElements
        ensures { result ≡ [] }
    {
        prove!(size_of::<PackedElements>() == 72);
        PackedElements {
            numbers: [0; NUMBERS],
            length: 0,
        }
    }

    /// How many elements there are.
    pub fn len(&self) -> usize
        ensures count { result ≡ length self.now }
        ensures fits { result ≤ 512 }
    {
        self.length
    }

    /// The numbers that the elements are the first of.
    pub fn numbers(&self) -> &[u64]
        ensures elements { self.now ≡ take (length self.now) (elements_of_numbers result.now) }
        ensures count { length result.now ≡ 8 }
    {
        &self.numbers
    }

    /// Drops all elements.
    pub(crate) fn clear(&mut self)
        ensures { self.new ≡ [] }
    {
        self.length = 0;
    }

    /// Reads 1 to 512 elements, each a digit 0 or 1, in place of those that were there. False, and
    /// no elements, where the digits are none.
    #[inline(always)]
    pub fn read(&mut self, digits: &[u8]) -> bool
        ensures found { IsTrue result → (0 < length self.new) × (length self.new ≤ 512)
            × (digits.now ≡ map element_digit self.new) }
        ensures none { result ≡ false → (elements : List Bool) → 0 < length elements
            → length elements ≤ 512
            → digits.now ≢ map element_digit elements }
        ensures unread { result ≡ false → self.new ≡ [] }
    {
        self.length = 0;
        if digits.is_empty() || digits.len() > MAX_ELEMENTS {
            return false;
        }
        let mut right = true;
        let whole = digits.len() / PACKED;
        for place in 0..whole {
            let (number, here) = pack_64(&digits[PACKED * place..]);
            self.numbers[place] = number;
            right &= here;
        }
        if PACKED * whole < digits.len() {
            let (number, here) = pack_last(&digits[PACKED * whole..]);
            self.numbers[whole] = number;
            right &= here;
        }
        if right {
            self.length = digits.len();
        }
        right
    }

    /// Reads the elements at the front of bytes, up to the first byte that is no digit of one, or
    /// 512, in place of those that were there. Answers how many there are.
    #[inline(always)]
    pub(crate) fn read_front(&mut self, bytes: &[u8]) -> usize
        requires { 512 ≤ length bytes.now }
        ensures count { result ≤ 512 }
        ensures elements { self.new ≡ map is_one (take result bytes.now) }
        ensures right { are_elements (take result bytes.now) ≡ true }
    {
        for place in 0..NUMBERS {
            let (number, count) = pack_front(&bytes[PACKED * place..]);
            self.numbers[place] = number;
            if count < PACKED {
                self.length = PACKED * place + count;
                return self.length;
            }
        }
        self.length = MAX_ELEMENTS;
        MAX_ELEMENTS
    }

    /// Takes the first `count` elements of a number, in place of those that were there.
    #[inline(always)]
    pub(crate) fn put(&mut self, number: u64, count: usize)
        requires { count ≤ 64 }
        ensures { self.new ≡ take count (elements_from 64 number) }
    {
        self.numbers[0] = number;
        self.length = count;
    }

    /// Packs at most 512 elements, in place of those that were there.
    pub fn pack_bits(&mut self, bits: &[bool])
        requires { length bits.now ≤ 512 }
        ensures { self.new ≡ bits.now }
    {
        let mut digits = [b'0'; MAX_ELEMENTS];
        for place in 0..bits.len() {
            digits[place] = b'0' + u8::from(bits[place]);
        }
        // True exactly where there are elements.
        let _ = self.read(&digits[..bits.len()]);
    }
}

/// Packs fewer digits than a number holds: few of them one by one.
#[inline(always)]
fn pack_last(digits: &[u8]) -> (u64, bool)
    requires { length digits.now < 64 }
    ensures number { take (length digits.now) (elements_from 64 result.0) ≡ map is_one digits.now }
    ensures right { result.1 ≡ are_elements digits.now }
{
    if digits.len() >= FEW {
        let mut whole = [b'0'; PACKED];
        whole[..digits.len()].copy_from_slice(digits);
        return pack_64(&whole);
    }
    let mut number = 0;
    let mut right = true;
    for place in (0..digits.len()).rev() {
        let digit = digits[place];
        number = 2 * number + u64::from(digit == b'1');
        right &= digit == b'0' || digit == b'1';
    }
    (number, right)
}

/// Packs the digits at the front of bytes, up to the first byte that is none, or 64: their number,
/// and how many there are.
#[inline(always)]
fn pack_front(bytes: &[u8]) -> (u64, usize)
    requires { 64 ≤ length bytes.now }
    ensures count { result.1 ≤ 64 }
    ensures number { take result.1 (elements_from 64 result.0)
        ≡ map is_one (take result.1 bytes.now) }
    ensures right { are_elements (take result.1 bytes.now) ≡ true }
{
    let ones = places_of(bytes, b'1');
    let digits = ones | places_of(bytes, b'0');
    if digits == u64::MAX {
        return (ones, PACKED);
    }
    (ones, digits.trailing_ones() as usize)
}

/// Packs the digits at the front of bytes, as `pack_front` does, but at most 32.
#[inline(always)]
pub(crate) fn pack_near(bytes: &[u8]) -> (u64, usize)
    requires { 32 ≤ length bytes.now }
    ensures count { result.1 ≤ 32 }
    ensures number { take result.1 (elements_from 64 result.0)
        ≡ map is_one (take result.1 bytes.now) }
    ensures right { are_elements (take result.1 bytes.now) ≡ true }
{
    let ones = near_places_of(bytes, b'1');
    let digits = ones | near_places_of(bytes, b'0');
    (ones, digits.trailing_ones() as usize)
}

/// Packs the first 64 digits.
#[inline(always)]
fn pack_64(digits: &[u8]) -> (u64, bool)
    requires { 64 ≤ length digits.now }
    ensures number { elements_from 64 result.0 ≡ map is_one (take 64 digits.now) }
    ensures right { result.1 ≡ are_elements (take 64 digits.now) }
{
    let ones = places_of(digits, b'1');
    let zeros = places_of(digits, b'0');
    (ones, zeros == u64::MAX - ones)
}

/// The places of a byte among the first 64: bit k says whether byte k is it.
#[inline(always)]
fn places_of(digits: &[u8], byte: u8) -> u64
    requires { 64 ≤ length digits.now }
    ensures { result ≡ mask_l (map (λ digit. digit == byte) (take 64 digits.now)) }
{
    u8x64::from_slice(digits)
        .simd_eq(u8x64::splat(byte))
        .to_bitmask()
}

/// The places of a byte among the first 32, as `places_of` has them.
#[inline(always)]
fn near_places_of(digits: &[u8], byte: u8) -> u64
    requires { 32 ≤ length digits.now }
    ensures { result ≡ mask_l (map (λ digit. digit == byte) (take 32 digits.now)) }
{
    u8x32::from_slice(digits)
        .simd_eq(u8x32::splat(byte))
        .to_bitmask()
}
