//! Bytes that lie in the value itself, at most so many of them. What appends some is inlined
//! always, so that few are copied through a vector that stays in registers, without a call.
ghost use Rattle.std.specs.Prelude.{◌≡◌, ◌+◌, ◌≤◌, [], ◌++◌, length, take};

use std::marker::Model;
use std::simd::prelude::*;

/// The most bytes that are copied without a call.
const SHORT: usize = 32;

/// At most `CAPACITY` bytes. An `ArrayVec` would write over all of its places where it is emptied;
/// here they are left as they are. What lies in the places behind the count, bytes of earlier
/// times, no contract sees and nothing reads.
#[derive(Drop)]
pub(crate) struct BoundedBytes<const CAPACITY: usize> {
    bytes: [u8; CAPACITY],
    length: usize,
}

impl<const CAPACITY: usize> Model for BoundedBytes<CAPACITY> {
    ghost use Rattle.std.specs.Prelude.{◌≤◌, ℕ, List, take};

    ghost Value = { List ℕ };

    ghost view = { λ kept. take kept.length kept.bytes };

    ghost invariant = { λ kept. kept.length ≤ CAPACITY };
}

impl<const CAPACITY: usize> BoundedBytes<CAPACITY> {
    /// No byte.
    pub fn new() -> Self
        ensures { result ≡ [] }
    {
        BoundedBytes {
            bytes: [0; CAPACITY],
            length: 0,
        }
    }

    /// How many bytes there are.
    pub fn len(&self) -> usize
        ensures count { result ≡ length self.now }
        ensures fits { result ≤ CAPACITY }
    {
        self.length
    }

    /// The bytes.
    pub fn as_slice(&self) -> &[u8]
        ensures { result.now ≡ self.now }
    {
        &self.bytes[..self.length]
    }

    /// Appends bytes where there is room.
    #[inline(always)]
    pub fn append(&mut self, bytes: &[u8])
        requires { length self.old + length bytes.now ≤ CAPACITY }
        ensures { self.new ≡ self.old ++ bytes.now }
    {
        let first = self.length;
        let length = first + bytes.len();
        let places = &mut self.bytes[..];
        places[first..length].copy_from_slice(bytes);
        self.length = length;
    }

    /// Appends the first `count` of these bytes.
    #[inline(always)]
    pub fn append_front(&mut self, bytes: &[u8], count: usize)
        requires within { count ≤ length bytes.now }
        requires room { length self.old + count ≤ CAPACITY }
        ensures { self.new ≡ self.old ++ take count bytes.now }
    {
        let length = self.length;
        // Few bytes are copied at once, with bytes after them, which nothing reads.
        if count <= SHORT && SHORT <= bytes.len() && SHORT <= CAPACITY - length {
            let places = &mut self.bytes[..];
            u8x32::from_slice(bytes).copy_to_slice(&mut places[length..]);
            self.length = length + count;
        } else {
            self.append(&bytes[..count]);
        }
    }

    /// Drops all bytes.
    pub fn clear(&mut self)
        ensures { self.new ≡ [] }
    {
        self.length = 0;
    }
}
