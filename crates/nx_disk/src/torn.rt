//! A file in memory that a crash may tear, for trials.

use crate::noted::RawFile;
use nx_kept::DiskFailed;
use std::alloc::{AllocError, Global};

/// What a crash leaves of what was written or cut since the last sync.
#[derive(Clone, Copy, Debug, Drop, PartialEq, Eq)]
pub enum Tear {
    /// Nothing of it.
    Nothing,
    /// All of it.
    All,
    /// The first half of its bytes.
    FirstHalf,
    /// The second half of its bytes, in a file that is as long as with all.
    SecondHalf,
    /// Zeros in place of its bytes.
    Zeros,
    /// Bytes of eight ones in place of its bytes.
    Ones,
    /// Spaces in place of its bytes.
    Spaces,
    /// Newlines in place of its bytes.
    Newlines,
}

impl Tear {
    /// Each of them.
    pub const ALL: [Tear; 8] = [
        Tear::Nothing,
        Tear::All,
        Tear::FirstHalf,
        Tear::SecondHalf,
        Tear::Zeros,
        Tear::Ones,
        Tear::Spaces,
        Tear::Newlines,
    ];
}

/// A file in memory. It knows what a sync has brought to the disk, and what was touched since. It
/// can be told in which call to fail: that call is made all the same, as far as memory goes.
#[derive(Drop)]
pub struct TornFile {
    alloc: Global,
    disk: Vec<u8>,
    bytes: Vec<u8>,
    low: usize,
    high: usize,
    calls: u64,
    fails_in: Option<u64>,
}

impl TornFile {
    /// A file with these bytes, all of them on the disk.
    pub fn new(alloc: Global, bytes: &[u8]) -> Result<Self, AllocError> {
        Ok(TornFile {
            alloc,
            disk: bytes.to_vec(alloc)?,
            bytes: bytes.to_vec(alloc)?,
            low: 0,
            high: 0,
            calls: 0,
            fails_in: None,
        })
    }

    /// The same file, in whose call of that number, from 1, the disk fails.
    pub fn failing_in(self, call: u64) -> Self {
        TornFile {
            fails_in: Some(call),
            ..self
        }
    }

    /// What a read finds.
    pub fn bytes(&self) -> &[u8] {
        &self.bytes
    }

    /// How many calls were made.
    pub fn calls(&self) -> u64 {
        self.calls
    }

    /// What a crash leaves now.
    pub fn left(&self, alloc: Global, tear: Tear) -> Result<Vec<u8>, AllocError> {
        let mut left = Vec::new(alloc);
        for place in 0..self.size_left(tear) {
            left.push(self.byte_left(tear, place))?;
        }
        Ok(left)
    }

    fn size_left(&self, tear: Tear) -> usize {
        let (was, is) = (self.disk.len(), self.bytes.len());
        match tear {
            Tear::Nothing => was,
            Tear::All => is,
            Tear::FirstHalf if was < is => was + (is - was) / 2,
            Tear::FirstHalf => is + (was - is) / 2,
            _ => was.max(is),
        }
    }

    fn byte_left(&self, tear: Tear, place: usize) -> u8 {
        let was = self.disk.get(place).copied().unwrap_or(0);
        if place < self.low || self.high <= place {
            return was;
        }
        let is = self.bytes.get(place).copied().unwrap_or(0);
        let is_first = place - self.low < (self.high - self.low) / 2;
        match tear {
            Tear::Nothing => was,
            Tear::All => is,
            Tear::FirstHalf if is_first => is,
            Tear::FirstHalf => was,
            Tear::SecondHalf if is_first => was,
            Tear::SecondHalf => is,
            Tear::Zeros => 0,
            Tear::Ones => 0xff,
            Tear::Spaces => b' ',
            Tear::Newlines => b'\n',
        }
    }

    /// Counts a call, and answers it.
    fn count(&mut self) -> Result<(), DiskFailed> {
        self.calls = self.calls.wrapping_add(1);
        if self.fails_in == Some(self.calls) {
            Err(DiskFailed)
        } else {
            Ok(())
        }
    }

    fn write(&mut self, at: usize, bytes: &[u8]) -> Result<(), AllocError> {
        let mut next = Vec::new(self.alloc);
        for place in 0..at {
            next.push(self.bytes.get(place).copied().unwrap_or(0))?;
        }
        next.extend_from_slice(bytes)?;
        let end = next.len();
        if end < self.bytes.len() {
            next.extend_from_slice(&self.bytes[end..])?;
        }
        let is_first = self.low == self.high;
        self.low = if is_first { at } else { self.low.min(at) };
        self.high = self.high.max(end);
        self.bytes = next;
        Ok(())
    }
}

impl RawFile for TornFile {
    fn read_at(&mut self, at: u64, room: &mut [u8]) -> Result<usize, DiskFailed> {
        let mut count = 0;
        for (place, byte) in self.bytes.iter().enumerate() {
            if place as u64 >= at && count < room.len() {
                room[count] = *byte;
                count += 1;
            }
        }
        self.count()?;
        Ok(count)
    }

    fn write_at(&mut self, at: u64, bytes: &[u8]) -> Result<(), DiskFailed> {
        if self.write(at as usize, bytes).is_err() {
            return Err(DiskFailed);
        }
        self.count()
    }

    fn cut(&mut self, size: u64) -> Result<(), DiskFailed> {
        self.bytes.truncate(size as usize);
        self.count()
    }

    fn sync(&mut self) -> Result<(), DiskFailed> {
        self.count()?;
        let Ok(disk) = self.bytes.to_vec(self.alloc) else {
            return Err(DiskFailed);
        };
        self.disk = disk;
        self.low = 0;
        self.high = 0;
        Ok(())
    }
}
