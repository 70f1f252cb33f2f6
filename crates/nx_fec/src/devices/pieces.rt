//! Reading by pieces: one read after the other, until the input ends or a read fails.
ghost use Rattle.std.specs.Prelude.{◌≡◌, ◌<◌, ◌≤◌, [], drop, false, length, true};
ghost use Rattle.nx_fec.specs.Transfers.{HasLength, IsNextPiece, max_piece};

use crate::devices::counting::Counting;
use std::io::Read;
use std::marker::Model;

/// How many bytes one read asks for (this project's own).
pub const CHUNK: usize = 65_536;

/// What one read gave.
#[derive(Clone, Copy, Debug, PartialEq, Eq)]
pub enum Piece {
    /// The input has ended.
    End,
    /// The read failed.
    Failed,
    /// So many bytes, at least one, which stand at the front of the buffer.
    Bytes(usize),
}

/// Reads the next piece of the input into a buffer, which takes one byte at least. No call on the
/// reader has failed before.
pub fn next_piece<R: Read>(reader: &mut Counting<R>, buffer: &mut [u8]) -> Piece
    requires none { reader.old.failures ≡ 0 }
    requires room { 0 < length buffer.old }
    ensures { IsNextPiece R.remaining reader.old reader.new buffer.new result }
{
    match reader.read(buffer) {
        Ok(0) => Piece::End,
        Ok(count) => Piece::Bytes(count),
        Err(_) => Piece::Failed,
    }
}

/// The bytes of the last read that weren't taken yet. What lies in the other places, bytes that
/// were taken, no contract sees and nothing reads.
#[derive(Drop)]
pub struct PieceBuffer {
    bytes: [u8; CHUNK],
    /// How many bytes were taken.
    taken: usize,
    /// How many bytes the last read gave.
    count: usize,
}

impl Model for PieceBuffer {
    ghost use Rattle.std.specs.Prelude.{◌≤◌, ℕ, List, drop, take};
    ghost use Rattle.nx_fec.specs.Transfers.{max_piece};

    ghost Value = { List ℕ };

    ghost view = { λ b. drop b.taken (take b.count b.bytes) };

    ghost invariant = { λ b. (b.taken ≤ b.count) × (b.count ≤ max_piece) };
}

impl PieceBuffer {
    /// A buffer before the first read.
    pub fn new() -> Self
        ensures { result ≡ [] }
    {
        PieceBuffer {
            bytes: [0; CHUNK],
            taken: 0,
            count: 0,
        }
    }

    /// The bytes that weren't taken yet.
    #[inline(always)]
    pub fn rest(&self) -> &[u8]
        ensures bytes { result.now ≡ self.now }
        ensures short { length result.now ≤ max_piece }
    {
        &self.bytes[self.taken..self.count]
    }

    /// Whether all were taken.
    #[inline(always)]
    pub fn is_empty(&self) -> bool
        ensures empty { result ≡ true → self.now ≡ [] }
        ensures some { result ≡ false → 0 < length self.now }
    {
        self.taken == self.count
    }

    /// Takes the next bytes, so many.
    #[inline(always)]
    pub fn pass(&mut self, count: usize)
        requires { count ≤ length self.old }
        ensures { self.new ≡ drop count self.old }
    {
        self.taken += count;
    }

    /// Reads the next piece, of at most `most` bytes, in place of what was here.
    pub fn read<R: Read>(&mut self, reader: &mut Counting<R>, most: usize) -> Piece
        requires none { reader.old.failures ≡ 0 }
        requires some { 0 < most }
        requires few { most ≤ max_piece }
        ensures piece { IsNextPiece R.remaining reader.old reader.new self.new result }
        ensures whole { HasLength self.new result }
        ensures few { length self.new ≤ most }
    {
        self.taken = 0;
        self.count = 0;
        let piece = next_piece(reader, &mut self.bytes[..most]);
        if let Piece::Bytes(count) = piece {
            self.count = count;
        }
        piece
    }
}
