//! A reader that notes what stood at each of its reads.

ghost use Rattle.std.specs.Prelude.{◌≡◌, ◌+◌, ◌<◌, ◌≤◌, [], ◌∷◌, length};
ghost use Rattle.nx_fec.specs.Transfers.{HasLength, IsNextPiece, count_of, max_piece};
ghost use Rattle.nx_watch.specs.Stamp.{stamp};
ghost use Rattle.nx_watch.specs.Stamps.{bytes_given, counted_of, cut_notes, size_of_piece, stamps_of};

use crate::stamped::cut_notes::CutNotes;
use crate::stamped::stamps::Stamps;
use nx_fec::{Counting, Piece, PieceBuffer};
use std::io::Read;

pub(crate) mod cut_notes;
mod stamps;

/// A counted reader that notes, for clauses alone, what stood at each of its reads: how many bytes
/// had come before it, the disk file, the output and the notices, and how many bytes it gave.
/// Nothing else makes a stamp, and nothing else of it reads. What stood as a start told what it
/// cuts of its log is noted in it too.
#[derive(Drop)]
pub struct StampedReader<R, D, W, N> {
    reader: Counting<R>,
    /// How many bytes it gave, at most the greatest u64.
    given: u64,
    stamps: Stamps<D, W, N>,
    pub(crate) cuts: CutNotes<D, N>,
}

impl<R, D, W, N> StampedReader<R, D, W, N> {
    /// A reader of which no read was made yet.
    pub fn new(reader: Counting<R>) -> Self
        ensures reader { counted_of result ≡ reader }
        ensures given { bytes_given result ≡ 0 }
        ensures stamps { stamps_of result ≡ [] }
        ensures cuts { cut_notes result ≡ [] }
    {
        StampedReader {
            reader,
            given: 0,
            stamps: Stamps::new(),
            cuts: CutNotes::new(),
        }
    }

    /// The counted reader.
    pub fn into_inner(self) -> Counting<R>
        ensures { result ≡ counted_of self }
    {
        let StampedReader {
            reader,
            given: _,
            stamps: _,
            cuts: _,
        } = self;
        reader
    }
}

impl<R: Read, D, W, N> StampedReader<R, D, W, N> {
    /// Reads the next piece, of at most `most` bytes, and notes what stood as it was asked for, and
    /// how many bytes it gave. No call on the reader may have failed before (`none`). `most` is at
    /// least one (`some`), and at most what one read gives, 65,536 (`few`).
    pub fn next_piece(
        &mut self,
        disk: &D,
        writer: &W,
        notices: &N,
        buffer: &mut PieceBuffer,
        most: usize,
    ) -> Piece
        requires none { (counted_of self.old).failures ≡ 0 }
        requires some { 0 < most }
        requires few { most ≤ max_piece }
        ensures piece { IsNextPiece R.remaining (counted_of self.old) (counted_of self.new)
            buffer.new result }
        ensures whole { HasLength buffer.new result }
        ensures few { length buffer.new ≤ most }
        ensures given { bytes_given self.new
            ≡ count_of (bytes_given self.old + size_of_piece result) }
        ensures stamped { stamps_of self.new
            ≡ stamp (bytes_given self.old) (size_of_piece result) disk.now writer.now notices.now
            ∷ stamps_of self.old }
        ensures cuts { cut_notes self.new ≡ cut_notes self.old }
    {
        let piece = buffer.read(&mut self.reader, most);
        let gave = size_of(&piece);
        self.stamps = self.stamps.and(&self.given, &gave, disk, writer, notices);
        self.given = self.given.saturating_add(gave);
        piece
    }
}

/// How many bytes a read gave.
fn size_of(piece: &Piece) -> u64
    ensures { result ≡ size_of_piece piece.now }
{
    match piece {
        Piece::Bytes(count) => *count as u64,
        Piece::End => 0,
        Piece::Failed => 0,
    }
}
