//! A reader that notes what had been told as each read was asked for.

ghost use Rattle.std.specs.Prelude.{◌≡◌, ◌<◌, length};
ghost use Rattle.nx_fec.specs.Transfers.{IsNextPiece};
ghost use Rattle.nx_log.specs.NotedReader.{as_asked, counted_of, told_as_asked};

use nx_fec::{Counting, Piece, next_piece};
use std::io::Read;
use std::snapshot::Snapshot;

/// A counted reader that notes, for clauses alone, how it and the notices stood as the last read
/// was asked for. It reads in no other way, and nothing else makes a note.
#[derive(Drop)]
pub struct NotedReader<R, N> {
    reader: Counting<R>,
    asked: Snapshot<Counting<R>>,
    told: Snapshot<Counting<N>>,
}

impl<R, N> NotedReader<R, N> {
    /// A reader of which no read was asked for yet. What stands now is noted.
    pub fn new(reader: Counting<R>, notices: &Counting<N>) -> Self
        ensures reader { counted_of result ≡ reader }
        ensures asked { as_asked result ≡ reader }
        ensures told { told_as_asked result ≡ notices.now }
    {
        let asked = Snapshot::of(&reader);
        NotedReader {
            reader,
            asked,
            told: Snapshot::of(notices),
        }
    }

    /// The counted reader.
    pub fn into_inner(self) -> Counting<R>
        ensures { result ≡ counted_of self }
    {
        let NotedReader {
            reader,
            asked: _,
            told: _,
        } = self;
        reader
    }
}

impl<R: Read, N> NotedReader<R, N> {
    /// Reads the next piece of the input into a buffer that isn't empty, where no read failed yet,
    /// and notes how it and the notices stand as it asks for it.
    pub fn next_piece(&mut self, notices: &Counting<N>, buffer: &mut [u8]) -> Piece
        requires none { (counted_of self.old).failures ≡ 0 }
        requires room { 0 < length buffer.old }
        ensures piece { IsNextPiece R.remaining (counted_of self.old) (counted_of self.new)
            buffer.new result }
        ensures asked { as_asked self.new ≡ counted_of self.old }
        ensures told { told_as_asked self.new ≡ notices.now }
    {
        self.asked = Snapshot::of(&self.reader);
        self.told = Snapshot::of(notices);
        next_piece(&mut self.reader, buffer)
    }
}
