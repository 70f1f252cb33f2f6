//! Reading any bytes line by line. Who asks gets the next line, be it understood or not. Where all
//! lines are given of the bytes that were read, it says so, and lets more be read. What runs for
//! each line is inlined always; what reads never is.

ghost use Rattle.std.specs.Prelude.{◌≡◌, ◌+◌, ◌≤◌, ℕ, List, [], IsSomeAnd, Option, length};
ghost use Rattle.nx_fec.specs.air_files.AirFile.{IsLine, Line};
ghost use Rattle.nx_fec.specs.air_files.Scanner.{elements_kept};
ghost use Rattle.nx_watch.specs.Acting.{most_bytes};
ghost use Rattle.nx_watch.specs.Stamps.{counted_of, cut_notes};
ghost use Rattle.nx_watch.specs.private.AnyReading.{HasReadOn, LooksOn, SaysLine};
ghost use Rattle.nx_watch.specs.private.Scanning.{CutsAs, IsScanning};

use crate::lines::any_scanner::{AnyScanner, Ended};
use crate::lines::no_effect::NoEffect;
use crate::stamped::StampedReader;
use nx_fec::{CHUNK, LineKind, PackedElements, Piece, PieceBuffer};
use std::io::Read;

/// What comes next in any bytes that are read line by line.
#[derive(Clone, Copy)]
pub(crate) enum AnyLine {
    /// A line of an air file, which says this.
    Known(LineKind),
    /// A line that isn't understood, and why it has no effect.
    Unknown(NoEffect),
    /// All lines are given that the bytes have which were read.
    PieceOver,
}

/// What a read brought.
#[derive(Clone, Copy)]
pub(crate) enum More {
    /// More bytes.
    Bytes,
    /// Nothing: the input has ended, or no more of it may be read.
    End,
    /// Nothing: the read failed.
    Failed,
}

/// Gives the lines of any bytes one after the other. It holds the bytes of one read, and the line
/// that it gave last.
#[derive(Drop)]
pub(crate) struct AnyLines {
    scanner: AnyScanner,
    piece: PieceBuffer,
    /// How many more bytes may be read.
    room: u64,
}

impl AnyLines {
    /// A reader of the lines of at most so many bytes. It reads nothing yet.
    pub(crate) fn new(limit: u64) -> AnyLines
        ensures stands { IsScanning result.scanner [] [] }
        ensures scanner { result.scanner.scanner.allowance ≡ most_bytes }
        ensures piece { result.piece ≡ [] }
        ensures room { result.room ≡ limit }
    {
        AnyLines {
            scanner: AnyScanner::new(),
            piece: PieceBuffer::new(),
            room: limit,
        }
    }

    /// Gives the next line, or says that all lines are given of the bytes that were read.
    #[inline(always)]
    pub(crate) fn next(&mut self) -> AnyLine
        requires room { length self.old.piece ≤ self.old.scanner.scanner.allowance }
        requires within { self.old.scanner.scanner.allowance ≤ most_bytes }
        ensures looks { LooksOn self.old self.new result }
        ensures line { SaysLine self.new.scanner.scanner.latest result }
        ensures room { self.old.scanner.scanner.allowance + length self.new.piece
            ≤ self.new.scanner.scanner.allowance + length self.old.piece }
        ensures within { self.new.scanner.scanner.allowance ≤ most_bytes }
        ensures unread { self.new.room ≡ self.old.room }
    {
        if self.piece.is_empty() {
            return AnyLine::PieceOver;
        }
        let (count, ended) = self.scanner.take(self.piece.rest());
        self.piece.pass(count);
        match ended {
            Ended::Line => AnyLine::Known(self.scanner.kind()),
            Ended::Unknown(why) => AnyLine::Unknown(why),
            Ended::Nothing => AnyLine::PieceOver,
        }
    }

    /// Reads more, where all lines are given so far, and notes what stood then.
    #[inline(never)]
    pub(crate) fn read<R: Read, D, W, N>(
        &mut self,
        reader: &mut StampedReader<R, D, W, N>,
        disk: &D,
        writer: &W,
        notices: &N,
    ) -> More
        requires well { (counted_of reader.old).failures ≡ 0 }
        requires passed { self.old.piece ≡ [] }
        ensures read { HasReadOn R.remaining reader.old reader.new disk.now writer.now notices.now
            self.old self.new result }
        ensures scanner { self.new.scanner ≡ self.old.scanner }
        ensures cuts { cut_notes reader.new ≡ cut_notes reader.old }
    {
        if self.room == 0 {
            return More::End;
        }
        let most = (CHUNK as u64).min(self.room) as usize;
        match reader.next_piece(disk, writer, notices, &mut self.piece, most) {
            Piece::Bytes(count) => {
                self.room -= count as u64;
                More::Bytes
            }
            Piece::End => More::End,
            Piece::Failed => More::Failed,
        }
    }

    /// The elements of the line that was given last; none where it has none.
    #[inline(always)]
    pub(crate) fn elements(&self) -> &PackedElements
        ensures { result.now ≡ elements_kept self.now.scanner.scanner.latest }
    {
        self.scanner.elements()
    }

    /// Why the line has no effect that the end of the bytes cuts, where one is open.
    pub(crate) fn cut(&self) -> Option<NoEffect>
        ensures { (bytes : List ℕ) (lines : List (Option Line))
            → IsScanning self.now.scanner bytes lines → CutsAs result bytes lines }
    {
        self.scanner.cut()
    }
}
