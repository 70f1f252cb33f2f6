//! Reading an air file line by line. Who asks gets the next line. More is read only where it is
//! asked again after it said that all lines so far are given. What runs for each short line is
//! inlined always, so that its answer doesn't go through memory; what reads never is.
ghost use Rattle.std.specs.Prelude.{◌≡◌, ◌≢◌, ◌↔◌, ◌+◌, ◌*◌, ◌<◌, ◌≤◌, ◌++◌, ℕ, Bool, true, false, List, [], ◌∷◌, Option, Some, Ok, IfErr, IfNone, IfOk, IfSome, IsErrOf, MatchResult, OnOk, drop, length};
ghost use Rattle.std.specs.Io.KnownBytes.{Consumes, IsAtEnd, Keeps};
ghost use Rattle.nx_fec.specs.Transfers.{CountedDevice};
ghost use Rattle.nx_fec.specs.air_files.AirFile.{Line, spelling};
ghost use Rattle.nx_fec.specs.air_files.LineReading.{EndsEarly, GivesNext, HasFirstFault, HasGivenLines, HasPassed, HoldsSame, LeavesFewer, SaysLatest, SaysOver, answers_left, counted_of, is_over, latest_of, lines_given};
ghost use Rattle.nx_fec.specs.air_files.Scanner.{elements_kept};
ghost use Rattle.nx_fec.specs.private.PieceReading.{GivesShort, HasGivenNone, HasReadOn, IsReadOn};

use crate::air_files::lines::{LineKind, MAX_ELEMENTS};
use crate::air_files::packed_elements::PackedElements;
use crate::air_files::scanner::Scanner;
use crate::devices::counting::Counting;
use crate::devices::pieces::{CHUNK, Piece, PieceBuffer};
use crate::fault::{AirFault, LineFault};
use arrayvec::ArrayVec;
use std::io::Read;

/// What comes next in an air file that is read line by line.
#[derive(Clone, Copy, Debug, PartialEq, Eq)]
pub enum NextLine {
    /// A line, which says this.
    Line(LineKind),
    /// All lines are given that the bytes have which were read. Who asks again lets more be read.
    PieceOver,
    /// The end of the file; all its lines are given.
    End,
}

/// Reads an air file, and gives its lines one after the other. It holds the bytes of one read, and
/// the line that it gave last.
#[derive(Drop)]
pub struct LineReader<'a, R> {
    reader: &'a mut Counting<R>,
    piece: PieceBuffer,
    scanner: Scanner,
    /// Whether it said that the piece is used up.
    is_over: bool,
}

impl<'a, R: Read> LineReader<'a, R> {
    /// A reader of the lines of a file of at most `limit` bytes. It reads nothing yet.
    pub fn new(reader: &'a mut Counting<R>, limit: u64) -> Self
        ensures same { result.reader.ghost_name ≡ reader.entry.ghost_name }
        ensures reader { counted_of result ≡ reader.old }
        ensures fresh { HasGivenLines R.remaining limit (R.remaining reader.old.inner) result [] }
        ensures over { is_over result ≡ true }
    {
        LineReader {
            reader,
            piece: PieceBuffer::new(),
            scanner: Scanner::new(limit),
            is_over: true,
        }
    }

    /// Gives the next line. Where all lines of the bytes so far are given it says so (`PieceOver`),
    /// and reads when it is asked again. Each line is given before any byte behind it is looked at.
    ///
    /// The fault is the first of the file in the order of its bytes, behind the lines that were
    /// given: `LineLong`, `LineCut`, `BadLine`, or `TooLong` where there is a byte past the limit.
    /// It is `Read` where a read failed, and no fault stands in the bytes before.
    #[inline(always)]
    pub fn next(&mut self) -> Result<NextLine, AirFault>
        requires { (counted_of self.old).failures ≡ 0 }

        // What it answers, behind whatever lines it gave.
        ensures gives { (limit : ℕ) (first : Option (List ℕ)) (lines : List Line)
            → HasGivenLines R.remaining limit first self.old lines → MatchResult result
            (GivesNext R.remaining limit first self.new lines)
            (EndsEarly R.remaining limit first self.new lines) }
        ensures line { IfOk result (SaysLatest (latest_of self.new)) }

        // It reads only where it had said that the piece is used up.
        ensures over { IfOk result (SaysOver (is_over self.old) (is_over self.new)) }
        ensures unread { is_over self.old ≡ false → counted_of self.new ≡ counted_of self.old }
        ensures failed { IsErrOf result AirFault.Read ↔ ((counted_of self.new).failures ≡ 1) }
        ensures once { (counted_of self.new).failures ≤ 1 }

        // It comes to an end, and holds the same reader.
        ensures fewer { IfOk result (LeavesFewer (answers_left self.old)
            (answers_left self.new)) }
        ensures same { HoldsSame self.old self.new }
    {
        // A short line that waits is all that most answers need to know of.
        if let Some(kind) = self.next_short() {
            return Ok(NextLine::Line(kind));
        }
        self.next_of_all()
    }

    /// Gives the next line where it waits, and the scanner takes it whole. `None` where it gave
    /// none, as it may.
    #[inline(always)]
    fn next_short(&mut self) -> Option<LineKind>
        ensures given { IfSome result (λ kind. GivesShort self.old self.new kind) }
        ensures none { IfNone result (HasGivenNone self.old self.new) }
    {
        let (kind, count) = self.scanner.scan_whole(self.piece.rest())?;
        self.piece.pass(count);
        self.is_over = false;
        Some(kind)
    }

    /// Gives what comes next, as `next` does, whatever it is. Never inlined: a line that waits
    /// would pay for the place of its answer.
    #[inline(never)]
    fn next_of_all(&mut self) -> Result<NextLine, AirFault>
        requires { (counted_of self.old).failures ≡ 0 }
        ensures gives { (limit : ℕ) (first : Option (List ℕ)) (lines : List Line)
            → HasGivenLines R.remaining limit first self.old lines → MatchResult result
            (GivesNext R.remaining limit first self.new lines)
            (EndsEarly R.remaining limit first self.new lines) }
        ensures line { IfOk result (SaysLatest (latest_of self.new)) }
        ensures over { IfOk result (SaysOver (is_over self.old) (is_over self.new)) }
        ensures unread { is_over self.old ≡ false → counted_of self.new ≡ counted_of self.old }
        ensures failed { IsErrOf result AirFault.Read ↔ ((counted_of self.new).failures ≡ 1) }
        ensures once { (counted_of self.new).failures ≤ 1 }
        ensures fewer { IfOk result (LeavesFewer (answers_left self.old)
            (answers_left self.new)) }
        ensures same { HoldsSame self.old self.new }
    {
        if self.piece.is_empty() {
            if !self.is_over {
                self.is_over = true;
                return Ok(NextLine::PieceOver);
            }
            let has_more = self.read()?;
            if !has_more {
                return Ok(NextLine::End);
            }
        }
        let next = self.next_of_piece()?;
        Ok(next)
    }

    /// Reads the next piece, where none is left of the last one. Answers whether there is one:
    /// false at the end of the file.
    fn read(&mut self) -> Result<bool, AirFault>
        requires none { (counted_of self.old).failures ≡ 0 }
        requires passed { self.old.piece ≡ [] }
        ensures read { (limit : ℕ) (first : Option (List ℕ)) (lines : List Line)
            → HasGivenLines R.remaining limit first self.old lines → MatchResult result
            (HasReadOn R.remaining limit first self.new lines)
            (EndsEarly R.remaining limit first self.new lines) }
        ensures on { IfOk result (IsReadOn self.old self.new) }
        ensures failed { IsErrOf result AirFault.Read ↔ ((counted_of self.new).failures ≡ 1) }
        ensures once { (counted_of self.new).failures ≤ 1 }
        ensures same { HoldsSame self.old self.new }
    {
        match self.piece.read(self.reader, CHUNK) {
            Piece::Bytes(_) => {
                self.is_over = false;
                Ok(true)
            }
            Piece::End => {
                self.scanner.end()?;
                Ok(false)
            }
            Piece::Failed => Err(AirFault::Read),
        }
    }

    /// Gives the next line of the piece, of which some is left. Where none ends in it, says that
    /// the piece is used up.
    fn next_of_piece(&mut self) -> Result<NextLine, LineFault>
        requires { 0 < length self.old.piece }
        ensures gives { (limit : ℕ) (first : Option (List ℕ)) (lines : List Line)
            → HasGivenLines R.remaining limit first self.old lines → MatchResult result
            (GivesNext R.remaining limit first self.new lines)
            (HasFirstFault R.remaining limit first self.new lines) }
        ensures line { IfOk result (SaysLatest (latest_of self.new)) }
        ensures over { IfOk result (SaysOver false (is_over self.new)) }
        ensures allowance { OnOk result (self.new.scanner.allowance < self.old.scanner.allowance) }
        ensures unread { counted_of self.new ≡ counted_of self.old }
        ensures same { HoldsSame self.old self.new }
    {
        let count = self.scanner.scan_part(self.piece.rest())?;
        self.piece.pass(count);
        match self.scanner.latest() {
            Some(kind) => {
                self.is_over = false;
                Ok(NextLine::Line(kind))
            }
            None => {
                self.is_over = true;
                Ok(NextLine::PieceOver)
            }
        }
    }

    /// Looks at the bytes that were read, and gives none of their lines. The fault is the first
    /// that stands in them, if one does.
    #[cold]
    pub fn pass_piece(&mut self) -> Result<(), LineFault>
        ensures passed { (limit : ℕ) (first : Option (List ℕ)) (lines : List Line)
            → HasGivenLines R.remaining limit first self.old lines → MatchResult result
            (λ _. HasPassed R.remaining limit first self.new)
            (λ why. (more : List Line)
            × HasFirstFault R.remaining limit first self.new (lines ++ more) why) }
        ensures unread { counted_of self.new ≡ counted_of self.old }
        ensures same { HoldsSame self.old self.new }
    {
        while !self.piece.is_empty() {
            let count = self.scanner.push_line(self.piece.rest())?;
            self.piece.pass(count);
        }
        Ok(())
    }
}

impl<'a, R> LineReader<'a, R> {
    /// How many lines were given.
    pub fn lines(&self) -> u64
        ensures { result ≡ lines_given self.now }
    {
        self.scanner.lines()
    }

    /// The elements of the line that was given last; none where it has none.
    #[inline(always)]
    pub fn elements(&self) -> &PackedElements
        ensures { result.now ≡ elements_kept (latest_of self.now) }
    {
        self.scanner.elements()
    }

    /// Writes the elements of the line that was given last, in place of those that were there.
    pub fn unpacked(&self, bits: &mut ArrayVec<bool, MAX_ELEMENTS>)
        ensures { bits.new.items ≡ elements_kept (latest_of self.now) }
    {
        self.scanner.unpacked(bits);
    }

    /// The bytes of the line that was given last, without its line feed.
    pub fn text(&self) -> &[u8]
        ensures { (line : Line) → latest_of self.now ≡ Some line → result.now ≡ spelling line }
    {
        self.scanner.line().unwrap_or(&[])
    }
}
