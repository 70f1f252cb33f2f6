//! A scanner of the lines of an air file, which takes one piece after the other. What runs for each
//! line is inlined always, so that no large answer goes through memory. Most lines are taken whole,
//! and have few elements; what runs for other lines is never inlined.
ghost use Rattle.std.specs.Prelude.{◌≡◌, ◌≢◌, ◌+◌, ◌^◌, ◌<◌, ◌≤◌, ℕ, List, [], ◌∷◌, ◌++◌, None, Some, codes, IfErr, IfNone, IfSome, OnOk, length, take, slice_index, MatchResult};
ghost use Rattle.std.specs.List.{AllByRecursion};
ghost use Rattle.std.specs.Option.{option_map};
ghost use Rattle.nx_code.specs.Reading.{newline};
ghost use Rattle.nx_fec.specs.air_files.AirFile.{IsLine, Line, spelling, with_mark};
ghost use Rattle.nx_fec.specs.air_files.Lines.{Scans, StopsIn, IsCause, IsAirFile, IsAtByte};
ghost use Rattle.nx_fec.specs.air_files.Scanner.{ScansPiece, elements_kept, kind_kept};
ghost use Rattle.nx_fec.specs.private.ScannerKept.{SpellsLine};
ghost use Rattle.nx_fec.specs.private.WholeLines.{TakesLine, Waits};

use crate::air_files::bounded_bytes::BoundedBytes;
use crate::air_files::channel::Channel;
use crate::air_files::line_feeds::first_feed;
use crate::air_files::lines::{
    LineKind, MAX_ELEMENTS, command_of, digits_behind, moment_front, read_line, unpack,
};
use crate::air_files::packed_elements::{PackedElements, pack_near};
use crate::fault::LineFault;
use arrayvec::ArrayVec;
use nx_code::NEWLINE;
use std::marker::Model;
use std::mem::size_of;

/// The most bytes of an air file that is read as it comes.
pub const AIR_LIMIT: u64 = 268_435_456;

/// The most bytes of a line before its end.
const MAX_LINE_BYTES: usize = 514;

/// A line of so few elements is looked for first, in so many bytes of a piece, with its end.
const NEAR_ELEMENTS: usize = 30;

const NEAR_BYTES: usize = 35;

/// The bytes of a command that names no channel: two letters, a space and a letter.
const COMMAND_BYTES: usize = 4;

/// The bytes of one that names its channel: a digit more.
const MARKED_COMMAND_BYTES: usize = 5;

/// Any other line of elements is looked for in so many, the most that a line has, with its end, and
/// one more.
const FAR_BYTES: usize = MAX_LINE_BYTES + 2;

/// Reads the lines of an air file piece by piece. It holds the line that is open, or the one that
/// the last byte ended, how many lines were ended, and how many more bytes it may take.
#[derive(Drop)]
pub struct Scanner {
    /// The bytes of that line.
    kept: BoundedBytes<MAX_LINE_BYTES>,
    /// The elements of the line that was ended.
    elements: PackedElements,
    progress: Progress,
}

/// How far a scanner has come.
#[derive(Drop)]
struct Progress {
    /// What the line that was ended says.
    ended: Option<LineKind>,
    /// How many lines were ended.
    lines: u64,
    /// How many more bytes the file may have.
    allowance: u64,
}

impl Progress {
    /// Ends a line that says this: counts it, and its line feed with the `count` bytes before that
    /// which aren't counted yet. Answers how many bytes these are.
    #[inline(always)]
    fn end_line(&mut self, kind: LineKind, count: usize) -> usize
        requires allowance { count < self.old.allowance }
        requires range { self.old.lines + self.old.allowance < 2 ^ 64 }
        ensures ended { self.new.ended ≡ Some kind }
        ensures lines { self.new.lines ≡ self.old.lines + 1 }
        ensures allowance { self.new.allowance + result ≡ self.old.allowance }
        ensures count { result ≡ count + 1 }
    {
        self.ended = Some(kind);
        self.lines += 1;
        self.allowance -= count as u64 + 1;
        count + 1
    }
}

impl Model for Scanner {
    ghost use Rattle.std.specs.Prelude.{◌+◌, ◌^◌, ◌<◌, length};
    ghost use Rattle.nx_fec.specs.air_files.Lines.{Scanning};
    ghost use Rattle.nx_fec.specs.air_files.Scanner.{elements_kept, kind_kept};
    ghost use Rattle.nx_fec.specs.private.ScannerKept.{IsKept, bytes_kept, line_ended, part_of};
    ghost use Rattle.nx_fec.specs.private.ScannerFields.{kept-back};

    ghost Value = { Scanning };

    ghost view = { λ s. record {
      part = part_of s.progress.ended s.kept;
      lines = s.progress.lines;
      allowance = s.progress.allowance;
      latest = line_ended s.progress.ended s.elements;
    } };

    ghost invariant = { λ s.
        (s.progress.lines + length (part_of s.progress.ended s.kept)
        + s.progress.allowance < 2 ^ 64)
        × IsKept s.progress.ended s.elements s.kept };

    // The bytes and the elements of earlier lines that lie behind those that are kept, in their
    // places, are seen by no contract, and nothing reads them.
    ghost inverse = { λ v. record {
      kept = bytes_kept v.latest v.part;
      elements = elements_kept v.latest;
      progress = record { ended = kind_kept v.latest; lines = v.lines; allowance = v.allowance };
    } };

    ghost inverse_ok = { λ s h i. record {
      kept = (kept-back s.progress.ended s.elements s.kept h.1).bytes i;
      elements = (kept-back s.progress.ended s.elements s.kept h.1).elements i;
      progress = record {
        ended = (kept-back s.progress.ended s.elements s.kept h.1).kind i;
        lines = s.progress.lines;
        allowance = s.progress.allowance;
      };
    } };
}

impl Scanner {
    /// A scanner before the first byte, for a file of at most `limit` bytes.
    pub fn new(limit: u64) -> Self
        ensures stands { Scans limit result [] [] }
        ensures no_line { result.latest ≡ None }
    {
        prove!(size_of::<Scanner>() == 640);
        Scanner {
            kept: BoundedBytes::new(),
            elements: PackedElements::new(),
            progress: Progress {
                ended: None,
                lines: 0,
                allowance: limit,
            },
        }
    }

    /// How many lines were ended.
    pub fn lines(&self) -> u64
        ensures { result ≡ self.now.lines }
    {
        self.progress.lines
    }

    /// What the line says that the last byte ended, if it ended one.
    pub fn latest(&self) -> Option<LineKind>
        ensures { result ≡ kind_kept self.now.latest }
    {
        self.progress.ended
    }

    /// The elements of the line that the last byte ended; none where it ended no line of elements.
    pub fn elements(&self) -> &PackedElements
        ensures { result.now ≡ elements_kept self.now.latest }
    {
        &self.elements
    }

    /// Writes the elements of the line that the last byte ended, in place of those that were there;
    /// none where it ended no line of elements.
    pub fn unpacked(&self, bits: &mut ArrayVec<bool, MAX_ELEMENTS>)
        ensures { bits.new.items ≡ elements_kept self.now.latest }
    {
        // The last bytes of the line are their digits.
        let line = self.kept.as_slice();
        unpack(&line[line.len() - self.elements.len()..], bits);
    }

    /// The bytes of the line that the last byte ended, without its line feed, if it ended one.
    pub fn line(&self) -> Option<&[u8]>
        ensures { option_map (λ line. line.now) result ≡ option_map spelling self.now.latest }
    {
        if self.progress.ended.is_none() {
            return None;
        }
        Some(self.kept.as_slice())
    }

    /// Takes the bytes of a piece up to and with its first line feed, or all where there is none,
    /// and says how many. The line that was ended, if one was, is then the latest. `LineLong` at
    /// the 515th byte of a line, `BadLine` at the end of one that is none of an air file's,
    /// `TooLong` at a byte past the limit. After a fault, which is the file's first whatever bytes
    /// follow, the bytes before it were taken.
    #[inline(always)]
    pub fn push_line(&mut self, piece: &[u8]) -> Result<usize, LineFault>
        requires { 0 < length piece.now }
        ensures { ScansPiece self.old self.new piece.now result }
    {
        if let Some((_, count)) = self.scan_whole(piece) {
            return Ok(count);
        }
        self.scan_part(piece)
    }

    /// Takes the bytes of a piece as `push_line` does, whatever line they are of.
    #[inline(never)]
    pub(crate) fn scan_part(&mut self, piece: &[u8]) -> Result<usize, LineFault>
        requires { 0 < length piece.now }
        ensures { ScansPiece self.old self.new piece.now result }
    {
        let Some(at) = first_feed(piece) else {
            self.go_on(piece, piece.len())?;
            return Ok(piece.len());
        };
        self.go_on(piece, at)?;
        if self.progress.allowance == 0 {
            return Err(LineFault::TooLong);
        }
        let Some(kind) = read_line(self.kept.as_slice(), &mut self.elements) else {
            return Err(LineFault::BadLine {
                line: self.progress.lines + 1,
            });
        };
        Ok(at + self.progress.end_line(kind, 0))
    }

    /// Takes the line that a piece begins with, where none is open and the line is one of elements,
    /// a moment or a command. Answers what it says, and how many bytes it has with its end. `None`
    /// where it took nothing, as it may.
    #[inline(always)]
    pub(crate) fn scan_whole(&mut self, piece: &[u8]) -> Option<(LineKind, usize)>
        ensures taken { IfSome result (λ whole.
            TakesLine self.old self.new piece.now whole.0 whole.1) }
        ensures none { IfNone result (Waits self.old self.new) }
    {
        if self.progress.ended.is_none()
            || piece.len() < NEAR_BYTES
            || self.progress.allowance < NEAR_BYTES as u64
        {
            return None;
        }
        match piece {
            [b'B', b' ', digits @ ..] => self.scan_elements(piece, None, digits),
            [b'T', b' ', digits @ ..] => self.scan_moment(piece, digits),
            _ => match digits_behind(piece) {
                Some((mark, digits)) => self.scan_elements(piece, mark, digits),
                None => self.scan_command(piece),
            },
        }
    }

    /// Takes the line that a piece begins with as `scan_whole` does, where it is a command.
    #[inline(always)]
    fn scan_command(&mut self, piece: &[u8]) -> Option<(LineKind, usize)>
        requires empty { self.old.part ≡ [] }
        requires long { NEAR_BYTES ≤ length piece.now }
        requires allowance { NEAR_BYTES ≤ self.old.allowance }
        ensures taken { IfSome result (λ whole.
            TakesLine self.old self.new piece.now whole.0 whole.1) }
        ensures none { IfNone result (self.new ≡ self.old) }
    {
        let (kind, end) = command_front(piece)?;
        self.kept.clear();
        self.kept.append_front(piece, end);
        self.elements.clear();
        Some((kind, self.progress.end_line(kind, end)))
    }

    /// Takes the line that a piece begins with as `scan_whole` does, where it has elements, by the
    /// channel that it names, if it names one, and what follows it and a space.
    #[inline(always)]
    fn scan_elements(
        &mut self,
        piece: &[u8],
        mark: Option<Channel>,
        digits: &[u8],
    ) -> Option<(LineKind, usize)>
        requires front { piece.now ≡ with_mark (codes "B") mark digits.now }
        requires empty { self.old.part ≡ [] }
        requires long { NEAR_BYTES ≤ length piece.now }
        requires allowance { NEAR_BYTES ≤ self.old.allowance }
        ensures taken { IfSome result (λ whole.
            TakesLine self.old self.new piece.now whole.0 whole.1) }
        ensures none { IfNone result (Waits self.old self.new) }
    {
        let kind = LineKind::Elements(mark);
        let (number, count) = pack_near(digits);
        // The line has more elements, or is no line of elements.
        if count == 0 || count > NEAR_ELEMENTS || digits[count] != NEWLINE {
            return match self.scan_many(piece, mark, digits) {
                0 => None,
                size => Some((kind, size)),
            };
        }
        let end = piece.len() - digits.len() + count;
        self.kept.clear();
        self.kept.append_front(piece, end);
        self.elements.put(number, count);
        Some((kind, self.progress.end_line(kind, end)))
    }

    /// Takes the line that a piece begins with as `scan_whole` does, where it is a moment; the
    /// digits are what follows `T` and a space.
    #[inline(always)]
    fn scan_moment(&mut self, piece: &[u8], digits: &[u8]) -> Option<(LineKind, usize)>
        requires front { piece.now ≡ codes "T " ++ digits.now }
        requires empty { self.old.part ≡ [] }
        requires long { NEAR_BYTES ≤ length piece.now }
        requires allowance { NEAR_BYTES ≤ self.old.allowance }
        ensures taken { IfSome result (λ whole.
            TakesLine self.old self.new piece.now whole.0 whole.1) }
        ensures none { IfNone result (self.new ≡ self.old) }
    {
        let (moment, count) = moment_front(digits);
        let end = 2 + count;
        if count == 0 || piece[end] != NEWLINE {
            return None;
        }
        self.kept.clear();
        self.kept.append_front(piece, end);
        self.elements.clear();
        let kind = LineKind::Moment(moment);
        Some((kind, self.progress.end_line(kind, end)))
    }

    /// Takes the line that a piece begins with as `scan_elements` does, however many elements it
    /// has. Answers how many bytes it has with its end, 0 where it took nothing.
    #[inline(never)]
    fn scan_many(&mut self, piece: &[u8], mark: Option<Channel>, digits: &[u8]) -> usize
        requires front { piece.now ≡ with_mark (codes "B") mark digits.now }
        requires empty { self.old.part ≡ [] }
        ensures taken { 0 < result
            → TakesLine self.old self.new piece.now (LineKind.Elements mark) result }
        ensures none { result ≡ 0 → Waits self.old self.new }
    {
        if piece.len() < FAR_BYTES || self.progress.allowance < FAR_BYTES as u64 {
            return 0;
        }
        self.open();
        let count = self.elements.read_front(digits);
        let end = piece.len() - digits.len() + count;
        if count == 0 || end > MAX_LINE_BYTES || digits[count] != NEWLINE {
            self.elements.clear();
            return 0;
        }
        self.kept.append_front(piece, end);
        self.progress.end_line(LineKind::Elements(mark), end)
    }

    /// Takes the first `count` bytes of a piece into the open line; none of them is a line feed.
    /// After a fault the bytes before it were taken.
    #[inline(always)]
    fn go_on(&mut self, piece: &[u8], count: usize) -> Result<(), LineFault>
        requires within { count ≤ length piece.now }
        requires none { AllByRecursion (λ byte. byte ≢ newline) (take count piece.now) }
        ensures bytes { (limit : ℕ) (before : List ℕ) (lines : List Line)
            → Scans limit self.old before lines →
            MatchResult result
            (λ _. Scans limit self.new (before ++ take count piece.now) lines)
            (λ why. StopsIn limit self.new before (take count piece.now) lines why) }
        ensures at_byte { IfErr result IsAtByte }
        ensures latest { self.new.latest ≡ None }
        ensures allowance { OnOk result (self.new.allowance + count ≡ self.old.allowance) }
    {
        self.open();
        let line_room = MAX_LINE_BYTES - self.kept.len();
        let fitting = (count.min(line_room) as u64).min(self.progress.allowance) as usize;
        self.kept.append_front(piece, fitting);
        self.progress.allowance -= fitting as u64;
        if fitting == count {
            return Ok(());
        }
        if self.progress.allowance == 0 {
            return Err(LineFault::TooLong);
        }
        Err(LineFault::LineLong {
            line: self.progress.lines + 1,
        })
    }

    /// Opens the next line where the last byte ended one.
    fn open(&mut self)
        ensures part { self.new.part ≡ self.old.part }
        ensures lines { self.new.lines ≡ self.old.lines }
        ensures allowance { self.new.allowance ≡ self.old.allowance }
        ensures latest { self.new.latest ≡ None }
    {
        if self.progress.ended.is_some() {
            self.kept.clear();
            self.elements.clear();
            self.progress.ended = None;
        }
    }

    /// What the end of the file says: the lines so far are all of it, or the open line is cut.
    pub fn end(&self) -> Result<(), LineFault>
        ensures { (limit : ℕ) (bytes : List ℕ) (lines : List Line)
            → Scans limit self.now bytes lines →
            MatchResult result
            (λ _. IsAirFile limit bytes lines)
            (λ why. IsCause limit (length bytes) lines self.now.part [] why) }
    {
        if self.progress.ended.is_some() || self.kept.len() == 0 {
            return Ok(());
        }
        Err(LineFault::LineCut {
            line: self.progress.lines + 1,
        })
    }
}

/// The command that a piece begins with, with its line feed, and how many bytes it has before that.
/// Never inlined: other lines would pay for its registers.
#[inline(never)]
fn command_front(piece: &[u8]) -> Option<(LineKind, usize)>
    requires { NEAR_BYTES ≤ length piece.now }
    ensures command { IfSome result (λ found. SpellsLine found.0 [] (take found.1 piece.now)) }
    ensures ended { IfSome result (λ found. (found.1 < NEAR_BYTES)
        × (slice_index piece.now found.1 ≡ newline)) }
{
    match piece {
        [act, what, b' ', letter, NEWLINE, ..] => {
            Some((command_of(*act, *what, None, *letter)?, COMMAND_BYTES))
        }
        [act, what, digit, b' ', letter, NEWLINE, ..] => {
            let mark = Some(Channel::of_digit(*digit)?);
            Some((
                command_of(*act, *what, mark, *letter)?,
                MARKED_COMMAND_BYTES,
            ))
        }
        _ => None,
    }
}
