//! A scanner of the lines of any bytes. What runs for each line is inlined always; what is asked of
//! lines that aren't understood never is.

ghost use Rattle.std.specs.Prelude.{◌≡◌, ◌+◌, ◌<◌, ◌≤◌, ℕ, List, [], ◌∷◌, ◌++◌, Option, IsSomeAnd, false, length, take};
ghost use Rattle.nx_fec.specs.air_files.AirFile.{IsLine, Line};
ghost use Rattle.nx_fec.specs.air_files.Lines.{Scans};
ghost use Rattle.nx_fec.specs.air_files.Scanner.{elements_kept, kind_of};
ghost use Rattle.nx_watch.specs.AnyLines.{AreLines, HasNoLineEnd, cut_line};
ghost use Rattle.nx_watch.specs.Acting.{most_bytes};
ghost use Rattle.nx_watch.specs.declared.lines.any_scanner.Ended.TheVariants.{Nothing};
ghost use Rattle.nx_watch.specs.private.Scanning.{CutsAs, IsPassedOver, IsScanning, OnLine, OnUnknown, lines_ended, reason_of_fault};

use crate::lines::no_effect::NoEffect;
use memchr::memchr;
use nx_code::NEWLINE;
use nx_fec::{CHUNK, LineFault, LineKind, PackedElements, Scanner};

/// The most bytes of the input of a watch: 2^63 - 1.
pub(crate) const MOST_BYTES: u64 = 9_223_372_036_854_775_807;

/// Reads the lines of any bytes piece by piece.
#[derive(Drop)]
pub(crate) struct AnyScanner {
    /// The scanner of the lines behind the last one that isn't understood.
    scanner: Scanner,
    /// Whether the open line has more than 514 bytes, which are passed over.
    is_passing: bool,
}

/// What the bytes that were taken ended.
#[derive(Clone, Copy)]
pub(crate) enum Ended {
    /// No line.
    Nothing,
    /// A line of an air file, which is the scanner's latest.
    Line,
    /// A line that isn't understood, and why it has no effect.
    Unknown(NoEffect),
}

// It holds a fixed number of bytes.
const _: () = prove!(size_of::<AnyScanner>() == size_of::<Scanner>() + 8);

impl AnyScanner {
    /// A scanner before the first byte.
    pub(crate) fn new() -> AnyScanner
        ensures stands { IsScanning result [] [] }
        ensures fresh { Scans most_bytes result.scanner [] [] }
        ensures starts { result.is_passing ≡ false }
        ensures room { result.scanner.allowance ≡ most_bytes }
    {
        AnyScanner {
            scanner: Scanner::new(MOST_BYTES),
            is_passing: false,
        }
    }

    /// Takes the bytes of a piece up to and with its first line feed, or all where there is none.
    /// Answers how many, and what they ended.
    #[inline(always)]
    pub(crate) fn take(&mut self, piece: &[u8]) -> (usize, Ended)
        requires some { 0 < length piece.now }
        requires short { length piece.now ≤ CHUNK }
        requires room { length piece.now ≤ self.old.scanner.allowance }
        requires within { self.old.scanner.allowance ≤ most_bytes }
        ensures scans { (bytes : List ℕ) (lines : List (Option Line))
            → IsScanning self.old bytes lines
            → IsScanning self.new (bytes ++ take result.0 piece.now)
            (lines ++ lines_ended result.1 self.new.scanner.latest) }
        ensures line { OnLine result.1 (IsSomeAnd self.new.scanner.latest IsLine) }
        ensures reason { (bytes : List ℕ) (lines : List (Option Line))
            → IsScanning self.old bytes lines
            → OnUnknown result.1 (bytes ++ take result.0 piece.now) lines }
        ensures some { 0 < result.0 }
        ensures all { result.0 ≤ length piece.now }
        ensures whole { result.1 ≡ Nothing → result.0 ≡ length piece.now }
        ensures room { self.old.scanner.allowance ≤ self.new.scanner.allowance + result.0 }
        ensures within { self.new.scanner.allowance ≤ most_bytes }
    {
        if self.is_passing {
            return self.pass(piece, NoEffect::TooLong);
        }
        match self.scanner.push_line(piece) {
            Ok(count) if self.scanner.latest().is_some() => (count, Ended::Line),
            Ok(count) => (count, Ended::Nothing),
            Err(fault) => self.pass(piece, reason_of(fault)),
        }
    }

    /// Passes over the bytes of a piece up to and with its first line feed, or all where there is
    /// none: they are of a line that isn't understood, for this reason where it ends there.
    #[inline(never)]
    fn pass(&mut self, piece: &[u8], why: NoEffect) -> (usize, Ended)
        requires some { 0 < length piece.now }
        requires short { length piece.now ≤ CHUNK }
        ensures scans { (before : List ℕ) (lines : List (Option Line)) (part : List ℕ)
            → AreLines before lines [] → HasNoLineEnd part → IsPassedOver why part piece.now
            → IsScanning self.new ((before ++ part) ++ take result.0 piece.now)
            (lines ++ lines_ended result.1 self.new.scanner.latest) }
        ensures line { OnLine result.1 (IsSomeAnd self.new.scanner.latest IsLine) }
        ensures reason { (before : List ℕ) (lines : List (Option Line)) (part : List ℕ)
            → AreLines before lines [] → HasNoLineEnd part → IsPassedOver why part piece.now
            → OnUnknown result.1 ((before ++ part) ++ take result.0 piece.now) lines }
        ensures some { 0 < result.0 }
        ensures all { result.0 ≤ length piece.now }
        ensures whole { result.1 ≡ Nothing → result.0 ≡ length piece.now }
        ensures room { self.new.scanner.allowance ≡ most_bytes }
    {
        *self = AnyScanner::new();
        match memchr(NEWLINE, piece) {
            Some(at) => (at + 1, Ended::Unknown(why)),
            None => {
                self.is_passing = true;
                (piece.len(), Ended::Nothing)
            }
        }
    }

    /// What the line of an air file says that was ended.
    #[inline(always)]
    pub(crate) fn kind(&self) -> LineKind
        requires { IsSomeAnd self.now.scanner.latest IsLine }
        ensures { IsSomeAnd self.now.scanner.latest
            (λ line. IsLine line × (result ≡ kind_of line)) }
    {
        let Some(kind) = self.scanner.latest() else {
            unreachable!()
        };
        kind
    }

    /// The elements of the line that was ended; none where none was, or it has none.
    #[inline(always)]
    pub(crate) fn elements(&self) -> &PackedElements
        ensures { result.now ≡ elements_kept self.now.scanner.latest }
    {
        self.scanner.elements()
    }

    /// Why the line has no effect that the end of the bytes cuts, where one is open.
    pub(crate) fn cut(&self) -> Option<NoEffect>
        ensures { (bytes : List ℕ) (lines : List (Option Line)) → IsScanning self.now bytes lines
            → CutsAs result bytes lines }
    {
        if self.is_passing {
            return Some(NoEffect::TooLong);
        }
        if self.scanner.end().is_err() {
            return Some(NoEffect::NoEnd);
        }
        None
    }
}

/// Why a line has no effect at which a scanner stopped.
fn reason_of(fault: LineFault) -> NoEffect
    ensures { result ≡ reason_of_fault fault }
{
    match fault {
        LineFault::BadLine { line: _ } => NoEffect::NoLine,
        LineFault::LineCut { line: _ } => NoEffect::NoEnd,
        LineFault::LineLong { line: _ } | LineFault::TooLong => NoEffect::TooLong,
    }
}
