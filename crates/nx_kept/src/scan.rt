//! A kept log is read gate by gate.

ghost use Rattle.std.specs.Prelude.{◌≡◌, ◌≢◌, ◌↔◌, [], ◌∷◌, ◌+◌, ◌<◌, ◌≤◌, ◌^◌, ◌==◌, List, ℕ, length, take, IfOk, IfErr, IsErrOf, IsTrue, Option, count_by};
ghost use Rattle.nx_kept.specs.Disk.{OnlyReads};
ghost use Rattle.nx_kept.specs.Kept.{closed_gate, first_byte, line_feed, IsDamaged};
ghost use Rattle.nx_kept.specs.Taker.{TookSome};
ghost use Rattle.nx_kept.specs.private.Scan.{Ends, ReadsUpTo, Steps};

use crate::disk::DiskFile;
use crate::fault::OpenFault;
use crate::grammar::{Grammar, RecordStart};
use crate::taker::RecordTaker;

/// The gate that is closed: a space.
pub(crate) const CLOSED_GATE: u8 = b' ';

/// What stands from a gate on.
enum ScanStep {
    /// The tail of the log.
    Tail,
    /// An open gate, and a record of so many bytes.
    Record(usize),
    /// So many bytes can stand here in a kept log, and no more.
    Damaged(usize),
}

/// What stands behind the records.
#[derive(Clone, Copy, Drop)]
pub(crate) struct Rest {
    /// Its place: that of the last gate, once it is closed.
    pub(crate) gate: usize,
    /// The line on which it begins, from 1.
    pub(crate) line: u64,
    /// How many bytes stand there.
    pub(crate) count: usize,
    /// It is one closed gate, and nothing else.
    pub(crate) is_closed: bool,
}

/// What stands from a gate on, told by the first bytes: three more than the longest record has, or
/// all of them.
fn step_at<G: Grammar>(grammar: &G, bytes: &[u8]) -> ScanStep
    ensures { (all : List ℕ) → bytes.now ≡ take (G.LONGEST + 3) all →
        Steps G.is_record G.LONGEST all result }
{
    if bytes.len() < 2 {
        return ScanStep::Tail;
    }
    let (gate, behind) = (bytes[0], &bytes[1..]);
    if gate == CLOSED_GATE {
        if bytes.len() < G::LONGEST + 3 {
            return ScanStep::Tail;
        }
        return ScanStep::Damaged(G::LONGEST + 2);
    }
    match grammar.record_at(behind) {
        RecordStart::Whole(length) => ScanStep::Record(length),
        RecordStart::Unfinished => ScanStep::Damaged(bytes.len()),
        RecordStart::Broken(place) => ScanStep::Damaged(place + 1),
    }
}

/// The bytes are one closed gate.
fn is_closed_gate(bytes: &[u8]) -> bool
    ensures { IsTrue result ↔ (bytes.now ≡ closed_gate ∷ []) }
{
    matches!(bytes, [CLOSED_GATE])
}

/// The first byte of a file, told by the bytes that stand there at this place: these are all that
/// it needs at the beginning, and further on it is known.
fn first_of_file(known: Option<u8>, place: usize, bytes: &[u8]) -> Option<u8>
    ensures begins { place ≡ 0 → result ≡ first_byte bytes.now }
    ensures known { 0 < place → result ≡ known }
{
    if place > 0 {
        return known;
    }
    match bytes {
        [first, ..] => Some(*first),
        [] => None,
    }
}

/// How many of the bytes are line feeds.
fn line_feeds(bytes: &[u8]) -> usize
    ensures { result ≡ count_by (λ byte. byte == line_feed) bytes.now }
{
    bytes.iter().filter(|byte| **byte == b'\n').count()
}

/// Reads a log from its beginning, and gives each record; what stands behind them, and where. Its
/// bytes are then at the front of the buffer.
pub(crate) fn scan<D: DiskFile, G: Grammar, T: RecordTaker<D>>(
    device: &mut D,
    grammar: &G,
    taker: &mut T,
    buffer: &mut [u8],
) -> Result<Rest, OpenFault>
    requires buffer { length buffer.old ≡ G.LONGEST + 3 }
    requires understood { (record_ : List ℕ) → G.is_record record_ → T.can_take record_ }
    ensures found { (start : List ℕ) → D.explains start device.new → IfOk result
        (Ends G.is_record G.LONGEST T.takes (D.seen start device.old) buffer.new taker.old
        taker.new) }
    ensures took { TookSome T.takes taker.old taker.new }
    ensures in_room { IfOk result (λ end. end.count ≤ length buffer.new) }
    ensures in_range { IfOk result (λ end. end.gate < 2 ^ 63) }
    ensures closed_in_range { IfOk result (λ end. IsTrue end.is_closed → end.gate + 1 < 2 ^ 63) }
    ensures faults { IfOk result (λ _. D.faults device.new ≡ D.faults device.old) }
    ensures cause { IfErr result (λ fault.
        ReadsUpTo D.faults D.has_failed_to_read fault device.old device.new) }
    ensures within { (start : List ℕ) → D.explains start device.new →
        IsErrOf result OpenFault.Read → D.has_failed_within start device.new }
    ensures damaged { (start : List ℕ) (line : ℕ) (first : Option ℕ) → D.explains start device.new →
        IsErrOf result (OpenFault.Damaged line first) →
        IsDamaged G.is_record G.LONGEST line (D.seen start device.old) }
    ensures first { (start : List ℕ) (line : ℕ) (first : Option ℕ) → D.explains start device.new →
        IsErrOf result (OpenFault.Damaged line first) →
        first ≡ first_byte (D.seen start device.old) }
    ensures explained { (start : List ℕ) → D.explains start device.new
        → D.explains start device.old }
    ensures only_reads { (start : List ℕ) → OnlyReads (D.seen start) (D.may_leave start) D.moment
        (D.left_since start) device.old device.new }
{
    let mut gate = 0;
    let mut line = 1;
    let mut first = None;
    'gates: loop {
        let Ok(count) = device.read_at(gate, buffer) else {
            return Err(OpenFault::Read);
        };
        let bytes = &buffer[..count];
        first = first_of_file(first, gate, bytes);
        match step_at(grammar, bytes) {
            ScanStep::Tail => {
                let is_closed = is_closed_gate(bytes);
                return Ok(Rest {
                    gate,
                    line,
                    count,
                    is_closed,
                });
            }
            ScanStep::Record(length) => {
                taker.take(&bytes[1..length + 1]);
                line += line_feeds(&bytes[..length + 1]) as u64;
                gate += length + 1;
            }
            ScanStep::Damaged(place) => {
                line += line_feeds(&bytes[..place]) as u64;
                return Err(OpenFault::Damaged { line, first });
            }
        }
    }
}
