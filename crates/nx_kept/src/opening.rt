//! A kept log is read, and its end is put right.

ghost use Rattle.std.specs.Prelude.{◌≡◌, ◌≢◌, ◌⊎◌, ◌+◌, ◌<◌, ◌≤◌, ◌^◌, [], ◌∷◌, ◌++◌, List, ℕ, length, take, IfOk, IfErr, IsErrOf, OnErr, OnOk, Option};
ghost use Rattle.nx_kept.specs.Disk.{LeavesOnly, Only, OnlyReads, TellsFaults};
ghost use Rattle.nx_kept.specs.Kept.{closed_gate, first_byte, IsDamaged, IsKeptLog, StandsFor};
ghost use Rattle.nx_kept.specs.Open.{HasCause, KeepsFront, SyncsFirst, SyncsFirstOrReads};
ghost use Rattle.nx_kept.specs.Taker as taken;
ghost use Rattle.nx_kept.specs.Taker.{HeardOfCut, HearsBeforeCut, TookAll, TookOnly, TookSome};
ghost use Rattle.nx_kept.specs.private.Scan.{IsCutThere, Settles};

use crate::disk::{DiskFailed, DiskFile};
use crate::fault::OpenFault;
use crate::grammar::Grammar;
use crate::scan::{CLOSED_GATE, Rest, scan};
use crate::taker::RecordTaker;
use std::alloc::Global;

/// Cuts what stands from a place on, and writes a closed gate there. The cut is on the disk first:
/// behind a gate that a crash has torn open, what stood there could count.
fn cut_and_close<D: DiskFile>(device: &mut D, gate: usize) -> Result<(), DiskFailed>
    ensures repaired { (start : List ℕ) → gate ≤ length (D.seen start device.old) → OnOk result
        (D.seen start device.new ≡ take gate (D.seen start device.old) ++ closed_gate ∷ []) }
    ensures durable { (start : List ℕ) → OnOk result
        (Only (D.seen start device.new) (D.may_leave start device.new)) }
    ensures in_range { OnOk result (gate + 1 < 2 ^ 63) }
    ensures any_moment { (start : List ℕ) → gate ≤ length (D.seen start device.old) →
        Only (D.seen start device.old) (D.may_leave start device.old) →
        LeavesOnly D.moment (D.left_since start) device.old device.new
        (IsCutThere gate (D.seen start device.old)) }
    ensures faults { TellsFaults (D.faults device.old) (D.faults device.new)
        (D.has_failed_to_write device.new) result }
    ensures within { (start : List ℕ) → gate ≤ length (D.seen start device.old) →
        OnErr result (D.has_failed_within start device.new) }
    ensures explained { (start : List ℕ) → D.explains start device.new
        → D.explains start device.old }
{
    device.cut(gate)?;
    device.sync()?;
    device.write_at(gate, &[CLOSED_GATE])?;
    device.sync()
}

/// What is cut of a tail: the bytes behind its closed gate, or a byte that is no closed gate.
fn cut_of(tail: &[u8]) -> &[u8]
    ensures { result.now ≡ taken.cut_of tail.now }
{
    if !tail.is_empty() && tail[0] == CLOSED_GATE {
        &tail[1..]
    } else {
        tail
    }
}

/// Tells what is going to be cut of a tail that begins on this line, if there is anything, and
/// shows the file as it stands.
fn tell_of_cut<D, T: RecordTaker<D>>(taker: &mut T, file: &D, line: u64, tail: &[u8])
    ensures { HeardOfCut (T.hears_of_cut file.now) line (taken.cut_of tail.now) taker.old
        taker.new }
{
    let bytes = cut_of(tail);
    if !bytes.is_empty() {
        taker.hear_of_cut(file, line, bytes);
    }
}

/// Puts a closed gate in the place of this tail. What is cut is told before the file is touched.
fn repair<D: DiskFile, T: RecordTaker<D>>(
    device: &mut D,
    taker: &mut T,
    rest: &Rest,
    tail: &[u8],
) -> Result<(), DiskFailed>
    ensures told { HeardOfCut (HearsBeforeCut D.DiskFile T.hears_of_cut device.old) rest.now.line
        (taken.cut_of tail.now) taker.old taker.new }
    ensures repaired { (start : List ℕ) → rest.now.gate ≤ length (D.seen start device.old) →
        OnOk result (D.seen start device.new
        ≡ take rest.now.gate (D.seen start device.old) ++ closed_gate ∷ []) }
    ensures durable { (start : List ℕ) → OnOk result
        (Only (D.seen start device.new) (D.may_leave start device.new)) }
    ensures in_range { OnOk result (rest.now.gate + 1 < 2 ^ 63) }
    ensures any_moment { (start : List ℕ) → rest.now.gate ≤ length (D.seen start device.old) →
        Only (D.seen start device.old) (D.may_leave start device.old) →
        LeavesOnly D.moment (D.left_since start) device.old device.new
        (IsCutThere rest.now.gate (D.seen start device.old)) }
    ensures faults { TellsFaults (D.faults device.old) (D.faults device.new)
        (D.has_failed_to_write device.new) result }
    ensures within { (start : List ℕ) → rest.now.gate ≤ length (D.seen start device.old) →
        OnErr result (D.has_failed_within start device.new) }
    ensures explained { (start : List ℕ) → D.explains start device.new
        → D.explains start device.old }
{
    tell_of_cut(taker, &*device, rest.line, tail);
    cut_and_close(device, rest.gate)
}

/// Reads a kept log from its beginning, and leaves one closed gate behind its records; its place.
/// What is cut was told before.
pub(crate) fn settle<D: DiskFile, G: Grammar, T: RecordTaker<D>>(
    alloc: Global,
    device: &mut D,
    grammar: &G,
    taker: &mut T,
) -> Result<usize, OpenFault>
    requires { (record_ : List ℕ) → G.is_record record_ → T.can_take record_ }
    ensures settled { (start : List ℕ) → D.explains start device.new → IfOk result
        (Settles G.is_record G.LONGEST T.takes
        (HearsBeforeCut D.DiskFile T.hears_of_cut device.old) (D.seen start) (D.may_leave start)
        device.old device.new taker.old taker.new) }
    ensures taken { TookOnly T.takes (HearsBeforeCut D.DiskFile T.hears_of_cut device.old)
        taker.old taker.new }
    ensures taken_err { (start : List ℕ) → D.explains start device.new → OnErr result
        ((TookSome T.takes taker.old taker.new × OnlyReads (D.seen start) (D.may_leave start)
        D.moment (D.left_since start) device.old device.new) ⊎ TookAll G.is_record G.LONGEST
        T.takes (HearsBeforeCut D.DiskFile T.hears_of_cut device.old) (D.seen start device.old)
        taker.old taker.new) }
    ensures told_first { (start : List ℕ) → D.explains start device.new →
        IsErrOf result OpenFault.Disk → (taker.new ≡ taker.old) ⊎ TookAll G.is_record G.LONGEST
        T.takes (HearsBeforeCut D.DiskFile T.hears_of_cut device.old) (D.seen start device.old)
        taker.old taker.new }
    ensures in_range { IfOk result (λ gate. gate + 1 < 2 ^ 63) }
    ensures only_read { (start : List ℕ) → D.explains start device.new →
        OnOk result (D.seen start device.new ≡ D.seen start device.old →
        OnlyReads (D.seen start) (D.may_leave start) D.moment (D.left_since start) device.old
        device.new) }
    ensures synced_first { (start : List ℕ) (records : List (List ℕ)) →
        D.explains start device.new →
        StandsFor G.is_record G.LONGEST records (D.seen start device.old) → OnOk result
        (SyncsFirst G.is_record G.LONGEST (D.seen start) (D.may_leave start) D.moment
        (D.left_since start) records device.old device.new) }
    ensures synced_first_err { (start : List ℕ) (records : List (List ℕ)) →
        D.explains start device.new →
        StandsFor G.is_record G.LONGEST records (D.seen start device.old) → OnErr result
        (SyncsFirstOrReads G.is_record G.LONGEST (D.seen start) (D.may_leave start) D.moment
        (D.left_since start) records device.old device.new) }
    ensures stays { (start : List ℕ) (records : List (List ℕ)) → D.explains start device.new →
        (stands : StandsFor G.is_record G.LONGEST records (D.seen start device.old)) →
        KeepsFront (D.may_leave start) D.moment (D.left_since start) stands.front device.old
        device.new }
    ensures damaged { (start : List ℕ) (line : ℕ) (first : Option ℕ) → D.explains start device.new →
        IsErrOf result (OpenFault.Damaged line first) →
        IsDamaged G.is_record G.LONGEST line (D.seen start device.old) }
    ensures first { (start : List ℕ) (line : ℕ) (first : Option ℕ) → D.explains start device.new →
        IsErrOf result (OpenFault.Damaged line first) →
        first ≡ first_byte (D.seen start device.old) }
    ensures only_read_err { (start : List ℕ) → D.explains start device.new →
        (IsKeptLog G.is_record G.LONGEST (D.seen start device.old) → ⊥) →
        OnlyReads (D.seen start) (D.may_leave start) D.moment (D.left_since start) device.old
        device.new }
    ensures faults { OnOk result (D.faults device.new ≡ D.faults device.old) }
    ensures cause { IfErr result (λ fault.
        HasCause D.faults D.has_failed_to_read D.has_failed_to_write fault device.old device.new) }
    ensures within { (start : List ℕ) → D.explains start device.new → OnErr result
        (D.faults device.new ≢ D.faults device.old → D.has_failed_within start device.new) }
    ensures explained { (start : List ℕ) → D.explains start device.new
        → D.explains start device.old }
{
    let mut buffer = vec![in alloc; 0; G::LONGEST + 3]?;
    device.sync()?;
    let rest = scan(device, grammar, taker, &mut buffer)?;
    if rest.is_closed {
        return Ok(rest.gate);
    }
    repair(device, taker, &rest, &buffer[..rest.count])?;
    Ok(rest.gate)
}
