//! A log that says at any moment which records it keeps.

ghost use Rattle.std.specs.Prelude.{◌≡◌, ◌≢◌, ◌⊎◌, ◌+◌, ◌<◌, ◌≤◌, ◌^◌, List, [], ◌∷◌, ◌++◌, ℕ, length, IfOk, IfErr, OnErr, OnOk, Option};

use crate::disk::{DiskFailed, DiskFile};
use crate::fault::OpenFault;
use crate::grammar::Grammar;
use crate::opening::settle;
use crate::scan::CLOSED_GATE;
use crate::taker::RecordTaker;
use std::alloc::Global;

/// The gate of a record that counts: a newline.
const OPEN_GATE: u8 = b'\n';

/// An open kept log: gate, record, gate, record, and so on, gate, each gate one byte. The last
/// gate is closed, so that what a crash leaves behind it doesn't count.
#[derive(Drop)]
pub struct KeptLog<D, G> {
    /// Its file.
    pub device: D,
    /// What its records are.
    pub grammar: G,
    /// How many bytes precede its last gate.
    pub gate: usize,
    ghost in_range: { gate + 1 < 2 ^ 63 },
}

impl<D: DiskFile, G: Grammar> KeptLog<D, G> {
    ghost use Rattle.nx_kept.specs.Disk.{LeavesOnly, OnlyReads, TellsFaults};
    ghost use Rattle.nx_kept.specs.Kept.{first_byte, open_gate, BeginsWith, IsBehindOpenGates, IsDamaged, IsKeptLog, StandsFor, WithOrWithout};
    ghost use Rattle.nx_kept.specs.Log.{IsAtRest, Keeps};
    ghost use Rattle.nx_kept.specs.Taker.{HearsBeforeCut, TookAll, TookOnly, TookSome};
    ghost use Rattle.nx_kept.specs.Open.{HasCause, KeepsEither, KeepsFront, KeepsRecords, Opens, SyncsFirst, SyncsFirstOrReads};

    /// Opens a file that a crash may have left, and gives each of its records to the taker, in
    /// order. What the file holds is brought to the disk first. A damaged file is refused, and
    /// isn't touched. A tail that is no closed gate is cut, and one is written in its place: the
    /// taker hears of what is cut before that. An `Err` hands the file back; the taker may then
    /// have taken some of the records.
    pub fn open<T: RecordTaker<D>>(
        alloc: Global,
        mut device: D,
        grammar: G,
        taker: &mut T,
    ) -> Result<Self, (OpenFault, D)>
        requires { (record_ : List ℕ) → G.is_record record_ → T.can_take record_ }

        ensures opened { IfOk result (λ log. (start : List ℕ) → D.explains start log.device →
            Opens G.is_record G.LONGEST T.takes (HearsBeforeCut D.DiskFile T.hears_of_cut device)
            (D.seen start) (D.may_leave start) device taker.old taker.new log) }

        // A log whose last gate is closed, with nothing behind it, is only read.
        ensures only_read { IfOk result (λ log. (start : List ℕ) → D.explains start log.device →
            D.seen start log.device ≡ D.seen start device →
            OnlyReads (D.seen start) (D.may_leave start) D.moment (D.left_since start) device
            log.device) }

        // A crash at any moment leaves the same records, or what a crash before the call could
        // leave.
        ensures any_moment { IfOk result (λ log. (start : List ℕ) (records : List (List ℕ)) →
            D.explains start log.device →
            StandsFor G.is_record G.LONGEST records (D.seen start device) →
            KeepsRecords G.is_record G.LONGEST (D.may_leave start) D.moment (D.left_since start)
            records device log.device) }
        ensures any_moment_err { IfErr result (λ e. (start : List ℕ) (records : List (List ℕ)) →
            D.explains start e.1 →
            StandsFor G.is_record G.LONGEST records (D.seen start device) →
            KeepsRecords G.is_record G.LONGEST (D.may_leave start) D.moment (D.left_since start)
            records device e.1) }

        // Where a crash before the call could leave only the records, or others, it leaves no more
        // than these in the opening.
        ensures from_before { IfOk result (λ log. (start : List ℕ)
            (records others : List (List ℕ)) → D.explains start log.device →
            StandsFor G.is_record G.LONGEST records (D.seen start device) →
            KeepsEither G.is_record G.LONGEST (D.may_leave start) D.moment (D.left_since start)
            records others device log.device) }
        ensures from_before_err { IfErr result (λ e. (start : List ℕ)
            (records others : List (List ℕ)) → D.explains start e.1 →
            StandsFor G.is_record G.LONGEST records (D.seen start device) →
            KeepsEither G.is_record G.LONGEST (D.may_leave start) D.moment (D.left_since start)
            records others device e.1) }

        // What stands before the tail stays: a crash at any moment leaves a file that begins with
        // it, or what a crash before the call could leave.
        ensures stays { IfOk result (λ log. (start : List ℕ) (records : List (List ℕ)) →
            D.explains start log.device →
            (stands : StandsFor G.is_record G.LONGEST records (D.seen start device)) →
            KeepsFront (D.may_leave start) D.moment (D.left_since start) stands.front device
            log.device) }
        ensures stays_err { IfErr result (λ e. (start : List ℕ) (records : List (List ℕ)) →
            D.explains start e.1 →
            (stands : StandsFor G.is_record G.LONGEST records (D.seen start device)) →
            KeepsFront (D.may_leave start) D.moment (D.left_since start) stands.front device e.1) }

        // From its first sync that succeeds on, a crash leaves the records.
        ensures synced_first { IfOk result (λ log. (start : List ℕ) (records : List (List ℕ)) →
            D.explains start log.device →
            StandsFor G.is_record G.LONGEST records (D.seen start device) →
            SyncsFirst G.is_record G.LONGEST (D.seen start) (D.may_leave start) D.moment
            (D.left_since start) records device log.device) }
        ensures synced_first_err { IfErr result (λ e. (start : List ℕ) (records : List (List ℕ)) →
            D.explains start e.1 →
            StandsFor G.is_record G.LONGEST records (D.seen start device) →
            SyncsFirstOrReads G.is_record G.LONGEST (D.seen start) (D.may_leave start) D.moment
            (D.left_since start) records device e.1) }

        // A file that is no kept log is refused at the line of the damage, and is only read.
        ensures damaged { IfErr result (λ e. (start : List ℕ) (line : ℕ) (first : Option ℕ) →
            D.explains start e.1 → e.0 ≡ OpenFault.Damaged line first →
            IsDamaged G.is_record G.LONGEST line (D.seen start device)) }

        // It is told what its first byte is.
        ensures first { IfErr result (λ e. (start : List ℕ) (line : ℕ) (first : Option ℕ) →
            D.explains start e.1 → e.0 ≡ OpenFault.Damaged line first →
            first ≡ first_byte (D.seen start device)) }
        ensures only_read_err { IfErr result (λ e. (start : List ℕ) → D.explains start e.1 →
            (IsKeptLog G.is_record G.LONGEST (D.seen start device) → ⊥) →
            OnlyReads (D.seen start) (D.may_leave start) D.moment (D.left_since start) device e.1) }

        // It doesn't give up by itself, and goes no further after a call that failed.
        ensures faults { IfOk result (λ log. D.faults log.device ≡ D.faults device) }
        ensures cause { IfErr result (λ e.
            HasCause D.faults D.has_failed_to_read D.has_failed_to_write e.0 device e.1) }

        // A call that failed was at a place within the file or at its end.
        ensures within { IfErr result (λ e. (start : List ℕ) → D.explains start e.1 →
            D.faults e.1 ≢ D.faults device → D.has_failed_within start e.1) }

        // Whatever the file is, it took some records and heard of a cut, and nothing else. As it
        // heard, nothing of the file had been changed.
        ensures taken { TookOnly T.takes (HearsBeforeCut D.DiskFile T.hears_of_cut device) taker.old
            taker.new }

        // At a fault it took some of the records, and the file is only read; or it took all, and
        // heard of what is to be cut. Where a call to write failed, that was the first sync, or it
        // had heard.
        ensures taken_err { IfErr result (λ e. (start : List ℕ) → D.explains start e.1 →
            (TookSome T.takes taker.old taker.new × OnlyReads (D.seen start) (D.may_leave start)
            D.moment (D.left_since start) device e.1) ⊎ TookAll G.is_record G.LONGEST T.takes
            (HearsBeforeCut D.DiskFile T.hears_of_cut device) (D.seen start device) taker.old
            taker.new) }
        ensures told_first { IfErr result (λ e. (start : List ℕ) → D.explains start e.1 →
            e.0 ≡ OpenFault.Disk → (taker.new ≡ taker.old) ⊎ TookAll G.is_record G.LONGEST T.takes
            (HearsBeforeCut D.DiskFile T.hears_of_cut device) (D.seen start device) taker.old
            taker.new) }

        ensures explained { IfOk result (λ log. (start : List ℕ) →
            D.explains start log.device → D.explains start device) }
        ensures explained_err { IfErr result (λ e. (start : List ℕ) →
            D.explains start e.1 → D.explains start device) }
    {
        match settle(alloc, &mut device, &grammar, taker) {
            Ok(gate) => Ok(KeptLog {
                device,
                grammar,
                gate,
            }),
            Err(fault) => Err((fault, device)),
        }
    }

    /// Puts a record behind those that the log keeps. At `Ok` each crash leaves it. At `Err` the
    /// log is used no more: opened again, it keeps the record or it doesn't. Of bytes that are no
    /// record nothing is said.
    pub fn put(&mut self, bytes: &[u8]) -> Result<(), DiskFailed>
        ensures acknowledged { (start : List ℕ) (records : List (List ℕ)) → G.is_record bytes.now →
            Keeps (D.seen start) (D.may_leave start) G.is_record records self.old →
            OnOk result (Keeps (D.seen start) (D.may_leave start) G.is_record
            (records ++ bytes.now ∷ []) self.new) }

        // The gate before the record is a newline, and a closed gate is behind it.
        ensures written { (start front : List ℕ) →
            IsAtRest (D.seen start) (D.may_leave start) front self.old →
            OnOk result (IsAtRest (D.seen start) (D.may_leave start)
            (front ++ open_gate ∷ bytes.now) self.new) }

        // A crash at any moment leaves the records from before, with the new one or without.
        ensures any_moment { (start : List ℕ) (records : List (List ℕ)) → G.is_record bytes.now →
            Keeps (D.seen start) (D.may_leave start) G.is_record records self.old →
            LeavesOnly D.moment (D.left_since start) self.old.device self.new.device
            (WithOrWithout G.is_record G.LONGEST records bytes.now) }

        // What stands before its closed gate stays: a crash at any moment leaves a file that begins
        // with it, whatever the bytes are.
        ensures stays { (start front : List ℕ) →
            IsAtRest (D.seen start) (D.may_leave start) front self.old →
            LeavesOnly D.moment (D.left_since start) self.old.device self.new.device
            (BeginsWith front) }

        // It doesn't give up by itself, and goes no further after a call that failed.
        ensures faults { TellsFaults (D.faults self.old.device) (D.faults self.new.device)
            (D.has_failed_to_write self.new.device) result }

        // That call was at a place within the file or at its end.
        ensures within { (start front : List ℕ) →
            IsAtRest (D.seen start) (D.may_leave start) front self.old →
            OnErr result (D.has_failed_within start self.new.device) }
        ensures explained { (start : List ℕ) →
            D.explains start self.new.device → D.explains start self.old.device }
    {
        let behind = self.gate + 1;
        let next = behind + bytes.len();
        self.device.write_at(behind, bytes)?;
        self.device.write_at(next, &[CLOSED_GATE])?;
        // Behind a gate that a crash has torn open, only a whole record may stand.
        self.device.sync()?;
        self.device.write_at(self.gate, &[OPEN_GATE])?;
        self.device.sync()?;
        self.gate = next;
        Ok(())
    }
}
