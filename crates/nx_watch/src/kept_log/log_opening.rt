//! A log is opened: what it remembers is taken, and what is cut of it is told.

ghost use Rattle.std.specs.Prelude.{◌≡◌, ◌⊎◌, ◌∷◌, List, ℕ, IfErr, IfOk, Option};
ghost use Rattle.nx_kept.specs.Disk.{OnlyReads};
ghost use Rattle.nx_kept.specs.Kept.{IsDamaged, IsKeptLog, StandsFor, first_byte};
ghost use Rattle.nx_kept.specs.Open.{HasCause, KeepsRecords};
ghost use Rattle.nx_kept.specs.declared.fault.OpenFault.TheVariants as why;
ghost use Rattle.nx_log.specs.Entries.{IsWholeEntry};
ghost use Rattle.nx_watch.specs.Watch.{FailsWithin, longest_entry};
ghost use Rattle.nx_watch.specs.CutTold.{AreHeads, TellsOfSomeCut, cut_told};
ghost use Rattle.nx_watch.specs.private.Stamp.{note};
ghost use Rattle.nx_watch.specs.Stamps.{notes_of};
ghost use Rattle.nx_watch.specs.ToldFirst.{TellsBeforeChange, ToldBeforeCut};
ghost use Rattle.nx_watch.specs.private.Cutting.{HasToldCut, HearsOfCut, OpensLog, TakesEntry, TellsMore};

use crate::kept_log::cut::tell_of_cut;
use crate::kept_log::log_grammar::LogGrammar;
use crate::kept_log::log_memory::LogMemory;
use crate::stamped::cut_notes::CutNotes;
use nx_fec::Counting;
use nx_kept::{DiskFile, KeptLog, OpenFault, RecordTaker};
use std::alloc::Global;
use std::io::Write;

/// Takes the entries of a log, tells on the notices what is cut behind them, and notes what stood
/// then.
#[derive(Drop)]
struct LogOpening<'a, D, F> {
    memory: &'a mut LogMemory,
    notices: &'a mut Counting<F>,
    cuts: &'a mut CutNotes<D, Counting<F>>,
}

impl<'a, D: DiskFile, F: Write> LogOpening<'a, D, F> {
    /// Opens a log. What it remembers is taken, and what is cut of it is told.
    fn open(&mut self, alloc: Global, device: D) -> Result<KeptLog<D, LogGrammar>, (OpenFault, D)>
        ensures same_memory { self.new.memory.ghost_name ≡ self.old.memory.ghost_name }
        ensures same_notices { self.new.notices.ghost_name ≡ self.old.notices.ghost_name }
        ensures same_cuts { self.new.cuts.ghost_name ≡ self.old.cuts.ghost_name }
        ensures told { (cut : List ℕ) × TellsOfSomeCut cut
            × TellsMore F.contents self.old.notices.now self.new.notices.now cut }
        ensures opened { IfOk result (λ log. (start : List ℕ) → D.explains start log.device →
            OpensLog F.contents (D.seen start) (D.may_leave start) device self.old.memory.now
            self.new.memory.now self.old.notices.now self.new.notices.now log) }
        ensures told_err { IfErr result (λ e. (start : List ℕ) → D.explains start e.1 →
            HasToldCut F.contents (D.seen start device) self.old.notices.now self.new.notices.now
            ⊎ ((self.new.notices.now ≡ self.old.notices.now)
            × (self.new.cuts.now ≡ self.old.cuts.now) × OnlyReads (D.seen start)
            (D.may_leave start) D.moment (D.left_since start) device e.1)) }
        ensures told_first { IfOk result (λ log. (start : List ℕ) → D.explains start log.device →
            self.old.notices.now.failures ≡ 0 → ToldBeforeCut D.DiskFile F.contents device
            self.old.notices.now (notes_of self.old.cuts.now) (notes_of self.new.cuts.now) start) }
        ensures told_first_err { IfErr result (λ e. (start : List ℕ) → D.explains start e.1 →
            self.old.notices.now.failures ≡ 0 → TellsBeforeChange D.DiskFile F.contents device
            self.old.notices.now (notes_of self.old.cuts.now) (notes_of self.new.cuts.now) start
            e.1) }
        ensures any_moment { IfOk result (λ log. (start : List ℕ) (records : List (List ℕ)) →
            D.explains start log.device →
            StandsFor IsWholeEntry longest_entry records (D.seen start device) →
            KeepsRecords IsWholeEntry longest_entry (D.may_leave start) D.moment
            (D.left_since start) records device log.device) }
        ensures any_moment_err { IfErr result (λ e. (start : List ℕ) (records : List (List ℕ)) →
            D.explains start e.1 →
            StandsFor IsWholeEntry longest_entry records (D.seen start device) →
            KeepsRecords IsWholeEntry longest_entry (D.may_leave start) D.moment
            (D.left_since start) records device e.1) }
        ensures damaged { IfErr result (λ e. (start : List ℕ) (line : ℕ) (first : Option ℕ) →
            D.explains start e.1 → e.0 ≡ why.Damaged line first →
            IsDamaged IsWholeEntry longest_entry line (D.seen start device)) }
        ensures first { IfErr result (λ e. (start : List ℕ) (line : ℕ) (first : Option ℕ) →
            D.explains start e.1 → e.0 ≡ why.Damaged line first →
            first ≡ first_byte (D.seen start device)) }
        ensures only_read_err { IfErr result (λ e. (start : List ℕ) → D.explains start e.1 →
            (IsKeptLog IsWholeEntry longest_entry (D.seen start device) → ⊥) →
            OnlyReads (D.seen start) (D.may_leave start) D.moment (D.left_since start) device e.1) }
        ensures faults { IfOk result (λ log. D.faults log.device ≡ D.faults device) }
        ensures cause { IfErr result (λ e.
            HasCause D.faults D.has_failed_to_read D.has_failed_to_write e.0 device e.1) }
        ensures within { IfErr result (λ e. (start : List ℕ) → D.explains start e.1 →
            FailsWithin D.DiskFile start device e.1) }
        ensures explained { IfOk result (λ log. (start : List ℕ) →
            D.explains start log.device → D.explains start device) }
        ensures explained_err { IfErr result (λ e. (start : List ℕ) →
            D.explains start e.1 → D.explains start device) }
    {
        KeptLog::open(alloc, device, LogGrammar, self)
    }
}

/// Opens a log. What it remembers is taken into the memory, and what is cut of it is told on the
/// notices, before it is cut; what stood then is noted.
pub(crate) fn open_log<D: DiskFile, F: Write>(
    alloc: Global,
    device: D,
    memory: &mut LogMemory,
    notices: &mut Counting<F>,
    cuts: &mut CutNotes<D, Counting<F>>,
) -> Result<KeptLog<D, LogGrammar>, (OpenFault, D)>
    ensures told { (cut : List ℕ) × TellsOfSomeCut cut
        × TellsMore F.contents notices.old notices.new cut }
    ensures opened { IfOk result (λ log. (start : List ℕ) → D.explains start log.device →
        OpensLog F.contents (D.seen start) (D.may_leave start) device memory.old memory.new
        notices.old notices.new log) }
    ensures told_err { IfErr result (λ e. (start : List ℕ) → D.explains start e.1 →
        HasToldCut F.contents (D.seen start device) notices.old notices.new
        ⊎ ((notices.new ≡ notices.old) × (cuts.new ≡ cuts.old) × OnlyReads (D.seen start)
        (D.may_leave start) D.moment (D.left_since start) device e.1)) }
    ensures told_first { IfOk result (λ log. (start : List ℕ) → D.explains start log.device →
        notices.old.failures ≡ 0 → ToldBeforeCut D.DiskFile F.contents device notices.old
        (notes_of cuts.old) (notes_of cuts.new) start) }
    ensures told_first_err { IfErr result (λ e. (start : List ℕ) → D.explains start e.1 →
        notices.old.failures ≡ 0 → TellsBeforeChange D.DiskFile F.contents device notices.old
        (notes_of cuts.old) (notes_of cuts.new) start e.1) }
    ensures any_moment { IfOk result (λ log. (start : List ℕ) (records : List (List ℕ)) →
        D.explains start log.device →
        StandsFor IsWholeEntry longest_entry records (D.seen start device) →
        KeepsRecords IsWholeEntry longest_entry (D.may_leave start) D.moment (D.left_since start)
        records device log.device) }
    ensures any_moment_err { IfErr result (λ e. (start : List ℕ) (records : List (List ℕ)) →
        D.explains start e.1 →
        StandsFor IsWholeEntry longest_entry records (D.seen start device) →
        KeepsRecords IsWholeEntry longest_entry (D.may_leave start) D.moment (D.left_since start)
        records device e.1) }
    ensures damaged { IfErr result (λ e. (start : List ℕ) (line : ℕ) (first : Option ℕ) →
        D.explains start e.1 → e.0 ≡ why.Damaged line first →
        IsDamaged IsWholeEntry longest_entry line (D.seen start device)) }
    ensures first { IfErr result (λ e. (start : List ℕ) (line : ℕ) (first : Option ℕ) →
        D.explains start e.1 → e.0 ≡ why.Damaged line first →
        first ≡ first_byte (D.seen start device)) }
    ensures only_read_err { IfErr result (λ e. (start : List ℕ) → D.explains start e.1 →
        (IsKeptLog IsWholeEntry longest_entry (D.seen start device) → ⊥) →
        OnlyReads (D.seen start) (D.may_leave start) D.moment (D.left_since start) device e.1) }
    ensures faults { IfOk result (λ log. D.faults log.device ≡ D.faults device) }
    ensures cause { IfErr result (λ e.
        HasCause D.faults D.has_failed_to_read D.has_failed_to_write e.0 device e.1) }
    ensures within { IfErr result (λ e. (start : List ℕ) → D.explains start e.1 →
        FailsWithin D.DiskFile start device e.1) }
    ensures explained { IfOk result (λ log. (start : List ℕ) →
        D.explains start log.device → D.explains start device) }
    ensures explained_err { IfErr result (λ e. (start : List ℕ) →
        D.explains start e.1 → D.explains start device) }
{
    let mut opening = LogOpening {
        memory,
        notices,
        cuts,
    };
    let opened = opening.open(alloc, device);
    let LogOpening {
        memory: _,
        notices: _,
        cuts: _,
    } = opening;
    opened
}

impl<'a, D, F: Write> RecordTaker<D> for LogOpening<'a, D, F> {
    ghost use Rattle.nx_log.specs.Entries.{IsWholeEntry};
    ghost use Rattle.nx_watch.specs.private.Cutting.{HearsOfCut, TakesEntry};

    ghost can_take = { IsWholeEntry };

    ghost takes = { TakesEntry };

    ghost hears_of_cut = { HearsOfCut F.contents };

    fn take(&mut self, bytes: &[u8]) {
        self.memory.take(bytes);
    }

    /// What is cut is no entry that counts, so nothing is remembered of it.
    fn hear_of_cut(&mut self, file: &D, line: u64, bytes: &[u8]) {
        tell_and_note(file, line, bytes, self.notices, self.cuts);
    }
}

/// Tells that these bytes are cut, which begin on this line of the log. Then it notes how the file
/// stands, and the notices, with all of that told.
fn tell_and_note<D, F: Write>(
    file: &D,
    line: u64,
    bytes: &[u8],
    notices: &mut Counting<F>,
    cuts: &mut CutNotes<D, Counting<F>>,
)
    ensures told { (heads : List (List ℕ)) × AreHeads bytes.now heads
        × TellsMore F.contents notices.old notices.new (cut_told line bytes.now heads) }
    ensures noted { notes_of cuts.new ≡ note file.now notices.new ∷ notes_of cuts.old }
{
    tell_of_cut(line, bytes, notices);
    cuts.note(file, &*notices);
}
