//! Entries are put into a kept log, or written where the disk failed.

ghost use Rattle.std.specs.Prelude.{◌≡◌, ◌≤◌, ℕ, List, [], ◌∷◌, ◌++◌, if◌then◌else◌, true, false, Err};
ghost use Rattle.nx_fec.specs.Transfers.{CountedDevice};
ghost use Rattle.nx_log.specs.Entries.{IsWholeEntry};
ghost use Rattle.nx_watch.specs.private.Answering.{answered};
ghost use Rattle.nx_watch.specs.declared.kept_log.keeper.Keeper.{Keeper as TheKeeper};
ghost use Rattle.nx_watch.specs.declared.watch_fault.WatchFault.TheVariants.{Disk};
ghost use Rattle.nx_watch.specs.private.Keeping.{HasKept, KeepsWith};

use crate::kept_log::log_grammar::LogGrammar;
use crate::lines::line_effects::LinesWatched;
use crate::lines::telling::write_more;
use crate::watch_fault::WatchFault;
use crate::watch_report::WatchReport;
use nx_fec::Counting;
use nx_kept::{DiskFile, KeptLog};
use std::io::Write;

/// Keeps entries in a log, and writes them from a failed put on.
#[derive(Drop)]
pub(crate) struct Keeper<D> {
    /// The log.
    pub(crate) log: KeptLog<D, LogGrammar>,
    /// How many entries were put, at most the greatest u64.
    pub(crate) put: u64,
    /// Whether a put failed, after which the log isn't called.
    pub(crate) has_failed: bool,
}

impl<D: DiskFile + Drop> Keeper<D> {
    /// What a watch answers that ended so, which is `Disk` where a put failed; and the file.
    pub(crate) fn answer(
        self,
        outcome: Result<LinesWatched, WatchFault>,
    ) -> (Result<WatchReport, WatchFault>, D)
        ensures device { result.1 ≡ self.log.device }
        ensures failed { self.has_failed ≡ true → result.0 ≡ Err Disk }
        ensures well { self.has_failed ≡ false → result.0 ≡ answered outcome self.put }
    {
        let Keeper {
            log,
            put,
            has_failed,
        } = self;
        let KeptLog {
            device,
            grammar: _,
            gate: _,
        } = log;
        if has_failed {
            return (Err(WatchFault::Disk), device);
        }
        match outcome {
            Ok(counts) => {
                let report = WatchReport {
                    lines: counts.lines,
                    without_effect: counts.without_effect,
                    first_without_effect: counts.first_without_effect,
                    put,
                };
                (Ok(report), device)
            }
            Err(fault) => (Err(fault), device),
        }
    }

    /// Puts an entry into the log, or writes it where this put or an earlier one failed, unless a
    /// write failed before.
    pub(crate) fn keep<W: Write>(&mut self, entry: &[u8], writer: &mut Counting<W>)
        requires { writer.old.failures ≤ 1 }
        ensures kept { (start : TheKeeper D) (first : CountedDevice W) (texts : List (List ℕ))
            → IsWholeEntry entry.now
            → KeepsWith D.DiskFile W.contents start self.old first writer.old texts
            → KeepsWith D.DiskFile W.contents start self.new first writer.new
            (texts ++ entry.now ∷ []) }
        ensures once { writer.new.failures ≤ 1 }
        ensures failed { self.old.has_failed ≡ true → self.new.has_failed ≡ true }
    {
        if self.put(entry) {
            return;
        }
        write_more(entry, writer);
    }

    /// Puts an entry into the log, unless a put failed before. Says whether that was done.
    fn put(&mut self, entry: &[u8]) -> bool
        ensures failed { self.old.has_failed ≡ true → self.new.has_failed ≡ true }
        ensures kept { (start : TheKeeper D) (texts : List (List ℕ)) (given : List ℕ)
            → IsWholeEntry entry.now
            → HasKept D.DiskFile start self.old texts given
            → HasKept D.DiskFile start self.new (texts ++ entry.now ∷ [])
            (given ++ (if result then [] else entry.now)) }
    {
        if self.has_failed {
            return false;
        }
        match self.log.put(entry) {
            Ok(()) => {
                self.put = self.put.saturating_add(1);
                true
            }
            Err(_) => {
                self.has_failed = true;
                false
            }
        }
    }
}
