//! Laws of the report of locks, over the definitions. Each function does nothing; its contract is
//! the law.

ghost use Rattle.std.specs.Prelude.{◌≡◌, ℕ, Bool, List, Contains};
ghost use Rattle.nx_fec.specs.air_files.AirFile.{Line};
ghost use Rattle.nx_fec.specs.declared.air_files.channel.Channel.TheVariants.{Zero};
ghost use Rattle.nx_locks.specs.Found.{IsCopyAmong, StandsIn, shown_texts};
ghost use Rattle.nx_locks.specs.Report.{IsReport};
ghost use Rattle.nx_locks.specs.Run.{IsReportOf, IsReportOfFile, IsReportOfLines, elements_on_0};
ghost use Rattle.nx_copies.specs.copies.FoundCopies.{TaggedCopy};
ghost use Rattle.nx_receiver.specs.air_file_runs.Listen.{IsLogOfFile};
ghost use Rattle.nx_copies.specs.copies.Shares.{MarkedCopy, Starts, copies_on};

/// An air file has one report, and so have lines after which nothing is closed.
pub fn a_file_has_one_report()
    ensures file { (file report other : List ℕ) → IsReportOf file report → IsReportOf file other
        → report ≡ other }
    ensures lines { (lines : List Line) (report other : List ℕ) → IsReportOfLines lines report
        → IsReportOfLines lines other → report ≡ other }
{}

/// What is printed of channel 0 of an air file stands in its report, with whatever a run starts.
/// Each copy of the log that was heard on channel 0 is one of those in the texts of the locks. Each
/// of these texts stands in the report.
pub fn a_log_is_found_in_the_report()
    ensures printed { (starts : Starts) (file report log : List ℕ) (lines other : List Line)
        (printed : List MarkedCopy) (copy : TaggedCopy)
        → IsLogOfFile starts file lines printed log
        → (shown : IsReportOfFile file other report) → Contains (copies_on Zero printed) copy
        → IsCopyAmong (shown_texts (elements_on_0 other) shown.report.locks shown.report.now) copy }
    ensures shown { (bits : List Bool) (moments : List ℕ) (ending : ℕ) (report text : List ℕ)
        (shown : IsReport bits moments ending report)
        → Contains (shown_texts bits shown.locks shown.now) text → StandsIn text report }
{}
