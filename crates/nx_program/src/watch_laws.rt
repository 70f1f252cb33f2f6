//! The law of a receiver that is left on, of runs of the program. Each function does nothing; its
//! contract is the law.

ghost use Rattle.std.specs.Prelude.{◌≡◌, ◌≢◌, ◌⊎◌, ℕ, Contains, List, [], ◌∷◌, Ok, Result, Some};
ghost use Rattle.clap.specs.Words.{Text};
ghost use Rattle.nx_disk.specs.Fresh.{IsFresh};
ghost use Rattle.nx_fec.specs.Transfers.{CountedDevice};
ghost use Rattle.nx_program.specs.Arguments.{Names};
ghost use Rattle.nx_program.specs.Report.{Answers};
ghost use Rattle.nx_program.specs.WatchCommand.{WatchesLog, with_faults};
ghost use Rattle.nx_program.specs.WatchRuns.{AreOfOneLog, ComesBehind, CouldLeave, KeepsOnce, KeepsWhole, Leaves, MayBeLeftAsFound, OpensFresh, StandsAlike, WatchRun, beside_of, cut_at_any_moment, streams_of};
ghost use Rattle.nx_program.specs.declared.arguments.Call.TheVariants.{Watch};
ghost use Rattle.nx_program.specs.declared.arguments.Sendings.{Sendings};
ghost use Rattle.nx_program.specs.declared.arguments.Sendings.TheVariants.{Alone, Together};
ghost use Rattle.nx_program.specs.declared.fault.Fault.{Fault};
ghost use Rattle.nx_copies.specs.copies.Shares.{MarkedCopy};
ghost use Rattle.nx_watch.specs.LineRun.{HasTold};
ghost use Rattle.nx_watch.specs.Stamp.{CutNote};
ghost use Rattle.nx_watch.specs.Watch.{StandsForEntries, TellsOfCut};

use crate::watch_command::{LogFiles, SystemFiles};
use nx_disk::{LogFile, Noted};
use nx_kept::DiskFile;
use std::fs::{File, Files};
use std::io::{Read, Write};

/// The law of a receiver that is left on. Take runs `navtex watch FILE MOMENT`, without
/// `--combine`, over one log, one after another, of each of which holds what `answer` says of it
/// (`WatchesLog`). A run was over, by the end of its input, a clock that went back, or a failed
/// read. Or a crash cut it off, or a fault of the disk did: behind a read of its input, or at any
/// moment from the opening of its log on, also before its first read. What a crash could leave
/// before such a run is what the run before it could leave, or what stands for the same entries as
/// what it found. The runs are a chain of watches, of the lines that act of what each read. One
/// that was cut off at any moment may be none of them: it left what the run before it could leave,
/// which then counts as left by that run. What the last one left stands for the entries from
/// before, and then for what each put. A message that is heard in time over them has exactly one
/// entry of its channel among these. An empty log stands for no entries.
pub fn a_message_stands_once_in_the_log_of_runs<F: LogFiles, R: Read, W: Write, E: Write>()
    ensures once { (log : List MarkedCopy) (file : List ℕ) (runs : List (WatchRun F F.Disk R W E))
        → OpensFresh F.gives F.Disk.DiskFile → StandsForEntries log file
        → AreOfOneLog F.gives F.Disk.DiskFile R.remaining W.contents E.contents Alone file runs
        → KeepsOnce F.gives F.Disk.DiskFile R.remaining W.contents E.contents log file runs }
    ensures from_nothing { StandsForEntries [] [] }
{}

/// The same of runs with `--combine`, `navtex watch --combine FILE MOMENT`, of each of which holds
/// what `answer` says of it. They are a chain of watches that take sendings together, and what the
/// last one left stands for the entries from before, and then for what each put. A message that is
/// heard together within one of them, which answered, stands whole once among what it put on the
/// channel, letter for letter, though each sending may have lost other letters. Its entry stands
/// last of its identity in the log then, and no later one puts the message again before that is 66
/// hours old, or 200 entries have been made behind it. Where a run was cut off, the first is said
/// of a beginning of what it put, by the lines behind which it read on.
pub fn a_message_stands_whole_in_the_log_of_runs<F: LogFiles, R: Read, W: Write, E: Write>()
    ensures { (log : List MarkedCopy) (file : List ℕ) (runs : List (WatchRun F F.Disk R W E))
        → OpensFresh F.gives F.Disk.DiskFile → StandsForEntries log file
        → AreOfOneLog F.gives F.Disk.DiskFile R.remaining W.contents E.contents Together file runs
        → KeepsWhole F.gives F.Disk.DiskFile R.remaining W.contents E.contents log file runs }
{}

/// What a crash could leave before a run is what the run found, or a file of the list that was
/// handed in where its log was opened. So what the law above asks of a run that was cut off at any
/// moment is asked of these files alone: behind another run, and of the first one.
pub fn what_is_handed_in_could_be_left_before<F: LogFiles, R: Read, W: Write, E: Write>()
    ensures behind { (before run : WatchRun F F.Disk R W E) (left : List (List ℕ))
        → ((disk : F.Disk) → F.gives run.files run.name (Ok disk)
        → IsFresh F.Disk.DiskFile left disk)
        → ((file : List ℕ) → Contains left file
        → CouldLeave F.gives F.Disk.DiskFile R.remaining W.contents E.contents before file
        ⊎ StandsAlike run.found file)
        → ComesBehind F.gives F.Disk.DiskFile R.remaining W.contents E.contents
        (CouldLeave F.gives F.Disk.DiskFile R.remaining W.contents E.contents before) run run.ended }
    ensures first { (file : List ℕ) (run : WatchRun F F.Disk R W E) (left : List (List ℕ))
        → ((disk : F.Disk) → F.gives run.files run.name (Ok disk)
        → IsFresh F.Disk.DiskFile left disk)
        → ((other : List ℕ) → Contains left other
        → (other ≡ file) ⊎ StandsAlike run.found other)
        → ComesBehind F.gives F.Disk.DiskFile R.remaining W.contents E.contents
        (λ other. other ≡ file) run run.ended }
{}

/// A run may end by a fault, and no crash comes. Then the next one finds what a read finds, and the
/// run counts as cut off at any moment, where a crash may leave a file as a read finds it.
pub fn what_is_found_after_a_fault_is_left<F: LogFiles, R: Read, W: Write, E: Write>()
    ensures { (run : WatchRun F F.Disk R W E) (disk : F.Disk)
        → MayBeLeftAsFound F.Disk.DiskFile
        → Leaves F.gives F.Disk.DiskFile R.remaining W.contents E.contents run disk
        cut_at_any_moment (F.Disk.seen run.found disk) }
{}

/// Where a run with the arguments `watch FILE MOMENT`, with `--combine` or without it, hands a file
/// back, the clause `exits` of `answer` says that it did what a watch does that takes the sendings
/// of a message so. Standard error is told of as it stood behind the watch, before a fault was
/// reported there.
pub fn a_run_that_hands_its_log_back_watched_it<F: LogFiles, R: Read, W: Write, E: Write>()
    ensures { (arguments : List Text) (sendings : Sendings) (run : WatchRun F F.Disk R W E)
        (reported : CountedDevice E) (disk : F.Disk) (status : ℕ)
        → Names arguments (Watch sendings run.name run.moment)
        → run.disk_after ≡ Some disk
        → Answers arguments
        (streams_of F.gives F.Disk.DiskFile R.remaining W.contents E.contents run)
        (with_faults (beside_of F.gives F.Disk.DiskFile R.remaining W.contents E.contents run)
        reported)
        status
        → (behind : CountedDevice E) × (outcome : Result (Unit {0}) Fault)
        × WatchesLog (streams_of F.gives F.Disk.DiskFile R.remaining W.contents E.contents run)
        (with_faults (beside_of F.gives F.Disk.DiskFile R.remaining W.contents E.contents run)
        behind)
        sendings run.name run.moment outcome }
{}

/// Where such a run has changed its log, what its start cut had been told on standard error before.
/// As that was told, a read found what it had found at first, and a crash left what it could leave
/// before the run. Only a failed write there could keep it from being told whole.
pub fn what_a_run_cuts_is_told_before_it_is_cut<F: LogFiles, R: Read, W: Write, E: Write>()
    ensures { (arguments : List Text) (sendings : Sendings) (run : WatchRun F F.Disk R W E)
        (reported : CountedDevice E) (disk : F.Disk) (status : ℕ)
        → OpensFresh F.gives F.Disk.DiskFile
        → Names arguments (Watch sendings run.name run.moment)
        → run.disk_after ≡ Some disk
        → F.Disk.explains run.found disk
        → (F.Disk.seen run.found disk ≡ run.found → ⊥)
        → Answers arguments
        (streams_of F.gives F.Disk.DiskFile R.remaining W.contents E.contents run)
        (with_faults (beside_of F.gives F.Disk.DiskFile R.remaining W.contents E.contents run)
        reported)
        status
        → (opened : F.Disk) × F.gives run.files run.name (Ok opened)
        × (cut : List ℕ) × TellsOfCut run.found cut
        × (cut ≢ [] → (note : CutNote F.Disk (CountedDevice E)) × (run.cuts ≡ note ∷ [])
        × (F.Disk.seen run.found note.disk ≡ run.found)
        × ((file : List ℕ) → F.Disk.may_leave run.found note.disk file
        → F.Disk.may_leave run.found opened file)
        × HasTold (E.contents run.faults.inner) (E.contents note.notices.inner)
        note.notices.failures cut) }
{}

/// Opening a log in the files of the system gives a file of which no call was made.
pub fn the_files_of_the_system_open_fresh<'a, S: Files<File = File> + 'a>()
    ensures { OpensFresh ⟦<SystemFiles<'a, S> as LogFiles>⟧.gives
        ⟦<Noted<LogFile<'a, S>> as DiskFile>⟧ }
{}

/// A crash may leave a file of the system as a read finds it.
pub fn the_files_of_the_system_may_be_left_as_found<'a, S: Files<File = File> + 'a>()
    ensures { MayBeLeftAsFound ⟦<Noted<LogFile<'a, S>> as DiskFile>⟧ }
{}
