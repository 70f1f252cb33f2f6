//! Laws of runs over an input and an output that tell their bytes: what stands on the output, or in
//! the log, of exactly these bytes. Each function does nothing; its contract is the law.

ghost use Rattle.std.specs.Prelude.{◌≡◌, ◌⊎◌, ◌<◌, ℕ, List, Some, length};
ghost use Rattle.clap.specs.Words.{Text};
ghost use Rattle.nx_copies.specs.copies.Shares.{MarkedCopy};
ghost use Rattle.nx_fec.specs.Transfers.{CountedDevice, devices};
ghost use Rattle.nx_program.specs.Arguments.{Names};
ghost use Rattle.nx_program.specs.KnownStreams.{HoldsLogBeforeFault, HoldsLogOf, KeepsLogOf, RunAtHand, TellBytes, beside_in, streams_in};
ghost use Rattle.nx_program.specs.Program.{fresh_device};
ghost use Rattle.nx_program.specs.Report.{Answers};
ghost use Rattle.nx_program.specs.WatchCommand.{printing_of};
ghost use Rattle.nx_program.specs.WatchRuns.{OpensFresh};
ghost use Rattle.nx_program.specs.declared.arguments.Call.TheVariants.{Listen, Watch};
ghost use Rattle.nx_program.specs.declared.arguments.Sendings.{Sendings};
ghost use Rattle.nx_watch.specs.Acting.{most_bytes};
ghost use Rattle.nx_watch.specs.Watch.{StandsForEntries};

use crate::watch_command::LogFiles;
use nx_kept::DiskFile;
use std::io::{Read, Write};

/// Take a run whose arguments are `listen` or `listen --combine`, over an input that tells its
/// bytes, to an output that tells what it holds; of it holds what the clause `exits` of `answer`
/// says. Status 0: the output holds, behind what it held, the log of the air file of exactly these
/// bytes, as the definitions have it. Status 2: that file has a fault, its first, and the output
/// holds the log of the whole lines before it. Else the status is 1: a device failed, or memory
/// ran out.
pub fn a_run_that_listens_writes_the_log_of_its_bytes<F: LogFiles, R: Read, W: Write, E: Write>()
    ensures success { (arguments : List Text) (sendings : Sendings)
        (run : RunAtHand F F.Disk R W E) (input held : List ℕ)
        → Names arguments (Listen sendings)
        → TellBytes (streams_in R.remaining W.contents run) input held
        → Answers arguments (streams_in R.remaining W.contents run)
        (beside_in F.gives F.Disk.DiskFile E.contents run) 0
        → HoldsLogOf (printing_of sendings) (streams_in R.remaining W.contents run) input held }
    ensures fault { (arguments : List Text) (sendings : Sendings)
        (run : RunAtHand F F.Disk R W E) (input held : List ℕ)
        → Names arguments (Listen sendings)
        → TellBytes (streams_in R.remaining W.contents run) input held
        → Answers arguments (streams_in R.remaining W.contents run)
        (beside_in F.gives F.Disk.DiskFile E.contents run) 2
        → HoldsLogBeforeFault (printing_of sendings) (streams_in R.remaining W.contents run)
        input held }
    ensures status { (arguments : List Text) (sendings : Sendings)
        (run : RunAtHand F F.Disk R W E) (status : ℕ)
        → Names arguments (Listen sendings)
        → Answers arguments (streams_in R.remaining W.contents run)
        (beside_in F.gives F.Disk.DiskFile E.contents run) status
        → (status ≡ 0) ⊎ ((status ≡ 1) ⊎ (status ≡ 2)) }
{}

/// The same of a run whose arguments are `watch FILE MOMENT`, with `--combine` or without it, and
/// that succeeds. By a first content that explains what the file of its log answered, that stood
/// for these entries. Then it stands, at rest, for the entries and for what the lines of exactly
/// these bytes print, and the output holds what it held.
pub fn a_run_that_watches_keeps_the_log_of_its_bytes<F: LogFiles, R: Read, W: Write, E: Write>()
    ensures { (arguments : List Text) (sendings : Sendings) (name : Text) (moment : ℕ)
        (run : RunAtHand F F.Disk R W E) (input held start : List ℕ) (disk : F.Disk)
        (entries : List MarkedCopy)
        → OpensFresh F.gives F.Disk.DiskFile
        → Names arguments (Watch sendings name moment)
        → TellBytes (streams_in R.remaining W.contents run) input held
        → length input < most_bytes → run.disk_after ≡ Some disk
        → F.Disk.explains start disk → StandsForEntries entries start
        → Answers arguments (streams_in R.remaining W.contents run)
        (beside_in F.gives F.Disk.DiskFile E.contents run) 0
        → KeepsLogOf (printing_of sendings) (streams_in R.remaining W.contents run) input held
        moment entries (F.Disk.seen start disk) }
{}

/// Bytes in memory tell of themselves: a slice of them as an input, and a `Vec` as an output. So
/// the laws above speak of each run of the program from the one to the other.
pub fn bytes_in_memory_are_told<'a>(input: &'a [u8], output: &Vec<u8>)
    ensures { (reader : CountedDevice _) (writer : CountedDevice _)
        → TellBytes (devices ⟦<&'a [u8] as Read>⟧.remaining ⟦<Vec<u8> as Write>⟧.contents
        (fresh_device input.entry) reader (fresh_device output.now) writer)
        input.now output.now.items }
{}
