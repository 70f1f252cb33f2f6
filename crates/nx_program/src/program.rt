//! The program without its process.

ghost use Rattle.std.specs.Prelude.{◌≡◌, ◌≢◌, ◌⊎◌, ◌∷◌, [], Err, IfNone, IfOk, IfSome, List, MatchResult, None, Option, map, string_bytes, ℕ};
ghost use Rattle.nx_program.specs.Program.{EndsLog, EndsRun, Exits, ListensTaking, Performs, PerformsOnStreams, RunsOverInput};
ghost use Rattle.nx_receiver.specs.declared.air_file_runs.listen_fault.ListenFault.TheVariants.{Memory as ListenMemory};
ghost use Rattle.nx_program.specs.private.LogReading.{IsReadable};
ghost use Rattle.nx_program.specs.Program.{Succeeds, WritesText, fresh_device, version_text};
ghost use Rattle.nx_program.specs.Report.{Answers, IsFaultLine, IsWantOfArguments, LacksArguments, WritesOne};
ghost use Rattle.nx_program.specs.Status.{IsStatus};
ghost use Rattle.nx_program.specs.WatchCommand.{WatchesLog, beside, notices_between};
ghost use Rattle.nx_watch.specs.Stamps.{counted_of, cut_notes, stamps_of};
ghost use Rattle.nx_program.specs.Arguments.{IsRefused, Names, as_read};
ghost use Rattle.nx_program.specs.Arguments.{help_words as the_words};
ghost use Rattle.nx_program.specs.private.Reading.{EndsUncalled, ExplainsArguments, IsOnStreams, told_of_call};
ghost use Rattle.clap.specs.Words.{Text};
ghost use Rattle.nx_fec.specs.Transfers.{CountedDevice, devices};
ghost use Rattle.nx_fec.specs.texts.TableText.{table_text};
ghost use Rattle.nx_program.specs.declared.arguments.Call.{Call};

use crate::arguments::{ArgumentsFault, Call, Sendings, call_of};
use crate::commands::VERSION;
use crate::fault::{CallFault, Fault};
use crate::file_name::FileName;
use crate::log_arguments::ReadAs;
use crate::slots::print_slot;
use crate::watch_command::{LogFiles, NoFile, NoFiles, watch_log};
use arrayvec::ArrayVec;
use nx_combine::listen_combined;
use nx_disk::Noted;
use nx_fec::{Counting, RunFault, decode_run, encode_run, show_run, write_out, write_table};
use nx_kept::DiskFile;
use nx_locks::locks;
use nx_log::{Form, LogFault, NotedReader, Query, kept_run, log_run};
use nx_receiver::{ListenFault, Report, Want, listen, resume};
use nx_station::{check_run, damage, send};
use nx_watch::StampedReader;
use std::alloc::{AllocError, Global};
use std::convert::AsStr;
use std::fmt::Display;
use std::io;
use std::io::{ErrorKind, Read, Write};

/// The exit status of a run that did what the arguments ask for.
const DONE: u8 = 0;

/// Writes the table of the code.
fn print_code<W: Write>(writer: &mut Counting<W>) -> Result<(), RunFault>
    requires { writer.old.failures ≡ 0 }
    ensures { WritesText (λ text. text ≡ table_text) W.contents writer.old writer.new result }
{
    write_table(writer)?;
    Ok(())
}

/// Listens to an air file, and takes the sendings of a message so.
fn listen_taking<R: Read, W: Write>(
    alloc: Global,
    sendings: Sendings,
    reader: &mut Counting<R>,
    writer: &mut Counting<W>,
) -> Result<Report, ListenFault>
    requires reader { reader.old.failures ≡ 0 }
    requires writer { writer.old.failures ≡ 0 }
    ensures listens { ListensTaking sendings
        (devices R.remaining W.contents reader.old reader.new writer.old writer.new) result }
    ensures memory { (error : AllocError) → result ≡ Err (ListenMemory error)
        → (reader.new ≡ reader.old) × (writer.new ≡ writer.old) }
{
    match sendings {
        Sendings::Alone => listen(alloc, reader, writer),
        Sendings::Together => listen_combined(alloc, reader, writer),
    }
}

/// Does what the call says, from the reader to the writer. It is neither a watch nor a run over a
/// log.
fn perform<R: Read, W: Write>(
    alloc: Global,
    call: Call,
    reader: &mut Counting<R>,
    writer: &mut Counting<W>,
) -> Result<(), CallFault>
    requires reader { reader.old.failures ≡ 0 }
    requires writer { writer.old.failures ≡ 0 }
    requires streams { IsOnStreams call }
    ensures { PerformsOnStreams call.entry
        (devices R.remaining W.contents reader.old reader.new writer.old writer.new)
        result }
{
    match call {
        Call::Decode => {
            decode_run(alloc, reader, writer)?;
        }
        Call::Encode => {
            encode_run(alloc, reader, writer)?;
        }
        Call::Code => print_code(writer)?,
        Call::Show => {
            show_run(alloc, reader, writer)?;
        }
        Call::Check => {
            check_run(alloc, reader, writer)?;
        }
        Call::Listen { sendings } => {
            listen_taking(alloc, sendings, reader, writer)?;
        }
        Call::Watch { .. } => unreachable!(),
        Call::Resume => {
            resume(alloc, reader, writer, Want::Log)?;
        }
        Call::Save => {
            resume(alloc, reader, writer, Want::State)?;
        }
        Call::Locks => {
            locks(reader, writer)?;
        }
        Call::Send { station, moment } => {
            send(alloc, reader, writer, station, moment)?;
        }
        Call::Slots { station, moment } => print_slot(alloc, writer, station, moment)?,
        Call::Damage { kind, from, count } => {
            damage(reader, writer, kind, from, count)?;
        }
        Call::Log { .. } => unreachable!(),
    }
    Ok(())
}

/// The outcome of a call as the program tells it.
fn call_outcome(outcome: Result<(), CallFault>) -> Result<(), Fault<'static>>
    ensures { result ≡ told_of_call outcome }
{
    match outcome {
        Ok(()) => Ok(()),
        Err(why) => Err(Fault::Call(why)),
    }
}

/// Writes the text of help, which is what `help` displays.
fn give_help<D: Display, W: Write>(
    alloc: Global,
    help: &D,
    writer: &mut Counting<W>,
) -> Result<(), RunFault>
    requires { writer.old.failures ≡ 0 }
    ensures { WritesText (λ text. IfSome (D.output help.now) (λ shown. text ≡ shown))
        W.contents writer.old writer.new result }
{
    let text = help.to_string(alloc)?;
    write_out(writer, text.as_bytes())?;
    Ok(())
}

/// Writes the text of the version.
fn give_version<W: Write>(writer: &mut Counting<W>) -> Result<(), RunFault>
    requires { writer.old.failures ≡ 0 }
    ensures { WritesText (λ text. text ≡ version_text) W.contents writer.old writer.new result }
{
    write_out(writer, VERSION.as_bytes())?;
    Ok(())
}

/// Answers arguments that name no call, for this reason: gives help or the version where they ask
/// for it, and else tells the fault. It reads nothing.
fn answer_uncalled<W: Write>(
    alloc: Global,
    why: ArgumentsFault,
    writer: &mut Counting<W>,
) -> Result<(), Fault<'static>>
    requires { writer.old.failures ≡ 0 }
    ensures { (arguments : List Text) → ExplainsArguments arguments why
        → EndsUncalled arguments W.contents writer.old writer.new result }
{
    match why {
        ArgumentsFault::Help(help) => {
            give_help(alloc, &help, writer)?;
            Ok(())
        }
        ArgumentsFault::Version => {
            give_version(writer)?;
            Ok(())
        }
        ArgumentsFault::Refused(answer) => Err(Fault::Arguments(answer.to_string(alloc)?)),
        ArgumentsFault::Station => Err(Fault::Station),
        ArgumentsFault::Kind => Err(Fault::Kind),
        ArgumentsFault::Value(report) => Err(Fault::Value(report)),
        ArgumentsFault::Memory(want) => Err(Fault::from(want)),
    }
}

/// The input of the program: a counted reader that notes what stood at each read of a watch.
pub type Input<R, D, W, E> = StampedReader<R, D, Counting<W>, Counting<E>>;

/// How the program obeyed its arguments, with its input, and the file of the log, if one was
/// opened.
#[derive(Drop)]
struct Obeyed<'a, I, D> {
    outcome: Result<(), Fault<'a>>,
    input: I,
    file: Option<D>,
}

/// Reads the arguments and does what they ask for. The log's file is handed back, if one was
/// opened. The reads of a watch alone are stamped.
fn obey<'a, S: AsStr, R: Read, W: Write, E: Write, F: LogFiles + Drop>(
    alloc: Global,
    arguments: &'a [S],
    mut input: Counting<R>,
    writer: &mut Counting<W>,
    faults: &mut Counting<E>,
    files: F,
) -> Obeyed<'a, Input<R, F::Disk, W, E>, F::Disk>
    requires input { input.failures ≡ 0 }
    requires writer { writer.old.failures ≡ 0 }
    requires faults { faults.old.failures ≡ 0 }
    ensures { EndsRun (map S.text arguments.now)
        (devices R.remaining W.contents input (counted_of result.input) writer.old
        writer.new)
        (beside files F.gives result.file F.Disk.DiskFile E.contents faults.old faults.new
        (stamps_of result.input) (cut_notes result.input))
        result.outcome }
{
    match call_of(alloc, arguments) {
        Ok(
            Call::Watch {
                sendings,
                file,
                moment,
            },
        ) => watch_input(alloc, sendings, file, moment, files, input, writer, faults),
        Ok(
            Call::Log {
                query,
                form,
                reading,
            },
        ) => log_input(alloc, &query, form, reading, input, writer, faults),
        Ok(call) => {
            let outcome = perform(alloc, call, &mut input, writer);
            Obeyed {
                outcome: call_outcome(outcome),
                input: StampedReader::new(input),
                file: None,
            }
        }
        Err(why) => Obeyed {
            outcome: answer_uncalled(alloc, why, writer),
            input: StampedReader::new(input),
            file: None,
        },
    }
}

/// Watches the log of this name, and takes the sendings of a message so.
fn watch_input<'a, R: Read, W: Write, E: Write, F: LogFiles + Drop>(
    alloc: Global,
    sendings: Sendings,
    log: FileName<'a>,
    moment: u64,
    files: F,
    input: Counting<R>,
    writer: &mut Counting<W>,
    faults: &mut Counting<E>,
) -> Obeyed<'a, Input<R, F::Disk, W, E>, F::Disk>
    requires input { input.failures ≡ 0 }
    requires writer { writer.old.failures ≡ 0 }
    requires faults { faults.old.failures ≡ 0 }
    ensures { WatchesLog
        (devices R.remaining W.contents input (counted_of result.input) writer.old
        writer.new)
        (beside files F.gives result.file F.Disk.DiskFile E.contents faults.old faults.new
        (stamps_of result.input) (cut_notes result.input))
        sendings log.entry moment result.outcome }
{
    let mut input = StampedReader::new(input);
    let (outcome, file) = watch_log(
        alloc, sendings, log, moment, files, &mut input, writer, faults,
    );
    Obeyed {
        outcome,
        input,
        file,
    }
}

/// Prints the entries of the log on the input that the query admits, and tells of torn ones
/// and of what is passed over. Its reads aren't stamped.
fn log_input<R: Read, D, W: Write, E: Write>(
    alloc: Global,
    query: &Query,
    form: Form,
    reading: ReadAs,
    input: Counting<R>,
    writer: &mut Counting<W>,
    faults: &mut Counting<E>,
) -> Obeyed<'static, Input<R, D, W, E>, D>
    requires input { input.failures ≡ 0 }
    requires writer { writer.old.failures ≡ 0 }
    requires faults { faults.old.failures ≡ 0 }
    requires readable { IsReadable reading }
    ensures ended { EndsLog query.now form reading
        (devices R.remaining W.contents input (counted_of result.input) writer.old
        writer.new)
        (notices_between E.contents faults.old faults.new)
        result.outcome }
    ensures unopened { result.file ≡ None }
    ensures unstamped { stamps_of result.input ≡ [] }
    ensures unnoted { cut_notes result.input ≡ [] }
{
    let (outcome, reader) = print_log(alloc, query, form, reading, input, writer, faults);
    Obeyed {
        outcome,
        input: StampedReader::new(reader),
        file: None,
    }
}

/// Prints the entries of a log that the query admits, and tells of torn ones and of what is passed
/// over. Hands the reader back.
fn print_log<R: Read, W: Write, E: Write>(
    alloc: Global,
    query: &Query,
    form: Form,
    reading: ReadAs,
    reader: Counting<R>,
    writer: &mut Counting<W>,
    faults: &mut Counting<E>,
) -> (Result<(), Fault<'static>>, Counting<R>)
    requires reader { reader.failures ≡ 0 }
    requires writer { writer.old.failures ≡ 0 }
    requires faults { faults.old.failures ≡ 0 }
    requires readable { IsReadable reading }
    ensures { EndsLog query.now form reading
        (devices R.remaining W.contents reader result.1 writer.old writer.new)
        (notices_between E.contents faults.old faults.new)
        result.0 }
{
    let (outcome, reader) = run_over_input(alloc, query, form, reading, reader, writer, faults);
    match outcome {
        Ok(_printed) => (Ok(()), reader),
        Err(why) => (Err(Fault::Call(CallFault::Log(why))), reader),
    }
}

/// Runs over a log that is read so. Over a kept log nothing is told. Hands the reader back.
fn run_over_input<R: Read, W: Write, E: Write>(
    alloc: Global,
    query: &Query,
    form: Form,
    reading: ReadAs,
    mut reader: Counting<R>,
    writer: &mut Counting<W>,
    faults: &mut Counting<E>,
) -> (Result<u64, LogFault>, Counting<R>)
    requires reader { reader.failures ≡ 0 }
    requires writer { writer.old.failures ≡ 0 }
    requires faults { faults.old.failures ≡ 0 }
    requires readable { IsReadable reading }
    ensures { RunsOverInput query.now form reading
        (devices R.remaining W.contents reader result.1 writer.old writer.new)
        (notices_between E.contents faults.old faults.new)
        result.0 }
{
    match reading {
        ReadAs::Log(damaged) => {
            let mut noted = NotedReader::new(reader, faults);
            let outcome = log_run(alloc, &mut noted, writer, faults, query, form, damaged);
            (outcome, noted.into_inner())
        }
        ReadAs::Kept(from) => {
            let outcome = kept_run(alloc, &mut reader, writer, query, form, from);
            (outcome, reader)
        }
    }
}

/// How the program ended, its input, and the file of the log, if one was opened.
#[derive(Drop)]
pub struct Answered<I, D> {
    /// The exit status.
    pub status: u8,
    /// The input, behind what was read of it.
    pub input: I,
    /// The file of the log.
    pub file: Option<D>,
}

/// Does what these words ask for, reports a fault, and answers the exit status. After the answer
/// nothing more is read or written.
fn status_by_words<S: AsStr, R: Read, W: Write, E: Write, F: LogFiles + Drop>(
    alloc: Global,
    arguments: &[S],
    input: Counting<R>,
    writer: &mut Counting<W>,
    faults: &mut Counting<E>,
    files: F,
) -> Answered<Input<R, F::Disk, W, E>, F::Disk>
    requires input { input.failures ≡ 0 }
    requires writer { writer.old.failures ≡ 0 }
    requires faults { faults.old.failures ≡ 0 }
    ensures { Answers (map S.text arguments.now)
        (devices R.remaining W.contents input (counted_of result.input) writer.old
        writer.new)
        (beside files F.gives result.file F.Disk.DiskFile E.contents faults.old faults.new
        (stamps_of result.input) (cut_notes result.input))
        result.status }
{
    let Obeyed {
        outcome,
        input,
        file,
    } = obey(alloc, arguments, input, writer, faults, files);
    match outcome {
        Ok(()) => Answered {
            status: DONE,
            input,
            file,
        },
        Err(fault) => Answered {
            status: fault.report(faults),
            input,
            file,
        },
    }
}

/// The most words that arguments with `help` are read as.
const HELP_WORDS: usize = 3;

/// What asks for the help of the program, or of the command whose name stands first in the rest.
fn help_words<'a, S: AsStr>(program: &'a str, rest: &'a [S]) -> ArrayVec<&'a str, HELP_WORDS>
    ensures { map (λ word. word.now) result.items ≡ program.now ∷ the_words (map S.text rest.now) }
{
    let mut words = ArrayVec::new();
    words.push(program);
    match rest {
        [] => words.push("--help"),
        [command, ..] if command.as_str() == "help" => words.push("--help"),
        [command, ..] => {
            words.push(command.as_str());
            words.push("--help");
        }
    }
    words
}

/// The words that the arguments are read as where `help` is the first behind the program's name.
fn words_of_help<'a, S: AsStr>(arguments: &'a [S]) -> Option<ArrayVec<&'a str, HELP_WORDS>>
    ensures some { IfSome result (λ words.
        map (λ word. word.now) words.items ≡ as_read (map S.text arguments.now)) }
    ensures none { IfNone result
        (as_read (map S.text arguments.now) ≡ map S.text arguments.now) }
{
    match arguments {
        [program, word, rest @ ..] if word.as_str() == "help" => {
            Some(help_words(program.as_str(), rest))
        }
        _ => None,
    }
}

/// Does what the arguments ask for as they are read, reports a fault, and answers the exit status.
fn exit_status<S: AsStr, R: Read, W: Write, E: Write, F: LogFiles + Drop>(
    alloc: Global,
    arguments: &[S],
    input: Counting<R>,
    writer: &mut Counting<W>,
    faults: &mut Counting<E>,
    files: F,
) -> Answered<Input<R, F::Disk, W, E>, F::Disk>
    requires input { input.failures ≡ 0 }
    requires writer { writer.old.failures ≡ 0 }
    requires faults { faults.old.failures ≡ 0 }
    ensures { Answers (as_read (map S.text arguments.now))
        (devices R.remaining W.contents input (counted_of result.input) writer.old
        writer.new)
        (beside files F.gives result.file F.Disk.DiskFile E.contents faults.old faults.new
        (stamps_of result.input) (cut_notes result.input))
        result.status }
{
    match words_of_help(arguments) {
        Some(words) => status_by_words(alloc, words.as_slice(), input, writer, faults, files),
        None => status_by_words(alloc, arguments, input, writer, faults, files),
    }
}

/// The fault of arguments that can't be had, for this reason: one of them is no text, or memory
/// ran out.
fn want_of_arguments(reason: &io::Error) -> Fault<'static>
    ensures { IsWantOfArguments reason.now result }
{
    match reason.kind() {
        ErrorKind::OutOfMemory => Fault::from(AllocError),
        _ => Fault::NoText,
    }
}

/// Runs the program from its input to its output, both as they stand. Does what its arguments ask
/// for, of which the first is the program's name. Reports a fault on `faults`, and answers the exit
/// status. Where the arguments can't be had, it reports why. After the answer nothing more is read
/// or written. A watch opens its log by `files`; the open file is handed back, and so is the input,
/// with what stood at each of its reads, and as the start of a watch told what it cuts of its log.
pub fn answer<R: Read, W: Write, E: Write, F: LogFiles + Drop>(
    alloc: Global,
    arguments: io::Result<Vec<String>>,
    input: Counting<R>,
    output: &mut Counting<W>,
    faults: &mut Counting<E>,
    files: F,
) -> Answered<Input<R, F::Disk, W, E>, F::Disk>
    requires input { input.failures ≡ 0 }
    requires output { output.old.failures ≡ 0 }
    requires faults { faults.old.failures ≡ 0 }

    // What was done with input, output and the log, and what was left on standard error, by the
    // arguments; or why there were none.
    ensures exits { MatchResult arguments
        (λ given. Answers (as_read (map string_bytes given.items))
        (devices R.remaining W.contents input (counted_of result.input) output.old
        output.new)
        (beside files F.gives result.file F.Disk.DiskFile E.contents faults.old faults.new
        (stamps_of result.input) (cut_notes result.input))
        result.status)
        (λ reason. LacksArguments reason
        (devices R.remaining W.contents input (counted_of result.input) output.old
        output.new)
        (beside files F.gives result.file F.Disk.DiskFile E.contents faults.old faults.new
        (stamps_of result.input) (cut_notes result.input))
        result.status) }
    ensures status { IsStatus result.status }

    // Success comes only from a call that succeeded, or from help or the version that was written.
    // It says of each of them what stands on standard error.
    ensures success { IfOk arguments (λ given. result.status ≡ 0
        → Succeeds (as_read (map string_bytes given.items))
        (devices R.remaining W.contents input (counted_of result.input) output.old
        output.new)
        (beside files F.gives result.file F.Disk.DiskFile E.contents faults.old faults.new
        (stamps_of result.input) (cut_notes result.input))) }

    // A success of arguments that name a call is the success of that call.
    ensures called { IfOk arguments
        (λ given. (call : Call) → Names (as_read (map string_bytes given.items)) call
        → result.status ≡ 0 → Performs call
        (devices R.remaining W.contents input (counted_of result.input) output.old
        output.new)
        (beside files F.gives result.file F.Disk.DiskFile E.contents faults.old faults.new
        (stamps_of result.input) (cut_notes result.input))
        (Ok tt)) }

    // A fault leaves one text, behind what a watch and a run over a log told there: `navtex: `, the
    // fault, and a newline, but for a text of clap on the arguments.
    ensures reported { result.status ≢ 0
        → WritesOne (λ text. result.status ≢ 64 → IsFaultLine text)
        E.contents faults.old faults.new }
{
    match arguments {
        Ok(arguments) => exit_status(alloc, arguments.as_slice(), input, output, faults, files),
        Err(reason) => Answered {
            status: want_of_arguments(&reason).report(faults),
            input: StampedReader::new(input),
            file: None,
        },
    }
}

/// Runs the program on its arguments, of which the first is its name, and answers its exit status.
/// It has no files, so a watch answers that its log can't be opened.
pub fn run<S: AsStr, R: Read + Drop, W: Write + Drop, E: Write + Drop>(
    alloc: Global,
    arguments: &[S],
    input: R,
    output: W,
    faults: E,
) -> u8
    // How the program ended, by what its call ensures of the devices.
    ensures exits { (reader : CountedDevice R) × (writer : CountedDevice W)
        × (told : CountedDevice E)
        × Exits (as_read (map S.text arguments.now))
        (devices R.remaining W.contents (fresh_device input) reader (fresh_device output) writer)
        (beside (record {}) ⟦<NoFiles as LogFiles>⟧.gives None
        ⟦<Noted<NoFile> as DiskFile>⟧ E.contents (fresh_device faults) told [] [])
        result }
    ensures status { IsStatus result }

    // Success comes only from a call that succeeded, or from help or the version that was written.
    ensures success { result ≡ 0 → (reader : CountedDevice R) × (writer : CountedDevice W)
        × (told : CountedDevice E)
        × Succeeds (as_read (map S.text arguments.now))
        (devices R.remaining W.contents (fresh_device input) reader (fresh_device output) writer)
        (beside (record {}) ⟦<NoFiles as LogFiles>⟧.gives None
        ⟦<Noted<NoFile> as DiskFile>⟧ E.contents (fresh_device faults) told [] []) }

    // A success of arguments that name a call is the success of that call.
    ensures called { (call : Call) → Names (as_read (map S.text arguments.now)) call
        → result ≡ 0
        → (reader : CountedDevice R) × (writer : CountedDevice W) × (told : CountedDevice E)
        × Performs call
        (devices R.remaining W.contents (fresh_device input) reader (fresh_device output) writer)
        (beside (record {}) ⟦<NoFiles as LogFiles>⟧.gives None
        ⟦<Noted<NoFile> as DiskFile>⟧ E.contents (fresh_device faults) told [] [])
        (Ok tt) }
    ensures arguments { result ≡ 64 → IsRefused (as_read (map S.text arguments.now)) }
    ensures refused { IsRefused (as_read (map S.text arguments.now))
        → (result ≡ 64) ⊎ (result ≡ 1) }
{
    let reader = Counting::new(input);
    let mut writer = Counting::new(output);
    let mut lines = Counting::new(faults);
    exit_status(alloc, arguments, reader, &mut writer, &mut lines, NoFiles).status
}
