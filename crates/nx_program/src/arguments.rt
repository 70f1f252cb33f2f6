//! The arguments of the command line and the call that they name, read by `clap`.

ghost use Rattle.std.specs.Prelude.{◌≡◌, ◌≢◌, ℕ, [], ◌∷◌, IfErr, IfNone, IfOk, IfSome};
ghost use Rattle.std.specs.Prelude.{codes, map};
ghost use Rattle.clap.specs.Words.{Text, found_of, rows_of};
ghost use Rattle.std.specs.Prelude.{string_bytes};
ghost use Rattle.nx_program.specs.Arguments.{AsksSendings, HasValues, IsFile, IsKind, IsMoment, IsNumber, IsStation, Names};
ghost use Rattle.nx_program.specs.Arguments.{SaysMoment, command_name, kind_name};
ghost use Rattle.nx_program.specs.Arguments.{moment_report as the_report};
ghost use Rattle.nx_program.specs.private.Reading.{ExplainsMoment, HasFitMoment, HasUnfitMoment};
ghost use Rattle.nx_program.specs.private.Reading.{ExplainsArguments, IsSortedAs, LacksRange, LacksSlot};
ghost use Rattle.nx_program.specs.private.LogReading.{ExplainsOptions};
ghost use Rattle.nx_program.specs.private.Reading.{LacksWatch};
ghost use Rattle.nx_program.specs.declared.arguments.Call.{Call};
ghost use Rattle.nx_station.specs.declared.damaging.DamageKind.{DamageKind};
ghost use Rattle.nx_program.specs.declared.arguments.ArgumentsFault.TheVariants.{Kind, Memory};
ghost use Rattle.nx_envelope.specs.declared.letter.Letter.{Letter};

use crate::commands::navtex_command;
use crate::file_name::FileName;
use crate::log_arguments::{
    ReadAs, check_order, form_in, from_in, is_flagged, query_in, reading_in, unfit_report,
};
use clap::ArgMatches;
use clap::error::ErrorKind;
use nx_envelope::{LAST_MOMENT, Letter};
use nx_log::{Form, Query};
use nx_station::DamageKind;
use std::alloc::{AllocError, Global};
use std::convert::AsStr;

/// How the sendings of a message are taken.
#[derive(Clone, Copy, Debug, PartialEq, Eq)]
pub enum Sendings {
    /// Each copy by itself.
    Alone,
    /// All copies of a message so far, position by position.
    Together,
}

/// A call of the program, which the arguments of the command line name.
#[derive(Debug, Drop)]
pub enum Call<'a> {
    /// Print the text of an air file.
    Decode,
    /// Write a text as an air file.
    Encode,
    /// Print the table of the code.
    Code,
    /// Print the words of an air file.
    Show,
    /// Print the messages of an air file that is exactly an emission.
    Check,
    /// Print the log of an air file.
    Listen {
        /// How the sendings of a message are taken.
        sendings: Sendings,
    },
    /// Listen to the lines of any bytes, and put each entry into a log that is kept.
    Watch {
        /// How the sendings of a message are taken.
        sendings: Sendings,
        /// The log.
        file: FileName<'a>,
        /// The moment, in seconds since 1970, at which the watch starts.
        moment: u64,
    },
    /// Print the log of the air file behind a state, from which it goes on.
    Resume,
    /// Print the state that listening to the air file behind a state leaves.
    Save,
    /// Print the locks of an air file and their running text.
    Locks,
    /// Write messages as an air file, to be sent in the station's next slot.
    Send {
        /// The station whose messages they are.
        station: Letter,
        /// The moment, in seconds since 1970, before which the slot doesn't begin.
        moment: u64,
    },
    /// Print when the station's next slot begins.
    Slots {
        /// The station.
        station: Letter,
        /// The moment, in seconds since 1970, before which the slot doesn't begin.
        moment: u64,
    },
    /// Copy an air file with the first element of some words inverted.
    Damage {
        /// Which of the words are meant.
        kind: DamageKind,
        /// The first word, from 0.
        from: u64,
        /// How many words the range has from there on.
        count: u64,
    },
    /// Print the entries of a log that a query admits.
    Log {
        /// Which entries are asked for.
        query: Query,
        /// How they are printed.
        form: Form,
        /// As what the input is read.
        reading: ReadAs,
    },
}

/// Why the arguments name no call.
#[derive(Debug, Drop)]
pub enum ArgumentsFault {
    /// The arguments ask for help, which is this text.
    Help(clap::Error),
    /// The arguments ask for the version.
    Version,
    /// The arguments are not understood, as this text says.
    Refused(clap::Error),
    /// The station is not one letter A to Z.
    Station,
    /// The kind of damage is none of those that there are.
    Kind,
    /// The value of an option, or MOMENT, says nothing, or options exclude each other, as this text
    /// says.
    Value(String),
    /// Memory ran out while the arguments were read.
    Memory(AllocError),
}

/// What is wanted, behind that a MOMENT is wrong.
const MOMENT_TIP: &str =
    "\n\n  tip: MOMENT is whole seconds since 1970-01-01 00:00:00 UTC, 0 to 32503679999;";

/// The call that the arguments name, of which the first is the program's name. `Help` and `Version`
/// where they ask for these, `Refused` where clap doesn't understand them, `Station` and `Kind`
/// where that value is none, `Value` where an option's value or MOMENT says nothing or options
/// exclude each other, and `Memory` where it ran out.
pub fn call_of<'a, S: AsStr>(alloc: Global, arguments: &'a [S]) -> Result<Call<'a>, ArgumentsFault>
    ensures named { IfOk result (Names (map S.text arguments.now)) }
    ensures refused { IfErr result (ExplainsArguments (map S.text arguments.now)) }
{
    let command = navtex_command(alloc)?;
    let matches = command.try_get_matches_from(arguments)?;
    let (name, values) = matches.subcommand().unwrap();
    if name == "log" {
        return log_call(alloc, values);
    }
    match Call::of_command(name, values) {
        Some(call) => Ok(call),
        None => Err(unfit_value(alloc, name, values)),
    }
}

/// Why a command that clap takes names no call, of those but `log`: some of its values are any text
/// to clap, and the program itself checks these.
fn unfit_value(alloc: Global, name: &str, values: &ArgMatches) -> ArgumentsFault
    ensures kind { name.now ≡ codes "damage" → result ≡ Kind }
    ensures others { name.now ≢ codes "damage"
        → ExplainsMoment (rows_of (found_of values.now)) result }
{
    match name {
        "damage" => ArgumentsFault::Kind,
        _ => unfit_moment(alloc, values),
    }
}

/// Why the values of a command that takes a moment name no call.
fn unfit_moment(alloc: Global, values: &ArgMatches) -> ArgumentsFault
    ensures { ExplainsMoment (rows_of (found_of values.now)) result }
{
    let Some(text) = unfit_moment_in(values) else {
        return ArgumentsFault::Station;
    };
    match moment_report(alloc, text) {
        Ok(report) => ArgumentsFault::Value(report),
        Err(want) => ArgumentsFault::Memory(want),
    }
}

/// The text that reports a MOMENT that says none.
fn moment_report(alloc: Global, text: &str) -> Result<String, AllocError>
    ensures { IfOk result (λ report. string_bytes report ≡ the_report text.now) }
{
    let mut report = String::new(alloc);
    report.push_str("error: invalid value '")?;
    report.push_str(text)?;
    report.push_str("' for '<MOMENT>'")?;
    report.push_str(MOMENT_TIP)?;
    report.push_str(" $(date +%s) gives now")?;
    report.push_str("\n\nFor more information, try '--help'.\n")?;
    Ok(report)
}

/// The call of the options of `log`. `Value` where the value of one of them names nothing, or two
/// exclude each other.
fn log_call<'a>(alloc: Global, values: &ArgMatches) -> Result<Call<'a>, ArgumentsFault>
    ensures named { IfOk result (λ call. (command_name call ≡ codes "log")
        × HasValues call (rows_of (found_of values.now))) }
    ensures refused { IfErr result (ExplainsOptions (rows_of (found_of values.now))) }
{
    let query = match query_in(values) {
        Ok(query) => query,
        Err(option) => return Err(ArgumentsFault::Value(unfit_report(alloc, values, option)?)),
    };
    let from = match from_in(values) {
        Ok(from) => from,
        Err(option) => return Err(ArgumentsFault::Value(unfit_report(alloc, values, option)?)),
    };
    if let Err(clash) = check_order(values, &query) {
        return Err(ArgumentsFault::Value(clash.report(alloc)?));
    }
    let form = match form_in(values) {
        Ok(form) => form,
        Err(clash) => return Err(ArgumentsFault::Value(clash.report(alloc)?)),
    };
    match reading_in(values, from) {
        Ok(reading) => Ok(Call::Log {
            query,
            form,
            reading,
        }),
        Err(clash) => Err(ArgumentsFault::Value(clash.report(alloc)?)),
    }
}

impl<'a> Call<'a> {
    /// The call of the command of this name with these values, but for `log`.
    fn of_command(name: &str, values: &ArgMatches<'a>) -> Option<Call<'a>>
        ensures some { IfSome result (λ call. (name.now ≡ command_name call)
            × HasValues call (rows_of (found_of values.now))) }
        ensures none { IfNone result ((call : Call) → name.now ≢ codes "log"
            → name.now ≡ command_name call
            → ¬ HasValues call (rows_of (found_of values.now))) }
    {
        match name {
            "decode" => Some(Call::Decode),
            "encode" => Some(Call::Encode),
            "code" => Some(Call::Code),
            "show" => Some(Call::Show),
            "check" => Some(Call::Check),
            "listen" => Some(Call::Listen {
                sendings: sendings_in(values),
            }),
            "resume" => Some(Call::Resume),
            "save" => Some(Call::Save),
            "locks" => Some(Call::Locks),
            "send" => {
                let (station, moment) = slot_in(values)?;
                Some(Call::Send { station, moment })
            }
            "slots" => {
                let (station, moment) = slot_in(values)?;
                Some(Call::Slots { station, moment })
            }
            "damage" => {
                let (kind, from, count) = range_in(values)?;
                Some(Call::Damage { kind, from, count })
            }
            "watch" => {
                let (file, moment) = watch_in(values)?;
                Some(Call::Watch {
                    sendings: sendings_in(values),
                    file,
                    moment,
                })
            }
            _ => None,
        }
    }
}

/// How the flag `--combine` asks to take the sendings of a message.
fn sendings_in(values: &ArgMatches) -> Sendings
    ensures { AsksSendings (rows_of (found_of values.now)) result }
{
    if is_flagged(values, "combine") {
        Sendings::Together
    } else {
        Sendings::Alone
    }
}

/// The letter that the text is alone, A to Z.
fn single_letter(text: &str) -> Option<Letter>
    ensures some { IfSome result (λ letter. text.now ≡ letter.byte ∷ []) }
    ensures none { IfNone result ((letter : Letter) → text.now ≢ letter.byte ∷ []) }
{
    match text.as_bytes() {
        [byte] => Letter::new(*byte),
        _ => None,
    }
}

/// The value of STATION, where it is one letter A to Z.
fn station_in(values: &ArgMatches) -> Option<Letter>
    ensures some { IfSome result (IsStation (rows_of (found_of values.now))) }
    ensures none { IfNone result ((station : Letter)
        → ¬ IsStation (rows_of (found_of values.now)) station) }
{
    single_letter(values.get_str("STATION")?)
}

/// The kind of damage that the text names.
fn kind_by_name(text: &str) -> Option<DamageKind>
    ensures some { IfSome result (λ kind. text.now ≡ kind_name kind) }
    ensures none { IfNone result ((kind : DamageKind) → text.now ≢ kind_name kind) }
{
    match text {
        "dx" => Some(DamageKind::Dx),
        "rx" => Some(DamageKind::Rx),
        "all" => Some(DamageKind::All),
        _ => None,
    }
}

/// The value of KIND, where it names a kind of damage.
fn kind_in(values: &ArgMatches) -> Option<DamageKind>
    ensures some { IfSome result (IsKind (rows_of (found_of values.now))) }
    ensures none { IfNone result ((kind : DamageKind)
        → ¬ IsKind (rows_of (found_of values.now)) kind) }
{
    kind_by_name(values.get_str("KIND")?)
}

/// The value of this name, where it is a number.
fn number_in(values: &ArgMatches, name: &str) -> Option<u64>
    ensures some { IfSome result (IsNumber name.now (rows_of (found_of values.now))) }
    ensures none { IfNone result ((number : ℕ)
        → ¬ IsNumber name.now (rows_of (found_of values.now)) number) }
{
    values.get_one(name)
}

/// The moment that the text says.
fn moment_by_digits(text: &str) -> Option<u64>
    ensures some { IfSome result (SaysMoment text.now) }
    ensures none { IfNone result ((moment : ℕ) → ¬ SaysMoment text.now moment) }
{
    match text.parse::<u64>() {
        Ok(moment) if moment <= LAST_MOMENT => Some(moment),
        _ => None,
    }
}

/// The value of MOMENT, where it says a moment.
fn moment_in(values: &ArgMatches) -> Option<u64>
    ensures some { IfSome result (IsMoment (rows_of (found_of values.now))) }
    ensures none { IfNone result ((moment : ℕ)
        → ¬ IsMoment (rows_of (found_of values.now)) moment) }
{
    moment_by_digits(values.get_str("MOMENT")?)
}

/// The text of MOMENT, where it says none.
fn unfit_moment_in<'a>(values: &ArgMatches<'a>) -> Option<&'a str>
    ensures some { IfSome result (λ text. HasUnfitMoment (rows_of (found_of values.now)) text.now) }
    ensures none { IfNone result (HasFitMoment (rows_of (found_of values.now))) }
{
    let text = values.get_str("MOMENT")?;
    match moment_by_digits(text) {
        Some(_) => None,
        None => Some(text),
    }
}

/// The value of FILE.
fn file_in<'a>(values: &ArgMatches<'a>) -> Option<FileName<'a>>
    ensures some { IfSome result (IsFile (rows_of (found_of values.now))) }
    ensures none { IfNone result ((name : Text) → ¬ IsFile (rows_of (found_of values.now)) name) }
{
    let name = values.get_str("FILE")?;
    Some(FileName::new(name))
}

/// The values of a command that takes a file and a moment.
fn watch_in<'a>(values: &ArgMatches<'a>) -> Option<(FileName<'a>, u64)>
    ensures some { IfSome result (λ watch. IsFile (rows_of (found_of values.now)) watch.0
        × IsMoment (rows_of (found_of values.now)) watch.1) }
    ensures none { IfNone result (LacksWatch (rows_of (found_of values.now))) }
{
    Some((file_in(values)?, moment_in(values)?))
}

/// The values of a command that takes a station and a moment.
fn slot_in(values: &ArgMatches) -> Option<(Letter, u64)>
    ensures some { IfSome result (λ slot. IsStation (rows_of (found_of values.now)) slot.0
        × IsMoment (rows_of (found_of values.now)) slot.1) }
    ensures none { IfNone result (LacksSlot (rows_of (found_of values.now))) }
{
    Some((station_in(values)?, moment_in(values)?))
}

/// The values of a command that takes a kind of damage and a range of words.
fn range_in(values: &ArgMatches) -> Option<(DamageKind, u64, u64)>
    ensures some { IfSome result (λ range. IsKind (rows_of (found_of values.now)) range.0
        × IsNumber (codes "FROM") (rows_of (found_of values.now)) range.1
        × IsNumber (codes "COUNT") (rows_of (found_of values.now)) range.2) }
    ensures none { IfNone result (LacksRange (rows_of (found_of values.now))) }
{
    Some((
        kind_in(values)?,
        number_in(values, "FROM")?,
        number_in(values, "COUNT")?,
    ))
}

impl From<AllocError> for ArgumentsFault {
    ghost from_gives = { λ want fault. fault ≡ Memory want };

    fn from(want: AllocError) -> ArgumentsFault {
        ArgumentsFault::Memory(want)
    }
}

impl From<clap::Error> for ArgumentsFault {
    ghost from_gives = { IsSortedAs };

    fn from(error: clap::Error) -> ArgumentsFault {
        match error.kind() {
            ErrorKind::DisplayHelp => ArgumentsFault::Help(error),
            ErrorKind::DisplayVersion => ArgumentsFault::Version,
            ErrorKind::OutOfMemory => ArgumentsFault::Memory(AllocError),
            _ => ArgumentsFault::Refused(error),
        }
    }
}
