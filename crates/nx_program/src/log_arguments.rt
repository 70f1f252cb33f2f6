//! What the options of `log` ask for.

ghost use Rattle.std.specs.Prelude.{◌≡◌, IfErr, IfNone, IfOk, IfSome, option_map, string_bytes};
ghost use Rattle.clap.specs.Words.{found_of, rows_of};
ghost use Rattle.nx_log.specs.Places.{SaysPlace};
ghost use Rattle.nx_log.specs.Times.{IsSince, IsUntil};
ghost use Rattle.nx_program.specs.LogArguments.{Asks, HasClash, IsForm, IsInOrder, IsQuery, IsReading, IsReported};
ghost use Rattle.nx_program.specs.LogArguments.{NamesChannel, NamesLetters};
ghost use Rattle.nx_program.specs.LogArguments.{clash_report as the_clash_report, given_to, has_flag, option_name};
ghost use Rattle.nx_program.specs.LogArguments.{value_name as the_value_name, value_report as the_report};
ghost use Rattle.nx_program.specs.LogArguments.{value_wanted as the_value_wanted};
ghost use Rattle.nx_program.specs.private.LogReading.{IsUnfitAs, IsWrong};
ghost use Rattle.nx_fec.specs.declared.air_files.channel.Channel.{Channel};
ghost use Rattle.nx_program.specs.declared.log_arguments.LogOption.TheVariants as option;

use clap::ArgMatches;
use nx_fec::Channel;
use nx_log::{Damaged, Form, Letters, Query, place_named, since_of, until_of};
use std::alloc::{AllocError, Global};

/// An option of `log` that has a value.
#[derive(Clone, Copy, Debug, PartialEq, Eq)]
pub enum LogOption {
    /// The stations whose entries are asked for.
    Station,
    /// The subjects.
    Subject,
    /// The channel.
    Channel,
    /// The first moment.
    Since,
    /// The last moment.
    Until,
    /// How many bytes stand before the input.
    From,
}

/// Options of `log` that can't stand together, or one without that which it needs.
#[derive(Clone, Copy, Debug, PartialEq, Eq)]
pub enum Clash {
    /// `--json` and `--keep`: entries are written in one form.
    JsonAndKeep,
    /// `--kept` and `--salvage`: a kept log is damaged, or it isn't.
    KeptAndSalvage,
    /// `--from` without `--kept`: no other log has places.
    FromWithoutKept,
    /// The time of `--since` is later than that of `--until`: no entry has both.
    SinceBehindUntil,
}

/// As what the input of `log` is read.
#[derive(Clone, Copy, Debug, PartialEq, Eq)]
pub enum ReadAs {
    /// As a log, of which bytes that are none are refused or passed over.
    Log(Damaged),
    /// As a kept log, or a part of one, before which so many bytes stand.
    Kept(u64),
}

/// What a TIME has to be.
const TIME_WANTED: &str =
    "TIME is 2025-01-01 or '2025-01-01 00:40', in UTC, or seconds since 1970, not of 4 or 8 digits: $(date -ud '12 hours ago' +%s)";

impl LogOption {
    /// The name of the option on the command line.
    pub fn name(self) -> &'static str
        ensures { result.now ≡ option_name self }
    {
        match self {
            LogOption::Station => "station",
            LogOption::Subject => "subject",
            LogOption::Channel => "channel",
            LogOption::Since => "since",
            LogOption::Until => "until",
            LogOption::From => "from",
        }
    }

    /// What help calls its value.
    pub fn value_name(self) -> &'static str
        ensures { result.now ≡ the_value_name self }
    {
        match self {
            LogOption::Station | LogOption::Subject => "LETTERS",
            LogOption::Channel | LogOption::From => "N",
            LogOption::Since | LogOption::Until => "TIME",
        }
    }

    /// What its value has to be, as it is told where it is wrong.
    pub fn value_wanted(self) -> &'static str
        ensures { result.now ≡ the_value_wanted self }
    {
        match self {
            LogOption::Station | LogOption::Subject => {
                "LETTERS are one letter A to Z or more, as AE, with nothing between them"
            }
            LogOption::Channel => "N is 0, 1 or 2",
            LogOption::Since | LogOption::Until => TIME_WANTED,
            LogOption::From => "N is digits, at most 9223372036854775807",
        }
    }

    /// What help says of the option.
    pub fn help(self) -> &'static str {
        match self {
            LogOption::Station => "Entries of these stations alone",
            LogOption::Subject => "Entries of these subjects alone",
            LogOption::Channel => "Entries of this channel alone, 0 to 2",
            LogOption::Since => "Entries of this time and later ones alone",
            LogOption::Until => "Entries of this time and earlier ones alone",
            LogOption::From => "With --kept: so many bytes stand before the input",
        }
    }

    /// The text that the option was given, if any.
    fn given_in<'a>(self, values: &ArgMatches<'a>) -> Option<&'a str>
        ensures { option_map (λ text. text.now) result
            ≡ given_to self (rows_of (found_of values.now)) }
    {
        values.get_str(self.name())
    }

    /// The text that reports a value of the option that names nothing.
    fn value_report(self, alloc: Global, text: &str) -> Result<String, AllocError>
        ensures { IfOk result (λ report. string_bytes report ≡ the_report self text.now) }
    {
        let mut report = String::new(alloc);
        report.push_str("error: invalid value '")?;
        report.push_str(text)?;
        report.push_str("' for '--")?;
        report.push_str(self.name())?;
        report.push_str(" <")?;
        report.push_str(self.value_name())?;
        report.push_str(">'\n\n  tip: ")?;
        report.push_str(self.value_wanted())?;
        report.push_str("\n\nFor more information, try '--help'.\n")?;
        Ok(report)
    }
}

impl Clash {
    /// The text that reports it.
    pub fn report(self, alloc: Global) -> Result<String, AllocError>
        ensures { IfOk result (λ report. string_bytes report ≡ the_clash_report self) }
    {
        let mut report = String::new(alloc);
        report.push_str(match self {
            Clash::JsonAndKeep => "error: the argument '--json' cannot be used with '--keep'",
            Clash::KeptAndSalvage => {
                "error: the argument '--kept' cannot be used with '--salvage'"
            }
            Clash::FromWithoutKept => "error: the argument '--from <N>' needs '--kept'",
            Clash::SinceBehindUntil => {
                "error: the time of '--since <TIME>' is later than that of '--until <TIME>'"
            }
        })?;
        report.push_str("\n\nFor more information, try '--help'.\n")?;
        Ok(report)
    }
}

/// The letters that the option asks for.
fn letters_in(values: &ArgMatches, option: LogOption) -> Result<Option<Letters>, LogOption>
    ensures asked { IfOk result
        (Asks NamesLetters (given_to option (rows_of (found_of values.now)))) }
    ensures wrong { IfErr result (IsWrong NamesLetters (rows_of (found_of values.now)) option) }
{
    match option.given_in(values) {
        None => Ok(None),
        Some(text) => match Letters::of(text) {
            Some(letters) => Ok(Some(letters)),
            None => Err(option),
        },
    }
}

/// The channel that the text names.
fn channel_by_digit(text: &str) -> Option<Channel>
    ensures some { IfSome result (NamesChannel text.now) }
    ensures none { IfNone result ((channel : Channel) → ¬ NamesChannel text.now channel) }
{
    match text {
        "0" => Some(Channel::Zero),
        "1" => Some(Channel::One),
        "2" => Some(Channel::Two),
        _ => None,
    }
}

/// The channel that the option asks for.
fn channel_in(values: &ArgMatches) -> Result<Option<Channel>, LogOption>
    ensures asked { IfOk result
        (Asks NamesChannel (given_to option.Channel (rows_of (found_of values.now)))) }
    ensures wrong { IfErr result
        (IsWrong NamesChannel (rows_of (found_of values.now)) option.Channel) }
{
    match LogOption::Channel.given_in(values) {
        None => Ok(None),
        Some(text) => match channel_by_digit(text) {
            Some(channel) => Ok(Some(channel)),
            None => Err(LogOption::Channel),
        },
    }
}

/// The moment since which the option asks for entries.
fn since_in(values: &ArgMatches) -> Result<Option<u64>, LogOption>
    ensures asked { IfOk result
        (Asks IsSince (given_to option.Since (rows_of (found_of values.now)))) }
    ensures wrong { IfErr result
        (IsWrong IsSince (rows_of (found_of values.now)) option.Since) }
{
    match LogOption::Since.given_in(values) {
        None => Ok(None),
        Some(text) => match since_of(text) {
            Some(moment) => Ok(Some(moment)),
            None => Err(LogOption::Since),
        },
    }
}

/// The moment until which the option asks for entries.
fn until_in(values: &ArgMatches) -> Result<Option<u64>, LogOption>
    ensures asked { IfOk result
        (Asks IsUntil (given_to option.Until (rows_of (found_of values.now)))) }
    ensures wrong { IfErr result
        (IsWrong IsUntil (rows_of (found_of values.now)) option.Until) }
{
    match LogOption::Until.given_in(values) {
        None => Ok(None),
        Some(text) => match until_of(text) {
            Some(moment) => Ok(Some(moment)),
            None => Err(LogOption::Until),
        },
    }
}

/// How many bytes the option says to stand before the input.
pub fn from_in(values: &ArgMatches) -> Result<Option<u64>, LogOption>
    ensures asked { IfOk result
        (Asks SaysPlace (given_to option.From (rows_of (found_of values.now)))) }
    ensures wrong { IfErr result
        (IsWrong SaysPlace (rows_of (found_of values.now)) option.From) }
{
    match LogOption::From.given_in(values) {
        None => Ok(None),
        Some(text) => match place_named(text) {
            Some(place) => Ok(Some(place)),
            None => Err(LogOption::From),
        },
    }
}

/// Whether the flag of this name was given.
pub(crate) fn is_flagged(values: &ArgMatches, name: &str) -> bool
    ensures { result ≡ has_flag name.now (rows_of (found_of values.now)) }
{
    match values.get_str(name) {
        Some(text) => text == "true",
        None => false,
    }
}

/// The query that the options ask for. `Err` with an option whose text names nothing.
pub fn query_in(values: &ArgMatches) -> Result<Query, LogOption>
    ensures asked { IfOk result (IsQuery (rows_of (found_of values.now))) }
    ensures unfit { IfErr result (IsUnfitAs (rows_of (found_of values.now))) }
{
    Ok(Query {
        stations: letters_in(values, LogOption::Station)?,
        subjects: letters_in(values, LogOption::Subject)?,
        channel: channel_in(values)?,
        since: since_in(values)?,
        until: until_in(values)?,
        good: is_flagged(values, "good"),
        last: is_flagged(values, "last"),
    })
}

/// Ok where the first moment of the query that the options name isn't later than its last one.
pub fn check_order(values: &ArgMatches, query: &Query) -> Result<(), Clash>
    requires { IsQuery (rows_of (found_of values.now)) query.now }
    ensures in_order { IfOk result (λ checked. IsInOrder query.now) }
    ensures clash { IfErr result (HasClash (rows_of (found_of values.now))) }
{
    match (query.since, query.until) {
        (Some(first), Some(last)) if last < first => Err(Clash::SinceBehindUntil),
        _ => Ok(()),
    }
}

/// The form that the options ask for. `Err` where they ask for two.
pub fn form_in(values: &ArgMatches) -> Result<Form, Clash>
    ensures asked { IfOk result (IsForm (rows_of (found_of values.now))) }
    ensures clash { IfErr result (HasClash (rows_of (found_of values.now))) }
{
    match (is_flagged(values, "json"), is_flagged(values, "keep")) {
        (false, false) => Ok(Form::Log),
        (true, false) => Ok(Form::Json),
        (false, true) => Ok(Form::Kept),
        (true, true) => Err(Clash::JsonAndKeep),
    }
}

/// As what the input is to be read, where the options say that so many bytes stand before it. `Err`
/// where they exclude each other, or `--from` stands without `--kept`.
pub fn reading_in(values: &ArgMatches, from: Option<u64>) -> Result<ReadAs, Clash>
    requires { Asks SaysPlace (given_to option.From (rows_of (found_of values.now))) from }
    ensures asked { IfOk result (IsReading (rows_of (found_of values.now))) }
    ensures clash { IfErr result (HasClash (rows_of (found_of values.now))) }
{
    match (
        is_flagged(values, "kept"),
        is_flagged(values, "salvage"),
        from,
    ) {
        (true, true, _) => Err(Clash::KeptAndSalvage),
        (true, false, Some(place)) => Ok(ReadAs::Kept(place)),
        (true, false, None) => Ok(ReadAs::Kept(0)),
        (false, _, Some(_)) => Err(Clash::FromWithoutKept),
        (false, true, None) => Ok(ReadAs::Log(Damaged::PassedOver)),
        (false, false, None) => Ok(ReadAs::Log(Damaged::Refused)),
    }
}

/// The text that reports the value of an option that names nothing.
pub fn unfit_report(
    alloc: Global,
    values: &ArgMatches,
    option: LogOption,
) -> Result<String, AllocError>
    requires { IsUnfitAs (rows_of (found_of values.now)) option }
    ensures { IfOk result (λ report.
        IsReported (rows_of (found_of values.now)) (string_bytes report)) }
{
    let text = option.given_in(values).unwrap();
    option.value_report(alloc, text)
}
