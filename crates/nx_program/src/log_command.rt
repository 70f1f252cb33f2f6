//! The command `log` of the command tree, and the texts of its help.

ghost use Rattle.std.specs.Prelude.{IfOk};
ghost use Rattle.nx_program.specs.LogArguments.{flag_rule, log_tree, option_rule};
ghost use Rattle.nx_program.specs.private.Reading.{AddsRule, IsBuiltAs};

use crate::log_arguments::LogOption;
use clap::{Arg, ArgAction, Command};
use std::alloc::{AllocError, Global};

/// What the program's help says of the command, and short help first of all.
pub const LOG_ABOUT: &str = "Print the entries of a log that are asked for";

/// What stands at the end of short help.
pub const LOG_SHORT: &str =
    "A log is what listen prints: an entry for each message. With no option all
entries are printed. --help says more.";

/// What long help says first of all.
pub const LOG_HELP: &str = "Print the entries of a log that are asked for.

A log is what a receiver prints of an air file: an entry for each message, with
a head, the text, and an empty line.

Reads a log from standard input, to its end: what listen and resume write, the
log file of watch, several of them one behind the other, or what tail -F shows
of one that grows. Newlines and spaces between entries are passed over, or one
other byte. An entry that was torn is passed over too, and told on standard
error with its line: one that lacks its end, or what stands behind a space. The
next [ begins an entry again. While a watch puts an entry, it may be told so.

Writes those entries to standard output of which all options are true, in the
order in which they stand, each before it reads on. With no option that is every
entry. LETTERS are one letter A to Z or more, in any order. An entry is good
where it is full, with less than 4 per cent of errors. A TIME is one of these:
  2025-01-01            a date in UTC: its first second for --since, its last
                        one for --until
  2025-01-01T00:40      a minute of a date, in UTC: its first or its last second
  2025-01-01T00:40:00   a second of a date, in UTC
  1735692000            seconds since 1970-01-01 00:00:00 UTC; four or eight
                        digits alone are refused, as they could be a date
A space may stand for the T, and a Z behind the time of day. The TIME of --since
may not be later than that of --until.
With --json each entry is one line, an object with the keys channel, characters,
end (full, cut or long), errors, good, identity, moment, number, station,
subject, text and time.

With --keep a log is written as watch keeps it, with these entries: a newline
before each, and a space behind the last. So a log is shortened, or several are
joined, and the next watch goes on from it. Not with --json.

With --kept the input is the log of a watch, or what stands in it from a gate on:
the newline before an entry, or the space behind the last. It is read as a watch
reads it: what stands behind the space doesn't count, and isn't told. JSON has two
keys more: place, how many bytes of the input stand before the gate before the
entry, and next, before the gate behind it. --from N adds N to both. They stay, so
  tail -c +$((next + 1)) watch.log | navtex log --kept --json --from $next
goes on behind the entry with that next. Not with --salvage.

With --last an entry is left out where one behind it, of those that the other
options choose, has its identity and channel, comes less than 66 hours later, and
isn't worse: an entry is worse where it isn't full and the other is, or else
where it has more errors. All numbered 00 stay. Then nothing is written before
the log ends, and memory is taken for what is held.

Where the bytes stop being a log, the entries before were written, and the line
is told. With --salvage they are passed over up to the next [, and it goes on
there: each such place is told by its line, at once, and the first one again at
the end, with status 2.";

/// What stands at the end of long help.
pub const LOG_EXAMPLE: &str = "Example:
  $ printf '#A01\\nTEST\\n;\\n' | navtex send E 1735689600 | navtex listen > ea.log
  $ navtex log --station E --since 2025-01-01 < ea.log
  [EA01 2025-01-01 00:40:00 full 0/5]
  TEST

  $ navtex log --until 2024-12-31 < ea.log
  $ navtex log --json < ea.log | cut -c1-41
  {\"channel\":0,\"characters\":5,\"end\":\"full\",";

/// What help says of `--last`.
const LAST_HELP: &str = "The last entry of each message alone";

/// What help says of `--keep`.
const KEEP_HELP: &str = "The log of a watch, with these entries";

/// What help says of `--kept`.
const KEPT_HELP: &str = "Read the log of a watch as the next watch does";

/// What help says of `--salvage`.
const SALVAGE_HELP: &str = "Pass over what is not of a log, and go on behind it";

/// The command with an option that has a value.
fn with_option<'a>(
    alloc: Global,
    command: Command<'a>,
    option: LogOption,
) -> Result<Command<'a>, AllocError>
    ensures { IfOk result (AddsRule (option_rule option) command.entry) }
{
    let name: &'a str = option.name();
    let value_name: &'a str = option.value_name();
    let help: &'a str = option.help();
    command.arg(
        Arg::new(alloc, name)
            .long(name)
            .value_name(value_name)
            .help(help),
    )
}

/// The command with a flag.
pub(crate) fn with_flag<'a>(
    alloc: Global,
    command: Command<'a>,
    name: &'a str,
    help: &'a str,
) -> Result<Command<'a>, AllocError>
    ensures { IfOk result (AddsRule (flag_rule name.entry.now) command.entry) }
{
    command.arg(
        Arg::new(alloc, name)
            .long(name)
            .action(ArgAction::SetTrue)
            .help(help),
    )
}

/// The command `log` with its options, by its name.
pub fn log_command<'a>(alloc: Global, name: &'a str) -> Result<Command<'a>, AllocError>
    ensures { IfOk result (IsBuiltAs (log_tree name.entry.now)) }
{
    let with_station = with_option(alloc, Command::new(alloc, name), LogOption::Station)?;
    let with_subject = with_option(alloc, with_station, LogOption::Subject)?;
    let with_channel = with_option(alloc, with_subject, LogOption::Channel)?;
    let with_since = with_option(alloc, with_channel, LogOption::Since)?;
    let with_until = with_option(alloc, with_since, LogOption::Until)?;
    let with_good = with_flag(alloc, with_until, "good", "Good entries alone")?;
    let with_last = with_flag(alloc, with_good, "last", LAST_HELP)?;
    let with_json = with_flag(alloc, with_last, "json", "Each entry as a line of JSON")?;
    let with_keep = with_flag(alloc, with_json, "keep", KEEP_HELP)?;
    let with_kept = with_flag(alloc, with_keep, "kept", KEPT_HELP)?;
    let with_from = with_option(alloc, with_kept, LogOption::From)?;
    with_flag(alloc, with_from, "salvage", SALVAGE_HELP)
}
