//! The command tree of the program, and the texts of its help.

ghost use Rattle.std.specs.Prelude.{IfOk};
ghost use Rattle.nx_program.specs.Arguments.{bare_tree, damage_tree, file_tree, navtex, number_rule, sendings_tree, slot_tree};
ghost use Rattle.nx_program.specs.Arguments.{text_rule};
ghost use Rattle.nx_program.specs.private.Reading.{AddsRule, IsBuiltAs, IsReadAs};
ghost use Rattle.nx_program.specs.private.Reading.{row_tree, with_rows};

use crate::log_command::{LOG_ABOUT, LOG_EXAMPLE, LOG_HELP, LOG_SHORT, log_command, with_flag};
use clap::builder::ValueParser;
use clap::{Arg, Command};
use std::alloc::{AllocError, Global};

/// The text of the version: the program's name, its version, and what `rt version` says of the kit
/// and of the logic that it is proved with.
pub const VERSION: &str = "navtex 1.2.0, proved with rattle-kit-13f logic dac8208d650f15bf\n";

/// What a command takes.
#[derive(Clone, Copy)]
enum Takes {
    /// No value.
    Nothing,
    /// How the sendings of a message are taken.
    Sendings,
    /// A station and a moment.
    Slot,
    /// How the sendings of a message are taken, a file and a moment.
    File,
    /// A kind of damage and a range of words.
    Range,
    /// The options of a query and of a form.
    Query,
}

/// A row of the table of commands: a command's name, what it takes, and what help says of it.
struct Row {
    /// The name of the command on the command line.
    name: &'static str,
    /// What the command takes.
    takes: Takes,
    /// How the command is called, and how it is given a file.
    usage: &'static str,
    /// What the program's help says of the command, and short help first of all.
    about: &'static str,
    /// What stands at the end of short help, if anything.
    short: Option<&'static str>,
    /// What long help says first of all.
    long: &'static str,
    /// What stands at the end of long help.
    example: &'static str,
}

/// What short help says of the files of a command.
const AIR_FILE: &str =
    "An air file is text: lines of B with the elements on the air, 1 or 0 each, and
lines of T with the time. --help says more.";

const LISTEN_SHORT: &str =
    "An air file is text: lines of B with the elements on the air, 1 or 0 each, and
lines of T with the time. A log is what a receiver prints of it: an entry for
each message. --help says more, and what an empty log can mean.";

const LISTEN_HELP: &str = "Print the log of an air file.

An air file is a text of what is on the air. A log is what a receiver prints of
it: an entry for each message.

Reads an air file of at most 268435456 bytes from standard input, to its end.
Its lines, each ended by a line feed, are:
  B 0110011     elements in the order of sending, 1 to 512 of them: 1 is B, 0
                is Y
  T 1735692000  the moment from here on, in seconds since 1970-01-01 00:00:00
                UTC; the first B comes after a T, and no T is before the last
  RS E          refuse station E from here on, for all its subjects; AS E
                accepts it again
  RJ C          refuse subject C from here on, which A, B, D and L can't be;
                AJ C accepts it again
These are lines of channel 0. A receiver of two or three frequencies hears each
as a channel of its own, whose lines name it directly behind the letters, 0, 1
or 2:
  B1 0110011    elements on channel 1, 1 to 511 of them
  RS2 E         refuse station E on channel 2 alone; so with AS2, RJ2 and AJ2
A line of T is for all channels. A line that ends in CR and LF is not
understood: tr -d '\\r' takes the CR away.

Writes an entry to standard output for each copy of a message that is printed,
as soon as the line with its last element has come: a head, the text, and an
empty line. The head has the identity, the time of the copy, how it ended (full,
cut or long), its errors, which are asterisks in the text, and its characters.
A message that was printed full, with less than 4 per cent of errors, is not
printed again within 66 hours, unless 200 others came in between. One numbered
00 is printed each time that it is selected. What is heard on channel 1 or 2 has
/1 or /2 behind the identity, and no channel knows of the others. Nothing is
kept for a later run: resume and save do that.

With --combine all sendings of a message within 66 hours are taken together,
position by position: what one has lost is taken of another. The message is
printed again each time that it has become better, so of what several sendings
gave the last entry is the best. It can't be told whether two sendings carry one
text: where a station uses a number again within 66 hours, what is printed may
be of both. It takes 5 megabytes of memory.

An empty log can mean one of these; navtex locks < x.air tells some apart, as
locks --help says:
  exchanged tones    each 1 should be a 0 and each 0 a 1. This exchanges them:
                     sed '/^B /y/01/10/' x.air | navtex listen
  another pitch      the demodulator that made the elements listens beside the
                     two tones
  a refused station  or a refused subject: a line RS or RJ stands in the file
  a weak signal      more words are damaged than a lock on the signal, or the
                     first line of a message, can bear; also where elements are
                     lost or doubled, since all later words are then shifted";

const LISTEN_EXAMPLE: &str =
    "Example: of message 01 of subject A of station E the first sending of each
letter is damaged, and it is printed whole:
  $ printf '#A01\\nTEST\\n;\\n' | navtex send E 1735689600 > sent.air
  $ navtex damage dx 144 59 < sent.air > ea01.air
  $ head -c 53 ea01.air
  T 1735692000
  B 01100111111000011001111110000110011111
  $ navtex listen < ea01.air
  [EA01 2025-01-01 00:40:00 full 0/5]
  TEST

The same on channel 1:
  $ sed 's/^B /B1 /' ea01.air | navtex listen
  [EA01/1 2025-01-01 00:40:00 full 0/5]
  TEST

A buoy of which the first sending lost a shift, and its second sending:
  $ navtex listen --combine < buoy.air
  [EA01 2025-01-01 00:40:00 full 1/31]
  BUOY *TQAWRMEN 002-11.0E UNLIT

  [EA01 2025-01-01 04:40:00 full 0/30]
  BUOY 51-24.3N 002-11.0E UNLIT";

/// What help says of `--combine`.
const COMBINE_HELP: &str = "Take the sendings of a message together";

const LISTEN: Row = Row {
    name: "listen",
    takes: Takes::Sendings,
    usage: "navtex listen [--combine] < x.air",
    about: "Print the log of an air file",
    short: Some(LISTEN_SHORT),
    long: LISTEN_HELP,
    example: LISTEN_EXAMPLE,
};

const WATCH_SHORT: &str =
    "An air file is text: lines of B with the elements on the air, 1 or 0 each, and
lines of T with the time. The log is the memory of the receiver too: whatever
ends a watch, the next one goes on from it. --help says more.";

const WATCH_HELP: &str = "Keep the log of a receiver that is left on.

An air file is a text of what is on the air. A log is what a receiver prints of
it: an entry for each message. The log of a watch is its memory too. Whatever
ends a watch, also a power cut in the middle of a write, the next one goes on
from FILE, and prints no message again that stands there.

Reads from standard input, to its end, the lines that listen --help lists, and
any others: a line that isn't understood and a moment that goes back have no
effect. The first such line is told on standard error, and at the end their
number. A moment that goes back by 66 hours or more, twice in a row, ends the
watch. Elements before any line of T are heard at MOMENT, or at the newest
moment that FILE remembers where that is later.

Puts each entry into FILE, and brings it to the disk, before it reads on. An
empty line stands before each entry and a space behind the last. What stands
behind that space is cut at the start; how many bytes, and the head of each
entry among them, is told on standard error first. Nothing is written to
standard output, but where an entry can't be put: then it and all later ones
go there. Where the input ends, a message that is being heard is put as cut, and
its next sending as full beside it.

With --combine all sendings of a message that this watch hears are taken
together, as listen --help says. What has become better is put into FILE as one
more entry. That is the way for a receiver that is left on, since a message is
sent again every few hours. Without it each entry is a copy as it was heard.
What FILE remembers is the same. It takes 5 megabytes more of memory.

FILE is a regular file on a local disk, which is made where it isn't there.
Where it can't be opened, the reason is told. A damaged one is refused at its
line and stays as it is, and so is a log of listen. A second watch of the same
file is refused. MOMENT is the time at which the watch starts, in whole seconds
since 1970: $(date +%s) gives now. What is remembered of 66 hours later or more
is left out.";

const WATCH_EXAMPLE: &str = "Example, live from the sound of a radio (rec is a part of sox):
  $ rec -q -t raw -r 8000 -c 1 -e signed -b 16 - |
      navtex-elements | navtex watch --combine watch.log \"$(date +%s)\"
navtex-watch is a script and a service that do this, and start it again; its man
page is navtex-watch(8), and its settings are in /etc/default/navtex-watch.
navtex-follow shows each entry of the log once, and navtex-alarm runs a command
for each new message.";

const WATCH: Row = Row {
    name: "watch",
    takes: Takes::File,
    usage: "navtex watch [--combine] <FILE> <MOMENT> < x.air",
    about: "Keep the log of a receiver that is left on",
    short: Some(WATCH_SHORT),
    long: WATCH_HELP,
    example: WATCH_EXAMPLE,
};

const LOG: Row = Row {
    name: "log",
    takes: Takes::Query,
    usage: "navtex log [OPTIONS] < x.log",
    about: LOG_ABOUT,
    short: Some(LOG_SHORT),
    long: LOG_HELP,
    example: LOG_EXAMPLE,
};

const RESUME_SHORT: &str =
    "A state is a text of what a receiver knows when it is switched off, and an air
file one of what is on the air behind it. A log is what a receiver prints of it:
an entry for each message. --help says more.";

const RESUME_HELP: &str = "Print the log of an air file, and go on from a state.

A state is a text of what a receiver knows when it is switched off: for each
channel what is refused, and which messages were printed and when. So they are
not printed again when it is switched on.

Reads a state from standard input, as far as its line END, and behind it an air
file of at most 268435456 bytes, to its end. The lines of the air file are those
that listen --help lists. Those of a state, each ended by a line feed, are:
  STATE 2          first of all
  C0               what follows is that of channel 0; then C1, and last C2
  RS E             station E is refused
  RJ C             subject C is refused
  EA01 1735692000  message EA01 was printed, and this was its moment; the oldest
                   stands first, and there are 200 at most
  END              last of all
Behind STATE 1 stand the lines of channel 0 alone, without C0. So the state of a
receiver that has heard nothing yet is the two lines STATE 1 and END.

Writes the log to standard output, as listen does. What the state holds as
printed is not printed again within 66 hours, what it refuses stays refused, and
no moment is before its newest one. Lines are counted from the start of the air
file, and those of a state from its own start.

Writes no state. save does, over the same input: both read the state first and
the air file behind it.";

const RESUME_EXAMPLE: &str =
    "Example: a message is heard, and four hours later again, when it is not printed:
  $ printf 'STATE 1\\nEND\\n' > state
  $ printf '#A01\\nTEST\\n;\\n' > ea01
  $ navtex send E 1735689600 < ea01 | cat state - > in
  $ navtex resume < in
  [EA01 2025-01-01 00:40:00 full 0/5]
  TEST

  $ navtex save < in > state.new && mv state.new state
  $ navtex send E 1735692001 < ea01 | cat state - | navtex resume";

const RESUME: Row = Row {
    name: "resume",
    takes: Takes::Nothing,
    usage: "cat state x.air | navtex resume",
    about: "Print the log of an air file, and go on from a state",
    short: Some(RESUME_SHORT),
    long: RESUME_HELP,
    example: RESUME_EXAMPLE,
};

const SAVE_SHORT: &str =
    "A state is a text of what a receiver knows when it is switched off, and an air
file one of what is on the air behind it. --help says more, and how a state is
kept from run to run.";

const SAVE_HELP: &str = "Print the state that an air file leaves behind a state.

A state is a text of what a receiver knows when it is switched off: for each
channel what is refused, and which messages were printed and when.

Reads what resume reads, in the same way: a state, as far as its line END, and
behind it an air file of at most 268435456 bytes, to its end. resume --help says
which lines they have, and with what state to begin.

Writes no log, but the state that the receiver of that log ends with, once all
was read. It is of version 2, as resume and save read it. A copy that is still
open where the air file ends is no part of it.

After a fault nothing was written, but for a write that failed. So a run that
fails leaves the old state, where the new one is written beside it and is put in
its place by a run that succeeds:
  navtex save < in > state.new && mv state.new state
The log and the new state of one run come from two commands over one file in,
which is the state and the air file behind it:
  cat state day.air > in
  navtex resume < in >> log
  navtex save < in > state.new && mv state.new state";

const SAVE_EXAMPLE: &str = "Example: the state of a receiver that has heard one message:
  $ printf 'STATE 1\\nEND\\n' > state
  $ printf '#A01\\nTEST\\n;\\n' | navtex send E 1735689600 > day.air
  $ cat state day.air > in
  $ navtex save < in > state.new && mv state.new state
  $ cat state
  STATE 2
  C0
  EA01 1735692000
  C1
  C2
  END";

const SAVE: Row = Row {
    name: "save",
    takes: Takes::Nothing,
    usage: "cat state x.air | navtex save",
    about: "Print the state that an air file leaves behind a state",
    short: Some(SAVE_SHORT),
    long: SAVE_HELP,
    example: SAVE_EXAMPLE,
};

const LOCKS_SHORT: &str =
    "An air file is text: lines of B with the elements on the air, 1 or 0 each, and
lines of T with the time. A lock is a stretch of it in which a receiver reads
words. --help says more, and how to find out why a log is empty.";

const LOCKS_HELP: &str = "Print the locks of an air file and their running text.

An air file is a text of what is on the air. A lock is a stretch of it in which
a receiver reads words. It begins with phasing, and is over with the emission or
where most of its last 64 words are wrong.

Reads an air file of at most 268435456 bytes from standard input, to its end.
Its lines are those that listen --help lists; the locks are those of channel 0.
The stations and subjects that lines refuse are checked and change nothing here.

Writes each lock to standard output, as soon as the line with its elements has
come, whether a message stands in it or not:
  a line         the time, and after how many elements the lock began
  the text       as it is printed, with an asterisk for each lost character
  a line         the time; whether the lock ended with the emission, was lost,
                 or is open where the file ends; how many words it has, how many
                 of them have other than four B, and how many copies of messages
                 begin in its text
  an empty line
and at the end one line with the counts of elements, locks and copies.

Why a log of listen is empty:
  locks 0        the tones are exchanged, or of another pitch, or the signal is
                 too weak for a lock; try the first two
  lost locks     the signal is weak, or elements are lost or doubled
  copies 0       a text was heard, but no first line of a message in it
  copies 1 ...   the station or the subject of each copy is refused";

const LOCKS_EXAMPLE: &str =
    "Example: listen prints nothing of this file, since a part of the first line of
its message was lost:
  $ printf '#A01\\nTEST\\n;\\n' | navtex send E 1735689600 > sent.air
  $ navtex damage all 160 6 < sent.air > lost.air
  $ navtex listen < lost.air
  $ navtex locks < lost.air
  [2025-01-01 00:40:00 lock 28]
  ZCZC EA*PQ
  TEST
  NNNN

  [2025-01-01 00:40:00 open words 199 wrong 6 copies 0]

  [elements 1421 locks 1 copies 0]";

const LOCKS: Row = Row {
    name: "locks",
    takes: Takes::Nothing,
    usage: "navtex locks < x.air",
    about: "Print the locks of an air file and their running text",
    short: Some(LOCKS_SHORT),
    long: LOCKS_HELP,
    example: LOCKS_EXAMPLE,
};

const SEND_HELP: &str = "Write messages as an air file, to be sent in the station's next slot.

An air file is a text of what is on the air: here one line of T with a moment,
and lines of B with elements, 1 or 0 each.

Reads a message file of at most 1048576 bytes from standard input. Its lines are
each ended by a line feed (tr -d '\\r' takes a CR before it away). A message
begins with the line of #, its subject (a letter A to Z) and its number (two
digits), and ends with the line ; alone. Between them stand its lines of text,
each of at most 69 characters A to Z, 0 to 9, space and -?:().,'=+/ without ZCZC
and NNNN. Together they have at most 4096 characters, with one more for each
line's end.

Writes an air file to standard output. Its line of T has the moment at which the
first slot of the station begins that is not before MOMENT. Its lines of B have
the elements of the emission. Stations A to X have a slot of ten minutes in each
four hours, Y and Z have none.";

const SEND_EXAMPLE: &str = "Example, of which the first 40 columns are shown:
  $ printf '#A01\\nTEST\\n;\\n' | navtex send E 1735689600 | cut -c1-40
  T 1735692000
  B 01100111111000011001111110000110011111
  B 01100111111000011001111110000110011111
  B 01100111111000011001111110000101101111";

const SEND: Row = Row {
    name: "send",
    takes: Takes::Slot,
    usage: "navtex send <STATION> <MOMENT> < x.messages",
    about: "Write messages as an air file, to be sent in the next slot",
    short: Some(AIR_FILE),
    long: SEND_HELP,
    example: SEND_EXAMPLE,
};

const SLOTS_HELP: &str = "Print when the station's next slot begins.

Reads nothing, and writes one line: the moment at which the first slot of the
station begins that is not before MOMENT, and its civil time in UTC. Stations A
to X have a slot of ten minutes in each four hours, Y and Z have none.";

const SLOTS_EXAMPLE: &str = "Example:
  $ navtex slots E 1735689600
  1735692000 2025-01-01 00:40:00";

const SLOTS: Row = Row {
    name: "slots",
    takes: Takes::Slot,
    usage: "navtex slots <STATION> <MOMENT>",
    about: "Print when the station's next slot begins",
    short: None,
    long: SLOTS_HELP,
    example: SLOTS_EXAMPLE,
};

const CHECK_HELP: &str = "Print the messages of an air file that is exactly an emission.

An air file is a text of what is on the air: lines of B with elements, 1 or 0
each, and others that decode --help lists.

Reads an air file of at most 1048576 bytes from standard input. The elements of
its lines of B, joined, must be those that send writes for a list of messages,
and no others. A word of wrong weight, a word that its second sending doesn't
repeat and all else that send doesn't write are faults.

Writes the station and the messages to standard output, once all was found
right: the line station, a space and the station's letter, and then the message
file that send reads.";

const CHECK_EXAMPLE: &str = "Example:
  $ printf '#A01\\nTEST\\n;\\n' | navtex send E 1735689600 | navtex check
  station E
  #A01
  TEST
  ;";

const CHECK: Row = Row {
    name: "check",
    takes: Takes::Nothing,
    usage: "navtex check < x.air",
    about: "Print the messages of an air file that is exactly an emission",
    short: Some(AIR_FILE),
    long: CHECK_HELP,
    example: CHECK_EXAMPLE,
};

const DAMAGE_HELP: &str = "Copy an air file with some of its words damaged.

An air file is a text of what is on the air: lines of B with elements, 1 or 0
each, and others that decode --help lists.

Reads an air file of at most 268435456 bytes from standard input and writes it
to standard output while it reads, line by line. Word 0 is the first seven
elements of the lines of B, joined, word 1 the next seven, and so on. Of the
words from FROM on, COUNT of them, those that KIND names get their first element
inverted: dx names the words of even number, rx those of odd number, and all
every word. A good word, with four B, is then a damaged one. All else is copied
as it is, and the same command on the output gives the file back.";

const DAMAGE_EXAMPLE: &str = "Example, which inverts the first element of the word 2:
  $ printf 'B 011001111110000110011\\n' | navtex damage dx 1 2
  B 011001111110001110011";

const DAMAGE: Row = Row {
    name: "damage",
    takes: Takes::Range,
    usage: "navtex damage <KIND> <FROM> <COUNT> < x.air",
    about: "Copy an air file with some of its words damaged",
    short: Some(AIR_FILE),
    long: DAMAGE_HELP,
    example: DAMAGE_EXAMPLE,
};

const DECODE_HELP: &str = "Print the text of an air file.

An air file is a text of what is on the air.

Reads an air file of at most 1048576 bytes from standard input. Its lines, each
ended by a line feed, are:
  B 0110011     elements in the order of sending, 1 to 512 of them: 1 is B, 0
                is Y
  T 1735692000  the moment from here on, in seconds since 1970-01-01 00:00:00
                UTC
  RS E          refuse station E; AS E accepts it, RJ C and AJ C do so for
                subject C
A line that ends in CR and LF is not understood: tr -d '\\r' takes the CR away.
The elements of the B lines, joined, are the words of one emission from its
first word on, seven elements each. The other lines are checked and skipped.

Writes the text to standard output and nothing else, once all was read. A
character is sent in two words. Where one of them is damaged, with other than
four B, the other one counts; where neither can be relied on, the character is
an asterisk.";

const DECODE_EXAMPLE: &str = "Example, the letter A as encode sends it, here in three lines:
  $ cat a.air
  B 01100111111000011001111110000110011
  B 11110000110011111100011100011111000
  B 11110001111000111100011100011111000
  $ navtex decode < a.air
  A";

const DECODE: Row = Row {
    name: "decode",
    takes: Takes::Nothing,
    usage: "navtex decode < x.air",
    about: "Print the text of an air file",
    short: Some(AIR_FILE),
    long: DECODE_HELP,
    example: DECODE_EXAMPLE,
};

const ENCODE_HELP: &str = "Write a text as an air file.

An air file is a text of what is on the air: here lines of B with elements, 1 or
0 each.

Reads a text of at most 1048576 bytes from standard input: the letters A to Z,
the digits, space, newline and -?:().,'=+/

Writes an air file to standard output: lines of B, a space and up to 490
elements in the order of sending, 1 for B and 0 for Y, each ended by a line
feed. They are the elements of four phasing positions, the text from the letter
shift, and three end positions. Of a long text they may be more than the 1048576
bytes that decode takes.";

const ENCODE_EXAMPLE: &str =
    "Example, of which the first 60 columns are shown; decode prints it as A again:
  $ printf A | navtex encode | cut -c1-60
  B 0110011111100001100111111000011001111110000110011111100011";

const ENCODE: Row = Row {
    name: "encode",
    takes: Takes::Nothing,
    usage: "navtex encode < x.txt",
    about: "Write a text as an air file",
    short: Some(AIR_FILE),
    long: ENCODE_HELP,
    example: ENCODE_EXAMPLE,
};

const SHOW_HELP: &str = "Print the words of an air file, one line for each.

An air file is a text of what is on the air: lines of B with elements, 1 or 0
each, and others that decode --help lists.

Reads an air file of at most 1048576 bytes from standard input: the elements of
its lines of B, joined, are words of seven elements each.

Writes one line for each word to standard output, once all was read. It has the
slot, from 0; DX for an even slot and RX for an odd one; the number in
hexadecimal, with the element that is sent first in the least place; and the
name. This is what code prints as the letter of the word, or wrong where the
number of its elements B is not four.";

const SHOW_EXAMPLE: &str = "Example, of which the first two lines and the ninth are shown:
  $ printf A | navtex encode | navtex show | sed -n '1,2p;9p'
  0 DX 66 P2
  1 RX 0F P1
  8 DX 47 A";

const SHOW: Row = Row {
    name: "show",
    takes: Takes::Nothing,
    usage: "navtex show < x.air",
    about: "Print the words of an air file",
    short: Some(AIR_FILE),
    long: SHOW_HELP,
    example: SHOW_EXAMPLE,
};

const CODE_HELP: &str = "Print the table of the code.

Reads nothing, and writes one line for each of the 35 words. Its four fields,
with a space between them, are:
  the number     two hexadecimal digits; the element that is sent first has the
                 least place
  the elements   seven letters B or Y, in the order of sending
  the letter     what the word prints in the letter shift
  the figure     what the word prints in the figure shift
One character is printed as it stands. CR, LF, LTRS, FIGS, SPACE, BLANK, P1,
BETA and P2 are names of signals, of which LF prints a newline and SPACE a
space; none means that nothing is printed.";

const CODE_EXAMPLE: &str = "Example, the first and the fourth line:
  $ navtex code | sed -n '1p;4p'
  47 BBBYYYB A -
  53 BBYYBYB D none";

const CODE: Row = Row {
    name: "code",
    takes: Takes::Nothing,
    usage: "navtex code",
    about: "Print the table of the code",
    short: None,
    long: CODE_HELP,
    example: CODE_EXAMPLE,
};

const PROGRAM_HELP: &str =
    "A NAVTEX broadcast station and receiver, for the elements of a signal and not
for its sound.

An air file is a text of what is on the air: lines of B with elements, the ones
and zeros of the two tones, and lines of T with the time. A log is what a
receiver prints of it: an entry for each message.";

const STATUS_HELP: &str =
    "A command reads standard input and writes standard output; code and slots read
nothing. navtex help COMMAND says what a command reads and writes, as --help
after it does. A fault is one line on standard error; where words are not
understood, it may be a text of several lines.

navtex-elements makes an air file of sound, and navtex-tones sound of an air
file. navtex-watch keeps a sound card and a watch going, as a script or as a
service. Their man pages are navtex-elements(1), navtex-tones(1) and
navtex-watch(8), beside navtex(1). Examples lie in share/doc/navtex/examples,
below /usr or /usr/local.

Example:
  $ printf '#A01\\nTEST\\n;\\n' | navtex send E 1735689600 | navtex listen
  [EA01 2025-01-01 00:40:00 full 0/5]
  TEST

Exit status:
  0   success, or help, or the version
  1   a device failed, or memory ran out
  2   a bad file, line or value
  64  words that are not understood";

/// The commands of the program, in the order in which help lists them.
const COMMANDS: [Row; 14] = [
    LISTEN, WATCH, LOG, SEND, RESUME, SAVE, LOCKS, SLOTS, CHECK, DAMAGE, DECODE, ENCODE, SHOW, CODE,
];

/// The command with a value that is any text.
fn with_text<'a>(
    alloc: Global,
    command: Command<'a>,
    name: &'a str,
    help: &'a str,
) -> Result<Command<'a>, AllocError>
    ensures { IfOk result (AddsRule (text_rule name.entry.now) command.entry) }
{
    command.arg(Arg::new(alloc, name).required(true).help(help))
}

/// The command with a value that is a whole number up to the most.
fn with_number<'a>(
    alloc: Global,
    command: Command<'a>,
    name: &'a str,
    most: u64,
    help: &'a str,
) -> Result<Command<'a>, AllocError>
    ensures { IfOk result (AddsRule (number_rule name.entry.now most) command.entry) }
{
    command.arg(
        Arg::new(alloc, name)
            .required(true)
            .value_parser(ValueParser::unsigned(0, most))
            .help(help),
    )
}

/// A command that takes the flag `--combine`.
fn sendings_command<'a>(alloc: Global, name: &'a str) -> Result<Command<'a>, AllocError>
    ensures { IfOk result (IsBuiltAs (sendings_tree name.entry.now)) }
{
    with_flag(alloc, Command::new(alloc, name), "combine", COMBINE_HELP)
}

/// A command that takes a station and a moment.
fn slot_command<'a>(alloc: Global, name: &'a str) -> Result<Command<'a>, AllocError>
    ensures { IfOk result (IsBuiltAs (slot_tree name.entry.now)) }
{
    let command = with_text(
        alloc,
        Command::new(alloc, name),
        "STATION",
        "The station, one letter A to Z",
    )?;
    with_text(
        alloc,
        command,
        "MOMENT",
        "Whole seconds since 1970, 0 to 32503679999: $(date +%s) gives now",
    )
}

/// A command that takes the flag `--combine`, a file and a moment.
fn file_command<'a>(alloc: Global, name: &'a str) -> Result<Command<'a>, AllocError>
    ensures { IfOk result (IsBuiltAs (file_tree name.entry.now)) }
{
    let with_combine = sendings_command(alloc, name)?;
    let with_file = with_text(
        alloc,
        with_combine,
        "FILE",
        "The log: a regular file, which is made where it isn't there",
    )?;
    with_text(
        alloc,
        with_file,
        "MOMENT",
        "Its start: seconds since 1970, 0 to 32503679999: $(date +%s) is now",
    )
}

/// A command that takes a kind of damage and a range of words.
fn range_command<'a>(alloc: Global, name: &'a str) -> Result<Command<'a>, AllocError>
    ensures { IfOk result (IsBuiltAs (damage_tree name.entry.now)) }
{
    let with_kind = with_text(
        alloc,
        Command::new(alloc, name),
        "KIND",
        "The words that are meant: dx, rx or all",
    )?;
    let with_first = with_number(
        alloc,
        with_kind,
        "FROM",
        0xFFFF_FFFF,
        "The first word of the range, 0 to 4294967295",
    )?;
    with_number(
        alloc,
        with_first,
        "COUNT",
        0xFFFF_FFFF,
        "How many words the range has, 0 to 4294967295",
    )
}

impl Row {
    /// The command of this row, without its help.
    fn bare_command<'a>(&self, alloc: Global) -> Result<Command<'a>, AllocError>
        ensures { IfOk result (IsBuiltAs (row_tree self.now)) }
    {
        match self.takes {
            Takes::Nothing => Ok(Command::new(alloc, self.name)),
            Takes::Sendings => sendings_command(alloc, self.name),
            Takes::Slot => slot_command(alloc, self.name),
            Takes::File => file_command(alloc, self.name),
            Takes::Range => range_command(alloc, self.name),
            Takes::Query => log_command(alloc, self.name),
        }
    }

    /// The command with this row's help.
    fn described<'a>(&self, command: Command<'a>) -> Command<'a>
        ensures { IsReadAs command.entry result }
    {
        let described = command
            .override_usage(self.usage)
            .about(self.about)
            .long_about(self.long)
            .after_long_help(self.example);
        match self.short {
            Some(short) => described.after_help(short),
            None => described,
        }
    }
}

/// The program with the commands of these rows.
fn program_of<'a>(alloc: Global, rows: &[Row]) -> Result<Command<'a>, AllocError>
    ensures { IfOk result (IsBuiltAs (with_rows bare_tree rows.now)) }
{
    let mut program = Command::new(alloc, "navtex")
        .about(PROGRAM_HELP)
        .version(VERSION)
        .after_help(STATUS_HELP)
        .disable_help_subcommand(true)
        .subcommand_required(true)
        .bin_name("navtex")?;
    for row in rows {
        let command = row.bare_command(alloc)?;
        program = program.subcommand(row.described(command))?;
    }
    Ok(program)
}

/// The command of the program, with all its commands.
pub fn navtex_command<'a>(alloc: Global) -> Result<Command<'a>, AllocError>
    ensures { IfOk result (IsBuiltAs navtex) }
{
    program_of(alloc, &COMMANDS)
}
