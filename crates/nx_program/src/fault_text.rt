//! What the fault lines of the program say of a call that failed, and of a log.

ghost use Rattle.std.specs.Prelude.{◌≡◌, ◌+◌, ◌≤◌, ◌++◌, codes, decimal, length};
ghost use Rattle.nx_program.specs.FaultText as spec;

use crate::fault::CallFault;
use arrayvec::ArrayVec;
use itoa::Buffer;
use nx_disk::FileOpenFault;
use nx_envelope::{Letter, MessageFault};
use nx_fec::{RunFault, append};
use nx_log::LogFault;
use nx_receiver::{ListenFault, MomentFault, ResumeFault, StateFault};
use nx_station::{CheckFault, DamageFault, EmissionFault, SendFault, SendRunFault};

/// More bytes than a fault line has. The longest text of a fault has 101.
const LINE_BYTES: usize = 176;

/// The text of a fault, or its line.
pub(crate) type FaultText = ArrayVec<u8, LINE_BYTES>;

const READ_FAILED: &[u8] = b"read failed";

const OUT_OF_MEMORY: &[u8] = b"out of memory";

const FILE_TOO_LONG: &[u8] = b"file longer than 1048576 bytes";

const AIR_FILE_TOO_LONG: &[u8] = b"air file longer than 268435456 bytes";

const NO_SLOT: &[u8] = b"no slot";

/// A text alone.
fn text_of(text: &[u8]) -> FaultText
    requires { length text.now ≤ 60 }
    ensures text { result.items ≡ text.now }
    ensures short { length result.items ≤ 60 }
{
    let mut made = ArrayVec::new();
    append(&mut made, text);
    made
}

/// A number between two texts.
fn with_number(before: &[u8], number: u64, behind: &[u8]) -> FaultText
    requires { length before.now + length behind.now ≤ 100 }
    ensures text { result.items ≡ before.now ++ (decimal number ++ behind.now) }
    ensures short { length result.items ≤ length before.now + length behind.now + 20 }
{
    let mut made = ArrayVec::new();
    append(&mut made, before);
    append(&mut made, Buffer::new().format(number).as_bytes());
    append(&mut made, behind);
    made
}

/// A number behind a text.
fn ending_in(before: &[u8], number: u64) -> FaultText
    requires { length before.now ≤ 100 }
    ensures text { result.items ≡ before.now ++ decimal number }
    ensures short { length result.items ≤ length before.now + 20 }
{
    let mut made = ArrayVec::new();
    append(&mut made, before);
    append(&mut made, Buffer::new().format(number).as_bytes());
    made
}

/// What is said of the line of this number.
fn of_line(line: u64, behind: &[u8]) -> FaultText
    requires { length behind.now ≤ 80 }
    ensures text { result.items ≡ spec.of_line line behind.now }
    ensures short { length result.items ≤ length behind.now + 25 }
{
    with_number(b"line ", line, behind)
}

/// The line of this number, and why it isn't taken.
fn with_reason(line: u64, reason: &[u8]) -> FaultText
    requires { length reason.now ≤ 70 }
    ensures text { result.items ≡ spec.of_line line (codes ": " ++ reason.now) }
    ensures short { length result.items ≤ 100 }
{
    let mut behind = text_of(b": ");
    append(&mut behind, reason);
    of_line(line, &behind)
}

/// What is said of the message that begins at the line of this number.
fn of_message(line: u64, behind: &[u8]) -> FaultText
    requires { length behind.now ≤ 80 }
    ensures text { result.items ≡ spec.of_message line behind.now }
    ensures short { length result.items ≤ length behind.now + 36 }
{
    with_number(b"message at line ", line, behind)
}

fn write_failed(written: u64) -> FaultText
    ensures text { result.items ≡ spec.write_failed written }
    ensures short { length result.items ≤ 60 }
{
    with_number(b"write failed after ", written, b" bytes")
}

fn no_whole_words(bits: u64) -> FaultText
    ensures text { result.items ≡ spec.no_whole_words bits }
    ensures short { length result.items ≤ 60 }
{
    with_number(b"", bits, b" elements are no whole words")
}

fn line_long(line: u64) -> FaultText
    ensures text { result.items ≡ spec.line_long line }
    ensures short { length result.items ≤ 60 }
{
    of_line(line, b" is longer than 514 bytes")
}

fn line_cut(line: u64) -> FaultText
    ensures text { result.items ≡ spec.line_cut line }
    ensures short { length result.items ≤ 60 }
{
    of_line(line, b" has no end")
}

fn bad_line(line: u64) -> FaultText
    ensures text { result.items ≡ spec.bad_line line }
    ensures short { length result.items ≤ 60 }
{
    of_line(line, b" is not understood")
}

fn run_text(why: &RunFault) -> FaultText
    ensures text { result.items ≡ spec.run_text why.now }
    ensures short { length result.items ≤ 60 }
{
    match why {
        RunFault::Read => text_of(READ_FAILED),
        RunFault::FileTooLong => text_of(FILE_TOO_LONG),
        RunFault::LineLong { line } => line_long(*line),
        RunFault::LineCut { line } => line_cut(*line),
        RunFault::BadLine { line } => bad_line(*line),
        RunFault::Ragged { bits } => no_whole_words(*bits),
        RunFault::NoSuchCharacter { at } => ending_in(b"no signal for the character at ", *at),
        RunFault::Write { written } => write_failed(*written),
        RunFault::Memory(_) => text_of(OUT_OF_MEMORY),
    }
}

/// That a line of a message has a character that has no signal.
fn no_signal(line: u64, at: u64) -> FaultText
    ensures text { result.items ≡ spec.of_line line (codes " has no signal at " ++ decimal at) }
    ensures short { length result.items ≤ 70 }
{
    let behind = ending_in(b" has no signal at ", at);
    of_line(line, &behind)
}

fn message_text(why: &MessageFault) -> FaultText
    ensures text { result.items ≡ spec.message_text why.now }
    ensures short { length result.items ≤ 70 }
{
    match why {
        MessageFault::LongLine { line } => of_line(*line, b" is too long"),
        MessageFault::BadCharacter { line, at } => no_signal(*line, *at),
        MessageFault::Reserved { line } => of_line(*line, b" has a reserved word"),
        MessageFault::LongText => text_of(b"text is too long"),
        MessageFault::Memory(_) => text_of(OUT_OF_MEMORY),
    }
}

/// That a slot has no room for so many positions.
fn slot_full(positions: u128) -> FaultText
    ensures text { result.items ≡ decimal positions ++ codes " positions are too many for a slot" }
    ensures short { length result.items ≤ 80 }
{
    let mut made = ArrayVec::new();
    append(&mut made, Buffer::new().format(positions).as_bytes());
    append(&mut made, b" positions are too many for a slot");
    made
}

fn sending_text(why: &SendFault) -> FaultText
    ensures text { result.items ≡ spec.sending_text why.now }
    ensures short { length result.items ≤ 80 }
{
    match why {
        SendFault::NoMessages => text_of(b"no messages"),
        SendFault::MixedStations { at } => with_number(
            b"message at ",
            *at,
            b" is of another station",
        ),
        SendFault::NoSlot => text_of(NO_SLOT),
        SendFault::SlotFull { positions } => slot_full(*positions),
        SendFault::Memory(_) => text_of(OUT_OF_MEMORY),
    }
}

/// That the lines of a message are refused, and why.
fn message_refused(line: u64, why: &MessageFault) -> FaultText
    ensures text { result.items ≡ spec.of_message line (codes ": " ++ spec.message_text why.now) }
    ensures short { length result.items ≤ 120 }
{
    let mut behind = text_of(b": ");
    append(&mut behind, &message_text(why));
    of_message(line, &behind)
}

fn send_text(why: &SendRunFault) -> FaultText
    ensures text { result.items ≡ spec.send_text why.now }
    ensures short { length result.items ≤ 120 }
{
    match why {
        SendRunFault::Read => text_of(READ_FAILED),
        SendRunFault::FileTooLong => text_of(FILE_TOO_LONG),
        SendRunFault::BadLine { line } => bad_line(*line),
        SendRunFault::Text { line, fault } => message_refused(*line, fault),
        SendRunFault::LineCut { line } => line_cut(*line),
        SendRunFault::Open { line } => of_message(*line, b" is not ended"),
        SendRunFault::Send(why) => sending_text(why),
        SendRunFault::Write { written } => write_failed(*written),
        SendRunFault::Memory(_) => text_of(OUT_OF_MEMORY),
    }
}

fn emission_text(why: &EmissionFault) -> FaultText
    ensures text { result.items ≡ spec.emission_text why.now }
    ensures short { length result.items ≤ 60 }
{
    match why {
        EmissionFault::Ragged { bits } => no_whole_words(*bits),
        EmissionFault::WrongWord { slot } => with_number(b"word ", *slot, b" has the wrong weight"),
        EmissionFault::Unpaired { position } => with_number(
            b"position ",
            *position,
            b" is unpaired",
        ),
        EmissionFault::BadEnvelope => text_of(b"not an emission of this profile"),
        EmissionFault::Memory(_) => text_of(OUT_OF_MEMORY),
    }
}

fn check_text(why: &CheckFault) -> FaultText
    ensures text { result.items ≡ spec.check_text why.now }
    ensures short { length result.items ≤ 60 }
{
    match why {
        CheckFault::Run(why) => run_text(why),
        CheckFault::Emission(why) => emission_text(why),
    }
}

fn damage_text(why: &DamageFault) -> FaultText
    ensures text { result.items ≡ spec.damage_text why.now }
    ensures short { length result.items ≤ 60 }
{
    match why {
        DamageFault::Read => text_of(READ_FAILED),
        DamageFault::AirTooLong => text_of(AIR_FILE_TOO_LONG),
        DamageFault::LineLong { line } => line_long(*line),
        DamageFault::LineCut { line } => line_cut(*line),
        DamageFault::BadLine { line } => bad_line(*line),
        DamageFault::Write { written } => write_failed(*written),
    }
}

/// That a moment goes back.
fn moment_back(last: u64, given: u64) -> FaultText
    ensures text { result.items
        ≡ codes "moment " ++ (decimal given ++ (codes " is before " ++ decimal last)) }
    ensures short { length result.items ≤ 70 }
{
    let behind = ending_in(b" is before ", last);
    with_number(b"moment ", given, &behind)
}

fn moment_text(why: &MomentFault) -> FaultText
    ensures text { result.items ≡ spec.moment_text why.now }
    ensures short { length result.items ≤ 70 }
{
    match why {
        MomentFault::Range { given } => with_number(b"moment ", *given, b" is out of range"),
        MomentFault::Back { last, given } => moment_back(*last, *given),
    }
}

/// That the moment of a line isn't taken, and why.
fn moment_refused(line: u64, why: &MomentFault) -> FaultText
    ensures text { result.items ≡ spec.of_line line (codes ": " ++ spec.moment_text why.now) }
    ensures short { length result.items ≤ 100 }
{
    with_reason(line, &moment_text(why))
}

fn vital_text(subject: Letter) -> FaultText
    ensures text { result.items ≡ spec.vital_text subject }
    ensures short { length result.items ≤ 60 }
{
    let mut made = text_of(b"subject ");
    append(&mut made, &[subject.byte()]);
    append(&mut made, b" can't be refused");
    made
}

/// That a line refuses a subject that can't be refused.
fn vital_refused(line: u64, subject: Letter) -> FaultText
    ensures text { result.items ≡ spec.of_line line (codes ": " ++ spec.vital_text subject) }
    ensures short { length result.items ≤ 100 }
{
    with_reason(line, &vital_text(subject))
}

fn listen_text(why: &ListenFault) -> FaultText
    ensures text { result.items ≡ spec.listen_text why.now }
    ensures short { length result.items ≤ 100 }
{
    match why {
        ListenFault::Read => text_of(READ_FAILED),
        ListenFault::AirTooLong => text_of(AIR_FILE_TOO_LONG),
        ListenFault::LineLong { line } => line_long(*line),
        ListenFault::LineCut { line } => line_cut(*line),
        ListenFault::BadLine { line } => bad_line(*line),
        ListenFault::NoMoment { line } => of_line(*line, b" has elements before any moment"),
        ListenFault::Moment { line, fault } => moment_refused(*line, fault),
        ListenFault::Vital { line, subject } => vital_refused(*line, *subject),
        ListenFault::Write { written } => write_failed(*written),
        ListenFault::Memory(_) => text_of(OUT_OF_MEMORY),
    }
}

fn state_text(why: &StateFault) -> FaultText
    ensures text { result.items ≡ spec.state_text why.now }
    ensures short { length result.items ≤ 60 }
{
    match why {
        StateFault::Read => text_of(READ_FAILED),
        StateFault::StateLine { line } => with_number(b"state line ", *line, b" is not understood"),
        StateFault::StateCut { line } => ending_in(b"state has no end at line ", *line),
    }
}

fn resume_text(why: &ResumeFault) -> FaultText
    ensures text { result.items ≡ spec.resume_text why.now }
    ensures short { length result.items ≤ 100 }
{
    match why {
        ResumeFault::State(why) => state_text(why),
        ResumeFault::Listen(why) => listen_text(why),
        ResumeFault::Write { written } => write_failed(*written),
    }
}

fn log_text(why: &LogFault) -> FaultText
    ensures text { result.items ≡ spec.log_text why.now }
    ensures short { length result.items ≤ 60 }
{
    match why {
        LogFault::Read => text_of(READ_FAILED),
        LogFault::Write { written } => write_failed(*written),
        LogFault::BadLog { line } => of_line(*line, b" is not of a log"),
        LogFault::Memory(_) => text_of(OUT_OF_MEMORY),
    }
}

fn call_text(why: &CallFault) -> FaultText
    ensures text { result.items ≡ spec.call_text why.now }
    ensures short { length result.items ≤ 120 }
{
    match why {
        CallFault::Run(why) => run_text(why),
        CallFault::Send(why) => send_text(why),
        CallFault::Check(why) => check_text(why),
        CallFault::Listen(why) => listen_text(why),
        CallFault::Resume(why) => resume_text(why),
        CallFault::Damage(why) => damage_text(why),
        CallFault::Log(why) => log_text(why),
        CallFault::NoSlot => text_of(NO_SLOT),
    }
}

/// The line that reports the fault of a call. It is made without memory.
pub(crate) fn call_fault_line(why: &CallFault) -> FaultText
    ensures { result.items ≡ spec.call_fault_line why.now }
{
    let mut line = text_of(b"navtex: ");
    append(&mut line, &call_text(why));
    append(&mut line, b"\n");
    line
}

/// Why the file of a log can't be opened, behind that it can't.
pub(crate) fn open_reason(why: FileOpenFault) -> &'static [u8]
    ensures { result.now ≡ spec.open_reason why }
{
    match why {
        FileOpenFault::NoFolder => b": its folder isn't there",
        FileOpenFault::NoLeave => b": there is no leave to read and write it",
        FileOpenFault::DeadLink => b": it is a link that leads nowhere",
        FileOpenFault::FolderName => b": its name is that of a folder",
        FileOpenFault::LongName => b": its name is too long",
        FileOpenFault::NoRoom => b": there is no room on the disk",
        FileOpenFault::OnlyRead => b": its disk can only be read",
        FileOpenFault::NotRegular => b": it is no regular file",
        FileOpenFault::NoLock => b": it can't be locked",
        FileOpenFault::Moved => b": it was moved while it was opened",
        FileOpenFault::FolderUnread => b": there is no leave to read its folder",
        FileOpenFault::FolderUnsynced => b": its folder can't be brought to the disk",
        FileOpenFault::Other => b"",
    }
}
