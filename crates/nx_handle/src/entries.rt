//! An entry of a log, as C has it, and reading one.

ghost use Rattle.std.specs.Prelude.{◌≡◌};
ghost use Rattle.nx_handle.specs.CallerRoom.{room};
ghost use Rattle.nx_handle.specs.LogEntry.{AnswersEntry, entry_seen, how_number};

use crate::caller_room::{copy_out, copy_whole_out};
use crate::status::Status;
use nx_envelope::How;
use nx_log::{EntryView, entry_at};

/// What an entry of a log says.
#[repr(C)]
#[derive(Clone, Copy, Debug, Drop, PartialEq, Eq)]
pub struct LogEntry {
    /// The moment of its header, in whole seconds since 1970-01-01 00:00:00 UTC.
    pub moment: u64,
    /// How many bytes the entry has.
    pub length: usize,
    /// Its errors, the asterisks in its text.
    pub errors: u16,
    /// The channel on which it was heard, 0 to 2.
    pub channel: u8,
    /// The station, B1.
    pub station: u8,
    /// The subject, B2.
    pub subject: u8,
    /// The number, from 0 to 99.
    pub number: u8,
    /// How it ended: 0 full, 1 cut, 2 long.
    pub how: u8,
}

/// Reads the entry of a log with which the bytes begin, whatever stands behind it, as
/// `nx_log::entry_at` does: tells what it says, and copies its text into the caller's room.
///
/// `NoEntry` where they begin with none; `NoRoom` where the text is longer than the room.
pub fn log_entry(bytes: &[u8], entry: &mut LogEntry, text: &mut [u8], written: &mut usize) -> u32
    ensures { AnswersEntry bytes.now entry.old entry.new
        (room text.old text.new written.new) result }
{
    let Some(view) = entry_at(bytes) else {
        copy_out(&[], text, written);
        return Status::NoEntry.number();
    };
    *entry = told_of(&view);
    copy_whole_out(view.text, text, written)
}

/// The entry that is seen, as C has it.
fn told_of(view: &EntryView) -> LogEntry
    ensures { result ≡ entry_seen view.now }
{
    LogEntry {
        moment: view.head.moment,
        length: view.len,
        errors: view.head.errors,
        channel: view.head.channel.number(),
        station: view.head.identity.b1.byte,
        subject: view.head.identity.b2.byte,
        number: view.head.identity.number,
        how: number_of_how(view.head.how),
    }
}

/// The number of how a copy ended.
fn number_of_how(how: How) -> u8
    ensures { result ≡ how_number how }
{
    match how {
        How::Full => 0,
        How::Cut => 1,
        How::Long => 2,
    }
}
