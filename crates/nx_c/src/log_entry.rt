//! The call that reads an entry of a log.

ghost use Rattle.nx_handle.specs.CallerRoom.{room};
ghost use Rattle.nx_handle.specs.LogEntry.{AnswersEntry};

use nx_handle::LogEntry;

/// Reads the entry of a log with which the bytes begin, whatever stands behind it: tells what it
/// says, and puts its text into the caller's room.
///
/// `NoEntry` where they begin with none; `NoRoom` where the text is longer than the room.
#[unsafe(no_mangle)]
pub extern "C" fn nx_log_entry(
    bytes: &[u8],
    entry: &mut LogEntry,
    text: &mut [u8],
    written: &mut usize,
) -> u32
    ensures { AnswersEntry bytes.now entry.old entry.new
        (room text.old text.new written.new) result }
{
    nx_handle::log_entry(bytes, entry, text, written)
}
