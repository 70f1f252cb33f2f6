//! What stands where an entry is to begin.

ghost use Rattle.nx_log.specs.Starts.{StartsAs};

use crate::entries::entry::read_entry;
use crate::entries::lack::Lack;

/// What stands where an entry is to begin.
#[derive(Clone, Copy, Debug, Drop, PartialEq, Eq)]
pub enum EntryStart {
    /// The first so many bytes are a logged entry.
    Whole(usize),
    /// All the bytes are the beginning of one, and more have to come.
    Unfinished,
    /// So many bytes are the beginning of one, and with the next one they aren't, whatever comes
    /// behind it.
    Broken(usize),
}

/// What the bytes are that stand where an entry is to begin.
pub fn entry_start(bytes: &[u8]) -> EntryStart
    ensures { StartsAs bytes.now result }
{
    match read_entry(bytes) {
        Ok(view) => EntryStart::Whole(view.len),
        Err(Lack::Unfinished) => EntryStart::Unfinished,
        Err(Lack::Broken(left)) => EntryStart::Broken(bytes.len() - left.len()),
    }
}
