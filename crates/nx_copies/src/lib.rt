//! Copies of messages: found in the text of a lock, judged, and written as entries of the log. What
//! is printed is defined here.
#![tactic(auto)]

mod copy_taker;
mod entry;
mod judging;
mod lock_printer;
mod lock_reader;
mod word_loop;
mod writing;

pub use copy_taker::{CopyTag, CopyTaker, Over};
pub use entry::{Entry, EntryHead};
pub use judging::{is_good_share, judge};
pub use lock_printer::ReadPosition;
pub use lock_reader::LockReader;
pub use word_loop::{WordTaker, hear_elements};
pub use writing::{
    MAX_ENTRY, entry_bytes, entry_end, entry_text, entry_text_on, give_entry, spell_entry,
};
