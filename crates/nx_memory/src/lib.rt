//! What keeps a receiver from printing each warning again: a selection and a memory. The selection
//! of stations and subjects can't refuse what is vital (ITU-R M.540). The memory has the last 200
//! identities entered, each for 66 hours (this profile).
#![tactic(auto)]

pub mod laws;
mod letter_set;
mod memories;
mod selection;
mod state;

pub use letter_set::LetterSet;
pub use memories::entry::MemoryEntry;
pub use memories::listed::Listed;
pub use memories::plain_recall::PlainRecall;
pub use memories::recall::{CAPACITY, LIFETIME, Recall, is_recent};
pub use memories::renewing::Renewing;
pub use memories::renewing_recall::RenewingRecall;
pub use memories::ring_recall::RingRecall;
pub use selection::{Selection, Vital, is_vital_subject};
pub use state::saved::{Saved, is_last_known};
pub use state::saved_line::MAX_STATE_LINE;
pub use state::saved_set::SavedSet;
pub use state::state_reader::{StateReader, StateStep};
pub use state::state_text::state_line;
