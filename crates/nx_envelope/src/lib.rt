//! Identities and messages of NAVTEX (ITU-R M.540), and the copies of messages in a received text.
#![tactic(auto)]

mod digit;
mod finder;
mod found;
mod header_stage;
mod identity;
pub mod laws;
mod letter;
mod markers;
mod message;
mod moment;

pub use finder::Finder;
pub use found::{FinderStep, Found, FoundHead, How, MAX_FOUND, TextEvent};
pub use identity::Identity;
pub use letter::Letter;
pub use message::{END_MARKER, MAX_LINE, MAX_TEXT, Message, MessageFault, START_MARKER};
pub use moment::{CIVIL_LEN, LAST_MOMENT, civil};
