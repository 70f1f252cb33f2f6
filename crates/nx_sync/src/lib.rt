//! The synchroniser of a NAVTEX receiver: it hears one element after the other, finds the limits of
//! the words and their roles from the phasing, and says when a lock is over.
#![tactic(auto)]

mod ahead;
pub mod laws;
mod mark_bits;
mod packed_hunt;
mod phasing;
mod step;
mod synchroniser;
mod track;
mod windows;
mod windows_after;

pub use step::{Change, Role, Step};
pub use synchroniser::Synchroniser;
pub use windows::first_lock;
