//! The calls of a station and a receiver, for C and what calls C. Those over whole files are calls
//! of the crates below, with a reader over a slice and a writer into memory. A receiver that is
//! kept between calls is that of `nx_handle` in memory that is allocated, behind a handle of one
//! pointer, and hears elements as they come. It takes the sendings of a message together where it
//! is opened with families.
#![tactic(auto)]

mod codes;
mod faults;
mod log_entry;
mod receiver;
mod receiving;
mod station;
mod told;

pub use receiver::handle::NxReceiver;
pub use told::{Place, Told};
