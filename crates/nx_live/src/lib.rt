//! The calls of a receiver, for C and what calls C, without a heap, and the call that reads an
//! entry of its log. The places of its channels, one to three, lie in room that the caller lends,
//! and so do the families of a receiver that takes several sendings of a message together.
#![tactic(auto)]

mod calls;
mod families;
mod handle;
mod lending;

pub use families::LentFamilies;
pub use handle::NxLive;
pub use lending::{COMBINING_ROOM, FAMILY_ROOM, ROOM, ROOM_ALIGNMENT};
