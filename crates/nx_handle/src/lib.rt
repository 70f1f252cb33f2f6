//! A receiver between two calls, without its handle: the places of its channels, and what each call
//! does with them; and the call that reads an entry of its log. Nothing here takes a heap. The
//! static libraries have the calls for C over this crate, and a handle for the places: `nx_live` in
//! room that its caller lends, `nx_c` in a block that it allocates.
//!
//! A receiver has one to three channels, and a place for each of them. Each call is written once,
//! for places of any kind: in plain ones each copy is judged alone, and in combining ones several
//! sendings of a message are taken together, with families in room that their owner gives.
#![tactic(auto)]

mod caller_room;
mod closing;
mod combining_place;
mod counting;
mod entries;
mod family_room;
mod hearing;
mod kept_place;
pub mod laws;
mod opening;
mod pieces;
mod places;
mod plain_place;
mod saving;
mod selecting;
mod status;

pub use caller_room::{after_copying_out, copy_out, copy_whole_out};
pub use closing::{abandon, close};
pub use combining_place::CombiningPlace;
pub use counting::sendings;
pub use entries::{LogEntry, log_entry};
pub use family_room::FamilyRoom;
pub use hearing::hear;
pub use kept_place::KeptPlace;
pub use opening::{open, set_moment};
pub use places::are_closed;
pub use plain_place::PlainPlace;
pub use saving::{open_from, save};
pub use selecting::select;
pub use status::Status;
