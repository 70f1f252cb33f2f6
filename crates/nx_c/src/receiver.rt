//! A receiver between calls: its handle, and the calls that take it.

pub(crate) mod calls;
pub(crate) mod family_block;
pub(crate) mod handle;
pub(crate) mod loose;
pub(crate) mod open_receiver;
pub(crate) mod three_places;
