//! An entry of a log as it is read back, and what stands before it and behind it.

pub(crate) mod entry;
pub(crate) mod head;
pub(crate) mod kept_reader;
pub(crate) mod lack;
pub(crate) mod moment;
pub(crate) mod pieces;
pub(crate) mod reader;
pub(crate) mod start;
pub(crate) mod tail;
