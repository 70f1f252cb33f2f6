//! What a receiver keeps while it is switched off, and its text.

pub(crate) mod saved;
pub(crate) mod saved_line;
pub(crate) mod saved_set;
pub(crate) mod state_reader;
pub(crate) mod state_text;
