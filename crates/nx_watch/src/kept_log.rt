//! The kept log of a watch: what is put into it, and what it remembers.

pub(crate) mod channel_memory;
pub(crate) mod cut;
pub(crate) mod keeper;
pub(crate) mod log_grammar;
pub(crate) mod log_memory;
pub(crate) mod log_opening;
pub(crate) mod start;
