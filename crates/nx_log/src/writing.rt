//! Entries as a run over a log writes them.

pub(crate) mod form;
pub(crate) mod json_text;
pub(crate) mod kept_text;
pub(crate) mod last_entries;
pub(crate) mod notices;
pub(crate) mod output;
pub(crate) mod places;
