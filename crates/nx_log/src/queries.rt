//! Which entries are asked for: by station and subject, and by time.

pub(crate) mod letters;
pub(crate) mod place;
pub(crate) mod query;
pub(crate) mod replacing;
pub(crate) mod time;
