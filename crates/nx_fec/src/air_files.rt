//! An air file: its lines and channels, their elements packed, and what runs over its lines share.

pub(crate) mod bounded_bytes;
pub(crate) mod channel;
pub(crate) mod line_feeds;
pub(crate) mod line_reader;
pub(crate) mod line_runs;
pub(crate) mod lines;
pub(crate) mod packed_elements;
pub(crate) mod reading;
pub(crate) mod scanner;
