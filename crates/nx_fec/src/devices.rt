//! Readers and writers: calls that are counted, reads piece by piece, and writes gathered.

pub(crate) mod counting;
pub(crate) mod input;
pub(crate) mod pieces;
pub(crate) mod write_batch;
pub(crate) mod writing;
