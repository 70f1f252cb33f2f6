//! Readers and writers, call by call: what is counted, read piece by piece, and written.

mod counting;
mod pieces;
mod writing;
