//! Why a state was not read.

use thiserror::Error;

/// Why the text of a state was not read. Lines count from 1.
#[derive(Clone, Copy, Debug, Drop, PartialEq, Eq, Error)]
pub enum StateFault {
    /// A read failed.
    #[error("read failed")]
    Read,
    /// The line can't stand there, or has a 17th byte before its end.
    #[error("state line {line} is not understood")]
    StateLine { line: u64 },
    /// The input ends before the end of the line.
    #[error("state has no end at line {line}")]
    StateCut { line: u64 },
}
