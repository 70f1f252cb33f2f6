//! Why a watch ends before its input.

use thiserror::Error;

/// Why a watch ends before its input.
#[derive(Clone, Copy, Debug, Drop, PartialEq, Eq, Error)]
pub enum WatchFault {
    /// The kept log can't be read. Nothing was read of the input.
    #[error("the kept log can't be read")]
    Open,
    /// The file is no kept log. Lines count from 1, and `first` is the first byte of the file, if
    /// there is one. It isn't touched, and nothing was read of the input.
    #[error("the kept log is damaged at line {line}")]
    Damaged { line: u64, first: Option<u8> },
    /// The kept log can't be written, cut or brought to the disk.
    #[error("the kept log can't be written")]
    Disk,
    /// Memory ran out before the first read of the input. The log may have been opened.
    #[error("out of memory")]
    Memory,
    /// The input can't be read.
    #[error("the input can't be read")]
    Read,
    /// The line says a moment 66 hours or more before the last one, and so did the line before it
    /// that said one.
    #[error("the moment of line {line} is {given}, far before {last}")]
    Back { line: u64, last: u64, given: u64 },
}
