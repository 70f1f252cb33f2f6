//! What runs over the lines of an air file count.

/// What a run over the lines of an air file read and wrote.
#[derive(Clone, Copy, Debug, PartialEq, Eq)]
pub struct LinesRead {
    /// How many lines were taken.
    pub lines: u64,
    /// How many bytes were written, at most the greatest u64.
    pub written: u64,
}
