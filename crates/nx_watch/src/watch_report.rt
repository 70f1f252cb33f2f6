//! What a watch read and put.

/// What a watch read and put.
#[derive(Clone, Copy, Debug, Drop, PartialEq, Eq)]
pub struct WatchReport {
    /// How many lines there were, a cut last one too.
    pub lines: u64,
    /// How many of them had no effect.
    pub without_effect: u64,
    /// The first of these, where lines count from 1.
    pub first_without_effect: Option<u64>,
    /// How many entries were put into the kept log, at most the greatest u64.
    pub put: u64,
}
