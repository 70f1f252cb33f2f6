//! In which form the entries of a log are written.

/// In which form the entries of a log are written.
#[derive(Clone, Copy, Debug, PartialEq, Eq)]
pub enum Form {
    /// As they stand in a log.
    Log,
    /// Each as one line of JSON, as `json_line` gives it.
    Json,
    /// As a kept log: each behind an open gate, and a closed gate behind the last one.
    Kept,
}
