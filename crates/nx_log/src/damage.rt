//! What a run over a log does with bytes that are not of one.

/// What a run over a log does with bytes that are not of one.
#[derive(Clone, Copy, Debug, Drop, PartialEq, Eq)]
pub enum Damaged {
    /// The run ends with them.
    Refused,
    /// They are passed over up to the next bracket, where the run goes on, and told.
    PassedOver,
}
