//! Where an entry stands in a kept log.

/// Where an entry stands in a kept log.
#[derive(Clone, Copy, Debug, Drop, PartialEq, Eq)]
pub struct Places {
    /// How many bytes stand before the gate before it.
    pub place: u64,
    /// How many bytes stand before the gate behind it.
    pub next: u64,
}
