//! Trials of the public calls of the crates below on worked examples: words and signals, locks,
//! messages in a text, memories, states, the station, the receiver, the text of locks, and kept
//! logs.
//!
//! There are tests here and nothing else. A crate with tests is proved a second time with them, so
//! those crates have none.
#![tactic(auto)]

#[cfg(test)]
mod tests;
