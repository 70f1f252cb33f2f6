//! Positions, each sent in two words, and what is taken of them.

pub(crate) mod aligned;
pub(crate) mod diversity;
pub(crate) mod emission;
pub(crate) mod emission_lines;
pub(crate) mod positions;
