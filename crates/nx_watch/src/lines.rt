//! The lines of any bytes: which of them act, and what is told of the others.

pub(crate) mod any_lines;
pub(crate) mod any_scanner;
pub(crate) mod line_effects;
pub(crate) mod no_effect;
pub(crate) mod refusal;
pub(crate) mod telling;
