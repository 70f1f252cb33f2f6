//! The law of a receiver that is left on: what the kept log holds over a chain of watches, of which
//! each may end at any moment. There are laws here, and no code.
#![tactic(auto)]

pub mod bounds;
pub mod laws;
pub mod one_call;
pub mod places;
pub mod reading;
pub mod shortening;
pub mod together;
pub mod writing;
