//! Runs over an air file, which listen or go on from a state, and why they end early.

pub(crate) mod listen_fault;
pub(crate) mod listening;
pub(crate) mod resume_fault;
pub(crate) mod resuming;
pub(crate) mod state;
pub(crate) mod state_fault;
