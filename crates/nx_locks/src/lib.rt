//! The locks of an air file on channel 0 and their running text: what was heard, whether a message
//! stands in it or not.
#![tactic(auto)]

pub mod laws;
mod lock_report;
mod reader;
mod report_text;
mod report_writer;
mod taker;

pub use lock_report::{LocksReport, locks};
