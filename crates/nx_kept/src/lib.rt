//! A kept log: records in a file that says at any moment which of them it keeps, also after a
//! crash in the middle of a write. It is given for any grammar of records and any disk.
#![tactic(auto)]

mod disk;
mod fault;
mod grammar;
pub mod laws;
mod log;
mod opening;
mod scan;
mod taker;

pub use disk::{DiskFailed, DiskFile};
pub use fault::OpenFault;
pub use grammar::{Grammar, RecordStart};
pub use log::KeptLog;
pub use taker::RecordTaker;
