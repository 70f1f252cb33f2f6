//! The file of a kept log: a disk file over calls without a contract, the file of the system that
//! makes them, and a file in memory that a crash may tear, for trials.
#![tactic(auto)]

mod file;
mod history;
mod log_file;
mod noted;
mod torn;

pub use file::{FileFault, FileOpenFault};
pub use history::LeftBefore;
pub use log_file::{LogFile, open};
pub use noted::{Noted, RawFile};
pub use torn::{Tear, TornFile};
