//! The log read back: its entries, what they remember, and those that a query admits.
#![tactic(auto)]

mod damage;
mod entries;
mod kept_runs;
pub mod laws;
mod log_fault;
mod log_runs;
mod noted_reader;
mod queries;
mod remembered;
mod writing;

pub use damage::Damaged;
pub use entries::entry::{EntryView, MAX_LOGGED, entry_at};
pub use entries::head::LoggedHead;
pub use entries::moment::moment_of;
pub use entries::reader::{BadLine, LogReader, Pushed, TornLine};
pub use entries::start::{EntryStart, entry_start};
pub use kept_runs::kept_run;
pub use log_fault::LogFault;
pub use log_runs::log_run;
pub use noted_reader::NotedReader;
pub use queries::letters::Letters;
pub use queries::place::place_named;
pub use queries::query::Query;
pub use queries::time::{since_of, until_of};
pub use remembered::remembered_of;
pub use writing::form::Form;
pub use writing::json_text::json_line;
