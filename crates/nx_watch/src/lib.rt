//! The watch: a receiver that is left on, whatever its input is.
#![tactic(auto)]

mod combined_watch;
mod kept_log;
pub mod laws;
mod left_on;
mod line_run;
mod lines;
mod logging_listener;
mod stamped;
mod watch_fault;
mod watch_report;
mod watch_run;

pub use combined_watch::watch_combined;
pub use kept_log::log_grammar::LogGrammar;
pub use kept_log::start::remembered;
pub use left_on::{watch, watch_with};
pub use lines::line_effects::StartMoments;
pub use lines::telling::{tell, write_more};
pub use stamped::StampedReader;
pub use watch_fault::WatchFault;
pub use watch_report::WatchReport;
