//! The program `navtex` without its process: what its arguments ask for, done from an input to an
//! output.
#![tactic(auto)]

mod arguments;
mod commands;
mod fault;
mod fault_text;
mod file_name;
pub mod known_streams;
pub mod laws;
mod log_arguments;
mod log_command;
pub mod log_laws;
mod program;
mod slots;
mod watch_command;
pub mod watch_laws;

pub use arguments::Call;
pub use fault::CallFault;
pub use file_name::FileName;
pub use program::{Answered, Input, answer, run};
pub use watch_command::{LogFiles, NoFile, NoFiles, SystemFiles, WatchFailure};
