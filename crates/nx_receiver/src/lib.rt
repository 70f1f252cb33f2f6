//! The receiver: what is printed of all the elements, moments and commands that it was given.
#![tactic(auto)]

mod air_file_runs;
mod channel_receiver;
mod command;
mod fault;
mod fresh_recall;
mod listener;
mod receiver;

pub use air_file_runs::listen_fault::{LineRefusal, ListenFault};
pub use air_file_runs::listening::{Report, listen, listen_from, listen_with};
pub use air_file_runs::resume_fault::{ResumeFault, Want};
pub use air_file_runs::resuming::resume;
pub use air_file_runs::state::{read_state, write_state};
pub use air_file_runs::state_fault::StateFault;
pub use channel_receiver::ChannelReceiver;
pub use command::Command;
pub use fault::{MomentFault, ReceiverFault, check_moment};
pub use fresh_recall::FreshRecall;
pub use listener::{LastEntries, Listener};
pub use nx_copies::{Entry, EntryHead, entry_text, entry_text_on};
pub use receiver::Receiver;
