//! A broadcast station (M.540): the slots of stations, the emissions of their messages, message
//! files, the strict reading of an emission, and damage to one.
#![tactic(auto)]

mod broadcast;
mod checking;
mod damaging;
mod fault;
mod heads;
pub mod laws;
mod message_file;
mod printed;
mod reading;
mod sending;
mod slots;

pub use broadcast::emission;
pub use checking::check_run;
pub use damaging::{DamageKind, damage};
pub use fault::{CheckFault, DamageFault, EmissionFault, SendFault, SendRunFault};
pub use reading::read_emission;
pub use sending::{Sent, send};
pub use slots::next_slot;
