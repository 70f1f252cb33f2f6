//! Several sendings of a message taken together, position by position.
#![tactic(auto)]

mod channel_receiver;
mod combiner;
mod combining;
mod families;
mod family_place;
mod family_ring;
mod holds_families;
mod joining;
pub mod laws;
mod listening;
mod notes;
mod plain_head;
mod position;
mod reading;
mod receiver;
mod receiver_over;
mod taker;

pub use combiner::{Combiner, PrintedCopy};
pub use combining::{Combined, is_better};
pub use families::{Families, MAX_FAMILIES};
pub use family_place::FamilyPlace;
pub use family_ring::FamilyRing;
pub use holds_families::HoldsFamilies;
pub use joining::{MAX_POSITIONS, is_of_one_text, join};
pub use listening::listen_combined;
pub use notes::{MAX_NOTED, PositionNotes};
pub use position::Position;
pub use reading::read_positions;
pub use receiver::CombinedReceiver;
pub use receiver_over::{LentReceiver, ReceiverOver};
pub use taker::CombinedTaker;
