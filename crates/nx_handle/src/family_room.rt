//! Room for the families of a channel, which its owner gives.

ghost use Rattle.std.specs.Prelude.{◌≡◌, List};
ghost use Rattle.nx_combine.specs.FamilyPlaces.{BelongsTo, LentFamily};
ghost use Rattle.nx_handle.specs.FamilyRooms.{EndsIn, FinishesIn};

use nx_combine::LentReceiver;
use nx_copies::{EntryHead, Over};
use nx_memory::RenewingRecall;

/// Room for the families of a channel, which its owner gives: so many families are held as it has
/// places. Each call does what the receiver's call of its name does with these places.
pub trait FamilyRoom {
    /// What lies in the places.
    ghost places: { Self → List LentFamily };

    /// Which room it is: the room with nothing in it.
    ghost vacant: { Self → Self };

    /// Finishes what is over, and says the head of the entry that it brings, if it brings one.
    fn finish(
        &mut self,
        receiver: &mut LentReceiver<RenewingRecall>,
        over: Over,
    ) -> Option<EntryHead>
        requires { BelongsTo receiver.old.store (places self.old) }
        ensures finishes { FinishesIn (places self.old) (places self.new) receiver.old receiver.new
            over result }
        ensures stays { vacant self.new ≡ vacant self.old };

    /// Ends the elements, and says the head of the entry that their end prints, if it prints one.
    fn end(&mut self, receiver: &mut LentReceiver<RenewingRecall>) -> Option<EntryHead>
        requires { BelongsTo receiver.old.store (places self.old) }
        ensures ends { EndsIn (places self.old) (places self.new) receiver.old receiver.new result }
        ensures stays { vacant self.new ≡ vacant self.old };
}
