//! The families of a channel in room that its caller lends.

ghost use Rattle.std.specs.Prelude.{◌≡◌, ◌<◌, ◌≤◌, List, length};
ghost use Rattle.std.specs.Borrow.{sem};
ghost use Rattle.nx_combine.specs.Families.{most_families};
ghost use Rattle.nx_combine.specs.FamilyPlaces.{LentFamily};
ghost use Rattle.nx_live.specs.Room.{families_coded, family_row, lie};

use nx_combine::{FamilyPlace, LentReceiver};
use nx_copies::{EntryHead, Over};
use nx_handle::FamilyRoom;
use nx_memory::RenewingRecall;
use std::marker::Model;
use std::slice;

/// The families of a channel: where their places lie that the caller lent, and how many they are,
/// 1 to 200.
///
/// It owns what lies there. It is no `Drop`, so no function of this crate can lose it.
pub struct LentFamilies {
    pub(crate) at: *mut FamilyPlace,
    pub(crate) count: usize,
    pub ghost value: { List LentFamily } by { families_coded },
}

impl Model for LentFamilies {
    ghost also_owns = { λ lent. lie family_row most_families lent.at lent.count lent.value };
}

impl LentFamilies {
    ghost use Rattle.nx_live.specs.Lending.{LendsFamilies};

    /// Their places.
    fn places(&mut self) -> &mut [FamilyPlace]
        ensures* writes_back { sem 𝓛 (LendsFamilies self.entry result) }
        ensures value { result.now ≡ self.old.value }
        ensures count { (0 < length result.now) × (length result.now ≤ most_families) }
    {
        unsafe { slice::from_raw_parts_mut(self.at, self.count) }
    }
}

impl FamilyRoom for LentFamilies {
    ghost use Rattle.nx_live.specs.Places.{families_of, vacant_of};

    ghost places = { families_of };

    ghost vacant = { vacant_of };

    fn finish(
        &mut self,
        receiver: &mut LentReceiver<RenewingRecall>,
        over: Over,
    ) -> Option<EntryHead> {
        receiver.finish(self.places(), over)
    }

    fn end(&mut self, receiver: &mut LentReceiver<RenewingRecall>) -> Option<EntryHead> {
        receiver.end(self.places())
    }
}
