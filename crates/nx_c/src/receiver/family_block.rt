//! Room for the families of a channel.

ghost use Rattle.std.specs.Prelude.{◌≡◌, length, IfOk};

use nx_combine::{FamilyPlace, LentReceiver};
use nx_copies::{EntryHead, Over};
use nx_handle::FamilyRoom;
use nx_memory::RenewingRecall;
use std::alloc::{AllocError, Global};
use std::marker::Model;

/// Room for the families of a channel, in a block that is taken when it is made. Contracts see it
/// as what lies in its places.
#[derive(Drop)]
pub struct FamilyBlock {
    places: Vec<FamilyPlace>,
}

impl Model for FamilyBlock {
    ghost use Rattle.std.specs.Prelude.{List};
    ghost use Rattle.nx_combine.specs.FamilyPlaces.{LentFamily};

    ghost Value = { List LentFamily };

    ghost view = { λ block. block.places.items };
}

impl FamilyBlock {
    /// Room for so many families, none of which began. Fails where there is no memory for it.
    // One place after another is made in the block, so that none has to lie on the stack.
    pub(crate) fn of(alloc: Global, count: usize) -> Result<FamilyBlock, AllocError>
        ensures { IfOk result (λ block. length block ≡ count) }
    {
        let mut places = Vec::with_capacity(alloc, count)?;
        for _ in 0..count {
            places.push(FamilyPlace::new())?;
        }
        Ok(FamilyBlock { places })
    }
}

/// Its families are the receiver's room.
impl FamilyRoom for FamilyBlock {
    ghost use Rattle.nx_c.specs.Families.{families_in, nothing_in};

    ghost places = { families_in };

    ghost vacant = { nothing_in };

    fn finish(
        &mut self,
        receiver: &mut LentReceiver<RenewingRecall>,
        over: Over,
    ) -> Option<EntryHead> {
        receiver.finish(&mut self.places, over)
    }

    fn end(&mut self, receiver: &mut LentReceiver<RenewingRecall>) -> Option<EntryHead> {
        receiver.end(&mut self.places)
    }
}
