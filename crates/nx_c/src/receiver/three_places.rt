//! The places of the three channels of a receiver.

ghost use Rattle.std.specs.Prelude.{◌≡◌, ◌<◌, [], ◌∷◌, ◌++◌, IfOk, OnOk, true};
ghost use Rattle.nx_handle.specs.PlainPlaces.{plain_place};
ghost use Rattle.nx_c.specs.Families.{Combines, combines};
ghost use Rattle.nx_c.specs.Opening.{AreReady};

use crate::receiver::family_block::FamilyBlock;
use nx_handle::{CombiningPlace, PlainPlace};
use std::alloc::{AllocError, Global};
use std::marker::Model;

/// The places of channel 0, 1 and 2 of a receiver, side by side in a block of their own.
#[derive(Drop)]
pub struct ThreePlaces<P> {
    pub(crate) places: Vec<P>,
}

impl<P> Model for ThreePlaces<P> {
    ghost use Rattle.std.specs.Prelude.{◌≡◌, List, length};

    ghost Value = { List P };

    ghost view = { λ three. three.places.items };

    ghost invariant = { λ three. length three.places.items ≡ 3 };
}

impl ThreePlaces<PlainPlace> {
    /// The places of a receiver that is closed. Fails where there is no memory for them.
    pub(crate) fn plain(alloc: Global) -> Result<ThreePlaces<PlainPlace>, AllocError>
        ensures { IfOk result (AreReady plain_place 0) }
    {
        let mut places = Vec::with_capacity(alloc, 3)?;
        places.push(PlainPlace::Closed)?;
        places.push(PlainPlace::Closed)?;
        places.push(PlainPlace::Closed)?;
        Ok(ThreePlaces { places })
    }
}

impl ThreePlaces<CombiningPlace<FamilyBlock>> {
    /// The places of a receiver that is closed, each with room for so many families. Fails where
    /// there is no memory for them.
    pub(crate) fn combining(
        alloc: Global,
        families: usize,
    ) -> Result<ThreePlaces<CombiningPlace<FamilyBlock>>, AllocError>
        requires { 0 < families }
        ensures { IfOk result (AreReady combines families) }
    {
        let mut places = Vec::with_capacity(alloc, 3)?;
        add_combining(&mut places, alloc, families)?;
        add_combining(&mut places, alloc, families)?;
        add_combining(&mut places, alloc, families)?;
        Ok(ThreePlaces { places })
    }
}

/// Adds a closed place with room for so many families. Fails where there is no memory for it.
// A call, so that its stack is free again before the next place.
#[inline(never)]
fn add_combining(
    places: &mut Vec<CombiningPlace<FamilyBlock>>,
    alloc: Global,
    families: usize,
) -> Result<(), AllocError>
    requires { 0 < families }
    ensures { OnOk result ((place : Combines) × (places.new.items ≡ places.old.items ++ place ∷ [])
        × (combines.is_closed place ≡ true) × (combines.families place ≡ families)) }
{
    places.push(CombiningPlace::closed(FamilyBlock::of(alloc, families)?))?;
    Ok(())
}
