//! A receiver in room that its caller lends.

ghost use Rattle.std.specs.Prelude.{◌≡◌, ◌<◌, ◌≤◌, true, false, length};
ghost use Rattle.std.specs.Borrow.{sem};
ghost use Rattle.nx_live.specs.Places.{Places, places_coded, places_lie};

use crate::families::LentFamilies;
use nx_handle::{CombiningPlace, PlainPlace};
use std::marker::Model;
use std::slice;

/// A receiver: where the room lies that its caller lent, how many channels have their places there,
/// one to three, and whether these combine.
///
/// It owns what lies there, the places of its channels. It is no `Drop`, so no function of this
/// crate can lose one that is open.
#[repr(C)]
pub struct NxLive {
    pub(crate) at: *mut (),
    pub(crate) count: usize,
    pub(crate) combines: bool,
    pub ghost value: { Places } by { places_coded },
}

impl Model for NxLive {
    ghost also_owns = { λ receiver.
        places_lie receiver.at receiver.count receiver.combines receiver.value };
}

impl NxLive {
    ghost use Rattle.nx_live.specs.Places.{combine, combining_of, plain_of};
    ghost use Rattle.nx_live.specs.Lending.{LendsCombining, LendsPlain};

    /// Whether the places of its channels combine.
    pub(crate) fn combines(&mut self) -> bool
        ensures value { result ≡ combine self.old.value }
        ensures unchanged { self.new ≡ self.old }
    {
        self.combines
    }

    /// The places of its channels, where they are plain.
    pub(crate) fn plain(&mut self) -> &mut [PlainPlace]
        requires plain { combine self.old.value ≡ false }
        ensures* writes_back { sem 𝓛 (LendsPlain self.entry result) }
        ensures value { result.now ≡ plain_of self.old.value }
        ensures channels { (0 < length result.now) × (length result.now ≤ 3) }
    {
        unsafe { slice::from_raw_parts_mut(self.at as *mut PlainPlace, self.count) }
    }

    /// The places of its channels, where they combine.
    pub(crate) fn combining(&mut self) -> &mut [CombiningPlace<LentFamilies>]
        requires combining { combine self.old.value ≡ true }
        ensures* writes_back { sem 𝓛 (LendsCombining self.entry result) }
        ensures value { result.now ≡ combining_of self.old.value }
        ensures channels { (0 < length result.now) × (length result.now ≤ 3) }
    {
        unsafe {
            slice::from_raw_parts_mut(self.at as *mut CombiningPlace<LentFamilies>, self.count)
        }
    }
}
