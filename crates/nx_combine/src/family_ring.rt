//! The families of a channel in room that a caller lends at each call.

ghost use Rattle.std.specs.Prelude.{◌≡◌, ◌<◌, List, [], length};
ghost use Rattle.nx_combine.specs.FamilyPlaces.{BelongsTo, LentFamily, held_in};
ghost use Rattle.nx_combine.specs.private.RingPlaces.{place_at, place_before};

use crate::family_place::FamilyPlace;
use crate::holds_families::HoldsFamilies;
use crate::position::Position;
use nx_copies::EntryHead;
use nx_envelope::Identity;

/// Where the families of a channel lie in the places that are lent: which place is that of the
/// newest, and how many are taken. Older ones lie behind it, and behind the last place they go on
/// with the first one. As many families are held as there are places.
#[derive(Debug, Drop)]
pub struct FamilyRing {
    first: usize,
    taken: usize,
}

impl FamilyRing {
    /// No families, in any room that has a place.
    pub fn new() -> FamilyRing
        ensures belongs { (places : List LentFamily) → 0 < length places → BelongsTo result places }
        ensures families { (places : List LentFamily) → (held_in result places).families ≡ [] }
        ensures printed { (places : List LentFamily) → (held_in result places).printed ≡ [] }
    {
        FamilyRing { first: 0, taken: 0 }
    }

    /// The place of the family of this index, of so many places.
    fn place_of(&self, index: usize, places: usize) -> usize
        requires first { self.now.first < places }
        requires index { index < places }
        ensures within { result < places }
        ensures place { result ≡ place_at self.now.first index places }
    {
        let behind = places - self.first;
        if index < behind {
            self.first + index
        } else {
            index - behind
        }
    }

    /// The place behind which the newest one lies, of so many places: the last one is before the
    /// first one.
    fn place_before(&self, places: usize) -> usize
        requires { self.now.first < places }
        ensures { result ≡ place_before self.now.first places }
    {
        if self.first == 0 {
            places - 1
        } else {
            self.first - 1
        }
    }
}

/// It lies in the room that each call is given.
impl HoldsFamilies for FamilyRing {
    ghost use Rattle.std.specs.Prelude.{length};
    ghost use Rattle.nx_combine.specs.FamilyPlaces.{BelongsTo, held_in};

    type Place = FamilyPlace;

    ghost most = { length };

    ghost fits = { BelongsTo };

    ghost held = { held_in };

    fn last_index(&self, places: &[FamilyPlace], identity: Identity) -> Option<usize> {
        for index in 0..self.taken {
            if places[self.place_of(index, places.len())].is_of(identity) {
                return Some(index);
            }
        }
        None
    }

    fn moment(&self, places: &[FamilyPlace], index: usize) -> u64 {
        places[self.place_of(index, places.len())].moment()
    }

    fn positions<'a>(&'a self, places: &'a [FamilyPlace], index: usize) -> &'a [Position] {
        places[self.place_of(index, places.len())].positions()
    }

    fn sendings(&self, places: &[FamilyPlace], index: usize) -> u64 {
        places[self.place_of(index, places.len())].sendings()
    }

    fn join(&mut self, places: &mut [FamilyPlace], index: usize, positions: &[Position]) {
        let at = self.place_of(index, places.len());
        places[at].join(positions);
    }

    fn begin(&mut self, places: &mut [FamilyPlace], head: &EntryHead, positions: &[Position]) {
        let at = self.place_before(places.len());
        places[at].begin(head, positions);
        self.first = at;
        self.taken = places.len().min(self.taken + 1);
    }

    fn printed(&self, places: &[FamilyPlace], index: usize) -> Option<EntryHead> {
        places[self.place_of(index, places.len())].printed()
    }

    fn note(&mut self, places: &mut [FamilyPlace], index: usize, head: EntryHead) {
        let at = self.place_of(index, places.len());
        places[at].note(head);
    }
}
