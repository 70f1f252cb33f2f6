//! What holds the families of a channel, wherever they lie.

ghost use Rattle.std.specs.Prelude.{◌≡◌, ◌≤◌, ◌<◌, ℕ, List, ◌∷◌, Bool, IfSome, None, Some, length, slice_get, slice_index_or, slice_set, take};
ghost use Rattle.nx_combine.specs.Combining.{heard_of};
ghost use Rattle.nx_combine.specs.CopyPositions.{HeardCopy};
ghost use Rattle.nx_combine.specs.Families as spec;
ghost use Rattle.nx_combine.specs.Judging.{HeldFamilies};

use crate::position::Position;
use nx_copies::EntryHead;
use nx_envelope::Identity;

/// Holds the last families of a channel, newest first, and of each the head of its last combined
/// copy that was printed, if one was. They lie in it, or in room that each call is given: that is
/// the same room at each call, and only these calls write there. No call takes memory.
pub trait HoldsFamilies: Drop {
    /// A place of the room that each call is given.
    type Place;

    /// How many families are held at most, with this room.
    ghost most: { List Self.Place → ℕ };

    /// The room belongs to what holds the families.
    ghost fits: { Self → List Self.Place → Type 0 };

    /// What is held.
    ghost held: { Self → List Self.Place → HeldFamilies };

    /// The index of the last family of the identity.
    fn last_index(&self, places: &[Self::Place], identity: Identity) -> Option<usize>
        requires { fits self.now places.now }
        ensures index { result ≡ spec.last_index identity (held self.now places.now).families }
        ensures within { IfSome result
            (λ index. index < length (held self.now places.now).families) }
        ensures few { length (held self.now places.now).families ≤ most places.now };

    /// The moment of the family of this index.
    fn moment(&self, places: &[Self::Place], index: usize) -> u64
        requires fits { fits self.now places.now }
        requires there { index < length (held self.now places.now).families }
        ensures { (family : spec.Family)
            → slice_get (held self.now places.now).families index ≡ Some family
            → result ≡ family.moment };

    /// The positions of the family of this index.
    fn positions<'a>(&'a self, places: &'a [Self::Place], index: usize) -> &'a [Position]
        requires fits { fits self.now places.now }
        requires there { index < length (held self.now places.now).families }
        ensures { (family : spec.Family)
            → slice_get (held self.now places.now).families index ≡ Some family
            → result.now ≡ family.positions };

    /// How many copies the family of this index has, at most the greatest number of 64 bits.
    fn sendings(&self, places: &[Self::Place], index: usize) -> u64
        requires fits { fits self.now places.now }
        requires there { index < length (held self.now places.now).families }
        ensures { (family : spec.Family)
            → slice_get (held self.now places.now).families index ≡ Some family
            → result ≡ family.sendings };

    /// Joins the positions of a copy to those of the family of this index.
    fn join(&mut self, places: &mut [Self::Place], index: usize, positions: &[Position])
        requires fits { fits self.old places.old }
        requires short { length positions.now ≤ spec.most_positions }
        requires there { index < length (held self.old places.old).families }
        ensures fits { fits self.new places.new }
        ensures room { most places.new ≡ most places.old }
        ensures joined { (heard : HeardCopy) → heard.positions ≡ positions.now
            → (held self.new places.new).families
            ≡ spec.joined_at (held self.old places.old).families heard index }
        ensures printed { (held self.new places.new).printed
            ≡ (held self.old places.old).printed };

    /// Begins a family with the positions of a copy; nothing was printed of it. Where as many
    /// families are held as can be, the oldest is forgotten.
    fn begin(&mut self, places: &mut [Self::Place], head: &EntryHead, positions: &[Position])
        requires fits { fits self.old places.old }
        requires short { length positions.now ≤ spec.most_positions }
        ensures fits { fits self.new places.new }
        ensures room { most places.new ≡ most places.old }
        ensures begun { (text : List ℕ) (selected : Bool)
            → (held self.new places.new).families ≡ take (most places.old)
            (spec.begun_by (heard_of head.now text selected positions.now)
            ∷ (held self.old places.old).families) }
        ensures printed { (held self.new places.new).printed
            ≡ take (most places.old) (None ∷ (held self.old places.old).printed) }
        ensures there { 0 < length (held self.new places.new).families };

    /// The head of the last combined copy of the family of this index that was printed.
    fn printed(&self, places: &[Self::Place], index: usize) -> Option<EntryHead>
        requires fits { fits self.now places.now }
        requires there { index < length (held self.now places.now).families }
        ensures { result ≡ slice_index_or (held self.now places.now).printed index None };

    /// Notes the head of a combined copy of the family of this index, which is printed.
    fn note(&mut self, places: &mut [Self::Place], index: usize, head: EntryHead)
        requires fits { fits self.old places.old }
        requires there { index < length (held self.old places.old).families }
        ensures fits { fits self.new places.new }
        ensures room { most places.new ≡ most places.old }
        ensures families { (held self.new places.new).families
            ≡ (held self.old places.old).families }
        ensures printed { (held self.new places.new).printed
            ≡ slice_set (held self.old places.old).printed index (Some head) };
}
