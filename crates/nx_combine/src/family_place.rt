//! A place for a family in room that a caller lends.

ghost use Rattle.std.specs.Prelude.{◌≡◌, ◌≤◌, ◌-◌, ◌++◌, [], None, Some, drop, length, max, replicate, take};
ghost use Rattle.nx_code.specs.Reading.{capital_a, lost};
ghost use Rattle.nx_envelope.specs.Identity.{same_identity};
ghost use Rattle.nx_combine.specs.CopyPositions.{HeardCopy};
ghost use Rattle.nx_combine.specs.Families as spec;
ghost use Rattle.nx_combine.specs.Joining.{joined};

use crate::joining::MAX_POSITIONS;
use crate::plain_head::{PlainHead, PlainIdentity};
use crate::position::Position;
use nx_copies::EntryHead;
use nx_envelope::Identity;
use std::marker::Model;
use std::mem::size_of;

/// A place for a family, and for the head of its last combined copy that was printed. It holds
/// numbers alone, and nothing but what contracts see. Where all of them are zero no family began.
#[repr(C)]
#[derive(Drop)]
pub struct FamilyPlace {
    moment: u64,
    sendings: u64,
    count: usize,
    printed: PlainHead,
    identity: PlainIdentity,
    positions: [Position; MAX_POSITIONS],
}

impl Model for FamilyPlace {
    ghost use Rattle.std.specs.Prelude.{◌≤◌, ◌++◌, drop, length, take};
    ghost use Rattle.std.proofs.lemmas.List.{length-take-le, take-append-drop};
    ghost use Rattle.nx_combine.specs.FamilyPlaces.{LentFamily};
    ghost use Rattle.nx_combine.specs.Families.{most_positions};

    ghost Value = { LentFamily };

    ghost view = { λ place. record {
      family = record {
        identity = place.identity;
        moment = place.moment;
        positions = take place.count place.positions;
        sendings = place.sendings;
      };
      behind = drop place.count place.positions;
      printed = place.printed;
    } };

    ghost invariant = { λ place. (place.count ≤ most_positions)
        × (place.count ≤ length place.positions) };

    ghost inverse = { λ lent. record {
      moment = lent.family.moment;
      sendings = lent.family.sendings;
      count = length lent.family.positions;
      printed = lent.printed;
      identity = lent.family.identity;
      positions = lent.family.positions ++ lent.behind;
    } };

    ghost inverse_ok = { λ place within i. record {
      moment = place.moment;
      sendings = place.sendings;
      count = length-take-le place.count place.positions within.1 i;
      printed = place.printed;
      identity = place.identity;
      positions = take-append-drop place.count place.positions i;
    } };
}

impl FamilyPlace {
    /// A place where no family began yet. All its numbers are zero.
    pub fn new() -> FamilyPlace
        ensures b1 { result.family.identity.b1.byte ≡ capital_a }
        ensures b2 { result.family.identity.b2.byte ≡ capital_a }
        ensures number { result.family.identity.number ≡ 0 }
        ensures moment { result.family.moment ≡ 0 }
        ensures sendings { result.family.sendings ≡ 0 }
        ensures positions { result.family.positions ≡ [] }
        ensures behind { result.behind ≡ replicate spec.most_positions lost }
        ensures printed { result.printed ≡ None }
    {
        prove!(size_of::<FamilyPlace>() == 8240);
        FamilyPlace {
            moment: 0,
            sendings: 0,
            count: 0,
            printed: PlainHead::none(),
            identity: PlainIdentity::zeros(),
            positions: [Position::of_class(0); MAX_POSITIONS],
        }
    }

    /// Whether the copies of its family are of this identity.
    pub(crate) fn is_of(&self, identity: Identity) -> bool
        ensures { result ≡ same_identity self.now.family.identity identity }
    {
        self.identity.identity() == identity
    }

    /// The moment of the first of them.
    pub(crate) fn moment(&self) -> u64
        ensures { result ≡ self.now.family.moment }
    {
        self.moment
    }

    /// Their positions, joined.
    pub(crate) fn positions(&self) -> &[Position]
        ensures { result.now ≡ self.now.family.positions }
    {
        &self.positions[..self.count]
    }

    /// How many they are.
    pub(crate) fn sendings(&self) -> u64
        ensures { result ≡ self.now.family.sendings }
    {
        self.sendings
    }

    /// The head of the last combined copy that was printed.
    pub(crate) fn printed(&self) -> Option<EntryHead>
        ensures { result ≡ self.now.printed }
    {
        self.printed.head()
    }

    /// Begins a family with a copy, by its head and its positions; nothing was printed of it.
    pub(crate) fn begin(&mut self, head: &EntryHead, positions: &[Position])
        requires { length positions.now ≤ MAX_POSITIONS }
        ensures identity { self.new.family.identity ≡ head.now.identity }
        ensures moment { self.new.family.moment ≡ head.now.moment }
        ensures positions { self.new.family.positions ≡ positions.now }
        ensures sendings { self.new.family.sendings ≡ 1 }
        ensures printed { self.new.printed ≡ None }
        ensures behind { self.new.behind
            ≡ drop (length positions.now) (self.old.family.positions ++ self.old.behind) }
    {
        self.identity = PlainIdentity::of(head.identity);
        self.moment = head.moment;
        self.sendings = 1;
        self.printed = PlainHead::none();
        self.count = positions.len();
        self.positions[..positions.len()].copy_from_slice(positions);
    }

    /// Joins the positions of a copy to those of the family, and counts the copy.
    pub(crate) fn join(&mut self, positions: &[Position])
        requires { length positions.now ≤ MAX_POSITIONS }
        ensures joined { (heard : HeardCopy) → heard.positions ≡ positions.now
            → self.new.family ≡ spec.joined_by heard self.old.family }
        ensures printed { self.new.printed ≡ self.old.printed }
        ensures behind { self.new.behind
            ≡ drop (length positions.now - length self.old.family.positions) self.old.behind }
    {
        self.sendings = self.sendings.saturating_add(1);
        join_in(&mut self.positions, self.count, positions);
        self.count = self.count.max(positions.len());
    }

    /// Notes the head of a combined copy, which is printed.
    pub(crate) fn note(&mut self, head: EntryHead)
        ensures family { self.new.family ≡ self.old.family }
        ensures printed { self.new.printed ≡ Some head }
        ensures behind { self.new.behind ≡ self.old.behind }
    {
        self.printed = PlainHead::of(head);
    }
}

/// Joins the positions of a copy to the first ones of a room, so many, as `join` does.
fn join_in(room: &mut [Position], count: usize, copy: &[Position])
    requires count { count ≤ length room.old }
    requires short { length copy.now ≤ length room.old }
    ensures joined { take (max count (length copy.now)) room.new
        ≡ joined (take count room.old) copy.now }
    ensures behind { drop (max count (length copy.now)) room.new
        ≡ drop (max count (length copy.now)) room.old }
{
    for (index, position) in copy.iter().enumerate() {
        room[index] = if index < count {
            room[index].join(*position)
        } else {
            *position
        };
    }
}
