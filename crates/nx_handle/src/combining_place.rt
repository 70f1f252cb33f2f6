//! A place in which several sendings of a message are taken together, with room for their families.

ghost use Rattle.std.specs.Prelude.{◌≡◌, ◌+◌, ◌<◌, ◌≤◌, List, ◌++◌, [], length, take, drop, IfSome, IsNone, IsSome};
ghost use Rattle.nx_envelope.specs.Moment.{last_moment};
ghost use Rattle.nx_memory.specs.Memory.{newest_moment};
ghost use Rattle.nx_receiver.specs.Receiver.{HeadsText, headed_list};
ghost use Rattle.nx_combine.specs.CombinedReceiver.{text_over};
ghost use Rattle.nx_combine.specs.FamilyPlaces.{BelongsTo};
ghost use Rattle.nx_handle.specs.CombiningPlaces.{combining_closed};
ghost use Rattle.nx_handle.specs.private.CombiningPlaces.{HearsInRoom};

use crate::family_room::FamilyRoom;
use crate::kept_place::KeptPlace;
use nx_combine::{FamilyRing, LentReceiver};
use nx_copies::EntryHead;
use nx_fec::{Channel, PackedElements};
use nx_memory::{PlainRecall, RenewingRecall, Saved, Selection, Vital};
use nx_receiver::{Command, MomentFault};
use std::marker::Model;

/// The place of a channel whose receiver takes several sendings of a message together, and the room
/// for its families, which stays when the receiver is closed. It is `Drop` where its room is.
#[derive(Drop)]
pub struct CombiningPlace<F: FamilyRoom> {
    state: CombiningState,
    families: F,
}

/// The receiver of such a place.
#[derive(Drop)]
pub enum CombiningState {
    /// The receiver is closed.
    Closed,
    /// The channel hears, with a receiver of its own.
    Hears(LentReceiver<RenewingRecall>),
    /// The end of the channel has come.
    Ended,
}

impl<F: FamilyRoom> Model for CombiningPlace<F> {
    ghost use Rattle.std.specs.Coded.{codes};
    ghost use Rattle.nx_memory.specs.private.RefusedCode.{refused_code};
    ghost use Rattle.nx_handle.specs.CombiningPlaces.{CombiningPlaceView};
    ghost use Rattle.nx_handle.specs.private.CombiningPlaces.{FitsRoom};

    ghost Value = { CombiningPlaceView F };

    ghost coded = { Prim.hlevel (codes, refused_code, F.code) };

    ghost view = { λ place. record { state = place.state; families = place.families } };

    ghost invariant = { λ place. FitsRoom (F.places place.families) place.state };

    ghost inverse = { λ v. record { state = v.state; families = v.families } };
}

impl<F: FamilyRoom> CombiningPlace<F> {
    /// A place of a closed receiver, with this room, which has at least one place for a family.
    pub fn closed(families: F) -> CombiningPlace<F>
        requires { 0 < length (F.places families) }
        ensures { result ≡ combining_closed families }
    {
        CombiningPlace {
            state: CombiningState::Closed,
            families,
        }
    }

    /// The room; where the receiver isn't closed it is closed, and prints nothing.
    pub fn into_families(self) -> F
        ensures { result ≡ self.families }
    {
        let CombiningPlace { state: _, families } = self;
        families
    }
}

impl<F: FamilyRoom> KeptPlace for CombiningPlace<F> {
    ghost use Rattle.nx_handle.specs.CombiningPlaces.{combining_place};
    ghost use Rattle.nx_handle.specs.private.CombiningLaws.{combining-laws};

    ghost kind = { combining_place F.places F.vacant };

    fn is_hearing(&self) -> bool {
        matches!(self.state, CombiningState::Hears(_))
    }

    fn is_closed(&self) -> bool {
        matches!(self.state, CombiningState::Closed)
    }

    fn shut(&mut self) {
        self.state = CombiningState::Closed;
    }

    // A call, as in a plain place.
    #[inline(never)]
    fn begin_new(&mut self) {
        self.state = CombiningState::Hears(LentReceiver::beginning(
            FamilyRing::new(),
            RenewingRecall::new(),
            0,
            Selection::all(),
        ));
    }

    // A call as well.
    #[inline(never)]
    fn begin(&mut self, memory: &mut PlainRecall, moment: u64, selection: Selection) {
        let entries = renewing(memory);
        self.state = CombiningState::Hears(LentReceiver::beginning(
            FamilyRing::new(),
            entries,
            moment,
            selection,
        ));
    }

    fn set_moment(&mut self, moment: u64) -> Result<(), MomentFault> {
        let CombiningState::Hears(receiver) = &mut self.state else {
            unreachable!()
        };
        receiver.set_moment(moment)
    }

    fn command(&mut self, command: Command) -> Result<(), Vital> {
        let CombiningState::Hears(receiver) = &mut self.state else {
            unreachable!()
        };
        receiver.command(command)
    }

    fn next_printed(&mut self, packed: &PackedElements, from: usize) -> (usize, Option<EntryHead>) {
        let CombiningState::Hears(receiver) = &mut self.state else {
            unreachable!()
        };
        next_printed_in(receiver, &mut self.families, packed, from)
    }

    fn text(&self) -> &[u8] {
        let CombiningState::Hears(receiver) = &self.state else {
            return &[];
        };
        receiver.text()
    }

    fn end(&mut self) -> Option<EntryHead> {
        let CombiningState::Hears(receiver) = &mut self.state else {
            unreachable!()
        };
        self.families.end(receiver)
    }

    fn leave(&mut self) {
        self.state = CombiningState::Ended;
    }

    // Built in the place of its caller, as of a plain place.
    #[inline(always)]
    fn left_on(places: &[CombiningPlace<F>], channel: Channel) -> Saved {
        match places.get(usize::from(channel.number())) {
            Some(place) => match &place.state {
                CombiningState::Hears(receiver) => receiver.saved(),
                _ => Saved::new(),
            },
            None => Saved::new(),
        }
    }

    fn sendings(&self) -> u64 {
        let CombiningState::Hears(receiver) = &self.state else {
            return 0;
        };
        receiver.sendings()
    }

    ghost laws = { combining-laws F.places F.vacant };
}

/// A memory with the entries of this one, in which what is known can be entered once more.
// A call, so that its stack is free again before the receiver is made.
#[inline(never)]
fn renewing(memory: &PlainRecall) -> RenewingRecall
    requires { newest_moment memory.now ≤ last_moment }
    ensures { result ≡ memory.now }
{
    let mut entries = RenewingRecall::new();
    Saved::of(&Selection::all(), memory).load(&mut entries);
    entries
}

/// Hears elements, from a place on, up to and with the one that ends the first copy that is
/// printed; says how many it heard, and the head of the entry. Its text is that of the receiver,
/// until more is heard. With `None` it heard all.
fn next_printed_in<F: FamilyRoom>(
    receiver: &mut LentReceiver<RenewingRecall>,
    families: &mut F,
    packed: &PackedElements,
    from: usize,
) -> (usize, Option<EntryHead>)
    requires fits { BelongsTo receiver.old.store (F.places families.old) }
    requires from { from ≤ length packed.now }
    ensures within { from + result.0 ≤ length packed.now }
    ensures fits { BelongsTo receiver.new.store (F.places families.new) }
    ensures room { length (F.places families.new) ≡ length (F.places families.old) }
    ensures stays { F.vacant families.new ≡ F.vacant families.old }
    ensures hears { HearsInRoom (F.places families.old) (F.places families.new) receiver.old
        receiver.new (drop from packed.now) result.0
        (headed_list result.1 (text_over receiver.new)) }
    ensures all { IsNone result.1 → from + result.0 ≡ length packed.now }
    ensures some { IsSome result.1 → 0 < result.0 }
    ensures head { IfSome result.1 (λ head. HeadsText head (text_over receiver.new)) }
{
    let mut heard = 0;
    while heard < packed.len() - from {
        let (count, over) = receiver.hear(packed, from + heard);
        heard += count;
        let Some(over) = over else {
            return (heard, None);
        };
        let head = families.finish(receiver, over);
        if head.is_some() {
            return (heard, head);
        }
    }
    (heard, None)
}
