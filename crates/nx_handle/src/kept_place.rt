//! The place of a channel of a receiver, which it has between two calls, of whatever kind.

ghost use Rattle.std.specs.Prelude.{◌≡◌, ◌↔◌, ℕ, ◌+◌, ◌<◌, ◌≤◌, List, [], ◌++◌, length, take, drop, IfErr, IfSome, IsErr, IsNone, IsSome, IsTrue, None, OnErr, OnOk, Some, true, false};
ghost use Rattle.nx_envelope.specs.Moment.{last_moment};
ghost use Rattle.nx_memory.specs.Memory.{newest_moment};
ghost use Rattle.nx_copies.specs.Events as events;
ghost use Rattle.nx_copies.specs.Events.{Event, Start, at_moment, elements, none_refused};
ghost use Rattle.nx_copies.specs.copies.FoundCopies.{TaggedCopy};
ghost use Rattle.nx_receiver.specs.ChannelReceiver.{HandsOutNoneBeforeBy};
ghost use Rattle.nx_receiver.specs.Commands.{refuses_vital, said};
ghost use Rattle.nx_receiver.specs.Moments.{Refuses};
ghost use Rattle.nx_receiver.specs.Receiver.{HeadsText, headed_list};
ghost use Rattle.nx_memory.specs.Saved.{nothing_saved};
ghost use Rattle.nx_handle.specs.Places.{place_on};
ghost use Rattle.nx_handle.specs.PlaceKinds.{HasBegun, HasTaken, IsPlaceKind, PlaceKind, SameRoom, TakesEventIn, receiver_of, start_with};

use nx_copies::EntryHead;
use nx_envelope::MAX_FOUND;
use nx_fec::{Channel, PackedElements};
use nx_memory::{PlainRecall, Saved, Selection, Vital};
use nx_receiver::{Command, MomentFault};

/// The place of a channel of a receiver, which it has between two calls. A receiver has one to
/// three of them, side by side: those of channel 0, 1 and 2. It hears while each of them hears;
/// closing ends them one by one.
///
/// It is no `Drop`: where a place has room that its owner gave, the room isn't lost with it.
pub trait KeptPlace {
    /// What there is to say of such a place.
    ghost kind: { PlaceKind Self };

    /// Whether the channel hears.
    fn is_hearing(&self) -> bool
        ensures { result ≡ kind.is_hearing self.now };

    /// Whether the place is one of a receiver that is closed.
    fn is_closed(&self) -> bool
        ensures { result ≡ kind.is_closed self.now };

    /// Closes the receiver in it, which prints nothing; its room stays.
    fn shut(&mut self)
        ensures { self.new ≡ kind.shut self.old };

    /// Gives the channel a receiver that starts with nothing at moment 0, and has heard nothing.
    /// Everything is selected.
    fn begin_new(&mut self)
        ensures { HasBegun kind self.old self.new (start_with [] 0 none_refused) };

    /// Gives the channel a receiver that starts at this moment with the entries of this memory,
    /// and with this selection, and has heard nothing. The memory is left without any, or as it
    /// was.
    fn begin(&mut self, memory: &mut PlainRecall, moment: u64, selection: Selection)
        requires newest { newest_moment memory.old ≤ moment }
        requires range { moment ≤ last_moment }
        ensures { HasBegun kind self.old self.new (start_with memory.old moment selection) };

    /// Sets the moment of a channel that hears. `Range` where it is past the year 2999, else `Back`
    /// where it is before the last one; the place then stays as it was.
    fn set_moment(&mut self, moment: u64) -> Result<(), MomentFault>
        requires { kind.is_hearing self.old ≡ true }
        ensures taken { OnOk result (HasTaken kind moment self.old self.new) }
        ensures refused { IfErr result (Refuses (kind.start_of self.old).moment moment) }
        ensures unchanged { OnErr result (self.new ≡ self.old) };

    /// Does what the command says, on a channel that hears. `Vital` where it is to refuse subject
    /// A, B, D or L (ITU-R M.540); the place then stays as it was.
    fn command(&mut self, command: Command) -> Result<(), Vital>
        requires { kind.is_hearing self.old ≡ true }
        ensures taken { OnOk result (TakesEventIn kind self.old self.new
            (events.command (said command))) }
        ensures vital { IsErr result ↔ IsTrue (refuses_vital (said command)) }
        ensures unchanged { OnErr result (self.new ≡ self.old) }
        ensures hears { kind.is_hearing self.new ≡ true }
        ensures room { SameRoom kind self.old self.new };

    /// Hears elements, on a channel that hears, from a place on, up to and with the one that ends
    /// the first copy that is printed; says how many it heard, and the head of the entry. Its text
    /// is `text`, until more is heard. With `None` it heard all.
    fn next_printed(&mut self, packed: &PackedElements, from: usize) -> (usize, Option<EntryHead>)
        requires hears { kind.is_hearing self.old ≡ true }
        requires from { from ≤ length packed.now }
        ensures within { from + result.0 ≤ length packed.now }
        ensures stands { (held : ℕ) (start : Start) (history : List Event)
            (log : List TaggedCopy) → kind.stands held start self.old history log
            → kind.stands held start self.new
            (history ++ elements (take result.0 (drop from packed.now)))
            (log ++ headed_list result.1 (kind.text_of self.new)) }
        ensures first { (held : ℕ) → HandsOutNoneBeforeBy (receiver_of kind held) self.old
            (drop from packed.now) result.0 }
        ensures all { IsNone result.1 → from + result.0 ≡ length packed.now }
        ensures some { IsSome result.1 → 0 < result.0 }
        ensures head { IfSome result.1 (λ head. HeadsText head (kind.text_of self.new)) }
        ensures now { kind.is_hearing self.new ≡ true }
        ensures room { SameRoom kind self.old self.new };

    /// The text of the entry whose head was answered last, until more is heard.
    fn text(&self) -> &[u8]
        ensures text { result.now ≡ kind.text_of self.now }
        ensures short { length result.now ≤ MAX_FOUND };

    /// Ends the elements of a channel that hears, and says the head of the entry that their end
    /// prints, where it prints one. Its text is `text`. `leave` is due then.
    fn end(&mut self) -> Option<EntryHead>
        requires { kind.is_hearing self.old ≡ true }
        ensures stands { (held : ℕ) (start : Start) (history : List Event)
            (log : List TaggedCopy) → kind.stands held start self.old history log
            → (kind.printing held).to_end start history
            (log ++ headed_list result (kind.text_of self.new)) }
        ensures head { IfSome result (λ head. HeadsText head (kind.text_of self.new)) }
        ensures room { SameRoom kind self.old self.new };

    /// The end of the channel has come: from here on it doesn't hear, and it isn't closed.
    fn leave(&mut self)
        ensures hears { kind.is_hearing self.new ≡ false }
        ensures open { kind.is_closed self.new ≡ false }
        ensures room { SameRoom kind self.old self.new };

    /// What a channel leaves, and is saved of it; nothing where there is no place of it.
    fn left_on(places: &[Self], channel: Channel) -> Saved
        ensures leaves { (place : Self) → place_on places.now channel ≡ Some place
            → (held : ℕ) (start : Start) (history : List Event) (log : List TaggedCopy)
            → kind.stands held start place history log → kind.leaves held start history result }
        ensures others { place_on places.now channel ≡ None → result ≡ nothing_saved };

    /// From how many sendings the entry is put together that was handed out last.
    fn sendings(&self) -> u64
        ensures { (held : ℕ) (start : Start) (history : List Event) (log : List TaggedCopy)
            → kind.stands held start self.now history log
            → kind.sendings held start history log result };

    /// The laws of its kind.
    ghost laws: { IsPlaceKind kind };
}
