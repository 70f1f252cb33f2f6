//! Three receivers that hear elements as they come: the engine of `listen`. What runs for each line
//! of elements is inlined always.

ghost use Rattle.std.specs.Prelude.{◌≡◌, ◌+◌, ◌<◌, ◌≤◌, ◌↔◌, ◌∷◌, ℕ, Bool, true, false, List, [], ◌++◌, length, map, take, drop, IfErr, IfOk, IfSome, IsErr, IsNone, IsSome, IsTrue, MatchOption, MatchResult, None, OnErr, OnOk, Some};
ghost use Rattle.nx_envelope.specs.Moment.{last_moment};
ghost use Rattle.nx_memory.specs.Saved.{AreSavedEntries};
ghost use Rattle.nx_receiver.specs.air_file_runs.Chain.{Leaves};
ghost use Rattle.nx_receiver.specs.ChannelReceiver.{HandsOutNoneBeforeBy, HearsUpToBy, TakesEventBy};
ghost use Rattle.nx_receiver.specs.private.ChannelReceiver.{FinishesNextBy};
ghost use Rattle.nx_receiver.specs.Commands.{refuses_vital, said};
ghost use Rattle.nx_receiver.specs.declared.command.Command.TheVariants.{RefuseSubject};
ghost use Rattle.nx_copies.specs.Events as events;
ghost use Rattle.nx_copies.specs.Events.{at_moment};
ghost use Rattle.nx_receiver.specs.Moments.{Refuses};
ghost use Rattle.nx_copies.specs.copies.FoundCopies.{TaggedCopy, copy_of};
ghost use Rattle.nx_copies.specs.copies.InTurn.{PrintAllToEndBy, PrintsInTurnBy};
ghost use Rattle.nx_receiver.specs.Listener.{AreInRange, HearsBy, HearsOver, IsSpelled, last_copies, moment_in_force, receiver_on, starts_by, text_by, then_command, then_elements, then_moment, with_receiver};
ghost use Rattle.nx_receiver.specs.Receiver.{HeadsText, headed_list};
ghost use Rattle.nx_copies.specs.copies.Shares.{Given, MarkedCopy, Starts, marked, saved_of, share, start_on, starts_from};

use crate::channel_receiver::{ChannelReceiver, finish_next};
use crate::command::Command;
use crate::fault::MomentFault;
use crate::fresh_recall::FreshRecall;
use crate::receiver::Receiver;
use arrayvec::ArrayVec;
use nx_copies::{Entry, EntryHead, MAX_ENTRY, spell_entry};
use nx_envelope::MAX_FOUND;
use nx_fec::{Channel, PackedElements};
use nx_memory::{Listed, RingRecall, Saved, SavedSet, Selection, Vital};
use std::alloc::{AllocError, Global};
use std::marker::Model;

/// Three receivers, one for each channel, that hear elements as they come. A moment belongs to all
/// of them, elements and commands to one. `listen` hears the lines of an air file with it.
///
/// It holds what its receivers hold, whether there was a moment, and two counts. Its receivers
/// judge
/// each copy alone, over memories that are rings with a table, which take a heap; or over others,
/// as the plain one, which takes none; or they are receivers of another kind.
#[derive(Drop)]
pub struct Listener<R: ChannelReceiver = Receiver<RingRecall>> {
    on_0: R,
    on_1: R,
    on_2: R,
    has_moment: bool,
    /// How many elements were heard, and how many entries were handed out, each at most the
    /// greatest u64.
    elements: u64,
    entries: u64,
}

impl<R: ChannelReceiver> Model for Listener<R> {
    ghost use Rattle.std.specs.Coded.{codes};
    ghost use Rattle.nx_receiver.specs.Listener.{ListeningOver};

    ghost Value = { ListeningOver R };

    ghost coded = { Prim.hlevel (codes, R.code) };

    ghost view = { λ l. record {
      on_0 = l.on_0;
      on_1 = l.on_1;
      on_2 = l.on_2;
      has_moment = l.has_moment;
      elements = l.elements;
      entries = l.entries;
    } };

    ghost inverse = { λ v. record {
      on_0 = v.on_0;
      on_1 = v.on_1;
      on_2 = v.on_2;
      has_moment = v.has_moment;
      elements = v.elements;
      entries = v.entries;
    } };
}

/// The entries that the end of all elements prints, one at most on each channel.
#[derive(Debug, Drop)]
pub struct LastEntries {
    /// That of channel 0.
    pub on_0: Option<Entry>,
    /// That of channel 1.
    pub on_1: Option<Entry>,
    /// That of channel 2.
    pub on_2: Option<Entry>,
}

impl LastEntries {
    /// Hands out the first of those that are left, by channel, and the channel; `None` where none
    /// is left.
    pub fn take_next(&mut self) -> Option<(Channel, Entry)>
        ensures next { MatchOption result (last_copies self.old ≡ []) (λ next.
            last_copies self.old ≡ marked next.0 (copy_of next.1) ∷ last_copies self.new) }
        ensures moment { AreInRange self.old
            → IfSome result (λ next. next.1.moment ≤ last_moment) }
        ensures range { AreInRange self.old → AreInRange self.new }
        ensures unchanged { IsNone result → self.new ≡ self.old }
    {
        if let Some(entry) = self.on_0.take() {
            return Some((Channel::Zero, entry));
        }
        if let Some(entry) = self.on_1.take() {
            return Some((Channel::One, entry));
        }
        let entry = self.on_2.take()?;
        Some((Channel::Two, entry))
    }
}

impl<M: Listed + FreshRecall> Listener<Receiver<M>> {
    /// What it leaves: of each channel the last 200 of all entries, those that it started with and
    /// those that were made, and what is selected now. Copies that stand open are no part of it.
    pub fn saved(&self) -> SavedSet
        ensures { (starts : Starts) (given : List Given) (copies : List MarkedCopy)
            → HearsOver M.content starts self.now given copies → (channel : Channel)
            → Leaves (start_on starts channel) (share channel given) (saved_of result channel) }
    {
        SavedSet::of(self.on_0.saved(), self.on_1.saved(), self.on_2.saved())
    }
}

impl<R: ChannelReceiver> Listener<R> {
    /// A listener that has heard nothing, and starts with what is saved. The receiver of each
    /// channel starts with the saved entries and the saved selection of the channel. All three
    /// start at the greatest moment of an entry, or 0 where there is none. Takes all memory that it
    /// ever needs, and fails where there is none.
    pub fn starting(alloc: Global, saved: &SavedSet) -> Result<Listener<R>, AllocError>
        ensures heard { IfOk result (λ listener.
            HearsBy R.kind (starts_from saved.now) listener [] []) }
        ensures start { IfOk result (λ listener.
            starts_by R.kind listener ≡ starts_from saved.now) }
        ensures none { IfOk result (λ listener. listener.has_moment ≡ false) }
        ensures range { OnOk result ((starts_from saved.now).moment ≤ last_moment) }
    {
        prove!(size_of::<Listener>() == 3 * size_of::<Receiver<RingRecall>>() + 24);
        let (selected_0, kept_0) = kept_on(saved, Channel::Zero);
        let (selected_1, kept_1) = kept_on(saved, Channel::One);
        let (selected_2, kept_2) = kept_on(saved, Channel::Two);
        let moment = saved.newest().unwrap_or(0);
        let on_0 = R::from_saved(alloc, selected_0, kept_0, moment)?;
        let on_1 = R::from_saved(alloc, selected_1, kept_1, moment)?;
        let on_2 = R::from_saved(alloc, selected_2, kept_2, moment)?;
        Ok(Listener {
            on_0,
            on_1,
            on_2,
            has_moment: false,
            elements: 0,
            entries: 0,
        })
    }

    /// Sets the moment of all channels, in whole seconds since 1970-01-01 00:00:00 UTC. `Range`
    /// where it is past 2999-12-31 23:59:59, else `Back` where it is before the one in force; the
    /// listener then stays as it was.
    pub fn set_moment(&mut self, moment: u64) -> Result<(), MomentFault>
        ensures heard { (starts : Starts) (given : List Given) (copies : List MarkedCopy)
            → HearsBy R.kind starts self.old given copies → MatchResult result
            (λ _. (moment_in_force starts.moment given ≤ moment) × (moment ≤ last_moment)
            × HearsBy R.kind starts self.new (then_moment given moment) copies)
            (λ fault. Refuses (moment_in_force starts.moment given) moment fault
            × (self.new ≡ self.old)) }
        ensures noted { OnOk result (self.new.has_moment ≡ true) }
    {
        self.set_moments(moment)?;
        self.has_moment = true;
        Ok(())
    }

    /// Sets the moment of each receiver. Where all have the same one, all take the next or none
    /// does.
    fn set_moments(&mut self, moment: u64) -> Result<(), MomentFault>
        ensures stands { OnOk result ((channel : Channel)
            → TakesEventBy R.kind (receiver_on self.old channel) (receiver_on self.new channel)
            (at_moment moment)) }
        ensures taken { OnOk result
            (((R.kind.start_of self.old.on_0).moment ≤ moment) × (moment ≤ last_moment)) }
        ensures refused { (R.kind.start_of self.old.on_1).moment
            ≡ (R.kind.start_of self.old.on_0).moment
            → (R.kind.start_of self.old.on_2).moment ≡ (R.kind.start_of self.old.on_0).moment
            → IfErr result (λ fault.
            Refuses (R.kind.start_of self.old.on_0).moment moment fault × (self.new ≡ self.old)) }
        ensures elements { self.new.elements ≡ self.old.elements }
        ensures entries { self.new.entries ≡ self.old.entries }
    {
        self.on_0.set_moment(moment)?;
        self.on_1.set_moment(moment)?;
        self.on_2.set_moment(moment)
    }

    /// Does on a channel what the command says, from here on. `Vital` where it is to refuse subject
    /// A, B, D or L (ITU-R M.540); the listener then stays as it was.
    // A call, so that a line of elements, or a moment, doesn't pay for its registers.
    #[inline(never)]
    pub fn command(&mut self, channel: Channel, command: Command) -> Result<(), Vital>
        ensures heard { OnOk result ((starts : Starts) (given : List Given)
            (copies : List MarkedCopy) → HearsBy R.kind starts self.old given copies
            → HearsBy R.kind starts self.new
            (then_command given channel (said command)) copies) }
        ensures vital { IsErr result ↔ IsTrue (refuses_vital (said command)) }
        ensures fault { IfErr result (λ vital. command ≡ RefuseSubject vital.subject) }
        ensures unchanged { OnErr result (self.new ≡ self.old) }
        ensures stands { OnOk result
            (TakesEventBy R.kind (receiver_on self.old channel) (receiver_on self.new channel)
            (events.command (said command))) }
        ensures only { self.new ≡ with_receiver self.old channel (receiver_on self.new channel) }
    {
        match channel {
            Channel::Zero => self.on_0.command(command),
            Channel::One => self.on_1.command(command),
            Channel::Two => self.on_2.command(command),
        }
    }

    /// Whether there was a moment.
    #[inline(always)]
    pub fn has_moment(&self) -> bool
        ensures { result ≡ self.now.has_moment }
    {
        self.has_moment
    }

    /// How many elements were heard, at most the greatest u64.
    pub fn elements(&self) -> u64
        ensures { result ≡ self.now.elements }
    {
        self.elements
    }

    /// How many entries were handed out, at most the greatest u64.
    pub fn entries(&self) -> u64
        ensures { result ≡ self.now.entries }
    {
        self.entries
    }

    /// Hears elements of a channel, from a place on, up to and with the one that ends the first
    /// copy that is printed; says how many it heard, and the head of the entry. Its text is `text`
    /// of the channel, until more is heard there. With `None` it heard all. The place is at most
    /// behind the last one.
    #[inline(always)]
    pub fn next_printed(
        &mut self,
        channel: Channel,
        packed: &PackedElements,
        from: usize,
    ) -> (usize, Option<EntryHead>)
        requires { from ≤ length packed.now }
        ensures heard { (starts : Starts) (given : List Given) (part : List Bool)
            (copies : List MarkedCopy)
            → HearsBy R.kind starts self.old (then_elements given channel part) copies
            → HearsBy R.kind starts self.new
            (then_elements given channel (part ++ take result.0 (drop from packed.now)))
            (copies ++ map (marked channel)
            (headed_list result.1 (text_by R.kind self.new channel))) }
        ensures first { (starts : Starts) (given : List Given) (part : List Bool)
            (copies : List MarkedCopy)
            → HearsBy R.kind starts self.old (then_elements given channel part) copies
            → (k : ℕ) → k < result.0 → PrintsInTurnBy R.kind.printing starts
            (then_elements given channel (part ++ take k (drop from packed.now))) copies }
        ensures within { from + result.0 ≤ length packed.now }
        ensures all { IsNone result.1 → from + result.0 ≡ length packed.now }
        ensures some { IsSome result.1 → 0 < result.0 }
        ensures head { IfSome result.1 (λ head. HeadsText head (text_by R.kind self.new channel)) }
        ensures moment { self.new.has_moment ≡ self.old.has_moment }
    {
        if from >= packed.len() {
            return (0, None);
        }
        let (count, over) = self.hear_on(channel, packed, from);
        // Mostly nothing is over: no place for a head is cleared.
        let Some(over) = over else {
            self.elements = self.elements.saturating_add(count as u64);
            return (count, None);
        };
        let (more, head) = self.finish_next_on(channel, over, packed, from + count);
        self.elements = self.elements.saturating_add((count + more) as u64);
        self.entries = self.entries.saturating_add(u64::from(head.is_some()));
        (count + more, head)
    }

    /// Hears elements of a channel, from a place on, up to and with the first one with which
    /// something is over that may bring an entry; says how many, and what is over. The place is at
    /// most behind the last one.
    #[inline(always)]
    fn hear_on(
        &mut self,
        channel: Channel,
        packed: &PackedElements,
        from: usize,
    ) -> (usize, Option<R::Over>)
        requires { from ≤ length packed.now }
        ensures within { from + result.0 ≤ length packed.now }
        ensures stands { HearsUpToBy R.kind R.awaits (receiver_on self.old channel)
            (receiver_on self.new channel) (take result.0 (drop from packed.now)) result.1 }
        ensures first { HandsOutNoneBeforeBy R.kind (receiver_on self.old channel)
            (drop from packed.now) result.0 }
        ensures all { result.1 ≡ None → from + result.0 ≡ length packed.now }
        ensures some { from < length packed.now → 0 < result.0 }
        ensures only { self.new ≡ with_receiver self.old channel (receiver_on self.new channel) }
    {
        match channel {
            Channel::Zero => self.on_0.hear(packed, from),
            Channel::One => self.on_1.hear(packed, from),
            Channel::Two => self.on_2.hear(packed, from),
        }
    }

    /// Finishes what is over on a channel. Where that isn't printed it hears on there, from a place
    /// on, as `next_printed` does, but counts nothing. The place is at most behind the last one.
    #[inline(always)]
    fn finish_next_on(
        &mut self,
        channel: Channel,
        over: R::Over,
        packed: &PackedElements,
        from: usize,
    ) -> (usize, Option<EntryHead>)
        requires { from ≤ length packed.now }
        ensures within { from + result.0 ≤ length packed.now }
        ensures finishes { FinishesNextBy R.kind R.awaits (receiver_on self.old channel)
            (receiver_on self.new channel) over (drop from packed.now) result.0
            (headed_list result.1 (text_by R.kind self.new channel)) }
        ensures all { IsNone result.1 → from + result.0 ≡ length packed.now }
        ensures head { IfSome result.1 (λ head. HeadsText head (text_by R.kind self.new channel)) }
        ensures only { self.new ≡ with_receiver self.old channel (receiver_on self.new channel) }
    {
        match channel {
            Channel::Zero => finish_next(&mut self.on_0, over, packed, from),
            Channel::One => finish_next(&mut self.on_1, over, packed, from),
            Channel::Two => finish_next(&mut self.on_2, over, packed, from),
        }
    }

    /// The text of the copy that stands open on a channel, or that ended last there: of the entry
    /// whose head was answered last for it, until more is heard there.
    // A call, so that the loop over elements has the registers to itself.
    #[inline(never)]
    pub fn text(&self, channel: Channel) -> &[u8]
        ensures text { result.now ≡ text_by R.kind self.now channel }
        ensures short { length result.now ≤ MAX_FOUND }
    {
        match channel {
            Channel::Zero => self.on_0.text(),
            Channel::One => self.on_1.text(),
            Channel::Two => self.on_2.text(),
        }
    }

    /// Hears elements of a channel as `next_printed` does; says how many it heard, and whether a
    /// copy is printed. Then `entry` has the bytes of its entry, with the mark of the channel, in
    /// place of what it had. With false it heard all, and `entry` is as it was. The place is at
    /// most behind the last one.
    #[inline(always)]
    pub fn hear_spelled(
        &mut self,
        channel: Channel,
        packed: &PackedElements,
        from: usize,
        entry: &mut ArrayVec<u8, MAX_ENTRY>,
    ) -> (usize, bool)
        requires { from ≤ length packed.now }
        ensures heard { (next : List TaggedCopy)
            × IsSpelled channel result.1 next entry.new.items
            × ((starts : Starts) (given : List Given) (part : List Bool) (copies : List MarkedCopy)
            → HearsBy R.kind starts self.old (then_elements given channel part) copies
            → HearsBy R.kind starts self.new
            (then_elements given channel (part ++ take result.0 (drop from packed.now)))
            (copies ++ map (marked channel) next)) }
        ensures first { (starts : Starts) (given : List Given) (part : List Bool)
            (copies : List MarkedCopy)
            → HearsBy R.kind starts self.old (then_elements given channel part) copies
            → (k : ℕ) → k < result.0 → PrintsInTurnBy R.kind.printing starts
            (then_elements given channel (part ++ take k (drop from packed.now))) copies }
        ensures within { from + result.0 ≤ length packed.now }
        ensures all { result.1 ≡ false → from + result.0 ≡ length packed.now }
        ensures some { result.1 ≡ true → 0 < result.0 }
        ensures unchanged { result.1 ≡ false → entry.new ≡ entry.old }
    {
        let (count, head) = self.next_printed(channel, packed, from);
        let Some(head) = head else {
            return (count, false);
        };
        spell_entry(&head, self.text(channel), channel, entry);
        (count, true)
    }

    /// Ends the elements of all channels, and hands out what their end prints: the entry of the
    /// copy that stands open on each channel, where it is printed.
    pub fn close(self) -> LastEntries
        ensures printed { (starts : Starts) (given : List Given) (copies : List MarkedCopy)
            → HearsBy R.kind starts self given copies
            → PrintAllToEndBy R.kind.printing starts given (copies ++ last_copies result) }
        ensures range { AreInRange result }
        ensures moment_0 { IfSome result.on_0 (λ entry. entry.moment ≤ last_moment) }
        ensures moment_1 { IfSome result.on_1 (λ entry. entry.moment ≤ last_moment) }
        ensures moment_2 { IfSome result.on_2 (λ entry. entry.moment ≤ last_moment) }
    {
        let (on_0, on_1, on_2) = (self.on_0.close(), self.on_1.close(), self.on_2.close());
        LastEntries { on_0, on_1, on_2 }
    }
}

/// What is selected on a channel at first, and what is saved of it.
fn kept_on(saved: &SavedSet, channel: Channel) -> (Selection, &Saved)
    ensures selected { result.0 ≡ (saved_of saved.now channel).refused }
    ensures kept { result.1.now ≡ saved_of saved.now channel }
    ensures sound { AreSavedEntries (saved_of saved.now channel).entries }
{
    let Some(kept) = saved.get(channel.number()) else {
        unreachable!()
    };
    (kept.selection(), kept)
}
