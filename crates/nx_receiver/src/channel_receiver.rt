//! A receiver of one channel, of whatever kind: what a listener calls of it, and what it may rely
//! on.

ghost use Rattle.std.specs.Prelude.{◌≡◌, ◌↔◌, ℕ, ◌+◌, ◌<◌, ◌≤◌, List, [], ◌++◌, length, take, drop, IfErr, IfOk, IfSome, IsErr, IsNone, IsSome, IsTrue, None, OnErr, OnOk, Some};
ghost use Rattle.nx_envelope.specs.Moment.{last_moment};
ghost use Rattle.nx_memory.specs.Memory.{newest_moment};
ghost use Rattle.nx_copies.specs.Events as events;
ghost use Rattle.nx_copies.specs.Events.{Event, Start, at_moment, elements};
ghost use Rattle.nx_copies.specs.copies.FoundCopies.{TaggedCopy};
ghost use Rattle.nx_receiver.specs.Commands.{refuses_vital, said};
ghost use Rattle.nx_receiver.specs.declared.command.Command.TheVariants.{RefuseSubject};
ghost use Rattle.nx_receiver.specs.ChannelReceiver.{AwaitsFinish, HandsOutNoneBeforeBy, HearsUpToBy, IsReceiver, NothingAwaited, ReceiverKind, TakesEventBy};
ghost use Rattle.nx_receiver.specs.private.ChannelReceiver.{FinishesNextBy};
ghost use Rattle.nx_receiver.specs.Moments.{Refuses};
ghost use Rattle.nx_receiver.specs.Receiver.{HeadsText, entry_list, headed_list};

use crate::command::Command;
use crate::fault::MomentFault;
use crate::fresh_recall::FreshRecall;
use crate::receiver::Receiver;
use nx_copies::{Entry, EntryHead, Over};
use nx_envelope::MAX_FOUND;
use nx_fec::PackedElements;
use nx_memory::{Saved, Selection, Vital};
use std::alloc::{AllocError, Global};

/// A receiver of one channel, which is given elements, moments and commands, and hands out an entry
/// for each copy that it prints. What it prints is its own matter: each copy judged alone, or
/// several sendings taken together.
pub trait ChannelReceiver: Drop {
    /// What can be over with an element, at which the hearing stops.
    type Over: Copy;

    /// What it prints, after which events it stands, with what it starts, and its text.
    ghost kind: { ReceiverKind Self };

    /// After which events it stands but for what is over, which is yet to be finished.
    ghost awaits: { AwaitsFinish Self Self.Over };

    /// A receiver that has heard nothing, and starts with this selection and the saved entries, at
    /// this moment. Takes all memory that it ever needs, and fails where there is none.
    fn from_saved(
        alloc: Global,
        selected: Selection,
        kept: &Saved,
        moment: u64,
    ) -> Result<Self, AllocError>
        requires newest { newest_moment kept.now.entries ≤ moment }
        requires range { moment ≤ last_moment }
        ensures stands { (start : Start) → start.entries ≡ kept.now.entries
            → start.moment ≡ moment → start.refused ≡ selected
            → IfOk result (λ r. kind.stands start r [] []) }
        ensures kept { IfOk result (λ r. (kind.start_of r).entries ≡ kept.now.entries) };

    /// Sets the moment, in whole seconds since 1970-01-01 00:00:00 UTC. `Range` where it is past
    /// 2999-12-31 23:59:59, else `Back` where it is before the last one; the receiver then stays as
    /// it was.
    fn set_moment(&mut self, moment: u64) -> Result<(), MomentFault>
        ensures stands { OnOk result (TakesEventBy kind self.old self.new (at_moment moment)) }
        ensures taken { OnOk result
            (((kind.start_of self.old).moment ≤ moment) × (moment ≤ last_moment)) }
        ensures refused { IfErr result (Refuses (kind.start_of self.old).moment moment) }
        ensures unchanged { OnErr result (self.new ≡ self.old) };

    /// Does what the command says, from here on. `Vital` where it is to refuse subject A, B, D or L
    /// (ITU-R M.540); the receiver then stays as it was.
    fn command(&mut self, command: Command) -> Result<(), Vital>
        ensures stands { OnOk result (TakesEventBy kind self.old self.new
            (events.command (said command))) }
        ensures vital { IsErr result ↔ IsTrue (refuses_vital (said command)) }
        ensures fault { IfErr result (λ vital. command ≡ RefuseSubject vital.subject) }
        ensures unchanged { OnErr result (self.new ≡ self.old) };

    /// Hears elements from a place on, up to and with the first one with which something is over,
    /// all of them where nothing is. The place is at most behind the last one. Says how many, and
    /// what is over. `finish` is due then, before anything else is heard.
    fn hear(&mut self, packed: &PackedElements, from: usize) -> (usize, Option<Self::Over>)
        requires { from ≤ length packed.now }
        ensures within { from + result.0 ≤ length packed.now }
        ensures stands { HearsUpToBy kind awaits self.old self.new
            (take result.0 (drop from packed.now)) result.1 }
        ensures first { HandsOutNoneBeforeBy kind self.old (drop from packed.now) result.0 }
        ensures all { result.1 ≡ None → from + result.0 ≡ length packed.now }
        ensures some { from < length packed.now → 0 < result.0 };

    /// Finishes what is over, and says the head of the entry that it brings, where it brings one.
    /// Its text is `text`, until more is heard.
    fn finish(&mut self, over: Self::Over) -> Option<EntryHead>
        ensures stands { (start : Start) (history : List Event) (log : List TaggedCopy)
            → awaits start self.old history log (Some over)
            → kind.stands start self.new history
            (log ++ headed_list result (kind.text_of self.new)) }
        ensures head { IfSome result (λ head. HeadsText head (kind.text_of self.new)) };

    /// The text of the entry whose head was answered last, until more is heard.
    fn text(&self) -> &[u8]
        ensures text { result.now ≡ kind.text_of self.now }
        ensures short { length result.now ≤ MAX_FOUND };

    /// Ends the elements, and hands out the entry that their end prints: that of the open copy,
    /// where it is printed.
    fn close(self) -> Option<Entry>
        ensures stands { (start : Start) (history : List Event) (log : List TaggedCopy)
            → kind.stands start self history log
            → kind.printing.to_end start history (log ++ entry_list result) }
        ensures moment { IfSome result (λ entry. entry.moment ≤ last_moment) };

    /// The laws of its kind.
    ghost laws: { IsReceiver kind };

    /// Where nothing is over, nothing is awaited.
    ghost none_awaited: { NothingAwaited kind awaits };
}

/// The receiver that judges each copy alone.
impl<M: FreshRecall> ChannelReceiver for Receiver<M> {
    ghost use Rattle.nx_receiver.specs.Receiver.{plain_kind};
    ghost use Rattle.nx_receiver.specs.private.Awaiting.{Awaits};
    ghost use Rattle.nx_receiver.specs.private.PlainReceiver.{none-awaited, plain-receiver};

    type Over = Over;

    ghost kind = { plain_kind M.content };

    ghost awaits = { Awaits M.content };

    fn from_saved(
        alloc: Global,
        selected: Selection,
        kept: &Saved,
        moment: u64,
    ) -> Result<Receiver<M>, AllocError> {
        let mut memory = M::fresh(alloc)?;
        kept.load(&mut memory);
        let Ok(receiver) = Receiver::starting(memory, moment, selected) else {
            unreachable!()
        };
        Ok(receiver)
    }

    fn set_moment(&mut self, moment: u64) -> Result<(), MomentFault> {
        Receiver::set_moment(self, moment)
    }

    #[inline(always)]
    fn command(&mut self, command: Command) -> Result<(), Vital> {
        Receiver::command(self, command)
    }

    #[inline(always)]
    fn hear(&mut self, packed: &PackedElements, from: usize) -> (usize, Option<Over>) {
        Receiver::hear(self, packed, from)
    }

    #[inline(always)]
    fn finish(&mut self, over: Over) -> Option<EntryHead> {
        Receiver::finish(self, over)
    }

    #[inline(always)]
    fn text(&self) -> &[u8] {
        Receiver::text(self)
    }

    #[inline(always)]
    fn close(self) -> Option<Entry> {
        Receiver::close(self)
    }

    ghost laws = { plain-receiver M.content };

    ghost none_awaited = { none-awaited M.content };
}

/// Hears packed elements from a place on, up to and with the one that ends the first copy that is
/// printed; says how many it heard, and the head of the entry. Its text is that of the receiver,
/// until more is heard. With `None` it heard all. The place is at most behind the last one.
pub(crate) fn next_printed_of<R: ChannelReceiver>(
    receiver: &mut R,
    packed: &PackedElements,
    from: usize,
) -> (usize, Option<EntryHead>)
    requires { from ≤ length packed.now }
    ensures within { from + result.0 ≤ length packed.now }
    ensures stands { (start : Start) (history : List Event) (log : List TaggedCopy)
        → R.kind.stands start receiver.old history log → R.kind.stands start receiver.new
        (history ++ elements (take result.0 (drop from packed.now)))
        (log ++ headed_list result.1 (R.kind.text_of receiver.new)) }
    ensures first { HandsOutNoneBeforeBy R.kind receiver.old (drop from packed.now) result.0 }
    ensures all { IsNone result.1 → from + result.0 ≡ length packed.now }
    ensures some { IsSome result.1 → 0 < result.0 }
    ensures head { IfSome result.1 (λ head. HeadsText head (R.kind.text_of receiver.new)) }
{
    let mut heard = 0;
    while heard < packed.len() - from {
        let (count, over) = receiver.hear(packed, from + heard);
        heard += count;
        let Some(over) = over else {
            return (heard, None);
        };
        let head = receiver.finish(over);
        if head.is_some() {
            return (heard, head);
        }
    }
    (heard, None)
}

/// Finishes what is over. Where that isn't printed it hears on, from a place on, as
/// `next_printed_of` does. The place is at most behind the last one.
// A call, as few elements end anything.
#[inline(never)]
pub(crate) fn finish_next<R: ChannelReceiver>(
    receiver: &mut R,
    over: R::Over,
    packed: &PackedElements,
    from: usize,
) -> (usize, Option<EntryHead>)
    requires { from ≤ length packed.now }
    ensures within { from + result.0 ≤ length packed.now }
    ensures finishes { FinishesNextBy R.kind R.awaits receiver.old receiver.new over
        (drop from packed.now) result.0 (headed_list result.1 (R.kind.text_of receiver.new)) }
    ensures all { IsNone result.1 → from + result.0 ≡ length packed.now }
    ensures head { IfSome result.1 (λ head. HeadsText head (R.kind.text_of receiver.new)) }
{
    let head = receiver.finish(over);
    if head.is_some() {
        return (0, head);
    }
    next_printed_of(receiver, packed, from)
}
