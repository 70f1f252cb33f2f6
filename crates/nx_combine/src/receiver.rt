//! The receiver that takes several sendings of a message together. It hears as the plain receiver
//! does, and notes the positions of each copy; only what a copy comes to is another matter.

ghost use Rattle.std.specs.Prelude.{◌≡◌, ◌↔◌, ◌+◌, ◌<◌, ◌≤◌, List, [], ◌∷◌, ◌++◌, length, take, drop, IfErr, IfOk, IfSome, IsErr, IsTrue, None, OnErr, OnOk, Some};
ghost use Rattle.nx_envelope.specs.Moment.{last_moment};
ghost use Rattle.nx_memory.specs.Memory.{newest_moment};
ghost use Rattle.nx_copies.specs.Events as events;
ghost use Rattle.nx_copies.specs.Events.{Event, Start, at_moment};
ghost use Rattle.nx_copies.specs.copies.FoundCopies.{TaggedCopy};
ghost use Rattle.nx_receiver.specs.ChannelReceiver.{HandsOutNoneBeforeBy, HearsUpToBy, TakesEventBy};
ghost use Rattle.nx_receiver.specs.Commands.{refuses_vital, said};
ghost use Rattle.nx_receiver.specs.declared.command.Command.TheVariants.{RefuseSubject};
ghost use Rattle.nx_receiver.specs.Moments.{Refuses};
ghost use Rattle.nx_receiver.specs.Receiver.{HeadsText, RefusesStart, entry_list, headed_list};
ghost use Rattle.nx_combine.specs.CombinedPrinting.{PrintsCombinedToEnd};
ghost use Rattle.nx_combine.specs.CombinedReceiver.{AwaitsAfterAll, StandsAfterAll, combined_kind, text_in};

use crate::families::Families;
use crate::receiver_over::ReceiverOver;
use nx_copies::{Entry, EntryHead, Over};
use nx_envelope::{LAST_MOMENT, MAX_FOUND};
use nx_fec::PackedElements;
use nx_memory::{Renewing, Selection, Vital};
use nx_receiver::{Command, MomentFault, ReceiverFault};
use std::alloc::Global;
use std::marker::Model;

/// A receiver of one channel that takes several sendings of a message together: what is printed is
/// the message as all its sendings so far give it.
///
/// It holds the last 200 families, in memory that is taken when it is made.
#[derive(Drop)]
pub struct CombinedReceiver<M: Renewing> {
    receiver: ReceiverOver<Families, M>,
}

impl<M: Renewing> Model for CombinedReceiver<M> {
    ghost use Rattle.std.specs.Coded.{codes};
    ghost use Rattle.nx_memory.specs.private.RefusedCode.{refused_code};
    ghost use Rattle.nx_combine.specs.CombinedReceiver.{CombiningReceiver, receiver_held};

    ghost Value = { CombiningReceiver M };

    ghost coded = { Prim.hlevel (codes, refused_code, M.code) };

    ghost view = { λ r. receiver_held r.receiver };

    ghost inverse = { λ v. record {
      receiver = record {
        synchroniser = v.synchroniser;
        taker = v.taker;
        store = record { families = v.combiner.families; printed = v.combiner.printed };
        finder = v.combiner.finder;
        is_given = v.is_given;
        sendings = v.sendings;
        memory = v.memory;
      };
    } };
}

impl<M: Renewing> CombinedReceiver<M> {
    /// A receiver that has heard nothing, with a memory, the first moment, in whole seconds since
    /// 1970-01-01 00:00:00 UTC, and the first selection. Takes all memory that it ever needs.
    ///
    /// `MomentRange` where the moment is past 2999-12-31 23:59:59 or before the newest of the
    /// memory of identities; else `Memory` where there is no memory.
    pub fn starting(
        alloc: Global,
        memory: M,
        moment: u64,
        selection: Selection,
    ) -> Result<CombinedReceiver<M>, ReceiverFault>
        ensures stands { (start : Start) → start.entries ≡ M.content memory → start.moment ≡ moment
            → start.refused ≡ selection
            → IfOk result (λ r. StandsAfterAll M.content start r [] []) }
        ensures memory { IfOk result (λ r. r.memory ≡ memory) }
        ensures refused { IfErr result (RefusesStart (newest_moment (M.content memory)) moment) }
    {
        if moment > LAST_MOMENT || memory.newest().is_some_and(|newest| moment < newest) {
            return Err(ReceiverFault::MomentRange);
        }
        let families = match Families::new(alloc) {
            Ok(families) => families,
            Err(refused) => return Err(ReceiverFault::Memory(refused)),
        };
        let receiver = ReceiverOver::beginning(families, memory, moment, selection);
        Ok(CombinedReceiver { receiver })
    }

    /// Sets the moment, in whole seconds since 1970-01-01 00:00:00 UTC. `Range` where it is past
    /// 2999-12-31 23:59:59, else `Back` where it is before the last one; the receiver then stays as
    /// it was.
    pub fn set_moment(&mut self, moment: u64) -> Result<(), MomentFault>
        ensures stands { OnOk result
            (TakesEventBy (combined_kind M.content) self.old self.new (at_moment moment)) }
        ensures taken { OnOk result
            ((self.old.taker.copies.moment ≤ moment) × (moment ≤ last_moment)) }
        ensures refused { IfErr result (Refuses self.old.taker.copies.moment moment) }
        ensures unchanged { OnErr result (self.new ≡ self.old) }
    {
        self.receiver.set_moment(moment)
    }

    /// Does what the command says, from here on. `Vital` where it is to refuse subject A, B, D or L
    /// (ITU-R M.540); the receiver then stays as it was.
    #[inline(always)]
    pub fn command(&mut self, command: Command) -> Result<(), Vital>
        ensures stands { OnOk result (TakesEventBy (combined_kind M.content) self.old self.new
            (events.command (said command))) }
        ensures vital { IsErr result ↔ IsTrue (refuses_vital (said command)) }
        ensures fault { IfErr result (λ vital. command ≡ RefuseSubject vital.subject) }
        ensures unchanged { OnErr result (self.new ≡ self.old) }
    {
        self.receiver.command(command)
    }

    /// The text of the entry whose head was answered last, until more is heard.
    pub fn text(&self) -> &[u8]
        ensures text { result.now ≡ text_in self.now }
        ensures short { length result.now ≤ MAX_FOUND }
    {
        self.receiver.text()
    }

    /// Hears elements up to and with the first one with which something is over, all of them where
    /// nothing is. Says how many, and what is over. `finish` is due then, before anything else is
    /// heard.
    #[inline(always)]
    pub fn hear(&mut self, packed: &PackedElements, from: usize) -> (usize, Option<Over>)
        requires { from ≤ length packed.now }
        ensures within { from + result.0 ≤ length packed.now }
        ensures stands { HearsUpToBy (combined_kind M.content) (AwaitsAfterAll M.content) self.old
            self.new (take result.0 (drop from packed.now)) result.1 }
        ensures first { HandsOutNoneBeforeBy (combined_kind M.content) self.old
            (drop from packed.now) result.0 }
        ensures all { result.1 ≡ None → from + result.0 ≡ length packed.now }
        ensures some { from < length packed.now → 0 < result.0 }
    {
        self.receiver.hear(packed, from)
    }

    /// Finishes what is over, and says the head of the entry that it brings, if it brings one. Its
    /// text is `text`, until more is heard. Where the lock alone is over, the end of its text ends
    /// the copy that stood open. Where a copy is over with it, the copy is judged first, and then
    /// the lock is left: that keeps the text.
    #[inline(always)]
    pub fn finish(&mut self, over: Over) -> Option<EntryHead>
        ensures stands { (start : Start) (history : List Event) (log : List TaggedCopy) →
            AwaitsAfterAll M.content start self.old history log (Some over)
            → StandsAfterAll M.content start self.new history
            (log ++ headed_list result (text_in self.new)) }
        ensures head { IfSome result (λ head. HeadsText head (text_in self.new)) }
    {
        self.receiver.finish(&mut [], over)
    }

    /// Ends the elements, and hands out the entry that their end prints: that of the open copy,
    /// taken together with its family, where it is printed.
    pub fn close(self) -> Option<Entry>
        ensures stands { (start : Start) (history : List Event) (log : List TaggedCopy) →
            StandsAfterAll M.content start self history log
            → PrintsCombinedToEnd start history (log ++ entry_list result) }
        ensures moment { IfSome result (λ entry. entry.moment ≤ last_moment) }
    {
        let mut receiver = self.receiver;
        let head = receiver.end(&mut [])?;
        Some(Entry::of(&head, receiver.text()))
    }
}
