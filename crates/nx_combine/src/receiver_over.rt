//! A receiver that takes several sendings of a message together, wherever its families lie. It
//! hears as the plain receiver does, and notes the positions of each copy; only what a copy comes
//! to is another matter.

ghost use Rattle.std.specs.Prelude.{◌≡◌, ◌↔◌, ◌+◌, ◌<◌, ◌≤◌, List, [], ◌∷◌, ◌++◌, length, take, drop, IfErr, IfSome, IsErr, IsTrue, None, OnErr, OnOk, Some, true};
ghost use Rattle.nx_envelope.specs.Moment.{last_moment};
ghost use Rattle.nx_code.specs.Lists.{last_of};
ghost use Rattle.nx_memory.specs.Content.{last_known};
ghost use Rattle.nx_memory.specs.Memory.{most_entries, newest_moment};
ghost use Rattle.nx_copies.specs.Events as events;
ghost use Rattle.nx_copies.specs.Events.{Event, Start, at_moment};
ghost use Rattle.nx_copies.specs.copies.FoundCopies.{TaggedCopy, headed_copy};
ghost use Rattle.nx_copies.specs.hearing.CopyHearer.{ready_copies};
ghost use Rattle.nx_receiver.specs.ChannelReceiver.{HandsOutNoneBeforeBy, HearsUpToBy, TakesEventBy};
ghost use Rattle.nx_receiver.specs.Commands.{refuses_vital, said};
ghost use Rattle.nx_receiver.specs.declared.command.Command.TheVariants.{RefuseSubject};
ghost use Rattle.nx_receiver.specs.Moments.{Refuses};
ghost use Rattle.nx_receiver.specs.Receiver.{HeadsText, headed_list};
ghost use Rattle.nx_combine.specs.CombinedPrinting.{HasPrintedLastHolding, PrintsHoldingToEnd, PrintsLastHoldingToEnd};
ghost use Rattle.nx_combine.specs.CombinedReceiver.{AwaitsAfterAllHolding, LeavesHolding, StandsAfterAllHolding, combined_kind_holding, hearer_in, its_entries, receiver_in, text_over};
ghost use Rattle.nx_combine.specs.private.CombinedReceiver.{JudgesNext};
ghost use Rattle.nx_combine.specs.CopyPositions.{HeardCopy};
ghost use Rattle.nx_combine.specs.Judging.{Judged, StandsHolding, combiner_of, sendings_of_last};
ghost use Rattle.nx_combine.specs.Notes.{noted};

use crate::combiner::Combiner;
use crate::family_ring::FamilyRing;
use crate::holds_families::HoldsFamilies;
use crate::taker::CombinedTaker;
use nx_copies::{CopyTag, EntryHead, Over, hear_elements};
use nx_envelope::{Finder, MAX_FOUND};
use nx_fec::PackedElements;
use nx_memory::{Renewing, RenewingRecall, Saved, Selection, Vital};
use nx_receiver::{Command, MomentFault, check_moment};
use nx_sync::Synchroniser;
use std::marker::Model;

/// A receiver of one channel that takes several sendings of a message together: what is printed is
/// the message as all its sendings so far give it. Where its families lie in room that is given to
/// a call, that is the same room at each call.
///
/// It holds the synchroniser, the taker of copies and of their positions, what judges them, whether
/// the text of the entry that was printed last is what a family gave, from how many sendings that
/// entry is put together, and a memory of identities.
#[derive(Drop)]
pub struct ReceiverOver<S: HoldsFamilies, M: Renewing> {
    synchroniser: Synchroniser,
    taker: CombinedTaker,
    combiner: Combiner<S>,
    is_given: bool,
    sendings: u64,
    memory: M,
}

/// A receiver whose families lie in room that its caller lends: it takes no heap.
pub type LentReceiver<M> = ReceiverOver<FamilyRing, M>;

impl<S: HoldsFamilies, M: Renewing> Model for ReceiverOver<S, M> {
    ghost use Rattle.std.specs.Coded.{codes};
    ghost use Rattle.nx_memory.specs.private.RefusedCode.{refused_code};
    ghost use Rattle.nx_memory.specs.Memory.{newest_moment};
    ghost use Rattle.nx_receiver.specs.private.Awaiting.{IsInOrder};
    ghost use Rattle.nx_combine.specs.CombinedReceiver as combining;

    ghost Value = { combining.ReceiverOver S M };

    ghost coded = { Prim.hlevel (codes, refused_code, S.code, M.code) };

    ghost view = { λ r. record {
      synchroniser = r.synchroniser;
      taker = r.taker;
      store = r.combiner.store;
      finder = r.combiner.finder;
      is_given = r.is_given;
      sendings = r.sendings;
      memory = r.memory;
    } };

    ghost invariant = { λ r. IsInOrder (newest_moment (M.content r.memory))
        r.taker.copies.tag.moment r.taker.copies.moment };

    ghost inverse = { λ v. record {
      synchroniser = v.synchroniser;
      taker = v.taker;
      combiner = record { store = v.store; finder = v.finder };
      is_given = v.is_given;
      sendings = v.sendings;
      memory = v.memory;
    } };
}

impl<S: HoldsFamilies, M: Renewing> ReceiverOver<S, M> {
    /// A receiver that has heard nothing, with what is to hold its families, a memory, the first
    /// moment, in whole seconds since 1970-01-01 00:00:00 UTC, and the first selection. The moment
    /// isn't past 2999-12-31 23:59:59, and not before the newest of the memory.
    pub fn beginning(store: S, memory: M, moment: u64, selection: Selection) -> ReceiverOver<S, M>
        requires newest { newest_moment (M.content memory) ≤ moment }
        requires range { moment ≤ last_moment }
        ensures stands { (places : List S.Place) (start : Start)
            → (S.held store places).families ≡ [] → (S.held store places).printed ≡ []
            → start.entries ≡ M.content memory → start.moment ≡ moment → start.refused ≡ selection
            → StandsAfterAllHolding (S.most places) M.content start
            (receiver_in S.held result places) [] [] }
        ensures store { result.store ≡ store }
        ensures memory { result.memory ≡ memory }
    {
        let _newest = memory.newest();
        let taker = CombinedTaker::new(moment, selection);
        ReceiverOver {
            synchroniser: Synchroniser::hunting(),
            taker,
            combiner: Combiner {
                store,
                finder: Finder::new(),
            },
            is_given: false,
            sendings: 0,
            memory,
        }
    }

    /// Sets the moment, in whole seconds since 1970-01-01 00:00:00 UTC. `Range` where it is past
    /// 2999-12-31 23:59:59, else `Back` where it is before the last one; the receiver then stays as
    /// it was.
    pub fn set_moment(&mut self, moment: u64) -> Result<(), MomentFault>
        ensures stands { OnOk result
            ((places : List S.Place)
            → TakesEventBy (combined_kind_holding (S.most places) M.content)
            (receiver_in S.held self.old places) (receiver_in S.held self.new places)
            (at_moment moment)) }
        ensures taken { OnOk result
            ((self.old.taker.copies.moment ≤ moment) × (moment ≤ last_moment)) }
        ensures refused { IfErr result (Refuses self.old.taker.copies.moment moment) }
        ensures unchanged { OnErr result (self.new ≡ self.old) }
        ensures store { self.new.store ≡ self.old.store }
    {
        check_moment(self.taker.copies.moment, moment)?;
        self.taker.copies.moment = moment;
        Ok(())
    }

    /// Does what the command says, from here on. `Vital` where it is to refuse subject A, B, D or L
    /// (ITU-R M.540); the receiver then stays as it was.
    #[inline(always)]
    pub fn command(&mut self, command: Command) -> Result<(), Vital>
        ensures stands { OnOk result ((places : List S.Place)
            → TakesEventBy (combined_kind_holding (S.most places) M.content)
            (receiver_in S.held self.old places) (receiver_in S.held self.new places)
            (events.command (said command))) }
        ensures vital { IsErr result ↔ IsTrue (refuses_vital (said command)) }
        ensures fault { IfErr result (λ vital. command ≡ RefuseSubject vital.subject) }
        ensures unchanged { OnErr result (self.new ≡ self.old) }
        ensures store { self.new.store ≡ self.old.store }
    {
        let selection = &mut self.taker.copies.selection;
        match command {
            Command::RefuseStation(station) => selection.refuse_station(station),
            Command::AcceptStation(station) => selection.accept_station(station),
            Command::RefuseSubject(subject) => return selection.refuse_subject(subject),
            Command::AcceptSubject(subject) => selection.accept_subject(subject),
        }
        Ok(())
    }

    /// The text of the entry whose head was answered last, until more is heard.
    pub fn text(&self) -> &[u8]
        ensures text { result.now ≡ text_over self.now }
        ensures short { length result.now ≤ MAX_FOUND }
    {
        if self.is_given {
            self.combiner.text()
        } else {
            self.taker.copies.reader.finder().text()
        }
    }

    /// From how many sendings the entry is put together whose head was answered last: 1 where it is
    /// a copy as it was heard, and 0 where none was answered yet.
    pub fn sendings(&self) -> u64
        ensures sendings { result ≡ self.now.sendings }
        ensures counted { (places : List S.Place) (start : Start) (history : List Event)
            (log : List TaggedCopy) (copy : TaggedCopy)
            → StandsAfterAllHolding (S.most places) M.content start
            (receiver_in S.held self.now places) history (log ++ copy ∷ [])
            → HasPrintedLastHolding (S.most places) start history copy result }
    {
        self.sendings
    }

    /// Hears elements up to and with the first one with which something is over, all of them where
    /// nothing is. Says how many, and what is over. `finish` is due then, before anything else is
    /// heard.
    #[inline(always)]
    pub fn hear(&mut self, packed: &PackedElements, from: usize) -> (usize, Option<Over>)
        requires { from ≤ length packed.now }
        ensures within { from + result.0 ≤ length packed.now }
        ensures stands { (places : List S.Place)
            → HearsUpToBy (combined_kind_holding (S.most places) M.content)
            (AwaitsAfterAllHolding (S.most places) M.content)
            (receiver_in S.held self.old places) (receiver_in S.held self.new places)
            (take result.0 (drop from packed.now)) result.1 }
        ensures first { (places : List S.Place)
            → HandsOutNoneBeforeBy (combined_kind_holding (S.most places) M.content)
            (receiver_in S.held self.old places) (drop from packed.now) result.0 }
        ensures all { result.1 ≡ None → from + result.0 ≡ length packed.now }
        ensures some { from < length packed.now → 0 < result.0 }
        ensures store { self.new.store ≡ self.old.store }
    {
        let left = packed.len() - from;
        let numbers = packed.numbers();
        hear_elements(&mut self.taker, &mut self.synchroniser, numbers, from, left)
    }

    /// Finishes what is over, and says the head of the entry that it brings, if it brings one. Its
    /// text is `text`, until more is heard. Where the lock alone is over, the end of its text ends
    /// the copy that stood open. Where a copy is over with it, the copy is judged first, and then
    /// the lock is left: that keeps the text.
    #[inline(never)]
    pub fn finish(&mut self, places: &mut [S::Place], over: Over) -> Option<EntryHead>
        requires { S.fits self.old.store places.old }
        ensures fits { S.fits self.new.store places.new }
        ensures room { S.most places.new ≡ S.most places.old }
        ensures stands { (start : Start) (history : List Event) (log : List TaggedCopy) →
            AwaitsAfterAllHolding (S.most places.old) M.content start
            (receiver_in S.held self.old places.old) history log (Some over)
            → StandsAfterAllHolding (S.most places.old) M.content start
            (receiver_in S.held self.new places.new) history
            (log ++ headed_list result (text_over self.new)) }
        ensures counted { IfSome result (λ head. (start : Start) (history : List Event)
            (log : List TaggedCopy) → AwaitsAfterAllHolding (S.most places.old) M.content start
            (receiver_in S.held self.old places.old) history log (Some over)
            → HasPrintedLastHolding (S.most places.old) start history
            (headed_copy head (text_over self.new) true) self.new.sendings) }
        ensures head { IfSome result (λ head. HeadsText head (text_over self.new)) }
    {
        match over {
            Over::Copy => self.judge_ready(places),
            Over::Lock => {
                self.taker.close();
                self.judge_ready(places)
            }
            Over::CopyAndLock => {
                let head = self.judge_ready(places);
                self.taker.leave_lock();
                head
            }
        }
    }

    /// Ends the elements in place, and says the head of the entry that their end prints: that of
    /// the open copy, taken together with its family, where it is printed. Its text is `text`.
    /// Nothing is to be heard after it.
    pub fn end(&mut self, places: &mut [S::Place]) -> Option<EntryHead>
        requires { S.fits self.old.store places.old }
        ensures fits { S.fits self.new.store places.new }
        ensures room { S.most places.new ≡ S.most places.old }
        ensures stands { (start : Start) (history : List Event) (log : List TaggedCopy) →
            StandsAfterAllHolding (S.most places.old) M.content start
            (receiver_in S.held self.old places.old) history log
            → PrintsHoldingToEnd (S.most places.old) start history
            (log ++ headed_list result (text_over self.new)) }
        ensures counted { IfSome result (λ head. (start : Start) (history : List Event)
            (log : List TaggedCopy) → StandsAfterAllHolding (S.most places.old) M.content start
            (receiver_in S.held self.old places.old) history log
            → PrintsLastHoldingToEnd (S.most places.old) start history
            (headed_copy head (text_over self.new) true) self.new.sendings) }
        ensures head { IfSome result (λ head. HeadsText head (text_over self.new)) }
    {
        self.taker.close();
        self.judge_ready(places)
    }

    /// Judges the copy that the finder has, where it has one, with the positions that were noted.
    /// Answers the head of its entry where it is printed.
    fn judge_ready(&mut self, places: &mut [S::Place]) -> Option<EntryHead>
        requires { S.fits self.old.store places.old }
        ensures fits { S.fits self.new.store places.new }
        ensures room { S.most places.new ≡ S.most places.old }
        ensures none { ready_copies (hearer_in (receiver_in S.held self.old places.old)) ≡ []
            → (result ≡ None) × (self.new.memory ≡ self.old.memory)
            × (combiner_of (S.held self.new.store places.new) self.new.finder
            ≡ combiner_of (S.held self.old.store places.old) self.old.finder)
            × (self.new.sendings ≡ self.old.sendings) }
        ensures judged { (so_far : Judged) (heard : HeardCopy)
            → ready_copies (hearer_in (receiver_in S.held self.old places.old)) ≡ heard.copy ∷ []
            → self.old.taker.notes.positions ≡ noted heard.positions
            → M.content self.old.memory ≡ last_of most_entries so_far.entries
            → StandsHolding (S.most places.old)
            (combiner_of (S.held self.old.store places.old) self.old.finder) so_far.families
            so_far.printed
            → self.old.sendings ≡ sendings_of_last so_far.printed
            → JudgesNext (S.most places.old) M.content self.new.memory
            (combiner_of (S.held self.new.store places.new) self.new.finder) self.new.sendings
            so_far heard (headed_list result (text_over self.new)) }
        ensures taker { self.new.taker ≡ self.old.taker }
        ensures synchroniser { self.new.synchroniser ≡ self.old.synchroniser }
        ensures head { IfSome result (λ head. HeadsText head (text_over self.new)) }
    {
        let CopyTag {
            moment,
            is_selected,
        } = self.taker.copies.tag;
        let finder = self.taker.copies.reader.finder();
        let found = finder.ready_head()?;
        let head = EntryHead {
            identity: found.identity,
            moment,
            how: found.how,
            errors: found.errors,
        };
        let positions = self.taker.notes.positions();
        let printed = self.combiner.judge(
            places,
            &head,
            finder.text(),
            is_selected,
            positions,
            &mut self.memory,
        )?;
        self.is_given = printed.is_given;
        self.sendings = printed.sendings;
        Some(printed.head)
    }
}

impl<S: HoldsFamilies> ReceiverOver<S, RenewingRecall> {
    /// What a receiver keeps while it is switched off: what is selected now, and the entries of its
    /// memory, but those behind which one of their identity stands less than 66 hours later. A copy
    /// that stands open is no part of it, nor are the families.
    pub fn saved(&self) -> Saved
        ensures leaves { (places : List S.Place) (start : Start) (history : List Event)
            (log : List TaggedCopy)
            → StandsAfterAllHolding (S.most places) its_entries start
            (receiver_in S.held self.now places) history log
            → LeavesHolding (S.most places) start history result }
        ensures entries { result.entries ≡ last_known self.now.memory }
        ensures refused { result.refused ≡ self.now.taker.copies.selection }
    {
        Saved::of_renewing(&self.taker.copies.selection, &self.memory)
    }
}
