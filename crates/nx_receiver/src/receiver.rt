//! The receiver: elements, moments and commands in, entries out. It turns elements into copies,
//! each with the moment and the selection in force at its second digit. What runs for each line of
//! elements, or of a command, is inlined always. What goes on where something is over is a call, so
//! that no loop over elements has a place for an entry or its head.

ghost use Rattle.std.specs.Prelude.{◌≡◌, ◌↔◌, ℕ, Option, MatchResult, ◌+◌, ◌<◌, ◌≤◌, ◌==◌, ◌||◌, List, [], ◌++◌, length, take, drop, IfErr, IfOk, IfSome, IsErr, IsNone, IsSome, IsTrue, None, OnErr, OnOk, Some, Bool, true};
ghost use Rattle.nx_envelope.specs.Moment.{last_moment};
ghost use Rattle.nx_code.specs.Lists.{last_of};
ghost use Rattle.nx_memory.specs.Memory.{most_entries, newest_moment};
ghost use Rattle.nx_memory.specs.declared.memories.entry.MemoryEntry.{MemoryEntry};
ghost use Rattle.nx_memory.specs.Selection.{admits, is_vital};
ghost use Rattle.nx_receiver.specs.air_file_runs.Chain.{Leaves};
ghost use Rattle.nx_receiver.specs.Commands.{refuses_vital, said};
ghost use Rattle.nx_receiver.specs.declared.command.Command.TheVariants.{RefuseSubject};
ghost use Rattle.nx_copies.specs.Events as events;
ghost use Rattle.nx_receiver.specs.declared.fault.ReceiverFault.TheVariants.{MomentRange};
ghost use Rattle.nx_copies.specs.Events.{Event, Start, at_moment, first_setting, none_refused, setting_after_all, elements};
ghost use Rattle.nx_receiver.specs.Moments.{Refuses};
ghost use Rattle.nx_copies.specs.copies.Log.{PrintsToEnd};
ghost use Rattle.nx_copies.specs.copies.Printing.{entries_after, printed_copies};
ghost use Rattle.nx_receiver.specs.Receiver.{HandsOutNoneBefore, HeadsText, RefusesStart, Stands, TakesEvent, entry_list, headed_list, text_of};
ghost use Rattle.nx_receiver.specs.private.Awaiting.{Awaits, HearsUpTo};
ghost use Rattle.nx_copies.specs.copies.FoundCopies.{TaggedCopy};
ghost use Rattle.nx_copies.specs.hearing.CopyHearer.{ready_copies};

use crate::channel_receiver::next_printed_of;
use crate::command::Command;
use crate::fault::{MomentFault, ReceiverFault, check_moment};
use crate::fresh_recall::FreshRecall;
use nx_copies::{CopyTag, CopyTaker, Entry, EntryHead, Over, hear_elements, judge};
use nx_envelope::{Identity, LAST_MOMENT, Letter, MAX_FOUND};
use nx_fec::{MAX_ELEMENTS, PackedElements};
use nx_memory::{Listed, Recall, RingRecall, Saved, Selection, Vital};
use nx_sync::Synchroniser;
use std::alloc::Global;
use std::marker::Model;

/// A receiver of NAVTEX, which is given elements, moments and commands, and hands out an entry for
/// each copy that is printed.
///
/// It keeps what it needs for the next element, of fixed size: the synchroniser, the text of the
/// copy that began last, the selection, the moment, and a memory of identities. That no call asks
/// for memory and throws it away, reading and the trials of refused memory show.
#[derive(Drop)]
pub struct Receiver<M: Recall> {
    synchroniser: Synchroniser,
    taker: CopyTaker,
    memory: M,
}

impl<M: Recall> Model for Receiver<M> {
    ghost use Rattle.std.specs.Coded.{codes};
    ghost use Rattle.nx_memory.specs.private.RefusedCode.{refused_code};
    ghost use Rattle.nx_receiver.specs.Receiver.{Receiving};
    ghost use Rattle.nx_receiver.specs.private.Awaiting.{IsInOrder};
    ghost use Rattle.nx_copies.specs.hearing.CopyTaker.{hearer_of};
    ghost use Rattle.nx_memory.specs.Memory.{newest_moment};

    ghost Value = { Receiving M };

    ghost coded = { Prim.hlevel (codes, refused_code, M.code) };

    ghost view = { λ r. record {
      hearer = hearer_of r.synchroniser r.taker;
      memory = r.memory;
    } };

    ghost invariant = { λ r.
        IsInOrder (newest_moment (M.content r.memory)) r.taker.tag.moment r.taker.moment };

    ghost inverse = { λ v. record {
      synchroniser = v.hearer.synchroniser;
      taker = record {
        reader = v.hearer.reader;
        selection = v.hearer.refused;
        moment = v.hearer.moment;
        tag = v.hearer.tag;
      };
      memory = v.memory;
    } };
}

impl<M: Recall> Receiver<M> {
    /// A receiver that has heard nothing, with a memory and the first moment, in whole seconds
    /// since 1970-01-01 00:00:00 UTC. Everything is selected.
    ///
    /// `MomentRange` where the moment is past 2999-12-31 23:59:59 or before the newest of the
    /// memory; the memory of identities is then let go. It takes no memory of the allocator, so
    /// `Memory` is never answered: the call stays as it was when it took some.
    pub fn new(_alloc: Global, memory: M, moment: u64) -> Result<Receiver<M>, ReceiverFault>
        ensures stands { (start : Start) → start.entries ≡ M.content memory → start.moment ≡ moment
            → start.refused ≡ none_refused → IfOk result (λ r. Stands M.content start r [] []) }
        ensures refused { IfErr result (RefusesStart (newest_moment (M.content memory)) moment) }
        ensures range { IfErr result (λ fault. fault ≡ MomentRange) }
        ensures taken { OnOk result
            ((newest_moment (M.content memory) ≤ moment) × (moment ≤ last_moment)) }
    {
        Receiver::starting(memory, moment, Selection::all())
    }

    /// A receiver that has heard nothing, with a memory, the first moment and the first selection.
    /// Fails as `new` does.
    // In its place, as it has 7 kB or more: a call would move it twice over the stack.
    #[inline(always)]
    pub fn starting(
        memory: M,
        moment: u64,
        selection: Selection,
    ) -> Result<Receiver<M>, ReceiverFault>
        ensures stands { (start : Start) → start.entries ≡ M.content memory → start.moment ≡ moment
            → start.refused ≡ selection → IfOk result (λ r. Stands M.content start r [] []) }
        ensures memory { IfOk result (λ r. r.memory ≡ memory) }
        ensures refused { IfErr result (RefusesStart (newest_moment (M.content memory)) moment) }
        ensures range { IfErr result (λ fault. fault ≡ MomentRange) }
        ensures taken { OnOk result
            ((newest_moment (M.content memory) ≤ moment) × (moment ≤ last_moment)) }
    {
        prove!(
            size_of::<Receiver<RingRecall>>()
                == size_of::<Synchroniser>() + size_of::<CopyTaker>() + size_of::<RingRecall>()
        );
        if moment > LAST_MOMENT || memory.newest().is_some_and(|newest| moment < newest) {
            return Err(ReceiverFault::MomentRange);
        }
        Ok(Receiver {
            synchroniser: Synchroniser::hunting(),
            taker: CopyTaker::new(moment, selection),
            memory,
        })
    }

    /// Sets the moment, in whole seconds since 1970-01-01 00:00:00 UTC. `Range` where it is past
    /// 2999-12-31 23:59:59, else `Back` where it is before the last one; the receiver then stays as
    /// it was.
    pub fn set_moment(&mut self, moment: u64) -> Result<(), MomentFault>
        ensures stands { OnOk result (TakesEvent M.content self.old self.new (at_moment moment)) }
        ensures taken { OnOk result ((self.old.hearer.moment ≤ moment) × (moment ≤ last_moment)) }
        ensures refused { IfErr result (Refuses self.old.hearer.moment moment) }
        ensures unchanged { OnErr result (self.new ≡ self.old) }
    {
        check_moment(self.taker.moment, moment)?;
        self.taker.moment = moment;
        Ok(())
    }

    /// Selects what this selection does, from here on, in place of what was selected.
    pub fn set_selection(&mut self, selection: &Selection)
        ensures { TakesEvent M.content self.old self.new
            (events.command (events.select selection.now)) }
    {
        self.taker.selection = *selection;
    }

    /// Does what the command says, from here on. `Vital` where it is to refuse subject A, B, D or L
    /// (ITU-R M.540); the receiver then stays as it was.
    #[inline(always)]
    pub fn command(&mut self, command: Command) -> Result<(), Vital>
        ensures stands { OnOk result (TakesEvent M.content self.old self.new
            (events.command (said command))) }
        ensures vital { IsErr result ↔ IsTrue (refuses_vital (said command)) }
        ensures fault { IfErr result (λ vital. command ≡ RefuseSubject vital.subject) }
        ensures unchanged { OnErr result (self.new ≡ self.old) }
    {
        let selection = &mut self.taker.selection;
        match command {
            Command::RefuseStation(station) => selection.refuse_station(station),
            Command::AcceptStation(station) => selection.accept_station(station),
            Command::RefuseSubject(subject) => return selection.refuse_subject(subject),
            Command::AcceptSubject(subject) => selection.accept_subject(subject),
        }
        Ok(())
    }

    /// Refuses the station, for all its subjects, from here on.
    pub fn refuse_station(&mut self, station: Letter)
        ensures { TakesEvent M.content self.old self.new
            (events.command (events.refuse_station station.byte)) }
    {
        let Ok(()) = self.command(Command::RefuseStation(station)) else {
            unreachable!()
        };
    }

    /// Refuses the station no longer, from here on.
    pub fn accept_station(&mut self, station: Letter)
        ensures { TakesEvent M.content self.old self.new
            (events.command (events.accept_station station.byte)) }
    {
        let Ok(()) = self.command(Command::AcceptStation(station)) else {
            unreachable!()
        };
    }

    /// Refuses the subject, of all stations, from here on. `Vital` where it is A, B, D or L (ITU-R
    /// M.540); the receiver then stays as it was.
    pub fn refuse_subject(&mut self, subject: Letter) -> Result<(), Vital>
        ensures stands { OnOk result (TakesEvent M.content self.old self.new
            (events.command (events.refuse_subject subject.byte))) }
        ensures vital { IsErr result ↔ IsTrue (is_vital subject.byte) }
        ensures fault { IfErr result (λ vital. vital.subject ≡ subject) }
        ensures unchanged { OnErr result (self.new ≡ self.old) }
    {
        self.command(Command::RefuseSubject(subject))
    }

    /// Refuses the subject no longer, from here on.
    pub fn accept_subject(&mut self, subject: Letter)
        ensures { TakesEvent M.content self.old self.new
            (events.command (events.accept_subject subject.byte)) }
    {
        let Ok(()) = self.command(Command::AcceptSubject(subject)) else {
            unreachable!()
        };
    }

    /// Whether a copy whose header came now would be selected: neither the station nor the subject
    /// of its identity is refused (ITU-R M.540; that a station is refused for all its subjects is
    /// this profile).
    pub fn admits(&self, identity: &Identity) -> bool
        ensures { (start : Start) (history : List Event) (log : List TaggedCopy) →
            Stands M.content start self.now history log
            → result
            ≡ admits (setting_after_all (first_setting start) history).refused identity.now }
    {
        self.taker.selection.admits(identity)
    }

    /// Hears elements, true for B, up to and with the one that ends the first copy that is printed;
    /// says how many it heard, and hands out the entry. With `None` it heard all.
    pub fn feed(&mut self, bits: &[bool]) -> (usize, Option<Entry>)
        ensures within { result.0 ≤ length bits.now }
        ensures stands { (start : Start) (history : List Event) (log : List TaggedCopy) →
            Stands M.content start self.old history log → Stands M.content start self.new
            (history ++ elements (take result.0 bits.now)) (log ++ entry_list result.1) }
        ensures first { HandsOutNoneBefore M.content self.old bits.now result.0 }
        ensures all { IsNone result.1 → result.0 ≡ length bits.now }
        ensures some { IsSome result.1 → 0 < result.0 }
        ensures moment { IfSome result.1 (λ entry. entry.moment ≤ last_moment) }
    {
        let mut at = 0;
        while at < bits.len() {
            let (count, over) = self.hear_bits(&bits[at..]);
            at += count;
            // Nothing is over with the last of all elements: no place for an entry is cleared.
            let Some(over) = over else {
                return (at, None);
            };
            if let Some(head) = self.finish(over) {
                return (at, Some(Entry::of(&head, self.text())));
            }
        }
        (at, None)
    }

    /// The text of the copy that stands open, or that ended last: of the entry whose head was
    /// answered last, until more is heard.
    pub fn text(&self) -> &[u8]
        ensures text { result.now ≡ text_of self.now }
        ensures short { length result.now ≤ MAX_FOUND }
    {
        self.taker.reader.finder().text()
    }

    /// Ends the elements, and hands out the entry that their end prints: that of the open copy,
    /// where it is printed.
    pub fn close(self) -> Option<Entry>
        ensures stands { (start : Start) (history : List Event) (log : List TaggedCopy) →
            Stands M.content start self history log
            → PrintsToEnd start history (log ++ entry_list result) }
        ensures moment { IfSome result (λ entry. entry.moment ≤ last_moment) }
    {
        let mut receiver = self;
        let head = receiver.end()?;
        Some(Entry::of(&head, receiver.text()))
    }

    /// Ends the elements in place, and says the head of the entry that their end prints: that of
    /// the open copy, where it is printed. Its text is `text`. Nothing is to be heard after it.
    pub fn end(&mut self) -> Option<EntryHead>
        ensures stands { (start : Start) (history : List Event) (log : List TaggedCopy) →
            Stands M.content start self.old history log
            → PrintsToEnd start history (log ++ headed_list result (text_of self.new)) }
        ensures head { IfSome result (λ head. HeadsText head (text_of self.new)) }
    {
        self.taker.reader.close();
        self.judge_ready()
    }

    /// Hears elements, from a place on, up to and with the first one with which something is over,
    /// all of them where nothing is. The place is at most behind the last one. Says how many, and
    /// what is over. `finish` is due then, before anything else is heard.
    #[inline(always)]
    pub(crate) fn hear(&mut self, packed: &PackedElements, from: usize) -> (usize, Option<Over>)
        requires { from ≤ length packed.now }
        ensures within { from + result.0 ≤ length packed.now }
        ensures stands { HearsUpTo M.content self.old self.new
            (take result.0 (drop from packed.now)) result.1 }
        ensures first { HandsOutNoneBefore M.content self.old (drop from packed.now) result.0 }
        ensures all { result.1 ≡ None → from + result.0 ≡ length packed.now }
        ensures some { from < length packed.now → 0 < result.0 }
    {
        let left = packed.len() - from;
        let numbers = packed.numbers();
        hear_elements(&mut self.taker, &mut self.synchroniser, numbers, from, left)
    }

    /// Hears elements that aren't packed, as `hear` does.
    fn hear_bits(&mut self, bits: &[bool]) -> (usize, Option<Over>)
        ensures within { result.0 ≤ length bits.now }
        ensures stands { HearsUpTo M.content self.old self.new (take result.0 bits.now) result.1 }
        ensures first { HandsOutNoneBefore M.content self.old bits.now result.0 }
        ensures all { result.1 ≡ None → result.0 ≡ length bits.now }
        ensures some { 0 < length bits.now → 0 < result.0 }
    {
        let mut at = 0;
        while at < bits.len() {
            let (count, over) = self.hear_first(&bits[at..]);
            at += count;
            if over.is_some() {
                return (at, over);
            }
        }
        (at, None)
    }

    /// Hears the first of some elements, at most 512.
    fn hear_first(&mut self, bits: &[bool]) -> (usize, Option<Over>)
        ensures within { result.0 ≤ length bits.now }
        ensures stands { HearsUpTo M.content self.old self.new (take result.0 bits.now) result.1 }
        ensures first { HandsOutNoneBefore M.content self.old bits.now result.0 }
        ensures some { 0 < length bits.now → 0 < result.0 }
    {
        let mut packed = PackedElements::new();
        packed.pack_bits(&bits[..bits.len().min(MAX_ELEMENTS)]);
        self.hear(&packed, 0)
    }

    /// Finishes what is over, and says the head of the entry that it brings, if it brings one. Its
    /// text is `text`, until more is heard. Where the lock alone is over, the end of its text ends
    /// the copy that stood open. Where a copy is over with it, the copy is judged first, and then
    /// the lock is left: that keeps the text.
    #[inline(always)]
    pub(crate) fn finish(&mut self, over: Over) -> Option<EntryHead>
        ensures stands { (start : Start) (history : List Event) (log : List TaggedCopy) →
            Awaits M.content start self.old history log (Some over)
            → Stands M.content start self.new history
            (log ++ headed_list result (text_of self.new)) }
        ensures head { IfSome result (λ head. HeadsText head (text_of self.new)) }
    {
        match over {
            Over::Copy => self.judge_ready(),
            Over::Lock => {
                self.taker.reader.close();
                self.judge_ready()
            }
            Over::CopyAndLock => {
                let head = self.judge_ready();
                self.taker.reader.restart();
                head
            }
        }
    }

    /// Judges the copy that the finder has, where it has one. Answers the head of its entry where
    /// it is printed.
    fn judge_ready(&mut self) -> Option<EntryHead>
        ensures printed { (entries : List MemoryEntry)
            → M.content self.old.memory ≡ last_of most_entries entries
            → headed_list result (text_of self.old)
            ≡ printed_copies entries (ready_copies self.old.hearer) }
        ensures entered { (entries : List MemoryEntry)
            → M.content self.old.memory ≡ last_of most_entries entries
            → M.content self.new.memory
            ≡ last_of most_entries (entries_after entries (ready_copies self.old.hearer)) }
        ensures hearer { self.new.hearer ≡ self.old.hearer }
        ensures head { IfSome result (λ head. HeadsText head (text_of self.old)) }
    {
        let CopyTag {
            moment,
            is_selected,
        } = self.taker.tag;
        let finder = self.taker.reader.finder();
        let found = finder.ready_head()?;
        let head = EntryHead {
            identity: found.identity,
            moment,
            how: found.how,
            errors: found.errors,
        };
        if !judge(&head, finder.text(), is_selected, &mut self.memory) {
            return None;
        }
        Some(head)
    }
}

impl<M: FreshRecall> Receiver<M> {
    /// Hears packed elements from a place on, up to and with the one that ends the first copy that
    /// is printed; says how many it heard, and the head of the entry. Its text is `text`, until
    /// more is heard. With `None` it heard all. The place is at most behind the last one.
    pub fn next_printed(
        &mut self,
        packed: &PackedElements,
        from: usize,
    ) -> (usize, Option<EntryHead>)
        requires { from ≤ length packed.now }
        ensures within { from + result.0 ≤ length packed.now }
        ensures stands { (start : Start) (history : List Event) (log : List TaggedCopy) →
            Stands M.content start self.old history log → Stands M.content start self.new
            (history ++ elements (take result.0 (drop from packed.now)))
            (log ++ headed_list result.1 (text_of self.new)) }
        ensures first { HandsOutNoneBefore M.content self.old (drop from packed.now) result.0 }
        ensures all { IsNone result.1 → from + result.0 ≡ length packed.now }
        ensures some { IsSome result.1 → 0 < result.0 }
        ensures head { IfSome result.1 (λ head. HeadsText head (text_of self.new)) }
    {
        next_printed_of(self, packed, from)
    }
}

impl<M: Listed> Receiver<M> {
    /// What a receiver keeps while it is switched off: the entries of its memory, and what is
    /// selected now. A copy that stands open is no part of it.
    pub fn saved(&self) -> Saved
        ensures leaves { (start : Start) (history : List Event) (log : List TaggedCopy)
            → Stands M.content start self.now history log → Leaves start history result }
        ensures entries { result.entries ≡ M.content self.now.memory }
        ensures refused { result.refused ≡ self.now.hearer.refused }
    {
        Saved::of(&self.taker.selection, &self.memory)
    }
}
