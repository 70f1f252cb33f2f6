//! Laws of what is printed, over whole lists of elements, moments and commands. Each function does
//! nothing; its contract is the law.
#![tactic(auto)]

ghost use Rattle.std.specs.Prelude.{◌≡◌, ℕ, ◌+◌, ◌*◌, ◌<◌, ◌≤◌, Bool, List, [], ◌∷◌, ◌++◌, length, All};
ghost use Rattle.nx_code.specs.Lists.{Begins};
ghost use Rattle.nx_code.specs.Reading.{text};
ghost use Rattle.nx_code.specs.declared.shifts.Shift.TheVariants.{Letters};
ghost use Rattle.nx_envelope.specs.Moment.{last_moment};
ghost use Rattle.nx_fec.specs.declared.air_files.channel.Channel.TheVariants.{Zero};
ghost use Rattle.nx_envelope.specs.declared.identity.Identity.{Identity};
ghost use Rattle.nx_memory.specs.declared.memories.entry.MemoryEntry.{MemoryEntry};
ghost use Rattle.nx_station.specs.reception.PathExample.{ea01};
ghost use Rattle.nx_sync.specs.Words.{word_begin, word_of_lock, first_role, lock_words};
ghost use Rattle.nx_sync.specs.Locks.{Lock, Now, IsLocked, IsNow, Past};
ghost use Rattle.nx_copies.specs.Events.{Event, Start};
ghost use Rattle.nx_promises.specs.examples.Repeats.{example_copies, first_copy, repeated_copy};
ghost use Rattle.nx_copies.specs.copies.FoundCopies.{FoundCopy, ended_so_far, open_so_far, found_to_end, TaggedCopy};
ghost use Rattle.nx_copies.specs.laws.LawTerms.{AreRepeats, own_bits};
ghost use Rattle.nx_copies.specs.copies.Printing.{copies_of, printed_copies};
ghost use Rattle.nx_copies.specs.laws.Once.{IsUnknownAtFirst};
ghost use Rattle.nx_copies.specs.copies.LockText.{PlacedByte, bytes_of, lock_text, positions};
ghost use Rattle.nx_copies.specs.copies.Log.{HasPrinted, IsLog, PrintsToEnd};
ghost use Rattle.nx_copies.specs.copies.Shares.{MarkedCopy, marked};
ghost use Rattle.nx_receiver.specs.Receiver.{Receiving, Stands, elements_of_pieces, events_of_pieces};
ghost use Rattle.nx_promises.specs.examples.Emission.{at_its_slot, damaged_words, heard_elements, worked_words, worked_log};

pub mod chain;
pub mod channels;
pub mod listening;
pub mod once;
pub mod resuming;
pub mod sending;
pub mod together;

use nx_memory::Recall;

/// The bytes of the text of a lock are what is read of the positions that its words complete, from
/// letters. And these positions are told by its words with their roles, as a list, alone: where two
/// locks have the same words, they have the same positions.
pub fn a_text_is_read_of_positions()
    ensures read { (bits : List Bool) (t n : ℕ) → bytes_of (lock_text bits t n)
        ≡ text (positions (first_role bits t) (word_of_lock bits t) n) Letters }
    ensures words { (bits others : List Bool) (t u n : ℕ)
        → lock_words bits t n ≡ lock_words others u n
        → positions (first_role bits t) (word_of_lock bits t) n
        ≡ positions (first_role others u) (word_of_lock others u) n }
{}

/// Locks share nothing: the text of a lock, and so each copy in it, is made of its own bits alone,
/// and each byte of it stands at one of these bits. The last word of a lock is over before the next
/// lock begins.
pub fn locks_share_nothing()
    ensures own { (bits others : List Bool) (t n : ℕ)
        → 7 ≤ t → own_bits bits t n ≡ own_bits others t n
        → lock_text bits t n ≡ lock_text others t n }
    ensures within { (bits : List Bool) (t n : ℕ) →
        All (λ (b : PlacedByte). (t ≤ b.place) × (b.place < word_begin t n)) (lock_text bits t n) }
    ensures apart { (bits : List Bool) (newer older : Lock) (locks : List Lock) (p : ℕ) →
        Past bits (newer ∷ older ∷ locks) p → word_begin older.at (older.last + 1) < newer.at }
    ensures apart_now { (bits : List Bool) (lock : Lock) (locks : List Lock) (p t : ℕ) →
        IsLocked bits (lock ∷ locks) p t → word_begin lock.at (lock.last + 1) < t }
{}

/// What the end of the bits adds to the copies that have ended is the copy that stands open, cut
/// there; there is at most one.
pub fn the_end_closes_the_open_copy()
    ensures adds { (bits : List Bool) (locks : List Lock) (now : Now) →
        found_to_end bits locks now ≡ ended_so_far bits locks now ++ open_so_far bits now }
    ensures one { (bits : List Bool) (now : Now) → length (open_so_far bits now) ≤ 1 }
{}

/// More bits and more events change nothing that was found or printed: later copies and later
/// entries come behind it.
pub fn more_events_keep_the_log()
    ensures found { (bits more : List Bool) (older locks : List Lock) (was now : Now)
        → IsNow bits older was → IsNow (bits ++ more) locks now
        → Begins (ended_so_far bits older was) (ended_so_far (bits ++ more) locks now) }
    ensures printed { (start : Start) (events more : List Event) (log later : List TaggedCopy) →
        HasPrinted start events log → HasPrinted start (events ++ more) later
        → Begins log later }
    ensures closed { (start : Start) (events more : List Event) (log whole : List TaggedCopy) →
        HasPrinted start events log → PrintsToEnd start (events ++ more) whole
        → Begins log whole }
{}

/// All that a receiver was given has one log: one list of printed copies; and, where
/// their moments are at most the last, one list of bytes for it.
pub fn there_is_one_log()
    ensures some { (start : Start) (events : List Event)
        → (log : List TaggedCopy) × HasPrinted start events log }
    ensures one { (start : Start) (events : List Event) (log other : List TaggedCopy) →
        HasPrinted start events log → HasPrinted start events other → log ≡ other }
    ensures some_closed { (start : Start) (events : List Event) →
        (log : List TaggedCopy) × PrintsToEnd start events log }
    ensures one_closed { (start : Start) (events : List Event) (log other : List TaggedCopy) →
        PrintsToEnd start events log → PrintsToEnd start events other → log ≡ other }
    ensures some_bytes { (copies : List MarkedCopy)
        → All (λ (one : MarkedCopy). one.copy.moment ≤ last_moment) copies
        → (bytes : List ℕ) × IsLog copies bytes }
    ensures one_bytes { (copies : List MarkedCopy) (bytes others : List ℕ) →
        IsLog copies bytes → IsLog copies others → bytes ≡ others }
{}

/// The log of a beginning is a beginning of the log; a log and then another are the log of both.
pub fn logs_go_on()
    ensures begins { (front back : List MarkedCopy) (bytes whole : List ℕ) → IsLog front bytes
        → IsLog (front ++ back) whole → Begins bytes whole }
    ensures join { (front back : List MarkedCopy) (bytes more : List ℕ)
        → IsLog front bytes → IsLog back more
        → IsLog (front ++ back) (bytes ++ more) }
{}

/// A message that is repeated is printed once. After any first list of entries, take all copies of
/// one identity, one or more and not numbered 00. Let them be good and selected, and lie within 66
/// hours of each other. Let no entry of the identity be live at the first of them, and fewer than
/// 200 entries be made between it and any later one. Then the first of them is printed, and no
/// other. After an empty first list no entry is live at the first of them, whatever the copies are.
pub fn repeats_are_printed_once()
    ensures once { (entries : List MemoryEntry) (identity : Identity) (copies : List TaggedCopy)
        (first : TaggedCopy) (repeats : List TaggedCopy)
        → AreRepeats entries identity copies first repeats
        → copies_of identity (printed_copies entries copies) ≡ first ∷ [] }
    ensures unknown { (identity : Identity) (copies : List TaggedCopy)
        → IsUnknownAtFirst [] identity copies }
{}

/// There are such repeats: EA01 is heard, then EB02 twice, and EA01 again four hours after the
/// first.
pub fn there_are_repeats()
    ensures { AreRepeats [] ea01 example_copies first_copy (repeated_copy ∷ []) }
{}

/// The definitions on a worked emission, from its elements to its log. Station E sends the message
/// EA01 with the one line TEST in its slot. Heard as it is sent, and heard with each DX word of the
/// message damaged, its log is the same 42 bytes.
pub fn a_worked_emission_is_printed()
    ensures sent { PrintsToEnd at_its_slot (heard_elements worked_words) (first_copy ∷ []) }
    ensures damaged { PrintsToEnd at_its_slot (heard_elements damaged_words) (first_copy ∷ []) }
    ensures log { IsLog (marked Zero first_copy ∷ []) worked_log }
    ensures bytes { length worked_log ≡ 42 }
{}

/// Where a receiver stands after events with a log, that log is what is printed of them. So it
/// doesn't matter how elements are cut: two receivers that are fed the same elements in other
/// pieces, after the same events, have the same log.
pub fn cuttings_print_the_same<M: Recall>()
    ensures printed { (start : Start) (events : List Event) (receiver : Receiving M)
        (log : List TaggedCopy)
        → Stands M.content start receiver events log → HasPrinted start events log }
    ensures same { (start : Start) (events : List Event) (pieces others : List (List Bool))
        (one other : Receiving M) (log same : List TaggedCopy)
        → elements_of_pieces pieces ≡ elements_of_pieces others
        → Stands M.content start one (events ++ events_of_pieces pieces) log
        → Stands M.content start other (events ++ events_of_pieces others) same
        → log ≡ same }
{}
