//! Laws of watches that take several sendings together: what they put of a message. Each function
//! does nothing; its contract is the law.

ghost use Rattle.std.specs.Prelude.{◌≡◌, ◌⊎◌, ◌+◌, ◌<◌, ℕ, List, [], ◌∷◌, ◌++◌, length, take, Option};
ghost use Rattle.nx_code.specs.Lists.{Begins};
ghost use Rattle.nx_combine.specs.CombinedPrinting.{combined};
ghost use Rattle.nx_combine.specs.CopyPositions.{ended_placed, placed_to_end};
ghost use Rattle.nx_copies.specs.copies.FoundCopies.{TaggedCopy};
ghost use Rattle.nx_copies.specs.copies.Printing.{copies_of};
ghost use Rattle.nx_copies.specs.copies.Shares.{MarkedCopy, copies_on, start_on};
ghost use Rattle.nx_envelope.specs.Message.{MessageView};
ghost use Rattle.nx_envelope.specs.declared.identity.Identity.{Identity};
ghost use Rattle.nx_fec.specs.air_files.AirFile.{Line};
ghost use Rattle.nx_fec.specs.declared.air_files.channel.Channel.{Channel};
ghost use Rattle.nx_fec.specs.declared.air_files.channel.Channel.TheVariants.{Zero};
ghost use Rattle.nx_log.specs.Logged.{memory_entries};
ghost use Rattle.nx_memory.specs.declared.memories.entry.MemoryEntry.{MemoryEntry};
ghost use Rattle.nx_promises.specs.examples.Together.{twice_parts};
ghost use Rattle.nx_promises.specs.laws.Together.{IsHeardTogether, IsPrintedWholeOnce, IsThroughWith, behind_digit};
ghost use Rattle.nx_receiver.specs.air_file_runs.Listen.{events_on, given_by};
ghost use Rattle.nx_station.specs.reception.PathExample.{example_message, example_numbers};
ghost use Rattle.nx_station.specs.reception.Sendings.{Part};
ghost use Rattle.nx_watch.specs.Watch.{PrintsUntilBy, StandsForEntries, Stop, starts_at};
ghost use Rattle.nx_left_on.specs.Chain.{ClocksAreNear, HadReadBy, IsChainBy, IsLeftPrinting, Watch, acting_at, all_put, answered, events_in, kept_all_at, kept_some_at, lines_of};
ghost use Rattle.nx_left_on.specs.Example.{first_moment, twice_lines_at};
ghost use Rattle.nx_left_on.specs.Together.{IsKeptWhole, IsOver, StandsLast};

/// What the clause `watched` of `nx_watch::watch_combined` says of its file makes it a watch of a
/// chain that takes sendings together: the copies that its lines print together until it stopped,
/// and the entries for which the file stands. Where all of these copies are kept, it read on behind
/// all its lines. Where so many of them are, after a crash or a fault of the disk, it is at least a
/// watch that is sure of no line. Behind a moment at which lines had been read whole, and all that
/// they print in turn is kept, it is sure of those of them that act. Then a crash leaves so many
/// copies, and a fault of the disk these, or one more.
pub fn what_a_watch_keeps_together_goes_on()
    ensures all { (now : ℕ) (log copies : List MarkedCopy) (lines : List (Option Line))
        (file : List ℕ) (stop : Stop)
        → PrintsUntilBy combined stop (starts_at now log) (given_by (acting_at now log lines))
        copies
        → StandsForEntries (log ++ copies) file
        → IsLeftPrinting combined now log (kept_all_at stop) (acting_at now log lines)
        (acting_at now log lines) copies file }
    ensures some { (now : ℕ) (log copies : List MarkedCopy) (lines : List (Option Line))
        (file : List ℕ) (count : ℕ) (stop : Stop)
        → PrintsUntilBy combined stop (starts_at now log) (given_by (acting_at now log lines))
        copies
        → StandsForEntries (log ++ take count copies) file
        → IsLeftPrinting combined now log (kept_some_at stop) (acting_at now log lines) []
        (take count copies) file }
    ensures behind_a_read { (now : ℕ) (log copies : List MarkedCopy)
        (lines by_then : List (Option Line)) (file : List ℕ) (count : ℕ) (stop : Stop)
        → PrintsUntilBy combined stop (starts_at now log) (given_by (acting_at now log lines))
        copies
        → HadReadBy combined now log lines by_then count
        → StandsForEntries (log ++ take count copies) file
        → IsLeftPrinting combined now log (kept_some_at stop) (acting_at now log lines)
        (acting_at now log by_then) (take count copies) file }
    ensures after_a_fault { (now : ℕ) (log copies : List MarkedCopy)
        (lines by_then : List (Option Line)) (file : List ℕ) (count : ℕ) (stop : Stop)
        → PrintsUntilBy combined stop (starts_at now log) (given_by (acting_at now log lines))
        copies
        → HadReadBy combined now log lines by_then count
        → (StandsForEntries (log ++ take count copies) file)
        ⊎ (StandsForEntries (log ++ take (count + 1) copies) file)
        → (put : List MarkedCopy)
        × IsLeftPrinting combined now log (kept_some_at stop) (acting_at now log lines)
        (acting_at now log by_then) put file }
{}

/// However watches one after another ended that take sendings together, the bytes that the last of
/// them left stand for the entries that the log had at first, and then for the joined entries of
/// what each put.
pub fn a_log_keeps_what_its_watches_put_together()
    ensures { (log : List MarkedCopy) (watches : List Watch) (last : Watch)
        → IsChainBy combined log (watches ++ last ∷ [])
        → StandsForEntries (log ++ all_put (watches ++ last ∷ [])) last.file }
{}

/// A message that is heard together within one of these watches stands in the log whole, letter for
/// letter, though each sending may have lost other letters. No entry of it is live at its first
/// copy, of what the watch remembers. Where the watch answered, and put all that is printed, the
/// message is whole once among what it put on the channel, and nothing of it stands behind that. So
/// its entry stands last of its identity in the log. However the watch ended, the first is said of
/// a beginning of what it put, where the message was heard together in the lines behind which it
/// read on.
pub fn a_message_heard_together_stands_in_the_log_whole()
    ensures answered { (log : List MarkedCopy) (before after : List Watch) (watch : Watch)
        (channel : Channel) (parts : List Part) (message : MessageView) (numbers : List ℕ)
        → IsChainBy combined log (before ++ watch ∷ after) → watch.ending ≡ answered
        → (heard : IsHeardTogether placed_to_end (start_on watch.starts channel)
        (events_in channel watch) parts message numbers)
        → (came : IsThroughWith (behind_digit numbers) message.identity
        (heard.first ∷ heard.later))
        → IsPrintedWholeOnce message (start_on watch.starts channel)
        (heard.before ++ (came.up_to ++ came.one ∷ [])) came.rest (copies_on channel watch.put) }
    ensures last { (log : List MarkedCopy) (before after : List Watch) (watch : Watch)
        (channel : Channel) (parts : List Part) (message : MessageView) (numbers : List ℕ)
        → IsChainBy combined log (before ++ watch ∷ after) → watch.ending ≡ answered
        → (heard : IsHeardTogether placed_to_end (start_on watch.starts channel)
        (events_in channel watch) parts message numbers)
        → IsThroughWith (behind_digit numbers) message.identity (heard.first ∷ heard.later)
        → (entry : MemoryEntry) × (entry.identity ≡ message.identity)
        × StandsLast channel (log ++ all_put before ++ watch.put) entry }
    ensures surely { (log : List MarkedCopy) (before after : List Watch) (watch : Watch)
        (channel : Channel) (parts : List Part) (message : MessageView) (numbers : List ℕ)
        → IsChainBy combined log (before ++ watch ∷ after)
        → (heard : IsHeardTogether ended_placed (start_on watch.starts channel)
        (events_on channel watch.sure) parts message numbers)
        → (came : IsThroughWith (behind_digit numbers) message.identity
        (heard.first ∷ heard.later))
        → (surely : List TaggedCopy) × Begins surely (copies_on channel watch.put)
        × IsPrintedWholeOnce message (start_on watch.starts channel)
        (heard.before ++ (came.up_to ++ came.one ∷ [])) came.rest surely }
{}

/// Nothing of a message is put again behind an entry of it, by any later watch, within 66 hours.
/// The entry stands in the log, and behind it none of its identity and none with an earlier moment.
/// No MOMENT of the watches behind it lies 66 hours or more before the newest entry. Then the first
/// copy of the identity that is put comes 66 hours behind the entry, or later; or 200 entries have
/// been made behind the entry by then.
pub fn a_message_that_stands_there_is_not_put_again()
    ensures { (log : List MarkedCopy) (watches : List Watch) (channel : Channel)
        (identity : Identity) (entry : MemoryEntry) (earlier later : List TaggedCopy)
        (copy : TaggedCopy) → 0 < identity.number → entry.identity ≡ identity
        → IsChainBy combined log watches → ClocksAreNear channel log watches
        → (stands : StandsLast channel log entry)
        → copies_on channel (all_put watches) ≡ earlier ++ copy ∷ later
        → copy.identity ≡ identity → copies_of identity earlier ≡ []
        → IsOver entry (length stands.behind + length (memory_entries earlier)) copy }
{}

/// What it is for a message to be kept whole. Where the watch answered, the message is whole once
/// among what it put on the channel. An entry of it stands last of its identity in the log then,
/// and no watch behind it puts a copy of the identity again before the entry is over. Where the
/// watch was cut off, a beginning of what it put has the message whole once, by the lines behind
/// which it read on.
pub fn a_message_that_is_kept_whole_is_not_put_again()
    ensures answered { (log : List MarkedCopy) (watch : Watch) (after : List Watch)
        (channel : Channel) (parts : List Part) (message : MessageView) (numbers : List ℕ)
        → IsKeptWhole log watch after channel parts message numbers → watch.ending ≡ answered
        → (heard : IsHeardTogether placed_to_end (start_on watch.starts channel)
        (events_in channel watch) parts message numbers)
        → (came : IsThroughWith (behind_digit numbers) message.identity
        (heard.first ∷ heard.later))
        → IsPrintedWholeOnce message (start_on watch.starts channel)
        (heard.before ++ (came.up_to ++ came.one ∷ [])) came.rest (copies_on channel watch.put) }
    ensures last { (log : List MarkedCopy) (watch : Watch) (after : List Watch)
        (channel : Channel) (parts : List Part) (message : MessageView) (numbers : List ℕ)
        → IsKeptWhole log watch after channel parts message numbers → watch.ending ≡ answered
        → (heard : IsHeardTogether placed_to_end (start_on watch.starts channel)
        (events_in channel watch) parts message numbers)
        → IsThroughWith (behind_digit numbers) message.identity (heard.first ∷ heard.later)
        → (entry : MemoryEntry) × (entry.identity ≡ message.identity)
        × (last : StandsLast channel (log ++ watch.put) entry)
        × (ClocksAreNear channel (log ++ watch.put) after → (earlier later : List TaggedCopy)
        (copy : TaggedCopy) → copies_on channel (all_put after) ≡ earlier ++ copy ∷ later
        → copy.identity ≡ message.identity → copies_of message.identity earlier ≡ []
        → IsOver entry (length last.behind + length (memory_entries earlier)) copy) }
    ensures surely { (log : List MarkedCopy) (watch : Watch) (after : List Watch)
        (channel : Channel) (parts : List Part) (message : MessageView) (numbers : List ℕ)
        → IsKeptWhole log watch after channel parts message numbers
        → (heard : IsHeardTogether ended_placed (start_on watch.starts channel)
        (events_on channel watch.sure) parts message numbers)
        → (came : IsThroughWith (behind_digit numbers) message.identity
        (heard.first ∷ heard.later))
        → (surely : List TaggedCopy) × Begins surely (copies_on channel watch.put)
        × IsPrintedWholeOnce message (start_on watch.starts channel)
        (heard.before ++ (came.up_to ++ came.one ∷ [])) came.rest surely }
{}

/// There is a chain of two watches that take sendings together, of a log that was empty at first,
/// in which a message is heard together. Each hears EA01 with the line TEST twice on channel 0,
/// each time without another letter, so no copy is whole; and its input ends. The second one starts
/// four hours later. In the first one the message is heard together, and comes through.
pub fn there_is_a_chain_of_watches_with_a_message_heard_together()
    ensures { (first second : Watch) × IsChainBy combined [] (first ∷ second ∷ [])
        × ClocksAreNear Zero [] (first ∷ second ∷ [])
        × (first.moment ≡ first_moment) × (second.moment ≡ first_moment + 14400)
        × (lines_of first ≡ twice_lines_at first.moment)
        × (lines_of second ≡ twice_lines_at second.moment)
        × (first.ending ≡ answered) × (second.ending ≡ answered)
        × (heard : IsHeardTogether placed_to_end (start_on first.starts Zero)
        (events_in Zero first) twice_parts example_message example_numbers)
        × IsThroughWith (behind_digit example_numbers) example_message.identity
        (heard.first ∷ heard.later) }
{}
