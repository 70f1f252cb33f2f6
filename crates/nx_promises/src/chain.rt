//! Laws of a chain of runs, each of which begins with what the one before it left. Each function
//! does nothing; its contract is the law.

ghost use Rattle.std.specs.Prelude.{◌≡◌, ℕ, ◌≤◌, All, List, ◌++◌, length, Option};
ghost use Rattle.nx_code.specs.Lists.{last_of};
ghost use Rattle.nx_envelope.specs.Message.{MessageView};
ghost use Rattle.nx_fec.specs.air_files.AirFile.{Line};
ghost use Rattle.nx_fec.specs.declared.air_files.channel.Channel.{Channel};
ghost use Rattle.nx_fec.specs.air_files.Lines.{file_of};
ghost use Rattle.nx_fec.specs.declared.air_files.channel.Channel.TheVariants.{One, Zero};
ghost use Rattle.nx_memory.specs.Saved.{AreSavedStates, SavedState, SavedStates};
ghost use Rattle.nx_memory.specs.Memory.{most_entries, newest_moment};
ghost use Rattle.nx_memory.specs.declared.memories.entry.MemoryEntry.{MemoryEntry};
ghost use Rattle.nx_station.specs.reception.PathExample.{example_message};
ghost use Rattle.nx_sync.specs.Locks.{IsNow, Lock, Now};
ghost use Rattle.nx_fec.specs.Transfers.{Contents};
ghost use Rattle.nx_promises.specs.examples.Again.{saved_long_ago};
ghost use Rattle.nx_promises.specs.examples.Channels.{two_channels};
ghost use Rattle.nx_receiver.specs.air_file_runs.ListenOnce.{IsHeardInTimeOn};
ghost use Rattle.nx_receiver.specs.air_file_runs.Chain.{AgreeInLast, GoesOn, HasGoneOn, IsChain, Leaves, Run, all_copies, all_events, all_logs, all_printed, copies_in, files};
ghost use Rattle.nx_promises.specs.examples.Chain.{example_runs, saved_after};
ghost use Rattle.nx_promises.specs.laws.ChainOnce.{IsHeardInTimeOver};
ghost use Rattle.nx_copies.specs.Events.{Event, Start, elements_among, first_setting, setting_after_all};
ghost use Rattle.nx_copies.specs.copies.FoundCopies.{ended_so_far, TaggedCopy, tagged_copies};
ghost use Rattle.nx_copies.specs.laws.Once.{IsUnknownAtFirst, IsPrintedOnce};
ghost use Rattle.nx_receiver.specs.air_file_runs.Listen.{HasListened, IsLogOf, IsLogOfFile, events_on};
ghost use Rattle.nx_copies.specs.copies.Log.{IsLog};
ghost use Rattle.nx_copies.specs.copies.Printing.{entries_after, entries_made, printed_copies};
ghost use Rattle.nx_receiver.specs.Receiver.{Receiving, Stands};
ghost use Rattle.nx_copies.specs.copies.Shares.{MarkedCopy, copies_on, none_saved, saved_of, start_on, starts_from};
ghost use Rattle.nx_copies.specs.hearing.CopyHearing.{in_force};
ghost use Rattle.nx_promises.specs.examples.Emission.{worked_log};
ghost use Rattle.nx_receiver.specs.declared.air_file_runs.listening.Report.{Report};

use nx_memory::Recall;

/// The last 200 entries decide: after two lists of entries that agree in their last 200, the same
/// copies are printed and the same entries are made. Then they agree in their last 200 again. So an
/// entry that has fallen out of a memory makes no difference.
pub fn the_last_entries_decide()
    ensures printed { (one other : List MemoryEntry) (copies : List TaggedCopy)
        → AgreeInLast one other → printed_copies one copies ≡ printed_copies other copies }
    ensures entered { (one other : List MemoryEntry) (copies : List TaggedCopy)
        → AgreeInLast one other → entries_made one copies ≡ entries_made other copies }
    ensures agree { (one other : List MemoryEntry) (copies : List TaggedCopy)
        → AgreeInLast one other
        → AgreeInLast (entries_after one copies) (entries_after other copies) }
{}

/// Copies that come behind others are printed and entered after the entries that those leave.
pub fn copies_are_printed_in_turn()
    ensures printed { (entries : List MemoryEntry) (front back : List TaggedCopy)
        → printed_copies entries (front ++ back)
        ≡ printed_copies entries front ++ printed_copies (entries_after entries front) back }
    ensures entered { (entries : List MemoryEntry) (front back : List TaggedCopy)
        → entries_after entries (front ++ back) ≡ entries_after (entries_after entries front) back }
{}

/// A chain of runs prints on each channel what one run would print that had found their copies,
/// though each run hunts anew and begins with what the one before it left. It is what the rules of
/// printing make of all copies of the runs on the channel, in order, after the entries of the
/// channel that the first run starts with. The logs, one after another, are the log of all that is
/// printed. The last run leaves of each channel the last 200 of all entries made, and what is
/// refused after all commands.
pub fn a_chain_logs_its_joined_copies()
    ensures printed { (first last : SavedStates) (runs : List Run) (channel : Channel)
        → IsChain first runs last
        → copies_on channel (all_printed runs)
        ≡ printed_copies (saved_of first channel).entries (all_copies channel runs) }
    ensures log { (first last : SavedStates) (runs : List Run) → IsChain first runs last
        → IsLog (all_printed runs) (all_logs runs) }
    ensures entries { (first last : SavedStates) (runs : List Run) (channel : Channel)
        → IsChain first runs last → length (saved_of first channel).entries ≤ most_entries
        → (saved_of last channel).entries
        ≡ last_of most_entries
        (entries_after (saved_of first channel).entries (all_copies channel runs)) }
    ensures selection { (first last : SavedStates) (runs : List Run) (channel : Channel)
        → IsChain first runs last
        → (saved_of last channel).refused
        ≡ (setting_after_all (first_setting (start_on (starts_from first) channel))
        (all_events channel runs)).refused }
{}

/// A run goes on from what is saved wherever its file has a log with that start; so does each run
/// that listened with it. What it leaves of a channel is some one thing, of at most 200 entries. No
/// copy of it has a moment before the newest entry that was saved of its channel. And where it goes
/// on from what a chain left, the chain and it are a chain.
pub fn a_run_goes_on_from_what_is_saved()
    ensures run { (saved left : SavedStates) (file : List ℕ) (lines : List Line)
        (printed : List MarkedCopy) (log : List ℕ)
        → IsLogOfFile (starts_from saved) file lines printed log
        → ((channel : Channel) → Leaves (start_on (starts_from saved) channel)
        (events_on channel lines) (saved_of left channel))
        → (run : Run) × (run.file ≡ file) × (run.log ≡ log) × GoesOn saved run left }
    ensures listened { (saved : SavedStates) (contents : Contents) (file : List ℕ)
        (report : Report)
        → HasListened (starts_from saved) contents file report
        → (left : SavedStates) × HasGoneOn saved contents file left }
    ensures some { (start : Start) (events : List Event)
        → (left : SavedState) × Leaves start events left }
    ensures one { (start : Start) (events : List Event) (left other : SavedState)
        → Leaves start events left → Leaves start events other → left ≡ other }
    ensures few { (start : Start) (events : List Event) (left : SavedState)
        → Leaves start events left → length left.entries ≤ most_entries }
    ensures after { (saved left : SavedStates) (run : Run) (channel : Channel)
        → GoesOn saved run left
        → All (λ (copy : TaggedCopy).
        newest_moment (saved_of saved channel).entries ≤ copy.moment) (copies_in channel run) }
    ensures join { (first saved last : SavedStates) (runs more : List Run)
        → IsChain first runs saved
        → IsChain saved more last → IsChain first (runs ++ more) last }
{}

/// An open copy is no part of what is left: what the end closes is cut, and makes no entry. So what
/// is left of a channel is what its receiver holds after the events, before its end: the content of
/// its memory, and what it refuses.
pub fn a_receiver_holds_what_it_leaves<M: Recall>()
    ensures ended { (start : Start) (events : List Event) (left : SavedState) (locks : List Lock)
        (now : Now) → IsNow (elements_among events) locks now → Leaves start events left
        → left.entries ≡ last_of most_entries
        (entries_after start.entries
        (tagged_copies (first_setting start) events
        (ended_so_far (elements_among events) locks now))) }
    ensures held { (start : Start) (events : List Event) (receiver : Receiving M)
        (log : List TaggedCopy) (left : SavedState) → Stands M.content start receiver events log
        → left.entries ≡ M.content receiver.memory
        → left.refused ≡ (in_force receiver.hearer).refused
        → Leaves start events left }
{}

/// The files of a chain tell its logs, and what it leaves: two chains that begin with the same and
/// read the same files log the same bytes, and leave the same of each channel.
pub fn a_chain_is_told_by_its_files()
    ensures { (first last end : SavedStates) (runs others : List Run) → files runs ≡ files others
        → IsChain first runs last → IsChain first others end
        → (all_logs runs ≡ all_logs others) × (last ≡ end) }
{}

/// The headline across power-offs. Let a message be heard in time on a channel of the runs of a
/// chain, in whichever of them it is sent. Then it has exactly one entry of that channel in the
/// logs of the runs, one after another. The entry is full, has 0 errors, and its text is the
/// message's, letter for letter. A chain that begins with nothing has on no channel an entry of it
/// that could be live at its first copy.
pub fn a_message_heard_over_runs_has_one_entry()
    ensures logged { (first last : SavedStates) (runs : List Run) → IsChain first runs last
        → IsLog (all_printed runs) (all_logs runs) }
    ensures once { (first last : SavedStates) (runs : List Run) (channel : Channel)
        (message : MessageView)
        → IsChain first runs last → IsHeardInTimeOver channel first runs message
        → IsPrintedOnce message (copies_on channel (all_printed runs)) }
    ensures from_nothing { (runs : List Run) (channel : Channel) (message : MessageView)
        → IsUnknownAtFirst (saved_of none_saved channel).entries message.identity
        (all_copies channel runs) }
{}

/// There is such a chain, of two runs, which begins with nothing. EA01 with the line TEST is heard
/// on channel 0, the receiver is switched off and on again, and EA01 is heard four hours after the
/// first. Its logs are the one entry.
pub fn there_is_a_chain_with_a_message_heard_in_time()
    ensures chain { IsChain none_saved example_runs saved_after }
    ensures heard { IsHeardInTimeOver Zero none_saved example_runs example_message }
    ensures logs { all_logs example_runs ≡ worked_log }
{}

/// What has to be met can be met where a receiver goes on from an entry of the message. Of channel
/// 1 an entry of EA01 is saved, and EA01 is heard there again when the entry is 66 hours old. The
/// file has a log with that start.
pub fn there_is_a_message_heard_again_after_66_hours()
    ensures saved { AreSavedStates saved_long_ago }
    ensures heard { IsHeardInTimeOn One (starts_from saved_long_ago) (file_of two_channels)
        example_message }
    ensures logged { (log : List ℕ)
        × IsLogOf (starts_from saved_long_ago) (file_of two_channels) log }
{}
