//! Laws of a chain of watches of one kept log. Each function does nothing; its contract is the law.

ghost use Rattle.std.specs.Prelude.{◌≡◌, ◌⊎◌, ◌≤◌, ℕ, ◌+◌, suc, true, false, Contains, List, [], ◌∷◌, ◌++◌, length, take, Err, Option, Result};
ghost use Rattle.std.specs.Io.KnownBytes.{Consumes};
ghost use Rattle.nx_envelope.specs.Message.{MessageView};
ghost use Rattle.nx_fec.specs.Transfers.{CountedDevice, IsReadOut};
ghost use Rattle.nx_fec.specs.air_files.AirFile.{Line};
ghost use Rattle.nx_fec.specs.declared.air_files.channel.Channel.{Channel};
ghost use Rattle.nx_fec.specs.declared.air_files.channel.Channel.TheVariants.{Zero};
ghost use Rattle.nx_log.specs.Logged.{remembered_on};
ghost use Rattle.nx_memory.specs.Content.{IsContent};
ghost use Rattle.nx_copies.specs.Events.{Event, elements_among};
ghost use Rattle.nx_copies.specs.copies.FoundCopies.{FoundCopy};
ghost use Rattle.nx_receiver.specs.air_file_runs.Listen.{given_by};
ghost use Rattle.nx_promises.specs.examples.Chain.{found_on};
ghost use Rattle.nx_copies.specs.laws.Once.{IsPrintedOnce};
ghost use Rattle.nx_copies.specs.copies.Printing.{printed_copies};
ghost use Rattle.nx_copies.specs.copies.Shares.{MarkedCopy, copies_on};
ghost use Rattle.nx_station.specs.reception.PathExample.{example_message};
ghost use Rattle.nx_station.specs.reception.Sendings.{IsCut, IsSentAt, Part};
ghost use Rattle.nx_watch.specs.Acting.{most_bytes};
ghost use Rattle.nx_watch.specs.Stamp.{Stamp};
ghost use Rattle.nx_watch.specs.declared.watch_fault.WatchFault.{WatchFault};
ghost use Rattle.nx_watch.specs.declared.watch_fault.WatchFault.TheVariants.{Disk};
ghost use Rattle.nx_watch.specs.AnyLines.{AreLines};
ghost use Rattle.nx_watch.specs.declared.watch_report.WatchReport.{WatchReport};
ghost use Rattle.nx_watch.specs.Watch.{AnswersWatch, HasRead, PrintsUntil, StandsForEntries, Stop, moments_at, starts_at};
ghost use Rattle.nx_left_on.specs.AtHand.{AtHand, telling};
ghost use Rattle.nx_left_on.specs.ByEachRead.{HadTold, HadWrittenOn, HasWrittenOn};
ghost use Rattle.nx_left_on.specs.Call.{CallEnd, IsOfCall, TellsAllKept, all_kept, ending_by, left_at_any_moment, left_behind};
ghost use Rattle.nx_left_on.specs.Chain.{ClocksAreNear, GoesOn, HadRead, IsChain, IsLeftBy, Puts, Watch, acting_at, all_copies, all_put, answered, kept_all_at, kept_some_at, lines_of, stopped, with_copies};
ghost use Rattle.nx_left_on.specs.Example.{example_watches, first_acting, first_moment, first_watch, kept_bytes, one_entry, second_acting, second_watch};
ghost use Rattle.nx_left_on.specs.LeftOn.{CutWatch, HasEndedAt, IsHeardInTimeOver, IsSentIn, IsUnknownOver, elements_in};

use nx_kept::DiskFile;
use std::io::{Read, Write};

/// What a watch puts tells which of the copies that are found of it were judged. So a watch goes on
/// from its log, with some copies found and judged. This holds where it puts a beginning of what
/// its lines print, and at least all that is printed of those behind which it read on. And a
/// sending whose emission lies whole in what is given has ended there.
pub fn a_watch_goes_on_from_its_log()
    ensures some { (log : List MarkedCopy) (watch : Watch) → Puts log watch
        → (found judged : Channel → List FoundCopy)
        × GoesOn log (with_copies watch found judged) }
    ensures ended { (events : List Event) (parts : List Part) (message : MessageView) (place : ℕ)
        → IsCut (elements_among events) parts → IsSentAt parts message place
        → HasEndedAt events place }
{}

/// What the clause `watched` of `nx_watch::watch` says of its file makes it a watch of a chain: the
/// copies that its lines print until it stopped, and the entries for which the file stands. Where
/// all of these copies are kept, it read on behind all its lines. Where so many of them are, after
/// a crash or a fault of the disk, it is at least a watch that is sure of no line. Behind a moment
/// at which lines had been read whole, and all that they print in turn is kept, it is sure of those
/// of them that act. Then a crash leaves so many copies, and a fault of the disk these, or one
/// more.
pub fn what_a_watch_keeps_goes_on()
    ensures all { (now : ℕ) (log copies : List MarkedCopy) (lines : List (Option Line))
        (file : List ℕ) (stop : Stop)
        → PrintsUntil stop (starts_at now log) (given_by (acting_at now log lines)) copies
        → StandsForEntries (log ++ copies) file
        → IsLeftBy now log (kept_all_at stop) (acting_at now log lines) (acting_at now log lines)
        copies file }
    ensures some { (now : ℕ) (log copies : List MarkedCopy) (lines : List (Option Line))
        (file : List ℕ) (count : ℕ) (stop : Stop)
        → PrintsUntil stop (starts_at now log) (given_by (acting_at now log lines)) copies
        → StandsForEntries (log ++ take count copies) file
        → IsLeftBy now log (kept_some_at stop) (acting_at now log lines) []
        (take count copies) file }
    ensures behind_a_read { (now : ℕ) (log copies : List MarkedCopy)
        (lines by_then : List (Option Line)) (file : List ℕ) (count : ℕ) (stop : Stop)
        → PrintsUntil stop (starts_at now log) (given_by (acting_at now log lines)) copies
        → HadRead now log lines by_then count
        → StandsForEntries (log ++ take count copies) file
        → IsLeftBy now log (kept_some_at stop) (acting_at now log lines)
        (acting_at now log by_then) (take count copies) file }
    ensures after_a_fault { (now : ℕ) (log copies : List MarkedCopy)
        (lines by_then : List (Option Line)) (file : List ℕ) (count : ℕ) (stop : Stop)
        → PrintsUntil stop (starts_at now log) (given_by (acting_at now log lines)) copies
        → HadRead now log lines by_then count
        → (StandsForEntries (log ++ take count copies) file)
        ⊎ (StandsForEntries (log ++ take (count + 1) copies) file)
        → (put : List MarkedCopy)
        × IsLeftBy now log (kept_some_at stop) (acting_at now log lines)
        (acting_at now log by_then) put file }
{}

/// What the clause `watched` of `nx_watch::watch` says of each read of its input makes a crash
/// leave a watch of a chain, where it comes behind such a read, by which no call of the disk had
/// failed. Its lines are those that act of the bytes that were read, and it is sure of those that
/// were whole at that read. The same holds of a file that is found when the watch is over, after a
/// fault of the disk too, since a crash leaves it.
pub fn a_crash_behind_a_read_leaves_a_watch<D: DiskFile, R: Read, W: Write, N: Write>()
    ensures crash { (a : AtHand D R W N) (now : ℕ) (log : List MarkedCopy)
        (outcome : Result WatchReport WatchFault)
        (at : Stamp D (CountedDevice W) (CountedDevice N)) (file : List ℕ)
        → AnswersWatch (telling D.DiskFile R.remaining W.contents N.contents a) now log outcome
        → Contains a.stamps at → D.faults at.disk ≡ D.faults a.disk
        → D.left_since a.start a.disk_after (D.moment at.disk) file
        → (watch : Watch)
        × IsOfCall (telling D.DiskFile R.remaining W.contents N.contents a).streams now log
        (left_behind at.read) file watch }
    ensures found { (a : AtHand D R W N) (now : ℕ) (log : List MarkedCopy)
        (outcome : Result WatchReport WatchFault)
        (at : Stamp D (CountedDevice W) (CountedDevice N)) (file : List ℕ)
        → AnswersWatch (telling D.DiskFile R.remaining W.contents N.contents a) now log outcome
        → Contains a.stamps at → D.faults at.disk ≡ D.faults a.disk
        → D.moment at.disk ≤ D.moment a.disk_after
        → D.may_leave a.start a.disk_after file
        → (watch : Watch)
        × IsOfCall (telling D.DiskFile R.remaining W.contents N.contents a).streams now log
        (left_behind at.read) file watch }
{}

/// What there is to tell stands on the notices of a watch by each read of its input, unless a write
/// there had failed. It is what the start cuts; then, of the lines that were whole, the first one
/// without effect, and why it has none. Where a put had failed by then, that is told too.
pub fn what_there_is_to_tell_is_told_by_each_read<D: DiskFile, R: Read, W: Write, N: Write>()
    ensures well { (a : AtHand D R W N) (now : ℕ) (log : List MarkedCopy)
        (outcome : Result WatchReport WatchFault)
        (at : Stamp D (CountedDevice W) (CountedDevice N))
        → AnswersWatch (telling D.DiskFile R.remaining W.contents N.contents a) now log outcome
        → Contains a.stamps at → at.notices.failures ≡ 0
        → D.faults at.disk ≡ D.faults a.disk
        → HadTold (telling D.DiskFile R.remaining W.contents N.contents a) now log false at }
    ensures behind_a_failed_put { (a : AtHand D R W N) (now : ℕ) (log : List MarkedCopy)
        (outcome : Result WatchReport WatchFault)
        (at : Stamp D (CountedDevice W) (CountedDevice N))
        → AnswersWatch (telling D.DiskFile R.remaining W.contents N.contents a) now log outcome
        → Contains a.stamps at → at.notices.failures ≡ 0
        → D.faults at.disk ≡ suc (D.faults a.disk)
        → HadTold (telling D.DiskFile R.remaining W.contents N.contents a) now log true at }
{}

/// What the disk doesn't take of what a watch prints is on its output by each read of its input.
/// Where no put had failed by then, nothing had been written there. Where one had failed, the
/// output had the copies from that one on, as the log has them, of all that are printed of the
/// lines that were whole. A watch that ends with `Disk` wrote nothing, as where it couldn't open
/// its log; or it wrote so all that it printed from a put on, up to a failed write.
pub fn what_the_disk_does_not_take_is_written_by_each_read<
    D: DiskFile,
    R: Read,
    W: Write,
    N: Write,
>()
    ensures well { (a : AtHand D R W N) (now : ℕ) (log : List MarkedCopy)
        (outcome : Result WatchReport WatchFault)
        (at : Stamp D (CountedDevice W) (CountedDevice N))
        → AnswersWatch (telling D.DiskFile R.remaining W.contents N.contents a) now log outcome
        → Contains a.stamps at → D.faults at.disk ≡ D.faults a.disk
        → at.writer ≡ a.writer }
    ensures behind_a_failed_put { (a : AtHand D R W N) (now : ℕ) (log : List MarkedCopy)
        (outcome : Result WatchReport WatchFault)
        (at : Stamp D (CountedDevice W) (CountedDevice N))
        → AnswersWatch (telling D.DiskFile R.remaining W.contents N.contents a) now log outcome
        → Contains a.stamps at → D.faults at.disk ≡ suc (D.faults a.disk)
        → HadWrittenOn (telling D.DiskFile R.remaining W.contents N.contents a) now log at }
    ensures at_the_end { (a : AtHand D R W N) (now : ℕ) (log : List MarkedCopy)
        → AnswersWatch (telling D.DiskFile R.remaining W.contents N.contents a) now log (Err Disk)
        → (a.writer_after ≡ a.writer)
        ⊎ HasWrittenOn (telling D.DiskFile R.remaining W.contents N.contents a) now log }
{}

/// Of which lines a watch of a call is sure. Where all is kept, it is sure of all its lines that
/// act. Where it was left behind a read, it is sure of those that act among the lines that were
/// whole by then. Where it was left at any moment, it is sure of none.
pub fn a_watch_is_sure_of_what_was_whole_by_a_read<D: DiskFile, R: Read, W: Write, N: Write>()
    ensures all_kept { (a : AtHand D R W N) (now : ℕ) (log : List MarkedCopy) (file : List ℕ)
        (watch : Watch)
        → IsOfCall (telling D.DiskFile R.remaining W.contents N.contents a).streams now log all_kept
        file watch
        → watch.sure ≡ lines_of watch }
    ensures behind_a_read { (a : AtHand D R W N) (now : ℕ) (log : List MarkedCopy) (file : List ℕ)
        (watch : Watch) (read : ℕ)
        → (called : IsOfCall (telling D.DiskFile R.remaining W.contents N.contents a).streams now
        log (left_behind read) file watch)
        → (by_then : List (Option Line)) × (rest : List ℕ)
        × AreLines (take read called.bytes) by_then rest
        × (watch.sure ≡ acting_at now log (take (length by_then) called.lines)) }
    ensures at_any_moment { (a : AtHand D R W N) (now : ℕ) (log : List MarkedCopy)
        (file : List ℕ) (watch : Watch)
        → IsOfCall (telling D.DiskFile R.remaining W.contents N.contents a).streams now log
        left_at_any_moment file watch
        → watch.sure ≡ [] }
{}

/// What a watch of a call has of it: the moment at which it started, how it ended, and the file
/// that it left. Its lines are those that act, of those of the bytes that the call read until it
/// stopped.
pub fn a_watch_of_a_call_is_as_the_call_was<D: DiskFile, R: Read, W: Write, N: Write>()
    ensures { (a : AtHand D R W N) (now : ℕ) (log : List MarkedCopy) (end : CallEnd)
        (file : List ℕ) (watch : Watch)
        → (called : IsOfCall (telling D.DiskFile R.remaining W.contents N.contents a).streams now
        log end file watch)
        → (watch.moment ≡ now) × (watch.ending ≡ ending_by end called.stop) × (watch.file ≡ file)
        × GoesOn log watch
        × Consumes (R.remaining a.reader.inner) (R.remaining a.reader_after.inner) called.bytes
        × HasRead (IsReadOut (telling D.DiskFile R.remaining W.contents N.contents a).streams
        ⊎ (length called.bytes ≡ most_bytes)) (moments_at now (starts_at now log)) called.stop
        called.bytes called.lines
        × (lines_of watch ≡ acting_at now log called.lines) }
{}

/// A sending that a watch didn't hear counts as none of it: one whose header has its second digit
/// behind the elements that the watch heard on the channel.
pub fn a_sending_behind_what_was_heard_is_none_of_a_watch()
    ensures { (channel : Channel) (cuts : List CutWatch) (message : MessageView) (cut : CutWatch)
        (place : ℕ) → length (elements_in channel cut.watch) ≤ place
        → IsSentIn channel cuts message cut place → ⊥ }
{}

/// A crash may come at any moment of a call, also before its first read. Whatever `watch` answers,
/// the file that it leaves then could be left before the call, or it is left by a watch of a chain,
/// which is sure of no line. So a call that ended before its first read takes no entry from a log
/// that couldn't have been lost before it.
pub fn a_crash_at_any_moment_leaves_a_watch<D: DiskFile, R: Read, W: Write, N: Write>()
    ensures { (a : AtHand D R W N) (now : ℕ) (log : List MarkedCopy)
        (outcome : Result WatchReport WatchFault) (file : List ℕ)
        → AnswersWatch (telling D.DiskFile R.remaining W.contents N.contents a) now log outcome
        → D.left_since a.start a.disk_after (D.moment a.disk) file
        → D.may_leave a.start a.disk file
        ⊎ ((watch : Watch)
        × IsOfCall (telling D.DiskFile R.remaining W.contents N.contents a).streams now log
        left_at_any_moment file watch) }
{}

/// A watch that answered Ok, `Back` or `Read` leaves one of a chain too, which read on behind all
/// its lines. Its file is what a read finds then, or what a crash leaves.
pub fn an_answer_that_tells_all_is_kept_leaves_a_watch<D: DiskFile, R: Read, W: Write, N: Write>()
    ensures { (a : AtHand D R W N) (now : ℕ) (log : List MarkedCopy)
        (outcome : Result WatchReport WatchFault) (file : List ℕ)
        → AnswersWatch (telling D.DiskFile R.remaining W.contents N.contents a) now log outcome
        → TellsAllKept outcome
        → (D.seen a.start a.disk_after ≡ file) ⊎ D.may_leave a.start a.disk_after file
        → (watch : Watch)
        × IsOfCall (telling D.DiskFile R.remaining W.contents N.contents a).streams now log
        all_kept file watch }
{}

/// However the watches of a chain ended, the bytes that the last of them left stand for the entries
/// that the log had at first, and then for the joined entries of what each put.
pub fn a_log_keeps_what_its_watches_put()
    ensures { (log : List MarkedCopy) (watches : List Watch) (last : Watch)
        → IsChain log (watches ++ last ∷ [])
        → StandsForEntries (log ++ all_put (watches ++ last ∷ [])) last.file }
{}

/// A chain of watches is one receiver on each channel where the log at first remembers what a
/// memory can hold, and no MOMENT lies 66 hours or more before the newest entry. Each watch starts
/// with all that the log remembers. So they put what the rules of printing make of all copies that
/// they judged, in order, as if none had ended. The log then remembers again what a memory can
/// hold. An empty log does.
pub fn a_chain_of_watches_is_one_receiver()
    ensures remembers { (log : List MarkedCopy) (before after : List Watch) (watch : Watch)
        (channel : Channel)
        → IsContent (remembered_on channel log) → IsChain log (before ++ watch ∷ after)
        → ClocksAreNear channel log (before ++ watch ∷ after)
        → watch.starts.entries channel ≡ remembered_on channel (log ++ all_put before) }
    ensures printed { (log : List MarkedCopy) (watches : List Watch) (channel : Channel)
        → IsContent (remembered_on channel log) → IsChain log watches
        → ClocksAreNear channel log watches
        → copies_on channel (all_put watches)
        ≡ printed_copies (remembered_on channel log) (all_copies channel watches) }
    ensures content { (log : List MarkedCopy) (watches : List Watch) (channel : Channel)
        → IsContent (remembered_on channel log) → IsChain log watches
        → ClocksAreNear channel log watches
        → IsContent (remembered_on channel (log ++ all_put watches)) }
    ensures empty { (channel : Channel) → IsContent (remembered_on channel []) }
{}

/// The headline of a receiver that is left on. Take a chain of watches of one log, whatever it
/// holds at first. Each is ended by the end of its input, a fault, or a crash at any moment, and no
/// MOMENT lies 66 hours or more before the newest entry. Take a message that is heard in time over
/// them on a channel, of which a sending ends in lines behind which its watch read on. It has
/// exactly one entry of that channel among all that they put. The entry is full, has 0 errors, and
/// its text is the message's, letter for letter. Where the log was empty at first, no entry of it
/// could be live at its first copy, and all that they put is the log.
pub fn a_message_stands_in_the_log_once()
    ensures once { (log : List MarkedCopy) (watches : List Watch) (channel : Channel)
        (message : MessageView)
        → IsChain log watches → ClocksAreNear channel log watches
        → IsHeardInTimeOver channel watches message
        → IsPrintedOnce message (copies_on channel (all_put watches)) }
    ensures from_nothing { (watches : List Watch) (channel : Channel) (message : MessageView)
        → IsChain [] watches → IsUnknownOver channel watches message.identity }
{}

/// There is such a chain, of two watches of a log that was empty at first. EA01 with the line TEST
/// is heard on channel 0, its entry is put, and the power fails. A watch that starts four hours
/// later hears EA01 again. They put the one entry, and the 44 bytes of the log stand for it. Each
/// is the watch that a call leaves which says so much of its file.
pub fn there_is_a_chain_of_watches_with_a_message_heard_in_time()
    ensures chain { IsChain [] example_watches }
    ensures clocks { ClocksAreNear Zero [] example_watches }
    ensures heard { IsHeardInTimeOver Zero example_watches example_message }
    ensures put { all_put example_watches ≡ one_entry }
    ensures bytes { (StandsForEntries one_entry kept_bytes) × (length kept_bytes ≡ 44) }
    ensures first { (left : IsLeftBy first_moment [] stopped first_acting first_acting one_entry
        kept_bytes)
        × (first_watch ≡ with_copies left.watch found_on found_on) }
    ensures second { (left : IsLeftBy 1735706400 one_entry answered (second_acting 1735706400)
        (second_acting 1735706400) [] kept_bytes)
        × (second_watch 1735706400 ≡ with_copies left.watch found_on found_on) }
{}
