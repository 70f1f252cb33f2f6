//! Listening to an air file: the log of its lines, written while it is read. What a line does that
//! sets something is inlined always, since its answer would go through memory otherwise.

ghost use Rattle.std.specs.Prelude.{◌≡◌, ◌+◌, ◌-◌, ◌^◌, ◌<◌, ◌≤◌, ℕ, Bool, true, List, [], ◌∷◌, ◌++◌, length, map, take, drop, Option, Some, IfOk, IfSome, MatchResult};
ghost use Rattle.nx_envelope.specs.Moment.{last_moment};
ghost use Rattle.nx_fec.specs.air_files.AirFile.{IsLine, Line};
ghost use Rattle.nx_fec.specs.air_files.AirFile as line;
ghost use Rattle.nx_fec.specs.air_files.Scanner.{kind_of, line_with};
ghost use Rattle.nx_fec.specs.Transfers.{FailsOnce, HasWritten, WroteSome, devices, count_of};
ghost use Rattle.nx_fec.specs.air_files.LineRuns.{HasGiven};
ghost use Rattle.nx_fec.specs.private.LineRuns.{HasTaken};
ghost use Rattle.nx_receiver.specs.air_file_runs.Listen.{HasLoggedSome, IsLogOfLinesBy};
ghost use Rattle.nx_receiver.specs.air_file_runs.ListenFrom.{GoesOnBy};
ghost use Rattle.nx_receiver.specs.air_file_runs.ListenOnce.{ListensOnce};
ghost use Rattle.nx_copies.specs.copies.Log.{IsLog};
ghost use Rattle.nx_receiver.specs.Receiver.{entry_list};
ghost use Rattle.nx_copies.specs.copies.Shares.{Given, Starts, all_at_zero, marked};
ghost use Rattle.nx_receiver.specs.Listener.{ListeningOver, starts_by, then_elements};
ghost use Rattle.nx_receiver.specs.private.Listener.{HasClosedBy, HasClosedSomeBy, HeardSomeBy, HearsLogBy, IsHearingBy, IsListeningBy, RefusesLine, StandsFromBy};
ghost use Rattle.nx_receiver.specs.declared.air_file_runs.listen_fault.ListenFault.TheVariants.{Memory};

mod logged;
mod of_kind;
mod unlogged;

use crate::air_file_runs::listen_fault::{LineRefusal, ListenFault};
use crate::channel_receiver::ChannelReceiver;
use crate::command::Command;
use crate::listener::Listener;
use logged::listen_lines;
use nx_copies::{Entry, entry_bytes, give_entry};
use nx_fec::{Batch, Channel, Counting, LineKind, LinesRead, PackedElements, WriteFault, write_on};
use nx_memory::SavedSet;
pub use of_kind::listen_with;
use std::alloc::{AllocError, Global};
use std::io::{Read, Write};
pub(crate) use unlogged::listen_unlogged;

/// What a run that listened to an air file read and printed.
#[derive(Clone, Copy, Debug, Drop, PartialEq, Eq)]
pub struct Report {
    /// How many lines the file has.
    pub lines: u64,
    /// How many elements its lines have, over all channels.
    pub bits: u64,
    /// How many entries were printed, over all channels.
    pub printed: u64,
}

/// Listens to an air file of at most 268,435,456 bytes to its end, and writes its log. The log has
/// an entry for each copy that is printed. All that the lines so far print is written before each
/// further read. Three receivers hear it, one for each channel; each starts with an empty memory,
/// at moment 0, and everything is selected. Their entries stand in the log in the order in which
/// their copies end; the end of the file closes the channels 0, 1 and 2 in order. All memory is
/// taken before the first read. No call on reader or writer has failed before.
///
/// Where it answers Ok, each message that is heard in time on a channel of the file has exactly one
/// entry of that channel in the log. The entry is full, and has 0 errors and the message's text
/// letter for letter. A message heard in time is not numbered 00, and is selected whenever it is
/// sent. Its sendings all lie within 66 hours and pass the path while 200 identities suffice.
/// Nothing else of its identity is found on that channel.
///
/// The first fault in the order of the bytes ends the run; the line that has it has no effect.
/// After a fault of a line, `AirTooLong` and `Read`, the log of the whole lines before it is
/// written, and an open copy isn't closed. After `Write` the first `written` bytes of the log of
/// the lines read whole by then are written, closed if the file had ended. After `Memory` nothing
/// was read.
pub fn listen<R: Read, W: Write>(
    alloc: Global,
    reader: &mut Counting<R>,
    writer: &mut Counting<W>,
) -> Result<Report, ListenFault>
    requires reader { reader.old.failures ≡ 0 }
    requires writer { writer.old.failures ≡ 0 }
    ensures listens { ListensOnce all_at_zero
        (devices R.remaining W.contents reader.old reader.new writer.old writer.new) result }
    ensures memory { (error : AllocError) → result ≡ Err (Memory error)
        → (reader.new ≡ reader.old) × (writer.new ≡ writer.old) }
{
    let (report, _) = listen_from(alloc, &SavedSet::new(), reader, writer)?;
    Ok(report)
}

/// Listens as `listen` does, and goes on from what is saved. The receiver of each channel starts
/// with the saved entries and the saved selection of the channel. All three start at the greatest
/// moment of an entry, or 0 where there is none. Answers also what it leaves of each channel: the
/// last 200 of all entries, the saved ones and those that the run made, and what is selected after
/// the file. A copy that stands open at its end is no part of it. All memory is taken before the
/// first read. No call on reader or writer has failed before.
///
/// Where it answers Ok, each message that is heard in time on a channel of the file has exactly one
/// entry of that channel in the log, as with `listen`. For this, no saved entry of its identity on
/// that channel may be live when it is first heard.
///
/// Faults are those of `listen`. After one there is nothing to go on from but what was saved
/// before.
pub fn listen_from<R: Read, W: Write>(
    alloc: Global,
    saved: &SavedSet,
    reader: &mut Counting<R>,
    writer: &mut Counting<W>,
) -> Result<(Report, SavedSet), ListenFault>
    requires reader { reader.old.failures ≡ 0 }
    requires writer { writer.old.failures ≡ 0 }
    ensures listens { GoesOnBy saved.now
        (devices R.remaining W.contents reader.old reader.new writer.old writer.new) result }
    ensures memory { (error : AllocError) → result ≡ Err (Memory error)
        → (reader.new ≡ reader.old) × (writer.new ≡ writer.old) }
{
    let mut listener: Listener = Listener::starting(alloc, saved)?;
    let read = listen_lines(reader, writer, &mut listener)?;
    // Before the end: the copy that the end closes is cut, and makes no entry.
    let left = listener.saved();
    let report = close_log(listener, writer, read)?;
    Ok((report, left))
}

/// Takes a line of an air file that sets what is in force: a moment, or a command of selection.
#[inline(always)]
fn take_setting<C: ChannelReceiver>(
    listener: &mut Listener<C>,
    kind: LineKind,
) -> Result<(), LineRefusal>
    requires { IsLine (line_with kind []) }
    ensures { (starts : Starts) (lines : List Line) (line : Line) (bytes : List ℕ)
        → kind_of line ≡ kind → IsListeningBy C.kind starts listener.old lines bytes
        → MatchResult result
        (λ _. IsListeningBy C.kind starts listener.new (lines ++ line ∷ []) bytes)
        (λ why. RefusesLine starts lines line why × (listener.new ≡ listener.old)) }
{
    match kind {
        LineKind::Moment(moment) => take_moment(listener, moment),
        _ => {
            let (channel, command) = Command::of_line(kind);
            listener.command(channel, command)?;
            Ok(())
        }
    }
}

/// Takes a moment, which belongs to all channels.
fn take_moment<C: ChannelReceiver>(
    listener: &mut Listener<C>,
    moment: u64,
) -> Result<(), LineRefusal>
    ensures { (starts : Starts) (lines : List Line) (bytes : List ℕ)
        → IsListeningBy C.kind starts listener.old lines bytes
        → MatchResult result
        (λ _. IsListeningBy C.kind starts listener.new (lines ++ line.moment moment ∷ []) bytes)
        (λ why. RefusesLine starts lines (line.moment moment) why
        × (listener.new ≡ listener.old)) }
{
    listener.set_moment(moment)?;
    Ok(())
}

/// Takes the elements of a line, for the channel that it names: hears them, and gives the entries
/// of the copies that they end. There was a moment before them. No write has failed before.
fn take_elements<C: ChannelReceiver, W: Write>(
    listener: &mut Listener<C>,
    mark: Option<Channel>,
    packed: &PackedElements,
    writer: &mut Counting<W>,
    batch: &mut Batch,
) -> Result<(), WriteFault>
    requires moment { listener.old.has_moment ≡ true }
    requires none { writer.old.failures ≡ 0 }
    ensures taken { (first : ListeningOver C) (old : Option (List ℕ)) (lines : List Line)
        → HasTaken (StandsFromBy C.kind) first listener.old lines
        (HasGiven old (W.contents writer.old.inner) batch.old) → MatchResult result
        (λ _. HasTaken (StandsFromBy C.kind) first listener.new
        (lines ++ line.elements mark packed.now ∷ [])
        (HasGiven old (W.contents writer.new.inner) batch.new))
        (λ fault. HasLoggedSome (IsLogOfLinesBy C.kind.printing (starts_by C.kind first)
        (lines ++ line.elements mark packed.now ∷ []))
        record { before = old; after = W.contents writer.new.inner } fault.written) }
    ensures counts { FailsOnce writer.new result }
{
    let channel = Channel::of(mark);
    let mut at = 0;
    while at < packed.len() {
        at += hear_next(listener, channel, packed, at, writer, batch)?;
    }
    Ok(())
}

/// Hears elements of a channel, of which one at least stands from this place on, up to and with the
/// one that ends the first copy that is printed, and gives its entry. Answers how many it heard. No
/// write has failed before.
fn hear_next<C: ChannelReceiver, W: Write>(
    listener: &mut Listener<C>,
    channel: Channel,
    packed: &PackedElements,
    from: usize,
    writer: &mut Counting<W>,
    batch: &mut Batch,
) -> Result<usize, WriteFault>
    requires some { from < length packed.now }
    requires none { writer.old.failures ≡ 0 }
    ensures heard { (starts : Starts) (old : Option (List ℕ)) (given : List Given)
        (part : List Bool)
        → IsHearingBy C.kind starts listener.old (then_elements given channel part)
        (HasGiven old (W.contents writer.old.inner) batch.old)
        → MatchResult result
        (λ count. IsHearingBy C.kind starts listener.new
        (then_elements given channel (part ++ take count (drop from packed.now)))
        (HasGiven old (W.contents writer.new.inner) batch.new))
        (λ fault. HeardSomeBy C.kind.printing starts
        (then_elements given channel (part ++ drop from packed.now)) old
        (W.contents writer.new.inner) fault.written) }
    ensures within { IfOk result (λ count. (0 < count) × (from + count ≤ length packed.now)) }
    ensures moment { listener.new.has_moment ≡ listener.old.has_moment }
    ensures counts { FailsOnce writer.new result }
{
    let (count, head) = listener.next_printed(channel, packed, from);
    let Some(head) = head else {
        return Ok(count);
    };
    give_entry(&head, listener.text(channel), channel, writer, batch)?;
    Ok(count)
}

/// Ends the file: writes, channel by channel, the entry of the copy that its end closes, where that
/// is printed, and counts. No write has failed before.
fn close_log<C: ChannelReceiver, W: Write>(
    listener: Listener<C>,
    writer: &mut Counting<W>,
    read: LinesRead,
) -> Result<Report, WriteFault>
    requires { writer.old.failures ≡ 0 }
    ensures closed { (starts : Starts) (old : Option (List ℕ)) (given : List Given)
        (bytes : List ℕ) → HearsLogBy C.kind starts listener given bytes
        → HasWritten old (W.contents writer.old.inner) bytes read.written → MatchResult result
        (λ report. HasClosedBy C.kind.printing starts old (W.contents writer.new.inner) given
        report)
        (λ fault. HasClosedSomeBy C.kind.printing starts old (W.contents writer.new.inner) given
        fault.written) }
    ensures lines { IfOk result (λ report. report.lines ≡ read.lines) }
    ensures counts { FailsOnce writer.new result }
{
    let bits = listener.elements();
    let at_end = Ending {
        written: read.written,
        entries: listener.entries(),
    };
    let last = listener.close();
    let at_end = at_end.with(&last.on_0, Channel::Zero, writer)?;
    let at_end = at_end.with(&last.on_1, Channel::One, writer)?;
    let at_end = at_end.with(&last.on_2, Channel::Two, writer)?;
    Ok(Report {
        lines: read.lines,
        bits,
        printed: at_end.entries,
    })
}

/// How many bytes of the log are written at the end of a file, and how many entries were given.
#[derive(Clone, Copy)]
struct Ending {
    written: u64,
    entries: u64,
}

impl Ending {
    /// Writes the entry that the end prints on a channel, where it prints one, and counts. Its
    /// moment is at most the last one, and no write has failed before.
    fn with<W: Write>(
        self,
        entry: &Option<Entry>,
        channel: Channel,
        writer: &mut Counting<W>,
    ) -> Result<Ending, WriteFault>
        requires none { writer.old.failures ≡ 0 }
        requires moment { IfSome entry.now (λ entry. entry.moment ≤ last_moment) }
        ensures bytes { (bytes : List ℕ) × IsLog (map (marked channel) (entry_list entry.now)) bytes
            × ((old : Option (List ℕ)) (before : List ℕ)
            → HasWritten old (W.contents writer.old.inner) before self.written
            → MatchResult result
            (λ next. HasWritten old (W.contents writer.new.inner) (before ++ bytes) next.written)
            (λ fault. WroteSome old (W.contents writer.new.inner) (before ++ bytes)
            fault.written)) }
        ensures entries { IfOk result (λ next. self.entries ≤ 2 ^ 64 - 1
            → next.entries ≡ count_of (self.entries + length (entry_list entry.now))) }
        ensures counts { FailsOnce writer.new result }
    {
        let Some(entry) = entry else {
            return Ok(self);
        };
        let written = write_on(writer, self.written, &entry_bytes(entry, channel))?;
        Ok(Ending {
            written,
            entries: self.entries.saturating_add(1),
        })
    }
}
