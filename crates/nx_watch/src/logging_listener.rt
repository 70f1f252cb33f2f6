//! The receivers of a watch, and the log in which it keeps what they print.

ghost use Rattle.std.specs.Prelude.{◌≡◌, ◌+◌, ◌<◌, ◌≤◌, ℕ, Bool, List, [], ◌∷◌, ◌++◌, Option, Some, IsSomeAnd, MatchResult, OnErr, length, take, drop, true, ◌&&◌, not};
ghost use Rattle.std.specs.List.{All, AllZip};
ghost use Rattle.nx_envelope.specs.Moment.{last_moment};
ghost use Rattle.nx_fec.specs.air_files.AirFile.{IsLine, Line, elements, moment};
ghost use Rattle.nx_fec.specs.Transfers.{CountedDevice};
ghost use Rattle.nx_fec.specs.air_files.Scanner.{line_with};
ghost use Rattle.nx_log.specs.Logged.{IsLogged, IsLoggedAs};
ghost use Rattle.nx_receiver.specs.Moments.{Refuses};
ghost use Rattle.nx_receiver.specs.air_file_runs.Listen.{given_by};
ghost use Rattle.nx_receiver.specs.Listener.{last_copies, starts_by, then_elements};
ghost use Rattle.nx_watch.specs.declared.kept_log.keeper.Keeper.{Keeper as TheKeeper};
ghost use Rattle.nx_watch.specs.LineRun.{HasTold};
ghost use Rattle.nx_watch.specs.private.LineRun.{MayAct, force_behind};
ghost use Rattle.nx_watch.specs.LinesTold.{put_told};
ghost use Rattle.nx_watch.specs.Watch.{PrintsLoggable};
ghost use Rattle.nx_watch.specs.private.Effects.{IsAnswer, lines_taken};
ghost use Rattle.nx_watch.specs.private.Keeping.{KeepsWith};
ghost use Rattle.nx_watch.specs.private.LoggingListener.{HasClosed, IsCopyInRange, IsLineInRange, KeepsHeard, KeepsLines, LoggingOver, LoggingTo, TakesLines, logging_to};

use crate::kept_log::keeper::Keeper;
use crate::lines::refusal::Refusal;
use crate::lines::telling::tell_failed_put;
use arrayvec::ArrayVec;
use nx_copies::{MAX_ENTRY, entry_bytes};
use nx_fec::{Channel, Counting, LineKind, PackedElements};
use nx_kept::DiskFile;
use nx_memory::RingRecall;
use nx_receiver::{ChannelReceiver, Command, LastEntries, Listener, MomentFault, Receiver};
use std::io::Write;

/// The receivers of a watch, of whatever kind, and who keeps the entries that they print.
#[derive(Drop)]
pub(crate) struct LoggingListener<D, L = Listener<Receiver<RingRecall>>> {
    pub(crate) listener: L,
    pub(crate) keeper: Keeper<D>,
    /// The bytes of the latest entry.
    pub(crate) entry: ArrayVec<u8, MAX_ENTRY>,
}

impl<D: DiskFile + Drop, C: ChannelReceiver> LoggingListener<D, Listener<C>> {
    /// Sets the moment of all channels, as a line does that says it. A watch sets one by itself
    /// before the first elements, where no line said one. `Range` where it is past 2999-12-31
    /// 23:59:59, else `Back` where it is before the one in force; the receivers then stay as they
    /// were.
    pub(crate) fn set_moment(&mut self, given: u64) -> Result<(), MomentFault>
        ensures set { (start : LoggingOver D C) (lines : List Line) (bytes : List ℕ)
            → KeepsLines C.kind D.DiskFile start self.old lines bytes
            → MatchResult result
            (λ _. MayAct (starts_by C.kind start.listener).moment lines (moment given)
            × KeepsLines C.kind D.DiskFile start self.new (lines ++ moment given ∷ []) bytes)
            (λ fault. Refuses (force_behind (starts_by C.kind start.listener).moment lines) given
            fault
            × (self.new ≡ self.old)) }
        ensures keeper { self.new.keeper ≡ self.old.keeper }
    {
        self.listener.set_moment(given)
    }

    /// Takes a line that says this and has these elements, and keeps the entries that it prints;
    /// answers why the receivers refuse it, where they do. It takes the whole line also where a
    /// write fails, after which it doesn't call the writer.
    pub(crate) fn take<W: Write>(
        &mut self,
        kind: LineKind,
        elements: &PackedElements,
        writer: &mut Counting<W>,
    ) -> Result<(), Refusal>
        requires line { IsLine (line_with kind elements.now) }
        requires none { writer.old.failures ≡ 0 }
        ensures taken { (start : LoggingTo D C W) (lines : List Line) (line : Line)
            → line ≡ line_with kind elements.now
            → TakesLines C.kind D.DiskFile W.contents start (logging_to self.old writer.old) lines
            → IsAnswer (force_behind (starts_by C.kind start.logging.listener).moment lines) line
            result
            × TakesLines C.kind D.DiskFile W.contents start (logging_to self.new writer.new)
            (lines ++ lines_taken line result) }
        ensures refused { OnErr result (writer.new ≡ writer.old) }
        ensures once { writer.new.failures ≤ 1 }
        ensures failed { self.old.keeper.has_failed ≡ true → self.new.keeper.has_failed ≡ true }
    {
        match kind {
            LineKind::Elements(mark) => self.hear(mark, elements, writer),
            LineKind::Moment(moment) => self.set_moment(moment)?,
            _ => {
                let (channel, command) = Command::of_line(kind);
                self.listener.command(channel, command)?;
            }
        }
        Ok(())
    }

    /// Hears elements of a channel up to and with the one that ends the first copy that is printed,
    /// and keeps its entry. Answers how many it heard.
    #[inline(always)]
    fn hear_next<W: Write>(
        &mut self,
        channel: Channel,
        packed: &PackedElements,
        from: usize,
        writer: &mut Counting<W>,
    ) -> usize
        requires some { from < length packed.now }
        requires once { writer.old.failures ≤ 1 }
        ensures heard { (start : LoggingOver D C) (first : CountedDevice W) (lines : List Line)
            (part : List Bool) → PrintsLoggable C.kind.printing
            → (starts_by C.kind start.listener).moment ≤ last_moment
            → All IsLineInRange lines
            → KeepsHeard C.kind D.DiskFile W.contents start self.old first writer.old
            (then_elements (given_by lines) channel part)
            → KeepsHeard C.kind D.DiskFile W.contents start self.new first writer.new
            (then_elements (given_by lines) channel (part ++ take result (drop from packed.now))) }
        ensures some { 0 < result }
        ensures within { from + result ≤ length packed.now }
        ensures once { writer.new.failures ≤ 1 }
        ensures failed { self.old.keeper.has_failed ≡ true → self.new.keeper.has_failed ≡ true }
    {
        let (count, is_spelled) = self
            .listener
            .hear_spelled(channel, packed, from, &mut self.entry);
        if !is_spelled {
            return count;
        }
        self.keeper.keep(&self.entry, writer);
        count
    }

    /// Hears the elements of a line, and keeps the entries of the copies that they end.
    fn hear<W: Write>(
        &mut self,
        mark: Option<Channel>,
        packed: &PackedElements,
        writer: &mut Counting<W>,
    )
        requires { writer.old.failures ≡ 0 }
        ensures taken { (start : LoggingTo D C W) (lines : List Line)
            → TakesLines C.kind D.DiskFile W.contents start (logging_to self.old writer.old) lines
            → TakesLines C.kind D.DiskFile W.contents start (logging_to self.new writer.new)
            (lines ++ elements mark packed.now ∷ []) }
        ensures once { writer.new.failures ≤ 1 }
        ensures failed { self.old.keeper.has_failed ≡ true → self.new.keeper.has_failed ≡ true }
    {
        let channel = Channel::of(mark);
        let mut at = 0;
        while at < packed.len() {
            at += self.hear_next(channel, packed, at, writer);
        }
    }

    /// Closes the channels 0, 1 and 2, and keeps the entries of the copies that stood open.
    pub(crate) fn close<W: Write>(self, writer: &mut Counting<W>) -> Keeper<D>
        requires { writer.old.failures ≤ 1 }
        ensures closed { (start : LoggingTo D C W) (lines : List Line)
            → TakesLines C.kind D.DiskFile W.contents start (logging_to self writer.old) lines
            → HasClosed C.kind.printing D.DiskFile W.contents
            (starts_by C.kind start.logging.listener) start.logging.keeper result start.writer
            writer.new lines }
        ensures once { writer.new.failures ≤ 1 }
        ensures failed { self.keeper.has_failed ≡ true → result.has_failed ≡ true }
    {
        let LoggingListener {
            listener,
            keeper,
            entry: _,
        } = self;
        keep_last(keeper, listener.close(), writer)
    }

    /// Closes the channels, and tells of a put that failed then, where none had before.
    pub(crate) fn finish<W: Write, F: Write>(
        self,
        writer: &mut Counting<W>,
        notices: &mut Counting<F>,
    ) -> Keeper<D>
        requires { writer.old.failures ≤ 1 }
        ensures closed { (start : LoggingTo D C W) (lines : List Line)
            → TakesLines C.kind D.DiskFile W.contents start (logging_to self writer.old) lines
            → HasClosed C.kind.printing D.DiskFile W.contents
            (starts_by C.kind start.logging.listener) start.logging.keeper result start.writer
            writer.new lines }
        ensures once { writer.new.failures ≤ 1 }
        ensures failed { self.keeper.has_failed ≡ true → result.has_failed ≡ true }
        ensures told { (old : Option (List ℕ)) (text : List ℕ)
            → HasTold old (F.contents notices.old.inner) notices.old.failures text
            → HasTold old (F.contents notices.new.inner) notices.new.failures
            (text ++ put_told (result.has_failed && not self.keeper.has_failed)) }
    {
        let had_failed = self.keeper.has_failed;
        let keeper = self.close(writer);
        tell_failed_put(had_failed, keeper.has_failed, notices);
        keeper
    }

    /// Who keeps its entries.
    pub(crate) fn into_keeper(self) -> Keeper<D>
        ensures { result ≡ self.keeper }
    {
        let LoggingListener {
            listener: _,
            keeper,
            entry: _,
        } = self;
        keeper
    }
}

/// Keeps the entries that the end prints.
fn keep_last<D: DiskFile + Drop, W: Write>(
    mut keeper: Keeper<D>,
    mut last: LastEntries,
    writer: &mut Counting<W>,
) -> Keeper<D>
    requires once { writer.old.failures ≤ 1 }
    requires range { All IsCopyInRange (last_copies last) }
    ensures kept { (start : TheKeeper D) (first : CountedDevice W) (texts : List (List ℕ))
        → All IsLogged (last_copies last)
        → KeepsWith D.DiskFile W.contents start keeper first writer.old texts
        → (more : List (List ℕ)) × AllZip IsLoggedAs (last_copies last) more
        × KeepsWith D.DiskFile W.contents start result first writer.new (texts ++ more) }
    ensures once { writer.new.failures ≤ 1 }
    ensures failed { keeper.has_failed ≡ true → result.has_failed ≡ true }
{
    'entries: loop {
        let Some((channel, entry)) = last.take_next() else {
            return keeper;
        };
        keeper.keep(&entry_bytes(&entry, channel), writer);
    }
}
