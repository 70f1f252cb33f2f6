//! A run over the lines of any bytes, which goes on behind those that aren't understood. What runs
//! for each line is inlined always; what is done for one that isn't understood never is.

ghost use Rattle.std.specs.Prelude.{◌≡◌, ◌+◌, ◌<◌, ◌≤◌, ◌↔◌, ◌⊎◌, ℕ, true, false, List, [], ◌∷◌, ◌++◌, Option, IsErrOf, IsSome, IfOk, OnOk, MatchResult, None, Some, drop, length, take, ◌^◌};
ghost use Rattle.std.specs.Io.KnownBytes.{Consumes, IsAtEnd};
ghost use Rattle.nx_fec.specs.air_files.AirFile.{IsLine, Line};
ghost use Rattle.nx_fec.specs.air_files.Scanner.{kind_of};
ghost use Rattle.nx_watch.specs.Acting.{acting_lines, moments_behind, most_bytes};
ghost use Rattle.nx_watch.specs.AnyLines.{AreLines};
ghost use Rattle.nx_watch.specs.LineRun.{HasTold};
ghost use Rattle.nx_watch.specs.private.LineRun.{AnswersRun, AreCounted, HasTaken};
ghost use Rattle.nx_watch.specs.LinesTold.{IsReason};
ghost use Rattle.nx_watch.specs.private.Effects.{acting_and_set, is_acting, IsEffect, IsKept, KeepsMoments, SameCounts, set_by};
ghost use Rattle.nx_watch.specs.private.Running.{EndsInput, EndsRun, HasToldLines, HasToldSo, IsBeside, IsRunning, IsToldByEnd, TellsFirst, ToldBefore, ToldBeside, beside};
ghost use Rattle.nx_receiver.specs.Listener.{starts_by};
ghost use Rattle.nx_watch.specs.Stamp.{AreTheReads, LastGaveNone};
ghost use Rattle.nx_watch.specs.Stamps.{HasStampedReads, IsFresh, bytes_given, counted_of, cut_notes, stamps_of};
ghost use Rattle.nx_watch.specs.private.LoggingListener.{KeepsLines, LoggingOver, LoggingTo, TakesLines, logging_to};
ghost use Rattle.nx_watch.specs.private.AnyReading.{GoesOn, HasGiven, SaysLine, latest_of, reach, waiting};
ghost use Rattle.nx_watch.specs.declared.lines.any_lines.AnyLine.TheVariants.{Known};
ghost use Rattle.nx_watch.specs.private.Stamping.{RunsStamped, StandsStamped, telling};
ghost use Rattle.nx_watch.specs.declared.lines.line_effects.StartMoments.{StartMoments as TheStart};
ghost use Rattle.nx_watch.specs.declared.line_run.WatchEnd.TheVariants.{Read as ReadFailed, Write as WriteEnd};

use crate::lines::any_lines::{AnyLine, AnyLines, More};
use crate::lines::line_effects::{Effect, LineEffects, LinesWatched, StartMoments};
use crate::lines::no_effect::NoEffect;
use crate::lines::telling::{tell_failed_put, tell_first, tell_number};
use crate::logging_listener::LoggingListener;
use crate::stamped::StampedReader;
use nx_fec::{Counting, LineKind};
use nx_kept::DiskFile;
use nx_receiver::{ChannelReceiver, Listener};
use std::io::{Read, Write};

/// Why a run over lines ended before its input.
#[derive(Clone, Copy, Debug, PartialEq, Eq)]
pub enum WatchEnd {
    /// A read failed.
    Read,
    /// The moment of the line goes back by 66 hours or more, and so did the one before it.
    Back { line: u64, last: u64, given: u64 },
    /// A write of what a line gave failed.
    Write,
}

/// Reads any bytes to their end, or up to `limit` of them, as lines, and gives each line that acts
/// to the receivers, all that it holds before each further read. `first` is the moments with which
/// it starts. Tells of the first line without effect, and of a put that failed, before the next
/// read, and of the number of lines without effect at the end. A failed write of what it tells is
/// passed over. It takes no memory.
///
/// `Back` behind the line that ends the watch: its moment goes back by 66 hours or more, as the
/// moment in range before it did. `Read` after a failed read. Every list of bytes has an answer.
pub(crate) fn watch_lines<R: Read, D: DiskFile + Drop, C: ChannelReceiver, W: Write, F: Write>(
    reader: &mut StampedReader<R, D, Counting<W>, Counting<F>>,
    writer: &mut Counting<W>,
    notices: &mut Counting<F>,
    logging: &mut LoggingListener<D, Listener<C>>,
    first: StartMoments,
    limit: u64,
) -> Result<LinesWatched, WatchEnd>
    requires reader { IsFresh reader.old }
    requires writer { writer.old.failures ≡ 0 }
    requires limit { limit ≤ most_bytes }
    ensures watched { (start : LoggingOver D C) (old : ToldBefore)
        → (starts_by C.kind start.listener).moment ≡ first.newest
        → logging.old.keeper.has_failed ≡ false
        → KeepsLines C.kind D.DiskFile start logging.old [] []
        → HasTold old.old (F.contents notices.old.inner) notices.old.failures old.text
        → (bytes : List ℕ)
        × Consumes (R.remaining (counted_of reader.old).inner)
        (R.remaining (counted_of reader.new).inner) bytes
        × ((length bytes ≤ limit) × (length bytes ≡ bytes_given reader.new))
        × AnswersRun (record {
          stands = StandsStamped
              (telling C.kind D.DiskFile W.contents F.contents old) first bytes
              (stamps_of reader.new);
          start = logging_to start writer.old;
          now = logging_to logging.new writer.new;
          first = first;
          AtEnd = IsAtEnd (R.remaining (counted_of reader.new).inner) ⊎ (length bytes ≡ limit);
          tells = λ lines. HasToldSo old (F.contents notices.new.inner) notices.new.failures
              (IsToldByEnd first bytes lines logging.new.keeper.has_failed);
        }) result bytes }
    ensures consumed { HasStampedReads R.remaining reader.old reader.new }
    ensures stamps { AreTheReads (stamps_of reader.new) (bytes_given reader.new) }
    ensures cuts { cut_notes reader.new ≡ cut_notes reader.old }
    ensures ended { OnOk result (LastGaveNone (stamps_of reader.new)
        ⊎ (bytes_given reader.new ≡ limit)) }
    ensures failed { IsErrOf result ReadFailed → LastGaveNone (stamps_of reader.new) }
    ensures unread { IsErrOf result ReadFailed ↔ ((counted_of reader.new).failures ≡ 1) }
    ensures once { (counted_of reader.new).failures ≤ 1 }
    ensures unwritten { IsErrOf result WriteEnd ↔ (writer.new.failures ≡ 1) }
    ensures written_once { writer.new.failures ≤ 1 }
{
    // What is held from line to line doesn't grow.
    prove!(size_of::<LineRun>() == size_of::<AnyLines>() + size_of::<LineEffects>());
    let mut run = LineRun {
        lines: AnyLines::new(limit),
        effects: LineEffects::new(first),
    };
    match run.read_lines(reader, writer, notices, logging) {
        Ok(()) => Ok(run.end(notices)),
        Err(end) => {
            run.count(notices);
            Err(end)
        }
    }
}

/// What a run holds of the lines so far.
#[derive(Drop)]
struct LineRun {
    lines: AnyLines,
    effects: LineEffects,
}

impl LineRun {
    /// Takes all lines of the input up to its end or its limit, or until the run is over. Lets more
    /// be read only where all lines so far are taken, and what there is to tell is told.
    fn read_lines<R: Read, D: DiskFile + Drop, C: ChannelReceiver, W: Write, F: Write>(
        &mut self,
        reader: &mut StampedReader<R, D, Counting<W>, Counting<F>>,
        writer: &mut Counting<W>,
        notices: &mut Counting<F>,
        logging: &mut LoggingListener<D, Listener<C>>,
    ) -> Result<(), WatchEnd>
        requires reader { IsFresh reader.old }
        requires writer { writer.old.failures ≡ 0 }
        requires limit { self.old.lines.room ≤ most_bytes }
        requires fresh { waiting self.old.lines ≡ [] }
        requires room { reach self.old.lines ≡ most_bytes }
        requires lines { self.old.effects.lines ≡ 0 }
        requires fewer { self.old.effects.without_effect ≡ 0 }
        ensures read { (start : LoggingTo D C W) (first : TheStart) (old : ToldBefore)
            → (starts_by C.kind start.logging.listener).moment ≡ first.newest
            → logging.old.keeper.has_failed ≡ false
            → IsRunning (TakesLines C.kind D.DiskFile W.contents) start
            (logging_to logging.old writer.old) first self.old (beside old)
            (F.contents notices.old.inner) notices.old.failures []
            → (bytes : List ℕ)
            × Consumes (R.remaining (counted_of reader.old).inner)
            (R.remaining (counted_of reader.new).inner) bytes
            × ((length bytes ≤ self.old.lines.room) × (length bytes ≡ bytes_given reader.new))
            × (told : ToldBeside) × IsBeside old logging.new.keeper.has_failed told
            × MatchResult result
            (λ _. (IsAtEnd (R.remaining (counted_of reader.new).inner)
            ⊎ (length bytes ≡ self.old.lines.room))
            × RunsStamped (telling C.kind D.DiskFile W.contents F.contents old) first bytes
            self.new.effects.lines start
            (λ since. IsRunning (TakesLines C.kind D.DiskFile W.contents) since
            (logging_to logging.new writer.new) first self.new told
            (F.contents notices.new.inner) notices.new.failures bytes) (stamps_of reader.new))
            (λ end. RunsStamped (telling C.kind D.DiskFile W.contents F.contents old) first bytes
            self.new.effects.lines start
            (λ since. EndsRun (TakesLines C.kind D.DiskFile W.contents) since
            (logging_to logging.new writer.new) first self.new.effects told
            (F.contents notices.new.inner) notices.new.failures end bytes)
            (stamps_of reader.new)) }
        ensures consumed { HasStampedReads R.remaining reader.old reader.new }
        ensures stamps { AreTheReads (stamps_of reader.new) (bytes_given reader.new) }
        ensures cuts { cut_notes reader.new ≡ cut_notes reader.old }
        ensures ended { OnOk result (LastGaveNone (stamps_of reader.new)
            ⊎ (bytes_given reader.new ≡ self.old.lines.room)) }
        ensures failed { IsErrOf result ReadFailed → LastGaveNone (stamps_of reader.new) }
        ensures few { OnOk result (self.new.effects.lines < 2 ^ 63) }
        ensures fewer { OnOk result (self.new.effects.without_effect ≤ self.new.effects.lines) }
        ensures unread { IsErrOf result ReadFailed ↔ ((counted_of reader.new).failures ≡ 1) }
        ensures once { (counted_of reader.new).failures ≤ 1 }
        ensures unwritten { IsErrOf result WriteEnd ↔ (writer.new.failures ≡ 1) }
        ensures written_once { writer.new.failures ≤ 1 }
    {
        let mut had_failed = logging.keeper.has_failed;
        loop {
            match self.take_next(writer, notices, logging) {
                Ok(true) => {}
                Ok(false) => {
                    let has_failed = logging.keeper.has_failed;
                    tell_failed_put(had_failed, has_failed, notices);
                    had_failed = has_failed;
                    let disk = &logging.keeper.log.device;
                    match self.lines.read(reader, disk, writer, notices) {
                        More::Bytes => {}
                        More::End => return Ok(()),
                        More::Failed => return Err(WatchEnd::Read),
                    }
                }
                Err(end) => {
                    tell_failed_put(had_failed, logging.keeper.has_failed, notices);
                    return Err(end);
                }
            }
        }
    }

    /// Takes the next line. Answers false where all lines are taken of the bytes that were read.
    #[inline(always)]
    fn take_next<D: DiskFile + Drop, C: ChannelReceiver, W: Write, F: Write>(
        &mut self,
        writer: &mut Counting<W>,
        notices: &mut Counting<F>,
        logging: &mut LoggingListener<D, Listener<C>>,
    ) -> Result<bool, WatchEnd>
        requires writer { writer.old.failures ≡ 0 }
        requires room { length (waiting self.old.lines) ≤ reach self.old.lines }
        requires within { reach self.old.lines ≤ most_bytes }
        requires few { self.old.effects.lines + length (waiting self.old.lines) ≤ most_bytes }
        requires fewer { self.old.effects.without_effect ≤ self.old.effects.lines }
        ensures taken { (count : ℕ) × (count ≤ length (waiting self.old.lines))
            × (waiting self.new.lines ≡ drop count (waiting self.old.lines))
            × ((start : LoggingTo D C W) (first : TheStart) (old : ToldBeside) (bytes : List ℕ)
            → (starts_by C.kind start.logging.listener).moment ≡ first.newest
            → IsRunning (TakesLines C.kind D.DiskFile W.contents) start
            (logging_to logging.old writer.old)
            first self.old old (F.contents notices.old.inner) notices.old.failures bytes
            → MatchResult result
            (λ _. IsRunning (TakesLines C.kind D.DiskFile W.contents) start
            (logging_to logging.new writer.new) first self.new old
            (F.contents notices.new.inner) notices.new.failures
            (bytes ++ take count (waiting self.old.lines)))
            (λ end. (more : List ℕ) → EndsRun (TakesLines C.kind D.DiskFile W.contents) start
            (logging_to logging.new writer.new) first self.new.effects old
            (F.contents notices.new.inner) notices.new.failures end
            ((bytes ++ waiting self.old.lines) ++ more))) }
        ensures on { IfOk result (GoesOn (waiting self.old.lines) (waiting self.new.lines)) }
        ensures unread { self.new.lines.room ≡ self.old.lines.room }
        ensures room { OnOk result (reach self.old.lines
            + length (waiting self.new.lines)
            ≤ reach self.new.lines + length (waiting self.old.lines)) }
        ensures within { OnOk result (reach self.new.lines ≤ most_bytes) }
        ensures few { OnOk result (self.new.effects.lines + length (waiting self.new.lines)
            ≤ self.old.effects.lines + length (waiting self.old.lines)) }
        ensures fewer { OnOk result (self.new.effects.without_effect ≤ self.new.effects.lines) }
        ensures grows { self.old.effects.lines ≤ self.new.effects.lines }
        ensures read { IsErrOf result ReadFailed → ⊥ }
        ensures open { OnOk result (writer.new.failures ≡ 0) }
        ensures unwritten { IsErrOf result WriteEnd ↔ (writer.new.failures ≡ 1) }
        ensures written_once { writer.new.failures ≤ 1 }
        ensures failed { logging.old.keeper.has_failed ≡ true
            → logging.new.keeper.has_failed ≡ true }
    {
        match self.lines.next() {
            AnyLine::PieceOver => Ok(false),
            AnyLine::Unknown(why) => {
                self.pass_line(why, notices);
                Ok(true)
            }
            AnyLine::Known(kind) => match self.take_known(kind, writer, notices, logging) {
                Ok(()) => Ok(true),
                Err(end) => Err(end),
            },
        }
    }

    /// Ends the input: keeps that it cuts a line, where it does, and tells how many lines had no
    /// effect.
    fn end<F: Write>(&mut self, notices: &mut Counting<F>) -> LinesWatched
        requires few { self.old.effects.lines < 2 ^ 63 }
        requires fewer { self.old.effects.without_effect ≤ self.old.effects.lines }
        ensures { (first : TheStart) (old : ToldBeside) (bytes : List ℕ)
            (lines : List (Option Line)) → HasGiven self.old.lines bytes lines
            → TellsFirst first self.old.effects old (F.contents notices.old.inner)
            notices.old.failures bytes lines
            → EndsInput first bytes lines old (F.contents notices.new.inner) notices.new.failures
            result }
    {
        match self.lines.cut() {
            Some(why) => {
                self.pass_line(why, notices);
                self.count(notices)
            }
            None => self.count(notices),
        }
    }

    /// Tells how many lines had no effect, and answers the counts.
    fn count<F: Write>(&self, notices: &mut Counting<F>) -> LinesWatched
        ensures counted { (first : TheStart) (old : ToldBeside) (bytes : List ℕ)
            (lines : List (Option Line))
            → TellsFirst first self.now.effects old (F.contents notices.old.inner)
            notices.old.failures bytes lines
            → AreCounted first lines result }
        ensures told { (first : TheStart) (old : ToldBeside) (bytes : List ℕ)
            (lines : List (Option Line))
            → TellsFirst first self.now.effects old (F.contents notices.old.inner)
            notices.old.failures bytes lines
            → HasToldLines old (F.contents notices.new.inner) notices.new.failures first bytes
            lines }
    {
        tell_number(self.effects.without_effect(), notices);
        self.effects.counts()
    }

    /// Keeps that a line isn't understood, for this reason, and tells of it where it is the first
    /// without effect.
    #[inline(never)]
    fn pass_line<F: Write>(&mut self, why: NoEffect, notices: &mut Counting<F>)
        requires few { self.old.effects.lines < 2 ^ 63 }
        requires fewer { self.old.effects.without_effect ≤ self.old.effects.lines }
        ensures tells { (first : TheStart) (old : ToldBeside) (bytes : List ℕ)
            (lines : List (Option Line)) → IsReason bytes lines None why
            → TellsFirst first self.old.effects old (F.contents notices.old.inner)
            notices.old.failures bytes lines
            → TellsFirst first self.new.effects old (F.contents notices.new.inner)
            notices.new.failures bytes (lines ++ None ∷ []) }
        ensures reader { self.new.lines ≡ self.old.lines }
        ensures lines { self.new.effects.lines ≡ self.old.effects.lines + 1 }
        ensures fewer { self.new.effects.without_effect ≤ self.new.effects.lines }
    {
        let before = self.effects.first_without();
        self.effects.not_understood();
        tell_first(before, self.effects.lines(), why, notices);
    }

    /// Gives the receivers the line that was given last, which says this, and answers what it did,
    /// by what they answer.
    #[inline(always)]
    fn give_line<D: DiskFile + Drop, C: ChannelReceiver, W: Write>(
        &mut self,
        kind: LineKind,
        writer: &mut Counting<W>,
        logging: &mut LoggingListener<D, Listener<C>>,
    ) -> Effect
        requires line { SaysLine (latest_of self.old.lines) (Known kind) }
        requires writer { writer.old.failures ≡ 0 }
        requires few { self.old.effects.lines < 2 ^ 63 }
        requires fewer { self.old.effects.without_effect ≤ self.old.effects.lines }
        ensures taken { (start : LoggingTo D C W) (first : TheStart) (lines : List (Option Line))
            (line : Line) → (starts_by C.kind start.logging.listener).moment ≡ first.newest
            → latest_of self.old.lines ≡ Some line
            → IsKept first lines self.old.effects
            → TakesLines C.kind D.DiskFile W.contents start (logging_to logging.old writer.old)
            (acting_lines first lines)
            → IsKept first (lines ++ Some line ∷ []) self.new.effects
            × IsEffect first (moments_behind first lines) (Some line) result
            × TakesLines C.kind D.DiskFile W.contents start (logging_to logging.new writer.new)
            (acting_lines first (lines ++ Some line ∷ [])) }
        ensures reader { self.new.lines ≡ self.old.lines }
        ensures lines { self.new.effects.lines ≡ self.old.effects.lines + 1 }
        ensures fewer { self.new.effects.without_effect ≤ self.new.effects.lines }
        ensures first { IsSome self.old.effects.first_without
            → self.new.effects.first_without ≡ self.old.effects.first_without }
        ensures none { is_acting result ≡ false → self.old.effects.first_without ≡ None
            → self.new.effects.first_without ≡ Some self.new.effects.lines }
        ensures acting { is_acting result ≡ true
            → self.new.effects.first_without ≡ self.old.effects.first_without }
        ensures idle { is_acting result ≡ false → writer.new ≡ writer.old }
        ensures once { writer.new.failures ≤ 1 }
        ensures failed { logging.old.keeper.has_failed ≡ true
            → logging.new.keeper.has_failed ≡ true }
    {
        set_start(&mut self.effects, kind, logging);
        let answer = logging.take(kind, self.lines.elements(), writer);
        self.effects.line(kind, answer)
    }

    /// Takes the line that was given last, which says this. Gives it to the receivers, and tells
    /// why it did nothing where it is the first without effect.
    #[inline(always)]
    fn take_known<D: DiskFile + Drop, C: ChannelReceiver, W: Write, F: Write>(
        &mut self,
        kind: LineKind,
        writer: &mut Counting<W>,
        notices: &mut Counting<F>,
        logging: &mut LoggingListener<D, Listener<C>>,
    ) -> Result<(), WatchEnd>
        requires line { SaysLine (latest_of self.old.lines) (Known kind) }
        requires writer { writer.old.failures ≡ 0 }
        requires few { self.old.effects.lines < 2 ^ 63 }
        requires fewer { self.old.effects.without_effect ≤ self.old.effects.lines }
        ensures taken { (start : LoggingTo D C W) (first : TheStart) (old : ToldBeside)
            (bytes : List ℕ) (lines : List (Option Line)) (line : Line)
            → (starts_by C.kind start.logging.listener).moment ≡ first.newest
            → latest_of self.old.lines ≡ Some line
            → HasTaken (TakesLines C.kind D.DiskFile W.contents) start
            (logging_to logging.old writer.old)
            first lines
            → TellsFirst first self.old.effects old (F.contents notices.old.inner)
            notices.old.failures bytes lines
            → MatchResult result
            (λ _. HasTaken (TakesLines C.kind D.DiskFile W.contents) start
            (logging_to logging.new writer.new) first (lines ++ Some line ∷ [])
            × TellsFirst first self.new.effects old (F.contents notices.new.inner)
            notices.new.failures bytes (lines ++ Some line ∷ []))
            (λ end. (front : List ℕ) → AreLines front (lines ++ Some line ∷ []) []
            → (more : List ℕ) → bytes ≡ front ++ more
            → EndsRun (TakesLines C.kind D.DiskFile W.contents) start
            (logging_to logging.new writer.new)
            first self.new.effects old (F.contents notices.new.inner) notices.new.failures end
            bytes) }
        ensures reader { self.new.lines ≡ self.old.lines }
        ensures lines { self.new.effects.lines ≡ self.old.effects.lines + 1 }
        ensures fewer { self.new.effects.without_effect ≤ self.new.effects.lines }
        ensures unread { IsErrOf result ReadFailed → ⊥ }
        ensures open { OnOk result (writer.new.failures ≡ 0) }
        ensures unwritten { IsErrOf result WriteEnd ↔ (writer.new.failures ≡ 1) }
        ensures written_once { writer.new.failures ≤ 1 }
        ensures failed { logging.old.keeper.has_failed ≡ true
            → logging.new.keeper.has_failed ≡ true }
    {
        let before = self.effects.first_without();
        match self.give_line(kind, writer, logging) {
            Effect::Acts if writer.failures() > 0 => Err(WatchEnd::Write),
            Effect::Acts => Ok(()),
            Effect::Nothing(why) => {
                tell_first(before, self.effects.lines(), why, notices);
                Ok(())
            }
            Effect::Ends { last, given } => {
                tell_first(before, self.effects.lines(), NoEffect::GoesBack, notices);
                Err(WatchEnd::Back {
                    line: self.effects.lines(),
                    last,
                    given,
                })
            }
        }
    }
}

/// Sets the moment of the start, where a line of this kind is of elements and no moment in range
/// came before it. One past the year 2999 isn't set.
#[inline(always)]
fn set_start<D: DiskFile + Drop, C: ChannelReceiver>(
    effects: &mut LineEffects,
    kind: LineKind,
    logging: &mut LoggingListener<D, Listener<C>>,
)
    ensures set { (start : LoggingOver D C) (first : TheStart) (lines : List (Option Line))
        (line : Line) (given : List ℕ) → kind_of line ≡ kind
        → (starts_by C.kind start.listener).moment ≡ first.newest
        → KeepsMoments first (moments_behind first lines) effects.old
        → KeepsLines C.kind D.DiskFile start logging.old (acting_lines first lines) given
        → KeepsMoments first
        (moments_behind first lines ++ set_by first (moments_behind first lines) line) effects.new
        × KeepsLines C.kind D.DiskFile start logging.new (acting_and_set first lines line) given }
    ensures counts { SameCounts effects.old effects.new }
    ensures keeper { logging.new.keeper ≡ logging.old.keeper }
{
    if let Some(start) = effects.start_before(kind) {
        effects.start_set(logging.set_moment(start));
    }
}
