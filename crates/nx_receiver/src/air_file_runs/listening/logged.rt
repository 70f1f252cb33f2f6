//! Listening where the log is wanted: the lines of a file are taken as they are read, and what they
//! print is written before each further read.

ghost use Rattle.std.specs.Prelude.{◌≡◌, ℕ, List, [], ◌∷◌, ◌++◌, Option, Some, Err, IfErr, MatchResult, OnOk};
ghost use Rattle.nx_fec.specs.air_files.AirFile.{Line};
ghost use Rattle.nx_fec.specs.air_files.LineReading.{SaysLatest, latest_of, lines_given};
ghost use Rattle.nx_fec.specs.air_files.LineRuns.{HasGiven};
ghost use Rattle.nx_fec.specs.private.LineRuns.{HasTaken};
ghost use Rattle.nx_fec.specs.declared.air_files.line_reader.NextLine.TheVariants as next;
ghost use Rattle.nx_fec.specs.Transfers.{Writes, devices};
ghost use Rattle.nx_receiver.specs.Listener.{ListeningOver, starts_by};
ghost use Rattle.nx_receiver.specs.private.Listener.{StandsFromBy};
ghost use Rattle.nx_receiver.specs.private.LineStops.{EndsAtLineBy, FailsBy, TellsStop};
ghost use Rattle.nx_receiver.specs.private.Runs.{TakesLinesBy};

use crate::air_file_runs::listen_fault::{LineRefusal, ListenFault};
use crate::air_file_runs::listening::{take_elements, take_setting};
use crate::channel_receiver::ChannelReceiver;
use crate::listener::Listener;
use nx_fec::{AIR_LIMIT, Batch, Counting, LineKind, LineReader, LinesRead, NextLine, WriteFault};
use std::io::{Read, Write};

/// Reads an air file to its end, gives each of its lines to the listener, and writes what they
/// print, all of it before each further read. It takes no memory. No call on reader or writer has
/// failed before.
///
/// The first fault in the order of the bytes ends the run. After a fault of a line, `AirTooLong`
/// and `Read` what the whole lines before it print was written, and nothing more. After `Write` no
/// device is called any more.
pub(super) fn listen_lines<C: ChannelReceiver, R: Read, W: Write>(
    reader: &mut Counting<R>,
    writer: &mut Counting<W>,
    listener: &mut Listener<C>,
) -> Result<LinesRead, ListenFault>
    requires reader { reader.old.failures ≡ 0 }
    requires writer { writer.old.failures ≡ 0 }
    ensures { (first : ListeningOver C) → StandsFromBy C.kind first listener.old [] []
        → TakesLinesBy C.kind first listener.new
        (devices R.remaining W.contents reader.old reader.new writer.old writer.new) result }
{
    let mut lines = LineReader::new(reader, AIR_LIMIT);
    let mut batch = Batch::new();
    loop {
        let count = lines.lines();
        match lines.next() {
            Ok(NextLine::Line(kind)) => {
                if let Err(stop) = take_line(listener, kind, &lines, writer, &mut batch) {
                    return Err(end_at_line(stop, lines.lines(), writer, &mut batch));
                }
            }
            Ok(NextLine::PieceOver) => batch.send(writer)?,
            Ok(NextLine::End) => {
                let written = batch.bytes_sent();
                return Ok(LinesRead {
                    lines: count,
                    written,
                });
            }
            Err(fault) => {
                batch.send(writer)?;
                return Err(ListenFault::from(fault));
            }
        }
    }
}

/// Why a run that listens ends at a line. It is small, so that it stays in registers: what ends a
/// run is told behind its loop.
#[derive(Clone, Copy, Debug)]
enum LineStop {
    /// The line is refused.
    Refused(LineRefusal),
    /// A write failed of what the lines print, the line among them.
    Lost(WriteFault),
}

/// Takes the line that was given last, which says this, and gives the batch what it prints. No
/// write has failed before. A line that is refused changes nothing.
#[inline(always)]
fn take_line<C: ChannelReceiver, R, W: Write>(
    listener: &mut Listener<C>,
    kind: LineKind,
    lines: &LineReader<R>,
    writer: &mut Counting<W>,
    batch: &mut Batch,
) -> Result<(), LineStop>
    requires line { SaysLatest (latest_of lines.now) (next.Line kind) }
    requires writer { writer.old.failures ≡ 0 }
    ensures taken { (first : ListeningOver C) (old : Option (List ℕ)) (before : List Line)
        (line : Line) → latest_of lines.now ≡ Some line
        → HasTaken (StandsFromBy C.kind) first listener.old before
        (HasGiven old (W.contents writer.old.inner) batch.old) → MatchResult result
        (λ _. HasTaken (StandsFromBy C.kind) first listener.new (before ++ line ∷ [])
        (HasGiven old (W.contents writer.new.inner) batch.new))
        (EndsAtLineBy C.kind first listener.new
        record { before = old; after = W.contents writer.new.inner } batch.new before line) }
    ensures counts { OnOk result (writer.new.failures ≡ 0) }
    ensures stops { IfErr result (FailsBy writer.new) }
{
    let LineKind::Elements(mark) = kind else {
        return match take_setting(listener, kind) {
            Ok(()) => Ok(()),
            Err(why) => Err(LineStop::Refused(why)),
        };
    };
    if !listener.has_moment() {
        return Err(LineStop::Refused(LineRefusal::NoMoment));
    }
    match take_elements(listener, mark, lines.elements(), writer, batch) {
        Ok(()) => Ok(()),
        Err(lost) => Err(LineStop::Lost(lost)),
    }
}

/// Tells why a run ends at the line of this number. A write has failed before, once, exactly where
/// this says so. Before a refusal is told, what the lines before it print is written; where that
/// fails, this is told instead.
#[cold]
#[inline(never)]
fn end_at_line<W: Write>(
    stop: LineStop,
    number: u64,
    writer: &mut Counting<W>,
    batch: &mut Batch,
) -> ListenFault
    requires { FailsBy writer.old stop }
    ensures tells { TellsStop number stop (W.contents writer.old.inner)
        (W.contents writer.new.inner) batch.old result }
    ensures writes { Writes {N = Unit {0}} writer.new ListenFault.Write (Err result) }
{
    match stop {
        LineStop::Refused(why) => match batch.send(writer) {
            Ok(()) => ListenFault::of_refusal(number, why),
            Err(lost) => ListenFault::from(lost),
        },
        LineStop::Lost(lost) => ListenFault::from(lost),
    }
}
