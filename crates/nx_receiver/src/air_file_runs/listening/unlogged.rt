//! Listening where the log isn't wanted: lines are heard, and nothing is given for them.

ghost use Rattle.std.specs.Prelude.{◌≡◌, Bool, true, false, List, [], ◌∷◌, ◌++◌, None, IfOk, MatchResult};
ghost use Rattle.nx_fec.specs.air_files.AirFile.{IsLine, Line};
ghost use Rattle.nx_fec.specs.air_files.Scanner.{line_with};
ghost use Rattle.nx_fec.specs.Transfers.{input};
ghost use Rattle.nx_copies.specs.copies.Shares.{Given, Starts};
ghost use Rattle.nx_receiver.specs.Listener.{then_elements};
ghost use Rattle.nx_receiver.specs.private.Listener.{Listening};
ghost use Rattle.nx_receiver.specs.private.Listener.{HasClosed, RefusesLine};
ghost use Rattle.nx_receiver.specs.private.Unlogged.{HasHeard, HasHeardGiven, HearsLines, ListensUnlogged, StandsUnlogged};
ghost use Rattle.nx_receiver.specs.declared.air_file_runs.listen_fault.ListenFault.TheVariants.{Memory};

use crate::air_file_runs::listen_fault::{LineRefusal, ListenFault};
use crate::air_file_runs::listening::{Report, take_setting};
use crate::listener::Listener;
use nx_fec::{AIR_LIMIT, Channel, Counting, LineKind, LineReader, NextLine, PackedElements};
use nx_memory::SavedSet;
use std::alloc::{AllocError, Global};
use std::io::Read;

/// Listens as `listen_from` does, and writes nothing: answers the report of the log that it would
/// have written, and what the run leaves. There is no writer, so no write fails. All memory is
/// taken before the first read. No read has failed before.
pub(crate) fn listen_unlogged<R: Read>(
    alloc: Global,
    saved: &SavedSet,
    reader: &mut Counting<R>,
) -> Result<(Report, SavedSet), ListenFault>
    requires { reader.old.failures ≡ 0 }
    ensures listens { ListensUnlogged saved.now R.remaining reader.old reader.new result }
    ensures memory { (error : AllocError) → result ≡ Err (Memory error)
        → reader.new ≡ reader.old }
{
    let mut listener = Listener::starting(alloc, saved)?;
    let lines = hear_lines(reader, &mut listener)?;
    // Before the end: the copy that the end closes is cut, and makes no entry.
    let left = listener.saved();
    Ok((close_unlogged(listener, lines), left))
}

/// Reads an air file to its end, and gives each of its lines to the listener. Answers how many
/// there were. It has no writer, and takes no memory. No read has failed before.
///
/// The first fault in the order of the bytes ends the run; the whole lines before it were taken.
fn hear_lines<R: Read>(
    reader: &mut Counting<R>,
    listener: &mut Listener,
) -> Result<u64, ListenFault>
    requires { reader.old.failures ≡ 0 }
    ensures { (first : Listening) → StandsUnlogged first listener.old []
        → HearsLines first listener.new (input R.remaining reader.old reader.new) result }
{
    let mut lines = LineReader::new(reader, AIR_LIMIT);
    loop {
        let count = lines.lines();
        match lines.next() {
            Ok(NextLine::Line(kind)) => {
                if let Err(why) = take_unlogged(listener, kind, lines.elements()) {
                    return Err(ListenFault::of_refusal(lines.lines(), why));
                }
            }
            Ok(NextLine::PieceOver) => {}
            Ok(NextLine::End) => return Ok(count),
            Err(fault) => return Err(ListenFault::from(fault)),
        }
    }
}

/// Takes a line of an air file that says this and has these elements. A line that is refused
/// changes nothing.
fn take_unlogged(
    listener: &mut Listener,
    kind: LineKind,
    packed: &PackedElements,
) -> Result<(), LineRefusal>
    requires { IsLine (line_with kind packed.now) }
    ensures { (starts : Starts) (lines : List Line) → HasHeard starts listener.old lines
        → MatchResult result
        (λ _. HasHeard starts listener.new (lines ++ line_with kind packed.now ∷ []))
        (λ why. RefusesLine starts lines (line_with kind packed.now) why
        × (listener.new ≡ listener.old)) }
{
    match kind {
        LineKind::Elements(mark) => hear_unlogged(listener, Channel::of(mark), packed),
        _ => take_setting(listener, kind),
    }
}

/// Hears the elements of a line on a channel. Refused where there was no moment yet.
fn hear_unlogged(
    listener: &mut Listener,
    channel: Channel,
    packed: &PackedElements,
) -> Result<(), LineRefusal>
    ensures heard { IfOk result (λ _. (starts : Starts) (given : List Given)
        → HasHeardGiven starts listener.old (then_elements given channel [])
        → HasHeardGiven starts listener.new (then_elements given channel packed.now)) }
    ensures moment { MatchResult result
        (λ _. (listener.old.has_moment ≡ true)
        × (listener.new.has_moment ≡ listener.old.has_moment))
        (λ why. (listener.old.has_moment ≡ false) × (why ≡ LineRefusal.NoMoment)
        × (listener.new ≡ listener.old)) }
{
    if !listener.has_moment() {
        return Err(LineRefusal::NoMoment);
    }
    let mut at = 0;
    while at < packed.len() {
        let (count, _) = listener.next_printed(channel, packed, at);
        at += count;
    }
    Ok(())
}

/// Ends the file, and counts the entries of the copies that its end closes.
fn close_unlogged(listener: Listener, lines: u64) -> Report
    ensures closed { (starts : Starts) (given : List Given) → HasHeardGiven starts listener given
        → HasClosed starts None None given result }
    ensures lines { result.lines ≡ lines }
{
    let (bits, entries) = (listener.elements(), listener.entries());
    let last = listener.close();
    let printed = entries
        .saturating_add(u64::from(last.on_0.is_some()))
        .saturating_add(u64::from(last.on_1.is_some()))
        .saturating_add(u64::from(last.on_2.is_some()));
    Report {
        lines,
        bits,
        printed,
    }
}
