//! Reading and writing the text of a state.

ghost use Rattle.std.specs.Prelude.{◌≡◌, ◌≤◌, [], ◌∷◌, ◌++◌, length, IfErr, IfSome, OnOk, MatchResult};
ghost use Rattle.std.specs.Io.KnownBytes.{Appends};
ghost use Rattle.nx_code.specs.Reading.{newline};
ghost use Rattle.nx_fec.specs.Transfers.{FailsOnce, WroteSome};
ghost use Rattle.nx_memory.specs.Saved.{AreSavedStates, SavedStates};
ghost use Rattle.nx_receiver.specs.air_file_runs.State.{BeginsWithState, ReadsState, state_bytes};
ghost use Rattle.nx_receiver.specs.private.StateParts.{IsNextByte, IsNextLine};
ghost use Rattle.nx_receiver.specs.declared.air_file_runs.state_fault.StateFault.TheVariants.{Read as ReadFailed};

use crate::air_file_runs::state_fault::StateFault;
use arrayvec::ArrayVec;
use nx_fec::{Batch, Counting, Piece, WriteFault, next_piece};
use nx_memory::{MAX_STATE_LINE, SavedSet, StateReader, StateStep, state_line};
use std::io::{Read, Write};

/// More lines than any text of a state has.
const MAX_LINES: u64 = 1_000;

/// The most bytes of a line with its line feed.
const ENDED_LINE: usize = MAX_STATE_LINE + 1;

/// Reads the text of a state, of version 1 or 2, byte by byte, up to and with the line feed of its
/// last line: what stands behind it is left in the reader. Takes no memory. No read has failed
/// before.
///
/// The fault is the first of the input: `StateLine` at the line feed of a line that can't stand
/// there, or at the 17th byte of a line. It is `StateCut` where the input ends before the line feed
/// of the line, and `Read` where a read failed before any of them.
pub fn read_state<R: Read>(reader: &mut Counting<R>) -> Result<SavedSet, StateFault>
    requires { reader.old.failures ≡ 0 }

    // The answer is that of the bytes that were read, and that of the whole input, however it came.
    ensures reads { ReadsState R.remaining reader.old reader.new result }

    // So what an input that begins with a text of a state stands for is the answer, unless a read
    // failed.
    ensures good { IfSome (R.remaining reader.old.inner) (λ input. (states : SavedStates)
        → BeginsWithState input states
        → MatchResult result (λ answer. answer ≡ states) (λ fault. fault ≡ ReadFailed)) }
{
    let mut text = StateReader::new();
    for line in 1..MAX_LINES {
        match read_line(reader) {
            LineRead::Whole(bytes) => match text.line(&bytes) {
                StateStep::More => {}
                StateStep::Done(states) => return Ok(states),
                StateStep::Bad => return Err(StateFault::StateLine { line }),
            },
            LineRead::Long => return Err(StateFault::StateLine { line }),
            LineRead::Cut => return Err(StateFault::StateCut { line }),
            LineRead::Failed => return Err(StateFault::Read),
        }
    }
    unreachable!()
}

/// What reading a line of the text of a state gave.
enum LineRead {
    /// A line, without the line feed that ends it.
    Whole(ArrayVec<u8, MAX_STATE_LINE>),
    /// The line has a 17th byte before its end.
    Long,
    /// The input ended before the line.
    Cut,
    /// A read failed before the end of the line.
    Failed,
}

/// Reads the next line, up to and with its line feed, or its 17th byte. No read has failed before.
fn read_line<R: Read>(reader: &mut Counting<R>) -> LineRead
    requires { reader.old.failures ≡ 0 }
    ensures { IsNextLine R.remaining reader.old reader.new result }
{
    let mut line = ArrayVec::new();
    loop {
        match next_byte(reader) {
            NextByte::Byte(b'\n') => return LineRead::Whole(line),
            NextByte::Byte(byte) => {
                if line.is_full() {
                    return LineRead::Long;
                }
                line.push(byte);
            }
            NextByte::End => return LineRead::Cut,
            NextByte::Failed => return LineRead::Failed,
        }
    }
}

/// What reading one byte gave.
#[derive(Clone, Copy)]
enum NextByte {
    /// The byte.
    Byte(u8),
    /// The input has ended.
    End,
    /// The read failed.
    Failed,
}

/// Reads the next byte. No read has failed before.
fn next_byte<R: Read>(reader: &mut Counting<R>) -> NextByte
    requires { reader.old.failures ≡ 0 }
    ensures { IsNextByte R.remaining reader.old reader.new result }
{
    let mut space = [0];
    match next_piece(reader, &mut space) {
        Piece::Bytes(_) => NextByte::Byte(space[0]),
        Piece::End => NextByte::End,
        Piece::Failed => NextByte::Failed,
    }
}

/// Writes the text of a state, which is of version 2. Takes no memory. No write has failed before.
///
/// Where a write fails, the first `written` bytes of the text were written.
pub fn write_state<W: Write>(states: &SavedSet, writer: &mut Counting<W>) -> Result<(), WriteFault>
    requires { writer.old.failures ≡ 0 }
    ensures ok { OnOk result
        (Appends (W.contents writer.old.inner) (W.contents writer.new.inner)
        (state_bytes states.now)) }
    ensures err { IfErr result (λ fault.
        WroteSome (W.contents writer.old.inner) (W.contents writer.new.inner)
        (state_bytes states.now) fault.written) }
    ensures counts { FailsOnce writer.new result }
    ensures sound { AreSavedStates states.now }
{
    let mut batch = Batch::new();
    let mut place = 0;
    while let Some(line) = state_line(states, place) {
        batch.give(writer, &ended(&line))?;
        place += 1;
    }
    batch.send(writer)
}

/// A line of at most 16 bytes, with the line feed that ends it.
fn ended(line: &[u8]) -> ArrayVec<u8, ENDED_LINE>
    requires { length line.now ≤ 16 }
    ensures { result.items ≡ line.now ++ newline ∷ [] }
{
    let mut bytes = ArrayVec::new();
    bytes.try_extend_from_slice(line).unwrap();
    bytes.push(b'\n');
    bytes
}
