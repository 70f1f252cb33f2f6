//! Reading the elements of an air file, or a text whole, from a reader.
ghost use Rattle.std.specs.Prelude.{◌≡◌, ◌≤◌, ℕ, List, ◌++◌, length, IfErr, IfSome, IfOk, OnOk, IsErrOf, IsErrAnd, MatchResult, ◌⊎◌, Bool, Some, vec_len};
ghost use Rattle.nx_fec.specs.air_files.AirFile.{Line};
ghost use Rattle.nx_fec.specs.air_files.LineReading.{latest_of};
ghost use Rattle.nx_fec.specs.air_files.Lines.{IsBitFile, HasFault, elements_on};
ghost use Rattle.nx_fec.specs.air_files.Scanner.{elements_kept, kind_of};
ghost use Rattle.nx_fec.specs.declared.air_files.channel.Channel.TheVariants.{Zero};
ghost use Rattle.nx_fec.specs.declared.fault.LineFault.{LineFault};
ghost use Rattle.nx_fec.specs.Runs.{ExplainsWhole, IsOutside, IsOutsideWhole, IsWithin, ReadsElements, ReadsWhole, file_limit, run_fault};

use crate::air_files::channel::Channel;
use crate::air_files::line_reader::{LineReader, NextLine};
use crate::air_files::lines::LineKind;
use crate::devices::counting::Counting;
use crate::devices::pieces::{CHUNK, Piece, next_piece};
use crate::fault::{ReadFault, RunFault};
use arrayvec::ArrayVec;
use std::alloc::{AllocError, Global};
use std::io::Read;

/// The most bytes of a text, and of an air file that is read to its end before it is used.
const FILE_LIMIT: u64 = 1_048_576;

/// Reads an air file to its end, and joins the elements of all its lines on channel 0. The other
/// lines are checked and skipped.
///
/// The fault is the first in the order of the bytes: `LineLong`, `LineCut` or `BadLine`, or
/// `FileTooLong` where there is a byte past 1,048,576. It is `Read` where a read failed before any
/// of them, and `Memory` where memory ran out and no fault stands in the bytes that were read.
pub fn read_bits<R: Read>(alloc: Global, reader: &mut Counting<R>) -> Result<Vec<bool>, RunFault>
    requires { reader.old.failures ≡ 0 }

    // The answer is that of the bytes that were read, and that of the whole file, however it came.
    ensures reads { ReadsElements R.remaining reader.old reader.new result }

    // So a fault of the file is the answer, and so are the elements of a file without a fault,
    // unless the reader or memory failed.
    ensures fault { IfSome (R.remaining reader.old.inner)
        (λ xs. (why : LineFault) → HasFault file_limit xs why →
        IsErrAnd result (λ fault. (fault ≡ run_fault why) ⊎ IsOutside fault)) }
    ensures good { IfSome (R.remaining reader.old.inner) (λ xs. (elements : List Bool)
        → IsBitFile file_limit xs elements
        → MatchResult result (λ bits. bits.items ≡ elements) IsOutside) }
{
    read_elements(alloc, reader)
}

/// Reads the lines of an air file to its end, and joins the elements of those on channel 0. Where
/// memory runs out at a line, a fault in the bytes that were read behind it comes first.
fn read_elements<R: Read>(alloc: Global, reader: &mut Counting<R>) -> Result<Vec<bool>, RunFault>
    requires { reader.old.failures ≡ 0 }
    ensures { ReadsElements R.remaining reader.old reader.new result }
{
    let mut lines = LineReader::new(reader, FILE_LIMIT);
    let mut bits = Vec::new(alloc);
    loop {
        match lines.next()? {
            NextLine::Line(kind) => {
                if let Err(error) = append_elements(kind, &lines, &mut bits) {
                    lines.pass_piece()?;
                    return Err(RunFault::Memory(error));
                }
            }
            NextLine::PieceOver => {}
            NextLine::End => return Ok(bits),
        }
    }
}

/// Appends the elements of the line that was given last, which says this, where they are of
/// channel 0.
fn append_elements<R>(
    kind: LineKind,
    lines: &LineReader<'_, R>,
    bits: &mut Vec<bool>,
) -> Result<(), AllocError>
    ensures { (line : Line) → latest_of lines.now ≡ Some line → kind ≡ kind_of line
        → OnOk result (bits.new.items ≡ bits.old.items ++ elements_on Zero line) }
{
    let LineKind::Elements(mark) = kind else {
        return Ok(());
    };
    match Channel::of(mark) {
        Channel::Zero => append_bits(lines, bits),
        Channel::One | Channel::Two => Ok(()),
    }
}

/// Appends the elements of the line that was given last.
fn append_bits<R>(lines: &LineReader<'_, R>, bits: &mut Vec<bool>) -> Result<(), AllocError>
    ensures { OnOk result (bits.new.items ≡ bits.old.items
        ++ elements_kept (latest_of lines.now)) }
{
    let mut elements = ArrayVec::new();
    lines.unpacked(&mut elements);
    bits.extend_from_slice(&elements)
}

/// Reads a file whole.
///
/// `FileTooLong` where there is a byte past 1,048,576; `Read` where a read failed before it; and
/// `Memory` where it ran out, and the bytes that were read keep to the limit.
pub fn read_whole<R: Read>(alloc: Global, reader: &mut Counting<R>) -> Result<Vec<u8>, ReadFault>
    requires { reader.old.failures ≡ 0 }

    // The answer is that of the bytes that were read, and that of the whole file, however it came.
    ensures { ReadsWhole R.remaining reader.old reader.new result }
{
    let mut space = blank(alloc, CHUNK)?;
    let buffer = space.as_mut_slice();
    let mut bytes = Vec::new(alloc);
    loop {
        match next_piece(reader, buffer) {
            Piece::Bytes(count) => append_within(&buffer[..count], &mut bytes)?,
            Piece::End => return Ok(bytes),
            Piece::Failed => return Err(ReadFault::Read),
        }
    }
}

/// Appends the next bytes of a file. `FileTooLong` where it then has more than its limit.
fn append_within(piece: &[u8], bytes: &mut Vec<u8>) -> Result<(), ReadFault>
    requires { vec_len bytes.old ≤ file_limit }
    ensures appended { OnOk result ((bytes.new.items ≡ bytes.old.items ++ piece.now)
        × (vec_len bytes.new ≤ file_limit)) }
    ensures explained { IfErr result (λ fault.
        (IsOutsideWhole fault → IsWithin file_limit (bytes.old.items ++ piece.now))
        × ((more : List ℕ)
        → ExplainsWhole file_limit ((bytes.old.items ++ piece.now) ++ more) fault)) }
    ensures no_read { IsErrOf result ReadFault.Read → ⊥ }
{
    if piece.len() > FILE_LIMIT as usize - bytes.len() {
        return Err(ReadFault::FileTooLong);
    }
    bytes.extend_from_slice(piece)?;
    Ok(())
}

/// A buffer of this many bytes.
fn blank(alloc: Global, length: usize) -> Result<Vec<u8>, AllocError>
    ensures { IfOk result (λ buffer. vec_len buffer ≡ length) }
{
    vec![in alloc; 0; length]
}
