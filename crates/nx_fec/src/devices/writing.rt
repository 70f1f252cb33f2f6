//! Writing bytes, and the elements of an air file, to a writer.
ghost use Rattle.std.specs.Prelude.{◌≡◌, ◌+◌, ◌≤◌, ℕ, List, [], ◌∷◌, ◌++◌, codes, length, Option, IfErr, OnOk, MatchResult, None};
ghost use Rattle.std.specs.Io.KnownBytes.{Appends};
ghost use Rattle.nx_code.specs.Reading.{newline};
ghost use Rattle.nx_fec.specs.air_files.AirFile.{elements};
ghost use Rattle.nx_fec.specs.air_files.Lines.{file_of, line_bytes};
ghost use Rattle.nx_fec.specs.air_files.BitLines.{bit_lines};
ghost use Rattle.nx_fec.specs.Transfers.{FailsOnce, HasWritten, WroteSome};

use crate::air_files::bounded_bytes::BoundedBytes;
use crate::devices::counting::Counting;
use crate::fault::WriteFault;
use std::io::Write;

/// How many elements a written line has, but for the last.
pub(crate) const LINE_ELEMENTS: usize = 490;

/// The bytes of such a line: `B`, a space, the elements, and the line feed.
pub(crate) const LINE_BYTES: usize = LINE_ELEMENTS + 3;

/// How many bytes are gathered for one write, which is 64 lines.
pub(crate) const LINE_BATCH_BYTES: usize = 64 * LINE_BYTES;

/// Writes all these bytes, by as many calls as the writer needs. It stops at the first write that
/// fails, and its fault says how many of the bytes were written.
pub fn write_out<W: Write>(writer: &mut Counting<W>, bytes: &[u8]) -> Result<(), WriteFault>
    requires { writer.old.failures ≡ 0 }
    ensures ok { OnOk result
        (Appends (W.contents writer.old.inner) (W.contents writer.new.inner) bytes.now) }
    ensures err { IfErr result (λ fault.
        WroteSome (W.contents writer.old.inner)
        (W.contents writer.new.inner) bytes.now fault.written) }
    ensures counts { FailsOnce writer.new result }
{
    let mut at = 0;
    while at < bytes.len() {
        let Ok(count) = writer.write(&bytes[at..]) else {
            return Err(WriteFault { written: at as u64 });
        };
        at += count;
    }
    Ok(())
}

/// Writes elements as lines of 490, the last of what is left. No elements are no line.
///
/// Where a write fails, the first `written` bytes of those lines were written.
pub fn write_bits<W: Write>(writer: &mut Counting<W>, bits: &[bool]) -> Result<(), WriteFault>
    requires { writer.old.failures ≡ 0 }
    ensures ok { OnOk result
        (Appends (W.contents writer.old.inner) (W.contents writer.new.inner)
        (file_of (bit_lines bits.now))) }
    ensures err { IfErr result (λ fault.
        WroteSome (W.contents writer.old.inner) (W.contents writer.new.inner)
        (file_of (bit_lines bits.now)) fault.written) }
    ensures counts { FailsOnce writer.new result }
{
    let mut batch = BoundedBytes::new();
    let mut sent = 0;
    for index in 0..bits.len().div_ceil(LINE_ELEMENTS) {
        if batch.len() > LINE_BATCH_BYTES - LINE_BYTES {
            sent = write_on(writer, sent, batch.as_slice())?;
            batch.clear();
        }
        let rest = &bits[LINE_ELEMENTS * index..];
        push_line(&rest[..LINE_ELEMENTS.min(rest.len())], &mut batch);
    }
    write_on(writer, sent, batch.as_slice())?;
    Ok(())
}

/// Writes these bytes after others, of which `sent` counts how many the writer took so far. Answers
/// the count of all, and a fault counts them too, so that the writes of a run add up.
pub fn write_on<W: Write>(
    writer: &mut Counting<W>,
    sent: u64,
    bytes: &[u8],
) -> Result<u64, WriteFault>
    requires { writer.old.failures ≡ 0 }
    ensures bytes { (first : Option (List ℕ)) (before : List ℕ)
        → HasWritten first (W.contents writer.old.inner) before sent → MatchResult result
        (λ count. HasWritten first (W.contents writer.new.inner) (before ++ bytes.now) count)
        (λ fault. WroteSome first (W.contents writer.new.inner)
        (before ++ bytes.now) fault.written) }
    ensures counts { FailsOnce writer.new result }
{
    match write_out(writer, bytes) {
        Ok(()) => Ok(sent.saturating_add(bytes.len() as u64)),
        Err(fault) => Err(WriteFault {
            written: sent.saturating_add(fault.written),
        }),
    }
}

/// Appends the line of these elements.
fn push_line(line: &[bool], batch: &mut BoundedBytes<LINE_BATCH_BYTES>)
    requires short { length line.now ≤ LINE_ELEMENTS }
    requires room { length batch.old + LINE_BYTES ≤ LINE_BATCH_BYTES }
    ensures { batch.new ≡ batch.old ++ line_bytes (elements None line.now) }
{
    let mut digits = [b'0'; LINE_ELEMENTS];
    for place in 0..line.len() {
        digits[place] = if line[place] { b'1' } else { b'0' };
    }
    push_digits(&digits[..line.len()], batch);
}

/// Appends the line of elements that has these digits.
pub(crate) fn push_digits(digits: &[u8], batch: &mut BoundedBytes<LINE_BATCH_BYTES>)
    requires short { length digits.now ≤ LINE_ELEMENTS }
    requires room { length batch.old + LINE_BYTES ≤ LINE_BATCH_BYTES }
    ensures { batch.new ≡ batch.old
        ++ (codes "B " ++ (digits.now ++ newline ∷ [])) }
{
    batch.append(b"B ");
    batch.append(digits);
    batch.append(b"\n");
}
