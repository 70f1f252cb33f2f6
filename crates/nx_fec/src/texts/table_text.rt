//! The table of the code as text.

ghost use Rattle.std.specs.Prelude.{◌≡◌, ◌+◌, ◌≤◌, ◌++◌, length, map, IfErr, OnOk};
ghost use Rattle.std.specs.Io.KnownBytes.{Appends};
ghost use Rattle.arrayvec.specs.ArrayVec.{array_vec_len};
ghost use Rattle.nx_code.specs.Signal.{row_of_signal};
ghost use Rattle.nx_fec.specs.Transfers.{FailsOnce, WroteSome};
ghost use Rattle.nx_fec.specs.texts.TableText.{cell_text, element_letter, table_line, table_text};

use crate::devices::counting::Counting;
use crate::devices::writing::write_out;
use crate::fault::WriteFault;
use crate::texts::appending::append;
use crate::texts::hexadecimal::two_hex_digits;
use arrayvec::ArrayVec;
use nx_code::{ELEMENTS, SIGNALS, Shift, Signal, cell_of, signal_at, word_of};
use std::io::Write;

/// The bytes of the longest line, whose names have five letters.
const LINE_BYTES: usize = 23;

/// Room for all lines.
const TEXT_BYTES: usize = SIGNALS * LINE_BYTES;

/// Writes the table of the code, a line for each signal. A line has the number of the signal's word
/// in two digits of base 16, the word's elements as B and Y, and what stands for the signal in
/// letters and in figures. There `none` stands for nothing. The combinations 1 to 32 come first,
/// then idle signal alpha, idle signal beta and signal repetition (M.476 and M.625, conversion
/// tables; the form of the lines is this profile's). It takes no memory.
///
/// Where a write fails, the first `written` bytes of those lines were written.
pub fn write_table<W: Write>(writer: &mut Counting<W>) -> Result<(), WriteFault>
    requires { writer.old.failures ≡ 0 }
    ensures ok { OnOk result
        (Appends (W.contents writer.old.inner) (W.contents writer.new.inner) table_text) }
    ensures err { IfErr result (λ fault.
        WroteSome (W.contents writer.old.inner)
        (W.contents writer.new.inner) table_text fault.written) }
    ensures counts { FailsOnce writer.new result }
{
    write_out(writer, &lines())
}

/// The lines of all signals, in the order of the table.
fn lines() -> ArrayVec<u8, TEXT_BYTES>
    ensures { result.items ≡ table_text }
{
    let mut text = ArrayVec::new();
    for at in 0..SIGNALS {
        push_line(signal_at(at), &mut text);
    }
    text
}

/// Appends the line of a signal.
fn push_line(signal: Signal, text: &mut ArrayVec<u8, TEXT_BYTES>)
    requires { array_vec_len text.old + LINE_BYTES ≤ TEXT_BYTES }
    ensures line { text.new.items ≡ text.old.items ++ table_line (row_of_signal signal) }
    ensures grows { array_vec_len text.new ≤ array_vec_len text.old + LINE_BYTES }
{
    let word = word_of(signal);
    append(text, &two_hex_digits(word.number()));
    text.push(b' ');
    push_elements(&word.elements(), text);
    text.push(b' ');
    push_cell(cell_of(signal, Shift::Letters), text);
    text.push(b' ');
    push_cell(cell_of(signal, Shift::Figures), text);
    text.push(b'\n');
}

/// Appends elements as letters.
fn push_elements(elements: &[bool; ELEMENTS], text: &mut ArrayVec<u8, TEXT_BYTES>)
    requires { array_vec_len text.old + 7 ≤ TEXT_BYTES }
    ensures items { text.new.items ≡ text.old.items ++ map element_letter elements.now }
    ensures len { array_vec_len text.new ≡ array_vec_len text.old + 7 }
{
    for element in elements {
        text.push(if *element { b'B' } else { b'Y' });
    }
}

/// Appends what stands in a cell, and `none` for an empty one.
fn push_cell(cell: &[u8], text: &mut ArrayVec<u8, TEXT_BYTES>)
    requires short { length cell.now ≤ 5 }
    requires room { array_vec_len text.old + 5 ≤ TEXT_BYTES }
    ensures items { text.new.items ≡ text.old.items ++ cell_text cell.now }
    ensures grows { array_vec_len text.new ≤ array_vec_len text.old + 5 }
{
    if cell.is_empty() {
        append(text, b"none");
    } else {
        append(text, cell);
    }
}
