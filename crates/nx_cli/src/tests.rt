//! The program on arguments and bytes: its output, its fault lines, its exit statuses, and which
//! calls it makes on devices that fail.

mod air;
mod arguments;
mod channels;
mod devices;
mod files;
mod listening;
mod logging;
mod resuming;
mod shown_locks;
mod station;
mod watching;

use devices::{Sink, Source};
use nx_program::run;
use std::alloc::Global;
use std::process::Abort;
use std::str::from_utf8;

// The text `A` as an air file: four phasing positions, the letter and three end positions, by the
// code table of M.476.
const AIR_FILE_OF_A: &[u8] =
    b"B 011001111110000110011111100001100111111000011001111110001110001111100011110001111000111100011100011111000\n";

// What a run left behind.
#[derive(Drop)]
struct Ended {
    status: u8,
    output: Vec<u8>,
    faults: Vec<u8>,
}

impl Ended {
    // Expects that the run of this row ended so.
    fn expect(&self, rt: &impl Abort, row: &str, status: u8, output: &[u8], faults: &[u8]) {
        expect_text(rt, row, &self.faults, faults);
        expect_text(rt, row, &self.output, output);
        assert!(rt;
            self.status == status,
            "{row}: status {} in place of {status}",
            self.status
        );
    }
}

// The bytes as a text, where they are one.
fn shown(bytes: &[u8]) -> &str {
    from_utf8(bytes).unwrap_or("bytes that are no text")
}

// Expects these bytes in this row; where others are found, both are shown.
fn expect_text(rt: &impl Abort, row: &str, found: &[u8], wanted: &[u8]) {
    assert!(rt;
        found == wanted,
        "{row}: {:?} in place of {:?}",
        shown(found),
        shown(wanted)
    );
}

fn run_on(alloc: Global, arguments: &[&str], input: &[u8]) -> Ended {
    run_in_pieces(alloc, arguments, input, usize::MAX)
}

// What a run left behind that reads and writes at most so many bytes at once.
fn run_in_pieces(alloc: Global, arguments: &[&str], input: &[u8], piece: usize) -> Ended {
    let mut source = Source::of(input);
    source.piece = piece;
    let mut output = Sink::new(Vec::new(alloc));
    output.piece = piece;
    let mut faults = Sink::new(Vec::new(alloc));
    let status = run(alloc, arguments, &mut source, &mut output, &mut faults);
    Ended {
        status,
        output: output.taken,
        faults: faults.taken,
    }
}

// How a run ends: the status, and the line on standard error.
type End<'a> = (u8, &'a str);

// Expects that a run over these devices ends so.
fn expect_end(
    rt: &impl Abort,
    alloc: Global,
    row: &str,
    arguments: &[&str],
    source: &mut Source,
    output: &mut Sink,
    end: End,
) {
    let mut faults = Sink::new(Vec::new(alloc));
    let status = run(alloc, arguments, source, output, &mut faults);
    expect_text(rt, row, &faults.taken, end.1.as_bytes());
    assert!(rt;
        status == end.0,
        "{row}: status {status} in place of {}",
        end.0
    );
}

// What a run writes.
fn output_of(alloc: Global, arguments: &[&str], input: &[u8]) -> Vec<u8> {
    run_on(alloc, arguments, input).output
}

// Expects that a run on these arguments and this input succeeds, writes this and reports no fault.
fn expect_output(
    rt: &impl Abort,
    alloc: Global,
    row: &str,
    arguments: &[&str],
    input: &[u8],
    output: &[u8],
) {
    run_on(alloc, arguments, input).expect(rt, row, 0, output, b"");
}

// Expects that a run ends so, and writes nothing.
fn expect_fault(
    rt: &impl Abort,
    alloc: Global,
    row: &str,
    arguments: &[&str],
    input: &[u8],
    end: End,
) {
    run_on(alloc, arguments, input).expect(rt, row, end.0, b"", end.1.as_bytes());
}

// The file with other elements at this place.
fn with_word(
    rt: &impl Abort,
    alloc: Global,
    air_file: &[u8],
    place: usize,
    elements: &[u8; 7],
) -> Vec<u8> {
    let mut other = air_file.to_vec(alloc).expect(rt, "memory");
    let end = place.checked_add(7).expect(rt, "a place");
    let word = other.as_mut_slice().get_mut(place..end);
    word.expect(rt, "a place in the file")
        .copy_from_slice(elements);
    other
}
