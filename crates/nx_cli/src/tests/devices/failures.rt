//! Devices that fail, take little, or forget.

use super::super::{AIR_FILE_OF_A, expect_end, expect_text};
use super::{Sink, Source};
use nx_fec::Counting;
use nx_program::run;
use std::alloc::Global;
use std::io::Write;
use std::process::Abort;

// Three calls on a counted writer, of which the third fails, reach what it wraps, and two more do
// not: each of these fails, and counts as a failure.
#[test]
fn counts_failures(rt: HostRuntime) {
    let mut sink = Sink::new(Vec::new(rt.alloc()));
    sink.fails_at = Some(3);
    let mut writer = Counting::new(sink);
    assert!(rt; writer.write(b"A").is_ok());
    assert!(rt; writer.flush().is_ok());
    assert!(rt; writer.flush().is_err());
    assert_eq!(rt; writer.failures(), 1);
    assert!(rt; writer.flush().is_err());
    assert!(rt; writer.write(b"B").is_err());
    assert_eq!(rt; writer.failures(), 3);
    let sink = writer.into_inner();
    assert_eq!(rt; sink.calls, 3);
    expect_text(&rt, "written", &sink.taken, b"A");
}

// Expects that a reader that gives a byte at each call, and fails at this one, ends the run.
fn expect_stop_at_read(rt: &impl Abort, alloc: Global, call: &str, failing: u64) {
    let mut source = Source::of(b"B 01\n");
    source.piece = 1;
    source.fails_at = Some(failing);
    let mut output = Sink::new(Vec::new(alloc));
    let end = (1, "navtex: read failed\n");
    expect_end(
        rt,
        alloc,
        call,
        &["navtex", call],
        &mut source,
        &mut output,
        end,
    );
    assert!(rt;
        source.calls == failing,
        "{call}: {} reads of {failing}",
        source.calls
    );
    assert!(rt; output.calls == 0, "{call}, read {failing}");
}

#[test]
fn stops_at_a_failed_read(rt: HostRuntime) {
    for call in ["decode", "encode", "show", "check"] {
        for failing in 1..=5u64 {
            expect_stop_at_read(&rt, rt.alloc(), call, failing);
        }
    }
}

// Expects that a writer that takes a byte at each call, and fails behind so many, ends the run.
fn expect_stop_at_write(rt: &impl Abort, alloc: Global, taken: usize) {
    let mut source = Source::of(b"A");
    let mut output = Sink::new(Vec::new(alloc));
    output.piece = 1;
    output.fails_at = Some((taken as u64).saturating_add(1));
    let arguments = ["navtex", "encode"];
    let line = format!(in alloc; "navtex: write failed after {taken} bytes\n").expect(rt, "memory");
    let end = (1, line.as_str());
    expect_end(
        rt,
        alloc,
        "encode",
        &arguments,
        &mut source,
        &mut output,
        end,
    );
    assert!(rt; source.calls == 2, "{taken} bytes: {} reads", source.calls);
    assert!(rt;
        Some(output.calls) == output.fails_at,
        "{taken} bytes: {} writes",
        output.calls
    );
    let wanted = AIR_FILE_OF_A.get(..taken).expect(rt, "bytes");
    expect_text(rt, "encode", &output.taken, wanted);
}

// At the begin of the line, within it, and before the byte that ends it.
#[test]
fn stops_at_a_failed_write(rt: HostRuntime) {
    let last = AIR_FILE_OF_A.len() - 1;
    for taken in [0, 1, 2, 3, 54, last - 1, last] {
        expect_stop_at_write(&rt, rt.alloc(), taken);
    }
}

// A command of the program, the input, the most bytes that the output takes at once, whether it
// forgets them, and the status.
type OddRow<'a> = (&'a str, &'a [u8], usize, bool, u8);

// Expects that the run ends with the status, where standard error fails at its first call.
fn expect_status(rt: &impl Abort, alloc: Global, row: OddRow) {
    let (command, input, piece, discards, wanted) = row;
    let mut source = Source::of(input);
    source.piece = 1;
    let mut output = Sink::new(Vec::new(alloc));
    output.piece = piece;
    output.discards = discards;
    let mut faults = Sink::new(Vec::new(alloc));
    faults.fails_at = Some(1);
    let arguments = ["navtex", command];
    let status = run(alloc, &arguments, &mut source, &mut output, &mut faults);
    let calls = if wanted == 0 { 0 } else { 1 };
    assert!(rt;
        status == wanted,
        "{command}, {piece}: status {status} in place of {wanted}"
    );
    assert!(rt;
        faults.calls == calls,
        "{command}, {piece}: {} lines",
        faults.calls
    );
    expect_text(rt, command, &faults.taken, b"");
}

#[test]
fn keeps_its_status_on_odd_devices(rt: HostRuntime) {
    static ROWS: [OddRow; 9] = [
        ("encode", b"A", usize::MAX, true, 0),
        ("decode", AIR_FILE_OF_A, 1, false, 0),
        ("decode", AIR_FILE_OF_A, 0, false, 1),
        ("--help", b"", 0, false, 1),
        ("--help", b"", 1, false, 0),
        ("--version", b"", 0, false, 1),
        ("--version", b"", 1, false, 0),
        ("frob", b"", 1, false, 64),
        ("encode", b"a", 1, false, 2),
    ];
    for &row in &ROWS {
        expect_status(&rt, rt.alloc(), row);
    }
}
