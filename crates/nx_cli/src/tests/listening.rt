//! `listen` on a whole file, on a part of one, on faulty ones and on devices that fail.

mod combining;
mod copies;
mod locking;
mod repeats;

use super::air::Piece::{Part, Sent, Text};
use super::air::{
    Heard, LOG_OF_EA01, MOMENT_OF_EA01, Piece, Refused, expect_logs, expect_refusals, made_of,
};
use super::devices::{Sink, Source};
use super::station::{AIR_FILE_OF_EA01, MESSAGE_FILE};
use super::{expect_end, expect_fault, expect_output, expect_text, run_in_pieces, run_on, shown};
use std::alloc::Global;
use std::process::Abort;

const LISTEN: [&str; 2] = ["navtex", "listen"];

#[test]
fn listens_to_what_was_sent(rt: HostRuntime) {
    static CASES: [Heard; 3] = [
        (
            "EA01",
            &[Sent("1735689600", MESSAGE_FILE, &[])],
            LOG_OF_EA01,
        ),
        (
            "the same with one element in each line",
            &[Text(MOMENT_OF_EA01), Part(0, 1_421, 1)],
            LOG_OF_EA01,
        ),
        ("nothing", &[], b""),
    ];
    assert_eq!(rt;
        made_of(&rt, rt.alloc(), &[Part(0, 1_421, 1)]).len(),
        4 * 1_421
    );
    expect_logs(&rt, rt.alloc(), &CASES);
}

#[test]
fn listens_byte_by_byte(rt: HostRuntime) {
    let ended = run_in_pieces(rt.alloc(), &LISTEN, AIR_FILE_OF_EA01, 1);
    ended.expect(&rt, "byte by byte", 0, LOG_OF_EA01, b"");
}

#[test]
fn stops_at_a_fault_of_a_line(rt: HostRuntime) {
    // Elements of which no line has so many.
    const LONG_LINE: Piece = Text(&[b'0'; 513]);
    const NOW: Piece = Text(MOMENT_OF_EA01);
    static CASES: [Refused; 10] = [
        (
            &[Text(b"T 5\nT 4\n")],
            "navtex: line 2: moment 4 is before 5\n",
        ),
        (
            &[Text(b"T 32503680000\n")],
            "navtex: line 1: moment 32503680000 is out of range\n",
        ),
        (
            &[Text(b"B 0\n")],
            "navtex: line 1 has elements before any moment\n",
        ),
        (&[Text(b"T 05\n")], "navtex: line 1 is not understood\n"),
        (&[Text(b"T 5")], "navtex: line 1 has no end\n"),
        (
            &[Text(b"B "), LONG_LINE],
            "navtex: line 1 is longer than 514 bytes\n",
        ),
        (
            &[Text(b"T 0\nB "), LONG_LINE],
            "navtex: line 2 is longer than 514 bytes\n",
        ),
        (
            &[Text(b"T 0\nRJ L\n")],
            "navtex: line 2: subject L can't be refused\n",
        ),
        (
            &[Text(b"T 0\nRJ C\n\n")],
            "navtex: line 3 is not understood\n",
        ),
        // A line that is bad closes no copy.
        (
            &[NOW, Part(0, 1_323, 490), Text(b"?\n")],
            "navtex: line 5 is not understood\n",
        ),
    ];
    expect_refusals(&rt, rt.alloc(), &CASES);
}

#[test]
fn writes_the_log_before_a_fault(rt: HostRuntime) {
    let pieces = [Text(AIR_FILE_OF_EA01), Text(b"T 1735692000\nT 0\n")];
    let ended = run_on(rt.alloc(), &LISTEN, &made_of(&rt, rt.alloc(), &pieces));
    let line = b"navtex: line 6: moment 0 is before 1735692000\n";
    ended.expect(&rt, "back", 2, LOG_OF_EA01, line);
}

#[test]
fn names_the_line_in_which_a_file_is_cut(rt: HostRuntime) {
    // Where a line begins, lengths that end inside it, the first and the last of them among these,
    // and what is said of them. The file that ends where the line begins is taken.
    static ROWS: [(usize, &[usize], &str); 4] = [
        (0, &[1, 2, 3, 12], "navtex: line 1 has no end\n"),
        (13, &[14, 15, 16, 505], "navtex: line 2 has no end\n"),
        (506, &[750], "navtex: line 3 has no end\n"),
        (999, &[1_000, 1_442], "navtex: line 4 has no end\n"),
    ];
    for &(begin, lengths, line) in &ROWS {
        let whole_lines = AIR_FILE_OF_EA01.get(..begin).expect(&rt, "lines");
        expect_output(&rt, rt.alloc(), line, &LISTEN, whole_lines, b"");
        for length in lengths {
            let part = AIR_FILE_OF_EA01.get(..*length).expect(&rt, "a part");
            expect_fault(&rt, rt.alloc(), shown(part), &LISTEN, part, (2, line));
        }
    }
}

// A writer that takes ten bytes and then fails ends the run.
#[test]
fn listens_to_a_writer_that_fails(rt: HostRuntime) {
    let mut source = Source::of(AIR_FILE_OF_EA01);
    let mut output = Sink::new(Vec::new(rt.alloc()));
    output.piece = 10;
    output.fails_at = Some(2);
    let end = (1, "navtex: write failed after 10 bytes\n");
    expect_end(
        &rt,
        rt.alloc(),
        "write",
        &LISTEN,
        &mut source,
        &mut output,
        end,
    );
    assert_eq!(rt; output.calls, 2);
    expect_text(&rt, "written", &output.taken, b"[EA01 2025");
}

// Expects that a reader that gives this at once and then fails ends the run behind this log.
fn expect_stop_at_read(rt: &impl Abort, alloc: Global, row: &str, given: &[u8], log: &[u8]) {
    let mut source = Source::of(given);
    source.fails_at = Some(2);
    let mut output = Sink::new(Vec::new(alloc));
    let end = (1, "navtex: read failed\n");
    expect_end(rt, alloc, row, &LISTEN, &mut source, &mut output, end);
    assert!(rt; source.calls == 2, "{row}: {} reads", source.calls);
    expect_text(rt, row, &output.taken, log);
}

#[test]
fn listens_to_readers_that_fail(rt: HostRuntime) {
    let alloc = rt.alloc();
    // Readers that fail behind the first line, behind a line with the end of a copy and behind one
    // within a copy. The log of the lines that came is written, and an open copy is not closed.
    let open = made_of(&rt, alloc, &[Text(MOMENT_OF_EA01), Part(0, 1_323, 490)]);
    let cases: [(&str, &[u8], &[u8]); 3] = [
        ("the first line", MOMENT_OF_EA01, b""),
        ("the end of a copy", AIR_FILE_OF_EA01, LOG_OF_EA01),
        ("within a copy", &open, b""),
    ];
    for (row, given, log) in cases {
        expect_stop_at_read(&rt, alloc, row, given, log);
    }
}
