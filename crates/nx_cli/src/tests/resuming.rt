//! `resume` and `save` on states and the air files behind them, in one piece and byte by byte.

use super::air::Piece::{InTurn, Named, Part, Text};
use super::air::{LINES, LOG_OF_EA01, MOMENT_OF_EA01, Piece, join, made_of};
use super::channels::{LOG_ON_BOTH, LOG_ON_CHANNEL_1};
use super::devices::{Sink, Source};
use super::station::AIR_FILE_OF_EA01;
use super::{End, expect_end, run_in_pieces, run_on, shown};
use std::alloc::Global;
use std::process::Abort;

const RESUME: [&str; 2] = ["navtex", "resume"];

const SAVE: [&str; 2] = ["navtex", "save"];

/// The state of a receiver that has heard nothing, and what `save` writes of it.
pub const NOTHING: &[u8] = b"STATE 1\nEND\n";

const NOTHING_SAVED: &[u8] = b"STATE 2\nC0\nC1\nC2\nEND\n";

/// The state of a receiver that printed EA01, and what `save` writes of it.
const WITH_EA01: &[u8] = b"STATE 1\nEA01 1735692000\nEND\n";

pub const EA01_SAVED: &[u8] = b"STATE 2\nC0\nEA01 1735692000\nC1\nC2\nEND\n";

/// Four hours after the moment of EA01.
const LATER: Piece<'static> = Text(b"T 1735706400\n");

/// Expects that a run ends so on this input and writes this, where the input comes at once, and
/// where it comes byte by byte and the output takes one at a time.
fn expect_run(
    rt: &impl Abort,
    alloc: Global,
    row: &str,
    arguments: &[&str],
    input: &[u8],
    output: &[u8],
    end: End,
) {
    let (status, line) = (end.0, end.1.as_bytes());
    run_on(alloc, arguments, input).expect(rt, row, status, output, line);
    run_in_pieces(alloc, arguments, input, 1).expect(rt, row, status, output, line);
}

/// Expects that `resume` writes this log of an input, which comes at once, and `save` this state
/// where it comes byte by byte.
fn expect_left(rt: &impl Abort, alloc: Global, row: &str, input: &[u8], log: &[u8], state: &[u8]) {
    run_on(alloc, &RESUME, input).expect(rt, row, 0, log, b"");
    run_in_pieces(alloc, &SAVE, input, 1).expect(rt, row, 0, state, b"");
}

/// What is told of an input, a state and what stands behind it, the log of `resume`, and the state
/// that `save` writes.
type Left<'a> = (&'a str, &'a [Piece<'a>], &'a [u8], &'a [u8]);

/// Expects that each input leaves its log and its state.
fn expect_each_left(rt: &impl Abort, alloc: Global, cases: &[Left]) {
    for (row, pieces, log, state) in cases {
        expect_left(rt, alloc, row, &made_of(rt, alloc, pieces), log, state);
    }
}

/// Expects that `resume` refuses an input by this line where it comes byte by byte, `save` where it
/// comes at once, and that they write nothing.
fn expect_refusal(rt: &impl Abort, alloc: Global, input: &[u8], line: &str) {
    let (row, line) = (shown(input), line.as_bytes());
    run_in_pieces(alloc, &RESUME, input, 1).expect(rt, row, 2, b"", line);
    run_on(alloc, &SAVE, input).expect(rt, row, 2, b"", line);
}

#[test]
fn goes_on_from_a_state(rt: HostRuntime) {
    const AGAIN: &[u8] = b"[EA01 2025-01-03 18:40:00 full 0/5]\nTEST\n\n";
    const BOTH_SAVED: &[u8] = b"STATE 2\nC0\nEA01 1735692000\nEA01 1735929600\nC1\nC2\nEND\n";
    static CASES: [Left; 5] = [
        ("nothing", &[Text(NOTHING)], b"", NOTHING_SAVED),
        (
            "EA01 behind nothing",
            &[Text(NOTHING), Text(AIR_FILE_OF_EA01)],
            LOG_OF_EA01,
            EA01_SAVED,
        ),
        // A repeat is not printed, and renews nothing; 66 hours later it is printed, and entered.
        (
            "a repeat, from STATE 1",
            &[Text(WITH_EA01), LATER, LINES],
            b"",
            EA01_SAVED,
        ),
        (
            "a repeat, from STATE 2",
            &[Text(EA01_SAVED), LATER, LINES],
            b"",
            EA01_SAVED,
        ),
        (
            "66 hours later",
            &[Text(WITH_EA01), Text(b"T 1735929600\n"), LINES],
            AGAIN,
            BOTH_SAVED,
        ),
    ];
    expect_each_left(&rt, rt.alloc(), &CASES);
}

#[test]
fn takes_a_state_in_any_pieces(rt: HostRuntime) {
    let alloc = rt.alloc();
    let input = join(&rt, alloc, &[WITH_EA01, b"T 1735706400\n"]);
    expect_run(&rt, alloc, "resume", &RESUME, &input, b"", (0, ""));
    expect_run(&rt, alloc, "save", &SAVE, &input, EA01_SAVED, (0, ""));
}

#[test]
fn keeps_no_open_copy(rt: HostRuntime) {
    const CUT: [Piece; 3] = [Text(NOTHING), Text(MOMENT_OF_EA01), Part(0, 1_323, 490)];
    static CASES: [Left; 2] = [
        (
            "a cut copy",
            &CUT,
            b"[EA01 2025-01-01 00:40:00 cut 0/5]\nTEST\n\n",
            NOTHING_SAVED,
        ),
        (
            "the message in full",
            &[Text(NOTHING_SAVED), LATER, LINES],
            b"[EA01 2025-01-01 04:40:00 full 0/5]\nTEST\n\n",
            b"STATE 2\nC0\nEA01 1735706400\nC1\nC2\nEND\n",
        ),
    ];
    expect_each_left(&rt, rt.alloc(), &CASES);
}

#[test]
fn keeps_what_is_refused(rt: HostRuntime) {
    const STATE: &[u8] = b"STATE 2\nC0\nRS B\nRS E\nC1\nRJ C\nC2\nEND\n";
    const ACCEPTED: &[u8] = b"STATE 2\nC0\nRS B\nEA01 1735692000\nC1\nRJ C\nC2\nEND\n";
    const X: Piece = Text(AIR_FILE_OF_EA01);
    static CASES: [Left; 3] = [
        (
            "what is refused",
            &[Text(NOTHING), Text(b"RS E\nRJ1 C\nRS B\n")],
            b"",
            STATE,
        ),
        ("refused by the state", &[Text(STATE), X], b"", STATE),
        (
            "accepted again",
            &[Text(STATE), Text(b"AS E\n"), X],
            LOG_OF_EA01,
            ACCEPTED,
        ),
    ];
    expect_each_left(&rt, rt.alloc(), &CASES);
}

#[test]
fn keeps_each_channel(rt: HostRuntime) {
    static CASES: [Left; 2] = [
        (
            "on 0 and 1",
            &[Text(NOTHING), InTurn(false)],
            LOG_ON_BOTH,
            b"STATE 2\nC0\nEA01 1735692000\nC1\nEA01 1735692000\nC2\nEND\n",
        ),
        (
            "known on 0 alone",
            &[Text(WITH_EA01), LATER, Named(b'1', 0, 1_421), LINES],
            b"[EA01/1 2025-01-01 04:40:00 full 0/5]\nTEST\n\n",
            b"STATE 2\nC0\nEA01 1735692000\nC1\nEA01 1735706400\nC2\nEND\n",
        ),
    ];
    expect_each_left(&rt, rt.alloc(), &CASES);
}

/// What is refused, in two pieces, and the line that says where.
type Refused<'a> = (&'a [u8], &'a [u8], &'a str);

/// Expects that each row is refused by its line.
fn expect_refusals(rt: &impl Abort, alloc: Global, rows: &[Refused]) {
    for (first, second, line) in rows {
        expect_refusal(rt, alloc, &join(rt, alloc, &[*first, *second]), line);
    }
}

#[test]
fn refuses_what_is_behind_a_state(rt: HostRuntime) {
    // Lines are counted from the start of the air file, and its moments from the newest entry.
    const BACK: &str = "navtex: line 1: moment 4 is before 5\n";
    static ROWS: [Refused; 6] = [
        (b"STATE 1\nEA01 5\nEND\n", b"T 4\n", BACK),
        (b"STATE 2\nC0\nC1\nC2\nEA01 5\nEND\n", b"T 4\n", BACK),
        (
            WITH_EA01,
            b"B 0\n",
            "navtex: line 1 has elements before any moment\n",
        ),
        (NOTHING, b"END\n", "navtex: line 1 is not understood\n"),
        (NOTHING, b"T 5", "navtex: line 1 has no end\n"),
        (
            NOTHING,
            b"T 0\nRJ2 L\n",
            "navtex: line 2: subject L can't be refused\n",
        ),
    ];
    expect_refusals(&rt, rt.alloc(), &ROWS);
    let saved = b"STATE 2\nC0\nEA01 5\nC1\nC2\nEND\n";
    let input = b"STATE 1\nEA01 5\nEND\nT 5\n";
    expect_left(&rt, rt.alloc(), "at the newest moment", input, b"", saved);
}

#[test]
fn writes_the_log_before_a_fault(rt: HostRuntime) {
    let alloc = rt.alloc();
    let input = join(&rt, alloc, &[NOTHING, AIR_FILE_OF_EA01, b"T 0\n"]);
    let end = (2, "navtex: line 5: moment 0 is before 1735692000\n");
    // No state is written of a run that fails.
    for (arguments, output) in [(RESUME, LOG_OF_EA01), (SAVE, b"")] {
        expect_run(&rt, alloc, arguments[1], &arguments, &input, output, end);
    }
}

const LINE_1: &str = "navtex: state line 1 is not understood\n";

const LINE_2: &str = "navtex: state line 2 is not understood\n";

const LINE_3: &str = "navtex: state line 3 is not understood\n";

#[test]
fn refuses_a_line_of_a_state(rt: HostRuntime) {
    static ROWS: [Refused; 14] = [
        (b"STATE 1\n", b"RS B\nRS A\nEND\n", LINE_3),
        (b"STATE 1\n", b"RJ D\nEND\n", LINE_2),
        (b"STATE 1\n", b"EA00 5\nEND\n", LINE_2),
        (b"STATE 1\n", b"EA01 6\nEB01 5\nEND\n", LINE_3),
        (b"STATE 1\n", b"EA01 5\nEA01 237604\nEND\n", LINE_3),
        (b"STATE 1\n", b"EA01 05\nEND\n", LINE_2),
        (b"STATE 1\n", b"EA01 32503680000\nEND\n", LINE_2),
        (b"STATE 1\n", b"RJ C\nRS B\nEND\n", LINE_3),
        (b"STATE 1\n", b"END\r\n", LINE_2),
        (b"STATE 1\n", b"\nEND\n", LINE_2),
        (b"STATE 3\n", b"", LINE_1),
        (AIR_FILE_OF_EA01, b"", LINE_1),
        (b"STATE 2\n", b"C1\n", LINE_2),
        (b"STATE 2\n", b"C0\nEND\n", LINE_3),
    ];
    expect_refusals(&rt, rt.alloc(), &ROWS);
    let state = b"STATE 1\nEA01 5\nEA01 237605\nEND\n";
    let saved = b"STATE 2\nC0\nEA01 5\nEA01 237605\nC1\nC2\nEND\n";
    expect_left(&rt, rt.alloc(), "66 hours apart", state, b"", saved);
}

/// A state of each kind of line.
const WHOLE: &[u8] = b"STATE 2\nC0\nRS B\nRJ C\nEA01 5\nC1\nEA01 5\nC2\nRS E\nEND\n";

/// How many lines end before the end of a text, and one more.
fn last_line(text: &[u8]) -> usize {
    text.iter()
        .filter(|byte| **byte == b'\n')
        .count()
        .saturating_add(1)
}

/// Expects that the first bytes of a state, so many, are refused by the line in which they end.
fn expect_cut(rt: &impl Abort, alloc: Global, length: usize) {
    let part = WHOLE.get(..length).expect(rt, "a part");
    let line = format!(in alloc; "navtex: state has no end at line {}\n", last_line(part)).expect(
        rt, "memory",
    );
    expect_refusal(rt, alloc, part, line.as_str());
}

#[test]
fn names_the_line_in_which_a_state_is_cut(rt: HostRuntime) {
    let alloc = rt.alloc();
    for length in 0..WHOLE.len() {
        expect_cut(&rt, alloc, length);
    }
    static ROWS: [Refused; 2] = [
        (b"", b"", "navtex: state has no end at line 1\n"),
        (b"STATE 1\n", b"EN", "navtex: state has no end at line 2\n"),
    ];
    expect_refusals(&rt, alloc, &ROWS);
    expect_left(&rt, alloc, "whole", WHOLE, b"", WHOLE);
}

/// Expects that `resume` and `save` over a text that comes again and again end with this line,
/// behind so many reads, and write nothing.
fn expect_stop_on_endless(rt: &impl Abort, alloc: Global, text: &[u8], reads: u64, line: &str) {
    for arguments in [RESUME, SAVE] {
        let mut source = Source::of(text);
        source.endless = true;
        let mut output = Sink::new(Vec::new(alloc));
        let end = (2, line);
        expect_end(
            rt,
            alloc,
            shown(text),
            &arguments,
            &mut source,
            &mut output,
            end,
        );
        assert!(rt;
            source.calls == reads,
            "{}: {} reads",
            shown(text),
            source.calls
        );
        assert!(rt; output.calls == 0, "{}", shown(text));
    }
}

#[test]
fn stops_an_endless_state(rt: HostRuntime) {
    let alloc = rt.alloc();
    expect_stop_on_endless(&rt, alloc, b"STATE 1\n", 16, LINE_2);
    expect_stop_on_endless(&rt, alloc, b"S", 17, LINE_1);
    expect_stop_on_endless(&rt, alloc, b"\n", 1, LINE_1);
}

/// Entries of the moment of EA01, of these many identities from BA01 on, of which each subject has
/// the numbers 01 to 99.
fn entries(rt: &impl Abort, alloc: Global, from: usize, to: usize) -> Vec<u8> {
    let mut lines = Vec::new(alloc);
    for index in from..to {
        let subject = b"ABC".get(index / 99).copied().unwrap_or(b'E');
        let number = (index % 99).saturating_add(1);
        let name = format!(in alloc; "B{}{number:02} 1735692000\n", char::from(subject)).expect(
            rt, "memory",
        );
        lines
            .extend_from_slice(name.as_bytes())
            .expect(rt, "memory");
    }
    lines
}

/// A state with these entries on channels 0 and 2, and these on channel 1, in two parts.
fn state_of(rt: &impl Abort, alloc: Global, others: &[u8], first: &[u8], last: &[u8]) -> Vec<u8> {
    join(
        rt,
        alloc,
        &[
            b"STATE 2\nC0\n",
            others,
            b"C1\n",
            first,
            last,
            b"C2\n",
            others,
            b"END\n",
        ],
    )
}

#[test]
fn keeps_200_entries_on_each_channel(rt: HostRuntime) {
    let alloc = rt.alloc();
    let full = entries(&rt, alloc, 0, 200);
    let later = entries(&rt, alloc, 1, 200);
    let state = state_of(&rt, alloc, &full, &full, b"");
    let left = state_of(&rt, alloc, &full, &later, b"EA01 1735692000\n");
    let on_1 = made_of(&rt, alloc, &[Text(MOMENT_OF_EA01), Named(b'1', 0, 1_421)]);
    expect_left(&rt, alloc, "200 on each", &state, b"", &state);
    // Another one lets the oldest of its channel go.
    let input = join(&rt, alloc, &[&state, &on_1]);
    expect_left(&rt, alloc, "one more", &input, LOG_ON_CHANNEL_1, &left);
}

#[test]
fn refuses_a_201st_entry(rt: HostRuntime) {
    let alloc = rt.alloc();
    let full = entries(&rt, alloc, 0, 200);
    let state = join(
        &rt,
        alloc,
        &[b"STATE 1\n", &full, b"EA01 1735692000\nEND\n"],
    );
    expect_refusal(
        &rt,
        alloc,
        &state,
        "navtex: state line 202 is not understood\n",
    );
}
