//! What `locks` shows of whole files and of faulty ones, in one piece and byte by byte.

use super::air::Piece::{Damaged, Part, Sent, Text};
use super::air::{LINES, MOMENT_OF_EA01, Piece, expect_log, made_of};
use super::station::AIR_FILE_OF_EA01;
use super::{End, run_in_pieces, run_on};
use std::alloc::Global;
use std::process::Abort;

const LOCKS: [&str; 2] = ["navtex", "locks"];

/// P2 P1 P2 P1 at the moment of EA01.
const PATTERN: Piece<'static> = Text(b"T 1735692000\nB 0110011111100001100111111000\n");

/// What is told of a file, its pieces, and the report of its locks.
type Shown<'a> = (&'a str, &'a [Piece<'a>], &'a [u8]);

/// Expects that `locks` ends so and writes its report, where the pieces in a row are read at once,
/// and where they are read and written byte by byte.
fn expect_report(rt: &impl Abort, alloc: Global, case: Shown, end: End) {
    let (row, pieces, report) = case;
    let air_file = made_of(rt, alloc, pieces);
    let (status, line) = (end.0, end.1.as_bytes());
    run_on(alloc, &LOCKS, &air_file).expect(rt, row, status, report, line);
    run_in_pieces(alloc, &LOCKS, &air_file, 1).expect(rt, row, status, report, line);
}

/// Expects that `locks` succeeds on each file, and writes its report.
fn expect_reports(rt: &impl Abort, alloc: Global, cases: &[Shown]) {
    for case in cases {
        expect_report(rt, alloc, *case, (0, ""));
    }
}

#[test]
fn shows_the_lock_of_an_emission(rt: HostRuntime) {
    const ONE: &[u8] = b"[2025-01-01 00:40:00 lock 28]\nZCZC EA01\nTEST\nNNNN\n\n\
        [2025-01-01 00:40:00 open words 199 wrong 0 copies 1]\n\n\
        [elements 1421 locks 1 copies 1]\n";
    const TWO: &[u8] =
        b"[2025-01-01 00:40:00 lock 28]\nZCZC EA01\nTEST\nNNNN\n\nZCZC EB02\nNNNN\n\n\
        [2025-01-01 00:40:00 open words 313 wrong 0 copies 2]\n\n\
        [elements 2219 locks 1 copies 2]\n";
    // The first 96 words are damaged, so the lock comes behind the next four.
    const LATE: &[u8] = b"[2025-01-01 00:40:00 lock 700]\nZCZC EA01\nTEST\nNNNN\n\n\
        [2025-01-01 00:40:00 open words 103 wrong 30 copies 1]\n\n\
        [elements 1421 locks 1 copies 1]\n";
    const DAMAGED: Piece = Damaged(&[["all", "0", "96"], ["dx", "144", "59"]]);
    const SENT: Piece = Sent("1735689600", b"#A01\nTEST\n;\n#B02\n;\n", &[]);
    static CASES: [Shown; 3] = [
        ("the first slots are lost", &[DAMAGED], LATE),
        ("one message", &[Text(AIR_FILE_OF_EA01)], ONE),
        ("two messages", &[SENT], TWO),
    ];
    expect_reports(&rt, rt.alloc(), &CASES);
}

#[test]
fn shows_locks_that_are_lost(rt: HostRuntime) {
    // Three elements slip in behind the four words: no word after them has the right weight.
    const NONE_RIGHT: &[u8] = b"[2025-01-01 00:40:00 lock 28]\n********************\n\
        [2025-01-01 00:40:00 lost words 40 wrong 40 copies 0]\n\n\
        [2025-01-01 00:40:00 lock 311]\nZCZC EA01\nTEST\nNNNN\n\n\
        [2025-01-01 00:40:00 open words 163 wrong 0 copies 1]\n\n\
        [elements 1452 locks 2 copies 1]\n";
    // One does, which makes the first word a good one, the letter I.
    const ONE_RIGHT: &[u8] = b"[2025-01-01 00:40:00 lock 28]\n**I*****************\n\
        [2025-01-01 00:40:00 lost words 41 wrong 40 copies 0]\n\n\
        [2025-01-01 00:40:00 lock 316]\nZCZC EA01\nTEST\nNNNN\n\n\
        [2025-01-01 00:40:00 open words 162 wrong 0 copies 1]\n\n\
        [elements 1450 locks 2 copies 1]\n";
    static CASES: [Shown; 2] = [
        (
            "three elements slip in",
            &[PATTERN, Text(b"B 000\n"), LINES],
            NONE_RIGHT,
        ),
        (
            "one element slips in",
            &[PATTERN, Text(b"B 1\n"), LINES],
            ONE_RIGHT,
        ),
    ];
    expect_reports(&rt, rt.alloc(), &CASES);
}

#[test]
fn shows_locks_that_ended(rt: HostRuntime) {
    // The first word is lost, so the roles of the words are swapped.
    const SWAPPED: &[u8] = b"[2025-01-01 00:40:00 lock 28]\n\
        [2025-01-01 00:40:00 ended words 6 wrong 0 copies 0]\n\n\
        [2025-01-01 00:40:00 lock 77]\nZCZC EA01\nTEST\nNNNN\n\n\
        [2025-01-01 00:40:00 open words 195 wrong 0 copies 1]\n\n\
        [elements 1442 locks 2 copies 1]\n";
    // The next emission begins behind the text, and its time is in force at the releasing word.
    const RELEASED: &[u8] = b"[2025-01-01 00:40:00 lock 28]\nZCZC EA01\nTEST\n***\n\
        [2025-01-01 04:40:00 ended words 192 wrong 0 copies 1]\n\n\
        [2025-01-01 04:40:00 lock 1379]\nZCZC EA01\nTEST\nNNNN\n\n\
        [2025-01-01 04:40:00 open words 195 wrong 0 copies 1]\n\n\
        [elements 2744 locks 2 copies 2]\n";
    const CUT: Piece = Part(0, 1_323, 490);
    const NEXT: Piece = Text(b"T 1735706400\n");
    static CASES: [Shown; 2] = [
        ("swapped", &[PATTERN, Part(7, 1_421, 490)], SWAPPED),
        (
            "released by the next emission",
            &[Text(MOMENT_OF_EA01), CUT, NEXT, LINES],
            RELEASED,
        ),
    ];
    expect_reports(&rt, rt.alloc(), &CASES);
}

#[test]
fn shows_why_a_log_is_empty(rt: HostRuntime) {
    // Both sendings of the figure shift of its header are lost.
    const NO_HEADER: [Piece; 1] = [Damaged(&[["all", "160", "6"]])];
    const REPORT: &[u8] = b"[2025-01-01 00:40:00 lock 28]\nZCZC EA*PQ\nTEST\nNNNN\n\n\
        [2025-01-01 00:40:00 open words 199 wrong 6 copies 0]\n\n\
        [elements 1421 locks 1 copies 0]\n";
    // There is no phasing in noise.
    const NOISE: Piece = Text(b"T 0\nB 011010011001011010010110011010010110100110010110\n");
    static CASES: [Shown; 3] = [
        ("no header", &NO_HEADER, REPORT),
        ("noise", &[NOISE], b"[elements 48 locks 0 copies 0]\n"),
        ("nothing", &[], b"[elements 0 locks 0 copies 0]\n"),
    ];
    expect_reports(&rt, rt.alloc(), &CASES);
    expect_log(&rt, rt.alloc(), ("no header", &NO_HEADER, b""));
}

#[test]
fn closes_no_lock_at_a_fault(rt: HostRuntime) {
    // A lock stands open within the text where a vital subject is refused.
    let pieces = [Text(MOMENT_OF_EA01), Part(0, 1_323, 490), Text(b"RJ L\n")];
    let report = b"[2025-01-01 00:40:00 lock 28]\nZCZC EA01\nTEST\n";
    let end = (2, "navtex: line 5: subject L can't be refused\n");
    expect_report(&rt, rt.alloc(), ("within the text", &pieces, report), end);
}
