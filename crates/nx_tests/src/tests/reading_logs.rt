//! Logs that are read in two pieces, cut at each place.

use super::{LOG_OF_EA01, expect_text, shown};
use nx_log::{BadLine, LogReader, Pushed, TornLine};
use std::process::Abort;

/// What a log in two pieces has.
#[derive(Clone, Copy, Debug, Drop, PartialEq, Eq)]
struct Seen {
    /// How many entries.
    entries: usize,
    /// How many torn ones, and the sum of their lines.
    torn: usize,
    lines: u64,
    /// The line of its fault, or 0.
    fault: u64,
}

impl Seen {
    /// With a torn entry on this line.
    fn with_torn(self, line: u64) -> Seen {
        Seen {
            torn: self.torn.saturating_add(1),
            lines: self.lines.saturating_add(line),
            ..self
        }
    }
}

/// What a log in two pieces has.
fn read_in_two(rt: &impl Abort, log: &[u8], cut: usize) -> Seen {
    let mut reader = LogReader::new();
    let mut seen = Seen {
        entries: 0,
        torn: 0,
        lines: 0,
        fault: 0,
    };
    let mut at = 0usize;
    for end in [cut.min(log.len()), log.len()] {
        while at < end {
            let piece = log.get(at..end).expect(rt, "a piece");
            match reader.push(piece) {
                Pushed::Entry { taken } => {
                    expect_text(rt, "an entry", reader.entry_bytes(), LOG_OF_EA01);
                    seen.entries = seen.entries.saturating_add(1);
                    at = at.saturating_add(taken.max(1));
                }
                Pushed::Torn {
                    taken,
                    at: TornLine { line },
                } => {
                    seen = seen.with_torn(line);
                    at = at.saturating_add(taken.max(1));
                }
                Pushed::All => at = end,
                Pushed::Bad(BadLine { line }) => {
                    seen.fault = line;
                    return seen;
                }
            }
        }
    }
    if let Some(TornLine { line }) = reader.finish() {
        seen = seen.with_torn(line);
    }
    seen
}

/// A log, how many entries it has, how many torn ones, the sum of their lines, and the line of its
/// fault, or 0.
type Case<'a> = (&'a [u8], usize, usize, u64, u64);

/// Expects that a log is read so where it is cut here.
fn expect_read_in_two(rt: &impl Abort, case: Case, cut: usize) {
    let (log, entries, torn, lines, fault) = case;
    let seen = read_in_two(rt, log, cut);
    let expected = Seen {
        entries,
        torn,
        lines,
        fault,
    };
    assert_eq!(rt; seen, expected, "{}, cut at {cut}", shown(log));
}

/// Expects that each log is read so, cut at each place.
fn expect_read(rt: &impl Abort, cases: &[Case]) {
    for case in cases {
        for cut in 0..case.0.len() {
            expect_read_in_two(rt, *case, cut);
        }
    }
}

#[test]
fn logs_of_runs_and_kept_logs_are_read(rt: HostRuntime) {
    let cases: [Case; 6] = [
        (b"[EA01 2025-01-01 00:40:00 full 0/5]\nTEST\n\n", 1, 0, 0, 0),
        // At rest, and torn in the next put.
        (
            b"\n[EA01 2025-01-01 00:40:00 full 0/5]\nTEST\n\n ",
            1,
            0,
            0,
            0,
        ),
        (
            b"\n[EA01 2025-01-01 00:40:00 full 0/5]\nTEST\n\n [EA02 20\xff5\n",
            1,
            1,
            5,
            0,
        ),
        // As it is shown while it grows.
        (
            b"\n[EA01 2025-01-01 00:40:00 full 0/5]\nTEST\n\n [EA01 2025-01-01 00:40:00 full 0/5]\nTEST\n\n ",
            2,
            0,
            0,
            0,
        ),
        // Two at rest, one behind the other.
        (
            b"\n[EA01 2025-01-01 00:40:00 full 0/5]\nTEST\n\n \n[EA01 2025-01-01 00:40:00 full 0/5]\nTEST\n\n ",
            2,
            0,
            0,
            0,
        ),
        // A gate that was torn.
        (
            b"\0[EA01 2025-01-01 00:40:00 full 0/5]\nTEST\n\nx",
            1,
            0,
            0,
            0,
        ),
    ];
    expect_read(&rt, &cases);
}

#[test]
fn what_stands_behind_a_torn_entry_is_read(rt: HostRuntime) {
    let cases: [Case; 8] = [
        (
            b"[EA01 2025-01-01 00:40:00 full 0/5]\nTEST\n\n[BB08 2026-\n[EA01 2025-01-01 00:40:00 full 0/5]\nTEST\n\n",
            2,
            1,
            4,
            0,
        ),
        (
            b"[[[EA01 2025-01-01 00:40:00 full 0/5]\nTEST\n\n[",
            1,
            3,
            6,
            0,
        ),
        (b"[", 0, 1, 1, 0),
        // Torn in its text, with one byte behind it.
        (
            b"\n[EA01 2025-01-01 00:40:00 full 0/5]\nTE\0[EA01 2025-01-01 00:40:00 full 0/5]\nTEST\n\n",
            1,
            1,
            2,
            0,
        ),
        // Within reach of a space, up to the next bracket.
        (
            b" xy\nz[EA01 2025-01-01 00:40:00 full 0/5]\nTEST\n\nxy[EA01 2025-01-01 00:40:00 full 0/5]\nTEST\n\n",
            2,
            2,
            6,
            0,
        ),
        // A space behind a torn entry reaches what stands behind the next bracket.
        (
            b"[E [EA01 2025-01-01 00:40:00 full 0/5]\nTEST\n\nxy",
            1,
            2,
            5,
            0,
        ),
        (
            b"[EA01 2025-01-01 00:40:00 full 0/5]\nTEST\n\n\n[EA01 2025",
            1,
            1,
            5,
            0,
        ),
        (b"[EA01 2025-01-01 00:40:00 full 0/5]\nTEST\n", 0, 1, 1, 0),
    ];
    expect_read(&rt, &cases);
}

#[test]
fn a_fault_is_told_at_its_line(rt: HostRuntime) {
    let cases: [Case; 6] = [
        (
            b"\nx[EA01 2025-01-01 00:40:00 full 0/5]\nTEST\n\n",
            0,
            0,
            0,
            2,
        ),
        (
            b"[EA01 2025-01-01 00:40:00 full 0/5]\nTE\0T\n\n",
            0,
            0,
            0,
            2,
        ),
        (
            b"\n[EA01 2025-01-01 00:40:00 full 0/5]\n\0EST\n\n ",
            0,
            0,
            0,
            3,
        ),
        // Behind a space it can be a torn entry.
        (
            b" [EA01 2025-01-01 00:40:00 full 0/5]\n\0EST\n\n ",
            0,
            1,
            1,
            0,
        ),
        // A space behind the beginning of an entry reaches none of what is torn with it.
        (b"\n[BB08 2026- z", 0, 0, 0, 2),
        // The text goes on where the head says so.
        (
            b"[EA01 2025-01-01 00:40:00 full 0/5]\nTEST\n\n\n\n[EA01 2025-01-01 00:40:00 full 0/9]\nTEST\n\n",
            1,
            1,
            6,
            0,
        ),
    ];
    expect_read(&rt, &cases);
}

/// Expects that a log with a long end is read so, cut where the entry before the end stands, within
/// the end, and where it is as long as a torn end can be.
fn expect_long_read(rt: &impl Abort, case: Case) {
    for cuts in [0..50, 2_000..2_001, 4_185..case.0.len()] {
        for cut in cuts {
            expect_read_in_two(rt, case, cut);
        }
    }
}

#[test]
fn a_torn_end_is_as_long_as_an_entry_and_its_gate(rt: HostRuntime) {
    let mut log = [b'x'; 4193];
    log[0] = b'\n';
    log[1..43].copy_from_slice(LOG_OF_EA01);
    log[43] = b' ';
    log[4190] = b'\n';
    let short = log.get(..4191).expect(&rt, "4,191 bytes");
    expect_long_read(&rt, (short, 1, 1, 5, 0));
    expect_long_read(&rt, (&log, 1, 0, 0, 6));
    log[43] = b'\n';
    expect_long_read(&rt, (&log, 1, 0, 0, 6));
}
