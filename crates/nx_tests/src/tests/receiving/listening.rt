//! What `listen` and `listen_from` report.

use super::super::remembering::enter_numbers;
use super::super::{
    EA01, FIRST, LOG_OF_EA01, SECOND, elements_of, expect_text, expect_told, sent, shown,
};
use nx_envelope::Letter;
use nx_fec::Counting;
use nx_memory::{PlainRecall, Saved, SavedSet, Selection};
use nx_receiver::{ListenFault, MomentFault, Report, listen, listen_from};
use std::alloc::{AllocError, Global};
use std::process::Abort;

/// Expects that a file is listened to with this outcome and this log.
fn expect_heard(
    rt: &impl Abort,
    alloc: Global,
    row: &str,
    air_file: &[u8],
    wanted: Result<Report, ListenFault>,
    log: &[u8],
) {
    let mut writer = Counting::new(Vec::new(alloc));
    let outcome = listen(alloc, &mut Counting::new(air_file), &mut writer);
    assert_eq!(rt; outcome, wanted, "{row}");
    expect_text(rt, row, &writer.into_inner(), log);
}

/// EA01 at the first moment, with one element in each line.
fn in_lines_of_one(rt: &impl Abort, alloc: Global) -> Vec<u8> {
    let mut lines = b"T 1735692000\n".to_vec(alloc).expect(rt, "memory");
    for bit in elements_of(rt, alloc, EA01) {
        lines
            .extend_from_slice(if bit { b"B 1\n" } else { b"B 0\n" })
            .expect(rt, "memory");
    }
    lines
}

/// An air file with each line of its elements a second time, on channel 1.
fn on_two_channels(rt: &impl Abort, alloc: Global, air_file: &[u8]) -> Vec<u8> {
    let mut both = Vec::new(alloc);
    let mut line = Vec::new(alloc);
    for byte in air_file {
        line.push(*byte).expect(rt, "memory");
        if *byte == b'\n' {
            both.extend_from_slice(&line).expect(rt, "memory");
            if let Some(elements) = line.strip_prefix(b"B") {
                both.extend_from_slice(b"B1").expect(rt, "memory");
                both.extend_from_slice(elements).expect(rt, "memory");
            }
            line.clear();
        }
    }
    both
}

#[test]
fn counts_lines_and_elements(rt: HostRuntime) {
    let whole = sent(&rt, rt.alloc(), EA01, FIRST);
    let lines_of_one = in_lines_of_one(&rt, rt.alloc());
    // Four elements stand between an emission and its repeat.
    let mut repeated = whole.clone().expect(&rt, "memory");
    repeated
        .extend_from_slice(b"B 0110\n")
        .expect(&rt, "memory");
    repeated
        .extend_from_slice(&sent(&rt, rt.alloc(), EA01, SECOND))
        .expect(&rt, "memory");
    let both = on_two_channels(&rt, rt.alloc(), &whole);
    let cases: [(&str, &[u8], [u64; 3], &[u8]); 5] = [
        ("nothing", b"", [0, 0, 0], b""),
        ("EA01", &whole, [4, 1_421, 1], LOG_OF_EA01),
        (
            "lines of one",
            &lines_of_one,
            [1_422, 1_421, 1],
            LOG_OF_EA01,
        ),
        ("a repeat", &repeated, [9, 2_846, 1], LOG_OF_EA01),
        (
            "two channels",
            &both,
            [7, 2_842, 2],
            b"[EA01 2025-01-01 00:40:00 full 0/5]\nTEST\n\n\
            [EA01/1 2025-01-01 00:40:00 full 0/5]\nTEST\n\n",
        ),
    ];
    for (row, air_file, [lines, bits, printed], log) in cases {
        let report = Report {
            lines,
            bits,
            printed,
        };
        expect_heard(&rt, rt.alloc(), row, air_file, Ok(report), log);
    }
}

/// A fault names its line, and nothing is logged before it.
#[test]
fn faults_of_lines(rt: HostRuntime) {
    let l = Letter::new(b'L').expect(&rt, "L");
    let mut too_long = [b'0'; 516];
    too_long[..2].copy_from_slice(b"B ");
    too_long[515] = b'\n';
    let back = MomentFault::Back { last: 5, given: 4 };
    let range = MomentFault::Range {
        given: 32_503_680_000,
    };
    let cases: [(&[u8], ListenFault); 9] = [
        (
            b"T 5\nT 4\n",
            ListenFault::Moment {
                line: 2,
                fault: back,
            },
        ),
        (
            b"T 32503680000\n",
            ListenFault::Moment {
                line: 1,
                fault: range,
            },
        ),
        (b"B 0\n", ListenFault::NoMoment { line: 1 }),
        (b"T 05\n", ListenFault::BadLine { line: 1 }),
        (b"T 5", ListenFault::LineCut { line: 1 }),
        (&too_long, ListenFault::LineLong { line: 1 }),
        (
            b"T 0\nRJ L\n",
            ListenFault::Vital {
                line: 2,
                subject: l,
            },
        ),
        (
            b"RJ2 L\n",
            ListenFault::Vital {
                line: 1,
                subject: l,
            },
        ),
        (b"B3 1\n", ListenFault::BadLine { line: 1 }),
    ];
    for (air_file, fault) in cases {
        expect_heard(&rt, rt.alloc(), shown(air_file), air_file, Err(fault), b"");
    }
}

#[test]
fn texts_of_faults(rt: HostRuntime) {
    let cases = [
        (
            ListenFault::AirTooLong,
            "air file longer than 268435456 bytes",
        ),
        (ListenFault::Memory(AllocError), "out of memory"),
    ];
    for (fault, text) in cases {
        expect_told(&rt, rt.alloc(), &fault, text);
    }
}

/// What a receiver left that entered EE01 and then 199 messages of station B.
fn full_memory(rt: &impl Abort) -> SavedSet {
    let mut memory = PlainRecall::new();
    enter_numbers(rt, &mut memory, b'E', b'E', 1, FIRST);
    enter_numbers(rt, &mut memory, b'B', b'A', 99, FIRST);
    enter_numbers(rt, &mut memory, b'B', b'B', 99, FIRST);
    enter_numbers(rt, &mut memory, b'B', b'C', 1, FIRST);
    let on_0 = Saved::of(&Selection::all(), &memory);
    SavedSet::of(on_0, Saved::new(), Saved::new())
}

/// What a run that goes on from what is saved leaves, of which the log is appended to others.
fn go_on(
    rt: &impl Abort,
    alloc: Global,
    saved: &SavedSet,
    air_file: &[u8],
    logs: &mut Vec<u8>,
) -> SavedSet {
    let mut writer = Counting::new(Vec::new(alloc));
    let outcome = listen_from(alloc, saved, &mut Counting::new(air_file), &mut writer);
    let (_, left) = outcome.expect(rt, "listening");
    logs.extend_from_slice(&writer.into_inner())
        .expect(rt, "memory");
    left
}

/// Runs over one emission each log what one run logs that hears them all: EE02 takes the place of
/// EE01, which is printed again, and EE02 is known then.
#[test]
fn many_runs(rt: HostRuntime) {
    let mut saved = full_memory(&rt);
    let mut joined = Vec::new(rt.alloc());
    let mut logs = Vec::new(rt.alloc());
    for message in [b"#E02\nX\n;\n", b"#E01\nX\n;\n", b"#E02\nX\n;\n"] {
        let air_file = sent(&rt, rt.alloc(), message, SECOND);
        saved = go_on(&rt, rt.alloc(), &saved, &air_file, &mut logs);
        joined.extend_from_slice(&air_file).expect(&rt, "memory");
    }
    let log =
        b"[EE02 2025-01-01 04:40:00 full 0/2]\nX\n\n[EE01 2025-01-01 04:40:00 full 0/2]\nX\n\n";
    expect_text(&rt, "run by run", &logs, log);
    let kept = saved.get(0).expect(&rt, "channel 0");
    assert_eq!(rt; kept.count(), 200);
    let mut log_of_all = Vec::new(rt.alloc());
    go_on(&rt, rt.alloc(), &full_memory(&rt), &joined, &mut log_of_all);
    expect_text(&rt, "in one run", &log_of_all, log);
}
