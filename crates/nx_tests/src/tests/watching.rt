//! What a watch keeps, over a file in memory.

use super::{EA01, FIRST, KEPT, LOG_OF_EA01, SECOND, expect_text, sent, shown};
use nx_disk::{LeftBefore, Noted, Tear, TornFile};
use nx_fec::Counting;
use nx_watch::{StampedReader, WatchFault, WatchReport, watch};
use std::alloc::Global;
use std::io::{Read, Result as IoResult};
use std::process::Abort;

/// The moment 66 hours after the first.
const MOMENT_AGAIN: &[u8] = b"T 1735929600\n";

/// The kept log of EA01, and a second entry of it, 66 hours later.
const KEPT_TWICE: &[u8] = b"\n[EA01 2025-01-01 00:40:00 full 0/5]\nTEST\n\n\
    \n[EA01 2025-01-03 18:40:00 full 0/5]\nTEST\n\n ";

/// The kept log of EA01, and an entry of EB02 without a text.
const KEPT_EB02: &[u8] = b"\n[EA01 2025-01-01 00:40:00 full 0/5]\nTEST\n\n\
    \n[EB02 2025-01-01 00:40:00 full 0/0]\n\n ";

/// What a watch answered and left.
#[derive(Drop)]
struct Watched {
    answer: Result<WatchReport, WatchFault>,
    file: TornFile,
    written: Vec<u8>,
    told: Vec<u8>,
}

/// Gives bytes in pieces of so many.
#[derive(Drop)]
struct Pieces<'a> {
    rest: &'a [u8],
    length: usize,
}

impl Read for Pieces<'_> {
    fn read(&mut self, buf: &mut [u8]) -> IoResult<usize> {
        let count = self.rest.len().min(self.length).min(buf.len());
        let (given, rest) = self.rest.split_at(count);
        buf[..count].copy_from_slice(given);
        self.rest = rest;
        Ok(count)
    }
}

/// A watch of a file that starts at a moment.
fn watch_file(alloc: Global, file: TornFile, moment: u64, input: &[u8]) -> Watched {
    watch_pieces(alloc, file, moment, input, input.len())
}

/// A watch whose input comes in pieces of so many bytes.
fn watch_pieces(
    alloc: Global,
    file: TornFile,
    moment: u64,
    input: &[u8],
    length: usize,
) -> Watched {
    let mut writer = Counting::new(Vec::new(alloc));
    let mut notices = Counting::new(Vec::new(alloc));
    let pieces = Pieces {
        rest: input,
        length,
    };
    let (answer, device) = watch(
        alloc,
        moment,
        Noted::new(file, LeftBefore::any()),
        &mut StampedReader::new(Counting::new(pieces)),
        &mut writer,
        &mut notices,
    );
    Watched {
        answer,
        file: device.into_file(),
        written: writer.into_inner(),
        told: notices.into_inner(),
    }
}

/// The report of these counts.
fn report(lines: u64, without_effect: u64, first: Option<u64>, put: u64) -> WatchReport {
    WatchReport {
        lines,
        without_effect,
        first_without_effect: first,
        put,
    }
}

fn file_of(rt: &impl Abort, alloc: Global, bytes: &[u8]) -> TornFile {
    TornFile::new(alloc, bytes).expect(rt, "memory")
}

/// The lines of an emission behind its moment.
fn behind_moment(air_file: &[u8]) -> &[u8] {
    match air_file.iter().position(|byte| *byte == b'\n') {
        Some(at) => &air_file[at + 1..],
        None => b"",
    }
}

/// What is heard once is kept once, and again after 66 hours. A log from the future is forgotten.
#[test]
fn an_entry_is_kept_once(rt: HostRuntime) {
    let alloc = rt.alloc();
    let first = sent(&rt, alloc, EA01, FIRST);
    let second = sent(&rt, alloc, EA01, SECOND);
    let mut again = MOMENT_AGAIN.to_vec(alloc).expect(&rt, "memory");
    again
        .extend_from_slice(behind_moment(&first))
        .expect(&rt, "memory");
    let mut twice = KEPT.to_vec(alloc).expect(&rt, "memory");
    twice.truncate(43);
    twice.extend_from_slice(KEPT).expect(&rt, "memory");
    let cases: [(&str, &[u8], u64, &[u8], u64, &[u8]); 8] = [
        ("kept-x", b"", FIRST, &first, 1, KEPT),
        (
            "watch-no-moment",
            b"",
            FIRST,
            behind_moment(&first),
            1,
            KEPT,
        ),
        (
            "no moment, and kept before",
            KEPT,
            SECOND,
            behind_moment(&first),
            0,
            KEPT,
        ),
        ("kept-repeat", KEPT, FIRST, &second, 0, KEPT),
        ("kept-after-66-hours", KEPT, FIRST, &again, 1, KEPT_TWICE),
        ("kept-future", KEPT, 1_735_454_400, &first, 1, &twice),
        ("kept-near", KEPT, 1_735_454_401, &first, 0, KEPT),
        ("empty", b"", FIRST, b"", 0, b" "),
    ];
    for (row, file, moment, input, put, left) in cases {
        let seen = watch_file(alloc, file_of(&rt, alloc, file), moment, input);
        let lines = input.iter().filter(|byte| **byte == b'\n').count() as u64;
        assert_eq!(&rt; seen.answer, Ok(report(lines, 0, None, put)), "{row}");
        expect_text(&rt, row, seen.file.bytes(), left);
        expect_text(&rt, row, &seen.written, b"");
        expect_text(&rt, row, &seen.told, b"");
    }
}

/// What stands behind the last space is cut, and told: ten bytes, of which the first is on line 5.
#[test]
fn a_torn_entry_is_cut_and_told(rt: HostRuntime) {
    let alloc = rt.alloc();
    let mut torn = KEPT.to_vec(alloc).expect(&rt, "memory");
    torn.extend_from_slice(b"[EA02 2025").expect(&rt, "memory");
    let seen = watch_file(alloc, file_of(&rt, alloc, &torn), FIRST, b"");
    assert_eq!(&rt; seen.answer, Ok(report(0, 0, None, 0)), "kept-torn");
    expect_text(&rt, "kept-torn", seen.file.bytes(), KEPT);
    expect_text(&rt, "kept-torn", &seen.written, b"");
    expect_text(
        &rt,
        "kept-torn",
        &seen.told,
        b"navtex: 10 bytes at line 5 of the log are no kept entry, and are cut\n",
    );
}

/// A file that is no kept log is refused, and stays as it is.
#[test]
fn a_damaged_log_is_refused(rt: HostRuntime) {
    let alloc = rt.alloc();
    let mut damaged = KEPT.to_vec(alloc).expect(&rt, "memory");
    if damaged.len() > 37 {
        damaged[37] = 0;
    }
    let first = sent(&rt, alloc, EA01, FIRST);
    let cases: [(&str, &[u8], u64, u8); 2] = [
        ("kept-damaged", &damaged, 3, b'\n'),
        ("kept-foreign", LOG_OF_EA01, 1, b'['),
    ];
    for (row, file, line, byte) in cases {
        let seen = watch_file(alloc, file_of(&rt, alloc, file), FIRST, &first);
        let fault = WatchFault::Damaged {
            line,
            first: Some(byte),
        };
        assert_eq!(&rt; seen.answer, Err(fault), "{row}");
        expect_text(&rt, row, seen.file.bytes(), file);
        expect_text(&rt, row, &seen.told, b"");
    }
}

/// Lines without effect are told, and what acts is kept.
#[test]
fn lines_without_effect_are_told(rt: HostRuntime) {
    let alloc = rt.alloc();
    let first = sent(&rt, alloc, EA01, FIRST);
    let bits = behind_moment(&first);
    let mut garbage = b"X\n".to_vec(alloc).expect(&rt, "memory");
    garbage.resize(602, b'A').expect(&rt, "memory");
    garbage
        .extend_from_slice(b"\nT 1735692000\nT 1735691000\nRJ L\n")
        .expect(&rt, "memory");
    garbage.extend_from_slice(bits).expect(&rt, "memory");
    garbage.extend_from_slice(b"B 01").expect(&rt, "memory");
    let behind = sent(&rt, alloc, b"#B02\n;\n", FIRST);
    let mut late = b"T 1735688400\n".to_vec(alloc).expect(&rt, "memory");
    late.extend_from_slice(behind_moment(&behind))
        .expect(&rt, "memory");
    let mut back = first.clone().expect(&rt, "memory");
    back.extend_from_slice(b"T 5\nT 6\n").expect(&rt, "memory");
    let mut once = first.clone().expect(&rt, "memory");
    once.extend_from_slice(b"T 5\nT 1735692001\n")
        .expect(&rt, "memory");
    let ends = WatchFault::Back {
        line: 6,
        last: FIRST,
        given: 6,
    };
    let cases: [(
        &str,
        &[u8],
        &[u8],
        Result<WatchReport, WatchFault>,
        &[u8],
        &[u8],
    ); 4] = [
        (
            "watch-garbage",
            b"",
            &garbage,
            Ok(report(9, 5, Some(1), 1)),
            KEPT,
            b"navtex: line 1 had no effect: it is no line of an air file\n\
                navtex: 5 lines had no effect\n",
        ),
        (
            "watch-clock-behind",
            KEPT,
            &late,
            Ok(report(4, 1, Some(1), 1)),
            KEPT_EB02,
            b"navtex: line 1 had no effect: its moment is before the last one\n\
                navtex: 1 line had no effect\n",
        ),
        (
            "watch-clock-back",
            b"",
            &back,
            Err(ends),
            KEPT,
            b"navtex: line 5 had no effect: its moment is before the last one\n\
                navtex: 2 lines had no effect\n",
        ),
        (
            "one digit",
            b"",
            &once,
            Ok(report(6, 1, Some(5), 1)),
            KEPT,
            b"navtex: line 5 had no effect: its moment is before the last one\n\
                navtex: 1 line had no effect\n",
        ),
    ];
    for (row, file, input, answer, left, told) in cases {
        for length in [1, 7, 600, 65_536] {
            let file = file_of(&rt, alloc, file);
            let seen = watch_pieces(alloc, file, FIRST, input, length);
            assert_eq!(&rt; seen.answer, answer, "{row}, in pieces of {length}");
            expect_text(&rt, row, seen.file.bytes(), left);
            expect_text(&rt, row, &seen.told, told);
        }
    }
}

/// Of a feed whose one line has no effect it is told why, and that it was one.
#[test]
fn it_is_told_why_a_line_has_no_effect(rt: HostRuntime) {
    let alloc = rt.alloc();
    let mut most = Vec::new(alloc);
    most.resize(514, b'A').expect(&rt, "memory");
    let mut long = Vec::new(alloc);
    long.resize(515, b'A').expect(&rt, "memory");
    let cases: [(&[u8], &[u8], &str); 9] = [
        (b"X", b"\n", "it is no line of an air file"),
        (b"", b"\n", "it is no line of an air file"),
        (&most, b"\n", "it is no line of an air file"),
        (&long, b"\n", "it has more than 514 bytes"),
        (&long, b"", "it has more than 514 bytes"),
        (&most, b"", "it has no end"),
        (b"B 01", b"", "it has no end"),
        (b"T 32503680000", b"\n", "its moment is past the year 2999"),
        (b"RJ L", b"\n", "subjects A, B, D and L can't be refused"),
    ];
    for (text, end, why) in cases {
        let mut input = text.to_vec(alloc).expect(&rt, "memory");
        input.extend_from_slice(end).expect(&rt, "memory");
        let told = format!(in alloc;
            "navtex: line 1 had no effect: {why}\nnavtex: 1 line had no effect\n"
        ).expect(&rt, "memory");
        for length in [1, 600] {
            let seen = watch_pieces(alloc, file_of(&rt, alloc, b""), FIRST, &input, length);
            assert_eq!(&rt; seen.answer, Ok(report(1, 1, Some(1), 0)), "{why}");
            expect_text(&rt, why, &seen.told, told.as_bytes());
        }
    }
}

/// What a crash can leave behind this call of a put. A sync that fails adds nothing to what the
/// write before it left.
fn tears_of(call: u64) -> &'static [Tear] {
    match call {
        7 | 8 | 10 => &Tear::ALL,
        _ => &[Tear::Nothing, Tear::All],
    }
}

/// Expects that a new watch of what a crash left behind this call finds a whole log.
fn expect_whole(rt: &impl Abort, alloc: Global, call: u64, tear: Tear, left: &[u8]) {
    let again = watch_file(alloc, file_of(rt, alloc, left), FIRST, b"");
    assert_eq!(rt;
        again.answer,
        Ok(report(0, 0, None, 0)),
        "call {call}, {tear:?}"
    );
    let found = again.file.bytes();
    // The gate before the entry may be torn.
    let is_kept = call > 9 && found.ends_with(&KEPT[1..]);
    assert!(rt;
        is_kept || found == b" ".as_slice(),
        "call {call}, {tear:?}: {:?}",
        shown(found)
    );
}

/// What is told of a put that failed.
const PUT_FAILED: &[u8] =
    b"navtex: the log can't be written; entries go to standard output from here on\n";

/// A put that fails is told where it fails: behind the line without effect or before it, or behind
/// the number of these, where the end closed the copy.
#[test]
fn a_put_that_fails_is_told(rt: HostRuntime) {
    let alloc = rt.alloc();
    let first = sent(&rt, alloc, EA01, FIRST);
    let open = &first[..first.len().saturating_sub(150)];
    let cases: [(&str, &[u8], &[u8], &[u8], &[u8]); 3] = [
        (
            "behind the line",
            b"X\n",
            &first,
            b"",
            b"navtex: line 1 had no effect: it is no line of an air file\n\
                navtex: the log can't be written; entries go to standard output from here on\n\
                navtex: 1 line had no effect\n",
        ),
        (
            "before the line",
            b"",
            &first,
            b"X\n",
            b"navtex: the log can't be written; entries go to standard output from here on\n\
                navtex: line 5 had no effect: it is no line of an air file\n\
                navtex: 1 line had no effect\n",
        ),
        (
            "at the end",
            b"X\n",
            open,
            b"\n",
            b"navtex: line 1 had no effect: it is no line of an air file\n\
                navtex: 1 line had no effect\n\
                navtex: the log can't be written; entries go to standard output from here on\n",
        ),
    ];
    for (row, before, heard, behind, told) in cases {
        let mut input = before.to_vec(alloc).expect(&rt, "memory");
        input.extend_from_slice(heard).expect(&rt, "memory");
        input.extend_from_slice(behind).expect(&rt, "memory");
        let file = file_of(&rt, alloc, b"").failing_in(7);
        let seen = watch_pieces(alloc, file, FIRST, &input, 1);
        assert_eq!(&rt; seen.answer, Err(WatchFault::Disk), "{row}");
        expect_text(&rt, row, &seen.told, told);
    }
}

/// Each call of the disk fails in turn. What isn't put is written, and a new watch finds a whole
/// log.
#[test]
fn what_the_disk_does_not_take_is_written(rt: HostRuntime) {
    let alloc = rt.alloc();
    let first = sent(&rt, alloc, EA01, FIRST);
    // The opening of an empty file has six calls, and a put five.
    for call in 1..12 {
        let file = file_of(&rt, alloc, b"").failing_in(call);
        let seen = watch_file(alloc, file, FIRST, &first);
        let fault = if call == 2 {
            WatchFault::Open
        } else {
            WatchFault::Disk
        };
        assert_eq!(&rt; seen.answer, Err(fault), "call {call}");
        let (written, told): (&[u8], &[u8]) = if call > 6 {
            (LOG_OF_EA01, PUT_FAILED)
        } else {
            (b"", b"")
        };
        assert_eq!(&rt; shown(&seen.written), shown(written), "call {call}");
        assert_eq!(&rt; shown(&seen.told), shown(told), "call {call}");
        // What a crash leaves of the opening is tried with the kept log.
        if call > 6 {
            for tear in tears_of(call) {
                let left = seen.file.left(alloc, *tear).expect(&rt, "memory");
                expect_whole(&rt, alloc, call, *tear, &left);
            }
        }
    }
}
