//! Logs that are read again: what is asked for of them, what is remembered, and lines of JSON.

use super::{FIRST, LOG_OF_EA01, expect_text, shown};
use nx_envelope::Letter;
use nx_fec::{Channel, Counting};
use nx_log::{
    Damaged, Form, Letters, LogFault, NotedReader, Query, entry_at, json_line, kept_run, log_run,
    remembered_of, since_of, until_of,
};
use std::alloc::Global;
use std::process::Abort;

/// A copy of LB02 that was cut, four hours after EA01, on channel 1.
const LOG_OF_LB02: &[u8] = b"[LB02/1 2025-01-01 04:40:00 cut 1/3]\nA*\n\n";

/// An empty copy of EB00, at the first second of the next day, on channel 2.
const LOG_OF_EB00: &[u8] = b"[EB00/2 2025-01-02 00:00:00 full 0/0]\n\n";

const NEXT_DAY: u64 = 1_735_776_000;

/// Digits are a moment, but for four and eight; a date or a minute is its first second, or the last
/// one until which is asked; and a date with a time of day is itself.
#[test]
fn times(rt: HostRuntime) {
    let last = 32_503_679_999;
    let cases: [(&str, Option<u64>, Option<u64>); 28] = [
        ("1735692000", Some(FIRST), Some(FIRST)),
        ("0001735692000", Some(FIRST), Some(FIRST)),
        ("32503679999", Some(last), Some(last)),
        ("32503680000", None, None),
        ("99999999999999999999999999", None, None),
        ("+5", None, None),
        ("2025-01-01", Some(1_735_689_600), Some(1_735_775_999)),
        ("2025-01-01T00:40:00", Some(FIRST), Some(FIRST)),
        ("2025-01-01T00:40:00Z", Some(FIRST), Some(FIRST)),
        ("2025-01-01 00:40:00", Some(FIRST), Some(FIRST)),
        ("2025-01-01 00:40:00Z", Some(FIRST), Some(FIRST)),
        ("2025-01-01T00:40", Some(FIRST), Some(FIRST + 59)),
        ("2025-01-01 00:40", Some(FIRST), Some(FIRST + 59)),
        ("2025-01-01 00:40Z", Some(FIRST), Some(FIRST + 59)),
        ("2025-01-01T00:40Z", Some(FIRST), Some(FIRST + 59)),
        ("2025-01-01_00:40", None, None),
        ("2025-01-01T00:60", None, None),
        ("2025-01-01T00:40ZZ", None, None),
        ("2025", None, None),
        ("0005", None, None),
        ("20250101", None, None),
        ("02025", Some(2025), Some(2025)),
        ("2025-01-01Z", None, None),
        ("2025-02-29", None, None),
        ("2025-01-01T24:00:00", None, None),
        ("1969-12-31", None, None),
        ("3000-01-01", None, None),
        ("", None, None),
    ];
    for (text, since, until) in cases {
        assert_eq!(rt; since_of(text), since, "since {text}");
        assert_eq!(rt; until_of(text), until, "until {text}");
    }
}

/// LETTERS are capitals, one or more, in any order, also twice.
#[test]
fn letters(rt: HostRuntime) {
    for text in ["", "e", "E,L", "E L", "E1"] {
        assert!(rt; Letters::of(text).is_none(), "{text:?}");
    }
    let letters = Letters::of("LEE").expect(&rt, "letters");
    for (byte, named) in [(b'E', true), (b'L', true), (b'A', false), (b'Z', false)] {
        let letter = Letter::new(byte).expect(&rt, "a letter");
        assert_eq!(rt; letters.contains(letter), named, "{letter}");
    }
}

/// Expects which of the entries EA01, LB02 and EB00 a query admits.
fn expect_admitted(rt: &impl Abort, row: &str, query: &Query, wanted: [bool; 3]) {
    let entries = [LOG_OF_EA01, LOG_OF_LB02, LOG_OF_EB00];
    let mut admitted = [false; 3];
    for place in 0..3 {
        let view = entry_at(entries[place]).expect(rt, "an entry");
        admitted[place] = query.admits(&view.head);
    }
    assert_eq!(rt; admitted, wanted, "{row}");
}

/// What each option of a query admits of three entries.
#[test]
fn queries(rt: HostRuntime) {
    expect_admitted(&rt, "all", &Query::all(), [true, true, true]);
    let mut query = Query::all();
    query.stations = Letters::of("E");
    expect_admitted(&rt, "station", &query, [true, false, true]);
    let mut query = Query::all();
    query.subjects = Letters::of("CB");
    expect_admitted(&rt, "subject", &query, [false, true, true]);
    let mut query = Query::all();
    query.channel = Some(Channel::Zero);
    expect_admitted(&rt, "channel", &query, [true, false, false]);
    let mut query = Query::all();
    query.since = Some(NEXT_DAY);
    expect_admitted(&rt, "since itself", &query, [false, false, true]);
    query.since = Some(FIRST + 1);
    expect_admitted(&rt, "since behind", &query, [false, true, true]);
    let mut query = Query::all();
    query.until = Some(FIRST);
    expect_admitted(&rt, "until itself", &query, [true, false, false]);
    query.until = Some(NEXT_DAY - 1);
    expect_admitted(&rt, "until before", &query, [true, true, false]);
    let mut query = Query::all();
    query.good = true;
    expect_admitted(&rt, "good", &query, [true, false, true]);
    query.stations = Letters::of("EL");
    query.channel = Some(Channel::Two);
    expect_admitted(&rt, "many", &query, [false, false, true]);
}

/// A good entry is remembered with its moment, and none that was cut or is numbered 00.
#[test]
fn remembered(rt: HostRuntime) {
    let cases: [(&[u8], Option<u64>); 3] = [
        (LOG_OF_EA01, Some(FIRST)),
        (LOG_OF_LB02, None),
        (LOG_OF_EB00, None),
    ];
    for (entry, moment) in cases {
        let view = entry_at(entry).expect(&rt, "an entry");
        let found = match remembered_of(&view) {
            Some(entry) => Some(entry.moment),
            None => None,
        };
        assert_eq!(rt; found, moment, "{}", shown(entry));
    }
}

/// An entry as a line of JSON: its keys in order, its newlines escaped.
#[test]
fn lines_of_json(rt: HostRuntime) {
    let cases: [(&[u8], &[u8]); 2] = [
        (
            LOG_OF_EA01,
            b"{\"channel\":0,\"characters\":5,\"end\":\"full\",\"errors\":0,\"good\":true,\
            \"identity\":\"EA01\",\"moment\":1735692000,\"number\":1,\
            \"station\":\"E\",\"subject\":\"A\",\"text\":\"TEST\\n\",\
            \"time\":\"2025-01-01T00:40:00Z\"}\n",
        ),
        (
            LOG_OF_LB02,
            b"{\"channel\":1,\"characters\":3,\"end\":\"cut\",\"errors\":1,\"good\":false,\
            \"identity\":\"LB02\",\"moment\":1735706400,\"number\":2,\
            \"station\":\"L\",\"subject\":\"B\",\"text\":\"A*\\n\",\
            \"time\":\"2025-01-01T04:40:00Z\"}\n",
        ),
    ];
    for (entry, wanted) in cases {
        let view = entry_at(entry).expect(&rt, "an entry");
        let line = json_line(&view);
        expect_text(&rt, shown(entry), &line, wanted);
    }
}

/// A run over these bytes, what it wrote, and what it told.
fn run_over(
    alloc: Global,
    bytes: &[u8],
    damaged: Damaged,
) -> (Result<u64, LogFault>, Vec<u8>, Vec<u8>) {
    let mut writer = Counting::new(Vec::new(alloc));
    let mut notices = Counting::new(Vec::new(alloc));
    let mut reader = NotedReader::new(Counting::new(bytes), &notices);
    let outcome = log_run(
        alloc,
        &mut reader,
        &mut writer,
        &mut notices,
        &Query::all(),
        Form::Log,
        damaged,
    );
    (outcome, writer.into_inner(), notices.into_inner())
}

/// Words before the first entry, an entry, one that was torn, one with a damaged date, an entry.
const DAMAGED_LOG: &[u8] = b"TEST\n[EA01 2025-01-01 00:40:00 full 0/5]\nTEST\n\n[BB08 2026-\n\
    [BB08 2026-xx\n[EA01 2025-01-01 00:40:00 full 0/5]\nTEST\n\n";

/// What is not of a log ends a run, or is passed over up to the next bracket and told.
#[test]
fn salvaged(rt: HostRuntime) {
    let (outcome, written, told) = run_over(rt.alloc(), DAMAGED_LOG, Damaged::Refused);
    assert_eq!(rt; outcome, Err(LogFault::BadLog { line: 1 }));
    expect_text(&rt, "refused, written", &written, b"");
    expect_text(&rt, "refused, told", &told, b"");
    let (outcome, written, told) = run_over(rt.alloc(), DAMAGED_LOG, Damaged::PassedOver);
    assert_eq!(rt; outcome, Err(LogFault::BadLog { line: 1 }));
    expect_text(
        &rt,
        "passed over, written",
        &written,
        b"[EA01 2025-01-01 00:40:00 full 0/5]\nTEST\n\n[EA01 2025-01-01 00:40:00 full 0/5]\nTEST\n\n",
    );
    expect_text(
        &rt,
        "passed over, told",
        &told,
        b"navtex: line 1 is not of a log, and was passed over\n\
        navtex: line 5: a torn entry was passed over\n\
        navtex: line 6 is not of a log, and was passed over\n",
    );
    let (outcome, written, told) = run_over(rt.alloc(), LOG_OF_EA01, Damaged::PassedOver);
    assert_eq!(rt; outcome, Ok(1));
    expect_text(&rt, "a log, written", &written, LOG_OF_EA01);
    expect_text(&rt, "a log, told", &told, b"");
}

/// A kept log of both entries, with the beginning of one behind its last gate.
const KEPT_LOG: &[u8] = b"\n[EA01 2025-01-01 00:40:00 full 0/5]\nTEST\n\n\n\
    [LB02/1 2025-01-01 04:40:00 cut 1/3]\nA*\n\n [EB00/2 2025";

/// A run over a kept log, or a part of one, and what it wrote.
fn run_over_kept(alloc: Global, bytes: &[u8]) -> (Result<u64, LogFault>, Vec<u8>) {
    let mut writer = Counting::new(Vec::new(alloc));
    let outcome = kept_run(
        alloc,
        &mut Counting::new(bytes),
        &mut writer,
        &Query::all(),
        Form::Log,
        0,
    );
    (outcome, writer.into_inner())
}

/// What stands in a kept log from each gate on stands for the entries from there on.
#[test]
fn kept(rt: HostRuntime) {
    let cases: [(usize, u64, &[u8]); 3] = [
        (
            0,
            2,
            b"[EA01 2025-01-01 00:40:00 full 0/5]\nTEST\n\n[LB02/1 2025-01-01 04:40:00 cut 1/3]\nA*\n\n",
        ),
        (43, 1, b"[LB02/1 2025-01-01 04:40:00 cut 1/3]\nA*\n\n"),
        (85, 0, b""),
    ];
    for (place, count, wanted) in cases {
        let (outcome, written) = run_over_kept(rt.alloc(), &KEPT_LOG[place..]);
        assert_eq!(rt; outcome, Ok(count), "from {place}");
        expect_text(&rt, "from a gate on", &written, wanted);
    }
    let (outcome, written) = run_over_kept(rt.alloc(), &KEPT_LOG[1..]);
    assert_eq!(rt; outcome, Err(LogFault::BadLog { line: 1 }));
    expect_text(&rt, "from no gate on", &written, b"");
    let (outcome, written) = run_over_kept(rt.alloc(), &KEPT_LOG[..84]);
    assert_eq!(rt; outcome, Err(LogFault::BadLog { line: 8 }));
    expect_text(
        &rt,
        "without the last byte of an entry",
        &written,
        LOG_OF_EA01,
    );
}
