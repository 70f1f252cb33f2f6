//! Worked examples through `locks`: what it writes and answers, and its faults.

mod emissions;

use super::{expect_text, shown as text_of};
use emissions::{AT_FIRST, EA01, EB02, after_pattern, air_file, emission, two_channels};
use nx_envelope::Letter;
use nx_fec::Counting;
use nx_locks::{LocksReport, locks};
use nx_receiver::ListenFault;
use std::alloc::Global;
use std::io;
use std::io::{Error, ErrorKind, Read};
use std::process::Abort;

/// The report of EA01 with the one line TEST, sent at 2025-01-01 00:40:00.
const EA01_REPORT: &[u8] = b"[2025-01-01 00:40:00 lock 28]\nZCZC EA01\nTEST\nNNNN\n\n\
[2025-01-01 00:40:00 open words 199 wrong 0 copies 1]\n\n[elements 1421 locks 1 copies 1]\n";

/// A reader that gives one byte for each call, and then fails or ends.
#[derive(Drop)]
struct Slow<'a> {
    rest: &'a [u8],
    fails: bool,
}

impl Read for Slow<'_> {
    fn read(&mut self, buf: &mut [u8]) -> io::Result<usize> {
        if self.rest.is_empty() && self.fails {
            return Err(Error::from(ErrorKind::Other));
        }
        let count = self.rest.len().min(1).min(buf.len());
        let (given, rest) = self.rest.split_at(count);
        buf[..count].copy_from_slice(given);
        self.rest = rest;
        Ok(count)
    }
}

/// What showing the locks of a file answers, and writes.
fn shown<R: Read + Drop>(alloc: Global, reader: R) -> (Result<LocksReport, ListenFault>, Vec<u8>) {
    let mut writer = Counting::new(Vec::new(alloc));
    let outcome = locks(&mut Counting::new(reader), &mut writer);
    (outcome, writer.into_inner())
}

/// The report of elements that are all heard at the first moment.
fn report_of(rt: &impl Abort, alloc: Global, bits: &[bool]) -> Vec<u8> {
    let file = air_file(rt, alloc, AT_FIRST, bits);
    let (outcome, report) = shown(alloc, file.as_slice());
    outcome.expect(rt, "fault");
    report
}

#[test]
fn locks_of_ea01(rt: HostRuntime) {
    let file = air_file(
        &rt,
        rt.alloc(),
        AT_FIRST,
        &emission(&rt, rt.alloc(), &[EA01]),
    );
    let counts = LocksReport {
        lines: 4,
        elements: 1421,
        locks: 1,
        copies: 1,
    };
    let (outcome, report) = shown(rt.alloc(), file.as_slice());
    expect_text(&rt, "EA01", &report, EA01_REPORT);
    assert_eq!(rt; outcome, Ok(counts));
    let slow = Slow {
        rest: &file,
        fails: false,
    };
    let (outcome, report) = shown(rt.alloc(), slow);
    expect_text(&rt, "EA01", &report, EA01_REPORT);
    assert_eq!(rt; outcome, Ok(counts));
}

#[test]
fn locks_of_channel_0(rt: HostRuntime) {
    let file = two_channels(
        &rt,
        rt.alloc(),
        AT_FIRST,
        &emission(&rt, rt.alloc(), &[EA01]),
    );
    let counts = LocksReport {
        lines: 7,
        elements: 1421,
        locks: 1,
        copies: 1,
    };
    let (outcome, report) = shown(rt.alloc(), file.as_slice());
    expect_text(&rt, "EA01", &report, EA01_REPORT);
    assert_eq!(rt; outcome, Ok(counts));
}

#[test]
fn locks_that_end(rt: HostRuntime) {
    let x = emission(&rt, rt.alloc(), &[EA01]);
    // The roles are swapped after a pattern.
    let (_, rest) = x.split_at_checked(7).expect(&rt, "elements");
    let report = report_of(&rt, rt.alloc(), &after_pattern(&rt, rt.alloc(), rest));
    expect_text(
        &rt,
        "report",
        &report,
        b"[2025-01-01 00:40:00 lock 28]\n\
[2025-01-01 00:40:00 ended words 6 wrong 0 copies 0]\n\n\
[2025-01-01 00:40:00 lock 77]\nZCZC EA01\nTEST\nNNNN\n\n\
[2025-01-01 00:40:00 open words 195 wrong 0 copies 1]\n\n\
[elements 1442 locks 2 copies 1]\n",
    );
}

#[test]
fn locks_of_two_messages(rt: HostRuntime) {
    let two = emission(&rt, rt.alloc(), &[EA01, EB02]);
    let report = report_of(&rt, rt.alloc(), &two);
    expect_text(
        &rt,
        "report",
        &report,
        b"[2025-01-01 00:40:00 lock 28]\nZCZC EA01\nTEST\nNNNN\n\nZCZC EB02\nNNNN\n\n\
[2025-01-01 00:40:00 open words 313 wrong 0 copies 2]\n\n\
[elements 2219 locks 1 copies 2]\n",
    );
}

#[test]
fn locks_of_nothing(rt: HostRuntime) {
    let counts = LocksReport {
        lines: 0,
        elements: 0,
        locks: 0,
        copies: 0,
    };
    let report = b"[elements 0 locks 0 copies 0]\n";
    let (outcome, written) = shown(rt.alloc(), b"".as_slice());
    assert_eq!(rt; outcome, Ok(counts));
    expect_text(&rt, "nothing", &written, report);
}

#[test]
fn locks_and_faults(rt: HostRuntime) {
    let mut file = air_file(
        &rt,
        rt.alloc(),
        AT_FIRST,
        &emission(&rt, rt.alloc(), &[EA01]),
    );
    file.extend_from_slice(b"RJ L\n").expect(&rt, "memory");
    let subject = Letter::new(b'L').expect(&rt, "subject");
    let begun = b"[2025-01-01 00:40:00 lock 28]\nZCZC EA01\nTEST\nNNNN\n\n";
    let no_moment = ListenFault::NoMoment { line: 1 };
    let cases: [(&[u8], ListenFault, &[u8]); 4] = [
        // A fault in the text of a lock: what the lines before it show stands, and nothing is
        // closed.
        (&file, ListenFault::Vital { line: 5, subject }, begun),
        (b"B 0\n", no_moment, b""),
        // Faults are those of all channels.
        (b"B1 1\n", no_moment, b""),
        (b"RJ2 L\n", ListenFault::Vital { line: 1, subject }, b""),
    ];
    for (file, fault, written) in cases {
        let (outcome, report) = shown(rt.alloc(), file);
        assert_eq!(rt; outcome, Err(fault), "{}", text_of(file));
        expect_text(&rt, text_of(file), &report, written);
    }
}

#[test]
fn locks_to_a_full_writer(rt: HostRuntime) {
    let elements = emission(&rt, rt.alloc(), &[EA01]);
    let file = air_file(&rt, rt.alloc(), AT_FIRST, &elements);
    let mut space = [0; 10];
    let mut writer = Counting::new(&mut space[..]);
    let outcome = locks(&mut Counting::new(file.as_slice()), &mut writer);
    assert_eq!(rt; outcome, Err(ListenFault::Write { written: 10 }));
    expect_text(&rt, "written", &space, b"[2025-01-0");
}
