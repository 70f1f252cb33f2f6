//! Signals, locks, texts, memories, what is sent and checked; entries as they are printed, a
//! judge's answers, emissions through a receiver, through `listen` and through `locks`, states, a
//! kept log, and a watch.

mod air_files;
mod keeping;
mod locking;
mod logs;
mod reading_logs;
mod receiving;
mod remembering;
mod sending;
mod signals;
mod synchronising;
mod texts;
mod watching;

use nx_envelope::{Finder, FinderStep, Found, Letter};
use nx_fec::{Counting, read_bits};
use nx_station::send;
use std::alloc::Global;
use std::fmt::Display;
use std::process::Abort;
use std::str::from_utf8;

/// 2025-01-01 00:40:00, four hours later, and 66 hours after the first.
const FIRST: u64 = 1_735_692_000;

const SECOND: u64 = 1_735_706_400;

const AGAIN: u64 = FIRST + 237_600;

/// The message EA01 with the one line TEST, and its log at the first moment.
const EA01: &[u8] = b"#A01\nTEST\n;\n";

const LOG_OF_EA01: &[u8] = b"[EA01 2025-01-01 00:40:00 full 0/5]\nTEST\n\n";

/// A kept log at rest with the one entry of EA01.
const KEPT: &[u8] = b"\n[EA01 2025-01-01 00:40:00 full 0/5]\nTEST\n\n ";

/// The first copy of a text, which ends at the end of the text where no marker ends it.
fn first_copy(text: &[u8]) -> Option<Found> {
    let mut finder = Finder::new();
    for byte in text {
        if let FinderStep::Over(found) = finder.push(*byte) {
            return Some(found);
        }
    }
    finder.end()
}

/// The bytes as a text, where they are one.
fn shown(bytes: &[u8]) -> &str {
    from_utf8(bytes).unwrap_or("bytes that are no text")
}

/// Expects these bytes in this row; where others are found, both are shown.
fn expect_text(rt: &impl Abort, row: &str, found: &[u8], wanted: &[u8]) {
    assert!(rt;
        found == wanted,
        "{row}: {:?} in place of {:?}",
        shown(found),
        shown(wanted)
    );
}

/// Expects that a fault is told by this text.
fn expect_told(rt: &impl Abort, alloc: Global, fault: &impl Display, text: &str) {
    let told = fault.to_string(alloc).expect(rt, "memory");
    expect_text(rt, "a fault", told.as_bytes(), text.as_bytes());
}

/// What station E sends of a message file, in its slot that begins at this moment.
fn sent(rt: &impl Abort, alloc: Global, messages: &[u8], moment: u64) -> Vec<u8> {
    let station = Letter::new(b'E').expect(rt, "a station");
    let mut air_file = Counting::new(Vec::new(alloc));
    send(
        alloc,
        &mut Counting::new(messages),
        &mut air_file,
        station,
        moment,
    )
    .expect(rt, "sending");
    air_file.into_inner()
}

/// The elements of a message file's emission.
fn elements_of(rt: &impl Abort, alloc: Global, messages: &[u8]) -> Vec<bool> {
    let air_file = sent(rt, alloc, messages, FIRST);
    read_bits(alloc, &mut Counting::new(air_file.as_slice())).expect(rt, "reading")
}
