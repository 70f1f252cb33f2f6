//! Worked examples, and each call once on its way to an answer.

mod copies;

use super::{expect_text, expect_told, shown};
use nx_envelope::{
    Finder, FoundHead, How, Identity, LAST_MOMENT, Letter, MAX_LINE, Message, MessageFault, civil,
    laws,
};
use std::alloc::{AllocError, Global};
use std::process::Abort;

/// So many lines of 69 A, and then so many empty ones.
fn lines_of(rt: &impl Abort, alloc: Global, full: usize, empty: usize) -> Vec<&'static [u8]> {
    static LINE: [u8; MAX_LINE] = [b'A'; MAX_LINE];
    let mut lines: Vec<&'static [u8]> = Vec::new(alloc);
    for _ in 0..full {
        lines.push(&LINE).expect(rt, "memory");
    }
    for _ in 0..empty {
        lines.push(b"").expect(rt, "memory");
    }
    lines
}

#[test]
fn plain_bytes_are_heard_at_once(rt: HostRuntime) {
    let mut one = Finder::new();
    let mut other = Finder::new();
    for byte in *b"ZCZC EA01\nA" {
        one.hear(byte);
        other.hear(byte);
    }
    assert!(rt; one.hear_plain(*b"LL N", 4));
    for byte in *b"LL N" {
        other.hear(byte);
    }
    // Here NNNN would end, so nothing is taken in.
    assert!(rt; !one.hear_plain(*b"NNN ", 4));
    for byte in *b"NNN" {
        assert_eq!(rt; one.hear(byte), other.hear(byte), "{byte}");
    }
    assert_eq!(rt; one.ready_head(), other.ready_head());
    expect_text(&rt, "heard", one.text(), b"ALL ");
}

#[test]
fn plain_bytes_begin_a_text_at_once(rt: HostRuntime) {
    let mut finder = Finder::new();
    for byte in *b"ZCZC EA01" {
        finder.hear(byte);
    }
    // A newline directly behind the header is no part of the text, so it isn't taken in.
    assert!(rt; !finder.hear_plain(*b"\nALL", 4));
    assert!(rt; finder.hear_plain(*b"ALL\n", 4));
    for byte in *b"NNNN" {
        finder.hear(byte);
    }
    expect_text(&rt, "begun", finder.text(), b"ALL\n");
}

#[test]
fn plain_bytes_between_copies_are_passed_at_once(rt: HostRuntime) {
    let mut finder = Finder::new();
    assert!(rt; finder.hear_plain(*b"ALL ", 4));
    // Here a header begins, and none of these bytes completes it.
    assert!(rt; finder.hear_plain(*b"ZZCZ", 3));
    assert!(rt; finder.hear_plain(*b"ZC E", 4));
    assert!(rt; finder.hear_plain(*b"A0  ", 2));
    // Here the first byte completes it, so nothing is taken in.
    assert!(rt; !finder.hear_plain(*b"1\nNN", 4));
    for byte in *b"1\nNNNN" {
        finder.hear(byte);
    }
    assert!(rt; finder.take_found().is_some());
    assert!(rt; finder.hear_plain(*b"ALL ", 4));
}

#[test]
fn copies_are_told_in_place(rt: HostRuntime) {
    let identity = Identity::new(b'E', b'A', 1).expect(&rt, "identity");
    let mut finder = Finder::new();
    for byte in *b"ZCZC EA01\nA*NNNN" {
        finder.hear(byte);
    }
    let full = FoundHead {
        identity,
        errors: 1,
        how: How::Full,
    };
    assert_eq!(rt; finder.ready_head(), Some(full));
    expect_text(&rt, "full", finder.text(), b"A*");
    for byte in *b"ZCZC EA01\nNN" {
        finder.hear(byte);
    }
    assert!(rt; finder.ready_head().is_none());
    finder.close();
    let cut = FoundHead {
        identity,
        errors: 0,
        how: How::Cut,
    };
    assert_eq!(rt; finder.ready_head(), Some(cut));
    expect_text(&rt, "cut", finder.text(), b"NN");
}

#[test]
fn messages_are_made(rt: HostRuntime) {
    let identity = Identity::new(b'E', b'A', 1).expect(&rt, "identity");
    let lines = lines_of(&rt, rt.alloc(), 58, 36);
    let message = Message::new(rt.alloc(), identity, lines.as_slice()).expect(&rt, "a message");
    assert_eq!(rt; message.identity(), identity);
    assert_eq!(rt; message.line_count(), 94);
    assert_eq!(rt; message.line(57).map_or(0, |line| line.len()), 69);
    assert_eq!(rt; message.line(58).map_or(1, |line| line.len()), 0);
    assert!(rt; message.line(94).is_none());
    let lines = lines_of(&rt, rt.alloc(), 58, 37);
    let refused = Message::new(rt.alloc(), identity, lines.as_slice());
    assert_eq!(rt; refused.err(), Some(MessageFault::LongText));
}

#[test]
fn lines_are_refused(rt: HostRuntime) {
    let identity = Identity::new(b'E', b'A', 1).expect(&rt, "identity");
    static CASES: [(&[u8], &str); 5] = [
        (&[b'A'; 70], "line 2 is too long"),
        (b"a", "line 2 has no signal at 0"),
        (b"AB NNNN\n", "line 2 has no signal at 7"),
        (b"AB NNNN", "line 2 has a reserved word"),
        (b"ZCZC", "line 2 has a reserved word"),
    ];
    for (line, text) in CASES.iter() {
        let refused = Message::new(rt.alloc(), identity, &[b"TEST", *line]);
        let fault = refused.err().expect(&rt, "a fault");
        expect_told(&rt, rt.alloc(), &fault, text);
    }
}

#[test]
fn texts_of_faults(rt: HostRuntime) {
    static CASES: [(MessageFault, &str); 2] = [
        (MessageFault::LongText, "text is too long"),
        (MessageFault::Memory(AllocError), "out of memory"),
    ];
    for (fault, text) in &CASES {
        expect_told(&rt, rt.alloc(), fault, text);
    }
}

#[test]
fn moments_are_printed(rt: HostRuntime) {
    static CASES: [(u64, &[u8]); 5] = [
        (0, b"1970-01-01 00:00:00"),
        (951_782_400, b"2000-02-29 00:00:00"),
        (1_735_692_000, b"2025-01-01 00:40:00"),
        (4_107_542_399, b"2100-02-28 23:59:59"),
        (LAST_MOMENT, b"2999-12-31 23:59:59"),
    ];
    for (moment, text) in CASES.iter() {
        let bytes = civil(*moment).expect(&rt, "a moment");
        expect_text(&rt, shown(text), &bytes, text);
    }
    assert!(rt; civil(32_503_680_000).is_none());
}

#[test]
fn identities_are_in_range(rt: HostRuntime) {
    assert!(rt; Identity::new(b'E', b'A', 100).is_none());
    assert!(rt; Identity::new(b'e', b'A', 1).is_none());
    assert!(rt; Letter::new(b'[').is_none());
    let identity = Identity::new(b'E', b'A', 1).expect(&rt, "EA01");
    expect_text(&rt, "EA01", &identity.bytes(), b"EA01");
}

#[test]
fn laws_can_be_called() {
    laws::header_is_spelled();
    laws::headers_stand_anywhere();
    laws::headers_rise();
    laws::markers_are_spelled();
    laws::copies_end_at_the_least_marker();
    laws::copies_are_handed_out();
    laws::copies_come_in_order();
    laws::same_identity_is_equality();
    laws::every_moment_has_a_text();
    laws::a_moment_has_one_text();
}
