//! Copies that are cut or too long.

use super::super::air::Piece::{Combinations, Part, Text};
use super::super::air::{
    HEADER_OF_EA01, Heard, LINES, MOMENT_OF_EA01, Piece, expect_log, expect_logs, join,
};
use std::alloc::Global;
use std::process::Abort;

/// The combinations of 4,101 letters A, and 4,100 of them as they are printed.
static COMBINATIONS: [u8; 4_101] = [1; 4_101];

static LETTERS: [u8; 4_100] = [b'A'; 4_100];

#[test]
fn cuts_a_copy(rt: HostRuntime) {
    const CUT: Piece = Part(0, 1_323, 490);
    // Three positions of the text are joined with words of the next emission, and are lost.
    const LOG: &[u8] = b"[EA01 2025-01-01 00:40:00 cut 0/5]\nTEST\n\n";
    const JOINED: &[u8] = b"[EA01 2025-01-01 00:40:00 cut 3/8]\nTEST\n***\n\n\
        [EA01 2025-01-01 04:40:00 full 0/5]\nTEST\n\n";
    const NOW: Piece = Text(MOMENT_OF_EA01);
    const NEXT: Piece = Text(b"T 1735706400\n");
    static CASES: [Heard; 2] = [
        ("the file ends behind the text", &[NOW, CUT], LOG),
        (
            "the next emission begins behind the text",
            &[NOW, CUT, NEXT, LINES],
            JOINED,
        ),
    ];
    expect_logs(&rt, rt.alloc(), &CASES);
}

/// The entry with this head and so many letters A, at most 4,100, and what is heard behind it.
fn entry_of_letters(
    rt: &impl Abort,
    alloc: Global,
    head: &[u8],
    count: usize,
    behind: &[u8],
) -> Vec<u8> {
    let letters = LETTERS.get(..count).unwrap_or(b"");
    join(rt, alloc, &[head, letters, b"\n\n", behind])
}

#[test]
fn ends_a_long_copy(rt: HostRuntime) {
    // The header, the letter shift and 4,101 letters A, without an end.
    let endless: [&[u8]; 3] = [&HEADER_OF_EA01, &[29], &COMBINATIONS];
    let pieces = [
        Text(MOMENT_OF_EA01),
        Combinations(&endless, 0, usize::MAX),
        Text(b"T 1735706400\n"),
        LINES,
    ];
    let head = b"[EA01 2025-01-01 00:40:00 long 0/4100]\n";
    let next = b"[EA01 2025-01-01 04:40:00 full 0/5]\nTEST\n\n";
    let log = entry_of_letters(&rt, rt.alloc(), head, 4_100, next);
    expect_log(&rt, rt.alloc(), ("4,101 letters", &pieces, &log));
}

#[test]
fn cuts_a_copy_of_letters(rt: HostRuntime) {
    let endless: [&[u8]; 3] = [&HEADER_OF_EA01, &[29], &COMBINATIONS];
    // The letters A are the positions from 86 on. The second sending of the 2,000th, of position
    // 2,085, is in slot 4,175; the file ends behind it.
    let pieces = [Text(MOMENT_OF_EA01), Combinations(&endless, 0, 7 * 4_176)];
    let head = b"[EA01 2025-01-01 00:40:00 cut 0/2000]\n";
    let log = entry_of_letters(&rt, rt.alloc(), head, 2_000, b"");
    expect_log(&rt, rt.alloc(), ("2,000 letters", &pieces, &log));
}
