//! Emissions that a receiver doesn't hear as they were sent, and of which `listen` writes the same
//! log nevertheless, or nothing.

use super::super::air::Piece::{Combinations, Damaged, Part, Text};
use super::super::air::{
    HEADER_OF_EA01, Heard, LINES, LOG_OF_EA01, MOMENT_OF_EA01, Piece, REST_OF_EA01, expect_logs,
};

#[test]
fn finds_the_emission(rt: HostRuntime) {
    const NOW: Piece = Text(MOMENT_OF_EA01);
    const FOUR_WORDS: Piece = Text(b"B 0110011111100001100111111000\n");
    // The first word is lost, so the roles of the words are swapped; or the receiver hears the last
    // 749 elements alone, from word 96 on.
    const BUT_ONE_WORD: Piece = Part(7, 1_421, 490);
    const LAST_749: Piece = Part(672, 1_421, 490);
    static CASES: [Heard; 5] = [
        (
            "three elements slip in",
            &[NOW, FOUR_WORDS, Text(b"B 000\n"), LINES],
            LOG_OF_EA01,
        ),
        (
            "an element makes a false lock",
            &[NOW, FOUR_WORDS, Text(b"B 1\n"), LINES],
            LOG_OF_EA01,
        ),
        (
            "the roles are swapped",
            &[NOW, FOUR_WORDS, BUT_ONE_WORD],
            LOG_OF_EA01,
        ),
        ("the last 749 elements", &[NOW, LAST_749], LOG_OF_EA01),
        // Z and C come before the letter shift.
        (
            "ZCZCZC EA01",
            &[
                NOW,
                Combinations(&[&[26, 3], &HEADER_OF_EA01, &REST_OF_EA01], 0, usize::MAX),
            ],
            LOG_OF_EA01,
        ),
    ];
    expect_logs(&rt, rt.alloc(), &CASES);
}

#[test]
fn prints_a_damaged_emission(rt: HostRuntime) {
    static CASES: [Heard; 3] = [
        (
            "of each position of the message the first sending is lost",
            &[Damaged(&[["dx", "144", "59"]])],
            LOG_OF_EA01,
        ),
        (
            "the first 96 words are lost too, so the lock comes late",
            &[Damaged(&[["dx", "144", "59"], ["all", "0", "96"]])],
            LOG_OF_EA01,
        ),
        (
            "both sendings of the figure shift are lost, so EA*PQ is read, and no header",
            &[Damaged(&[["all", "160", "1"], ["all", "165", "1"]])],
            b"",
        ),
    ];
    expect_logs(&rt, rt.alloc(), &CASES);
}
