//! `encode` and `decode` on files.

use super::{AIR_FILE_OF_A, expect_fault, expect_output, output_of, shown, with_word};
use std::alloc::Global;
use std::process::Abort;

// The empty text: four phasing positions and three end positions, by the code table of M.476.
const AIR_FILE_OF_NOTHING: &[u8] =
    b"B 0110011111100001100111111000011001111110000110011111100011110001111000111100011110001111000\n";

#[test]
fn names_each_fault(rt: HostRuntime) {
    // A call, what it reads, and this profile's line for its fault.
    static ROWS: [(&str, &[u8], &str); 8] = [
        (
            "decode",
            b"B 01100111\n",
            "navtex: 8 elements are no whole words\n",
        ),
        ("decode", b"B 012\n", "navtex: line 1 is not understood\n"),
        ("decode", b"T 0\nB 0", "navtex: line 2 has no end\n"),
        (
            "decode",
            &[b'0'; 515],
            "navtex: line 1 is longer than 514 bytes\n",
        ),
        ("show", b"B 0\n", "navtex: 1 elements are no whole words\n"),
        ("show", b"B 0", "navtex: line 1 has no end\n"),
        ("encode", b"a", "navtex: no signal for the character at 0\n"),
        (
            "encode",
            b"B\na",
            "navtex: no signal for the character at 2\n",
        ),
    ];
    for &(call, input, line) in &ROWS {
        let row = shown(input);
        expect_fault(&rt, rt.alloc(), row, &["navtex", call], input, (2, line));
    }
}

// Expects that `decode` writes this text of an air file.
fn expect_decoded(rt: &impl Abort, alloc: Global, row: &str, air_file: &[u8], text: &[u8]) {
    expect_output(rt, alloc, row, &["navtex", "decode"], air_file, text);
}

#[test]
fn encodes_and_decodes(rt: HostRuntime) {
    for (text, air_file) in [(b"A".as_slice(), AIR_FILE_OF_A), (b"", AIR_FILE_OF_NOTHING)] {
        let row = shown(text);
        expect_output(&rt, rt.alloc(), row, &["navtex", "encode"], text, air_file);
    }
    for text in [
        b"A".as_slice(),
        b"",
        b"ABCDEFGHIJKLM NOPQRSTUVWXYZ\n0123 456789\n-?:().,'=+/",
    ] {
        let encoded = output_of(rt.alloc(), &["navtex", "encode"], text);
        expect_decoded(&rt, rt.alloc(), shown(text), &encoded, text);
    }
    expect_decoded(&rt, rt.alloc(), "nothing", b"", b"");
}

// The place of word 13 in `AIR_FILE_OF_A`, the second sending of A. The last file has B there.
const WORD_13: usize = 93;

// The file with an element of some words inverted.
fn damaged(alloc: Global, kind: &str, word: &str, air_file: &[u8]) -> Vec<u8> {
    output_of(alloc, &["navtex", "damage", kind, word, "1"], air_file)
}

#[test]
fn decodes_damaged_words(rt: HostRuntime) {
    let alloc = rt.alloc();
    let first = damaged(alloc, "dx", "8", AIR_FILE_OF_A);
    let both = damaged(alloc, "all", "13", &first);
    let other = with_word(&rt, alloc, AIR_FILE_OF_A, WORD_13, b"0100111");
    for (row, air_file, text) in [
        ("the first sending is damaged", &first, b"A"),
        ("both sendings are damaged", &both, b"*"),
        ("the second sending is B", &other, b"*"),
    ] {
        expect_decoded(&rt, alloc, row, air_file, text);
    }
}
