//! `show` and `check`.

use super::super::air::join;
use super::super::{AIR_FILE_OF_A, expect_fault, expect_output, output_of, shown, with_word};
use super::{AIR_FILE_OF_EA01, MESSAGE_FILE, SEND};

// The words of an emission of A in their slots (M.625, mode B), with their numbers and names by the
// code table of M.476.
const WORDS_OF_A: &[u8] = b"0 DX 66 P2\n1 RX 0F P1\n2 DX 66 P2\n3 RX 0F P1\n4 DX 66 P2\n\
5 RX 0F P1\n6 DX 66 P2\n7 RX 0F P1\n8 DX 47 A\n9 RX 0F P1\n10 DX 0F P1\n11 RX 0F P1\n\
12 DX 0F P1\n13 RX 47 A\n14 DX 0F P1\n";

#[test]
fn shows_words(rt: HostRuntime) {
    static CASES: [(&[u8], &[u8]); 2] = [
        (AIR_FILE_OF_A, WORDS_OF_A),
        (b"B 0110001\n", b"0 DX 46 wrong\n"),
    ];
    for &(air_file, lines) in &CASES {
        let row = shown(air_file);
        expect_output(&rt, rt.alloc(), row, &["navtex", "show"], air_file, lines);
    }
}

#[test]
fn checks_what_was_sent(rt: HostRuntime) {
    let alloc = rt.alloc();
    let sent = output_of(alloc, &SEND, MESSAGE_FILE);
    let checked = b"station E\n#A01\nTEST\n;\n";
    expect_output(&rt, alloc, "sent", &["navtex", "check"], &sent, checked);
}

// The place of word 150 in the file of an emission: behind the line of the moment and two lines of
// 490 elements, the elements 70 to 76 of the third. One row puts A there.
const WORD_150: usize = 1_071;

#[test]
fn refuses_what_is_not_sent(rt: HostRuntime) {
    let alloc = rt.alloc();
    let arguments = ["navtex", "damage", "all", "150", "1"];
    let wrong = output_of(alloc, &arguments, AIR_FILE_OF_EA01);
    let unpaired = with_word(&rt, alloc, AIR_FILE_OF_EA01, WORD_150, b"1110001");
    let longer = join(&rt, alloc, &[AIR_FILE_OF_EA01, b"B 1111000\n"]);
    // The first of the faults of strict reading, in this profile's order, and its line.
    let other = "navtex: not an emission of this profile\n";
    let cases: [(&[u8], &str); 6] = [
        (&wrong, "navtex: word 150 has the wrong weight\n"),
        (&unpaired, "navtex: position 75 is unpaired\n"),
        (&longer, other),
        (b"", other),
        (b"B 0\n", "navtex: 1 elements are no whole words\n"),
        (b"B 2\n", "navtex: line 1 is not understood\n"),
    ];
    for (air_file, line) in cases {
        let row = shown(air_file);
        expect_fault(&rt, alloc, row, &["navtex", "check"], air_file, (2, line));
    }
}
