//! `damage`.

use super::super::devices::{Sink, Source};
use super::super::{
    AIR_FILE_OF_A, expect_end, expect_fault, expect_output, expect_text, output_of, run_on,
};
use super::AIR_FILE_OF_EA01;
use std::alloc::Global;

// 59 words from slot 144 on are those of slots 144 to 202, of which 30 are even.
const DAMAGE_EA01: [&str; 5] = ["navtex", "damage", "dx", "144", "59"];

// At how many places the files differ, which are equally long.
fn differing(one: &[u8], other: &[u8]) -> Option<usize> {
    if one.len() != other.len() {
        return None;
    }
    Some(one.iter().zip(other).filter(|(a, b)| a != b).count())
}

// How many words of the file have the wrong weight.
fn count_wrong(alloc: Global, air_file: &[u8]) -> usize {
    let shown = output_of(alloc, &["navtex", "show"], air_file);
    let lines = shown.split(|byte| *byte == b'\n');
    lines.filter(|line| line.ends_with(b" wrong")).count()
}

#[test]
fn inverts_elements(rt: HostRuntime) {
    let alloc = rt.alloc();
    let damaged = output_of(alloc, &DAMAGE_EA01, AIR_FILE_OF_EA01);
    expect_output(&rt, alloc, "once", &DAMAGE_EA01, AIR_FILE_OF_EA01, &damaged);
    assert_eq!(rt; count_wrong(alloc, &damaged), 30);
    expect_output(
        &rt,
        alloc,
        "twice",
        &DAMAGE_EA01,
        &damaged,
        AIR_FILE_OF_EA01,
    );
}

#[test]
fn inverts_one_element_of_each_word(rt: HostRuntime) {
    // What is damaged, and how many words that are: of 59 words from slot 144 on 30 are DX words,
    // and of 57 from slot 145 on 29 are RX words.
    static ROWS: [([&str; 3], usize); 3] = [
        (["dx", "144", "59"], 30),
        (["rx", "145", "57"], 29),
        (["all", "0", "96"], 96),
    ];
    for &([kind, from, count], words) in &ROWS {
        let call = ["navtex", "damage", kind, from, count];
        let damaged = output_of(rt.alloc(), &call, AIR_FILE_OF_EA01);
        assert_eq!(rt;
            differing(&damaged, AIR_FILE_OF_EA01),
            Some(words),
            "{kind}"
        );
    }
}

// Words, of which the last may be cut, over lines of all kinds.
const LINES_OF_ALL_KINDS: &[u8] = b"T 5\nB 00000\nRS E\nB 000000000000\nAJ C\n";

#[test]
fn copies_all_else(rt: HostRuntime) {
    // What is damaged, and what is written of these lines.
    static ROWS: [([&str; 3], &[u8]); 5] = [
        (
            ["dx", "0", "4294967295"],
            b"T 5\nB 10000\nRS E\nB 000000000100\nAJ C\n",
        ),
        (
            ["rx", "0", "4294967295"],
            b"T 5\nB 00000\nRS E\nB 001000000000\nAJ C\n",
        ),
        (
            ["all", "1", "1"],
            b"T 5\nB 00000\nRS E\nB 001000000000\nAJ C\n",
        ),
        (
            ["all", "2", "1"],
            b"T 5\nB 00000\nRS E\nB 000000000100\nAJ C\n",
        ),
        (["all", "0", "0"], LINES_OF_ALL_KINDS),
    ];
    for &([kind, from, count], output) in &ROWS {
        let arguments = ["navtex", "damage", kind, from, count];
        expect_output(
            &rt,
            rt.alloc(),
            kind,
            &arguments,
            LINES_OF_ALL_KINDS,
            output,
        );
    }
}

// The arguments of a call that inverts the first element of the file.
const DAMAGE_FIRST: [&str; 5] = ["navtex", "damage", "all", "0", "1"];

#[test]
fn writes_whole_lines_before_a_fault(rt: HostRuntime) {
    let mut long_line = [b'0'; 519];
    long_line[..4].copy_from_slice(b"B 0\n");
    let cases: [(&[u8], &[u8], &str); 3] = [
        (
            b"T 0\nB 0\nB 2\nB 0\n",
            b"T 0\nB 1\n",
            "navtex: line 3 is not understood\n",
        ),
        (b"B 0\nT 5", b"B 1\n", "navtex: line 2 has no end\n"),
        (
            &long_line,
            b"B 1\n",
            "navtex: line 2 is longer than 514 bytes\n",
        ),
    ];
    for (input, output, line) in cases {
        let ended = run_on(rt.alloc(), &DAMAGE_FIRST, input);
        ended.expect(&rt, line, 2, output, line.as_bytes());
    }
}

// A reader that gives a byte at each call, and fails at its seventh, behind one whole line.
#[test]
fn stops_at_a_failed_read(rt: HostRuntime) {
    let mut source = Source::of(b"B 0\nB 1\n");
    source.piece = 1;
    source.fails_at = Some(7);
    let mut output = Sink::new(Vec::new(rt.alloc()));
    let end = (1, "navtex: read failed\n");
    expect_end(
        &rt,
        rt.alloc(),
        "read",
        &DAMAGE_FIRST,
        &mut source,
        &mut output,
        end,
    );
    assert_eq!(rt; source.calls, 7);
    expect_text(&rt, "written", &output.taken, b"B 1\n");
}

// A writer that takes a byte at each call, and fails at its third.
#[test]
fn stops_at_a_failed_write(rt: HostRuntime) {
    let mut source = Source::of(b"B 0\nB 1\n");
    let mut output = Sink::new(Vec::new(rt.alloc()));
    output.piece = 1;
    output.fails_at = Some(3);
    let end = (1, "navtex: write failed after 2 bytes\n");
    expect_end(
        &rt,
        rt.alloc(),
        "write",
        &DAMAGE_FIRST,
        &mut source,
        &mut output,
        end,
    );
    assert_eq!(rt; source.calls, 1);
    expect_text(&rt, "written", &output.taken, b"B ");
}

#[test]
fn refuses_other_kinds(rt: HostRuntime) {
    let alloc = rt.alloc();
    let line = "navtex: kind must be dx, rx or all\n";
    for kind in ["DX", "tx", ""] {
        let arguments = ["navtex", "damage", kind, "0", "1"];
        expect_fault(&rt, alloc, kind, &arguments, AIR_FILE_OF_A, (64, line));
    }
}
