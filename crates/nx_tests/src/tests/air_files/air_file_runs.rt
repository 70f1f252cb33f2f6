//! Runs that encode, decode and show.

use super::super::{expect_text, shown};
use nx_fec::{Counting, RunFault, WriteFault, decode_run, encode_run, show_run, write_out};
use std::alloc::Global;
use std::io::Write;
use std::process::Abort;

/// The file of the text A.
const FILE_OF_A: &[u8] =
    b"B 011001111110000110011111100001100111111000011001111110001110001111100011110001111000111100011100011111000\n";

/// The characters of the code, in both shifts.
const ALL: &[u8] = b"ABCDEFGHIJKLM1234567890NOPQRSTUVWXYZ -?:().,\n'=+/ Z9\n\n";

/// What decoding answers to a file, and writes.
fn decode_answer(alloc: Global, file: &[u8]) -> (Result<u64, RunFault>, Vec<u8>) {
    let mut writer = Counting::new(Vec::new(alloc));
    let outcome = decode_run(alloc, &mut Counting::new(file), &mut writer);
    (outcome, writer.into_inner())
}

/// What encoding answers to a text, and writes.
fn encode_answer(alloc: Global, text: &[u8]) -> (Result<u64, RunFault>, Vec<u8>) {
    let mut writer = Counting::new(Vec::new(alloc));
    let outcome = encode_run(alloc, &mut Counting::new(text), &mut writer);
    (outcome, writer.into_inner())
}

#[test]
fn decode_cases(rt: HostRuntime) {
    static CASES: [(&[u8], Result<u64, RunFault>, &[u8]); 6] = [
        (FILE_OF_A, Ok(1), b"A"),
        (b"", Ok(0), b""),
        (b"B1 0110011\nRJ2 D\n", Ok(0), b""),
        (b"B 01100111\n", Err(RunFault::Ragged { bits: 8 }), b""),
        (b"B 012\n", Err(RunFault::BadLine { line: 1 }), b""),
        (b"T 5\nAS E\nB 0", Err(RunFault::LineCut { line: 3 }), b""),
    ];
    for (file, outcome, text) in &CASES {
        let (answer, written) = decode_answer(rt.alloc(), file);
        assert_eq!(rt; answer, *outcome, "{}", shown(file));
        expect_text(&rt, shown(file), &written, text);
    }
}

#[test]
fn encode_cases(rt: HostRuntime) {
    let (answer, file) = encode_answer(rt.alloc(), b"A");
    assert_eq!(rt; answer, Ok(8));
    expect_text(&rt, "A", &file, FILE_OF_A);
    let (answer, file) = encode_answer(rt.alloc(), b"a");
    assert_eq!(rt; answer, Err(RunFault::NoSuchCharacter { at: 0 }));
    assert_eq!(rt; file.len(), 0);
    let (answer, file) = encode_answer(rt.alloc(), b"");
    assert_eq!(rt; answer, Ok(7));
    assert_eq!(rt; file.len(), 94);
    assert_eq!(rt; decode_answer(rt.alloc(), &file).1.len(), 0);
}

#[test]
fn all_characters(rt: HostRuntime) {
    let (answer, file) = encode_answer(rt.alloc(), ALL);
    assert!(rt; answer.is_ok());
    let (answer, text) = decode_answer(rt.alloc(), &file);
    assert_eq!(rt; answer, Ok(ALL.len() as u64));
    expect_text(&rt, "all characters", &text, ALL);
}

/// Expects that a file is shown in so many lines, of which each that a row names by its place is
/// this.
fn expect_lines(
    rt: &impl Abort,
    alloc: Global,
    file: &[u8],
    positions: u64,
    lines: &[(usize, &[u8])],
) {
    let mut writer = Counting::new(Vec::new(alloc));
    let outcome = show_run(alloc, &mut Counting::new(file), &mut writer);
    assert_eq!(rt; outcome, Ok(positions));
    let text = writer.into_inner();
    for (place, line) in lines {
        let found = text.split(|byte| *byte == b'\n').nth(*place);
        expect_text(rt, shown(line), found.unwrap_or(b"no line"), line);
    }
}

/// The first two lines, the ninth and the last of the text A, and a word of the wrong weight.
#[test]
fn show_a(rt: HostRuntime) {
    static LINES_OF_A: [(usize, &[u8]); 5] = [
        (0, b"0 DX 66 P2"),
        (1, b"1 RX 0F P1"),
        (8, b"8 DX 47 A"),
        (14, b"14 DX 0F P1"),
        (15, b""),
    ];
    expect_lines(&rt, rt.alloc(), FILE_OF_A, 15, &LINES_OF_A);
    static LINES: [(usize, &[u8]); 2] = [(0, b"0 DX 00 wrong"), (1, b"")];
    expect_lines(&rt, rt.alloc(), b"B 0000000\n", 1, &LINES);
}

#[test]
fn full_writers(rt: HostRuntime) {
    let mut space = [0; 10];
    let mut writer = Counting::new(&mut space[..]);
    let outcome = encode_run(rt.alloc(), &mut Counting::new(&b"A"[..]), &mut writer);
    assert_eq!(rt; outcome, Err(RunFault::Write { written: 10 }));
    assert_eq!(rt; writer.failures(), 1);
    assert!(rt; writer.write(b"B").is_err() && writer.flush().is_err());
    assert_eq!(rt; writer.failures(), 3);
    expect_text(&rt, "written", &space, b"B 01100111");
}

#[test]
fn writing_out_to_a_full_writer(rt: HostRuntime) {
    let mut space = [0; 10];
    let outcome = write_out(&mut Counting::new(&mut space[..]), b"0123456789A");
    assert_eq!(rt; outcome, Err(WriteFault { written: 10 }));
    expect_text(&rt, "written", &space, b"0123456789");
}
