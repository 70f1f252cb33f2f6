//! `send`, `slots` and `code`.

mod damaging;
mod reading;

use super::{expect_fault, expect_output, expect_text, output_of, run_on, shown};
use std::alloc::Global;
use std::process::Abort;

// The message EA01 with the one line TEST.
pub const MESSAGE_FILE: &[u8] = b"#A01\nTEST\n;\n";

// Its emission at 1735692000: 72 phasing positions, 27 of the message, three of the end, in 203
// words of the code table of M.476, each position in its DX slot and five slots later.
pub const AIR_FILE_OF_EA01: &[u8] = b"\
    T 1735692000\n\
    B 01100111111000011001111110000110011111100001100111111000011001111110000110011111100001100111111000\
    0110011111100001100111111000011001111110000110011111100001100111111000011001111110000110011111100001\
    1001111110000110011111100001100111111000011001111110000110011111100001100111111000011001111110000110\
    0111111000011001111110000110011111100001100111111000011001111110000110011111100001100111111000011001\
    11111000011001111110000110011111100001100111111000011001111110000110011111100001100111111000\n\
    B 01100111111000011001111110000110011111100001100111111000011001111110000110011111100001100111111000\
    0110011111100001100111111000011001111110000110011111100001100111111000011001111110000110011111100001\
    1001111110000110011111100001100111111000011001111110000110011111100001100111111000011001111110000110\
    0111111000011001111110000110011111100001100111111000011001111110000110011111100001100111111000011001\
    11111000011001111110000110011111100001100111111000011001111110000110011111100001100111111000\n\
    B 01100111111000011001111110000101101111100011000111111000101110001011011100011110001110111001011100\
    0011101110001101101011011100111000100111010110110011010110110101110001011101001101100001111101101000\
    1101101110100101101000111100101110011011011010101011011101001001011100101110110101000111111010010011\
    0110010111100110100011111001101001101110011011001101100110110011010001111100110100110111001101001101\
    1000111111110000011011111100000110111111000\n";

#[test]
fn sends_a_message(rt: HostRuntime) {
    let text = b"ZCZC EA01\nTEST\nNNNN\n\n";
    let decode = ["navtex", "decode"];
    expect_output(
        &rt,
        rt.alloc(),
        "send",
        &SEND,
        MESSAGE_FILE,
        AIR_FILE_OF_EA01,
    );
    expect_output(&rt, rt.alloc(), "decode", &decode, AIR_FILE_OF_EA01, text);
}

#[test]
fn tells_the_next_slot(rt: HostRuntime) {
    // The slots of a station begin at 14,400k + 600i, of E (i is 4) 40 minutes past each fourth
    // hour and of X (i is 23) 3 hours and 50 minutes (this profile).
    const FIRST: &str = "1735692000 2025-01-01 00:40:00\n";
    static ROWS: [(&str, &str, &str); 5] = [
        ("E", "1735689600", FIRST),
        ("E", "1735692000", FIRST),
        ("E", "1735692001", "1735706400 2025-01-01 04:40:00\n"),
        ("X", "1735689600", "1735703400 2025-01-01 03:50:00\n"),
        ("X", "32503679400", "32503679400 2999-12-31 23:50:00\n"),
    ];
    for &(station, moment, line) in &ROWS {
        let arguments = ["navtex", "slots", station, moment];
        expect_output(&rt, rt.alloc(), moment, &arguments, b"", line.as_bytes());
    }
}

pub const SEND: [&str; 4] = ["navtex", "send", "E", "1735689600"];

#[test]
fn names_each_fault_of_a_message_file(rt: HostRuntime) {
    // The lines are those of this profile for each fault.
    static ROWS: [(&[u8], &str); 6] = [
        (b"", "navtex: no messages\n"),
        (b"TEST\n", "navtex: line 1 is not understood\n"),
        (b"#A01\nTEST\n", "navtex: message at line 1 is not ended\n"),
        (b"#A01\nTEST\n;", "navtex: line 3 has no end\n"),
        (
            b"#A01\na\n;\n",
            "navtex: message at line 1: line 1 has no signal at 0\n",
        ),
        (
            b"#A01\n;\n#A02\nAB NNNN\n;\n",
            "navtex: message at line 3: line 1 has a reserved word\n",
        ),
    ];
    for &(message_file, line) in &ROWS {
        expect_fault(&rt, rt.alloc(), line, &SEND, message_file, (2, line));
    }
}

#[test]
fn names_each_fault_of_a_station(rt: HostRuntime) {
    // The lines and statuses are those of this profile for each fault.
    const NO_SLOT: &str = "navtex: no slot\n";
    const NO_LETTER: &str = "navtex: station must be one letter A to Z\n";
    static ROWS: [(&str, &str, &str, u8, &str); 7] = [
        ("send", "Y", "1735689600", 2, NO_SLOT),
        ("send", "X", "32503679401", 2, NO_SLOT),
        ("slots", "Y", "0", 2, NO_SLOT),
        ("slots", "X", "32503679401", 2, NO_SLOT),
        ("send", "e", "0", 64, NO_LETTER),
        ("slots", "EA", "0", 64, NO_LETTER),
        ("slots", "", "0", 64, NO_LETTER),
    ];
    for &(command, station, moment, status, line) in &ROWS {
        let arguments = ["navtex", command, station, moment];
        expect_fault(
            &rt,
            rt.alloc(),
            station,
            &arguments,
            MESSAGE_FILE,
            (status, line),
        );
    }
}

// A message file of one message: so many lines of 69 letters A, this line, and so many empty lines.
fn long_file(
    rt: &impl Abort,
    alloc: Global,
    full_lines: usize,
    line: &[u8],
    empty_lines: usize,
) -> Vec<u8> {
    let mut file = b"#A01\n".to_vec(alloc).expect(rt, "memory");
    for _ in 0..full_lines {
        file.extend_from_slice(&[b'A'; 69]).expect(rt, "memory");
        file.push(b'\n').expect(rt, "memory");
    }
    file.extend_from_slice(line).expect(rt, "memory");
    for _ in 0..=empty_lines {
        file.push(b'\n').expect(rt, "memory");
    }
    file.extend_from_slice(b";\n").expect(rt, "memory");
    file
}

#[test]
fn fills_a_slot(rt: HostRuntime) {
    // A message alone costs 72 positions of phasing, 13 of its head, 7 of its end and three of the
    // end of the emission. It costs one more for the letter shift before the first A, 71 for a line
    // of 69 A and 2 for an empty line. With 58 and 36 of these it costs 4,286, the most that a slot
    // takes. The second has a 1 with its figure shift in place of two A, and so a letter shift
    // before its end.
    let mut with_1 = [b'A'; 68];
    with_1[67] = b'1';
    let rows: [(usize, &[u8], usize, &str); 4] = [
        (58, b"", 35, ""),
        (
            57,
            &with_1,
            36,
            "navtex: 4287 positions are too many for a slot\n",
        ),
        (58, b"", 36, "navtex: message at line 1: text is too long\n"),
        (
            0,
            &[b'A'; 70],
            0,
            "navtex: message at line 1: line 1 is too long\n",
        ),
    ];
    for (full_lines, line, empty_lines, fault) in rows {
        let file = long_file(&rt, rt.alloc(), full_lines, line, empty_lines);
        let ended = run_on(rt.alloc(), &SEND, &file);
        let status = if fault.is_empty() { 0 } else { 2 };
        assert_eq!(rt; shown(&ended.faults), fault, "{full_lines} full lines");
        assert_eq!(rt; ended.status, status, "{full_lines} full lines");
        assert_eq!(rt;
            ended.output.is_empty(),
            status == 2,
            "{full_lines} full lines"
        );
    }
}

#[test]
fn prints_the_table(rt: HostRuntime) {
    let table = output_of(rt.alloc(), &["navtex", "code"], b"");
    // By the code table of M.476, with the numbers and names of this profile.
    static LINES: [(usize, &[u8]); 4] = [
        (0, b"47 BBBYYYB A -"),
        (3, b"53 BBYYBYB D none"),
        (34, b"66 YBBYYBB P2 P2"),
        (35, b""),
    ];
    for &(index, line) in &LINES {
        let found = table.split(|byte| *byte == b'\n').nth(index);
        expect_text(&rt, shown(line), found.unwrap_or(b"no line"), line);
    }
}
