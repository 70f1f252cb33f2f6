//! Air files that are put together, and what `listen` makes of them.

ghost use Rattle.std.specs.Prelude.{◌<◌};

use super::station::AIR_FILE_OF_EA01;
use super::{expect_fault, expect_output, output_of, shown};
use nx_code::Comb;
use nx_fec::{Position, to_bits};
use std::alloc::Global;
use std::ops::Range;
use std::process::Abort;

/// The moment of the emission of EA01.
pub const MOMENT_OF_EA01: &[u8] = b"T 1735692000\n";

/// The log of EA01 with the one line TEST, sent at 2025-01-01 00:40:00.
pub const LOG_OF_EA01: &[u8] = b"[EA01 2025-01-01 00:40:00 full 0/5]\nTEST\n\n";

/// The combinations of the letter shift, ZCZC, a space, EA, the figure shift, 01 and a new line, by
/// the code table of M.476.
pub const HEADER_OF_EA01: [u8; 13] = [29, 26, 3, 26, 3, 31, 5, 1, 30, 16, 17, 27, 28];

/// The combinations of the letter shift, TEST, a new line, NNNN and what follows it.
pub const REST_OF_EA01: [u8; 14] = [29, 20, 5, 19, 20, 27, 28, 14, 14, 14, 14, 27, 28, 28];

/// The pieces in a row.
pub fn join(rt: &impl Abort, alloc: Global, pieces: &[&[u8]]) -> Vec<u8> {
    let mut whole = Vec::new(alloc);
    for piece in pieces {
        whole.extend_from_slice(piece).expect(rt, "memory");
    }
    whole
}

/// The elements of a file, a digit for each.
fn elements_of(rt: &impl Abort, alloc: Global, air_file: &[u8]) -> Vec<u8> {
    let mut elements = Vec::new(alloc);
    for line in air_file.split(|byte| *byte == b'\n') {
        if let Some(digits) = line.strip_prefix(b"B ") {
            elements.extend_from_slice(digits).expect(rt, "memory");
        }
    }
    elements
}

/// Lines of so many elements each.
fn lines_of(rt: &impl Abort, alloc: Global, elements: &[u8], length: usize) -> Vec<u8>
    requires { 0 < length }
{
    let mut lines = Vec::new(alloc);
    for digits in elements.chunks(length) {
        lines.extend_from_slice(b"B ").expect(rt, "memory");
        lines.extend_from_slice(digits).expect(rt, "memory");
        lines.push(b'\n').expect(rt, "memory");
    }
    lines
}

/// The elements of 72 phasing positions, these combinations and three end positions.
fn elements_sent(rt: &impl Abort, alloc: Global, combinations: &[u8]) -> Vec<u8> {
    let mut positions = vec![in alloc; Position::Phasing; 72].expect(rt, "memory");
    for number in combinations {
        let combination = Comb::new(*number).expect(rt, "a combination");
        positions
            .push(Position::Traffic(combination))
            .expect(rt, "memory");
    }
    positions
        .extend_from_slice(&[Position::End; 3])
        .expect(rt, "memory");
    let mut elements = Vec::new(alloc);
    for bit in to_bits(alloc, &positions).expect(rt, "memory") {
        elements
            .push(if bit { b'1' } else { b'0' })
            .expect(rt, "memory");
    }
    elements
}

/// What `send` writes of a message file of station E from this moment on.
fn send_from(alloc: Global, moment: &str, message_file: &[u8]) -> Vec<u8> {
    output_of(alloc, &["navtex", "send", "E", moment], message_file)
}

/// What `damage` writes of a file.
pub fn damage_in(alloc: Global, kind: &str, from: &str, count: &str, air_file: &[u8]) -> Vec<u8> {
    output_of(alloc, &["navtex", "damage", kind, from, count], air_file)
}

/// What `damage` is told: the kind, the first word, and how many there are.
pub type Damage<'a> = [&'a str; 3];

/// A piece of a file, told by how it is made.
#[derive(Clone, Copy)]
pub enum Piece<'a> {
    /// A text as it stands.
    Text(&'a [u8]),
    /// The emission of EA01, damaged so in turn.
    Damaged(&'a [Damage<'a>]),
    /// What `send` writes of a message file of station E from this moment on, damaged so in turn.
    Sent(&'a str, &'a [u8], &'a [Damage<'a>]),
    /// The elements of EA01 from one on to before another, of its 1,421, in lines of so many.
    Part(usize, usize, usize),
    /// The same in lines of 490, each named as one of a channel by this digit.
    Named(u8, usize, usize),
    /// Each of the lines of EA01 on channel 0 and, behind it, on channel 1, at its moment; or the
    /// other way round, where so told.
    InTurn(bool),
    /// The elements that these combinations in a row are sent as, from one on to before another, in
    /// lines of 490.
    Combinations(&'a [&'a [u8]], usize, usize),
}

/// The lines of elements of EA01, without its moment.
pub const LINES: Piece<'static> = Piece::Part(0, 1_421, 490);

impl Piece<'_> {
    /// The piece itself.
    fn made(&self, rt: &impl Abort, alloc: Global) -> Vec<u8> {
        match *self {
            Piece::Text(text) => text.to_vec(alloc).expect(rt, "memory"),
            Piece::Damaged(damages) => damaged(rt, alloc, AIR_FILE_OF_EA01, damages),
            Piece::Sent(moment, message_file, damages) => {
                damaged(rt, alloc, &send_from(alloc, moment, message_file), damages)
            }
            Piece::Part(from, to, length) => part_of_ea01(rt, alloc, from..to, length),
            Piece::Named(digit, from, to) => {
                named(rt, alloc, digit, &part_of_ea01(rt, alloc, from..to, 490))
            }
            Piece::InTurn(is_1_first) => {
                let lines = lines_of_ea01(rt);
                alternating(rt, alloc, lines, lines, is_1_first)
            }
            Piece::Combinations(pieces, from, to) => {
                let elements = elements_sent(rt, alloc, &join(rt, alloc, pieces));
                part_of(rt, alloc, &elements, from..to, 490)
            }
        }
    }
}

/// The pieces in a row.
pub fn made_of(rt: &impl Abort, alloc: Global, pieces: &[Piece]) -> Vec<u8> {
    let mut whole = Vec::new(alloc);
    for piece in pieces {
        whole
            .extend_from_slice(&piece.made(rt, alloc))
            .expect(rt, "memory");
    }
    whole
}

/// The lines of elements of the emission of EA01, without its moment.
pub fn lines_of_ea01(rt: &impl Abort) -> &'static [u8] {
    AIR_FILE_OF_EA01
        .strip_prefix(MOMENT_OF_EA01)
        .expect(rt, "a moment")
}

/// What is left of a file behind each damage in turn.
fn damaged(rt: &impl Abort, alloc: Global, air_file: &[u8], damages: &[Damage]) -> Vec<u8> {
    let mut left = air_file.to_vec(alloc).expect(rt, "memory");
    for [kind, from, count] in damages {
        left = damage_in(alloc, kind, from, count, &left);
    }
    left
}

/// These lines of elements, each named as one of a channel by this digit.
fn named(rt: &impl Abort, alloc: Global, digit: u8, lines: &[u8]) -> Vec<u8> {
    let mut named = Vec::new(alloc);
    for line in lines.split(|byte| *byte == b'\n') {
        if let Some(rest) = line.strip_prefix(b"B") {
            named.extend_from_slice(&[b'B', digit]).expect(rt, "memory");
            named.extend_from_slice(rest).expect(rt, "memory");
            named.push(b'\n').expect(rt, "memory");
        }
    }
    named
}

/// The moment of EA01, and each of these lines of channel 0 with one of those that are named as
/// lines of channel 1: behind it, or before it where these come first.
pub fn alternating(
    rt: &impl Abort,
    alloc: Global,
    on_0: &[u8],
    on_1: &[u8],
    is_1_first: bool,
) -> Vec<u8> {
    let mut air_file = MOMENT_OF_EA01.to_vec(alloc).expect(rt, "memory");
    let named = named(rt, alloc, b'1', on_1);
    let mut others = named.split_inclusive(|byte| *byte == b'\n');
    for line in on_0.split_inclusive(|byte| *byte == b'\n') {
        let Some(other) = others.next() else {
            break;
        };
        let pair = if is_1_first {
            [other, line]
        } else {
            [line, other]
        };
        air_file
            .extend_from_slice(&join(rt, alloc, &pair))
            .expect(rt, "memory");
    }
    air_file
}

/// Some of the elements of EA01, in lines of so many.
fn part_of_ea01(rt: &impl Abort, alloc: Global, part: Range<usize>, length: usize) -> Vec<u8> {
    part_of(
        rt,
        alloc,
        &elements_of(rt, alloc, AIR_FILE_OF_EA01),
        part,
        length,
    )
}

/// Some of the elements, or those that there are of them, in lines of so many.
fn part_of(
    rt: &impl Abort,
    alloc: Global,
    elements: &[u8],
    part: Range<usize>,
    length: usize,
) -> Vec<u8> {
    let end = part.end.min(elements.len());
    let part = elements.get(part.start..end).expect(rt, "elements");
    lines_of(rt, alloc, part, length.max(1))
}

/// What `listen` hears: what is told of a file, its pieces, and the log.
pub type Heard<'a> = (&'a str, &'a [Piece<'a>], &'a [u8]);

/// Expects that `listen` succeeds on a file that these pieces make in a row, and writes this log.
pub fn expect_log(rt: &impl Abort, alloc: Global, heard: Heard) {
    let (row, pieces, log) = heard;
    let air_file = made_of(rt, alloc, pieces);
    expect_output(rt, alloc, row, &["navtex", "listen"], &air_file, log);
}

/// Expects that `listen` hears each file so.
pub fn expect_logs(rt: &impl Abort, alloc: Global, cases: &[Heard]) {
    for heard in cases {
        expect_log(rt, alloc, *heard);
    }
}

/// What `listen` refuses: the pieces of a file, and the line that says why.
pub type Refused<'a> = (&'a [Piece<'a>], &'a str);

/// Expects that `listen` refuses each file by its line, and writes nothing.
pub fn expect_refusals(rt: &impl Abort, alloc: Global, cases: &[Refused]) {
    for (pieces, line) in cases {
        let air_file = made_of(rt, alloc, pieces);
        let row = shown(&air_file);
        expect_fault(rt, alloc, row, &["navtex", "listen"], &air_file, (2, line));
    }
}
