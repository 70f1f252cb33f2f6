//! Emissions of messages for the tests, by the layout of an emission and the worked examples' own
//! damage.

use nx_code::{Comb, Shift, spell};
use nx_fec::{Counting, Position, to_bits, write_bits};
use std::alloc::Global;
use std::process::Abort;

/// A message: the station, the subject and the number, and the lines, each with its newline.
pub(super) type Sent<'a> = (&'a [u8], &'a [u8]);

pub(super) const EA01: Sent<'static> = (b"EA01", b"TEST\n");

pub(super) const EB02: Sent<'static> = (b"EB02", b"");

/// The line of the moment 2025-01-01 00:40:00.
pub(super) const AT_FIRST: &[u8] = b"T 1735692000\n";

/// Appends phasing positions.
pub(super) fn add_phasing(rt: &impl Abort, positions: &mut Vec<Position>, count: usize) {
    for _ in 0..count {
        positions.push(Position::Phasing).expect(rt, "memory");
    }
}

/// Appends the positions of a text, which is spelled from letters.
pub(super) fn add_text(rt: &impl Abort, alloc: Global, positions: &mut Vec<Position>, text: &[u8]) {
    let combs = spell(alloc, text, Shift::Letters).expect(rt, "spelling");
    for comb in &combs {
        positions
            .push(Position::Traffic(*comb))
            .expect(rt, "memory");
    }
}

/// Appends the positions of a message.
fn add_message(rt: &impl Abort, alloc: Global, positions: &mut Vec<Position>, sent: Sent) {
    let mut text = Vec::new(alloc);
    text.extend_from_slice(b"ZCZC ").expect(rt, "memory");
    text.extend_from_slice(sent.0).expect(rt, "memory");
    text.push(b'\n').expect(rt, "memory");
    text.extend_from_slice(sent.1).expect(rt, "memory");
    text.extend_from_slice(b"NNNN\n").expect(rt, "memory");
    positions
        .push(Position::Traffic(Shift::Letters.comb()))
        .expect(rt, "memory");
    add_text(rt, alloc, positions, &text);
    positions
        .push(Position::Traffic(Comb::new(28).expect(rt, "line feed")))
        .expect(rt, "memory");
}

/// The elements of an emission of messages, where these letters are sent before the first of them.
pub(super) fn emission_after(
    rt: &impl Abort,
    alloc: Global,
    letters: &[u8],
    messages: &[Sent],
) -> Vec<bool> {
    let mut positions = Vec::new(alloc);
    add_phasing(rt, &mut positions, 36);
    let mut is_first = true;
    for sent in messages {
        add_phasing(rt, &mut positions, 36);
        if is_first {
            add_text(rt, alloc, &mut positions, letters);
            is_first = false;
        }
        add_message(rt, alloc, &mut positions, *sent);
    }
    for _ in 0..3 {
        positions.push(Position::End).expect(rt, "memory");
    }
    to_bits(alloc, &positions).expect(rt, "elements")
}

/// The elements of an emission of messages.
pub(super) fn emission(rt: &impl Abort, alloc: Global, messages: &[Sent]) -> Vec<bool> {
    emission_after(rt, alloc, b"", messages)
}

/// An air file: the line of a moment, and the lines of elements.
pub(super) fn air_file(rt: &impl Abort, alloc: Global, moment: &[u8], bits: &[bool]) -> Vec<u8> {
    let mut lines = Counting::new(Vec::new(alloc));
    write_bits(&mut lines, bits).expect(rt, "writing");
    let mut file = Vec::new(alloc);
    file.extend_from_slice(moment).expect(rt, "memory");
    file.extend_from_slice(&lines.into_inner())
        .expect(rt, "memory");
    file
}

/// An air file of two channels: the line of a moment, and lines of elements, each of them on
/// channel 0 and then the same on channel 1.
pub(super) fn two_channels(
    rt: &impl Abort,
    alloc: Global,
    moment: &[u8],
    bits: &[bool],
) -> Vec<u8> {
    let mut file = Vec::new(alloc);
    file.extend_from_slice(moment).expect(rt, "memory");
    for part in bits.chunks(490) {
        let line = air_file(rt, alloc, b"", part);
        let (word, digits) = line.split_at_checked(1).expect(rt, "line");
        file.extend_from_slice(&line).expect(rt, "memory");
        file.extend_from_slice(word).expect(rt, "memory");
        file.push(b'1').expect(rt, "memory");
        file.extend_from_slice(digits).expect(rt, "memory");
    }
    file
}

/// P2 P1 P2 P1 before other elements.
pub(super) fn after_pattern(rt: &impl Abort, alloc: Global, bits: &[bool]) -> Vec<bool> {
    let mut positions = Vec::new(alloc);
    add_phasing(rt, &mut positions, 4);
    // The slots 0 to 3 are P2 P1 P2 P1.
    let pattern = to_bits(alloc, &positions).expect(rt, "elements");
    let mut all = Vec::new(alloc);
    let words = pattern.first_chunk::<28>().expect(rt, "a pattern");
    all.extend_from_slice(words).expect(rt, "memory");
    all.extend_from_slice(bits).expect(rt, "memory");
    all
}
