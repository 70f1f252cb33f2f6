//! The words and elements of a short emission.

use nx_code::Comb;
use nx_fec::{Position, to_bits, word_at};
use std::process::Abort;

/// The emission of the text A.
fn positions_of_a(rt: &impl Abort) -> [Position; 8] {
    let a = Position::Traffic(Comb::new(1).expect(rt, "A"));
    let (phasing, end) = (Position::Phasing, Position::End);
    [phasing, phasing, phasing, phasing, a, end, end, end]
}

#[test]
fn words_of_a(rt: HostRuntime) {
    let positions = positions_of_a(&rt);
    static WORDS: [u8; 15] = [
        0x66, 0x0F, 0x66, 0x0F, 0x66, 0x0F, 0x66, 0x0F, 0x47, 0x0F, 0x0F, 0x0F, 0x0F, 0x47, 0x0F,
    ];
    for (slot, number) in WORDS.iter().enumerate() {
        let word = word_at(&positions, slot).expect(&rt, "a slot");
        assert_eq!(rt; word.number(), *number, "slot {slot}");
    }
    assert!(rt; word_at(&positions, WORDS.len()).is_none());
}

#[test]
fn bits_of_a(rt: HostRuntime) {
    let expected =
        b"011001111110000110011111100001100111111000011001111110001110001111100011110001111000111100011100011111000";
    let bits = to_bits(rt.alloc(), &positions_of_a(&rt)).expect(&rt, "elements");
    assert_eq!(rt; bits.len(), expected.len());
    for (place, (bit, digit)) in bits.iter().zip(expected).enumerate() {
        assert_eq!(rt; *bit, (*digit == b'1'), "element {place}");
    }
}
