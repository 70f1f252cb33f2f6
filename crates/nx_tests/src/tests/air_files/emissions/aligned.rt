//! Aligned decoding.

use crate::tests::{expect_text, shown};
use nx_code::Word;
use nx_fec::{AlignedFault, decode_aligned, get_word};
use std::alloc::Global;
use std::process::Abort;

/// The elements of words by their numbers.
fn bits_of(rt: &impl Abort, alloc: Global, words: &[u8]) -> Vec<bool> {
    let mut bits = Vec::new(alloc);
    for word in words {
        let word = Word::new(*word).expect(rt, "a word has seven elements");
        bits.extend_from_slice(&word.elements())
            .expect(rt, "memory");
    }
    bits
}

#[test]
fn damaged_a(rt: HostRuntime) {
    static CASES: [(u8, u8, &[u8]); 4] = [
        (0x47, 0x47, b"A"),
        (0x46, 0x47, b"A"),
        (0x46, 0x46, b"*"),
        (0x47, 0x72, b"*"),
    ];
    for &(dx, rx, text) in &CASES {
        let words = [
            0x66, 0x0F, 0x66, 0x0F, 0x66, 0x0F, 0x66, 0x0F, dx, 0x0F, 0x0F, 0x0F, 0x0F, rx, 0x0F,
        ];
        let bits = bits_of(&rt, rt.alloc(), &words);
        let decoded = decode_aligned(rt.alloc(), &bits).expect(&rt, "memory");
        expect_text(&rt, shown(text), &decoded, text);
        assert_eq!(rt; get_word(&bits, 13), Word::new(rx), "{dx} {rx}");
        assert!(rt; get_word(&bits, 15).is_none(), "{dx} {rx}");
    }
}

#[test]
fn no_whole_words(rt: HostRuntime) {
    let fault = decode_aligned(rt.alloc(), &[true; 8]).err();
    assert_eq!(rt; fault, Some(AlignedFault::Ragged { bits: 8 }));
}
