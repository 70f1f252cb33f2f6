//! Worked examples: the counts of elements were worked out from the definition of the locks, apart
//! from this program.

use nx_code::Word;
use nx_sync::{Change, Role, Synchroniser, first_lock};

/// P2 P1 P2 P1, after which a DX word follows, and P1 P2 P1 P2, after which an RX word follows.
const PATTERNS: [u32; 2] = [0x1F9_87E6, 0x0CC3_F30F];

/// All 28 bits are needed: the last 27 are none, though what no bit has filled reads as the missing
/// one.
#[test]
fn needs_28_bits(rt: HostRuntime) {
    for (skipped, locked) in [(1, false), (0, true)] {
        let mut sync = Synchroniser::new(rt.alloc()).expect(&rt, "memory");
        let mut last = None;
        for bit in "0110011111100001100111111000".bytes().skip(skipped) {
            last = sync.push(bit == b'1').change;
        }
        assert_eq!(rt; last == Some(Change::Locked), locked, "without {skipped}");
        assert_eq!(rt; sync.is_locked(), locked, "without {skipped}");
    }
}

/// A hunt hears the elements before the one that locks, all of them where none does.
#[test]
fn hunts(rt: HostRuntime) {
    let mut bits = [false; 31];
    for (place, bit) in bits.iter_mut().zip("0110011111100001100111111000".bytes()) {
        *place = bit == b'1';
    }
    let mut sync = Synchroniser::new(rt.alloc()).expect(&rt, "memory");
    assert_eq!(rt; sync.hunt(&bits), 27);
    assert_eq!(rt; sync.push(false).change, Some(Change::Locked));
    let mut sync = Synchroniser::new(rt.alloc()).expect(&rt, "memory");
    assert_eq!(rt; sync.hunt(&[]), 0);
    assert_eq!(rt; sync.hunt(&[false; 1000]), 1000);
    assert!(rt; !sync.is_locked());
}

/// P2 P1 P2 P1 as packed elements, over the seam of two numbers and behind Y alone; then a word,
/// which is the first DX word of the lock.
#[test]
fn hunts_packed_elements(rt: HostRuntime) {
    let numbers = [0x1F9_87E6 << 50, 0x1F9_87E6 >> 14];
    let mut sync = Synchroniser::new(rt.alloc()).expect(&rt, "memory");
    assert_eq!(rt; sync.hunt_packed(&numbers, 3, 125), 74);
    assert_eq!(rt; sync.push(false).change, Some(Change::Locked));
    if sync.is_between_words() {
        let elements = [false, true, true, false, false, true, true];
        let step = sync.push_word(&elements);
        assert_eq!(rt; step.word, Some((Word::from_elements(elements), Role::Dx)));
    }
}

/// Eight words of phasing after P2 P1 P2 P1 are heard at once, and so are two. They are not after
/// one more word, since an RX word comes next then. Nor are they where a DX word among them is P1.
/// Nor are they after such a word, as long as it may end the lock.
#[test]
fn hears_words_at_once(rt: HostRuntime) {
    let mut sync = Synchroniser::new(rt.alloc()).expect(&rt, "memory");
    let p1 = Word::from_elements([true, true, true, true, false, false, false]);
    let p2 = Word::from_elements([false, true, true, false, false, true, true]);
    let phasing = [p2, p1, p2, p1, p2, p1, p2, p1];
    for bit in "0110011111100001100111111000".bytes() {
        sync.push(bit == b'1');
    }
    assert!(rt; sync.is_between_words());
    assert!(rt; !sync.keeps_lock(&[p2, p1, p2, p1, p2, p1, p1, p1]));
    assert!(rt; sync.keeps_lock(&[p2, p1]));
    assert!(rt; !sync.keeps_lock(&[p1, p2]));
    let keeps = sync.keeps_lock(&phasing);
    assert!(rt; keeps);
    if keeps {
        sync.accept(&phasing);
    }
    for (word, role, kept) in [
        (p1, Role::Dx, false),
        (p1, Role::Rx, false),
        (p2, Role::Dx, false),
    ] {
        if sync.is_between_words() {
            let step = sync.push_word(&word.elements());
            assert_eq!(rt; step.word, Some((word, role)), "{role:?}");
        }
        assert_eq!(rt; sync.keeps_lock(&phasing), kept, "{role:?}");
    }
}

/// The least window that is a pattern, by the worked example.
#[test]
fn least_window(rt: HostRuntime) {
    assert_eq!(rt; first_lock(&[0, 0x0CC3_F30F, 0x1F9_87E6]), Some(1));
    assert!(rt; first_lock(&[]).is_none());
}

/// One pattern, or two of them, at each place of 0 to 25 windows: the same as by looking at one
/// after the other.
#[test]
fn window_at_each_place(rt: HostRuntime) {
    for pattern in PATTERNS {
        for length in 0..26 {
            for place in 0..length {
                let mut windows = [0x1F9_87E7; 25];
                windows[place] = pattern;
                windows[(place + 5).min(24)] = 0x1F9_87E6;
                let windows = &windows[..length];
                let plain = windows.iter().position(|window| PATTERNS.contains(window));
                assert_eq!(rt; first_lock(windows), Some(place), "{place} of {length}");
                assert_eq!(rt; first_lock(windows), plain, "{place} of {length}");
            }
            assert!(rt;
                first_lock(&[0x0CC3_F30E; 25][..length]).is_none(),
                "{length}"
            );
        }
    }
}
