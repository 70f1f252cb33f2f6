//! Digits and truth values packed.

use nx_fec::PackedElements;

/// 65 elements, of which the first, the 64th and the last are B; then fewer, in place of them; then
/// none.
#[test]
fn packed_digits(rt: HostRuntime) {
    let mut digits = [b'0'; 65];
    for place in [0, 63, 64] {
        digits[place] = b'1';
    }
    let mut packed = PackedElements::new();
    assert!(rt; packed.read(&digits));
    assert_eq!(rt; packed.len(), 65);
    assert_eq!(rt; packed.numbers()[0], 0x8000_0000_0000_0001);
    assert_eq!(rt; packed.numbers()[1], 1);
    assert!(rt; packed.read(b"01"));
    assert_eq!(rt; (packed.len(), packed.numbers()[0]), (2, 2));
    assert!(rt; !packed.read(b"02"));
    assert_eq!(rt; packed.len(), 0);
}

/// Elements that stand as bools.
#[test]
fn packed_bools(rt: HostRuntime) {
    let mut packed = PackedElements::new();
    packed.pack_bits(&[false, true, true]);
    assert_eq!(rt; (packed.len(), packed.numbers()[0]), (3, 6));
    packed.pack_bits(&[true; 512]);
    assert_eq!(rt; (packed.len(), packed.numbers()[7]), (512, u64::MAX));
    packed.pack_bits(&[]);
    assert_eq!(rt; packed.len(), 0);
}
