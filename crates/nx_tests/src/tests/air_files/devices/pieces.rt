//! A file read piece by piece, and whole.

use crate::tests::{expect_text, shown};
use nx_fec::{Counting, Piece, next_piece, read_bits, read_whole};

#[test]
fn a_file_by_its_pieces(rt: HostRuntime) {
    let mut buffer = [0; 2];
    let piece = next_piece(&mut Counting::new(&b"ABC"[..]), &mut buffer);
    assert_eq!(rt; piece, Piece::Bytes(2));
    expect_text(&rt, "a piece", &buffer, b"AB");
    assert_eq!(rt;
        next_piece(&mut Counting::new(&b""[..]), &mut buffer),
        Piece::End
    );
}

#[test]
fn a_whole_file(rt: HostRuntime) {
    let whole = read_whole(rt.alloc(), &mut Counting::new(&b"ABC"[..])).expect(&rt, "a file");
    expect_text(&rt, "the file", &whole, b"ABC");
}

#[test]
fn elements_of_files(rt: HostRuntime) {
    static CASES: [(&[u8], &[bool]); 2] = [
        (b"T 5\nB 01\nB 1\n", &[false, true, true]),
        (
            b"B 0\nB1 1\nB0 11\nRS2 A\nB2 0\nB0 0\n",
            &[false, true, true, false],
        ),
    ];
    for (file, elements) in &CASES {
        let bits = read_bits(rt.alloc(), &mut Counting::new(*file)).expect(&rt, "elements");
        assert_eq!(rt; bits.as_slice(), *elements, "{}", shown(file));
    }
}
