//! Lines by pieces and whole, and the lines of channels.

use super::super::shown;
use arrayvec::ArrayVec;
use nx_fec::{Channel, LineFault, LineKind, MAX_ELEMENTS, Scanner};
use std::process::Abort;

/// Gives a scanner good bytes that end at most one line, and answers how many it took.
fn taken(scanner: &mut Scanner, bytes: &[u8]) -> Option<usize> {
    if bytes.is_empty() {
        return None;
    }
    scanner.push_line(bytes).ok()
}

/// What is told of the line that the last byte ended: what it says, its bytes, and its elements.
type Told<'a> = (Option<LineKind>, Option<&'a [u8]>, &'a [bool]);

/// Expects that this is told behind these bytes.
fn expect_told(rt: &impl Abort, row: &str, scanner: &Scanner, told: Told) {
    let (kind, line, elements) = told;
    let mut bits = ArrayVec::from([true; MAX_ELEMENTS]);
    scanner.unpacked(&mut bits);
    assert_eq!(rt; scanner.latest(), kind, "{row}");
    assert_eq!(rt; scanner.line(), line, "{row}");
    assert_eq!(rt; bits.as_slice(), elements, "{row}");
    assert_eq!(rt; scanner.elements().len(), elements.len(), "{row}");
}

/// A piece, how many of its bytes are taken, and what is told then.
type Given<'a> = (&'a [u8], usize, Told<'a>);

/// Expects that a scanner takes each piece so.
fn expect_taken(rt: &impl Abort, scanner: &mut Scanner, pieces: &[Given]) {
    for &(bytes, count, told) in pieces {
        assert_eq!(rt; taken(scanner, bytes), Some(count), "{}", shown(bytes));
        expect_told(rt, shown(bytes), scanner, told);
    }
}

const NOTHING: Told<'static> = (None, None, &[]);

#[test]
fn lines_by_pieces(rt: HostRuntime) {
    const ELEMENTS: Option<LineKind> = Some(LineKind::Elements(None));
    static PIECES: [Given; 4] = [
        (b"T", 1, NOTHING),
        (
            b" 5\nB 01\n",
            3,
            (Some(LineKind::Moment(5)), Some(b"T 5"), &[]),
        ),
        (b"B 01\n", 5, (ELEMENTS, Some(b"B 01"), &[false, true])),
        (b"RS EX", 5, NOTHING),
    ];
    let mut scanner = Scanner::new(20);
    expect_taken(&rt, &mut scanner, &PIECES);
    assert_eq!(rt; scanner.lines(), 2);
    assert_eq!(rt; scanner.end(), Err(LineFault::LineCut { line: 3 }));
    assert!(rt; taken(&mut scanner, b"\n").is_none());
}

/// Lines that name their channel are told as they were sent.
#[test]
fn lines_of_channels(rt: HostRuntime) {
    const ON_0: Option<LineKind> = Some(LineKind::Elements(Some(Channel::Zero)));
    const ELEMENTS: Option<LineKind> = Some(LineKind::Elements(None));
    const ON_2: Option<LineKind> = Some(LineKind::RefuseSubject(Some(Channel::Two), b'A'));
    static PIECES: [Given; 3] = [
        (
            b"B0 011\n",
            7,
            (ON_0, Some(b"B0 011"), &[false, true, true]),
        ),
        (
            b"B 011\n",
            6,
            (ELEMENTS, Some(b"B 011"), &[false, true, true]),
        ),
        (b"RJ2 A\n", 6, (ON_2, Some(b"RJ2 A"), &[])),
    ];
    let mut scanner = Scanner::new(1000);
    expect_taken(&rt, &mut scanner, &PIECES);
    assert_eq!(rt;
        scanner.push_line(b"B3 1\n"),
        Err(LineFault::BadLine { line: 4 })
    );
}

/// The longest line that names its channel.
#[test]
fn longest_line_of_a_channel(rt: HostRuntime) {
    let mut scanner = Scanner::new(1000);
    assert_eq!(rt; taken(&mut scanner, b"B1 "), Some(3));
    assert_eq!(rt; taken(&mut scanner, &[b'1'; 511]), Some(511));
    assert_eq!(rt;
        scanner.push_line(b"1\n"),
        Err(LineFault::LineLong { line: 1 })
    );
    assert_eq!(rt; taken(&mut scanner, b"\n"), Some(1));
    assert_eq!(rt; scanner.elements().len(), 511);
}

/// Four lines, with the bytes of a fifth behind them.
fn four_lines() -> [u8; 600] {
    let mut file = [b'1'; 600];
    file[..24].copy_from_slice(b"T 5\nB 0110\nT 1234\nB1 01\n");
    file
}

/// Where a line begins, and a cut in it, how many bytes are taken from the one place and from the
/// other, and what is told of it.
type Cut<'a> = (usize, usize, usize, usize, Told<'a>);

/// Expects that a scanner takes the line whole, with all that is behind it, and another in two
/// parts.
fn expect_cut(rt: &impl Abort, whole: &mut Scanner, cut: &mut Scanner, row: Cut) {
    let (begin, middle, count, rest, told) = row;
    let file = four_lines();
    let from = file.get(begin..).expect(rt, "a line");
    let first = file.get(begin..middle).expect(rt, "its first part");
    let last = file.get(middle..).expect(rt, "its last part");
    expect_taken(rt, whole, &[(from, count, told)]);
    assert_eq!(rt; taken(cut, first), Some(first.len()), "{}", shown(first));
    expect_told(rt, shown(first), cut, NOTHING);
    expect_taken(rt, cut, &[(last, rest, told)]);
}

/// Lines that stand whole in a piece, which has many bytes behind them, and the same lines cut in
/// two.
#[test]
fn whole_lines(rt: HostRuntime) {
    const ON_1: Option<LineKind> = Some(LineKind::Elements(Some(Channel::One)));
    static LINES: [Cut; 4] = [
        (0, 2, 4, 2, (Some(LineKind::Moment(5)), Some(b"T 5"), &[])),
        (
            4,
            8,
            7,
            3,
            (
                Some(LineKind::Elements(None)),
                Some(b"B 0110"),
                &[false, true, true, false],
            ),
        ),
        (
            11,
            14,
            7,
            4,
            (Some(LineKind::Moment(1234)), Some(b"T 1234"), &[]),
        ),
        (18, 23, 6, 1, (ON_1, Some(b"B1 01"), &[false, true])),
    ];
    let (mut whole, mut cut) = (Scanner::new(1000), Scanner::new(1000));
    for &row in &LINES {
        expect_cut(&rt, &mut whole, &mut cut, row);
    }
    assert_eq!(rt; (whole.lines(), cut.lines()), (4, 4));
}
