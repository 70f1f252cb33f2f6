//! What `watch --combine` keeps of several sendings of a message, beside what `watch` keeps.

use super::super::air::Piece::Sent;
use super::super::air::{Damage, Piece, made_of};
use super::super::devices::Source;
use super::super::expect_text;
use super::{End, SILENT, WATCH, expect_run, file_of};
use std::alloc::Global;
use std::process::Abort;

const COMBINE: &[&str] = &["navtex", "watch", "--combine", "x.log", "1735692000"];

/// Moments whose next slots of station E begin at 00:40, 04:40 and 08:40 on 2025-01-01.
const NOW: &str = "1735689600";

const LATER: &str = "1735692001";

const LATEST: &str = "1735706401";

/// No damage, and positions of which both words are damaged, by the word that is sent first.
const WHOLE: &[Damage<'static>] = &[];

const NO_172: &[Damage<'static>] = &[["all", "172", "1"], ["all", "177", "1"]];

const NO_174: &[Damage<'static>] = &[["all", "174", "1"], ["all", "179", "1"]];

/// A line of 24 letters, and one of 52.
const OF_24: &[u8] = b"#A01\nABCDEFGHIJKLMNOPQRSTUVWX\n;\n";

const OF_52: &[u8] = b"#A01\nABCDEFGHIJKLMNOPQRSTUVWXYZABCDEFGHIJKLMNOPQRSTUVWXYZ\n;\n";

/// A row: what it is, the words, the pieces of what each watch of the log hears, one watch after
/// another, and the log that the last one leaves.
type Kept = (
    &'static str,
    &'static [&'static str],
    &'static [&'static [Piece<'static>]],
    &'static [u8],
);

// What a watch leaves of a log of these bytes that these words ask for, where its input has these
// bytes, and the call of that number fails on it, if one does.
fn left_by(
    rt: &impl Abort,
    alloc: Global,
    row: &str,
    words: &[&str],
    before: &[u8],
    input: &[u8],
    fails_at: Option<u64>,
) -> Vec<u8> {
    let files = file_of(rt, alloc, before, 0);
    let mut source = Source::of(input);
    source.fails_at = fails_at;
    let end: End = match fails_at {
        Some(_) => (1, "navtex: read failed\n", b""),
        None => SILENT,
    };
    let file = expect_run(rt, alloc, row, words, files, &mut source, end);
    let file = file.expect(rt, "a file");
    file.bytes().to_vec(alloc).expect(rt, "memory")
}

#[test]
fn keeps_what_is_better(rt: HostRuntime) {
    static ROWS: [Kept; 6] = [
        (
            "two halves",
            COMBINE,
            &[&[
                Sent(NOW, OF_24, NO_172),
                Sent(LATER, OF_24, NO_174),
                Sent(LATEST, OF_24, WHOLE),
            ]],
            b"\n[EA01 2025-01-01 00:40:00 full 1/25]\n*BCDEFGHIJKLMNOPQRSTUVWX\n\n\
                \n[EA01 2025-01-01 04:40:00 full 0/25]\nABCDEFGHIJKLMNOPQRSTUVWX\n\n ",
        ),
        (
            "two halves, each by itself",
            WATCH,
            &[&[
                Sent(NOW, OF_24, NO_172),
                Sent(LATER, OF_24, NO_174),
                Sent(LATEST, OF_24, WHOLE),
            ]],
            b"\n[EA01 2025-01-01 00:40:00 full 1/25]\n*BCDEFGHIJKLMNOPQRSTUVWX\n\n\
                \n[EA01 2025-01-01 04:40:00 full 1/25]\nA*CDEFGHIJKLMNOPQRSTUVWX\n\n\
                \n[EA01 2025-01-01 08:40:00 full 0/25]\nABCDEFGHIJKLMNOPQRSTUVWX\n\n ",
        ),
        (
            "a good copy with a hole",
            COMBINE,
            &[&[Sent(NOW, OF_52, NO_172), Sent(LATER, OF_52, WHOLE)]],
            b"\n[EA01 2025-01-01 00:40:00 full 1/53]\n\
                *BCDEFGHIJKLMNOPQRSTUVWXYZABCDEFGHIJKLMNOPQRSTUVWXYZ\n\n\
                \n[EA01 2025-01-01 04:40:00 full 0/53]\n\
                ABCDEFGHIJKLMNOPQRSTUVWXYZABCDEFGHIJKLMNOPQRSTUVWXYZ\n\n ",
        ),
        (
            "a good copy with a hole, and a start behind it: its family is gone, and it is known",
            COMBINE,
            &[&[Sent(NOW, OF_52, NO_172)], &[Sent(LATER, OF_52, WHOLE)]],
            b"\n[EA01 2025-01-01 00:40:00 full 1/53]\n\
                *BCDEFGHIJKLMNOPQRSTUVWXYZABCDEFGHIJKLMNOPQRSTUVWXYZ\n\n ",
        ),
        (
            "two halves, and a start between them: the second one is taken by itself",
            COMBINE,
            &[
                &[Sent(NOW, OF_24, NO_172)],
                &[Sent(LATER, OF_24, NO_174), Sent(LATEST, OF_24, WHOLE)],
            ],
            b"\n[EA01 2025-01-01 00:40:00 full 1/25]\n*BCDEFGHIJKLMNOPQRSTUVWX\n\n\
                \n[EA01 2025-01-01 04:40:00 full 1/25]\nA*CDEFGHIJKLMNOPQRSTUVWX\n\n\
                \n[EA01 2025-01-01 08:40:00 full 0/25]\nABCDEFGHIJKLMNOPQRSTUVWX\n\n ",
        ),
        (
            "what was put whole is known behind a start",
            COMBINE,
            &[
                &[Sent(NOW, OF_24, NO_172), Sent(LATER, OF_24, NO_174)],
                &[Sent(LATEST, OF_24, WHOLE)],
            ],
            b"\n[EA01 2025-01-01 00:40:00 full 1/25]\n*BCDEFGHIJKLMNOPQRSTUVWX\n\n\
                \n[EA01 2025-01-01 04:40:00 full 0/25]\nABCDEFGHIJKLMNOPQRSTUVWX\n\n ",
        ),
    ];
    for (row, words, watches, kept) in &ROWS {
        let mut log = Vec::new(rt.alloc());
        for pieces in *watches {
            let input = made_of(&rt, rt.alloc(), pieces);
            log = left_by(&rt, rt.alloc(), row, words, &log, &input, None);
        }
        expect_text(&rt, row, &log, kept);
    }
}

// The first read gives all, and the second one fails: what is better was put before it.
#[test]
fn keeps_what_is_better_before_it_reads_on(rt: HostRuntime) {
    let pieces = [Sent(NOW, OF_24, NO_172), Sent(LATER, OF_24, NO_174)];
    let input = made_of(&rt, rt.alloc(), &pieces);
    let log = left_by(&rt, rt.alloc(), "read", COMBINE, b"", &input, Some(2));
    let kept = b"\n[EA01 2025-01-01 00:40:00 full 1/25]\n*BCDEFGHIJKLMNOPQRSTUVWX\n\n\
        \n[EA01 2025-01-01 04:40:00 full 0/25]\nABCDEFGHIJKLMNOPQRSTUVWX\n\n ";
    expect_text(&rt, "read", &log, kept);
}
