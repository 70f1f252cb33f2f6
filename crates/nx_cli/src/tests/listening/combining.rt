//! What `listen --combine` prints of several sendings of a message, beside what `listen` prints.

use super::super::air::Piece::{Sent, Text};
use super::super::air::{Damage, Piece, made_of};
use super::super::expect_output;

/// Moments whose next slots of station E begin at 00:40, 04:40 and 08:40 on 2025-01-01.
const NOW: &str = "1735689600";

const LATER: &str = "1735692001";

const LATEST: &str = "1735706401";

/// No damage, and positions of which both words are damaged, by the word that is sent first.
const WHOLE: &[Damage<'static>] = &[];

const NO_172: &[Damage<'static>] = &[["all", "172", "1"], ["all", "177", "1"]];

const NO_174: &[Damage<'static>] = &[["all", "174", "1"], ["all", "179", "1"]];

const NO_174_176: &[Damage<'static>] = &[
    ["all", "174", "1"],
    ["all", "179", "1"],
    ["all", "176", "1"],
    ["all", "181", "1"],
];

const NO_176: &[Damage<'static>] = &[["all", "176", "1"], ["all", "181", "1"]];

const NO_176_180: &[Damage<'static>] = &[
    ["all", "176", "1"],
    ["all", "181", "1"],
    ["all", "180", "1"],
    ["all", "185", "1"],
];

const NO_182: &[Damage<'static>] = &[["all", "182", "1"], ["all", "187", "1"]];

const NO_186: &[Damage<'static>] = &[["all", "186", "1"], ["all", "191", "1"]];

const NO_190: &[Damage<'static>] = &[["all", "190", "1"], ["all", "195", "1"]];

const NO_190_198: &[Damage<'static>] = &[
    ["all", "190", "1"],
    ["all", "195", "1"],
    ["all", "198", "1"],
    ["all", "203", "1"],
];

const NO_192: &[Damage<'static>] = &[["all", "192", "1"], ["all", "197", "1"]];

/// A line of 24 letters, one of 52, and the same line numbered 00.
const OF_24: &[u8] = b"#A01\nABCDEFGHIJKLMNOPQRSTUVWX\n;\n";

const OF_52: &[u8] = b"#A01\nABCDEFGHIJKLMNOPQRSTUVWXYZABCDEFGHIJKLMNOPQRSTUVWXYZ\n;\n";

const URGENT: &[u8] = b"#A00\nABCDEFGHIJKLMNOPQRSTUVWX\n;\n";

/// A buoy, another one, and the first at another place, all under one number.
const BUOY: &[u8] = b"#A01\nBUOY 51-24.3N 002-11.0E UNLIT\n;\n";

const OTHER_BUOY: &[u8] = b"#A01\nBUOY 53-17.8N 004-46.2E UNLIT\n;\n";

const MOVED_BUOY: &[u8] = b"#A01\nBUOY 53-27.3N 002-11.0E UNLIT\n;\n";

/// Commas that read as `NNNN` where the figure shift before them is lost.
const COMMAS: &[u8] = b"#A01\nA ,,,, BCD\n;\n";

/// A row: what it is, the pieces of a file, the log of `listen`, and that of `listen --combine`.
type Combined = (
    &'static str,
    &'static [Piece<'static>],
    &'static [u8],
    &'static [u8],
);

#[test]
fn combines_sendings(rt: HostRuntime) {
    const FIRST: &[u8] = b"[EA01 2025-01-01 00:40:00 full 1/25]\n*BCDEFGHIJKLMNOPQRSTUVWX\n\n";
    static ROWS: [Combined; 10] = [
        (
            "two halves",
            &[
                Sent(NOW, OF_24, NO_172),
                Sent(LATER, OF_24, NO_174),
                Sent(LATEST, OF_24, WHOLE),
            ],
            b"[EA01 2025-01-01 00:40:00 full 1/25]\n*BCDEFGHIJKLMNOPQRSTUVWX\n\n\
                [EA01 2025-01-01 04:40:00 full 1/25]\nA*CDEFGHIJKLMNOPQRSTUVWX\n\n\
                [EA01 2025-01-01 08:40:00 full 0/25]\nABCDEFGHIJKLMNOPQRSTUVWX\n\n",
            b"[EA01 2025-01-01 00:40:00 full 1/25]\n*BCDEFGHIJKLMNOPQRSTUVWX\n\n\
                [EA01 2025-01-01 04:40:00 full 0/25]\nABCDEFGHIJKLMNOPQRSTUVWX\n\n",
        ),
        (
            "a good copy with a hole",
            &[
                Sent(NOW, OF_52, NO_172),
                Sent(LATER, OF_52, WHOLE),
                Sent(LATEST, OF_52, WHOLE),
            ],
            b"[EA01 2025-01-01 00:40:00 full 1/53]\n\
                *BCDEFGHIJKLMNOPQRSTUVWXYZABCDEFGHIJKLMNOPQRSTUVWXYZ\n\n",
            b"[EA01 2025-01-01 00:40:00 full 1/53]\n\
                *BCDEFGHIJKLMNOPQRSTUVWXYZABCDEFGHIJKLMNOPQRSTUVWXYZ\n\n\
                [EA01 2025-01-01 04:40:00 full 0/53]\n\
                ABCDEFGHIJKLMNOPQRSTUVWXYZABCDEFGHIJKLMNOPQRSTUVWXYZ\n\n",
        ),
        (
            "a lost shift, and a digit that is lost in the second sending",
            &[
                Sent(NOW, BUOY, NO_182),
                Sent(LATER, BUOY, NO_190),
                Sent(LATEST, BUOY, WHOLE),
            ],
            b"[EA01 2025-01-01 00:40:00 full 1/31]\nBUOY *TQAWRMEN 002-11.0E UNLIT\n\n",
            b"[EA01 2025-01-01 00:40:00 full 1/31]\nBUOY *TQAWRMEN 002-11.0E UNLIT\n\n\
                [EA01 2025-01-01 04:40:00 full 0/30]\nBUOY 51-24.3N 002-11.0E UNLIT\n\n",
        ),
        (
            "another text under the number",
            &[
                Sent(NOW, BUOY, NO_174_176),
                Sent(LATER, OTHER_BUOY, NO_190_198),
            ],
            b"[EA01 2025-01-01 00:40:00 full 2/30]\nB**Y 51-24.3N 002-11.0E UNLIT\n\n\
                [EA01 2025-01-01 04:40:00 full 2/31]\nBUOY 53-*7.8*, 004-46.2E UNLIT\n\n",
            b"[EA01 2025-01-01 00:40:00 full 2/30]\nB**Y 51-24.3N 002-11.0E UNLIT\n\n\
                [EA01 2025-01-01 04:40:00 full 2/31]\nBUOY 53-*7.8*, 004-46.2E UNLIT\n\n",
        ),
        (
            "numbered 00",
            &[Sent(NOW, URGENT, NO_172), Sent(LATER, URGENT, NO_174)],
            b"[EA00 2025-01-01 00:40:00 full 1/25]\n*BCDEFGHIJKLMNOPQRSTUVWX\n\n\
                [EA00 2025-01-01 04:40:00 full 1/25]\nA*CDEFGHIJKLMNOPQRSTUVWX\n\n",
            b"[EA00 2025-01-01 00:40:00 full 1/25]\n*BCDEFGHIJKLMNOPQRSTUVWX\n\n\
                [EA00 2025-01-01 04:40:00 full 1/25]\nA*CDEFGHIJKLMNOPQRSTUVWX\n\n",
        ),
        (
            "refused at first",
            &[
                Text(b"RS E\n"),
                Sent(NOW, OF_24, NO_172),
                Text(b"AS E\n"),
                Sent(LATER, OF_24, NO_174),
                Sent(LATEST, OF_24, WHOLE),
            ],
            b"[EA01 2025-01-01 04:40:00 full 1/25]\nA*CDEFGHIJKLMNOPQRSTUVWX\n\n\
                [EA01 2025-01-01 08:40:00 full 0/25]\nABCDEFGHIJKLMNOPQRSTUVWX\n\n",
            b"[EA01 2025-01-01 04:40:00 full 1/25]\nA*CDEFGHIJKLMNOPQRSTUVWX\n\n\
                [EA01 2025-01-01 08:40:00 full 0/25]\nABCDEFGHIJKLMNOPQRSTUVWX\n\n",
        ),
        (
            "two texts that differ where one of them has lost a digit",
            &[
                Sent(NOW, BUOY, NO_186),
                Sent(LATER, MOVED_BUOY, NO_192),
                Sent(LATEST, MOVED_BUOY, WHOLE),
            ],
            b"[EA01 2025-01-01 00:40:00 full 1/30]\nBUOY 5*-24.3N 002-11.0E UNLIT\n\n",
            b"[EA01 2025-01-01 00:40:00 full 1/30]\nBUOY 5*-24.3N 002-11.0E UNLIT\n\n\
                [EA01 2025-01-01 04:40:00 full 0/30]\nBUOY 53-24.3N 002-11.0E UNLIT\n\n",
        ),
        (
            "a marker that damage made",
            &[
                Sent(NOW, COMMAS, NO_176_180),
                Sent(LATER, COMMAS, NO_176),
                Sent(LATEST, COMMAS, NO_190),
            ],
            b"[EA01 2025-01-01 00:40:00 full 2/12]\nA *N*NN BCD\n\n\
                [EA01 2025-01-01 04:40:00 full 1/3]\nA *\n\n\
                [EA01 2025-01-01 08:40:00 full 1/11]\nA ,,,, *CD\n\n",
            b"[EA01 2025-01-01 00:40:00 full 2/12]\nA *N*NN BCD\n\n\
                [EA01 2025-01-01 04:40:00 full 1/3]\nA *\n\n\
                [EA01 2025-01-01 08:40:00 full 0/11]\nA ,,,, BCD\n\n",
        ),
        (
            "on a channel of its own",
            &[Sent(NOW, OF_24, NO_172), Text(b"RS1 E\n")],
            FIRST,
            FIRST,
        ),
        ("nothing", &[], b"", b""),
    ];
    for (row, pieces, alone, together) in &ROWS {
        let air_file = made_of(&rt, rt.alloc(), pieces);
        let listen = ["navtex", "listen"];
        expect_output(&rt, rt.alloc(), row, &listen, &air_file, alone);
        let combine = ["navtex", "listen", "--combine"];
        expect_output(&rt, rt.alloc(), row, &combine, &air_file, together);
    }
}
