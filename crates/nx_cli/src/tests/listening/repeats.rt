//! What `listen` prints of messages that are sent again, and of those that are refused.

use super::super::air::Piece::{Damaged, Sent, Text};
use super::super::air::{Damage, Heard, LINES, LOG_OF_EA01, MOMENT_OF_EA01, Piece, expect_logs};
use super::super::station::{AIR_FILE_OF_EA01, MESSAGE_FILE};

/// Moments whose next slots of station E begin at 1735692000, 1735706400 and 1735720800.
const NOW: &str = "1735689600";

const LATER: &str = "1735692001";

const LATEST: &str = "1735706401";

/// The log of EA01 and its entry of 66 hours later.
const TWICE: &[u8] = b"[EA01 2025-01-01 00:40:00 full 0/5]\nTEST\n\n\
    [EA01 2025-01-03 18:40:00 full 0/5]\nTEST\n\n";

#[test]
fn prints_again_after_66_hours(rt: HostRuntime) {
    const FIRST: Piece = Text(AIR_FILE_OF_EA01);
    const WITHIN: Piece = Text(b"T 1735929599\n");
    const AFTER: Piece = Text(b"T 1735929600\n");
    static CASES: [Heard; 2] = [
        (
            "four hours later",
            &[FIRST, Text(b"T 1735706400\n"), LINES],
            LOG_OF_EA01,
        ),
        (
            "a second before 66 hours, and at 66 hours",
            &[Text(MOMENT_OF_EA01), LINES, WITHIN, LINES, AFTER, LINES],
            TWICE,
        ),
    ];
    expect_logs(&rt, rt.alloc(), &CASES);
}

/// No damage.
const WHOLE: &[Damage<'static>] = &[];

/// The letter A, position 86, is lost: both its sendings are damaged.
const A_LOST: &[Damage<'static>] = &[["all", "172", "1"], ["all", "177", "1"]];

/// Both sendings of a letter of the header are lost.
const HEADER_LOST: &[Damage<'static>] = &[["all", "150", "1"], ["all", "155", "1"]];

/// Messages of 25 characters and of 26, with the end of each line.
const OF_25: &[u8] = b"#A01\nABCDEFGHIJKLMNOPQRSTUVWX\n;\n";

const OF_26: &[u8] = b"#A01\nABCDEFGHIJKLMNOPQRSTUVWXY\n;\n";

#[test]
fn prints_a_repeat_of_what_was_heard_badly(rt: HostRuntime) {
    const BADLY: &[u8] = b"[EA01 2025-01-01 00:40:00 full 1/25]\n*BCDEFGHIJKLMNOPQRSTUVWX\n\n\
        [EA01 2025-01-01 04:40:00 full 0/25]\nABCDEFGHIJKLMNOPQRSTUVWX\n\n";
    const WELL: &[u8] = b"[EA01 2025-01-01 00:40:00 full 1/26]\n*BCDEFGHIJKLMNOPQRSTUVWXY\n\n";
    static CASES: [Heard; 3] = [
        (
            "one character of 25 is lost, which is not less than 4 per cent",
            &[Sent(NOW, OF_25, A_LOST), Sent(LATER, OF_25, WHOLE)],
            BADLY,
        ),
        (
            "one character of 26 is lost",
            &[Sent(NOW, OF_26, A_LOST), Sent(LATER, OF_26, WHOLE)],
            WELL,
        ),
        (
            "both sendings of a letter of its header are lost",
            &[Damaged(HEADER_LOST), Sent(LATER, MESSAGE_FILE, WHOLE)],
            b"[EA01 2025-01-01 04:40:00 full 0/5]\nTEST\n\n",
        ),
    ];
    expect_logs(&rt, rt.alloc(), &CASES);
}

/// A message with the number 00.
const OF_00: &[u8] = b"#A00\nTEST\n;\n";

#[test]
fn prints_the_number_00_each_time(rt: HostRuntime) {
    const LOG: &[u8] = b"[EA00 2025-01-01 00:40:00 full 0/5]\nTEST\n\n\
        [EA00 2025-01-01 04:40:00 full 0/5]\nTEST\n\n\
        [EA00 2025-01-01 08:40:00 full 0/5]\nTEST\n\n";
    static CASES: [Heard; 2] = [
        (
            "nothing is refused",
            &[
                Sent(NOW, OF_00, WHOLE),
                Sent(LATER, OF_00, WHOLE),
                Sent(LATEST, OF_00, WHOLE),
            ],
            LOG,
        ),
        (
            "the station is refused",
            &[
                Text(b"RS E\n"),
                Sent(NOW, OF_00, WHOLE),
                Sent(LATER, OF_00, WHOLE),
                Sent(LATEST, OF_00, WHOLE),
            ],
            b"",
        ),
    ];
    expect_logs(&rt, rt.alloc(), &CASES);
}

/// Messages 01 of subject A and 02 of subject B, and then 05 of C and 06 of L.
const TWO: &[u8] = b"#A01\nTEST\n;\n#B02\n;\n";

const TWO_OTHERS: &[u8] = b"#C05\nTEST\n;\n#L06\nTEST\n;\n";

/// Second sendings are lost.
const RX_LOST: &[Damage<'static>] = &[["rx", "145", "57"]];

#[test]
fn prints_each_message_once(rt: HostRuntime) {
    const LOG_OF_TWO: &[u8] = b"[EA01 2025-01-01 00:40:00 full 0/5]\nTEST\n\n\
        [EB02 2025-01-01 00:40:00 full 0/0]\n\n";
    static CASES: [Heard; 4] = [
        ("once", &[Sent(NOW, TWO, WHOLE)], LOG_OF_TWO),
        (
            "twice",
            &[Sent(NOW, TWO, WHOLE), Sent(LATER, TWO, WHOLE)],
            LOG_OF_TWO,
        ),
        (
            "four elements between two emissions, of which the second has lost second sendings",
            &[
                Text(AIR_FILE_OF_EA01),
                Text(b"B 0110\n"),
                Sent(LATER, MESSAGE_FILE, RX_LOST),
            ],
            LOG_OF_EA01,
        ),
        (
            "one of two subjects is refused",
            &[Text(b"RJ C\n"), Sent(NOW, TWO_OTHERS, WHOLE)],
            b"[EL06 2025-01-01 00:40:00 full 0/5]\nTEST\n\n",
        ),
    ];
    expect_logs(&rt, rt.alloc(), &CASES);
}
