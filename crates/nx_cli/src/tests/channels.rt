//! Air files of three channels: `listen` hears each by itself, and the other commands take
//! channel 0.

use super::air::Piece::{InTurn, Named, Part, Text};
use super::air::{
    Heard, LOG_OF_EA01, MOMENT_OF_EA01, Piece, Refused, alternating, damage_in, expect_log,
    expect_logs, expect_refusals, lines_of_ea01, made_of,
};
use super::station::AIR_FILE_OF_EA01;
use super::{expect_output, output_of, run_in_pieces};

/// The log of EA01 on channel 1.
pub const LOG_ON_CHANNEL_1: &[u8] = b"[EA01/1 2025-01-01 00:40:00 full 0/5]\nTEST\n\n";

/// The logs of EA01 on channels 0 and 1, and on channels 1 and 0.
pub const LOG_ON_BOTH: &[u8] = b"[EA01 2025-01-01 00:40:00 full 0/5]\nTEST\n\n\
    [EA01/1 2025-01-01 00:40:00 full 0/5]\nTEST\n\n";

const LOG_ON_1_AND_0: &[u8] = b"[EA01/1 2025-01-01 00:40:00 full 0/5]\nTEST\n\n\
    [EA01 2025-01-01 00:40:00 full 0/5]\nTEST\n\n";

#[test]
fn hears_channels(rt: HostRuntime) {
    const NOW: Piece = Text(MOMENT_OF_EA01);
    const IN_TURN: Piece = InTurn(false);
    static CASES: [Heard; 6] = [
        ("on 1", &[NOW, Named(b'1', 0, 1_421)], LOG_ON_CHANNEL_1),
        ("on 0", &[NOW, Named(b'0', 0, 1_421)], LOG_OF_EA01),
        ("on 0 and 1", &[IN_TURN], LOG_ON_BOTH),
        ("on 1 and 0", &[InTurn(true)], LOG_ON_1_AND_0),
        ("refused on 1", &[Text(b"RS1 E\n"), IN_TURN], LOG_OF_EA01),
        (
            "refused on 0",
            &[Text(b"RS E\n"), IN_TURN],
            LOG_ON_CHANNEL_1,
        ),
    ];
    expect_logs(&rt, rt.alloc(), &CASES);
}

#[test]
fn hears_two_channels_byte_by_byte(rt: HostRuntime) {
    let air_file = made_of(&rt, rt.alloc(), &[InTurn(false)]);
    let ended = run_in_pieces(rt.alloc(), &["navtex", "listen"], &air_file, 1);
    ended.expect(&rt, "byte by byte", 0, LOG_ON_BOTH, b"");
}

#[test]
fn closes_by_channel(rt: HostRuntime) {
    let pieces = [
        Text(MOMENT_OF_EA01),
        Named(b'2', 0, 1_323),
        Part(0, 1_323, 490),
    ];
    let log = b"[EA01 2025-01-01 00:40:00 cut 0/5]\nTEST\n\n\
        [EA01/2 2025-01-01 00:40:00 cut 0/5]\nTEST\n\n";
    expect_log(&rt, rt.alloc(), ("on 2 and 0", &pieces, log));
}

#[test]
fn refuses_lines_of_channels(rt: HostRuntime) {
    const BAD: &str = "navtex: line 1 is not understood\n";
    // A line that names its channel has 511.
    const ZEROS: Piece = Text(&[b'0'; 512]);
    static CASES: [Refused; 7] = [
        (&[Text(b"B3 1\n")], BAD),
        (&[Text(b"RS1E\n")], BAD),
        (&[Text(b"T1 5\n")], BAD),
        (
            &[Text(b"B1 "), ZEROS, Text(b"\n")],
            "navtex: line 1 is longer than 514 bytes\n",
        ),
        (
            &[Text(b"B2 1\n")],
            "navtex: line 1 has elements before any moment\n",
        ),
        (
            &[Text(b"RJ2 L\n")],
            "navtex: line 1: subject L can't be refused\n",
        ),
        (&[Text(b"T 5\nB1 1\nB1 1")], "navtex: line 3 has no end\n"),
    ];
    expect_refusals(&rt, rt.alloc(), &CASES);
}

#[test]
fn takes_channel_0_alone(rt: HostRuntime) {
    let alloc = rt.alloc();
    let air_file = made_of(&rt, alloc, &[InTurn(false)]);
    let locks = output_of(alloc, &["navtex", "locks"], AIR_FILE_OF_EA01);
    let cases: [(&str, &[u8]); 3] = [
        ("check", b"station E\n#A01\nTEST\n;\n"),
        ("decode", b"ZCZC EA01\nTEST\nNNNN\n\n"),
        ("locks", &locks),
    ];
    for (command, output) in cases {
        expect_output(&rt, alloc, command, &["navtex", command], &air_file, output);
    }
}

#[test]
fn damages_channel_0_alone(rt: HostRuntime) {
    let alloc = rt.alloc();
    let damaged = damage_in(alloc, "dx", "144", "59", AIR_FILE_OF_EA01);
    let lines = damaged.strip_prefix(MOMENT_OF_EA01).expect(&rt, "a moment");
    let both = alternating(&rt, alloc, lines, lines_of_ea01(&rt), false);
    let air_file = made_of(&rt, alloc, &[InTurn(false)]);
    let arguments = ["navtex", "damage", "dx", "144", "59"];
    expect_output(&rt, alloc, "on 0 and 1", &arguments, &air_file, &both);
}
