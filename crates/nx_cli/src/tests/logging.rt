//! `navtex log` on arguments and bytes: which entries are asked for, in which form, and what it
//! refuses.

use super::air::join;
use super::{expect_fault, expect_output, run_on};

const FIRST: &[u8] = b"[EA01 2025-01-01 00:40:00 full 0/5]\nTEST\n\n";

const SECOND: &[u8] = b"[FB02/1 2025-01-01 00:50:00 cut 1/3]\nA*B\n\n";

const BOTH: &[u8] =
    b"[EA01 2025-01-01 00:40:00 full 0/5]\nTEST\n\n[FB02/1 2025-01-01 00:50:00 cut 1/3]\nA*B\n\n";

#[test]
fn selects_entries(rt: HostRuntime) {
    static ROWS: [(&[&str], &[u8]); 13] = [
        (&["navtex", "log"], BOTH),
        (&["navtex", "log", "--station", "ZEE"], FIRST),
        (&["navtex", "log", "--subject=B"], SECOND),
        (&["navtex", "log", "--channel", "1"], SECOND),
        (&["navtex", "log", "--channel", "2"], b""),
        (&["navtex", "log", "--since", "1735692001"], SECOND),
        (
            &["navtex", "log", "--since", "2025-01-01T00:50:00Z"],
            SECOND,
        ),
        (&["navtex", "log", "--until", "2025-01-01T00:40:00"], FIRST),
        (&["navtex", "log", "--until", "2025-01-01 00:40"], FIRST),
        (&["navtex", "log", "--since", "2025-01-01T00:41Z"], SECOND),
        (
            &[
                "navtex",
                "log",
                "--since",
                "2025-01-01",
                "--until",
                "2025-01-01",
            ],
            BOTH,
        ),
        (&["navtex", "log", "--good"], FIRST),
        (
            &["navtex", "log", "--json", "--subject", "AC"],
            b"{\"channel\":0,\"characters\":5,\"end\":\"full\",\"errors\":0,\"good\":true,\"identity\":\"EA01\",\"moment\":1735692000,\"number\":1,\"station\":\"E\",\"subject\":\"A\",\"text\":\"TEST\\n\",\"time\":\"2025-01-01T00:40:00Z\"}\n",
        ),
    ];
    for &(arguments, output) in &ROWS {
        expect_output(
            &rt,
            rt.alloc(),
            arguments[arguments.len() - 1],
            arguments,
            BOTH,
            output,
        );
    }
}

/// Of a message with a lost letter, the same whole four hours later, and again.
const WORSE: &[u8] = b"[EA01 2025-01-01 00:40:00 full 1/5]\nTE*T\n\n";

const BETTER: &[u8] = b"[EA01 2025-01-01 04:40:00 full 0/5]\nTEST\n\n";

const AGAIN: &[u8] = b"[EA01 2025-01-01 08:40:00 full 0/5]\nTEST\n\n";

#[test]
fn gives_the_last_entries(rt: HostRuntime) {
    let below_66_hours: &[u8] = b"[EA01 2025-01-03 22:39:59 full 0/5]\nTEST\n\n";
    let at_66_hours: &[u8] = b"[EA01 2025-01-03 22:40:00 full 0/5]\nTEST\n\n";
    let urgent: &[u8] = b"[ED00 2025-01-01 00:40:00 full 0/5]\nTEST\n\n";
    let on_channel_1: &[u8] = b"[EA01/1 2025-01-01 08:40:00 full 0/5]\nTEST\n\n";
    let cut: &[u8] = b"[EA01 2025-01-01 08:40:00 cut 0/5]\nTEST\n\n";
    let rows: [(&str, &[&[u8]], &[&[u8]]); 9] = [
        ("better, and as good", &[WORSE, BETTER, AGAIN], &[AGAIN]),
        ("worse behind", &[BETTER, WORSE], &[BETTER, WORSE]),
        ("earlier", &[AGAIN, BETTER], &[AGAIN, BETTER]),
        (
            "below 66 hours",
            &[BETTER, below_66_hours],
            &[below_66_hours],
        ),
        ("66 hours", &[BETTER, at_66_hours], &[BETTER, at_66_hours]),
        ("numbered 00", &[urgent, urgent], &[urgent, urgent]),
        (
            "another channel",
            &[WORSE, on_channel_1],
            &[WORSE, on_channel_1],
        ),
        ("cut behind full", &[WORSE, cut], &[WORSE, cut]),
        ("another between", &[WORSE, SECOND, AGAIN], &[SECOND, AGAIN]),
    ];
    for (row, log, wanted) in rows {
        let log = join(&rt, rt.alloc(), log);
        let wanted = join(&rt, rt.alloc(), wanted);
        let arguments = ["navtex", "log", "--last"];
        expect_output(&rt, rt.alloc(), row, &arguments, &log, &wanted);
    }
}

/// The log of EA01 as a watch keeps it, and of both entries.
const FIRST_KEPT: &[u8] = b"\n[EA01 2025-01-01 00:40:00 full 0/5]\nTEST\n\n ";

const BOTH_KEPT: &[u8] =
    b"\n[EA01 2025-01-01 00:40:00 full 0/5]\nTEST\n\n\n[FB02/1 2025-01-01 00:50:00 cut 1/3]\nA*B\n\n ";

#[test]
fn keeps_entries(rt: HostRuntime) {
    assert_eq!(rt; FIRST_KEPT.len(), 44);
    let rows: [(&[&str], &[u8], &[u8]); 6] = [
        (&["navtex", "log", "--keep"], FIRST, FIRST_KEPT),
        (&["navtex", "log", "--keep"], BOTH, BOTH_KEPT),
        (&["navtex", "log", "--keep"], BOTH_KEPT, BOTH_KEPT),
        (&["navtex", "log", "--keep", "--good"], BOTH, FIRST_KEPT),
        (&["navtex", "log", "--keep", "--last"], BOTH, BOTH_KEPT),
        (&["navtex", "log", "--keep", "--channel=2"], BOTH, b""),
    ];
    for (arguments, log, kept) in rows {
        let row = arguments[arguments.len() - 1];
        expect_output(&rt, rt.alloc(), row, arguments, log, kept);
    }
    let bad = join(&rt, rt.alloc(), &[FIRST, b"TEST\n"]);
    let line = b"navtex: line 4 is not of a log\n";
    let ended = run_on(rt.alloc(), &["navtex", "log", "--keep"], &bad);
    ended.expect(&rt, "a bad log", 2, FIRST_KEPT, line);
    let passed = b"navtex: line 4 is not of a log, and was passed over\n\
        navtex: line 4 is not of a log\n";
    let ended = run_on(rt.alloc(), &["navtex", "log", "--keep", "--salvage"], &bad);
    ended.expect(&rt, "mended", 2, FIRST_KEPT, passed);
}

/// The log of EA01 as a watch keeps it, with what a crash left behind its last space.
const FIRST_TORN: &[u8] = b"\n[EA01 2025-01-01 00:40:00 full 0/5]\nTEST\n\n [EA02 2025";

#[test]
fn reads_a_kept_log(rt: HostRuntime) {
    let line =
        b"{\"channel\":0,\"characters\":5,\"end\":\"full\",\"errors\":0,\"good\":true,\"identity\":\"EA01\",\"moment\":1735692000,\"next\":43,\"number\":1,\"place\":0,\"station\":\"E\",\"subject\":\"A\",\"text\":\"TEST\\n\",\"time\":\"2025-01-01T00:40:00Z\"}\n";
    let behind =
        b"{\"channel\":0,\"characters\":5,\"end\":\"full\",\"errors\":0,\"good\":true,\"identity\":\"EA01\",\"moment\":1735692000,\"next\":1043,\"number\":1,\"place\":1000,\"station\":\"E\",\"subject\":\"A\",\"text\":\"TEST\\n\",\"time\":\"2025-01-01T00:40:00Z\"}\n";
    let rows: [(&[&str], &[u8], &[u8]); 9] = [
        (&["navtex", "log", "--kept"], FIRST_KEPT, FIRST),
        (&["navtex", "log", "--kept"], BOTH_KEPT, BOTH),
        (&["navtex", "log", "--kept"], FIRST_TORN, FIRST),
        (&["navtex", "log", "--kept"], &FIRST_KEPT[43..], b""),
        (&["navtex", "log", "--kept"], b"", b""),
        (&["navtex", "log", "--kept", "--json"], FIRST_TORN, line),
        (
            &["navtex", "log", "--kept", "--json", "--from", "1000"],
            FIRST_KEPT,
            behind,
        ),
        (
            &["navtex", "log", "--kept", "--keep"],
            FIRST_TORN,
            FIRST_KEPT,
        ),
        (&["navtex", "log", "--kept", "--last"], BOTH_KEPT, BOTH),
    ];
    for (arguments, log, wanted) in rows {
        let row = arguments[arguments.len() - 1];
        expect_output(&rt, rt.alloc(), row, arguments, log, wanted);
    }
    let kept = ["navtex", "log", "--kept"];
    let line_1 = "navtex: line 1 is not of a log\n";
    expect_fault(&rt, rt.alloc(), "kept-foreign", &kept, FIRST, (2, line_1));
    let damaged = b"\n[EA01 2025-01-01 00:40:00 full 0/5]\n\0EST\n\n ";
    let line = "navtex: line 3 is not of a log\n";
    expect_fault(&rt, rt.alloc(), "kept-damaged", &kept, damaged, (2, line));
    let behind = join(&rt, rt.alloc(), &[&FIRST_KEPT[..43], FIRST]);
    let ended = run_on(rt.alloc(), &kept, &behind);
    ended.expect(
        &rt,
        "no gate behind",
        2,
        FIRST,
        b"navtex: line 5 is not of a log\n",
    );
    let early = &FIRST_KEPT[..41];
    let line = "navtex: line 3 is not of a log\n";
    expect_fault(&rt, rt.alloc(), "ends too early", &kept, early, (2, line));
}

#[test]
fn refuses_values_and_bytes(rt: HostRuntime) {
    static ROWS: [(&[&str], u8, &str); 14] = [
        (
            &["navtex", "log", "--since", "now"],
            64,
            "error: invalid value 'now' for '--since <TIME>'\n\n  tip: TIME is 2025-01-01 or '2025-01-01 00:40', in UTC, or seconds since 1970, not of 4 or 8 digits: $(date -ud '12 hours ago' +%s)\n\nFor more information, try '--help'.\n",
        ),
        (
            &["navtex", "log", "--since", "2025"],
            64,
            "error: invalid value '2025' for '--since <TIME>'\n\n  tip: TIME is 2025-01-01 or '2025-01-01 00:40', in UTC, or seconds since 1970, not of 4 or 8 digits: $(date -ud '12 hours ago' +%s)\n\nFor more information, try '--help'.\n",
        ),
        (
            &["navtex", "log", "--until=20250101"],
            64,
            "error: invalid value '20250101' for '--until <TIME>'\n\n  tip: TIME is 2025-01-01 or '2025-01-01 00:40', in UTC, or seconds since 1970, not of 4 or 8 digits: $(date -ud '12 hours ago' +%s)\n\nFor more information, try '--help'.\n",
        ),
        (
            &["navtex", "log", "--channel", "3"],
            64,
            "error: invalid value '3' for '--channel <N>'\n\n  tip: N is 0, 1 or 2\n\nFor more information, try '--help'.\n",
        ),
        (
            &["navtex", "log", "--subject="],
            64,
            "error: invalid value '' for '--subject <LETTERS>'\n\n  tip: LETTERS are one letter A to Z or more, as AE, with nothing between them\n\nFor more information, try '--help'.\n",
        ),
        (
            &["navtex", "log", "--keep", "--json"],
            64,
            "error: the argument '--json' cannot be used with '--keep'\n\nFor more information, try '--help'.\n",
        ),
        (
            &["navtex", "log", "--kept", "--salvage"],
            64,
            "error: the argument '--kept' cannot be used with '--salvage'\n\nFor more information, try '--help'.\n",
        ),
        (
            &["navtex", "log", "--from", "43"],
            64,
            "error: the argument '--from <N>' needs '--kept'\n\nFor more information, try '--help'.\n",
        ),
        (
            &["navtex", "log", "--kept", "--from=9223372036854775808"],
            64,
            "error: invalid value '9223372036854775808' for '--from <N>'\n\n  tip: N is digits, at most 9223372036854775807\n\nFor more information, try '--help'.\n",
        ),
        (
            &["navtex", "log", "--kept", "--from=+5"],
            64,
            "error: invalid value '+5' for '--from <N>'\n\n  tip: N is digits, at most 9223372036854775807\n\nFor more information, try '--help'.\n",
        ),
        (
            &["navtex", "log", "--since=2025-01-02", "--until=2025-01-01"],
            64,
            "error: the time of '--since <TIME>' is later than that of '--until <TIME>'\n\nFor more information, try '--help'.\n",
        ),
        (
            &["navtex", "log", "--since=2025-01-01", "--until=2025-01-01"],
            2,
            "navtex: line 1 is not of a log\n",
        ),
        (&["navtex", "log"], 2, "navtex: line 1 is not of a log\n"),
        (
            &["navtex", "log", "--json"],
            2,
            "navtex: line 1 is not of a log\n",
        ),
    ];
    for &(arguments, status, line) in &ROWS {
        expect_fault(&rt, rt.alloc(), line, arguments, b"TEST\n", (status, line));
    }
}

#[test]
fn goes_on_behind_a_torn_entry(rt: HostRuntime) {
    let torn = join(&rt, rt.alloc(), &[FIRST, b"[BB08 2026-\n", FIRST]);
    let both = join(&rt, rt.alloc(), &[FIRST, FIRST]);
    let told = b"navtex: line 4: a torn entry was passed over\n";
    let ended = run_on(rt.alloc(), &["navtex", "log"], &torn);
    ended.expect(&rt, "log-torn", 0, &both, told);
    let refused = join(&rt, rt.alloc(), &[&torn, b"TEST\n"]);
    let lines = b"navtex: line 4: a torn entry was passed over\nnavtex: line 8 is not of a log\n";
    let ended = run_on(rt.alloc(), &["navtex", "log"], &refused);
    ended.expect(&rt, "log-torn, and no log", 2, &both, lines);
}

#[test]
fn salvages(rt: HostRuntime) {
    let damaged = join(&rt, rt.alloc(), &[b"TEST\n", FIRST, b"[BB08 zz\n", SECOND]);
    let arguments = ["navtex", "log", "--salvage"];
    let lines = b"navtex: line 1 is not of a log, and was passed over\n\
        navtex: line 5 is not of a log, and was passed over\n\
        navtex: line 1 is not of a log\n";
    let ended = run_on(rt.alloc(), &arguments, &damaged);
    ended.expect(&rt, "two places", 2, BOTH, lines);
    let first = join(
        &rt,
        rt.alloc(),
        &[FIRST, b"[EA01 2025-01-01 00:40:00 full 0/5]\nTE\0T\n\n"],
    );
    let lines =
        b"navtex: line 5 is not of a log, and was passed over\nnavtex: line 5 is not of a log\n";
    let ended = run_on(rt.alloc(), &arguments, &first);
    ended.expect(&rt, "a damaged byte at the end", 2, FIRST, lines);
    let torn = join(&rt, rt.alloc(), &[FIRST, b"[BB08 2026-\n", SECOND]);
    let line = b"navtex: line 4: a torn entry was passed over\n";
    let ended = run_on(rt.alloc(), &arguments, &torn);
    ended.expect(&rt, "an entry that was torn", 0, BOTH, line);
}
