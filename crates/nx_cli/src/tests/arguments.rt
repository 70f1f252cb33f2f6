//! What the arguments of the command line are answered with.

use super::devices::{Sink, Source};
use super::{AIR_FILE_OF_A, expect_output, expect_text, output_of, run_on, shown};
use nx_fec::Counting;
use nx_program::laws::{
    arguments_in_examples, arguments_read_as_one, damage_in_examples, numbers_are_in_range,
    slots_in_examples, watch_in_examples,
};
use nx_program::log_laws::log_in_examples;
use nx_program::{NoFiles, answer};
use std::alloc::Global;
use std::io::{Error, ErrorKind};
use std::process::Abort;

// Expects that the arguments are answered with this status and, from its beginning on, this text of
// clap's: help on standard output, a refusal on standard error.
fn expect_answer(rt: &impl Abort, alloc: Global, arguments: &[&str], status: u8, text: &str) {
    let ended = run_on(alloc, arguments, AIR_FILE_OF_A);
    let (answer, other) = if status == 0 {
        (&ended.output, &ended.faults)
    } else {
        (&ended.faults, &ended.output)
    };
    assert!(rt;
        answer.starts_with(text.as_bytes()),
        "{:?} in place of {text:?}",
        shown(answer)
    );
    expect_text(rt, text, other, b"");
    assert!(rt;
        ended.status == status,
        "{text}: status {} in place of {status}",
        ended.status
    );
}

const MISSING: &str = "error: 'navtex' requires a subcommand but one was not provided\n";

#[test]
fn reads_its_arguments(rt: HostRuntime) {
    static ROWS: [(&[&str], u8, &str); 18] = [
        (
            &["navtex", "frob"],
            64,
            "error: unrecognized subcommand 'frob'\n\nUsage: navtex <COMMAND>\n",
        ),
        (&["navtex"], 64, MISSING),
        (&[], 64, MISSING),
        (
            &["navtex", "decode", "frob"],
            64,
            "error: unexpected argument 'frob' found\n\nUsage: navtex decode < x.air\n",
        ),
        (
            &["navtex", "help"],
            0,
            "A NAVTEX broadcast station and receiver, for the elements of a signal",
        ),
        (
            &["navtex", "help", "help"],
            0,
            "A NAVTEX broadcast station and receiver, for the elements of a signal",
        ),
        (
            &["navtex", "help", "frob"],
            64,
            "error: unrecognized subcommand 'frob'\n",
        ),
        (
            &["navtex", "--help"],
            0,
            "A NAVTEX broadcast station and receiver, for the elements of a signal",
        ),
        (
            &["navtex", "--version"],
            0,
            "navtex 1.2.0, proved with rattle-kit-13f logic dac8208d650f15bf\n",
        ),
        (
            &["navtex", "listen", "--version"],
            64,
            "error: unexpected argument '--version' found\n",
        ),
        (
            &["navtex", "encode", "-h"],
            0,
            "Write a text as an air file\n\nUsage: navtex encode < x.txt\n",
        ),
        (
            &["navtex", "decode", "--help"],
            0,
            "Print the text of an air file.\n\nAn air file is a text of what is on the air.",
        ),
        (
            &["navtex", "damage", "-h"],
            0,
            "Copy an air file with some of its words damaged\n\nUsage: navtex damage <KIND> <FROM> <COUNT> < x.air\n",
        ),
        (
            &["navtex", "damage", "tx", "0", "4294967296"],
            64,
            "error: invalid value '4294967296' for '<COUNT>'",
        ),
        (
            &["navtex", "watch", "-h"],
            0,
            "Keep the log of a receiver that is left on\n\nUsage: navtex watch [--combine] <FILE> <MOMENT> < x.air\n",
        ),
        (
            &["navtex", "log", "-h"],
            0,
            "Print the entries of a log that are asked for\n\nUsage: navtex log [OPTIONS] < x.log\n",
        ),
        (
            &["navtex", "log", "--good", "--good"],
            64,
            "error: the argument '--good' cannot be used multiple times\n",
        ),
        (
            &["navtex", "log", "--since", "0", "--since", "0"],
            64,
            "error: the argument '--since <TIME>' cannot be used multiple times\n",
        ),
    ];
    for &(arguments, status, text) in &ROWS {
        expect_answer(&rt, rt.alloc(), arguments, status, text);
    }
}

// `help` prints what `--help` prints, of the program and of each command.
#[test]
fn helps_by_a_command(rt: HostRuntime) {
    let alloc = rt.alloc();
    let whole = output_of(alloc, &["navtex", "--help"], b"");
    expect_output(&rt, alloc, "help", &["navtex", "help"], b"", &whole);
    for name in [
        "listen", "watch", "log", "send", "resume", "save", "locks", "slots", "check", "damage",
        "decode", "encode", "show", "code",
    ] {
        let long = output_of(alloc, &["navtex", name, "--help"], b"");
        assert!(rt; long.len() > 100, "{name}");
        expect_output(&rt, alloc, name, &["navtex", "help", name], b"", &long);
        expect_output(&rt, alloc, name, &["navtex", "help", name, "0"], b"", &long);
    }
}

// A MOMENT that is none is answered with what is wanted.
#[test]
fn tells_what_a_moment_is(rt: HostRuntime) {
    let tip =
        "'\n\n  tip: MOMENT is whole seconds since 1970-01-01 00:00:00 UTC, 0 to 32503679999; $(date +%s) gives now\n\nFor more information, try '--help'.\n";
    for (moment, line) in [
        ("now", "error: invalid value 'now' for '<MOMENT>"),
        (
            "2025-01-01",
            "error: invalid value '2025-01-01' for '<MOMENT>",
        ),
        (
            "32503680000",
            "error: invalid value '32503680000' for '<MOMENT>",
        ),
        (
            "18446744073709551616",
            "error: invalid value '18446744073709551616' for '<MOMENT>",
        ),
    ] {
        let mut text = line.as_bytes().to_vec(rt.alloc()).expect(&rt, "memory");
        text.extend_from_slice(tip.as_bytes()).expect(&rt, "memory");
        for command in ["send", "slots", "watch"] {
            let arguments = ["navtex", command, "E", moment];
            run_on(rt.alloc(), &arguments, b"").expect(&rt, moment, 64, b"", &text);
        }
    }
}

// Expects that the program ends so where its arguments can't be had for this reason, and calls
// neither input nor output.
fn expect_end_without_arguments(
    rt: &impl Abort,
    alloc: Global,
    kind: ErrorKind,
    status: u8,
    line: &str,
) {
    let input = Counting::new(Source::of(b""));
    let mut output = Counting::new(Sink::new(Vec::new(alloc)));
    let mut faults = Counting::new(Sink::new(Vec::new(alloc)));
    let arguments = Err(Error::from(kind));
    let ended = answer(alloc, arguments, input, &mut output, &mut faults, NoFiles);
    expect_text(rt, line, &faults.into_inner().taken, line.as_bytes());
    assert!(rt;
        ended.status == status,
        "{line}: status {} in place of {status}",
        ended.status
    );
    let input = ended.input.into_inner();
    assert!(rt; input.into_inner().calls == 0, "{line}");
    assert!(rt; output.into_inner().calls == 0, "{line}");
}

#[test]
fn answers_for_arguments_that_cannot_be_had(rt: HostRuntime) {
    let no_text = "navtex: a word of the command line is not UTF-8\n";
    let no_memory = "navtex: out of memory\n";
    for (kind, status, line) in [
        (ErrorKind::InvalidData, 64, no_text),
        (ErrorKind::OutOfMemory, 1, no_memory),
    ] {
        expect_end_without_arguments(&rt, rt.alloc(), kind, status, line);
    }
}

#[test]
fn states_its_laws() {
    arguments_read_as_one();
    arguments_in_examples();
    numbers_are_in_range();
    slots_in_examples();
    watch_in_examples();
    damage_in_examples();
    log_in_examples();
}
