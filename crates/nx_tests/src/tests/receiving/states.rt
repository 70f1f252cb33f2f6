//! The text of a state, read and written, and runs that resume from it.

use super::super::{EA01, SECOND, expect_text, sent, shown};
use nx_fec::Counting;
use nx_receiver::{
    ListenFault, MomentFault, Report, ResumeFault, StateFault, Want, read_state, resume,
    write_state,
};

const STATE: &[u8] = b"STATE 2\nC0\nRS A\nRJ E\nEA01 5\nC1\nC2\nEB02 7\nEND\n";

/// A state is read up to its last line feed, and written as it was.
#[test]
fn reads_and_writes_a_state(rt: HostRuntime) {
    let mut input = STATE.to_vec(rt.alloc()).expect(&rt, "memory");
    input.extend_from_slice(b"T 5\n").expect(&rt, "memory");
    let mut reader = Counting::new(input.as_slice());
    let states = read_state(&mut reader).expect(&rt, "state");
    expect_text(&rt, "left", reader.into_inner(), b"T 5\n");
    let mut writer = Counting::new(Vec::new(rt.alloc()));
    write_state(&states, &mut writer).expect(&rt, "writing");
    expect_text(&rt, "written", &writer.into_inner(), STATE);
}

/// What was printed four hours ago is counted and not printed again, and stays saved.
#[test]
fn resumes(rt: HostRuntime) {
    let mut input = b"STATE 1\nEA01 1735692000\nEND\n"
        .to_vec(rt.alloc())
        .expect(&rt, "memory");
    input
        .extend_from_slice(&sent(&rt, rt.alloc(), EA01, SECOND))
        .expect(&rt, "memory");
    static CASES: [(&str, Want, &[u8]); 2] = [
        ("the log", Want::Log, b""),
        (
            "the state",
            Want::State,
            b"STATE 2\nC0\nEA01 1735692000\nC1\nC2\nEND\n",
        ),
    ];
    for (row, want, written) in &CASES {
        let mut reader = Counting::new(input.as_slice());
        let mut writer = Counting::new(Vec::new(rt.alloc()));
        let report = Report {
            lines: 4,
            bits: 1_421,
            printed: 0,
        };
        let outcome = resume(rt.alloc(), &mut reader, &mut writer, *want);
        assert_eq!(rt; outcome, Ok(report), "{row}");
        expect_text(&rt, row, &writer.into_inner(), written);
    }
}

/// A state or the air file behind it is refused by its own line, and nothing is written.
#[test]
fn faults_of_states(rt: HostRuntime) {
    let back = ListenFault::Moment {
        line: 1,
        fault: MomentFault::Back { last: 5, given: 4 },
    };
    let cases: [(&[u8], ResumeFault); 3] = [
        (
            b"STATE 1\nRS B\nRS A\n",
            ResumeFault::State(StateFault::StateLine { line: 3 }),
        ),
        (
            b"STATE 1\nEN",
            ResumeFault::State(StateFault::StateCut { line: 2 }),
        ),
        (b"STATE 1\nEA01 5\nEND\nT 4\n", ResumeFault::Listen(back)),
    ];
    for (input, fault) in cases {
        let mut writer = Counting::new(Vec::new(rt.alloc()));
        let outcome = resume(
            rt.alloc(),
            &mut Counting::new(input),
            &mut writer,
            Want::State,
        );
        assert_eq!(rt; outcome, Err(fault), "{}", shown(input));
        expect_text(&rt, shown(input), &writer.into_inner(), b"");
    }
}
