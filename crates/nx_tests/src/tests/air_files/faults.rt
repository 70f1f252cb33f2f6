//! The texts of faults.

use super::super::expect_told;
use nx_fec::{ReadFault, RunFault, WriteFault};
use std::alloc::AllocError;

#[test]
fn texts_of_faults(rt: HostRuntime) {
    static CASES: [(RunFault, &str); 9] = [
        (RunFault::Read, "read failed"),
        (RunFault::FileTooLong, "file longer than 1048576 bytes"),
        (
            RunFault::LineLong { line: 2 },
            "line 2 is longer than 514 bytes",
        ),
        (RunFault::LineCut { line: 3 }, "line 3 has no end"),
        (RunFault::BadLine { line: 4 }, "line 4 is not understood"),
        (
            RunFault::Ragged { bits: 8 },
            "8 elements are no whole words",
        ),
        (
            RunFault::NoSuchCharacter { at: 0 },
            "no signal for the character at 0",
        ),
        (
            RunFault::Write { written: 10 },
            "write failed after 10 bytes",
        ),
        (RunFault::Memory(AllocError), "out of memory"),
    ];
    for (fault, text) in &CASES {
        expect_told(&rt, rt.alloc(), fault, text);
    }
    static READ_CASES: [(ReadFault, &str); 3] = [
        (ReadFault::Read, "read failed"),
        (ReadFault::FileTooLong, "file longer than 1048576 bytes"),
        (ReadFault::Memory(AllocError), "out of memory"),
    ];
    for (fault, text) in &READ_CASES {
        expect_told(&rt, rt.alloc(), fault, text);
    }
    let fault = WriteFault { written: 10 };
    expect_told(&rt, rt.alloc(), &fault, "write failed after 10 bytes");
}
