//! A judge's answers over both memories.

ghost use Rattle.std.specs.Prelude.{◌≤◌};
ghost use Rattle.nx_memory.specs.Memory.{newest_moment};

use super::super::{AGAIN, FIRST, SECOND, first_copy};
use nx_copies::judge;
use nx_envelope::{Found, Identity};
use nx_memory::{PlainRecall, Recall, RingRecall};
use nx_receiver::EntryHead;

/// Whether a copy is printed that was found at this moment.
fn judge_found<M: Recall>(found: &Found, moment: u64, selected: bool, memory: &mut M) -> bool
    requires { newest_moment (M.content memory.old) ≤ moment }
    ensures { newest_moment (M.content memory.new) ≤ moment }
{
    let head = EntryHead {
        identity: found.identity,
        moment,
        how: found.how,
        errors: found.errors,
    };
    judge(&head, &found.text, selected, memory)
}

/// What a memory makes of copies that follow one another.
fn judge_copies<M: Recall>(memory: &mut M) -> Option<[bool; 8]>
    requires { newest_moment (M.content memory.old) ≤ FIRST }
    ensures { newest_moment (M.content memory.new) ≤ SECOND }
{
    let good = first_copy(b"ZCZC EA01\nABCDEFGHIJKLMNOPQRSTUVWXY\nNNNN")?;
    let four_per_cent = first_copy(b"ZCZC EA01\n*BCDEFGHIJKLMNOPQRSTUVWX\nNNNN")?;
    let numbered_00 = first_copy(b"ZCZC EA00\nTEST\nNNNN")?;
    Some([
        // One of 25 characters is lost: it is printed, and not remembered.
        judge_found(&four_per_cent, FIRST, true, memory),
        judge_found(&four_per_cent, FIRST, true, memory),
        // What isn't selected is neither printed nor remembered.
        judge_found(&good, FIRST, false, memory),
        judge_found(&good, FIRST, true, memory),
        // From then on no copy is printed.
        judge_found(&good, SECOND, true, memory),
        judge_found(&four_per_cent, SECOND, true, memory),
        // The number 00 is printed each time.
        judge_found(&numbered_00, SECOND, true, memory),
        judge_found(&numbered_00, SECOND, true, memory),
    ])
}

#[test]
fn judges(rt: HostRuntime) {
    let judged = [true, true, false, true, false, false, true, true];
    let mut plain = PlainRecall::new();
    assert_eq!(rt; judge_copies(&mut plain), Some(judged));
    let mut ring = RingRecall::new(rt.alloc()).expect(&rt, "memory");
    assert_eq!(rt; judge_copies(&mut ring), Some(judged));
    let name = Identity::new(b'E', b'A', 1).expect(&rt, "EA01");
    // A repeat that isn't printed renews nothing.
    assert!(rt; plain.knows(&name, AGAIN - 1));
    assert!(rt; !plain.knows(&name, AGAIN));
}
