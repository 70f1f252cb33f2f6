//! Emissions through a receiver, over both memories, each in one piece and bit by bit.

ghost use Rattle.std.specs.Prelude.{◌<◌, ◌≤◌};
ghost use Rattle.nx_envelope.specs.Moment.{last_moment};

use super::super::{AGAIN, EA01, FIRST, LOG_OF_EA01, SECOND, elements_of, expect_text};
use nx_envelope::{Identity, Letter};
use nx_fec::Counting;
use nx_memory::{PlainRecall, Recall, RingRecall, Selection};
use nx_receiver::{Entry, MomentFault, Receiver, ReceiverFault, entry_text};
use std::alloc::Global;
use std::process::Abort;

/// A moment, and which of the emissions at hand is heard from it on.
type Heard = (u64, usize);

/// What is told of what is heard, what is heard, and the log.
type Case<'a> = (&'a str, &'a [Heard], &'a [u8]);

/// Appends an entry to a log.
fn add_entry(rt: &impl Abort, alloc: Global, log: &mut Vec<u8>, entry: &Entry)
    requires { entry.now.moment ≤ last_moment }
{
    let mut writer = Counting::new(Vec::new(alloc));
    entry_text(entry, &mut writer).expect(rt, "writing");
    log.extend_from_slice(&writer.into_inner())
        .expect(rt, "memory");
}

/// Feeds one piece, and goes on behind each entry.
fn hear<M: Recall>(
    rt: &impl Abort,
    alloc: Global,
    receiver: &mut Receiver<M>,
    bits: &[bool],
    log: &mut Vec<u8>,
) {
    let mut at = 0;
    while at < bits.len() {
        let (count, entry) = receiver.feed(&bits[at..]);
        at += count;
        if let Some(entry) = entry {
            add_entry(rt, alloc, log, &entry);
        }
    }
}

/// The log of all that a receiver hears of these emissions, in pieces of this length.
fn log_of<M: Recall>(
    rt: &impl Abort,
    alloc: Global,
    memory: M,
    emissions: &[&[bool]],
    heard: &[Heard],
    length: usize,
) -> Vec<u8>
    requires { 0 < length }
{
    let mut receiver = Receiver::new(alloc, memory, 0).expect(rt, "receiver");
    let mut log = Vec::new(alloc);
    for (moment, which) in heard {
        receiver.set_moment(*moment).expect(rt, "moment");
        let bits = emissions.get(*which).expect(rt, "an emission");
        for piece in bits.chunks(length) {
            hear(rt, alloc, &mut receiver, piece, &mut log);
        }
    }
    if let Some(entry) = receiver.close() {
        add_entry(rt, alloc, &mut log, &entry);
    }
    log
}

/// Expects this log, with either memory, in pieces of this length.
fn expect_log(rt: &impl Abort, alloc: Global, emissions: &[&[bool]], case: Case, length: usize)
    requires { 0 < length }
{
    let (row, heard, log) = case;
    let plain = log_of(rt, alloc, PlainRecall::new(), emissions, heard, length);
    let ring = log_of(
        rt,
        alloc,
        RingRecall::new(alloc).expect(rt, "memory"),
        emissions,
        heard,
        length,
    );
    expect_text(rt, row, &plain, log);
    expect_text(rt, row, &ring, log);
}

/// Expects that each of these is heard so, in one piece and bit by bit.
fn expect_logs(rt: &impl Abort, alloc: Global, emissions: &[&[bool]], cases: &[Case]) {
    for case in cases {
        expect_log(rt, alloc, emissions, *case, usize::MAX);
        expect_log(rt, alloc, emissions, *case, 1);
    }
}

/// Inverts the first element of each of these words.
fn damage(bits: &mut [bool], words: &[u16]) {
    for word in words {
        if let Some(bit) = bits.get_mut(7 * usize::from(*word)) {
            *bit = !*bit;
        }
    }
}

/// These elements in a row.
fn joined(rt: &impl Abort, alloc: Global, pieces: &[&[bool]]) -> Vec<bool> {
    let mut all = Vec::new(alloc);
    for piece in pieces {
        all.extend_from_slice(*piece).expect(rt, "memory");
    }
    all
}

/// Behind the four words of a lock three elements slip in, or one word is lost, so that the roles
/// are swapped.
#[test]
fn slipped_and_swapped(rt: HostRuntime) {
    let whole = elements_of(&rt, rt.alloc(), EA01);
    let four_words = whole.get(..28).expect(&rt, "elements");
    let but_one_word = whole.get(7..).expect(&rt, "elements");
    let slipped = joined(&rt, rt.alloc(), &[four_words, &[false; 3], &whole]);
    let swapped = joined(&rt, rt.alloc(), &[four_words, but_one_word]);
    let cases: [Case; 2] = [
        ("slipped", &[(FIRST, 0)], LOG_OF_EA01),
        ("swapped", &[(FIRST, 1)], LOG_OF_EA01),
    ];
    expect_logs(&rt, rt.alloc(), &[&slipped, &swapped], &cases);
}

#[test]
fn damaged_and_cut(rt: HostRuntime) {
    let whole = elements_of(&rt, rt.alloc(), EA01);
    assert_eq!(rt; whole.len(), 1_421);
    // The figure shift is lost in both words.
    let mut lost = whole.clone().expect(&rt, "memory");
    damage(&mut lost, &[160, 165]);
    // Each DX word of the message from its letter shift on is damaged.
    let mut half = whole.clone().expect(&rt, "memory");
    for pair in 72..102 {
        damage(&mut half, &[2 * pair]);
    }
    let cut = whole.get(..1_323).expect(&rt, "elements");
    static CASES: [Case; 5] = [
        ("whole", &[(FIRST, 0)], LOG_OF_EA01),
        ("the figure shift is lost", &[(FIRST, 1)], b""),
        ("half of it is damaged", &[(FIRST, 2)], LOG_OF_EA01),
        (
            "cut",
            &[(FIRST, 3)],
            b"[EA01 2025-01-01 00:40:00 cut 0/5]\nTEST\n\n",
        ),
        (
            "cut, and then whole",
            &[(FIRST, 3), (SECOND, 0)],
            b"[EA01 2025-01-01 00:40:00 cut 3/8]\nTEST\n***\n\n\
            [EA01 2025-01-01 04:40:00 full 0/5]\nTEST\n\n",
        ),
    ];
    expect_logs(&rt, rt.alloc(), &[&whole, &lost, &half, cut], &CASES);
}

#[test]
fn repeats(rt: HostRuntime) {
    let ea01 = elements_of(&rt, rt.alloc(), EA01);
    let ea00 = elements_of(&rt, rt.alloc(), b"#A00\nTEST\n;\n");
    let two = elements_of(&rt, rt.alloc(), b"#A01\nTEST\n;\n#B02\n;\n");
    assert_eq!(rt; two.len(), 2_219);
    static CASES: [Case; 4] = [
        ("a repeat", &[(FIRST, 0), (SECOND, 0)], LOG_OF_EA01),
        (
            "66 hours later",
            &[(FIRST, 0), (AGAIN - 1, 0), (AGAIN, 0)],
            b"[EA01 2025-01-01 00:40:00 full 0/5]\nTEST\n\n\
            [EA01 2025-01-03 18:40:00 full 0/5]\nTEST\n\n",
        ),
        (
            "the number 00",
            &[(FIRST, 1), (FIRST, 1), (FIRST, 1)],
            b"[EA00 2025-01-01 00:40:00 full 0/5]\nTEST\n\n\
            [EA00 2025-01-01 00:40:00 full 0/5]\nTEST\n\n\
            [EA00 2025-01-01 00:40:00 full 0/5]\nTEST\n\n",
        ),
        (
            "two messages",
            &[(FIRST, 2), (SECOND, 2)],
            b"[EA01 2025-01-01 00:40:00 full 0/5]\nTEST\n\n\
            [EB02 2025-01-01 00:40:00 full 0/0]\n\n",
        ),
    ];
    expect_logs(&rt, rt.alloc(), &[&ea01, &ea00, &two], &CASES);
}

#[test]
fn moments(rt: HostRuntime) {
    let range = Some(ReceiverFault::MomentRange);
    let late = Receiver::new(rt.alloc(), PlainRecall::new(), 32_503_680_000);
    assert_eq!(rt; late.err(), range);
    let mut memory = PlainRecall::new();
    memory.enter(Identity::new(b'E', b'A', 1).expect(&rt, "EA01"), 5);
    assert_eq!(rt; Receiver::new(rt.alloc(), memory, 4).err(), range);
    let mut receiver = Receiver::new(rt.alloc(), PlainRecall::new(), 0).expect(&rt, "receiver");
    let cases = [
        (5, Ok(())),
        (4, Err(MomentFault::Back { last: 5, given: 4 })),
        (
            32_503_680_000,
            Err(MomentFault::Range {
                given: 32_503_680_000,
            }),
        ),
        (5, Ok(())),
    ];
    for (moment, outcome) in cases {
        assert_eq!(rt; receiver.set_moment(moment), outcome, "{moment}");
    }
}

#[test]
fn commands(rt: HostRuntime) {
    let e = Letter::new(b'E').expect(&rt, "E");
    let d = Letter::new(b'D').expect(&rt, "D");
    let ee01 = Identity::new(b'E', b'E', 1).expect(&rt, "EE01");
    let mut receiver = Receiver::new(rt.alloc(), PlainRecall::new(), 0).expect(&rt, "receiver");
    assert!(rt; receiver.admits(&ee01));
    receiver.refuse_station(e);
    assert!(rt; !receiver.admits(&ee01));
    receiver.accept_station(e);
    assert!(rt; receiver.admits(&ee01));
    assert!(rt; receiver.refuse_subject(e).is_ok());
    assert!(rt; !receiver.admits(&ee01));
    receiver.accept_subject(e);
    assert!(rt; receiver.admits(&ee01));
    assert!(rt; receiver.refuse_subject(d).is_err());
    // A selection that is set takes the place of the one in force.
    let mut selection = Selection::all();
    selection.refuse_station(e);
    receiver.set_selection(&selection);
    assert!(rt; !receiver.admits(&ee01));
    assert!(rt; receiver.saved().selection().refuses_station(e));
    assert!(rt; receiver.close().is_none());
}
