//! The worked examples of selection and memory. Those of a memory run over any `Recall`.

ghost use Rattle.std.specs.Prelude.{◌≡◌, ◌<◌, ◌≤◌, []};
ghost use Rattle.nx_memory.specs.Memory.{newest_moment};

use super::{expect_text, expect_told};
use nx_envelope::{Identity, Letter};
use nx_memory::{
    CAPACITY, Listed, PlainRecall, Recall, RingRecall, Saved, SavedSet, Selection, StateReader,
    StateStep, Vital, laws, state_line,
};
use std::process::Abort;

/// 2025-01-01 00:40:00 UTC, the start of a slot of station E.
const SLOT_START: u64 = 1_735_692_000;

fn letter(rt: &impl Abort, byte: u8) -> Letter {
    Letter::new(byte).expect(rt, "a letter")
}

/// Enters an identity, which isn't known.
fn enter_unknown<M: Recall>(rt: &impl Abort, memory: &mut M, identity: Identity, moment: u64)
    requires not_before { newest_moment (M.content memory.old) ≤ moment }
    requires numbered { 0 < identity.number }
    ensures { newest_moment (M.content memory.new) ≤ moment }
{
    assert!(rt; !memory.knows(&identity, moment), "{identity:?} is known");
    memory.enter(identity, moment);
}

/// Enters the messages 01 to `last` of a station and a subject, none of which is known.
pub(super) fn enter_numbers<M: Recall>(
    rt: &impl Abort,
    memory: &mut M,
    station: u8,
    subject: u8,
    last: u8,
    moment: u64,
)
    requires { newest_moment (M.content memory.old) ≤ moment }
    ensures { newest_moment (M.content memory.new) ≤ moment }
{
    for number in 1..=last {
        if let Some(identity) = Identity::new(station, subject, number) {
            enter_unknown(rt, memory, identity, moment);
        }
    }
}

/// 199 entries later EA01 is still known, and no longer after one more.
fn check_forgetting<M: Recall>(rt: &impl Abort, memory: &mut M, moment: u64)
    requires { newest_moment (M.content memory.old) ≤ moment }
{
    let warning = Identity::new(b'E', b'A', 1).expect(rt, "EA01");
    let next = Identity::new(b'B', b'C', 2).expect(rt, "BC02");
    enter_unknown(rt, memory, warning, moment);
    enter_numbers(rt, memory, b'B', b'A', 99, moment);
    enter_numbers(rt, memory, b'B', b'B', 99, moment);
    enter_numbers(rt, memory, b'B', b'C', 1, moment);
    assert!(rt; memory.knows(&warning, moment));
    enter_unknown(rt, memory, next, moment);
    assert!(rt; !memory.knows(&warning, moment));
    assert_eq!(rt; memory.newest(), Some(moment));
}

/// The examples of a memory, over two that know nothing: one forgets its oldest entry, and in the
/// other an identity that was entered again stays known by its later entry.
fn check_memories<M: Recall>(rt: &impl Abort, first: &mut M, second: &mut M)
    requires first { M.content first.old ≡ [] }
    requires second { M.content second.old ≡ [] }
{
    assert!(rt; first.newest().is_none());
    check_forgetting(rt, first, SLOT_START);
    let warning = Identity::new(b'E', b'A', 1).expect(rt, "EA01");
    enter_unknown(rt, second, warning, 0);
    assert!(rt; second.knows(&warning, 237_599));
    assert!(rt; !second.knows(&warning, 237_600));
    check_forgetting(rt, second, 237_600);
}

#[test]
fn plain_memories_pass_the_examples(rt: HostRuntime) {
    check_memories(&rt, &mut PlainRecall::new(), &mut PlainRecall::default());
}

#[test]
fn ring_memories_pass_the_examples(rt: HostRuntime) {
    let mut first = RingRecall::new(rt.alloc()).expect(&rt, "memory");
    let mut second = RingRecall::new(rt.alloc()).expect(&rt, "memory");
    check_memories(&rt, &mut first, &mut second);
}

/// Of 201 entries the last 200 are saved, and loaded into another memory that has none.
fn check_saving<M: Listed>(rt: &impl Abort, memory: &mut M, other: &mut M)
    requires memory { M.content memory.old ≡ [] }
    requires other { M.content other.old ≡ [] }
{
    enter_numbers(rt, memory, b'B', b'A', 99, SLOT_START);
    enter_numbers(rt, memory, b'B', b'B', 99, SLOT_START);
    enter_numbers(rt, memory, b'B', b'C', 3, SLOT_START);
    let mut selection = Selection::all();
    selection.refuse_station(letter(rt, b'E'));
    let saved = Saved::of(&selection, memory);
    assert!(rt; saved.selection().refuses_station(letter(rt, b'E')));
    assert_eq!(rt; saved.count(), CAPACITY);
    assert_eq!(rt; saved.newest(), Some(SLOT_START));
    let oldest = Identity::new(b'B', b'A', 2).expect(rt, "BA02");
    let newest = Identity::new(b'B', b'C', 3).expect(rt, "BC03");
    assert_eq!(rt; saved.entry(0), Some((oldest, SLOT_START)));
    assert_eq!(rt; saved.entry(199), Some((newest, SLOT_START)));
    assert!(rt; saved.entry(200).is_none());
    let again = laws::loaded_is_saved_again(&saved, other);
    assert_eq!(rt; again.count(), CAPACITY);
    assert_eq!(rt; other.count(), CAPACITY);
    assert_eq!(rt; other.entry(0), Some((oldest, SLOT_START)));
    assert_eq!(rt; other.entry(199), Some((newest, SLOT_START)));
    assert!(rt; other.knows(&oldest, SLOT_START + 237_599));
}

#[test]
fn plain_memories_are_saved(rt: HostRuntime) {
    check_saving(&rt, &mut PlainRecall::new(), &mut PlainRecall::new());
}

#[test]
fn ring_memories_are_saved(rt: HostRuntime) {
    let mut memory = RingRecall::new(rt.alloc()).expect(&rt, "memory");
    let mut other = RingRecall::new(rt.alloc()).expect(&rt, "memory");
    check_saving(&rt, &mut memory, &mut other);
}

#[test]
fn nothing_is_saved_at_first(rt: HostRuntime) {
    let saved = Saved::new();
    assert_eq!(rt; saved.count(), 0);
    assert!(rt; saved.newest().is_none());
    let mut memory = PlainRecall::new();
    saved.load(&mut memory);
    let mut ring = RingRecall::new(rt.alloc()).expect(&rt, "memory");
    laws::saved_is_loaded_again(&memory, &mut ring);
    assert_eq!(rt; ring.count(), 0);
}

#[test]
fn refuses_what_is_not_vital(rt: HostRuntime) {
    let mut selection = Selection::all();
    let ice = Identity::new(b'E', b'C', 5).expect(&rt, "EC05");
    let warning = Identity::new(b'E', b'L', 6).expect(&rt, "EL06");
    selection
        .refuse_subject(letter(&rt, b'C'))
        .expect(&rt, "no vital subject");
    assert!(rt; selection.refuses_subject(letter(&rt, b'C')));
    assert!(rt; !selection.refuses_station(letter(&rt, b'E')));
    assert!(rt; !selection.admits(&ice));
    assert!(rt; selection.admits(&warning));
    for vital in *b"ABDL" {
        let subject = letter(&rt, vital);
        let refusal = selection.refuse_subject(subject);
        assert_eq!(rt; refusal, Err(Vital { subject }), "{vital}");
    }
    assert!(rt; selection.admits(&warning));
    selection.refuse_station(letter(&rt, b'E'));
    assert!(rt; !selection.admits(&warning));
    selection.accept_station(letter(&rt, b'E'));
    assert!(rt; selection.admits(&warning) && !selection.admits(&ice));
    selection.accept_subject(letter(&rt, b'C'));
    assert!(rt; selection.admits(&ice));
}

#[test]
fn names_the_vital_subject(rt: HostRuntime) {
    let refusal = Vital {
        subject: letter(&rt, b'D'),
    };
    expect_told(&rt, rt.alloc(), &refusal, "subject D can't be refused");
}

/// How many of the lines a reader takes before one that no state has.
fn lines_taken(lines: &[&str]) -> usize {
    let mut reader = StateReader::new();
    let mut taken = 0_usize;
    for line in lines {
        if matches!(reader.line(line.as_bytes()), StateStep::Bad) {
            break;
        }
        taken = taken.saturating_add(1);
    }
    taken
}

/// Reads the lines, of which the last ends a text of a state.
fn read(rt: &impl Abort, lines: &[&str]) -> SavedSet {
    let mut reader = StateReader::new();
    let mut read = None;
    for line in lines {
        if let StateStep::Done(states) = reader.line(line.as_bytes()) {
            read = Some(states);
        }
    }
    read.expect(rt, "a text of a state")
}

/// Expects that the text of the states is these lines.
fn expect_lines(rt: &impl Abort, states: &SavedSet, lines: &[&str]) {
    let mut place = 0_usize;
    for line in lines {
        let written = state_line(states, place).expect(rt, line);
        expect_text(rt, "a line", written.as_slice(), line.as_bytes());
        place = place.saturating_add(1);
    }
    assert!(rt; state_line(states, place).is_none());
}

#[test]
fn states_are_read_and_written(rt: HostRuntime) {
    let states = read(&rt, &["STATE 1", "EA01 1735692000", "END"]);
    assert_eq!(rt; states.newest(), Some(SLOT_START));
    assert!(rt; states.get(0).is_some_and(|saved| saved.count() == 1));
    assert!(rt; states.get(1).is_some_and(|saved| saved.count() == 0));
    assert!(rt; states.get(3).is_none());
    let on_0_alone = ["STATE 2", "C0", "EA01 1735692000", "C1", "C2", "END"];
    expect_lines(&rt, &states, &on_0_alone);
    let lines = [
        "STATE 2",
        "C0",
        "EA01 1735692000",
        "C1",
        "RS B",
        "RJ C",
        "EA01 1735706400",
        "C2",
        "END",
    ];
    let states = read(&rt, &lines);
    assert_eq!(rt; states.newest(), Some(1_735_706_400));
    expect_lines(&rt, &states, &lines);
    let states = SavedSet::of(Saved::new(), Saved::new(), Saved::new());
    expect_lines(&rt, &states, &["STATE 2", "C0", "C1", "C2", "END"]);
    assert!(rt; SavedSet::new().newest().is_none());
}

/// The last line of each row is refused, but the last one of the last row.
#[test]
fn lines_that_no_state_has_are_refused(rt: HostRuntime) {
    static ROWS: [(&[&str], usize); 11] = [
        (&["STATE 1", "RS B", "RS A"], 2),
        (&["STATE 1", "RJ D"], 1),
        (&["STATE 1", "EA00 5"], 1),
        (&["STATE 1", "EA01 6", "EB01 5"], 2),
        (&["STATE 1", "EA01 5", "EA01 237604"], 2),
        (&["STATE 1", "EA01 05"], 1),
        (&["STATE 1", "EA01 32503680000"], 1),
        (&["STATE 3"], 0),
        (&["STATE 2", "C1"], 1),
        (&["STATE 2", "C0", "END"], 2),
        (&["STATE 1", "EA01 5", "EA01 237605"], 3),
    ];
    for &(lines, taken) in &ROWS {
        assert_eq!(rt; lines_taken(lines), taken, "{lines:?}");
    }
}

#[test]
fn a_201st_entry_is_refused(rt: HostRuntime) {
    let mut reader = StateReader::new();
    assert!(rt; matches!(reader.line(b"STATE 1"), StateStep::More));
    for place in 0..=200u8 {
        let identity = Identity::new(b'A' + place / 99, b'A', place % 99 + 1).expect(
            &rt,
            "an identity",
        );
        let [b1, b2, tens, units] = identity.bytes();
        let step = reader.line(&[b1, b2, tens, units, b' ', b'5']);
        assert_eq!(rt;
            matches!(step, StateStep::Bad),
            place == 200,
            "entry {place}"
        );
    }
}

#[test]
fn laws_can_be_called() {
    laws::a_state_text_stands_for_one_state();
    laws::known_is_live();
    laws::last_of_goes_on();
    laws::entries_stand_in_turn();
    laws::identities_have_places_of_their_own();
    laws::the_last_entry_tells();
}
