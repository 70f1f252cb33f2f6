//! Worked examples of slots, emissions and message files. The expected slots, words and counts were
//! worked out apart from this program.

mod channels;
mod checks;

use super::{expect_text, expect_told, shown};
use nx_envelope::{Identity, Letter, MAX_LINE, Message};
use nx_fec::{Counting, Position, read_bits, to_bits, word_at};
use nx_station::{
    CheckFault, DamageFault, DamageKind, SendFault, SendRunFault, Sent, check_run, damage,
    emission, laws, next_slot, send,
};
use std::alloc::{AllocError, Global};
use std::process::Abort;

/// The words of the emission of EA01 with the one line TEST, from slot 144 on; before it P2 and P1
/// alternate.
static WORDS: [u8; 59] = [
    0x5A, 0x0F, 0x63, 0x0F, 0x1D, 0x5A, 0x63, 0x63, 0x1D, 0x1D, 0x5C, 0x63, 0x56, 0x1D, 0x47, 0x5C,
    0x36, 0x56, 0x2D, 0x47, 0x2E, 0x36, 0x78, 0x2D, 0x6C, 0x2E, 0x5A, 0x78, 0x74, 0x6C, 0x56, 0x5A,
    0x4B, 0x74, 0x74, 0x56, 0x78, 0x4B, 0x6C, 0x74, 0x59, 0x78, 0x59, 0x6C, 0x59, 0x59, 0x59, 0x59,
    0x78, 0x59, 0x6C, 0x59, 0x6C, 0x78, 0x0F, 0x6C, 0x0F, 0x6C, 0x0F,
];

/// The message file of EA01.
const FILE: &[u8] = b"#A01\nTEST\n;\n";

/// A letter.
fn letter(rt: &impl Abort, byte: u8) -> Letter {
    Letter::new(byte).expect(rt, "a letter")
}

/// A message of these letters and this number.
fn message(rt: &impl Abort, alloc: Global, b1: u8, b2: u8, number: u8, lines: &[&[u8]]) -> Message {
    let identity = Identity::new(b1, b2, number).expect(rt, "an identity");
    Message::new(alloc, identity, lines).expect(rt, "a message")
}

/// What sending answers to a file, and writes.
fn sent(
    rt: &impl Abort,
    alloc: Global,
    file: &[u8],
    station: u8,
    moment: u64,
) -> (Result<Sent, SendRunFault>, Vec<u8>) {
    let mut writer = Counting::new(Vec::new(alloc));
    let outcome = send(
        alloc,
        &mut Counting::new(file),
        &mut writer,
        letter(rt, station),
        moment,
    );
    (outcome, writer.into_inner())
}

/// The positions of the emission of EA01 with the one line TEST.
fn positions_of_ea01(rt: &impl Abort, alloc: Global) -> Vec<Position> {
    let messages = [message(rt, alloc, b'E', b'A', 1, &[b"TEST"])];
    emission(alloc, &messages).expect(rt, "an emission")
}

/// What damaging the DX words among the 59 from word 144 on answers, and writes.
fn damaged(alloc: Global, air: &[u8]) -> (Result<u64, DamageFault>, Vec<u8>) {
    let mut writer = Counting::new(Vec::new(alloc));
    let outcome = damage(
        &mut Counting::new(air),
        &mut writer,
        DamageKind::Dx,
        144,
        59,
    );
    (outcome, writer.into_inner())
}

/// What checking answers to an air file, and writes.
fn checked(alloc: Global, air: &[u8]) -> (Result<u64, CheckFault>, Vec<u8>) {
    let mut writer = Counting::new(Vec::new(alloc));
    let outcome = check_run(alloc, &mut Counting::new(air), &mut writer);
    (outcome, writer.into_inner())
}

#[test]
fn slots(rt: HostRuntime) {
    static CASES: [(u8, u64, Option<u64>); 10] = [
        (b'E', 1_735_689_600, Some(1_735_692_000)),
        (b'E', 1_735_692_000, Some(1_735_692_000)),
        (b'E', 1_735_692_001, Some(1_735_706_400)),
        (b'X', 1_735_689_600, Some(1_735_703_400)),
        (b'X', 32_503_679_400, Some(32_503_679_400)),
        (b'X', 32_503_679_401, None),
        (b'Y', 0, None),
        (b'Z', 0, None),
        (b'A', 0, Some(0)),
        (b'A', u64::MAX, None),
    ];
    for &(station, moment, slot) in &CASES {
        assert_eq!(rt;
            next_slot(letter(&rt, station), moment),
            slot,
            "{station} {moment}"
        );
    }
}

#[test]
fn words_of_one_message(rt: HostRuntime) {
    let positions = positions_of_ea01(&rt, rt.alloc());
    assert_eq!(rt; positions.len(), 102);
    for slot in 0..144 {
        let word = word_at(&positions, slot).expect(&rt, "a slot");
        let wanted = if slot % 2 == 0 { 0x66 } else { 0x0F };
        assert_eq!(rt; word.number(), wanted, "slot {slot}");
    }
    for (place, number) in WORDS.iter().enumerate() {
        let word = word_at(&positions, place.saturating_add(144)).expect(&rt, "a slot");
        assert_eq!(rt; word.number(), *number, "word {place}");
    }
    assert!(rt; word_at(&positions, 203).is_none());
}

#[test]
fn two_messages(rt: HostRuntime) {
    let messages = [
        message(&rt, rt.alloc(), b'E', b'A', 1, &[b"TEST"]),
        message(&rt, rt.alloc(), b'E', b'B', 2, &[]),
    ];
    let positions = emission(rt.alloc(), &messages).expect(&rt, "an emission");
    assert_eq!(rt; positions.len(), 159);
    assert_eq!(rt;
        to_bits(rt.alloc(), &positions)
            .expect(&rt, "elements")
            .len(),
        2219
    );
}

/// The emission of one message: so many lines of 69 A, this line, and so many empty ones.
fn positions_of(
    rt: &impl Abort,
    alloc: Global,
    full: usize,
    line: Option<&[u8]>,
    empty: usize,
) -> Result<usize, SendFault> {
    static LINE: [u8; MAX_LINE] = [b'A'; MAX_LINE];
    let mut lines: Vec<&[u8]> = Vec::new(alloc);
    for _ in 0..full {
        lines.push(&LINE).expect(rt, "memory");
    }
    if let Some(line) = line {
        lines.push(line).expect(rt, "memory");
    }
    for _ in 0..empty {
        lines.push(b"").expect(rt, "memory");
    }
    let messages = [message(rt, alloc, b'E', b'A', 1, &lines)];
    match emission(alloc, &messages) {
        Ok(positions) => Ok(positions.len()),
        Err(fault) => Err(fault),
    }
}

#[test]
fn full_slot(rt: HostRuntime) {
    assert_eq!(rt; positions_of(&rt, rt.alloc(), 58, None, 36), Ok(4286));
    let mut line = [b'A'; 68];
    line[67] = b'1';
    assert_eq!(rt;
        positions_of(&rt, rt.alloc(), 57, Some(&line), 36),
        Err(SendFault::SlotFull { positions: 4287 })
    );
}

#[test]
fn emissions_are_refused(rt: HostRuntime) {
    assert_eq!(rt;
        emission(rt.alloc(), &[]).err(),
        Some(SendFault::NoMessages)
    );
    let mixed = [
        message(&rt, rt.alloc(), b'E', b'A', 1, &[]),
        message(&rt, rt.alloc(), b'F', b'A', 1, &[]),
    ];
    assert_eq!(rt;
        emission(rt.alloc(), &mixed).err(),
        Some(SendFault::MixedStations { at: 1 })
    );
    let without = [message(&rt, rt.alloc(), b'Y', b'A', 1, &[])];
    assert_eq!(rt;
        emission(rt.alloc(), &without).err(),
        Some(SendFault::NoSlot)
    );
}

#[test]
fn a_file_is_sent(rt: HostRuntime) {
    let (answer, file) = sent(&rt, rt.alloc(), FILE, b'E', 1_735_689_600);
    let expected = Sent {
        slot: 1_735_692_000,
        positions: 102,
        messages: 1,
    };
    assert_eq!(rt; answer, Ok(expected));
    assert_eq!(rt; file.len(), 1443);
    expect_text(&rt, "written", &file[..16], b"T 1735692000\nB 0");
    let bits = read_bits(rt.alloc(), &mut Counting::new(file.as_slice())).expect(&rt, "elements");
    assert_eq!(rt; bits.len(), 1421);
    let positions = positions_of_ea01(&rt, rt.alloc());
    assert_eq!(rt;
        to_bits(rt.alloc(), &positions).expect(&rt, "elements"),
        bits
    );
}

/// Of the 59 words from slot 144 on, 30 have even slots; the damage is undone by the same once
/// more.
#[test]
fn damage_is_counted(rt: HostRuntime) {
    let (_, file) = sent(&rt, rt.alloc(), FILE, b'E', 1_735_689_600);
    let (count, once) = damaged(rt.alloc(), &file);
    assert_eq!(rt; count, Ok(30));
    let (count, twice) = damaged(rt.alloc(), &once);
    assert_eq!(rt; count, Ok(30));
    assert_eq!(rt; twice, file);
}

#[test]
fn files_are_refused(rt: HostRuntime) {
    static CASES: [(&[u8], u8, u64, &str); 10] = [
        (b"", b'E', 0, "no messages"),
        (b"", b'Y', 0, "no messages"),
        (b"#A01\nTEST\n", b'E', 0, "message at line 1 is not ended"),
        (b"TEST\n", b'E', 0, "line 1 is not understood"),
        (FILE, b'Y', 0, "no slot"),
        (FILE, b'X', 32_503_679_401, "no slot"),
        (
            b"#A01\n;\n#A02\na\n;\n",
            b'E',
            0,
            "message at line 3: line 1 has no signal at 0",
        ),
        (b"#A01\n;\n#A02\nA", b'E', 0, "line 4 has no end"),
        (b"#A01\n;\n#A2\n;\n", b'E', 0, "line 3 is not understood"),
        (
            b"#A01\nZCZC\n;\nX\n",
            b'E',
            0,
            "message at line 1: line 1 has a reserved word",
        ),
    ];
    for &(file, station, moment, text) in &CASES {
        let (answer, written) = sent(&rt, rt.alloc(), file, station, moment);
        let fault = answer.err().expect(&rt, "a fault");
        expect_told(&rt, rt.alloc(), &fault, text);
        assert_eq!(rt; written.len(), 0, "{text}");
    }
}

#[test]
fn a_full_writer(rt: HostRuntime) {
    let mut space = [0; 20];
    let mut writer = Counting::new(&mut space[..]);
    let outcome = send(
        rt.alloc(),
        &mut Counting::new(FILE),
        &mut writer,
        letter(&rt, b'E'),
        0,
    );
    assert_eq!(rt; outcome, Err(SendRunFault::Write { written: 20 }));
    expect_text(&rt, "written", &space, b"T 2400\nB 01100111111");
}

#[test]
fn texts_of_faults(rt: HostRuntime) {
    static CASES: [(SendRunFault, &str); 7] = [
        (SendRunFault::Read, "read failed"),
        (SendRunFault::FileTooLong, "file longer than 1048576 bytes"),
        (
            SendRunFault::Write { written: 10 },
            "write failed after 10 bytes",
        ),
        (SendRunFault::Memory(AllocError), "out of memory"),
        (
            SendRunFault::Send(SendFault::SlotFull { positions: 4287 }),
            "4287 positions are too many for a slot",
        ),
        (
            SendRunFault::Send(SendFault::MixedStations { at: 1 }),
            "message at 1 is of another station",
        ),
        (
            SendRunFault::Send(SendFault::Memory(AllocError)),
            "out of memory",
        ),
    ];
    for (fault, text) in &CASES {
        expect_told(&rt, rt.alloc(), fault, text);
    }
}

#[test]
fn texts_of_faults_of_damage(rt: HostRuntime) {
    static CASES: [(DamageFault, &str); 6] = [
        (DamageFault::Read, "read failed"),
        (
            DamageFault::AirTooLong,
            "air file longer than 268435456 bytes",
        ),
        (
            DamageFault::LineLong { line: 2 },
            "line 2 is longer than 514 bytes",
        ),
        (DamageFault::LineCut { line: 3 }, "line 3 has no end"),
        (DamageFault::BadLine { line: 4 }, "line 4 is not understood"),
        (
            DamageFault::Write { written: 10 },
            "write failed after 10 bytes",
        ),
    ];
    for (fault, text) in &CASES {
        expect_told(&rt, rt.alloc(), fault, text);
    }
}

#[test]
fn laws_can_be_called() {
    laws::a_message_file_has_one_reading();
    laws::a_file_has_one_outcome();
    laws::messages_read_back();
    laws::messages_have_one_broadcast();
    laws::an_emission_has_one_reading();
    laws::checking_gives_back_what_was_sent();
    laws::checking_takes_channel_0_alone();
    laws::damage_undoes_itself();
    laws::path::few_words_are_wrong();
    laws::path::no_phasing_1_before_the_end();
    laws::path::positions_are_taken_as_sent();
    laws::path::words_stand_in_the_bits();
    laws::path::messages_stand_in_their_emission();
    laws::path::an_undamaged_emission_is_received();
    laws::path::an_example_is_received();
}
