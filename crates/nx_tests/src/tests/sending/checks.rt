//! Worked examples of strict reading and of checking, worked out apart from this program: the fault
//! of an emission follows from the place and the word that is changed.

use super::*;
use nx_code::{Comb, ELEMENTS, Word};
use nx_fec::{Position, RunFault};
use nx_station::{EmissionFault, read_emission};

/// The elements of the emission of EA01 with the one line TEST.
fn bits_of_ea01(rt: &impl Abort, alloc: Global) -> Vec<bool> {
    to_bits(alloc, &positions_of_ea01(rt, alloc)).expect(rt, "elements")
}

/// The elements, and after them those of a word.
fn with_word_after(rt: &impl Abort, alloc: Global, bits: &[bool], number: u8) -> Vec<bool> {
    let word = Word::new(number).expect(rt, "a word");
    let mut more = Vec::from_slice(alloc, bits).expect(rt, "memory");
    more.extend_from_slice(&word.elements())
        .expect(rt, "memory");
    more
}

/// The elements with another word in a slot.
fn with_word(rt: &impl Abort, alloc: Global, bits: &[bool], slot: usize, number: u8) -> Vec<bool> {
    let at = slot.saturating_mul(ELEMENTS);
    let front = bits.get(..at).expect(rt, "a slot");
    let back = bits.get(at.saturating_add(ELEMENTS)..).expect(rt, "a slot");
    let mut changed = with_word_after(rt, alloc, front, number);
    changed.extend_from_slice(back).expect(rt, "memory");
    changed
}

/// The elements of EA01 with one more combination in a position.
fn with_comb(rt: &impl Abort, alloc: Global, position: usize, number: u8) -> Vec<bool> {
    let positions = positions_of_ea01(rt, alloc);
    let (front, back) = positions
        .split_at_checked(position)
        .expect(rt, "a position");
    let comb = Comb::new(number).expect(rt, "a combination");
    let mut more = Vec::from_slice(alloc, front).expect(rt, "memory");
    more.push(Position::Traffic(comb)).expect(rt, "memory");
    more.extend_from_slice(back).expect(rt, "memory");
    to_bits(alloc, &more).expect(rt, "elements")
}

#[test]
fn check_ea01(rt: HostRuntime) {
    let bits = bits_of_ea01(&rt, rt.alloc());
    let messages = read_emission(rt.alloc(), &bits).expect(&rt, "messages");
    assert_eq!(rt; messages.len(), 1);
    let first = messages.first().expect(&rt, "a message");
    assert_eq!(rt;
        first.identity(),
        Identity::new(b'E', b'A', 1).expect(&rt, "EA01")
    );
    assert_eq!(rt; first.line_count(), 1);
    expect_text(
        &rt,
        "its line",
        first.line(0).unwrap_or(b"no line"),
        b"TEST",
    );
    let (_, file) = sent(&rt, rt.alloc(), FILE, b'E', 1_735_689_600);
    let (outcome, written) = checked(rt.alloc(), &file);
    assert_eq!(rt; outcome, Ok(1));
    expect_text(&rt, "EA01", &written, b"station E\n#A01\nTEST\n;\n");
}

/// The fault of an emission of these elements.
fn fault_of(alloc: Global, bits: &[bool]) -> Option<EmissionFault> {
    read_emission(alloc, bits).err()
}

/// Expects that these elements, with another word in a slot, have this fault.
fn expect_fault(rt: &impl Abort, alloc: Global, bits: &[bool], case: (usize, u8, EmissionFault)) {
    let (slot, number, fault) = case;
    let found = fault_of(alloc, &with_word(rt, alloc, bits, slot, number));
    assert_eq!(rt; found, Some(fault), "slot {slot}");
}

#[test]
fn emissions_are_read_strictly(rt: HostRuntime) {
    let bits = bits_of_ea01(&rt, rt.alloc());
    let cases = [
        // Word 150 with its first element inverted, and then the word of A in its place.
        (150, 0x62, EmissionFault::WrongWord { slot: 150 }),
        (150, 0x47, EmissionFault::Unpaired { position: 75 }),
        // Other words where no RX word is sent again, and in slot 1.
        (198, 0x66, EmissionFault::BadEnvelope),
        (1, 0x66, EmissionFault::BadEnvelope),
    ];
    for case in cases {
        expect_fault(&rt, rt.alloc(), &bits, case);
    }
    // A wrong word comes before a position that is unpaired, and the least of each is told.
    let wrong = with_word(&rt, rt.alloc(), &bits, 150, 0x62);
    for (slot, number) in [(20, 0x47), (152, 0x1C)] {
        let fault = EmissionFault::WrongWord { slot: 150 };
        expect_fault(&rt, rt.alloc(), &wrong, (slot, number, fault));
    }
}

/// The figure of D stands behind the digits.
#[test]
fn other_envelopes_are_refused(rt: HostRuntime) {
    let bits = bits_of_ea01(&rt, rt.alloc());
    for (row, other) in [
        (
            "one word more",
            with_word_after(&rt, rt.alloc(), &bits, 0x0F),
        ),
        ("a needless shift", with_comb(&rt, rt.alloc(), 73, 29)),
        ("the figure of D", with_comb(&rt, rt.alloc(), 83, 4)),
        ("nothing", Vec::new(rt.alloc())),
    ] {
        let fault = fault_of(rt.alloc(), &other);
        assert_eq!(rt; fault, Some(EmissionFault::BadEnvelope), "{row}");
    }
    assert_eq!(rt;
        fault_of(rt.alloc(), &[true; 8]),
        Some(EmissionFault::Ragged { bits: 8 })
    );
}

#[test]
fn files_are_checked(rt: HostRuntime) {
    static CASES: [(&[u8], &str); 4] = [
        (b"", "not an emission of this profile"),
        (b"B 0\n", "1 elements are no whole words"),
        (b"B 0111111\n", "word 0 has the wrong weight"),
        (b"B 012\n", "line 1 is not understood"),
    ];
    for &(file, text) in &CASES {
        let (outcome, written) = checked(rt.alloc(), file);
        let fault = outcome.err().expect(&rt, "a fault");
        expect_told(&rt, rt.alloc(), &fault, text);
        expect_text(&rt, text, &written, b"");
    }
    let (_, file) = sent(&rt, rt.alloc(), FILE, b'E', 0);
    let mut space = [0; 10];
    let mut writer = Counting::new(&mut space[..]);
    let outcome = check_run(rt.alloc(), &mut Counting::new(file.as_slice()), &mut writer);
    assert_eq!(rt;
        outcome,
        Err(CheckFault::Run(RunFault::Write { written: 10 }))
    );
    expect_text(&rt, "written", &space, b"station E\n");
    let unpaired = CheckFault::Emission(EmissionFault::Unpaired { position: 75 });
    expect_told(&rt, rt.alloc(), &unpaired, "position 75 is unpaired");
    let memory = CheckFault::Emission(EmissionFault::Memory(AllocError));
    expect_told(&rt, rt.alloc(), &memory, "out of memory");
}
