//! Worked examples of the code. Words, characters and names are those of the conversion tables of
//! M.476 and M.625, in the numbering of this profile; the spelling of the example is counted out by
//! hand.

use super::{expect_text, expect_told};
use nx_code::{
    Case, Comb, Extent, FourPrinted, Printer, Shift, Signal, SpellFault, Taken, Word, cell_of,
    char_to_code, check_bits, class_of, code_to_char, elements_at, extent_of, laws, pair_classes,
    signal_at, signal_of, spell, word_of, words_of,
};
use std::alloc::AllocError;
use std::process::Abort;

/// The combination of this number.
fn comb(rt: &impl Abort, number: u8) -> Comb {
    Comb::new(number).expect(rt, "a combination")
}

#[test]
fn table_of_a(rt: HostRuntime) {
    let word = word_of(Signal::Traffic(comb(&rt, 1)));
    assert_eq!(rt; word.number(), 0x47);
    assert_eq!(rt;
        word.elements(),
        [true, true, true, false, false, false, true]
    );
    assert_eq!(rt;
        Word::from_elements([true, true, true, false, false, false, true]),
        word
    );
    assert_eq!(rt; signal_of(word), Some(Signal::Traffic(comb(&rt, 1))));
    assert!(rt; Word::new(128).is_none());
    assert_eq!(rt; comb(&rt, 32).number(), 32);
}

#[test]
fn service_signals(rt: HostRuntime) {
    for (number, signal) in [
        (0x0F, Signal::Alpha),
        (0x33, Signal::Beta),
        (0x66, Signal::Repeat),
    ] {
        assert_eq!(rt; word_of(signal).number(), number, "{signal:?}");
    }
}

#[test]
fn weight_count(rt: HostRuntime) {
    let mut right = 0u32;
    for number in 0..128 {
        let word = Word::new(number).expect(&rt, "a word");
        if check_bits(word) {
            right = right.saturating_add(1);
        }
    }
    assert_eq!(rt; right, 35);
}

#[test]
fn characters(rt: HostRuntime) {
    assert_eq!(rt; code_to_char(comb(&rt, 4), Shift::Letters), Some(b'D'));
    assert!(rt; code_to_char(comb(&rt, 4), Shift::Figures).is_none());
    assert_eq!(rt; code_to_char(comb(&rt, 28), Shift::Figures), Some(b'\n'));
    assert_eq!(rt; char_to_code(b'9'), Some((comb(&rt, 15), Case::Figures)));
    assert_eq!(rt; char_to_code(b'Q'), Some((comb(&rt, 17), Case::Letters)));
    assert_eq!(rt; char_to_code(b'\n'), Some((comb(&rt, 28), Case::Either)));
    assert_eq!(rt; char_to_code(b' '), Some((comb(&rt, 31), Case::Either)));
    assert!(rt; char_to_code(b'q').is_none());
    assert_eq!(rt; Shift::Letters.other(), Shift::Figures);
    assert_eq!(rt; Shift::Figures.comb(), comb(&rt, 30));
    assert!(rt; Case::Either.stands_in(Shift::Figures));
}

#[test]
fn a_lost_position_and_a_space_leave_the_shift(rt: HostRuntime) {
    let mut printer = Printer::new();
    let heard = [
        (Taken::Char(comb(&rt, 30)), None),
        (Taken::Char(comb(&rt, 17)), Some(b'1')),
        (Taken::Lost, Some(b'*')),
        (Taken::Char(comb(&rt, 31)), Some(b' ')),
        (Taken::Idle, None),
        (Taken::Char(comb(&rt, 23)), Some(b'2')),
        (Taken::Char(comb(&rt, 29)), None),
        (Taken::Char(comb(&rt, 27)), None),
        (Taken::Char(comb(&rt, 23)), Some(b'W')),
    ];
    for (taken, printed) in heard {
        assert_eq!(rt; printer.step(taken), printed, "{taken:?}");
    }
}

#[test]
fn spell_cases(rt: HostRuntime) {
    let combs = spell(rt.alloc(), b"A1 2-B\n", Shift::Letters).expect(&rt, "combinations");
    let wanted = [1, 30, 17, 31, 23, 1, 29, 2, 27, 28];
    assert_eq!(rt; combs.len(), wanted.len());
    for (place, (comb, number)) in combs.iter().zip(wanted).enumerate() {
        assert_eq!(rt; comb.number(), number, "combination {place}");
    }
    assert!(rt;
        matches!(
            spell(rt.alloc(), b"Ba", Shift::Letters),
            Err(SpellFault::NoSuchCharacter { at: 1 })
        )
    );
    assert_eq!(rt;
        spell(rt.alloc(), b"1", Shift::Figures)
            .expect(&rt, "combinations")
            .len(),
        1
    );
}

#[test]
fn extents(rt: HostRuntime) {
    let extent = |length, shift| Some(Extent { length, shift });
    let cases = [
        ("", Shift::Figures, extent(0, Shift::Figures)),
        ("A1 2-B\n", Shift::Letters, extent(10, Shift::Letters)),
        ("A1 2-\n", Shift::Letters, extent(8, Shift::Figures)),
        ("Ba", Shift::Letters, None),
    ];
    for (text, from, wanted) in cases {
        assert_eq!(rt; extent_of(text.as_bytes(), from), wanted, "{text}");
    }
}

#[test]
fn cells_of_the_table(rt: HostRuntime) {
    static CASES: [(usize, &str, &str); 8] = [
        (0, "A", "-"),
        (3, "D", ""),
        (25, "Z", "+"),
        (26, "CR", "CR"),
        (29, "FIGS", "FIGS"),
        (31, "BLANK", "BLANK"),
        (33, "BETA", "BETA"),
        (34, "P2", "P2"),
    ];
    for &(at, letter, figure) in &CASES {
        let signal = signal_at(at);
        expect_text(
            &rt,
            letter,
            cell_of(signal, Shift::Letters),
            letter.as_bytes(),
        );
        expect_text(
            &rt,
            letter,
            cell_of(signal, Shift::Figures),
            figure.as_bytes(),
        );
    }
}

#[test]
fn classes(rt: HostRuntime) {
    assert_eq!(rt; class_of(Word::new(0x47).expect(&rt, "a word")), 1);
    assert_eq!(rt; class_of(Word::new(0x66).expect(&rt, "a word")), 33);
    assert_eq!(rt; class_of(Word::new(0x7F).expect(&rt, "a word")), 0);
    assert_eq!(rt; pair_classes(0, 1), 1);
}

#[test]
fn texts_of_faults(rt: HostRuntime) {
    static CASES: [(SpellFault, &str); 2] = [
        (
            SpellFault::NoSuchCharacter { at: 1 },
            "no signal for the character at 1",
        ),
        (SpellFault::Memory(AllocError), "out of memory"),
    ];
    for (fault, text) in &CASES {
        expect_told(&rt, rt.alloc(), fault, text);
    }
}

#[test]
fn laws_can_be_called() {
    laws::reading_by_nearest_shift();
    laws::words_are_their_elements();
    laws::thirty_two_combinations();
    laws::phasing_signals_are_in_the_table();
    laws::reading_goes_on();
    laws::a_text_has_one_spelling();
    laws::silent_combinations();
    laws::a_spelling_goes_on();
}

/// A and B in the 14 elements from place 60 on.
#[test]
fn packed_words(rt: HostRuntime) {
    let numbers = [0x7000_0000_0000_0000, 0x394];
    let elements = elements_at(&numbers, 60, 14);
    assert_eq!(rt; elements, 0x72 * 128 + 0x47);
    let words = words_of(elements);
    assert_eq!(rt; words[0].number(), 0x47);
    assert_eq!(rt; words[1].number(), 0x72);
    assert_eq!(rt; words[7].number(), 0);
    let alpha = words_of(0x0F)[0];
    assert_eq!(rt; alpha, word_of(Signal::Alpha));
}

/// The figure shift, a dash, the letter shift and A, and then B.
#[test]
fn printing_by_class(rt: HostRuntime) {
    let mut printer = Printer::new();
    let mut printed = FourPrinted::none();
    printer.print_behind(30, &mut printed);
    printer.print_behind(1, &mut printed);
    printer.print_behind(29, &mut printed);
    printer.print_behind(1, &mut printed);
    assert_eq!(rt; printed.count, 2);
    expect_text(&rt, "printed", &printed.bytes[..2], b"-A");
    assert_eq!(rt; printer.step_by_class(2), Some(b'B'));
}
