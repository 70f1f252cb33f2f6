//! What is taken of two words.

use nx_code::{Comb, Signal, Taken, Word};
use nx_fec::{Diversity, Heard, combine};

#[test]
fn combine_cases(rt: HostRuntime) {
    let letter_a = Comb::new(1).expect(&rt, "A");
    let letter_b = Comb::new(2).expect(&rt, "B");
    let a = Heard::Intact(Signal::Traffic(letter_a));
    let b = Heard::Intact(Signal::Traffic(letter_b));
    let alpha = Heard::Intact(Signal::Alpha);
    let beta = Heard::Intact(Signal::Beta);
    let repeat = Heard::Intact(Signal::Repeat);
    let cases = [
        (a, a, Taken::Char(letter_a)),
        (a, Heard::Wrong, Taken::Char(letter_a)),
        (Heard::Wrong, a, Taken::Char(letter_a)),
        (Heard::Wrong, Heard::Wrong, Taken::Lost),
        (a, b, Taken::Lost),
        (a, alpha, Taken::Lost),
        (repeat, alpha, Taken::Idle),
        (beta, Heard::Wrong, Taken::Idle),
    ];
    for (dx, rx, taken) in cases {
        assert_eq!(rt; combine(dx, rx), taken, "{dx:?} {rx:?}");
    }
}

#[test]
fn the_third_last(rt: HostRuntime) {
    let letter_a = Comb::new(1).expect(&rt, "A");
    let a = Heard::of(Word::new(0x47).expect(&rt, "A"));
    let wrong = Heard::of(Word::new(0x46).expect(&rt, "no signal"));
    let idle = Heard::of(Word::new(0x0F).expect(&rt, "P1"));
    assert_eq!(rt;
        (a, wrong),
        (Heard::Intact(Signal::Traffic(letter_a)), Heard::Wrong)
    );
    let mut diversity = Diversity::new();
    diversity.dx(a);
    diversity.dx(idle);
    assert_eq!(rt; diversity.rx(wrong), Taken::Lost);
    diversity.dx(idle);
    assert_eq!(rt; diversity.rx(wrong), Taken::Char(letter_a));
    diversity.dx(idle);
    assert_eq!(rt; diversity.rx(wrong), Taken::Idle);
}

/// Words by turns, of which the first three RX words meet words from before, or none.
#[test]
fn words_by_turns(rt: HostRuntime) {
    let a = Word::new(0x47).expect(&rt, "A");
    let b = Word::new(0x72).expect(&rt, "B");
    let idle = Word::new(0x0F).expect(&rt, "P1");
    let wrong = Word::new(0x46).expect(&rt, "no signal");
    let mut diversity = Diversity::new();
    for (pair, dx, rx, class) in [
        ("first", a, b, 2),
        ("second", b, wrong, 0),
        ("third", idle, a, 1),
        ("fourth", wrong, wrong, 2),
    ] {
        diversity.dx_by_word(dx);
        assert_eq!(rt; diversity.rx_by_word(rx), class, "the {pair} pair");
    }
    assert_eq!(rt; diversity.rx_by_word(wrong), 2);
    diversity.dx_by_word(a);
    assert_eq!(rt; diversity.rx_by_word(idle), 33);
}
