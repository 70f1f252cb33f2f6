//! The combinations at the head and at the end of a message (M.540, form of a message).
ghost use Rattle.std.specs.Prelude.{◌≡◌, ◌<◌, length, map};
ghost use Rattle.nx_station.specs.Broadcast.{digit_combination, ending, head};
ghost use Rattle.nx_station.specs.Broadcast.{letter_combination};

use nx_code::{Comb, Shift, char_to_code};
use nx_envelope::{Identity, Letter};

/// How many combinations the head of a message has.
pub(crate) const HEAD: usize = 13;

/// The combinations of the letters C, N and Z.
const C: Comb = Comb { number: 3 };

const N: Comb = Comb { number: 14 };

const Z: Comb = Comb { number: 26 };

/// The end of a message, where letters are in force.
pub(crate) const ENDING: [Comb; 7] = [
    N,
    N,
    N,
    N,
    Comb::CARRIAGE_RETURN,
    Comb::LINE_FEED,
    Comb::LINE_FEED,
];

/// The head of a message: letter shift, ZCZC, space, station, subject, figure shift, two digits,
/// carriage return, line feed.
pub(crate) fn head_of(identity: Identity) -> [Comb; HEAD]
    ensures { map (λ comb. comb.number) result ≡ head identity }
{
    let number = identity.number();
    [
        Comb::LETTER_SHIFT,
        Z,
        C,
        Z,
        C,
        Comb::SPACE,
        letter_comb(identity.b1()),
        letter_comb(identity.b2()),
        Comb::FIGURE_SHIFT,
        digit_comb(number / 10),
        digit_comb(number % 10),
        Comb::CARRIAGE_RETURN,
        Comb::LINE_FEED,
    ]
}

/// How many combinations the end of a message has, by the shift that its text leaves in force.
pub(crate) fn ending_len(shift: Shift) -> u64
    ensures { result ≡ length (ending shift) }
{
    match shift {
        Shift::Letters => ENDING.len() as u64,
        Shift::Figures => ENDING.len() as u64 + 1,
    }
}

/// The combination of a letter.
fn letter_comb(letter: Letter) -> Comb
    ensures { result.number ≡ letter_combination letter.byte }
{
    Comb::new(letter.byte() - b'A' + 1).unwrap()
}

/// The combination whose figure is a digit.
fn digit_comb(digit: u8) -> Comb
    requires { digit < 10 }
    ensures { result.number ≡ digit_combination digit }
{
    char_to_code(b'0' + digit).unwrap().0
}
