//! Signals: the 32 traffic combinations and the three service signals.

ghost use Rattle.std.specs.Prelude.{◌≡◌, ◌≤◌, ◌<◌, ◌↔◌, IsSome, IfSome};

/// The number of the combination that sets letters, and of the one that sets figures (M.476).
pub(crate) const LETTER_SHIFT: u8 = 29;

pub(crate) const FIGURE_SHIFT: u8 = 30;

/// A traffic combination by its number, 1 to 32: the order of the letters, then carriage return,
/// line feed, letter shift, figure shift, space and the unperforated tape (M.476 and M.625,
/// conversion tables).
#[derive(Clone, Copy, Debug, PartialEq, Eq)]
pub struct Comb {
    pub number: u8,
    pub ghost from_one: { 1 ≤ number },
    pub ghost to_thirty_two: { number ≤ 32 },
}

impl Comb {
    /// Carriage return, which prints nothing (M.476).
    pub const CARRIAGE_RETURN: Comb = Comb { number: 27 };

    /// Line feed, which prints a newline (M.476).
    pub const LINE_FEED: Comb = Comb { number: 28 };

    /// Letter shift, which sets letters (M.476).
    pub const LETTER_SHIFT: Comb = Comb {
        number: LETTER_SHIFT,
    };

    /// Figure shift, which sets figures (M.476).
    pub const FIGURE_SHIFT: Comb = Comb {
        number: FIGURE_SHIFT,
    };

    /// Space (M.476).
    pub const SPACE: Comb = Comb { number: 31 };

    /// The combination of this number; None outside 1 to 32.
    pub fn new(number: u8) -> Option<Comb>
        ensures range { IsSome result ↔ ((1 ≤ number) × (number ≤ 32)) }
        ensures value { IfSome result (λ comb. comb.number ≡ number) }
    {
        if (1..=32).contains(&number) {
            Some(Comb { number })
        } else {
            None
        }
    }

    /// The number of the combination, 1 to 32.
    pub fn number(self) -> u8
        ensures { result ≡ self.number }
    {
        self.number
    }
}

/// What a word of weight four stands for (M.476, M.625).
#[derive(Clone, Copy, Debug, PartialEq, Eq)]
pub enum Signal {
    /// A traffic combination.
    Traffic(Comb),
    /// Idle signal alpha, which is phasing signal 1.
    Alpha,
    /// Idle signal beta.
    Beta,
    /// Signal repetition, which is phasing signal 2.
    Repeat,
}
