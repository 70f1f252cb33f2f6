//! The two shifts, letters and figures, and in which of them a character stands.

ghost use Rattle.std.specs.Prelude.{◌≡◌, Some};
ghost use Rattle.nx_code.specs.Reading.{combination, shift_set, holds_in};
ghost use Rattle.nx_code.specs.Spelling.{other};

use crate::signals::Comb;

/// Which of its two characters a combination stands for (M.476: letter-case and figure-case).
#[derive(Clone, Copy, Debug, PartialEq, Eq)]
pub enum Shift {
    /// Letter-case, which combination 29 sets (M.476).
    Letters,
    /// Figure-case, which combination 30 sets (M.476).
    Figures,
}

/// In which of the two shifts a character stands (M.476 and M.625, conversion tables).
#[derive(Clone, Copy, Debug, PartialEq, Eq)]
pub enum Case {
    /// It prints in letters alone.
    Letters,
    /// It prints in figures alone.
    Figures,
    /// Newline and space print in both (this profile).
    Either,
}

impl Shift {
    /// The other shift: figures for letters, and letters for figures.
    pub fn other(self) -> Shift
        ensures { result ≡ other self }
    {
        match self {
            Shift::Letters => Shift::Figures,
            Shift::Figures => Shift::Letters,
        }
    }

    /// The combination that sets this shift, 29 or 30 (M.476).
    pub fn comb(self) -> Comb
        ensures sets { shift_set (combination result.number) ≡ Some self }
    {
        match self {
            Shift::Letters => Comb::LETTER_SHIFT,
            Shift::Figures => Comb::FIGURE_SHIFT,
        }
    }
}

impl Case {
    /// Whether a character of this case prints in a shift.
    pub fn stands_in(self, shift: Shift) -> bool
        ensures { result ≡ holds_in self shift }
    {
        match self {
            Case::Letters => shift == Shift::Letters,
            Case::Figures => shift == Shift::Figures,
            Case::Either => true,
        }
    }
}
