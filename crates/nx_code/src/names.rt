//! The names of the signals that stand for no letter.

ghost use Rattle.std.specs.Prelude.{◌≡◌};
ghost use Rattle.nx_code.specs.private.Rows.{name_text};

/// The name of a signal that stands for no letter; the table has it in both columns.
#[derive(Clone, Copy, Debug)]
pub(crate) enum Name {
    CarriageReturn,
    LineFeed,
    LetterShift,
    FigureShift,
    Space,
    Blank,
    PhasingOne,
    Beta,
    PhasingTwo,
}

impl Name {
    /// The name as the table has it.
    pub(crate) fn text(self) -> &'static [u8]
        ensures { result.now ≡ name_text self }
    {
        match self {
            Name::CarriageReturn => b"CR",
            Name::LineFeed => b"LF",
            Name::LetterShift => b"LTRS",
            Name::FigureShift => b"FIGS",
            Name::Space => b"SPACE",
            Name::Blank => b"BLANK",
            Name::PhasingOne => b"P1",
            Name::Beta => b"BETA",
            Name::PhasingTwo => b"P2",
        }
    }
}
