//! Why a line has no effect.

ghost use Rattle.std.specs.Prelude.{◌≡◌, ◌++◌, codes};
ghost use Rattle.nx_watch.specs.LinesTold.{reason_words};

/// Why a line has no effect.
#[derive(Clone, Copy, Debug, PartialEq, Eq)]
pub(crate) enum NoEffect {
    /// It is no line of an air file.
    NoLine,
    /// It has more than 514 bytes.
    TooLong,
    /// The end of the input cuts it.
    NoEnd,
    /// It says a moment past the year 2999.
    PastLast,
    /// It says a moment before the last one.
    GoesBack,
    /// It refuses a vital subject.
    Vital,
}

impl NoEffect {
    /// What is told of a line behind its number.
    pub(crate) fn told(self) -> &'static [u8]
        ensures { result.now ≡ codes " had no effect: " ++ (reason_words self ++ codes "\n") }
    {
        match self {
            NoEffect::NoLine => b" had no effect: it is no line of an air file\n",
            NoEffect::TooLong => b" had no effect: it has more than 514 bytes\n",
            NoEffect::NoEnd => b" had no effect: it has no end\n",
            NoEffect::PastLast => b" had no effect: its moment is past the year 2999\n",
            NoEffect::GoesBack => b" had no effect: its moment is before the last one\n",
            NoEffect::Vital => b" had no effect: subjects A, B, D and L can't be refused\n",
        }
    }
}
