//! Who is given the records of a log.

ghost use Rattle.std.specs.Prelude.{List, ℕ};

/// Takes the records of a log in such a file, in order, and hears of what is cut behind them.
pub trait RecordTaker<D> {
    /// Bytes that it can take.
    ghost can_take: { List ℕ → Type 0 };

    /// What it is, once it has taken these bytes.
    ghost takes: { Self → List ℕ → Self → Type 0 };

    /// What it is, once it has heard, as the file stood so, that these bytes, which begin on this
    /// line, are cut.
    ghost hears_of_cut: { D → Self → ℕ → List ℕ → Self → Type 0 };

    /// Takes a record.
    fn take(&mut self, bytes: &[u8])
        requires { can_take bytes.now }
        ensures { takes self.old bytes.now self.new };

    /// Hears of bytes behind the records that are going to be cut, and of the line of the first of
    /// them, from 1. It is shown the file, which isn't cut yet.
    fn hear_of_cut(&mut self, file: &D, line: u64, bytes: &[u8])
        ensures { hears_of_cut file.now self.old line bytes.now self.new };
}
