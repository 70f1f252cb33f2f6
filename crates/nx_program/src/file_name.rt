//! The name of a file.

ghost use Rattle.std.specs.Prelude.{◌≡◌};

use std::marker::Model;

/// The name of a file, as it stands among the arguments of the command line. Its value is its
/// bytes.
#[derive(Debug, Drop)]
pub struct FileName<'a> {
    text: &'a str,
}

impl<'a> Model for FileName<'a> {
    ghost use Rattle.std.specs.Prelude.{ℕ, List};

    ghost Value = { List ℕ };

    ghost view = { λ name. name.text.now };
}

impl<'a> FileName<'a> {
    /// The name of this text.
    pub fn new(text: &'a str) -> FileName<'a>
        ensures { result ≡ text.now }
    {
        FileName { text }
    }

    /// Its text.
    pub fn as_str(&self) -> &str
        ensures { result.now ≡ self.now }
    {
        self.text
    }
}
