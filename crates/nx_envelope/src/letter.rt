//! A letter of an identity: a station or a subject.

ghost use Rattle.std.specs.Prelude.{◌≡◌, ◌↔◌, IfSome, IsSome};
ghost use Rattle.nx_code.specs.Reading.{IsCapital};

use std::fmt;
use std::fmt::{Display, Formatter, Write};

/// A letter A to Z, which names a station (B1) or a subject (B2) of ITU-R M.540.
#[derive(Clone, Copy, PartialEq, Eq, Debug)]
pub struct Letter {
    /// Its byte, from 65 (A) to 90 (Z).
    pub byte: u8,
    pub ghost in_range: { IsCapital byte },
}

impl Letter {
    /// The letter of a byte, `None` where the byte isn't A to Z.
    pub fn new(byte: u8) -> Option<Letter>
        ensures in_range { IsSome result ↔ IsCapital byte }
        ensures given { IfSome result (λ letter. letter.byte ≡ byte) }
    {
        if byte.is_ascii_uppercase() {
            Some(Letter { byte })
        } else {
            None
        }
    }

    /// The letter of a byte that is known to be A to Z.
    pub fn of_capital(byte: u8) -> Letter
        requires { IsCapital byte }
        ensures { result.byte ≡ byte }
    {
        match Letter::new(byte) {
            Some(letter) => letter,
            None => unreachable!(),
        }
    }

    /// The byte that it was made of, 65 (A) to 90 (Z).
    pub fn byte(self) -> u8
        ensures value { result ≡ self.byte }
        ensures in_range { IsCapital result }
    {
        self.byte
    }
}

/// Writes the letter itself.
impl Display for Letter {
    fn fmt<W: Write>(&self, f: &mut Formatter<W>) -> fmt::Result {
        char::from(self.byte).fmt(f)
    }
}
