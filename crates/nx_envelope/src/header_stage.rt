//! How far the header at the end of a text has come.

ghost use Rattle.std.specs.Prelude.{◌≡◌, ◌∷◌, ℕ, List};
ghost use Rattle.nx_envelope.specs.private.Backward.{ends_in, header_back};
ghost use Rattle.nx_envelope.specs.Header.{start_marker};
ghost use Rattle.nx_envelope.specs.private.HeaderStage.{IsStageOf};

use crate::digit::Digit;
use crate::identity::Identity;
use crate::letter::Letter;

/// The space between `ZCZC` and the station.
const SPACE: u8 = b' ';

/// What the end of a text has of a header.
#[derive(Clone, Copy, Debug)]
pub enum HeaderStage {
    /// Not even a space behind `ZCZC`.
    Nowhere,
    /// `ZCZC` and one or more spaces.
    Spaces,
    /// These and the station.
    Station(Letter),
    /// These and the subject.
    Subject(Letter, Letter),
    /// These and the first digit.
    Tens(Letter, Letter, Digit),
}

impl HeaderStage {
    /// The stage one byte later; `after_start` says that the text before the byte ends with `ZCZC`.
    pub fn next(self, after_start: bool, byte: u8) -> HeaderStage
        ensures { (back : List ℕ) → IsStageOf self back → after_start ≡ ends_in start_marker back
            → IsStageOf result (byte ∷ back) }
    {
        if byte == SPACE {
            return match self {
                _ if after_start => HeaderStage::Spaces,
                HeaderStage::Spaces => HeaderStage::Spaces,
                _ => HeaderStage::Nowhere,
            };
        }
        match self {
            HeaderStage::Spaces => match Letter::new(byte) {
                Some(station) => HeaderStage::Station(station),
                None => HeaderStage::Nowhere,
            },
            HeaderStage::Station(station) => match Letter::new(byte) {
                Some(subject) => HeaderStage::Subject(station, subject),
                None => HeaderStage::Nowhere,
            },
            HeaderStage::Subject(station, subject) => match Digit::new(byte) {
                Some(tens) => HeaderStage::Tens(station, subject, tens),
                None => HeaderStage::Nowhere,
            },
            HeaderStage::Nowhere | HeaderStage::Tens(_, _, _) => HeaderStage::Nowhere,
        }
    }

    /// The identity whose header the byte completes, if it completes one.
    pub fn header(self, byte: u8) -> Option<Identity>
        ensures { (back : List ℕ) → IsStageOf self back → result ≡ header_back (byte ∷ back) }
    {
        let HeaderStage::Tens(b1, b2, tens) = self else {
            return None;
        };
        let units = Digit::new(byte)?;
        Some(Identity {
            b1,
            b2,
            number: tens.value * 10 + units.value,
        })
    }
}
