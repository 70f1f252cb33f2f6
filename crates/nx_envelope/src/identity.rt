//! The identity of a message: its station, its subject and its number.

ghost use Rattle.std.specs.Prelude.{◌≡◌, ◌≢◌, ◌↔◌, ◌≤◌, IfNone, IfSome, IsSome};
ghost use Rattle.nx_code.specs.Reading.{IsCapital};

use crate::digit::two_digits;
use crate::letter::Letter;

/// The greatest number of a message.
pub const MAX_NUMBER: u8 = 99;

/// The identity of a message (ITU-R M.540): station B1, subject B2 and a number of two digits.
#[derive(Clone, Copy, PartialEq, Eq, Debug)]
pub struct Identity {
    /// The station, B1.
    pub b1: Letter,
    /// The subject, B2.
    pub b2: Letter,
    /// The number, from 0 to 99.
    pub number: u8,
    pub ghost two_digits: { number ≤ 99 },
}

impl Identity {
    ghost use Rattle.nx_envelope.specs.Identity.{identity_bytes};
    ghost use Rattle.nx_envelope.specs.declared.identity.Identity.{Identity as TheIdentity};

    /// The identity of two letters and a number, `None` where `b1` or `b2` isn't A to Z or `number`
    /// is above 99.
    pub fn new(b1: u8, b2: u8, number: u8) -> Option<Identity>
        ensures in_range { IsSome result ↔ (IsCapital b1 × IsCapital b2 × (number ≤ 99)) }
        ensures station { IfSome result (λ identity. identity.b1.byte ≡ b1) }
        ensures subject { IfSome result (λ identity. identity.b2.byte ≡ b2) }
        ensures number { IfSome result (λ identity. identity.number ≡ number) }
    {
        if number > MAX_NUMBER {
            return None;
        }
        let b1 = Letter::new(b1)?;
        let b2 = Letter::new(b2)?;
        Some(Identity { b1, b2, number })
    }

    /// The identity that is written so, as `EA01`.
    pub fn from_bytes(bytes: [u8; 4]) -> Option<Identity>
        ensures found { IfSome result (λ identity. bytes ≡ identity_bytes identity) }
        ensures none { IfNone result ((identity : TheIdentity) → bytes ≢ identity_bytes identity) }
    {
        let [b1, b2, tens, units] = bytes;
        if !tens.is_ascii_digit() || !units.is_ascii_digit() {
            return None;
        }
        Identity::new(b1, b2, (tens - b'0') * 10 + (units - b'0'))
    }

    /// The station, B1.
    pub fn b1(self) -> Letter
        ensures { result ≡ self.b1 }
    {
        self.b1
    }

    /// The subject, B2.
    pub fn b2(self) -> Letter
        ensures { result ≡ self.b2 }
    {
        self.b2
    }

    /// The number, from 0 to 99.
    pub fn number(self) -> u8
        ensures value { result ≡ self.number }
        ensures in_range { result ≤ 99 }
    {
        self.number
    }

    /// The identity as it is written, the letters of station and subject and then two digits, as
    /// `EA01`.
    pub fn bytes(self) -> [u8; 4]
        ensures { result ≡ identity_bytes self }
    {
        let [tens, units] = two_digits(self.number);
        [self.b1.byte, self.b2.byte, tens, units]
    }
}
