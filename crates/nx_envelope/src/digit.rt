//! A decimal digit of a message's number.

ghost use Rattle.std.specs.Prelude.{◌≡◌, ◌<◌, ◌≤◌, ◌↔◌, ◌-◌, IfSome, IsSome};
ghost use Rattle.nx_envelope.specs.private.DigitBytes.{IsDigit};
ghost use Rattle.nx_envelope.specs.Identity.{two_digits as digits_of};

/// A decimal digit.
#[derive(Clone, Copy, PartialEq, Eq, Debug)]
pub struct Digit {
    /// Its value, from 0 to 9.
    pub value: u8,
    pub ghost below_ten: { value ≤ 9 },
}

impl Digit {
    ghost use Rattle.nx_envelope.specs.private.Letters.{digit_of};

    /// The digit of a byte, `None` where the byte isn't 0 to 9.
    pub fn new(byte: u8) -> Option<Digit>
        ensures in_range { IsSome result ↔ IsDigit byte }
        ensures given { IfSome result (λ digit. digit.value ≡ byte - 48) }
        ensures digit { result ≡ digit_of byte }
    {
        if byte.is_ascii_digit() {
            Some(Digit { value: byte - b'0' })
        } else {
            None
        }
    }
}

/// The two decimal digits of a number below 100.
pub fn two_digits(number: u8) -> [u8; 2]
    requires { number < 100 }
    ensures { result ≡ digits_of number }
{
    [b'0' + number / 10, b'0' + number % 10]
}
