//! Numbers of words in base 16.

ghost use Rattle.std.specs.Prelude.{◌≡◌, ◌<◌};
ghost use Rattle.nx_fec.specs.texts.Hexadecimal.{hex_digit, two_hex_digits};

/// A number in two digits of base 16, with A to F as capitals.
pub(crate) fn two_hex_digits(number: u8) -> [u8; 2]
    ensures { result ≡ two_hex_digits number }
{
    [digit(number / 16), digit(number % 16)]
}

/// A digit of base 16.
fn digit(digit: u8) -> u8
    requires { digit < 16 }
    ensures { result ≡ hex_digit digit }
{
    if digit < 10 {
        b'0' + digit
    } else {
        b'A' - 10 + digit
    }
}
