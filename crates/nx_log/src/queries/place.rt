//! How many bytes stand before a part of a kept log.

ghost use Rattle.std.specs.Prelude.{◌≡◌, ℕ, IfSome, Some};
ghost use Rattle.std.specs.Str.Parse.{AllDigits};
ghost use Rattle.nx_log.specs.Places.{SaysPlace};

use crate::log_runs::MAX_READ;
use crate::queries::time::is_of_digits;

/// How many bytes the text says: digits alone, at most 2^63 - 1. `None` exactly where it is no such
/// text.
pub fn place_named(text: &str) -> Option<u64>
    ensures said { IfSome result (SaysPlace text.now) }
    ensures found { (place : ℕ) → SaysPlace text.now place → result ≡ Some place }
{
    if is_of_digits(text.as_bytes()) {
        written_place(text)
    } else {
        None
    }
}

/// How many bytes digits say.
fn written_place(text: &str) -> Option<u64>
    requires { AllDigits 10 text.now }
    ensures said { IfSome result (SaysPlace text.now) }
    ensures found { (place : ℕ) → SaysPlace text.now place → result ≡ Some place }
{
    let Ok(place) = text.parse::<u64>() else {
        return None;
    };
    if place <= MAX_READ { Some(place) } else { None }
}
