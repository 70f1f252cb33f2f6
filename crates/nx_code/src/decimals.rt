//! Decimal numbers, as the lines of files write them.

ghost use Rattle.std.specs.Prelude.{◌≡◌, ◌≢◌, ◌≤◌, ℕ, IfNone, IfSome};
ghost use Rattle.std.specs.Fmt.{decimal};

use itoa::Buffer;
use std::str;

/// The number that is written so, with no needless zero in front, where it isn't above `most`.
pub fn decimal_number(digits: &[u8], most: u64) -> Option<u64>
    ensures found { IfSome result (λ number.
        (number ≤ most) × (digits.now ≡ decimal number)) }
    ensures none { IfNone result ((number : ℕ) → number ≤ most
        → digits.now ≢ decimal number) }
{
    let Ok(text) = str::from_utf8(digits) else {
        return None;
    };
    let Ok(number) = text.parse::<u64>() else {
        return None;
    };
    let mut again = Buffer::new();
    if number <= most && again.format(number).as_bytes() == digits {
        Some(number)
    } else {
        None
    }
}
