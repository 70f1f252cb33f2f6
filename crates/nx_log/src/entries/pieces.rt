//! The pieces of which the line that heads an entry consists. Each reader gives what stands at the
//! beginning of the bytes and what stands behind, or what they lack of it.

ghost use Rattle.std.specs.Prelude.{◌≡◌, ◌≢◌, ◌↔◌, ℕ, ◌≤◌, ◌<◌, ◌*◌, ◌+◌, ◌⊎◌, List, [], ◌∷◌, ◌++◌, decimal, length, IfErr, IfNone, IfOk, IfSome, IsTrue, Some};
ghost use Rattle.nx_envelope.specs.Copies.{most_found};
ghost use Rattle.nx_envelope.specs.Identity.{two_digits};
ghost use Rattle.nx_log.specs.private.Stages.{BeginsSome, IsByte, IsCount, IsNumber, Lacks, Spells, written};

use crate::entries::lack::Lack;
use nx_envelope::MAX_FOUND;

/// A byte from `least` to `most`.
pub(crate) fn byte_at(bytes: &[u8], least: u8, most: u8) -> Result<(u8, &[u8]), Lack<'_>>
    requires { least ≤ most }
    ensures found { IfOk result (λ found. bytes.now ≡ found.0 ∷ found.1.now) }
    ensures in_range { IfOk result (λ found. (least ≤ found.0) × (found.0 ≤ most)) }
    ensures lacks { IfErr result (λ lack. Lacks (Spells (IsByte least most)) bytes.now lack) }
{
    match bytes {
        [] => Err(Lack::Unfinished),
        [byte, rest @ ..] => {
            if least <= *byte && *byte <= most {
                Ok((*byte, rest))
            } else {
                Err(Lack::Broken(bytes))
            }
        }
    }
}

/// A fixed text. What stands behind it is given alone.
pub(crate) fn literal_at<'a>(bytes: &'a [u8], literal: &[u8]) -> Result<&'a [u8], Lack<'a>>
    ensures found { IfOk result (λ rest. bytes.now ≡ literal.now ++ rest.now) }
    ensures lacks { IfErr result (λ lack. Lacks (λ spelled. spelled ≡ literal.now) bytes.now lack) }
{
    let mut rest = bytes;
    let mut wanted = literal;
    while let Some((byte, more)) = wanted.split_first() {
        let (_, behind) = byte_at(rest, *byte, *byte)?;
        rest = behind;
        wanted = more;
    }
    Ok(rest)
}

/// A fixed text, and the two digits of a number from `least` to `most`, which is below 100.
pub(crate) fn number_at<'a>(
    bytes: &'a [u8],
    before: &[u8],
    least: u8,
    most: u8,
) -> Result<(u8, &'a [u8]), Lack<'a>>
    requires { (least ≤ most) × (most < 100) }
    ensures found { IfOk result (λ found.
        bytes.now ≡ before.now ++ (two_digits found.0 ++ found.1.now)) }
    ensures in_range { IfOk result (λ found. (least ≤ found.0) × (found.0 ≤ most)) }
    ensures lacks { IfErr result (λ lack.
        Lacks (Spells (IsNumber before.now least most)) bytes.now lack) }
{
    let rest = literal_at(bytes, before)?;
    let (tens, rest) = byte_at(rest, b'0' + least / 10, b'0' + most / 10)?;
    let tens = (tens - b'0') * 10;
    let from = least.max(tens);
    let to = most.min(tens + 9);
    let (units, rest) = byte_at(rest, b'0' + from % 10, b'0' + to % 10)?;
    Ok((tens + (units - b'0'), rest))
}

/// The number from `least` to 4,100, and the byte `end` behind it, which is no digit.
pub(crate) fn count_at(bytes: &[u8], least: u16, end: u8) -> Result<(u16, &[u8]), Lack<'_>>
    requires end { (end < 48) ⊎ (57 < end) }
    requires least { least ≤ most_found }
    ensures found { IfOk result (λ found.
        bytes.now ≡ decimal found.0 ++ (end ∷ found.1.now)) }
    ensures in_range { IfOk result (λ found. (least ≤ found.0) × (found.0 ≤ most_found)) }
    ensures lacks { IfErr result (λ lack. Lacks (Spells (IsCount least end)) bytes.now lack) }
{
    let least = u32::from(least);
    let mut number = None;
    let mut rest = bytes;
    while let Some((byte, behind)) = rest.split_first() {
        let Some(next) = with_digit(number, *byte, least) else {
            return match number {
                Some(whole) if *byte == end && least <= whole => Ok((whole as u16, behind)),
                _ => Err(Lack::Broken(rest)),
            };
        };
        number = Some(next);
        rest = behind;
    }
    Err(Lack::Unfinished)
}

/// The number of which so many digits were read, with one digit more. `None` where the byte is no
/// digit, and where no number from `least` to 4,100 begins so.
fn with_digit(number: Option<u32>, byte: u8, least: u32) -> Option<u32>
    requires number { IfSome number (λ n. n ≤ most_found) }
    requires least { least ≤ most_found }
    ensures digits { IfSome result (λ next. written number ++ (byte ∷ []) ≡ decimal next) }
    ensures goes_on { IfSome result (λ next. BeginsSome least (decimal next)) }
    ensures few { IfSome result (λ next. next ≤ most_found) }
    ensures none { IfNone result (BeginsSome least (written number ++ (byte ∷ [])) → ⊥) }
{
    if !byte.is_ascii_digit() {
        return None;
    }
    let Some(next) = with_last(number, u32::from(byte - b'0')) else {
        return None;
    };
    if can_become(next, least) {
        Some(next)
    } else {
        None
    }
}

/// The number of which so many digits were read, with one digit more. `None` behind a zero, with
/// which no longer number begins.
fn with_last(number: Option<u32>, digit: u32) -> Option<u32>
    requires number { IfSome number (λ n. n ≤ most_found) }
    requires digit { digit ≤ 9 }
    ensures digits { IfSome result (λ next.
        written number ++ ((48 + digit) ∷ []) ≡ decimal next) }
    ensures few { IfSome result (λ next. next ≤ 41_009) }
    ensures none { IfNone result (number ≡ Some 0) }
{
    match number {
        None => Some(digit),
        Some(front) => if front == 0 {
            None
        } else {
            Some(front * 10 + digit)
        },
    }
}

/// Whether some number from `least` to 4,100 begins with the digits of this one.
fn can_become(number: u32, least: u32) -> bool
    requires number { number < 65_536 }
    requires least { least ≤ most_found }
    ensures begins { IsTrue result ↔ BeginsSome least (decimal number) }
    ensures few { IsTrue result → number ≤ most_found }
{
    if number == 0 {
        return least == 0;
    }
    if reaches(number, 1, least) || reaches(number, 10, least) {
        return true;
    }
    reaches(number, 100, least) || reaches(number, 1000, least)
}

/// Whether some number from `least` to 4,100 has these digits in front of so many places: the
/// scale is 10 for one place, and 100 for two.
fn reaches(number: u32, scale: u32, least: u32) -> bool
    requires { (number < 65_536) × (scale ≤ 1000) }
    ensures { IsTrue result ↔ ((number * scale ≤ most_found) × (least < (number + 1) * scale)) }
{
    number * scale <= MAX_FOUND as u32 && least < (number + 1) * scale
}
