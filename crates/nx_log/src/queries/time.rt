//! The times by which a query names moments.

ghost use Rattle.std.specs.Prelude.{◌≡◌, ◌↔◌, ◌⊎◌, ℕ, ◌+◌, ◌≤◌, List, [], ◌++◌, codes, length, Some, All, IfSome, IsTrue};
ghost use Rattle.std.specs.Char.{IsAsciiDigit};
ghost use Rattle.std.specs.Str.Parse.{AllDigits};
ghost use Rattle.nx_envelope.specs.Moment.{IsShownAs, last_moment};
ghost use Rattle.nx_log.specs.Times.{CouldBeDate, IsBetween, IsSince, IsUntil, NamesMoment};
ghost use Rattle.nx_log.specs.Times.{WritesMoment, WritesTime, joined_by};

use crate::entries::moment::moment_of;
use arrayvec::ArrayVec;
use nx_envelope::{CIVIL_LEN, LAST_MOMENT};
use nx_fec::append;

/// The bytes of a date, `YYYY-MM-DD`.
const DATE_LEN: usize = 10;

/// The bytes of a time of day and the space before it, ` HH:MM:SS`.
const TIME_LEN: usize = 9;

/// The bytes of a date and a time to the minute, `YYYY-MM-DDTHH:MM`.
const MINUTE_LEN: usize = 16;

/// The bytes of the second of a minute, `:SS`.
const SECOND_LEN: usize = 3;

/// The digits of a year.
const YEAR_DIGITS: usize = 4;

/// The digits of a date without its hyphens.
const DATE_DIGITS: usize = 8;

/// The moment since which a text asks for entries. Digits alone are the moment itself, in whole
/// seconds since 1970-01-01 00:00:00 UTC; four or eight are none, since they could be a year or a
/// date. `YYYY-MM-DD` is the first second of a date in UTC, `YYYY-MM-DDTHH:MM:SS` a second of it,
/// and `YYYY-MM-DDTHH:MM` the first second of a minute. A space may stand for the `T`, and a `Z`
/// behind these two. `None` exactly where a text has none of these forms, where the calendar has no
/// such time, and outside the years 1970 to 2999.
pub fn since_of(text: &str) -> Option<u64>
    ensures named { IfSome result (IsSince text.now) }
    ensures found { (moment : ℕ) → IsSince text.now moment → result ≡ Some moment }
{
    moment_named(text, b" 00:00:00", b":00")
}

/// The moment until which a text asks for entries: as with `since_of`, but of a date or a minute
/// its last second.
pub fn until_of(text: &str) -> Option<u64>
    ensures named { IfSome result (IsUntil text.now) }
    ensures found { (moment : ℕ) → IsUntil text.now moment → result ≡ Some moment }
{
    moment_named(text, b" 23:59:59", b":59")
}

/// The moment that a text names, where a date alone means this second of its day, and a time to the
/// minute this second of its minute.
fn moment_named(text: &str, of_day: &[u8; TIME_LEN], of_minute: &[u8; SECOND_LEN]) -> Option<u64>
    ensures named { IfSome result (NamesMoment of_day.now of_minute.now text.now) }
    ensures found { (moment : ℕ) → NamesMoment of_day.now of_minute.now text.now moment
        → result ≡ Some moment }
{
    let bytes = text.as_bytes();
    if is_of_digits(bytes) {
        written_moment(text)
    } else if bytes.len() == DATE_LEN {
        moment_of_day(bytes, of_day)
    } else if bytes.len() < CIVIL_LEN {
        written_minute(bytes, of_minute)
    } else {
        written_second(bytes)
    }
}

/// Whether each byte is a decimal digit.
pub(crate) fn is_of_digits(bytes: &[u8]) -> bool
    ensures { IsTrue result ↔ All IsAsciiDigit bytes.now }
{
    bytes.iter().all(|byte| byte.is_ascii_digit())
}

/// Whether so many digits could be a year, or a date without its hyphens.
fn could_be_date(digits: &[u8]) -> bool
    ensures { IsTrue result ↔ CouldBeDate digits.now }
{
    digits.len() == YEAR_DIGITS || digits.len() == DATE_DIGITS
}

/// The moment that digits write.
fn written_moment(text: &str) -> Option<u64>
    requires { AllDigits 10 text.now }
    ensures written { IfSome result (WritesMoment text.now) }
    ensures in_range { IfSome result (λ moment. moment ≤ last_moment) }
    ensures found { (moment : ℕ) → moment ≤ last_moment → WritesMoment text.now moment
        → result ≡ Some moment }
{
    if could_be_date(text.as_bytes()) {
        return None;
    }
    let Ok(moment) = text.parse::<u64>() else {
        return None;
    };
    if moment <= LAST_MOMENT {
        Some(moment)
    } else {
        None
    }
}

/// The moment of a date, a text of ten bytes, at this second of its day.
fn moment_of_day(date: &[u8], second: &[u8; TIME_LEN]) -> Option<u64>
    requires { length date.now ≡ 10 }
    ensures shown { IfSome result (λ moment. IsShownAs moment (date.now ++ second.now)) }
    ensures in_range { IfSome result (λ moment. moment ≤ last_moment) }
    ensures found { (moment : ℕ) → moment ≤ last_moment
        → IsShownAs moment (date.now ++ second.now) → result ≡ Some moment }
{
    let mut civil = ArrayVec::<u8, CIVIL_LEN>::new();
    civil.try_extend_from_slice(date).unwrap();
    civil.try_extend_from_slice(second).unwrap();
    moment_of(&civil)
}

/// The moment of a date and a time of day, in UTC.
fn written_second(text: &[u8]) -> Option<u64>
    ensures written { IfSome result (WritesTime [] text.now) }
    ensures in_range { IfSome result (λ moment. moment ≤ last_moment) }
    ensures found { (moment : ℕ) → moment ≤ last_moment → WritesTime [] text.now moment
        → result ≡ Some moment }
{
    let (time, zone) = text.split_at_checked(CIVIL_LEN)?;
    if is_utc(zone) {
        moment_joined(time, b"")
    } else {
        None
    }
}

/// The moment of a date and a time to the minute, in UTC, at this second of the minute.
fn written_minute(text: &[u8], second: &[u8; SECOND_LEN]) -> Option<u64>
    ensures written { IfSome result (WritesTime second.now text.now) }
    ensures in_range { IfSome result (λ moment. moment ≤ last_moment) }
    ensures found { (moment : ℕ) → moment ≤ last_moment → WritesTime second.now text.now moment
        → result ≡ Some moment }
{
    let (time, zone) = text.split_at_checked(MINUTE_LEN)?;
    if is_utc(zone) {
        moment_joined(time, second)
    } else {
        None
    }
}

/// Whether what stands behind a time of day is nothing or the zone of UTC.
fn is_utc(zone: &[u8]) -> bool
    ensures { IsTrue result ↔ ((zone.now ≡ []) ⊎ (zone.now ≡ codes "Z")) }
{
    matches!(zone, [] | [b'Z'])
}

/// Whether the byte may stand between a date and a time of day.
fn is_between(byte: u8) -> bool
    ensures { IsTrue result ↔ IsBetween byte }
{
    byte == b'T' || byte == b' '
}

/// The moment of a date and a time of day that a `T` or a space joins, with the rest of it behind.
/// The text has 16 bytes or more (`long`), and 19 with the rest (`all`).
fn moment_joined(text: &[u8], rest: &[u8]) -> Option<u64>
    requires long { 16 ≤ length text.now }
    requires all { length text.now + length rest.now ≡ 19 }
    ensures shown { IfSome result (λ moment. (civil : List ℕ)
        × IsShownAs moment (civil ++ rest.now)
        × ((between : ℕ) × IsBetween between × (text.now ≡ joined_by between civil))) }
    ensures in_range { IfSome result (λ moment. moment ≤ last_moment) }
    ensures found { (moment : ℕ) (civil : List ℕ) (between : ℕ) → moment ≤ last_moment
        → IsShownAs moment (civil ++ rest.now) → IsBetween between
        → text.now ≡ joined_by between civil → result ≡ Some moment }
{
    if !is_between(text[DATE_LEN]) {
        return None;
    }
    let mut civil = ArrayVec::<u8, CIVIL_LEN>::new();
    append(&mut civil, &text[..DATE_LEN]);
    civil.push(b' ');
    append(&mut civil, &text[DATE_LEN + 1..]);
    append(&mut civil, rest);
    moment_of(&civil)
}
