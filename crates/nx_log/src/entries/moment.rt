//! The moment that a civil time shows.

ghost use Rattle.std.specs.Prelude.{◌≡◌, ℕ, pos, ◌+◌, ◌*◌, ◌<◌, ◌≤◌, List, ◌++◌, IfErr, IfNone, IfOk, IfSome};
ghost use Rattle.jiff_core.specs.Calendar.{IsCivilDate, days_from_civil};
ghost use Rattle.nx_envelope.specs.Moment.{IsShownAs, last_moment};
ghost use Rattle.nx_log.specs.private.Stages.{IsCivilTime, Lacks, Spells, year_from};

use crate::entries::lack::Lack;
use crate::entries::pieces::number_at;
use jiff::civil::Date;
use jiff_core::civil::days_in_month;

/// The seconds of a day, of an hour and of a minute.
const DAY: u64 = 86_400;

const HOUR: u64 = 3_600;

const MINUTE: u64 = 60;

/// The moment that a text shows as `civil` does, `YYYY-MM-DD HH:MM:SS` in UTC. `None` exactly where
/// `civil` gives this text of no moment.
pub fn moment_of(text: &[u8]) -> Option<u64>
    ensures in_range { IfSome result (λ moment. moment ≤ last_moment) }
    ensures shown { IfSome result (λ moment. IsShownAs moment text.now) }
    ensures none { IfNone result ((moment : ℕ) → moment ≤ last_moment
        → ¬ IsShownAs moment text.now) }
{
    let Ok((moment, rest)) = civil_at(text) else {
        return None;
    };
    if rest.is_empty() { Some(moment) } else { None }
}

/// The moment of the civil time with which the bytes begin, and what stands behind; or what they
/// lack of a civil time.
pub(crate) fn civil_at(bytes: &[u8]) -> Result<(u64, &[u8]), Lack<'_>>
    ensures found { IfOk result (λ found. (civil : List ℕ) × IsShownAs found.0 civil
        × (bytes.now ≡ civil ++ found.1.now)) }
    ensures in_range { IfOk result (λ found. found.0 ≤ last_moment) }
    ensures lacks { IfErr result (λ lack. Lacks (Spells IsCivilTime) bytes.now lack) }
{
    let (century, rest) = number_at(bytes, b"", 19, 29)?;
    let (year, rest) = number_at(rest, b"", first_year(century), 99)?;
    let (month, rest) = number_at(rest, b"-", 1, 12)?;
    let year = u16::from(century) * 100 + u16::from(year);
    let (day, rest) = number_at(rest, b"-", 1, days_in_month(year as i16, month))?;
    let (hour, rest) = number_at(rest, b" ", 0, 23)?;
    let (minute, rest) = number_at(rest, b":", 0, 59)?;
    let (second, rest) = number_at(rest, b":", 0, 59)?;
    let minutes = u64::from(hour) * HOUR + u64::from(minute) * MINUTE;
    let moment = day_number(year, month, day) * DAY + minutes + u64::from(second);
    Ok((moment, rest))
}

/// The first year of a century that has moments in range, by its last two digits: 1970 is the first
/// of all.
fn first_year(century: u8) -> u8
    ensures { result ≡ year_from century }
{
    if century == 19 { 70 } else { 0 }
}

/// The day number of a date of the calendar, 0 for 1970-01-01, from when on it is.
fn day_number(year: u16, month: u8, day: u8) -> u64
    requires date { IsCivilDate (pos year) month day }
    requires year { (1970 ≤ year) × (year ≤ 2999) }
    ensures value { days_from_civil (pos year) month day ≡ pos result }
    ensures below { result ≤ 376_199 }
{
    let Ok(date) = Date::new(year as i16, month as i8, day as i8) else {
        unreachable!()
    };
    date.to_plain().to_unix_epoch_day() as u64
}
