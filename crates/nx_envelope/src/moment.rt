//! Moments, and the civil time that they are printed as.

ghost use Rattle.std.specs.Prelude.{◌↔◌, ◌<◌, IfSome, IsNone};
ghost use Rattle.nx_envelope.specs.Moment.{IsShownAs, last_moment};
ghost use Rattle.nx_envelope.specs.private.CivilTimes.{IsCivilTime, IsMomentOf};

use crate::digit::two_digits;
use jiff::civil::{Date, Time};
use jiff_core::civil::{Date as CoreDate, Time as CoreTime};

/// The last moment, 2999-12-31 23:59:59, in seconds since 1970-01-01 00:00:00 UTC.
pub const LAST_MOMENT: u64 = 32_503_679_999;

/// The seconds of a day.
const DAY: u64 = 86_400;

/// The bytes of a civil time as it is printed, `YYYY-MM-DD HH:MM:SS`.
pub const CIVIL_LEN: usize = 19;

/// A date of the Gregorian calendar and a time of day, in UTC.
#[derive(Clone, Copy, Debug)]
pub struct CivilTime {
    /// The year, to 9999.
    pub year: u16,
    /// The month, from 1.
    pub month: u8,
    /// The day of the month, from 1.
    pub day: u8,
    /// The hour, to 23.
    pub hour: u8,
    /// The minute, to 59.
    pub minute: u8,
    /// The second, to 59.
    pub second: u8,
}

/// The civil time of a moment.
fn civil_time(moment: u64) -> Option<CivilTime>
    ensures none { IsNone result ↔ (last_moment < moment) }
    ensures civil { IfSome result IsCivilTime }
    ensures moment { IfSome result (λ time. IsMomentOf time moment) }
{
    if moment > LAST_MOMENT {
        return None;
    }
    let Ok(date) = CoreDate::from_unix_epoch_day((moment / DAY) as i64) else {
        return None;
    };
    let date = Date::from_plain(date);
    let time = Time::from_plain(CoreTime::from_second((moment % DAY) as u32, 0));
    Some(CivilTime {
        year: date.year() as u16,
        month: date.month() as u8,
        day: date.day() as u8,
        hour: time.hour() as u8,
        minute: time.minute() as u8,
        second: time.second() as u8,
    })
}

/// The civil time of a moment in UTC, as `2025-01-01 00:40:00`; `None` exactly above the last
/// moment.
pub fn civil(moment: u64) -> Option<[u8; CIVIL_LEN]>
    ensures none { IsNone result ↔ (last_moment < moment) }
    ensures shown { IfSome result (IsShownAs moment) }
{
    let time = civil_time(moment)?;
    let [y1, y2] = two_digits((time.year / 100) as u8);
    let [y3, y4] = two_digits((time.year % 100) as u8);
    let [n1, n2] = two_digits(time.month);
    let [d1, d2] = two_digits(time.day);
    let [h1, h2] = two_digits(time.hour);
    let [m1, m2] = two_digits(time.minute);
    let [s1, s2] = two_digits(time.second);
    Some([
        y1, y2, y3, y4, b'-', n1, n2, b'-', d1, d2, b' ', h1, h2, b':', m1, m2, b':', s1, s2,
    ])
}
