//! The texts of moments.

ghost use Rattle.std.specs.Prelude.{◌≡◌, ◌↔◌, ◌+◌, ◌*◌, ◌/◌, ◌%◌, ◌<◌, ◌++◌, pos, ◌+ℤ◌, ◌*ℤ◌, unsigned_abs, codes, ◌≤ℤ◌, IsSome, IfSome, IfNone};
ghost use Rattle.jiff_core.specs.Date.{epoch_day};
ghost use Rattle.mdl_table.specs.MomentText.{two_digits, date_text, time_text, text_of, IsDayInYears, IsInYears};

use crate::date::SECONDS_OF_DAY;
use jiff_core::civil::Date;

/// A number below 100 in two digits.
fn two_digits(number: u16) -> [u8; 2]
    requires { number < 100 }
    ensures { result ≡ two_digits number }
{
    [b'0' + (number / 10) as u8, b'0' + (number % 10) as u8]
}

/// `YYYY-MM-DD`.
fn date_text(date: Date) -> [u8; 10]
    ensures { result ≡ date_text (unsigned_abs date.year) date.month date.day }
{
    let year = date.year.unsigned_abs();
    let [y1, y2] = two_digits(year / 100);
    let [y3, y4] = two_digits(year % 100);
    let [m1, m2] = two_digits(u16::from(date.month));
    let [d1, d2] = two_digits(u16::from(date.day));
    [y1, y2, y3, y4, b'-', m1, m2, b'-', d1, d2]
}

/// `HH:MM:SS` of a second of a day.
fn time_text(second: u32) -> [u8; 8]
    requires { second < 86_400 }
    ensures { result ≡ time_text (second / 3600) (second / 60 % 60) (second % 60) }
{
    let [h1, h2] = two_digits((second / 3600) as u16);
    let [m1, m2] = two_digits((second / 60 % 60) as u16);
    let [s1, s2] = two_digits((second % 60) as u16);
    [h1, h2, b':', m1, m2, b':', s1, s2]
}

/// `YYYY-MM-DDTHH:MM:SSZ`.
fn text_at(date: Date, second: u32) -> [u8; 20]
    requires { second < 86_400 }
    ensures { result
        ≡ date_text (unsigned_abs date.year) date.month date.day ++ codes "T"
        ++ time_text (second / 3600) (second / 60 % 60) (second % 60) ++ codes "Z" }
{
    let mut text = *b"0000-00-00T00:00:00Z";
    text[..10].copy_from_slice(&date_text(date));
    text[11..19].copy_from_slice(&time_text(second));
    text
}

/// The number of the day of a moment, and the second of that day.
fn day_and_second(moment: i64) -> (i64, u32)
    ensures whole { moment ≡ result.0 *ℤ pos 86_400 +ℤ pos result.1 }
    ensures within { result.1 < 86_400 }
{
    (
        moment.div_euclid(SECONDS_OF_DAY),
        moment.rem_euclid(SECONDS_OF_DAY) as u32,
    )
}

/// The date of the number of a day, none outside the years 0 to 9999.
fn date_of(day: i64) -> Option<Date>
    ensures some { IfSome result (λ date. (epoch_day date ≡ day) × (pos 0 ≤ℤ date.year)) }
    ensures none { IfNone result (¬ IsDayInYears day) }
{
    let Ok(date) = Date::from_unix_epoch_day(day) else {
        return None;
    };
    if date.year < 0 {
        return None;
    }
    Some(date)
}

/// The text `YYYY-MM-DDTHH:MM:SSZ` of a moment (RFC 3339, section 5.6), in seconds since 1970; none
/// for a moment outside the years 0 to 9999.
pub fn text_of(moment: i64) -> Option<[u8; 20]>
    ensures exact { result ≡ text_of moment }
    ensures some { IsSome result ↔ IsInYears moment }
{
    let (day, second) = day_and_second(moment);
    match date_of(day) {
        Some(date) => Some(text_at(date, second)),
        None => None,
    }
}
