//! Days of the calendar and their texts.

ghost use Rattle.std.specs.Prelude.{◌≡◌, ◌+◌, ◌<◌, ◌≤◌, length};
ghost use Rattle.mdl_table.specs.Calendar.{day_number, day_at_front, day_of};

use crate::form::{four_at, has_form, two_at};
use jiff::civil::Date;

/// How many seconds a day has.
pub(crate) const SECONDS_OF_DAY: i64 = 86_400;

/// The number of a day, 0 for 1 January 1970, none where the calendar has no such day.
fn day_number(year: u32, month: u16, day: u16) -> Option<i32>
    ensures { result ≡ day_number year month day }
{
    let year = i16::try_from(year).ok()?;
    let month = i8::try_from(month).ok()?;
    let day = i8::try_from(day).ok()?;
    match Date::new(year, month, day) {
        Ok(date) => Some(date.to_plain().to_unix_epoch_day()),
        Err(_) => None,
    }
}

/// The number of the day of a text that begins with a date (RFC 3339, section 5.6).
pub(crate) fn day_at_front(text: &[u8]) -> Option<i32>
    requires { 10 ≤ length text.now }
    ensures { result ≡ day_at_front text.now }
{
    day_number(four_at(text, 0), two_at(text, 5), two_at(text, 8))
}

/// The number of the day that a text `YYYY-MM-DD` names.
#[tactic(auto, unfolding(crate::specs::Calendar::day_of, crate::specs::Form::has_form))]
pub(crate) fn day_of(text: &str) -> Option<i32>
    ensures { result ≡ day_of text.now }
{
    let text = text.as_bytes();
    if has_form(b"0000-00-00", text) {
        day_at_front(text)
    } else {
        None
    }
}
