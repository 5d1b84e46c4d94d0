//! Moments and their texts.

ghost use Rattle.std.specs.Prelude.{◌≡◌, ◌<◌, pos, ◌+ℤ◌, ◌*ℤ◌};
ghost use Rattle.mdl_table.specs.Calendar.{moment_of, second_number};

use crate::date::{SECONDS_OF_DAY, day_at_front};
use crate::form::{has_form, two_at};

/// The second of the day, none where no day has it.
fn second_number(hour: u16, minute: u16, second: u16) -> Option<u32>
    ensures { result ≡ second_number hour minute second }
{
    if hour < 24 && minute < 60 && second < 60 {
        Some(3600 * u32::from(hour) + 60 * u32::from(minute) + u32::from(second))
    } else {
        None
    }
}

/// The seconds from 1 January 1970 on to a second of a day.
fn seconds_to(day: i32, second: u32) -> i64
    ensures { result ≡ day *ℤ pos 86_400 +ℤ pos second }
{
    i64::from(day) * SECONDS_OF_DAY + i64::from(second)
}

/// The seconds since 1970 that a text `YYYY-MM-DDTHH:MM:SSZ` says (RFC 3339, section 5.6), none for
/// other texts and for dates and times of day that don't exist.
#[tactic(auto, unfolding(crate::specs::Calendar::moment_of, crate::specs::Form::has_form))]
pub fn moment_of(text: &str) -> Option<i64>
    ensures { result ≡ moment_of text.now }
{
    let text = text.as_bytes();
    if !has_form(b"0000-00-00T00:00:00Z", text) {
        return None;
    }
    let day = day_at_front(text)?;
    let second = second_number(two_at(text, 11), two_at(text, 14), two_at(text, 17))?;
    Some(seconds_to(day, second))
}
