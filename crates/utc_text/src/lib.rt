//! The texts of UTC days, hours and minutes.
//!
//! ```rust
//! use utc_text::minute_text;
//!
//! assert!(rt; minute_text(28_333_333).is_some_and(|text| text.as_str() == "2023-11-14T22:13Z"));
//! ```
//!
//! Days, hours and minutes are numbered, and the first of 1970 has the number 0. This crate uses jiff, a library of
//! calendars. Callers may rely on this: there is a text up to the year 9999, and it is that of the date that one gets
//! by counting the days of years and months from 1970 on.
#![tactic(auto)]

ghost use Rattle.std.specs.Prelude.{◌≡◌, ◌++◌, ◌+◌, ◌<◌, ◌≤◌, IfSome, length, option_map};
ghost use Rattle.utc_text.specs.Texts.{day_text, hour_text, minute_text, two_digits};

use arrayvec::ArrayString;
use jiff_core::civil::Date;
use jiff_fmt::temporal::DateTimePrinter;

// The number of the last day of the year 9999, and the number of days from the first of the year -9999 to the first of
// 1970.
const LAST_DAY: u64 = 2_932_896;

const DAYS_BEFORE: u32 = 4_371_587;

// Appends two digits.
fn push_two(text: &mut ArrayString<20>, number: u64)
    requires room { length text.old.bytes + 2 ≤ 20 }
    requires small { number < 100 }
    ensures { text.new.bytes ≡ text.old.bytes ++ two_digits number }
{
    text.push((b'0' + (number / 10) as u8) as char);
    text.push((b'0' + (number % 10) as u8) as char);
}

/// Returns the text of a day, such as `2023-11-14`, or `None` if it is after the year 9999.
pub fn day_text(day: u64) -> Option<ArrayString<20>>
    ensures text { option_map (λ text. text.bytes) result ≡ day_text day }
    ensures short { IfSome result (λ text. length text.bytes ≤ 13) }
{
    if day > LAST_DAY {
        return None;
    }
    let date = Date::from_days_since_min(day as u32 + DAYS_BEFORE);
    let date = DateTimePrinter::new().date_text(date);
    let mut text = ArrayString::new();
    text.push_str(date.as_str());
    Some(text)
}

/// Returns the text of an hour, such as `2023-11-14T22Z`, or `None` if it is after the year 9999.
pub fn hour_text(hour: u64) -> Option<ArrayString<20>>
    ensures { option_map (λ text. text.bytes) result ≡ hour_text hour }
{
    let mut text = day_text(hour / 24)?;
    text.push('T');
    push_two(&mut text, hour % 24);
    text.push('Z');
    Some(text)
}

/// Returns the text of a minute, such as `2023-11-14T22:13Z`, or `None` if it is after the year 9999.
pub fn minute_text(minute: u64) -> Option<ArrayString<20>>
    ensures { option_map (λ text. text.bytes) result ≡ minute_text minute }
{
    let mut text = day_text(minute / 1440)?;
    text.push('T');
    push_two(&mut text, minute % 1440 / 60);
    text.push(':');
    push_two(&mut text, minute % 60);
    text.push('Z');
    Some(text)
}
