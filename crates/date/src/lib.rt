// Dates of the Gregorian calendar, each one number: year * 10,000 + month * 100 + day. Which exist, and the number of a
// day.
#![tactic(auto)]

pub mod limits;

ghost use Rattle.std.specs.Prelude.{◌≡◌, ◌<◌};
ghost use Rattle.date.specs.Calendar.{leap_day, month_length, date_exists, before_year, day_number};

use crate::limits::{MAX_YEAR, MIN_YEAR};

// 1 in a leap year, else 0.
fn leap_day(y: u32) -> u32
    ensures { result ≡ leap_day y }
{
    u32::from(y % 400 == 0 || y % 100 != 0 && y % 4 == 0)
}

// The days of month m of year y.
fn month_length(y: u32, m: u32) -> u32
    ensures { result ≡ month_length y m }
{
    match m {
        2 => 28 + leap_day(y),
        4 | 6 | 9 | 11 => 30,
        _ => 31,
    }
}

// Whether a number is a date.
pub fn date_exists(date: u32) -> bool
    ensures { result ≡ date_exists date }
{
    let y = date / 10000;
    let m = date / 100 % 100;
    let d = date % 100;
    (MIN_YEAR..=MAX_YEAR).contains(&y)
        && (1..=12).contains(&m)
        && (1..=month_length(y, m)).contains(&d)
}

// The days of all years before y: the leap days are counted, not walked.
fn before_year(y: u32) -> u32
    requires { y < 1000000 }
    ensures { result ≡ before_year y }
{
    365 * y + (y + 3) / 4 - (y + 99) / 100 + (y + 399) / 400
}

// The number of a day: one more than that of the day before it.
pub fn day_number(date: u32) -> u32
    ensures { result ≡ day_number date }
{
    let y = date / 10000;
    let m = date / 100 % 100;
    let mut days = before_year(y);
    for k in 1..m {
        days += month_length(y, k);
    }
    days + date % 100
}
