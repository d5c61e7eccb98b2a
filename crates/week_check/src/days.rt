//! The numbers of days, and their weeks.

ghost use Rattle.std.specs.Prelude.{◌≡◌, pos, neg_ℤ, ◌≤ℤ◌};
ghost use Rattle.jiff_core.specs.Date.{epoch_day};
ghost use Rattle.week_check.specs.Days as days;

use jiff::civil::{Date, date};
use jiff_core::civil::Date as PlainDate;

/// The date of a day as YYYYMMDD.
fn date_of(day: u32) -> Date
    requires { days.IsDutyDay day }
    ensures { days.IsDateOf day result }
{
    date(
        (day / 10_000) as i16,
        (day / 100 % 100) as i8,
        (day % 100) as i8,
    )
}

/// The number of a day, counted from 0 for 1970-01-01.
pub(crate) fn number_of(day: u32) -> i64
    requires { days.IsDutyDay day }
    ensures value { result ≡ days.number_of day }
    ensures bound { days.IsDutyNumber result }
{
    i64::from(date_of(day).to_plain().to_unix_epoch_day())
}

/// The number of the Monday of a day's week.
pub(crate) fn week_of(day: u32) -> i64
    requires { days.IsDutyDay day }
    ensures value { result ≡ days.week_of day }
    ensures first { neg_ℤ (pos 719502) ≤ℤ result }
    ensures last { result ≤ℤ pos 2932531 }
{
    let monday = i64::from(date_of(day).weekday().to_monday_zero_offset());
    number_of(day) - monday
}

fn civil_day(date: PlainDate) -> u32
    requires { pos 0 ≤ℤ date.year }
    ensures number { days.number_of result ≡ epoch_day date }
    ensures civil { days.IsDay result }
{
    date.year as u32 * 10_000 + u32::from(date.month) * 100 + u32::from(date.day)
}

/// The day as YYYYMMDD with a number.
pub(crate) fn day_of(number: i64) -> u32
    requires { days.IsNumber number }
    ensures number { days.number_of result ≡ number }
    ensures civil { days.IsDay result }
{
    civil_day(PlainDate::from_days_since_min((number + 4_371_587) as u32))
}
