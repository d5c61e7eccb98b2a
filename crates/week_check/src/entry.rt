//! The numbers of a row of the roster's table.

ghost use Rattle.std.specs.Prelude.{◌≡◌, ◌↔◌, ◌≤ℤ◌, IsTrue, None, true, pos, neg_ℤ};
ghost use Rattle.week_check.specs.Days as days;
ghost use Rattle.week_check.specs.Roster as spec;

use crate::column::{COLUMNS, RosterColumn};
use crate::days::number_of;
use crate::turn::Turn;
use jiff::civil::Date;

/// The greatest number of 32 bits.
const GREATEST: i64 = 4_294_967_295;

/// The least begin and end of a duty, in seconds of its day.
const EARLIEST: i64 = -172_800;

/// The greatest begin and end of a duty, in seconds of its day.
const LATEST: i64 = 345_600;

/// The greatest driving of a duty, in seconds.
const MOST_DRIVING: i64 = 172_800;

/// The numbers of a row, None where a field spells none.
#[derive(Clone, Copy, Debug)]
pub(crate) struct Entry {
    pub driver: Option<i64>,
    pub day: Option<i64>,
    pub begin: Option<i64>,
    pub end: Option<i64>,
    pub driving: Option<i64>,
    pub pause: Option<i64>,
}

/// The driver and the day of a duty, which are the key of its row.
#[derive(Clone, Copy, Debug, PartialEq, Eq, Hash)]
pub(crate) struct DriverDay {
    pub driver: u32,
    pub day: u32,
}

/// A number, 0 where there is none.
fn value(number: Option<i64>) -> i64
    ensures { result ≡ spec.value number }
{
    match number {
        Some(number) => number,
        None => 0,
    }
}

/// A number of 32 bits, 0 where there is none.
fn word(number: Option<i64>) -> u32
    requires { spec.is_within number (pos 0) (pos 4294967295) ≡ true }
    ensures { result ≡ spec.word number }
{
    value(number) as u32
}

/// Whether there is a number, from the least to the greatest one.
fn is_within(number: Option<i64>, least: i64, greatest: i64) -> bool
    ensures { result ≡ spec.is_within number least greatest }
{
    match number {
        Some(number) => least <= number && number <= greatest,
        None => false,
    }
}

/// Whether the calendar has a day as YYYYMMDD, in a year from 1 to 9998.
fn is_civil(day: u32) -> bool
    ensures { IsTrue result ↔ days.IsDutyDay day }
{
    let year = day / 10_000;
    let month = day / 100 % 100;
    let of_month = day % 100;
    if year < 1 || year > 9998 {
        return false;
    }
    Date::new(year as i16, month as i8, of_month as i8).is_ok()
}

/// Whether a day is one on which a duty may be.
fn is_duty_day(day: u32) -> bool
    ensures { result ≡ spec.is_duty_day day }
{
    is_civil(day)
}

/// Whether there is a number, and it is a day on which a duty may be.
fn is_day(number: Option<i64>) -> bool
    ensures { result ≡ spec.is_day number }
{
    is_within(number, 0, GREATEST) && is_duty_day(word(number))
}

/// Whether the end is in range and not before the start.
fn is_end(begin: Option<i64>, end: Option<i64>) -> bool
    ensures { result ≡ spec.is_end begin end }
{
    is_within(end, EARLIEST, LATEST) && value(begin) <= value(end)
}

/// Whether the value of a row in a column is right.
fn is_right(entry: &Entry, column: RosterColumn) -> bool
    ensures { result ≡ spec.is_right entry.now column }
{
    match column {
        RosterColumn::Driver => is_within(entry.driver, 0, GREATEST),
        RosterColumn::Day => is_day(entry.day),
        RosterColumn::Begin => is_within(entry.begin, EARLIEST, LATEST),
        RosterColumn::End => is_end(entry.begin, entry.end),
        RosterColumn::Driving => is_within(entry.driving, 0, MOST_DRIVING),
        RosterColumn::Pause => is_within(entry.pause, 0, 1),
    }
}

/// The first column of a row whose value is not right.
pub(crate) fn wrong_column(entry: &Entry) -> Option<RosterColumn>
    ensures { result ≡ spec.wrong_column entry.now }
{
    for column in &COLUMNS {
        if !is_right(entry, *column) {
            return Some(*column);
        }
    }
    None
}

/// Whether a number is 1.
fn is_one(number: Option<i64>) -> bool
    ensures { result ≡ spec.is_one number }
{
    value(number) == 1
}

/// The key of a row whose values are right.
pub(crate) fn key_of(entry: &Entry) -> DriverDay
    requires { spec.wrong_column entry.now ≡ None }
    ensures { result ≡ spec.key_of entry.now }
{
    DriverDay {
        driver: word(entry.driver),
        day: word(entry.day),
    }
}

/// A moment of a day in seconds from the start of 1970-01-01.
fn moment(day: u32, seconds: i64) -> i64
    requires day { days.IsDutyDay day }
    requires low { neg_ℤ (pos 172800) ≤ℤ seconds }
    requires high { seconds ≤ℤ pos 345600 }
    ensures { result ≡ spec.moment day seconds }
{
    86_400 * number_of(day) + seconds
}

/// The duty of a row whose values are right.
pub(crate) fn turn_of(entry: &Entry) -> Turn
    requires { spec.wrong_column entry.now ≡ None }
    ensures { result ≡ spec.turn_of entry.now }
{
    let day = word(entry.day);
    Turn {
        driver: word(entry.driver),
        day,
        begin: moment(day, value(entry.begin)),
        end: moment(day, value(entry.end)),
        driving: word(entry.driving),
        three: is_one(entry.pause),
    }
}
