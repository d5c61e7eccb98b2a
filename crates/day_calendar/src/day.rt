//! The version and the day type of a day.

ghost use Rattle.std.specs.Prelude.{◌≡◌, ◌+◌, ◌↔◌, IfOk, IsSomeAnd, IsSome, IfSome};
ghost use Rattle.jiff.specs.Words.{monday_zero};
ghost use Rattle.vdv452_tables.specs.Calendar.{kind_on, version_on};
ghost use Rattle.day_calendar.specs.Days.{IsCivilDay, HasWeekday};
ghost use Rattle.day_calendar.specs.Kinds.{IsKindOf};
ghost use Rattle.day_calendar.specs.Names.{name_of};

use jiff::civil::{Date, Weekday};
use thiserror::Error;
use vdv452_tables::Network;

/// An operating day by what its trips are picked.
#[derive(Clone, Copy, Debug, PartialEq, Eq)]
pub struct DayKind {
    /// BASIS_VERSION in force on the day.
    pub version: u32,
    /// TAGESART_NR of the day in that version.
    pub kind: u32,
    /// The day as YYYYMMDD.
    pub day: u32,
    /// From 1 for Monday to 7 for Sunday.
    pub weekday: u32,
}

/// Why a day has no day type. The numbers are 1 `NoVersion`, 2 `NoDay`, 3 `NoDate`; of two that hold
/// `NoDate` comes first, then `NoVersion`.
#[derive(Clone, Copy, Debug, PartialEq, Eq, Error)]
pub enum DayFault {
    /// No version is in force: every one begins later.
    #[error("NoVersion")]
    NoVersion,
    /// FIRMENKALENDER has no row of the version in force and the day.
    #[error("NoDay")]
    NoDay,
    /// The number is not YYYYMMDD of a date of the Gregorian calendar in a year from 0 to 9999.
    #[error("NoDate")]
    NoDate,
}

impl DayFault {
    /// The fault's name, as it is printed.
    pub fn name(self) -> &'static [u8]
        ensures { result.now ≡ name_of self }
    {
        match self {
            DayFault::NoVersion => b"NoVersion",
            DayFault::NoDay => b"NoDay",
            DayFault::NoDate => b"NoDate",
        }
    }
}

fn weekday_number(weekday: Weekday) -> u32
    ensures { result ≡ monday_zero weekday + 1 }
{
    match weekday {
        Weekday::Monday => 1,
        Weekday::Tuesday => 2,
        Weekday::Wednesday => 3,
        Weekday::Thursday => 4,
        Weekday::Friday => 5,
        Weekday::Saturday => 6,
        Weekday::Sunday => 7,
    }
}

/// The weekday of a date as YYYYMMDD, if the calendar has it.
fn weekday_on(day: u32) -> Option<u32>
    ensures date { IsSome result ↔ IsCivilDay day }
    ensures weekday { IfSome result (HasWeekday day) }
{
    let year = day / 10_000;
    let month = day / 100 % 100;
    let of_month = day % 100;
    if year > 9999 {
        return None;
    }
    match Date::new(year as i16, month as i8, of_month as i8) {
        Ok(date) => Some(weekday_number(date.weekday())),
        Err(_) => None,
    }
}

/// The version in force on a day given as YYYYMMDD, the day type in it and its weekday. The
/// version in force is that of the greatest VER_GUELTIGKEIT not after the day (VDV 452). It takes
/// no memory.
pub fn kind_of(net: &Network, day: u32) -> Result<DayKind, DayFault>
    ensures date { (result ≡ Err DayFault.NoDate) ↔ (¬ IsCivilDay day) }
    ensures version { (result ≡ Err DayFault.NoVersion) ↔ (IsCivilDay day × (version_on net.now day ≡ None)) }
    ensures day { (result ≡ Err DayFault.NoDay) ↔ (IsCivilDay day × IsSomeAnd (version_on net.now day) (λ version. kind_on net.now version day ≡ None)) }
    ensures ok { IfOk result (λ kind. IsKindOf net.now day kind) }
{
    match weekday_on(day) {
        None => Err(DayFault::NoDate),
        Some(weekday) => match net.version_at(day) {
            None => Err(DayFault::NoVersion),
            Some(version) => match net.kind_at(version, day) {
                None => Err(DayFault::NoDay),
                Some(kind) => Ok(DayKind {
                    version,
                    kind,
                    day,
                    weekday,
                }),
            },
        },
    }
}
