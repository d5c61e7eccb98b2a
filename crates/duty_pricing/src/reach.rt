//! How far lists are looked at, and how much driving is left of a day.

ghost use Rattle.std.specs.Prelude.{◌≡◌, ◌<◌, ◌≤◌, ◌-◌, ◌/◌, ◌≤ℤ◌, ◌+ℤ◌, ℤ, neg_ℤ, pos, length, Some, slice_get};
ghost use Rattle.plan_core.specs.Limits.{most_price};
ghost use Rattle.cover_core.specs.FirstLeast.{AllWithin};
ghost use Rattle.plan_params.specs.Limits.{IsGroup};
ghost use Rattle.cover_core.specs.declared.marks.Mark.{Mark as AnyMark};
ghost use Rattle.duty_network.specs.Duties.{limits_of};
ghost use Rattle.duty_network.specs.Marks.{first_mark};
ghost use Rattle.duty_pricing.specs.Bounds as spec;

use duty_network::DutyNet;
use eu561_rules::Limits;
use plan_core::Price;
use plan_params::Group;

/// The unit in which driving that is left is told apart, how many amounts of it there are, and the latest time at which a list may end.
#[derive(Clone, Copy)]
pub(crate) struct Reach {
    /// Seconds of driving.
    pub unit: u32,
    /// How many amounts are told apart, from 0 units on: at most 16.
    pub width: u32,
    /// Seconds after the day's midnight.
    pub until: i64,
}

/// One unit for the whole day of driving: no amounts are told apart.
const fn one_unit(until: i64) -> Reach
    ensures reach { spec.IsReach result }
    ensures until { result.until ≡ until }
{
    Reach {
        unit: 36_001,
        width: 1,
        until,
    }
}

/// Driving is told apart in steps of 40 minutes.
const fn units_of_40_minutes(until: i64) -> Reach
    ensures reach { spec.IsReach result }
    ensures until { result.until ≡ until }
{
    Reach {
        unit: 2_400,
        width: 16,
        until,
    }
}

/// How far lists are looked at, where driving that is left is told apart or is not.
pub(crate) const fn reach_of(parted: bool, until: i64) -> Reach
    ensures reach { spec.IsReach result }
    ensures until { result.until ≡ until }
{
    if parted {
        units_of_40_minutes(until)
    } else {
        one_unit(until)
    }
}

/// A number of seconds in units, rounded down.
pub(crate) fn in_units(reach: &Reach, seconds: u32) -> u32
    requires { 0 < reach.now.unit }
    ensures { result ≡ seconds / reach.now.unit }
{
    seconds / reach.unit
}

/// The most driving of a day of a group (article 6(1)), in seconds.
pub(crate) fn day_of(group: &Group) -> u32
    ensures { result ≡ (limits_of group.now).day }
{
    Limits::of(group.ten, group.reduced).day
}

/// The latest sign-off of the duties of a group that have no long pause, where none signs on later than this.
pub(crate) fn last_end(group: &Group, latest: i64) -> i64
    requires low { neg_ℤ (pos 345600) ≤ℤ latest }
    requires high { latest ≤ℤ pos 345600 }
    ensures value { result ≡ latest +ℤ pos (limits_of group.now).spread }
    ensures in_time { result ≤ℤ (latest +ℤ pos 54000) }
{
    latest + Limits::of(group.ten, group.reduced).spread as i64
}

/// How many units of driving are left of a day's, rounded down.
pub(crate) fn units_left(reach: &Reach, day: u32, total: u32) -> u32
    requires reach { spec.IsReach reach.now }
    requires day { day ≤ 36000 }
    ensures { result ≡ (day - total) / reach.now.unit }
{
    if reach.width == 1 {
        0
    } else {
        day.saturating_sub(total) / 2_400
    }
}

/// The greater of two numbers.
fn greater(a: i64, b: i64) -> i64
    ensures first { a ≤ℤ result }
    ensures second { b ≤ℤ result }
    ensures least { (z : ℤ) → a ≤ℤ z → b ≤ℤ z → result ≤ℤ z }
{
    if a < b { b } else { a }
}

/// The later of a time and the sign-on of the list of one piece, where that piece is one from a first one on and before an end.
fn later_start(
    net: &DutyNet<'_>,
    class: u32,
    crew: &Group,
    prices: &[Price],
    first: u32,
    end: u32,
    item: u32,
    latest: i64,
) -> i64
    requires class { slice_get net.now.params.groups class ≡ Some crew.now }
    requires ranges { IsGroup crew.now }
    requires moderate { AllWithin most_price prices.now }
    requires item { item < length net.now.pieces }
    requires low { neg_ℤ (pos 345600) ≤ℤ latest }
    requires high { latest ≤ℤ pos 345600 }
    ensures kept { latest ≤ℤ result }
    ensures own { (m : AnyMark) → first ≤ item → item < end → first_mark net.now prices.now class crew.now item ≡ Some m → m.start.0 ≤ℤ result }
    ensures high { result ≤ℤ pos 345600 }
{
    net.fits();
    if item < first || end <= item {
        return latest;
    }
    match net.first(class, crew, prices, item) {
        Some(mark) => greater(latest, mark.start.0),
        None => latest,
    }
}

/// The latest sign-on of the lists of one piece, of those from a first one on and before an end.
pub(crate) fn latest_start(
    net: &DutyNet<'_>,
    class: u32,
    crew: &Group,
    prices: &[Price],
    first: u32,
    end: u32,
) -> i64
    requires class { slice_get net.now.params.groups class ≡ Some crew.now }
    requires ranges { IsGroup crew.now }
    requires moderate { AllWithin most_price prices.now }
    ensures latest { spec.IsLatest net.now prices.now class crew.now first end result }
    ensures low { neg_ℤ (pos 345600) ≤ℤ result }
    ensures high { result ≤ℤ pos 345600 }
{
    let mut latest = -345_600;
    for item in 0..net.pieces().len() as u32 {
        latest = later_start(net, class, crew, prices, first, end, item, latest);
    }
    latest
}
