//! The marks of the lists whose first pieces are a range, as labels.

ghost use Rattle.std.specs.Prelude.{◌≡◌, ◌<◌, ◌≤◌, ◌≤ℤ◌, ◌<ℤ◌, ◌+ℤ◌, ◌-ℤ◌, neg_ℤ, pos, length, cond, int_le, int_lt, IfOk, IfSome, Some, None, true, not, ◌||◌, slice_get};
ghost use Rattle.plan_core.specs.Limits.{most_price};
ghost use Rattle.cover_core.specs.FirstLeast.{AllWithin};
ghost use Rattle.cover_core.specs.Plans.{price_at};
ghost use Rattle.label_search.specs.Limits.{is_low, passed};
ghost use Rattle.plan_params.specs.Limits.{IsGroup};
ghost use Rattle.duty_network.specs.Duties.{limits_of, pause_at};
ghost use Rattle.duty_network.specs.Marks.{closed_value, extended_mark, is_as_good};
ghost use Rattle.duty_network.specs.Ranges.{NetFits};
ghost use Rattle.duty_pricing.specs.Bounds.{AllWithin-prop, AreBounds, IsLatest, IsRangeMark, IsReach, cell_at, floor_of, units_left as left_of};
ghost use Rattle.duty_pricing.specs.Laws.{duty-hides, duty-kept, duty-safe, duty-stepwise, duty-valued, duty_labels};

use crate::bounds::pick;
use crate::reach::{Reach, day_of, latest_start, reach_of, units_left};
use crate::rows::{Row, cell};
use crate::tables::{BoundTables, tables};
use cover_core::Mark;
use duty_network::DutyNet;
use label_dive::Floors;
use label_search::Labels;
use plan_core::{Memory, Price};
use plan_params::Group;
use std::alloc::Global;

/// The marks of the lists of a class whose first piece is one from a first one on and before an end, at some prices, with completion
/// bounds for each piece from the first one on.
#[derive(Drop)]
pub struct DutyLabels<'a, 'p> {
    pub net: &'a DutyNet<'p>,
    pub class: u32,
    /// The group of drivers that the class is.
    pub crew: Group,
    pub prices: &'a [Price],
    /// The first piece with which lists may begin.
    pub first: u32,
    /// Lists begin with an earlier piece than this one.
    pub end: u32,
    /// The most driving of a day of the group, in seconds.
    day: u32,
    reach: Reach,
    /// Of lists without a long pause so far.
    rows: Vec<Row>,
    /// Of lists with a long pause.
    over: Vec<Row>,
    /// No list signs on later.
    latest: i64,
    ghost fits: { NetFits net.now },
    ghost of_class: { slice_get net.now.params.groups class ≡ Some crew },
    ghost ranges: { IsGroup crew },
    ghost of_day: { day ≡ (limits_of crew).day },
    ghost count: { length prices.now ≡ length net.now.pieces },
    ghost moderate: { AllWithin most_price prices.now } by { AllWithin-prop most_price prices.now },
    ghost in_reach: { IsReach reach },
    ghost starts: { IsLatest net.now prices.now class crew first end latest },
    ghost ends: { reach.until ≡ latest +ℤ pos 54000 },
    ghost bound: { AreBounds net.now prices.now crew reach latest first rows.items over.items },
}

/// The price of a piece.
pub(crate) fn price(prices: &[Price], item: u32) -> i64
    requires { item < length prices.now }
    ensures { result ≡ price_at prices.now item }
{
    prices[item as usize].0
}

/// What is left of a value after a price, with a rest.
fn value_left(value: i64, price: i64, rest: i64) -> i128
    ensures { result ≡ (value -ℤ price) +ℤ rest }
{
    value as i128 - price as i128 + rest as i128
}

/// Whether what is left of a value after a price, with a rest, is above a limit.
fn is_above(value: i64, price: i64, rest: i64, limit: i64) -> bool
    ensures { result ≡ int_lt limit ((value -ℤ price) +ℤ rest) }
{
    value_left(value, price, rest) > limit as i128
}

/// The greatest value of which no more than a limit is left after a price, with a rest.
fn most_under(price: i64, rest: i64, limit: i64) -> i64
    ensures { result <ℤ pos 9223372036854775807 → limit ≤ℤ ((result -ℤ price) +ℤ rest) }
{
    nearest_number(limit as i128 - value_left(0, price, rest))
}

/// The number of 64 bits that is nearest to a number.
fn nearest_number(number: i128) -> i64
    ensures { result <ℤ pos 9223372036854775807 → number ≤ℤ result }
{
    if number < i64::MIN as i128 {
        i64::MIN
    } else if number > i64::MAX as i128 {
        i64::MAX
    } else {
        number as i64
    }
}

/// Whether a value with a rest is at most a limit.
fn is_low_enough(value: i64, rest: i64, limit: i64) -> bool
    requires value_low { neg_ℤ (pos 100000000000000000) ≤ℤ value }
    requires value_high { value ≤ℤ pos 100000000000000000 }
    requires rest_low { neg_ℤ (pos 100000000000000000) ≤ℤ rest }
    requires rest_high { rest ≤ℤ pos 100000000000000000 }
    ensures { result ≡ int_le (value +ℤ rest) limit }
{
    value + rest <= limit
}

/// A mark, where a test holds.
fn mark_where(test: bool, mark: Mark) -> Option<Mark>
    ensures { result ≡ cond test (Some mark) None }
{
    if test { Some(mark) } else { None }
}

/// Whether a list had a long pause, or a quarter, where another one had it.
#[inline(always)]
fn has_pause_as_other(a: bool, b: bool) -> bool
    ensures { result ≡ not b || a }
{
    !b | a
}

/// Whether two flags are the same.
#[inline(always)]
fn is_same(a: bool, b: bool) -> bool
    ensures { result ≡ cond b a (not a) }
{
    if b { a } else { !a }
}

/// Whether a mark is at least as good as another. All is compared before one jump: which comparison fails first is hard to foresee.
#[inline(always)]
fn is_better(a: &Mark, b: &Mark) -> bool
    ensures { result ≡ is_as_good a.now b.now }
{
    (a.class == b.class)
        & (a.piece == b.piece)
        & (b.start.0 <= a.start.0)
        & (a.driving <= b.driving)
        & is_same(a.quarter, b.quarter)
        & (a.total <= b.total)
        & has_pause_as_other(a.three, b.three)
        & (a.value <= b.value)
}

impl<'a, 'p> DutyLabels<'a, 'p> {
    /// The marks of the lists of a class whose first piece is one from `first` on and before `end`, at some prices.
    ///
    /// The completion bounds tell apart how much driving is left of a day's, in steps of 40 minutes, where `parted` says so. Then they are
    /// sharper, and take sixteen times as long. They change the time of a search alone, and no answer. It takes memory with the pieces and
    /// the points where they begin, and time mostly with the product of the two. `Memory` is the only error.
    pub fn new(
        alloc: Global,
        net: &'a DutyNet<'p>,
        class: u32,
        prices: &'a [Price],
        first: u32,
        end: u32,
        parted: bool,
    ) -> Result<DutyLabels<'a, 'p>, Memory>
        requires class { class < length net.now.params.groups }
        requires prices { length prices.now ≡ length net.now.pieces }
        requires moderate { AllWithin most_price prices.now }
        ensures net { IfOk result (λ labels. labels.net.now ≡ net.now) }
        ensures class { IfOk result (λ labels. labels.class ≡ class) }
        ensures crew { IfOk result (λ labels. slice_get net.now.params.groups class ≡ Some labels.crew) }
        ensures prices { IfOk result (λ labels. labels.prices.now ≡ prices.now) }
        ensures first { IfOk result (λ labels. labels.first ≡ first) }
        ensures end { IfOk result (λ labels. labels.end ≡ end) }
    {
        net.fits();
        let crew = *net.group(class);
        let day = day_of(&crew);
        let latest = latest_start(net, class, &crew, prices, first, end);
        let reach = reach_of(parted, latest + 54_000);
        let BoundTables { rows, over } = tables(
            alloc, net, class, &crew, prices, &reach, latest, first,
        )?;
        Ok(DutyLabels {
            net,
            class,
            crew,
            prices,
            first,
            end,
            day,
            reach,
            rows,
            over,
            latest,
        })
    }
}

impl DutyLabels<'_, '_> {
    /// How many units of driving are left of a day's.
    fn left(&self, total: u32) -> u32
        ensures value { result ≡ left_of self.now.reach self.now.crew total }
        ensures few { result < 16 }
    {
        units_left(&self.reach, self.day, total)
    }

    /// What the rest of a mark's list adds to its value at least.
    fn rest(&self, mark: &Mark) -> i64
        requires { IsRangeMark (length self.now.net.now.pieces) self.now.first self.now.latest mark.now }
        ensures value { result ≡ cell_at (cond mark.now.three self.now.over.items self.now.rows.items) mark.now.piece (left_of self.now.reach self.now.crew mark.now.total) }
        ensures low { neg_ℤ (pos 30000000000000000) ≤ℤ result }
        ensures high { result ≤ℤ pos 7000000000000 }
    {
        cell(
            pick(mark.three, self.over.as_slice(), self.rows.as_slice()),
            mark.piece,
            self.left(mark.total),
        )
    }

    /// A mark that may still close within the limit.
    fn within(&self, mark: Option<Mark>, limit: i64) -> Option<Mark>
        requires { IfSome mark (IsRangeMark (length self.now.net.now.pieces) self.now.first self.now.latest) }
        ensures { result ≡ passed (is_low (floor_of self.now.reach self.now.crew self.now.rows.items self.now.over.items) limit) mark }
    {
        let found = mark?;
        let rest = self.rest(&found);
        mark_where(is_low_enough(found.value, rest, limit), found)
    }

    /// Whether a list with a value of at least this one is above the limit once it goes on with an item and has so many units of driving
    /// left behind it.
    fn is_too_high(&self, least: i64, item: u32, left: u32, limit: i64) -> bool
        requires item { item < length self.now.net.now.pieces }
        requires left { left < 16 }
        ensures { result ≡ int_lt limit ((least -ℤ price_at self.now.prices.now item) +ℤ cell_at self.now.over.items item left) }
    {
        is_above(
            least,
            price(self.prices, item),
            cell(self.over.as_slice(), item, left),
            limit,
        )
    }

    /// The greatest value with which a list is within the limit once it goes on with an item, however much driving is left.
    fn most_with(&self, item: u32, limit: i64) -> i64
        requires { item < length self.now.net.now.pieces }
        ensures { result <ℤ pos 9223372036854775807 → limit ≤ℤ ((result -ℤ price_at self.now.prices.now item) +ℤ cell_at self.now.over.items item 15) }
    {
        most_under(
            price(self.prices, item),
            cell(self.over.as_slice(), item, 15),
            limit,
        )
    }

    /// Whether a mark that goes on with an item is above the limit then, by the bounds of lists with a long pause.
    fn is_over(&self, mark: &Mark, item: u32, limit: i64) -> bool
        requires item { item < length self.now.net.now.pieces }
        requires sound { IsRangeMark (length self.now.net.now.pieces) self.now.first self.now.latest mark.now }
        ensures { result ≡ true → passed (is_low (floor_of self.now.reach self.now.crew self.now.rows.items self.now.over.items) limit) (extended_mark self.now.net.now self.now.crew self.now.prices.now mark.now item) ≡ None }
    {
        let left = self.left(mark.total + self.net.piece(item).driving);
        self.is_too_high(mark.value, item, left, limit)
    }

    /// Whether there is no pause between two items.
    fn is_cut_off(&self, before: u32, item: u32) -> bool
        requires { item < length self.now.net.now.pieces }
        ensures { result ≡ true → pause_at self.now.net.now before item ≡ None }
    {
        (before as usize) < self.net.pieces().len() && self.net.pause(before, item).is_none()
    }
}

impl Labels for DutyLabels<'_, '_> {
    type Label = Mark;

    ghost count = { λ s. length s.net.now.pieces };

    ghost labelling = { λ s. duty_labels s.net.now s.prices.now s.class s.crew s.first s.end };

    ghost good = { λ s. is_as_good };

    ghost value_at = { λ s m. m.value };

    ghost close_of = { λ s. closed_value s.net.now s.crew };

    ghost last = { λ s m. m.piece };

    ghost sound = { λ s. IsRangeMark (length s.net.now.pieces) s.first s.latest };

    ghost may_close = { λ s. is_low (floor_of s.reach s.crew s.rows.items s.over.items) };

    ghost kept = { λ s. duty-kept s.net.now s.prices.now s.class s.crew s.first s.end };

    ghost valued = { λ s. duty-valued s.net.now s.prices.now s.class s.crew s.first s.end };

    ghost stepwise = { λ s. duty-stepwise s.net.now s.prices.now s.class s.crew s.first s.end };

    ghost safe = { λ s. duty-safe s.net.now s.prices.now s.class s.crew s.first s.end s.latest s.fits s.ranges s.moderate s.starts };

    ghost hides_none = { λ s. duty-hides s.net.now s.prices.now s.class s.crew s.first s.end s.reach s.latest s.rows.items s.over.items s.in_reach s.ends s.bound };

    fn items(&self) -> u32 {
        self.net.pieces().len() as u32
    }

    fn start(&self, item: u32, limit: i64) -> Option<Mark> {
        if self.first <= item && item < self.end {
            self.within(
                self.net.first(self.class, &self.crew, self.prices, item),
                limit,
            )
        } else {
            None
        }
    }

    fn extend(&self, label: &Mark, item: u32, limit: i64) -> Option<Mark> {
        if self.is_over(label, item, limit) {
            return None;
        }
        self.within(self.net.next(&self.crew, self.prices, label, item), limit)
    }

    fn most_reaching(&self, item: u32, limit: i64) -> Option<i64> {
        let most = self.most_with(item, limit);
        Some(most)
    }

    fn most_following(&self, before: u32, item: u32, limit: i64) -> Option<i64> {
        if self.is_cut_off(before, item) {
            return None;
        }
        let most = self.most_with(item, limit);
        Some(most)
    }

    fn value(&self, label: &Mark) -> i64 {
        label.value
    }

    #[inline(always)]
    fn is_as_good(&self, a: &Mark, b: &Mark) -> bool {
        is_better(a, b)
    }

    fn close(&self, label: &Mark) -> Option<i64> {
        self.net.close(self.class, &self.crew, label)
    }
}

impl Floors for DutyLabels<'_, '_> {
    /// The value so far and the completion bound of a mark.
    fn floor(&self, label: &Mark) -> i64 {
        label.value + self.rest(label)
    }
}
