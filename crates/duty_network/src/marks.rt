//! The marks of open lists of pieces: what decides how a list may go on.

ghost use Rattle.std.specs.Prelude.{◌≡◌, ◌<◌, ◌≤◌, ◌≤ℤ◌, ◌-ℤ◌, ◌+ℤ◌, ◌*ℤ◌, ◌+◌, neg_ℤ, pos, length, IfSome, Some, int_le, nat_le, nat_lt, cond, false, option_and_then, ◌||◌, ◌&&◌, slice_get};
ghost use Rattle.std.specs.Option.{option_map};
ghost use Rattle.plan_core.specs.Limits.{most_price, most_rate, most_fixed_cost};
ghost use Rattle.cover_core.specs.FirstLeast.{AllWithin};
ghost use Rattle.plan_core.specs.declared.types.Piece.{Piece};
ghost use Rattle.vdv452_tables.specs.Ranges.{IsTime};
ghost use Rattle.plan_params.specs.Limits.{IsGroup};
ghost use Rattle.eu561_rules.specs.Duty.{completes_break};
ghost use Rattle.duty_network.specs.Times.{given};
ghost use Rattle.duty_network.specs.Duties.{limits_of, sign_off, sign_on};
ghost use Rattle.duty_network.specs.Marks.{closed_value, closes_lawfully, extended_mark, first_mark, is_open, next_mark, one_mark};
ghost use Rattle.duty_network.specs.Ranges.{IsShift, MarkFits, off_value, on_value};

use crate::net::{DutyNet, both};
use cover_core::{Mark, price};
use eu561_rules::Limits;
use plan_core::{Piece, Price, Sec};
use plan_params::Group;

/// The limits of a group.
pub(crate) fn limits(group: &Group) -> Limits
    ensures { result ≡ limits_of group.now }
{
    Limits::of(group.ten, group.reduced)
}

/// A rate times a number of seconds.
fn product(rate: u32, time: i64) -> i64
    requires rate { rate ≤ most_rate }
    requires early { neg_ℤ (pos 345600) ≤ℤ time }
    requires late { time ≤ℤ pos 691200 }
    ensures value { result ≡ pos rate *ℤ time }
    ensures low { neg_ℤ (pos 3456000000) ≤ℤ result }
    ensures high { result ≤ℤ pos 6912000000 }
{
    rate as i64 * time
}

/// A fixed cost less something.
fn less_way(fixed: u32, way: i64) -> i64
    requires fixed { fixed ≤ most_fixed_cost }
    requires low { neg_ℤ (pos 3456000000) ≤ℤ way }
    requires high { way ≤ℤ pos 6912000000 }
    ensures value { result ≡ pos fixed -ℤ way }
    ensures low { neg_ℤ (pos 7000000000) ≤ℤ result }
    ensures high { result ≤ℤ pos 7000000000 }
{
    fixed as i64 - way
}

/// A thousand times a number.
fn thousand(number: i64) -> i64
    requires low { neg_ℤ (pos 7000000000) ≤ℤ number }
    requires high { number ≤ℤ pos 7000000000 }
    ensures value { result ≡ pos 1000 *ℤ number }
    ensures low { neg_ℤ (pos 7000000000000) ≤ℤ result }
    ensures high { result ≤ℤ pos 7000000000000 }
{
    1000 * number
}

/// What sign-on adds to the value.
fn on_part(counts: bool, group: &Group, on: i64) -> i64
    requires ranges { IsGroup group.now }
    requires early { neg_ℤ (pos 345600) ≤ℤ on }
    requires late { on ≤ℤ pos 345600 }
    ensures value { result ≡ on_value counts group.now on }
    ensures low { neg_ℤ (pos 7000000000000) ≤ℤ result }
    ensures high { result ≤ℤ pos 7000000000000 }
{
    if counts {
        1000
    } else {
        thousand(less_way(group.fixed, product(group.rate, on)))
    }
}

/// What sign-off adds to the value.
fn off_part(counts: bool, group: &Group, off: i64) -> i64
    requires ranges { IsGroup group.now }
    requires early { neg_ℤ (pos 345600) ≤ℤ off }
    requires late { off ≤ℤ pos 691200 }
    ensures value { result ≡ off_value counts group.now off }
    ensures low { neg_ℤ (pos 7000000000000) ≤ℤ result }
    ensures high { result ≤ℤ pos 7000000000000 }
{
    if counts {
        0
    } else {
        thousand(product(group.rate, off))
    }
}

/// A value less a price.
fn less(value: i64, price: i64) -> i64
    requires value_low { neg_ℤ (pos 200000000000000000) ≤ℤ value }
    requires value_high { value ≤ℤ pos 200000000000000000 }
    requires price_low { neg_ℤ (pos most_price) ≤ℤ price }
    requires price_high { price ≤ℤ pos most_price }
    ensures { result ≡ value -ℤ price }
{
    value - price
}

/// A value with something more.
fn more(value: i64, cost: i64) -> i64
    requires value_low { neg_ℤ (pos 100000000000000000) ≤ℤ value }
    requires value_high { value ≤ℤ pos 100000000000000000 }
    requires cost_low { neg_ℤ (pos most_price) ≤ℤ cost }
    requires cost_high { cost ≤ℤ pos most_price }
    ensures { result ≡ value +ℤ cost }
{
    value + cost
}

/// Whether a mark may be continued.
fn may_go_on(group: &Group, mark: &Mark, end: i64) -> bool
    requires late { mark.now.start.0 ≤ℤ pos 345600 }
    ensures { result ≡ is_open group.now mark.now end }
{
    let limits = limits(group);
    mark.driving <= limits.block
        && mark.total <= limits.day
        && end <= mark.start.0 + limits.long_spread as i64
}

/// Whether a mark can be closed lawfully.
fn may_close(group: &Group, mark: &Mark, off: i64) -> bool
    requires early { neg_ℤ (pos 345600) ≤ℤ mark.now.start.0 }
    requires late { mark.now.start.0 ≤ℤ pos 345600 }
    requires off_low { neg_ℤ (pos 345600) ≤ℤ off }
    requires off_high { off ≤ℤ pos 691200 }
    ensures { result ≡ closes_lawfully group.now mark.now off }
{
    let limits = limits(group);
    mark.driving <= limits.block
        && mark.total <= limits.day
        && is_within(
            off,
            mark.start.0,
            pick(mark.three, limits.long_spread, limits.spread),
        )
}

/// One of two numbers.
fn pick(first: bool, a: u32, b: u32) -> u32
    ensures { result ≡ cond first a b }
{
    if first { a } else { b }
}

/// Whether a time is at most this many seconds after another.
fn is_within(off: i64, start: i64, seconds: u32) -> bool
    requires early { neg_ℤ (pos 345600) ≤ℤ start }
    requires late { start ≤ℤ pos 345600 }
    requires off_low { neg_ℤ (pos 345600) ≤ℤ off }
    requires off_high { off ≤ℤ pos 691200 }
    ensures { result ≡ int_le (off -ℤ start) (pos seconds) }
{
    off - start <= seconds as i64
}

/// Whether a pause completes a full break.
fn completes(quarter: bool, time: u32) -> bool
    ensures { result ≡ completes_break quarter time }
{
    time >= 2700 || (time >= 1800 && quarter)
}

/// Whether a quarter was had after the last full break.
fn quarter_after(full: bool, quarter: bool, time: u32) -> bool
    ensures { result ≡ cond full false (nat_le 900 time || quarter) }
{
    if full { false } else { time >= 900 || quarter }
}

/// Whether a long pause was had.
fn three_after(three: bool, time: u32, long: u32) -> bool
    ensures { result ≡ three || nat_le long time }
{
    three || time >= long
}

/// A mark, where a test holds.
fn given_mark(test: bool, mark: Mark) -> Option<Mark>
    ensures { result ≡ given test (Some mark) }
{
    if test { Some(mark) } else { None }
}

/// The mark of a list of one piece.
fn first_of(
    counts: bool,
    group: &Group,
    prices: &[Price],
    class: u32,
    item: u32,
    piece: &Piece,
    on: i64,
) -> Mark
    requires ranges { IsGroup group.now }
    requires moderate { AllWithin most_price prices.now }
    requires early { neg_ℤ (pos 345600) ≤ℤ on }
    requires late { on ≤ℤ pos 345600 }
    ensures { result ≡ one_mark counts prices.now class group.now item piece.now on }
{
    Mark {
        class,
        piece: item,
        start: Sec(on),
        driving: piece.driving,
        quarter: false,
        total: piece.driving,
        three: false,
        value: less(on_part(counts, group, on), price(prices, item)),
    }
}

/// The mark after a pause and one piece more.
fn next_of(
    group: &Group,
    prices: &[Price],
    mark: &Mark,
    time: u32,
    item: u32,
    piece: &Piece,
) -> Mark
    requires moderate { AllWithin most_price prices.now }
    requires driving { mark.now.driving ≤ 16200 }
    requires total { mark.now.total ≤ 36000 }
    requires low { neg_ℤ (pos 200000000000000000) ≤ℤ mark.now.value }
    requires high { mark.now.value ≤ℤ pos 200000000000000000 }
    requires shift { IsShift piece.now }
    ensures { result ≡ next_mark group.now prices.now mark.now time item piece.now }
{
    let full = completes(mark.quarter, time);
    let limits = limits(group);
    Mark {
        class: mark.class,
        piece: item,
        start: mark.start,
        driving: pick(full, 0, mark.driving) + piece.driving,
        quarter: quarter_after(full, mark.quarter, time),
        total: mark.total + piece.driving,
        three: three_after(mark.three, time, limits.long_pause),
        value: less(mark.value, price(prices, item)),
    }
}

impl DutyNet<'_> {
    /// The sign-on of a duty of a group that begins with a piece.
    pub(crate) fn sign_on(&self, class: u32, group: &Group, item: u32) -> Option<i64>
        requires class { slice_get self.now.params.groups class ≡ Some group.now }
        requires ranges { IsGroup group.now }
        requires item { item < length self.now.pieces }
        ensures value { (p : Piece) → slice_get self.now.pieces item ≡ Some p → result ≡ sign_on self.now group.now p }
        ensures early { IfSome result (λ on. neg_ℤ (pos 345600) ≤ℤ on) }
        ensures late { IfSome result (λ on. on ≤ℤ pos 345600) }
    {
        let way = self.from_home(class, item)?;
        Some(on_before(self.piece(item), way, group.sign_on))
    }

    /// The sign-off of a duty of a group that ends with a piece.
    pub(crate) fn sign_off(&self, class: u32, group: &Group, item: u32) -> Option<i64>
        requires class { slice_get self.now.params.groups class ≡ Some group.now }
        requires ranges { IsGroup group.now }
        requires item { item < length self.now.pieces }
        ensures value { (p : Piece) → slice_get self.now.pieces item ≡ Some p → result ≡ sign_off self.now group.now p }
        ensures early { IfSome result (λ off. neg_ℤ (pos 345600) ≤ℤ off) }
        ensures late { IfSome result (λ off. off ≤ℤ pos 691200) }
    {
        let way = self.to_home(class, item)?;
        Some(off_after(self.piece(item), way, group.sign_off))
    }

    /// The mark of a list of one piece, where that is an open list of the class.
    pub fn first(&self, class: u32, group: &Group, prices: &[Price], item: u32) -> Option<Mark>
        requires class { slice_get self.now.params.groups class ≡ Some group.now }
        requires ranges { IsGroup group.now }
        requires moderate { AllWithin most_price prices.now }
        requires item { item < length self.now.pieces }
        ensures { result ≡ first_mark self.now prices.now class group.now item }
    {
        let on = self.sign_on(class, group, item);
        let piece = self.piece(item);
        first_open(self.counts(), group, prices, class, item, piece, on)
    }

    /// The mark of a list with a piece more, where that is an open list.
    pub fn next(&self, group: &Group, prices: &[Price], mark: &Mark, item: u32) -> Option<Mark>
        requires moderate { AllWithin most_price prices.now }
        requires fits { MarkFits (length self.now.pieces) mark.now }
        requires item { item < length self.now.pieces }
        ensures { result ≡ extended_mark self.now group.now prices.now mark.now item }
    {
        let time = self.pause(mark.piece, item);
        let piece = self.piece(item);
        next_open(group, prices, mark, item, piece, time)
    }

    /// The value of the list of a mark, where it is a lawful duty.
    pub fn close(&self, class: u32, group: &Group, mark: &Mark) -> Option<i64>
        requires class { slice_get self.now.params.groups class ≡ Some group.now }
        requires ranges { IsGroup group.now }
        requires fits { MarkFits (length self.now.pieces) mark.now }
        ensures { result ≡ closed_value self.now group.now mark.now }
    {
        let off = self.sign_off(class, group, mark.piece);
        value_at_sign_off(self.counts(), group, mark, off)
    }
}

impl DutyNet<'_> {
    /// What the sign-off of a duty that ends with a piece adds to its value, in thousandths of a cost unit: the rate times the sign-off,
    /// or 0 where duties are counted. None where the way home is missing.
    pub fn closing(&self, class: u32, group: &Group, item: u32) -> Option<i64>
        requires class { slice_get self.now.params.groups class ≡ Some group.now }
        requires ranges { IsGroup group.now }
        requires item { item < length self.now.pieces }
        ensures value { (p : Piece) → slice_get self.now.pieces item ≡ Some p → result ≡ option_map (off_value self.now.counts group.now) (sign_off self.now group.now p) }
        ensures low { IfSome result (λ value. neg_ℤ (pos 7000000000000) ≤ℤ value) }
        ensures high { IfSome result (λ value. value ≤ℤ pos 7000000000000) }
    {
        let off = self.sign_off(class, group, item)?;
        Some(off_part(self.counts(), group, off))
    }
}

/// The mark of a list of one piece with this sign-on, where that is an open list.
fn first_open(
    counts: bool,
    group: &Group,
    prices: &[Price],
    class: u32,
    item: u32,
    piece: &Piece,
    on: Option<i64>,
) -> Option<Mark>
    requires ranges { IsGroup group.now }
    requires moderate { AllWithin most_price prices.now }
    requires early { IfSome on (λ on. neg_ℤ (pos 345600) ≤ℤ on) }
    requires late { IfSome on (λ on. on ≤ℤ pos 345600) }
    ensures { result ≡ option_and_then (λ on. given (is_open group.now (one_mark counts prices.now class group.now item piece.now on) piece.now.end.0) (Some (one_mark counts prices.now class group.now item piece.now on))) on }
{
    let on = on?;
    let mark = first_of(counts, group, prices, class, item, piece, on);
    given_mark(may_go_on(group, &mark, piece.end.0), mark)
}

/// The mark of a list with a piece more after this pause, where that is an open list.
fn next_open(
    group: &Group,
    prices: &[Price],
    mark: &Mark,
    item: u32,
    piece: &Piece,
    time: Option<u32>,
) -> Option<Mark>
    requires moderate { AllWithin most_price prices.now }
    requires late { mark.now.start.0 ≤ℤ pos 345600 }
    requires driving { mark.now.driving ≤ 16200 }
    requires total { mark.now.total ≤ 36000 }
    requires low { neg_ℤ (pos 200000000000000000) ≤ℤ mark.now.value }
    requires high { mark.now.value ≤ℤ pos 200000000000000000 }
    requires shift { IsShift piece.now }
    ensures { result ≡ option_and_then (λ time. given (nat_lt mark.now.piece item && is_open group.now (next_mark group.now prices.now mark.now time item piece.now) piece.now.end.0) (Some (next_mark group.now prices.now mark.now time item piece.now))) time }
{
    let time = time?;
    let longer = next_of(group, prices, mark, time, item, piece);
    given_mark(
        both(mark.piece < item, may_go_on(group, &longer, piece.end.0)),
        longer,
    )
}

/// The value of the list of a mark with this sign-off, where it is a lawful duty.
fn value_at_sign_off(counts: bool, group: &Group, mark: &Mark, off: Option<i64>) -> Option<i64>
    requires ranges { IsGroup group.now }
    requires early { neg_ℤ (pos 345600) ≤ℤ mark.now.start.0 }
    requires late { mark.now.start.0 ≤ℤ pos 345600 }
    requires low { neg_ℤ (pos 100000000000000000) ≤ℤ mark.now.value }
    requires high { mark.now.value ≤ℤ pos 100000000000000000 }
    requires off_low { IfSome off (λ off. neg_ℤ (pos 345600) ≤ℤ off) }
    requires off_high { IfSome off (λ off. off ≤ℤ pos 691200) }
    ensures { result ≡ option_and_then (λ off. given (closes_lawfully group.now mark.now off) (Some (mark.now.value +ℤ off_value counts group.now off))) off }
{
    let off = off?;
    if may_close(group, mark, off) {
        Some(more(mark.value, off_part(counts, group, off)))
    } else {
        None
    }
}

/// The sign-on before a piece.
fn on_before(piece: &Piece, way: u32, sign_on: u32) -> i64
    requires shift { IsShift piece.now }
    requires way { IsTime way }
    requires sign_on { IsTime sign_on }
    ensures value { result ≡ piece.now.begin.0 -ℤ pos way -ℤ pos sign_on }
    ensures early { neg_ℤ (pos 345600) ≤ℤ result }
    ensures late { result ≤ℤ pos 345600 }
{
    piece.begin.0 - way as i64 - sign_on as i64
}

/// The sign-off after a piece.
fn off_after(piece: &Piece, way: u32, sign_off: u32) -> i64
    requires shift { IsShift piece.now }
    requires way { IsTime way }
    requires sign_off { IsTime sign_off }
    ensures value { result ≡ piece.now.end.0 +ℤ pos way +ℤ pos sign_off }
    ensures early { neg_ℤ (pos 345600) ≤ℤ result }
    ensures late { result ≤ℤ pos 691200 }
{
    piece.end.0 + way as i64 + sign_off as i64
}
