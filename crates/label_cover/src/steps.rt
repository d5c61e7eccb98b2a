//! The steps of open lists of pieces, for every mark, whoever made it.

ghost use Rattle.std.specs.Prelude.{◌≡◌, ◌<◌, ◌-ℤ◌, ◌+ℤ◌, ◌||◌, ◌&&◌};
ghost use Rattle.std.specs.Prelude.{Some, cond, false, int_le, length, nat_le, nat_lt, option_and_then, pos, slice_get};
ghost use Rattle.std.specs.Option.{option_map};
ghost use Rattle.cover_core.specs.Plans.{price_at};
ghost use Rattle.plan_core.specs.declared.types.Piece.{Piece as AnyPiece};
ghost use Rattle.plan_params.specs.Limits.{IsGroup};
ghost use Rattle.vdv452_tables.specs.Ranges.{IsTime};
ghost use Rattle.eu561_rules.specs.Duty.{completes_break};
ghost use Rattle.duty_network.specs.Times.{given};
ghost use Rattle.duty_network.specs.Duties.{limits_of, sign_off as off_of};
ghost use Rattle.duty_network.specs.Marks.{closed_value, closes_lawfully, extended_mark, first_mark, is_open, next_mark};
ghost use Rattle.duty_network.specs.Ranges.{IsShift};
ghost use Rattle.label_cover.specs.Opened.{less_price, seen_mark};

use crate::open_mark::OpenMark;
use cover_core::{Mark, Prices, price_or_zero};
use duty_network::DutyNet;
use eu561_rules::Limits;
use plan_core::Piece;
use plan_params::Group;

/// The limits of a group.
fn limits(group: &Group) -> Limits
    ensures { result ≡ limits_of group.now }
{
    Limits::of(group.ten, group.reduced)
}

/// The price of an item, 0 where there is none.
fn price_of(prices: &Prices, item: u32) -> i64
    ensures { result ≡ price_at prices.now.items item }
{
    price_or_zero(prices.items.as_slice(), item)
}

/// One of two numbers.
fn pick(first: bool, a: u32, b: u32) -> u32
    ensures { result ≡ cond first a b }
{
    if first { a } else { b }
}

/// Whether both hold.
fn both(a: bool, b: bool) -> bool
    ensures { result ≡ a && b }
{
    a && b
}

/// Whether a pause completes a full break (article 7).
fn completes(quarter: bool, time: u32) -> bool
    ensures { result ≡ completes_break quarter time }
{
    time >= 2700 || (time >= 1800 && quarter)
}

/// Whether a quarter was had after the last full break.
fn quarter_after(full: bool, quarter: bool, time: u32) -> bool
    ensures { result ≡ cond full false (nat_le 900 time || quarter) }
{
    if full { false } else { time >= 900 || quarter }
}

/// Whether a long pause was had.
fn three_after(three: bool, time: u32, long: u32) -> bool
    ensures { result ≡ three || nat_le long time }
{
    three || time >= long
}

/// Whether a moment is at most this many seconds after another.
fn is_by(end: i64, start: i64, seconds: u32) -> bool
    ensures { result ≡ int_le end (start +ℤ pos seconds) }
{
    end as i128 <= start as i128 + seconds as i128
}

/// Whether the time from a start to an end, which may be below 0, is at most this many seconds.
fn is_within(end: i64, start: i64, seconds: u32) -> bool
    ensures { result ≡ int_le (end -ℤ start) (pos seconds) }
{
    end as i128 - start as i128 <= seconds as i128
}

/// Whether a mark may be continued.
fn may_go_on(group: &Group, mark: &OpenMark, end: i64) -> bool
    ensures { result ≡ is_open group.now (seen_mark mark.now) end }
{
    let limits = limits(group);
    mark.driving <= limits.block as u64
        && mark.total <= limits.day as u64
        && is_by(end, mark.start.0, limits.long_spread)
}

/// Whether a mark can be closed lawfully.
fn may_close(group: &Group, mark: &Mark, off: i64) -> bool
    ensures { result ≡ closes_lawfully group.now mark.now off }
{
    let limits = limits(group);
    mark.driving <= limits.block
        && mark.total <= limits.day
        && is_within(
            off,
            mark.start.0,
            pick(mark.three, limits.long_spread, limits.spread),
        )
}

/// A mark, where a test holds.
fn given_mark(test: bool, mark: OpenMark) -> Option<OpenMark>
    ensures { option_map seen_mark result ≡ given test (Some (seen_mark mark)) }
{
    if test { Some(mark) } else { None }
}

/// A mark with the price of an item taken off its value.
fn with_price(mark: &Mark, prices: &Prices, item: u32) -> OpenMark
    ensures { seen_mark result ≡ less_price mark.now (price_at prices.now.items item) }
{
    OpenMark {
        class: mark.class,
        piece: mark.piece,
        start: mark.start,
        driving: mark.driving as u64,
        quarter: mark.quarter,
        total: mark.total as u64,
        three: mark.three,
        value: mark.value as i128 - price_of(prices, item) as i128,
    }
}

/// The same, where there is a mark.
fn less_some(mark: Option<Mark>, prices: &Prices, item: u32) -> Option<OpenMark>
    ensures { option_map seen_mark result ≡ option_map (λ m. less_price m (price_at prices.now.items item)) mark }
{
    match mark {
        None => None,
        Some(mark) => Some(with_price(&mark, prices, item)),
    }
}

/// The mark after a pause and one piece more.
fn next_of(
    group: &Group,
    prices: &Prices,
    mark: &Mark,
    time: u32,
    item: u32,
    piece: &Piece,
) -> OpenMark
    ensures { seen_mark result ≡ next_mark group.now prices.now.items mark.now time item piece.now }
{
    let full = completes(mark.quarter, time);
    let limits = limits(group);
    OpenMark {
        class: mark.class,
        piece: item,
        start: mark.start,
        driving: pick(full, 0, mark.driving) as u64 + piece.driving as u64,
        quarter: quarter_after(full, mark.quarter, time),
        total: mark.total as u64 + piece.driving as u64,
        three: three_after(mark.three, time, limits.long_pause),
        value: mark.value as i128 - price_of(prices, item) as i128,
    }
}

/// The mark of a list with a piece more after this pause, where that is an open list.
fn next_open(
    group: &Group,
    prices: &Prices,
    mark: &Mark,
    item: u32,
    piece: &Piece,
    time: Option<u32>,
) -> Option<OpenMark>
    ensures { option_map seen_mark result
        ≡ option_and_then (λ time. given
        (nat_lt mark.now.piece item
        && is_open group.now (next_mark group.now prices.now.items mark.now time item piece.now) piece.now.end.0)
        (Some (next_mark group.now prices.now.items mark.now time item piece.now))) time }
{
    match time {
        None => None,
        Some(time) => {
            let longer = next_of(group, prices, mark, time, item, piece);
            given_mark(
                both(mark.piece < item, may_go_on(group, &longer, piece.end.0)),
                longer,
            )
        }
    }
}

/// A value with something more.
fn sum(value: i64, more: i64) -> i128
    ensures { result ≡ value +ℤ more }
{
    value as i128 + more as i128
}

/// The value of a closed list with what its sign-off adds, where the list is a lawful duty.
fn value_at_sign_off(group: &Group, mark: &Mark, off: i64, more: i64) -> Option<i128>
    ensures { result ≡ given (closes_lawfully group.now mark.now off) (Some (mark.now.value +ℤ more)) }
{
    if may_close(group, mark, off) {
        Some(sum(mark.value, more))
    } else {
        None
    }
}

/// The same, where there is a sign-off.
fn closed_some(group: &Group, mark: &Mark, off: Option<i64>, more: Option<i64>) -> Option<i128>
    ensures { result ≡ option_and_then
        (λ off. option_and_then (λ more. given (closes_lawfully group.now mark.now off) (Some (mark.now.value +ℤ more))) more) off }
{
    match off {
        None => None,
        Some(off) => match more {
            None => None,
            Some(more) => value_at_sign_off(group, mark, off, more),
        },
    }
}

/// The sign-off after a piece.
fn off_after(piece: &Piece, way: u32, sign_off: u32) -> i64
    requires shift { IsShift piece.now }
    requires way { IsTime way }
    requires sign_off { IsTime sign_off }
    ensures { result ≡ piece.now.end.0 +ℤ pos way +ℤ pos sign_off }
{
    piece.end.0 + way as i64 + sign_off as i64
}

/// The sign-off of a duty of a group that ends with a piece.
fn sign_off(net: &DutyNet<'_>, class: u32, group: &Group, item: u32) -> Option<i64>
    requires class { slice_get net.now.params.groups class ≡ Some group.now }
    requires ranges { IsGroup group.now }
    requires item { item < length net.now.pieces }
    ensures { (p : AnyPiece) → slice_get net.now.pieces item ≡ Some p → result ≡ off_of net.now group.now p }
{
    let way = net.to_home(class, item)?;
    Some(off_after(net.piece(item), way, group.sign_off))
}

/// The mark of a list of one piece, where that is an open list of the class. Without prices it is the net's own.
pub(crate) fn first(
    net: &DutyNet<'_>,
    prices: &Prices,
    class: u32,
    group: &Group,
    item: u32,
) -> Option<OpenMark>
    requires class { slice_get net.now.params.groups class ≡ Some group.now }
    requires ranges { IsGroup group.now }
    requires item { item < length net.now.pieces }
    ensures { option_map seen_mark result ≡ first_mark net.now prices.now.items class group.now item }
{
    less_some(net.first(class, group, &[], item), prices, item)
}

/// The mark of a list with a piece more, where that is an open list.
pub(crate) fn next(
    net: &DutyNet<'_>,
    prices: &Prices,
    group: &Group,
    mark: &Mark,
    item: u32,
) -> Option<OpenMark>
    requires last { mark.now.piece < length net.now.pieces }
    requires item { item < length net.now.pieces }
    ensures { option_map seen_mark result ≡ extended_mark net.now group.now prices.now.items mark.now item }
{
    let time = net.pause(mark.piece, item);
    let piece = net.piece(item);
    next_open(group, prices, mark, item, piece, time)
}

/// The value of the list of a mark, where it is a lawful duty.
pub(crate) fn close(net: &DutyNet<'_>, class: u32, group: &Group, mark: &Mark) -> Option<i128>
    requires class { slice_get net.now.params.groups class ≡ Some group.now }
    requires ranges { IsGroup group.now }
    requires last { mark.now.piece < length net.now.pieces }
    ensures { result ≡ closed_value net.now group.now mark.now }
{
    let off = sign_off(net, class, group, mark.piece);
    let more = net.closing(class, group, mark.piece);
    closed_some(group, mark, off, more)
}
