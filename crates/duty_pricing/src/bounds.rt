//! Completion bounds: what the rest of a list adds to its value at least, for each amount of driving that is left of the day's.

ghost use Rattle.std.specs.Prelude.{◌≡◌, ◌<◌, ◌≤◌, ◌+◌, ◌*◌, ◌≤ℤ◌, ◌+ℤ◌, ◌-ℤ◌, ℕ, ℤ, neg_ℤ, pos, length, cond, IfOk, Some, slice_get};
ghost use Rattle.plan_core.specs.Limits.{most_items, most_price};
ghost use Rattle.plan_core.specs.declared.types.Piece.{Piece};
ghost use Rattle.cover_core.specs.FirstLeast.{AllWithin};
ghost use Rattle.plan_params.specs.Limits.{IsGroup};
ghost use Rattle.duty_network.specs.Duties.{sign_off};
ghost use Rattle.duty_network.specs.Followers.{AreFollowed, AreNumbered, entry_at};
ghost use Rattle.duty_network.specs.Ranges.{off_value};
ghost use Rattle.duty_pricing.specs.Bounds.{AreBelow, AreOut, AreRows, IsBoundFrom, IsBoundRow, IsChain, IsFalling, IsLow, IsLoweredBy, IsReach, IsTail, cell_at, low_of, row_at};
ghost use Rattle.duty_pricing.specs.Behind.{AreFirsts, AreInReach, IsLoweredByAll, IsLoweredByDirect, IsLoweredByOne};

use crate::labels::price;
use crate::reach::{Reach, in_units};
use crate::rows::{Row, lower_row, raise, settle};
use duty_network::{DutyNet, Follower, Followers};
use plan_core::{Memory, Price};
use plan_params::Group;
use std::alloc::Global;

/// More than any ending adds.
const OUT_OF_REACH: i64 = 7_000_000_000_000;

/// The sign-off of a duty that ends with a piece.
fn off_time(net: &DutyNet<'_>, class: u32, group: &Group, item: u32) -> Option<i64>
    requires class { slice_get net.now.params.groups class ≡ Some group.now }
    requires ranges { IsGroup group.now }
    requires item { item < length net.now.pieces }
    ensures { (p : Piece) → slice_get net.now.pieces item ≡ Some p → result ≡ sign_off net.now group.now p }
{
    let way = net.to_home(class, item)?;
    Some(net.piece(item).end.0 + way as i64 + group.sign_off as i64)
}

/// What ending behind a piece in time adds, or a number out of reach.
fn ending_value(net: &DutyNet<'_>, class: u32, group: &Group, item: u32, until: i64) -> i64
    requires class { slice_get net.now.params.groups class ≡ Some group.now }
    requires ranges { IsGroup group.now }
    requires item { item < length net.now.pieces }
    ensures low { neg_ℤ (pos 7000000000000) ≤ℤ result }
    ensures high { result ≤ℤ pos 7000000000000 }
    ensures closes { (p : Piece) (off : ℤ) → slice_get net.now.pieces item ≡ Some p → sign_off net.now group.now p ≡ Some off → off ≤ℤ until → result ≤ℤ off_value net.now.counts group.now off }
{
    match off_time(net, class, group, item) {
        Some(off) if off <= until => match net.closing(class, group, item) {
            Some(value) => value,
            None => OUT_OF_REACH,
        },
        _ => OUT_OF_REACH,
    }
}

/// Lowers a row to what going on with a piece adds, where that ends in time.
fn lower_by_piece(
    net: &DutyNet<'_>,
    prices: &[Price],
    reach: &Reach,
    rows: &[Row],
    row: &mut Row,
    next: u32,
)
    requires reach { IsReach reach.now }
    requires next { next < length net.now.pieces }
    requires count { length rows.now ≡ length net.now.pieces }
    requires prices { length prices.now ≡ length net.now.pieces }
    requires moderate { AllWithin most_price prices.now }
    requires few { length net.now.pieces ≤ most_items }
    requires low { IsLow (low_of next) (row_at rows.now next) }
    requires high { (x : ℕ) → cell_at rows.now next x ≤ℤ pos 7000000000000 }
    ensures { IsLoweredBy net.now prices.now reach.now rows.now next row.old row.new }
{
    let piece = net.piece(next);
    let taken = in_units(reach, piece.driving);
    if piece.end.0 <= reach.until && taken < reach.width {
        lower_row(
            row,
            &rows[next as usize],
            taken,
            reach.width,
            price(prices, next),
        );
    }
}

/// One of two tables.
pub(crate) fn pick<'a>(first: bool, a: &'a [Row], b: &'a [Row]) -> &'a [Row]
    ensures { result.now ≡ cond first a.now b.now }
{
    if first { a } else { b }
}

/// Lowers a row to what going on with the piece that follows directly adds, where there is one and a pause before it.
fn lower_by_direct(
    net: &DutyNet<'_>,
    prices: &[Price],
    reach: &Reach,
    long: u32,
    rows: &[Row],
    over: &[Row],
    row: &mut Row,
    item: u32,
    direct: u32,
)
    requires reach { IsReach reach.now }
    requires order { item < direct }
    requires item { item < length net.now.pieces }
    requires prices { length prices.now ≡ length net.now.pieces }
    requires moderate { AllWithin most_price prices.now }
    requires few { length net.now.pieces ≤ most_items }
    requires rows { AreRows (length net.now.pieces) (item + 1) rows.now }
    requires over { AreRows (length net.now.pieces) (item + 1) over.now }
    ensures { IsLoweredByDirect net.now prices.now reach.now long rows.now over.now item direct row.old row.new }
{
    if direct as usize >= net.pieces().len() {
        return;
    }
    match net.pause(item, direct) {
        None => {}
        Some(time) => {
            let table = pick(time >= long, over, rows);
            lower_by_piece(net, prices, reach, table, row, direct);
        }
    }
}

/// Lowers a row to the one that a chain has at a place, where it has one there.
fn lower_by_one(reach: &Reach, chain: &[Row], row: &mut Row, item: u32, place: u32)
    requires reach { IsReach reach.now }
    requires chain { AreInReach (item + 1) chain.now }
    requires order { item < place }
    ensures { IsLoweredByOne reach.now chain.now item place row.old row.new }
{
    if (place as usize) < chain.len() {
        lower_row(row, &chain[place as usize], 0, reach.width, 0);
    }
}

/// Lowers a row to what going on with the pieces of each number adds, from a first one on.
fn lower_by_all(reach: &Reach, chain: &[Row], firsts: &[u32], row: &mut Row, item: u32)
    requires reach { IsReach reach.now }
    requires chain { AreInReach (item + 1) chain.now }
    requires behind { (m : ℕ) → m < length firsts.now → item < entry_at firsts.now m }
    ensures { IsLoweredByAll reach.now chain.now firsts.now item (length firsts.now) row.old row.new }
{
    for number in 0..firsts.len() {
        lower_by_one(reach, chain, row, item, firsts[number]);
    }
}

/// The row of a piece, where those of the later pieces are bounds.
///
/// Behind the first piece of a number to which there is a pause the later ones of that number are looked at together, by its row in the chain:
/// whether there is a pause to each of them does not matter, since a bound may only be too low. `near` has the first pieces behind pauses that are
/// not long, where there are such pauses, and `far` those behind long ones.
fn bound_row(
    net: &DutyNet<'_>,
    class: u32,
    group: &Group,
    prices: &[Price],
    reach: &Reach,
    long: u32,
    last: i64,
    numbers: &[u32],
    direct: u32,
    near: &[u32],
    far: &[u32],
    rows: &[Row],
    over: &[Row],
    chain: &[Row],
    over_chain: &[Row],
    item: u32,
) -> Row
    requires class { slice_get net.now.params.groups class ≡ Some group.now }
    requires ranges { IsGroup group.now }
    requires reach { IsReach reach.now }
    requires item { item < length net.now.pieces }
    requires prices { length prices.now ≡ length net.now.pieces }
    requires moderate { AllWithin most_price prices.now }
    requires direct { item < direct }
    requires near { AreFirsts net.now numbers.now item direct (λ time. time < long) near.now }
    requires far { AreFirsts net.now numbers.now item direct (λ time. long ≤ time) far.now }
    requires rows { AreRows (length net.now.pieces) (item + 1) rows.now }
    requires over { AreRows (length net.now.pieces) (item + 1) over.now }
    requires below { AreBelow over.now rows.now }
    requires chain { IsChain net.now prices.now reach.now numbers.now rows.now (item + 1) chain.now }
    requires over_chain { IsChain net.now prices.now reach.now numbers.now over.now (item + 1) over_chain.now }
    ensures row { IsBoundRow net.now prices.now group.now reach.now long last rows.now over.now item result }
    ensures falling { IsFalling result }
    ensures low { IsLow (low_of item) result }
{
    net.fits();
    let mut row = [ending_value(net, class, group, item, last); 16];
    lower_by_direct(net, prices, reach, long, rows, over, &mut row, item, direct);
    lower_by_all(reach, chain, near, &mut row, item);
    lower_by_all(reach, over_chain, far, &mut row, item);
    settle(&mut row);
    row
}

/// The row of a piece in the chain of its number, which goes from the last piece back.
fn chain_row(
    net: &DutyNet<'_>,
    prices: &[Price],
    reach: &Reach,
    numbers: &[u32],
    rows: &[Row],
    tail: &mut Vec<Row>,
    item: u32,
) -> Row
    requires reach { IsReach reach.now }
    requires item { item < length net.now.pieces }
    requires prices { length prices.now ≡ length net.now.pieces }
    requires moderate { AllWithin most_price prices.now }
    requires few { length net.now.pieces ≤ most_items }
    requires numbers { AreNumbered (length net.now.pieces) numbers.now }
    requires rows { AreRows (length net.now.pieces) item rows.now }
    requires tail { IsTail net.now prices.now reach.now numbers.now rows.now (item + 1) tail.old.items }
    ensures tail { IsTail net.now prices.now reach.now numbers.now rows.now item tail.new.items }
    ensures row { result ≡ row_at tail.new.items (entry_at numbers.now item) }
{
    let number = numbers[item as usize] as usize;
    let mut row = tail[number];
    lower_by_piece(net, prices, reach, rows, &mut row, item);
    tail[number] = row;
    row
}

/// Rows that are out of reach.
fn out_of_reach(alloc: Global, count: usize) -> Result<Vec<Row>, Memory>
    ensures { IfOk result (λ rows. AreOut count rows.items) }
{
    let mut rows = Vec::new(alloc);
    rows.reserve(count)?;
    for _ in 0..count {
        rows.push([OUT_OF_REACH; 16])?;
    }
    Ok(rows)
}

/// The pieces that can follow a piece.
fn follower(followers: &Followers, item: u32) -> &Follower
    requires { item < length followers.now.behind.items }
    ensures { slice_get followers.now.behind.items item ≡ Some result.now }
{
    &followers.behind[item as usize]
}

/// The rows of pieces, and for each piece the least of what going on with it or with a later piece of its number adds.
#[derive(Drop)]
pub(crate) struct Table {
    pub rows: Vec<Row>,
    pub chain: Vec<Row>,
}

/// For each piece from a first one on, and for each amount of driving left, what the rest of a list behind it that has had a long pause
/// adds to its value at least, in thousandths of a cost unit: the least over ending there and over going on with each later piece after a
/// pause, the prices of these taken off. Article 7 and the other limits are left out. `Memory` is the only error.
///
/// Pieces are numbered, those that begin at one point alike. Of each number at most two pieces are looked at, and the one that follows directly: it
/// takes time with the pieces and the points.
pub(crate) fn bounds_over(
    alloc: Global,
    net: &DutyNet<'_>,
    class: u32,
    group: &Group,
    prices: &[Price],
    reach: &Reach,
    followers: &Followers,
    numbers: &[u32],
    first: usize,
) -> Result<Table, Memory>
    requires class { slice_get net.now.params.groups class ≡ Some group.now }
    requires ranges { IsGroup group.now }
    requires reach { IsReach reach.now }
    requires prices { length prices.now ≡ length net.now.pieces }
    requires moderate { AllWithin most_price prices.now }
    requires followers { AreFollowed net.now.pieces net.now.params followers.now }
    requires numbers { numbers.now ≡ followers.now.points.numbers.items }
    ensures rows { IfOk result (λ table. IsBoundFrom net.now prices.now group.now reach.now 0 reach.now.until first table.rows.items table.rows.items) }
    ensures chain { IfOk result (λ table. IsChain net.now prices.now reach.now numbers.now table.rows.items first table.chain.items) }
{
    net.fits();
    let count = net.pieces().len();
    let mut rows = out_of_reach(alloc, count)?;
    let mut chain = out_of_reach(alloc, count)?;
    let mut tail = out_of_reach(alloc, count)?;
    let mut item = count;
    while item > first {
        item -= 1;
        let so_far = rows.as_slice();
        let chained = chain.as_slice();
        let follower = follower(followers, item as u32);
        let row = bound_row(
            net,
            class,
            group,
            prices,
            reach,
            0,
            reach.until,
            numbers,
            follower.direct,
            &[],
            follower.near.as_slice(),
            so_far,
            so_far,
            chained,
            chained,
            item as u32,
        );
        rows[item] = row;
        let now = rows.as_slice();
        let least = chain_row(net, prices, reach, numbers, now, &mut tail, item as u32);
        chain[item] = least;
    }
    Ok(Table { rows, chain })
}

/// The same of lists that have had no long pause: they end by `last`, or have one that is still to come.
pub(crate) fn bounds(
    alloc: Global,
    net: &DutyNet<'_>,
    class: u32,
    group: &Group,
    prices: &[Price],
    reach: &Reach,
    last: i64,
    followers: &Followers,
    numbers: &[u32],
    over: &Table,
    first: usize,
) -> Result<Vec<Row>, Memory>
    requires class { slice_get net.now.params.groups class ≡ Some group.now }
    requires ranges { IsGroup group.now }
    requires reach { IsReach reach.now }
    requires prices { length prices.now ≡ length net.now.pieces }
    requires moderate { AllWithin most_price prices.now }
    requires followers { AreFollowed net.now.pieces net.now.params followers.now }
    requires numbers { numbers.now ≡ followers.now.points.numbers.items }
    requires in_time { last ≤ℤ reach.now.until }
    requires over { IsBoundFrom net.now prices.now group.now reach.now 0 reach.now.until first over.now.rows.items over.now.rows.items }
    requires over_chain { IsChain net.now prices.now reach.now numbers.now over.now.rows.items first over.now.chain.items }
    ensures rows { IfOk result (λ rows. IsBoundFrom net.now prices.now group.now reach.now 10800 last first rows.items over.now.rows.items) }
    ensures below { IfOk result (λ rows. AreBelow over.now.rows.items rows.items) }
{
    net.fits();
    let count = net.pieces().len();
    let mut rows = out_of_reach(alloc, count)?;
    let mut chain = out_of_reach(alloc, count)?;
    let mut tail = out_of_reach(alloc, count)?;
    let mut item = count;
    while item > first {
        item -= 1;
        let so_far = rows.as_slice();
        let chained = chain.as_slice();
        let above = over.rows.as_slice();
        let above_chained = over.chain.as_slice();
        let follower = follower(followers, item as u32);
        let mut row = bound_row(
            net,
            class,
            group,
            prices,
            reach,
            10_800,
            last,
            numbers,
            follower.direct,
            follower.near.as_slice(),
            follower.far.as_slice(),
            so_far,
            above,
            chained,
            above_chained,
            item as u32,
        );
        raise(&mut row, &over.rows[item]);
        rows[item] = row;
        let now = rows.as_slice();
        let least = chain_row(net, prices, reach, numbers, now, &mut tail, item as u32);
        chain[item] = least;
    }
    Ok(rows)
}
