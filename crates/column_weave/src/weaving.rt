//! Weaving over links.

ghost use Rattle.std.specs.Prelude.{◌≡◌, ◌&&◌, ◌<◌, ◌≤◌, ◌≤ℤ◌, ◌<ℤ◌, int_lt, pos, neg_ℤ, length, slice_index, All, IfOk, OnOk, IfSome};
ghost use Rattle.plan_core.specs.Limits.{most_items, most_price, most_worth};
ghost use Rattle.cover_core.specs.Cover.{AllBelow, Rises};
ghost use Rattle.cover_core.specs.Plans.{AreColumns, number_at};
ghost use Rattle.cover_core.specs.FirstLeast.{AllWithin, value};
ghost use Rattle.cover_core.specs.Fitting.{AreFit};
ghost use Rattle.lagrangian_climb.specs.Choices.{AreAsked};
ghost use Rattle.column_weave.specs.Sums.{AreSummed, IsSummed};
ghost use Rattle.column_weave.specs.Webs.{AreRanged, IsWeb};
ghost use Rattle.column_weave.specs.Woven.{AreWoven, IsGain, IsWoven};

use crate::links::ClassLinks;
use crate::sums::{Least, is_less, least_at, no_list};
use crate::web::Web;
use cover_core::{Column, Columns, Items, Prices, price_at, value};
use plan_core::{Memory, Seq};
use std::alloc::Global;

/// The list that ends in an item, from its first item on.
fn followed_back(alloc: Global, least: &[Least], last: u32) -> Result<Vec<u32>, Memory>
    requires last { last < length least.now }
    requires summed { AreSummed least.now }
    ensures { IfOk result (λ list. AllBelow (length least.now) list.items) }
{
    let mut list = Vec::new(alloc);
    list.push(last)?;
    let mut item = last;
    while least[item as usize].before != 0 {
        item = least[item as usize].before - 1;
        list.push(item)?;
    }
    list.as_mut_slice().reverse();
    Ok(list)
}

/// The least list of a class that ends in the item behind those that are given: none where it is fixed.
fn next_least(least: &[Least], links: &ClassLinks, prices: &Prices, fixed: &[bool]) -> Least
    requires next { length least.now < length fixed.now }
    requires few { length fixed.now ≤ most_items }
    requires summed { AreSummed least.now }
    requires links { AreRanged (length fixed.now) links.now }
    requires prices { length prices.now.items ≡ length fixed.now }
    requires moderate { AllWithin most_price prices.now.items }
    ensures { IsSummed (length least.now) result }
{
    let item = least.len();
    if fixed[item] {
        return no_list();
    }
    let price = price_at(prices, item);
    let single = links.single.as_slice()[item];
    let into = links.into.as_slice();
    let list = &into[item];
    least_at(least, list.as_slice(), single, price)
}

/// The least lists of a class that end in each item.
fn least_lists(
    alloc: Global,
    links: &ClassLinks,
    prices: &Prices,
    fixed: &[bool],
) -> Result<Vec<Least>, Memory>
    requires few { length fixed.now ≤ most_items }
    requires links { AreRanged (length fixed.now) links.now }
    requires prices { length prices.now.items ≡ length fixed.now }
    requires moderate { AllWithin most_price prices.now.items }
    ensures len { IfOk result (λ least. length least.items ≡ length fixed.now) }
    ensures summed { IfOk result (λ least. AreSummed least.items) }
{
    let mut least = Vec::new(alloc);
    for _item in 0..fixed.len() {
        let next = next_least(least.as_slice(), links, prices, fixed);
        least.push(next)?;
    }
    Ok(least)
}

/// Of the items from one place to another the one whose list is least, the first one on ties.
fn best_of(least: &[Least], from: usize, to: usize) -> usize
    requires few { length least.now ≤ most_items }
    requires some { from < to }
    requires inside { to ≤ length least.now }
    ensures low { from ≤ result }
    ensures high { result < to }
{
    let mut best = from;
    for item in from..to {
        if is_less(least[item], least[best]) {
            best = item;
        }
    }
    best
}

/// A column where its value is below minus what its class asks.
fn with_gain(column: Column, prices: &Prices, asked: i64) -> Option<Column>
    requires few { length prices.now.items ≤ most_items }
    requires moderate { AllWithin most_price prices.now.items }
    requires rises { Rises column.items }
    requires items { AllBelow (length prices.now.items) column.items }
    requires cheap { column.worth ≤ most_worth }
    requires low { pos 0 ≤ℤ asked }
    requires high { asked ≤ℤ pos 30000000000000000 }
    ensures same { IfSome result (λ woven. woven ≡ column) }
    ensures gain { IfSome result (λ woven. value prices.now.items woven <ℤ neg_ℤ asked) }
{
    if value(&column, prices) < -asked {
        Some(column)
    } else {
        None
    }
}

/// The list that ends in an item as a column of the problem, where it has a worth and its value is below minus what its class asks.
fn woven_at<C: Columns>(
    alloc: Global,
    problem: &C,
    class: u32,
    least: &[Least],
    last: u32,
    prices: &Prices,
    asked: i64,
) -> Result<Option<Column>, Memory>
    requires class { class < length (C.problem problem.now).caps }
    requires least { length least.now ≡ (C.problem problem.now).items }
    requires last { last < length least.now }
    requires summed { AreSummed least.now }
    requires few { length prices.now.items ≤ most_items }
    requires prices { length prices.now.items ≡ (C.problem problem.now).items }
    requires moderate { AllWithin most_price prices.now.items }
    requires low { pos 0 ≤ℤ asked }
    requires high { asked ≤ℤ pos 30000000000000000 }
    ensures { IfOk result (λ woven. IfSome woven (IsWoven (C.problem problem.now) prices.now.items class asked)) }
{
    let list = followed_back(alloc, least, last)?;
    match problem.worth(class, list.as_slice()) {
        None => Ok(None),
        Some(worth) => {
            let items = Items::from_slice(alloc, list.as_slice())?;
            let column = Column {
                class,
                worth,
                items,
            };
            Ok(with_gain(column, prices, asked))
        }
    }
}

/// Weaves the columns of a class that has a place, one at most for each 16 last items.
fn weave_class<C: Columns>(
    alloc: Global,
    problem: &C,
    class: u32,
    least: &[Least],
    prices: &Prices,
    free: &[u32],
    asked: &[i64],
    woven: &mut Seq<Column>,
) -> Result<(), Memory>
    requires class { class < length (C.problem problem.now).caps }
    requires place { 0 < slice_index free.now class }
    requires least { length least.now ≡ (C.problem problem.now).items }
    requires summed { AreSummed least.now }
    requires few { length prices.now.items ≤ most_items }
    requires prices { length prices.now.items ≡ (C.problem problem.now).items }
    requires moderate { AllWithin most_price prices.now.items }
    requires one_asked { length asked.now ≡ length (C.problem problem.now).caps }
    requires asked { AreAsked asked.now }
    requires woven { AreWoven (C.problem problem.now) prices.now.items free.now asked.now woven.old }
    ensures { OnOk result (AreWoven (C.problem problem.now) prices.now.items free.now asked.now woven.new) }
{
    let asked = asked_at(asked, class);
    let items = least.len();
    for group in 0..items.div_ceil(16) {
        let last = best_of(least, 16 * group, (16 * group + 16).min(items));
        if is_gain(least[last], asked) {
            match woven_at(alloc, problem, class, least, last as u32, prices, asked)? {
                None => {}
                Some(column) => woven.push(column)?,
            }
        }
    }
    Ok(())
}

/// Whether a list is there and its sum below minus what its class asks.
fn is_gain(least: Least, asked: i64) -> bool
    requires low { pos 0 ≤ℤ asked }
    requires high { asked ≤ℤ pos 30000000000000000 }
    ensures { result ≡ least.known && int_lt least.sum (neg_ℤ asked) }
{
    least.known && least.sum < -asked
}

/// What a class asks.
fn asked_at(asked: &[i64], class: u32) -> i64
    requires inside { class < length asked.now }
    requires asked { AreAsked asked.now }
    ensures value { result ≡ number_at asked.now class }
    ensures low { pos 0 ≤ℤ result }
    ensures high { result ≤ℤ pos 30000000000000000 }
{
    asked[class as usize]
}

/// The columns that are woven from a web at some prices, class by class and by 16 last items, where some items are fixed.
///
/// For each class that has a place left, and each item that is not fixed, the least list that ends in it is found: the item alone, or the
/// least list of an item before it over one of its links, without fixed items; its sum is a thousand times the worth of its first item
/// alone and the rises along it, less the prices of its items; on ties the item alone comes first, and then links in order of arrival. Of
/// each 16 last items the one of the least sum is taken, the first one on ties. Where the sum is below minus what the class asks for a
/// place, the problem is asked for the worth of the list; where it has one, and its value is below that too, it is woven.
///
/// Each woven column is a column of the problem whose class has a place, and its value is below minus what its class asks. Prices are from
/// -10,000,000,000,000 to 10,000,000,000,000, and each class asks from 0 to 30,000,000,000,000,000. Time is that of one walk over all links
/// of all classes, and of at most one worth for each class and 16 items.
///
/// # Errors
///
/// [`Memory`] where it is refused.
pub fn weave<C: Columns>(
    alloc: Global,
    problem: &C,
    web: &Web,
    prices: &Prices,
    fixed: &[bool],
    free: &[u32],
    asked: &[i64],
) -> Result<Seq<Column>, Memory>
    requires web { IsWeb (C.problem problem.now) web.now }
    requires prices { length prices.now.items ≡ (C.problem problem.now).items }
    requires moderate { AllWithin most_price prices.now.items }
    requires fixed { length fixed.now ≡ (C.problem problem.now).items }
    requires one_free { length free.now ≡ length (C.problem problem.now).caps }
    requires one_asked { length asked.now ≡ length (C.problem problem.now).caps }
    requires asked { AreAsked asked.now }
    ensures columns { IfOk result (AreColumns (C.problem problem.now)) }
    ensures fit { IfOk result (AreFit (C.problem problem.now).items (length (C.problem problem.now).caps)) }
    ensures gains { IfOk result (All (IsGain prices.now.items free.now asked.now)) }
{
    let _few = problem.items();
    let mut woven = Seq::new(alloc);
    for class in 0..problem.classes() {
        if 0 < free[class as usize] {
            let links = &web.classes[class as usize];
            let least = least_lists(alloc, links, prices, fixed)?;
            let least = least.as_slice();
            weave_class(
                alloc, problem, class, least, prices, free, asked, &mut woven,
            )?;
        }
    }
    Ok(woven)
}
