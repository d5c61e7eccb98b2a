//! The first unpaid list, as a column.
#![tactic(auto)]

ghost use Rattle.std.specs.Prelude.{◌≡◌, ◌<◌, ◌≤◌, ◌<ℤ◌, ◌-ℤ◌, neg_ℤ, pos, IfOk, IfSome, IfNone, None, length};
ghost use Rattle.plan_core.specs.Limits.{most_worth};
ghost use Rattle.cover_core.specs.Cover.{AllBelow};
ghost use Rattle.cover_core.specs.FirstLeast.{IsAtMostAll, value};
ghost use Rattle.cover_core.specs.Plans.{number_at};
ghost use Rattle.label_search.specs.Pricing.{worth_column};
ghost use Rattle.unpaid_list.specs.Laws.{LeastIsBest};
ghost use Rattle.unpaid_list.specs.Unpaid.{AreClassesPaid, IsFirstUnpaid, IsLeastOfClass};

use crate::labels::ClassLabels;
use crate::lists::ValuedLists;
use cover_core::{Column, Columns, best_is_first_least};
use label_search::{column_of, search};
use plan_core::Memory;
use std::alloc::Global;

/// The greatest value that is below minus a price.
fn limit_of(class_price: i64) -> i64
    ensures { result ≡ neg_ℤ class_price -ℤ pos 1 }
{
    (-(class_price as i128) - 1) as i64
}

/// The price of a class.
fn price_of(class_prices: &[i64], class: u32) -> i64
    ensures { result ≡ number_at class_prices.now class }
{
    if (class as usize) < class_prices.len() {
        class_prices[class as usize]
    } else {
        0
    }
}

/// The first least list of a class, where its value is below minus the price of the class.
fn class_unpaid<C: Columns, M: ValuedLists>(
    alloc: Global,
    columns: &C,
    m: &M,
    class: u32,
    class_price: i64,
) -> Result<Option<Column>, Memory>
    requires same { M.problem m.now ≡ C.problem columns.now }
    requires class { class < length (C.problem columns.now).caps }
    ensures least { IfOk result (λ answer. IfSome answer (λ column. IsLeastOfClass (C.problem columns.now) (M.prices m.now) class column)) }
    ensures unpaid { IfOk result (λ answer. IfSome answer (λ column. value (M.prices m.now) column <ℤ neg_ℤ class_price)) }
    ensures none { IfOk result (λ answer. IfNone answer (IsAtMostAll (C.problem columns.now) (M.prices m.now) class (neg_ℤ class_price))) }
    ensures bound { IfOk result (λ answer. IfSome answer (λ column. column.worth ≤ most_worth)) }
{
    let labels = ClassLabels { m, class };
    match search(alloc, &labels, &[], limit_of(class_price))? {
        None => Ok(None),
        Some(found) => column_of(alloc, columns, class, found.list.as_slice()),
    }
}

/// The first least list of the first class that has a list with a value (a thousand times its worth less the prices of its items, in
/// thousandths of a cost unit) below minus the price of the class: of all lists of the class the one of the least value, and of several
/// with that value the one that comes first when lists are compared from their last items backwards. None exactly where there is no such
/// list, and so where class prices of at least 0 are paid. A class has price 0 where there is none for it.
///
/// `columns` and `m` are of one problem: its worths, and the marks of its open lists under the prices. The search keeps labels with
/// dominance and knows no completion bound, so it takes about as long as it takes to make all marks.
///
/// # Errors
///
/// `Memory` where memory runs out, and for nothing else.
pub fn first_unpaid<C: Columns, M: ValuedLists>(
    alloc: Global,
    columns: &C,
    m: &M,
    class_prices: &[i64],
) -> Result<Option<Column>, Memory>
    requires same { M.problem m.now ≡ C.problem columns.now }
    ensures first { IfOk result (λ answer. IfSome answer (λ column. IsFirstUnpaid (C.problem columns.now) (M.prices m.now) class_prices.now column)) }
    ensures none { IfOk result (λ answer. IfNone answer (AreClassesPaid (C.problem columns.now) (M.prices m.now) class_prices.now (length (C.problem columns.now).caps))) }
    ensures onto { IfOk result (λ answer. AreClassesPaid (C.problem columns.now) (M.prices m.now) class_prices.now (length (C.problem columns.now).caps) → answer ≡ None) }
    ensures bound { IfOk result (λ answer. IfSome answer (λ column. column.worth ≤ most_worth)) }
{
    for class in 0..columns.classes() {
        match class_unpaid(alloc, columns, m, class, price_of(class_prices, class))? {
            None => {}
            Some(column) => return Ok(Some(column)),
        }
    }
    Ok(None)
}

/// The first least of a class is the best column of the class and of the group of its first item: what a pricer answers there.
pub fn least_is_best<C: Columns>()
    ensures { (columns : C) → LeastIsBest (C.problem columns) }
{
    best_is_first_least::<C>();
}
