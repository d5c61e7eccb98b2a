//! The least cover, or the first unpaid list.
#![tactic(auto)]

ghost use Rattle.std.specs.Prelude.{◌≡◌, ◌↔◌, IfErr, IfOk, OnOk, length};
ghost use Rattle.std.specs.List.{Contains};
ghost use Rattle.std.specs.List.Sorted.{IsStrictlySortedBy};
ghost use Rattle.mark_cover.specs.Covers.{IsMarkCover};
ghost use Rattle.mark_cover.specs.Minimal.{AreKept, AreMinimal};
ghost use Rattle.unpaid_list.specs.Laws.{TellsMarksApart};
ghost use Rattle.unpaid_list.specs.Unpaid.{AreClassesPaid, IsUnpaidCause};

use crate::columns::first_unpaid;
use crate::lists::ValuedLists;
use cover_core::{Columns, CoverFault};
use mark_cover::{closes_below, kept_marks_are_minimal, make_marks};
use plan_core::Seq;
use std::alloc::Global;

/// Puts marks in rising order, each once.
fn put_in_order<T: Ord + Copy>(marks: Seq<T>) -> Seq<T>
    requires { TellsMarksApart T.cmp }
    ensures rising { IsStrictlySortedBy T.cmp result }
    ensures keeps { (a : T) → Contains marks a → Contains result a }
    ensures adds_none { (a : T) → Contains result a → Contains marks a }
{
    let mut items = marks.into_vec();
    items.sort_unstable();
    items.dedup();
    Seq::from_vec(items)
}

/// These marks, where they are a cover: a search is made only where one of them closes with a value below minus the price of its class.
fn marks_of_cover<C: Columns, M: ValuedLists>(
    alloc: Global,
    columns: &C,
    m: &M,
    class_prices: &[i64],
    marks: Seq<M::Mark>,
) -> Result<Seq<M::Mark>, CoverFault>
    requires same { M.problem m.now ≡ C.problem columns.now }
    requires kept { AreKept (M.marking m.now) marks }
    ensures marks { IfOk result (λ answer. answer ≡ marks) }
    ensures cover { OnOk result (IsMarkCover (M.marking m.now) marks class_prices.now) }
    ensures paid { OnOk result (AreClassesPaid (C.problem columns.now) (M.prices m.now) class_prices.now (length (C.problem columns.now).caps)) }
    ensures unpaid { IfErr result (λ fault. IsUnpaidCause (C.problem columns.now) (M.prices m.now) class_prices.now fault) }
{
    if !closes_below(m, marks.as_slice(), class_prices) {
        return Ok(marks);
    }
    match first_unpaid(alloc, columns, m, class_prices) {
        Err(_) => Err(CoverFault::Memory),
        Ok(Some(column)) => Err(CoverFault::Unpaid { column }),
        Ok(None) => Ok(marks),
    }
}

/// The least cover of the open lists of a problem under prices and class prices: the marks of all open lists to which no other mark is at
/// least as good, each once, in rising order. It is a cover, and so no list has a value below minus the price of its class.
///
/// `columns` and `m` are of one problem, and the order of marks tells any two apart. The marks are made first, and a list is searched for
/// only where one of them closes with a value below minus the price of its class.
///
/// # Errors
///
/// `Unpaid` exactly where a list has a value below minus the price of its class: with the first least of the first such class. `Memory`
/// where memory runs out.
pub fn least_cover<C: Columns, M: ValuedLists>(
    alloc: Global,
    columns: &C,
    m: &M,
    class_prices: &[i64],
) -> Result<Seq<M::Mark>, CoverFault>
where
    M::Mark: Ord,
    requires same { M.problem m.now ≡ C.problem columns.now }
    requires apart { TellsMarksApart M.Mark.cmp }
    ensures minimal { IfOk result (λ marks. AreMinimal (M.marking m.now) M.Mark.cmp marks) }
    ensures cover { IfOk result (λ marks. IsMarkCover (M.marking m.now) marks class_prices.now) }
    ensures paid { OnOk result (AreClassesPaid (C.problem columns.now) (M.prices m.now) class_prices.now (length (C.problem columns.now).caps)) }
    ensures unpaid { IfErr result (λ fault. IsUnpaidCause (C.problem columns.now) (M.prices m.now) class_prices.now fault) }
{
    kept_marks_are_minimal::<M>();
    match make_marks(alloc, m) {
        Err(_) => Err(CoverFault::Memory),
        Ok(marks) => marks_of_cover(alloc, columns, m, class_prices, put_in_order(marks)),
    }
}
