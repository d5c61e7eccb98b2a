//! Judges lists that are offered as a plan.
#![tactic(auto)]

ghost use Rattle.std.specs.Prelude.{◌≡◌, ◌<◌, ◌^◌, IfOk, length, map, nat_lt, slice_index};
ghost use Rattle.std.specs.List.{list_all};
ghost use Rattle.cover_core.specs.Plans.{all_items};
ghost use Rattle.plan_check.specs.Counts.{IsFirstOf};
ghost use Rattle.plan_check.specs.Found.{HasPlaceBelow, of_classes, of_worths, worths_of};
ghost use Rattle.plan_check.specs.Judged.{verdict_of, with_worth, worth_in};
ghost use Rattle.plan_check.specs.Verdicts.{HasCheapLists, HasFewLists, IsVerdict};

use crate::counts::{class_counts, first_off, item_counts};
use crate::laws::lists_are_judged;
use crate::verdict::PlanVerdict;
use cover_core::{Column, Columns, Items, Plan};
use plan_core::{Memory, Seq};
use std::alloc::Global;

/// Lists with their worths, or the place of the first list that has none.
#[derive(Drop)]
enum Worths {
    /// The lists with their worths.
    All(Seq<Column>),
    /// The place of the first list without a worth.
    NoneAt(usize),
}

/// Whether the items of a list are there.
fn are_there(count: u32, list: &[u32]) -> bool
    ensures { result ≡ list_all (λ item. nat_lt item count) list.now }
{
    list.iter().all(|item| *item < count)
}

/// The worth of a list as a column of its class: none where the class or an item is not there.
pub(crate) fn worth_of<C: Columns>(columns: &C, list: &Column) -> Option<u64>
    ensures { result ≡ worth_in (C.problem columns.now) list.now }
{
    if list.class >= columns.classes() {
        return None;
    }
    if !are_there(columns.items(), list.items.as_slice()) {
        return None;
    }
    columns.worth(list.class, list.items.as_slice())
}

/// Lists with their worths, or the place of the first list that has none.
fn find_worths<C: Columns>(alloc: Global, columns: &C, lists: &[Column]) -> Result<Worths, Memory>
    ensures worths { IfOk result (λ worths. worths ≡ worths_of (C.problem columns.now) lists.now) }
    ensures within { IfOk result (HasPlaceBelow (length lists.now)) }
{
    let mut found = Seq::new(alloc);
    for (place, list) in lists.iter().enumerate() {
        match worth_of(columns, list) {
            None => return Ok(Worths::NoneAt(place)),
            Some(worth) => found.push(Column {
                class: list.class,
                worth,
                items: Items::from_slice(alloc, list.items.as_slice())?,
            })?,
        }
    }
    Ok(Worths::All(found))
}

/// The first class that has more lists than its cap.
fn first_over<C: Columns>(columns: &C, counts: &[u32]) -> Option<u32>
    requires { length counts.now ≡ length (C.problem columns.now).caps }
    ensures { IsFirstOf (length (C.problem columns.now).caps) (λ class. nat_lt (slice_index (C.problem columns.now).caps class) (slice_index counts.now class)) result }
{
    for class in 0..columns.classes() {
        if columns.cap(class) < counts[class as usize] {
            return Some(class);
        }
    }
    None
}

/// The verdict on lists that have their worths and in which each item stands once: whether a class has too many.
fn check_classes<C: Columns>(
    alloc: Global,
    columns: &C,
    lists: &[Column],
    found: Seq<Column>,
) -> Result<PlanVerdict, Memory>
    requires lists { length lists.now < 2 ^ 32 }
    requires found { found ≡ map (with_worth (C.problem columns.now)) lists.now }
    ensures verdict { IfOk result (λ verdict. verdict ≡ of_classes (C.problem columns.now) lists.now) }
    ensures cheap { IfOk result HasCheapLists }
{
    let counts = class_counts(alloc, columns.classes(), lists)?;
    match first_over(columns, counts.as_slice()) {
        Some(class) => Ok(PlanVerdict::Over {
            class,
            used: counts[class as usize],
        }),
        None => Ok(PlanVerdict::Lawful(Plan { columns: found })),
    }
}

/// The verdict on lists in which each item stands once.
fn check_worths<C: Columns>(
    alloc: Global,
    columns: &C,
    lists: &[Column],
) -> Result<PlanVerdict, Memory>
    requires { length lists.now < 2 ^ 32 }
    ensures verdict { IfOk result (λ verdict. verdict ≡ of_worths (C.problem columns.now) lists.now) }
    ensures cheap { IfOk result HasCheapLists }
{
    match find_worths(alloc, columns, lists)? {
        Worths::NoneAt(place) => Ok(PlanVerdict::Unlawful {
            place: place as u32,
        }),
        Worths::All(found) => check_classes(alloc, columns, lists, found),
    }
}

/// The verdict on lists, as it is defined by computing it.
fn judge<C: Columns>(alloc: Global, columns: &C, lists: &[Column]) -> Result<PlanVerdict, Memory>
    requires lists { length lists.now < 2 ^ 32 }
    requires items { length (all_items lists.now) < 2 ^ 32 }
    ensures verdict { IfOk result (λ verdict. verdict ≡ verdict_of (C.problem columns.now) lists.now) }
    ensures few { IfOk result HasFewLists }
    ensures cheap { IfOk result HasCheapLists }
{
    let counts = item_counts(alloc, columns.items(), lists)?;
    match first_off(counts.as_slice()) {
        Some(item) => Ok(PlanVerdict::Times {
            item: item as u32,
            count: counts[item],
        }),
        None => check_worths(alloc, columns, lists),
    }
}

/// What is found of lists that are offered as a plan of a problem, whatever worths they state: they are one, with the worths that the
/// problem gives, or the first cause why they are none. A list whose class or one of whose items is not there has no worth. A plan has at
/// most 3,000 lists, each worth at most 4,000,000,000 cost units.
///
/// It takes time in the order of the items and classes and of the lengths of the lists, beside one call of `worth` for each list.
///
/// # Errors
///
/// `Memory` where memory runs out, and for nothing else.
pub fn check_plan<C: Columns>(
    alloc: Global,
    columns: &C,
    lists: &[Column],
) -> Result<PlanVerdict, Memory>
    requires lists { length lists.now < 2 ^ 32 }
    requires items { length (all_items lists.now) < 2 ^ 32 }
    ensures verdict { IfOk result (λ verdict. IsVerdict (C.problem columns.now) lists.now verdict) }
    ensures few { IfOk result HasFewLists }
    ensures cheap { IfOk result HasCheapLists }
{
    lists_are_judged::<C>();
    judge(alloc, columns, lists)
}
