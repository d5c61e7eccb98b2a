//! The columns of a plan, and lists that are joined of the initial part of one and the tail of another.

ghost use Rattle.std.specs.Prelude.{◌≡◌, ◌<◌, ◌≤◌, ◌+◌, ◌++◌, length, take, drop, IfSome};
ghost use Rattle.std.specs.Bool.{OnTrue, OnFalse};
ghost use Rattle.plan_core.specs.Limits.{most_items, most_worth};
ghost use Rattle.cover_core.specs.Cover.{AllBelow, Rises};
ghost use Rattle.cover_core.specs.Plans.{IsPlan};
ghost use Rattle.cover_core.specs.Parts.{column_at};
ghost use Rattle.tail_exchange.specs.Exchange.{worth_of};
ghost use Rattle.tail_exchange.specs.Searches.{IsSearchable};

use arrayvec::ArrayVec;
use cover_core::{Column, Columns, plan_sizes};

/// How many columns a plan has.
pub fn columns_of<C: Columns>(columns: &C, plan: &[Column]) -> u32
    requires { IsPlan (C.problem columns.now) plan.now }
    ensures value { result ≡ length plan.now }
    ensures few { result ≤ most_items }
{
    let _items = columns.items();
    plan_sizes::<C>();
    plan.len() as u32
}

/// The column at a place of a plan.
pub fn column_of<'a, C: Columns>(columns: &C, plan: &'a [Column], place: u32) -> &'a Column
    requires ready { IsSearchable (C.problem columns.now) plan.now }
    requires place { place < length plan.now }
    ensures is { result.now ≡ column_at plan.now place }
    ensures class { result.now.class < length (C.problem columns.now).caps }
    ensures worth { result.now.worth ≤ most_worth }
    ensures few { length result.now.items ≤ most_items }
{
    let _items = columns.items();
    &plan[place as usize]
}

/// How many items the column at a place of a plan has.
pub fn len_of<C: Columns>(columns: &C, plan: &[Column], place: u32) -> u32
    requires ready { IsSearchable (C.problem columns.now) plan.now }
    requires place { place < length plan.now }
    ensures value { result ≡ length (column_at plan.now place).items }
    ensures few { result ≤ most_items }
{
    let column = column_of(columns, plan, place);
    column.items.as_slice().len() as u32
}

/// The initial part and the tail of the column at a place of a plan.
pub fn split_of<'a, C: Columns>(
    columns: &C,
    plan: &'a [Column],
    place: u32,
    at: u32,
) -> (&'a [u32], &'a [u32])
    requires ready { IsSearchable (C.problem columns.now) plan.now }
    requires place { place < length plan.now }
    requires at { at ≤ length (column_at plan.now place).items }
    ensures front { result.0.now ≡ take at (column_at plan.now place).items }
    ensures tail { result.1.now ≡ drop at (column_at plan.now place).items }
    ensures front_rises { Rises result.0.now }
    ensures tail_rises { Rises result.1.now }
    ensures front_items { AllBelow (C.problem columns.now).items result.0.now }
    ensures tail_items { AllBelow (C.problem columns.now).items result.1.now }
{
    let column = column_of(columns, plan, place);
    column.items.as_slice().split_at(at as usize)
}

/// What a list is worth; an empty one costs nothing, since its column vanishes.
pub fn worth_of<C: Columns>(columns: &C, class: u32, list: &[u32]) -> Option<u64>
    requires class { class < length (C.problem columns.now).caps }
    requires items { AllBelow (C.problem columns.now).items list.now }
    ensures value { result ≡ worth_of (C.problem columns.now) class list.now }
    ensures bound { IfSome result (λ worth. worth ≤ most_worth) }
{
    if list.is_empty() {
        Some(0)
    } else {
        columns.worth(class, list)
    }
}

/// Whether two lists that rise do so as one: else they have no worth together.
pub fn may_join(front: &[u32], tail: &[u32]) -> bool
    requires front { Rises front.now }
    requires tail { Rises tail.now }
    ensures rises { OnTrue result (Rises (front.now ++ tail.now)) }
    ensures apart { OnFalse result (Rises (front.now ++ tail.now) → ⊥) }
{
    front.is_empty() || tail.is_empty() || front[front.len() - 1] < tail[0]
}

/// Puts items behind a list.
fn append(list: &mut ArrayVec<u32, 3000>, more: &[u32])
    requires { length list.old.items + length more.now ≤ most_items }
    ensures { list.new.items ≡ list.old.items ++ more.now }
{
    let _ = list.try_extend_from_slice(more);
}

/// What two lists are worth as one. They are put into `list`, which asks for no memory.
pub fn joined_worth<C: Columns>(
    columns: &C,
    class: u32,
    front: &[u32],
    tail: &[u32],
    list: &mut ArrayVec<u32, 3000>,
) -> Option<u64>
    requires class { class < length (C.problem columns.now).caps }
    requires front { AllBelow (C.problem columns.now).items front.now }
    requires tail { AllBelow (C.problem columns.now).items tail.now }
    requires rises { Rises (front.now ++ tail.now) }
    ensures value { result ≡ worth_of (C.problem columns.now) class (front.now ++ tail.now) }
    ensures bound { IfSome result (λ worth. worth ≤ most_worth) }
{
    let _items = columns.items();
    list.clear();
    append(list, front);
    append(list, tail);
    worth_of(columns, class, list.as_slice())
}
