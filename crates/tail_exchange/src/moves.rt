//! A step made.

ghost use Rattle.std.specs.Prelude.{◌≡◌, ◌<◌, ◌≤◌, ◌++◌, ◌∷◌, [], length, take, drop, filter, slice_set, IfOk, OnOk, OnErr};
ghost use Rattle.plan_core.specs.Limits.{most_worth};
ghost use Rattle.cover_core.specs.Cover.{AllBelow};
ghost use Rattle.cover_core.specs.Parts.{column_at};
ghost use Rattle.cover_core.specs.FirstLeast.{AreCheap};
ghost use Rattle.tail_exchange.specs.Exchange.{made, has_any, joined, without_empty, swapped, parted, applied};
ghost use Rattle.tail_exchange.specs.Searches.{IsSearchable, IsThere};
ghost use Rattle.tail_exchange.specs.declared.candidate.Kind.TheVariants.{Swap, Cut};

use crate::candidate::{Candidate, Kind};
use crate::joins::{column_of, split_of, worth_of};
use cover_core::{Column, Columns, Items};
use plan_core::{Memory, Seq};
use std::alloc::Global;
use std::mem::replace;

/// A column of a class with a list, and what that is worth.
fn column_of_list<C: Columns>(
    alloc: Global,
    columns: &C,
    class: u32,
    list: &[u32],
) -> Result<Column, Memory>
    requires class { class < length (C.problem columns.now).caps }
    requires items { AllBelow (C.problem columns.now).items list.now }
    ensures made { IfOk result (λ column. column ≡ made (C.problem columns.now) class list.now) }
    ensures cheap { IfOk result (λ column. column.worth ≤ most_worth) }
{
    let worth = worth_of(columns, class, list).unwrap_or(0);
    let items = Items::from_slice(alloc, list)?;
    Ok(Column {
        class,
        worth,
        items,
    })
}

/// A column of a class with two lists as one.
fn made_of_two<C: Columns>(
    alloc: Global,
    columns: &C,
    class: u32,
    front: &[u32],
    tail: &[u32],
) -> Result<Column, Memory>
    requires class { class < length (C.problem columns.now).caps }
    requires front { AllBelow (C.problem columns.now).items front.now }
    requires tail { AllBelow (C.problem columns.now).items tail.now }
    ensures made { IfOk result (λ column. column ≡ made (C.problem columns.now) class (front.now ++ tail.now)) }
    ensures cheap { IfOk result (λ column. column.worth ≤ most_worth) }
{
    let mut list = Vec::from_slice(alloc, front)?;
    list.extend_from_slice(tail)?;
    column_of_list(alloc, columns, class, list.as_slice())
}

/// Takes out the empty columns.
fn remove_empty(alloc: Global, columns: &mut Seq<Column>)
    ensures { columns.new ≡ without_empty columns.old }
{
    let mut list = replace(columns, Seq::new(alloc)).into_vec();
    list.retain(
        |column: &Column| -> bool
            ensures { result ≡ has_any column.now.items }
        { !column.items.as_slice().is_empty() },
    );
    *columns = Seq::from_vec(list);
}

/// Exchanges the tails of two columns.
fn swap<C: Columns>(
    alloc: Global,
    columns: &C,
    plan: &mut Seq<Column>,
    step: Candidate,
) -> Result<(), Memory>
    requires ready { IsSearchable (C.problem columns.now) plan.old }
    requires order { step.a < step.b }
    requires below { step.b < length plan.old }
    requires front { step.i ≤ length (column_at plan.old step.a).items }
    requires tail { step.j ≤ length (column_at plan.old step.b).items }
    ensures ok { OnOk result (plan.new ≡ swapped (C.problem columns.now) plan.old step.a step.b step.i step.j) }
    ensures cheap { OnOk result (AreCheap plan.new) }
    ensures err { OnErr result (plan.new ≡ plan.old) }
{
    let a = column_of(columns, plan.as_slice(), step.a).class;
    let b = column_of(columns, plan.as_slice(), step.b).class;
    let (a_front, a_tail) = split_of(columns, plan.as_slice(), step.a, step.i);
    let (b_front, b_tail) = split_of(columns, plan.as_slice(), step.b, step.j);
    let first = made_of_two(alloc, columns, a, a_front, b_tail)?;
    let second = made_of_two(alloc, columns, b, b_front, a_tail)?;
    plan.set(step.a as usize, first);
    plan.set(step.b as usize, second);
    remove_empty(alloc, plan);
    Ok(())
}

/// Makes the tail of a column into a new one.
fn cut<C: Columns>(
    alloc: Global,
    columns: &C,
    plan: &mut Seq<Column>,
    step: Candidate,
) -> Result<(), Memory>
    requires ready { IsSearchable (C.problem columns.now) plan.old }
    requires below { step.a < length plan.old }
    requires front { step.i < length (column_at plan.old step.a).items }
    requires class { step.j < length (C.problem columns.now).caps }
    ensures ok { OnOk result (plan.new ≡ parted (C.problem columns.now) plan.old step.a step.i step.j) }
    ensures cheap { OnOk result (AreCheap plan.new) }
    ensures err { OnErr result (plan.new ≡ plan.old) }
{
    let class = column_of(columns, plan.as_slice(), step.a).class;
    let (front, tail) = split_of(columns, plan.as_slice(), step.a, step.i);
    let kept = column_of_list(alloc, columns, class, front)?;
    let new = column_of_list(alloc, columns, step.j, tail)?;
    plan.push(new)?;
    plan.set(step.a as usize, kept);
    remove_empty(alloc, plan);
    Ok(())
}

/// Makes a step. After `Memory` the plan is as before.
pub fn apply<C: Columns>(
    alloc: Global,
    columns: &C,
    plan: &mut Seq<Column>,
    step: Candidate,
) -> Result<(), Memory>
    requires ready { IsSearchable (C.problem columns.now) plan.old }
    requires there { IsThere (C.problem columns.now) plan.old step }
    ensures ok { OnOk result (plan.new ≡ applied (C.problem columns.now) plan.old step) }
    ensures cheap { OnOk result (AreCheap plan.new) }
    ensures err { OnErr result (plan.new ≡ plan.old) }
{
    match step.kind {
        Kind::Swap => swap(alloc, columns, plan, step),
        Kind::Cut => cut(alloc, columns, plan, step),
    }
}
