//! What is fixed on the way down.

ghost use Rattle.std.specs.Prelude.{pos, ◌*◌, ◌≡◌, ◌<◌, ◌≤◌, ◌∷◌, [], length, IfOk, OnOk};
ghost use Rattle.plan_core.specs.Limits.{most_worth};
ghost use Rattle.cover_core.specs.Cover.{AllBelow};
ghost use Rattle.price_rounds.specs.Steps.{AreReady};
ghost use Rattle.worker_price.specs.Work.{ArePricesFor};
ghost use Rattle.plan_dive.specs.Grounds.{IsGround, IsRest};
ghost use Rattle.plan_dive.specs.Descents.{IsDescent};

use crate::ground::{Ground, open_rest};
use cover_core::{Column, Columns, Items, Prices};
use lagrangian_climb::Rest;
use plan_core::{Memory, Seq};
use std::alloc::Global;

/// The columns that are fixed, and what they leave of the problem.
#[derive(Drop)]
pub(crate) struct Descent {
    /// What is left.
    pub(crate) rest: Rest,
    /// The columns that are fixed, in their order.
    pub(crate) fixed: Seq<Column>,
}

/// A copy of a column. `Memory` is the only error.
pub fn copy_column(alloc: Global, column: &Column) -> Result<Column, Memory>
    ensures { IfOk result (λ copy. copy ≡ column.now) }
{
    let items = Items::from_slice(alloc, column.items.as_slice())?;
    Ok(Column {
        class: column.class,
        worth: column.worth,
        items,
    })
}

/// Copies of columns. `Memory` is the only error.
pub fn copy_all(alloc: Global, columns: &[Column]) -> Result<Seq<Column>, Memory>
    ensures { IfOk result (λ copies. copies ≡ columns.now) }
{
    let mut copies = Seq::new(alloc);
    for column in columns {
        copies.push(copy_column(alloc, column)?)?;
    }
    Ok(copies)
}

/// Puts a column of a problem behind others. `Memory` is the only error.
pub fn push_column<C: Columns>(
    _problem: &C,
    columns: &mut Seq<Column>,
    column: Column,
) -> Result<(), Memory>
    requires columns { AreReady (C.problem _problem.now) columns.old }
    requires column { AreReady (C.problem _problem.now) (column ∷ []) }
    ensures { OnOk result (AreReady (C.problem _problem.now) columns.new) }
{
    columns.push(column)?;
    Ok(())
}

/// Fixes the items of a list.
fn fix_items(fixed: &mut Seq<bool>, list: &[u32])
    requires { AllBelow (length fixed.old) list.now }
    ensures { length fixed.new ≡ length fixed.old }
{
    for item in list {
        fixed.set(*item as usize, true);
    }
}

/// Takes a place of a class.
fn take_place(caps: &mut Seq<u32>, class: u32)
    requires { class < length caps.old }
    ensures { length caps.new ≡ length caps.old }
{
    let places = caps.as_slice()[class as usize];
    caps.set(class as usize, places.saturating_sub(1));
}

/// A thousand times what a column is worth.
fn thousandfold(worth: u64) -> i64
    requires { worth ≤ most_worth }
    ensures { result ≡ pos (1000 * worth) }
{
    1000 * worth as i64
}

/// Fixes a column: its items, a place of its class, and its worth.
pub(crate) fn fix<C: Columns>(
    alloc: Global,
    problem: &C,
    descent: &mut Descent,
    column: &Column,
) -> Result<(), Memory>
    requires descent { IsDescent (C.problem problem.now) descent.old }
    requires column { AreReady (C.problem problem.now) (column.now ∷ []) }
    ensures { OnOk result (IsDescent (C.problem problem.now) descent.new) }
{
    fix_items(&mut descent.rest.fixed, column.items.as_slice());
    take_place(&mut descent.rest.caps, column.class);
    descent.rest.aim = descent.rest.aim.saturating_sub(thousandfold(column.worth));
    push_column(problem, &mut descent.fixed, copy_column(alloc, column)?)
}

/// The start of a dive: the columns that stay are fixed. The aim is that of a whole plan, in thousandths of a cost unit.
pub(crate) fn begin<C: Columns>(
    alloc: Global,
    problem: &C,
    ground: &Ground,
    stay: &[Column],
    aim: i64,
) -> Result<Descent, Memory>
    requires ground { IsGround (C.problem problem.now) ground.now }
    requires stay { AreReady (C.problem problem.now) stay.now }
    ensures { IfOk result (IsDescent (C.problem problem.now)) }
{
    let mut descent = Descent {
        rest: open_rest(alloc, problem, ground, aim)?,
        fixed: Seq::new(alloc),
    };
    for column in stay {
        fix(alloc, problem, &mut descent, column)?;
    }
    Ok(descent)
}

/// How many items are not fixed.
pub(crate) fn free_items(fixed: &[bool]) -> usize
    ensures { result ≤ length fixed.now }
{
    let mut free = 0;
    for is_fixed in fixed {
        if !*is_fixed {
            free += 1;
        }
    }
    free
}
