//! Steps made one after another.

ghost use Rattle.std.specs.Prelude.{◌≡◌, ◌<◌, ◌≤◌, ◌<ℤ◌, pos, length, IfOk, OnOk, OnErr};
ghost use Rattle.cover_core.specs.Plans.{IsPlan, cost, times, all_classes};
ghost use Rattle.cover_core.specs.FirstLeast.{AreCheap};
ghost use Rattle.cover_core.specs.Parts.{has_place};
ghost use Rattle.rayon.specs.Lists.{IsLeast};
ghost use Rattle.tail_exchange.specs.Order.{candidate_cmp};
ghost use Rattle.tail_exchange.specs.Exchange.{all_steps, applied, IsStep, Leads, LeadsSome, NoneLowers};
ghost use Rattle.tail_exchange.specs.Searches.{IsSearchable, ShowsRooms, IsStepOrNone};
ghost use Rattle.tail_exchange.specs.Kept.{ShowsLeasts};

use crate::candidate::Candidate;
use crate::kept::{all_leasts, leasts_after};
use crate::laws::steps_keep_plans;
use crate::moves::apply;
use crate::search::cheapest;
use crate::shifts::shift_of;
use cover_core::{Column, Columns, Plan};
use plan_core::{Memory, Seq};
use std::alloc::Global;
use std::thread::Threads;

/// How many columns of a class there are.
fn count_of(plan: &[Column], class: u32) -> usize
    ensures { result ≡ times class (all_classes plan.now) }
{
    let mut count = 0;
    for column in plan {
        if column.class == class {
            count += 1;
        }
    }
    count
}

/// Which of so many classes have a place left.
fn rooms<C: Columns>(
    alloc: Global,
    columns: &C,
    classes: u32,
    plan: &[Column],
) -> Result<Seq<bool>, Memory>
    requires { classes ≡ length (C.problem columns.now).caps }
    ensures { IfOk result (ShowsRooms (C.problem columns.now) plan.now) }
{
    let mut rooms = Seq::new(alloc);
    for class in 0..classes {
        rooms.push(count_of(plan, class) < columns.cap(class) as usize)?;
    }
    Ok(rooms)
}

/// Makes the least step. After `Memory` the plan is as before.
fn take<C: Columns>(
    alloc: Global,
    columns: &C,
    plan: &mut Seq<Column>,
    step: Candidate,
) -> Result<(), Memory>
    requires ready { IsSearchable (C.problem columns.now) plan.old }
    requires least { IsLeast candidate_cmp (all_steps (C.problem columns.now) plan.old) (Some step) }
    ensures made { OnOk result (plan.new ≡ applied (C.problem columns.now) plan.old step) }
    ensures ready { IsSearchable (C.problem columns.now) plan.new }
    ensures memory { OnErr result (plan.new ≡ plan.old) }
{
    apply(alloc, columns, plan, step)?;
    Ok(())
}

/// Makes the least step, which lowers the cost, and brings the least swaps up to date: those that it touches are made anew. After
/// `Memory` the plan is as before or the step is made, and the least swaps are of no more use.
fn make<R: Threads + Sync, C: Columns + Sync>(
    rt: &R,
    alloc: Global,
    columns: &C,
    plan: &mut Seq<Column>,
    leasts: &mut Vec<Option<Candidate>>,
    step: Candidate,
) -> Result<(), Memory>
    requires ready { IsSearchable (C.problem columns.now) plan.old }
    requires leasts { ShowsLeasts (C.problem columns.now) plan.old leasts.old.items }
    requires least { IsLeast candidate_cmp (all_steps (C.problem columns.now) plan.old) (Some step) }
    requires lowers { step.change <ℤ pos 0 }
    ensures step { OnOk result (IsStep (C.problem columns.now) plan.old plan.new) }
    ensures leasts { OnOk result (ShowsLeasts (C.problem columns.now) plan.new leasts.new.items) }
    ensures ready { IsSearchable (C.problem columns.now) plan.new }
    ensures memory { OnErr result (LeadsSome (C.problem columns.now) 1 plan.old plan.new) }
{
    let shift = shift_of(columns, plan.as_slice(), step);
    take(alloc, columns, plan, step)?;
    *leasts = if plan.len() == shift.len as usize {
        leasts_after(
            rt,
            alloc,
            columns,
            plan.as_slice(),
            shift,
            leasts.as_slice(),
        )?
    } else {
        all_leasts(rt, alloc, columns, plan.as_slice())?
    };
    Ok(())
}

/// Finds the least step and makes it where it lowers the cost; else the answer is false. The least swaps stay those of the plan, but
/// after `Memory`, where the plan is as before or the step is made.
fn make_step<R: Threads + Sync, C: Columns + Sync>(
    rt: &R,
    alloc: Global,
    columns: &C,
    classes: u32,
    plan: &mut Seq<Column>,
    leasts: &mut Vec<Option<Candidate>>,
) -> Result<bool, Memory>
    requires classes { classes ≡ length (C.problem columns.now).caps }
    requires ready { IsSearchable (C.problem columns.now) plan.old }
    requires leasts { ShowsLeasts (C.problem columns.now) plan.old leasts.old.items }
    ensures step { IfOk result (IsStepOrNone (C.problem columns.now) plan.old plan.new) }
    ensures leasts { OnOk result (ShowsLeasts (C.problem columns.now) plan.new leasts.new.items) }
    ensures ready { IsSearchable (C.problem columns.now) plan.new }
    ensures memory { OnErr result (LeadsSome (C.problem columns.now) 1 plan.old plan.new) }
{
    let rooms = rooms(alloc, columns, classes, plan.as_slice())?;
    match cheapest(
        rt,
        columns,
        plan.as_slice(),
        rooms.as_slice(),
        leasts.as_slice(),
    ) {
        None => Ok(false),
        Some(step) => {
            if step.lowers() {
                make(rt, alloc, columns, plan, leasts, step)?;
                Ok(true)
            } else {
                Ok(false)
            }
        }
    }
}

/// Improves a plan by exchange steps, at most so many, and answers how many were made. Each is the step that changes the cost least, and
/// lowers it. On ties swaps come before cuts, and each kind goes by its numbers:
/// - the swap (a, b, i, j) of columns a before b: a becomes its first i items and b's items from j on, b becomes its first j items and a's
///   items from i on; classes stay;
/// - the cut (a, i, k) of column a at an item of it, k a class with a place left, and not at the first item into a's own class: a keeps its
///   first i items, and the others become a new column of class k, put last.
///
/// The changed columns have a worth or are empty, and empty columns vanish. Fewer steps than allowed are made only where none lowers the
/// cost. Any number of threads gives the same. After `Memory`, which is the only error, the plan is one that some of the steps lead to.
///
/// It costs one search over all pairs of columns at the start. A step then takes time with the columns and not with their pairs: all cuts
/// are looked at, each column with the one or two that the last step changed, and with all behind it only those columns that were changed
/// or whose least swap was with one of them.
pub fn improve<R: Threads + Sync, C: Columns + Sync>(
    rt: &R,
    alloc: Global,
    columns: &C,
    plan: &mut Plan,
    steps: u32,
) -> Result<u32, Memory>
    requires plan { IsPlan (C.problem columns.now) plan.old.columns }
    ensures steps { IfOk result (λ made. Leads (C.problem columns.now) made plan.old.columns plan.new.columns) }
    ensures few { IfOk result (λ made. made ≤ steps) }
    ensures end { IfOk result (λ made. made < steps → NoneLowers (C.problem columns.now) plan.new.columns) }
    ensures memory { OnErr result (LeadsSome (C.problem columns.now) steps plan.old.columns plan.new.columns) }
    ensures plan { IsPlan (C.problem columns.now) plan.new.columns }
    ensures cheap { AreCheap plan.new.columns }
    ensures cost { cost plan.new.columns ≤ cost plan.old.columns }
{
    steps_keep_plans::<C>();
    let classes = columns.classes();
    if steps == 0 {
        return Ok(0);
    }
    let mut leasts = all_leasts(rt, alloc, columns, plan.columns.as_slice())?;
    for made in 0..steps {
        if !make_step(rt, alloc, columns, classes, &mut plan.columns, &mut leasts)? {
            return Ok(made);
        }
    }
    Ok(steps)
}
