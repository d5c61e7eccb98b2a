//! The table of bounds.

ghost use Rattle.std.specs.Prelude.{◌≡◌, ◌<◌, ◌≤◌, ◌^◌, ◌+◌, ◌∷◌, [], true, All, IfOk, length};
ghost use Rattle.plan_core.specs.Limits.{most_items};
ghost use Rattle.cover_core.specs.FirstLeast.{AreCheap};
ghost use Rattle.cover_core.specs.Plans.{cost};
ghost use Rattle.vdv451_text.specs.Plain.{is_plain_table};
ghost use Rattle.number_tables.specs.Numbers.{number_row as row_of, number_rows};
ghost use Rattle.umlauf_write.specs.Answers.{bound_row as bound_row_of, bound_rows as bound_rows_of, bound_table as bound_table_of, values_of};

use cover_core::{Plan, plan_cost};
use number_tables::{number_row, number_table};
use plan_core::{Memory, Seq};
use std::alloc::Global;
use vdv451_text::{Field, Table};

/// The cost of a plan, which is small.
fn small_cost(plan: &Plan) -> u64
    requires few { length plan.now.columns ≤ most_items }
    requires cheap { AreCheap plan.now.columns }
    ensures value { result ≡ cost plan.now.columns }
    ensures small { result < 2 ^ 63 }
{
    plan_cost(plan)
}

/// The row of a pass.
fn bound_row(alloc: Global, pass: u64, value: u64, bound: u64) -> Result<Seq<Field>, Memory>
    requires pass { pass < 2 ^ 63 }
    requires value { value < 2 ^ 63 }
    requires bound { bound < 2 ^ 63 }
    ensures { IfOk result (λ row. row ≡ row_of (bound_row_of pass value bound)) }
{
    number_row(alloc, &[Some(pass), Some(value), Some(bound)])
}

/// The rows of passes that are numbered from 1, by the numbers and costs of plans.
fn bound_rows(alloc: Global, values: &[u64], bounds: &[u64]) -> Result<Seq<Seq<Field>>, Memory>
    requires many { length bounds.now ≤ length values.now }
    requires few { length values.now ≤ 4 }
    requires values { All (λ value. value < 2 ^ 63) values.now }
    requires bounds { All (λ bound. bound < 2 ^ 63) bounds.now }
    ensures { IfOk result (λ rows. rows ≡ number_rows (bound_rows_of 1 values.now bounds.now)) }
{
    let mut rows = Seq::new(alloc);
    for (place, bound) in bounds.iter().enumerate() {
        rows.push(bound_row(alloc, place as u64 + 1, values[place], *bound)?)?;
    }
    Ok(rows)
}

/// The table X_SCHRANKE of bounds: for each its pass from 1, the number or the cost of the plan, and the bound.
pub(crate) fn bound_table(
    alloc: Global,
    blocks: &Plan,
    duties: &Plan,
    bounds: &[u64],
) -> Result<Table, Memory>
    requires few_blocks { length blocks.now.columns ≤ most_items }
    requires few_duties { length duties.now.columns ≤ most_items }
    requires cheap_blocks { AreCheap blocks.now.columns }
    requires cheap_duties { AreCheap duties.now.columns }
    requires passes { length bounds.now ≤ 4 }
    requires bounds { All (λ bound. bound < 2 ^ 63) bounds.now }
    ensures table { IfOk result (λ table. table ≡ bound_table_of blocks.now.columns duties.now.columns bounds.now) }
    ensures plain { IfOk result (λ table. is_plain_table table ≡ true) }
{
    let values = [
        blocks.columns.len() as u64,
        small_cost(blocks),
        duties.columns.len() as u64,
        small_cost(duties),
    ];
    let rows = bound_rows(alloc, &values, bounds)?;
    number_table(alloc, "X_SCHRANKE", &["ART", "WERT", "SCHRANKE"], rows)
}
