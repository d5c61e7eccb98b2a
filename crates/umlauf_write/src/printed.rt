//! Blocks in printed order.

ghost use Rattle.std.specs.Prelude.{◌≡◌, IfOk};
ghost use Rattle.cover_core.specs.Cover.{Problem};
ghost use Rattle.cover_core.specs.FirstLeast.{AreCheap};
ghost use Rattle.cover_core.specs.Plans.{IsPlan};
ghost use Rattle.umlauf_write.specs.Printed.{first_item as first_item_of, first_of_column, printed};

use cover_core::{Column, Plan};
use plan_core::{Memory, Seq};

/// The first item of a list, or 0 where it is empty.
fn first_item(items: &[u32]) -> u32
    ensures { result ≡ first_item_of items.now }
{
    match items {
        [] => 0,
        [first, ..] => *first,
    }
}

fn first_of(column: &Column) -> u32
    ensures { result ≡ first_of_column column.now }
{
    first_item(column.items.as_slice())
}

/// A plan in printed order: its columns by their first items. `Memory` is the only error.
pub fn in_printed_order(plan: Plan) -> Result<Plan, Memory>
    ensures order { IfOk result (λ sorted. sorted.columns ≡ printed plan.columns) }

    // A plan stays a plan, and cheap columns stay cheap.
    ensures plan { (p : Problem) → IsPlan p plan.columns → IfOk result (λ sorted. IsPlan p sorted.columns) }
    ensures cheap { AreCheap plan.columns → IfOk result (λ sorted. AreCheap sorted.columns) }
{
    let mut columns = plan.columns.into_vec();
    columns.sort_by_key(|column| first_of(column))?;
    Ok(Plan {
        columns: Seq::from_vec(columns),
    })
}
