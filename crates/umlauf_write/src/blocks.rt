//! The tables of blocks.

ghost use Rattle.std.specs.Prelude.{◌≡◌, ◌<◌, ◌≤◌, true, All, IfOk, length};
ghost use Rattle.plan_core.specs.Limits.{most_items, most_worth};
ghost use Rattle.vdv451_text.specs.Plain.{is_plain_table};
ghost use Rattle.cover_core.specs.FirstLeast.{AreCheap};
ghost use Rattle.number_tables.specs.Numbers.{number_row as row_of, number_rows};
ghost use Rattle.umlauf_write.specs.Tables.{block_numbers, block_row as block_row_of, block_table as block_table_of, cost_numbers, cost_row as cost_row_of, cost_table as cost_table_of, numbered};

use cover_core::Column;
use day_model::Day;
use number_tables::{number_row, number_table};
use plan_core::{Memory, Seq};
use plan_params::Pool;
use std::alloc::Global;
use vdv451_text::{Field, Table};

/// The row of a block in REC_UMLAUF.
fn block_row(alloc: Global, day: &Day, number: u32, pool: &Pool) -> Result<Seq<Field>, Memory>
    ensures { IfOk result (λ row. row ≡ row_of (block_numbers day.now number pool.now)) }
{
    let kind = day.kind();
    number_row(
        alloc,
        &[
            Some(u64::from(kind.version)),
            Some(u64::from(kind.kind)),
            Some(u64::from(number)),
            Some(u64::from(pool.depot.nr)),
            Some(u64::from(pool.depot.typ)),
            Some(u64::from(pool.depot.nr)),
            Some(u64::from(pool.depot.typ)),
            Some(u64::from(pool.typ)),
        ],
    )
}

/// The rows of REC_UMLAUF.
fn block_rows(alloc: Global, day: &Day, blocks: &[Column]) -> Result<Seq<Seq<Field>>, Memory>
    requires few { length blocks.now ≤ most_items }
    requires classes { All (λ block. block.class < length day.now.params.pools) blocks.now }
    ensures { IfOk result (λ rows. rows ≡ number_rows (numbered (block_row_of day.now) 1 blocks.now)) }
{
    let pools = day.params().pools();
    let mut rows = Seq::new(alloc);
    for (place, block) in blocks.iter().enumerate() {
        let pool = &pools[block.class as usize];
        rows.push(block_row(alloc, day, place as u32 + 1, pool)?)?;
    }
    Ok(rows)
}

/// The row of a block in X_UMLAUF.
fn cost_row(alloc: Global, number: u32, pool: &Pool, cost: u64) -> Result<Seq<Field>, Memory>
    requires { cost ≤ most_worth }
    ensures { IfOk result (λ row. row ≡ row_of (cost_numbers number pool.now cost)) }
{
    number_row(
        alloc,
        &[
            Some(u64::from(number)),
            Some(u64::from(pool.number)),
            Some(cost),
        ],
    )
}

/// The rows of X_UMLAUF.
fn cost_rows(alloc: Global, day: &Day, blocks: &[Column]) -> Result<Seq<Seq<Field>>, Memory>
    requires few { length blocks.now ≤ most_items }
    requires classes { All (λ block. block.class < length day.now.params.pools) blocks.now }
    requires cheap { AreCheap blocks.now }
    ensures { IfOk result (λ rows. rows ≡ number_rows (numbered (cost_row_of day.now) 1 blocks.now)) }
{
    let pools = day.params().pools();
    let mut rows = Seq::new(alloc);
    for (place, block) in blocks.iter().enumerate() {
        let pool = &pools[block.class as usize];
        rows.push(cost_row(alloc, place as u32 + 1, pool, block.worth)?)?;
    }
    Ok(rows)
}

/// The table REC_UMLAUF of blocks: for each the version and day type of the day, its number from 1, the points where it begins and ends,
/// and the type of its vehicle.
pub(crate) fn block_table(alloc: Global, day: &Day, blocks: &[Column]) -> Result<Table, Memory>
    requires few { length blocks.now ≤ most_items }
    requires classes { All (λ block. block.class < length day.now.params.pools) blocks.now }
    ensures table { IfOk result (λ table. table ≡ block_table_of day.now blocks.now) }
    ensures plain { IfOk result (λ table. is_plain_table table ≡ true) }
{
    let rows = block_rows(alloc, day, blocks)?;
    number_table(
        alloc,
        "REC_UMLAUF",
        &[
            "BASIS_VERSION",
            "TAGESART_NR",
            "UM_UID",
            "ANF_ORT",
            "ANF_ONR_TYP",
            "END_ORT",
            "END_ONR_TYP",
            "FZG_TYP_NR",
        ],
        rows,
    )
}

/// The table X_UMLAUF of blocks: for each its number from 1, its pool and its cost.
pub(crate) fn cost_table(alloc: Global, day: &Day, blocks: &[Column]) -> Result<Table, Memory>
    requires few { length blocks.now ≤ most_items }
    requires classes { All (λ block. block.class < length day.now.params.pools) blocks.now }
    requires cheap { AreCheap blocks.now }
    ensures table { IfOk result (λ table. table ≡ cost_table_of day.now blocks.now) }
    ensures plain { IfOk result (λ table. is_plain_table table ≡ true) }
{
    let rows = cost_rows(alloc, day, blocks)?;
    number_table(alloc, "X_UMLAUF", &["UM_UID", "HOF_NR", "KOSTEN"], rows)
}
