//! The rows of pools and of groups of drivers. The first has the first depot, and the second the second.

ghost use Rattle.std.specs.Prelude.{◌≡◌, ◌≤◌, ◌+◌, ◌++◌, ◌∷◌, [], OnOk};
ghost use Rattle.day_maker.specs.Made as made;
ghost use Rattle.day_maker.specs.Made.{rows_of};

use crate::cells::{Cell, add};
use plan_core::{Memory, Seq};
use std::alloc::Global;
use vdv451_text::Field;

/// Puts behind others the row of a pool of as many vehicles as trips.
pub(crate) fn add_pool(
    alloc: Global,
    rows: &mut Seq<Seq<Field>>,
    number: u64,
    trips: u32,
) -> Result<(), Memory>
    requires { number ≤ 1000 }
    ensures { OnOk result (rows.new ≡ rows.old ++ rows_of (made.pool_row number (100 + number) trips ∷ [])) }
{
    add(
        alloc,
        rows,
        &[
            Cell::Number(number),
            Cell::Number(2),
            Cell::Number(100 + number),
            Cell::Number(1),
            Cell::Number(u64::from(trips)),
            Cell::Number(100_000),
            Cell::Number(20),
            Cell::Number(5),
        ],
    )
}

/// Puts behind others the row of a group of as many drivers as trips.
pub(crate) fn add_group(
    alloc: Global,
    rows: &mut Seq<Seq<Field>>,
    number: u64,
    trips: u32,
) -> Result<(), Memory>
    requires { number ≤ 1000 }
    ensures { OnOk result (rows.new ≡ rows.old ++ rows_of (made.group_row number (100 + number) trips ∷ [])) }
{
    add(
        alloc,
        rows,
        &[
            Cell::Number(number),
            Cell::Number(2),
            Cell::Number(100 + number),
            Cell::Number(u64::from(trips)),
            Cell::Number(20_000),
            Cell::Number(5),
            Cell::Number(600),
            Cell::Number(300),
        ],
    )
}
