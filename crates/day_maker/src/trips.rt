//! Trips at drawn departures.

ghost use Rattle.std.specs.Prelude.{◌≡◌, ◌<◌, ◌≤◌, ◌^◌, ◌++◌, ◌∷◌, [], IfOk, OnOk};
ghost use Rattle.plan_core.specs.Limits.{most_items};
ghost use Rattle.day_maker.specs.Made.{first_state as first_state_of, rows_of, trip_row as trip_row_of, trip_rows as trip_rows_of};

use crate::cells::{Cell, add};
use crate::drawing::{first_state, next_state, number_below};
use plan_core::{Memory, Seq};
use std::alloc::Global;
use vdv451_text::Field;

/// Puts behind others the row of a trip, by the states of its three draws.
fn add_trip(
    alloc: Global,
    rows: &mut Seq<Seq<Field>>,
    fid: u64,
    line: u64,
    variant: u64,
    departure: u64,
) -> Result<(), Memory>
    requires { fid ≤ 1000000 }
    ensures { OnOk result (rows.new ≡ rows.old ++ rows_of (trip_row_of fid line variant departure ∷ [])) }
{
    let one = Cell::Number(1);
    add(
        alloc,
        rows,
        &[
            one,
            Cell::Number(fid),
            Cell::Number(18_000 + 60 * number_below(departure, 960)),
            Cell::Number(1 + number_below(line, 7)),
            one,
            one,
            one,
            Cell::Variant(number_below(variant, 2) == 0),
            Cell::Nothing,
        ],
    )
}

/// The rows of so many trips of a seed.
pub(crate) fn trip_rows(alloc: Global, seed: u32, trips: u32) -> Result<Seq<Seq<Field>>, Memory>
    requires { trips ≤ most_items }
    ensures { IfOk result (λ rows. rows ≡ rows_of (trip_rows_of trips 1 (first_state_of seed))) }
{
    let mut rows = Seq::new(alloc);
    let mut state = first_state(seed);
    for number in 0..trips {
        let line = next_state(state);
        let variant = next_state(line);
        let departure = next_state(variant);
        add_trip(
            alloc,
            &mut rows,
            u64::from(number) + 1,
            line,
            variant,
            departure,
        )?;
        state = departure;
    }
    Ok(rows)
}
