//! The least of all steps, found by threads.

ghost use Rattle.std.specs.Prelude.{◌≡◌, ◌<◌, length};
ghost use Rattle.rayon.specs.Lists.{IsLeast};
ghost use Rattle.tail_exchange.specs.Order.{candidate_cmp};
ghost use Rattle.tail_exchange.specs.Exchange.{steps_of, all_steps};
ghost use Rattle.tail_exchange.specs.Searches.{IsSearchable, ShowsRooms};
ghost use Rattle.tail_exchange.specs.Kept.{ShowsLeasts};

use crate::candidate::Candidate;
use crate::cuts::cuts_of;
use crate::joins::columns_of;
use cover_core::{Column, Columns};
use rayon::prelude::*;
use std::cmp::Ordering;
use std::thread::Threads;

/// The least step whose first column is this one: the kept swap, or a cut before it.
fn least_of<C: Columns>(
    columns: &C,
    plan: &[Column],
    rooms: &[bool],
    leasts: &[Option<Candidate>],
    place: usize,
) -> Option<Candidate>
    requires ready { IsSearchable (C.problem columns.now) plan.now }
    requires rooms { ShowsRooms (C.problem columns.now) plan.now rooms.now }
    requires leasts { ShowsLeasts (C.problem columns.now) plan.now leasts.now }
    requires below { place < length plan.now }
    ensures { IsLeast candidate_cmp (steps_of (C.problem columns.now) plan.now place) result }
{
    let _few = columns_of(columns, plan);
    cuts_of(columns, plan, rooms, place as u32, leasts[place])
}

/// The least of all steps, from the least swap of each column. Each first column is looked at by itself, so that threads can share the
/// work.
pub fn cheapest<R: Threads + Sync, C: Columns + Sync>(
    rt: &R,
    columns: &C,
    plan: &[Column],
    rooms: &[bool],
    leasts: &[Option<Candidate>],
) -> Option<Candidate>
    requires ready { IsSearchable (C.problem columns.now) plan.now }
    requires rooms { ShowsRooms (C.problem columns.now) plan.now rooms.now }
    requires leasts { ShowsLeasts (C.problem columns.now) plan.now leasts.now }
    ensures { IsLeast candidate_cmp (all_steps (C.problem columns.now) plan.now) result }
{
    (0..plan.len())
        .into_par_iter()
        .with_min_len(1)
        .filter_map(
            |place: usize| -> Option<Candidate>
                requires ready { IsSearchable (C.problem columns.now) plan.now }
                requires rooms { ShowsRooms (C.problem columns.now) plan.now rooms.now }
                requires leasts { ShowsLeasts (C.problem columns.now) plan.now leasts.now }
                requires below { place < length plan.now }
                ensures { IsLeast candidate_cmp (steps_of (C.problem columns.entry.now) plan.entry.now place) result }
            { least_of(columns, plan, rooms, leasts, place) },
        )
        .min_by(
            rt,
            |x: &Candidate, y: &Candidate| -> Ordering
                ensures { result ≡ candidate_cmp x.now y.now }
            { x.compare(y) },
        )
}
