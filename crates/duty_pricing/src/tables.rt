//! The completion bounds of lists with and without a long pause.

ghost use Rattle.std.specs.Prelude.{◌≡◌, ◌≤ℤ◌, ◌+ℤ◌, neg_ℤ, pos, length, IfOk, Some, slice_get};
ghost use Rattle.plan_core.specs.Limits.{most_price};
ghost use Rattle.cover_core.specs.FirstLeast.{AllWithin};
ghost use Rattle.plan_params.specs.Limits.{IsGroup};
ghost use Rattle.duty_pricing.specs.Bounds.{AreBounds, IsReach};

use crate::bounds::{bounds, bounds_over};
use crate::reach::{Reach, last_end};
use crate::rows::Row;
use duty_network::DutyNet;
use plan_core::{Memory, Price};
use plan_params::Group;
use std::alloc::Global;

/// The rows of lists that have had no long pause so far, and of lists that have had one.
#[derive(Drop)]
pub(crate) struct BoundTables {
    pub rows: Vec<Row>,
    pub over: Vec<Row>,
}

/// A copy of rows.
fn copy_of(alloc: Global, rows: &[Row]) -> Result<Vec<Row>, Memory>
    ensures { IfOk result (λ copy. copy.items ≡ rows.now) }
{
    let mut copy = Vec::new(alloc);
    copy.extend_from_slice(rows)?;
    Ok(copy)
}

/// The rows of the pieces from a first one on, where no list signs on later than `latest`. `Memory` is the only error.
///
/// The bounds of lists with a long pause are bounds of all lists. Where driving is not told apart they serve for both, which takes half the
/// time and lets hardly more lists through; and where the group may take the reduced rest both are the same.
pub(crate) fn tables(
    alloc: Global,
    net: &DutyNet<'_>,
    class: u32,
    group: &Group,
    prices: &[Price],
    reach: &Reach,
    latest: i64,
    first: u32,
) -> Result<BoundTables, Memory>
    requires class { slice_get net.now.params.groups class ≡ Some group.now }
    requires ranges { IsGroup group.now }
    requires reach { IsReach reach.now }
    requires prices { length prices.now ≡ length net.now.pieces }
    requires moderate { AllWithin most_price prices.now }
    requires until { reach.now.until ≡ latest +ℤ pos 54000 }
    requires early { neg_ℤ (pos 345600) ≤ℤ latest }
    requires late { latest ≤ℤ pos 345600 }
    ensures { IfOk result (λ tables. AreBounds net.now prices.now group.now reach.now latest first tables.rows.items tables.over.items) }
{
    let followers = net.followers();
    let numbers = followers.points.numbers.as_slice();
    let over = bounds_over(
        alloc,
        net,
        class,
        group,
        prices,
        reach,
        followers,
        numbers,
        first as usize,
    )?;
    let last = last_end(group, latest);
    if reach.width == 1 || group.reduced {
        let rows = copy_of(alloc, over.rows.as_slice())?;
        return Ok(BoundTables {
            rows,
            over: over.rows,
        });
    }
    let rows = bounds(
        alloc,
        net,
        class,
        group,
        prices,
        reach,
        last,
        followers,
        numbers,
        &over,
        first as usize,
    )?;
    Ok(BoundTables {
        rows,
        over: over.rows,
    })
}
