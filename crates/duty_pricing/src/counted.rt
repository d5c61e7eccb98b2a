//! The best duty where duties are counted.
//!
//! Then most duties of a group that close with the least value do so alike, and to tell the first of them apart takes most of the time. So the
//! value is looked for first, and with it where a duty ends that has it. The first least duty ends no later, and labels for those that end
//! there or earlier have bounds that know of no later piece.

ghost use Rattle.std.specs.Prelude.{◌≡◌, ◌<◌, ◌≤◌, ◌-◌, ◌*◌, ◌++◌, take, replicate, length, IfOk, IfSome};
ghost use Rattle.plan_core.specs.Limits.{most_price, most_worth};
ghost use Rattle.cover_core.specs.Best.{best_of, within};
ghost use Rattle.cover_core.specs.FirstLeast.{AllWithin};
ghost use Rattle.duty_network.specs.Duties.{duties};
ghost use Rattle.duty_pricing.specs.Early.{priced_before};

use crate::labels::DutyLabels;
use cover_core::Column;
use duty_network::DutyNet;
use label_dive::{dive_from_each, likely};
use label_search::best_column;
use plan_core::{Memory, Price};
use std::alloc::Global;
use tie_search::{Closing, best_column_by_value, first_closing};

/// The prices of the pieces before an end, and of the others the least price that there is: no list that is worth its while goes on with them.
fn prices_before(alloc: Global, prices: &[Price], end: usize) -> Result<Vec<Price>, Memory>
    requires { end ≤ length prices.now }
    ensures { IfOk result (λ early. early.items ≡ priced_before end prices.now) }
{
    let mut early = Vec::new(alloc);
    early.extend_from_slice(&prices[..end])?;
    early.resize(prices.len(), Price(-10_000_000_000_000))?;
    Ok(early)
}

/// The first least duty of a class and group, where its value is at most the limit: the same in each net, and quick in one where duties are
/// counted.
pub(crate) fn best_counted(
    alloc: Global,
    net: &DutyNet<'_>,
    class: u32,
    prices: &[Price],
    group: u32,
    limit: i64,
) -> Result<Option<Column>, Memory>
    requires class { class < length net.now.params.groups }
    requires prices { length prices.now ≡ length net.now.pieces }
    requires moderate { AllWithin most_price prices.now }
    requires group { 16 * group < length net.now.pieces }
    ensures best { IfOk result (λ answer. answer ≡ within limit prices.now (best_of (duties net.now) prices.now class group)) }
    ensures bound { IfOk result (λ answer. IfSome answer (λ column. column.worth ≤ most_worth)) }
{
    net.fits();
    let first = 16 * group;
    let labels = DutyLabels::new(alloc, net, class, prices, first, first + 16, true)?;
    let likely = likely(dive_from_each(&labels, limit), limit, [50, 75]);
    match first_closing(alloc, &labels, &likely, limit)? {
        None => best_column(alloc, net, &labels, class, &[], limit),
        Some(Closing { value, end }) => {
            let end = end.min(net.pieces().len() as u32);
            let before = prices_before(alloc, prices, end as usize)?;
            let early = DutyLabels::new(
                alloc,
                net,
                class,
                before.as_slice(),
                first,
                first + 16,
                true,
            )?;
            let closing = Closing { value, end };
            best_column_by_value(alloc, net, &labels, &early, class, closing, limit)
        }
    }
}
