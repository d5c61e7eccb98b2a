//! The pricer of duties.

ghost use Rattle.std.specs.Prelude.{◌≡◌, ◌<◌, ◌≤◌, ◌*◌, length, IfOk, IfSome};
ghost use Rattle.plan_core.specs.Limits.{most_price, most_worth};
ghost use Rattle.cover_core.specs.Best.{best_of, within};
ghost use Rattle.cover_core.specs.FirstLeast.{AllWithin};
ghost use Rattle.duty_network.specs.Duties.{duties};

use crate::counted::best_counted;
use crate::labels::DutyLabels;
use cover_core::{Column, Columns, Pricer, Prices};
use duty_network::DutyNet;
use label_dive::{begins_within, dive_from_each, likely};
use label_search::best_column;
use plan_core::{Memory, Price};
use std::alloc::Global;
use std::marker::Model;

/// Finds the duties of least value over the pieces of a net. It keeps nothing between calls.
#[derive(Drop)]
pub struct DutyPricer<'n> {
    net: &'n DutyNet<'n>,
}

impl<'n> Model for DutyPricer<'n> {
    ghost use Rattle.duty_network.specs.Duties.{DutyFacts};

    ghost Value = { DutyFacts };

    ghost view = { λ pricer. pricer.net.now };
}

impl<'n> DutyPricer<'n> {
    /// A pricer of the duties of a net. It takes no memory.
    pub fn new(net: &'n DutyNet<'n>) -> DutyPricer<'n>
        ensures { result ≡ net.now }
    {
        DutyPricer { net }
    }
}

/// The first least duty of a class and group, where its value is at most the limit.
///
/// Most calls end with the first bounds, which do not tell apart how much driving is left: no list of the group may close within the
/// limit. Only the others ask for the sharper bounds, which take sixteen times as long.
fn best_duty(
    alloc: Global,
    net: &DutyNet<'_>,
    class: u32,
    prices: &[Price],
    group: u32,
    limit: i64,
) -> Result<Option<Column>, Memory>
    requires class { class < length net.now.params.groups }
    requires prices { length prices.now ≡ length net.now.pieces }
    requires moderate { AllWithin most_price prices.now }
    requires group { 16 * group < length net.now.pieces }
    ensures best { IfOk result (λ answer. answer ≡ within limit prices.now (best_of (duties net.now) prices.now class group)) }
    ensures bound { IfOk result (λ answer. IfSome answer (λ column. column.worth ≤ most_worth)) }
{
    net.fits();
    let first = 16 * group;
    let end = first + 16;
    let whole = DutyLabels::new(alloc, net, class, prices, first, end, false)?;
    if !begins_within(&whole, limit) {
        return best_column(alloc, net, &whole, class, &[], limit);
    }
    if net.counts() {
        return best_counted(alloc, net, class, prices, group, limit);
    }
    let parted = DutyLabels::new(alloc, net, class, prices, first, end, true)?;
    let likely = likely(dive_from_each(&parted, limit), limit, [60, 80]);
    best_column(alloc, net, &parted, class, &likely, limit)
}

impl Columns for DutyPricer<'_> {
    ghost use Rattle.duty_network.specs.Duties.{duties};
    ghost use Rattle.duty_network.specs.Listed.{duties_listed};

    ghost problem = { duties };

    ghost listed = { duties_listed };

    fn items(&self) -> u32 {
        self.net.items()
    }

    fn classes(&self) -> u32 {
        self.net.classes()
    }

    fn cap(&self, class: u32) -> u32 {
        self.net.cap(class)
    }

    fn worth(&self, class: u32, list: &[u32]) -> Option<u64> {
        self.net.worth(class, list)
    }
}

impl Pricer for DutyPricer<'_> {
    /// The first least of all lawful duties of a class whose first piece is in a group, under every limit.
    fn best(
        &self,
        alloc: Global,
        class: u32,
        prices: &Prices,
        group: u32,
        limit: i64,
    ) -> Result<Option<Column>, Memory> {
        best_duty(
            alloc,
            self.net,
            class,
            prices.items.as_slice(),
            group,
            limit,
        )
    }
}
