//! The best list of a rest: pricing in column generation, where some duties have begun.

ghost use Rattle.std.specs.Prelude.{◌≡◌, ◌<◌, ◌≤◌, ℕ, Bool, List, true, IfOk, IfSome, length};
ghost use Rattle.plan_core.specs.Limits.{most_price, most_worth};
ghost use Rattle.plan_core.specs.declared.types.Price.{Price};
ghost use Rattle.cover_core.specs.Best.{best_of, within};
ghost use Rattle.cover_core.specs.Cover.{Problem};
ghost use Rattle.cover_core.specs.FirstLeast.{AllWithin};
ghost use Rattle.cover_rest.specs.declared.begun.Begun.{Begun};
ghost use Rattle.cover_rest.specs.Laws.{StandForAll};
ghost use Rattle.cover_rest.specs.Rest as spec;
ghost use Rattle.cover_rest.specs.Rest.{rest_of};
ghost use Rattle.duty_network.specs.Duties.{duties};
ghost use Rattle.duty_network.specs.Marks.{closed_value};
ghost use Rattle.duty_pricing.specs.Laws.{duty_labels};
ghost use Rattle.rest_labels.specs.Labels.{is_set};
ghost use Rattle.rest_labels.specs.Laws.{AreBodies, AreMarks, PricesRest};
ghost use Rattle.duty_rest.specs.Rest.{IsMade, rests};

use crate::rest::DutyRest;
use cover_core::Column;
use cover_rest::Begun;
use duty_network::DutyNet;
use duty_pricing::DutyLabels;
use label_dive::{dive_from_each, likely};
use plan_core::{Memory, Price, Seq};
use rest_labels::{
    RestLabels, best_of_rest, ended_heads, first_items, spread_prices, starting_items,
};
use std::alloc::Global;

/// So many marks, all set: a duty may begin with any piece.
fn all_set(alloc: Global, count: usize) -> Result<Vec<bool>, Memory>
    ensures each { IfOk result (λ marks. length marks.items ≡ count) }
    ensures set { IfOk result (λ marks. (x : ℕ) → x < count → is_set marks.items x ≡ true) }
{
    Ok(vec![in alloc; true; count]?)
}

/// Whether some list of a rest that begins with an item of a group may close within a limit, as far as its first item tells. It says nothing
/// about which lists there are.
fn begins_within<'a>(
    labels: &'a DutyLabels<'a, '_>,
    bodies: &'a [Seq<u32>],
    starts: &'a [bool],
    ended: &'a [bool],
    group: u32,
    limit: i64,
) -> bool
    requires { StandForAll (length labels.now.net.now.pieces) bodies.now }
{
    // Pieces are few: the net says so.
    let _ = labels.net.pieces();
    let listed = RestLabels {
        labels,
        bodies,
        starts,
        ended,
        group,
    };
    label_dive::begins_within(&listed, limit)
}

/// The first least list of a rest in a class and group within a limit, by the labels of duties of the class, what the rest's items stand
/// for, with which of them lists may begin, and behind which heads none may follow.
fn best_of_labels<'a>(
    alloc: Global,
    rest: &DutyRest<'_>,
    labels: &'a DutyLabels<'a, '_>,
    bodies: &'a [Seq<u32>],
    starts: &'a [bool],
    ended: &'a [bool],
    class: u32,
    group: u32,
    limit: i64,
) -> Result<Option<Column>, Memory>
    requires class { class < length (rests rest.now).caps }
    requires bodies { StandForAll (length labels.now.net.now.pieces) bodies.now }
    requires items { length bodies.now ≤ (rests rest.now).items }
    ensures best { (p : Problem) (heads : List Begun) (may : ℕ → List ℕ → Bool) (prices : List Price) → PricesRest p heads may class group (rests rest.now) bodies.now starts.now ended.now (duty_labels labels.now.net.now labels.now.prices.now labels.now.class labels.now.crew labels.now.first labels.now.end) (closed_value labels.now.net.now labels.now.crew) prices labels.now.prices.now → IfOk result (λ answer. answer ≡ within limit prices (best_of (rests rest.now) prices class group)) }
    ensures bound { IfOk result (λ answer. IfSome answer (λ column. column.worth ≤ most_worth)) }
{
    // Pieces are few: the net says so.
    let _ = labels.net.pieces();
    let listed = RestLabels {
        labels,
        bodies,
        starts,
        ended,
        group,
    };
    let likely = likely(dive_from_each(&listed, limit), limit, [60, 80]);
    best_of_rest(alloc, rest, &listed, class, &likely, limit)
}

/// The first least list of a rest in a class and group within a limit, by prices that are spread over the pieces, with which items lists may
/// begin, and behind which heads none may follow.
///
/// As with the duties of a day, most calls end with the first bounds, which do not tell apart how much driving is left.
fn best_marked(
    alloc: Global,
    rest: &DutyRest<'_>,
    net: &DutyNet<'_>,
    bodies: &[Seq<u32>],
    starts: &[bool],
    ended: &[bool],
    spread: &[Price],
    class: u32,
    group: u32,
    limit: i64,
) -> Result<Option<Column>, Memory>
    requires class { class < length (rests rest.now).caps }
    requires there { class < length net.now.params.groups }
    requires bodies { StandForAll (length net.now.pieces) bodies.now }
    requires items { length bodies.now ≤ (rests rest.now).items }
    requires spread { length spread.now ≡ length net.now.pieces }
    requires moderate { AllWithin most_price spread.now }
    ensures best { (heads : List Begun) (may : ℕ → List ℕ → Bool) (prices : List Price) → rests rest.now ≡ rest_of (duties net.now) heads may → bodies.now ≡ spec.bodies heads (length net.now.pieces) → AreMarks heads bodies.now may class starts.now ended.now → AreBodies bodies.now may class prices spread.now → IfOk result (λ answer. answer ≡ within limit prices (best_of (rests rest.now) prices class group)) }
    ensures bound { IfOk result (λ answer. IfSome answer (λ column. column.worth ≤ most_worth)) }
{
    net.fits();
    let count = net.pieces().len() as u32;
    let range = first_items(&*bodies, group, count);
    let whole = DutyLabels::new(alloc, &*net, class, &*spread, range.first, range.end, false)?;
    if !begins_within(&whole, &*bodies, &*starts, &*ended, group, limit) {
        return best_of_labels(
            alloc, &*rest, &whole, &*bodies, &*starts, &*ended, class, group, limit,
        );
    }
    let parted = DutyLabels::new(alloc, &*net, class, &*spread, range.first, range.end, true)?;
    best_of_labels(
        alloc, &*rest, &parted, &*bodies, &*starts, &*ended, class, group, limit,
    )
}

/// The first least list of a rest in a class and group within a limit. The labels of lists are the marks of duties, a head's being made by
/// folding the steps over its pieces; the completion bounds go over the pieces from the first one on with which a list of the group begins.
/// It takes memory in proportion to the pieces, beside that of the search.
pub(crate) fn best_list(
    alloc: Global,
    rest: &DutyRest<'_>,
    net: &DutyNet<'_>,
    begun: &[Begun],
    bodies: &[Seq<u32>],
    class: u32,
    prices: &[Price],
    group: u32,
    limit: i64,
) -> Result<Option<Column>, Memory>
    requires net { net.now ≡ rest.now.net }
    requires made { IsMade rest.now.net rest.now.heads begun.now bodies.now }
    requires class { class < length (rests rest.now).caps }
    requires prices { length prices.now ≡ (rests rest.now).items }
    requires moderate { AllWithin most_price prices.now }
    ensures best { IfOk result (λ answer. answer ≡ within limit prices.now (best_of (rests rest.now) prices.now class group)) }
    ensures bound { IfOk result (λ answer. IfSome answer (λ column. column.worth ≤ most_worth)) }
{
    // Pieces are few: the net says so.
    let count = net.pieces().len() as u32;
    let spread = spread_prices(alloc, bodies, prices, count)?;
    let free = all_set(alloc, bodies.len())?;
    let starts = starting_items(alloc, begun, class, free.as_slice())?;
    let ended = ended_heads(alloc, begun)?;
    best_marked(
        alloc,
        &*rest,
        &*net,
        &*bodies,
        starts.as_slice(),
        ended.as_slice(),
        spread.as_slice(),
        class,
        group,
        limit,
    )
}
