//! The first least of the lists that close.
#![tactic(auto)]

ghost use Rattle.std.specs.Prelude.{◌≡◌, [], ◌∷◌, ◌++◌, ◌<◌, ◌≤ℤ◌, length, IfOk, OnOk, IfSome, IfNone, None};
ghost use Rattle.cover_core.specs.Cover.{AllBelow, Rises};
ghost use Rattle.label_search.specs.Answers.{AllCloseAbove, IsLeastClosed, NoneCloses};
ghost use Rattle.label_search.specs.Limits.{limited};
ghost use Rattle.label_search.specs.Lists.{AllBack, list_of_node};
ghost use Rattle.label_search.specs.Nodes.{AllSound, best_from, better_of};

use crate::labels::Labels;
use crate::levels::{Nodes, fill};
use crate::node::{Best, Found, Node};
use label_store::Stock;
use plan_core::{Memory, Seq};
use std::alloc::Global;

/// The better of what was found so far and a node's value: the smaller one, and of equal ones the earlier.
fn better(best: Option<Best>, value: Option<i64>, place: u32) -> Option<Best>
    ensures { result ≡ better_of best value place }
{
    match (best, value) {
        (best, None) => best,
        (None, Some(value)) => Some(Best { place, value }),
        (Some(best), Some(value)) => {
            if value < best.value {
                Some(Best { place, value })
            } else {
                Some(best)
            }
        }
    }
}

/// The first of the nodes that close with the least value.
fn best_node<W: Labels>(labels: &W, stock: &Stock<Node<W::Label>>) -> Option<Best>
    requires few { length stock.now.kept < 4294967295 }
    requires sound { AllSound (W.sound labels.now) stock.now.kept }
    ensures { result ≡ best_from (W.close_of labels.now) 0 None stock.now.kept }
{
    let mut best = None;
    for place in 0..stock.kept_count() as u32 {
        let value = labels.close(&stock.kept_at(place as usize).label);
        best = better(best, value, place);
    }
    best
}

/// Puts an item last.
fn push_item(list: &mut Vec<u32>, item: u32) -> Result<(), Memory>
    ensures { OnOk result (list.new.items ≡ list.old.items ++ item ∷ []) }
{
    match list.push(item) {
        Ok(()) => Ok(()),
        Err(_) => Err(Memory),
    }
}

/// The list of a node, walked back from its last item to its first.
fn path<L: Copy>(alloc: Global, stock: &Stock<Node<L>>, place: u32) -> Result<Vec<u32>, Memory>
    requires there { place < length stock.now.kept }
    requires few { length stock.now.kept < 4294967295 }
    requires back { AllBack 0 stock.now.kept }
    ensures { IfOk result (λ list. list.items ≡ list_of_node stock.now.kept place) }
{
    let mut list = Vec::new(alloc);
    let mut rank = place + 1;
    while rank > 0 {
        let node = *stock.kept_at((rank - 1) as usize);
        push_item(&mut list, node.item)?;
        rank = node.before;
    }
    list.reverse();
    Ok(list)
}

/// The first least of the lists whose labels may close within the limit.
fn least_closed<W: Labels>(
    alloc: Global,
    labels: &W,
    limit: i64,
    nodes: &mut Nodes<W::Label>,
) -> Result<Option<Found>, Memory>
    ensures found { IfOk result (λ answer. IfSome answer (λ found. IsLeastClosed (limited (W.labelling labels.now) (W.may_close labels.now limit)) (W.close_of labels.now) found.list found.value)) }
    ensures none { IfOk result (λ answer. IfNone answer (NoneCloses (limited (W.labelling labels.now) (W.may_close labels.now limit)) (W.close_of labels.now))) }
{
    fill(labels, limit, nodes)?;
    let best = best_node(labels, &nodes.stock);
    match best {
        None => Ok(None),
        Some(best) => {
            let list = path(alloc, &nodes.stock, best.place)?;
            Ok(Some(Found {
                list: Seq::from_vec(list),
                value: best.value,
            }))
        }
    }
}

/// The first least of the lists that close within the limit.
fn search_under<W: Labels>(
    alloc: Global,
    labels: &W,
    limit: i64,
    nodes: &mut Nodes<W::Label>,
) -> Result<Option<Found>, Memory>
    ensures found { IfOk result (λ answer. IfSome answer (λ found. IsLeastClosed (W.labelling labels.now) (W.close_of labels.now) found.list found.value)) }
    ensures within { IfOk result (λ answer. IfSome answer (λ found. found.value ≤ℤ limit)) }
    ensures rises { IfOk result (λ answer. IfSome answer (λ found. Rises found.list)) }
    ensures items { IfOk result (λ answer. IfSome answer (λ found. AllBelow (W.count labels.now) found.list)) }
    ensures none { IfOk result (λ answer. IfNone answer (AllCloseAbove (W.labelling labels.now) (W.close_of labels.now) limit)) }
{
    match least_closed(alloc, labels, limit, nodes)? {
        None => Ok(None),
        Some(found) => {
            if found.value <= limit {
                Ok(Some(found))
            } else {
                Ok(None)
            }
        }
    }
}

/// Of all lists that close with a value of at most the limit the first least: the one that closes with the least value, and of
/// several with that value the one that comes first when lists are compared from their last items backwards (at the first difference
/// the smaller item comes first, and a list that has ended comes first). None exactly where each list that closes does so above the
/// limit. `Memory` is the only error.
///
/// `likely` are smaller limits to be tried before, in their order: values with which some list is known to close, or guesses. They
/// change the time alone, since a search under a smaller limit keeps fewer labels.
pub fn search<W: Labels>(
    alloc: Global,
    labels: &W,
    likely: &[i64],
    limit: i64,
) -> Result<Option<Found>, Memory>
    ensures found { IfOk result (λ answer. IfSome answer (λ found. IsLeastClosed (W.labelling labels.now) (W.close_of labels.now) found.list found.value)) }
    ensures within { IfOk result (λ answer. IfSome answer (λ found. found.value ≤ℤ limit)) }
    ensures rises { IfOk result (λ answer. IfSome answer (λ found. Rises found.list)) }
    ensures items { IfOk result (λ answer. IfSome answer (λ found. AllBelow (W.count labels.now) found.list)) }
    ensures none { IfOk result (λ answer. IfNone answer (AllCloseAbove (W.labelling labels.now) (W.close_of labels.now) limit)) }
{
    let mut nodes = Nodes::new(alloc);
    for first in likely {
        if *first < limit {
            match search_under(alloc, labels, *first, &mut nodes)? {
                Some(found) => return Ok(Some(found)),
                None => {}
            }
        }
    }
    search_under(alloc, labels, limit, &mut nodes)
}
