//! The first least list, by its value.

ghost use Rattle.std.specs.Prelude.{◌≡◌, ◌≤◌, ◌≤ℤ◌, ◌-ℤ◌, pos, IfOk, IfSome, IfNone, ℕ, List};
ghost use Rattle.cover_core.specs.Cover.{AllBelow, Rises};
ghost use Rattle.label_search.specs.Answers.{AllCloseAbove, IsLeastClosed};
ghost use Rattle.tie_search.specs.Before.{AreSameBefore, CloseAlike};

use crate::before::Before;
use crate::value::Closing;
use label_search::{Found, Labels, search};
use plan_core::Memory;
use std::alloc::Global;

/// The first least of all lists, where none closes with less than a value, by labels that are the same for the lists before an end; None where
/// no list before the end closes with the value.
fn search_early<W: Labels>(
    alloc: Global,
    labels: &W,
    early: &W,
    value: i64,
    end: u32,
) -> Result<Option<Found>, Memory>
    requires end { end ≤ W.count labels.now }
    requires early_end { end ≤ W.count early.now }
    requires same { AreSameBefore (W.labelling labels.now) (W.labelling early.now) end }
    requires close { CloseAlike (W.close_of labels.now) (W.close_of early.now) }
    requires least { AllCloseAbove (W.labelling labels.now) (W.close_of labels.now) (value -ℤ pos 1) }
    ensures found { IfOk result (λ answer. IfSome answer (λ found. IsLeastClosed (W.labelling labels.now) (W.close_of labels.now) found.list found.value)) }
    ensures within { IfOk result (λ answer. IfSome answer (λ found. found.value ≤ℤ value)) }
    ensures rises { IfOk result (λ answer. IfSome answer (λ found. Rises found.list)) }
    ensures items { IfOk result (λ answer. IfSome answer (λ found. AllBelow (W.count labels.now) found.list)) }
{
    let before = Before { labels: early, end };
    search(alloc, &before, &[], value)
}

/// The first least of all lists, where a closing within the limit has the least value.
fn search_from<W: Labels>(
    alloc: Global,
    labels: &W,
    early: &W,
    closing: Closing,
    limit: i64,
) -> Result<Option<Found>, Memory>
    requires same { AreSameBefore (W.labelling labels.now) (W.labelling early.now) closing.end }
    requires close { CloseAlike (W.close_of labels.now) (W.close_of early.now) }
    ensures found { IfOk result (λ answer. IfSome answer (λ found. IsLeastClosed (W.labelling labels.now) (W.close_of labels.now) found.list found.value)) }
    ensures within { IfOk result (λ answer. IfSome answer (λ found. found.value ≤ℤ limit)) }
    ensures rises { IfOk result (λ answer. IfSome answer (λ found. Rises found.list)) }
    ensures items { IfOk result (λ answer. IfSome answer (λ found. AllBelow (W.count labels.now) found.list)) }
{
    let Closing { value, end } = closing;
    if value == i64::MIN || limit < value || labels.items() < end || early.items() < end {
        return Ok(None);
    }
    match search(alloc, labels, &[], value - 1)? {
        Some(found) => Ok(Some(found)),
        None => search_early(alloc, labels, early, value, end),
    }
}

/// Of all lists that close with a value of at most the limit the first least, as `label_search::search` answers it: None exactly where each
/// list that closes does so above the limit. `Memory` is the only error.
///
/// It is quick where the closing has the least value, and lists with that value end before its end. `early` are labels that are the same
/// for the lists that end there or earlier: the labels themselves, or such whose completion bounds know that lists go no further.
pub fn search_by_value<W: Labels>(
    alloc: Global,
    labels: &W,
    early: &W,
    closing: Closing,
    limit: i64,
) -> Result<Option<Found>, Memory>
    requires same { AreSameBefore (W.labelling labels.now) (W.labelling early.now) closing.end }
    requires close { CloseAlike (W.close_of labels.now) (W.close_of early.now) }
    ensures found { IfOk result (λ answer. IfSome answer (λ found. IsLeastClosed (W.labelling labels.now) (W.close_of labels.now) found.list found.value)) }
    ensures within { IfOk result (λ answer. IfSome answer (λ found. found.value ≤ℤ limit)) }
    ensures rises { IfOk result (λ answer. IfSome answer (λ found. Rises found.list)) }
    ensures items { IfOk result (λ answer. IfSome answer (λ found. AllBelow (W.count labels.now) found.list)) }
    ensures none { IfOk result (λ answer. IfNone answer (AllCloseAbove (W.labelling labels.now) (W.close_of labels.now) limit)) }
{
    match search_from(alloc, labels, early, closing, limit)? {
        Some(found) => Ok(Some(found)),
        None => search(alloc, labels, &[], limit),
    }
}
