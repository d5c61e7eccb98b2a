//! From the first least list to the best column of a class and group.

ghost use Rattle.std.specs.Prelude.{◌≡◌, ◌<◌, ◌≤◌, length, IfOk, IfSome, ℕ, List};
ghost use Rattle.plan_core.specs.Limits.{most_worth};
ghost use Rattle.plan_core.specs.declared.Price.{Price};
ghost use Rattle.cover_core.specs.Best.{best_of, within};
ghost use Rattle.label_search.specs.Pricing.{IsTiedInGroup};
ghost use Rattle.tie_search.specs.Before.{AreSameBefore, CloseAlike};

use crate::search::search_by_value;
use crate::value::Closing;
use cover_core::{Column, Columns, best_is_first_least};
use label_search::{Labels, column_of};
use plan_core::Memory;
use std::alloc::Global;

/// The first least list of a labelling, as a column of a class: what `label_search::best_column` answers, by `search_by_value`. `Memory` is
/// the only error.
pub fn best_column_by_value<C: Columns, W: Labels>(
    alloc: Global,
    columns: &C,
    labels: &W,
    early: &W,
    class: u32,
    closing: Closing,
    limit: i64,
) -> Result<Option<Column>, Memory>
    requires same { AreSameBefore (W.labelling labels.now) (W.labelling early.now) closing.end }
    requires close { CloseAlike (W.close_of labels.now) (W.close_of early.now) }
    requires class { class < length (C.problem columns.now).caps }
    requires items { W.count labels.now ≤ (C.problem columns.now).items }
    ensures best { (prices : List Price) (group : ℕ) → IsTiedInGroup (W.labelling labels.now) (W.close_of labels.now) prices group ((C.problem columns.now).worth class) → IfOk result (λ answer. answer ≡ within limit prices (best_of (C.problem columns.now) prices class group)) }
    ensures bound { IfOk result (λ answer. IfSome answer (λ column. column.worth ≤ most_worth)) }
{
    best_is_first_least::<C>();
    match search_by_value(alloc, labels, early, closing, limit)? {
        None => Ok(None),
        Some(found) => column_of(alloc, columns, class, found.list.as_slice()),
    }
}
