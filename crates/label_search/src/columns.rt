//! From the first least list to the best column of a class and group.
#![tactic(auto)]

ghost use Rattle.std.specs.Prelude.{◌≡◌, ◌<◌, ◌≤◌, length, IfOk, IfSome, ℕ, List};
ghost use Rattle.plan_core.specs.Limits.{most_worth};
ghost use Rattle.plan_core.specs.declared.Price.{Price};
ghost use Rattle.cover_core.specs.Best.{best_of, within};
ghost use Rattle.cover_core.specs.Cover.{AllBelow};
ghost use Rattle.label_search.specs.Laws.{GoodAs};
ghost use Rattle.label_search.specs.Pricing.{CoverPays, IsTiedInGroup, worth_column};

use crate::labels::Labels;
use crate::least::search;
use cover_core::{Column, Columns, Items, best_is_first_least};
use plan_core::Memory;
use std::alloc::Global;

/// A list of items as a column of a class, with its worth, where it has one; `None` exactly where it has none. `Memory` is the only error.
pub fn column_of<C: Columns>(
    alloc: Global,
    columns: &C,
    class: u32,
    list: &[u32],
) -> Result<Option<Column>, Memory>
    requires class { class < length (C.problem columns.now).caps }
    requires items { AllBelow (C.problem columns.now).items list.now }
    ensures column { IfOk result (λ answer. answer ≡ worth_column (C.problem columns.now) class list.now) }
    ensures bound { IfOk result (λ answer. IfSome answer (λ column. column.worth ≤ most_worth)) }
{
    match columns.worth(class, list) {
        None => Ok(None),
        Some(worth) => match Items::from_slice(alloc, list) {
            Ok(items) => Ok(Some(Column {
                class,
                worth,
                items,
            })),
            Err(Memory) => Err(Memory),
        },
    }
}

/// The first least list of a labelling, as a column of a class.
///
/// Where the labelling is tied to the worths of the class under some prices and in some group (a list of the group has a worth exactly
/// where it has a label that closes, and it closes with a thousand times its worth less the prices of its items), this is the best
/// column of the class and group at these prices within the limit: the whole of what a pricer owes. `Memory` is the only error. The
/// limits of `likely` are tried first, as in `search`.
pub fn best_column<C: Columns, W: Labels>(
    alloc: Global,
    columns: &C,
    labels: &W,
    class: u32,
    likely: &[i64],
    limit: i64,
) -> Result<Option<Column>, Memory>
    requires class { class < length (C.problem columns.now).caps }
    requires items { W.count labels.now ≤ (C.problem columns.now).items }
    ensures best { (prices : List Price) (group : ℕ) → IsTiedInGroup (W.labelling labels.now) (W.close_of labels.now) prices group ((C.problem columns.now).worth class) → IfOk result (λ answer. answer ≡ within limit prices (best_of (C.problem columns.now) prices class group)) }
    ensures bound { IfOk result (λ answer. IfSome answer (λ column. column.worth ≤ most_worth)) }
{
    best_is_first_least::<C>();
    match search(alloc, labels, likely, limit)? {
        None => Ok(None),
        Some(found) => column_of(alloc, columns, class, found.list.as_slice()),
    }
}

/// Labels of a cover pay: where a list of labels has one at least as good for each list of one item and for each extension of one of
/// them, and none of them closes below minus the class price, the prices of each list with a worth are at most a thousand times the
/// worth plus the class price.
pub fn cover_pays<W: Labels>()
    ensures { (labels : W) → CoverPays (W.labelling labels) (GoodAs (W.good labels)) (W.close_of labels) }
{}
