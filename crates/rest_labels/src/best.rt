//! The best column of a rest.

ghost use Rattle.std.specs.Prelude.{◌≡◌, ◌<◌, ◌≤◌, ℕ, Bool, List, IfOk, IfSome, length};
ghost use Rattle.plan_core.specs.Limits.{most_worth};
ghost use Rattle.plan_core.specs.declared.Price.{Price};
ghost use Rattle.cover_core.specs.Best.{best_of, within};
ghost use Rattle.cover_core.specs.Cover.{Problem};
ghost use Rattle.cover_rest.specs.declared.begun.Begun.{Begun};
ghost use Rattle.rest_labels.specs.Laws.{PricesRest};

use crate::laws::rest_is_tied;
use crate::pricing::RestLabels;
use cover_core::{Column, Columns};
use label_search::{Labels, best_column};
use plan_core::Memory;
use std::alloc::Global;

/// The first least list of a rest's labels, as a column of a class.
///
/// Where the labels are those of a rest (what its items stand for and how its lists begin and go on are as the heads say, and the labels
/// of the written-out lists, as far as they begin where those of the group do, are tied to the class's worths under prices that are spread
/// over what the rest's items stand for), this is the best column of the class and of the labels' group at the rest's prices within the
/// limit: the whole of what a pricer of the rest owes. The limits of `likely` are tried first, which changes the time alone. `Memory` is
/// the only error.
pub fn best_of_rest<C: Columns, W: Labels>(
    alloc: Global,
    rest: &C,
    labels: &RestLabels<'_, W>,
    class: u32,
    likely: &[i64],
    limit: i64,
) -> Result<Option<Column>, Memory>
    requires class { class < length (C.problem rest.now).caps }
    requires items { length labels.now.bodies.now ≤ (C.problem rest.now).items }
    ensures best { (p : Problem) (heads : List Begun) (may : ℕ → List ℕ → Bool) (prices spread : List Price) → PricesRest p heads may class labels.now.group (C.problem rest.now) labels.now.bodies.now labels.now.starts.now labels.now.ended.now (W.labelling labels.now.labels.now) (W.close_of labels.now.labels.now) prices spread → IfOk result (λ answer. answer ≡ within limit prices (best_of (C.problem rest.now) prices class labels.now.group)) }
    ensures bound { IfOk result (λ answer. IfSome answer (λ column. column.worth ≤ most_worth)) }
{
    rest_is_tied::<W>();
    best_column(alloc, rest, labels, class, likely, limit)
}
