//! What holds of every offer. The function does nothing: its contract is the theorem.

ghost use Rattle.std.specs.Prelude.{◌≡◌, length};
ghost use Rattle.cover_core.specs.Plans.{IsPaid, bound_of};
ghost use Rattle.dual_bound.specs.declared.kept.Kept.{Kept as KeptOffer};
ghost use Rattle.worker_price.specs.Work.{ArePricesFor};
ghost use Rattle.price_rounds.specs.Rounds.{IsBoundOf};
ghost use Rattle.price_rounds.specs.Steps.{IsOffer};

use cover_core::{Columns, least_is_paid, weak_duality};
use worker_price::least_values;

/// Prices in range that are offered are paid, whatever method found them: the class prices of an offer are those of its least values, so
/// no list is worth less than its prices less the price of its class, and no plan costs less than the bound.
pub fn offers_are_paid<C: Columns>()
    ensures prices { (columns : C) (kept : KeptOffer) → IsOffer (C.problem columns) kept → ArePricesFor (C.problem columns) kept.prices.items }
    ensures class_prices { (columns : C) (kept : KeptOffer) → IsOffer (C.problem columns) kept → length kept.class_prices ≡ length (C.problem columns).caps }
    ensures paid { (columns : C) (kept : KeptOffer) → IsOffer (C.problem columns) kept → IsPaid (C.problem columns) kept.prices.items kept.class_prices }
    ensures offer { (columns : C) (kept : KeptOffer) → IsOffer (C.problem columns) kept → kept.bound ≡ bound_of kept.prices.items kept.class_prices (C.problem columns).caps }
    ensures bound { (columns : C) (kept : KeptOffer) → IsOffer (C.problem columns) kept → IsBoundOf (C.problem columns) kept.bound }
{
    weak_duality::<C>();
    least_is_paid::<C>();
    least_values::<C>();
}
