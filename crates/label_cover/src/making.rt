//! The cover of all open lists of pieces.

ghost use Rattle.std.specs.Prelude.{IfErr, IfOk, OnOk, length};
ghost use Rattle.plan_core.specs.Limits.{most_kept_price};
ghost use Rattle.cover_core.specs.FirstLeast.{AllWithin};
ghost use Rattle.mark_cover.specs.Covers.{IsMarkCover};
ghost use Rattle.mark_cover.specs.Minimal.{AreMinimal};
ghost use Rattle.duty_network.specs.Duties.{duties};
ghost use Rattle.unpaid_list.specs.Unpaid.{AreClassesPaid, IsUnpaidCause};
ghost use Rattle.label_cover.specs.Marked.{duty_marking, mark_order};

use crate::marks::DutyMarks;
use cover_core::{Cover, CoverFault, Prices};
use duty_network::DutyNet;
use std::alloc::Global;
use unpaid_list::least_cover;

/// The marks of all open lists of pieces to which no other such mark is at least as good, each once, in the order of their fields: a
/// cover, by prices and class prices in thousandths of a cost unit, with which `first_gap` shows without a search that no lawful duty has
/// a value below minus its class price. A class has price 0 where there is none for it.
///
/// The prices are from -3 * 10^15 to 3 * 10^15. The time is that of making all marks; where a duty is unpaid, that of a search for it more.
///
/// # Errors
///
/// - `Unpaid` exactly where a lawful duty has a value below minus its class price, if memory suffices: the first least duty of the first
///   class that has such a one.
/// - `Memory` where memory runs out, and for nothing else.
pub fn make_cover(
    alloc: Global,
    net: &DutyNet<'_>,
    prices: &Prices,
    class_prices: &[i64],
) -> Result<Cover, CoverFault>
    requires { AllWithin most_kept_price prices.now.items }
    ensures minimal { IfOk result (λ cover. AreMinimal (duty_marking net.now prices.now.items) mark_order cover.marks) }
    ensures cover { IfOk result (λ cover. IsMarkCover (duty_marking net.now prices.now.items) cover.marks class_prices.now) }
    ensures paid { OnOk result (AreClassesPaid (duties net.now) prices.now.items class_prices.now (length (duties net.now).caps)) }
    ensures unpaid { IfErr result (λ fault. IsUnpaidCause (duties net.now) prices.now.items class_prices.now fault) }
{
    net.fits();
    let marks = DutyMarks { net, prices };
    match least_cover(alloc, net, &marks, class_prices) {
        Ok(marks) => Ok(Cover { marks }),
        Err(fault) => Err(fault),
    }
}
