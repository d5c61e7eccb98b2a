//! The parts of a certificate.

ghost use Rattle.std.specs.Prelude.{◌≡◌, ◌≤◌, All, IfOk, length};
ghost use Rattle.plan_core.specs.Limits.{most_items};
ghost use Rattle.depot_network.specs.Network.{blocks_of, is_count};
ghost use Rattle.block_cut.specs.Cuts.{IsShift};
ghost use Rattle.duty_network.specs.Duties.{duties as duties_of, is_count as is_counted};
ghost use Rattle.plan_command.specs.Planning.{IsDualFeasible};
ghost use Rattle.plan_certify.specs.Certificate.{IsBlockPartOf, IsDutyPartOf};

use block_cover::make_block_cover;
use cover_core::{BlockCover, Cover, CoverFault, Worth};
use day_model::Day;
use depot_network::PoolNet;
use dual_bound::Kept;
use duty_network::DutyNet;
use label_cover::make_cover;
use plan_cert::CertPart;
use plan_core::{Memory, Piece, Seq};
use std::alloc::Global;

/// The part of a pass over blocks. The offer is paid, so there is a cover.
pub(crate) fn block_part(
    alloc: Global,
    model: &Day,
    worth: Worth,
    kept: Kept,
) -> Result<CertPart, Memory>
    requires { IsDualFeasible (blocks_of model.now (is_count worth)) kept }
    ensures { IfOk result (IsBlockPartOf model.now (is_count worth) kept) }
{
    let net = PoolNet::new(model, worth);
    match make_block_cover(alloc, &net, &kept.prices, kept.class_prices.as_slice()) {
        Ok(found) => Ok(CertPart {
            prices: kept.prices,
            class_prices: kept.class_prices,
            cover: Cover {
                marks: Seq::new(alloc),
            },
            blocks: found,
        }),
        Err(CoverFault::Unpaid { .. }) => unreachable!(),
        Err(CoverFault::Memory) => Err(Memory),
    }
}

/// The part of a pass over duties of a net. The offer is paid, so there is a cover.
fn net_part(alloc: Global, net: &DutyNet<'_>, kept: Kept) -> Result<CertPart, Memory>
    requires { IsDualFeasible (duties_of net.now) kept }
    ensures { IfOk result (IsDutyPartOf net.now kept) }
{
    match make_cover(alloc, net, &kept.prices, kept.class_prices.as_slice()) {
        Ok(cover) => Ok(CertPart {
            prices: kept.prices,
            class_prices: kept.class_prices,
            cover,
            blocks: BlockCover {
                marks: Seq::new(alloc),
            },
        }),
        Err(CoverFault::Unpaid { .. }) => unreachable!(),
        Err(CoverFault::Memory) => Err(Memory),
    }
}

/// The part of a pass over duties.
pub(crate) fn duty_part(
    alloc: Global,
    model: &Day,
    pieces: &Seq<Piece>,
    worth: Worth,
    kept: Kept,
) -> Result<CertPart, Memory>
    requires few { length pieces.now ≤ most_items }
    requires shifts { All IsShift pieces.now }
    requires paid { IsDualFeasible (duties_of (record { pieces = pieces.now; params = model.now.params; counts = is_counted worth })) kept }
    ensures { IfOk result (IsDutyPartOf (record { pieces = pieces.now; params = model.now.params; counts = is_counted worth }) kept) }
{
    let pieces = pieces.with_items(pieces.as_slice())?;
    let net = DutyNet::new(alloc, pieces, model.params(), worth)?;
    net_part(alloc, &net, kept)
}
