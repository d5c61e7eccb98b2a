//! The covers of a certificate.
#![tactic(auto)]

ghost use Rattle.std.specs.Prelude.{◌≡◌, ◌≤◌, ◌<◌, ◌^◌, All, Bool, IfErr, IfNone, IfOk, IfSome, Some, length};
ghost use Rattle.plan_core.specs.Limits.{most_items};
ghost use Rattle.depot_network.specs.Network.{is_count};
ghost use Rattle.plan_cert.specs.Laws.{AreParts, IsBlockPart, IsDutyPart};
ghost use Rattle.plan_cert.specs.Shapes.{shape_of};
ghost use Rattle.block_cut.specs.Cuts.{IsShift};
ghost use Rattle.cert_check.specs.Judging.{IsBlockGap, IsDutyGap, pieces_in};
ghost use Rattle.cert_check.specs.Parts.{listed};
ghost use Rattle.cert_check.specs.Reasons.{IsCharged, IsCovered, IsFirstUncovered, NoGaps, printed_pieces};
ghost use Rattle.cert_check.specs.Steps.{HaveFewMarks, IsCase, IsFirstOfGaps, IsStop};

use crate::case::Case;
use crate::duties::net_of;
use crate::parts::{FourParts, four_parts};
use crate::reason::Reason;
use crate::stop::Stop;
use block_cover::first_block_gap;
use cover_core::{Gap, Plan, Worth};
use depot_network::PoolNet;
use label_cover::first_gap;
use plan_cert::{Cert, CertPart};
use plan_core::{Memory, Piece, Seq};
use std::alloc::Global;
use umlauf_write::PlanText;

/// What a part leaves uncovered.
#[derive(Clone, Copy)]
pub struct Uncovered {
    /// The pass, from 1.
    pub pass: u32,
    /// The first gap.
    pub gap: Gap,
}

/// The first gap of a part over blocks.
fn block_gap(case: &Case<'_>, worth: Worth, part: &CertPart) -> Option<Gap>
    requires part { IsBlockPart (length case.now.day.trips) (length case.now.day.params.pools) part.now }
    requires few { length part.now.blocks.marks < 2 ^ 32 }
    ensures { IsBlockGap case.now (is_count worth) part.now result }
{
    let net = PoolNet::new(case.day, worth);
    first_block_gap(
        &part.blocks,
        &net,
        &part.prices,
        part.class_prices.as_slice(),
    )
}

/// The first gap of a part over duties.
fn duty_gap(
    alloc: Global,
    case: &Case<'_>,
    pieces: &Seq<Piece>,
    worth: Worth,
    part: &CertPart,
) -> Result<Option<Gap>, Memory>
    requires few_pieces { length pieces.now ≤ most_items }
    requires shifts { All IsShift pieces.now }
    requires part { IsDutyPart (length pieces.now) (length case.now.day.params.groups) part.now }
    requires few { length part.now.cover.marks < 2 ^ 32 }
    ensures { IfOk result (λ gap. IsDutyGap case.now pieces.now (is_count worth) part.now gap) }
{
    let net = net_of(alloc, pieces, case.day.params(), worth)?;
    Ok(first_gap(
        &part.cover,
        &net,
        &part.prices,
        part.class_prices.as_slice(),
    ))
}

/// The first gap of the four parts.
fn gap_in(
    alloc: Global,
    case: &Case<'_>,
    pieces: &Seq<Piece>,
    parts: FourParts<'_>,
) -> Result<Option<Uncovered>, Memory>
    requires few_pieces { length pieces.now ≤ most_items }
    requires shifts { All IsShift pieces.now }
    requires parts { AreParts (shape_of case.now.day (length pieces.now)) (listed parts) }
    requires few { HaveFewMarks (listed parts) }
    ensures { IfOk result (IsFirstOfGaps case.now pieces.now parts.entry) }
{
    if let Some(gap) = block_gap(case, Worth::Count, parts.block_number) {
        return Ok(Some(Uncovered { pass: 1, gap }));
    }
    if let Some(gap) = block_gap(case, Worth::Cost, parts.block_cost) {
        return Ok(Some(Uncovered { pass: 2, gap }));
    }
    if let Some(gap) = duty_gap(alloc, case, pieces, Worth::Count, parts.duty_number)? {
        return Ok(Some(Uncovered { pass: 3, gap }));
    }
    match duty_gap(alloc, case, pieces, Worth::Cost, parts.duty_cost)? {
        Some(gap) => Ok(Some(Uncovered { pass: 4, gap })),
        None => Ok(None),
    }
}

/// Tests that the marks of each part are a cover.
pub(crate) fn check_covers(
    alloc: Global,
    case: &Case<'_>,
    text: &PlanText,
    blocks: &Plan,
    duties: &Plan,
    pieces: &Seq<Piece>,
    cert: &Cert,
) -> Result<(), Stop>
    requires case { IsCase case.now }
    requires charged { IsCharged case.now text.now blocks.now duties.now cert.now }
    requires pieces { pieces.now ≡ printed_pieces case.now blocks.now }
    ensures covered { IfOk result (λ _. IsCovered case.now text.now blocks.now duties.now cert.now) }
    ensures stop { IfErr result (IsStop case.now) }
{
    match gap_in(alloc, case, pieces, four_parts(cert))? {
        None => Ok(()),
        Some(Uncovered { pass, gap }) => Err(Stop::Against(Reason::Uncovered { pass, gap })),
    }
}
