//! All tests of the checker in their order.
#![tactic(auto)]

ghost use Rattle.std.specs.Prelude.{IfErr, IfOk};
ghost use Rattle.cert_check.specs.Reasons.{IsAnswer};
ghost use Rattle.cert_check.specs.Steps.{IsCase, IsStop};

use crate::blocks::{lawful_blocks, plan_text};
use crate::bounds::{bounds_shown, certificate, check_class_prices};
use crate::case::Case;
use crate::duties::{block_pieces, lawful_duties};
use crate::gaps::check_covers;
use crate::printing::printed_plan;
use crate::reason::Answered;
use crate::stop::Stop;
use cover_core::plan_cost;
use plan_core::Memory;
use std::alloc::Global;

/// All tests in their order.
fn answer_of_tests(alloc: Global, case: &Case<'_>) -> Result<Answered, Stop>
    requires { IsCase case.now }
    ensures answer { IfOk result (IsAnswer case.now) }
    ensures stop { IfErr result (IsStop case.now) }
{
    let text = plan_text(alloc, case)?;
    let blocks = lawful_blocks(alloc, case, &text)?;
    let pieces = block_pieces(alloc, case, &blocks)?;
    let duties = lawful_duties(alloc, case, &text, &blocks, &pieces)?;
    let anew = printed_plan(alloc, case, &text, &blocks, pieces.as_slice(), &duties)?;
    let cert = certificate(alloc, case, &text, &blocks, &duties, anew.len() as u32)?;
    check_class_prices(case, &text, &blocks, &duties, &cert)?;
    check_covers(alloc, case, &text, &blocks, &duties, &anew, &cert)?;
    bounds_shown(alloc, case, &text, &blocks, &duties, &cert)?;
    Ok(Answered::Yes {
        vehicles: blocks.columns.len() as u64,
        block_cost: plan_cost(&blocks),
        duties: duties.columns.len() as u64,
        duty_cost: plan_cost(&duties),
    })
}

/// Whether a plan and its certificate hold, or the first reason against them. A yes implies that the plan is lawful, that its tables are
/// those of its blocks and duties, and that no plan has fewer vehicles or drivers or lower costs than its bounds.
///
/// The reasons come in the order of [`Reason`](crate::Reason), and of one kind the first by its numbers: trips and pieces by their numbers,
/// from 0, blocks and duties by those of their rows. Blocks are numbered as the tables number them; the pieces and duties are then judged
/// once more over the blocks in printed order, as tables are written.
///
/// The table `rec_frt` can be written and has exactly one row of the day's version for each trip of the day; no number of a trip is above
/// 10^18; the tables have fewer than 2^32 - 1 rows each. It takes time in the order of the marks times the items (a mark is compared with
/// those of its class and item alone where the marks stand by class and item), and beside that of the tables' fields.
///
/// # Errors
///
/// `Memory` where memory runs out, and for nothing else.
pub fn check(alloc: Global, case: &Case<'_>) -> Result<Answered, Memory>
    requires { IsCase case.now }
    ensures { IfOk result (IsAnswer case.now) }
{
    match answer_of_tests(alloc, case) {
        Ok(answer) => Ok(answer),
        Err(Stop::Against(reason)) => Ok(Answered::No(reason)),
        Err(Stop::Memory) => Err(Memory),
    }
}
