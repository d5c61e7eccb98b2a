//! The blocks of a plan as its tables say them: whether the tables are a plan, and its blocks one.
#![tactic(auto)]

ghost use Rattle.std.specs.Prelude.{◌≡◌, ◌≤◌, ◌<◌, ◌+◌, ◌^◌, All, false, IfErr, IfOk, Ok, Some, length, slice_get, slice_index};
ghost use Rattle.plan_core.specs.Limits.{most_items};
ghost use Rattle.cover_core.specs.FirstLeast.{AreCheap};
ghost use Rattle.cover_core.specs.Plans.{all_items};
ghost use Rattle.plan_check.specs.Verdicts.{IsVerdict};
ghost use Rattle.cert_check.specs.Judging.{blocks_in, fids_in, pools_in, text_in};
ghost use Rattle.cert_check.specs.Reasons.{HasBlocks};
ghost use Rattle.cert_check.specs.Steps.{IsCase, IsStop};

use crate::case::Case;
use crate::reason::Reason;
use crate::stop::Stop;
use cover_core::{Plan, Worth};
use depot_network::PoolNet;
use plan_check::{PlanVerdict, check_plan};
use plan_read::read_plan;
use std::alloc::Global;
use umlauf_write::{PlanFault, PlanText};

/// The plan as its tables say it.
pub(crate) fn plan_text(alloc: Global, case: &Case<'_>) -> Result<PlanText, Stop>
    requires { IsCase case.now }
    ensures said { IfOk result (λ text. text_in case.now ≡ Ok text) }
    ensures bounds { IfOk result (λ text. All (λ bound. bound < 2 ^ 63) text.bounds) }
    ensures stop { IfErr result (IsStop case.now) }
{
    match read_plan(alloc, case.day, case.plan) {
        Ok(text) => Ok(text),
        Err(PlanFault::Form { table, row }) => Err(Stop::Against(Reason::PlanForm { table, row })),
        Err(PlanFault::Memory) => Err(Stop::Memory),
    }
}

/// The blocks that the tables say, with their costs, or why they are no plan: a trip, a block or a pool.
pub(crate) fn lawful_blocks(alloc: Global, case: &Case<'_>, text: &PlanText) -> Result<Plan, Stop>
    requires case { IsCase case.now }
    requires said { text_in case.now ≡ Ok text.now }
    ensures blocks { IfOk result (λ blocks. HasBlocks case.now text.now blocks) }
    ensures few { IfOk result (λ blocks. length blocks.columns ≤ most_items) }
    ensures cheap { IfOk result (λ blocks. AreCheap blocks.columns) }
    ensures stop { IfErr result (IsStop case.now) }
{
    let net = PoolNet::new(case.day, Worth::Cost);
    match check_plan(alloc, &net, text.blocks.columns.as_slice())? {
        PlanVerdict::Lawful(blocks) => Ok(blocks),
        PlanVerdict::Times { item, count } => Err(Stop::Against(Reason::TripTimes {
            fid: case.day.trip(item).fid,
            times: count,
        })),
        PlanVerdict::Unlawful { place } => {
            Err(Stop::Against(Reason::BlockUnlawful { block: place + 1 }))
        }
        PlanVerdict::Over { class, used } => {
            let pool = &case.day.params().pools()[class as usize];
            Err(Stop::Against(Reason::PoolOver {
                pool: pool.number,
                used,
                cap: pool.cap,
            }))
        }
    }
}
