//! Why a day has no new plan.

use cert_check::Reason;
use plan_command::PlanFault;

/// Why a day has no new plan from a moment on.
#[derive(Drop)]
pub enum ReplanFault {
    /// The tables of the earlier plan are no plan of the day, whatever places there are: the first reason against them.
    OldPlan(Reason),
    /// What is left of the day has no plan. An item that rounding leaves is one of the rest, numbered there from 0 with the heads first, and
    /// has the name of its first trip or piece; the columns beside it are written out.
    Plan(PlanFault),
}
