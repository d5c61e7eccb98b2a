//! The tables of a plan, in the text form of VDV 451: the vehicle blocks and the trips with the numbers of their blocks (REC_UMLAUF and
//! REC_FRT with UM_UID, both after VDV 452); what the blocks cost and their legs (X_UMLAUF, X_UMLAUF_TEIL); the duties and their pieces
//! (X_DIENST, X_DIENST_STUECK); and the bounds (X_SCHRANKE).
#![tactic(auto)]

mod answer;
mod blocks;
mod bounds;
mod duties;
mod legs;
mod numbers;
mod printed;
mod tables;
mod text;
mod trips;

pub use answer::Answer;
pub use printed::in_printed_order;
pub use tables::plan_tables;
pub use text::{DutyRow, PlanFault, PlanText};
