//! The settings of a plan, from the tables of this project: the depots with their vehicles, the groups
//! of drivers, which types of vehicles may serve a line, where drivers are relieved, and the ways of
//! drivers between points.
//!
//! Which columns of these tables hold points and types of vehicles is data, of which one rule speaks: a
//! point stands in REC_ORT and a type in MENGE_FZG_TYP. The first fault is the head of the list of all
//! faults in their order. The look-ups take no memory.
#![tactic(auto)]

mod fault;
mod indexes;
mod params;
mod reading;
mod row;
mod rows;
mod rule;
mod testing;

pub use fault::{ParamFault, ParamKind};
pub use params::Params;
pub use reading::read_params;
pub use rows::group::Group;
pub use rows::pool::Pool;
pub use rows::settings::Settings;
