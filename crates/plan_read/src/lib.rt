//! Plans, read from the tables that they are written as (REC_FRT, X_UMLAUF, X_DIENST, X_DIENST_STUECK and X_SCHRANKE), or refused at
//! the first place where the tables are no plan.
#![tactic(auto)]

mod bounds;
mod fault;
mod gathering;
mod laws;
mod numbers;
mod own;
mod parts;
mod reading;
mod rows;
mod table;
mod told;

pub use laws::{plans_are_read_back, printed_once};
pub use reading::read_plan;
