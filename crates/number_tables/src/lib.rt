//! Tables of whole numbers, which the planner makes of its own (VDV 451, columns `num[19.0]`), how one is found among others, and the
//! numbers of its rows.
#![tactic(auto)]

mod numbers;
mod rows;
mod signed;
mod single;
mod tables;

pub use numbers::{counted, number_at, number_in, up_to, word, word_up_to};
pub use rows::number_row;
pub use signed::signed_row;
pub use single::single_table;
pub use tables::number_table;
