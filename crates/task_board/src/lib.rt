//! A board of tasks that several workers claim, with a least value for each class that they share.
//!
//! The board is a row of atomic words: a counter of tasks, and one word for each class. A worker
//! steps at a [`Desk`], and each call is one atomic step on one word.
//!
//! - [`Desk::claim`] gives the worker a task that no other desk has been given, until none is left.
//! - [`Desk::look`] reads the least value by which any desk lowered a class, or 0.
//! - [`Desk::lower`] lowers it.
//! - [`Desk::split`] makes a second desk for another worker, and [`Desk::join`] takes it back.
//!
//! What a desk has done is its [`Sheet`], which only contracts see: each call's sheet grows by
//! exactly the entry that the call names. The board has a state condition that holds between any
//! two steps, whatever their order: the definition `IsKept` of `specs/Sheets.antt`. So a desk that
//! has taken in all others, and with them the whole share of 2^32 parts, knows that each number
//! was drawn once, and that each value that was looked at is 0 or one by which some desk lowered.
//! [`every_run_is_sound`] is the same law for a machine of plain data over all lists of steps.
//!
//! Nothing waits, and only [`Board::new`] takes memory. A board may be shared by threads, and a
//! desk may move from one to another.
#![tactic(auto)]

mod board;
mod desk;
mod machine;
mod sheet;

pub use board::close;
pub use desk::{Board, Desk};
pub use machine::every_run_is_sound;
pub use sheet::{Extent, Sheet};
