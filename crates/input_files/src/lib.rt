//! Whole files in, their tables spelled out in order, and a whole text out.
//!
//! [`read_files`] reads files in the order of their names, each to its end, and spells out the tables of each (VDV 451, see
//! `vdv451_text`). A [`Stage`] says what the first of them is: planning files share one limit of bytes, and behind them a plan and a
//! certificate may come, each with a limit of its own. The first file that is not read, or whose text has a fault, refuses all, with a
//! [`FileFault`] that names it by its number. [`join_tables`] puts the tables of all files one behind another, [`split_plan`] takes the
//! plan and the certificate off the planning files, and [`split_earlier`] an earlier plan alone. [`read_whole`] and [`write_whole`] are the
//! transfer of one file and of one text; [`write_part`], [`write_number`] and [`write_line`] write a line on standard error, of which the rest
//! is left out where a write fails.
#![tactic(auto)]

mod fault;
mod inputs;
mod lines;
mod parts;
mod stage;
mod transfer;

pub use fault::FileFault;
pub use inputs::read_files;
pub use lines::{write_line, write_number, write_part};
pub use parts::{CheckParts, EarlierParts, join_tables, split_earlier, split_plan};
pub use stage::{MOST_BYTES, MOST_CERT, Stage};
pub use transfer::{PIECE, ReadRefusal, read_whole, write_whole};
