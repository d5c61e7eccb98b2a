//! Tables as VDV 451 text, read and written.
//!
//! VDV 451 is the exchange format of German public transit ("ÖPNV-Schnittstellenformat") in which the tables of VDV 452 are
//! handed on. The profile that this crate reads:
//!
//! - **Lines.** A line ends with LF; one CR directly before it belongs to the line end, and so does a CR at the end of a last
//!   line without LF. The bytes EF BB BF before the first line are passed over. Blanks are space and tab. Lines count from 1,
//!   those of blanks alone too.
//! - **Keywords.** A line is, behind blanks, a keyword of three ASCII letters in either case, blanks, and the line end or a `;`
//!   and fields with `;` between them. Header lines (`mod src chs ver ifv dve fft`) and unknown keywords stand before the
//!   tables, and are not looked at further; `com` lines and blank lines stand anywhere; nothing else stands behind `eof`.
//! - **Tables.** `tbl` with the name, `atr` with 1 to 200 column names, `frm` with a format for each, a `rec` for each row, and
//!   `end` with the number of rows. After the last table stands `eof` with the number of tables. Names are of ASCII letters,
//!   digits, `_`, `-` and `.`, and are made capitals.
//! - **Fields.** Blanks round a field are passed over. A field is bare, or a text in quotes in which a quote is doubled and a `;`
//!   separates nothing. Nothing, or bare `NULL` on `rec`, is [`Field::Empty`]; digits with a sign or none, in a column
//!   `num[w.0]` and within 64 bits, are [`Field::Num`]; other bare bytes are [`Field::Raw`]. A last field with nothing in it is
//!   dropped on `atr`, and on `frm` and `rec` where it is one too many.
//!
//! [`read_file`] gives the tables that bytes spell, or names the first line that no text of this profile begins with.
//! [`is_plain`] tells which tables have a spelling, and [`write_tables`] writes the one that this crate commits to.
#![tactic(auto)]

mod copies;
mod counts;
mod fault;
mod few;
mod fields;
mod heads;
mod lines;
mod machine;
mod number;
mod pieces;
mod plain;
mod reading;
mod record;
mod state;
mod steps;
mod table;
mod writing;

pub use copies::{copied_columns, copied_row};
pub use fault::{TextFault, TextKind};
pub use number::spelled_number;
pub use plain::{is_number_format, is_plain};
pub use reading::read_file;
pub use table::{Field, FieldBytes, Head, Table};
pub use writing::write_tables;
