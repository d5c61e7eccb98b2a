//! Where the reading of a text stands.

use crate::table::{Field, Head, Table};
use plan_core::{Bytes, Seq};

/// Where the reading stands, each with the tables read so far.
#[derive(Drop)]
pub enum State {
    /// A table or `eof` may stand; before the first of them (`false`) also a header line.
    Open(bool, Seq<Table>),
    /// Behind `tbl`, with the name.
    Named(Seq<Table>, Bytes),
    /// Behind `atr`, with the columns' names.
    Columned(Seq<Table>, Bytes, Seq<Bytes>),
    /// Behind `frm` or a `rec`, with the columns and the rows so far.
    InRows(Seq<Table>, Bytes, Seq<Head>, Seq<Seq<Field>>),
    /// Behind `eof`.
    Ended(Seq<Table>),
}
