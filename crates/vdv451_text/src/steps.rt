//! One line: where it leads from where the reading stands.

ghost use Rattle.std.specs.Prelude.{◌≡◌};
ghost use Rattle.std.specs.Option.{option_copied};
ghost use Rattle.vdv451_text.specs.Answers.{AnswersAs};
ghost use Rattle.vdv451_text.specs.Lines.{Says, line_of};
ghost use Rattle.vdv451_text.specs.RowView.{misplaced_kind};
ghost use Rattle.vdv451_text.specs.Machine.{Open as OpenState, Named as NamedState, Columned as ColumnedState, InRows as InRowsState, Ended as EndedState, step};

use crate::counts::{check_end, check_eof};
use crate::fault::TextKind;
use crate::heads::{read_heads, read_name, read_names};
use crate::lines::{Keyword, Line, read_line};
use crate::record::read_row;
use crate::state::State;
use crate::table::{Field, Head, Table};
use plan_core::{Bytes, Seq};
use std::alloc::Global;

/// Why a line may not stand where the tables have begun: its keyword is unknown, or out of order.
fn why_misplaced(keyword: Keyword) -> TextKind
    ensures { result ≡ misplaced_kind keyword }
{
    match keyword {
        Keyword::Unknown => TextKind::Keyword,
        _ => TextKind::Order,
    }
}

/// Where a table or `eof` may stand.
fn step_open(
    alloc: Global,
    begun: bool,
    tables: Seq<Table>,
    keyword: Keyword,
    rest: Option<&[u8]>,
) -> Result<State, TextKind>
    ensures { AnswersAs result (step (OpenState begun tables) (Says keyword (option_copied rest.entry))) }
{
    match keyword {
        Keyword::Com => Ok(State::Open(begun, tables)),
        Keyword::Tbl => {
            let name = read_name(alloc, rest)?;
            Ok(State::Named(tables, name))
        }
        Keyword::Eof => {
            check_eof(alloc, rest, tables.len())?;
            Ok(State::Ended(tables))
        }
        Keyword::Header | Keyword::Unknown if !begun => Ok(State::Open(begun, tables)),
        _ => Err(why_misplaced(keyword)),
    }
}

/// Behind `tbl`.
fn step_named(
    alloc: Global,
    tables: Seq<Table>,
    name: Bytes,
    keyword: Keyword,
    rest: Option<&[u8]>,
) -> Result<State, TextKind>
    ensures { AnswersAs result (step (NamedState tables name) (Says keyword (option_copied rest.entry))) }
{
    match keyword {
        Keyword::Com => Ok(State::Named(tables, name)),
        Keyword::Atr => {
            let names = read_names(alloc, rest)?;
            Ok(State::Columned(tables, name, names))
        }
        _ => Err(why_misplaced(keyword)),
    }
}

/// Behind `atr`.
fn step_columned(
    alloc: Global,
    tables: Seq<Table>,
    name: Bytes,
    names: Seq<Bytes>,
    keyword: Keyword,
    rest: Option<&[u8]>,
) -> Result<State, TextKind>
    ensures { AnswersAs result (step (ColumnedState tables name names) (Says keyword (option_copied rest.entry))) }
{
    match keyword {
        Keyword::Com => Ok(State::Columned(tables, name, names)),
        Keyword::Frm => {
            let columns = read_heads(alloc, names.as_slice(), rest)?;
            Ok(State::InRows(tables, name, columns, Seq::new(alloc)))
        }
        _ => Err(why_misplaced(keyword)),
    }
}

/// Behind `frm` and `rec`.
fn step_in_rows(
    alloc: Global,
    mut tables: Seq<Table>,
    name: Bytes,
    columns: Seq<Head>,
    mut rows: Seq<Seq<Field>>,
    keyword: Keyword,
    rest: Option<&[u8]>,
) -> Result<State, TextKind>
    ensures { AnswersAs result (step (InRowsState tables name columns rows) (Says keyword (option_copied rest.entry))) }
{
    match keyword {
        Keyword::Com => Ok(State::InRows(tables, name, columns, rows)),
        Keyword::Rec => {
            let row = read_row(alloc, columns.as_slice(), rest)?;
            rows.push(row)?;
            Ok(State::InRows(tables, name, columns, rows))
        }
        Keyword::End => {
            check_end(alloc, rest, rows.len())?;
            tables.push(Table {
                name,
                columns,
                rows,
            })?;
            Ok(State::Open(true, tables))
        }
        _ => Err(why_misplaced(keyword)),
    }
}

/// Behind `eof`.
fn step_ended(tables: Seq<Table>, keyword: Keyword, rest: Option<&[u8]>) -> Result<State, TextKind>
    ensures { AnswersAs result (step (EndedState tables) (Says keyword (option_copied rest.entry))) }
{
    match keyword {
        Keyword::Com => Ok(State::Ended(tables)),
        _ => Err(why_misplaced(keyword)),
    }
}

/// A line with a keyword.
fn step_keyword(
    alloc: Global,
    state: State,
    keyword: Keyword,
    rest: Option<&[u8]>,
) -> Result<State, TextKind>
    ensures { AnswersAs result (step state (Says keyword (option_copied rest.entry))) }
{
    match state {
        State::Open(begun, tables) => step_open(alloc, begun, tables, keyword, rest),
        State::Named(tables, name) => step_named(alloc, tables, name, keyword, rest),
        State::Columned(tables, name, names) => {
            step_columned(alloc, tables, name, names, keyword, rest)
        }
        State::InRows(tables, name, columns, rows) => {
            step_in_rows(alloc, tables, name, columns, rows, keyword, rest)
        }
        State::Ended(tables) => step_ended(tables, keyword, rest),
    }
}

/// One line, from where the reading stands.
pub fn stepped(alloc: Global, state: State, line: &[u8]) -> Result<State, TextKind>
    ensures { AnswersAs result (step state (line_of line.now)) }
{
    match read_line(line) {
        Line::Blank => Ok(state),
        Line::Says(keyword, rest) => step_keyword(alloc, state, keyword, rest),
        Line::NoKeyword => Err(TextKind::Keyword),
    }
}
