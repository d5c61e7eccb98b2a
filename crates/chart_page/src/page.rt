//! The page: the values with their bounds, the chart of the blocks and the chart of the duties.
#![tactic(auto, using(crate::proofs::PageLemmas::page_steps))]

ghost use Rattle.std.specs.Prelude.{◌≡◌, ◌++◌, ◌≤◌, OnOk, IfOk};
ghost use Rattle.chart_page.specs.Page as spec;
ghost use Rattle.chart_page.specs.Frame.{starts_of as starts_spec};
ghost use Rattle.chart_page.specs.Bars.{IsDrawn};
ghost use Rattle.chart_page.specs.Parts.{written};
ghost use Rattle.plan_rows.specs.Tables.{Gives};

use crate::blocks::push_block_chart;
use crate::duties::push_duty_chart;
use crate::layout::{Hours, hours_of};
use crate::marks::Mark;
use crate::parts::{Part, push_parts};
use plan_core::{Bytes, Memory};
use plan_rows::{BoundRow, Pass, PlanTable, RowFault, Sheet, read_sheet, table_of};
use std::alloc::{AllocError, Global};
use vdv451_text::Table;

/// The words for a pass.
fn pass_words(pass: Pass) -> Mark
    ensures { result ≡ spec.pass_words pass }
{
    match pass {
        Pass::BlockNumber => Mark::BlockNumber,
        Pass::BlockCost => Mark::BlockCost,
        Pass::DutyNumber => Mark::DutyNumber,
        Pass::DutyCost => Mark::DutyCost,
    }
}

/// A distance in per cent with one decimal, or a dash.
fn push_distance(out: &mut Vec<u8>, table: &Table, distance: Option<u64>) -> Result<(), Memory>
    ensures { OnOk result (out.new.items ≡ out.old.items ++ written table.now (spec.distance_parts distance)) }
{
    match distance {
        Some(thousandths) => push_parts(
            out,
            table,
            &[
                Part::Number(thousandths / 10),
                Part::Own(Mark::Dot),
                Part::Number(thousandths % 10),
                Part::Own(Mark::PerCent),
                Part::Own(Mark::RowClose),
            ],
        ),
        None => push_parts(
            out,
            table,
            &[Part::Own(Mark::Dash), Part::Own(Mark::RowClose)],
        ),
    }
}

fn push_values(out: &mut Vec<u8>, table: &Table, row: &BoundRow) -> Result<(), Memory>
    ensures { OnOk result (out.new.items ≡ out.old.items ++ written table.now (spec.value_parts row.now)) }
{
    push_parts(
        out,
        table,
        &[
            Part::Own(Mark::RowOpen),
            Part::Own(pass_words(row.pass)),
            Part::Own(Mark::ValueOpen),
            Part::Number(row.value),
            Part::Own(Mark::NextCell),
            Part::Number(row.bound),
            Part::Own(Mark::NextCell),
        ],
    )
}

/// A value with its bound and their distance.
fn push_bound(out: &mut Vec<u8>, table: &Table, row: &BoundRow) -> Result<(), Memory>
    ensures { OnOk result (out.new.items ≡ out.old.items ++ written table.now (spec.bound_parts row.now)) }
{
    push_values(out, table, row)?;
    push_distance(out, table, row.distance)
}

fn push_bounds(out: &mut Vec<u8>, table: &Table, bounds: &[BoundRow]) -> Result<(), Memory>
    ensures { OnOk result (out.new.items ≡ out.old.items ++ spec.bounds_text table.now bounds.now) }
{
    for row in bounds {
        push_bound(out, table, row)?;
    }
    Ok(())
}

/// The head of the page with the values and their bounds.
fn push_head(out: &mut Vec<u8>, table: &Table, sheet: &Sheet) -> Result<(), Memory>
    ensures { OnOk result (out.new.items ≡ out.old.items ++ written table.now (spec.head_parts sheet.now)) }
{
    push_parts(
        out,
        table,
        &[
            Part::Own(Mark::Head),
            Part::Own(Mark::Style),
            Part::Own(Mark::Body),
        ],
    )?;
    push_bounds(out, table, sheet.duties.bounds.as_slice())?;
    push_parts(out, table, &[Part::Own(Mark::Blocks)])
}

/// The two charts.
fn push_charts(
    alloc: Global,
    out: &mut Vec<u8>,
    table: &Table,
    sheet: &Sheet,
    hours: Hours,
    starts: &[u32],
) -> Result<(), Memory>
    ensures { OnOk result (out.new.items ≡ out.old.items ++ written table.now (spec.charts_parts sheet.now hours starts.now)) }
{
    push_block_chart(alloc, out, table, &sheet.blocks, hours, starts)?;
    push_parts(out, table, &[Part::Own(Mark::Duties)])?;
    push_duty_chart(alloc, out, table, &sheet.duties, hours, starts)
}

/// The starts of the hours, and the end of the last.
fn starts_of(alloc: Global, hours: Hours) -> Result<Vec<u32>, AllocError>
    requires first { hours.first ≤ 2000000 }
    requires count { hours.count ≤ 2000000 }
    ensures { IfOk result (λ starts. starts.items ≡ starts_spec hours) }
{
    let mut starts = Vec::new(alloc);
    for hour in hours.first..hours.first + hours.count + 1 {
        starts.push(hour)?;
    }
    Ok(starts)
}

/// All parts of a page, over the hours of its charts and their starts.
fn push_page(
    alloc: Global,
    out: &mut Vec<u8>,
    table: &Table,
    sheet: &Sheet,
    hours: Hours,
    starts: &[u32],
) -> Result<(), Memory>
    ensures { OnOk result (out.new.items ≡ out.old.items ++ written table.now (spec.page_over sheet.now hours starts.now)) }
{
    push_head(out, table, sheet)?;
    push_charts(alloc, out, table, sheet, hours, starts)?;
    push_parts(
        out,
        table,
        &[
            Part::Own(Mark::Tail),
            Part::Own(Mark::Script),
            Part::Own(Mark::End),
        ],
    )
}

/// The page of a plan.
fn page(alloc: Global, table: &Table, sheet: &Sheet) -> Result<Vec<u8>, Memory>
    ensures { IfOk result (λ page. page.items ≡ written table.now (spec.page_parts sheet.now)) }
{
    let hours = hours_of(sheet);
    let starts = starts_of(alloc, hours)?;
    let mut out = Vec::new(alloc);
    push_page(alloc, &mut out, table, sheet, hours, starts.as_slice())?;
    Ok(out)
}

/// The picture of a plan as the bytes of one page of HTML.
///
/// The page shows the values of the plan with their bounds, the legs of the blocks as bars by pool, and the duties with their pieces and
/// pauses as bars by group. A bar lies from its start to its end: a unit along is a second. Each row of X_UMLAUF_TEIL is one bar, and so
/// is each row of X_DIENST and of X_DIENST_STUECK. The page needs nothing else: its style and its script are its own, and what stems
/// from the tables stands in it as numbers and as text in which no byte is markup.
///
/// # Errors
///
/// `Form` with the first place that is not drawn, table by table in this order: REC_FRT, REC_UMLAUF, X_UMLAUF, X_UMLAUF_TEIL, X_DIENST,
/// X_DIENST_STUECK and X_SCHRANKE. A table that is missing or stands twice has row 0; then comes the first row beyond the 3,000th
/// (30,000th of X_UMLAUF_TEIL, 4th of X_SCHRANKE), and then the first row that says nothing. `Memory` where memory runs out.
pub fn chart(alloc: Global, tables: &[Table]) -> Result<Bytes, RowFault>
    ensures page { Gives result (spec.chart_of tables.now) }

    // Its bars are those of the legs, the duties, the pauses and the pieces, each once, from its start to its end.
    ensures drawn { IfOk result (λ page. IsDrawn tables.now page) }
{
    let table = match table_of(tables, PlanTable::Trips, 3_000) {
        Ok(table) => table,
        Err(fault) => return Err(fault),
    };
    let sheet = read_sheet(alloc, tables)?;
    Ok(Bytes::from_vec(page(alloc, table, &sheet)?))
}
