//! The marks of a table by their passes, for the two tables of marks.

ghost use Rattle.std.specs.Prelude.{◌≡◌, ◌<◌, [], ℕ, Option, List, IfNone, IfOk, IfSome, OnOk, length};
ghost use Rattle.std.specs.List.{filter_map};
ghost use Rattle.plan_cert.specs.Marks as spec;
ghost use Rattle.plan_cert.specs.Numbers as numbers;
ghost use Rattle.plan_cert.specs.Places.{Gives, first_wrong};
ghost use Rattle.plan_cert.specs.Shapes.{HaveFew};

use crate::cert::Pass;
use crate::fault::{CertFault, CertTable};
use crate::shape::Shape;
use crate::table::{no_wrong, table_of, whole};
use plan_core::{Memory, Seq};
use std::alloc::Global;
use vdv451_text::{Field, Head, Table};

/// A mark of a pass.
#[derive(Clone, Copy)]
pub struct PassMark<M> {
    /// The pass.
    pub pass: Pass,
    /// The mark.
    pub mark: M,
}

/// The marks of two passes over the same items, in the order of their rows.
#[derive(Drop)]
pub struct PassMarks<M> {
    /// Those of the pass that plans by numbers: pass 1 or 3.
    pub of_number: Seq<M>,
    /// Those of the pass that plans by costs: pass 2 or 4.
    pub of_cost: Seq<M>,
}

/// A table of marks, and the two passes that they are of.
#[derive(Clone, Copy)]
pub struct MarkTable {
    /// The table.
    pub table: CertTable,
    /// The pass that plans by numbers.
    pub by_number: Pass,
    /// The pass that plans by costs.
    pub by_cost: Pass,
}

/// Marks of one kind: where they stand, and what a row says.
pub(crate) trait MarkRow: Copy + Drop {
    ghost use Rattle.vdv451_text.specs.declared.table.Field.{Field};
    ghost use Rattle.vdv451_text.specs.declared.table.Head.{Head};
    ghost use Rattle.plan_cert.specs.declared.marks.MarkTable.{MarkTable};
    ghost use Rattle.plan_cert.specs.declared.marks.PassMark.{PassMark};
    ghost use Rattle.plan_cert.specs.declared.shape.Shape.{Shape};

    /// Where the columns of the table stand.
    type Columns: Drop;

    /// The table and the passes.
    ghost kept_in: { MarkTable };

    /// The columns of a table.
    ghost columns_of: { List Head → Option Self.Columns };

    /// What a row says.
    ghost entry_of: { Shape → Self.Columns → List Field → Option (PassMark Self) };

    /// The table and the passes.
    fn table_and_passes() -> MarkTable
        ensures { result ≡ kept_in };

    /// The columns of a table, where all are there.
    fn columns(heads: &[Head]) -> Option<Self::Columns>
        ensures { result ≡ columns_of heads.now };

    /// The mark of a row.
    fn entry(shape: &Shape, columns: &Self::Columns, row: &[Field]) -> Option<PassMark<Self>>
        requires { HaveFew shape.now.classes }
        ensures { result ≡ entry_of shape.now columns.now row.now };
}

/// Whether two passes are one.
fn is_same(a: Pass, b: Pass) -> bool
    ensures { result ≡ numbers.same_pass a b }
{
    a == b
}

/// Puts a mark behind those of a pass, if it is of that pass.
fn put_when<M: Copy>(marks: &mut Seq<M>, pass: Pass, own: Pass, mark: M) -> Result<(), Memory>
    ensures { OnOk result (marks.new ≡ spec.put_when marks.old pass own mark) }
{
    if is_same(own, pass) {
        marks.push(mark)
    } else {
        Ok(())
    }
}

/// Puts a mark behind those of its pass.
fn put_mark<M: MarkRow>(marks: &mut PassMarks<M>, entry: PassMark<M>) -> Result<(), Memory>
    ensures { OnOk result (marks.new ≡ spec.with_mark M.kept_in marks.old entry) }
{
    let kept = M::table_and_passes();
    put_when(&mut marks.of_number, kept.by_number, entry.pass, entry.mark)?;
    put_when(&mut marks.of_cost, kept.by_cost, entry.pass, entry.mark)
}

/// Keeps the marks of rows, and finds the first row that gives none.
fn keep_marks<M: MarkRow>(
    shape: &Shape,
    columns: &M::Columns,
    rows: &[Seq<Field>],
    marks: &mut PassMarks<M>,
) -> Result<Option<usize>, Memory>
    requires few { HaveFew shape.now.classes }
    requires none { marks.old ≡ spec.kept_marks M.kept_in [] }
    ensures wrong { IfOk result (λ wrong. wrong ≡ first_wrong (M.entry_of shape.now columns.now) rows.now) }
    ensures within { IfOk result (λ wrong. IfSome wrong (λ place. place < length rows.now)) }
    ensures marks { IfOk result (λ wrong. IfNone wrong (marks.new ≡ spec.kept_marks M.kept_in (filter_map (M.entry_of shape.now columns.now) rows.now))) }
{
    for (place, row) in rows.iter().enumerate() {
        match M::entry(shape, columns, row.as_slice()) {
            None => return Ok(Some(place)),
            Some(entry) => put_mark(marks, entry)?,
        }
    }
    Ok(None)
}

/// The marks that the rows of a table give.
fn marks_in<M: MarkRow>(
    alloc: Global,
    shape: &Shape,
    columns: &M::Columns,
    rows: &[Seq<Field>],
) -> Result<PassMarks<M>, CertFault>
    requires { HaveFew shape.now.classes }
    ensures { Gives result (spec.marks_in M.kept_in (M.entry_of shape.now columns.now) rows.now) }
{
    let mut marks = PassMarks {
        of_number: Seq::new(alloc),
        of_cost: Seq::new(alloc),
    };
    let wrong = keep_marks::<M>(shape, columns, rows, &mut marks)?;
    no_wrong(M::table_and_passes().table, wrong)?;
    Ok(marks)
}

/// The marks of a table, which stands once and has its columns.
pub(crate) fn read_marks<M: MarkRow>(
    alloc: Global,
    shape: &Shape,
    tables: &[Table],
) -> Result<PassMarks<M>, CertFault>
    requires { HaveFew shape.now.classes }
    ensures { Gives result (spec.marks_of M.kept_in M.columns_of (M.entry_of shape.now) tables.now) }
{
    let which = M::table_and_passes().table;
    let table = table_of(tables, which)?;
    match M::columns(table.columns.as_slice()) {
        Some(columns) => marks_in::<M>(alloc, shape, &columns, table.rows.as_slice()),
        None => Err(whole(which)),
    }
}
