//! The rows of the network, line by line and point by point, and of its pools and groups.

ghost use Rattle.std.specs.Prelude.{◌≡◌, ◌≤◌, ◌++◌, ◌∷◌, [], true, false, All, IfOk, OnOk};
ghost use Rattle.day_maker.specs.Made.{course_row, link_row, part_rows, position_of as position_of_spec, rows_for as rows_for_of, rows_of, type_of as type_of_spec, way_row, way_rows, way_seconds as way_seconds_of};

use crate::cells::{Cell, add};
use crate::shares::{add_group, add_pool};
use plan_core::{Memory, Seq};
use std::alloc::Global;
use vdv451_text::Field;

/// What the rows of a table tell of a line or a point, of a pool or a group.
#[derive(Clone, Copy, Debug)]
pub enum Part {
    /// REC_ORT, by points.
    Points,
    /// REC_SEL, by lines.
    Lengths,
    /// SEL_FZT_FELD, by lines.
    Times,
    /// ORT_HZTF, by lines.
    Dwells,
    /// REC_LID, by lines.
    Variants,
    /// LID_VERLAUF, by lines.
    Courses,
    /// UEB_FZT, by points.
    Deadheads,
    /// X_WEG, by points.
    Ways,
    /// X_ABLOESE, by points.
    Reliefs,
    /// X_HOF, by pools, each of so many vehicles.
    Pools(u32),
    /// X_FAHRER, by groups, each of so many drivers.
    Groups(u32),
}

/// Terminals and depots.
pub(crate) const PLACES: [u64; 10] = [1, 2, 3, 4, 5, 6, 7, 8, 101, 102];

/// The type of a point: a depot is of type 2.
fn type_of(nr: u64) -> u64
    ensures value { result ≡ type_of_spec nr }
    ensures small { result ≤ 2 }
{
    if nr <= 100 { 1 } else { 2 }
}

/// Where a point lies.
fn position_of(nr: u64) -> u64
    requires { nr ≤ 1000 }
    ensures value { result ≡ position_of_spec nr }
    ensures small { result ≤ 1000 }
{
    if nr == 101 {
        2
    } else if nr == 102 {
        7
    } else {
        nr
    }
}

/// The seconds between two terminals or depots.
fn way_seconds(from: u64, to: u64) -> u64
    requires from { from ≤ 1000 }
    requires to { to ≤ 1000 }
    ensures value { result ≡ way_seconds_of from to }
    ensures small { result ≤ 1000000 }
{
    let p = position_of(from);
    let q = position_of(to);
    let depot = if from <= 100 {
        if to <= 100 { 0 } else { 300 }
    } else {
        300
    };
    300 * (p.saturating_sub(q) + q.saturating_sub(p)) + depot
}

/// Puts behind others the row of a deadhead.
fn add_deadhead(alloc: Global, rows: &mut Seq<Seq<Field>>, from: u64, to: u64) -> Result<(), Memory>
    requires from { from ≤ 1000 }
    requires to { to ≤ 1000 }
    ensures { OnOk result (rows.new ≡ rows.old ++ rows_of (way_row true from to ∷ [])) }
{
    let one = Cell::Number(1);
    add(
        alloc,
        rows,
        &[
            one,
            one,
            one,
            Cell::Number(type_of(from)),
            Cell::Number(from),
            Cell::Number(type_of(to)),
            Cell::Number(to),
            Cell::Number(way_seconds(from, to)),
        ],
    )
}

/// Puts behind others the row of a way.
fn add_walk(alloc: Global, rows: &mut Seq<Seq<Field>>, from: u64, to: u64) -> Result<(), Memory>
    requires from { from ≤ 1000 }
    requires to { to ≤ 1000 }
    ensures { OnOk result (rows.new ≡ rows.old ++ rows_of (way_row false from to ∷ [])) }
{
    add(
        alloc,
        rows,
        &[
            Cell::Number(type_of(from)),
            Cell::Number(from),
            Cell::Number(type_of(to)),
            Cell::Number(to),
            Cell::Number(way_seconds(from, to)),
        ],
    )
}

/// Puts behind others the row of a way, as the table of deadheads or of ways has it.
fn add_way(
    alloc: Global,
    rows: &mut Seq<Seq<Field>>,
    deadhead: bool,
    from: u64,
    to: u64,
) -> Result<(), Memory>
    requires from { from ≤ 1000 }
    requires to { to ≤ 1000 }
    ensures { OnOk result (rows.new ≡ rows.old ++ rows_of (way_row deadhead from to ∷ [])) }
{
    if deadhead {
        add_deadhead(alloc, rows, from, to)
    } else {
        add_walk(alloc, rows, from, to)
    }
}

/// Puts behind others the rows of the ways from a point to each other one.
fn add_ways(
    alloc: Global,
    rows: &mut Seq<Seq<Field>>,
    deadhead: bool,
    from: u64,
    tos: &[u64],
) -> Result<(), Memory>
    requires from { from ≤ 1000 }
    requires tos { All (λ to. to ≤ 1000) tos.now }
    ensures { OnOk result (rows.new ≡ rows.old ++ rows_of (way_rows deadhead from tos.now)) }
{
    for to in tos {
        if from != *to {
            add_way(alloc, rows, deadhead, from, *to)?;
        }
    }
    Ok(())
}

/// Puts behind others the row of a section of a line, as the table of lengths or of times has it.
fn add_link(
    alloc: Global,
    rows: &mut Seq<Seq<Field>>,
    timed: bool,
    line: u64,
    from: u64,
    to: u64,
) -> Result<(), Memory>
    requires line { line ≤ 1000 }
    requires from { from ≤ 2000 }
    requires to { to ≤ 2000 }
    ensures { OnOk result (rows.new ≡ rows.old ++ rows_of (link_row timed line from to ∷ [])) }
{
    let one = Cell::Number(1);
    let from = Cell::Number(from);
    let to = Cell::Number(to);
    if timed {
        let seconds = Cell::Number(2_400 + 60 * line);
        add(alloc, rows, &[one, one, one, one, from, to, one, seconds])
    } else {
        let metres = Cell::Number(30_000 + 500 * line);
        add(alloc, rows, &[one, one, one, from, to, one, metres])
    }
}

/// Puts behind others the row of a point of a stop sequence.
fn add_stop(
    alloc: Global,
    rows: &mut Seq<Seq<Field>>,
    line: u64,
    out: bool,
    place: u64,
    point: u64,
) -> Result<(), Memory>
    requires line { line ≤ 1000 }
    requires place { place ≤ 3 }
    requires point { point ≤ 2000 }
    ensures { OnOk result (rows.new ≡ rows.old ++ rows_of (course_row line out place point ∷ [])) }
{
    let one = Cell::Number(1);
    let place = Cell::Number(place);
    add(
        alloc,
        rows,
        &[
            one,
            place,
            Cell::Number(line),
            Cell::Variant(out),
            one,
            Cell::Number(point),
        ],
    )
}

/// Puts behind others the rows of the two sections of a variant.
fn add_links(
    alloc: Global,
    rows: &mut Seq<Seq<Field>>,
    timed: bool,
    line: u64,
    from: u64,
    over: u64,
    to: u64,
) -> Result<(), Memory>
    requires line { line ≤ 1000 }
    requires from { from ≤ 2000 }
    requires over { over ≤ 2000 }
    requires to { to ≤ 2000 }
    ensures { OnOk result (rows.new ≡ rows.old ++ rows_of (link_row timed line from over ∷ link_row timed line over to ∷ [])) }
{
    add_link(alloc, rows, timed, line, from, over)?;
    add_link(alloc, rows, timed, line, over, to)
}

/// Puts behind others the rows of the stop sequence of a variant.
fn add_course(
    alloc: Global,
    rows: &mut Seq<Seq<Field>>,
    line: u64,
    out: bool,
    from: u64,
    over: u64,
    to: u64,
) -> Result<(), Memory>
    requires line { line ≤ 1000 }
    requires from { from ≤ 2000 }
    requires over { over ≤ 2000 }
    requires to { to ≤ 2000 }
    ensures { OnOk result (rows.new ≡ rows.old ++ rows_of (course_row line out 1 from ∷ course_row line out 2 over ∷ course_row line out 3 to ∷ [])) }
{
    add_stop(alloc, rows, line, out, 1, from)?;
    add_stop(alloc, rows, line, out, 2, over)?;
    add_stop(alloc, rows, line, out, 3, to)
}

/// Puts behind others the rows that belong to a line or a point, a pool or a group.
fn add_part(alloc: Global, rows: &mut Seq<Seq<Field>>, part: Part, n: u64) -> Result<(), Memory>
    requires { n ≤ 1000 }
    ensures { OnOk result (rows.new ≡ rows.old ++ rows_of (part_rows part n)) }
{
    let one = Cell::Number(1);
    let number = Cell::Number(n);
    match part {
        Part::Points => add(alloc, rows, &[one, Cell::Number(type_of(n)), number]),
        Part::Lengths => {
            add_links(alloc, rows, false, n, n, 10 + n, n + 1)?;
            add_links(alloc, rows, false, n, n + 1, 10 + n, n)
        }
        Part::Times => {
            add_links(alloc, rows, true, n, n, 10 + n, n + 1)?;
            add_links(alloc, rows, true, n, n + 1, 10 + n, n)
        }
        Part::Dwells => {
            let dwell = Cell::Number(60);
            add(alloc, rows, &[one, one, one, Cell::Number(10 + n), dwell])
        }
        Part::Variants => {
            add(alloc, rows, &[one, number, Cell::Variant(true), one])?;
            add(alloc, rows, &[one, number, Cell::Variant(false), one])
        }
        Part::Courses => {
            add_course(alloc, rows, n, true, n, 10 + n, n + 1)?;
            add_course(alloc, rows, n, false, n + 1, 10 + n, n)
        }
        Part::Deadheads => add_ways(alloc, rows, true, n, &PLACES),
        Part::Ways => add_ways(alloc, rows, false, n, &PLACES),
        Part::Reliefs => add(alloc, rows, &[one, number]),
        Part::Pools(trips) => add_pool(alloc, rows, n, trips),
        Part::Groups(trips) => add_group(alloc, rows, n, trips),
    }
}

/// The rows of some lines or points, pools or groups, one after another.
pub(crate) fn rows_for(
    alloc: Global,
    part: Part,
    numbers: &[u64],
) -> Result<Seq<Seq<Field>>, Memory>
    requires { All (λ n. n ≤ 1000) numbers.now }
    ensures { IfOk result (λ rows. rows ≡ rows_of (rows_for_of part numbers.now)) }
{
    let mut rows = Seq::new(alloc);
    for n in numbers {
        add_part(alloc, &mut rows, part, *n)?;
    }
    Ok(rows)
}
