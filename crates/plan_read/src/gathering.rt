//! Trips by their blocks and pieces by their duties, each gone over once.

ghost use Rattle.std.specs.Prelude.{◌≡◌, ◌<◌, ◌++◌, ◌∷◌, [], IfOk, OnOk, length, map, slice_index_or, slice_set};
ghost use Rattle.plan_read.specs.Gathering as spec;

use cover_core::{Column, Items, Plan};
use plan_core::{Memory, Seq};
use std::alloc::Global;
use umlauf_write::DutyRow;

/// As many empty lists as there are blocks.
fn no_trips(alloc: Global, classes: &[u32]) -> Result<Vec<Seq<u32>>, Memory>
    ensures { IfOk result (λ lists. lists.items ≡ map spec.no_trips classes.now) }
{
    let mut lists = Vec::new(alloc);
    for _class in classes {
        lists.push(Seq::new(alloc))?;
    }
    Ok(lists)
}

/// Puts a trip behind those of a list.
fn put_behind(lists: &mut [Seq<u32>], place: u32, trip: u32) -> Result<(), Memory>
    requires { place < length lists.old }
    ensures { OnOk result (lists.new ≡ slice_set lists.old place (slice_index_or lists.old place [] ++ trip ∷ [])) }
{
    let list = &mut lists[place as usize];
    list.push(trip)
}

/// Puts a trip behind those of its block; a trip of a block that is not there is passed over.
fn put_trip(lists: &mut [Seq<u32>], entry: (u32, u32)) -> Result<(), Memory>
    ensures { OnOk result (lists.new ≡ spec.with_trip lists.old entry) }
{
    let (trip, block) = entry;
    if (block as usize) < lists.len() {
        put_behind(lists, block, trip)?;
    }
    Ok(())
}

/// Puts each trip behind those of its block.
fn put_trips(lists: &mut [Seq<u32>], entries: &[(u32, u32)]) -> Result<(), Memory>
    ensures { OnOk result (lists.new ≡ spec.with_trips lists.old entries.now) }
{
    for entry in entries {
        put_trip(lists, *entry)?;
    }
    Ok(())
}

/// Blocks of these trips and classes, each with the worth 0.
fn blocks_from(alloc: Global, lists: &[Seq<u32>], classes: &[u32]) -> Result<Seq<Column>, Memory>
    requires { length lists.now ≡ length classes.now }
    ensures { IfOk result (λ columns. columns ≡ spec.blocks_from lists.now classes.now) }
{
    let mut columns = Seq::new(alloc);
    for (place, class) in classes.iter().enumerate() {
        columns.push(Column {
            class: *class,
            worth: 0,
            items: Items::from_slice(alloc, lists[place].as_slice())?,
        })?;
    }
    Ok(columns)
}

/// The blocks of these classes, each with its trips in the order of their rows.
pub(crate) fn gathered_blocks(
    alloc: Global,
    entries: &[(u32, u32)],
    classes: &[u32],
) -> Result<Plan, Memory>
    ensures { IfOk result (λ plan. plan.columns ≡ spec.blocks_said entries.now classes.now) }
{
    let mut lists = no_trips(alloc, classes)?;
    put_trips(lists.as_mut_slice(), entries)?;
    Ok(Plan {
        columns: blocks_from(alloc, lists.as_slice(), classes)?,
    })
}

/// Duties of these groups, with no pieces.
fn no_parts(alloc: Global, groups: &[u32]) -> Result<Vec<DutyRow>, Memory>
    ensures { IfOk result (λ duties. duties.items ≡ map spec.no_parts groups.now) }
{
    let mut duties = Vec::new(alloc);
    for group in groups {
        duties.push(DutyRow {
            group: *group,
            parts: Seq::new(alloc),
        })?;
    }
    Ok(duties)
}

/// Puts a piece behind those of a duty.
fn put_piece(duties: &mut [DutyRow], place: u32, part: (u32, u32)) -> Result<(), Memory>
    requires { place < length duties.old }
    ensures { OnOk result (duties.new ≡ slice_set duties.old place (spec.more_parts part (slice_index_or duties.old place (spec.no_parts 0)))) }
{
    let duty = &mut duties[place as usize];
    duty.parts.push(part)
}

/// Puts a piece behind those of its duty; a piece of a duty that is not there is passed over.
fn put_part(duties: &mut [DutyRow], entry: (u32, (u32, u32))) -> Result<(), Memory>
    ensures { OnOk result (duties.new ≡ spec.with_part duties.old entry) }
{
    let (duty, part) = entry;
    if (duty as usize) < duties.len() {
        put_piece(duties, duty, part)?;
    }
    Ok(())
}

/// Puts each piece behind those of its duty.
fn put_parts(duties: &mut [DutyRow], entries: &[(u32, (u32, u32))]) -> Result<(), Memory>
    ensures { OnOk result (duties.new ≡ spec.with_parts duties.old entries.now) }
{
    for entry in entries {
        put_part(duties, *entry)?;
    }
    Ok(())
}

/// The duties of these groups, each with its pieces in the order of their rows.
pub(crate) fn gathered_duties(
    alloc: Global,
    entries: &[(u32, (u32, u32))],
    groups: &[u32],
) -> Result<Seq<DutyRow>, Memory>
    ensures { IfOk result (λ duties. duties ≡ spec.duties_said entries.now groups.now) }
{
    let mut duties = no_parts(alloc, groups)?;
    put_parts(duties.as_mut_slice(), entries)?;
    Ok(Seq::from_vec(duties))
}
