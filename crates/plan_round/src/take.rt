//! The columns of a pool that are taken.

ghost use Rattle.std.specs.Prelude.{◌≡◌, ◌<◌, ◌≤◌, ◌==◌, ◌&&◌, ◌++◌, ◌∷◌, [], ℕ, true, false, length, OnOk, IfOk, IfErr, slice_index, slice_index_or};
ghost use Rattle.std.specs.Bool.{OnTrue};
ghost use Rattle.plan_core.specs.Limits.{most_worth, most_places};
ghost use Rattle.cover_core.specs.Cover.{AllBelow};
ghost use Rattle.cover_core.specs.Parts.{has_place};
ghost use Rattle.cover_core.specs.Plans.{IsColumn, AreColumns, IsPlan, times};
ghost use Rattle.cover_core.specs.FirstLeast.{AreCheap};
ghost use Rattle.plan_round.specs.Rounding.{all_free, taken, with_taken, picked};
ghost use Rattle.plan_round.specs.Drafts.{IsCounted, ShowsFree};

use crate::draft::Draft;
use cover_core::{Column, Columns, Items};
use plan_core::{Memory, Seq};
use std::alloc::Global;

/// Whether each item of a list is free.
fn all_free(part: &[Column], free: &[bool], list: &[u32]) -> bool
    requires items { AllBelow (length free.now) list.now }
    requires free { ShowsFree part.now free.now }
    ensures { result ≡ all_free part.now list.now }
{
    for item in list {
        if !free[*item as usize] {
            return false;
        }
    }
    true
}

/// Notes that the items of a list are free no more.
fn mark(free: &mut Seq<bool>, list: &[u32])
    requires items { AllBelow (length free.old) list.now }
    ensures marked { (i : ℕ) → slice_index_or free.new i false ≡ ((times i list.now == 0) && slice_index_or free.old i false) }
    ensures len { length free.new ≡ length free.old }
{
    for item in list {
        free.set(*item as usize, false);
    }
}

/// Whether a column is taken: its items are free and its class has a place left.
fn can_take<C: Columns>(columns: &C, draft: &Draft, free: &[bool], column: &Column) -> bool
    requires column { IsColumn (C.problem columns.now) column.now }
    requires sized { length draft.now.counts ≡ length (C.problem columns.now).caps }
    requires counted { IsCounted draft.now.columns draft.now.counts }
    requires items { length free.now ≡ (C.problem columns.now).items }
    requires free { ShowsFree draft.now.columns free.now }
    ensures value { result ≡ (all_free draft.now.columns column.now.items && has_place (C.problem columns.now) draft.now.columns column.now.class) }
    ensures room { OnTrue result (slice_index draft.now.counts column.now.class < most_places) }
{
    let class = column.class;
    let all = all_free(draft.columns.as_slice(), free, column.items.as_slice());
    all && draft.counts.as_slice()[class as usize] < columns.cap(class)
}

/// Takes a column.
fn add(
    alloc: Global,
    draft: &mut Draft,
    free: &mut Seq<bool>,
    column: &Column,
) -> Result<(), Memory>
    requires items { AllBelow (length free.old) column.now.items }
    requires worth { column.now.worth ≤ most_worth }
    requires class { column.now.class < length draft.old.counts }
    requires room { slice_index draft.old.counts column.now.class < most_places }
    requires cheap { AreCheap draft.old.columns }
    requires counted { IsCounted draft.old.columns draft.old.counts }
    requires free { ShowsFree draft.old.columns free.old }
    ensures columns { OnOk result (draft.new.columns ≡ draft.old.columns ++ column.now ∷ []) }
    ensures cheap { OnOk result (AreCheap draft.new.columns) }
    ensures counted { OnOk result (IsCounted draft.new.columns draft.new.counts) }
    ensures sized { length draft.new.counts ≡ length draft.old.counts }
    ensures items { length free.new ≡ length free.old }
    ensures free { OnOk result (ShowsFree draft.new.columns free.new) }
{
    let class = column.class;
    let items = Items::from_slice(alloc, column.items.as_slice())?;
    draft.columns.push(Column {
        class,
        worth: column.worth,
        items,
    })?;
    let count = draft.counts.as_slice()[class as usize];
    draft.counts.set(class as usize, count + 1);
    mark(free, column.items.as_slice());
    Ok(())
}

/// Looks at one column.
fn take_column<C: Columns>(
    alloc: Global,
    columns: &C,
    draft: &mut Draft,
    free: &mut Seq<bool>,
    column: &Column,
) -> Result<(), Memory>
    requires column { IsColumn (C.problem columns.now) column.now }
    requires worth { column.now.worth ≤ most_worth }
    requires cheap { AreCheap draft.old.columns }
    requires sized { length draft.old.counts ≡ length (C.problem columns.now).caps }
    requires counted { IsCounted draft.old.columns draft.old.counts }
    requires items { length free.old ≡ (C.problem columns.now).items }
    requires free { ShowsFree draft.old.columns free.old }
    ensures taken { OnOk result (draft.new.columns ≡ with_taken (C.problem columns.now) draft.old.columns column.now) }
    ensures cheap { OnOk result (AreCheap draft.new.columns) }
    ensures counted { OnOk result (IsCounted draft.new.columns draft.new.counts) }
    ensures sized { length draft.new.counts ≡ length draft.old.counts }
    ensures items { length free.new ≡ length free.old }
    ensures free { OnOk result (ShowsFree draft.new.columns free.new) }
{
    if can_take(columns, draft, free.as_slice(), column) {
        add(alloc, draft, free, column)
    } else {
        Ok(())
    }
}

/// Looks at the columns at places, in the places' order.
pub fn take_all<C: Columns>(
    alloc: Global,
    columns: &C,
    draft: &mut Draft,
    free: &mut Seq<bool>,
    pool: &[Column],
    places: &[u32],
) -> Result<(), Memory>
    requires pool { AreColumns (C.problem columns.now) pool.now }
    requires worths { AreCheap pool.now }
    requires places { AllBelow (length pool.now) places.now }
    requires cheap { AreCheap draft.old.columns }
    requires sized { length draft.old.counts ≡ length (C.problem columns.now).caps }
    requires counted { IsCounted draft.old.columns draft.old.counts }
    requires items { length free.old ≡ (C.problem columns.now).items }
    requires free { ShowsFree draft.old.columns free.old }
    ensures taken { OnOk result (draft.new.columns ≡ taken (C.problem columns.now) draft.old.columns (picked pool.now places.now)) }
    ensures cheap { OnOk result (AreCheap draft.new.columns) }
    ensures counted { OnOk result (IsCounted draft.new.columns draft.new.counts) }
    ensures sized { OnOk result (length draft.new.counts ≡ length (C.problem columns.now).caps) }
    ensures items { OnOk result (length free.new ≡ (C.problem columns.now).items) }
    ensures free { OnOk result (ShowsFree draft.new.columns free.new) }
{
    for place in places {
        take_column(alloc, columns, draft, free, &pool[*place as usize])?;
    }
    Ok(())
}
