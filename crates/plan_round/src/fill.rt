//! The items that no column has yet, put in one after another.

ghost use Rattle.std.specs.Prelude.{◌≡◌, ℕ, ◌<◌, ◌≤◌, Some, None, length, IfOk, IfErr, IfSome, OnOk};
ghost use Rattle.plan_core.specs.Limits.{most_worth};
ghost use Rattle.cover_core.specs.Cover.{Problem};
ghost use Rattle.cover_core.specs.Plans.{AreColumns, IsPlan};
ghost use Rattle.cover_core.specs.Parts.{IsPart};
ghost use Rattle.cover_core.specs.FirstLeast.{AreCheap};
ghost use Rattle.cover_core.specs.Ranges.{HasFewPlaces};
ghost use Rattle.plan_round.specs.Rounding.{choice_for, first_cheapest, into_columns, class_choice, into_classes, choices, put_at};
ghost use Rattle.plan_round.specs.Rounding.{round_items, whole};
ghost use Rattle.plan_round.specs.Faults.{FaultIs};
ghost use Rattle.plan_round.specs.Drafts.{IsCounted, IsSpotOf, IsCheapChoice, ShowsFree, IsPlaced};

use crate::choice::{Choice, Spot};
use crate::draft::Draft;
use crate::fault::RoundFault;
use crate::insert::insert_into;
use cover_core::{Column, Columns, Items, Plan};
use plan_core::Memory;
use std::alloc::Global;

/// The better of the best choice so far and a new one, if the list has a worth.
fn consider(best: Option<Choice>, before: u64, spot: Spot, worth: Option<u64>) -> Option<Choice>
    requires before { before ≤ most_worth }
    requires worth { IfSome worth (λ w. w ≤ most_worth) }
    requires cheap { IsCheapChoice best }
    ensures best { result ≡ first_cheapest best (choice_for before spot worth) }
    ensures cheap { IsCheapChoice result }
{
    match worth {
        None => best,
        Some(worth) => {
            let choice = Choice {
                rise: worth as i64 - before as i64,
                worth,
                spot,
            };
            match best {
                None => Some(choice),
                Some(old) => {
                    if choice.rise < old.rise {
                        Some(choice)
                    } else {
                        Some(old)
                    }
                }
            }
        }
    }
}

/// The column into which the item goes cheapest.
fn best_column<C: Columns>(
    columns: &C,
    part: &[Column],
    item: u32,
    list: &mut Vec<u32>,
) -> Result<Option<Choice>, Memory>
    requires item { item < (C.problem columns.now).items }
    requires part { AreColumns (C.problem columns.now) part.now }
    requires cheap { AreCheap part.now }
    ensures best { IfOk result (λ best. best ≡ first_cheapest None (into_columns (C.problem columns.now) item 0 part.now)) }
    ensures cheap { IfOk result IsCheapChoice }
{
    let mut best = None;
    for (place, column) in part.iter().enumerate() {
        insert_into(column.items.as_slice(), item, list)?;
        let worth = columns.worth(column.class, list.as_slice());
        best = consider(best, column.worth, Spot::Into(place), worth);
    }
    Ok(best)
}

/// A new column of a class, where it has a place left.
fn consider_class<C: Columns>(
    columns: &C,
    draft: &Draft,
    item: u32,
    class: u32,
    best: Option<Choice>,
) -> Option<Choice>
    requires item { item < (C.problem columns.now).items }
    requires class { class < length (C.problem columns.now).caps }
    requires sized { length draft.now.counts ≡ length (C.problem columns.now).caps }
    requires counted { IsCounted draft.now.columns draft.now.counts }
    requires cheap { IsCheapChoice best }
    ensures best { result ≡ first_cheapest best (class_choice (C.problem columns.now) item draft.now.columns class) }
    ensures cheap { IsCheapChoice result }
{
    if draft.counts.as_slice()[class as usize] < columns.cap(class) {
        let worth = columns.worth(class, [item].as_slice());
        consider(best, 0, Spot::New(class), worth)
    } else {
        best
    }
}

/// The cheapest choice, after the columns that take the item also over the classes.
fn best_class<C: Columns>(
    columns: &C,
    draft: &Draft,
    item: u32,
    best: Option<Choice>,
) -> Option<Choice>
    requires item { item < (C.problem columns.now).items }
    requires sized { length draft.now.counts ≡ length (C.problem columns.now).caps }
    requires counted { IsCounted draft.now.columns draft.now.counts }
    requires cheap { IsCheapChoice best }
    ensures best { result ≡ first_cheapest best (into_classes (C.problem columns.now) item draft.now.columns (length (C.problem columns.now).caps)) }
    ensures cheap { IsCheapChoice result }
{
    let mut least = best;
    for class in 0..columns.classes() {
        least = consider_class(columns, draft, item, class, least);
    }
    least
}

/// Puts the item in.
fn put(alloc: Global, draft: &mut Draft, item: u32, choice: Choice) -> Result<(), Memory>
    requires spot { IsSpotOf draft.old.columns draft.old.counts choice.spot }
    requires counted { IsCounted draft.old.columns draft.old.counts }
    requires cheap { AreCheap draft.old.columns }
    requires worth { choice.worth ≤ most_worth }
    ensures columns { OnOk result (draft.new.columns ≡ put_at item draft.old.columns choice.worth choice.spot) }
    ensures counted { OnOk result (IsCounted draft.new.columns draft.new.counts) }
    ensures sized { length draft.new.counts ≡ length draft.old.counts }
    ensures cheap { OnOk result (AreCheap draft.new.columns) }
{
    match choice.spot {
        Spot::Into(place) => {
            let column = &draft.columns.as_slice()[place];
            let class = column.class;
            let mut list = Vec::new(alloc);
            insert_into(column.items.as_slice(), item, &mut list)?;
            let items = Items::from_slice(alloc, list.as_slice())?;
            draft.columns.set(
                place,
                Column {
                    class,
                    worth: choice.worth,
                    items,
                },
            );
            Ok(())
        }
        Spot::New(class) => {
            let items = Items::from_slice(alloc, [item].as_slice())?;
            draft.columns.push(Column {
                class,
                worth: choice.worth,
                items,
            })?;
            let count = draft.counts.as_slice()[class as usize];
            draft.counts.set(class as usize, count + 1);
            Ok(())
        }
    }
}

/// Puts the item where it goes, or answers false where it has no place.
fn place_item<C: Columns>(
    alloc: Global,
    columns: &C,
    draft: &mut Draft,
    item: u32,
) -> Result<bool, Memory>
    requires item { item < (C.problem columns.now).items }
    requires part { AreColumns (C.problem columns.now) draft.old.columns }
    requires cheap { AreCheap draft.old.columns }
    requires sized { length draft.old.counts ≡ length (C.problem columns.now).caps }
    requires counted { IsCounted draft.old.columns draft.old.counts }
    requires places { HasFewPlaces (C.problem columns.now) }
    ensures placed { IfOk result (IsPlaced (C.problem columns.now) item draft.old.columns draft.new.columns) }
    ensures cheap { OnOk result (AreCheap draft.new.columns) }
    ensures sized { length draft.new.counts ≡ length draft.old.counts }
    ensures counted { OnOk result (IsCounted draft.new.columns draft.new.counts) }
{
    let mut list = Vec::new(alloc);
    let column = best_column(columns, draft.columns.as_slice(), item, &mut list)?;
    match best_class(columns, draft, item, column) {
        None => Ok(false),
        Some(choice) => {
            put(alloc, draft, item, choice)?;
            Ok(true)
        }
    }
}

/// The items that are free, put in one after another.
pub fn fill<C: Columns>(
    alloc: Global,
    columns: &C,
    draft: Draft,
    free: &[bool],
) -> Result<Plan, RoundFault>
    requires part { IsPart (C.problem columns.now) draft.columns }
    requires cheap { AreCheap draft.columns }
    requires sized { length draft.counts ≡ length (C.problem columns.now).caps }
    requires counted { IsCounted draft.columns draft.counts }
    requires places { HasFewPlaces (C.problem columns.now) }
    requires items { length free.now ≡ (C.problem columns.now).items }
    requires free { ShowsFree draft.columns free.now }
    ensures filled { IfOk result (λ plan. round_items (C.problem columns.now) (C.problem columns.now).items draft.columns ≡ whole plan.columns) }
    ensures plan { IfOk result (λ plan. IsPlan (C.problem columns.now) plan.columns) }
    ensures cheap { IfOk result (λ plan. AreCheap plan.columns) }
    ensures fault { IfErr result (FaultIs (C.problem columns.now) (round_items (C.problem columns.now) (C.problem columns.now).items draft.columns)) }
{
    let mut part = draft;
    for item in 0..columns.items() {
        if free[item as usize] {
            match place_item(alloc, columns, &mut part, item) {
                Ok(true) => {}
                Ok(false) => {
                    let partial = Plan {
                        columns: part.columns,
                    };
                    return Err(RoundFault::NotPlaced { item, partial });
                }
                Err(Memory) => return Err(RoundFault::Memory),
            }
        }
    }
    Ok(Plan {
        columns: part.columns,
    })
}
