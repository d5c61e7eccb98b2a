//! The first item that does not stand once, and the first list that is no column, each by itself.
#![tactic(auto)]

ghost use Rattle.std.specs.Prelude.{◌≡◌, ◌<◌, ◌^◌, IfOk, length};
ghost use Rattle.cover_core.specs.Plans.{all_items};
ghost use Rattle.plan_check.specs.Firsts.{IsTimesFound, IsUnlawfulFound};
ghost use Rattle.plan_check.specs.Judged.{first_worthless};

use crate::check::worth_of;
use crate::counts::{first_off, item_counts};
use cover_core::{Column, Columns};
use plan_core::Memory;
use std::alloc::Global;

/// An item that does not stand in exactly one of some lists, once.
#[derive(Clone, Copy, Debug, PartialEq, Eq)]
pub struct ItemTimes {
    /// The item.
    pub item: u32,
    /// How often it stands in the lists: 0, or 2 and more.
    pub count: u32,
}

/// The first of so many items, from 0, that does not stand in exactly one of some lists, once, and how often it stands in them; none where
/// each stands once. Whether the lists are columns of a problem is not asked: items that are not there are passed over.
///
/// It takes time in the order of the items and of the lengths of the lists.
///
/// # Errors
///
/// `Memory` where memory runs out, and for nothing else.
pub fn first_times(alloc: Global, items: u32, lists: &[Column]) -> Result<Option<ItemTimes>, Memory>
    requires { length (all_items lists.now) < 2 ^ 32 }
    ensures { IfOk result (IsTimesFound items lists.now) }
{
    let counts = item_counts(alloc, items, lists)?;
    match first_off(counts.as_slice()) {
        Some(item) => Ok(Some(ItemTimes {
            item: item as u32,
            count: counts[item],
        })),
        None => Ok(None),
    }
}

/// The place of the first list without a worth, as it is defined by computing it.
fn first_place<C: Columns>(columns: &C, lists: &[Column]) -> Option<u32>
    requires { length lists.now < 2 ^ 32 }
    ensures { result ≡ first_worthless (C.problem columns.now) 0 lists.now }
{
    for (place, list) in lists.iter().enumerate() {
        if worth_of(columns, list).is_none() {
            return Some(place as u32);
        }
    }
    None
}

/// The place of the first of some lists that is no column of its class, from 0: its class or one of its items is not there, or the problem
/// gives it no worth. None where each list is a column, however many lists a class has and however often an item stands in them.
///
/// It takes one call of `worth` for each list.
pub fn first_unlawful<C: Columns>(columns: &C, lists: &[Column]) -> Option<u32>
    requires { length lists.now < 2 ^ 32 }
    ensures { IsUnlawfulFound (C.problem columns.now) lists.now result }
{
    first_place(columns, lists)
}
