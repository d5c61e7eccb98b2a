//! How often numbers stand in lists.
#![tactic(auto)]

ghost use Rattle.std.specs.Prelude.{◌≡◌, ◌<◌, ◌^◌, ℕ, IfOk, length, map, not, nat_eq, slice_index};
ghost use Rattle.cover_core.specs.Plans.{all_classes, all_items};
ghost use Rattle.plan_check.specs.Counts.{AreCounts, HaveRisen, HaveRoom, IsFirstOf};

use cover_core::Column;
use plan_core::Memory;
use std::alloc::{AllocError, Global};

/// Counts each number of a list that has a count.
fn count_numbers(counts: &mut [u32], numbers: &[u32])
    requires { HaveRoom counts.old numbers.now }
    ensures length { length counts.new ≡ length counts.old }
    ensures risen { HaveRisen counts.old counts.new numbers.now }
{
    for number in numbers {
        let place = *number as usize;
        if place < counts.len() {
            let before = counts[place];
            counts[place] = before + 1;
        }
    }
}

/// Counts each item of some lists that has a count.
fn count_items(counts: &mut [u32], lists: &[Column])
    requires { HaveRoom counts.old (all_items lists.now) }
    ensures length { length counts.new ≡ length counts.old }
    ensures risen { HaveRisen counts.old counts.new (all_items lists.now) }
{
    for list in lists {
        count_numbers(counts, list.items.as_slice());
    }
}

/// How often each of so many items stands in lists.
pub(crate) fn item_counts(alloc: Global, count: u32, lists: &[Column]) -> Result<Vec<u32>, Memory>
    requires { length (all_items lists.now) < 2 ^ 32 }
    ensures count { IfOk result (λ counts. length counts.items ≡ count) }
    ensures counts { IfOk result (λ counts. AreCounts counts.items (all_items lists.now)) }
{
    let mut counts = vec![in alloc; 0; count as usize]?;
    count_items(counts.as_mut_slice(), lists);
    Ok(counts)
}

/// The classes of lists.
fn classes_of(alloc: Global, lists: &[Column]) -> Result<Vec<u32>, AllocError>
    ensures { IfOk result (λ classes. classes.items ≡ map (λ list. list.class) lists.now) }
{
    lists.iter().map(|list| list.class).collect(alloc)
}

/// How many lists each of so many classes has.
pub(crate) fn class_counts(alloc: Global, count: u32, lists: &[Column]) -> Result<Vec<u32>, Memory>
    requires { length lists.now < 2 ^ 32 }
    ensures count { IfOk result (λ counts. length counts.items ≡ count) }
    ensures counts { IfOk result (λ counts. AreCounts counts.items (all_classes lists.now)) }
{
    let classes = classes_of(alloc, lists)?;
    let mut counts = vec![in alloc; 0; count as usize]?;
    count_numbers(counts.as_mut_slice(), classes.as_slice());
    Ok(counts)
}

/// The first place whose count is not 1.
pub(crate) fn first_off(counts: &[u32]) -> Option<usize>
    ensures { IsFirstOf (length counts.now) (λ n. not (nat_eq (slice_index counts.now n) 1)) result }
{
    for place in 0..counts.len() {
        if counts[place] != 1 {
            return Some(place);
        }
    }
    None
}
