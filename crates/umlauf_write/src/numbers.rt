//! Which block a trip is in.

ghost use Rattle.std.specs.Prelude.{◌≡◌, ◌==◌, ◌+◌, ◌<◌, ◌≤◌, ℕ, All, IfOk, length, slice_index, if◌then◌else◌};
ghost use Rattle.std.specs.List.{list_any};
ghost use Rattle.plan_core.specs.Limits.{most_items};
ghost use Rattle.cover_core.specs.Cover.{AllBelow};
ghost use Rattle.umlauf_write.specs.Tables.{block_of};

use cover_core::Column;
use plan_core::Memory;
use std::alloc::Global;

/// Notes a number for each of some items.
fn note(numbers: &mut [u32], items: &[u32], number: u32)
    requires { AllBelow (length numbers.old) items.now }
    ensures { (trip : ℕ) → trip < length numbers.old → slice_index numbers.new trip ≡ (if list_any (λ item. item == trip) items.now then number else slice_index numbers.old trip) }
{
    for item in items {
        numbers[*item as usize] = number;
    }
}

/// For each trip the number of the first block that has it, where blocks are numbered from 1; 0 where none has it.
pub(crate) fn block_numbers(
    alloc: Global,
    trips: usize,
    blocks: &[Column],
) -> Result<Vec<u32>, Memory>
    requires few { length blocks.now ≤ most_items }
    requires items { All (λ block. AllBelow trips block.items) blocks.now }
    ensures count { IfOk result (λ numbers. length numbers.items ≡ trips) }
    ensures numbers { IfOk result (λ numbers. (trip : ℕ) → trip < trips → slice_index numbers.items trip ≡ block_of 1 blocks.now trip) }
{
    let mut numbers = vec![in alloc; 0; trips]?;
    let mut left = blocks.len();
    while left > 0 {
        left -= 1;
        note(
            numbers.as_mut_slice(),
            blocks[left].items.as_slice(),
            left as u32 + 1,
        );
    }
    Ok(numbers)
}
