//! An item put into a list at the place that its number gives.

ghost use Rattle.std.specs.Prelude.{◌≡◌, ◌≤◌, ◌∷◌, ◌++◌, length, take, drop, OnOk};
ghost use Rattle.plan_round.specs.Rounding.{put_in};

use plan_core::Memory;

/// Where the item goes.
pub fn place_of(list: &[u32], item: u32) -> usize
    ensures within { result ≤ length list.now }
    ensures put { put_in item list.now ≡ take result list.now ++ item ∷ drop result list.now }
{
    for (k, x) in list.iter().enumerate() {
        if item <= *x {
            return k;
        }
    }
    list.len()
}

/// Appends a list.
fn append(out: &mut Vec<u32>, more: &[u32]) -> Result<(), Memory>
    ensures { OnOk result (out.new.items ≡ out.old.items ++ more.now) }
{
    match out.extend_from_slice(more) {
        Ok(()) => Ok(()),
        Err(_) => Err(Memory),
    }
}

/// Writes the list with the item.
pub fn insert_into(list: &[u32], item: u32, out: &mut Vec<u32>) -> Result<(), Memory>
    ensures { OnOk result (out.new.items ≡ put_in item list.now) }
{
    let place = place_of(list, item);
    out.clear();
    append(out, &list[..place])?;
    append(out, [item].as_slice())?;
    append(out, &list[place..])
}
