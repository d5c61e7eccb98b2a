//! A small problem, on which rounds and exchanges are worked by hand.

ghost use Rattle.std.specs.Prelude.{◌≡◌, ◌<◌, ◌≤◌, ◌∷◌, [], IfSome};
ghost use Rattle.plan_core.specs.Limits.{most_worth};
ghost use Rattle.exchange_tests.specs.Five.{five, five_worth, five-listed};

use cover_core::{Column, Columns};
use plan_core::Memory;

/// Five items and two classes: the first has so many places, the second one. An item below the bar has no worth alone.
#[derive(Clone, Copy)]
pub(crate) struct Five {
    pub(crate) places: u8,
    pub(crate) bar: u32,
}

/// What an item is worth alone.
fn alone(bar: u32, x: u32) -> Option<u64>
    ensures value { result ≡ five_worth bar 0 (x ∷ []) }
    ensures bound { IfSome result (λ worth. worth ≤ most_worth) }
{
    if bar <= x && x < 5 { Some(10) } else { None }
}

/// What two items are worth.
fn two(class: u32, x: u32, y: u32) -> Option<u64>
    requires { class < 2 }
    ensures value { result ≡ five_worth 0 class (x ∷ y ∷ []) }
    ensures bound { IfSome result (λ worth. worth ≤ most_worth) }
{
    if x < y && y < 5 && (class == 0 || y < x + 3) {
        Some(8 + 3 * (y - x) as u64 + class as u64)
    } else {
        None
    }
}

/// What three items are worth.
fn three(class: u32, x: u32, y: u32, z: u32) -> Option<u64>
    requires { class < 2 }
    ensures value { result ≡ five_worth 0 class (x ∷ y ∷ z ∷ []) }
    ensures bound { IfSome result (λ worth. worth ≤ most_worth) }
{
    if x < y && y < z && z < 5 {
        Some(3 * (z - x) as u64 + class as u64)
    } else {
        None
    }
}

impl Columns for Five {
    ghost problem = { λ s. five s.places s.bar };

    fn items(&self) -> u32 {
        5
    }

    fn classes(&self) -> u32 {
        // The first class has at most 255 places: their number says so.
        let _places = self.places;
        2
    }

    fn cap(&self, class: u32) -> u32 {
        if class == 0 { self.places as u32 } else { 1 }
    }

    fn worth(&self, class: u32, list: &[u32]) -> Option<u64> {
        match list {
            [x] => alone(self.bar, *x),
            [x, y] => two(class, *x, *y),
            [x, y, z] => three(class, *x, *y, *z),
            _ => None,
        }
    }

    ghost listed = { λ s. five-listed s.places s.bar };
}

/// Columns as numbers: of each one its class, its worth, its items and 99.
pub(crate) fn spell(out: &mut Vec<u64>, columns: &[Column]) -> Result<(), Memory> {
    for column in columns {
        out.push(column.class as u64)?;
        out.push(column.worth)?;
        for item in column.items.as_slice() {
            out.push(*item as u64)?;
        }
        out.push(99)?;
    }
    Ok(())
}
