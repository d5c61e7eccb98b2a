//! The prices that were read, by pass and number.

ghost use Rattle.std.specs.Prelude.{◌≡◌, ◌<◌, None, IfOk, is_none, length, slice_index_or, if◌then◌else◌};
ghost use Rattle.plan_cert.specs.Prices.{slot_at, slots_in, with_slot};
ghost use Rattle.plan_cert.specs.Slots.{filled, unset};

use crate::cert::Pass;
use plan_core::{Memory, Seq};
use std::alloc::Global;

/// For each pass the prices by their numbers, where they were read.
#[derive(Drop)]
pub struct Slots {
    /// Those of pass 1.
    pub block_number: Seq<Option<i64>>,
    /// Those of pass 2.
    pub block_cost: Seq<Option<i64>>,
    /// Those of pass 3.
    pub duty_number: Seq<Option<i64>>,
    /// Those of pass 4.
    pub duty_cost: Seq<Option<i64>>,
}

/// The price of a number in a pass.
#[derive(Clone, Copy)]
pub struct Entry {
    /// The pass.
    pub pass: Pass,
    /// The number of the item or class, from 0.
    pub number: u32,
    /// The price.
    pub price: i64,
}

/// So many prices that were not read.
pub(crate) fn empty_prices(alloc: Global, count: u32) -> Result<Seq<Option<i64>>, Memory>
    ensures { IfOk result (λ slots. slots ≡ unset count) }
{
    let mut slots = Seq::new(alloc);
    for _ in 0..count {
        slots.push(None)?;
    }
    Ok(slots)
}

/// Sets a price that was not read, or tells that it was.
fn fill(slots: &mut Seq<Option<i64>>, number: u32, price: i64) -> bool
    requires { number < length slots.old }
    ensures free { result ≡ is_none (slice_index_or slots.old number None) }
    ensures filled { slots.new ≡ filled result slots.old number price }
{
    let place = number as usize;
    let free = slots.as_slice()[place].is_none();
    if free {
        slots.set(place, Some(price));
    }
    free
}

impl Slots {
    /// Sets a price that was not read, or tells that it was.
    pub(crate) fn put(&mut self, entry: &Entry) -> bool
        requires { entry.now.number < length (slots_in self.old entry.now.pass) }
        ensures free { result ≡ is_none (slot_at self.old entry.now.pass entry.now.number) }
        ensures put { self.new ≡ (if result then with_slot self.old entry.now.pass entry.now.number entry.now.price else self.old) }
    {
        match entry.pass {
            Pass::BlockNumber => fill(&mut self.block_number, entry.number, entry.price),
            Pass::BlockCost => fill(&mut self.block_cost, entry.number, entry.price),
            Pass::DutyNumber => fill(&mut self.duty_number, entry.number, entry.price),
            Pass::DutyCost => fill(&mut self.duty_cost, entry.number, entry.price),
        }
    }
}
