//! The region.

ghost use Rattle.std.specs.Prelude.{◌≡◌, ◌≢◌, ◌+◌, ◌<◌, ◌≤◌, ◌++◌, ◌∷◌, [], ℕ, Some, None, OnOk, OnErr, IsOk, IsErr, length};
ghost use Rattle.label_region.specs.Shelf.{IsLive, label_at, live_count, next_of};

use crate::block::Block;
use plan_core::Memory;
use std::alloc::Global;
use std::marker::Model;

/// The most labels that a region holds at a time, 2^31 - 1.
const MOST: usize = 2147483647;

/// Labels, each under the number that `put` gave it; numbers are from 0 to 2^31 - 1. A number is live from `put` until it is given back or
/// the region is cleared. Contracts see the label of each live number (`label_at`), the numbers that were given back and are not live, in
/// the order in which they came back (`back`), the least number never used (`next_of`), and how many labels more there is memory for
/// (`spare`). A region keeps the allocator that it was made with.
#[derive(Drop)]
pub struct Region<T: Copy> {
    cells: Block<T>,
    back: Vec<u32>,
    spare: u32,
}

impl<T: Copy> Model for Region<T> {
    ghost use Rattle.std.specs.Prelude.{vec_capacity};
    ghost use Rattle.label_region.specs.Shelf.{IsHeld, Shelf, shelf, shelf_code};

    ghost Value = { Shelf T };

    ghost coded = { shelf_code T.code };

    ghost view = { λ r. shelf r.cells.items r.back.items r.spare };

    ghost invariant = { λ r. IsHeld (shelf r.cells.items r.back.items r.spare) r.cells.room (vec_capacity r.back) };
}

impl<T: Copy> Region<T> {
    /// A region without labels, whose memory is to come from `alloc`. It takes no memory.
    pub fn new(alloc: Global) -> Region<T>
        ensures none_live { (id : ℕ) → label_at result id ≡ None }
        ensures back { result.back ≡ [] }
        ensures next { next_of result ≡ 0 }
        ensures spare { result.spare ≡ 0 }
    {
        Region {
            cells: Block::new(),
            back: Vec::new(alloc),
            spare: 0,
        }
    }

    /// Sees that there is memory for at least `n` labels more. `Memory` is the only error: a growth was refused, or the live labels and `n`
    /// more are 2^31 or more together. After it the region is as before. It does not come where `spare` is `n` or more.
    pub fn reserve(&mut self, n: u32) -> Result<(), Memory>
        ensures enough { OnOk result (n ≤ self.new.spare) }
        ensures not_lowered { self.old.spare ≤ self.new.spare }
        ensures nothing_else { self.new ≡ record self.old { spare = self.new.spare } }
        ensures too_many { 2147483648 ≤ live_count self.old + n → IsErr result }
        ensures succeeds { n ≤ self.old.spare → IsOk result }
        ensures err { OnErr result (self.new ≡ self.old) }
    {
        if n <= self.spare {
            return Ok(());
        }
        let used = self.cells.len();
        let wanted = used - self.back.len() + n as usize;
        if MOST < wanted {
            return Err(Memory);
        }
        let needed = wanted.max(used);
        self.back.reserve(needed - self.back.len())?;
        if self.cells.room() < needed {
            let doubled = self.cells.room().saturating_mul(2).min(MOST);
            self.cells
                .grow(*self.back.allocator(), needed.max(doubled))?;
        }
        self.spare = n;
        Ok(())
    }

    /// Puts a label in and answers its number: the number given back last, or the least number never used where none is left. It takes no
    /// memory.
    pub fn put(&mut self, label: T) -> u32
        requires { 0 < self.old.spare }
        ensures label { label_at self.new result ≡ Some label }
        ensures others { (id : ℕ) → id ≢ result → label_at self.new id ≡ label_at self.old id }
        ensures was_free { label_at self.old result ≡ None }
        ensures few { result < 2147483648 }
        ensures spare { self.old.spare ≡ self.new.spare + 1 }

        // A number that was given back is used again, the last one first.
        ensures last_back { 0 < length self.old.back → self.old.back ≡ self.new.back ++ result ∷ [] }
        ensures same_next { 0 < length self.old.back → next_of self.new ≡ next_of self.old }

        // With none left, it is the least number never used.
        ensures never_used { self.old.back ≡ [] → result ≡ next_of self.old }
        ensures raised_next { self.old.back ≡ [] → next_of self.new ≡ next_of self.old + 1 }
        ensures none_back { self.old.back ≡ [] → self.new.back ≡ [] }
    {
        self.spare -= 1;
        match self.back.pop() {
            Some(id) => {
                self.cells.set(id as usize, label);
                id
            }
            None => {
                let id = self.cells.len() as u32;
                self.cells.push(label);
                id
            }
        }
    }

    /// The label of a live number.
    pub fn get(&self, id: u32) -> &T
        requires { IsLive self.now id }
        ensures { label_at self.now id ≡ Some result.now }
    {
        self.cells.get(id as usize)
    }

    /// Gives a live number back. It is the next one that `put` gives.
    pub fn give_back(&mut self, id: u32)
        requires { IsLive self.old id }
        ensures gone { label_at self.new id ≡ None }
        ensures others { (other : ℕ) → other ≢ id → label_at self.new other ≡ label_at self.old other }
        ensures back { self.new.back ≡ self.old.back ++ id ∷ [] }
        ensures next { next_of self.new ≡ next_of self.old }
        ensures spare { self.new.spare ≡ self.old.spare + 1 }
    {
        self.back.push_reserved(id);
        self.spare += 1;
    }

    /// Takes all labels out, so that every number is as never used. The memory stays.
    pub fn clear(&mut self)
        ensures none_live { (id : ℕ) → label_at self.new id ≡ None }
        ensures back { self.new.back ≡ [] }
        ensures next { next_of self.new ≡ 0 }
        ensures spare { self.old.spare ≤ self.new.spare }
    {
        self.cells.clear();
        self.back.clear();
    }
}
