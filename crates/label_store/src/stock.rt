//! The stock of labels.

ghost use Rattle.std.specs.Prelude.{◌≡◌, ◌<◌, ◌≤◌, ◌+◌, ◌++◌, ◌∷◌, [], OnOk, length, drop, slice_index_or, take};
ghost use Rattle.label_store.specs.Stocks.{stock};

use label_region::Region;
use plan_core::Memory;
use std::alloc::Global;
use std::marker::Model;

/// Labels that are kept, and behind them labels that were made and may be taken out again. Contracts see both lists. The cell of a label
/// that is taken out is used again.
#[derive(Drop)]
pub struct Stock<T: Copy> {
    region: Region<T>,
    kept: Vec<u32>,
    made: Vec<u32>,
}

impl<T: Copy> Model for Stock<T> {
    ghost use Rattle.label_store.specs.Stocks.{IsStocked, Stock, shown, stock, stock_code};

    ghost Value = { Stock T };

    ghost coded = { stock_code T.code };

    ghost view = { λ s. stock (shown s.region s.kept.items) (shown s.region s.made.items) };

    ghost invariant = { λ s. IsStocked s.region s.kept.items s.made.items };
}

impl<T: Copy> Stock<T> {
    /// No labels. It takes no memory.
    pub fn new(alloc: Global) -> Stock<T>
        ensures { result ≡ stock [] [] }
    {
        Stock {
            region: Region::new(alloc),
            kept: Vec::new(alloc),
            made: Vec::new(alloc),
        }
    }

    /// How many labels are kept.
    pub fn kept_count(&self) -> usize
        ensures { result ≡ length self.now.kept }
    {
        self.kept.len()
    }

    /// How many labels were made and not taken out.
    pub fn made_count(&self) -> usize
        ensures { result ≡ length self.now.made }
    {
        self.made.len()
    }

    /// The kept label at a place.
    pub fn kept_at(&self, place: usize) -> &T
        requires { place < length self.now.kept }
        ensures { result.now ≡ slice_index_or self.now.kept place result.now }
    {
        self.region.get(self.kept[place])
    }

    /// The made label at a place.
    pub fn made_at(&self, place: usize) -> &T
        requires { place < length self.now.made }
        ensures { result.now ≡ slice_index_or self.now.made place result.now }
    {
        self.region.get(self.made[place])
    }

    /// Sees that there is memory for at least `n` labels more. `Memory` is the only error, and changes nothing that is seen.
    pub fn reserve(&mut self, n: u32) -> Result<(), Memory>
        ensures { self.new ≡ self.old }
    {
        self.region.reserve(n)
    }

    /// Puts a label behind those that were made. `Memory` is the only error.
    pub fn push(&mut self, label: T) -> Result<(), Memory>
        ensures kept { self.new.kept ≡ self.old.kept }
        ensures made { OnOk result (self.new.made ≡ self.old.made ++ label ∷ []) }
    {
        self.region.reserve(1)?;
        let id = self.region.put(label);
        self.made.push(id)?;
        Ok(())
    }

    /// Takes the made label at a place out; its cell is used again.
    pub fn take_out(&mut self, place: usize)
        requires { place < length self.old.made }
        ensures kept { self.new.kept ≡ self.old.kept }
        ensures made { self.new.made ≡ take place self.old.made ++ drop (place + 1) self.old.made }
    {
        let id = self.made.remove(place);
        self.region.give_back(id);
    }

    /// Keeps the labels that were made, behind the others.
    pub fn keep_made(&mut self) -> Result<(), Memory>
        ensures kept { OnOk result (self.new.kept ≡ self.old.kept ++ self.old.made) }
        ensures made { OnOk result (self.new.made ≡ []) }
    {
        self.kept.append(&mut self.made)?;
        Ok(())
    }

    /// Takes all labels out. The memory stays.
    pub fn clear(&mut self)
        ensures { self.new ≡ stock [] [] }
    {
        self.region.clear();
        self.kept.clear();
        self.made.clear();
    }
}
