//! The list of items of a column.

ghost use Rattle.std.specs.Prelude.{◌≡◌, ℕ, List, IfOk};

use plan_core::Memory;
use smallvec::SmallVec;
use std::alloc::Global;
use std::marker::Model;

/// The items of a column, in their order. Up to eight of them lie in the column itself.
#[derive(Drop)]
pub struct Items {
    list: SmallVec<u32, 8>,
}

impl Model for Items {
    ghost Value = { List ℕ };

    ghost view = { λ s. s.list.items };
}

impl Items {
    /// The items of a slice. `Memory` is the only error.
    pub fn from_slice(alloc: Global, list: &[u32]) -> Result<Items, Memory>
        ensures { IfOk result (λ items. items ≡ list.now) }
    {
        match SmallVec::from_slice(alloc, list) {
            Ok(list) => Ok(Items { list }),
            Err(_) => Err(Memory),
        }
    }

    /// The items as a slice.
    pub fn as_slice(&self) -> &[u32]
        ensures { result.now ≡ self.now }
    {
        self.list.as_slice()
    }
}
