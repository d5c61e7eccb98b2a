//! Memory for a number of labels, which gives itself back when it is dropped.

ghost use Rattle.std.specs.Prelude.{◌≡◌, ◌<◌, Some, None, length, replicate, get_or, slice_set, IfOk};
ghost use Rattle.label_region.specs.Places.{IsFilled};

use crate::raw::{Base, Cells, Deed, allocate, deallocate};
use std::alloc::{AllocError, Global};
use std::marker::Model;
use std_alloc::room::may_hold;

/// A row of places, each of which is empty or holds a label. Contracts see it as the list of the places.
pub(crate) struct Places<T: Copy> {
    base: Base<T>,
    count: usize,
    cells: Cells<T>,
    deed: Deed<T, Global>,
    alloc: Global,
}

impl<T: Copy> Model for Places<T> {
    ghost use Rattle.std.specs.Prelude.{List, Option};
    ghost use Rattle.std.specs.Coded.{coded_list, coded_option};

    ghost Value = { List (Option T) };

    ghost coded = { coded_list (coded_option T.code) };

    ghost use Rattle.label_region.specs.OneBlock.{IsOneBlock};

    ghost view = { λ p. p.cells.slots };

    ghost invariant = { λ p. IsOneBlock p.base p.count p.cells p.deed p.alloc };
}

impl<T: Copy> Places<T> {
    /// A row of `count` empty places.
    pub(crate) fn new(alloc: Global, count: usize) -> Result<Places<T>, AllocError>
        ensures { IfOk result (λ places. places ≡ replicate count None) }
    {
        if !may_hold::<T>(count) {
            return Err(AllocError);
        }
        let (base, cells, deed) = allocate(&alloc, count)?;
        Ok(Places {
            base,
            count,
            cells,
            deed,
            alloc,
        })
    }

    /// How many places there are.
    pub(crate) fn count(&self) -> usize
        ensures { result ≡ length self.now }
    {
        self.count
    }

    /// Writes a place, whatever it held.
    pub(crate) fn write(&mut self, index: usize, label: T)
        requires { index < length self.old }
        ensures { self.new ≡ slice_set self.old index (Some label) }
    {
        self.cells.write(self.base, index, label);
    }

    /// The label in a place.
    pub(crate) fn get(&self, index: usize) -> &T
        requires { IsFilled self.now index }
        ensures { get_or self.now index None ≡ Some result.now }
    {
        self.cells.get(self.base, index)
    }
}

impl<T: Copy> Drop for Places<T> {
    fn drop(self) {
        let Places {
            base,
            count,
            cells,
            deed,
            alloc,
        } = self;
        deallocate(&alloc, base, count, cells, deed);
    }
}
