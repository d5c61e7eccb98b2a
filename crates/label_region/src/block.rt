//! Labels in one block of memory, one behind the other.

ghost use Rattle.std.specs.Prelude.{◌≡◌, ◌<◌, ◌≤◌, ◌++◌, ◌∷◌, [], Some, length, take, slice_get, slice_set, OnOk, OnErr};
ghost use Rattle.label_region.specs.Rows.{row, IsFilledTo};

use crate::places::Places;
use std::alloc::{AllocError, Global};
use std::marker::Model;

/// A list of labels, and memory for a number of them. Contracts see the list (`items`) and that number (`room`).
#[derive(Drop)]
pub(crate) struct Block<T: Copy> {
    places: Option<Places<T>>,
    len: usize,
}

impl<T: Copy> Model for Block<T> {
    ghost use Rattle.std.specs.Prelude.{length};
    ghost use Rattle.label_region.specs.Rows.{Row, row, row_code, IsFilledTo, labels_of, places_of};

    ghost Value = { Row T };

    ghost coded = { row_code T.code };

    ghost view = { λ b. row (labels_of b.len (places_of b.places)) (length (places_of b.places)) };

    ghost invariant = { λ b. IsFilledTo b.len (places_of b.places) };
}

impl<T: Copy> Block<T> {
    /// No labels and no memory.
    pub(crate) fn new() -> Block<T>
        ensures { result ≡ row [] 0 }
    {
        Block {
            places: None,
            len: 0,
        }
    }

    /// How many labels there are.
    pub(crate) fn len(&self) -> usize
        ensures value { result ≡ length self.now.items }
        ensures within { result ≤ self.now.room }
    {
        self.len
    }

    /// How many labels there is memory for.
    pub(crate) fn room(&self) -> usize
        ensures { result ≡ self.now.room }
    {
        match &self.places {
            Some(places) => places.count(),
            None => 0,
        }
    }

    /// The label at an index.
    pub(crate) fn get(&self, index: usize) -> &T
        requires { index < length self.now.items }
        ensures { slice_get self.now.items index ≡ Some result.now }
    {
        match &self.places {
            Some(places) => places.get(index),
            None => unreachable!(),
        }
    }

    /// Changes the label at an index.
    pub(crate) fn set(&mut self, index: usize, label: T)
        requires { index < length self.old.items }
        ensures { self.new ≡ row (slice_set self.old.items index label) self.old.room }
    {
        if let Some(places) = &mut self.places {
            places.write(index, label);
        }
    }

    /// Puts a label behind the others.
    pub(crate) fn push(&mut self, label: T)
        requires room { length self.old.items < self.old.room }
        requires few { length self.old.items < 4294967296 }
        ensures { self.new ≡ row (self.old.items ++ label ∷ []) self.old.room }
    {
        if let Some(places) = &mut self.places {
            places.write(self.len, label);
        }
        self.len += 1;
    }

    /// Takes all labels out. The memory stays.
    pub(crate) fn clear(&mut self)
        ensures { self.new ≡ row [] self.old.room }
    {
        self.len = 0;
    }

    /// Moves the labels to memory for `room` of them. After an error the labels are where they were.
    pub(crate) fn grow(&mut self, alloc: Global, room: usize) -> Result<(), AllocError>
        requires { length self.old.items ≤ room }
        ensures ok { OnOk result (self.new ≡ row self.old.items room) }
        ensures err { OnErr result (self.new ≡ self.old) }
    {
        let mut wider = Places::new(alloc, room)?;
        if let Some(places) = &self.places {
            copy_labels(places, &mut wider, self.len);
        }
        self.places = Some(wider);
        Ok(())
    }
}

/// Copies the labels in the first `len` places.
fn copy_labels<T: Copy>(from: &Places<T>, to: &mut Places<T>, len: usize)
    requires filled { IsFilledTo len from.now }
    requires room { len ≤ length to.old }
    ensures same { take len to.new ≡ take len from.now }
    ensures count { length to.new ≡ length to.old }
{
    for index in 0..len {
        to.write(index, *from.get(index));
    }
}
