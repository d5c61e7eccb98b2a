//! The web of a problem: the links of all classes, and which pairs of items are joined.

ghost use Rattle.std.specs.Prelude.{◌≡◌, ◌<◌, ◌≤◌, ◌*◌, length};
ghost use Rattle.plan_core.specs.Limits.{most_items};
ghost use Rattle.cover_core.specs.Cover.{AllBelow, Rises};
ghost use Rattle.cover_core.specs.Fitting.{AreFit};
ghost use Rattle.column_weave.specs.Webs.{IsWeb};

use crate::links::{ClassLinks, join_class};
use cover_core::{Column, Columns};
use plan_core::{Memory, Seq};
use std::alloc::Global;

/// The links of all classes of a problem.
#[derive(Drop)]
pub struct Web {
    /// The links of each class.
    pub classes: Vec<ClassLinks>,
    /// Whether a pair of items is joined: at the number of the first times that of all items, and that of the second.
    pub joined: Seq<bool>,
}

/// The place of a pair of items.
fn place_of(from: u32, item: u32, items: u32) -> usize
    requires from { from < items }
    requires item { item < items }
    requires few { items ≤ most_items }
    ensures { result < items * items }
{
    (from * items + item) as usize
}

/// Whether a pair is joined already; from now on it is.
fn is_known(joined: &mut Seq<bool>, from: u32, item: u32, items: u32) -> bool
    requires from { from < items }
    requires item { item < items }
    requires few { items ≤ most_items }
    requires pairs { length joined.old ≡ items * items }
    ensures { length joined.new ≡ length joined.old }
{
    let place = place_of(from, item, items);
    let known = joined.as_slice()[place];
    joined.set(place, true);
    known
}

impl Web {
    /// Joins a pair of items in each class in which both worths are there; one that is joined stays as it is.
    pub(crate) fn join<C: Columns>(
        &mut self,
        problem: &C,
        from: u32,
        item: u32,
    ) -> Result<(), Memory>
        requires order { from < item }
        requires item { item < (C.problem problem.now).items }
        requires web { IsWeb (C.problem problem.now) self.old }
        ensures { IsWeb (C.problem problem.now) self.new }
    {
        if is_known(&mut self.joined, from, item, problem.items()) {
            return Ok(());
        }
        for class in 0..problem.classes() {
            let links = &mut self.classes[class as usize];
            join_class(problem, class, links, from, item)?;
        }
        Ok(())
    }

    /// Joins the neighbours of each column, column by column and along each: a pair that is joined already stays as it is. After `Memory`
    /// the web has the links of some of these pairs.
    pub fn link_all<C: Columns>(
        &mut self,
        _alloc: Global,
        problem: &C,
        columns: &[Column],
    ) -> Result<(), Memory>
        requires web { IsWeb (C.problem problem.now) self.old }
        requires fit { AreFit (C.problem problem.now).items (length (C.problem problem.now).caps) columns.now }
        ensures { IsWeb (C.problem problem.now) self.new }
    {
        for column in columns {
            self.link(problem, column.items.as_slice())?;
        }
        Ok(())
    }

    /// Joins the neighbours of a list.
    fn link<C: Columns>(&mut self, problem: &C, list: &[u32]) -> Result<(), Memory>
        requires web { IsWeb (C.problem problem.now) self.old }
        requires rises { Rises list.now }
        requires items { AllBelow (C.problem problem.now).items list.now }
        ensures { IsWeb (C.problem problem.now) self.new }
    {
        for place in 1..list.len() {
            self.join(problem, list[place - 1], list[place])?;
        }
        Ok(())
    }
}
