//! A web at its start: the single items of each class, and links to their nearest later items.

ghost use Rattle.std.specs.Prelude.{◌≡◌, ℕ, ◌*◌, ◌<◌, ◌≤◌, length, IfOk, IfSome, slice_index_or};
ghost use Rattle.plan_core.specs.Limits.{most_items};
ghost use Rattle.column_weave.specs.Webs.{IsWeb, AreLinks, IsSingle};
ghost use Rattle.column_weave.specs.Nearest.{AreNearest, IsLater};

use crate::links::{ClassLinks, single_of};
use crate::nearest::{Near, Nearest, three_nearest};
use crate::web::Web;
use cover_core::Columns;
use plan_core::{Memory, Seq};
use std::alloc::Global;

/// A class without links.
fn no_links<C: Columns>(alloc: Global, problem: &C, class: u32) -> Result<ClassLinks, Memory>
    requires class { class < length (C.problem problem.now).caps }
    ensures { IfOk result (AreLinks (C.problem problem.now) class) }
{
    let mut single = Seq::new(alloc);
    let mut into = Vec::new(alloc);
    for item in 0..problem.items() {
        let one = single_of(problem, class, item);
        single.push(one)?;
        into.push(Seq::new(alloc))?;
    }
    Ok(ClassLinks { single, into })
}

/// The classes of a problem without links.
fn all_without_links<C: Columns>(alloc: Global, problem: &C) -> Result<Vec<ClassLinks>, Memory>
    ensures len { IfOk result (λ classes. length classes.items ≡ length (C.problem problem.now).caps) }
    ensures links { IfOk result (λ classes. (class : ℕ) (d : ClassLinks) → class < length (C.problem problem.now).caps → AreLinks (C.problem problem.now) class (slice_index_or classes.items class d)) }
{
    let mut classes = Vec::new(alloc);
    for class in 0..problem.classes() {
        classes.push(no_links(alloc, problem, class)?)?;
    }
    Ok(classes)
}

/// A word for each pair of so many items: none is joined.
fn no_pairs(alloc: Global, items: u32) -> Result<Seq<bool>, Memory>
    requires { items ≤ most_items }
    ensures { IfOk result (λ joined. length joined ≡ items * items) }
{
    let mut joined = Seq::new(alloc);
    for _pair in 0..items * items {
        joined.push(false)?;
    }
    Ok(joined)
}

impl Web {
    /// The web of a problem with the links of the nearest items: for each item and each class, by number, the three later items of least
    /// rise, the first ones on ties, are joined in their order. Time is that of the worths of all pairs in all classes.
    ///
    /// # Errors
    ///
    /// [`Memory`] where it is refused.
    pub fn new<C: Columns>(alloc: Global, problem: &C) -> Result<Web, Memory>
        ensures { IfOk result (IsWeb (C.problem problem.now)) }
    {
        let mut web = Web {
            classes: all_without_links(alloc, problem)?,
            joined: no_pairs(alloc, problem.items())?,
        };
        for from in 0..problem.items() {
            web.link_nearest(problem, from)?;
        }
        Ok(web)
    }

    /// Joins an item to its nearest later ones of each class.
    fn link_nearest<C: Columns>(&mut self, problem: &C, from: u32) -> Result<(), Memory>
        requires item { from < (C.problem problem.now).items }
        requires web { IsWeb (C.problem problem.now) self.old }
        ensures { IsWeb (C.problem problem.now) self.new }
    {
        for class in 0..problem.classes() {
            let single = self.single(problem, class, from);
            self.link_three(problem, from, three_nearest(problem, class, single, from))?;
        }
        Ok(())
    }

    /// A thousand times the worth of an item alone in a class.
    fn single<C: Columns>(&self, _problem: &C, class: u32, item: u32) -> Option<i64>
        requires class { class < length (C.problem _problem.now).caps }
        requires item { item < (C.problem _problem.now).items }
        requires web { IsWeb (C.problem _problem.now) self.now }
        ensures { IsSingle (C.problem _problem.now) class item result }
    {
        self.classes[class as usize].single.as_slice()[item as usize]
    }

    /// Joins an item to three later ones.
    fn link_three<C: Columns>(
        &mut self,
        problem: &C,
        from: u32,
        nearest: Nearest,
    ) -> Result<(), Memory>
        requires web { IsWeb (C.problem problem.now) self.old }
        requires nearest { AreNearest from (C.problem problem.now).items nearest }
        ensures { IsWeb (C.problem problem.now) self.new }
    {
        self.link_one(problem, from, nearest.first)?;
        self.link_one(problem, from, nearest.second)?;
        self.link_one(problem, from, nearest.third)
    }

    /// Joins an item to a later one, where there is one.
    fn link_one<C: Columns>(
        &mut self,
        problem: &C,
        from: u32,
        near: Option<Near>,
    ) -> Result<(), Memory>
        requires web { IsWeb (C.problem problem.now) self.old }
        requires near { IfSome near (IsLater from (C.problem problem.now).items) }
        ensures { IsWeb (C.problem problem.now) self.new }
    {
        match near {
            None => Ok(()),
            Some(near) => self.join(problem, from, near.item),
        }
    }
}
