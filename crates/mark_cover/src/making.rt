//! The marks of all open lists that are kept, made item by item.
#![tactic(auto)]

ghost use Rattle.std.specs.Prelude.{◌≡◌, ◌<◌, ◌++◌, ◌∷◌, [], Some, OnOk, IfOk, false, filter, not};
ghost use Rattle.std.specs.Option.{option_map};
ghost use Rattle.mark_cover.specs.Levels.{AreInserted, AreOfClass, listed, nexts};
ghost use Rattle.mark_cover.specs.Minimal.{AreGiven, AreKept, AreSafe, IsApart};
ghost use Rattle.mark_cover.specs.Searches.{is_met};

use crate::gaps::good_place_near;
use crate::marks::Marks;
use plan_core::{Memory, Seq};
use std::alloc::Global;

/// Marks whose numbers fit where they are of open lists, so that all marks of open lists can be made.
pub trait OpenLists: Marks {
    /// Holds of the marks of open lists: their numbers fit.
    ghost sound: { Self → Self.Mark → Type 0 };

    /// An open list's mark as a mark.
    fn narrow(&self, made: &Self::Open) -> Self::Mark
        requires { sound self.now (Self.seen self.now made.now) }
        ensures { result ≡ Self.seen self.now made.now };

    /// Whether a mark is at least as good as another one.
    fn beats(&self, a: &Self::Mark, b: &Self::Mark) -> bool
        ensures { result ≡ (Self.marking self.now).good a.now b.now };

    /// The law of numbers: the marks of open lists are sound.
    ghost safe: { (s : Self) → AreSafe (Self.marking s) (sound s) };

    /// The law of order: marks that are at least as good as one another are the same.
    ghost apart: { (s : Self) → IsApart (Self.marking s) };
}

/// Whether a mark stays beside another one, which is not at least as good.
fn stays<M: OpenLists>(m: &M, a: &M::Mark, b: &M::Mark) -> bool
    ensures { result ≡ not ((M.marking m.now).good a.now b.now) }
{
    !m.beats(a, b)
}

/// Takes out the marks that a mark is at least as good as.
fn take_out<M: OpenLists>(m: &M, marks: &mut Vec<M::Mark>, a: &M::Mark)
    ensures { marks.new.items ≡ filter (λ b. not ((M.marking m.now).good a.now b)) marks.old.items }
{
    marks.retain(|mark| stays(m, a, mark));
}

/// Puts a mark last, where no other one is at least as good, and takes out those that it is at least as good as.
fn push_best<M: OpenLists>(m: &M, marks: &mut Vec<M::Mark>, mark: M::Mark) -> Result<(), Memory>
    requires { is_met (M.marking m.now) marks.old.items mark ≡ false }
    ensures { OnOk result (AreInserted (M.marking m.now) (mark ∷ []) marks.old.items marks.new.items) }
{
    take_out(m, marks, &mark);
    match marks.push(mark) {
        Ok(()) => Ok(()),
        Err(_) => Err(Memory),
    }
}

/// Puts the mark of an open list among marks. It looks first at a place where one may be at least as good, and answers where to look next.
fn insert_made<M: OpenLists>(
    m: &M,
    marks: &mut Vec<M::Mark>,
    near: usize,
    made: M::Open,
) -> Result<usize, Memory>
    requires { M.sound m.now (M.seen m.now made) }
    ensures { OnOk result (AreInserted (M.marking m.now) (M.seen m.now made ∷ []) marks.old.items marks.new.items) }
{
    match good_place_near(m, marks.as_slice(), &made, near) {
        Some(place) => Ok(place),
        None => {
            push_best(m, marks, m.narrow(&made))?;
            Ok(near)
        }
    }
}

/// The same, where there is a mark.
fn insert_some<M: OpenLists>(
    m: &M,
    marks: &mut Vec<M::Mark>,
    near: usize,
    made: Option<M::Open>,
) -> Result<usize, Memory>
    requires { (b : M.Mark) → option_map (M.seen m.now) made ≡ Some b → M.sound m.now b }
    ensures { OnOk result (AreInserted (M.marking m.now) (listed (option_map (M.seen m.now) made)) marks.old.items marks.new.items) }
{
    match made {
        Some(made) => insert_made(m, marks, near, made),
        None => Ok(near),
    }
}

/// Puts in the extensions of marks by an item.
fn insert_nexts<M: OpenLists>(
    m: &M,
    kept: &[M::Mark],
    item: u32,
    marks: &mut Vec<M::Mark>,
) -> Result<(), Memory>
    requires item { item < (M.marking m.now).items }
    requires given { AreGiven (M.marking m.now) (M.sound m.now) kept.now }
    ensures { OnOk result (AreInserted (M.marking m.now) (nexts (M.marking m.now) kept.now item) marks.old.items marks.new.items) }
{
    let mut near = 0;
    for place in 0..kept.len() {
        near = insert_some(m, marks, near, m.next(&kept[place], item))?;
    }
    Ok(())
}

/// Makes the marks of a class that end with an item, from those of the items before it.
fn make_level<M: OpenLists>(
    m: &M,
    kept: &[M::Mark],
    class: u32,
    item: u32,
    marks: &mut Vec<M::Mark>,
) -> Result<(), Memory>
    requires class { class < (M.marking m.now).classes }
    requires item { item < (M.marking m.now).items }
    requires given { AreGiven (M.marking m.now) (M.sound m.now) kept.now }
    requires empty { marks.old.items ≡ [] }
    ensures { OnOk result (AreInserted (M.marking m.now) (listed ((M.marking m.now).start class item) ++ nexts (M.marking m.now) kept.now item) [] marks.new.items) }
{
    insert_some(m, marks, 0, m.first(class, item))?;
    insert_nexts(m, kept, item, marks)
}

/// Puts marks behind others, and leaves none.
fn keep<L: Copy>(kept: &mut Vec<L>, made: &mut Vec<L>) -> Result<(), Memory>
    ensures kept { OnOk result (kept.new.items ≡ kept.old.items ++ made.old.items) }
    ensures empty { OnOk result (made.new.items ≡ []) }
{
    match kept.append(made) {
        Ok(()) => Ok(()),
        Err(_) => Err(Memory),
    }
}

/// Makes the marks of a class.
fn make_class<M: OpenLists>(alloc: Global, m: &M, class: u32) -> Result<Vec<M::Mark>, Memory>
    requires { class < (M.marking m.now).classes }
    ensures { IfOk result (λ marks. AreOfClass (M.marking m.now) class (M.marking m.now).items marks.items) }
{
    let mut kept = Vec::new(alloc);
    let mut made = Vec::new(alloc);
    for item in 0..m.items() {
        make_level(m, kept.as_slice(), class, item, &mut made)?;
        keep(&mut kept, &mut made)?;
    }
    Ok(kept)
}

/// The marks of open lists of which none is at least as good as another one, and to each open list one that is at least as good as its
/// own. They stand by class and last item. Sorted they are exactly the marks of open lists to which no other mark is at least as good,
/// each once, as `kept_marks_are_minimal` says. `Memory` is the only error.
pub fn make_marks<M: OpenLists>(alloc: Global, m: &M) -> Result<Seq<M::Mark>, Memory>
    ensures { IfOk result (λ marks. AreKept (M.marking m.now) marks) }
{
    let mut all = Vec::new(alloc);
    for class in 0..m.classes() {
        let mut marks = make_class(alloc, m, class)?;
        keep(&mut all, &mut marks)?;
    }
    Ok(Seq::from_vec(all))
}
