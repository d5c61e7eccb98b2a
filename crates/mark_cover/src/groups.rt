//! The marks of a class that end with an item.
#![tactic(auto)]

ghost use Rattle.std.specs.Prelude.{◌≡◌, ◌≤◌, true, length};
ghost use Rattle.std.specs.List.{list_any};
ghost use Rattle.mark_cover.specs.Orders.{AreEarly, AreGrouped, AreLate, is_before, stands_before};

use crate::marks::Marks;

/// Whether a class and item are before another one.
fn before(class: u32, item: u64, other_class: u32, other_item: u64) -> bool
    ensures { result ≡ is_before class item other_class other_item }
{
    class < other_class || (class == other_class && item < other_item)
}

/// Whether the mark's class and last item are before these.
fn is_early<M: Marks>(m: &M, mark: &M::Mark, class: u32, item: u64) -> bool
    ensures { result ≡ stands_before (M.marking m.now) mark.now class item }
{
    before(m.class_of(mark), u64::from(m.last(mark)), class, item)
}

/// Whether the marks stand by class and last item.
pub(crate) fn are_grouped<M: Marks>(m: &M, marks: &[M::Mark]) -> bool
    ensures { result ≡ true → AreGrouped (M.marking m.now) marks.now }
{
    for place in 1..marks.len() {
        let earlier = &marks[place - 1];
        if is_early(
            m,
            &marks[place],
            m.class_of(earlier),
            u64::from(m.last(earlier)),
        ) {
            return false;
        }
    }
    true
}

/// The place of the first mark whose class and last item are not before these.
pub(crate) fn place_of<M: Marks>(m: &M, marks: &[M::Mark], class: u32, item: u64) -> usize
    requires { AreGrouped (M.marking m.now) marks.now }
    ensures within { result ≤ length marks.now }
    ensures early { AreEarly (M.marking m.now) marks.now class item result }
    ensures late { AreLate (M.marking m.now) marks.now class item result }
{
    let mut low = 0;
    let mut high = marks.len();
    while low < high {
        let middle = low + (high - low) / 2;
        if is_early(m, &marks[middle], class, item) {
            low = middle + 1;
        } else {
            high = middle;
        }
    }
    low
}

/// Those marks of a class that end with an item, and maybe others: no other mark is at least as good as one of that class and item.
pub(crate) fn group<'s, M: Marks>(
    m: &M,
    marks: &'s [M::Mark],
    grouped: bool,
    class: u32,
    item: u32,
) -> &'s [M::Mark]
    requires { grouped ≡ true → AreGrouped (M.marking m.now) marks.now }
    ensures { (b : M.Mark) → (M.marking m.now).class_of b ≡ class → (M.marking m.now).last b ≡ item → list_any (λ a. (M.marking m.now).good a b) result.now ≡ list_any (λ a. (M.marking m.now).good a b) marks.now }
{
    if grouped {
        let key = u64::from(item);
        let low = place_of(m, marks, class, key);
        let high = place_of(m, marks, class, key + 1);
        if low < high {
            &marks[low..high]
        } else {
            &marks[..0]
        }
    } else {
        marks
    }
}
