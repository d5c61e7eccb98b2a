//! The first gap of a cover.
#![tactic(auto)]

ghost use Rattle.std.specs.Prelude.{◌≡◌, ◌<◌, ◌≤◌, ℕ, ℤ, neg_ℤ, pos, Some, None, IfSome, IfNone, true, false, length, slice_get};
ghost use Rattle.std.specs.Option.{option_map};
ghost use Rattle.cover_core.specs.Plans.{number_at};
ghost use Rattle.mark_cover.specs.Covers.{ClosesBelow, IsFirstGap, IsMarkCover, StandsIn};
ghost use Rattle.mark_cover.specs.Orders.{AreGrouped};
ghost use Rattle.mark_cover.specs.Searches.{AreMetBy, AreThere, AreUnmetBetween, IsFirstClosing, IsFirstStart, IsFirstStep, IsFirstWhere, is_below, is_low, is_met, is_unmet};

use crate::groups::{are_grouped, group, place_of};
use crate::marks::Marks;
use cover_core::Gap;

/// Whether some mark is at least as good as that of an open list.
pub(crate) fn is_met_in<M: Marks>(m: &M, marks: &[M::Mark], made: &M::Open) -> bool
    ensures { result ≡ is_met (M.marking m.now) marks.now (M.seen m.now made.now) }
{
    marks.iter().any(|mark| m.is_as_good(mark, made))
}

/// The place of the first mark, from a place to another one, that is at least as good as that of an open list.
pub(crate) fn good_place<M: Marks>(
    m: &M,
    marks: &[M::Mark],
    made: &M::Open,
    from: usize,
    end: usize,
) -> Option<usize>
    requires { end ≤ length marks.now }
    ensures within { IfSome result (λ place. place < length marks.now) }
    ensures met { IfSome result (λ place. is_met (M.marking m.now) marks.now (M.seen m.now made.now) ≡ true) }
    ensures none { IfNone result (AreUnmetBetween (M.marking m.now) marks.now from end (M.seen m.now made.now)) }
{
    for place in from..end {
        if m.is_as_good(&marks[place], made) {
            return Some(place);
        }
    }
    None
}

/// Whether there is an open list that ends with an item of a class, and no mark is at least as good as its own.
fn is_unmet_in<M: Marks>(
    m: &M,
    marks: &[M::Mark],
    grouped: bool,
    class: u32,
    item: u32,
    made: Option<M::Open>,
) -> bool
    requires grouped { grouped ≡ true → AreGrouped (M.marking m.now) marks.now }
    requires placed { (b : M.Mark) → option_map (M.seen m.now) made ≡ Some b → ((M.marking m.now).class_of b ≡ class) × ((M.marking m.now).last b ≡ item) }
    ensures { result ≡ is_unmet (M.marking m.now) marks.now (option_map (M.seen m.now) made) }
{
    match made {
        None => false,
        Some(made) => !is_met_in(m, group(m, marks, grouped, class, item), &made),
    }
}

/// The first item of a class whose list of one item is not met.
fn class_gap<M: Marks>(m: &M, marks: &[M::Mark], grouped: bool, class: u32) -> Option<u32>
    requires grouped { grouped ≡ true → AreGrouped (M.marking m.now) marks.now }
    requires class { class < (M.marking m.now).classes }
    ensures { IsFirstWhere (M.marking m.now).items (λ item. is_unmet (M.marking m.now) marks.now ((M.marking m.now).start class item)) result }
{
    for item in 0..m.items() {
        if is_unmet_in(m, marks, grouped, class, item, m.first(class, item)) {
            return Some(item);
        }
    }
    None
}

/// The first list of one item that is not met.
fn start_gap<M: Marks>(m: &M, marks: &[M::Mark], grouped: bool) -> Option<Gap>
    requires { grouped ≡ true → AreGrouped (M.marking m.now) marks.now }
    ensures { IsFirstStart (M.marking m.now) marks.now result }
{
    for class in 0..m.classes() {
        if let Some(item) = class_gap(m, marks, grouped, class) {
            return Some(Gap::First { class, piece: item });
        }
    }
    None
}

/// The first item by which a mark's extension is not met.
fn mark_gap<M: Marks>(m: &M, marks: &[M::Mark], grouped: bool, mark: &M::Mark) -> Option<u32>
    requires grouped { grouped ≡ true → AreGrouped (M.marking m.now) marks.now }
    requires class { (M.marking m.now).class_of mark.now < (M.marking m.now).classes }
    requires last { (M.marking m.now).last mark.now < (M.marking m.now).items }
    ensures { IsFirstWhere (M.marking m.now).items (λ item. is_unmet (M.marking m.now) marks.now ((M.marking m.now).extend mark.now item)) result }
{
    let class = m.class_of(mark);
    let count = m.items();
    for item in m.last(mark) + 1..count {
        if is_unmet_in(m, marks, grouped, class, item, m.next(mark, item)) {
            return Some(item);
        }
    }
    None
}

/// A place, or a bound that it is past.
fn at_most(place: usize, bound: usize) -> usize
    ensures bound { result ≤ bound }
    ensures place { place ≤ bound → result ≡ place }
    ensures past { bound ≤ place → result ≡ bound }
{
    if place < bound { place } else { bound }
}

/// The place of a mark that is at least as good as that of an open list, where there is none from a place on.
fn good_place_before<M: Marks>(
    m: &M,
    marks: &[M::Mark],
    made: &M::Open,
    near: usize,
) -> Option<usize>
    requires { AreUnmetBetween (M.marking m.now) marks.now near (length marks.now) (M.seen m.now made.now) }
    ensures met { IfSome result (λ place. is_met (M.marking m.now) marks.now (M.seen m.now made.now) ≡ true) }
    ensures none { IfNone result (is_met (M.marking m.now) marks.now (M.seen m.now made.now) ≡ false) }
{
    let end = at_most(near, marks.len());
    match good_place(m, marks, made, 0, end) {
        Some(place) => Some(place),
        None => None,
    }
}

/// The place of a mark that is at least as good as that of an open list, looked for from a place on and then before it: one that is at
/// least as good as one open list's often is for the next one too, so it is looked at first.
pub(crate) fn good_place_near<M: Marks>(
    m: &M,
    marks: &[M::Mark],
    made: &M::Open,
    near: usize,
) -> Option<usize>
    ensures met { IfSome result (λ place. is_met (M.marking m.now) marks.now (M.seen m.now made.now) ≡ true) }
    ensures none { IfNone result (is_met (M.marking m.now) marks.now (M.seen m.now made.now) ≡ false) }
{
    match good_place(m, marks, made, near, marks.len()) {
        Some(place) => Some(place),
        None => good_place_before(m, marks, made, near),
    }
}

/// The same, where there is an open list; else the place where to look next.
fn near_met<M: Marks>(m: &M, marks: &[M::Mark], near: usize, made: Option<M::Open>) -> Option<usize>
    ensures { IfSome result (λ place. is_unmet (M.marking m.now) marks.now (option_map (M.seen m.now) made) ≡ false) }
{
    match made {
        None => Some(near),
        Some(made) => good_place_near(m, marks, &made, near),
    }
}

/// Whether the extensions by an item of all marks of a class are met, where the marks stand by class and last item.
fn are_met_by<M: Marks>(m: &M, marks: &[M::Mark], class: u32, item: u32) -> bool
    requires grouped { AreGrouped (M.marking m.now) marks.now }
    requires there { AreThere (M.marking m.now) marks.now }
    requires item { item < (M.marking m.now).items }
    ensures { result ≡ true → AreMetBy (M.marking m.now) marks.now class item }
{
    let key = u64::from(item);
    let from = place_of(m, marks, class, 0);
    let end = place_of(m, marks, class, key);
    let cell = group(m, marks, true, class, item);
    let mut near = 0;
    for place in from..end {
        match near_met(m, cell, near, m.next(&marks[place], item)) {
            Some(found) => near = found,
            None => return false,
        }
    }
    true
}

/// Whether the extensions of all marks of a class are met, where the marks stand by class and last item.
fn are_met_in_class<M: Marks>(m: &M, marks: &[M::Mark], class: u32) -> bool
    requires grouped { AreGrouped (M.marking m.now) marks.now }
    requires there { AreThere (M.marking m.now) marks.now }
    ensures { result ≡ true → (item : ℕ) → item < (M.marking m.now).items → AreMetBy (M.marking m.now) marks.now class item }
{
    for item in 0..m.items() {
        if !are_met_by(m, marks, class, item) {
            return false;
        }
    }
    true
}

/// Whether the extensions of all marks are met, where the marks stand by class and last item.
fn are_steps_met<M: Marks>(m: &M, marks: &[M::Mark]) -> bool
    requires grouped { AreGrouped (M.marking m.now) marks.now }
    requires there { AreThere (M.marking m.now) marks.now }
    ensures { result ≡ true → IsFirstStep (M.marking m.now) marks.now None }
{
    for class in 0..m.classes() {
        if !are_met_in_class(m, marks, class) {
            return false;
        }
    }
    true
}

/// The first extension of a mark that is not met. All are looked at by class and item before, which is faster, but does not tell the first.
fn step_gap<M: Marks>(m: &M, marks: &[M::Mark], grouped: bool) -> Option<Gap>
    requires grouped { grouped ≡ true → AreGrouped (M.marking m.now) marks.now }
    requires there { AreThere (M.marking m.now) marks.now }
    requires few { length marks.now < 4294967296 }
    ensures { IsFirstStep (M.marking m.now) marks.now result }
{
    if grouped {
        if are_steps_met(m, marks) {
            return None;
        }
    }
    first_step_gap(m, marks, grouped)
}

/// The first extension of a mark that is not met, looked for mark by mark.
fn first_step_gap<M: Marks>(m: &M, marks: &[M::Mark], grouped: bool) -> Option<Gap>
    requires grouped { grouped ≡ true → AreGrouped (M.marking m.now) marks.now }
    requires there { AreThere (M.marking m.now) marks.now }
    requires few { length marks.now < 4294967296 }
    ensures { IsFirstStep (M.marking m.now) marks.now result }
{
    for (place, mark) in marks.iter().enumerate() {
        if let Some(item) = mark_gap(m, marks, grouped, mark) {
            return Some(Gap::Next {
                place: place as u32,
                piece: item,
            });
        }
    }
    None
}

/// The price of a class.
fn price_of(class_prices: &[i64], class: u32) -> i64
    ensures { result ≡ number_at class_prices.now class }
{
    if (class as usize) < class_prices.len() {
        class_prices[class as usize]
    } else {
        0
    }
}

/// Whether there is a value, and it is below minus a price.
fn is_value_below(price: i64, value: Option<i128>) -> bool
    ensures { result ≡ is_below price value }
{
    match value {
        None => false,
        Some(value) => value < -(price as i128),
    }
}

/// Whether a mark closes with a value below minus the price of its class.
fn closes_low<M: Marks>(m: &M, class_prices: &[i64], mark: &M::Mark) -> bool
    requires class { (M.marking m.now).class_of mark.now < (M.marking m.now).classes }
    requires last { (M.marking m.now).last mark.now < (M.marking m.now).items }
    ensures { result ≡ is_low (M.marking m.now) class_prices.now mark.now }
{
    is_value_below(price_of(class_prices, m.class_of(mark)), m.close(mark))
}

/// The first mark that closes too low.
fn closing_gap<M: Marks>(m: &M, marks: &[M::Mark], class_prices: &[i64]) -> Option<Gap>
    requires there { AreThere (M.marking m.now) marks.now }
    requires few { length marks.now < 4294967296 }
    ensures { IsFirstClosing (M.marking m.now) marks.now class_prices.now result }
{
    for (place, mark) in marks.iter().enumerate() {
        if closes_low(m, class_prices, mark) {
            return Some(Gap::Close {
                place: place as u32,
            });
        }
    }
    None
}

/// Whether a mark closes with a value below minus the price of its class. The classes and last items of the marks are there.
pub fn closes_below<M: Marks>(m: &M, marks: &[M::Mark], class_prices: &[i64]) -> bool
    requires there { AreThere (M.marking m.now) marks.now }
    ensures some { result ≡ true → (a : M.Mark) × StandsIn marks.now a × ClosesBelow (M.marking m.now) class_prices.now a }
    ensures none { result ≡ false → (a : M.Mark) → StandsIn marks.now a → ¬ ClosesBelow (M.marking m.now) class_prices.now a }
{
    for place in 0..marks.len() {
        if closes_low(m, class_prices, &marks[place]) {
            return true;
        }
    }
    false
}

/// The first place where marks are no cover, by class prices: an open list of one item to which no mark is at least as good, an open
/// extension of a mark by a later item to which none is, or a mark whose list closes with a value below minus the price of its class. In
/// this order of kinds, and of a kind the first by its numbers. None exactly where the marks are a cover.
///
/// There are fewer than 2^32 marks, and their classes and last items are there; all else may come from anywhere. It takes no memory, and
/// is fast where the marks stand by class and last item: then it looks at those of one class and item alone.
pub fn first_gap<M: Marks>(m: &M, marks: &[M::Mark], class_prices: &[i64]) -> Option<Gap>
    requires there { AreThere (M.marking m.now) marks.now }
    requires few { length marks.now < 4294967296 }
    ensures first { IfSome result (λ gap. IsFirstGap (M.marking m.now) marks.now class_prices.now gap) }
    ensures none { IfNone result (IsMarkCover (M.marking m.now) marks.now class_prices.now) }
    ensures onto { IsMarkCover (M.marking m.now) marks.now class_prices.now → result ≡ None }
{
    let grouped = are_grouped(m, marks);
    match start_gap(m, marks, grouped) {
        Some(gap) => Some(gap),
        None => match step_gap(m, marks, grouped) {
            Some(gap) => Some(gap),
            None => closing_gap(m, marks, class_prices),
        },
    }
}
