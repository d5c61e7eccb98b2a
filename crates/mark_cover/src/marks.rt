//! Marks of open lists.
#![tactic(auto)]

ghost use Rattle.std.specs.Prelude.{◌≡◌, ◌<◌, List};
ghost use Rattle.std.specs.Option.{option_map};
ghost use Rattle.plan_core.specs.declared.Price.{Price};
ghost use Rattle.cover_core.specs.Cover.{Problem};
ghost use Rattle.mark_cover.specs.Marking.{AreMarksOf, IsOrdered, IsPlaced, Marking};

/// Marks of the open lists of a problem under prices. A mark says enough of its list to go on: which items may come next, and with what
/// value the list closes. Items and classes are numbered from 0, and lists rise.
///
/// Marks may come from outside: `next` and `close` take every mark whose class and last item are there, whatever its other numbers are.
/// What they make may have numbers that no mark can hold; so it is of a type of its own.
pub trait Marks {
    /// A mark: small, since it is copied.
    type Mark: Copy;

    /// The mark of an open list that was made from a mark, with numbers that are wide enough.
    type Open: Copy;

    /// How marks are made and compared.
    ghost marking: { Self → Marking Self.Mark };

    /// The problem whose lists are marked.
    ghost problem: { Self → Problem };

    /// The prices of its items.
    ghost prices: { Self → List Price };

    /// An open list's mark as a mark.
    ghost seen: { Self → Self.Open → Self.Mark };

    /// How many items there are.
    fn items(&self) -> u32
        ensures { result ≡ (marking self.now).items };

    /// How many classes there are.
    fn classes(&self) -> u32
        ensures { result ≡ (marking self.now).classes };

    /// The class of a mark's list.
    fn class_of(&self, mark: &Self::Mark) -> u32
        ensures { result ≡ (marking self.now).class_of mark.now };

    /// The last item of a mark's list.
    fn last(&self, mark: &Self::Mark) -> u32
        ensures { result ≡ (marking self.now).last mark.now };

    /// The mark of a list of one item, where that is an open list.
    fn first(&self, class: u32, item: u32) -> Option<Self::Open>
        requires class { class < (marking self.now).classes }
        requires item { item < (marking self.now).items }
        ensures { option_map (seen self.now) result ≡ (marking self.now).start class item };

    /// The mark of a list with a later item more, where that is an open list.
    fn next(&self, mark: &Self::Mark, item: u32) -> Option<Self::Open>
        requires class { (marking self.now).class_of mark.now < (marking self.now).classes }
        requires last { (marking self.now).last mark.now < (marking self.now).items }
        requires item { item < (marking self.now).items }
        ensures { option_map (seen self.now) result ≡ (marking self.now).extend mark.now item };

    /// The value with which a mark's list closes, where it may end here.
    fn close(&self, mark: &Self::Mark) -> Option<i128>
        requires class { (marking self.now).class_of mark.now < (marking self.now).classes }
        requires last { (marking self.now).last mark.now < (marking self.now).items }
        ensures { result ≡ (marking self.now).close mark.now };

    /// Whether a mark is at least as good as that of an open list.
    fn is_as_good(&self, mark: &Self::Mark, made: &Self::Open) -> bool
        ensures { result ≡ (marking self.now).good mark.now (seen self.now made.now) };

    /// The law of dominance.
    ghost ordered: { (s : Self) → IsOrdered (marking s) };

    /// The law of items.
    ghost placed: { (s : Self) → IsPlaced (marking s) };

    /// The law of worths.
    ghost tied: { (s : Self) → AreMarksOf (marking s) (problem s) (prices s) };
}
