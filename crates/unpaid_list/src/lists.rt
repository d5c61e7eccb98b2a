//! Open lists whose values are known.
#![tactic(auto)]

ghost use Rattle.std.specs.Prelude.{◌≡◌, ◌<◌, ℤ};
ghost use Rattle.unpaid_list.specs.Laws.{AreValued};

use mark_cover::OpenLists;

/// Marks of open lists whose values are known, so that the first least list can be searched for.
pub trait ValuedLists: OpenLists {
    /// The value so far of a mark's list.
    ghost value_at: { Self → Self.Mark → ℤ };

    /// The value so far of a mark's list.
    fn value(&self, mark: &Self::Mark) -> i64
        ensures { result ≡ value_at self.now mark.now };

    /// The value with which an open list closes, where it may end here.
    fn close_value(&self, mark: &Self::Mark) -> Option<i64>
        requires sound { Self.sound self.now mark.now }
        requires class { (Self.marking self.now).class_of mark.now < (Self.marking self.now).classes }
        requires last { (Self.marking self.now).last mark.now < (Self.marking self.now).items }
        ensures { result ≡ (Self.marking self.now).close mark.now };

    /// The law of values: a mark that is at least as good has no greater value; a smaller value stays smaller over each further item,
    /// and closes smaller.
    ghost valued: { (s : Self) → AreValued (Self.marking s) (value_at s) };
}
