//! Labels of lists of items.
#![tactic(auto)]

ghost use Rattle.std.specs.Prelude.{◌≡◌, ◌<◌, ℕ, ℤ, IfNone, IfSome, Option, Bool};
ghost use Rattle.cover_core.specs.Labels.{Labelling, IsKept, IsValued};
ghost use Rattle.label_search.specs.Laws.{GoodAs, IsStepwise, IsSafe, HidesNone};
ghost use Rattle.label_search.specs.Levels.{NoneFollows, NoneFollowsAbove, NoneReaches, NoneReachesAbove};
ghost use Rattle.label_search.specs.Limits.{passed};

/// Labels of lists of items. A label says enough of its list to go on: which items may come next, and with what value the list closes.
/// Lists rise, and items are numbered from 0.
///
/// The laws: what is at least as good stays so over each further item, has no greater value, and closes with no greater one; a
/// smaller value stays smaller, and closes smaller. The test under a limit (the value with a completion bound, say) hides no list
/// that closes within the limit.
pub trait Labels {
    /// A label: small, since it is copied.
    type Label: Copy;

    /// How many items there are.
    ghost count: { Self → ℕ };

    /// How labels are made: from a list of one item, and from a label and one item more.
    ghost labelling: { Self → Labelling Self.Label };

    /// Whether the first label is at least as good as the second.
    ghost good: { Self → Self.Label → Self.Label → Bool };

    /// The value so far.
    ghost value_at: { Self → Self.Label → ℤ };

    /// The value with which a list closes, where it may end.
    ghost close_of: { Self → Self.Label → Option ℤ };

    /// The last item of the list.
    ghost last: { Self → Self.Label → ℕ };

    /// Holds of the labels of lists: their numbers fit.
    ghost sound: { Self → Self.Label → Type 0 };

    /// Whether a label may still close within a limit.
    ghost may_close: { Self → ℤ → Self.Label → Bool };

    /// How many items there are.
    fn items(&self) -> u32
        ensures { result ≡ count self.now };

    /// The label of a list of one item, where that is a list which may close within the limit.
    fn start(&self, item: u32, limit: i64) -> Option<Self::Label>
        requires { item < count self.now }
        ensures { result ≡ passed (may_close self.now limit) ((labelling self.now).start item) };

    /// The label of a list with one item more, where that is a list which may close within the limit.
    fn extend(&self, label: &Self::Label, item: u32, limit: i64) -> Option<Self::Label>
        requires item { item < count self.now }
        requires sound { sound self.now label.now }
        ensures { result ≡ passed (may_close self.now limit) ((labelling self.now).extend label.now item) };

    /// The greatest value with which a list may go on with an item within the limit, and `None` where none may. It may be a greater one; a
    /// labelling that cannot tell says `Some(i64::MAX)`.
    fn most_reaching(&self, item: u32, limit: i64) -> Option<i64>
        requires { item < count self.now }
        ensures none { IfNone result (NoneReaches (labelling self.now) (sound self.now) (may_close self.now limit) item) }
        ensures most { IfSome result (λ most. NoneReachesAbove (labelling self.now) (sound self.now) (value_at self.now) (may_close self.now limit) item most) };

    /// The same of lists that end with the item `before`.
    fn most_following(&self, before: u32, item: u32, limit: i64) -> Option<i64>
        requires { item < count self.now }
        ensures none { IfNone result (NoneFollows (labelling self.now) (sound self.now) (last self.now) (may_close self.now limit) before item) }
        ensures most { IfSome result (λ most. NoneFollowsAbove (labelling self.now) (sound self.now) (last self.now) (value_at self.now) (may_close self.now limit) before item most) };

    /// The value so far.
    fn value(&self, label: &Self::Label) -> i64
        ensures { result ≡ value_at self.now label.now };

    /// Whether the first label is at least as good as the second: what the second's list may do, the first's may too, for no more.
    fn is_as_good(&self, a: &Self::Label, b: &Self::Label) -> bool
        ensures { result ≡ good self.now a.now b.now };

    /// The value with which the list closes, where it may end here.
    fn close(&self, label: &Self::Label) -> Option<i64>
        requires { sound self.now label.now }
        ensures { result ≡ close_of self.now label.now };

    /// The law of dominance: at least as good is reflexive, transitive and kept by each extension.
    ghost kept: { (s : Self) → IsKept (labelling s) (GoodAs (good s)) };

    /// The law of values: what is at least as good has no greater value; a smaller one stays smaller, and closes smaller.
    ghost valued: { (s : Self) → IsValued (labelling s) (GoodAs (good s)) (value_at s) (close_of s) };

    /// The law of items: they rise, and are below the count.
    ghost stepwise: { (s : Self) → IsStepwise (labelling s) (count s) (last s) };

    /// The law of numbers: the labels of lists are sound.
    ghost safe: { (s : Self) → IsSafe (labelling s) (sound s) };

    /// The law of limits: the test hides no list that closes within the limit.
    ghost hides_none: { (s : Self) → HidesNone (labelling s) (good s) (close_of s) (sound s) (may_close s) };
}
