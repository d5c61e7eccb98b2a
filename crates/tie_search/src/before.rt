//! The labels of the lists that end before an item.

ghost use Rattle.std.specs.Prelude.{◌≤◌};
ghost use Rattle.label_search.specs.Laws.{GoodAs};
ghost use Rattle.tie_search.specs.Before.{before};
ghost use Rattle.tie_search.specs.Laws.{before-hides, before-kept, before-safe, before-stepwise, before-valued};

use label_search::Labels;

/// The labels of the lists whose items are all before an end: those of a labelling, without the items from the end on.
#[derive(Drop)]
pub struct Before<'a, W: Labels> {
    /// The labels of all lists.
    pub labels: &'a W,
    /// The items of lists are before it. It is at most the number of items.
    pub end: u32,
    ghost within: { end ≤ W.count labels.now },
}

impl<W: Labels> Labels for Before<'_, W> {
    type Label = W::Label;

    ghost count = { λ s. s.end };

    ghost labelling = { λ s. before (W.labelling s.labels.now) s.end };

    ghost good = { λ s. W.good s.labels.now };

    ghost value_at = { λ s. W.value_at s.labels.now };

    ghost close_of = { λ s. W.close_of s.labels.now };

    ghost last = { λ s. W.last s.labels.now };

    ghost sound = { λ s. W.sound s.labels.now };

    ghost may_close = { λ s. W.may_close s.labels.now };

    ghost kept = { λ s. before-kept (W.labelling s.labels.now) s.end (GoodAs (W.good s.labels.now)) (W.kept s.labels.now) };

    ghost valued = { λ s. before-valued (W.labelling s.labels.now) s.end (GoodAs (W.good s.labels.now)) (W.value_at s.labels.now) (W.close_of s.labels.now) (W.valued s.labels.now) };

    ghost stepwise = { λ s. before-stepwise (W.labelling s.labels.now) s.end (W.count s.labels.now) (W.last s.labels.now) (W.stepwise s.labels.now) };

    ghost safe = { λ s. before-safe (W.labelling s.labels.now) s.end (W.sound s.labels.now) (W.safe s.labels.now) };

    ghost hides_none = { λ s. before-hides (W.labelling s.labels.now) s.end (W.good s.labels.now) (W.close_of s.labels.now) (W.sound s.labels.now) (W.may_close s.labels.now) (W.hides_none s.labels.now) };

    fn items(&self) -> u32 {
        self.end
    }

    fn start(&self, item: u32, limit: i64) -> Option<W::Label> {
        self.labels.start(item, limit)
    }

    fn extend(&self, label: &W::Label, item: u32, limit: i64) -> Option<W::Label> {
        self.labels.extend(label, item, limit)
    }

    fn most_reaching(&self, item: u32, limit: i64) -> Option<i64> {
        self.labels.most_reaching(item, limit)
    }

    fn most_following(&self, before: u32, item: u32, limit: i64) -> Option<i64> {
        self.labels.most_following(before, item, limit)
    }

    fn value(&self, label: &W::Label) -> i64 {
        self.labels.value(label)
    }

    fn is_as_good(&self, a: &W::Label, b: &W::Label) -> bool {
        self.labels.is_as_good(a, b)
    }

    fn close(&self, label: &W::Label) -> Option<i64> {
        self.labels.close(label)
    }
}
