//! The marks of one class as the labels of a search.
#![tactic(auto)]

ghost use Rattle.std.specs.Prelude.{◌≡◌, ◌<◌, Some};
ghost use Rattle.std.specs.Option.{option_map};
ghost use Rattle.mark_cover.specs.Marking.{of_class};
ghost use Rattle.unpaid_list.specs.Laws.{IsOfClass, class-hides, class-safe, class-stepwise, may_close_always};

use crate::lists::ValuedLists;
use label_search::Labels;

/// The labels of the open lists of one class.
#[derive(Drop)]
pub(crate) struct ClassLabels<'m, M: ValuedLists> {
    pub m: &'m M,
    pub class: u32,
    ghost there: { class < (M.marking m.now).classes },
}

/// The mark of an open list, where there is one.
fn narrow_some<M: ValuedLists>(m: &M, made: Option<M::Open>) -> Option<M::Mark>
    requires { (b : M.Mark) → option_map (M.seen m.now) made ≡ Some b → M.sound m.now b }
    ensures { result ≡ option_map (M.seen m.now) made }
{
    match made {
        None => None,
        Some(made) => Some(m.narrow(&made)),
    }
}

impl<M: ValuedLists> Labels for ClassLabels<'_, M> {
    type Label = M::Mark;

    ghost count = { λ s. (M.marking s.m.now).items };

    ghost labelling = { λ s. of_class (M.marking s.m.now) s.class };

    ghost good = { λ s. (M.marking s.m.now).good };

    ghost value_at = { λ s. M.value_at s.m.now };

    ghost close_of = { λ s. (M.marking s.m.now).close };

    ghost last = { λ s. (M.marking s.m.now).last };

    ghost sound = { λ s. IsOfClass (M.marking s.m.now) (M.sound s.m.now) s.class };

    ghost may_close = { λ s. may_close_always };

    ghost kept = { λ s. (M.ordered s.m.now).kept s.class };

    ghost valued = { λ s. M.valued s.m.now s.class };

    ghost stepwise = { λ s. class-stepwise (M.marking s.m.now) s.class (M.placed s.m.now) };

    ghost safe = { λ s. class-safe (M.marking s.m.now) (M.sound s.m.now) s.class (M.placed s.m.now) (M.safe s.m.now) };

    ghost hides_none = { λ s. class-hides (M.marking s.m.now) (M.sound s.m.now) s.class };

    fn items(&self) -> u32 {
        self.m.items()
    }

    fn start(&self, item: u32, _limit: i64) -> Option<M::Mark> {
        narrow_some(self.m, self.m.first(self.class, item))
    }

    fn extend(&self, label: &M::Mark, item: u32, _limit: i64) -> Option<M::Mark> {
        narrow_some(self.m, self.m.next(label, item))
    }

    fn most_reaching(&self, _item: u32, _limit: i64) -> Option<i64> {
        Some(i64::MAX)
    }

    fn most_following(&self, _before: u32, _item: u32, _limit: i64) -> Option<i64> {
        Some(i64::MAX)
    }

    fn value(&self, label: &M::Mark) -> i64 {
        self.m.value(label)
    }

    fn is_as_good(&self, a: &M::Mark, b: &M::Mark) -> bool {
        self.m.beats(a, b)
    }

    fn close(&self, label: &M::Mark) -> Option<i64> {
        self.m.close_value(label)
    }
}
