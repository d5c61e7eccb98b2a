//! The labels of the lists of a rest.

ghost use Rattle.std.specs.Prelude.{◌≡◌, ◌≢◌, ◌<◌, ◌/◌, ◌&&◌, ℕ, [], IfSome, Some, length, nat_eq, nat_lt};
ghost use Rattle.std.specs.Option.{option_map};
ghost use Rattle.cover_core.specs.Cover.{AllBelow};
ghost use Rattle.cover_core.specs.Labels.{label_after, label_of};
ghost use Rattle.label_search.specs.Limits.{limited, passed};
ghost use Rattle.cover_rest.specs.Rest.{body_at, joined};
ghost use Rattle.rest_labels.specs.Facts.{AllBelow-prop};
ghost use Rattle.rest_labels.specs.Labels.{RestSound, ending, is_next, is_set, more_after, rest_good};
ghost use Rattle.rest_labels.specs.Groups.{group-hides, group-kept, group-safe, group-stepwise, group-valued, group_labels};

use crate::label::RestLabel;
use label_dive::Floors;
use label_search::Labels;
use plan_core::Seq;

/// The labels of the lists of a rest in a class and group: those of the written-out lists.
#[derive(Drop)]
pub struct RestLabels<'a, W: Labels> {
    /// The labels of the lists that are written out, in the class.
    pub labels: &'a W,
    /// What each item of the rest stands for: first the heads. None is empty.
    pub bodies: &'a [Seq<u32>],
    /// For each item of the rest whether a list of the class may begin with it. None may begin with an item past the end.
    pub starts: &'a [bool],
    /// For each head whether it is finished: then nothing follows it.
    pub ended: &'a [bool],
    /// The group: lists begin with one of the items 16 * group to 16 * group + 15 of the rest.
    pub group: u32,
    ghost few: { length bodies.now < 4294967296 },
    ghost items: { AllBelow (W.count labels.now) (joined bodies.now) } by { AllBelow-prop (W.count labels.now) (joined bodies.now) },
    ghost some: { (x : ℕ) → x < length bodies.now → body_at bodies.now x ≢ [] },
}

/// Whether a place of a slice is there and set.
fn is_set(marks: &[bool], place: u32) -> bool
    ensures { result ≡ is_set marks.now place }
{
    match marks.get(place as usize) {
        None => false,
        Some(mark) => *mark,
    }
}

/// The label of a list with some items more, where that is a list which may close within the limit with each of them.
fn follow<W: Labels>(
    labels: &W,
    label: Option<W::Label>,
    items: &[u32],
    limit: i64,
) -> Option<W::Label>
    requires items { AllBelow (W.count labels.now) items.now }
    requires sound { IfSome label (W.sound labels.now) }
    ensures { result ≡ label_after (limited (W.labelling labels.now) (W.may_close labels.now limit)) label items.now }
{
    let mut at = label;
    for item in items {
        match at {
            None => return None,
            Some(label) => at = labels.extend(&label, *item, limit),
        }
    }
    at
}

/// The label of a list, where that is a list which may close within the limit.
fn begin<W: Labels>(labels: &W, list: &[u32], limit: i64) -> Option<W::Label>
    requires { AllBelow (W.count labels.now) list.now }
    ensures { result ≡ passed (W.may_close labels.now limit) (label_of (W.labelling labels.now) list.now) }
{
    match list {
        [] => None,
        [first, rest @ ..] => follow(labels, labels.start(*first, limit), rest, limit),
    }
}

/// The label of a list with some items more, where that is a list which may close within the limit.
fn go_on<W: Labels>(labels: &W, label: &W::Label, items: &[u32], limit: i64) -> Option<W::Label>
    requires items { AllBelow (W.count labels.now) items.now }
    requires some { items.now ≢ [] }
    requires sound { W.sound labels.now label.now }
    ensures { result ≡ passed (W.may_close labels.now limit) (label_after (W.labelling labels.now) (Some label.now) items.now) }
{
    match items {
        [] => None,
        [first, rest @ ..] => follow(labels, labels.extend(label, *first, limit), rest, limit),
    }
}

/// The label of a list of the rest that ends with an item, where there is one.
fn label_ending_with<L: Copy>(item: u32, label: Option<L>) -> Option<RestLabel<L>>
    ensures { result ≡ option_map (ending item) label }
{
    match label {
        None => None,
        Some(label) => Some(RestLabel { item, label }),
    }
}

impl<W: Labels> RestLabels<'_, W> {
    /// Whether an item of the rest is a head.
    fn is_head(&self, item: u32) -> bool
        ensures { result ≡ nat_lt item (length self.now.ended.now) }
    {
        (item as usize) < self.ended.len()
    }

    /// Whether a list of the class and group may begin with an item of the rest.
    fn begins(&self, item: u32) -> bool
        ensures { result ≡ (nat_eq (item / 16) self.now.group && is_set self.now.starts.now item) }
    {
        item / 16 == self.group && is_set(self.starts, item)
    }

    /// Whether an item of the rest may stand behind another one.
    fn is_next(&self, before: u32, item: u32) -> bool
        ensures { result ≡ is_next (length self.now.ended.now) (more_after self.now.ended.now) (length self.now.bodies.now) before item }
    {
        before < item
            && (item as usize) < self.bodies.len()
            && !self.is_head(item)
            && !is_set(self.ended, before)
    }

    /// What an item of the rest stands for.
    fn body(&self, item: u32) -> &[u32]
        requires { item < length self.now.bodies.now }
        ensures body { result.now ≡ body_at self.now.bodies.now item }
        ensures items { AllBelow (W.count self.now.labels.now) result.now }
        ensures some { result.now ≢ [] }
    {
        self.bodies[item as usize].as_slice()
    }
}

impl<W: Labels> Labels for RestLabels<'_, W> {
    type Label = RestLabel<W::Label>;

    ghost count = { λ s. length s.bodies.now };

    ghost labelling = { λ s. group_labels (W.labelling s.labels.now) s.bodies.now s.starts.now s.ended.now s.group };

    ghost good = { λ s. rest_good (W.good s.labels.now) };

    ghost value_at = { λ s a. W.value_at s.labels.now a.label };

    ghost close_of = { λ s a. W.close_of s.labels.now a.label };

    ghost last = { λ s a. a.item };

    ghost sound = { λ s. RestSound s.bodies.now (W.last s.labels.now) (W.sound s.labels.now) };

    ghost may_close = { λ s limit a. W.may_close s.labels.now limit a.label };

    ghost kept = { λ s. group-kept (W.labelling s.labels.now) s.bodies.now s.starts.now s.ended.now s.group (W.good s.labels.now) (W.kept s.labels.now) };

    ghost valued = { λ s. group-valued (W.labelling s.labels.now) s.bodies.now s.starts.now s.ended.now s.group (W.good s.labels.now) (W.value_at s.labels.now) (W.close_of s.labels.now) (W.kept s.labels.now) (W.valued s.labels.now) };

    ghost stepwise = { λ s. group-stepwise (W.labelling s.labels.now) s.bodies.now s.starts.now s.ended.now s.group };

    ghost safe = { λ s. group-safe (W.labelling s.labels.now) s.bodies.now s.starts.now s.ended.now s.group (W.count s.labels.now) (W.last s.labels.now) (W.sound s.labels.now) (W.stepwise s.labels.now) (W.safe s.labels.now) };

    ghost hides_none = { λ s. group-hides (W.labelling s.labels.now) s.bodies.now s.starts.now s.ended.now s.group (W.good s.labels.now) (W.close_of s.labels.now) (W.last s.labels.now) (W.sound s.labels.now) (W.may_close s.labels.now) (W.safe s.labels.now) (W.hides_none s.labels.now) };

    fn items(&self) -> u32 {
        self.bodies.len() as u32
    }

    fn start(&self, item: u32, limit: i64) -> Option<RestLabel<W::Label>> {
        if !self.begins(item) {
            return None;
        }
        label_ending_with(item, begin(self.labels, self.body(item), limit))
    }

    fn extend(
        &self,
        label: &RestLabel<W::Label>,
        item: u32,
        limit: i64,
    ) -> Option<RestLabel<W::Label>> {
        if !self.is_next(label.item, item) {
            return None;
        }
        label_ending_with(
            item,
            go_on(self.labels, &label.label, self.body(item), limit),
        )
    }

    fn most_reaching(&self, item: u32, limit: i64) -> Option<i64> {
        if self.is_head(item) {
            return None;
        }
        match self.body(item) {
            [] => Some(i64::MAX),
            [first, ..] => self.labels.most_reaching(*first, limit),
        }
    }

    fn most_following(&self, before: u32, item: u32, limit: i64) -> Option<i64> {
        if !self.is_next(before, item) {
            return None;
        }
        match self.body(before) {
            [] => Some(i64::MAX),
            [.., last] => match self.body(item) {
                [] => Some(i64::MAX),
                [first, ..] => self.labels.most_following(*last, *first, limit),
            },
        }
    }

    fn value(&self, label: &RestLabel<W::Label>) -> i64 {
        self.labels.value(&label.label)
    }

    fn is_as_good(&self, a: &RestLabel<W::Label>, b: &RestLabel<W::Label>) -> bool {
        a.item == b.item && self.labels.is_as_good(&a.label, &b.label)
    }

    fn close(&self, label: &RestLabel<W::Label>) -> Option<i64> {
        self.labels.close(&label.label)
    }
}

impl<W: Floors> Floors for RestLabels<'_, W> {
    /// That of the written-out list.
    fn floor(&self, label: &RestLabel<W::Label>) -> i64 {
        self.labels.floor(&label.label)
    }
}
