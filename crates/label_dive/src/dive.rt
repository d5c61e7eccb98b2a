//! Dives: always on to the extension that closes with least at least.

ghost use Rattle.std.specs.Prelude.{◌<◌, IfSome};
ghost use Rattle.label_dive.specs.Reached.{IsReached};

use crate::floors::Floors;
use crate::guess::Guess;
use label_search::Labels;

/// The label of a list, and the list's last item.
#[derive(Clone, Copy)]
pub(crate) struct Reached<L> {
    pub item: u32,
    pub label: L,
}

/// The list of one item, where it may close within the limit.
fn begin<W: Labels>(labels: &W, item: u32, limit: i64) -> Option<Reached<W::Label>>
    requires { item < W.count labels.now }
    ensures { IfSome result (IsReached (W.sound labels.now)) }
{
    let label = labels.start(item, limit)?;
    Some(Reached { item, label })
}

/// A list with one item more, where it may close within the limit.
fn go_on<W: Labels>(
    labels: &W,
    from: &Reached<W::Label>,
    item: u32,
    limit: i64,
) -> Option<Reached<W::Label>>
    requires item { item < W.count labels.now }
    requires sound { IsReached (W.sound labels.now) from.now }
    ensures { IfSome result (IsReached (W.sound labels.now)) }
{
    let label = labels.extend(&from.label, item, limit)?;
    Some(Reached { item, label })
}

/// The lower of two labels by what their lists close with at least; of equals the first.
fn lower<W: Floors>(
    labels: &W,
    best: Option<Reached<W::Label>>,
    next: Option<Reached<W::Label>>,
) -> Option<Reached<W::Label>>
    requires best { IfSome best (IsReached (W.sound labels.now)) }
    requires next { IfSome next (IsReached (W.sound labels.now)) }
    ensures { IfSome result (IsReached (W.sound labels.now)) }
{
    match (best, next) {
        (best, None) => best,
        (None, next) => next,
        (Some(a), Some(b)) => {
            if labels.floor(&b.label) < labels.floor(&a.label) {
                Some(b)
            } else {
                Some(a)
            }
        }
    }
}

/// Of the lists of one item within a limit the one that closes with least at least.
fn first<W: Floors>(labels: &W, limit: i64) -> Option<Reached<W::Label>>
    ensures { IfSome result (IsReached (W.sound labels.now)) }
{
    let mut best = None;
    for item in 0..labels.items() {
        best = lower(labels, best, begin(labels, item, limit));
    }
    best
}

/// Of the extensions of a list within a limit the one that closes with least at least.
fn step<W: Floors>(labels: &W, from: &Reached<W::Label>, limit: i64) -> Option<Reached<W::Label>>
    requires { IsReached (W.sound labels.now) from.now }
    ensures { IfSome result (IsReached (W.sound labels.now)) }
{
    let mut best = None;
    for item in from.item.saturating_add(1)..labels.items() {
        best = lower(labels, best, go_on(labels, from, item, limit));
    }
    best
}

/// The least value within a limit with which some of the lists close that a dive from a list goes through, or the limit.
fn dive_on<W: Floors>(labels: &W, first: Reached<W::Label>, limit: i64) -> i64
    requires { IsReached (W.sound labels.now) first }
{
    let mut least = limit;
    let mut at = first;
    for _ in 0..labels.items() {
        if let Some(value) = labels.close(&at.label) {
            least = least.min(value);
        }
        match step(labels, &at, least) {
            None => return least,
            Some(next) => at = next,
        }
    }
    least
}

/// Whether some list of one item may close within a limit, as far as its label tells.
pub fn begins_within<W: Labels>(labels: &W, limit: i64) -> bool {
    for item in 0..labels.items() {
        if labels.start(item, limit).is_some() {
            return true;
        }
    }
    false
}

/// A guess by one dive, from the list of one item that closes with least at least; none where no list begins within the limit. It takes
/// as many extensions as there are items, for each item of the list that it goes through.
pub fn dive_from_least<W: Floors>(labels: &W, limit: i64) -> Option<Guess> {
    let first = first(labels, limit)?;
    Some(Guess {
        floor: labels.floor(&first.label),
        value: dive_on(labels, first, limit),
    })
}

/// A guess by a dive from each list of one item within the limit; none where no list begins within it.
pub fn dive_from_each<W: Floors>(labels: &W, limit: i64) -> Option<Guess> {
    let first = first(labels, limit)?;
    let mut value = limit;
    for item in 0..labels.items() {
        if let Some(first) = begin(labels, item, value) {
            value = dive_on(labels, first, value);
        }
    }
    Some(Guess {
        floor: labels.floor(&first.label),
        value,
    })
}
