//! Searches of a rest of eight items, and an enumeration of all its lists. Two columns have begun: one with the items 0 and 2, one with the
//! item 3. So the items of the rest stand for 0 and 2, for 3, and for 1, 4, 5, 6 and 7.

ghost use Rattle.std.specs.Prelude.{◌≡◌, ◌≤◌, ◌∷◌, [], IfOk};

use crate::begun_columns::begun;
use crate::labellings::{Hauls, toll, weight};
use cover_rest::{Begun, bodies, is_rest_list};
use label_search::{Found, Labels, search};
use plan_core::{Memory, Seq};
use rest_labels::{RestLabels, ended_heads, starting_items};
use std::alloc::Global;

/// The heads, of these classes, finished or not.
pub fn heads(alloc: Global, classes: (u32, u32), ended: (bool, bool)) -> Result<[Begun; 2], Memory>
    ensures { IfOk result (λ heads. heads ≡ record { class = classes.0; items = 0 ∷ 2 ∷ []; finished = ended.0 } ∷ record { class = classes.1; items = 3 ∷ []; finished = ended.1 } ∷ []) }
{
    let first = begun(alloc, classes.0, &[0, 2], ended.0)?;
    let second = begun(alloc, classes.1, &[3], ended.1)?;
    Ok([first, second])
}

/// A search of the rest: the classes of the heads, whether they are finished, the class of the lists, the item of the rest with which no
/// list may be begun, the group and the limit.
#[derive(Clone, Copy, Drop)]
pub struct Case {
    classes: (u32, u32),
    ended: (bool, bool),
    class: u32,
    late: u32,
    group: u32,
    limit: i64,
}

/// What a search of the rest finds.
pub fn found<W: Labels>(alloc: Global, labels: &W, case: &Case) -> Result<Option<Found>, Memory>
    requires { 8 ≤ W.count labels.now }
{
    let heads = heads(alloc, case.classes, case.ended)?;
    let bodies = bodies(alloc, &heads, 8)?;
    let free = [
        false,
        false,
        case.late != 2,
        case.late != 3,
        case.late != 4,
        case.late != 5,
        case.late != 6,
    ];
    let starts = starting_items(alloc, &heads, case.class, &free)?;
    let ended = ended_heads(alloc, &heads)?;
    let labels = RestLabels {
        labels,
        bodies: bodies.as_slice(),
        starts: starts.as_slice(),
        ended: ended.as_slice(),
        group: case.group,
    };
    search(alloc, &labels, [].as_slice(), case.limit)
}

/// A written-out list: its first and its last item, what its steps cost, what its items weigh, and whether they rise.
#[derive(Clone, Copy, Drop)]
struct Walk {
    first: u32,
    last: Option<u32>,
    steps: i64,
    load: u32,
    rises: bool,
}

/// The list with an item more.
fn longer_walk(seed: u8, walk: Walk, item: u32) -> Walk {
    let load = walk.load.saturating_add(weight(item));
    match walk.last {
        None => Walk {
            first: item,
            last: Some(item),
            steps: walk.steps,
            load,
            rises: walk.rises,
        },
        Some(last) => Walk {
            first: walk.first,
            last: Some(item),
            steps: walk.steps.saturating_add(toll(seed, last, item)),
            load,
            rises: walk.rises && last < item,
        },
    }
}

/// A set of items of the rest, written out.
fn walk_of(bodies: &[Seq<u32>], set: u32, seed: u8) -> Walk {
    let mut walk = Walk {
        first: 0,
        last: None,
        steps: 0,
        load: 0,
        rises: true,
    };
    let mut left = set;
    for body in bodies {
        if left % 2 == 1 {
            for item in body.as_slice() {
                walk = longer_walk(seed, walk, *item);
            }
        }
        left /= 2;
    }
    walk
}

/// What a list costs as a haul, where it is one.
fn haul_value(hauls: &Hauls, walk: Walk) -> Option<i64> {
    if walk.rises && walk.load < hauls.room {
        Some(
            walk.steps
                .saturating_add(toll(hauls.seed, walk.first, walk.first)),
        )
    } else {
        None
    }
}

/// What a list costs as a way, where it is one.
fn way_value(walk: Walk) -> Option<i64> {
    if walk.rises && walk.first == 0 && walk.last == Some(7) {
        Some(walk.steps)
    } else {
        None
    }
}

/// The items of a set.
fn items_of(alloc: Global, set: u32) -> Result<Vec<u32>, Memory> {
    let mut list = Vec::new(alloc);
    for item in 0..7 {
        if (set >> item) % 2 == 1 {
            list.push(item)?;
        }
    }
    Ok(list)
}

/// Whether a list is one of the rest in the case's class and group.
fn is_list(heads: &[Begun], case: &Case, list: &[u32]) -> bool {
    match list {
        [] => false,
        [first, ..] => {
            first / 16 == case.group
                && is_rest_list(heads, 7, case.class, list, *first != case.late)
        }
    }
}

/// A set in place of the best one so far, where it costs less and at most the limit.
fn earlier(best: Option<(u32, i64)>, set: u32, value: i64, limit: i64) -> Option<(u32, i64)> {
    if value > limit {
        return best;
    }
    match best {
        None => Some((set, value)),
        Some(old) => {
            if value < old.1 {
                Some((set, value))
            } else {
                best
            }
        }
    }
}

/// Of all lists of the rest the first of least cost, as a set: sets are looked at in the order of their lists compared from the last items
/// backwards, which is that of the sets as binary numbers. As hauls, or as ways where there is no room.
pub fn by_all_lists(
    alloc: Global,
    case: &Case,
    seed: u8,
    hauls: Option<&Hauls>,
) -> Result<Option<(u32, i64)>, Memory> {
    let heads = heads(alloc, case.classes, case.ended)?;
    let bodies = bodies(alloc, &heads, 8)?;
    let mut best = None;
    for set in 1..128 {
        let list = items_of(alloc, set)?;
        if is_list(&heads, case, list.as_slice()) {
            let walk = walk_of(bodies.as_slice(), set, seed);
            let value = match hauls {
                Some(hauls) => haul_value(hauls, walk),
                None => way_value(walk),
            };
            if let Some(value) = value {
                best = earlier(best, set, value, case.limit);
            }
        }
    }
    Ok(best)
}

/// Whether a search found what the enumeration of all lists did.
pub fn agree(
    alloc: Global,
    found: Option<Found>,
    best: Option<(u32, i64)>,
) -> Result<bool, Memory> {
    match (found, best) {
        (None, None) => Ok(true),
        (Some(found), Some((set, value))) => {
            let list = items_of(alloc, set)?;
            Ok(found.value == value && found.list.as_slice() == list.as_slice())
        }
        _ => Ok(false),
    }
}

/// The cases: each class, each head finished, a list that may not be begun, a group without items, limits.
pub fn cases() -> [Case; 9] {
    let case = Case {
        classes: (0, 0),
        ended: (false, false),
        class: 0,
        late: 7,
        group: 0,
        limit: 40,
    };
    [
        case,
        Case { class: 1, ..case },
        Case {
            classes: (0, 1),
            ..case
        },
        Case {
            classes: (1, 0),
            ..case
        },
        Case {
            ended: (true, false),
            ..case
        },
        Case {
            ended: (false, true),
            classes: (1, 0),
            ..case
        },
        Case {
            late: 2,
            class: 1,
            ..case
        },
        Case { group: 1, ..case },
        Case { limit: -6, ..case },
    ]
}
