//! The least value alone, and where a list with it ends.

ghost use Rattle.std.specs.Prelude.{◌≡◌, ◌<◌, ◌≤◌, ◌++◌, [], IfSome, OnOk, length};
ghost use Rattle.std.specs.List.{All};
ghost use Rattle.tie_search.specs.Reached.{IsReached};

use label_search::{Labels, Level};
use plan_core::Memory;
use std::alloc::Global;

/// A value with which a list closes, and where the list ends.
#[derive(Clone, Copy, Debug, PartialEq, Eq)]
pub struct Closing {
    /// The value.
    pub value: i64,
    /// The list's last item is the one before it.
    pub end: u32,
}

/// A label of a list, and its value.
#[derive(Clone, Copy)]
pub(crate) struct Reached<L> {
    pub value: i64,
    pub label: L,
}

/// Whether one of some labels is at least as good as a label.
fn is_beaten<W: Labels>(labels: &W, made: &[Reached<W::Label>], label: &W::Label) -> bool {
    for other in made {
        if labels.is_as_good(&other.label, label) {
            return true;
        }
    }
    false
}

/// Takes out the label at a place, where another one is at least as good.
fn take_beaten<W: Labels>(
    labels: &W,
    made: &mut Vec<Reached<W::Label>>,
    label: &W::Label,
    place: usize,
)
    requires place { place < length made.old.items }
    requires made { All (IsReached (W.sound labels.now)) made.old.items }
    ensures made { All (IsReached (W.sound labels.now)) made.new.items }
    ensures few { length made.new.items ≤ length made.old.items }
    ensures others { place ≤ length made.new.items }
{
    if labels.is_as_good(label, &made[place].label) {
        made.swap_remove(place);
    }
}

/// Takes out the labels to which a label is at least as good.
fn take_out<W: Labels>(labels: &W, made: &mut Vec<Reached<W::Label>>, label: &W::Label)
    requires { All (IsReached (W.sound labels.now)) made.old.items }
    ensures { All (IsReached (W.sound labels.now)) made.new.items }
{
    let mut place = made.len();
    while place > 0 {
        place -= 1;
        take_beaten(labels, made, label, place);
    }
}

/// Puts a label in, where there is one to which no other is at least as good, in place of those to which it is at least as good, be they of
/// the same value or not.
fn put<W: Labels>(
    labels: &W,
    made: &mut Vec<Reached<W::Label>>,
    label: Option<W::Label>,
) -> Result<(), Memory>
    requires label { IfSome label (W.sound labels.now) }
    requires made { All (IsReached (W.sound labels.now)) made.old.items }
    ensures { OnOk result (All (IsReached (W.sound labels.now)) made.new.items) }
{
    match label {
        None => Ok(()),
        Some(label) => {
            if is_beaten(labels, made.as_slice(), &label) {
                return Ok(());
            }
            take_out(labels, made, &label);
            made.push(Reached {
                value: labels.value(&label),
                label,
            })?;
            Ok(())
        }
    }
}

/// Puts in the extension of a label, unless its value is above the most with which one goes on.
fn extend_one<W: Labels>(
    labels: &W,
    kept: &[Reached<W::Label>],
    made: &mut Vec<Reached<W::Label>>,
    place: usize,
    most: i64,
    item: u32,
    limit: i64,
) -> Result<(), Memory>
    requires item { item < W.count labels.now }
    requires place { place < length kept.now }
    requires kept { All (IsReached (W.sound labels.now)) kept.now }
    requires made { All (IsReached (W.sound labels.now)) made.old.items }
    ensures { OnOk result (All (IsReached (W.sound labels.now)) made.new.items) }
{
    let reached = &kept[place];
    if reached.value > most {
        return Ok(());
    }
    put(labels, made, labels.extend(&reached.label, item, limit))
}

/// Puts in the extensions of the labels of a level, the first of which has this place.
fn extend_all<W: Labels>(
    labels: &W,
    kept: &[Reached<W::Label>],
    made: &mut Vec<Reached<W::Label>>,
    from: u32,
    end: u32,
    most: i64,
    item: u32,
    limit: i64,
) -> Result<(), Memory>
    requires item { item < W.count labels.now }
    requires kept { All (IsReached (W.sound labels.now)) kept.now }
    requires made { All (IsReached (W.sound labels.now)) made.old.items }
    ensures { OnOk result (All (IsReached (W.sound labels.now)) made.new.items) }
{
    let end = (end as usize).min(kept.len());
    for place in from as usize..end {
        extend_one(labels, kept, made, place, most, item, limit)?;
    }
    Ok(())
}

/// Puts in the extensions of the labels of a level, unless there is none: none goes on with a value above `reach`.
fn follow<W: Labels>(
    labels: &W,
    kept: &[Reached<W::Label>],
    made: &mut Vec<Reached<W::Label>>,
    from: u32,
    level: &Level,
    reach: i64,
    item: u32,
    limit: i64,
) -> Result<(), Memory>
    requires item { item < W.count labels.now }
    requires kept { All (IsReached (W.sound labels.now)) kept.now }
    requires made { All (IsReached (W.sound labels.now)) made.old.items }
    ensures { OnOk result (All (IsReached (W.sound labels.now)) made.new.items) }
{
    if level.least > reach {
        return Ok(());
    }
    match labels.most_following(level.item, item, limit) {
        None => Ok(()),
        Some(most) => {
            if level.least <= most {
                extend_all(labels, kept, made, from, level.end, most, item, limit)
            } else {
                Ok(())
            }
        }
    }
}

/// Makes the labels of the lists that end with an item.
fn make_item<W: Labels>(
    labels: &W,
    kept: &[Reached<W::Label>],
    made: &mut Vec<Reached<W::Label>>,
    levels: &[Level],
    item: u32,
    limit: i64,
) -> Result<(), Memory>
    requires item { item < W.count labels.now }
    requires kept { All (IsReached (W.sound labels.now)) kept.now }
    requires made { All (IsReached (W.sound labels.now)) made.old.items }
    ensures { OnOk result (All (IsReached (W.sound labels.now)) made.new.items) }
{
    put(labels, made, labels.start(item, limit))?;
    if let Some(reach) = labels.most_reaching(item, limit) {
        let mut from = 0;
        for level in levels {
            follow(labels, kept, made, from, level, reach, item, limit)?;
            from = level.end;
        }
    }
    Ok(())
}

/// The lower of two values.
fn lower(a: Option<i64>, b: Option<i64>) -> Option<i64> {
    match (a, b) {
        (a, None) => a,
        (None, b) => b,
        (Some(a), Some(b)) => Some(a.min(b)),
    }
}

/// The least value with which one of some labels closes.
fn least_closing<W: Labels>(labels: &W, made: &[Reached<W::Label>]) -> Option<i64>
    requires { All (IsReached (W.sound labels.now)) made.now }
{
    let mut least = None;
    for place in 0..made.len() {
        least = lower(least, labels.close(&made[place].label));
    }
    least
}

/// The least value of some labels.
fn least_of<L>(made: &[Reached<L>]) -> i64 {
    let mut least = i64::MAX;
    for reached in made {
        least = least.min(reached.value);
    }
    least
}

/// Puts the labels of a level that was made behind those of the others.
fn keep_level<L: Copy>(
    kept: &mut Vec<Reached<L>>,
    made: &mut Vec<Reached<L>>,
    levels: &mut Vec<Level>,
    item: u32,
) -> Result<(), Memory>
    ensures kept { OnOk result (kept.new.items ≡ kept.old.items ++ made.old.items) }
    ensures made { OnOk result (made.new.items ≡ []) }
{
    let least = least_of(made.as_slice());
    kept.append(made)?;
    let end = kept.len();
    if end > 4_294_967_295 {
        return Err(Memory);
    }
    levels.push(Level {
        item,
        end: end as u32,
        least,
    })?;
    Ok(())
}

/// The least value within a limit with which a list closes, as far as it is looked for, and the first item behind one of those lists; None
/// where none is found. Nothing of it is promised. `Memory` is the only error.
///
/// Of the labels of lists that end with one item those are dropped to which another one is at least as good, of the same value too, and once
/// a list closes, only smaller values are looked for.
fn least_value<W: Labels>(
    alloc: Global,
    labels: &W,
    limit: i64,
) -> Result<Option<Closing>, Memory> {
    let mut kept = Vec::new(alloc);
    let mut made = Vec::new(alloc);
    let mut levels = Vec::new(alloc);
    let mut best = None;
    let mut within = limit;
    for item in 0..labels.items() {
        make_item(
            labels,
            kept.as_slice(),
            &mut made,
            levels.as_slice(),
            item,
            within,
        )?;
        if let Some(value) = least_closing(labels, made.as_slice()) {
            if value <= within {
                best = Some(Closing {
                    value,
                    end: item + 1,
                });
                within = value.saturating_sub(1);
            }
        }
        if made.len() > 0 {
            keep_level(&mut kept, &mut made, &mut levels, item)?;
        }
    }
    Ok(best)
}

/// The closing that is found under the first of some limits under which one is, of those that are at most `limit`: the least value with which
/// a list closes, as far as it is looked for, and where a list with it ends. Nothing of it is promised: it says where a search is quick.
/// `Memory` is the only error.
pub fn first_closing<W: Labels>(
    alloc: Global,
    labels: &W,
    likely: &[i64],
    limit: i64,
) -> Result<Option<Closing>, Memory> {
    for within in likely {
        if *within <= limit {
            if let Some(closing) = least_value(alloc, labels, *within)? {
                return Ok(Some(closing));
            }
        }
    }
    Ok(None)
}
