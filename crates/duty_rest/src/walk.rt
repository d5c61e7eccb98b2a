//! Lists of pieces, walked as duties with no prices.

ghost use Rattle.std.specs.Prelude.{◌≡◌, ◌<◌, ◌≤◌, ◌/◌, [], ℕ, IfSome, Some, length, slice_get};
ghost use Rattle.std.specs.Int.RustNames.{unsigned_abs};
ghost use Rattle.std.specs.Option.{option_map};
ghost use Rattle.plan_core.specs.Limits.{most_worth};
ghost use Rattle.cover_core.specs.Cover.{AllBelow};
ghost use Rattle.cover_core.specs.Labels.{label_after, label_of};
ghost use Rattle.plan_params.specs.Limits.{IsGroup};
ghost use Rattle.duty_network.specs.Duties.{duty_worth};
ghost use Rattle.duty_network.specs.Marks.{closed_value, marking};
ghost use Rattle.duty_network.specs.Ranges.{MarkFits};
ghost use Rattle.cover_rest.specs.Laws.{StandForAll};
ghost use Rattle.cover_rest.specs.Rest.{written};

use cover_core::Mark;
use cover_rest::body;
use duty_network::DutyNet;
use plan_core::Seq;
use plan_params::Group;

/// The mark of an open list with further pieces, if they may follow.
fn mark_with_pieces(net: &DutyNet<'_>, group: &Group, first: Mark, rest: &[u32]) -> Option<Mark>
    requires ranges { IsGroup group.now }
    requires first { MarkFits (length net.now.pieces) first }
    requires rest { AllBelow (length net.now.pieces) rest.now }
    ensures value { (class : ℕ) → result ≡ label_after (marking net.now [] class group.now) (Some first) rest.now }
    ensures fits { IfSome result (MarkFits (length net.now.pieces)) }
{
    net.fits();
    let mut open = first;
    for piece in rest {
        open = net.next(group, &[], &open, *piece)?;
    }
    Some(open)
}

/// The mark of a list of pieces, if it may be an open one.
fn mark_of_pieces(net: &DutyNet<'_>, class: u32, group: &Group, list: &[u32]) -> Option<Mark>
    requires group { slice_get net.now.params.groups class ≡ Some group.now }
    requires ranges { IsGroup group.now }
    requires list { AllBelow (length net.now.pieces) list.now }
    ensures value { result ≡ label_of (marking net.now [] class group.now) list.now }
    ensures fits { IfSome result (MarkFits (length net.now.pieces)) }
{
    net.fits();
    match list {
        [] => None,
        [piece, rest @ ..] => {
            let first = net.first(class, group, &[], *piece)?;
            mark_with_pieces(net, group, first, rest)
        }
    }
}

/// The mark of an open list with what further items of the rest stand for, if that may follow.
fn walked_on(
    net: &DutyNet<'_>,
    group: &Group,
    bodies: &[Seq<u32>],
    first: Mark,
    rest: &[u32],
) -> Option<Mark>
    requires ranges { IsGroup group.now }
    requires first { MarkFits (length net.now.pieces) first }
    requires bodies { StandForAll (length net.now.pieces) bodies.now }
    requires rest { AllBelow (length bodies.now) rest.now }
    ensures value { (class : ℕ) → result ≡ label_after (marking net.now [] class group.now) (Some first) (written bodies.now rest.now) }
    ensures fits { IfSome result (MarkFits (length net.now.pieces)) }
{
    let mut open = first;
    for item in rest {
        open = mark_with_pieces(net, group, open, body(bodies, *item))?;
    }
    Some(open)
}

/// What the list of a mark is worth, if it is a lawful duty.
fn closed_worth(net: &DutyNet<'_>, class: u32, group: &Group, mark: &Mark) -> Option<u64>
    requires group { slice_get net.now.params.groups class ≡ Some group.now }
    requires ranges { IsGroup group.now }
    requires fits { MarkFits (length net.now.pieces) mark.now }
    ensures { result ≡ option_map (λ v. unsigned_abs v / 1000) (closed_value net.now group.now mark.now) }
{
    let value = net.close(class, group, mark)?;
    Some(value.unsigned_abs() / 1000)
}

/// The mark of a list of the rest, written out, if it may be an open one.
fn opened_list(
    net: &DutyNet<'_>,
    class: u32,
    group: &Group,
    bodies: &[Seq<u32>],
    list: &[u32],
) -> Option<Mark>
    requires group { slice_get net.now.params.groups class ≡ Some group.now }
    requires ranges { IsGroup group.now }
    requires bodies { StandForAll (length net.now.pieces) bodies.now }
    requires list { AllBelow (length bodies.now) list.now }
    ensures value { result ≡ label_of (marking net.now [] class group.now) (written bodies.now list.now) }
    ensures fits { IfSome result (MarkFits (length net.now.pieces)) }
{
    match list {
        [] => None,
        [item, rest @ ..] => {
            let first = mark_of_pieces(net, class, group, body(bodies, *item))?;
            walked_on(net, group, bodies, first, rest)
        }
    }
}

/// The worth of a list of the rest, written out, as a duty of a group, if it is one.
pub(crate) fn written_worth(
    net: &DutyNet<'_>,
    class: u32,
    bodies: &[Seq<u32>],
    list: &[u32],
) -> Option<u64>
    requires class { class < length net.now.params.groups }
    requires bodies { StandForAll (length net.now.pieces) bodies.now }
    requires list { AllBelow (length bodies.now) list.now }
    ensures value { result ≡ duty_worth net.now class (written bodies.now list.now) }
    ensures bound { IfSome result (λ worth. worth ≤ most_worth) }
{
    net.fits();
    let group = net.group(class);
    let mark = opened_list(net, class, group, bodies, list)?;
    closed_worth(net, class, group, &mark)
}
