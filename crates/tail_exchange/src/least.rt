//! The least candidate so far.

ghost use Rattle.std.specs.Prelude.{◌≡◌, ◌≤◌, ◌+◌, ◌-ℤ◌, pos, Some};
ghost use Rattle.plan_core.specs.Limits.{most_worth};
ghost use Rattle.tail_exchange.specs.Exchange.{step_for};
ghost use Rattle.tail_exchange.specs.Leasts.{lesser, least_from};

use crate::candidate::{Candidate, Kind};
use std::cmp::Ordering;

/// The lesser of the least candidate so far and a new one.
fn lesser(best: Option<Candidate>, candidate: Candidate) -> Candidate
    ensures { result ≡ lesser best candidate }
{
    match best {
        None => candidate,
        Some(old) => match candidate.compare(&old) {
            Ordering::Less => candidate,
            _ => old,
        },
    }
}

/// By how much the cost rises where columns of worth `before` turn into two of worths `left` and `right`.
fn change(before: u64, left: u64, right: u64) -> i64
    requires before { before ≤ 8000000000 }
    requires left { left ≤ most_worth }
    requires right { right ≤ most_worth }
    ensures { result ≡ pos (left + right) -ℤ pos before }
{
    (left + right) as i64 - before as i64
}

/// The least candidate after a step that turns columns of worth `before` into two of worths `left` and `right`.
pub fn consider(
    best: Option<Candidate>,
    before: u64,
    step: Candidate,
    left: u64,
    right: u64,
) -> Option<Candidate>
    requires before { before ≤ 8000000000 }
    requires left { left ≤ most_worth }
    requires right { right ≤ most_worth }
    ensures { result ≡ least_from best (step_for before step.kind step.a step.b step.i step.j (Some left) (Some right)) }
{
    let candidate = Candidate {
        change: change(before, left, right),
        kind: step.kind,
        a: step.a,
        b: step.b,
        i: step.i,
        j: step.j,
    };
    Some(lesser(best, candidate))
}
