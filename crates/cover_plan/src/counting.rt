//! How many rounds the pass that counts is given where it climbs.

ghost use Rattle.std.specs.Prelude.{◌<◌, ◌≤◌};
ghost use Rattle.price_rounds.specs.Efforts.{IsEffort};

use price_rounds::Effort;

/// How many of an effort's rounds the pass that counts columns is given where it climbs. With fixed rounds it makes all of them.
#[derive(Clone, Copy)]
pub enum Counting {
    /// All of them.
    Whole,
    /// Half of them, and one at least: for a side whose pricing is slow at nearly tight prices.
    Half,
}

/// A half, rounded up.
fn half(rounds: u32) -> u32
    requires some { 0 < rounds }
    requires few { rounds ≤ 200 }
    ensures some { 0 < result }
    ensures few { result ≤ rounds }
{
    (rounds + 1) / 2
}

/// The effort of the pass that counts.
pub(crate) fn counting_effort(effort: &Effort, counting: Counting) -> Effort
    requires { IsEffort effort.now }
    ensures { IsEffort result }
{
    match counting {
        Counting::Whole => *effort,
        Counting::Half => Effort {
            workers: effort.workers,
            rounds: half(effort.rounds),
            lower: half(effort.lower),
            exchange: effort.exchange,
            climb: effort.climb,
        },
    }
}
