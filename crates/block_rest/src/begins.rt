//! Whether a list of the rest may be begun.

ghost use Rattle.std.specs.Prelude.{◌≡◌, ◌<◌, length};
ghost use Rattle.cover_core.specs.Cover.{AllBelow};
ghost use Rattle.cover_rest.specs.Laws.{StandForAll};
ghost use Rattle.cover_rest.specs.Rest.{written};
ghost use Rattle.block_rest.specs.Rest.{may_begin};

use crate::earlier::leaves_before;
use cover_rest::body;
use day_model::Day;
use plan_core::Seq;

/// Whether a block of a pool with these trips first leaves its depot at a moment or later.
pub(crate) fn leaves_later(day: &Day, moment: u32, class: u32, trips: &[u32]) -> bool
    requires class { class < length day.now.params.pools }
    requires trips { AllBelow (length day.now.trips) trips.now }
    ensures { result ≡ may_begin day.now moment class trips.now }
{
    match trips {
        [] => false,
        [first, ..] => !leaves_before(day, moment, class, *first),
    }
}

/// Whether a list of the rest, written out, leaves its depot as a block of a pool at a moment or later.
pub(crate) fn begins(day: &Day, moment: u32, class: u32, bodies: &[Seq<u32>], list: &[u32]) -> bool
    requires class { class < length day.now.params.pools }
    requires bodies { StandForAll (length day.now.trips) bodies.now }
    requires list { AllBelow (length bodies.now) list.now }
    ensures { result ≡ may_begin day.now moment class (written bodies.now list.now) }
{
    match list {
        [] => false,
        [item, ..] => leaves_later(day, moment, class, body(bodies, *item)),
    }
}
