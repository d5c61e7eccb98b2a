//! Draws from a seed.

ghost use Rattle.std.specs.Prelude.{◌≡◌, ◌<◌, ◌^◌};
ghost use Rattle.day_maker.specs.Made.{drawn as drawn_of, first_state as first_state_of, next_state as next_state_of};

/// The state of a seed.
pub(crate) fn first_state(seed: u32) -> u64
    ensures { result ≡ first_state_of seed }
{
    2 * u64::from(seed) + 1
}

/// The state after a state.
pub(crate) fn next_state(state: u64) -> u64
    ensures { result ≡ next_state_of state }
{
    state
        .wrapping_mul(6_364_136_223_846_793_005)
        .wrapping_add(1_442_695_040_888_963_407)
}

/// What a state gives below a number.
pub(crate) fn number_below(state: u64, below: u64) -> u64
    requires { 0 < below }
    ensures value { result ≡ drawn_of state below }
    ensures below { result < below }
{
    (state >> 33) % below
}
