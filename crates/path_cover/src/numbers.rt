//! The greatest potentials of a matching.

ghost use Rattle.std.specs.Prelude.{◌≡◌, ℕ, ◌+◌, ◌-◌, ◌<◌, ◌≤◌, true, false, Some, cond, length, slice_index, slice_set};
ghost use Rattle.path_cover.specs.Augmenting.{potentials_of};
ghost use Rattle.path_cover.specs.Sweeps.{AreHigh, AreNumbersOf, IsFitting, IsFloored, IsSwept, IsTaut, IsTightIn};
ghost use Rattle.path_cover.specs.Searching.{HasPlaces};
ghost use Rattle.path_cover.specs.Firsts.{AllPlaced};

use crate::arcs::Arcs;
use crate::growth::Falls;
use crate::placing::Placing;

/// Puts a column's number at least as far below 0. Whether it moved.
fn press_one_head(numbers: &mut Falls, v: u32, least: u64) -> bool
    requires { v < length numbers.old.heads.items }
    ensures same { result ≡ false → numbers.new ≡ numbers.old }
    ensures enough { result ≡ false → least ≤ slice_index numbers.old.heads.items v }
    ensures less { result ≡ true → slice_index numbers.old.heads.items v < least }
    ensures moved { result ≡ true → numbers.new.heads.items ≡ slice_set numbers.old.heads.items v least }
    ensures others { numbers.new.tails.items ≡ numbers.old.tails.items }
{
    if numbers.heads[v as usize] < least {
        numbers.heads[v as usize] = least;
        return true;
    }
    false
}

/// Puts a row's number at least as far below 0. Whether it moved.
fn press_one_tail(numbers: &mut Falls, x: u32, least: u64) -> bool
    requires { x < length numbers.old.tails.items }
    ensures same { result ≡ false → numbers.new ≡ numbers.old }
    ensures enough { result ≡ false → least ≤ slice_index numbers.old.tails.items x }
    ensures less { result ≡ true → slice_index numbers.old.tails.items x < least }
    ensures moved { result ≡ true → numbers.new.tails.items ≡ slice_set numbers.old.tails.items x least }
    ensures others { numbers.new.heads.items ≡ numbers.old.heads.items }
{
    if numbers.tails[x as usize] < least {
        numbers.tails[x as usize] = least;
        return true;
    }
    false
}

/// Whether one of two things is so.
fn either(a: bool, b: bool) -> bool
    ensures { result ≡ cond a true b }
{
    a || b
}

/// What an arc asks of its column's number. Whether it moved.
fn press_head<A: Arcs>(arcs: &A, placing: &Placing, numbers: &mut Falls, x: u32, v: u32) -> bool
    requires row { x ≤ (A.net arcs.now).nodes }
    requires column { v ≤ (A.net arcs.now).nodes }
    requires places { HasPlaces (A.net arcs.now).nodes numbers.old }
    requires high { AreHigh (A.net arcs.now) placing.now numbers.old }
    requires floor { IsFloored (A.net arcs.now) placing.now }
    ensures swept { IsSwept (A.net arcs.now) placing.now numbers.old numbers.new result }
    ensures fits { result ≡ false → IsFitting (A.net arcs.now) numbers.new x v }
{
    match arcs.arc(x, v) {
        None => false,
        Some(cost) => {
            let least = numbers.tails[x as usize].saturating_sub(u64::from(cost));
            press_one_head(numbers, v, least)
        }
    }
}

/// What the arcs of a row ask of their columns' numbers. Whether one moved.
fn press_heads<A: Arcs>(arcs: &A, placing: &Placing, numbers: &mut Falls, x: u32) -> bool
    requires row { x ≤ (A.net arcs.now).nodes }
    requires places { HasPlaces (A.net arcs.now).nodes numbers.old }
    requires high { AreHigh (A.net arcs.now) placing.now numbers.old }
    requires floor { IsFloored (A.net arcs.now) placing.now }
    ensures swept { IsSwept (A.net arcs.now) placing.now numbers.old numbers.new result }
    ensures fits { result ≡ false → (v : ℕ) → v ≤ (A.net arcs.now).nodes → IsFitting (A.net arcs.now) numbers.new x v }
{
    let mut moved = false;
    for v in 0..arcs.nodes() + 1 {
        let pressed = press_head(arcs, placing, numbers, x, v);
        moved = either(moved, pressed);
    }
    moved
}

/// What all arcs ask of their columns' numbers. Whether one moved.
fn press_all_heads<A: Arcs>(arcs: &A, placing: &Placing, numbers: &mut Falls) -> bool
    requires places { HasPlaces (A.net arcs.now).nodes numbers.old }
    requires high { AreHigh (A.net arcs.now) placing.now numbers.old }
    requires floor { IsFloored (A.net arcs.now) placing.now }
    ensures swept { IsSwept (A.net arcs.now) placing.now numbers.old numbers.new result }
    ensures fits { result ≡ false → (x v : ℕ) → x ≤ (A.net arcs.now).nodes → v ≤ (A.net arcs.now).nodes → IsFitting (A.net arcs.now) numbers.new x v }
{
    let mut moved = false;
    for x in 0..arcs.nodes() + 1 {
        let pressed = press_heads(arcs, placing, numbers, x);
        moved = either(moved, pressed);
    }
    moved
}

/// What an arc of the matching asks of its row's number. Whether it moved.
fn press_tail<A: Arcs>(arcs: &A, placing: &Placing, numbers: &mut Falls, x: u32, v: u32) -> bool
    requires row { x ≤ (A.net arcs.now).nodes }
    requires column { v ≤ (A.net arcs.now).nodes }
    requires places { HasPlaces (A.net arcs.now).nodes numbers.old }
    requires high { AreHigh (A.net arcs.now) placing.now numbers.old }
    requires floor { IsFloored (A.net arcs.now) placing.now }
    requires tight { IsTightIn (A.net arcs.now) placing.now x v }
    ensures swept { IsSwept (A.net arcs.now) placing.now numbers.old numbers.new result }
    ensures taut { result ≡ false → IsTaut (A.net arcs.now) numbers.new x v }
{
    match arcs.arc(x, v) {
        None => false,
        Some(cost) => {
            let least = u64::from(cost) + numbers.heads[v as usize];
            press_one_tail(numbers, x, least)
        }
    }
}

/// What the arcs of the matching from nodes ask of their rows' numbers. Whether one moved.
fn press_rows<A: Arcs>(arcs: &A, placing: &Placing, numbers: &mut Falls) -> bool
    requires placed { AllPlaced (A.net arcs.now).nodes placing.now }
    requires count { length placing.now.to.items ≡ (A.net arcs.now).nodes }
    requires places { HasPlaces (A.net arcs.now).nodes numbers.old }
    requires high { AreHigh (A.net arcs.now) placing.now numbers.old }
    requires floor { IsFloored (A.net arcs.now) placing.now }
    ensures swept { IsSwept (A.net arcs.now) placing.now numbers.old numbers.new result }
    ensures taut { result ≡ false → (t : ℕ) → t < (A.net arcs.now).nodes → IsTaut (A.net arcs.now) numbers.new t (slice_index placing.now.to.items t) }
{
    let mut moved = false;
    for t in 0..arcs.nodes() {
        let pressed = press_tail(arcs, placing, numbers, t, placing.to[t as usize]);
        moved = either(moved, pressed);
    }
    moved
}

/// What the arc of the matching from the store to a node asks, if it is there. Whether the store's number moved.
fn press_start<A: Arcs>(arcs: &A, placing: &Placing, numbers: &mut Falls, u: u32) -> bool
    requires node { u < (A.net arcs.now).nodes }
    requires count { length placing.now.from.items ≡ (A.net arcs.now).nodes }
    requires places { HasPlaces (A.net arcs.now).nodes numbers.old }
    requires high { AreHigh (A.net arcs.now) placing.now numbers.old }
    requires floor { IsFloored (A.net arcs.now) placing.now }
    ensures swept { IsSwept (A.net arcs.now) placing.now numbers.old numbers.new result }
    ensures taut { result ≡ false → slice_index placing.now.from.items u ≡ (A.net arcs.now).nodes → IsTaut (A.net arcs.now) numbers.new (A.net arcs.now).nodes u }
{
    let n = arcs.nodes();
    if placing.from[u as usize] == n {
        return press_tail(arcs, placing, numbers, n, u);
    }
    false
}

/// What the arcs of the matching from the store to nodes ask. Whether the store's number moved.
fn press_starts<A: Arcs>(arcs: &A, placing: &Placing, numbers: &mut Falls) -> bool
    requires count { length placing.now.from.items ≡ (A.net arcs.now).nodes }
    requires places { HasPlaces (A.net arcs.now).nodes numbers.old }
    requires high { AreHigh (A.net arcs.now) placing.now numbers.old }
    requires floor { IsFloored (A.net arcs.now) placing.now }
    ensures swept { IsSwept (A.net arcs.now) placing.now numbers.old numbers.new result }
    ensures taut { result ≡ false → (u : ℕ) → u < (A.net arcs.now).nodes → slice_index placing.now.from.items u ≡ (A.net arcs.now).nodes → IsTaut (A.net arcs.now) numbers.new (A.net arcs.now).nodes u }
{
    let mut moved = false;
    for u in 0..arcs.nodes() {
        let pressed = press_start(arcs, placing, numbers, u);
        moved = either(moved, pressed);
    }
    moved
}

/// What a path that is not used asks. Whether the store's number moved.
fn press_stay<A: Arcs>(arcs: &A, placing: &Placing, numbers: &mut Falls) -> bool
    requires places { HasPlaces (A.net arcs.now).nodes numbers.old }
    requires high { AreHigh (A.net arcs.now) placing.now numbers.old }
    requires floor { IsFloored (A.net arcs.now) placing.now }
    ensures swept { IsSwept (A.net arcs.now) placing.now numbers.old numbers.new result }
    ensures taut { result ≡ false → 0 < placing.now.spare → IsTaut (A.net arcs.now) numbers.new (A.net arcs.now).nodes (A.net arcs.now).nodes }
{
    let n = arcs.nodes();
    if placing.spare > 0 {
        return press_tail(arcs, placing, numbers, n, n);
    }
    false
}

/// What all conditions ask. Whether a number moved.
fn sweep<A: Arcs>(arcs: &A, placing: &Placing, numbers: &mut Falls) -> bool
    requires placed { AllPlaced (A.net arcs.now).nodes placing.now }
    requires to_count { length placing.now.to.items ≡ (A.net arcs.now).nodes }
    requires from_count { length placing.now.from.items ≡ (A.net arcs.now).nodes }
    requires places { HasPlaces (A.net arcs.now).nodes numbers.old }
    requires high { AreHigh (A.net arcs.now) placing.now numbers.old }
    requires floor { IsFloored (A.net arcs.now) placing.now }
    ensures swept { IsSwept (A.net arcs.now) placing.now numbers.old numbers.new result }
    ensures numbers { result ≡ false → AreNumbersOf (A.net arcs.now) placing.now (potentials_of numbers.new) }
{
    if press_all_heads(arcs, placing, numbers) {
        return true;
    }
    if press_rows(arcs, placing, numbers) {
        return true;
    }
    if press_starts(arcs, placing, numbers) {
        return true;
    }
    press_stay(arcs, placing, numbers)
}

/// The greatest numbers that meet the conditions: they begin at 0, and fall only as far as one condition asks.
pub(crate) fn greatest<A: Arcs>(arcs: &A, placing: &Placing, numbers: &mut Falls)
    requires placed { AllPlaced (A.net arcs.now).nodes placing.now }
    requires to_count { length placing.now.to.items ≡ (A.net arcs.now).nodes }
    requires from_count { length placing.now.from.items ≡ (A.net arcs.now).nodes }
    requires places { HasPlaces (A.net arcs.now).nodes numbers.old }
    requires high { AreHigh (A.net arcs.now) placing.now numbers.old }
    requires floor { IsFloored (A.net arcs.now) placing.now }
    ensures places { HasPlaces (A.net arcs.now).nodes numbers.new }
    ensures high { AreHigh (A.net arcs.now) placing.now numbers.new }
    ensures numbers { AreNumbersOf (A.net arcs.now) placing.now (potentials_of numbers.new) }
{
    loop {
        if !sweep(arcs, placing, numbers) {
            return;
        }
    }
}
