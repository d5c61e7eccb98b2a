//! From which pieces on those that begin at a point can follow a piece.

ghost use Rattle.std.specs.Prelude.{◌≡◌, ◌≢◌, ◌<◌, ◌≤◌, ℕ, All, IfOk, Some, cond, length, slice_set, true};
ghost use Rattle.plan_core.specs.Limits.{most_items};
ghost use Rattle.plan_params.specs.Limits.{HaveRanges};
ghost use Rattle.duty_network.specs.Duties.{pause_at};
ghost use Rattle.duty_network.specs.Followers.{AreFollowed, IsFollowed, IsNumbering, facts};
ghost use Rattle.duty_network.specs.Layout.{AreLaidOut};
ghost use Rattle.duty_network.specs.Ranges.{IsShift};

use crate::layout::Layout;
use crate::net::{is_next, pause_in};
use crate::numbering::{PieceNumbers, numbers_of};
use plan_core::{Memory, Piece};
use plan_params::Params;
use std::alloc::Global;

/// From which pieces on those of each number can follow a piece. A place past the last piece stands for none.
#[derive(Drop)]
pub struct Follower {
    /// A later piece that follows directly in the same block. No handover and no way is between the two.
    pub direct: u32,
    /// For each number of the points where pieces begin ([`Followers::points`]) a later piece. Between it and this piece none that begins at
    /// such a point has a pause behind this piece, the direct one aside.
    pub near: Vec<u32>,
    /// The same for pauses of three hours or more.
    pub far: Vec<u32>,
}

/// Which pieces can follow which, by the points where they begin.
#[derive(Drop)]
pub struct Followers {
    /// The pieces by numbers, those that begin at one point alike.
    pub points: PieceNumbers,
    /// For each piece from which pieces on those of each number can follow it.
    pub behind: Vec<Follower>,
}

/// The first later piece that follows another directly in its block: a place past the last piece where none does.
fn direct_from(pieces: &[Piece], item: u32) -> u32
    requires item { item < length pieces.now }
    requires few { length pieces.now ≤ most_items }
    ensures { item < result }
{
    let count = pieces.len() as u32;
    for next in item + 1..count {
        if is_next(&pieces[item as usize], &pieces[next as usize]) {
            return next;
        }
    }
    count
}

/// Whether there is a pause of at least so many seconds.
fn is_at_least(time: Option<u32>, least: u32) -> bool
    ensures { (seconds : ℕ) → time ≡ Some seconds → least ≤ seconds → result ≡ true }
{
    match time {
        Some(seconds) => least <= seconds,
        None => false,
    }
}

/// Puts a number at a place of a list, where a test holds.
fn note(list: &mut Vec<u32>, place: usize, number: u32, test: bool)
    requires { place < length list.old.items }
    ensures { list.new.items ≡ cond test (slice_set list.old.items place number) list.old.items }
{
    if test {
        list[place] = number;
    }
}

/// The pause between two pieces, in seconds, unless the second is the direct one.
fn pause_apart(
    pieces: &[Piece],
    params: &Params,
    layout: &Layout,
    direct: u32,
    item: u32,
    next: u32,
) -> Option<u32>
    requires shifts { All IsShift pieces.now }
    requires params { HaveRanges params.now }
    requires laid { AreLaidOut pieces.now params.now layout.now }
    requires item { item < length pieces.now }
    requires next { next < length pieces.now }
    ensures { next ≢ direct → result ≡ pause_at (facts pieces.now params.now) item next }
{
    if next == direct {
        None
    } else {
        pause_in(pieces, params, layout, item, next)
    }
}

/// From which pieces on those of each number can follow a piece.
fn follower_of(
    alloc: Global,
    pieces: &[Piece],
    params: &Params,
    layout: &Layout,
    points: &PieceNumbers,
    item: u32,
) -> Result<Follower, Memory>
    requires item { item < length pieces.now }
    requires few { length pieces.now ≤ most_items }
    requires shifts { All IsShift pieces.now }
    requires params { HaveRanges params.now }
    requires laid { AreLaidOut pieces.now params.now layout.now }
    requires points { IsNumbering (length pieces.now) points.now }
    ensures { IfOk result (IsFollowed pieces.now params.now points.now item) }
{
    let count = pieces.len() as u32;
    let direct = direct_from(pieces, item);
    let mut near = vec![in alloc; count; points.kinds as usize]?;
    let mut far = vec![in alloc; count; points.kinds as usize]?;
    let mut next = count;
    while next > item + 1 {
        next -= 1;
        let number = points.numbers[next as usize] as usize;
        let time = pause_apart(pieces, params, layout, direct, item, next);
        note(&mut near, number, next, is_at_least(time, 0));
        note(&mut far, number, next, is_at_least(time, 10_800));
    }
    Ok(Follower { direct, near, far })
}

/// Which of these pieces can follow which, by the ways and the handover time of these settings. It takes time with the product of the pieces with
/// themselves. `Memory` is the only error.
pub(crate) fn followers_of(
    alloc: Global,
    pieces: &[Piece],
    params: &Params,
    layout: &Layout,
) -> Result<Followers, Memory>
    requires few { length pieces.now ≤ most_items }
    requires shifts { All IsShift pieces.now }
    requires params { HaveRanges params.now }
    requires laid { AreLaidOut pieces.now params.now layout.now }
    ensures { IfOk result (AreFollowed pieces.now params.now) }
{
    let points = numbers_of(alloc, pieces)?;
    let mut behind = Vec::new(alloc);
    behind.reserve(pieces.len())?;
    for item in 0..pieces.len() as u32 {
        behind.push(follower_of(alloc, pieces, params, layout, &points, item)?)?;
    }
    Ok(Followers { points, behind })
}
