//! Pieces by numbers, those that begin at one point alike.

ghost use Rattle.std.specs.Prelude.{◌<◌, ◌≤◌, ◌+◌, ℕ, IfOk, length};
ghost use Rattle.plan_core.specs.Limits.{most_items};
ghost use Rattle.duty_network.specs.Followers.{IsNumbering, entry_at};

use plan_core::{Memory, Piece};
use std::alloc::Global;

/// Numbers of pieces. Those that begin at one point have the same one.
#[derive(Drop)]
pub struct PieceNumbers {
    /// The number of each piece.
    pub numbers: Vec<u32>,
    /// How many numbers there are, from 0 on.
    pub kinds: u32,
}

/// The place of the first piece that begins where one does.
fn first_alike(pieces: &[Piece], item: usize) -> u32
    requires item { item < length pieces.now }
    requires few { length pieces.now ≤ most_items }
    ensures { result ≤ item }
{
    for place in 0..item {
        if pieces[place].from == pieces[item].from {
            return place as u32;
        }
    }
    item as u32
}

/// The number of a piece: that of the first piece which begins at the same point, or a new one.
fn number_of(pieces: &[Piece], numbers: &[u32], kinds: u32, item: usize) -> u32
    requires item { item < length pieces.now }
    requires few { length pieces.now ≤ most_items }
    requires count { item ≤ length numbers.now }
    requires below { (k : ℕ) → k < item → entry_at numbers.now k < kinds }
    ensures { result ≤ kinds }
{
    let place = first_alike(pieces, item) as usize;
    if place < item { numbers[place] } else { kinds }
}

/// How many numbers there are with one more, which may be new.
fn kinds_with(kinds: u32, number: u32) -> u32
    requires few { kinds < most_items }
    requires number { number ≤ kinds }
    ensures kept { kinds ≤ result }
    ensures above { number < result }
    ensures most { result ≤ kinds + 1 }
{
    if number == kinds { kinds + 1 } else { kinds }
}

/// Numbers of pieces, in the order of the first pieces that begin at a point. It takes time with the pieces and the points. `Memory` is the
/// only error.
pub(crate) fn numbers_of(alloc: Global, pieces: &[Piece]) -> Result<PieceNumbers, Memory>
    requires { length pieces.now ≤ most_items }
    ensures { IfOk result (IsNumbering (length pieces.now)) }
{
    let mut numbers = Vec::new(alloc);
    numbers.reserve(pieces.len())?;
    let mut kinds = 0;
    for item in 0..pieces.len() {
        let number = number_of(pieces, numbers.as_slice(), kinds, item);
        kinds = kinds_with(kinds, number);
        numbers.push(number)?;
    }
    Ok(PieceNumbers { numbers, kinds })
}
