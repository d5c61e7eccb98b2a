//! Groups of drivers, and nets of pieces.

ghost use Rattle.std.specs.Prelude.{◌≡◌, ◌-ℤ◌, ◌≤ℤ◌, ◌↔◌, pos, All, IsTrue};
ghost use Rattle.plan_params.specs.Limits.{HaveRanges};
ghost use Rattle.duty_network.specs.Ranges.{IsShift};

use cover_core::Worth;
use duty_network::DutyNet;
use plan_core::{Memory, Piece, Sec, Seq};
use plan_params::Params;
use small_networks::{DEPOT, Rows};
use std::alloc::Global;
use std::test::Fail;

/// Three groups of drivers, of which the second has ten hours of driving and the third a reduced daily rest.
pub const GROUPS: Rows = &[
    "1; 2; 9; 2; 500; 1; 600; 300; 0; 0",
    "2; 2; 9; 2; 500; 1; 600; 300; 1; 0",
    "3; 2; 9; 2; 500; 1; 600; 300; 0; 1",
];

/// A piece from the depot to the depot.
pub fn round(block: u32, index: u32, begin: u32, end: u32, driving: u32) -> Piece {
    Piece {
        block,
        index,
        from: DEPOT,
        begin: Sec(i64::from(begin)),
        to: DEPOT,
        end: Sec(i64::from(end)),
        driving,
    }
}

/// How long a piece lasts.
fn duration(begin: i64, end: i64) -> i64
    requires begin { pos 0 ≤ℤ begin }
    requires order { begin ≤ℤ end }
    ensures { result ≡ end -ℤ begin }
{
    end - begin
}

/// Whether a piece begins at 0 or later, ends not before that and within four days, and drives no longer than it lasts.
fn is_shift(piece: &Piece) -> bool
    ensures { IsTrue result ↔ IsShift piece.now }
{
    let (begin, end) = (piece.begin.0, piece.end.0);
    0 <= begin && begin <= end && end <= 345_600 && piece.driving as i64 <= duration(begin, end)
}

fn are_shifts(pieces: &[Piece]) -> bool
    ensures { IsTrue result ↔ All IsShift pieces.now }
{
    pieces.iter().all(|piece| is_shift(piece))
}

/// The net of pieces, if these may be a day's.
pub fn net_of(
    alloc: Global,
    pieces: Vec<Piece>,
    params: &Params,
    worth: Worth,
) -> Result<DutyNet<'_>, Fail>
    requires { HaveRanges params.now }
{
    let pieces = Seq::from_vec(pieces);
    if !are_shifts(pieces.as_slice()) || pieces.len() > 3_000 {
        return Err("no shifts".into());
    }
    Ok(DutyNet::new(alloc, pieces, params, worth)?)
}
