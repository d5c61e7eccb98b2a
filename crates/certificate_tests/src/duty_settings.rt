//! The settings of a few drivers, and nets of two and three pieces under them.

ghost use Rattle.std.specs.Prelude.{◌≡◌, ◌-ℤ◌, ◌≤ℤ◌, ◌↔◌, pos, All, IfOk, IsTrue, length};
ghost use Rattle.plan_core.specs.Limits.{most_kept_price};
ghost use Rattle.cover_core.specs.FirstLeast.{AllWithin};
ghost use Rattle.plan_params.specs.Limits.{HaveRanges};
ghost use Rattle.duty_network.specs.Ranges.{IsShift};

use cover_core::{Prices, Worth};
use duty_network::DutyNet;
use plan_core::{Memory, Piece, Price, Sec, Seq};
use plan_params::Params;
use small_networks::{DEPOT, Rows, STOP, driver_settings};
use std::alloc::Global;
use std::test::Fail;

/// The one group of drivers.
const GROUP: Rows = &["1; 2; 9; 2; 500; 1; 600; 300; 0; 0"];

/// The settings of all tests.
pub(crate) fn settings(alloc: Global) -> Result<Params, Fail>
    ensures { IfOk result HaveRanges }
{
    driver_settings(alloc, GROUP)
}

/// How long a piece lasts.
fn duration(begin: i64, end: i64) -> i64
    requires begin { pos 0 ≤ℤ begin }
    requires order { begin ≤ℤ end }
    ensures { result ≡ end -ℤ begin }
{
    end - begin
}

/// Whether a piece begins at 0 or later, ends not before that and within four days, and drives no longer than it lasts.
fn is_shift(piece: &Piece) -> bool
    ensures { IsTrue result ↔ IsShift piece.now }
{
    let (begin, end) = (piece.begin.0, piece.end.0);
    0 <= begin && begin <= end && end <= 345_600 && piece.driving as i64 <= duration(begin, end)
}

fn are_shifts(pieces: &[Piece]) -> bool
    ensures { IsTrue result ↔ All IsShift pieces.now }
{
    pieces.iter().all(|piece| is_shift(piece))
}

/// A piece from the depot to the stop, one of another block from there to the depot, and the next one of the first block. With `pause`
/// seconds between the first one and those.
pub(crate) fn pieces(alloc: Global, pause: u16) -> Result<Vec<Piece>, Memory> {
    let begin = 32_400 + pause as i64;
    let first = Piece {
        block: 1,
        index: 1,
        from: DEPOT,
        begin: Sec(28_200),
        to: STOP,
        end: Sec(32_400),
        driving: 4_200,
    };
    let other = Piece {
        block: 2,
        index: 1,
        from: STOP,
        begin: Sec(begin),
        to: DEPOT,
        end: Sec(begin + 3_600),
        driving: 3_600,
    };
    let next = Piece {
        block: 1,
        index: 2,
        from: STOP,
        begin: Sec(begin + 100),
        to: DEPOT,
        end: Sec(begin + 4_300),
        driving: 4_200,
    };
    Ok(vec![in alloc; first, other, next]?)
}

/// The two pieces of one block: from the depot to the stop, and from there to the depot.
pub(crate) fn demonstration(alloc: Global) -> Result<Vec<Piece>, Memory> {
    let first = Piece {
        block: 1,
        index: 1,
        from: DEPOT,
        begin: Sec(28_200),
        to: STOP,
        end: Sec(32_400),
        driving: 4_200,
    };
    let next = Piece {
        block: 1,
        index: 2,
        from: STOP,
        begin: Sec(33_000),
        to: DEPOT,
        end: Sec(37_200),
        driving: 4_200,
    };
    Ok(vec![in alloc; first, next]?)
}

/// A net of these pieces, where they are in their ranges.
pub(crate) fn net_of<'p>(
    alloc: Global,
    pieces: Vec<Piece>,
    params: &'p Params,
    worth: Worth,
) -> Result<Option<DutyNet<'p>>, Memory>
    requires { HaveRanges params.now }
{
    let pieces = Seq::from_vec(pieces);
    if !are_shifts(pieces.as_slice()) || pieces.len() > 3_000 {
        return Ok(None);
    }
    Ok(Some(DutyNet::new(alloc, pieces, params, worth)?))
}

/// The prices of three pieces.
pub(crate) fn prices_of(alloc: Global, prices: [u32; 3]) -> Result<Prices, Memory>
    ensures three { IfOk result (λ prices. length prices.items ≡ 3) }
    ensures moderate { IfOk result (λ prices. AllWithin most_kept_price prices.items) }
{
    let [first, second, third] = prices;
    Ok(Prices {
        items: Seq::from_vec(vec![in alloc;
            Price(first as i64),
            Price(second as i64),
            Price(third as i64),
        ]?),
    })
}

/// The prices of two pieces.
pub(crate) fn two_prices(alloc: Global, first: u32, second: u32) -> Result<Prices, Memory>
    ensures two { IfOk result (λ prices. length prices.items ≡ 2) }
    ensures moderate { IfOk result (λ prices. AllWithin most_kept_price prices.items) }
{
    Ok(Prices {
        items: Seq::from_vec(vec![in alloc; Price(first as i64), Price(second as i64)]?),
    })
}
