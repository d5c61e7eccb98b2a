//! The pieces of one block.

ghost use Rattle.std.specs.Prelude.{◌≡◌, ◌<◌, ◌≤◌, ◌+◌, ◌++◌, ◌∷◌, ◌≤ℤ◌, ◌-ℤ◌, pos, cond, All, IfOk, IfSome, List, None, OnOk, Some};
ghost use Rattle.plan_core.specs.Limits.{most_items};
ghost use Rattle.plan_core.specs.declared.types.Leg.{Leg as TheLeg};
ghost use Rattle.day_model.specs.Pieces.{duration, is_cut as is_cut_of, is_stand, parts, pieces_from};
ghost use Rattle.block_cut.specs.Cuts.{AreAfter, IsAfter, IsShift, begun as begun_of, continued as continued_of, cut_on, ended, grown as grown_of, next_index as next_index_of, stands};
ghost use Rattle.block_cut.specs.Legs.{AreTimed};

use day_model::Day;
use plan_core::{Leg, LegKind, Memory, Piece, Seq};
use plan_params::Pool;

/// The seconds that a leg is driven: all but those of a stand.
fn driving_of(leg: &Leg) -> u32
    requires order { leg.now.begin.0 ≤ℤ leg.now.end.0 }
    requires short { (leg.now.end.0 -ℤ leg.now.begin.0) ≤ℤ pos 345600 }
    ensures value { result ≡ cond (is_stand leg.now.kind) 0 (duration leg.now) }
    ensures bound { pos result ≤ℤ (leg.now.end.0 -ℤ leg.now.begin.0) }
{
    match leg.kind {
        LegKind::Stand => 0,
        _ => leg.end.0.abs_diff(leg.begin.0) as u32,
    }
}

/// Whether a driver can hand over at a leg: a stand of at least the handover time at a relief point or the depot.
fn is_cut(day: &Day, pool: &Pool, leg: &Leg) -> bool
    ensures { result ≡ is_cut_of day.now pool.now leg.now }
{
    let params = day.params();
    match leg.kind {
        LegKind::Stand => {
            u64::from(params.settings().handover) <= leg.end.0.abs_diff(leg.begin.0)
                && (params.relief(leg.from) || leg.from == pool.depot)
        }
        _ => false,
    }
}

/// A piece of one leg.
fn piece_of_leg(block: u32, index: u32, leg: &Leg) -> Piece
    requires { IsAfter None leg.now }
    ensures value { result ≡ begun_of block index leg.now }
    ensures shift { IsShift result }
{
    Piece {
        block,
        index,
        from: leg.from,
        begin: leg.begin,
        to: leg.to,
        end: leg.end,
        driving: driving_of(leg),
    }
}

/// A piece with one leg more.
fn longer_piece(piece: Piece, leg: &Leg) -> Piece
    requires { IsAfter (Some piece) leg.now }
    ensures value { result ≡ continued_of piece leg.now }
    ensures shift { IsShift result }
{
    Piece {
        to: leg.to,
        end: leg.end,
        driving: piece.driving + driving_of(leg),
        ..piece
    }
}

/// The piece that is begun, with one leg more.
fn open_piece(block: u32, index: u32, held: Option<Piece>, leg: &Leg) -> Piece
    requires { IsAfter held leg.now }
    ensures value { result ≡ grown_of block index held leg.now }
    ensures shift { IsShift result }
{
    match held {
        None => piece_of_leg(block, index, leg),
        Some(piece) => longer_piece(piece, leg),
    }
}

/// Ends the piece that is begun, if one is.
fn end_piece(pieces: &mut Seq<Piece>, held: Option<Piece>) -> Result<(), Memory>
    ensures { OnOk result (pieces.new ≡ pieces.old ++ ended held) }
{
    match held {
        Some(piece) => pieces.push(piece),
        None => Ok(()),
    }
}

/// The index of the next piece.
fn next_index(index: u32, held: Option<Piece>) -> u32
    requires { index < 4000 }
    ensures value { result ≡ next_index_of index held }
    ensures few { result ≤ index + 1 }
{
    match held {
        Some(_) => index + 1,
        None => index,
    }
}

/// How far a block is cut.
#[derive(Clone, Copy)]
pub struct Cutting {
    /// The index of the piece that is begun, or of the next one.
    index: u32,
    /// The piece that is begun.
    held: Option<Piece>,
}

/// Cuts a block at a leg, or carries its piece on over it.
fn cut_leg(
    pieces: &mut Seq<Piece>,
    day: &Day,
    pool: &Pool,
    block: u32,
    at: Cutting,
    leg: &Leg,
) -> Result<Cutting, Memory>
    requires few { at.index < 4000 }
    requires after { IsAfter at.held leg.now }
    requires shifts { All IsShift pieces.old }
    ensures pieces { (rest : List TheLeg) → IfOk result (λ next. pieces.new ++ cut_on day.now pool.now block next.index next.held rest ≡ pieces.old ++ cut_on day.now pool.now block at.index at.held (leg.now ∷ rest)) }
    ensures index { IfOk result (λ next. next.index ≤ at.index + cond (is_stand leg.now.kind) 1 0) }
    ensures held { IfOk result (λ next. IfSome next.held (λ piece. IsShift piece × (piece.end.0 ≤ℤ leg.now.end.0))) }
    ensures shifts { IfOk result (λ next. All IsShift pieces.new) }
{
    if is_cut(day, pool, leg) {
        end_piece(pieces, at.held)?;
        return Ok(Cutting {
            index: next_index(at.index, at.held),
            held: None,
        });
    }
    Ok(Cutting {
        index: at.index,
        held: Some(open_piece(block, at.index, at.held, leg)),
    })
}

/// Puts behind others the pieces of a block of a pool, by its legs.
pub(crate) fn add_pieces(
    pieces: &mut Seq<Piece>,
    day: &Day,
    pool: &Pool,
    block: u32,
    legs: &[Leg],
) -> Result<(), Memory>
    requires timed { AreTimed (pos 0) (pos 345600) legs.now }
    requires few { stands legs.now ≤ most_items }
    requires shifts { All IsShift pieces.old }
    ensures pieces { OnOk result (pieces.new ≡ pieces.old ++ pieces_from block 1 (parts day.now pool.now legs.now)) }
    ensures shifts { OnOk result (All IsShift pieces.new) }
{
    let mut at = Cutting {
        index: 1,
        held: None,
    };
    for leg in legs {
        at = cut_leg(pieces, day, pool, block, at, leg)?;
    }
    end_piece(pieces, at.held)
}
