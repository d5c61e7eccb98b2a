//! What the rows of a plan say, as far as it is drawn.

use plan_core::{LegKind, Point};

/// A trip of the day (REC_FRT).
#[derive(Clone, Copy)]
pub struct TripRow {
    /// The number of the trip (FRT_FID).
    pub fid: u64,
    /// The number of its line (LI_NR).
    pub line: u32,
}

/// A vehicle block with the type of its vehicle (REC_UMLAUF).
#[derive(Clone, Copy)]
pub struct VehicleRow {
    /// The number of the block (UM_UID).
    pub number: u32,
    /// The type of its vehicle (FZG_TYP_NR).
    pub typ: u32,
}

/// A vehicle block (X_UMLAUF).
#[derive(Clone, Copy)]
pub struct BlockRow {
    /// The number of the block (UM_UID).
    pub number: u32,
    /// The number of its pool (HOF_NR).
    pub pool: u32,
    /// What it costs, in cost units.
    pub cost: u64,
}

/// From when to when something lasts. Moments count seconds from 280 hours before the day's midnight.
#[derive(Clone, Copy)]
pub struct Span {
    /// When it begins.
    pub begin: u32,
    /// When it ends, not before it begins.
    pub end: u32,
}

/// Where and when something begins and ends.
#[derive(Clone, Copy)]
pub struct Ends {
    /// Where it begins.
    pub from: Point,
    /// Where it ends.
    pub to: Point,
    /// When it begins and ends.
    pub span: Span,
}

/// A row of another table that a row names, by its place there from 0 and its number.
#[derive(Clone, Copy)]
pub struct Named {
    /// Its place among the rows, from 0.
    pub place: usize,
    /// Its number.
    pub number: u32,
}

/// What a vehicle does on a leg.
#[derive(Clone, Copy)]
pub struct Work {
    /// The kind of the leg (ART).
    pub kind: LegKind,
    /// The place of its trip among the rows of REC_FRT, from 0, for a leg that is one (FRT_FID).
    pub trip: Option<usize>,
}

/// A leg of a block (X_UMLAUF_TEIL).
#[derive(Clone, Copy)]
pub struct LegRow {
    /// Its block.
    pub block: Named,
    /// Its number in the block (TEIL_NR).
    pub number: u32,
    /// What the vehicle does.
    pub work: Work,
    /// Where and when it begins and ends.
    pub ends: Ends,
}

/// A driver duty (X_DIENST).
#[derive(Clone, Copy)]
pub struct DutyRow {
    /// The number of the duty (DIENST_NR).
    pub number: u32,
    /// The number of its group of drivers (GRUPPE_NR).
    pub group: u32,
    /// From sign-on to sign-off.
    pub span: Span,
    /// The seconds driven (LENKZEIT).
    pub driving: u32,
    /// What it costs, in cost units.
    pub cost: u64,
}

/// The numbers of a piece.
#[derive(Clone, Copy)]
pub struct PieceNumbers {
    /// Its block (UM_UID).
    pub block: u32,
    /// Its number in the block (STUECK_NR).
    pub index: u32,
    /// The seconds driven (LENKZEIT).
    pub driving: u32,
}

/// A piece of a duty (X_DIENST_STUECK).
#[derive(Clone, Copy)]
pub struct PieceRow {
    /// Its duty.
    pub duty: Named,
    /// Its block, its number there and its driving.
    pub numbers: PieceNumbers,
    /// Where and when it begins and ends.
    pub ends: Ends,
}

/// What a value and its bound are of (X_SCHRANKE, ART).
#[derive(Clone, Copy)]
pub enum Pass {
    /// The number of blocks.
    BlockNumber,
    /// The cost of the blocks.
    BlockCost,
    /// The number of duties.
    DutyNumber,
    /// The cost of the duties.
    DutyCost,
}

/// A value and the number below which no plan has it (X_SCHRANKE).
#[derive(Clone, Copy)]
pub struct BoundRow {
    /// What they are of.
    pub pass: Pass,
    /// The value of the plan (WERT).
    pub value: u64,
    /// Its bound (SCHRANKE).
    pub bound: u64,
    /// How far the value lies above the bound, in thousandths of the bound; none where the bound is 0.
    pub distance: Option<u64>,
}
