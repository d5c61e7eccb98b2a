//! The rows of the tables of a plan, one by one: what each says, or none where it says nothing.

ghost use Rattle.std.specs.Prelude.{◌≡◌, ◌≤◌, ◌==◌, IfSome, List, Option, position};
ghost use Rattle.vdv451_text.specs.declared.table.Field.{Field as FieldOf};
ghost use Rattle.vdv451_text.specs.declared.table.Head.{Head as HeadOf};
ghost use Rattle.plan_rows.specs.Rows as spec;

use crate::rows::{
    BlockRow, BoundRow, DutyRow, Ends, LegRow, Named, Pass, PieceNumbers, PieceRow, Span, TripRow,
    VehicleRow, Work,
};
use number_tables::{number_in, up_to, word};
use plan_core::{LegKind, Point};
use vdv451_text::{Field, Head};
use vdv452_tables::column_place;

/// The greatest number of a trip (FRT_FID).
const MOST_FID: u64 = 1_000_000_000_000_000_000;

/// The greatest value, bound or cost that is drawn.
const MOST_MONEY: u64 = 1_000_000_000_000_000;

/// How the rows of one of the tables are read.
pub(crate) trait Entries {
    /// What a row says.
    type Row: Drop;

    /// What a row says, by the columns of its table.
    ghost said: { Self → List HeadOf → List FieldOf → Option Self.Row };

    /// What a row says, or none where it says nothing.
    fn entry(&self, heads: &[Head], row: &[Field]) -> Option<Self::Row>
        ensures { result ≡ said self.now heads.now row.now };
}

fn money(number: Option<i64>) -> Option<u64>
    ensures value { result ≡ spec.money number }
    ensures bound { IfSome result (λ n. n ≤ 1000000000000000) }
{
    up_to(MOST_MONEY, number)
}

fn word_in(heads: &[Head], row: &[Field], name: &[u8]) -> Option<u32>
    ensures { result ≡ spec.word_in heads.now row.now name.now }
{
    word(number_in(heads, row, name))
}

/// A moment within 1,000,000 seconds of the day's midnight.
fn moment(number: Option<i64>) -> Option<u32>
    ensures { result ≡ spec.moment number }
{
    let number = number?;
    if number < -1_000_000 || number > 1_000_000 {
        return None;
    }
    Some((1_008_000 + number) as u32)
}

fn moment_in(heads: &[Head], row: &[Field], name: &[u8]) -> Option<u32>
    ensures { result ≡ spec.moment_in heads.now row.now name.now }
{
    moment(number_in(heads, row, name))
}

fn span_of(begin: u32, end: u32) -> Option<Span>
    ensures { result ≡ spec.span_of begin end }
{
    if begin <= end {
        Some(Span { begin, end })
    } else {
        None
    }
}

fn span_in(heads: &[Head], row: &[Field]) -> Option<Span>
    ensures { result ≡ spec.span_in heads.now row.now }
{
    let begin = moment_in(heads, row, b"BEGINN")?;
    let end = moment_in(heads, row, b"ENDE")?;
    span_of(begin, end)
}

fn point_in(heads: &[Head], row: &[Field], typ_name: &[u8], nr_name: &[u8]) -> Option<Point>
    ensures { result ≡ spec.point_in heads.now row.now typ_name.now nr_name.now }
{
    let typ = word_in(heads, row, typ_name)?;
    let nr = word_in(heads, row, nr_name)?;
    Some(Point { typ, nr })
}

fn ends_in(heads: &[Head], row: &[Field]) -> Option<Ends>
    ensures { result ≡ spec.ends_in heads.now row.now }
{
    let from = point_in(heads, row, b"VON_TYP", b"VON_NR")?;
    let to = point_in(heads, row, b"NACH_TYP", b"NACH_NR")?;
    let span = span_in(heads, row)?;
    Some(Ends { from, to, span })
}

/// The rows of REC_FRT.
#[derive(Clone, Copy)]
pub(crate) struct Trips;

impl Entries for Trips {
    type Row = TripRow;

    ghost said = { λ _. spec.trip_of };

    fn entry(&self, heads: &[Head], row: &[Field]) -> Option<TripRow> {
        let fid = up_to(MOST_FID, number_in(heads, row, b"FRT_FID"))?;
        let line = word_in(heads, row, b"LI_NR")?;
        Some(TripRow { fid, line })
    }
}

/// The rows of REC_UMLAUF.
#[derive(Clone, Copy)]
pub(crate) struct Vehicles;

impl Entries for Vehicles {
    type Row = VehicleRow;

    ghost said = { λ _. spec.vehicle_of };

    fn entry(&self, heads: &[Head], row: &[Field]) -> Option<VehicleRow> {
        let number = word_in(heads, row, b"UM_UID")?;
        let typ = word_in(heads, row, b"FZG_TYP_NR")?;
        Some(VehicleRow { number, typ })
    }
}

/// The rows of X_UMLAUF.
#[derive(Clone, Copy)]
pub(crate) struct Blocks;

impl Entries for Blocks {
    type Row = BlockRow;

    ghost said = { λ _. spec.block_of };

    fn entry(&self, heads: &[Head], row: &[Field]) -> Option<BlockRow> {
        let number = word_in(heads, row, b"UM_UID")?;
        let pool = word_in(heads, row, b"HOF_NR")?;
        let cost = money(number_in(heads, row, b"KOSTEN"))?;
        Some(BlockRow { number, pool, cost })
    }
}

fn kind_of(number: u32) -> Option<LegKind>
    ensures { result ≡ spec.kind_of number }
{
    if number == 1 {
        Some(LegKind::PullOut)
    } else if number == 2 {
        Some(LegKind::Trip)
    } else if number == 3 {
        Some(LegKind::Deadhead)
    } else if number == 4 {
        Some(LegKind::Stand)
    } else if number == 5 {
        Some(LegKind::PullIn)
    } else {
        None
    }
}

fn trip_place(trips: &[TripRow], fid: u64) -> Option<usize>
    ensures { result ≡ spec.trip_place trips.now fid }
{
    trips.iter().position(|trip| trip.fid == fid)
}

fn work_of_leg(kind: LegKind, trip: Option<usize>) -> Work
    ensures { result ≡ spec.ran kind trip }
{
    Work { kind, trip }
}

fn work_of(trips: &[TripRow], fid: Option<i64>, kind: LegKind) -> Option<Work>
    ensures { result ≡ spec.work_of trips.now fid kind }
{
    match kind {
        LegKind::Trip => {
            let number = up_to(MOST_FID, fid)?;
            let place = trip_place(trips, number)?;
            Some(work_of_leg(LegKind::Trip, Some(place)))
        }
        LegKind::PullOut => Some(work_of_leg(LegKind::PullOut, None)),
        LegKind::Deadhead => Some(work_of_leg(LegKind::Deadhead, None)),
        LegKind::Stand => Some(work_of_leg(LegKind::Stand, None)),
        LegKind::PullIn => Some(work_of_leg(LegKind::PullIn, None)),
    }
}

fn work_in(trips: &[TripRow], heads: &[Head], row: &[Field]) -> Option<Work>
    ensures { result ≡ spec.work_in trips.now heads.now row.now }
{
    let number = word_in(heads, row, b"ART")?;
    let kind = kind_of(number)?;
    work_of(trips, number_in(heads, row, b"FRT_FID"), kind)
}

fn block_place(blocks: &[BlockRow], number: u32) -> Option<usize>
    ensures { result ≡ position (λ block. block.number == number) blocks.now }
{
    blocks.iter().position(|block| block.number == number)
}

fn block_in(blocks: &[BlockRow], heads: &[Head], row: &[Field]) -> Option<Named>
    ensures { result ≡ spec.block_in blocks.now heads.now row.now }
{
    let number = word_in(heads, row, b"UM_UID")?;
    let place = block_place(blocks, number)?;
    Some(Named { place, number })
}

/// The rows of X_UMLAUF_TEIL.
#[derive(Clone, Copy)]
pub(crate) struct Legs<'p> {
    /// The trips that they name.
    pub trips: &'p [TripRow],
    /// The blocks that they name.
    pub blocks: &'p [BlockRow],
}

impl<'p> Entries for Legs<'p> {
    type Row = LegRow;

    ghost said = { λ legs. spec.leg_of legs.trips.now legs.blocks.now };

    fn entry(&self, heads: &[Head], row: &[Field]) -> Option<LegRow> {
        let block = block_in(self.blocks, heads, row)?;
        let number = word_in(heads, row, b"TEIL_NR")?;
        let work = work_in(self.trips, heads, row)?;
        let ends = ends_in(heads, row)?;
        Some(LegRow {
            block,
            number,
            work,
            ends,
        })
    }
}

fn duty_over(heads: &[Head], row: &[Field], span: Span) -> Option<DutyRow>
    ensures { result ≡ spec.duty_over heads.now row.now span }
{
    let number = word_in(heads, row, b"DIENST_NR")?;
    let group = word_in(heads, row, b"GRUPPE_NR")?;
    let driving = word_in(heads, row, b"LENKZEIT")?;
    let cost = money(number_in(heads, row, b"KOSTEN"))?;
    Some(DutyRow {
        number,
        group,
        span,
        driving,
        cost,
    })
}

/// The rows of X_DIENST.
#[derive(Clone, Copy)]
pub(crate) struct Duties;

impl Entries for Duties {
    type Row = DutyRow;

    ghost said = { λ _. spec.duty_of };

    fn entry(&self, heads: &[Head], row: &[Field]) -> Option<DutyRow> {
        let span = span_in(heads, row)?;
        duty_over(heads, row, span)
    }
}

fn duty_place(duties: &[DutyRow], number: u32) -> Option<usize>
    ensures { result ≡ position (λ duty. duty.number == number) duties.now }
{
    duties.iter().position(|duty| duty.number == number)
}

fn duty_in(duties: &[DutyRow], heads: &[Head], row: &[Field]) -> Option<Named>
    ensures { result ≡ spec.duty_in duties.now heads.now row.now }
{
    let number = word_in(heads, row, b"DIENST_NR")?;
    let place = duty_place(duties, number)?;
    Some(Named { place, number })
}

fn piece_numbers(heads: &[Head], row: &[Field]) -> Option<PieceNumbers>
    ensures { result ≡ spec.piece_numbers heads.now row.now }
{
    let block = word_in(heads, row, b"UM_UID")?;
    let index = word_in(heads, row, b"STUECK_NR")?;
    let driving = word_in(heads, row, b"LENKZEIT")?;
    Some(PieceNumbers {
        block,
        index,
        driving,
    })
}

/// The rows of X_DIENST_STUECK.
#[derive(Clone, Copy)]
pub(crate) struct Pieces<'p> {
    /// The duties that they name.
    pub duties: &'p [DutyRow],
}

impl<'p> Entries for Pieces<'p> {
    type Row = PieceRow;

    ghost said = { λ pieces. spec.piece_of pieces.duties.now };

    fn entry(&self, heads: &[Head], row: &[Field]) -> Option<PieceRow> {
        let duty = duty_in(self.duties, heads, row)?;
        let numbers = piece_numbers(heads, row)?;
        let ends = ends_in(heads, row)?;
        Some(PieceRow {
            duty,
            numbers,
            ends,
        })
    }
}

fn pass_of(number: u32) -> Option<Pass>
    ensures { result ≡ spec.pass_of number }
{
    if number == 1 {
        Some(Pass::BlockNumber)
    } else if number == 2 {
        Some(Pass::BlockCost)
    } else if number == 3 {
        Some(Pass::DutyNumber)
    } else if number == 4 {
        Some(Pass::DutyCost)
    } else {
        None
    }
}

fn distance_of(value: u64, bound: u64) -> Option<u64>
    requires { value ≤ 1000000000000000 }
    ensures { result ≡ spec.distance_of value bound }
{
    if bound == 0 {
        None
    } else {
        Some(value.saturating_sub(bound) * 1_000 / bound)
    }
}

/// The rows of X_SCHRANKE.
#[derive(Clone, Copy)]
pub(crate) struct Bounds;

impl Entries for Bounds {
    type Row = BoundRow;

    ghost said = { λ _. spec.bound_of };

    fn entry(&self, heads: &[Head], row: &[Field]) -> Option<BoundRow> {
        let number = word_in(heads, row, b"ART")?;
        let pass = pass_of(number)?;
        let value = money(number_in(heads, row, b"WERT"))?;
        let bound = money(number_in(heads, row, b"SCHRANKE"))?;
        Some(BoundRow {
            pass,
            value,
            bound,
            distance: distance_of(value, bound),
        })
    }
}
