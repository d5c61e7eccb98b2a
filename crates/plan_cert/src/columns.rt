//! Where the columns of the tables stand.

ghost use Rattle.std.specs.Prelude.{◌≡◌};
ghost use Rattle.plan_cert.specs.Columns as spec;

use vdv451_text::Head;
use vdv452_tables::column_place;

/// Where the columns of X_PREIS or X_KLASSENPREIS stand.
#[derive(Clone, Copy)]
pub struct PriceColumns {
    /// ART.
    pub pass: usize,
    /// LFD_NR or KLASSE.
    pub number: usize,
    /// PREIS.
    pub price: usize,
}

/// Where the columns of a table of marks stand that name the pass, the class and the item.
#[derive(Clone, Copy)]
pub struct PlaceColumns {
    /// ART.
    pub pass: usize,
    /// GRUPPE_NR or HOF_NR.
    pub class: usize,
    /// STUECK or LFD_NR.
    pub item: usize,
}

/// Where the columns of X_MARKE stand that say what was driven.
#[derive(Clone, Copy)]
pub struct DrivingColumns {
    /// LENK.
    pub driving: usize,
    /// VIERTEL.
    pub quarter: usize,
    /// GESAMT.
    pub total: usize,
    /// DREI.
    pub three: usize,
}

/// Where the columns of X_MARKE stand.
#[derive(Clone, Copy)]
pub struct DutyColumns {
    /// ART, GRUPPE_NR, STUECK.
    pub place: PlaceColumns,
    /// BEGINN.
    pub start: usize,
    /// LENK, VIERTEL, GESAMT, DREI.
    pub driven: DrivingColumns,
    /// WERT.
    pub value: usize,
}

/// Where the columns of X_UMARKE stand.
#[derive(Clone, Copy)]
pub struct BlockColumns {
    /// ART, HOF_NR, LFD_NR.
    pub place: PlaceColumns,
    /// LENK.
    pub driving: usize,
    /// WERT.
    pub value: usize,
}

/// The columns of a table of prices, where all are there.
pub(crate) fn price_columns(heads: &[Head], number: &[u8]) -> Option<PriceColumns>
    ensures { result ≡ spec.price_columns heads.now number.now }
{
    let pass = column_place(heads, b"ART")?;
    let number = column_place(heads, number)?;
    let price = column_place(heads, b"PREIS")?;
    Some(PriceColumns {
        pass,
        number,
        price,
    })
}

/// The columns that name the pass, the class and the item, where all are there.
fn place_columns(heads: &[Head], class: &[u8], item: &[u8]) -> Option<PlaceColumns>
    ensures { result ≡ spec.place_columns heads.now class.now item.now }
{
    let pass = column_place(heads, b"ART")?;
    let class = column_place(heads, class)?;
    let item = column_place(heads, item)?;
    Some(PlaceColumns { pass, class, item })
}

/// The columns that say what was driven, where all are there.
fn driving_columns(heads: &[Head]) -> Option<DrivingColumns>
    ensures { result ≡ spec.driving_columns heads.now }
{
    let driving = column_place(heads, b"LENK")?;
    let quarter = column_place(heads, b"VIERTEL")?;
    let total = column_place(heads, b"GESAMT")?;
    let three = column_place(heads, b"DREI")?;
    Some(DrivingColumns {
        driving,
        quarter,
        total,
        three,
    })
}

/// The columns of X_MARKE, where all are there.
pub(crate) fn duty_columns(heads: &[Head]) -> Option<DutyColumns>
    ensures { result ≡ spec.duty_columns heads.now }
{
    let place = place_columns(heads, b"GRUPPE_NR", b"STUECK")?;
    let start = column_place(heads, b"BEGINN")?;
    let driven = driving_columns(heads)?;
    let value = column_place(heads, b"WERT")?;
    Some(DutyColumns {
        place,
        start,
        driven,
        value,
    })
}

/// The columns of X_UMARKE, where all are there.
pub(crate) fn block_columns(heads: &[Head]) -> Option<BlockColumns>
    ensures { result ≡ spec.block_columns heads.now }
{
    let place = place_columns(heads, b"HOF_NR", b"LFD_NR")?;
    let driving = column_place(heads, b"LENK")?;
    let value = column_place(heads, b"WERT")?;
    Some(BlockColumns {
        place,
        driving,
        value,
    })
}
