//! Certificates, read from tables.

ghost use Rattle.std.specs.Prelude.{◌≡◌, ◌<◌, ◌++◌, ◌∷◌, [], ℕ, All, IfOk, OnOk, length, map};
ghost use Rattle.plan_cert.specs.Certificates as spec;
ghost use Rattle.plan_cert.specs.Laws.{AreParts, HaveMarksBelow};
ghost use Rattle.plan_cert.specs.Places.{Gives};
ghost use Rattle.plan_cert.specs.Shapes.{HaveFew, class_numbers_of, shape_of as shape_of_spec};
ghost use Rattle.plan_cert.specs.Writing.{HaveClasses};

use crate::cert::{Cert, CertPart};
use crate::fault::CertFault;
use crate::marks::{PassMarks, read_marks};
use crate::prices::{FourLists, Priced, read_prices};
use crate::shape::{Shape, shape_of};
use cover_core::{BlockCover, BlockMark, Cover, Mark, Prices};
use day_model::Day;
use plan_core::{Memory, Price, Seq};
use std::alloc::{AllocError, Global};
use vdv451_text::Table;

/// Numbers as prices.
fn prices_from(alloc: Global, numbers: &[i64]) -> Result<Vec<Price>, AllocError>
    ensures { IfOk result (λ prices. prices.items ≡ map spec.price numbers.now) }
{
    numbers.iter().map(|number| Price(*number)).collect(alloc)
}

/// Numbers as the prices of items.
fn item_prices(alloc: Global, numbers: &Seq<i64>) -> Result<Prices, Memory>
    ensures { IfOk result (λ prices. prices ≡ spec.item_prices numbers.now) }
{
    let items = prices_from(alloc, numbers.as_slice())?;
    Ok(Prices {
        items: Seq::from_vec(items),
    })
}

/// The part of a pass over blocks.
fn block_part(
    alloc: Global,
    numbers: &Seq<i64>,
    class_prices: Seq<i64>,
    marks: Seq<BlockMark>,
) -> Result<CertPart, Memory>
    ensures { IfOk result (λ part. part ≡ spec.block_part numbers.now class_prices marks) }
{
    Ok(CertPart {
        prices: item_prices(alloc, numbers)?,
        class_prices,
        cover: Cover {
            marks: Seq::new(alloc),
        },
        blocks: BlockCover { marks },
    })
}

/// The part of a pass over duties.
fn duty_part(
    alloc: Global,
    numbers: &Seq<i64>,
    class_prices: Seq<i64>,
    marks: Seq<Mark>,
) -> Result<CertPart, Memory>
    ensures { IfOk result (λ part. part ≡ spec.duty_part numbers.now class_prices marks) }
{
    Ok(CertPart {
        prices: item_prices(alloc, numbers)?,
        class_prices,
        cover: Cover { marks },
        blocks: BlockCover {
            marks: Seq::new(alloc),
        },
    })
}

/// Puts the part of a pass over blocks last.
fn add_block_part(
    alloc: Global,
    parts: &mut Seq<CertPart>,
    numbers: &Seq<i64>,
    class_prices: Seq<i64>,
    marks: Seq<BlockMark>,
) -> Result<(), Memory>
    ensures { OnOk result (parts.new ≡ parts.old ++ spec.block_part numbers.now class_prices marks ∷ []) }
{
    parts.push(block_part(alloc, numbers, class_prices, marks)?)
}

/// Puts the part of a pass over duties last.
fn add_duty_part(
    alloc: Global,
    parts: &mut Seq<CertPart>,
    numbers: &Seq<i64>,
    class_prices: Seq<i64>,
    marks: Seq<Mark>,
) -> Result<(), Memory>
    ensures { OnOk result (parts.new ≡ parts.old ++ spec.duty_part numbers.now class_prices marks ∷ []) }
{
    parts.push(duty_part(alloc, numbers, class_prices, marks)?)
}

/// Puts the parts of both passes over blocks last.
fn add_block_parts(
    alloc: Global,
    parts: &mut Seq<CertPart>,
    prices: &FourLists,
    number: Seq<i64>,
    cost: Seq<i64>,
    marks: PassMarks<BlockMark>,
) -> Result<(), Memory>
    ensures { OnOk result (parts.new ≡ (parts.old ++ spec.block_part prices.now.block_number number marks.of_number ∷ []) ++ spec.block_part prices.now.block_cost cost marks.of_cost ∷ []) }
{
    let PassMarks { of_number, of_cost } = marks;
    add_block_part(alloc, parts, &prices.block_number, number, of_number)?;
    add_block_part(alloc, parts, &prices.block_cost, cost, of_cost)
}

/// Puts the parts of both passes over duties last.
fn add_duty_parts(
    alloc: Global,
    parts: &mut Seq<CertPart>,
    prices: &FourLists,
    number: Seq<i64>,
    cost: Seq<i64>,
    marks: PassMarks<Mark>,
) -> Result<(), Memory>
    ensures { OnOk result (parts.new ≡ (parts.old ++ spec.duty_part prices.now.duty_number number marks.of_number ∷ []) ++ spec.duty_part prices.now.duty_cost cost marks.of_cost ∷ []) }
{
    let PassMarks { of_number, of_cost } = marks;
    add_duty_part(alloc, parts, &prices.duty_number, number, of_number)?;
    add_duty_part(alloc, parts, &prices.duty_cost, cost, of_cost)
}

/// The certificate of prices and marks.
fn cert_from(
    alloc: Global,
    prices: &FourLists,
    class_prices: FourLists,
    duties: PassMarks<Mark>,
    blocks: PassMarks<BlockMark>,
) -> Result<Cert, Memory>
    ensures { IfOk result (λ cert. cert ≡ spec.cert_from prices.now class_prices duties blocks) }
{
    let FourLists {
        block_number,
        block_cost,
        duty_number,
        duty_cost,
    } = class_prices;
    let mut parts = Seq::new(alloc);
    add_block_parts(alloc, &mut parts, prices, block_number, block_cost, blocks)?;
    add_duty_parts(alloc, &mut parts, prices, duty_number, duty_cost, duties)?;
    Ok(Cert { parts })
}

/// The certificate that tables say, for passes of a shape.
fn read_shaped(alloc: Global, shape: &Shape, tables: &[Table]) -> Result<Cert, CertFault>
    requires { HaveFew shape.now.classes }
    ensures { Gives result (spec.read_of shape.now tables.now) }
{
    let prices = read_prices(alloc, Priced::Items, shape, tables)?;
    let class_prices = read_prices(alloc, Priced::Classes, shape, tables)?;
    let duties = read_marks::<Mark>(alloc, shape, tables)?;
    let blocks = read_marks::<BlockMark>(alloc, shape, tables)?;
    Ok(cert_from(alloc, &prices, class_prices, duties, blocks)?)
}

/// The certificate that the four tables X_PREIS, X_KLASSENPREIS, X_MARKE and X_UMARKE say of a day and of so many pieces of its blocks.
/// Other tables and further columns are passed over, formats are free, and rows may stand in any order. Marks keep the order of their
/// rows, and may repeat.
///
/// A pass (ART) is numbered from 1 to 4, an item (LFD_NR, STUECK) from 1, a class by its HOF_NR or GRUPPE_NR; of two classes of one
/// number the first is meant. A price of an item (PREIS in X_PREIS) is from -3 * 10^15 to 3 * 10^15; class prices, BEGINN and WERT are
/// any numbers of 64 bits with a sign; LENK and GESAMT are numbers of 32 bits, VIERTEL and DREI are 0 or 1.
///
/// A certificate that is read has a price for each item and class of its passes, and its marks are of items and classes that are there.
/// It looks at each field that it needs once, and keeps no copy of a row.
///
/// # Errors
///
/// `Form` names the first place that is wrong, the tables in the order above, and of each first the table as a whole, then its rows, and
/// at last a price that is missing:
///
/// - a table is missing, stands twice or lacks a column (row 0);
/// - a field is no number of its range, or names a pass, class or item that is not there (its row);
/// - a price stands a second time (the later row);
/// - a price is missing (row 0).
///
/// `Memory` where memory runs out, and for nothing else.
pub fn read_cert(alloc: Global, tables: &[Table], day: &Day, pieces: u32) -> Result<Cert, CertFault>
    ensures read { Gives result (spec.read_of (shape_of_spec day.now pieces) tables.now) }
    ensures parts { IfOk result (λ cert. AreParts (shape_of_spec day.now pieces) cert.parts) }
    ensures classes { IfOk result (λ cert. HaveClasses (class_numbers_of day.now) cert.parts) }

    // Each mark is that of a row of its own.
    ensures marks { (bound : ℕ) → All (λ table. length table.rows < bound) tables.now → IfOk result (λ cert. HaveMarksBelow bound cert.parts) }
{
    let shape = shape_of(alloc, day, pieces)?;
    read_shaped(alloc, &shape, tables)
}
