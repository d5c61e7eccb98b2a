//! The rows of a certificate.

ghost use Rattle.std.specs.Prelude.{◌≡◌, ◌<◌, ◌≤◌, ◌^◌, ◌++◌, ◌∷◌, [], ◌+◌, All, IfOk, OnOk, length, slice_index};
ghost use Rattle.number_tables.specs.Signed.{signed_row as row_of, signed_rows};
ghost use Rattle.plan_cert.specs.Shapes.{numbers_in};
ghost use Rattle.plan_cert.specs.Writing as spec;

use crate::cert::Pass;
use crate::shape::ClassNumbers;
use cover_core::{BlockMark, Mark};
use number_tables::signed_row;
use plan_core::{Memory, Price, Seq};
use std::alloc::Global;
use vdv451_text::Field;

/// The number of a pass.
fn pass_number(pass: Pass) -> Option<i64>
    ensures { result ≡ spec.pass_field pass }
{
    match pass {
        Pass::BlockNumber => Some(1),
        Pass::BlockCost => Some(2),
        Pass::DutyNumber => Some(3),
        Pass::DutyCost => Some(4),
    }
}

/// A number of 32 bits.
fn whole(number: u32) -> Option<i64>
    ensures { result ≡ spec.whole number }
{
    Some(number as i64)
}

/// A number counted from 1.
fn number_of_place(number: u32) -> Option<i64>
    ensures { result ≡ spec.whole (number + 1) }
{
    Some(number as i64 + 1)
}

/// A truth value as 0 or 1.
fn bit(value: bool) -> Option<i64>
    ensures { result ≡ spec.bit value }
{
    if value { Some(1) } else { Some(0) }
}

/// The row of the price of an item.
fn price_row(alloc: Global, pass: Pass, place: usize, price: Price) -> Result<Seq<Field>, Memory>
    requires { place < 2 ^ 62 }
    ensures { IfOk result (λ row. row ≡ row_of (spec.price_row pass place price)) }
{
    let number = place as i64 + 1;
    signed_row(alloc, &[pass_number(pass), Some(number), Some(price.0)])
}

/// Puts the rows of the prices of items behind others.
pub(crate) fn add_prices(
    alloc: Global,
    rows: &mut Seq<Seq<Field>>,
    pass: Pass,
    prices: &[Price],
) -> Result<(), Memory>
    ensures { OnOk result (rows.new ≡ rows.old ++ signed_rows (spec.price_rows pass 0 prices.now)) }
{
    for (place, price) in prices.iter().enumerate() {
        rows.push(price_row(alloc, pass, place, *price)?)?;
    }
    Ok(())
}

/// The row of the price of a class.
fn class_row(alloc: Global, pass: Pass, number: u32, price: i64) -> Result<Seq<Field>, Memory>
    ensures { IfOk result (λ row. row ≡ row_of (spec.class_row pass number price)) }
{
    signed_row(alloc, &[pass_number(pass), whole(number), Some(price)])
}

/// Puts the row of the price of a class behind others.
fn add_class_price(
    alloc: Global,
    rows: &mut Seq<Seq<Field>>,
    pass: Pass,
    numbers: &[u32],
    class: usize,
    price: i64,
) -> Result<(), Memory>
    requires { class < length numbers.now }
    ensures { OnOk result (rows.new ≡ rows.old ++ row_of (spec.class_row pass (slice_index numbers.now class) price) ∷ []) }
{
    let number = numbers[class];
    rows.push(class_row(alloc, pass, number, price)?)?;
    Ok(())
}

/// Puts the rows of the prices of classes behind others.
pub(crate) fn add_class_prices(
    alloc: Global,
    rows: &mut Seq<Seq<Field>>,
    pass: Pass,
    numbers: &[u32],
    prices: &[i64],
) -> Result<(), Memory>
    requires { length prices.now ≤ length numbers.now }
    ensures { OnOk result (rows.new ≡ rows.old ++ signed_rows (spec.class_rows pass numbers.now 0 prices.now)) }
{
    for (place, price) in prices.iter().enumerate() {
        add_class_price(alloc, rows, pass, numbers, place, *price)?;
    }
    Ok(())
}

/// The row of a mark of duties.
fn duty_row(alloc: Global, pass: Pass, number: u32, mark: &Mark) -> Result<Seq<Field>, Memory>
    ensures { IfOk result (λ row. row ≡ row_of (spec.duty_row pass number mark.now)) }
{
    signed_row(
        alloc,
        &[
            pass_number(pass),
            whole(number),
            number_of_place(mark.piece),
            Some(mark.start.0),
            whole(mark.driving),
            bit(mark.quarter),
            whole(mark.total),
            bit(mark.three),
            Some(mark.value),
        ],
    )
}

/// Puts the row of a mark of duties behind others.
fn add_duty_mark(
    alloc: Global,
    rows: &mut Seq<Seq<Field>>,
    pass: Pass,
    numbers: &[u32],
    mark: &Mark,
) -> Result<(), Memory>
    requires { mark.now.class < length numbers.now }
    ensures { OnOk result (rows.new ≡ rows.old ++ row_of (spec.duty_row pass (slice_index numbers.now mark.now.class) mark.now) ∷ []) }
{
    let number = numbers[mark.class as usize];
    rows.push(duty_row(alloc, pass, number, mark)?)?;
    Ok(())
}

/// Puts the rows of marks of duties behind others.
pub(crate) fn add_duty_marks(
    alloc: Global,
    rows: &mut Seq<Seq<Field>>,
    pass: Pass,
    numbers: &[u32],
    marks: &[Mark],
) -> Result<(), Memory>
    requires { All (λ mark. mark.class < length numbers.now) marks.now }
    ensures { OnOk result (rows.new ≡ rows.old ++ signed_rows (spec.duty_rows pass numbers.now marks.now)) }
{
    for mark in marks {
        add_duty_mark(alloc, rows, pass, numbers, mark)?;
    }
    Ok(())
}

/// The row of a mark of blocks.
fn block_row(alloc: Global, pass: Pass, number: u32, mark: &BlockMark) -> Result<Seq<Field>, Memory>
    ensures { IfOk result (λ row. row ≡ row_of (spec.block_row pass number mark.now)) }
{
    signed_row(
        alloc,
        &[
            pass_number(pass),
            whole(number),
            number_of_place(mark.trip),
            whole(mark.driving),
            Some(mark.value),
        ],
    )
}

/// Puts the rows of marks of blocks behind others.
pub(crate) fn add_block_marks(
    alloc: Global,
    rows: &mut Seq<Seq<Field>>,
    pass: Pass,
    numbers: &[u32],
    marks: &[BlockMark],
) -> Result<(), Memory>
    requires { All (λ mark. mark.class < length numbers.now) marks.now }
    ensures { OnOk result (rows.new ≡ rows.old ++ signed_rows (spec.block_rows pass numbers.now marks.now)) }
{
    for mark in marks {
        let number = numbers[mark.class as usize];
        rows.push(block_row(alloc, pass, number, mark)?)?;
    }
    Ok(())
}
