//! What the rows of marks have in common: the pass, the class and the item.

ghost use Rattle.std.specs.Prelude.{◌≡◌, ◌<◌, ◌^◌};
ghost use Rattle.plan_cert.specs.Entries as spec;
ghost use Rattle.plan_cert.specs.Shapes.{HaveFew};

use crate::cert::Pass;
use crate::columns::PlaceColumns;
use crate::numbers::{class_among, place_of_number};
use crate::shape::Shape;
use number_tables::{number_at, word};
use vdv451_text::Field;

/// Where a mark stands.
#[derive(Clone, Copy)]
pub struct MarkPlace {
    /// The pass.
    pub pass: Pass,
    /// The class, from 0.
    pub class: u32,
    /// The last item, from 0.
    pub item: u32,
}

/// The first or the second pass of a number from 1 or from 3 on.
fn pass_from(first: u32, one: Pass, two: Pass, number: Option<i64>) -> Option<Pass>
    requires { first < 2 ^ 31 }
    ensures { result ≡ spec.pass_from first one two number }
{
    let number = word(number)?;
    if number == first {
        Some(one)
    } else if number == first + 1 {
        Some(two)
    } else {
        None
    }
}

/// The pass, the class and the item that a row names.
fn place_at(shape: &Shape, columns: &PlaceColumns, pass: Pass, row: &[Field]) -> Option<MarkPlace>
    requires { HaveFew shape.now.classes }
    ensures { result ≡ spec.place_at shape.now columns.now pass row.now }
{
    let class = class_among(shape.classes.numbers(pass), number_at(row, columns.class))?;
    let item = place_of_number(shape.items(pass), number_at(row, columns.item))?;
    Some(MarkPlace { pass, class, item })
}

/// The place of a mark of blocks, which is of pass 1 or 2.
pub(crate) fn block_place(shape: &Shape, columns: &PlaceColumns, row: &[Field]) -> Option<MarkPlace>
    requires { HaveFew shape.now.classes }
    ensures { result ≡ spec.block_place shape.now columns.now row.now }
{
    let pass = pass_from(
        1,
        Pass::BlockNumber,
        Pass::BlockCost,
        number_at(row, columns.pass),
    )?;
    place_at(shape, columns, pass, row)
}

/// The place of a mark of duties, which is of pass 3 or 4.
pub(crate) fn duty_place(shape: &Shape, columns: &PlaceColumns, row: &[Field]) -> Option<MarkPlace>
    requires { HaveFew shape.now.classes }
    ensures { result ≡ spec.duty_place shape.now columns.now row.now }
{
    let pass = pass_from(
        3,
        Pass::DutyNumber,
        Pass::DutyCost,
        number_at(row, columns.pass),
    )?;
    place_at(shape, columns, pass, row)
}
