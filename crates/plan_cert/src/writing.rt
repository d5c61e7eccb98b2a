//! Certificates, written as tables.

ghost use Rattle.std.specs.Prelude.{◌≡◌, ◌++◌, true, IfOk, IsTrue, OnOk};
ghost use Rattle.vdv451_text.specs.Plain.{are_plain, is_plain_table};
ghost use Rattle.number_tables.specs.Signed.{signed_rows};
ghost use Rattle.plan_cert.specs.Shapes.{class_numbers_of, numbers_in};
ghost use Rattle.plan_cert.specs.Writing as spec;
ghost use Rattle.plan_cert.specs.Writing.{HasClasses, HaveClasses};
ghost use Rattle.plan_cert.specs.declared.cert.Pass.TheVariants as passes;
ghost use Rattle.plan_cert.specs.declared.fault.CertTable.TheVariants as which;

use crate::cert::{Cert, CertPart, Pass};
use crate::rows::{add_block_marks, add_class_prices, add_duty_marks, add_prices};
use crate::shape::{ClassNumbers, class_numbers};
use day_model::Day;
use number_tables::number_table;
use plan_core::{Memory, Seq};
use std::alloc::Global;
use vdv451_text::{Field, Table};

/// The rows of X_PREIS.
fn all_prices(
    alloc: Global,
    one: &CertPart,
    two: &CertPart,
    three: &CertPart,
    four: &CertPart,
) -> Result<Seq<Seq<Field>>, Memory>
    ensures { IfOk result (λ rows. rows ≡ signed_rows (spec.all_price_rows one.now two.now three.now four.now)) }
{
    let mut rows = Seq::new(alloc);
    add_prices(
        alloc,
        &mut rows,
        Pass::BlockNumber,
        one.prices.items.as_slice(),
    )?;
    add_prices(
        alloc,
        &mut rows,
        Pass::BlockCost,
        two.prices.items.as_slice(),
    )?;
    add_prices(
        alloc,
        &mut rows,
        Pass::DutyNumber,
        three.prices.items.as_slice(),
    )?;
    add_prices(
        alloc,
        &mut rows,
        Pass::DutyCost,
        four.prices.items.as_slice(),
    )?;
    Ok(rows)
}

/// The table X_PREIS of four parts.
fn price_table(
    alloc: Global,
    one: &CertPart,
    two: &CertPart,
    three: &CertPart,
    four: &CertPart,
) -> Result<Table, Memory>
    ensures table { IfOk result (λ table. table ≡ spec.cert_table which.Prices (spec.all_price_rows one.now two.now three.now four.now)) }
    ensures plain { IfOk result (λ table. is_plain_table table ≡ true) }
{
    let rows = all_prices(alloc, one, two, three, four)?;
    number_table(alloc, "X_PREIS", &["ART", "LFD_NR", "PREIS"], rows)
}

/// Puts the rows of the class prices of a part behind others.
fn add_classes(
    alloc: Global,
    rows: &mut Seq<Seq<Field>>,
    classes: &ClassNumbers,
    pass: Pass,
    part: &CertPart,
) -> Result<(), Memory>
    requires { HasClasses classes.now pass part.now }
    ensures { OnOk result (rows.new ≡ rows.old ++ signed_rows (spec.class_rows pass (numbers_in classes.now pass) 0 part.now.class_prices)) }
{
    add_class_prices(
        alloc,
        rows,
        pass,
        classes.numbers(pass),
        part.class_prices.as_slice(),
    )
}

/// The rows of X_KLASSENPREIS.
fn all_class_prices(
    alloc: Global,
    classes: &ClassNumbers,
    one: &CertPart,
    two: &CertPart,
    three: &CertPart,
    four: &CertPart,
) -> Result<Seq<Seq<Field>>, Memory>
    requires one { HasClasses classes.now passes.BlockNumber one.now }
    requires two { HasClasses classes.now passes.BlockCost two.now }
    requires three { HasClasses classes.now passes.DutyNumber three.now }
    requires four { HasClasses classes.now passes.DutyCost four.now }
    ensures { IfOk result (λ rows. rows ≡ signed_rows (spec.all_class_rows classes.now one.now two.now three.now four.now)) }
{
    let mut rows = Seq::new(alloc);
    add_classes(alloc, &mut rows, classes, Pass::BlockNumber, one)?;
    add_classes(alloc, &mut rows, classes, Pass::BlockCost, two)?;
    add_classes(alloc, &mut rows, classes, Pass::DutyNumber, three)?;
    add_classes(alloc, &mut rows, classes, Pass::DutyCost, four)?;
    Ok(rows)
}

/// The table X_KLASSENPREIS of four parts.
fn class_table(
    alloc: Global,
    classes: &ClassNumbers,
    one: &CertPart,
    two: &CertPart,
    three: &CertPart,
    four: &CertPart,
) -> Result<Table, Memory>
    requires one { HasClasses classes.now passes.BlockNumber one.now }
    requires two { HasClasses classes.now passes.BlockCost two.now }
    requires three { HasClasses classes.now passes.DutyNumber three.now }
    requires four { HasClasses classes.now passes.DutyCost four.now }
    ensures table { IfOk result (λ table. table ≡ spec.cert_table which.ClassPrices (spec.all_class_rows classes.now one.now two.now three.now four.now)) }
    ensures plain { IfOk result (λ table. is_plain_table table ≡ true) }
{
    let rows = all_class_prices(alloc, classes, one, two, three, four)?;
    number_table(alloc, "X_KLASSENPREIS", &["ART", "KLASSE", "PREIS"], rows)
}

/// Puts the rows of the marks of a part behind others.
fn add_marks(
    alloc: Global,
    rows: &mut Seq<Seq<Field>>,
    classes: &ClassNumbers,
    pass: Pass,
    part: &CertPart,
) -> Result<(), Memory>
    requires { HasClasses classes.now pass part.now }
    ensures { OnOk result (rows.new ≡ rows.old ++ signed_rows (spec.mark_rows classes.now pass part.now)) }
{
    let pools = classes.pools.as_slice();
    let groups = classes.groups.as_slice();
    let blocks = part.blocks.marks.as_slice();
    let duties = part.cover.marks.as_slice();
    match pass {
        Pass::BlockNumber => add_block_marks(alloc, rows, pass, pools, blocks),
        Pass::BlockCost => add_block_marks(alloc, rows, pass, pools, blocks),
        Pass::DutyNumber => add_duty_marks(alloc, rows, pass, groups, duties),
        Pass::DutyCost => add_duty_marks(alloc, rows, pass, groups, duties),
    }
}

/// The rows of the marks of two parts.
fn all_marks(
    alloc: Global,
    classes: &ClassNumbers,
    first: Pass,
    one: &CertPart,
    second: Pass,
    two: &CertPart,
) -> Result<Seq<Seq<Field>>, Memory>
    requires one { HasClasses classes.now first one.now }
    requires two { HasClasses classes.now second two.now }
    ensures { IfOk result (λ rows. rows ≡ signed_rows (spec.mark_rows classes.now first one.now ++ spec.mark_rows classes.now second two.now)) }
{
    let mut rows = Seq::new(alloc);
    add_marks(alloc, &mut rows, classes, first, one)?;
    add_marks(alloc, &mut rows, classes, second, two)?;
    Ok(rows)
}

/// The table X_MARKE of the parts of passes 3 and 4.
fn duty_table(
    alloc: Global,
    classes: &ClassNumbers,
    three: &CertPart,
    four: &CertPart,
) -> Result<Table, Memory>
    requires three { HasClasses classes.now passes.DutyNumber three.now }
    requires four { HasClasses classes.now passes.DutyCost four.now }
    ensures table { IfOk result (λ table. table ≡ spec.cert_table which.DutyMarks (spec.all_duty_rows classes.now three.now four.now)) }
    ensures plain { IfOk result (λ table. is_plain_table table ≡ true) }
{
    let columns = [
        "ART",
        "GRUPPE_NR",
        "STUECK",
        "BEGINN",
        "LENK",
        "VIERTEL",
        "GESAMT",
        "DREI",
        "WERT",
    ];
    let rows = all_marks(
        alloc,
        classes,
        Pass::DutyNumber,
        three,
        Pass::DutyCost,
        four,
    )?;
    number_table(alloc, "X_MARKE", &columns, rows)
}

/// The table X_UMARKE of the parts of passes 1 and 2.
fn block_table(
    alloc: Global,
    classes: &ClassNumbers,
    one: &CertPart,
    two: &CertPart,
) -> Result<Table, Memory>
    requires one { HasClasses classes.now passes.BlockNumber one.now }
    requires two { HasClasses classes.now passes.BlockCost two.now }
    ensures table { IfOk result (λ table. table ≡ spec.cert_table which.BlockMarks (spec.all_block_rows classes.now one.now two.now)) }
    ensures plain { IfOk result (λ table. is_plain_table table ≡ true) }
{
    let columns = ["ART", "HOF_NR", "LFD_NR", "LENK", "WERT"];
    let rows = all_marks(alloc, classes, Pass::BlockNumber, one, Pass::BlockCost, two)?;
    number_table(alloc, "X_UMARKE", &columns, rows)
}

/// The tables of four parts.
fn four_tables(
    alloc: Global,
    classes: &ClassNumbers,
    one: &CertPart,
    two: &CertPart,
    three: &CertPart,
    four: &CertPart,
) -> Result<Seq<Table>, Memory>
    requires one { HasClasses classes.now passes.BlockNumber one.now }
    requires two { HasClasses classes.now passes.BlockCost two.now }
    requires three { HasClasses classes.now passes.DutyNumber three.now }
    requires four { HasClasses classes.now passes.DutyCost four.now }
    ensures tables { IfOk result (λ tables. tables ≡ spec.four_tables classes.now one.now two.now three.now four.now) }
    ensures plain { IfOk result (λ tables. IsTrue (are_plain tables)) }
{
    let mut tables = Seq::new(alloc);
    tables.push(price_table(alloc, one, two, three, four)?)?;
    tables.push(class_table(alloc, classes, one, two, three, four)?)?;
    tables.push(duty_table(alloc, classes, three, four)?)?;
    tables.push(block_table(alloc, classes, one, two)?)?;
    Ok(tables)
}

/// The tables of a certificate, in this order. Their columns are all `num[19.0]`.
///
/// - X_PREIS has the pass (ART), the item from 1 (LFD_NR) and its kept price (PREIS), in thousandths of a cost unit.
/// - X_KLASSENPREIS has the pass, the pool's or the group's number (KLASSE), and the kept class price (PREIS).
/// - X_MARKE has the marks of passes 3 and 4: the pass, the group (GRUPPE_NR), the piece from 1 (STUECK), the sign-on (BEGINN, seconds of
///   the operating day), the seconds driven since the last full break (LENK), whether a pause of 900 s stands after it (VIERTEL, 0 or 1),
///   the seconds driven in all (GESAMT), whether a pause of 10,800 s was had (DREI, 0 or 1), and the value (WERT).
/// - X_UMARKE has the marks of passes 1 and 2: the pass, the pool (HOF_NR), the trip from 1 (LFD_NR), the seconds driven since the last
///   cut (LENK), and the value (WERT).
///
/// Rows rise by pass and then by item or class; marks stand in the order of their cover. The certificate has four parts, each with a
/// price for each class of its pass, and the classes of marks are there. The tables are plain (`vdv451_text::is_plain`), so their text can
/// be written.
///
/// # Errors
///
/// `Memory` where memory runs out, and for nothing else.
pub fn write_cert(alloc: Global, cert: &Cert, day: &Day) -> Result<Seq<Table>, Memory>
    requires { HaveClasses (class_numbers_of day.now) cert.now.parts }
    ensures tables { IfOk result (λ tables. tables ≡ spec.tables_of (class_numbers_of day.now) cert.now) }
    ensures plain { IfOk result (λ tables. IsTrue (are_plain tables)) }
{
    let classes = class_numbers(alloc, day)?;
    match cert.parts.as_slice() {
        [one, two, three, four] => four_tables(alloc, &classes, one, two, three, four),
        _ => Ok(Seq::new(alloc)),
    }
}
