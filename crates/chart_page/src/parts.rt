//! The parts that a page is made of, and their bytes.

ghost use Rattle.std.specs.Prelude.{◌≡◌, ◌++◌, OnOk, decimal};
ghost use Rattle.std.specs.Option.{option_copied};
ghost use Rattle.std.specs.Fmt.{signed_decimal};
ghost use Rattle.chart_page.specs.Parts as spec;

use crate::marks::Mark;
use itoa::Buffer;
use plan_core::Memory;
use vdv451_text::{Field, Table};
use vdv452_tables::column_place;

/// What a bar stands for.
#[derive(Clone, Copy)]
pub enum BarKind {
    /// A leg from the depot to the first trip.
    PullOut,
    /// A leg that is a trip.
    Trip,
    /// A leg without passengers.
    Deadhead,
    /// A leg that is a stand.
    Stand,
    /// A leg from the last trip to the depot.
    PullIn,
    /// A duty from sign-on to sign-off.
    Duty,
    /// A pause below 45 minutes.
    Pause,
    /// A pause of 45 minutes or more.
    Break,
    /// A piece of a duty.
    Piece,
}

/// A bar in a chart.
#[derive(Clone, Copy)]
pub struct Bar {
    /// What it stands for.
    pub kind: BarKind,
    /// The moment at which it begins, in seconds from 280 hours before the day's midnight.
    pub left: u32,
    /// The moment at which it ends.
    pub right: u32,
    /// The lane in which it lies, from 0.
    pub lane: usize,
}

/// A part of a page. The one kind that takes text from the tables is `Variant`.
#[derive(Clone, Copy)]
pub enum Part {
    /// A constant of the page.
    Own(Mark),
    /// A number in decimal.
    Number(u64),
    /// A moment as a time of the operating day.
    Clock(u32),
    /// A number of seconds as hours and minutes.
    Lasting(u32),
    /// The shape of a bar.
    Shape(Bar),
    /// What the trip at this place among the rows of REC_FRT has in STR_LI_VAR, as text.
    Variant(usize),
}

pub(crate) fn push_bytes(out: &mut Vec<u8>, bytes: &[u8]) -> Result<(), Memory>
    ensures { OnOk result (out.new.items ≡ out.old.items ++ bytes.now) }
{
    out.extend_from_slice(bytes)?;
    Ok(())
}

fn push_number(out: &mut Vec<u8>, number: u64) -> Result<(), Memory>
    ensures { OnOk result (out.new.items ≡ out.old.items ++ decimal number) }
{
    let mut digits = Buffer::new();
    push_bytes(out, digits.format(number).as_bytes())
}

fn push_signed(out: &mut Vec<u8>, number: i64) -> Result<(), Memory>
    ensures { OnOk result (out.new.items ≡ out.old.items ++ signed_decimal number) }
{
    let mut digits = Buffer::new();
    push_bytes(out, digits.format(number).as_bytes())
}

/// A byte as text of a page: the five that markup is made of as references to characters.
fn push_escaped_byte(out: &mut Vec<u8>, byte: u8) -> Result<(), Memory>
    ensures { OnOk result (out.new.items ≡ out.old.items ++ spec.escaped_byte byte) }
{
    if byte == b'&' {
        push_bytes(out, b"&amp;")
    } else if byte == b'<' {
        push_bytes(out, b"&lt;")
    } else if byte == b'>' {
        push_bytes(out, b"&gt;")
    } else if byte == b'"' {
        push_bytes(out, b"&quot;")
    } else if byte == b'\'' {
        push_bytes(out, b"&#39;")
    } else {
        push_bytes(out, &[byte])
    }
}

fn push_escaped(out: &mut Vec<u8>, text: &[u8]) -> Result<(), Memory>
    ensures { OnOk result (out.new.items ≡ out.old.items ++ spec.escaped text.now) }
{
    for byte in text {
        push_escaped_byte(out, *byte)?;
    }
    Ok(())
}

fn push_field(out: &mut Vec<u8>, field: Option<&Field>) -> Result<(), Memory>
    ensures { OnOk result (out.new.items ≡ out.old.items ++ spec.shown (option_copied field.entry)) }
{
    match field {
        Some(Field::Num(number)) => push_signed(out, *number),
        Some(Field::Text(text)) => push_escaped(out, text.as_slice()),
        Some(Field::Raw(bytes)) => push_escaped(out, bytes.as_slice()),
        Some(Field::Empty) => Ok(()),
        None => Ok(()),
    }
}

/// What the trip at a place has in STR_LI_VAR.
fn variant_at(table: &Table, place: usize) -> Option<&Field>
    ensures { option_copied result ≡ spec.variant_at table.now place }
{
    let column = column_place(table.columns.as_slice(), b"STR_LI_VAR")?;
    table.rows.as_slice().get(place)?.as_slice().get(column)
}

/// A number below 100 in two digits.
fn push_two(out: &mut Vec<u8>, number: u64) -> Result<(), Memory>
    ensures { OnOk result (out.new.items ≡ out.old.items ++ spec.two number) }
{
    if number < 10 {
        push_bytes(out, b"0")?;
    }
    push_number(out, number)
}

fn push_seconds(out: &mut Vec<u8>, seconds: u64) -> Result<(), Memory>
    ensures { OnOk result (out.new.items ≡ out.old.items ++ spec.seconds seconds) }
{
    if seconds == 0 {
        return Ok(());
    }
    push_bytes(out, b":")?;
    push_two(out, seconds)
}

/// A number of seconds as hours, minutes and, where there are any, seconds.
fn push_lasting(out: &mut Vec<u8>, lasting: u64) -> Result<(), Memory>
    ensures { OnOk result (out.new.items ≡ out.old.items ++ spec.lasting lasting) }
{
    push_two(out, lasting / 3_600)?;
    push_bytes(out, b":")?;
    push_two(out, lasting / 60 % 60)?;
    push_seconds(out, lasting % 60)
}

/// A moment as a time of the operating day, below 0 before its midnight.
fn push_clock(out: &mut Vec<u8>, moment: u64) -> Result<(), Memory>
    ensures { OnOk result (out.new.items ≡ out.old.items ++ spec.clock moment) }
{
    if moment < 1_008_000 {
        push_bytes(out, b"-")?;
        push_lasting(out, 1_008_000 - moment)
    } else {
        push_lasting(out, moment - 1_008_000)
    }
}

/// The class of a bar in the style sheet.
fn class_of(kind: BarKind) -> &'static [u8]
    ensures { result.now ≡ spec.class_of kind }
{
    match kind {
        BarKind::PullOut => b"pull-out",
        BarKind::Trip => b"trip",
        BarKind::Deadhead => b"deadhead",
        BarKind::Stand => b"stand",
        BarKind::PullIn => b"pull-in",
        BarKind::Duty => b"duty",
        BarKind::Pause => b"pause",
        BarKind::Break => b"break",
        BarKind::Piece => b"piece",
    }
}

/// The sides of a bar: from its left moment to its right one, in its lane.
fn push_sides(out: &mut Vec<u8>, bar: Bar) -> Result<(), Memory>
    ensures { OnOk result (out.new.items ≡ out.old.items ++ spec.sides bar) }
{
    push_number(out, bar.left as u64)?;
    push_bytes(out, b" ")?;
    push_number(out, bar.lane as u64)?;
    push_bytes(out, b".1H")?;
    push_number(out, bar.right as u64)
}

fn push_shape(out: &mut Vec<u8>, bar: Bar) -> Result<(), Memory>
    ensures { OnOk result (out.new.items ≡ out.old.items ++ spec.shape bar) }
{
    push_bytes(out, b"<path class='")?;
    push_bytes(out, class_of(bar.kind))?;
    push_bytes(out, b"' d='M")?;
    push_sides(out, bar)?;
    push_back(out, bar.left)
}

/// Back to the left side.
fn push_back(out: &mut Vec<u8>, left: u32) -> Result<(), Memory>
    ensures { OnOk result (out.new.items ≡ out.old.items ++ spec.back left) }
{
    push_bytes(out, b"v.8H")?;
    push_number(out, left as u64)?;
    push_bytes(out, b"z'")
}

#[tactic(auto, unfolding(crate::specs::Parts::spelled))]
fn push_part(out: &mut Vec<u8>, table: &Table, part: Part) -> Result<(), Memory>
    ensures { OnOk result (out.new.items ≡ out.old.items ++ spec.spelled table.now part) }
{
    match part {
        Part::Own(mark) => push_bytes(out, mark.text()),
        Part::Number(number) => push_number(out, number),
        Part::Clock(moment) => push_clock(out, moment as u64),
        Part::Lasting(seconds) => push_lasting(out, seconds as u64),
        Part::Shape(bar) => push_shape(out, bar),
        Part::Variant(place) => push_field(out, variant_at(table, place)),
    }
}

/// Writes parts behind what is there.
#[tactic(auto, unfolding(crate::specs::Parts::written))]
pub(crate) fn push_parts(out: &mut Vec<u8>, table: &Table, parts: &[Part]) -> Result<(), Memory>
    ensures { OnOk result (out.new.items ≡ out.old.items ++ spec.written table.now parts.now) }
{
    for part in parts {
        push_part(out, table, *part)?;
    }
    Ok(())
}
