//! The lines on standard error.

ghost use Rattle.std.specs.Prelude.{◌≡◌, false, ◌++◌, ◌∷◌, [], ℕ, List, codes, decimal};
ghost use Rattle.input_files.specs.Lines.{IsTold, joined};
ghost use Rattle.day_method.specs.Names.{name_of as side_name};
ghost use Rattle.cert_check.specs.Names.{name_of as reason_name, number_of as reason_number};
ghost use Rattle.planner_run.specs.Endings.{is_done};
ghost use Rattle.planner_run.specs.Lines as spec;

use crate::status::{InputFault, Status};
use cert_check::Reason;
use day_calendar::DayFault;
use day_method::Side;
use input_files::{write_line, write_number, write_part};
use plan_command::ItemName;
use plan_core::{Point, Sink};
use plan_params::ParamFault;
use trip_times::TripFault;
use vdv451_text::TextFault;
use vdv452_tables::TableFault;

fn tell_text<E: Sink>(err: &mut E, file: u32, fault: &TextFault)
    ensures { (day : List ℕ) → IsTold (E.taken err.old) (E.taken err.new) (E.faults err.old) (E.faults err.new) (spec.line_of day (Status.Input (InputFault.Text file fault.now))) }
{
    let is_whole = write_part(err, true, b"file ");
    let is_whole = write_number(err, is_whole, file as u64);
    let is_whole = write_part(err, is_whole, b" line ");
    let is_whole = write_number(err, is_whole, fault.line as u64);
    let is_whole = write_part(err, is_whole, b": ");
    let is_whole = write_part(err, is_whole, fault.kind.name());
    let _ = write_part(err, is_whole, b"\n");
}

fn tell_table<E: Sink>(err: &mut E, fault: &TableFault)
    ensures { (day : List ℕ) → IsTold (E.taken err.old) (E.taken err.new) (E.faults err.old) (E.faults err.new) (spec.line_of day (Status.Input (InputFault.Table fault.now))) }
{
    let is_whole = write_part(err, true, b"table ");
    let is_whole = write_part(err, is_whole, fault.table.as_slice());
    let is_whole = write_part(err, is_whole, b" column ");
    let is_whole = write_part(err, is_whole, fault.column.as_slice());
    let is_whole = write_part(err, is_whole, b" row ");
    let is_whole = write_number(err, is_whole, fault.row as u64);
    let is_whole = write_part(err, is_whole, b": ");
    let is_whole = write_part(err, is_whole, fault.kind.name());
    let _ = write_part(err, is_whole, b"\n");
}

fn tell_params<E: Sink>(err: &mut E, fault: &ParamFault)
    ensures { (day : List ℕ) → IsTold (E.taken err.old) (E.taken err.new) (E.faults err.old) (E.faults err.new) (spec.line_of day (Status.Input (InputFault.Params fault.now))) }
{
    let is_whole = write_part(err, true, b"table ");
    let is_whole = write_part(err, is_whole, fault.table.as_slice());
    let is_whole = write_part(err, is_whole, b" row ");
    let is_whole = write_number(err, is_whole, fault.row as u64);
    let is_whole = write_part(err, is_whole, b": ");
    let is_whole = write_part(err, is_whole, fault.kind.name());
    let _ = write_part(err, is_whole, b"\n");
}

/// Writes a trip and a word.
fn tell_word<E: Sink>(err: &mut E, fid: u64, word: &[u8])
    ensures { IsTold (E.taken err.old) (E.taken err.new) (E.faults err.old) (E.faults err.new) (joined (codes "trip " ∷ decimal fid ∷ codes ": " ∷ word.now ∷ codes "\n" ∷ [])) }
{
    let is_whole = write_part(err, true, b"trip ");
    let is_whole = write_number(err, is_whole, fid);
    let is_whole = write_part(err, is_whole, b": ");
    let is_whole = write_part(err, is_whole, word);
    let _ = write_part(err, is_whole, b"\n");
}

/// Writes a trip, a word and the section that has no run time.
fn tell_gap<E: Sink>(err: &mut E, fid: u64, word: &[u8], from: Point, to: Point)
    ensures { IsTold (E.taken err.old) (E.taken err.new) (E.faults err.old) (E.faults err.new) (joined (codes "trip " ∷ decimal fid ∷ codes ": " ∷ word.now ∷ codes " " ∷ decimal from.typ ∷ codes "/" ∷ decimal from.nr ∷ codes " to " ∷ decimal to.typ ∷ codes "/" ∷ decimal to.nr ∷ codes "\n" ∷ [])) }
{
    let is_whole = write_part(err, true, b"trip ");
    let is_whole = write_number(err, is_whole, fid);
    let is_whole = write_part(err, is_whole, b": ");
    let is_whole = write_part(err, is_whole, word);
    let is_whole = write_part(err, is_whole, b" ");
    let is_whole = write_number(err, is_whole, from.typ as u64);
    let is_whole = write_part(err, is_whole, b"/");
    let is_whole = write_number(err, is_whole, from.nr as u64);
    let is_whole = write_part(err, is_whole, b" to ");
    let is_whole = write_number(err, is_whole, to.typ as u64);
    let is_whole = write_part(err, is_whole, b"/");
    let is_whole = write_number(err, is_whole, to.nr as u64);
    let _ = write_part(err, is_whole, b"\n");
}

fn tell_trip<E: Sink>(err: &mut E, fid: u64, fault: TripFault)
    ensures { (day : List ℕ) → IsTold (E.taken err.old) (E.taken err.new) (E.faults err.old) (E.faults err.new) (spec.line_of day (Status.Input (InputFault.Trip fid fault))) }
{
    match fault {
        TripFault::NoRunTime { from, to } => tell_gap(err, fid, fault.name(), from, to),
        TripFault::NoRoute | TripFault::ShortRoute | TripFault::PastEnd => tell_word(
            err,
            fid,
            fault.name(),
        ),
    }
}

/// Writes some text, a number and the line end.
fn tell_number<E: Sink>(err: &mut E, text: &[u8], number: u64)
    ensures { IsTold (E.taken err.old) (E.taken err.new) (E.faults err.old) (E.faults err.new) (joined (text.now ∷ decimal number ∷ codes "\n" ∷ [])) }
{
    let is_whole = write_part(err, true, text);
    let is_whole = write_number(err, is_whole, number);
    let _ = write_part(err, is_whole, b"\n");
}

fn tell_day<E: Sink>(err: &mut E, day: &[u8], fault: DayFault)
    ensures { IsTold (E.taken err.old) (E.taken err.new) (E.faults err.old) (E.faults err.new) (spec.line_of day.now (Status.Day fault)) }
{
    let is_whole = write_part(err, true, b"day ");
    let is_whole = write_part(err, is_whole, day);
    let is_whole = write_part(err, is_whole, b": ");
    let is_whole = write_part(err, is_whole, fault.name());
    let _ = write_part(err, is_whole, b"\n");
}

/// Writes that a side has no plan, with the bound and the places.
fn tell_no_plan<E: Sink>(err: &mut E, side: Side, bound: u64, places: u64)
    ensures { IsTold (E.taken err.old) (E.taken err.new) (E.faults err.old) (E.faults err.new) (joined (codes "no plan: " ∷ side_name side ∷ codes " bound " ∷ decimal bound ∷ codes " places " ∷ decimal places ∷ codes "\n" ∷ [])) }
{
    let is_whole = write_part(err, true, b"no plan: ");
    let is_whole = write_part(err, is_whole, side.name());
    let is_whole = write_part(err, is_whole, b" bound ");
    let is_whole = write_number(err, is_whole, bound);
    let is_whole = write_part(err, is_whole, b" places ");
    let is_whole = write_number(err, is_whole, places);
    let _ = write_part(err, is_whole, b"\n");
}

/// Writes that a trip is left.
fn tell_left_trip<E: Sink>(err: &mut E, fid: u64)
    ensures { IsTold (E.taken err.old) (E.taken err.new) (E.faults err.old) (E.faults err.new) (joined (codes "not placed: " ∷ codes "trip " ∷ decimal fid ∷ codes "\n" ∷ [])) }
{
    let is_whole = write_part(err, true, b"not placed: ");
    let is_whole = write_part(err, is_whole, b"trip ");
    let is_whole = write_number(err, is_whole, fid);
    let _ = write_part(err, is_whole, b"\n");
}

/// Writes that a piece is left.
fn tell_left_piece<E: Sink>(err: &mut E, block: u32, index: u32)
    ensures { IsTold (E.taken err.old) (E.taken err.new) (E.faults err.old) (E.faults err.new) (joined (codes "not placed: " ∷ codes "block " ∷ decimal block ∷ codes " piece " ∷ decimal index ∷ codes "\n" ∷ [])) }
{
    let is_whole = write_part(err, true, b"not placed: ");
    let is_whole = write_part(err, is_whole, b"block ");
    let is_whole = write_number(err, is_whole, block as u64);
    let is_whole = write_part(err, is_whole, b" piece ");
    let is_whole = write_number(err, is_whole, index as u64);
    let _ = write_part(err, is_whole, b"\n");
}

fn tell_left<E: Sink>(err: &mut E, name: ItemName)
    ensures { IsTold (E.taken err.old) (E.taken err.new) (E.faults err.old) (E.faults err.new) (joined (codes "not placed: " ∷ (spec.item_words name ++ codes "\n" ∷ []))) }
{
    match name {
        ItemName::Trip { fid } => tell_left_trip(err, fid),
        ItemName::Piece { block, index } => tell_left_piece(err, block, index),
    }
}

/// Writes that an earlier plan is refused, with the number and the name of the reason.
fn tell_old_plan<E: Sink>(err: &mut E, reason: &Reason)
    ensures { IsTold (E.taken err.old) (E.taken err.new) (E.faults err.old) (E.faults err.new) (joined (codes "old plan " ∷ decimal (reason_number reason.now) ∷ codes " " ∷ reason_name reason.now ∷ codes "\n" ∷ [])) }
{
    let is_whole = write_part(err, true, b"old plan ");
    let is_whole = write_number(err, is_whole, reason.number());
    let is_whole = write_part(err, is_whole, b" ");
    let is_whole = write_part(err, is_whole, reason.name());
    let _ = write_part(err, is_whole, b"\n");
}

/// Writes the first and the last day of a roster.
fn tell_days<E: Sink>(err: &mut E, first: u32, last: u32)
    ensures { (day : List ℕ) → IsTold (E.taken err.old) (E.taken err.new) (E.faults err.old) (E.faults err.new) (spec.line_of day (Status.Input (InputFault.Days first last))) }
{
    let is_whole = write_part(err, true, b"days: ");
    let is_whole = write_number(err, is_whole, first as u64);
    let is_whole = write_part(err, is_whole, b" to ");
    let is_whole = write_number(err, is_whole, last as u64);
    let _ = write_part(err, is_whole, b"\n");
}

fn tell_input<E: Sink>(err: &mut E, fault: &InputFault)
    ensures { (day : List ℕ) → IsTold (E.taken err.old) (E.taken err.new) (E.faults err.old) (E.faults err.new) (spec.line_of day (Status.Input fault.now)) }
{
    match fault {
        InputFault::Text { file, fault } => tell_text(err, *file, fault),
        InputFault::Table(fault) => tell_table(err, fault),
        InputFault::Params(fault) => tell_params(err, fault),
        InputFault::Trip { fid, fault } => tell_trip(err, *fid, *fault),
        InputFault::Days { first, last } => tell_days(err, *first, *last),
        InputFault::Trips { count } => tell_number(err, b"trips: ", *count as u64),
    }
}

/// Writes the line of a refusal, for a day as its word has it. It takes no memory. Where a write fails, the rest of the line is left out.
pub fn tell<E: Sink>(err: &mut E, day: &[u8], status: &Status)
    requires { is_done status.now ≡ false }
    ensures { IsTold (E.taken err.old) (E.taken err.new) (E.faults err.old) (E.faults err.new) (spec.line_of day.now status.now) }
{
    match status {
        Status::Ok => unreachable!(),
        Status::CheckNo(_) => unreachable!(),
        Status::Usage => {
            write_line(
                err,
                b"usage: planner trips|day|plan|certify|check|make|replan|week\n",
            );
        }
        Status::Input(fault) => tell_input(err, fault),
        Status::Day(fault) => tell_day(err, day, *fault),
        Status::NoPlan {
            side,
            bound,
            places,
        } => tell_no_plan(err, *side, *bound, *places),
        Status::NotPlaced { name, .. } => tell_left(err, *name),
        Status::OldPlan(reason) => tell_old_plan(err, reason),
        Status::ReadFault { file } => tell_number(err, b"read fault: file ", *file as u64),
        Status::WriteFault => write_line(err, b"write fault\n"),
        Status::Memory => write_line(err, b"out of memory\n"),
    }
}
