//! The lines on standard error.

ghost use Rattle.std.specs.Prelude.{◌≢◌};
ghost use Rattle.input_files.specs.Lines.{IsTold};
ghost use Rattle.plan_chart.specs.Lines.{line_of};

use crate::status::Status;
use input_files::{write_line, write_number, write_part};
use plan_core::Sink;
use plan_rows::Place;
use vdv451_text::TextFault;

fn tell_text<E: Sink>(err: &mut E, fault: TextFault)
    ensures { IsTold (E.taken err.old) (E.taken err.new) (E.faults err.old) (E.faults err.new) (line_of (Status.Text fault)) }
{
    let is_whole = write_part(err, true, b"file 1 line ");
    let is_whole = write_number(err, is_whole, fault.line as u64);
    let is_whole = write_part(err, is_whole, b": ");
    let is_whole = write_part(err, is_whole, fault.kind.name());
    let _ = write_part(err, is_whole, b"\n");
}

fn tell_form<E: Sink>(err: &mut E, place: Place)
    ensures { IsTold (E.taken err.old) (E.taken err.new) (E.faults err.old) (E.faults err.new) (line_of (Status.Form place)) }
{
    let is_whole = write_part(err, true, b"table ");
    let is_whole = write_part(err, is_whole, place.table.name());
    let is_whole = write_part(err, is_whole, b" row ");
    let is_whole = write_number(err, is_whole, place.row as u64);
    let _ = write_part(err, is_whole, b": not drawn\n");
}

/// Writes the line of a refusal. It takes no memory. Where a write fails, the rest of the line is left out.
pub fn tell<E: Sink>(err: &mut E, status: Status)
    requires { status ≢ Status.Ok }
    ensures { IsTold (E.taken err.old) (E.taken err.new) (E.faults err.old) (E.faults err.new) (line_of status) }
{
    match status {
        Status::Ok => unreachable!(),
        Status::Usage => write_line(err, b"usage: planner-chart PLAN\n"),
        Status::Text(fault) => tell_text(err, fault),
        Status::Form(place) => tell_form(err, place),
        Status::ReadFault => write_line(err, b"read fault: file 1\n"),
        Status::WriteFault => write_line(err, b"write fault\n"),
        Status::Memory => write_line(err, b"out of memory\n"),
    }
}
