//! The top call.

ghost use Rattle.std.specs.Prelude.{◌≡◌, ◌≢◌, ◌↔◌, ◌⊎◌, ◌++◌, ◌<◌, ◌≤◌, ℕ, List, Some, None, length, vec_len, IfOk, IfErr, IfSome, IsErrOf, OnErr};
ghost use Rattle.plan_core.specs.Outside.{Rose};
ghost use Rattle.vdv451_text.specs.declared.fault.TextFault.{TextFault as FaultOfText};
ghost use Rattle.plan_rows.specs.declared.fault.Place.{Place as PlaceOfTable};
ghost use Rattle.input_files.specs.Lines.{IsTold};
ghost use Rattle.plan_chart.specs.Lines.{line_of};
ghost use Rattle.plan_chart.specs.Run as spec;
ghost use Rattle.plan_chart.specs.Words.{asked as asked_by};

use crate::lines::tell;
use crate::status::Status;
use crate::words::asked;
use chart_page::chart;
use input_files::{ReadRefusal, read_whole, write_whole};
use plan_core::{Bytes, Files, Sink};
use plan_rows::RowFault;
use std::alloc::Global;
use vdv451_text::{TextFault, TextKind, read_file};

/// The bytes that a plan may have.
const MOST: u64 = 67_108_864;

/// The status for a text that is refused.
fn status_of_text_fault(fault: TextFault) -> Status
    ensures { result ≡ spec.text_status fault }
{
    if fault.kind == TextKind::Memory {
        Status::Memory
    } else {
        Status::Text(fault)
    }
}

/// The status for tables that are refused.
fn status_of_row_fault(fault: RowFault) -> Status
    ensures { result ≡ spec.form_status fault }
{
    match fault {
        RowFault::Form(place) => Status::Form(place),
        RowFault::Memory => Status::Memory,
    }
}

/// The page of the bytes of a plan.
fn page_of(alloc: Global, bytes: &[u8]) -> Result<Bytes, Status>
    ensures page { IfOk result (λ page. spec.IsPage bytes.now page) }
    ensures cause { IfErr result (λ status. spec.IsRefused bytes.now status) }
{
    let tables = match read_file(alloc, bytes, MOST) {
        Ok(tables) => tables,
        Err(fault) => return Err(status_of_text_fault(fault)),
    };
    match chart(alloc, tables.as_slice()) {
        Ok(page) => Ok(page),
        Err(fault) => Err(status_of_row_fault(fault)),
    }
}

/// The status for a file that is not read.
fn status_of_read(refusal: ReadRefusal) -> Status
    ensures { result ≡ spec.read_status refusal }
{
    match refusal {
        ReadRefusal::Fault => Status::ReadFault,
        ReadRefusal::TooLarge => Status::Text(TextFault {
            line: 0,
            kind: TextKind::TooLarge,
        }),
        ReadRefusal::Memory => Status::Memory,
    }
}

/// The page of the plan in a file.
fn answer<F: Files>(alloc: Global, files: &mut F, name: &[u8]) -> Result<Bytes, Status>
    ensures page { IfOk result (λ page. IfSome (F.held files.old name.now) (λ bytes. spec.IsPage bytes page)) }
    ensures cause { IfErr result (λ status. spec.IsCause (F.held files.old name.now) (F.faults files.old name.now) (F.faults files.new name.now) status) }
    ensures same { (other : List ℕ) → F.held files.new other ≡ F.held files.old other }
{
    let bytes = match read_whole(alloc, files, name, MOST) {
        Ok(bytes) => bytes,
        Err(refusal) => return Err(status_of_read(refusal)),
    };
    page_of(alloc, bytes.as_slice())
}

/// Writes the page, and tells how that went.
fn write_page<O: Sink>(out: &mut O, page: &[u8]) -> Status
    ensures { spec.IsWritten (O.taken out.old) (O.taken out.new) (O.faults out.old) (O.faults out.new) page.now result }
{
    match write_whole(out, page) {
        Ok(()) => Status::Ok,
        Err(_) => Status::WriteFault,
    }
}

/// Draws the plan in a file, without a word on standard error.
fn draw_file<F: Files, O: Sink>(alloc: Global, name: &[u8], files: &mut F, out: &mut O) -> Status
    ensures right { result ≢ Status.Usage }
    ensures text { (fault : FaultOfText) → result ≡ Status.Text fault → IfSome (F.held files.old name.now) (λ bytes. spec.IsRefusal bytes (Status.Text fault)) }
    ensures form { (place : PlaceOfTable) → result ≡ Status.Form place → IfSome (F.held files.old name.now) (λ bytes. spec.IsRefusal bytes (Status.Form place)) }
    ensures read_fault { result ≡ Status.ReadFault → Rose (F.faults files.old name.now) (F.faults files.new name.now) }
    ensures write_fault { result ≡ Status.WriteFault → Rose (O.faults out.old) (O.faults out.new) }
    ensures ok { result ≡ Status.Ok → IfSome (F.held files.old name.now) (λ bytes. IfSome (O.taken out.old) (spec.TakesPage bytes (O.taken out.new))) }
    ensures front { result ≡ Status.WriteFault → IfSome (F.held files.old name.now) (λ bytes. IfSome (O.taken out.old) (spec.TakesFrontOfPage bytes (O.taken out.new))) }
    ensures nothing { result ≢ Status.Ok → result ≢ Status.WriteFault → out.new ≡ out.old }
    ensures same { (other : List ℕ) → F.held files.new other ≡ F.held files.old other }
{
    match answer(alloc, files, name) {
        Ok(page) => write_page(out, page.as_slice()),
        Err(status) => status,
    }
}

/// The same, for the file that the words ask for.
fn answer_words<F: Files, O: Sink>(
    alloc: Global,
    words: &[Bytes],
    files: &mut F,
    out: &mut O,
) -> Status
    ensures usage { (result ≡ Status.Usage) ↔ (asked_by words.now ≡ None) }
    ensures text { (fault : FaultOfText) → result ≡ Status.Text fault → IfSome (asked_by words.now) (λ name. IfSome (F.held files.old name) (λ bytes. spec.IsRefusal bytes (Status.Text fault))) }
    ensures form { (place : PlaceOfTable) → result ≡ Status.Form place → IfSome (asked_by words.now) (λ name. IfSome (F.held files.old name) (λ bytes. spec.IsRefusal bytes (Status.Form place))) }
    ensures read_fault { result ≡ Status.ReadFault → IfSome (asked_by words.now) (λ name. Rose (F.faults files.old name) (F.faults files.new name)) }
    ensures write_fault { result ≡ Status.WriteFault → Rose (O.faults out.old) (O.faults out.new) }
    ensures ok { result ≡ Status.Ok → IfSome (asked_by words.now) (λ name. IfSome (F.held files.old name) (λ bytes. IfSome (O.taken out.old) (spec.TakesPage bytes (O.taken out.new)))) }
    ensures front { result ≡ Status.WriteFault → IfSome (asked_by words.now) (λ name. IfSome (F.held files.old name) (λ bytes. IfSome (O.taken out.old) (spec.TakesFrontOfPage bytes (O.taken out.new)))) }
    ensures nothing { result ≢ Status.Ok → result ≢ Status.WriteFault → out.new ≡ out.old }
    ensures same { (other : List ℕ) → F.held files.new other ≡ F.held files.old other }
{
    match asked(words) {
        Some(name) => draw_file(alloc, name, files, out),
        None => Status::Usage,
    }
}

/// Writes the line of a refusal.
fn tell_refusal<E: Sink>(err: &mut E, status: Status)
    ensures quiet { status ≡ Status.Ok → err.new ≡ err.old }
    ensures line { status ≢ Status.Ok → IsTold (E.taken err.old) (E.taken err.new) (E.faults err.old) (E.faults err.new) (line_of status) }
{
    match status {
        Status::Ok => {}
        refusal => tell(err, refusal),
    }
}

/// Draws the plan in the file that the words ask for: writes to `out` one page of HTML.
///
/// `words` has no program name. They are the name of a file, or `--` and the name of a file. The file is the text of a plan, such as the
/// planner writes. Nothing is written before the whole page is made. A refusal writes one line to `err`; a write that fails there changes
/// no status.
pub fn run<F: Files, O: Sink, E: Sink>(
    alloc: Global,
    words: &[Bytes],
    files: &mut F,
    out: &mut O,
    err: &mut E,
) -> Status
    // The words are wrong exactly where that is answered.
    ensures usage { (result ≡ Status.Usage) ↔ (asked_by words.now ≡ None) }

    // A refusal has its cause in what the file holds, and a fault of the outside in a count that rose.
    ensures text { (fault : FaultOfText) → result ≡ Status.Text fault → IfSome (asked_by words.now) (λ name. IfSome (F.held files.old name) (λ bytes. spec.IsRefusal bytes (Status.Text fault))) }
    ensures form { (place : PlaceOfTable) → result ≡ Status.Form place → IfSome (asked_by words.now) (λ name. IfSome (F.held files.old name) (λ bytes. spec.IsRefusal bytes (Status.Form place))) }
    ensures read_fault { result ≡ Status.ReadFault → IfSome (asked_by words.now) (λ name. Rose (F.faults files.old name) (F.faults files.new name)) }
    ensures write_fault { result ≡ Status.WriteFault → Rose (O.faults out.old) (O.faults out.new) }

    // What the sink took: the whole page and nothing else, an initial part of it, or nothing.
    ensures ok { result ≡ Status.Ok → IfSome (asked_by words.now) (λ name. IfSome (F.held files.old name) (λ bytes. IfSome (O.taken out.old) (spec.TakesPage bytes (O.taken out.new)))) }
    ensures front { result ≡ Status.WriteFault → IfSome (asked_by words.now) (λ name. IfSome (F.held files.old name) (λ bytes. IfSome (O.taken out.old) (spec.TakesFrontOfPage bytes (O.taken out.new)))) }
    ensures nothing { result ≢ Status.Ok → result ≢ Status.WriteFault → out.new ≡ out.old }
    ensures same { (other : List ℕ) → F.held files.new other ≡ F.held files.old other }

    // Standard error: nothing with Ok, and with a refusal its line, whole unless a write there failed.
    ensures quiet { result ≡ Status.Ok → err.new ≡ err.old }
    ensures line { result ≢ Status.Ok → IsTold (E.taken err.old) (E.taken err.new) (E.faults err.old) (E.faults err.new) (line_of result) }
{
    let status = answer_words(alloc, words, files, out);
    tell_refusal(err, status);
    status
}
