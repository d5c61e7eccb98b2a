//! What a request is answered: the text of its command, from the files that it names.

ghost use Rattle.std.specs.Prelude.{◌≡◌, ◌≢◌, ◌≤◌, ◌<◌, ◌^◌, ◌⊎◌, ◌++◌, ℕ, List, Some, None, All, IsTrue, IfOk, IfErr, IfSome, IsSomeAnd, IsErrOf, MatchResult, length, false, true};
ghost use Rattle.plan_core.specs.Outside.{Rose};
ghost use Rattle.vdv451_text.specs.Plain.{are_plain};
ghost use Rattle.cover_core.specs.declared.Plan.{Plan as RunPlan};
ghost use Rattle.day_calendar.specs.declared.day.DayFault.{DayFault as FaultOfDay};
ghost use Rattle.planner_run.specs.declared.status.InputFault.{InputFault as RunFault};
ghost use Rattle.day_method.specs.declared.side.Side.{Side as RunSide};
ghost use Rattle.plan_command.specs.declared.fault.ItemName.{ItemName as RunName};
ghost use Rattle.planner_run.specs.declared.status.Status.{Status as RunStatus};
ghost use Rattle.cert_check.specs.declared.reason.Reason.{Reason as RunReason};
ghost use Rattle.price_rounds.specs.Efforts.{IsEffort};
ghost use Rattle.command_words.specs.Words.{HasFewTrips, HasNames};
ghost use Rattle.input_files.specs.Inputs.{IsReadFault, NoneRose, held_under};
ghost use Rattle.cover_plan.specs.Endings.{numbers_of};
ghost use Rattle.planner_run.specs.Endings.{is_done};
ghost use Rattle.planner_run.specs.ReplanText.{IsReplanRefused, IsReplanText};
ghost use Rattle.planner_run.specs.Run.{ArePartsRefused, HasParts, IsAnswer, IsAnswerCause, IsEndingOf, IsRefusal, IsRefused, IsText, IsUnread, IsWhole, IsWritten, TakesAnswer, TakesFrontOfAnswer, checks, climbs, file_status as file_status_of, is_open, names_for, stage_of, told, told_for};
ghost use Rattle.planner_run.specs.Tasks.{is_check as is_check_of, reads_plan as reads_plan_of, replan_moment as replan_moment_of, task_of};

use crate::certify::certificate_text;
use crate::check::check_text;
use crate::day::day_text;
use crate::made::made_text;
use crate::outcome::Outcome;
use crate::plan::plan_text;
use crate::replan::replan_text;
use crate::status::{InputFault, Status};
use crate::trips::trips_text;
use crate::week::week_text;
use command_words::{Command, Request};
use input_files::{
    CheckParts, EarlierParts, FileFault, MOST_BYTES, Stage, join_tables, read_files, split_earlier,
    split_plan, write_whole,
};
use plan_command::Method;
use plan_core::{Bytes, Files, Gate, Memory, Seq, Sink};
use std::alloc::Global;
use std::thread::Threads;
use vdv451_text::Table;

/// Whether a plan and a certificate are checked.
fn is_check(command: Command) -> bool
    ensures { result ≡ is_check_of command }
{
    matches!(command, Command::Check)
}

/// Whether a plan is read behind the planning files.
fn reads_plan(command: Command) -> bool
    ensures { result ≡ reads_plan_of command }
{
    matches!(command, Command::Check | Command::Replan { .. })
}

/// The moment from which a command plans a day anew.
fn replan_moment(command: Command) -> Option<u32>
    ensures { result ≡ replan_moment_of command }
{
    match command {
        Command::Replan { moment } => Some(moment),
        _ => None,
    }
}

/// How a day is planned by a request.
fn method_of(request: &Request) -> Method
    ensures { result ≡ record { effort = request.now.effort; flow = request.now.flow } }
{
    Method {
        effort: request.effort,
        flow: request.flow,
    }
}

/// The text of a command for a day, from the tables of all files.
fn text_of<R: Threads + Sync, G: Gate + Sync>(
    rt: &R,
    alloc: Global,
    request: &Request,
    tables: Seq<Table>,
    gate: &G,
) -> Result<Bytes, Status>
    requires plain { IsTrue (are_plain tables) }
    requires sized { All (λ table. length table.rows < 2 ^ 32) tables }
    requires effort { IsEffort request.now.effort }
    requires trips { HasFewTrips request.now.command }
    requires text { reads_plan_of request.now.command ≡ false }
    ensures written { IfOk result (IsText (task_of request.now) tables request.now.day) }
    ensures cause { IfErr result (IsRefused (task_of request.now) tables request.now.day) }
{
    let method = method_of(request);
    match request.command {
        Command::Trips => trips_text(alloc, tables.as_slice(), request.day),
        Command::Day => day_text(alloc, tables.as_slice(), request.day),
        Command::Plan => plan_text(rt, alloc, tables, request.day, &method, gate),
        Command::Certify => certificate_text(rt, alloc, tables, request.day, &method, gate),
        Command::Check => unreachable!(),
        Command::Replan { .. } => unreachable!(),
        Command::Week => week_text(alloc, tables.as_slice()),
        Command::Make(making) => {
            made_text(rt, alloc, making, request.day, &request.effort, gate)
        }
    }
}

/// The text of a command for a day, from the tables of all files, which ends with Ok.
fn ended_text<R: Threads + Sync, G: Gate + Sync>(
    rt: &R,
    alloc: Global,
    request: &Request,
    tables: Seq<Table>,
    gate: &G,
) -> Result<Outcome, Status>
    requires plain { IsTrue (are_plain tables) }
    requires sized { All (λ table. length table.rows < 2 ^ 32) tables }
    requires effort { IsEffort request.now.effort }
    requires trips { HasFewTrips request.now.command }
    requires text { reads_plan_of request.now.command ≡ false }
    ensures written { IfOk result (λ outcome. IsText (task_of request.now) tables request.now.day outcome.text × (outcome.ending ≡ Status.Ok)) }
    ensures cause { IfErr result (IsRefused (task_of request.now) tables request.now.day) }
{
    match text_of(rt, alloc, request, tables, gate) {
        Ok(text) => Ok(Outcome {
            text,
            ending: Status::Ok,
        }),
        Err(status) => Err(status),
    }
}

/// The line of a check, from the tables of the planning files, of a plan and of a certificate.
fn checked_outcome(
    alloc: Global,
    request: &Request,
    parts: Seq<Seq<Table>>,
) -> Result<Outcome, Status>
    requires plain { All (λ tables. IsTrue (are_plain tables)) parts }
    requires sized { All (λ tables. All (λ table. length table.rows < 2 ^ 32) tables) parts }
    requires check { is_check_of request.now.command ≡ true }
    requires number { HasParts (task_of request.now) (length parts) }
    ensures written { IfOk result (λ outcome. IsWhole (task_of request.now) parts request.now.day outcome.ending outcome.text) }
    ensures cause { IfErr result (ArePartsRefused (task_of request.now) parts request.now.day) }
{
    let CheckParts {
        planning,
        plan,
        cert,
    } = split_plan(parts);
    match join_tables(alloc, planning) {
        Ok(tables) => check_text(
            alloc,
            Seq::from_vec(tables),
            plan.as_slice(),
            cert.as_slice(),
            request.day,
        ),
        Err(Memory) => Err(Status::Memory),
    }
}

/// The text of the new plan of a day, from the tables of the planning files and of an earlier plan, which ends with Ok.
fn replanned_text<R: Threads + Sync, G: Gate + Sync>(
    rt: &R,
    alloc: Global,
    request: &Request,
    moment: u32,
    tables: Seq<Table>,
    old: &[Table],
    gate: &G,
) -> Result<Outcome, Status>
    requires plain { IsTrue (are_plain tables) }
    requires sized { All (λ table. length table.rows < 2 ^ 32) tables }
    requires old { All (λ table. length table.rows < 2 ^ 32) old.now }
    requires effort { IsEffort request.now.effort }
    ensures written { IfOk result (λ outcome. IsReplanText (numbers_of request.now.effort) moment tables old.now request.now.day outcome.text × (outcome.ending ≡ Status.Ok)) }
    ensures cause { IfErr result (IsReplanRefused (numbers_of request.now.effort) moment tables old.now request.now.day) }
{
    match replan_text(
        rt,
        alloc,
        tables,
        old,
        request.day,
        moment,
        &request.effort,
        gate,
    ) {
        Ok(text) => Ok(Outcome {
            text,
            ending: Status::Ok,
        }),
        Err(status) => Err(status),
    }
}

/// The text of the new plan of a day from a moment on, from the tables of each file, or why there is none.
fn replanned_outcome<R: Threads + Sync, G: Gate + Sync>(
    rt: &R,
    alloc: Global,
    request: &Request,
    moment: u32,
    parts: Seq<Seq<Table>>,
    gate: &G,
) -> Result<Outcome, Status>
    requires plain { All (λ tables. IsTrue (are_plain tables)) parts }
    requires sized { All (λ tables. All (λ table. length table.rows < 2 ^ 32) tables) parts }
    requires effort { IsEffort request.now.effort }
    requires replan { replan_moment_of request.now.command ≡ Some moment }
    requires number { HasParts (task_of request.now) (length parts) }
    ensures written { IfOk result (λ outcome. IsWhole (task_of request.now) parts request.now.day outcome.ending outcome.text) }
    ensures cause { IfErr result (ArePartsRefused (task_of request.now) parts request.now.day) }
{
    let EarlierParts { planning, plan } = split_earlier(parts);
    match join_tables(alloc, planning) {
        Ok(tables) => replanned_text(
            rt,
            alloc,
            request,
            moment,
            Seq::from_vec(tables),
            plan.as_slice(),
            gate,
        ),
        Err(Memory) => Err(Status::Memory),
    }
}

/// The text of each other command, from the tables of the planning files.
fn text_outcome<R: Threads + Sync, G: Gate + Sync>(
    rt: &R,
    alloc: Global,
    request: &Request,
    parts: Seq<Seq<Table>>,
    gate: &G,
) -> Result<Outcome, Status>
    requires plain { All (λ tables. IsTrue (are_plain tables)) parts }
    requires sized { All (λ tables. All (λ table. length table.rows < 2 ^ 32) tables) parts }
    requires effort { IsEffort request.now.effort }
    requires trips { HasFewTrips request.now.command }
    requires text { reads_plan_of request.now.command ≡ false }
    ensures written { IfOk result (λ outcome. IsWhole (task_of request.now) parts request.now.day outcome.ending outcome.text) }
    ensures cause { IfErr result (ArePartsRefused (task_of request.now) parts request.now.day) }
{
    match join_tables(alloc, parts) {
        Ok(tables) => ended_text(rt, alloc, request, Seq::from_vec(tables), gate),
        Err(Memory) => Err(Status::Memory),
    }
}

/// The text of a request from the tables of each file, or why there is none.
fn outcome_of<R: Threads + Sync, G: Gate + Sync>(
    rt: &R,
    alloc: Global,
    request: &Request,
    parts: Seq<Seq<Table>>,
    gate: &G,
) -> Result<Outcome, Status>
    requires plain { All (λ tables. IsTrue (are_plain tables)) parts }
    requires sized { All (λ tables. All (λ table. length table.rows < 2 ^ 32) tables) parts }
    requires effort { IsEffort request.now.effort }
    requires trips { HasFewTrips request.now.command }
    requires number { HasParts (task_of request.now) (length parts) }
    ensures written { IfOk result (λ outcome. IsWhole (task_of request.now) parts request.now.day outcome.ending outcome.text) }
    ensures cause { IfErr result (ArePartsRefused (task_of request.now) parts request.now.day) }
{
    if is_check(request.command) {
        return checked_outcome(alloc, request, parts);
    }
    match replan_moment(request.command) {
        Some(moment) => replanned_outcome(rt, alloc, request, moment, parts, gate),
        None => text_outcome(rt, alloc, request, parts, gate),
    }
}

/// The status for a file that is refused.
fn file_status(fault: FileFault) -> Status
    ensures { result ≡ file_status_of fault }
{
    match fault {
        FileFault::Text { file, fault } => Status::Input(InputFault::Text { file, fault }),
        FileFault::Read { file } => Status::ReadFault { file },
        FileFault::Memory => Status::Memory,
    }
}

/// What the first file of a request is, and how many planning files come after it before a plan and a certificate, or before an earlier plan.
fn first_stage(request: &Request) -> Stage
    requires { HasNames request.now.command (length request.now.names) }
    ensures { result ≡ stage_of (task_of request.now) }
{
    let more = if is_check(request.command) {
        request.names.len() as u32 - 3
    } else if reads_plan(request.command) {
        request.names.len() as u32 - 2
    } else {
        63
    };
    Stage::Planning {
        more,
        left: MOST_BYTES,
    }
}

/// The text of a request from the files with these names, of which the first is this, or why there is none.
fn answer_of<R: Threads + Sync, F: Files, G: Gate + Sync>(
    rt: &R,
    alloc: Global,
    files: &mut F,
    request: &Request,
    names: &[Bytes],
    stage: Stage,
    gate: &G,
) -> Result<Outcome, Status>
    requires few { length names.now ≤ 66 }
    requires stage { stage ≡ stage_of (task_of request.now) }
    requires number { HasParts (task_of request.now) (length names.now) }
    requires effort { IsEffort request.now.effort }
    requires trips { HasFewTrips request.now.command }
    ensures written { IfOk result (λ outcome. IfSome (held_under (F.held files.old) names.now) (λ contents. IsAnswer (task_of request.now) contents request.now.day outcome.ending outcome.text)) }
    ensures ending { IfOk result (λ outcome. IsEndingOf (task_of request.now) outcome.ending) }
    ensures cause { IfErr result (IsAnswerCause (λ status. IfSome (told_for (F.held files.old) names.now status) (λ contents. IsRefusal (task_of request.now) contents request.now.day status)) (IsReadFault (stage_of (task_of request.now)) (F.held files.old) names.now (F.faults files.old) (F.faults files.new))) }
    ensures refused { (status : RunStatus) → is_open (task_of request.now) status ≡ false → IfSome (told_for (F.held files.old) names.now status) (λ contents. IsRefusal (task_of request.now) contents request.now.day status → MatchResult result (λ _. ⊥) (λ answer. IsUnread answer ⊎ (answer ≡ status))) }
    ensures complete { (end : RunStatus) (bytes : List ℕ) → climbs (task_of request.now) ≡ false → IfSome (held_under (F.held files.old) names.now) (λ contents. IsAnswer (task_of request.now) contents request.now.day end bytes → MatchResult result (λ _. Unit {0}) IsUnread) }
    ensures still { ((file : ℕ) → ¬ IsErrOf result (Status.ReadFault file)) → (other : List ℕ) → F.faults files.new other ≡ F.faults files.old other }
    ensures same { (other : List ℕ) → F.held files.new other ≡ F.held files.old other }
{
    match read_files(alloc, files, names, stage) {
        Ok(parts) => outcome_of(rt, alloc, request, parts, gate),
        Err(fault) => Err(file_status(fault)),
    }
}

/// The text of a request, or why there is none.
fn answer<R: Threads + Sync, F: Files, G: Gate + Sync>(
    rt: &R,
    alloc: Global,
    files: &mut F,
    request: &Request,
    gate: &G,
) -> Result<Outcome, Status>
    requires names { HasNames request.now.command (length request.now.names) }
    requires effort { IsEffort request.now.effort }
    requires trips { HasFewTrips request.now.command }
    ensures written { IfOk result (λ outcome. IfSome (told (F.held files.old) request.now) (λ contents. IsAnswer (task_of request.now) contents request.now.day outcome.ending outcome.text)) }
    ensures ending { IfOk result (λ outcome. IsEndingOf (task_of request.now) outcome.ending) }
    ensures cause { IfErr result (IsAnswerCause (λ status. IfSome (told_for (F.held files.old) request.now.names status) (λ contents. IsRefusal (task_of request.now) contents request.now.day status)) (IsReadFault (stage_of (task_of request.now)) (F.held files.old) request.now.names (F.faults files.old) (F.faults files.new))) }

    // What the files call for is answered, unless memory runs out or a read fails; but for which plan or refusal of planning climbing ends
    // with.
    ensures refused { (status : RunStatus) → is_open (task_of request.now) status ≡ false → IfSome (told_for (F.held files.old) request.now.names status) (λ contents. IsRefusal (task_of request.now) contents request.now.day status → MatchResult result (λ _. ⊥) (λ answer. IsUnread answer ⊎ (answer ≡ status))) }
    ensures complete { (end : RunStatus) (bytes : List ℕ) → climbs (task_of request.now) ≡ false → IfSome (told (F.held files.old) request.now) (λ contents. IsAnswer (task_of request.now) contents request.now.day end bytes → MatchResult result (λ _. Unit {0}) IsUnread) }
    ensures still { ((file : ℕ) → ¬ IsErrOf result (Status.ReadFault file)) → (other : List ℕ) → F.faults files.new other ≡ F.faults files.old other }
    ensures same { (other : List ℕ) → F.held files.new other ≡ F.held files.old other }
{
    answer_of(
        rt,
        alloc,
        files,
        request,
        request.names.as_slice(),
        first_stage(request),
        gate,
    )
}

/// Writes the text of a command, and tells how that went.
fn write_outcome<O: Sink>(out: &mut O, outcome: Outcome) -> Status
    requires { is_done outcome.ending ≡ true }
    ensures written { IsWritten (O.taken out.old) (O.taken out.new) (O.faults out.old) (O.faults out.new) outcome.text outcome.ending result }
    ensures unmoved { result ≢ Status.WriteFault → O.faults out.new ≡ O.faults out.old }
{
    let Outcome { text, ending } = outcome;
    match write_whole(out, text.as_slice()) {
        Ok(()) => ending,
        Err(_) => Status::WriteFault,
    }
}

/// Carries out a request: writes the text of its command once all of it is computed.
pub fn carry_out<R: Threads + Sync, F: Files, O: Sink, G: Gate + Sync>(
    rt: &R,
    alloc: Global,
    request: &Request,
    files: &mut F,
    out: &mut O,
    gate: &G,
) -> Status
    requires names { HasNames request.now.command (length request.now.names) }
    requires effort { IsEffort request.now.effort }
    requires trips { HasFewTrips request.now.command }
    ensures right { result ≢ Status.Usage }

    // A refusal has its cause in what the files hold, and a fault of the outside in a count that rose.
    ensures input { (fault : RunFault) → result ≡ Status.Input fault → IfSome (told_for (F.held files.old) request.now.names (Status.Input fault)) (λ contents. IsRefusal (task_of request.now) contents request.now.day (Status.Input fault)) }
    ensures day { (fault : FaultOfDay) → result ≡ Status.Day fault → IfSome (told (F.held files.old) request.now) (λ contents. IsRefusal (task_of request.now) contents request.now.day (Status.Day fault)) }
    ensures no_plan { (side : RunSide) (bound places : ℕ) → result ≡ Status.NoPlan side bound places → IfSome (told (F.held files.old) request.now) (λ contents. IsRefusal (task_of request.now) contents request.now.day (Status.NoPlan side bound places)) }
    ensures left { (side : RunSide) (item : ℕ) (name : RunName) (partial : RunPlan) → result ≡ Status.NotPlaced side item name partial → IfSome (told (F.held files.old) request.now) (λ contents. IsRefusal (task_of request.now) contents request.now.day (Status.NotPlaced side item name partial)) }
    ensures old_plan { (reason : RunReason) → result ≡ Status.OldPlan reason → IfSome (told (F.held files.old) request.now) (λ contents. IsRefusal (task_of request.now) contents request.now.day (Status.OldPlan reason)) }
    ensures read_fault { (file : ℕ) → result ≡ Status.ReadFault file → IsReadFault (stage_of (task_of request.now)) (F.held files.old) request.now.names (F.faults files.old) (F.faults files.new) file }
    ensures write_fault { result ≡ Status.WriteFault → Rose (O.faults out.old) (O.faults out.new) }

    // What the sink took: the whole text, an initial part of it, or nothing. Only a check ends with a no.
    ensures ok { is_done result ≡ true → IfSome (told (F.held files.old) request.now) (λ contents. IfSome (O.taken out.old) (TakesAnswer (task_of request.now) contents request.now.day result (O.taken out.new))) }
    ensures front { result ≡ Status.WriteFault → IfSome (told (F.held files.old) request.now) (λ contents. IfSome (O.taken out.old) (TakesFrontOfAnswer (task_of request.now) contents request.now.day (O.taken out.new))) }
    ensures only { (end : RunStatus) (bytes : List ℕ) → result ≡ Status.Ok → climbs (task_of request.now) ≡ false → checks (task_of request.now) ≡ false
        → IfSome (told (F.held files.old) request.now) (λ contents. IsAnswer (task_of request.now) contents request.now.day end bytes → IfSome (O.taken out.old) (λ old. O.taken out.new ≡ Some (old ++ bytes))) }
    ensures nothing { is_done result ≡ false → result ≢ Status.WriteFault → out.new ≡ out.old }
    ensures ending { is_done result ≡ true → IsEndingOf (task_of request.now) result }

    // A count of faults moves only with the answer of that fault, and the files hold what they held.
    ensures still { ((file : ℕ) → result ≢ Status.ReadFault file) → (other : List ℕ) → F.faults files.new other ≡ F.faults files.old other }
    ensures same { (other : List ℕ) → F.held files.new other ≡ F.held files.old other }
    ensures unmoved { result ≢ Status.WriteFault → O.faults out.new ≡ O.faults out.old }

    // Where no count rises, what the files call for is answered, or running out of memory; but for which plan or refusal of planning
    // climbing ends with.
    ensures refused { (status : RunStatus) → is_open (task_of request.now) status ≡ false → IsSomeAnd (told_for (F.held files.old) request.now.names status) (λ contents. IsRefusal (task_of request.now) contents request.now.day status)
        → NoneRose (names_for request.now.names status) (F.faults files.old) (F.faults files.new) → (result ≡ status) ⊎ (result ≡ Status.Memory) }
    ensures complete { climbs (task_of request.now) ≡ false → IsSomeAnd (told (F.held files.old) request.now) (λ contents. (end : RunStatus) × (bytes : List ℕ) × IsAnswer (task_of request.now) contents request.now.day end bytes)
        → NoneRose request.now.names (F.faults files.old) (F.faults files.new) → ¬ Rose (O.faults out.old) (O.faults out.new)
        → (is_done result ≡ true) ⊎ (result ≡ Status.Memory) }
{
    match answer(rt, alloc, files, request, gate) {
        Ok(outcome) => write_outcome(out, outcome),
        Err(status) => status,
    }
}
