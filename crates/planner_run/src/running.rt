//! The top call.

ghost use Rattle.std.specs.Prelude.{◌≡◌, ◌≢◌, ◌↔◌, ◌⊎◌, ◌++◌, ℕ, List, Some, None, IfSome, IsSomeAnd, false, true};
ghost use Rattle.plan_core.specs.Outside.{Rose};
ghost use Rattle.cert_check.specs.declared.reason.Reason.{Reason as RunReason};
ghost use Rattle.day_method.specs.declared.side.Side.{Side as RunSide};
ghost use Rattle.plan_command.specs.declared.fault.ItemName.{ItemName as RunName};
ghost use Rattle.planner_run.specs.declared.status.Status.{Status as RunStatus};
ghost use Rattle.planner_run.specs.declared.status.InputFault.{InputFault as RunFault};
ghost use Rattle.command_words.specs.declared.request.Request.{Request as RunRequest};
ghost use Rattle.cover_core.specs.declared.Plan.{Plan as RunPlan};
ghost use Rattle.day_calendar.specs.declared.day.DayFault.{DayFault as FaultOfDay};
ghost use Rattle.input_files.specs.Inputs.{IsReadFault, NoneRose};
ghost use Rattle.input_files.specs.Lines.{IsTold};
ghost use Rattle.planner_run.specs.Endings.{is_done};
ghost use Rattle.planner_run.specs.Lines.{line_of};
ghost use Rattle.planner_run.specs.MadeEnds.{IsMadeEnding};
ghost use Rattle.planner_run.specs.Run.{IsAnswer, IsEndingOf, IsRefusal, TakesAnswer, TakesFrontOfAnswer, checks, climbs, is_open, names_for, stage_of, told, told_for};
ghost use Rattle.planner_run.specs.Tasks.{task_of};
ghost use Rattle.command_words.specs.MadeRequests.{makes};
ghost use Rattle.command_words.specs.Words.{asked, day_said};

use crate::answer::carry_out;
use crate::lines::tell;
use crate::status::Status;
use command_words::{WordsFault, day_word, read_words};
use plan_core::{Bytes, Files, Gate, Sink};
use std::alloc::Global;
use std::thread::Threads;

/// Writes the line of a refusal.
fn tell_refusal<E: Sink>(err: &mut E, words: &[Bytes], status: &Status)
    ensures quiet { is_done status.now ≡ true → err.new ≡ err.old }
    ensures line { is_done status.now ≡ false → IsTold (E.taken err.old) (E.taken err.new) (E.faults err.old) (E.faults err.new) (line_of (day_said words.now) status.now) }
{
    if !status.is_done() {
        tell(err, day_word(words), status);
    }
}

/// Carries out the command that the words say, over the files and sinks that are handed in.
///
/// `words` has no program name. The command `trips DAY FILE..` writes to `out` the table REC_FRT with the rows of the day's trips,
/// unchanged, by departure and number; `day DAY FILE..` writes X_TAG and X_FAHRT, what the day is and when and how far its trips go; `plan
/// DAY FILE..` plans the day: vehicle blocks of its trips, each trip in exactly one block of one pool within its vehicles; driver duties
/// over the pieces that the blocks are cut into, each piece in exactly one duty that keeps articles 6 to 8 of Regulation (EC) 561/2006;
/// their costs; and bounds that no plan of blocks, and no lawful plan of duties over these pieces, lies below. It writes REC_UMLAUF,
/// REC_FRT, X_UMLAUF, X_UMLAUF_TEIL, X_DIENST, X_DIENST_STUECK and X_SCHRANKE. `make SEED` makes a day from a number and writes its
/// tables, or with `--run` plans it and writes X_KURZ and X_SCHRANKE; it reads no file. `week ROSTER` reads a roster and writes X_URTEIL:
/// what articles 6 and 8 deny of its duties, each denial once, in order. `certify DAY FILE..` writes the certificate of the plan that
/// `plan` writes with the same words: X_PREIS, X_KLASSENPREIS, X_MARKE and X_UMARKE. `check DAY PLAN CERT FILE..` reads the planning
/// files, then a plan and a certificate, and writes `yes` where both hold, or else `no` with number and name of the first reason, and then
/// it ends with CheckNo. `replan DAY MOMENT PLAN FILE..` reads the planning files, then a plan of the day, keeps of its blocks and duties
/// what has begun before the moment, in seconds of the operating day, plans the rest anew, and writes the tables that `plan` writes; the
/// bounds are on all plans that keep as much. Where PLAN is no plan of the day it ends with OldPlan. Each text is the same for any number
/// of workers, any `rt` and any `gate`; with `--climb`, which finds plan and bounds by the other method, all is promised but that. Nothing
/// is written before the whole text is computed. A refusal writes one line to `err`; a write that fails there changes no status.
pub fn run<R: Threads + Sync, F: Files, O: Sink, E: Sink, G: Gate + Sync>(
    rt: &R,
    alloc: Global,
    words: &[Bytes],
    files: &mut F,
    out: &mut O,
    err: &mut E,
    gate: &G,
) -> Status
    // The words are wrong exactly where that is answered.
    ensures usage { (result ≡ Status.Usage) ↔ (asked words.now ≡ None) }

    // A refusal has its cause in what the files hold, one of text in the files up to its own, and a fault of the outside in a count
    // that rose; a read fault comes only where the files before it are right.
    ensures input { (fault : RunFault) → result ≡ Status.Input fault → IfSome (asked words.now) (λ request. IfSome (told_for (F.held files.old) request.names (Status.Input fault)) (λ contents. IsRefusal (task_of request) contents request.day (Status.Input fault))) }
    ensures day { (fault : FaultOfDay) → result ≡ Status.Day fault → IfSome (asked words.now) (λ request. IfSome (told (F.held files.old) request) (λ contents. IsRefusal (task_of request) contents request.day (Status.Day fault))) }
    ensures no_plan { (side : RunSide) (bound places : ℕ) → result ≡ Status.NoPlan side bound places → IfSome (asked words.now) (λ request. IfSome (told (F.held files.old) request) (λ contents. IsRefusal (task_of request) contents request.day (Status.NoPlan side bound places))) }
    ensures left { (side : RunSide) (item : ℕ) (name : RunName) (partial : RunPlan) → result ≡ Status.NotPlaced side item name partial → IfSome (asked words.now) (λ request. IfSome (told (F.held files.old) request) (λ contents. IsRefusal (task_of request) contents request.day (Status.NotPlaced side item name partial))) }
    ensures old_plan { (reason : RunReason) → result ≡ Status.OldPlan reason → IfSome (asked words.now) (λ request. IfSome (told (F.held files.old) request) (λ contents. IsRefusal (task_of request) contents request.day (Status.OldPlan reason))) }
    ensures read_fault { (file : ℕ) → result ≡ Status.ReadFault file → IfSome (asked words.now) (λ request. IsReadFault (stage_of (task_of request)) (F.held files.old) request.names (F.faults files.old) (F.faults files.new) file) }
    ensures write_fault { result ≡ Status.WriteFault → Rose (O.faults out.old) (O.faults out.new) }

    // What the sink took: the whole text, and no other unless a plan is found by climbing or checked; an initial part of it; or nothing.
    // Only a check ends with a no.
    ensures ok { is_done result ≡ true → IfSome (asked words.now) (λ request. IfSome (told (F.held files.old) request) (λ contents. IfSome (O.taken out.old) (TakesAnswer (task_of request) contents request.day result (O.taken out.new)))) }
    ensures front { result ≡ Status.WriteFault → IfSome (asked words.now) (λ request. IfSome (told (F.held files.old) request) (λ contents. IfSome (O.taken out.old) (TakesFrontOfAnswer (task_of request) contents request.day (O.taken out.new)))) }
    ensures only { (request : RunRequest) (end : RunStatus) (bytes : List ℕ) → result ≡ Status.Ok → asked words.now ≡ Some request → climbs (task_of request) ≡ false → checks (task_of request) ≡ false
        → IfSome (told (F.held files.old) request) (λ contents. IsAnswer (task_of request) contents request.day end bytes → IfSome (O.taken out.old) (λ old. O.taken out.new ≡ Some (old ++ bytes))) }
    ensures nothing { is_done result ≡ false → result ≢ Status.WriteFault → out.new ≡ out.old }
    ensures ending { is_done result ≡ true → IfSome (asked words.now) (λ request. IsEndingOf (task_of request) result) }

    // A day that is made has a plan, whatever the seed: nothing but running out of memory and a write that fails keeps its text back.
    ensures made { (request : RunRequest) → asked words.now ≡ Some request → makes request.command ≡ true → IsMadeEnding result }

    // A count of faults moves only with the answer of that fault, and the files hold what they held.
    ensures still { ((file : ℕ) → result ≢ Status.ReadFault file) → (other : List ℕ) → F.faults files.new other ≡ F.faults files.old other }
    ensures same { (other : List ℕ) → F.held files.new other ≡ F.held files.old other }
    ensures unmoved { result ≢ Status.WriteFault → O.faults out.new ≡ O.faults out.old }

    // Standard error: nothing with Ok or CheckNo, and with a refusal its line, whole unless a write there failed.
    ensures quiet { is_done result ≡ true → err.new ≡ err.old }
    ensures line { is_done result ≡ false → IsTold (E.taken err.old) (E.taken err.new) (E.faults err.old) (E.faults err.new) (line_of (day_said words.now) result) }

    // Where no count rises, what the files call for is answered, or running out of memory; but for which plan or refusal of planning
    // climbing ends with.
    ensures refused { (status : RunStatus) (request : RunRequest) → asked words.now ≡ Some request → is_open (task_of request) status ≡ false → IsSomeAnd (told_for (F.held files.old) request.names status) (λ contents. IsRefusal (task_of request) contents request.day status)
        → NoneRose (names_for request.names status) (F.faults files.old) (F.faults files.new) → (result ≡ status) ⊎ (result ≡ Status.Memory) }
    ensures complete { (request : RunRequest) → asked words.now ≡ Some request → climbs (task_of request) ≡ false → IsSomeAnd (told (F.held files.old) request) (λ contents. (end : RunStatus) × (bytes : List ℕ) × IsAnswer (task_of request) contents request.day end bytes)
        → NoneRose request.names (F.faults files.old) (F.faults files.new) → ¬ Rose (O.faults out.old) (O.faults out.new)
        → (is_done result ≡ true) ⊎ (result ≡ Status.Memory) }
{
    match read_words(alloc, words) {
        Ok(request) => {
            let status = carry_out(rt, alloc, &request, files, out, gate);
            tell_refusal(err, words, &status);
            status
        }
        Err(WordsFault::Usage) => {
            tell_refusal(err, words, &Status::Usage);
            Status::Usage
        }
        Err(WordsFault::Memory) => {
            tell_refusal(err, words, &Status::Memory);
            Status::Memory
        }
    }
}
