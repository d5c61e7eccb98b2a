//! The board's theorem over all runs.
ghost use Rattle.std.specs.Prelude.{◌≡◌, ℕ, ◌<◌, List, min, slice_index};
ghost use mathlib.Core.Option.{some};
ghost use lib.ListN.{get_elem?};
ghost use Rattle.task_board.specs.declared.sheet.Extent.{Extent};
ghost use Rattle.task_board.specs.declared.sheet.Sheet.{Sheet};
ghost use Rattle.task_board.specs.Sheets.{whole, times, once_below, IfWhole};
ghost use Rattle.task_board.specs.Machine.{BoardState, Event, happens, run, start, IsSound};

/// The board as a machine of plain data, over every list of steps of any desks in any order: split,
/// claim, look, lower and join. The machine's steps change the words and the sheets by the same
/// definitions that the contracts of [`Desk`](crate::Desk) cite.
///
/// - `each`: every step keeps the state condition, from every state that meets it.
/// - `kept`: so it holds after every list of steps from the first state.
/// - `whole`: a desk that has the whole share then has drawn each number once, all of them where
///   some claim found no task left, and each of its looks is 0 or among its own lowered values.
/// - `drawn`: the numbers that it has drawn are those below the smaller of counter and tasks.
pub fn every_run_is_sound()
    ensures each { (size : Extent) (before : BoardState) (event : Event) → IsSound size before → IsSound size (happens size before event) }
    ensures kept { (size : Extent) (events : List Event) → size.tasks < 4294967296 → IsSound size (run size events (start size)) }
    ensures whole { (size : Extent) (events : List Event) (desk : ℕ) (v : Sheet) → size.tasks < 4294967296
        → get_elem? (run size events (start size)).views desk ≡ some v → IfWhole v }
    ensures drawn { (size : Extent) (events : List Event) (desk : ℕ) (v : Sheet) (x : ℕ) → size.tasks < 4294967296
        → get_elem? (run size events (start size)).views desk ≡ some v → v.share ≡ whole
        → times x v.drawn ≡ once_below x (min (slice_index (run size events (start size)).words 0) size.tasks) }
{}
