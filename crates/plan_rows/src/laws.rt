//! What holds of the rows of every plan.

ghost use Rattle.std.specs.Prelude.{◌≡◌, List, Option, Some, None, map};
ghost use Rattle.std.specs.List.{filter_map};
ghost use Rattle.vdv451_text.specs.declared.table.Field.{Field as TextField};
ghost use Rattle.plan_rows.specs.Tables.{first_wrong};
ghost use Rattle.plan_rows.specs.declared.rows.LegRow.{LegRow as Leg};
ghost use Rattle.plan_rows.specs.declared.rows.DutyRow.{DutyRow as Duty};
ghost use Rattle.plan_rows.specs.declared.rows.PieceRow.{PieceRow as Piece};

/// Where no row of a table is wrong, each of its rows says one leg, duty or piece, in the order of the rows.
pub fn rows_are_said()
    ensures legs { (entry : List TextField → Option Leg) (rows : List (List TextField)) → first_wrong entry rows ≡ None → map (λ leg. Some leg) (filter_map entry rows) ≡ map entry rows }
    ensures duties { (entry : List TextField → Option Duty) (rows : List (List TextField)) → first_wrong entry rows ≡ None → map (λ duty. Some duty) (filter_map entry rows) ≡ map entry rows }
    ensures pieces { (entry : List TextField → Option Piece) (rows : List (List TextField)) → first_wrong entry rows ≡ None → map (λ piece. Some piece) (filter_map entry rows) ≡ map entry rows }
{}
