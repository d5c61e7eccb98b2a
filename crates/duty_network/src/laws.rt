//! What holds of the duties of every day. The function does nothing: its contract is the theorem.

ghost use Rattle.std.specs.Prelude.{List, true, false};
ghost use Rattle.plan_core.specs.declared.types.Piece.{Piece};
ghost use Rattle.cover_core.specs.Laws.{IsCountOf};
ghost use Rattle.plan_params.specs.declared.rows.ParamRows.{ParamRows};
ghost use Rattle.duty_network.specs.Duties.{duties_of};

/// Duties that are counted are those that have costs: the pieces and the groups' drivers are the same, and each list that has a cost
/// is worth 1. So a bound on the number of columns that is made of counted duties holds of each plan of duties with costs.
pub fn counted_duties()
    ensures { (params : ParamRows) (pieces : List Piece) → IsCountOf (duties_of params pieces false) (duties_of params pieces true) }
{}
