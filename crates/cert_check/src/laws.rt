//! What a yes means, and when it comes. Each function does nothing: its contract is the theorem.
#![tactic(auto)]

ghost use Rattle.cert_check.specs.Certified.{AcceptedHasNoReason, YesIsCertified};
ghost use Rattle.cert_check.specs.Judging.{Case};
ghost use Rattle.cert_check.specs.Old.{AnswersSayOld};

use block_cover::block_cover_is_paid;
use depot_network::{PoolNet, counted_blocks};
use duty_network::{DutyNet, counted_duties};
use label_cover::duty_cover_is_paid;
use plan_check::plan_is_shown;

/// A yes by itself implies that the plan is lawful, that its tables are those of its blocks and duties, and that no plan of blocks has fewer
/// vehicles or lower costs than the printed bounds of passes 1 and 2, and no plan of duties over these blocks' pieces fewer duties or lower
/// costs than those of passes 3 and 4.
pub fn yes_is_certified()
    ensures { (c : Case) → YesIsCertified c }
{
    block_cover_is_paid();
    duty_cover_is_paid();
    counted_blocks();
    counted_duties();
    plan_is_shown::<PoolNet<'_>>();
    plan_is_shown::<DutyNet<'_>>();
}

/// The reasons are what keeps a plan and its certificate from a yes, and nothing else: where both are accepted none of them holds.
pub fn accepted_has_no_reason()
    ensures { (c : Case) → AcceptedHasNoReason c }
{}

/// What is answered of a plan and its certificate says what is answered of the plan as an earlier one: the same where its tables are no plan,
/// a trip is not in exactly one block, a block is none of its pool or a piece is not in exactly one duty; and where the answer is a yes or a
/// later reason, that it is a plan of the day. Only of a plan with too many blocks of a pool nothing is said.
pub fn answers_say_old()
    ensures { (c : Case) → AnswersSayOld c }
{}
