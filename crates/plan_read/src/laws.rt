//! What holds of every plan. The functions do nothing: their contracts are the theorems.

ghost use Rattle.plan_read.specs.Laws.{IsPrintedOnce};
ghost use Rattle.plan_read.specs.ReadsBack.{PlanReadsBack};

/// A plan in printed order, printed again, is itself.
pub fn printed_once()
    ensures { IsPrintedOnce }
{}

/// The tables of a plan stand for it: what is written is read back, the blocks with the worth 0, each duty with the number of its group.
///
/// The table REC_FRT is plain, has the columns FRT_FID and UM_UID and one row of the day's version for each trip of the day; no two trips
/// have one FRT_FID, and the numbers of pools and of groups rise. The blocks are a plan over the day's trips and pools, and the duties one
/// over pieces of these blocks and over the day's groups. There are four bounds.
pub fn plans_are_read_back()
    ensures { PlanReadsBack }
{}
