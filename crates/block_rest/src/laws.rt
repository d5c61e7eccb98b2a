//! What holds of the heads of plans of blocks. The functions do nothing: their contracts are the theorems.

ghost use Rattle.block_rest.specs.Laws.{HeadsAreHeads, KeptIsSameHeads};

/// Where each trip of the day stands in exactly one list of an earlier plan, the heads of that plan are what columns of the day's blocks
/// may begin with: none is empty, their trips are there, and no trip stands twice.
pub fn heads_are_heads()
    ensures { HeadsAreHeads }
{}

/// A plan keeps what has begun of an earlier plan where the trips of each head are the first trips of one block of the head's pool, with
/// no further trip where the head is finished, and every other block leaves its depot at the moment or later. That is so exactly where
/// the heads of the plan itself are those of the earlier plan: what has begun before the moment is the same in both.
pub fn kept_is_same_heads()
    ensures { KeptIsSameHeads }
{}
