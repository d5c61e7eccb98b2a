//! What holds of the heads of plans of duties. The functions do nothing: their contracts are the theorems.

ghost use Rattle.duty_rest.specs.Laws.{HeadsAreHeads, KeptLeavesNoneBegun};

/// Where no part that stands for a begun piece is twice in the duties of an earlier plan, the heads of that plan are what columns of the
/// day's duties may begin with: none is empty, their pieces are there, and no piece stands twice. Other parts may stand as often as they
/// like.
pub fn heads_are_heads()
    ensures { HeadsAreHeads }
{}

/// In a plan of the day's duties that keeps the heads of an earlier plan, as each plan of the rest does, every duty without a head has no
/// begun piece of an earlier duty whose group is there: such a piece stands in a head, and each piece in one duty alone.
pub fn kept_leaves_none_begun()
    ensures { KeptLeavesNoneBegun }
{}
