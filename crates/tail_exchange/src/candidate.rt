//! Candidates for a step, and their order.

ghost use Rattle.std.specs.Prelude.{◌≡◌, int_lt, pos};
ghost use Rattle.tail_exchange.specs.Order.{rank, candidate_cmp};

use std::cmp::Ordering;

/// What a step does.
#[derive(Clone, Copy, PartialEq, Eq)]
pub enum Kind {
    /// Two columns exchange their tails.
    Swap,
    /// The tail of a column becomes a new one.
    Cut,
}

/// A step with what it changes the cost.
#[derive(Clone, Copy, PartialEq, Eq)]
pub struct Candidate {
    /// By how much the cost rises, in cost units; below 0 where it falls.
    pub change: i64,
    /// What it does.
    pub kind: Kind,
    /// The column, or the first of two.
    pub a: u32,
    /// The second column, and 0 of a cut.
    pub b: u32,
    /// How many items stay in front in column a.
    pub i: u32,
    /// How many stay in front in column b, or the class of the new column.
    pub j: u32,
}

impl Kind {
    /// Swaps come before cuts.
    fn rank(self) -> u8
        ensures { result ≡ rank self }
    {
        match self {
            Kind::Swap => 0,
            Kind::Cut => 1,
        }
    }
}

impl Candidate {
    /// Whether the cost falls.
    pub fn lowers(&self) -> bool
        ensures { result ≡ int_lt self.now.change (pos 0) }
    {
        self.change < 0
    }

    /// Orders candidates by what they change the cost, swaps before cuts, and then by their numbers.
    pub fn compare(&self, other: &Candidate) -> Ordering
        ensures { result ≡ candidate_cmp self.now other.now }
    {
        let places = self.i.cmp(&other.i).then(self.j.cmp(&other.j));
        let columns = self.a.cmp(&other.a).then(self.b.cmp(&other.b).then(places));
        let kind = self.kind.rank().cmp(&other.kind.rank()).then(columns);
        self.change.cmp(&other.change).then(kind)
    }
}
