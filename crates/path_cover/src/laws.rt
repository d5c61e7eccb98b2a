//! What holds of every network. Each function does nothing: its contract is the theorem.

ghost use Rattle.path_cover.specs.Laws.{FeasibleIsPaid, GreatestAreHigh, LeastIsSlack, MatchingIsFirst, SlackIsBound, SlackIsLeast, StuckIsFirst, StuckIsNone};
ghost use Rattle.path_cover.specs.Nets.{Net};

/// Prices that feasible potentials make are paid over all paths; where a cover meets complementary slackness, their bound is its cost.
pub fn feasible_potentials_pay()
    ensures paid { (net : Net) → FeasibleIsPaid net }
    ensures bound { (net : Net) → SlackIsBound net }
{}

/// A cover that meets complementary slackness with feasible potentials has least cost, and exactly the covers of that cost meet it.
pub fn slackness()
    ensures least { (net : Net) → SlackIsLeast net }
    ensures all { (net : Net) → LeastIsSlack net }
{}

/// The paths that follow a tight matching of all nodes are a cover of least cost. It is the first one where no least cover departs from it
/// to an earlier successor.
pub fn matchings_are_covers()
    ensures { (net : Net) → MatchingIsFirst net }
{}

/// What the tree of an augmenting path shows where it cannot grow: there is no cover; or no least cover has an earlier successor at a node.
pub fn stuck_trees()
    ensures none { (net : Net) → StuckIsNone net }
    ensures first { (net : Net) → StuckIsFirst net }
{}

/// The greatest potentials of a cover are not below 0 by more than an arc's cost for each of them.
pub fn greatest_potentials_are_high()
    ensures { (net : Net) → GreatestAreHigh net }
{}
