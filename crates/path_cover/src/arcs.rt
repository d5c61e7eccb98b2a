//! Networks whose nodes are to be covered.

ghost use Rattle.std.specs.Prelude.{◌≡◌, ◌≤◌};
ghost use Rattle.plan_core.specs.Limits.{most_items, most_places};
ghost use Rattle.path_cover.specs.Nets.{Net, IsCheap, IsRising};

/// The arcs of a network of nodes 0 to n - 1. The number n stands for the store where an arc begins with it, and for the end where an arc
/// ends with it.
pub trait Arcs {
    ghost net: { Self → Net };

    /// How many nodes there are: at most 3,000.
    fn nodes(&self) -> u32
        ensures value { result ≡ (net self.now).nodes }
        ensures few { result ≤ most_items };

    /// How many paths there may be: at most 10,000.
    fn most(&self) -> u32
        ensures value { result ≡ (net self.now).most }
        ensures few { result ≤ most_places };

    /// What the arc from a row to a column costs, if it is there.
    fn arc(&self, x: u32, v: u32) -> Option<u32>
        requires row { x ≤ (net self.now).nodes }
        requires column { v ≤ (net self.now).nodes }
        ensures { result ≡ (net self.now).arc x v };

    /// A path that is not used costs nothing, and arcs between nodes rise.
    ghost rising: { (s : Self) → IsRising (net s) };

    /// No arc's cost, times two more than the number of nodes, is above 750,000,000,000.
    ghost cheap: { (s : Self) → IsCheap (net s) };
}
