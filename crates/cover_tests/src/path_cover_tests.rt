//! A small network, against covers of least cost that were found by going through all.

ghost use Rattle.std.specs.Prelude.{◌≤◌};
ghost use Rattle.plan_core.specs.Limits.{most_places};
ghost use Rattle.cover_tests.specs.Paths.{small_cheap, small_net, small_rising};

use path_cover::{Arcs, least_cover, prices_of};
use plan_core::Memory;
use std::alloc::Global;
use std::test::Fail;

/// Four nodes. Paths begin at one cost and end at none. An arc between nodes costs one, and so much more for each node that it goes on;
/// where next nodes are closed, none goes to the next node.
#[derive(Clone, Copy)]
struct Small {
    start: u32,
    most: u32,
    step: u32,
    closed: bool,
    ghost cheap_start: { start ≤ 1000 },
    ghost cheap_step: { step ≤ 1000 },
    ghost few: { most ≤ most_places },
}

impl Arcs for Small {
    ghost net = { λ s. small_net s.most s.start s.step s.closed };

    ghost rising = { λ s. small_rising s.most s.start s.step s.closed };

    ghost cheap = { λ s. small_cheap s.most s.start s.step s.closed s.cheap_start s.cheap_step };

    fn nodes(&self) -> u32 {
        4
    }

    fn most(&self) -> u32 {
        self.most
    }

    fn arc(&self, x: u32, v: u32) -> Option<u32> {
        if x == 4 {
            return Some(if v == 4 { 0 } else { self.start });
        }
        if v == 4 {
            return Some(0);
        }
        if x < v && !(self.closed && v == x + 1) {
            return Some(self.step * (v - x) + 1);
        }
        None
    }
}

/// A cover as numbers: the nodes of each path and 99, how far the potentials are below 0, of rows and of columns, and the prices of nodes
/// and of paths. 200 if there is no cover.
fn spell(alloc: Global, small: &Small) -> Result<Vec<u64>, Memory> {
    let mut out = Vec::new(alloc);
    match least_cover(alloc, small)? {
        None => out.push(200)?,
        Some(cover) => {
            for path in cover.paths.as_slice() {
                for node in path.as_slice() {
                    out.push(u64::from(*node))?;
                }
                out.push(99)?;
            }
            for fall in &cover.falls.tails {
                out.push(*fall)?;
            }
            for fall in &cover.falls.heads {
                out.push(*fall)?;
            }
            let prices = prices_of(alloc, small, &cover.falls)?;
            for price in prices.nodes.items.as_slice() {
                out.push(price.0.unsigned_abs())?;
            }
            out.push(prices.class.unsigned_abs())?;
        }
    }
    Ok(out)
}

/// The small network.
fn network(start: u32, most: u32, step: u32, closed: bool) -> Small
    requires start { start ≤ 1000 }
    requires step { step ≤ 1000 }
    requires most { most ≤ most_places }
{
    Small {
        start,
        most,
        step,
        closed,
    }
}

#[test]
fn finds_the_first_of_least_cost(rt: HostRuntime) -> Result<(), Fail> {
    let cases = [
        // all nodes in one path
        (
            network(10, 4, 0, false),
            [
                0, 1, 2, 3, 99, 1, 1, 1, 10, 10, 0, 0, 0, 0, 10, 1000, 1000, 1000, 10000, 0,
            ]
            .as_slice(),
        ),
        // each node in a path of its own, as many as there may be
        (
            network(10, 4, 20, false),
            [
                0, 99, 1, 99, 2, 99, 3, 99, 10, 10, 10, 10, 10, 0, 0, 0, 0, 10, 10000, 10000,
                10000, 10000, 0,
            ]
            .as_slice(),
        ),
        // just enough paths
        (
            network(0, 2, 5, true),
            [
                0, 2, 99, 1, 3, 99, 11, 11, 11, 11, 0, 0, 0, 0, 0, 11, 11000, 11000, 11000, 11000,
                11000,
            ]
            .as_slice(),
        ),
        // too few
        (network(7, 1, 5, true), [200].as_slice()),
        (network(5, 0, 0, false), [200].as_slice()),
        // of several covers of least cost the first one
        (
            network(1, 4, 0, false),
            [
                0, 1, 2, 3, 99, 1, 1, 1, 1, 1, 0, 0, 0, 0, 1, 1000, 1000, 1000, 1000, 0,
            ]
            .as_slice(),
        ),
        (
            network(2, 3, 1, false),
            [
                0, 1, 2, 3, 99, 2, 2, 2, 2, 2, 0, 0, 0, 0, 2, 2000, 2000, 2000, 2000, 0,
            ]
            .as_slice(),
        ),
        (
            network(7, 2, 0, true),
            [
                0, 2, 99, 1, 3, 99, 1, 1, 7, 7, 7, 0, 0, 0, 0, 7, 1000, 1000, 7000, 7000, 0,
            ]
            .as_slice(),
        ),
    ];
    for (given, want) in cases {
        let found = spell(rt.alloc(), &given)?;
        assert_eq!(rt; found.as_slice(), want);
    }
    Ok(())
}
