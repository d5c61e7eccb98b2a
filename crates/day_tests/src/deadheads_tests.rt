//! Moves over a small network.

use deadheads::Deadheads;
use plan_core::{Memory, Point};
use small_networks::{TableRows, network};
use std::alloc::Global;
use std::test::Fail;
use vdv452_tables::{Needs, Network};

/// Moves between a depot, 9/1, and points 1/10 and 1/20; some in another version, area or group.
const NETWORK: &[TableRows] = &[(
    "UEB_FZT",
    &[
        "1; 5; 1; 9; 1; 1; 10; 600",
        "1; 5; 1; 1; 10; 9; 1; 900",
        "1; 5; 1; 1; 20; 1; 20; 77",
        "2; 5; 1; 9; 1; 1; 20; 601",
        "1; 6; 1; 9; 1; 1; 20; 602",
        "1; 5; 2; 9; 1; 1; 20; 603",
        "1; 5; 1; 1; 10; 1; 20; 172800",
    ],
)];

const DEPOT: Point = Point { typ: 9, nr: 1 };

const HERE: Point = Point { typ: 1, nr: 10 };

const THERE: Point = Point { typ: 1, nr: 20 };

fn has_times(deads: &Deadheads) -> bool {
    deads.dead(DEPOT, HERE) == Some(600)
        && deads.dead(HERE, DEPOT) == Some(900)
        && deads.dead(HERE, THERE) == Some(172_800)
        && deads.dead(DEPOT, THERE).is_none()
        && deads.dead(THERE, THERE) == Some(0)
        && deads.dead(HERE, HERE) == Some(0)
}

fn has_worked_times(alloc: Global, net: &Network) -> Result<bool, Memory> {
    let deads = Deadheads::new(alloc, net, 1, 5, 1)?;
    Ok(has_times(&deads))
}

fn answer_or_false(answer: Result<bool, Memory>) -> bool {
    match answer {
        Ok(told) => told,
        Err(_) => false,
    }
}

fn tells_times(alloc: Global, given: &[TableRows]) -> Result<bool, Fail> {
    let net = network(alloc, given, Needs::All)?;
    Ok(answer_or_false(has_worked_times(alloc, &net)))
}

#[test]
fn tells_the_times_of_moves(rt: HostRuntime) -> Result<(), Fail> {
    assert!(rt; tells_times(rt.alloc(), NETWORK)?);
    Ok(())
}
