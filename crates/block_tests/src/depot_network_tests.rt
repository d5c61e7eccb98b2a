//! Blocks of small days: two trips, from 1 to 2 and back, and a depot at 9.

use crate::days::day;
use cover_core::{Columns, Worth};
use depot_network::PoolNet;
use std::alloc::Global;
use std::test::Fail;
use tried_lists::worth_of;

/// Whether lists of the trips of a day are worth this.
fn has_worths(
    alloc: Global,
    kind: u32,
    worth: Worth,
    rows: &[(&[u32], Option<u64>)],
) -> Result<bool, Fail> {
    let day = day(alloc, kind)?;
    let net = PoolNet::new(&day, worth);
    for (list, worth) in rows {
        if worth_of(&net, 0, list) != *worth {
            return Ok(false);
        }
    }
    Ok(net.items() == 2 && net.classes() == 1)
}

#[test]
fn blocks_are_worth_their_cost(rt: HostRuntime) -> Result<(), Fail> {
    let rows: [(&[u32], Option<u64>); 3] = [
        (&[0, 1], Some(2_200)),
        (&[1], Some(2_500)),
        (&[1, 0], None),
    ];
    assert!(rt; has_worths(rt.alloc(), 1, Worth::Cost, &rows)?);
    Ok(())
}

#[test]
fn blocks_may_be_counted(rt: HostRuntime) -> Result<(), Fail> {
    let rows: [(&[u32], Option<u64>); 3] = [(&[0, 1], Some(1)), (&[1], Some(1)), (&[1, 0], None)];
    assert!(rt; has_worths(rt.alloc(), 1, Worth::Count, &rows)?);
    Ok(())
}

#[test]
fn a_stand_at_the_depot_is_free(rt: HostRuntime) -> Result<(), Fail> {
    let rows: [(&[u32], Option<u64>); 3] = [
        (&[0, 1], Some(4_000)),
        (&[1], Some(2_500)),
        (&[1, 0], None),
    ];
    assert!(rt; has_worths(rt.alloc(), 2, Worth::Cost, &rows)?);
    Ok(())
}

#[test]
fn pieces_may_be_driven_for_four_and_a_half_hours(rt: HostRuntime) -> Result<(), Fail> {
    let rows: [(&[u32], Option<u64>); 2] = [(&[0, 1], Some(2_200)), (&[0], None)];
    assert!(rt; has_worths(rt.alloc(), 3, Worth::Cost, &rows)?);
    Ok(())
}

#[test]
fn a_second_more_is_too_long(rt: HostRuntime) -> Result<(), Fail> {
    let rows: [(&[u32], Option<u64>); 2] = [(&[0, 1], None), (&[0], None)];
    assert!(rt; has_worths(rt.alloc(), 4, Worth::Cost, &rows)?);
    Ok(())
}

fn has_parts(alloc: Global) -> Result<bool, Fail> {
    let day = day(alloc, 1)?;
    let net = PoolNet::new(&day, Worth::Cost);
    Ok(net.classes() == 1 && net.cap(0) == 2 && !net.counts() && net.day().trips().len() == 2)
}

#[test]
fn a_net_has_the_parts_of_its_day(rt: HostRuntime) -> Result<(), Fail> {
    assert!(rt; has_parts(rt.alloc())?);
    Ok(())
}
