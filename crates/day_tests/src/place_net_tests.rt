//! Stop sequences of a small network.

use place_net::route_length;
use small_networks::{TableRows, network};
use std::alloc::Global;
use std::test::Fail;
use vdv452_tables::{Needs, Network};

/// Variant 1 of line 1 goes from 10 to 20, variant 2 from 20 by 10 to 20 and stays there, variant 3
/// over a section whose length is empty; variant 4 has one point, variant 5 none, and variant 6 no area.
const NETWORK: &[TableRows] = &[
    (
        "REC_SEL",
        &[
            "1; 5; 1; 10; 1; 20; 60000",
            "1; 5; 1; 20; 1; 10; 60000",
            "1; 5; 1; 20; 1; 20; 5",
            "1; 5; 1; 20; 1; 30; ",
            "2; 5; 1; 20; 1; 30; 7",
        ],
    ),
    (
        "REC_LID",
        &[
            "1; 1; 1; 5",
            "1; 1; 2; 5",
            "1; 1; 3; 5",
            "1; 1; 4; 5",
            "1; 1; 5; 5",
        ],
    ),
    (
        "LID_VERLAUF",
        &[
            "1; 1; 1; 1; 1; 10",
            "1; 1; 1; 2; 1; 20",
            "1; 1; 2; 1; 1; 20",
            "1; 1; 2; 2; 1; 10",
            "1; 1; 2; 3; 1; 20",
            "1; 1; 2; 4; 1; 20",
            "1; 1; 3; 1; 1; 10",
            "1; 1; 3; 2; 1; 20",
            "1; 1; 3; 3; 1; 30",
            "1; 1; 4; 1; 1; 10",
            "1; 1; 6; 1; 1; 10",
            "1; 1; 6; 2; 1; 20",
        ],
    ),
    (
        "REC_FRT",
        &[
            "1; 1; 28800; 1; 1; 1; 1; 1; ",
            "1; 2; 28800; 1; 1; 1; 1; 2; ",
            "1; 3; 28800; 1; 1; 1; 1; 3; ",
            "1; 4; 28800; 1; 1; 1; 1; 4; ",
            "1; 5; 28800; 1; 1; 1; 1; 5; ",
            "1; 6; 28800; 1; 1; 1; 1; 6; ",
        ],
    ),
];

/// The worked length of a trip's way.
fn worked_length(fid: u64) -> Option<u64> {
    match fid {
        1 => Some(60_000),
        2 => Some(120_005),
        4 => Some(0),
        5 => Some(0),
        _ => None,
    }
}

fn have_worked_lengths(net: &Network) -> bool {
    let rows = net.trip_rows();
    for row in rows {
        if route_length(net, 1, row) != worked_length(row.fid) {
            return false;
        }
    }
    rows.len() == 6
}

fn adds_as_worked(alloc: Global, given: &[TableRows]) -> Result<bool, Fail> {
    let net = network(alloc, given, Needs::All)?;
    Ok(have_worked_lengths(&net))
}

#[test]
fn adds_the_lengths_of_links(rt: HostRuntime) -> Result<(), Fail> {
    assert!(rt; adds_as_worked(rt.alloc(), NETWORK)?);
    Ok(())
}
