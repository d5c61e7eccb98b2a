//! The tables of a small day.

use day_calendar::kind_of;
use day_model::build_day;
use day_tables::tables_of_day;
use plan_core::Bytes;
use small_networks::{TableRows, network};
use std::alloc::Global;
use std::test::Fail;
use vdv451_text::write_tables;
use vdv452_tables::{Needs, Network};

/// On Wednesday, 2026-01-07, trip 1 goes from 1 to 2, and trip 2 back, over a section whose length is empty; it stands first in its
/// table. Trip 3 is of another day.
const NETWORK: &[TableRows] = &[
    ("BASIS_VER_GUELTIGKEIT", &["20260101; 1"]),
    ("FIRMENKALENDER", &["1; 20260107; 7"]),
    ("REC_ORT", &["1; 1; 1", "1; 1; 2", "1; 2; 9"]),
    (
        "REC_SEL",
        &["1; 1; 1; 1; 1; 2; 60000", "1; 1; 1; 2; 1; 1; "],
    ),
    (
        "SEL_FZT_FELD",
        &["1; 1; 1; 1; 1; 1; 2; 3600", "1; 1; 1; 1; 2; 1; 1; 3600"],
    ),
    ("REC_LID", &["1; 1; 1; 1", "1; 1; 2; 1"]),
    (
        "LID_VERLAUF",
        &[
            "1; 1; 1; 1; 1; 1",
            "1; 1; 1; 2; 1; 2",
            "1; 1; 2; 1; 1; 2",
            "1; 1; 2; 2; 1; 1",
        ],
    ),
    (
        "REC_FRT",
        &[
            "1; 2; 33000; 1; 7; 1; 1; 2; ",
            "1; 3; 30000; 1; 8; 1; 1; 1; ",
            "1; 1; 28800; 1; 7; 1; 1; 1; ",
        ],
    ),
    ("MENGE_FZG_TYP", &["1; 1"]),
    ("X_PLAN", &["1; 1; 300; 7200; 300"]),
    ("X_HOF", &["1; 2; 9; 1; 2; 1000; 1; 0"]),
    ("X_FAHRER", &["1; 2; 9; 2; 500; 1; 600; 300; 0"]),
];

/// What follows the header lines.
const BODY: &[u8] = b"tbl; X_TAG\r\n\
atr; BETRIEBSTAG; WOCHENTAG; BASIS_VERSION; TAGESART_NR; FAHRTEN\r\n\
frm; num[19.0]; num[19.0]; num[19.0]; num[19.0]; num[19.0]\r\n\
rec; 20260107; 3; 1; 7; 2\r\n\
end; 1\r\n\
tbl; X_FAHRT\r\n\
atr; FRT_FID; LI_NR; VON_TYP; VON_NR; BEGINN; NACH_TYP; NACH_NR; ENDE; LAENGE\r\n\
frm; num[19.0]; num[19.0]; num[19.0]; num[19.0]; num[19.0]; num[19.0]; num[19.0]; num[19.0]; num[19.0]\r\n\
rec; 1; 1; 1; 1; 28800; 1; 2; 32400; 60000\r\n\
rec; 2; 1; 1; 2; 33000; 1; 1; 36600; NULL\r\n\
end; 2\r\n\
eof; 2\r\n\
";

fn day_text(alloc: Global, net: &Network, day: u32) -> Result<Bytes, Fail> {
    let kind = kind_of(net, day)?;
    let day = build_day(alloc, net, &kind)?;
    let tables = tables_of_day(alloc, net, &day)?;
    Ok(write_tables(alloc, tables.as_slice())?)
}

fn has_body(alloc: Global, given: &[TableRows], day: u32, body: &[u8]) -> Result<bool, Fail> {
    let net = network(alloc, given, Needs::All)?;
    let bytes = day_text(alloc, &net, day)?;
    Ok(bytes.as_slice().ends_with(body))
}

#[test]
fn tells_the_day_and_its_trips(rt: HostRuntime) -> Result<(), Fail> {
    assert!(rt; has_body(rt.alloc(), NETWORK, 20_260_107, BODY)?);
    Ok(())
}
