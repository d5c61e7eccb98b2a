//! What the texts of small networks say.

use crate::given_rows::{TableRows, whole_text};
use day_calendar::DayKind;
use day_model::{Day, build_day};
use std::alloc::Global;
use std::test::Fail;
use vdv451_text::read_file;
use vdv452_tables::{Needs, Network, read_tables};

/// The network of a text.
pub fn network_in(alloc: Global, text: &[u8], needs: Needs) -> Result<Network, Fail> {
    let tables = read_file(alloc, text, 100_000)?;
    Ok(read_tables(alloc, tables.as_slice(), needs)?)
}

/// The network whose tables have these rows; a table that is not given has none. X_FAHRER lacks ZEHN_STD.
pub fn network(alloc: Global, given: &[TableRows], needs: Needs) -> Result<Network, Fail> {
    let text = whole_text(alloc, given, "; KURZE_RUHE")?;
    network_in(alloc, &text, needs)
}

/// Monday, 2026-03-02, of a kind in version 1.
pub fn day_kind(kind: u32) -> DayKind {
    DayKind {
        version: 1,
        kind,
        day: 20_260_302,
        weekday: 1,
    }
}

/// The day of a kind over a network.
pub fn day_over(alloc: Global, net: &Network, kind: u32) -> Result<Day, Fail> {
    Ok(build_day(alloc, net, &day_kind(kind))?)
}

/// The day of a kind in a text.
pub fn day_in(alloc: Global, text: &[u8], kind: u32) -> Result<Day, Fail> {
    let net = network_in(alloc, text, Needs::All)?;
    day_over(alloc, &net, kind)
}
