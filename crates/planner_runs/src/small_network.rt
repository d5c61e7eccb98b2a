//! A small network with a plan that was worked out by hand, and changes of it.

use crate::runs::{Ended, WRITTEN_HEAD, end_of, is_so, joined, one_file, text_of};
use plan_core::Bytes;
use small_networks::DEMO;
use std::alloc::Global;
use std::test::Fail;
use std::thread::Threads;

/// A part of the text, and what stands in its place.
pub type Change = (&'static str, &'static str);

/// No change.
pub const NO_CHANGE: &[Change] = &[];

/// The row of the second trip.
pub const SECOND: &str = "rec; 1; 2; 33000; 1; 1; 1; 1; \"R\"; NULL";

/// There is one vehicle.
pub const ONE_VEHICLE: Change = (
    "rec; 1; 2; 9; 1; 2; 1000; 1; 0",
    "rec; 1; 2; 9; 1; 1; 1000; 1; 0",
);

/// The minimum layover is one second short, and the way by the depot too long.
pub const TOO_SOON: &[Change] = &[(SECOND, "rec; 1; 2; 32699; 1; 1; 1; 1; \"R\"; NULL")];

/// The stand is longer than the greatest wait.
pub const LATE: &[Change] = &[(SECOND, "rec; 1; 2; 40000; 1; 1; 1; 1; \"R\"; NULL")];

/// The minimum layover is just long enough.
pub const IN_TIME: &[Change] = &[(SECOND, "rec; 1; 2; 32700; 1; 1; 1; 1; \"R\"; NULL")];

/// Both trips run from A to B at one time.
pub const TOGETHER: &[Change] = &[(SECOND, "rec; 1; 2; 28800; 1; 1; 1; 1; \"H\"; NULL")];

/// Both trips run from A to B at one time, and there is one vehicle.
pub const ONE_FOR_BOTH: &[Change] = &[
    (SECOND, "rec; 1; 2; 28800; 1; 1; 1; 1; \"H\"; NULL"),
    ONE_VEHICLE,
];

/// The row of the group of drivers.
pub const GROUP: &str = "rec; 1; 2; 9; 2; 500; 1; 600; 300";

/// There are no drivers.
pub const NO_DRIVERS: &[Change] = &[(GROUP, "rec; 1; 2; 9; 0; 500; 1; 600; 300")];

/// No vehicle may move without passengers.
pub const NO_DEADHEADS: &[Change] = &[(
    "rec; 1; 1; 1; 2; 9; 1; 1; 600\nrec; 1; 1; 1; 1; 1; 2; 9; 600\nrec; 1; 1; 1; 2; 9; 1; 2; 900\nrec; 1; 1; 1; 1; 2; 2; 9; 900\nend; 4\n",
    "end; 0\n",
)];

/// The run time from A to B.
pub const RUN_TIME: &str = "rec; 1; 1; 1; 1; 1; 2; 1; 3600";

/// The first trip drives for so long that with its pull-out four and a half hours are full.
pub const FULL: &[Change] = &[
    (RUN_TIME, "rec; 1; 1; 1; 1; 1; 2; 1; 15600"),
    (SECOND, "rec; 1; 2; 45000; 1; 1; 1; 1; \"R\"; NULL"),
];

/// With its pull-out the first trip drives for more than four and a half hours.
pub const TOO_LONG: &[Change] = &[
    (RUN_TIME, "rec; 1; 1; 1; 1; 1; 2; 1; 15601"),
    (SECOND, "rec; 1; 2; 45001; 1; 1; 1; 1; \"R\"; NULL"),
    (
        "rec; 1; 2; 9; 1; 2; 1000; 1; 0",
        "rec; 1; 2; 9; 1; 20; 1000; 1; 0",
    ),
];

/// The head and the row of the groups, without further columns.
pub const GROUP_COLUMNS: &str =
    "ANMELDE_SEK; ABMELDE_SEK\nfrm; num[10.0]; num[10.0]; num[10.0]; num[10.0]; num[10.0]; num[10.0]; num[10.0]; num[10.0]\nrec; 1; 2; 9; 2; 500; 1; 600; 300";

/// The drivers may drive for ten hours and have the reduced rest.
pub const ALLOWED: &[Change] = &[(
    GROUP_COLUMNS,
    "ANMELDE_SEK; ABMELDE_SEK; ZEHN_STD; KURZE_RUHE\nfrm; num[10.0]; num[10.0]; num[10.0]; num[10.0]; num[10.0]; num[10.0]; num[10.0]; num[10.0]; num[10.0]; num[10.0]\nrec; 1; 2; 9; 2; 500; 1; 600; 300; 1; 1",
)];

/// An allowance is neither there nor not.
pub const HALF_ALLOWED: &[Change] = &[(
    GROUP_COLUMNS,
    "ANMELDE_SEK; ABMELDE_SEK; ZEHN_STD\nfrm; num[10.0]; num[10.0]; num[10.0]; num[10.0]; num[10.0]; num[10.0]; num[10.0]; num[10.0]; num[10.0]\nrec; 1; 2; 9; 2; 500; 1; 600; 300; 2",
)];

/// The first trip's line admits another type of vehicles alone; the second trip is of another line, and there are twenty vehicles.
pub const OTHER_TYPE: &[Change] = &[
    (SECOND, "rec; 1; 2; 33000; 2; 1; 1; 1; \"R\"; NULL"),
    (
        "rec; 1; 1; \"R\"; 1\nend; 2\n",
        "rec; 1; 1; \"R\"; 1\nrec; 1; 2; \"R\"; 1\nend; 3\n",
    ),
    (
        "\"R\"; 1; 1\nend; 4\n",
        "\"R\"; 1; 1\nrec; 1; 1; 2; \"R\"; 1; 2\nrec; 1; 2; 2; \"R\"; 1; 1\nend; 6\n",
    ),
    (
        "rec; 1; 2; 9; 1; 2; 1000; 1; 0",
        "rec; 1; 2; 9; 1; 20; 1000; 1; 0",
    ),
    (
        "FZG_TYP_NR\nfrm; num[10.0]; num[10.0]\nrec; 1; 1\nend; 1\n",
        "FZG_TYP_NR\nfrm; num[10.0]; num[10.0]\nrec; 1; 1\nrec; 1; 2\nend; 2\n",
    ),
    (
        "eof; 15",
        "tbl; X_LINIE_FZG\natr; LI_NR; FZG_TYP_NR\nfrm; num[10.0]; num[10.0]\nrec; 1; 2\nend; 1\neof; 16",
    ),
];

/// Both trips are of another day type.
pub const NO_TRIPS: &[Change] = &[
    (
        "rec; 1; 1; 28800; 1; 1; 1; 1; \"H\"",
        "rec; 1; 1; 28800; 1; 2; 1; 1; \"H\"",
    ),
    (SECOND, "rec; 1; 2; 33000; 1; 2; 1; 1; \"R\"; NULL"),
];

/// The section from B to A has no run time.
pub const NO_RUN_TIME: &[Change] = &[(
    "rec; 1; 1; 1; 1; 1; 2; 1; 3600\nrec; 1; 1; 1; 1; 2; 1; 1; 3600\nend; 2\n",
    "rec; 1; 1; 1; 1; 1; 2; 1; 3600\nend; 1\n",
)];

/// The second trip, whose section has no run time, is of another day type.
pub const OTHER_DAY: &[Change] = &[
    (
        "rec; 1; 1; 1; 1; 1; 2; 1; 3600\nrec; 1; 1; 1; 1; 2; 1; 1; 3600\nend; 2\n",
        "rec; 1; 1; 1; 1; 1; 2; 1; 3600\nend; 1\n",
    ),
    (SECOND, "rec; 1; 2; 33000; 1; 2; 1; 1; \"R\"; NULL"),
];

/// The depot is no point of the network.
pub const UNKNOWN_DEPOT: &[Change] = &[(
    "rec; 1; 2; 9; 1; 2; 1000; 1; 0",
    "rec; 1; 2; 8; 1; 2; 1000; 1; 0",
)];

/// The first trip ends one second too late.
pub const PAST_END: &[Change] = &[(
    "rec; 1; 1; 28800; 1; 1; 1; 1; \"H\"",
    "rec; 1; 1; 169201; 1; 1; 1; 1; \"H\"",
)];

/// The stop sequence of the first trip has one point.
pub const SHORT: &[Change] = &[
    ("rec; 1; 2; 1; \"H\"; 1; 2\n", ""),
    ("\"R\"; 1; 1\nend; 4\n", "\"R\"; 1; 1\nend; 3\n"),
];

/// The variant of the first trip is unknown.
pub const NO_ROUTE: &[Change] = &[(
    "rec; 1; 1; \"H\"; 1\nrec; 1; 1; \"R\"; 1\nend; 2\n",
    "rec; 1; 1; \"R\"; 1\nend; 1\n",
)];

/// The plan has two rows.
pub const TWO_PLANS: &[Change] = &[(
    "rec; 1; 1; 300; 7200; 300\nend; 1\n",
    "rec; 1; 1; 300; 7200; 300\nrec; 1; 1; 300; 7200; 300\nend; 2\n",
)];

/// The pool has a type of vehicles that there is not.
pub const UNKNOWN_TYPE: &[Change] = &[(
    "rec; 1; 2; 9; 1; 2; 1000; 1; 0",
    "rec; 1; 2; 9; 3; 2; 1000; 1; 0",
)];

/// There are 33 pools, one more than there may be.
pub const MANY_POOLS: &[Change] = &[(
    "rec; 1; 2; 9; 1; 2; 1000; 1; 0\nend; 1\n",
    "rec; 1; 2; 9; 1; 2; 1000; 1; 0\nrec; 2; 2; 9; 1; 2; 1000; 1; 0\nrec; 3; 2; 9; 1; 2; 1000; 1; 0\nrec; 4; 2; 9; 1; 2; 1000; 1; 0\nrec; 5; 2; 9; 1; 2; 1000; 1; 0\nrec; 6; 2; 9; 1; 2; 1000; 1; 0\nrec; 7; 2; 9; 1; 2; 1000; 1; 0\nrec; 8; 2; 9; 1; 2; 1000; 1; 0\nrec; 9; 2; 9; 1; 2; 1000; 1; 0\nrec; 10; 2; 9; 1; 2; 1000; 1; 0\nrec; 11; 2; 9; 1; 2; 1000; 1; 0\nrec; 12; 2; 9; 1; 2; 1000; 1; 0\nrec; 13; 2; 9; 1; 2; 1000; 1; 0\nrec; 14; 2; 9; 1; 2; 1000; 1; 0\nrec; 15; 2; 9; 1; 2; 1000; 1; 0\nrec; 16; 2; 9; 1; 2; 1000; 1; 0\nrec; 17; 2; 9; 1; 2; 1000; 1; 0\nrec; 18; 2; 9; 1; 2; 1000; 1; 0\nrec; 19; 2; 9; 1; 2; 1000; 1; 0\nrec; 20; 2; 9; 1; 2; 1000; 1; 0\nrec; 21; 2; 9; 1; 2; 1000; 1; 0\nrec; 22; 2; 9; 1; 2; 1000; 1; 0\nrec; 23; 2; 9; 1; 2; 1000; 1; 0\nrec; 24; 2; 9; 1; 2; 1000; 1; 0\nrec; 25; 2; 9; 1; 2; 1000; 1; 0\nrec; 26; 2; 9; 1; 2; 1000; 1; 0\nrec; 27; 2; 9; 1; 2; 1000; 1; 0\nrec; 28; 2; 9; 1; 2; 1000; 1; 0\nrec; 29; 2; 9; 1; 2; 1000; 1; 0\nrec; 30; 2; 9; 1; 2; 1000; 1; 0\nrec; 31; 2; 9; 1; 2; 1000; 1; 0\nrec; 32; 2; 9; 1; 2; 1000; 1; 0\nrec; 33; 2; 9; 1; 2; 1000; 1; 0\nend; 33\n",
)];

/// The first row of the text.
pub const VERSION: &str = "rec; 20260101; 1\n";

/// The text lacks its last line.
pub const UNENDED: &[Change] = &[("eof; 15\n", "")];

/// The last line counts one table less.
pub const FEWER_TABLES: &[Change] = &[("eof; 15\n", "eof; 14\n")];

/// The first table has no name.
pub const UNNAMED: &[Change] = &[("tbl; BASIS_VER_GUELTIGKEIT\n", "")];

/// A row has one field less.
pub const SHORT_ROW: &[Change] = &[(VERSION, "rec; 20260101\n")];

/// A quotation mark is not closed.
pub const OPEN_QUOTE: &[Change] = &[(VERSION, "rec; 20260101; \"1\n")];

/// A version is no number.
pub const NO_NUMBER: &[Change] = &[(VERSION, "rec; 20260101; 1x\n")];

/// What `trips` writes of the network.
pub const TRIPS_WRITTEN: &str =
    "tbl; REC_FRT\natr; BASIS_VERSION; FRT_FID; FRT_START; LI_NR; TAGESART_NR; FAHRTART_NR; FGR_NR; STR_LI_VAR; UM_UID\nfrm; num[10.0]; num[10.0]; num[10.0]; num[10.0]; num[10.0]; num[10.0]; num[10.0]; char[6]; num[10.0]\nrec; 1; 1; 28800; 1; 1; 1; 1; \"H\"; NULL\nrec; 1; 2; 33000; 1; 1; 1; 1; \"R\"; NULL\nend; 2\neof; 1\n";

/// What `day` writes of the network.
pub const DAY_WRITTEN: &str =
    "tbl; X_TAG\natr; BETRIEBSTAG; WOCHENTAG; BASIS_VERSION; TAGESART_NR; FAHRTEN\nfrm; num[19.0]; num[19.0]; num[19.0]; num[19.0]; num[19.0]\nrec; 20260302; 1; 1; 1; 2\nend; 1\ntbl; X_FAHRT\natr; FRT_FID; LI_NR; VON_TYP; VON_NR; BEGINN; NACH_TYP; NACH_NR; ENDE; LAENGE\nfrm; num[19.0]; num[19.0]; num[19.0]; num[19.0]; num[19.0]; num[19.0]; num[19.0]; num[19.0]; num[19.0]\nrec; 1; 1; 1; 1; 28800; 1; 2; 32400; 60000\nrec; 2; 1; 1; 2; 33000; 1; 1; 36600; 60000\nend; 2\neof; 2\n";

/// What `plan` writes of the network.
pub const PLAN_WRITTEN: &str =
    "tbl; REC_UMLAUF\natr; BASIS_VERSION; TAGESART_NR; UM_UID; ANF_ORT; ANF_ONR_TYP; END_ORT; END_ONR_TYP; FZG_TYP_NR\nfrm; num[19.0]; num[19.0]; num[19.0]; num[19.0]; num[19.0]; num[19.0]; num[19.0]; num[19.0]\nrec; 1; 1; 1; 9; 2; 9; 2; 1\nend; 1\ntbl; REC_FRT\natr; BASIS_VERSION; FRT_FID; FRT_START; LI_NR; TAGESART_NR; FAHRTART_NR; FGR_NR; STR_LI_VAR; UM_UID\nfrm; num[10.0]; num[10.0]; num[10.0]; num[10.0]; num[10.0]; num[10.0]; num[10.0]; char[6]; num[10.0]\nrec; 1; 1; 28800; 1; 1; 1; 1; \"H\"; 1\nrec; 1; 2; 33000; 1; 1; 1; 1; \"R\"; 1\nend; 2\ntbl; X_UMLAUF\natr; UM_UID; HOF_NR; KOSTEN\nfrm; num[19.0]; num[19.0]; num[19.0]\nrec; 1; 1; 2200\nend; 1\ntbl; X_UMLAUF_TEIL\natr; UM_UID; TEIL_NR; ART; FRT_FID; VON_TYP; VON_NR; BEGINN; NACH_TYP; NACH_NR; ENDE\nfrm; num[19.0]; num[19.0]; num[19.0]; num[19.0]; num[19.0]; num[19.0]; num[19.0]; num[19.0]; num[19.0]; num[19.0]\nrec; 1; 1; 1; NULL; 2; 9; 28200; 1; 1; 28800\nrec; 1; 2; 2; 1; 1; 1; 28800; 1; 2; 32400\nrec; 1; 3; 4; NULL; 1; 2; 32400; 1; 2; 33000\nrec; 1; 4; 2; 2; 1; 2; 33000; 1; 1; 36600\nrec; 1; 5; 5; NULL; 1; 1; 36600; 2; 9; 37200\nend; 5\ntbl; X_DIENST\natr; DIENST_NR; GRUPPE_NR; BEGINN; ENDE; LENKZEIT; KOSTEN\nfrm; num[19.0]; num[19.0]; num[19.0]; num[19.0]; num[19.0]; num[19.0]\nrec; 1; 1; 27600; 37500; 8400; 10400\nend; 1\ntbl; X_DIENST_STUECK\natr; DIENST_NR; LFD_NR; UM_UID; STUECK_NR; VON_TYP; VON_NR; BEGINN; NACH_TYP; NACH_NR; ENDE; LENKZEIT\nfrm; num[19.0]; num[19.0]; num[19.0]; num[19.0]; num[19.0]; num[19.0]; num[19.0]; num[19.0]; num[19.0]; num[19.0]; num[19.0]\nrec; 1; 1; 1; 1; 2; 9; 28200; 1; 2; 32400; 4200\nrec; 1; 2; 1; 2; 1; 2; 33000; 2; 9; 37200; 4200\nend; 2\ntbl; X_SCHRANKE\natr; ART; WERT; SCHRANKE\nfrm; num[19.0]; num[19.0]; num[19.0]\nrec; 1; 1; 1\nrec; 2; 2200; 2200\nrec; 3; 1; 1\nrec; 4; 10400; 10400\nend; 4\neof; 7\n";

/// The text with other bytes in the first place of some of its own.
pub fn replaced(alloc: Global, text: Bytes, old: &[u8], new: &[u8]) -> Result<Bytes, Fail> {
    let bytes = text.as_slice();
    let Some(place) = bytes.windows(old.len().max(1)).position(|part| part == old) else {
        return Ok(text);
    };
    let mut made = Vec::from_slice(alloc, &bytes[..place])?;
    made.extend_from_slice(new)?;
    let behind = (place + old.len()).min(bytes.len());
    made.extend_from_slice(&bytes[behind..])?;
    Ok(Bytes::from_vec(made))
}

/// The text with the first place of a part changed.
pub fn changed(alloc: Global, text: Bytes, change: Change) -> Result<Bytes, Fail> {
    let (old, new) = change;
    replaced(alloc, text, old.as_bytes(), new.as_bytes())
}

/// The network. Its text stands here alone, so that no other proof carries it along.
fn whole_network(alloc: Global) -> Result<Bytes, Fail> {
    joined(alloc, &[DEMO], b"\n")
}

/// A text with some changes.
pub fn with(alloc: Global, text: Bytes, changes: &[Change]) -> Result<Bytes, Fail> {
    let mut text = text;
    for change in changes {
        text = changed(alloc, text, *change)?;
    }
    Ok(text)
}

/// The network with some changes.
pub fn demo(alloc: Global, changes: &[Change]) -> Result<Bytes, Fail> {
    with(alloc, whole_network(alloc)?, changes)
}

/// The plan of the network.
pub fn plan_written(alloc: Global) -> Result<Bytes, Fail> {
    joined(alloc, &[WRITTEN_HEAD, PLAN_WRITTEN], b"\r\n")
}

/// How the words end over the network with some changes.
pub fn end_on<R: Threads + Sync>(
    rt: &R,
    alloc: Global,
    words: &[&str],
    changes: &[Change],
) -> Result<Ended, Fail> {
    let files = one_file(alloc, demo(alloc, changes)?, &[])?;
    end_of(rt, alloc, words, files)
}

/// What the words write, and nothing on standard error.
pub fn text_on<R: Threads + Sync>(
    rt: &R,
    alloc: Global,
    words: &[&str],
    changes: &[Change],
) -> Result<Bytes, Fail> {
    let end = end_on(rt, alloc, words, changes)?;
    text_of(alloc, &end)
}

/// Whether the words write the plan of the network and say nothing.
pub fn is_plan_written<R: Threads + Sync>(
    rt: &R,
    alloc: Global,
    words: &[&str],
    changes: &[Change],
) -> Result<bool, Fail> {
    let end = end_on(rt, alloc, words, changes)?;
    let want = plan_written(alloc)?;
    Ok(is_so(&end, 0, want.as_slice(), ""))
}

/// Whether the words are refused with this status number and line, and nothing is written.
pub fn is_refused<R: Threads + Sync>(
    rt: &R,
    alloc: Global,
    words: &[&str],
    changes: &[Change],
    code: u8,
    line: &str,
) -> Result<bool, Fail> {
    let end = end_on(rt, alloc, words, changes)?;
    Ok(is_so(&end, code, b"", line))
}
