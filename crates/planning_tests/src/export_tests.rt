//! The usual export of a planning system: a file a table, and more in it than the planner looks at.

use plan_core::{MemFiles, Seq};
use planner_runs::{Change, end_of, file, is_so, joined, plan_written, replaced, with};
use std::alloc::Global;
use std::test::Fail;
use std::thread::Threads;

/// A name of a file, and its text.
type Export = (&'static str, &'static str);

/// The tables of the network, each in a file of its own: with comments, empty lines and blanks round fields, names of points, a column behind
/// those of the trips, a table that is not looked at, and the planner's own tables in a last file.
const EXPORT: [Export; 12] = [
    (
        "a",
        "mod; DD.MM.YYYY; HH:MM:SS; free\nsrc; \"demo\"; \"01.01.2000\"; \"00:00:00\"\nchs; \"ISO8859-1\"\nver; \"1.4\"\nifv; \"1.4\"\ndve; \"1.4\"\nfft; \"\"\ncom; export\ntbl; BASIS_VER_GUELTIGKEIT\natr; VER_GUELTIGKEIT; BASIS_VERSION\nfrm; num[10.0]; num[10.0]\nrec; 20260101; 1\nend; 1\neof; 1\n",
    ),
    (
        "b",
        "tbl; FIRMENKALENDER\natr; BASIS_VERSION; BETRIEBSTAG; TAGESART_NR\nfrm; num[10.0]; num[10.0]; num[10.0]\nrec ;  1 ;\t20260302;1  \nend; 1\neof; 1\n",
    ),
    (
        "c",
        "com\n\ntbl; REC_ORT\natr; BASIS_VERSION; ONR_TYP_NR; ORT_NR; ORT_NAME\nfrm; num[10.0]; num[10.0]; num[10.0]; char[40]\nrec; 1; 1; 1; \"K?ln\"\nrec; 1; 1; 2; \"B; \"\"Nord\"\"\"\nrec; 1; 2; 9; NULL\nend; 3\neof; 1\n",
    ),
    (
        "d",
        "tbl; REC_SEL\natr; BASIS_VERSION; BEREICH_NR; ONR_TYP_NR; ORT_NR; SEL_ZIEL; SEL_ZIEL_TYP; SEL_LAENGE\nfrm; num[10.0]; num[10.0]; num[10.0]; num[10.0]; num[10.0]; num[10.0]; num[10.0]\nrec; 1; 1; 1; 1; 2; 1; 60000\nrec; 1; 1; 1; 2; 1; 1; 60000\nend; 2\neof; 1\n",
    ),
    (
        "e",
        "com\n\ntbl; SEL_FZT_FELD\natr; BASIS_VERSION; BEREICH_NR; FGR_NR; ONR_TYP_NR; ORT_NR; SEL_ZIEL; SEL_ZIEL_TYP; SEL_FZT\nfrm; num[10.0]; num[10.0]; num[10.0]; num[10.0]; num[10.0]; num[10.0]; num[10.0]; num[10.0]\nrec; 1; 1; 1; 1; 1; 2; 1; 3600\nrec; 1; 1; 1; 1; 2; 1; 1; 3600\nend; 2\neof; 1\n",
    ),
    (
        "f",
        "tbl; REC_LID\natr; BASIS_VERSION; LI_NR; STR_LI_VAR; BEREICH_NR\nfrm; num[10.0]; num[10.0]; char[6]; num[10.0]\nrec; 1; 1; \"H\"; 1\nrec; 1; 1; \"R\"; 1\nend; 2\neof; 1\n",
    ),
    (
        "g",
        "com\n\ntbl; LID_VERLAUF\natr; BASIS_VERSION; LI_LFD_NR; LI_NR; STR_LI_VAR; ONR_TYP_NR; ORT_NR\nfrm; num[10.0]; num[10.0]; num[10.0]; char[6]; num[10.0]; num[10.0]\nrec; 1; 1; 1; \"H\"; 1; 1\nrec; 1; 2; 1; \"H\"; 1; 2\nrec; 1; 1; 1; \"R\"; 1; 2\nrec; 1; 2; 1; \"R\"; 1; 1\nend; 4\neof; 1\n",
    ),
    (
        "h",
        "tbl; REC_FRT\natr; BASIS_VERSION; FRT_FID; FRT_START; LI_NR; TAGESART_NR; FAHRTART_NR; FGR_NR; STR_LI_VAR; UM_UID; EXTRA\nfrm; num[10.0]; num[10.0]; num[10.0]; num[10.0]; num[10.0]; num[10.0]; num[10.0]; char[6]; num[10.0]; char[10]\nrec; 1; 1; 28800; 1; 1; 1; 1; \"H\"; NULL; \"a\"\nrec; 1; 2; 33000; 1; 1; 1; 1; \"R\"; NULL; NULL\nend; 2\neof; 1\n",
    ),
    (
        "i",
        "com\n\ntbl; UEB_FZT\natr; BASIS_VERSION; BEREICH_NR; FGR_NR; ONR_TYP_NR; ORT_NR; UEB_ZIEL_TYP; UEB_ZIEL; UEB_FAHRZEIT\nfrm; num[10.0]; num[10.0]; num[10.0]; num[10.0]; num[10.0]; num[10.0]; num[10.0]; num[10.0]\n\trec;1;1;  1;2;9;1;1;600\nrec; 1; 1; 1; 1; 1; 2; 9; 600\nrec; 1; 1; 1; 2; 9; 1; 2; 900\nrec; 1; 1; 1; 1; 2; 2; 9; 900\nend; 4\neof; 1\n",
    ),
    (
        "j",
        "tbl; MENGE_FZG_TYP\natr; BASIS_VERSION; FZG_TYP_NR\nfrm; num[10.0]; num[10.0]\ncom; the types of vehicles\nrec; 1; 1\nend; 1\neof; 1\n",
    ),
    (
        "k",
        "tbl; REC_UMS\natr; BASIS_VERSION; EINAN_NR; UMS_MAX\nfrm; num[10.0]; num[10.0]; num[10.0]\nrec; 1; 1; 300\nend; 1\neof; 1\n",
    ),
    (
        "l",
        "tbl; X_PLAN\natr; UEB_BEREICH_NR; UEB_FGR_NR; WENDE_SEK; MAX_WARTE_SEK; UEBERGABE_SEK\nfrm; num[10.0]; num[10.0]; num[10.0]; num[10.0]; num[10.0]\nrec; 1; 1; 300; 7200; 300\nend; 1\ntbl; X_HOF\natr; HOF_NR; ONR_TYP_NR; ORT_NR; FZG_TYP_NR; ANZAHL; FIX_KOSTEN; LEER_SATZ; STAND_SATZ\nfrm; num[10.0]; num[10.0]; num[10.0]; num[10.0]; num[10.0]; num[10.0]; num[10.0]; num[10.0]\nrec; 1; 2; 9; 1; 2; 1000; 1; 0\nend; 1\ntbl; X_ABLOESE\natr; ONR_TYP_NR; ORT_NR\nfrm; num[10.0]; num[10.0]\nrec; 1; 2\nend; 1\ntbl; X_WEG\natr; ONR_TYP_NR; ORT_NR; ZIEL_TYP; ZIEL_NR; WEG_SEK\nfrm; num[10.0]; num[10.0]; num[10.0]; num[10.0]; num[10.0]\nrec; 1; 2; 2; 9; 1200\nrec; 2; 9; 1; 2; 1200\nend; 2\ntbl; X_FAHRER\natr; GRUPPE_NR; ONR_TYP_NR; ORT_NR; ANZAHL; FIX_KOSTEN; SATZ; ANMELDE_SEK; ABMELDE_SEK\nfrm; num[10.0]; num[10.0]; num[10.0]; num[10.0]; num[10.0]; num[10.0]; num[10.0]; num[10.0]\nrec; 1; 2; 9; 2; 500; 1; 600; 300\nend; 1\neof; 5\n",
    ),
];

/// What a plan of it has besides: the column behind those of the trips.
const FURTHER: &[Change] = &[
    ("STR_LI_VAR; UM_UID", "STR_LI_VAR; UM_UID; EXTRA"),
    ("char[6]; num[10.0]", "char[6]; num[10.0]; char[10]"),
    ("\"H\"; 1", "\"H\"; 1; \"a\""),
    ("\"R\"; 1", "\"R\"; 1; NULL"),
];

const WORDS: &[&str] = &[
    "plan", "20260302", "a", "b", "c", "d", "e", "f", "g", "h", "i", "j", "k", "l",
];

/// The files, whose lines end with CR LF. A name of a point has a byte of ISO 8859-1.
fn export(alloc: Global) -> Result<MemFiles, Fail> {
    let mut files = Seq::new(alloc);
    for place in 0..EXPORT.len() {
        let (name, text) = EXPORT[place];
        let bytes = joined(alloc, &[text], b"\r\n")?;
        let bytes = replaced(alloc, bytes, b"K?ln", b"K\xf6ln")?;
        files.push(file(alloc, name, bytes)?)?;
    }
    Ok(MemFiles::new(files, Seq::new(alloc)))
}

/// Whether the plan is that of the network, with what its trips have besides.
fn is_planned<R: Threads + Sync>(rt: &R, alloc: Global) -> Result<bool, Fail> {
    let end = end_of(rt, alloc, WORDS, export(alloc)?)?;
    let want = with(alloc, plan_written(alloc)?, FURTHER)?;
    Ok(is_so(&end, 0, want.as_slice(), ""))
}

#[test]
fn an_export_of_many_files_is_planned(rt: HostRuntime) -> Result<(), Fail> {
    assert!(rt; is_planned(&rt, rt.alloc())?);
    Ok(())
}
