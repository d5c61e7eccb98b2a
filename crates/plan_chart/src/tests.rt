//! Runs over a file and sinks in memory.

ghost use Rattle.std.specs.Prelude.{◌≡◌, IfOk};

use crate::run::run;
use plan_core::{Bytes, MemFile, MemFiles, MemSink, Seq};
use std::alloc::Global;
use std::test::Fail;

const VEHICLES: &str =
    "tbl; REC_UMLAUF\natr; UM_UID; FZG_TYP_NR\nfrm; num[9.0]; num[9.0]\nrec; 1; 4\nend; 1\n";

const TRIPS: &str =
    "tbl; REC_FRT\natr; FRT_FID; LI_NR; STR_LI_VAR\nfrm; num[9.0]; num[9.0]; char[9]\nrec; 17; 3; \"<&'>\"\nend; 1\n";

const BLOCKS: &str =
    "tbl; X_UMLAUF\natr; UM_UID; HOF_NR; KOSTEN\nfrm; num[9.0]; num[9.0]; num[9.0]\nrec; 1; 2; 900\nend; 1\n";

const LEGS_HEAD: &str =
    "tbl; X_UMLAUF_TEIL\natr; UM_UID; TEIL_NR; ART; FRT_FID; VON_TYP; VON_NR; BEGINN; NACH_TYP; NACH_NR; ENDE\nfrm; num[9.0]; num[9.0]; num[9.0]; num[9.0]; num[9.0]; num[9.0]; num[9.0]; num[9.0]; num[9.0]; num[9.0]\n";

const LEG: &str = "rec; 1; 1; 2; 17; 1; 1; 28800; 1; 2; 32430\nend; 1\n";

const DUTIES: &str =
    "tbl; X_DIENST\natr; DIENST_NR; GRUPPE_NR; BEGINN; ENDE; LENKZEIT; KOSTEN\nfrm; num[9.0]; num[9.0]; num[9.0]; num[9.0]; num[9.0]; num[9.0]\nrec; 1; 5; -600; 33000; 3630; 800\nend; 1\n";

const PIECES_HEAD: &str =
    "tbl; X_DIENST_STUECK\natr; DIENST_NR; LFD_NR; UM_UID; STUECK_NR; VON_TYP; VON_NR; BEGINN; NACH_TYP; NACH_NR; ENDE; LENKZEIT\nfrm; num[9.0]; num[9.0]; num[9.0]; num[9.0]; num[9.0]; num[9.0]; num[9.0]; num[9.0]; num[9.0]; num[9.0]; num[9.0]\n";

const PIECES: &str =
    "rec; 1; 1; 1; 1; 1; 1; 28800; 1; 2; 30000; 1200\nrec; 1; 2; 1; 2; 1; 2; 32700; 1; 1; 33000; 300\nend; 2\n";

const BOUNDS: &str =
    "tbl; X_SCHRANKE\natr; ART; WERT; SCHRANKE\nfrm; num[9.0]; num[9.0]; num[9.0]\nrec; 2; 900; 800\nrec; 4; 7; 0\nend; 2\n";

const END: &str = "eof; 7\n";

/// A plan with one trip, and a pause of 45 minutes.
const PLAN: [&str; 10] = [
    VEHICLES,
    TRIPS,
    BLOCKS,
    LEGS_HEAD,
    LEG,
    DUTIES,
    PIECES_HEAD,
    PIECES,
    BOUNDS,
    END,
];

fn bytes_of(alloc: Global, texts: &[&str]) -> Result<Bytes, Fail> {
    let mut bytes = Vec::new(alloc);
    for text in texts {
        bytes.extend_from_slice(text.as_bytes())?;
    }
    Ok(Bytes::from_vec(bytes))
}

fn numbers(alloc: Global, list: &[u64]) -> Result<Seq<u64>, Fail> {
    Ok(Seq::from_vec(list.to_vec(alloc)?))
}

fn sink(alloc: Global, fails: &[u64]) -> Result<MemSink, Fail> {
    Ok(MemSink::new(alloc, 30_000, 30_000, numbers(alloc, fails)?).map_err(|_| "memory")?)
}

fn file(alloc: Global, bytes: Bytes) -> Result<MemFile, Fail>
    ensures { IfOk result (λ file. file.faults ≡ 0) }
{
    Ok(MemFile {
        name: Bytes::from_vec(b"f".to_vec(alloc)?),
        bytes,
        faults: 0,
    })
}

fn words_from(alloc: Global, words: &[&str]) -> Result<Vec<Bytes>, Fail> {
    let mut list = Vec::new(alloc);
    for word in words {
        list.push(Bytes::from_vec(word.as_bytes().to_vec(alloc)?))?;
    }
    Ok(list)
}

/// The status number of a run over the one file `f`.
fn run_on(
    alloc: Global,
    words: &[&str],
    texts: &[&str],
    out: &mut MemSink,
    err: &mut MemSink,
) -> Result<u8, Fail> {
    let list = words_from(alloc, words)?;
    let mut files = MemFiles::new(
        Seq::from_vec(vec![in alloc; file(alloc, bytes_of(alloc, texts)?)?]?),
        numbers(alloc, &[])?,
    );
    Ok(run(alloc, list.as_slice(), &mut files, out, err).code())
}

/// Whether a run refuses with this number and line, and writes nothing.
fn is_refused(
    alloc: Global,
    words: &[&str],
    texts: &[&str],
    code: u8,
    line: &str,
) -> Result<bool, Fail> {
    let mut out = sink(alloc, &[])?;
    let mut err = sink(alloc, &[])?;
    let answer = run_on(alloc, words, texts, &mut out, &mut err)?;
    Ok(answer == code && out.taken().is_empty() && err.taken() == line.as_bytes())
}

/// The same plan with other legs.
fn with_legs(legs: &'static str) -> [&'static str; 10] {
    [
        VEHICLES,
        TRIPS,
        BLOCKS,
        LEGS_HEAD,
        legs,
        DUTIES,
        PIECES_HEAD,
        PIECES,
        BOUNDS,
        END,
    ]
}

#[test]
fn draws_each_row_once(rt: HostRuntime) -> Result<(), Fail> {
    let mut out = sink(rt.alloc(), &[])?;
    let mut err = sink(rt.alloc(), &[])?;
    let code = run_on(rt.alloc(), &["--", "f"], &PLAN, &mut out, &mut err)?;
    assert_eq!(rt; code, 0);
    assert!(rt; err.taken().is_empty());
    let page = str::from_utf8(out.taken()).expect(&rt, "ASCII");
    for part in [
        "<path class='trip' d='M1036800 0.1H1040430v.8H1036800z' data-trip='17'><title>Trip 17, line 3 &lt;&amp;&#39;&gt;: 08:00 to 09:00:30, from point 1 of type 1 to point 2 of type 1; block 1, leg 1</title></path>",
        "<tr><th>Cost of the blocks</th><td>900</td><td>800</td><td>12.5 %</td></tr>",
        "<tr><th>Cost of the duties</th><td>7</td><td>0</td><td>&#8211;</td></tr>",
        "<path class='duty' d='M1007400 0.1H1041000v.8H1007400z'><title>Duty 1 of group 5: sign-on -00:10, sign-off 09:10, spread 09:20, driving 01:00:30, cost 800</title></path>",
        "<path class='break' d='M1038000 0.1H1040700v.8H1038000z'><title>Pause of 00:45: 08:20 to 09:05</title></path>",
        "<path class='piece' d='M1036800 0.1H1038000v.8H1036800z'><title>Piece 1 of block 1, duty 1: 08:00 to 08:20, from point 1 of type 1 to point 2 of type 1, driving 00:20</title></path>",
    ] {
        assert_eq!(rt; page.matches(part).count(), 1, "{part}");
    }
    Ok(())
}

#[test]
fn refuses_with_a_line_and_writes_nothing(rt: HostRuntime) -> Result<(), Fail> {
    let usage = "usage: planner-chart PLAN\n";
    let bad_leg =
        "rec; 1; 1; 1; NULL; 1; 1; 28800; 1; 2; 28900\nrec; 1; 1; 1; NULL; 1; 1; 28800; 1; 2; 28799\nend; 2\n";
    let no_trip = "rec; 1; 1; 2; 18; 1; 1; 28800; 1; 2; 32430\nend; 1\n";
    let cases: [(&[&str], &[&str], u8, &str); 9] = [
        (&[], &PLAN, 2, usage),
        (&["f", "f"], &PLAN, 2, usage),
        (&["--page"], &PLAN, 2, usage),
        (&["g"], &PLAN, 7, "read fault: file 1\n"),
        (&["f"], &[VEHICLES, "end; 1\n"], 3, "file 1 line 6: Order\n"),
        (&["f"], &["eof; 0\n"], 3, "table REC_FRT row 0: not drawn\n"),
        (
            &["f"],
            &[TRIPS, VEHICLES, VEHICLES, "eof; 3\n"],
            3,
            "table REC_UMLAUF row 0: not drawn\n",
        ),
        (
            &["f"],
            &with_legs(bad_leg),
            3,
            "table X_UMLAUF_TEIL row 2: not drawn\n",
        ),
        (
            &["f"],
            &with_legs(no_trip),
            3,
            "table X_UMLAUF_TEIL row 1: not drawn\n",
        ),
    ];
    for (words, texts, code, line) in cases {
        assert!(rt; is_refused(rt.alloc(), words, texts, code, line)?, "{line}");
    }
    Ok(())
}

#[test]
fn a_failed_write_ends_the_run(rt: HostRuntime) -> Result<(), Fail> {
    let mut out = sink(rt.alloc(), &[1])?;
    let mut err = sink(rt.alloc(), &[])?;
    let code = run_on(rt.alloc(), &["f"], &PLAN, &mut out, &mut err)?;
    assert_eq!(rt; code, 8);
    assert_eq!(rt; err.taken(), b"write fault\n".as_slice());
    Ok(())
}
