//! Reading and writing over files and sinks in memory.

ghost use Rattle.std.specs.Prelude.{◌≡◌, ◌≤◌, None, IfOk, All, length, drop};
ghost use Rattle.input_files.specs.Stages.{IsStage};

use input_files::{
    CheckParts, EarlierParts, FileFault, MOST_BYTES, ReadRefusal, Stage, join_tables, read_files,
    read_whole, split_earlier, split_plan, write_whole,
};
use plan_core::{Bytes, Failed, Files, MemFile, MemFiles, MemSink, Memory, Seq, Sink};
use std::alloc::Global;
use std::test::Fail;
use system_files::copy_front;
use vdv451_text::{Table, TextFault, TextKind};

/// One table, in 49 bytes.
const ONE: &str = "tbl; A\natr; N\nfrm; num[9.0]\nrec; 1\nend; 1\neof; 1\n";

/// Two tables, in 98 bytes.
const TWO: &str =
    "tbl; B\natr; N\nfrm; num[9.0]\nrec; 1\nend; 1\ntbl; C\natr; N\nfrm; num[9.0]\nrec; 1\nrec; 2\nend; 2\neof; 2\n";

/// No table.
const NONE: &str = "eof; 0\n";

/// A wrong number of rows in line 5.
const WRONG: &str = "tbl; A\natr; N\nfrm; num[9.0]\nrec; 1\nend; 2\neof; 1\n";

/// No end, so that the fault is in line 6.
const UNENDED: &str = "tbl; A\natr; N\nfrm; num[9.0]\nrec; 1\nend; 1\n";

fn file(alloc: Global, name: &str, text: &str) -> Result<MemFile, Fail>
    ensures { IfOk result (λ file. file.faults ≡ 0) }
{
    Ok(MemFile {
        name: Bytes::from_vec(name.as_bytes().to_vec(alloc)?),
        bytes: Bytes::from_vec(text.as_bytes().to_vec(alloc)?),
        faults: 0,
    })
}

/// The files of all tests; the reads of the listed numbers fail.
fn files_with(alloc: Global, fails: &[u64]) -> Result<MemFiles, Fail> {
    let files = vec![in alloc;
        file(alloc, "one", ONE)?,
        file(alloc, "two", TWO)?,
        file(alloc, "none", NONE)?,
        file(alloc, "wrong", WRONG)?,
        file(alloc, "unended", UNENDED)?,
    ]?;
    Ok(MemFiles::new(Seq::from_vec(files), Seq::from_vec(fails.to_vec(alloc)?)))
}

fn words_of(alloc: Global, words: &[&str]) -> Result<Vec<Bytes>, Fail> {
    let mut list = Vec::new(alloc);
    for word in words {
        list.push(Bytes::from_vec(word.as_bytes().to_vec(alloc)?))?;
    }
    Ok(list)
}

/// A planning file, behind which some may come, with at most so many bytes together.
fn planning(more: u32, left: u64) -> Stage
    ensures { IsStage result }
{
    Stage::Planning {
        more,
        left: left.min(MOST_BYTES),
    }
}

/// Reads the files of these names; the first is of this stage.
fn read_named(
    alloc: Global,
    names: &[&str],
    stage: Stage,
    fails: &[u64],
) -> Result<Result<Seq<Seq<Table>>, FileFault>, Fail>
    requires { IsStage stage }
{
    let mut files = files_with(alloc, fails)?;
    let list = words_of(alloc, names)?;
    if list.len() > 66 {
        return Err(Fail::from("too many names"));
    }
    Ok(read_files(alloc, &mut files, list.as_slice(), stage))
}

/// Whether the files have so many tables each.
fn have_counts(parts: &[Seq<Table>], counts: &[usize]) -> bool {
    if parts.len() != counts.len() {
        return false;
    }
    for (part, count) in parts.iter().zip(counts) {
        if part.len() != *count {
            return false;
        }
    }
    true
}

/// The files of these names, of which the first is of this stage, have so many tables each.
fn has_counts(alloc: Global, names: &[&str], stage: Stage, counts: &[usize]) -> Result<bool, Fail>
    requires { IsStage stage }
{
    match read_named(alloc, names, stage, &[])? {
        Ok(parts) => Ok(have_counts(parts.as_slice(), counts)),
        Err(_) => Ok(false),
    }
}

/// The files of these names are refused with this fault.
fn has_fault(
    alloc: Global,
    names: &[&str],
    stage: Stage,
    fails: &[u64],
    want: FileFault,
) -> Result<bool, Fail>
    requires { IsStage stage }
{
    match read_named(alloc, names, stage, fails)? {
        Ok(_) => Ok(false),
        Err(fault) => Ok(fault == want),
    }
}

/// The files of these names are read, of which the first is of this stage.
fn is_read(alloc: Global, names: &[&str], stage: Stage, fails: &[u64]) -> Result<bool, Fail>
    requires { IsStage stage }
{
    Ok(read_named(alloc, names, stage, fails)?.is_ok())
}

fn text_fault(file: u32, line: u32, kind: TextKind) -> FileFault {
    FileFault::Text {
        file,
        fault: TextFault { line, kind },
    }
}

/// Files, how many planning files follow the first and how many bytes they have together; and how many tables each file has.
const COUNTS: [(&[&str], u32, u64, &[usize]); 7] = [
    (&[], 0, 0, &[]),
    (&["one", "two", "none"], 2, MOST_BYTES, &[1, 2, 0]),
    (&["one", "one"], 1, 98, &[1, 1]),
    (&["one", "one", "one"], 1, 98, &[1, 1, 1]),
    (&["one", "one"], 0, 49, &[1, 1]),
    (&["one", "two", "two"], 0, 49, &[1, 2, 2]),
    (&["one", "two", "one", "two"], 0, 49, &[1, 2, 1, 2]),
];

/// The same, and the number of the file that has too many bytes.
const LARGE: [(&[&str], u32, u64, u32); 5] = [
    (&["one", "one"], 1, 97, 2),
    (&["one", "one"], 2, 48, 1),
    (&["one", "one"], 0, 48, 1),
    (&["none", "one", "one"], 2, 104, 3),
    (&["none", "one", "two", "missing"], 2, 153, 3),
];

#[test]
fn planning_files_share_their_bytes_and_a_plan_does_not(rt: HostRuntime) -> Result<(), Fail> {
    let alloc = rt.alloc();
    for (names, more, left, counts) in COUNTS {
        assert!(rt;
            has_counts(alloc, names, planning(more, left), counts)?,
            "{more} {left}"
        );
    }
    for (names, more, left, number) in LARGE {
        let want = text_fault(number, 0, TextKind::TooLarge);
        assert!(rt;
            has_fault(alloc, names, planning(more, left), &[], want)?,
            "{more} {left}"
        );
    }
    Ok(())
}

/// Files, and the number of the first one with a fault, with its line and kind.
const FAULTS: [(&[&str], u32, u32, TextKind); 6] = [
    (&["one", "wrong", "two"], 2, 5, TextKind::EndCount),
    (&["one", "two", "unended"], 3, 6, TextKind::Unended),
    (&["one", "two", "wrong"], 3, 5, TextKind::EndCount),
    (&["wrong", "missing", "unended"], 1, 5, TextKind::EndCount),
    (&["one", "unended", "missing"], 2, 6, TextKind::Unended),
    (&["unended", "wrong"], 1, 6, TextKind::Unended),
];

#[test]
fn the_first_fault_refuses_all(rt: HostRuntime) -> Result<(), Fail> {
    let alloc = rt.alloc();
    for (names, number, line, kind) in FAULTS {
        let want = text_fault(number, line, kind);
        assert!(rt;
            has_fault(alloc, names, planning(0, 98), &[], want)?,
            "{number} {line}"
        );
        assert!(rt;
            has_fault(alloc, names, Stage::Plan, &[], want)?,
            "{number} {line}"
        );
    }
    Ok(())
}

/// Files, the numbers of the reads that fail, and the number of the file that is not read.
const FAILED_READS: [(&[&str], &[u64], u32); 9] = [
    (&["one", "two", "one"], &[1], 1),
    (&["one", "two", "one"], &[2], 1),
    (&["one", "two", "one"], &[3], 2),
    (&["one", "two", "one"], &[4], 2),
    (&["one", "two", "one"], &[5], 3),
    (&["one", "two", "one"], &[6], 3),
    (&["missing", "wrong"], &[], 1),
    (&["one", "missing", "wrong"], &[], 2),
    (&["one", "two", "missing"], &[], 3),
];

#[test]
fn reads_that_fail_are_answered_with_their_file(rt: HostRuntime) -> Result<(), Fail> {
    let alloc = rt.alloc();
    for (names, fails, number) in FAILED_READS {
        let want = FileFault::Read { file: number };
        assert!(rt;
            has_fault(alloc, names, planning(0, 98), fails, want)?,
            "{number}"
        );
    }
    let wrong = text_fault(1, 5, TextKind::EndCount);
    assert!(rt; has_fault(alloc, &["wrong", "one"], planning(1, 200), &[3], wrong)?);
    assert!(rt; is_read(alloc, &["one", "two", "one"], planning(0, 98), &[7])?);
    Ok(())
}

/// Whether the tables have these names, of one letter each.
fn have_names(tables: &[Table], names: &[u8]) -> bool {
    if tables.len() != names.len() {
        return false;
    }
    for (table, name) in tables.iter().zip(names) {
        if table.name.as_slice() != [*name].as_slice() {
            return false;
        }
    }
    true
}

/// The files of these names, of which the first is of this stage.
fn read_well(alloc: Global, names: &[&str], stage: Stage) -> Result<Seq<Seq<Table>>, Fail>
    requires { IsStage stage }
{
    match read_named(alloc, names, stage, &[])? {
        Ok(parts) => Ok(parts),
        Err(_) => Err(Fail::from("refused")),
    }
}

/// Whether a plan and a certificate are taken off two planning files and an empty one between them, whose tables are then joined.
fn is_parted(alloc: Global, parts: Seq<Seq<Table>>) -> Result<bool, Memory> {
    if parts.len() < 2 {
        return Ok(false);
    }
    let CheckParts {
        planning,
        plan,
        cert,
    } = split_plan(parts);
    let counted = have_counts(planning.as_slice(), &[2, 0, 1]);
    let named = have_names(plan.as_slice(), b"A") && have_names(cert.as_slice(), b"BC");
    let tables = join_tables(alloc, planning)?;
    Ok(counted && named && have_names(tables.as_slice(), b"BCA"))
}

#[test]
fn a_plan_and_a_certificate_stand_behind_the_planning_files(rt: HostRuntime) -> Result<(), Fail> {
    let alloc = rt.alloc();
    let names = ["two", "none", "one", "one", "two"];
    let parts = read_well(alloc, &names, planning(2, 200))?;
    assert!(rt; is_parted(alloc, parts)?);
    Ok(())
}

/// Whether a plan is taken off a planning file and an empty one.
fn is_earlier_parted(parts: Seq<Seq<Table>>) -> bool {
    if parts.is_empty() {
        return false;
    }
    let EarlierParts { planning, plan } = split_earlier(parts);
    have_counts(planning.as_slice(), &[2, 0]) && have_names(plan.as_slice(), b"A")
}

#[test]
fn an_earlier_plan_stands_behind_the_planning_files(rt: HostRuntime) -> Result<(), Fail> {
    let parts = read_well(rt.alloc(), &["two", "none", "one"], planning(1, 105))?;
    assert!(rt; is_earlier_parted(parts));
    Ok(())
}

/// The bytes from a place on.
fn rest_of(bytes: &[u8], at: u64) -> &[u8] {
    if at >= bytes.len() as u64 {
        return &[];
    }
    &bytes[at as usize..]
}

/// Files that hold the same text under each name, give at most so many bytes with a read, and note each place and size that they are
/// asked for.
#[derive(Drop)]
struct NotedFiles {
    bytes: Bytes,
    most: usize,
    places: Vec<usize>,
    sizes: Vec<usize>,
}

impl Files for NotedFiles {
    ghost held = { λ _ _. None };

    ghost faults = { λ _ _. 0 };

    fn read(&mut self, _name: &[u8], at: u64, buf: &mut [u8]) -> Result<usize, Failed> {
        let _ = self.places.push(at as usize);
        let _ = self.sizes.push(buf.len());
        let rest = rest_of(self.bytes.as_slice(), at);
        let count = rest.len().min(self.most).min(buf.len());
        copy_front(rest, count, buf);
        Ok(count)
    }
}

/// Whether these are the places at which a file of so many bytes is read, so many with each read.
fn are_places(places: &[usize], bytes: usize, step: usize) -> bool {
    let mut want = 0usize;
    for place in places {
        if *place != want.min(bytes) {
            return false;
        }
        want = want.saturating_add(step);
    }
    places.len() == bytes.div_ceil(step.max(1)).saturating_add(1)
}

/// Whether a file of 150,001 bytes is read in such steps where a read gives at most so many bytes.
fn is_read_in_steps(alloc: Global, most: usize, step: usize) -> Result<bool, Fail> {
    let mut files = NotedFiles {
        bytes: Bytes::from_vec(vec![in alloc; 7u8; 150_001]?),
        most,
        places: Vec::new(alloc),
        sizes: Vec::new(alloc),
    };
    match read_whole(alloc, &mut files, b"f", 150_001) {
        Ok(bytes) => Ok(
            bytes.len() == 150_001
                && are_places(files.places.as_slice(), 150_001, step)
                && files.sizes.iter().all(|size| *size == 65_536),
        ),
        Err(_) => Ok(false),
    }
}

#[test]
fn a_file_is_read_in_pieces_without_gap_to_its_end(rt: HostRuntime) -> Result<(), Fail> {
    for (most, step) in [
        (1_000_000, 65_536),
        (65_536, 65_536),
        (65_535, 65_535),
        (10_000, 10_000),
    ] {
        assert!(rt; is_read_in_steps(rt.alloc(), most, step)?, "{most}");
    }
    Ok(())
}

/// What reading the file of a name gives: its number of bytes, or the refusal.
fn read_size(alloc: Global, name: &str, most: u32) -> Result<Result<usize, ReadRefusal>, Fail> {
    let mut files = files_with(alloc, &[])?;
    match read_whole(alloc, &mut files, name.as_bytes(), most as u64) {
        Ok(bytes) => Ok(Ok(bytes.len())),
        Err(refusal) => Ok(Err(refusal)),
    }
}

#[test]
fn a_file_has_at_most_so_many_bytes(rt: HostRuntime) -> Result<(), Fail> {
    let alloc = rt.alloc();
    let rows = [
        ("one", 49, Ok(49)),
        ("one", 48, Err(ReadRefusal::TooLarge)),
        ("one", 0, Err(ReadRefusal::TooLarge)),
        ("two", 4_294_967_295, Ok(98)),
        ("missing", 49, Err(ReadRefusal::Fault)),
    ];
    for (name, most, want) in rows {
        assert!(rt; read_size(alloc, name, most)? == want, "{name} {most}");
    }
    Ok(())
}

/// A sink that takes at most so many bytes with a write, and notes how many it is handed.
#[derive(Drop)]
struct NotedSink {
    most: usize,
    sizes: Vec<usize>,
}

impl Sink for NotedSink {
    ghost taken = { λ _. None };

    ghost faults = { λ _. 0 };

    fn write(&mut self, piece: &[u8]) -> Result<usize, Failed> {
        let _ = self.sizes.push(piece.len());
        Ok(piece.len().min(self.most.max(1)))
    }
}

/// Whether each write is handed all that is not yet taken, where it takes at most so many bytes.
fn hands_the_rest(alloc: Global, most: usize) -> bool {
    let mut out = NotedSink {
        most,
        sizes: Vec::new(alloc),
    };
    let is_written = write_whole(&mut out, ONE.as_bytes()).is_ok();
    let mut left = ONE.len();
    for size in out.sizes.iter() {
        if *size != left {
            return false;
        }
        left = left.saturating_sub(most);
    }
    is_written && out.sizes.len() == ONE.len().div_ceil(most.max(1))
}

#[test]
fn each_write_is_handed_all_that_is_not_yet_taken(rt: HostRuntime) -> Result<(), Fail> {
    for most in [1usize, 10, 1_000] {
        assert!(rt; hands_the_rest(rt.alloc(), most), "{most}");
    }
    Ok(())
}

/// Whether a write of which the listed call fails leaves so many bytes of the initial part.
fn leaves_front(alloc: Global, fail: u64, taken: usize) -> Result<bool, Fail> {
    let fails = Seq::from_vec(vec![in alloc; fail]?);
    let mut out = MemSink::new(alloc, 1_000, 10, fails)?;
    let is_whole = write_whole(&mut out, ONE.as_bytes()).is_ok();
    let front = out.taken();
    Ok(is_whole == (taken == 49) && front.len() == taken && ONE.as_bytes().starts_with(front))
}

#[test]
fn a_write_that_fails_leaves_a_front(rt: HostRuntime) -> Result<(), Fail> {
    for (fail, taken) in [(1, 0), (2, 10), (5, 40), (6, 49)] {
        assert!(rt; leaves_front(rt.alloc(), fail, taken)?, "{fail}");
    }
    Ok(())
}
