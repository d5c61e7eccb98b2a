//! The command `make`: its words, its tables and its plans, over files and sinks in memory.

use plan_core::{Bytes, Gate, NoGate};
use planner_runs::{
    Ended, USAGE, WRITTEN_HEAD, end_in_room, has_part, is_so, joined, no_files, one_file, written,
};
use std::alloc::Global;
use std::sync::atomic::{AtomicBool, AtomicU32, Ordering};
use std::test::Fail;
use std::thread;
use std::thread::Threads;

/// Whether the words are none of the planner's.
fn is_usage<R: Threads + Sync>(rt: &R, alloc: Global, words: &[&str]) -> Result<bool, Fail> {
    let end = end_in_room(rt, alloc, words, no_files(alloc), &NoGate)?;
    Ok(is_so(&end, 2, b"", USAGE))
}

/// Words that are none of the planner's.
const NO_WORDS: [&[&str]; 21] = [
    &["make", "7", "--trips", "0"],
    &["make", "1234567890"],
    &["make"],
    &["make", ""],
    &["make", "+7"],
    &["make", "-7"],
    &["make", "7", "8"],
    &["make", "7", "--", "8"],
    &["make", "7", "--trips", "3001"],
    &["make", "7", "--trips"],
    &["make", "7", "--trips=1", "--trips=1"],
    &["make", "7", "--run="],
    &["make", "7", "--run=1"],
    &["make", "7", "--run", "--run"],
    &["make", "7", "--run", "1"],
    &["make", "7", "--climb", "--climb"],
    &["make", "7", "--run", "--climb="],
    &["make", "7", "--workers", "65"],
    &["plan", "--trips", "5", "20260302", "f"],
    &["plan", "--run", "20260302", "f"],
    &["day", "20260302", "f", "--run"],
];

/// The first words that are the planner's, where there are some.
fn first_words<R: Threads + Sync>(
    rt: &R,
    alloc: Global,
    rows: &[&[&str]],
) -> Result<Option<usize>, Fail> {
    for place in 0..rows.len() {
        if !is_usage(rt, alloc, rows[place])? {
            return Ok(Some(place));
        }
    }
    Ok(None)
}

fn first_of_no_words<R: Threads + Sync>(rt: &R, alloc: Global) -> Result<Option<usize>, Fail> {
    first_words(rt, alloc, NO_WORDS.as_slice())
}

#[test]
fn a_day_is_made_from_one_seed(rt: HostRuntime) -> Result<(), Fail> {
    assert_eq!(rt; first_of_no_words(&rt, rt.alloc())?, None);
    Ok(())
}

/// Whether the words write this text.
fn writes<R: Threads + Sync>(
    rt: &R,
    alloc: Global,
    words: &[&str],
    text: &Bytes,
) -> Result<bool, Fail> {
    Ok(written(rt, alloc, words, &NoGate)? == *text)
}

/// Whether some words write one text, and others write another one.
fn write_alike<R: Threads + Sync>(
    rt: &R,
    alloc: Global,
    one: &[&str],
    same: &[&[&str]],
) -> Result<bool, Fail> {
    let text = written(rt, alloc, one, &NoGate)?;
    for words in same {
        if !writes(rt, alloc, words, &text)? {
            return Ok(false);
        }
    }
    Ok(true)
}

/// The words of one made trip, with options of planning in any place.
const ONE_TRIP: [&[&str]; 4] = [
    &["make", "--trips=0001", "--", "000000007"],
    &["make", "--rounds", "5", "7", "--trips", "1", "--workers=8"],
    &["make", "--lower=1", "--exchange", "0", "--trips", "1", "7"],
    &["make", "--climb", "7", "--trips", "1"],
];

/// Whether options of planning change no tables, another number of trips does, and 240 trips are made where none are said.
fn change_no_tables<R: Threads + Sync>(rt: &R, alloc: Global) -> Result<bool, Fail> {
    let one = ["make", "7", "--trips", "1"];
    let two: [&str; 4] = ["make", "7", "--trips", "2"];
    let said: [&str; 4] = ["make", "7", "--trips", "240"];
    Ok(
        write_alike(rt, alloc, &one, ONE_TRIP.as_slice())?
            && !write_alike(rt, alloc, &one, &[&two])?
            && write_alike(rt, alloc, &["make", "7"], &[&said])?,
    )
}

#[test]
fn options_stand_anywhere_and_change_no_tables(rt: HostRuntime) -> Result<(), Fail> {
    assert!(rt; change_no_tables(&rt, rt.alloc())?);
    Ok(())
}

/// How a command ends over so many made trips.
fn end_on_made<R: Threads + Sync>(
    rt: &R,
    alloc: Global,
    command: &str,
    seed: &str,
    trips: &str,
) -> Result<Ended, Fail> {
    let text = written(rt, alloc, &["make", seed, "--trips", trips], &NoGate)?;
    let files = one_file(alloc, text, &[])?;
    end_in_room(rt, alloc, &[command, "20260302", "f"], files, &NoGate)
}

/// Whether `trips` and `plan` end well over made trips, and `day` writes this row.
fn are_planning_files<R: Threads + Sync>(
    rt: &R,
    alloc: Global,
    seed: &str,
    trips: &str,
    row: &str,
) -> Result<bool, Fail> {
    Ok(
        has_row(&end_on_made(rt, alloc, "day", seed, trips)?, row)
            && has_row(&end_on_made(rt, alloc, "trips", seed, trips)?, "")
            && has_row(&end_on_made(rt, alloc, "plan", seed, trips)?, ""),
    )
}

/// Whether a run ended well, and wrote this row where one is wanted.
fn has_row(end: &Ended, row: &str) -> bool {
    end.status.code() == 0 && (row.is_empty() || has_part(end.out.taken(), row))
}

fn are_all_planning_files<R: Threads + Sync>(rt: &R, alloc: Global) -> Result<bool, Fail> {
    Ok(
        are_planning_files(rt, alloc, "7", "1", "rec; 20260302; 1; 1; 1; 1\r\n")?
            && are_planning_files(rt, alloc, "0", "13", "rec; 20260302; 1; 1; 1; 13\r\n")?
            && are_planning_files(
                rt,
                alloc,
                "999999999",
                "30",
                "rec; 20260302; 1; 1; 1; 30\r\n",
            )?,
    )
}

#[test]
fn made_tables_are_planning_files(rt: HostRuntime) -> Result<(), Fail> {
    assert!(rt; are_all_planning_files(&rt, rt.alloc())?);
    Ok(())
}

const COUNTS: &str =
    "tbl; X_KURZ\natr; FAHRTEN; UMLAEUFE; STUECKE; DIENSTE\nfrm; num[19.0]; num[19.0]; num[19.0]; num[19.0]\nrec; 60; ";

const BOUNDS: &str =
    "end; 1\ntbl; X_SCHRANKE\natr; ART; WERT; SCHRANKE\nfrm; num[19.0]; num[19.0]; num[19.0]\nrec; 1; ";

/// Whether a short text says that a day has 60 trips and 60 pieces.
fn has_sixty(alloc: Global, text: &[u8]) -> Result<bool, Fail> {
    let head = joined(alloc, &[WRITTEN_HEAD, COUNTS], b"\r\n")?;
    let Some(rest) = text.strip_prefix(head.as_slice()) else {
        return Ok(false);
    };
    let digits = rest.iter().take_while(|byte| byte.is_ascii_digit()).count();
    let pieces: &[u8] = b"; 60; ";
    let bounds = joined(alloc, &[BOUNDS], b"\r\n")?;
    let is_followed = rest.iter().skip(digits).take(6).eq(pieces.iter());
    Ok(
        is_followed
            && rest
                .windows(bounds.len().max(1))
                .any(|window| window == bounds.as_slice()),
    )
}

/// The words of a run over 60 made trips with so many workers.
fn sixty(workers: &str) -> [&str; 10] {
    [
        "make",
        "7",
        "--run",
        "--trips",
        "60",
        "--rounds",
        "5",
        "--lower=5",
        "--workers",
        workers,
    ]
}

/// Whether two, three and eight workers write what one does, with 60 trips and 60 pieces.
fn are_sixty_alike<R: Threads + Sync>(rt: &R, alloc: Global) -> Result<bool, Fail> {
    let first = written(rt, alloc, &sixty("1"), &NoGate)?;
    Ok(
        has_sixty(alloc, first.as_slice())?
            && writes(rt, alloc, &sixty("2"), &first)?
            && writes(rt, alloc, &sixty("3"), &first)?
            && writes(rt, alloc, &sixty("8"), &first)?,
    )
}

#[test]
fn a_made_day_is_planned_alike_by_any_number_of_workers(rt: HostRuntime) -> Result<(), Fail> {
    assert!(rt; are_sixty_alike(&rt, rt.alloc())?);
    Ok(())
}

/// The words of a run over 12 made trips by climbing, with so many workers.
fn twelve(workers: &str) -> [&str; 9] {
    [
        "make",
        "--climb",
        "7",
        "--run",
        "--trips",
        "12",
        "--rounds=3",
        "--workers",
        workers,
    ]
}

/// Whether two and 64 workers write what one does.
fn are_twelve_alike<R: Threads + Sync>(rt: &R, alloc: Global) -> Result<bool, Fail> {
    let first = written(rt, alloc, &twelve("1"), &NoGate)?;
    Ok(
        has_part(first.as_slice(), "rec; 12; ")
            && writes(rt, alloc, &twelve("2"), &first)?
            && writes(rt, alloc, &twelve("64"), &first)?,
    )
}

#[test]
fn a_made_day_is_climbed_alike_by_any_number_of_workers(rt: HostRuntime) -> Result<(), Fail> {
    assert!(rt; are_twelve_alike(&rt, rt.alloc())?);
    Ok(())
}

/// A gate that holds each entry of task 0 until each of the tasks 1 to 7 has entered as often, for at most so many turns. Where it gives
/// up it notes that, and then holds nobody.
#[derive(Drop)]
struct FirstHeld {
    turns: u32,
    entered: [AtomicU32; 8],
    gave_up: AtomicBool,
}

impl FirstHeld {
    fn new(turns: u32) -> FirstHeld {
        FirstHeld {
            turns,
            entered: [
                AtomicU32::new(0),
                AtomicU32::new(0),
                AtomicU32::new(0),
                AtomicU32::new(0),
                AtomicU32::new(0),
                AtomicU32::new(0),
                AtomicU32::new(0),
                AtomicU32::new(0),
            ],
            gave_up: AtomicBool::new(false),
        }
    }

    /// Whether each task has entered so often.
    fn have_entered(&self, times: u32) -> bool {
        for count in self.entered.iter() {
            if count.load(Ordering::SeqCst) < times {
                return false;
            }
        }
        true
    }
}

impl Gate for FirstHeld {
    fn enter(&self, task: u32) {
        let Some(count) = self.entered.get(task as usize) else {
            return;
        };
        let times = count.fetch_add(1, Ordering::SeqCst).saturating_add(1);
        if task != 0 || self.gave_up.load(Ordering::SeqCst) {
            return;
        }
        for _turn in 0..self.turns {
            if self.have_entered(times) {
                return;
            }
            thread::yield_now();
        }
        self.gave_up.store(true, Ordering::SeqCst);
    }
}

/// Whether so many workers under a gate of so many turns write this text, and the gate gives up or does not.
fn is_held<R: Threads + Sync>(
    rt: &R,
    alloc: Global,
    workers: &str,
    turns: u32,
    gives_up: bool,
    free: &Bytes,
) -> Result<bool, Fail> {
    let gate = FirstHeld::new(turns);
    let held = written(rt, alloc, &sixty(workers), &gate)?;
    Ok(held == *free && gate.gave_up.load(Ordering::SeqCst) == gives_up)
}

fn are_held<R: Threads + Sync>(rt: &R, alloc: Global) -> Result<bool, Fail> {
    let free = written(rt, alloc, &sixty("2"), &NoGate)?;
    Ok(
        is_held(rt, alloc, "2", 500_000_000, false, &free)?
            && is_held(rt, alloc, "1", 1_000, true, &free)?,
    )
}

/// Two workers do the tasks of a step side by side, and one alone does not.
#[test]
fn a_worker_that_is_held_leaves_the_other_tasks_to_a_second_one(
    rt: HostRuntime,
) -> Result<(), Fail> {
    assert!(rt; are_held(&rt, rt.alloc())?);
    Ok(())
}
