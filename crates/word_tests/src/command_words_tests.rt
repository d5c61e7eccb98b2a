//! Words, and what they ask for.

use command_words::{Command, Request, WordsFault, day_word, read_words};
use plan_core::{Bytes, Seq};
use price_rounds::Effort;
use std::alloc::Global;
use std::test::Fail;

/// What is told of words that ask for nothing.
const USAGE: &str = "usage";

/// The bytes of a text, where a star stands for 300 zeros.
fn bytes_of(alloc: Global, text: &str) -> Result<Vec<u8>, Fail> {
    let mut bytes = Vec::new(alloc);
    for byte in text.as_bytes() {
        if *byte == b'*' {
            bytes.extend_from_slice(&[b'0'; 300])?;
        } else {
            bytes.push(*byte)?;
        }
    }
    Ok(bytes)
}

/// The words of a line, with a comma between each two of them.
fn words_of(alloc: Global, line: &str) -> Result<Vec<Bytes>, Fail> {
    let mut words = Vec::new(alloc);
    for word in line.split(',') {
        words.push(Bytes::from_vec(bytes_of(alloc, word)?))?;
    }
    Ok(words)
}

fn add_number(text: &mut Vec<u8>, alloc: Global, mark: &str, number: u32) -> Result<(), Fail> {
    text.extend_from_slice(mark.as_bytes())?;
    text.extend_from_slice(number.to_string(alloc)?.as_bytes())?;
    Ok(())
}

/// The command, and the moment or what is made.
fn add_command(text: &mut Vec<u8>, alloc: Global, command: Command) -> Result<(), Fail> {
    let name: &[u8] = match command {
        Command::Trips => b"trips",
        Command::Day => b"day",
        Command::Plan => b"plan",
        Command::Certify => b"certify",
        Command::Check => b"check",
        Command::Replan { .. } => b"replan",
        Command::Week => b"week",
        Command::Make(_) => b"make",
    };
    text.extend_from_slice(name)?;
    if let Command::Replan { moment } = command {
        add_number(text, alloc, " from ", moment)?;
    }
    if let Command::Make(making) = command {
        add_number(text, alloc, " ", making.seed)?;
        add_number(text, alloc, " trips ", making.trips)?;
        if making.run {
            text.extend_from_slice(b" run")?;
        }
    }
    Ok(())
}

/// The workers, and behind them the rounds, the lowering rounds and the exchange steps; and the flag.
fn add_effort(text: &mut Vec<u8>, alloc: Global, effort: Effort) -> Result<(), Fail> {
    add_number(text, alloc, " ", effort.workers)?;
    add_number(text, alloc, "/", effort.rounds)?;
    add_number(text, alloc, "/", effort.lower)?;
    add_number(text, alloc, "/", effort.exchange)?;
    if effort.climb {
        text.extend_from_slice(b" climb")?;
    }
    Ok(())
}

fn add_names(text: &mut Vec<u8>, names: &Seq<Bytes>) -> Result<(), Fail> {
    let mut mark: &[u8] = b": ";
    for name in names.as_slice() {
        text.extend_from_slice(mark)?;
        text.extend_from_slice(name.as_slice())?;
        mark = b",";
    }
    Ok(())
}

/// A request in one line: its command, its effort, whether it asks for the flow, its day and the names that it has.
fn request_in_a_line(alloc: Global, request: &Request) -> Result<Vec<u8>, Fail> {
    let mut text = Vec::new(alloc);
    add_command(&mut text, alloc, request.command)?;
    add_effort(&mut text, alloc, request.effort)?;
    if request.flow {
        text.extend_from_slice(b" flow")?;
    }
    add_number(&mut text, alloc, " on ", request.day)?;
    add_names(&mut text, &request.names)?;
    Ok(text)
}

/// What words ask for, in one line.
fn answer(alloc: Global, words: &[Bytes]) -> Result<Vec<u8>, Fail> {
    match read_words(alloc, words) {
        Ok(request) => request_in_a_line(alloc, &request),
        Err(WordsFault::Usage) => Ok(USAGE.as_bytes().to_vec(alloc)?),
        Err(WordsFault::Memory) => Err("memory".into()),
    }
}

fn is_answered(alloc: Global, line: &str, want: &str) -> Result<bool, Fail> {
    let words = words_of(alloc, line)?;
    let text = answer(alloc, words.as_slice())?;
    Ok(text == bytes_of(alloc, want)?)
}

/// The place of the first row whose words are answered in another way, if there is one.
fn first_other(alloc: Global, rows: &[(&str, &str)]) -> Result<Option<usize>, Fail> {
    for place in 0..rows.len() {
        let (line, want) = rows[place];
        if !is_answered(alloc, line, want)? {
            return Ok(Some(place));
        }
    }
    Ok(None)
}

fn no_words_are_refused(alloc: Global) -> Result<bool, Fail> {
    Ok(answer(alloc, &[])?.as_slice() == USAGE.as_bytes() && day_word(&[]).is_empty())
}

/// Words of each command, and what they ask for.
const PLAIN_WORDS: [(&str, &str); 38] = [
    ("trips,20260302,f", "trips 1/40/20/20 on 20260302: f"),
    ("trips,00000000,-", "trips 1/40/20/20 on 0: -"),
    ("trips,20260302", USAGE),
    ("trips", USAGE),
    ("trips,2026030,f", USAGE),
    ("trips,020260302,f", USAGE),
    ("trips,2026030a,f", USAGE),
    ("trips,f,20260302", USAGE),
    ("trips,,f", USAGE),
    ("trips,20260302,", USAGE),
    ("trips,20260302,f,,g", USAGE),
    ("trips,20260302,-f", USAGE),
    ("day,20260302,f,g,f", "day 1/40/20/20 on 20260302: f,g,f"),
    ("day,20260302", USAGE),
    ("plan,20260302,g,f", "plan 1/40/20/20 on 20260302: g,f"),
    ("plan,20260302,g,", USAGE),
    (
        "certify,20260302,g,f",
        "certify 1/40/20/20 on 20260302: g,f",
    ),
    ("certify,20260302", USAGE),
    ("certify,20260302,", USAGE),
    ("make,7", "make 7 trips 240 1/40/20/20 on 20260302"),
    ("make,000000007", "make 7 trips 240 1/40/20/20 on 20260302"),
    (
        "make,999999999",
        "make 999999999 trips 240 1/40/20/20 on 20260302",
    ),
    ("make,0000000007", USAGE),
    ("make", USAGE),
    ("make,", USAGE),
    ("make,+7", USAGE),
    ("make,-7", USAGE),
    ("make,7,8", USAGE),
    ("make,7,--,8", USAGE),
    ("week,r", "week 1/40/20/20 on 0: r"),
    ("week", USAGE),
    ("week,", USAGE),
    ("week,r,r", USAGE),
    ("", USAGE),
    ("Plan,20260302,f", USAGE),
    ("plans,20260302,f", USAGE),
    ("--,plan,20260302,f", USAGE),
    ("--help", USAGE),
];

#[test]
fn words_are_there(rt: HostRuntime) -> Result<(), Fail> {
    assert!(rt; no_words_are_refused(rt.alloc())?);
    Ok(())
}

#[test]
fn a_command_has_its_plain_words(rt: HostRuntime) -> Result<(), Fail> {
    assert_eq!(rt; first_other(rt.alloc(), &PLAIN_WORDS)?, None);
    Ok(())
}

/// Words of `check`, and what they ask for.
const CHECKS: [(&str, &str); 21] = [
    (
        "check,20260302,p,c,f",
        "check 1/40/20/20 on 20260302: f,p,c",
    ),
    (
        "check,20260302,p,c,g,f,g",
        "check 1/40/20/20 on 20260302: g,f,g,p,c",
    ),
    (
        "check,20260302,p,p,p",
        "check 1/40/20/20 on 20260302: p,p,p",
    ),
    ("check,20260302,p,c", USAGE),
    ("check,20260302,p", USAGE),
    ("check,20260302", USAGE),
    ("check", USAGE),
    ("check,2026030,p,c,f", USAGE),
    ("check,p,c,f,20260302", USAGE),
    ("check,20260302,,c,f", USAGE),
    ("check,20260302,p,,f", USAGE),
    ("check,20260302,p,c,", USAGE),
    ("check,20260302,p,c,f,,g", USAGE),
    ("check,--workers=1,20260302,p,c,f", USAGE),
    ("check,20260302,p,--rounds,5,c,f", USAGE),
    ("check,20260302,p,c,f,--climb", USAGE),
    ("check,20260302,p,c,f,--trips=5", USAGE),
    ("check,20260302,p,c,f,--run", USAGE),
    (
        "check,20260302,p,--,c,f",
        "check 1/40/20/20 on 20260302: f,p,c",
    ),
    (
        "check,--,20260302,--run,--,-",
        "check 1/40/20/20 on 20260302: -,--run,--",
    ),
    ("check,20260302,p,c,--", USAGE),
];

#[test]
fn a_check_has_a_plan_and_a_certificate(rt: HostRuntime) -> Result<(), Fail> {
    assert_eq!(rt; first_other(rt.alloc(), &CHECKS)?, None);
    Ok(())
}

/// Words of `replan` without options, and what they ask for.
const MOMENTS: [(&str, &str); 29] = [
    (
        "replan,20260302,30000,p,f",
        "replan from 30000 1/40/20/20 on 20260302: f,p",
    ),
    (
        "replan,20260302,30000,p,g,f,g",
        "replan from 30000 1/40/20/20 on 20260302: g,f,g,p",
    ),
    (
        "replan,20260302,30000,p,p",
        "replan from 30000 1/40/20/20 on 20260302: p,p",
    ),
    (
        "replan,20260302,30000,40000,f",
        "replan from 30000 1/40/20/20 on 20260302: f,40000",
    ),
    (
        "replan,20260302,0,p,f",
        "replan from 0 1/40/20/20 on 20260302: f,p",
    ),
    (
        "replan,20260302,000000,p,f",
        "replan from 0 1/40/20/20 on 20260302: f,p",
    ),
    (
        "replan,20260302,000009,p,f",
        "replan from 9 1/40/20/20 on 20260302: f,p",
    ),
    (
        "replan,20260302,172800,p,f",
        "replan from 172800 1/40/20/20 on 20260302: f,p",
    ),
    ("replan,20260302,172801,p,f", USAGE),
    ("replan,20260302,999999,p,f", USAGE),
    ("replan,20260302,0000000,p,f", USAGE),
    ("replan,20260302,0030000,p,f", USAGE),
    ("replan,20260302,,p,f", USAGE),
    ("replan,20260302,12a,p,f", USAGE),
    ("replan,20260302,+12,p,f", USAGE),
    ("replan,20260302,-1,p,f", USAGE),
    ("replan,20260302,--,-1,p,f", USAGE),
    ("replan,20260302,-,p,f", USAGE),
    ("replan,20260302,30000,p", USAGE),
    ("replan,20260302,30000", USAGE),
    ("replan,20260302", USAGE),
    ("replan", USAGE),
    ("replan,20260302,30000,,f", USAGE),
    ("replan,20260302,30000,p,", USAGE),
    ("replan,20260302,30000,p,f,,g", USAGE),
    ("replan,20260302,p,f", USAGE),
    ("replan,20260302,p,30000,f", USAGE),
    ("replan,30000,20260302,p,f", USAGE),
    ("replan,2026030,30000,p,f", USAGE),
];

#[test]
fn a_moment_and_a_plan_stand_behind_the_day(rt: HostRuntime) -> Result<(), Fail> {
    assert_eq!(rt; first_other(rt.alloc(), &MOMENTS)?, None);
    Ok(())
}

/// Words of `replan` with options, and what they ask for.
const REPLAN_OPTIONS: [(&str, &str); 16] = [
    ("replan,20260302,30000,p,f,--flow", USAGE),
    ("replan,--flow,20260302,30000,p,f", USAGE),
    ("replan,20260302,30000,p,f,--trips=5", USAGE),
    ("replan,20260302,30000,p,f,--run", USAGE),
    (
        "replan,20260302,30000,p,f,--climb",
        "replan from 30000 1/40/20/20 climb on 20260302: f,p",
    ),
    (
        "replan,--rounds,5,20260302,--workers=8,30000,--exchange,4,p,--lower=3,f,--climb,g",
        "replan from 30000 8/5/3/4 climb on 20260302: f,g,p",
    ),
    ("replan,20260302,30000,p,f,--climb,--climb", USAGE),
    ("replan,20260302,30000,p,f,--workers=65", USAGE),
    ("replan,20260302,--rounds,30000,p,f", USAGE),
    ("replan,20260302,--rounds,5,p,f", USAGE),
    (
        "replan,--,20260302,30000,p,f",
        "replan from 30000 1/40/20/20 on 20260302: f,p",
    ),
    (
        "replan,20260302,--,30000,p,f",
        "replan from 30000 1/40/20/20 on 20260302: f,p",
    ),
    (
        "replan,20260302,30000,--,p,f",
        "replan from 30000 1/40/20/20 on 20260302: f,p",
    ),
    (
        "replan,20260302,30000,p,--,f",
        "replan from 30000 1/40/20/20 on 20260302: f,p",
    ),
    ("replan,20260302,30000,p,--", USAGE),
    (
        "replan,--climb,--,20260302,30000,--flow,--,-1",
        "replan from 30000 1/40/20/20 climb on 20260302: --,-1,--flow",
    ),
];

#[test]
fn planning_anew_takes_the_options_of_planning_but_the_flow(rt: HostRuntime) -> Result<(), Fail> {
    assert_eq!(rt; first_other(rt.alloc(), &REPLAN_OPTIONS)?, None);
    Ok(())
}

/// Words with an option, and what they ask for.
const RANGES: [(&str, &str); 39] = [
    (
        "plan,20260302,f,--workers,1",
        "plan 1/40/20/20 on 20260302: f",
    ),
    (
        "plan,20260302,f,--workers,64",
        "plan 64/40/20/20 on 20260302: f",
    ),
    ("plan,20260302,f,--workers,0", USAGE),
    ("plan,20260302,f,--workers,65", USAGE),
    (
        "plan,20260302,f,--rounds=1",
        "plan 1/1/20/20 on 20260302: f",
    ),
    (
        "plan,20260302,f,--rounds=200",
        "plan 1/200/20/20 on 20260302: f",
    ),
    ("plan,20260302,f,--rounds=0", USAGE),
    ("plan,20260302,f,--rounds=201", USAGE),
    (
        "certify,20260302,f,--lower=1",
        "certify 1/40/1/20 on 20260302: f",
    ),
    (
        "certify,20260302,f,--lower=50",
        "certify 1/40/50/20 on 20260302: f",
    ),
    ("certify,20260302,f,--lower=0", USAGE),
    ("certify,20260302,f,--lower=51", USAGE),
    (
        "certify,20260302,f,--exchange,0",
        "certify 1/40/20/0 on 20260302: f",
    ),
    (
        "certify,20260302,f,--exchange,1000",
        "certify 1/40/20/1000 on 20260302: f",
    ),
    ("certify,20260302,f,--exchange,1001", USAGE),
    ("make,7,--trips,1", "make 7 trips 1 1/40/20/20 on 20260302"),
    (
        "make,7,--trips=3000",
        "make 7 trips 3000 1/40/20/20 on 20260302",
    ),
    ("make,7,--trips,0", USAGE),
    ("make,7,--trips=3001", USAGE),
    ("make,7,--workers,65", USAGE),
    (
        "plan,20260302,f,--workers,0064",
        "plan 64/40/20/20 on 20260302: f",
    ),
    ("plan,20260302,f,--workers,00064", USAGE),
    ("plan,20260302,f,--workers,", USAGE),
    ("plan,20260302,f,--workers", USAGE),
    ("plan,20260302,f,--workers=", USAGE),
    ("plan,20260302,f,--workers,+1", USAGE),
    ("plan,20260302,f,--workers,-1", USAGE),
    ("plan,20260302,f,--workers=1=1", USAGE),
    ("plan,20260302,f,--workers,a", USAGE),
    ("plan,20260302,f,--worker,1", USAGE),
    ("plan,20260302,f,--flow=1", USAGE),
    ("plan,20260302,f,-r,5", USAGE),
    ("plan,20260302,f,--=5", USAGE),
    ("plan,20260302,f,--climb=1", USAGE),
    ("plan,20260302,f,--climb=", USAGE),
    ("make,7,--run=", USAGE),
    ("make,7,--run=1", USAGE),
    ("make,7,--run,1", USAGE),
    (
        "make,7,--run",
        "make 7 trips 240 run 1/40/20/20 on 20260302",
    ),
];

#[test]
fn an_option_has_a_range(rt: HostRuntime) -> Result<(), Fail> {
    assert_eq!(rt; first_other(rt.alloc(), &RANGES)?, None);
    Ok(())
}

/// Words with options in several places, and what they ask for.
const PLACES: [(&str, &str); 36] = [
    (
        "plan,20260302,f,--flow",
        "plan 1/40/20/20 flow on 20260302: f",
    ),
    (
        "certify,--flow,20260302,--climb,f",
        "certify 1/40/20/20 climb flow on 20260302: f",
    ),
    ("plan,--flow,20260302,f,--flow", USAGE),
    ("plan,20260302,f,--flow=1", USAGE),
    ("make,7,--run,--flow", USAGE),
    ("check,20260302,p,c,f,--flow", USAGE),
    (
        "plan,--rounds,5,20260302,f",
        "plan 1/5/20/20 on 20260302: f",
    ),
    (
        "plan,20260302,--rounds=5,f",
        "plan 1/5/20/20 on 20260302: f",
    ),
    (
        "certify,--exchange,4,--lower=3,20260302,g,--rounds,2,f,--workers=8,--climb",
        "certify 8/2/3/4 climb on 20260302: g,f",
    ),
    (
        "make,--run,--lower,3,7,--exchange=4,--trips=5,--climb",
        "make 7 trips 5 run 1/40/3/4 climb on 20260302",
    ),
    (
        "make,7,--rounds=5",
        "make 7 trips 240 1/5/20/20 on 20260302",
    ),
    ("plan,20260302,f,--workers,1,--workers,1", USAGE),
    ("plan,20260302,f,--rounds=5,--rounds,5", USAGE),
    ("certify,--lower=5,20260302,f,--lower=5", USAGE),
    ("certify,20260302,f,--exchange=5,--exchange=5", USAGE),
    ("certify,20260302,f,--climb,--climb", USAGE),
    ("make,7,--trips=1,--trips=1", USAGE),
    ("make,7,--run,--run", USAGE),
    ("trips,20260302,--rounds,5,f", USAGE),
    ("day,20260302,f,--climb", USAGE),
    ("week,--workers=1,r", USAGE),
    ("week,--run,r", USAGE),
    ("plan,20260302,f,--trips=5", USAGE),
    ("plan,20260302,f,--run", USAGE),
    ("certify,20260302,f,--trips=5", USAGE),
    ("certify,20260302,f,--run", USAGE),
    ("plan,20260302,f,--rounds,--", USAGE),
    ("plan,20260302,--", USAGE),
    ("plan,--,20260302,f", "plan 1/40/20/20 on 20260302: f"),
    ("plan,20260302,--,f", "plan 1/40/20/20 on 20260302: f"),
    ("plan,20260302,f,--", "plan 1/40/20/20 on 20260302: f"),
    (
        "certify,20260302,--,--",
        "certify 1/40/20/20 on 20260302: --",
    ),
    (
        "certify,--rounds,5,--,20260302,--climb,-f",
        "certify 1/5/20/20 on 20260302: --climb,-f",
    ),
    (
        "certify,20260302,--,f,--rounds,5",
        "certify 1/40/20/20 on 20260302: f,--rounds,5",
    ),
    ("make,--,7", "make 7 trips 240 1/40/20/20 on 20260302"),
    ("week,--,-r", "week 1/40/20/20 on 0: -r"),
];

#[test]
fn an_option_stands_once_and_in_any_place(rt: HostRuntime) -> Result<(), Fail> {
    assert_eq!(rt; first_other(rt.alloc(), &PLACES)?, None);
    Ok(())
}

/// How many names a request has that these words and so many files more ask for, or 0 where they ask for nothing.
fn names_with(alloc: Global, line: &str, files: usize) -> Result<usize, Fail> {
    let mut words = words_of(alloc, line)?;
    for _file in 0..files {
        words.push(Bytes::from_vec(b"f".to_vec(alloc)?))?;
    }
    match read_words(alloc, words.as_slice()) {
        Ok(request) => Ok(request.names.len()),
        Err(WordsFault::Usage) => Ok(0),
        Err(WordsFault::Memory) => Err("memory".into()),
    }
}

/// Words, how many files stand behind them, and how many names that makes; 0 where they ask for nothing.
const FILES: [(&str, usize, usize); 16] = [
    ("trips,20260302", 64, 64),
    ("trips,20260302", 65, 0),
    ("day,20260302,--", 64, 64),
    ("day,20260302,--", 65, 0),
    ("plan,20260302,f,--", 63, 64),
    ("plan,20260302,f,--", 64, 0),
    ("certify,20260302", 64, 64),
    ("certify,20260302", 65, 0),
    ("check,20260302,p,c", 64, 66),
    ("check,20260302,p,c", 65, 0),
    ("check,20260302,p,--,c", 64, 66),
    ("check,20260302,p,--,c", 65, 0),
    ("replan,20260302,30000,p", 64, 65),
    ("replan,20260302,30000,p", 65, 0),
    ("replan,20260302,30000,--,p", 64, 65),
    ("replan,20260302,30000,--,p", 65, 0),
];

/// The place of the first row that has another number of names, if there is one.
fn first_with_others(alloc: Global, rows: &[(&str, usize, usize)]) -> Result<Option<usize>, Fail> {
    for place in 0..rows.len() {
        let (line, files, want) = rows[place];
        if names_with(alloc, line, files)? != want {
            return Ok(Some(place));
        }
    }
    Ok(None)
}

#[test]
fn files_are_few(rt: HostRuntime) -> Result<(), Fail> {
    assert_eq!(rt; first_with_others(rt.alloc(), &FILES)?, None);
    Ok(())
}

/// Words with long parts, and what they ask for.
const LONG_WORDS: [(&str, &str); 16] = [
    ("plan,20260302,*,f", "plan 1/40/20/20 on 20260302: *,f"),
    (
        "certify,20260302,--,-*",
        "certify 1/40/20/20 on 20260302: -*",
    ),
    (
        "check,20260302,p*,c*,f*",
        "check 1/40/20/20 on 20260302: f*,p*,c*",
    ),
    (
        "replan,20260302,30000,p*,f*",
        "replan from 30000 1/40/20/20 on 20260302: f*,p*",
    ),
    ("week,*", "week 1/40/20/20 on 0: *"),
    ("plan,*,f", USAGE),
    ("plan,*20260302,f", USAGE),
    ("replan,20260302,*,p,f", USAGE),
    ("replan,20260302,*30000,p,f", USAGE),
    ("plan*,20260302,f", USAGE),
    ("plan,20260302,f,-*", USAGE),
    ("plan,20260302,f,--workers*,1", USAGE),
    ("plan,20260302,f,--workers=*1", USAGE),
    ("plan,20260302,f,--workers,*1", USAGE),
    ("make,*7", USAGE),
    ("make,7,--trips,*5", USAGE),
];

#[test]
fn words_may_be_long(rt: HostRuntime) -> Result<(), Fail> {
    assert_eq!(rt; first_other(rt.alloc(), &LONG_WORDS)?, None);
    Ok(())
}

fn has_day_word(alloc: Global, line: &str, want: &str) -> Result<bool, Fail> {
    let words = words_of(alloc, line)?;
    Ok(day_word(words.as_slice()) == want.as_bytes())
}

/// The place of the first row whose words have another word for the day, if there is one.
fn first_other_day(alloc: Global, rows: &[(&str, &str)]) -> Result<Option<usize>, Fail> {
    for place in 0..rows.len() {
        let (line, want) = rows[place];
        if !has_day_word(alloc, line, want)? {
            return Ok(Some(place));
        }
    }
    Ok(None)
}

/// Words, and the one that stands for the day.
const DAYS: [(&str, &str); 11] = [
    ("plan,20260302,f", "20260302"),
    ("certify,--rounds,5,20260302,f", "20260302"),
    ("check,--climb,20260230,p,c,f", "20260230"),
    ("replan,--climb,20260230,30000,p,f", "20260230"),
    ("replan,30000,20260302,p,f", "30000"),
    ("trips,--,-d,f", "-d"),
    ("plan,--rounds,--,f", "f"),
    ("plan,--rounds", ""),
    ("plan,,f", ""),
    ("plan", ""),
    ("20260302", ""),
];

#[test]
fn the_day_is_the_first_plain_word(rt: HostRuntime) -> Result<(), Fail> {
    assert_eq!(rt; first_other_day(rt.alloc(), &DAYS)?, None);
    Ok(())
}
