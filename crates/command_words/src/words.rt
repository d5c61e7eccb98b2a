//! The words of the command line.

ghost use Rattle.std.specs.Prelude.{◌≡◌, ◌≤◌, ◌↔◌, ◌&&◌, ◌++◌, ◌∷◌, [], IfOk, IfSome, IfNone, OnOk, IsErrOf, Some, None, length, true, false};
ghost use Rattle.std.specs.List.{list_all};
ghost use Rattle.plan_core.specs.Limits.{most_items};
ghost use Rattle.price_rounds.specs.Efforts.{IsEffort};
ghost use Rattle.command_words.specs.Options.{plain_of, said as said_by};
ghost use Rattle.command_words.specs.Words as spec;

use crate::command::{Command, Making};
use crate::fault::WordsFault;
use crate::options::{Allowed, Settings, are_digits, digits_number, first_plain, settings_said};
use crate::request::Request;
use plan_core::{Bytes, Memory, Seq};
use price_rounds::Effort;
use std::alloc::Global;

/// A command reads at most so many files.
const MOST_FILES: usize = 64;

/// The last moment from which a day may be planned anew, in seconds of the operating day.
const MOST_MOMENT: u32 = 172_800;

/// The one day of a calendar that is made.
const MADE_DAY: u32 = 20_260_302;

/// The name of a command.
#[derive(Clone, Copy, Debug, PartialEq, Eq)]
enum CommandName {
    Trips,
    Day,
    Plan,
    Certify,
    Check,
    Replan,
    Make,
    Week,
}

/// Words, parted at the first `--`. Those before it may be options and their values.
#[derive(Clone, Copy)]
struct Parted<'w> {
    before: &'w [Bytes],
    behind: &'w [Bytes],
}

fn ends_options(word: &[u8]) -> bool
    ensures { result ≡ spec.ends_options word.now }
{
    let dashes: &[u8] = b"--";
    word == dashes
}

fn is_day(word: &[u8]) -> bool
    ensures { result ≡ spec.day_word word.now }
{
    word.len() == 8 && are_digits(word)
}

fn is_seed(word: &[u8]) -> bool
    ensures { result ≡ spec.seed_word word.now }
{
    are_digits(word) && (1 <= word.len() && word.len() <= 9)
}

fn is_moment(word: &[u8]) -> bool
    ensures { result ≡ spec.moment_word word.now }
{
    are_digits(word) && ((1 <= word.len() && word.len() <= 6) && digits_number(word) <= MOST_MOMENT)
}

fn is_file(word: &[u8]) -> bool
    ensures { result ≡ spec.file_word word.now }
{
    match word {
        [] => false,
        _ => true,
    }
}

fn part(words: &[Bytes]) -> Parted<'_>
    ensures before { result.before.now ≡ spec.before_end words.now }
    ensures behind { result.behind.now ≡ spec.behind_end words.now }
{
    for (place, word) in words.iter().enumerate() {
        if ends_options(word.as_slice()) {
            return Parted {
                before: &words[..place],
                behind: &words[place + 1..],
            };
        }
    }
    Parted {
        before: words,
        behind: &[],
    }
}

/// The first plain word, and the others, parted as they were.
#[derive(Clone, Copy)]
struct PlainWords<'w> {
    first: &'w [u8],
    others: Parted<'w>,
}

fn plain_words(words: Parted<'_>) -> Option<PlainWords<'_>>
    ensures some { IfSome result (λ said. plain_of (said_by words.entry.before.now) ++ words.entry.behind.now ≡ said.first.now ∷ (plain_of (said_by said.others.before.now) ++ said.others.behind.now)) }
    ensures none { IfNone result (plain_of (said_by words.entry.before.now) ++ words.entry.behind.now ≡ []) }
{
    match (first_plain(words.before), words.behind) {
        (Some(first), behind) => Some(PlainWords {
            first: first.word,
            others: Parted {
                before: first.rest,
                behind,
            },
        }),
        (None, [first, behind @ ..]) => Some(PlainWords {
            first: first.as_slice(),
            others: Parted {
                before: &[],
                behind,
            },
        }),
        (None, []) => None,
    }
}

fn are_files(files: &[Bytes]) -> bool
    ensures { result ≡ list_all spec.file_word files.now }
{
    files.iter().all(|file| is_file(file.as_slice()))
}

/// How many plain words there are, where each is the name of a file.
fn plain_files(words: &[Bytes]) -> Option<usize>
    ensures some { IfSome result (λ count. (list_all spec.file_word (plain_of (said_by words.now)) ≡ true) × (count ≡ length (plain_of (said_by words.now))) × (count ≤ length words.now)) }
    ensures none { IfNone result (list_all spec.file_word (plain_of (said_by words.now)) ≡ false) }
{
    let mut count = 0usize;
    let mut rest = words;
    while let Some(first) = first_plain(rest) {
        if !is_file(first.word) {
            return None;
        }
        count += 1;
        rest = first.rest;
    }
    Some(count)
}

/// Whether this is a day with 1 to 64 files.
fn is_day_and_files(said: PlainWords<'_>) -> bool
    ensures { result ≡ spec.are_day_and_files (said.entry.first.now ∷ (plain_of (said_by said.entry.others.before.now) ++ said.entry.others.behind.now)) }
{
    match plain_files(said.others.before) {
        Some(before) => {
            let count = before + said.others.behind.len();
            is_day(said.first)
                && (are_files(said.others.behind) && (1 <= count && count <= MOST_FILES))
        }
        None => false,
    }
}

/// The day and the files that plain words say, where they are right.
fn day_and_files(words: Parted<'_>) -> Option<PlainWords<'_>>
    ensures some { IfSome result (λ said. (spec.are_day_and_files (plain_of (said_by words.entry.before.now) ++ words.entry.behind.now) ≡ true) × (plain_of (said_by words.entry.before.now) ++ words.entry.behind.now ≡ said.first.now ∷ (plain_of (said_by said.others.before.now) ++ said.others.behind.now))) }
    ensures day { IfSome result (λ said. spec.day_word said.first.now ≡ true) }
    ensures none { IfNone result (spec.are_day_and_files (plain_of (said_by words.entry.before.now) ++ words.entry.behind.now) ≡ false) }
{
    match plain_words(words) {
        Some(said) if is_day_and_files(said) => Some(said),
        _ => None,
    }
}

/// Whether there are no plain words.
fn has_none(words: Parted<'_>) -> bool
    ensures { result ≡ spec.no_words (plain_of (said_by words.entry.before.now) ++ words.entry.behind.now) }
{
    match plain_words(words) {
        Some(_) => false,
        None => true,
    }
}

/// The number that one plain word alone gives as a seed.
fn seed_said(words: Parted<'_>) -> Option<u32>
    ensures { result ≡ spec.seed_said (plain_of (said_by words.entry.before.now) ++ words.entry.behind.now) }
{
    match plain_words(words) {
        Some(said) if is_seed(said.first) && has_none(said.others) => {
            Some(digits_number(said.first))
        }
        _ => None,
    }
}

fn name_of(word: &[u8]) -> Option<CommandName>
    ensures { result ≡ spec.name_of word.now }
{
    let trips: &[u8] = b"trips";
    let day: &[u8] = b"day";
    let plan: &[u8] = b"plan";
    let certify: &[u8] = b"certify";
    let check: &[u8] = b"check";
    let replan: &[u8] = b"replan";
    let make: &[u8] = b"make";
    let week: &[u8] = b"week";
    if word == trips {
        Some(CommandName::Trips)
    } else if word == day {
        Some(CommandName::Day)
    } else if word == plan {
        Some(CommandName::Plan)
    } else if word == certify {
        Some(CommandName::Certify)
    } else if word == check {
        Some(CommandName::Check)
    } else if word == replan {
        Some(CommandName::Replan)
    } else if word == make {
        Some(CommandName::Make)
    } else if word == week {
        Some(CommandName::Week)
    } else {
        None
    }
}

fn allowed_of(name: CommandName) -> Allowed
    ensures { result ≡ spec.allowed_of name }
{
    match name {
        CommandName::Trips => Allowed::Nothing,
        CommandName::Day => Allowed::Nothing,
        CommandName::Plan => Allowed::Planning,
        CommandName::Certify => Allowed::Planning,
        CommandName::Check => Allowed::Nothing,
        CommandName::Replan => Allowed::Replanning,
        CommandName::Make => Allowed::Making,
        CommandName::Week => Allowed::Nothing,
    }
}

/// Puts the names of some files behind those that are there.
fn add_names(names: &mut Seq<Bytes>, files: &[Bytes]) -> Result<(), Memory>
    ensures { OnOk result (names.new ≡ names.old ++ files.now) }
{
    for file in files {
        names.push(file.clone()?)?;
    }
    Ok(())
}

/// Puts the plain ones of some words behind the names that are there.
fn add_plain_names(alloc: Global, names: &mut Seq<Bytes>, words: &[Bytes]) -> Result<(), Memory>
    ensures { OnOk result (names.new ≡ names.old ++ plain_of (said_by words.now)) }
{
    let mut rest = words;
    while let Some(first) = first_plain(rest) {
        names.push(Bytes::from_vec(first.word.to_vec(alloc)?))?;
        rest = first.rest;
    }
    Ok(())
}

fn names_of(alloc: Global, files: Parted<'_>) -> Result<Seq<Bytes>, Memory>
    ensures { IfOk result (λ names. names ≡ plain_of (said_by files.entry.before.now) ++ files.entry.behind.now) }
{
    let mut names = Seq::new(alloc);
    add_plain_names(alloc, &mut names, files.before)?;
    add_names(&mut names, files.behind)?;
    Ok(names)
}

/// The request of a command for a day and files.
fn day_request(
    alloc: Global,
    command: Command,
    settings: Settings,
    words: Parted<'_>,
) -> Result<Request, WordsFault>
    requires effort { IsEffort settings.effort }
    requires trips { spec.HasFewTrips command }
    requires moment { spec.HasMoment command }
    requires names { spec.ReadsFiles command }
    ensures request { IfOk result (λ request. spec.day_request command settings (plain_of (said_by words.entry.before.now) ++ words.entry.behind.now) ≡ Some request) }
    ensures names { IfOk result (λ request. spec.HasNames request.command (length request.names)) }
    ensures effort { IfOk result (λ request. IsEffort request.effort) }
    ensures trips { IfOk result (λ request. spec.HasFewTrips request.command) }
    ensures moment { IfOk result (λ request. spec.HasMoment request.command) }
    ensures usage { IsErrOf result WordsFault.Usage ↔ (spec.day_request command settings (plain_of (said_by words.entry.before.now) ++ words.entry.behind.now) ≡ None) }
{
    let Some(said) = day_and_files(words) else {
        return Err(WordsFault::Usage);
    };
    Ok(Request {
        command,
        effort: settings.effort,
        flow: settings.flow,
        day: digits_number(said.first),
        names: names_of(alloc, said.others)?,
    })
}

/// A day, two words between it and the files, and the files.
#[derive(Clone, Copy)]
struct ThreeWords<'w> {
    day: &'w [u8],
    second: &'w [u8],
    third: &'w [u8],
    files: Parted<'w>,
}

/// The day, two words and the files that plain words say, where the day and the files are right.
fn three_words(words: Parted<'_>) -> Option<ThreeWords<'_>>
    ensures said { IfSome result (λ said. plain_of (said_by words.entry.before.now) ++ words.entry.behind.now ≡ said.day.now ∷ said.second.now ∷ said.third.now ∷ (plain_of (said_by said.files.before.now) ++ said.files.behind.now)) }
    ensures files { IfSome result (λ said. spec.are_day_and_files (said.day.now ∷ (plain_of (said_by said.files.before.now) ++ said.files.behind.now)) ≡ true) }
    ensures check { IfNone result ((effort : Effort) → spec.check_request effort (plain_of (said_by words.entry.before.now) ++ words.entry.behind.now) ≡ None) }
    ensures replan { IfNone result ((effort : Effort) → spec.replan_request effort (plain_of (said_by words.entry.before.now) ++ words.entry.behind.now) ≡ None) }
{
    let day = plain_words(words)?;
    let second = plain_words(day.others)?;
    let third = plain_words(second.others)?;
    let files = PlainWords {
        first: day.first,
        others: third.others,
    };
    if is_day_and_files(files) {
        Some(ThreeWords {
            day: day.first,
            second: second.first,
            third: third.first,
            files: third.others,
        })
    } else {
        None
    }
}

/// What plain words say is to be checked, where they are right: a day, a plan, its certificate, and files.
fn check_words(words: Parted<'_>) -> Option<ThreeWords<'_>>
    ensures said { IfSome result (λ said. plain_of (said_by words.entry.before.now) ++ words.entry.behind.now ≡ said.day.now ∷ said.second.now ∷ said.third.now ∷ (plain_of (said_by said.files.before.now) ++ said.files.behind.now)) }
    ensures right { IfSome result (λ said. (spec.are_day_and_files (said.day.now ∷ (plain_of (said_by said.files.before.now) ++ said.files.behind.now)) && (spec.file_word said.second.now && spec.file_word said.third.now)) ≡ true) }
    ensures none { IfNone result ((effort : Effort) → spec.check_request effort (plain_of (said_by words.entry.before.now) ++ words.entry.behind.now) ≡ None) }
{
    match three_words(words) {
        Some(said) if is_file(said.second) && is_file(said.third) => Some(said),
        _ => None,
    }
}

/// The names of the files, and behind them that of the plan.
fn names_and_plan(alloc: Global, files: Parted<'_>, plan: &[u8]) -> Result<Seq<Bytes>, Memory>
    ensures { IfOk result (λ names. names ≡ (plain_of (said_by files.entry.before.now) ++ files.entry.behind.now) ++ plan.now ∷ []) }
{
    let mut names = names_of(alloc, files)?;
    names.push(Bytes::from_vec(plan.to_vec(alloc)?))?;
    Ok(names)
}

/// The names of the files, and behind them those of the plan and of its certificate.
fn names_with(
    alloc: Global,
    files: Parted<'_>,
    plan: &[u8],
    certificate: &[u8],
) -> Result<Seq<Bytes>, Memory>
    ensures { IfOk result (λ names. names ≡ (plain_of (said_by files.entry.before.now) ++ files.entry.behind.now) ++ plan.now ∷ certificate.now ∷ []) }
{
    let mut names = names_and_plan(alloc, files, plan)?;
    names.push(Bytes::from_vec(certificate.to_vec(alloc)?))?;
    Ok(names)
}

/// The request to check a plan and its certificate.
fn check_request(alloc: Global, effort: Effort, words: Parted<'_>) -> Result<Request, WordsFault>
    requires { IsEffort effort }
    ensures request { IfOk result (λ request. spec.check_request effort (plain_of (said_by words.entry.before.now) ++ words.entry.behind.now) ≡ Some request) }
    ensures names { IfOk result (λ request. spec.HasNames request.command (length request.names)) }
    ensures effort { IfOk result (λ request. IsEffort request.effort) }
    ensures trips { IfOk result (λ request. spec.HasFewTrips request.command) }
    ensures moment { IfOk result (λ request. spec.HasMoment request.command) }
    ensures usage { IsErrOf result WordsFault.Usage ↔ (spec.check_request effort (plain_of (said_by words.entry.before.now) ++ words.entry.behind.now) ≡ None) }
{
    let Some(said) = check_words(words) else {
        return Err(WordsFault::Usage);
    };
    Ok(Request {
        command: Command::Check,
        effort,
        flow: false,
        day: digits_number(said.day),
        names: names_with(alloc, said.files, said.second, said.third)?,
    })
}

/// What plain words say is to be planned anew, where they are right: a day, a moment, a plan, and files.
fn replan_words(words: Parted<'_>) -> Option<ThreeWords<'_>>
    ensures said { IfSome result (λ said. plain_of (said_by words.entry.before.now) ++ words.entry.behind.now ≡ said.day.now ∷ said.second.now ∷ said.third.now ∷ (plain_of (said_by said.files.before.now) ++ said.files.behind.now)) }
    ensures right { IfSome result (λ said. (spec.are_day_and_files (said.day.now ∷ (plain_of (said_by said.files.before.now) ++ said.files.behind.now)) && (spec.moment_word said.second.now && spec.file_word said.third.now)) ≡ true) }
    ensures none { IfNone result ((effort : Effort) → spec.replan_request effort (plain_of (said_by words.entry.before.now) ++ words.entry.behind.now) ≡ None) }
{
    match three_words(words) {
        Some(said) if is_moment(said.second) && is_file(said.third) => Some(said),
        _ => None,
    }
}

/// The request to plan the rest of a day anew.
fn replan_request(alloc: Global, effort: Effort, words: Parted<'_>) -> Result<Request, WordsFault>
    requires { IsEffort effort }
    ensures request { IfOk result (λ request. spec.replan_request effort (plain_of (said_by words.entry.before.now) ++ words.entry.behind.now) ≡ Some request) }
    ensures names { IfOk result (λ request. spec.HasNames request.command (length request.names)) }
    ensures effort { IfOk result (λ request. IsEffort request.effort) }
    ensures trips { IfOk result (λ request. spec.HasFewTrips request.command) }
    ensures moment { IfOk result (λ request. spec.HasMoment request.command) }
    ensures usage { IsErrOf result WordsFault.Usage ↔ (spec.replan_request effort (plain_of (said_by words.entry.before.now) ++ words.entry.behind.now) ≡ None) }
{
    let Some(said) = replan_words(words) else {
        return Err(WordsFault::Usage);
    };
    Ok(Request {
        command: Command::Replan {
            moment: digits_number(said.second),
        },
        effort,
        flow: false,
        day: digits_number(said.day),
        names: names_and_plan(alloc, said.files, said.third)?,
    })
}

/// The request for a day that is made.
fn make_request(alloc: Global, settings: Settings, words: Parted<'_>) -> Result<Request, WordsFault>
    requires effort { IsEffort settings.effort }
    requires trips { settings.trips ≤ most_items }
    ensures request { IfOk result (λ request. spec.request_for CommandName.Make settings (plain_of (said_by words.entry.before.now) ++ words.entry.behind.now) ≡ Some request) }
    ensures names { IfOk result (λ request. spec.HasNames request.command (length request.names)) }
    ensures effort { IfOk result (λ request. IsEffort request.effort) }
    ensures trips { IfOk result (λ request. spec.HasFewTrips request.command) }
    ensures moment { IfOk result (λ request. spec.HasMoment request.command) }
    ensures usage { IsErrOf result WordsFault.Usage ↔ (spec.request_for CommandName.Make settings (plain_of (said_by words.entry.before.now) ++ words.entry.behind.now) ≡ None) }
{
    let Some(seed) = seed_said(words) else {
        return Err(WordsFault::Usage);
    };
    Ok(Request {
        command: Command::Make(Making {
            seed,
            trips: settings.trips,
            run: settings.run,
        }),
        effort: settings.effort,
        flow: false,
        day: MADE_DAY,
        names: Seq::new(alloc),
    })
}

/// Whether one plain word stands alone and is the name of a file.
fn is_roster(words: Parted<'_>) -> bool
    ensures { result ≡ spec.is_roster (plain_of (said_by words.entry.before.now) ++ words.entry.behind.now) }
{
    match plain_words(words) {
        Some(said) => is_file(said.first) && has_none(said.others),
        None => false,
    }
}

/// The request for a roster.
fn week_request(alloc: Global, effort: Effort, words: Parted<'_>) -> Result<Request, WordsFault>
    requires { IsEffort effort }
    ensures request { IfOk result (λ request. spec.week_request effort (plain_of (said_by words.entry.before.now) ++ words.entry.behind.now) ≡ Some request) }
    ensures names { IfOk result (λ request. spec.HasNames request.command (length request.names)) }
    ensures effort { IfOk result (λ request. IsEffort request.effort) }
    ensures trips { IfOk result (λ request. spec.HasFewTrips request.command) }
    ensures moment { IfOk result (λ request. spec.HasMoment request.command) }
    ensures usage { IsErrOf result WordsFault.Usage ↔ (spec.week_request effort (plain_of (said_by words.entry.before.now) ++ words.entry.behind.now) ≡ None) }
{
    if !is_roster(words) {
        return Err(WordsFault::Usage);
    }
    Ok(Request {
        command: Command::Week,
        effort,
        flow: false,
        day: 0,
        names: names_of(alloc, words)?,
    })
}

/// The request of a command by its name, what its options set, and its plain words.
fn request_for(
    alloc: Global,
    name: CommandName,
    settings: Settings,
    words: Parted<'_>,
) -> Result<Request, WordsFault>
    requires effort { IsEffort settings.effort }
    requires trips { settings.trips ≤ most_items }
    ensures request { IfOk result (λ request. spec.request_for name settings (plain_of (said_by words.entry.before.now) ++ words.entry.behind.now) ≡ Some request) }
    ensures names { IfOk result (λ request. spec.HasNames request.command (length request.names)) }
    ensures effort { IfOk result (λ request. IsEffort request.effort) }
    ensures trips { IfOk result (λ request. spec.HasFewTrips request.command) }
    ensures moment { IfOk result (λ request. spec.HasMoment request.command) }
    ensures usage { IsErrOf result WordsFault.Usage ↔ (spec.request_for name settings (plain_of (said_by words.entry.before.now) ++ words.entry.behind.now) ≡ None) }
{
    let effort = settings.effort;
    match name {
        CommandName::Trips => day_request(alloc, Command::Trips, settings, words),
        CommandName::Day => day_request(alloc, Command::Day, settings, words),
        CommandName::Plan => day_request(alloc, Command::Plan, settings, words),
        CommandName::Certify => day_request(alloc, Command::Certify, settings, words),
        CommandName::Check => check_request(alloc, effort, words),
        CommandName::Replan => replan_request(alloc, effort, words),
        CommandName::Make => make_request(alloc, settings, words),
        CommandName::Week => week_request(alloc, effort, words),
    }
}

/// The request of a command by its name and the words behind it.
fn request_of(alloc: Global, name: CommandName, words: &[Bytes]) -> Result<Request, WordsFault>
    ensures request { IfOk result (λ request. spec.asked_of name words.now ≡ Some request) }
    ensures names { IfOk result (λ request. spec.HasNames request.command (length request.names)) }
    ensures effort { IfOk result (λ request. IsEffort request.effort) }
    ensures trips { IfOk result (λ request. spec.HasFewTrips request.command) }
    ensures moment { IfOk result (λ request. spec.HasMoment request.command) }
    ensures usage { IsErrOf result WordsFault.Usage ↔ (spec.asked_of name words.now ≡ None) }
{
    let parts = part(words);
    let Some(settings) = settings_said(allowed_of(name), parts.before) else {
        return Err(WordsFault::Usage);
    };
    request_for(alloc, name, settings, parts)
}

/// Reads the words behind the program's name. The very first is the name of a command, and what stands behind it are its options, in any
/// place and in any order, and its plain words:
///
/// - `trips DAY FILE..` and `day DAY FILE..`, without options;
/// - `plan DAY FILE..` and `certify DAY FILE..`, with the options of planning;
/// - `check DAY PLAN CERT FILE..`, without options;
/// - `replan DAY MOMENT PLAN FILE..`, with those of planning but `--flow`;
/// - `make SEED`, with those of making a day;
/// - `week ROSTER`, without options.
///
/// DAY is eight ASCII digits, SEED one to nine, and MOMENT one to six that spell at most 172,800, signs excluded. There are 1 to 64 FILE
/// words. No FILE, PLAN, CERT or ROSTER is empty. The planning files are read first, then PLAN, then CERT.
///
/// The options of planning are `--workers N` (1 to 64; 1 unless said), `--rounds N` (1 to 200; 40), `--lower N` (1 to 50; 20) and
/// `--exchange N` (0 to 1,000; 20), the flag `--climb` for the other method, and the flag `--flow` for exact blocks of a day with one depot.
/// Those of making a day are the same but `--flow`, and `--trips N` (1 to 3,000; 240) and the flag `--run` to plan it; without that flag the
/// options of planning change nothing. N is one to four ASCII digits, in the word behind or in the same word behind a `=`. A flag has no
/// value. Each stands at most once.
///
/// The first `--` ends the options and is passed over; what is behind it is plain, and no value of an option. Before it a word that begins
/// with `-` and is longer than one byte is an option, or else the value of the one before it.
///
/// # Errors
///
/// `Usage` exactly where the words are none of these, and `Memory`.
pub fn read_words(alloc: Global, words: &[Bytes]) -> Result<Request, WordsFault>
    ensures request { IfOk result (λ request. spec.asked words.now ≡ Some request) }
    ensures names { IfOk result (λ request. spec.HasNames request.command (length request.names)) }
    ensures effort { IfOk result (λ request. IsEffort request.effort) }
    ensures trips { IfOk result (λ request. spec.HasFewTrips request.command) }
    ensures moment { IfOk result (λ request. spec.HasMoment request.command) }
    ensures usage { IsErrOf result WordsFault.Usage ↔ (spec.asked words.now ≡ None) }
{
    let [command, rest @ ..] = words else {
        return Err(WordsFault::Usage);
    };
    let Some(name) = name_of(command.as_slice()) else {
        return Err(WordsFault::Usage);
    };
    request_of(alloc, name, rest)
}

/// The word that stands for the day: the first plain word behind the name of the command, or no bytes where there is none.
pub fn day_word(words: &[Bytes]) -> &[u8]
    ensures { result.now ≡ spec.day_said words.now }
{
    match words {
        [] => &[],
        [_, rest @ ..] => match plain_words(part(rest)) {
            Some(said) => said.first,
            None => &[],
        },
    }
}
