//! The options among the words behind a command.

ghost use Rattle.std.specs.Prelude.{◌≡◌, ◌<◌, ◌≤◌, ◌&&◌, ◌∷◌, not, [], IfSome, IfNone, List, ℕ, Some, None, length, true, false};
ghost use Rattle.std.specs.Option.{option_and_then, option_map};
ghost use Rattle.plan_core.specs.Limits.{most_items};
ghost use Rattle.command_words.specs.Options.{given_with};
ghost use Rattle.std.specs.Char.{is_ascii_digit};
ghost use Rattle.std.specs.List.{list_all};
ghost use Rattle.std.specs.Str.Parse.{digits_value};
ghost use Rattle.price_rounds.specs.Efforts.{IsEffort};
ghost use Rattle.command_words.specs.Options as spec;

use plan_core::Bytes;
use price_rounds::Effort;

/// Which options a command takes.
#[derive(Clone, Copy, Debug, PartialEq, Eq)]
pub(crate) enum Allowed {
    /// None.
    Nothing,
    /// Those of planning: `--workers`, `--rounds`, `--lower`, `--exchange` and `--climb`; and `--flow`.
    Planning,
    /// Those of planning but `--flow`.
    Replanning,
    /// Those of planning but `--flow`, and those of making a day: `--trips` and `--run`.
    Making,
}

/// What options set.
#[derive(Clone, Copy)]
pub(crate) struct Settings {
    /// How much work a plan is given.
    pub(crate) effort: Effort,
    /// Whether the blocks of a day with one pool are those of its flow plan, where they can be.
    pub(crate) flow: bool,
    /// How many trips a made day has, from 1 to 3,000.
    pub(crate) trips: u32,
    /// Whether a made day is planned.
    pub(crate) run: bool,
}

/// The options that are given, and their numbers.
#[derive(Clone, Copy)]
struct Given {
    workers: Option<u32>,
    rounds: Option<u32>,
    lower: Option<u32>,
    exchange: Option<u32>,
    climb: bool,
    flow: bool,
    trips: Option<u32>,
    run: bool,
}

/// An option and its value in one word.
#[derive(Clone, Copy)]
struct Setting<'w> {
    name: &'w [u8],
    value: &'w [u8],
}

fn is_option(word: &[u8]) -> bool
    ensures { result ≡ spec.is_option word.now }
{
    match word {
        [first, _, ..] => *first == b'-',
        _ => false,
    }
}

/// Whether a word is one of the flags `--run`, `--climb` and `--flow`, which have no value.
fn is_flag(word: &[u8]) -> bool
    ensures { result ≡ spec.is_flag word.now }
{
    let run: &[u8] = b"--run";
    let climb: &[u8] = b"--climb";
    let flow: &[u8] = b"--flow";
    word == run || (word == climb || word == flow)
}

/// Cuts a word at its first `=`.
fn cut(word: &[u8]) -> Option<Setting<'_>>
    ensures some { IfSome result (λ cut. (spec.has_mark word.now ≡ true) × (cut.name.now ≡ spec.before_mark word.now) × (cut.value.now ≡ spec.behind_mark word.now)) }
    ensures none { IfNone result (spec.has_mark word.now ≡ false) }
{
    for (place, byte) in word.iter().enumerate() {
        if *byte == b'=' {
            return Some(Setting {
                name: &word[..place],
                value: &word[place + 1..],
            });
        }
    }
    None
}

/// Whether a word has only ASCII digits.
pub(crate) fn are_digits(word: &[u8]) -> bool
    ensures { result ≡ list_all is_ascii_digit word.now }
{
    word.iter().all(|byte| byte.is_ascii_digit())
}

fn is_number(word: &[u8]) -> bool
    ensures { result ≡ spec.number_word word.now }
{
    are_digits(word) && (1 <= word.len() && word.len() <= 4)
}

/// The number that at most nine digits spell.
pub(crate) fn digits_number(word: &[u8]) -> u32
    requires digits { list_all is_ascii_digit word.now ≡ true }
    requires few { length word.now < 10 }
    ensures { result ≡ digits_value 10 word.now }
{
    let mut number = 0u32;
    for digit in word {
        number = number * 10 + u32::from(*digit - b'0');
    }
    number
}

/// The number of an option that was not given before.
fn once(old: Option<u32>, value: &[u8]) -> Option<u32>
    ensures { result ≡ spec.once old value.now }
{
    match old {
        None if is_number(value) => Some(digits_number(value)),
        _ => None,
    }
}

/// One more option with a value, where it is one and was not given before.
fn with_setting(given: Given, name: &[u8], value: &[u8]) -> Option<Given>
    ensures { result ≡ spec.with_setting given name.now value.now }
{
    let workers: &[u8] = b"--workers";
    let rounds: &[u8] = b"--rounds";
    let lower: &[u8] = b"--lower";
    let exchange: &[u8] = b"--exchange";
    let trips: &[u8] = b"--trips";
    let mut given = given;
    if name == workers {
        given.workers = Some(once(given.workers, value)?);
    } else if name == rounds {
        given.rounds = Some(once(given.rounds, value)?);
    } else if name == lower {
        given.lower = Some(once(given.lower, value)?);
    } else if name == exchange {
        given.exchange = Some(once(given.exchange, value)?);
    } else if name == trips {
        given.trips = Some(once(given.trips, value)?);
    } else {
        return None;
    }
    Some(given)
}

/// That a made day is planned, where it was not said before.
fn with_run(given: Given) -> Option<Given>
    ensures { result ≡ spec.with_run given }
{
    if given.run {
        return None;
    }
    let mut given = given;
    given.run = true;
    Some(given)
}

/// That plans are found by climbing, where it was not said before.
fn with_climb(given: Given) -> Option<Given>
    ensures { result ≡ spec.with_climb given }
{
    if given.climb {
        return None;
    }
    let mut given = given;
    given.climb = true;
    Some(given)
}

/// That the blocks of a day with one pool are those of its flow plan, where it was not said before.
fn with_flow(given: Given) -> Option<Given>
    ensures { result ≡ spec.with_flow given }
{
    if given.flow {
        return None;
    }
    let mut given = given;
    given.flow = true;
    Some(given)
}

/// One more flag, where it is one and was not given before.
fn with_flag(given: Given, word: &[u8]) -> Option<Given>
    ensures { result ≡ spec.with_flag given word.now }
{
    let run: &[u8] = b"--run";
    let climb: &[u8] = b"--climb";
    let flow: &[u8] = b"--flow";
    if word == run {
        with_run(given)
    } else if word == climb {
        with_climb(given)
    } else if word == flow {
        with_flow(given)
    } else {
        None
    }
}

/// Reading of words: the options so far, and one that waits for its value.
#[derive(Clone, Copy)]
struct Reading<'w> {
    given: Given,
    waiting: Option<&'w [u8]>,
}

/// Reads one more word.
fn with_word<'w>(reading: Reading<'w>, word: &'w [u8]) -> Option<Reading<'w>>
    ensures { (rest : List (List ℕ)) → given_with reading.entry.given (option_map (λ name. name.now) reading.entry.waiting) (word.now ∷ rest) ≡ option_and_then (λ next. given_with next.given (option_map (λ name. name.now) next.waiting) rest) result }
{
    let given = reading.given;
    match reading.waiting {
        Some(name) => Some(Reading {
            given: with_setting(given, name, word)?,
            waiting: None,
        }),
        None if !is_option(word) => Some(reading),
        None if is_flag(word) => Some(Reading {
            given: with_flag(given, word)?,
            waiting: None,
        }),
        None => match cut(word) {
            Some(cut) => Some(Reading {
                given: with_setting(given, cut.name, cut.value)?,
                waiting: None,
            }),
            None => Some(Reading {
                given,
                waiting: Some(word),
            }),
        },
    }
}

/// The options that words give.
fn given_in(words: &[Bytes]) -> Option<Given>
    ensures { result ≡ spec.given_after spec.none_given (spec.said words.now) }
{
    let mut reading = Reading {
        given: Given {
            workers: None,
            rounds: None,
            lower: None,
            exchange: None,
            climb: false,
            flow: false,
            trips: None,
            run: false,
        },
        waiting: None,
    };
    for word in words {
        reading = match with_word(reading, word.as_slice()) {
            Some(next) => next,
            None => return None,
        };
    }
    match reading.waiting {
        None => Some(reading.given),
        Some(name) => with_setting(reading.given, name, &[]),
    }
}

fn plans_nothing(given: Given) -> bool
    ensures { result ≡ spec.plans_nothing given }
{
    given.workers.is_none()
        && (given.rounds.is_none()
            && (given.lower.is_none()
                && (given.exchange.is_none() && (!given.climb && !given.flow))))
}

fn makes_nothing(given: Given) -> bool
    ensures { result ≡ spec.makes_nothing given }
{
    given.trips.is_none() && !given.run
}

/// Whether a command that takes these options takes those that are given.
fn is_allowed(allowed: Allowed, given: Given) -> bool
    ensures { result ≡ spec.is_allowed allowed given }
{
    match allowed {
        Allowed::Nothing => plans_nothing(given) && makes_nothing(given),
        Allowed::Planning => makes_nothing(given),
        Allowed::Replanning => makes_nothing(given) && !given.flow,
        Allowed::Making => !given.flow,
    }
}

fn effort_of(given: Given) -> Effort
    ensures { result ≡ spec.effort_of given }
{
    Effort {
        workers: given.workers.unwrap_or(1),
        rounds: given.rounds.unwrap_or(40),
        lower: given.lower.unwrap_or(20),
        exchange: given.exchange.unwrap_or(20),
        climb: given.climb,
    }
}

fn is_in_range(effort: Effort) -> bool
    ensures { result ≡ spec.in_range effort }
{
    (1 <= effort.workers && effort.workers <= 64)
        && ((1 <= effort.rounds && effort.rounds <= 200)
            && ((1 <= effort.lower && effort.lower <= 50) && effort.exchange <= 1_000))
}

/// What options set, where 240 trips are made unless said.
fn settings_of(given: Given) -> Settings
    ensures { result ≡ spec.settings_of given }
{
    Settings {
        effort: effort_of(given),
        flow: given.flow,
        trips: given.trips.unwrap_or(240),
        run: given.run,
    }
}

fn are_in_range(settings: Settings) -> bool
    ensures { result ≡ spec.are_in_range settings }
{
    is_in_range(settings.effort) && (1 <= settings.trips && settings.trips <= 3_000)
}

/// What words before `--` set, of a command that takes these options.
pub(crate) fn settings_said(allowed: Allowed, words: &[Bytes]) -> Option<Settings>
    ensures said { result ≡ spec.settings_said allowed words.now }
    ensures effort { IfSome result (λ settings. IsEffort settings.effort) }
    ensures trips { IfSome result (λ settings. settings.trips ≤ most_items) }
{
    let given = given_in(words)?;
    let settings = settings_of(given);
    if is_allowed(allowed, given) && are_in_range(settings) {
        Some(settings)
    } else {
        None
    }
}

/// A plain word, and the words behind it.
#[derive(Clone, Copy)]
pub(crate) struct PlainWord<'w> {
    pub(crate) word: &'w [u8],
    pub(crate) rest: &'w [Bytes],
}

fn has_mark(word: &[u8]) -> bool
    ensures { result ≡ spec.has_mark word.now }
{
    word.iter().any(|byte| *byte == b'=')
}

/// Whether a word is plain, where it may be the value of the option before it.
fn is_plain(is_value: bool, word: &[u8]) -> bool
    ensures { result ≡ (not is_value && not (spec.is_option word.now)) }
{
    !is_value && !is_option(word)
}

/// Whether a word that is not plain is an option that takes the next word as its value.
fn takes_next(is_value: bool, word: &[u8]) -> bool
    ensures { result ≡ (not is_value && spec.takes_next word.now) }
{
    !is_value && (!is_flag(word) && !has_mark(word))
}

/// The first word before `--` that is neither an option nor its value.
pub(crate) fn first_plain(words: &[Bytes]) -> Option<PlainWord<'_>>
    ensures some { IfSome result (λ first. spec.plain_of (spec.said words.now) ≡ first.word.now ∷ spec.plain_of (spec.said first.rest.now)) }
    ensures shorter { IfSome result (λ first. length first.rest.now < length words.now) }
    ensures none { IfNone result (spec.plain_of (spec.said words.now) ≡ []) }
{
    let mut is_value = false;
    for (place, word) in words.iter().enumerate() {
        let word = word.as_slice();
        if is_plain(is_value, word) {
            return Some(PlainWord {
                word,
                rest: &words[place + 1..],
            });
        }
        is_value = takes_next(is_value, word);
    }
    None
}
