//! Limits that are tried first.

/// What no list closes below, and a value with which one closes, or the limit where the dive met none below it.
#[derive(Clone, Copy, Debug, PartialEq, Eq)]
pub struct Guess {
    /// No list closes below it.
    pub floor: i64,
    /// Some list closes with it, or it is the limit.
    pub value: i64,
}

/// So many percent of the way from a number to another one.
fn part_way(from: i64, to: i64, percent: i64) -> i64 {
    from.saturating_add((to.saturating_sub(from) / 100).saturating_mul(percent))
}

/// Limits to be tried before a limit: so many percent of the way from the floor of a guess to its value, twice, and that value; the limit
/// itself where there is no guess.
pub fn likely(guess: Option<Guess>, limit: i64, percents: [i64; 2]) -> [i64; 3] {
    match guess {
        None => [limit; 3],
        Some(guess) => [
            part_way(guess.floor, guess.value, percents[0]),
            part_way(guess.floor, guess.value, percents[1]),
            guess.value,
        ],
    }
}
