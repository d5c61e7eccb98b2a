//! Drives, limits and verdicts.
#![tactic(auto)]

ghost use Rattle.std.specs.Prelude.{◌≡◌};
ghost use Rattle.eu561_rules.specs.Lawful.{limits_for, regular};

/// A drive of a duty, and the pause before it.
#[derive(Clone, Copy, Debug, PartialEq, Eq)]
pub struct Drive {
    /// The pause before the drive, in seconds; 0 for the first drive of a duty.
    pub pause: u32,
    /// The driving time (article 4(j) of Regulation (EC) 561/2006), in seconds.
    pub driving: u32,
}

/// How much a duty may have of what, each in seconds.
///
/// [`Limits::of`] has those of a driver with allowances, a day of ten hours or a reduced daily rest.
#[derive(Clone, Copy, Debug, PartialEq, Eq)]
pub struct Limits {
    /// The most driving between neighbouring full breaks (article 7).
    pub block: u32,
    /// The most driving in all (article 6(1)).
    pub day: u32,
    /// The longest spread, from sign-on to sign-off (article 8(2)).
    pub spread: u32,
    /// The longest spread of a duty with a long pause (article 8(2) with the split rest of article 4(g)).
    pub long_spread: u32,
    /// The shortest pause that is the first part of a split daily rest (article 4(g)).
    pub long_pause: u32,
}

impl Limits {
    /// The limits of Regulation (EC) 561/2006 for a driver without allowances: 4.5 hours of
    /// driving between full breaks, 9 hours in all, a spread of 13 hours, or of 15 hours with a
    /// pause of at least 3 hours.
    pub fn regular() -> Limits
        ensures { result ≡ regular }
    {
        Limits {
            block: 16200,
            day: 32400,
            spread: 46800,
            long_spread: 54000,
            long_pause: 10800,
        }
    }

    /// The limits of Regulation (EC) 561/2006 for a driver with allowances, in seconds: with `ten`
    /// 10 hours of driving in all (article 6(1), at most twice a week), with `reduced` a spread of
    /// 15 hours, since a reduced daily rest of 9 hours follows (article 8(2), at most three times
    /// between two weekly rests). All else is as in [`Limits::regular`]. It takes no memory.
    pub fn of(ten: bool, reduced: bool) -> Limits
        ensures { result ≡ limits_for ten reduced }
    {
        let regular = Limits::regular();
        Limits {
            day: if ten { 36000 } else { regular.day },
            spread: if reduced { 54000 } else { regular.spread },
            ..regular
        }
    }
}

/// The first of the articles 6, 7 and 8 of Regulation (EC) 561/2006 that a duty breaks.
#[derive(Clone, Copy, Debug, PartialEq, Eq)]
pub enum Verdict {
    /// All three articles are kept.
    Lawful,
    /// The driving in all, in seconds, exceeds the limit of the day (article 6(1)).
    Art6 { driving: u64 },
    /// Between two neighbouring full breaks, or the duty's ends, there is too much driving
    /// (article 7): the places of the first and the last drive of the first such driving
    /// period, counted from 0, and its driving in seconds.
    Art7 { first: u32, last: u32, driving: u64 },
    /// The spread, in seconds, is longer than the daily rest allows (article 8(2)).
    Art8 { spread: u64 },
}
