//! The verdict on a duty drive by drive, in constant memory.
#![tactic(auto)]

ghost use Rattle.std.specs.Prelude.{◌≡◌, ◌<◌, ◌++◌, ◌||◌, [], ◌∷◌, List, cond, false, nat_le};
ghost use Rattle.plan_core.specs.Limits.{most_items};
ghost use Rattle.eu561_rules.specs.Duty.{Judged, completes_break};
ghost use Rattle.eu561_rules.specs.Summary.{StandsFor, StandsForFewer, IsSmall, closed_excess, tally_after};
ghost use Rattle.eu561_rules.specs.declared.rules.Drive.{Drive};

use crate::rules::{Drive, Limits, Verdict};
use std::marker::Model;

/// A driving period with too much driving.
#[derive(Clone, Copy, Debug, PartialEq, Eq)]
struct Excess {
    first: u32,
    last: u32,
    driving: u64,
}

/// Whether a pause of so many seconds is a full break (article 7), where `quarter` says whether
/// a pause of at least 15 minutes stands before it and after the last full break.
pub(crate) fn completes(quarter: bool, pause: u32) -> bool
    ensures { result ≡ completes_break quarter pause }
{
    pause >= 2700 || (pause >= 1800 && quarter)
}

/// Whether a pause of at least 15 minutes stands after the last full break, once this pause came.
pub(crate) fn leaves_quarter(quarter: bool, pause: u32) -> bool
    ensures { result ≡ cond (completes_break quarter pause) false (nat_le 900 pause || quarter) }
{
    !completes(quarter, pause) && (pause >= 900 || quarter)
}

/// Judges a duty drive by drive.
///
/// A tally has a constant size: it does not store the drives. It stands for each list of drives
/// with the same facts, and its answer is that of `judge` for every such list.
#[derive(Clone, Copy, Debug, PartialEq, Eq)]
pub struct Tally {
    limits: Limits,
    count: u32,
    quarter: bool,
    long: bool,
    total: u64,
    first: u32,
    driving: u64,
    over: Option<Excess>,
}

impl Model for Tally {
    ghost use Rattle.eu561_rules.specs.Summary.{Summary};

    ghost Value = { Summary };

    ghost view = { λ t. record { limits = t.limits; count = t.count; quarter = t.quarter; long = t.long; total = t.total; first = t.first; driving = t.driving; over = t.over } };

    ghost inverse = { λ s. record { limits = s.limits; count = s.count; quarter = s.quarter; long = s.long; total = s.total; first = s.first; driving = s.driving; over = s.over } };
}

impl Tally {
    /// The tally of no drives, for a duty that is held to these limits.
    pub fn new(limits: Limits) -> Tally
        ensures limits { result.limits ≡ limits }
        ensures drives { StandsFor result [] }
    {
        Tally {
            limits,
            count: 0,
            quarter: false,
            long: false,
            total: 0,
            first: 0,
            driving: 0,
            over: None,
        }
    }

    /// The first driving period with too much driving, once the last one has ended.
    fn first_excess(&self) -> Option<Excess>
        requires { IsSmall self.now }
        ensures { result ≡ closed_excess self.now }
    {
        if self.over.is_none() && self.driving > self.limits.block as u64 {
            Some(Excess {
                first: self.first,
                last: self.count - 1,
                driving: self.driving,
            })
        } else {
            self.over
        }
    }

    /// The tally with one drive more.
    fn after(&self, drive: Drive) -> Tally
        requires small { IsSmall self.now }
        requires few { self.now.count < most_items }
        ensures { result ≡ tally_after self.now drive }
    {
        let long = self.long || drive.pause >= self.limits.long_pause;
        let total = self.total + drive.driving as u64;
        let count = self.count + 1;
        if completes(self.quarter, drive.pause) {
            Tally {
                limits: self.limits,
                count,
                quarter: false,
                long,
                total,
                first: self.count,
                driving: drive.driving as u64,
                over: self.first_excess(),
            }
        } else {
            Tally {
                limits: self.limits,
                count,
                quarter: drive.pause >= 900 || self.quarter,
                long,
                total,
                first: self.first,
                driving: self.driving + drive.driving as u64,
                over: self.over,
            }
        }
    }

    /// Adds a drive after the others. A duty has at most 3,000 drives, and no pause before its
    /// first one.
    pub fn add(&mut self, drive: Drive)
        requires { StandsForFewer self.old drive }
        ensures limits { self.new.limits ≡ self.old.limits }
        ensures drives { (drives : List Drive) → StandsFor self.old drives → StandsFor self.new (drives ++ drive ∷ []) }
    {
        *self = self.after(drive);
    }

    /// The spread that article 8(2) allows.
    fn most_spread(&self) -> u32
        ensures { result ≡ cond self.now.long self.now.limits.long_spread self.now.limits.spread }
    {
        if self.long {
            self.limits.long_spread
        } else {
            self.limits.spread
        }
    }

    /// The verdict on the drives that the tally stands for, in a duty of this spread in seconds:
    /// what `judge` answers for them.
    pub fn close(&self, spread: u64) -> Verdict
        ensures { (drives : List Drive) → StandsFor self.now drives → Judged drives spread self.now.limits result }
    {
        if self.total > self.limits.day as u64 {
            return Verdict::Art6 {
                driving: self.total,
            };
        }
        if let Some(excess) = self.over {
            return Verdict::Art7 {
                first: excess.first,
                last: excess.last,
                driving: excess.driving,
            };
        }
        if self.driving > self.limits.block as u64 {
            return Verdict::Art7 {
                first: self.first,
                last: self.count.saturating_sub(1),
                driving: self.driving,
            };
        }
        if spread > self.most_spread() as u64 {
            Verdict::Art8 { spread }
        } else {
            Verdict::Lawful
        }
    }
}
