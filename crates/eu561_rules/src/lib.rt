//! Articles 6 to 8 of Regulation (EC) 561/2006 for the duty of one day.
//!
//! A duty is the list of its drives, each with the pause before it, and its spread from sign-on
//! to sign-off. [`judge`] names the first article that it breaks, by these definitions.
//!
//! - A full break (article 7) is a pause of at least 45 minutes, or of at least 30 minutes where
//!   a pause of at least 15 minutes stands before it and after the last full break. 30 minutes
//!   and then 15 are none: this is the stricter reading.
//! - Neighbouring drives with no full break between them have at most 4.5 hours of driving in
//!   all (article 7), and the whole duty at most 9 hours (article 6(1)).
//! - The spread is at most 13 hours, or 15 where some pause is at least 3 hours (article 8(2),
//!   with the split daily rest of article 4(g)).
//!
//! A driver may have allowances, by which 9 hours are 10 (article 6(1)) and the spread is at most
//! 15 hours in any case (article 8(2), with a reduced daily rest): [`Limits::of`].
//!
//! [`Tally`] gives the same verdict drive by drive. Nothing here takes memory from the heap.
#![tactic(auto)]

ghost use Rattle.std.specs.Prelude.{◌≡◌, ℕ, ◌<◌, ◌≤◌, ◌↔◌, length, IsTrue};
ghost use Rattle.plan_core.specs.Limits.{most_items};
ghost use Rattle.eu561_rules.specs.Duty.{FirstPauseIsZero, IsBreakInWords, IsLawful, BreaksArticle7, BreaksArticle8, Judged, driving_of};
ghost use Rattle.eu561_rules.specs.Duty.{is_full_break as is_break};
ghost use Rattle.eu561_rules.specs.Lawful.{is_lawful};

mod counting;
mod rules;

pub use counting::Tally;
use counting::{completes, leaves_quarter};
pub use rules::{Drive, Limits, Verdict};

/// Whether the pause before the drive at this place, counted from 0, is a full break (article 7).
pub fn is_full_break(drives: &[Drive], place: usize) -> bool
    requires { place < length drives.now }
    ensures recursion { result ≡ is_break drives.now place }
    ensures words { IsTrue result ↔ IsBreakInWords drives.now place }
{
    let mut quarter = false;
    for drive in &drives[..place] {
        quarter = leaves_quarter(quarter, drive.pause);
    }
    completes(quarter, drives[place].pause)
}

/// The verdict on the drives of a duty of this spread, in seconds. A duty has at most 3,000
/// drives, and no pause before its first one.
///
/// - `Art6` where the driving in all exceeds the limit of the day (article 6(1));
/// - else `Art7`, with the first driving period that has too much driving (article 7);
/// - else `Art8` where the spread is longer than the one that applies (article 8(2));
/// - else `Lawful`.
pub fn judge(drives: &[Drive], spread: u64, limits: &Limits) -> Verdict
    requires few { length drives.now ≤ most_items }
    requires begins { FirstPauseIsZero drives.now }
    ensures first { Judged drives.now spread limits.now result }

    ensures art6 { (result ≡ Verdict.Art6 (driving_of drives.now)) ↔ (limits.now.day < driving_of drives.now) }
    ensures art7 { (i j driving : ℕ) → (result ≡ Verdict.Art7 i j driving) ↔ BreaksArticle7 limits.now drives.now i j driving }
    ensures art8 { (result ≡ Verdict.Art8 spread) ↔ BreaksArticle8 limits.now drives.now spread }
    ensures lawful { (result ≡ Verdict.Lawful) ↔ IsLawful limits.now drives.now spread }
    ensures tested { IsLawful limits.now drives.now spread ↔ IsTrue (is_lawful limits.now drives.now spread) }
{
    let mut tally = Tally::new(*limits);
    for drive in drives {
        tally.add(*drive);
    }
    tally.close(spread)
}
