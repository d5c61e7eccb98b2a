//! What is denied of a roster.

ghost use Rattle.std.specs.Prelude.{◌≡◌, ◌<◌, ◌^◌, IfOk, IsPermutation, IsSorted, List, OnOk, length};
ghost use Rattle.week_check.specs.Denials.{Adds, AreDenials, HasDays, denial_order, finding_of, when};
ghost use Rattle.week_check.specs.Duties.{IsRoster};
ghost use Rattle.week_check.specs.declared.denial.Denial.{Denial};
ghost use Rattle.week_check.specs.declared.turn.Turn.{Turn};

use crate::drivers::{add_drivers, in_order};
use crate::turn::Turn;
use plan_core::{Memory, Seq};
use std::alloc::Global;

/// What an article denies of a driver's duties.
#[derive(Clone, Copy, Debug, PartialEq, Eq, PartialOrd, Ord)]
pub struct Denial {
    /// FAHRER_NR, the number of the driver.
    pub driver: u32,
    /// The article of Regulation (EC) 561/2006: 61 for 6(1), 62 for 6(2), 63 for 6(3), 82 for 8(2)
    /// and 84 for 8(4).
    pub article: u32,
    /// The first day as YYYYMMDD: the duty's, or the Monday of the week.
    pub from: u32,
    /// The last day as YYYYMMDD: the duty's, that of the next duty, or the Sunday of the week.
    pub to: u32,
    /// Seconds of driving for articles 6(1) to 6(3), of rest for article 8(2), and a number of
    /// reduced rests for article 8(4).
    pub value: i64,
}

/// Puts a denial behind the others, where it is one.
pub(crate) fn add(out: &mut Vec<Denial>, is_denied: bool, denial: Denial) -> Result<(), Memory>
    requires { HasDays denial }
    ensures { OnOk result (Adds out.old.items out.new.items (when is_denied (finding_of denial))) }
{
    if is_denied {
        out.push(denial)?;
    }
    Ok(())
}

fn put_in_order(found: &mut Vec<Denial>) -> Result<(), Memory>
    ensures sorted { OnOk result (IsSorted denial_order found.new.items) }
    ensures permutation { IsPermutation found.old.items found.new.items }
{
    found.sort()?;
    Ok(())
}

/// What articles 6(1) to 6(3), 8(2) and 8(4) of Regulation (EC) 561/2006 deny of the duties of a
/// roster, such as `read_roster` gives: each denial once, by driver, article, first and last day.
///
/// - 61, article 6(1): a duty with more than ten hours of driving, or with more than nine where two
///   earlier duties of the driver in its week have more than nine.
/// - 62, article 6(2): a week with more than 56 hours of driving. A week runs from Monday to Sunday
///   (article 4(i)), and a duty belongs to the week of its day.
/// - 63, article 6(3): two neighbouring weeks, each with a duty, with more than 90 hours of driving.
/// - 82, article 8(2): a duty whose rest is under nine hours. The gap after a duty is the time up to
///   the driver's next duty, and 24 hours after the last one; the rest is what of the gap lies
///   within 24 hours from the duty's start.
/// - 84, article 8(4): a duty with a reduced rest where since the last weekly rest at least three
///   duties of the driver had one. A weekly rest is a gap of at least 24 hours (article 4(h)). A
///   reduced rest has at least nine and under eleven hours, is no weekly rest, and its duty had no
///   pause of three hours (article 4(g)).
///
/// The premises are that the first duty of each driver follows a weekly rest, and that nothing
/// before the first day counts. The cost is that of sorting the duties; a driver has at most 14.
///
/// # Errors
///
/// `Memory` where memory runs out, and for nothing else.
pub fn denials(alloc: Global, turns: &[Turn]) -> Result<Seq<Denial>, Memory>
    requires roster { IsRoster turns.now }
    requires few { length turns.now < 2 ^ 32 }
    ensures { IfOk result (AreDenials turns.now) }
{
    let ordered = in_order(alloc, turns)?;
    let mut found = Vec::new(alloc);
    add_drivers(alloc, ordered.as_slice(), &mut found)?;
    put_in_order(&mut found)?;
    Ok(Seq::from_vec(found))
}

/// Two lists of what is denied of the same duties are one list.
pub fn one_list()
    ensures { (turns : List Turn) (a b : List Denial) → AreDenials turns a → AreDenials turns b → a ≡ b }
{}
