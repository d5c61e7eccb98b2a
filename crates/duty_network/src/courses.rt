//! The verdict on a list of pieces, and what it is worth.

ghost use Rattle.std.specs.Prelude.{◌≡◌, ◌<◌, ◌≤◌, ◌≤ℤ◌, ◌-ℤ◌, ◌+◌, ◌*◌, neg_ℤ, pos, length, [], ◌∷◌, cond, IfSome, IfNone, None, Some, option_and_then, slice_get};
ghost use Rattle.std.specs.Option.{option_map};
ghost use Rattle.plan_core.specs.Limits.{most_worth, most_rate, most_fixed_cost};
ghost use Rattle.plan_core.specs.declared.types.Piece.{Piece};
ghost use Rattle.cover_core.specs.Cover.{AllBelow};
ghost use Rattle.plan_params.specs.Limits.{IsGroup};
ghost use Rattle.plan_params.specs.declared.rows.group.Group.{Group};
ghost use Rattle.eu561_rules.specs.Duty.{Judged};
ghost use Rattle.eu561_rules.specs.Summary.{StandsFor};
ghost use Rattle.duty_network.specs.Times.{seconds};
ghost use Rattle.duty_network.specs.Courses.{HasNoSpan, IsCourse, IsJudged, IsSpanned, IsTallied, drive_of, drives_on, span_of};
ghost use Rattle.duty_network.specs.Duties.{Duty, cost_of, duty_of, duty_worth, limits_of};

use crate::marks::limits;
use crate::net::{DutyNet, to_seconds};
use eu561_rules::{Drive, Tally, Verdict};
use plan_core::Sec;
use plan_params::Group;

/// A list of pieces that was walked: its drives, sign-on, sign-off and spread.
#[derive(Clone, Copy)]
pub(crate) struct Course {
    pub tally: Tally,
    pub on: i64,
    pub off: i64,
    pub spread: u32,
}

impl DutyNet<'_> {
    /// Adds the drives of the pieces after a first one to a tally, and answers the last of the pieces. None where the numbers do not rise
    /// or a pause is missing.
    fn add_after(&self, tally: &mut Tally, first: u32, rest: &[u32]) -> Option<u32>
        requires first { first < length self.now.pieces }
        requires rest { AllBelow (length self.now.pieces) rest.now }
        requires tally { (p : Piece) → slice_get self.now.pieces first ≡ Some p → StandsFor tally.old (drive_of 0 p ∷ []) }
        ensures limits { tally.new.limits ≡ tally.old.limits }
        ensures some { IfSome result (λ last. (p : Piece) → slice_get self.now.pieces first ≡ Some p → IsTallied self.now first rest.now (drive_of 0 p) last tally.new) }
        ensures none { IfNone result (drives_on self.now first rest.now ≡ None) }
    {
        self.fits();
        let mut last = first;
        for next in rest {
            if *next <= last {
                return None;
            }
            let pause = self.pause(last, *next)?;
            let driving = self.piece(*next).driving;
            tally.add(Drive { pause, driving });
            last = *next;
        }
        Some(last)
    }

    /// The tally of a first piece, in the limits of a group.
    fn first_tally(&self, group: &Group, first: u32) -> Tally
        requires first { first < length self.now.pieces }
        ensures limits { result.limits ≡ limits_of group.now }
        ensures stands { (p : Piece) → slice_get self.now.pieces first ≡ Some p → StandsFor result (drive_of 0 p ∷ []) }
    {
        let driving = self.piece(first).driving;
        let mut tally = Tally::new(limits(group));
        tally.add(Drive { pause: 0, driving });
        tally
    }

    /// The course of a list with these drives, first and last piece.
    fn course_between(
        &self,
        class: u32,
        group: &Group,
        tally: Tally,
        first: u32,
        last: u32,
    ) -> Option<Course>
        requires class { slice_get self.now.params.groups class ≡ Some group.now }
        requires ranges { IsGroup group.now }
        requires first { first < length self.now.pieces }
        requires last { last < length self.now.pieces }
        ensures some { IfSome result (λ course. (p q : Piece) → slice_get self.now.pieces first ≡ Some p → slice_get self.now.pieces last ≡ Some q → IsSpanned self.now group.now p q tally course) }
        ensures none { IfNone result ((p q : Piece) → slice_get self.now.pieces first ≡ Some p → slice_get self.now.pieces last ≡ Some q → HasNoSpan self.now group.now p q) }
    {
        let on = self.sign_on(class, group, first)?;
        let off = self.sign_off(class, group, last)?;
        let spread = to_seconds(off - on)?;
        Some(Course {
            tally,
            on,
            off,
            spread,
        })
    }

    /// The course of a list with a first piece, where it is a duty of a group, lawful or not.
    fn course_from(&self, class: u32, first: u32, rest: &[u32]) -> Option<Course>
        requires class { class < length self.now.params.groups }
        requires first { first < length self.now.pieces }
        requires rest { AllBelow (length self.now.pieces) rest.now }
        ensures some { IfSome result (λ course. (g : Group) → slice_get self.now.params.groups class ≡ Some g → (duty : Duty) × (duty_of self.now class (first ∷ rest.now) ≡ Some duty) × IsCourse self.now g duty course) }
        ensures none { IfNone result (duty_of self.now class (first ∷ rest.now) ≡ None) }
    {
        let group = self.group(class);
        let mut tally = self.first_tally(group, first);
        let last = self.add_after(&mut tally, first, rest)?;
        self.course_between(class, group, tally, first, last)
    }

    /// The course of a list of pieces of a group, where it is a duty, lawful or not.
    fn course(&self, class: u32, list: &[u32]) -> Option<Course>
        requires class { class < length self.now.params.groups }
        requires items { AllBelow (length self.now.pieces) list.now }
        ensures some { IfSome result (λ course. (g : Group) → slice_get self.now.params.groups class ≡ Some g → (duty : Duty) × (duty_of self.now class list.now ≡ Some duty) × IsCourse self.now g duty course) }
        ensures none { IfNone result (duty_of self.now class list.now ≡ None) }
    {
        match list {
            [] => None,
            [first, rest @ ..] => self.course_from(class, *first, rest),
        }
    }

    /// Sign-on and sign-off of a list of pieces of a group: the start of the first piece less the way from home and the sign-on time, the
    /// end of the last one plus the way home and the sign-off time. None exactly where a pause or a way is missing or the list is empty
    /// or does not rise.
    pub fn span(&self, class: u32, list: &[u32]) -> Option<(Sec, Sec)>
        requires class { class < length self.now.params.groups }
        requires items { AllBelow (length self.now.pieces) list.now }
        ensures { result ≡ option_map span_of (duty_of self.now class list.now) }
    {
        let course = self.course(class, list)?;
        Some((Sec(course.on), Sec(course.off)))
    }

    /// The verdict on a list of pieces as a duty of a group: the first of the articles 6(1), 7 and 8(2) that it breaks in the limits of
    /// the group. None exactly where a pause or a way is missing or the list is empty or does not rise.
    pub fn verdict(&self, class: u32, list: &[u32]) -> Option<Verdict>
        requires class { class < length self.now.params.groups }
        requires items { AllBelow (length self.now.pieces) list.now }
        ensures some { IfSome result (IsJudged self.now class list.now) }
        ensures none { IfNone result (duty_of self.now class list.now ≡ None) }
    {
        let course = self.course(class, list)?;
        Some(course.tally.close(course.spread as u64))
    }

    /// The worth of a list of pieces as a lawful duty of a group.
    pub(crate) fn duty_worth(&self, class: u32, list: &[u32]) -> Option<u64>
        requires class { class < length self.now.params.groups }
        requires items { AllBelow (length self.now.pieces) list.now }
        ensures value { result ≡ duty_worth self.now class list.now }
        ensures bound { IfSome result (λ worth. worth ≤ most_worth) }
    {
        let group = self.group(class);
        let course = self.course(class, list)?;
        match course.tally.close(course.spread as u64) {
            Verdict::Lawful => Some(cost(self.counts(), group, course.spread)),
            _ => None,
        }
    }
}

/// What a duty costs, or 1 where duties are counted.
fn cost(counts: bool, group: &Group, spread: u32) -> u64
    requires ranges { IsGroup group.now }
    requires spread { spread ≤ 54000 }
    ensures value { result ≡ cond counts 1 (group.now.fixed + group.now.rate * spread) }
    ensures bound { result ≤ most_worth }
{
    if counts {
        1
    } else {
        cost_with_fixed(group.fixed, group.rate, spread)
    }
}

/// A fixed cost and the cost of some seconds at a rate.
fn cost_with_fixed(fixed: u32, rate: u32, seconds: u32) -> u64
    requires fixed { fixed ≤ most_fixed_cost }
    requires rate { rate ≤ most_rate }
    requires seconds { seconds ≤ 54000 }
    ensures value { result ≡ fixed + rate * seconds }
    ensures bound { result ≤ most_worth }
{
    u64::from(fixed) + u64::from(rate) * u64::from(seconds)
}
