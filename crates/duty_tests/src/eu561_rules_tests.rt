//! Duties judged at once and drive by drive, limits with allowances, and full breaks.

ghost use Rattle.std.specs.Prelude.{◌≤◌, ◌↔◌, IsTrue, length};
ghost use Rattle.plan_core.specs.Limits.{most_items};
ghost use Rattle.eu561_rules.specs.Duty.{FirstPauseIsZero};

use eu561_rules::{Drive, Limits, Tally, Verdict, is_full_break, judge};

const fn drive(pause: u32, driving: u32) -> Drive {
    Drive { pause, driving }
}

fn is_duty(drives: &[Drive]) -> bool
    ensures { IsTrue result ↔ ((length drives.now ≤ most_items) × FirstPauseIsZero drives.now) }
{
    drives.len() <= 3000 && (drives.is_empty() || drives[0].pause == 0)
}

/// The verdict on the duty, drive by drive.
fn verdict_by_tally(drives: &[Drive], spread: u64, limits: Limits) -> Verdict
    requires few { length drives.now ≤ most_items }
    requires begins { FirstPauseIsZero drives.now }
{
    let mut tally = Tally::new(limits);
    for drive in drives {
        tally.add(*drive);
    }
    tally.close(spread)
}

/// Whether a duty of a spread has a verdict, at once and drive by drive.
fn is_judged(drives: &[Drive], spread: u64, limits: Limits, verdict: Verdict) -> bool {
    is_duty(drives)
        && judge(drives, spread, &limits) == verdict
        && verdict_by_tally(drives, spread, limits) == verdict
}

/// Whether duties have their verdicts within the regular limits.
fn are_judged(rows: &[(&[Drive], u64, Verdict)]) -> bool {
    for (drives, spread, verdict) in rows {
        if !is_judged(drives, *spread, Limits::regular(), *verdict) {
            return false;
        }
    }
    true
}

const fn art6(driving: u64) -> Verdict {
    Verdict::Art6 { driving }
}

const fn art7(first: u32, last: u32, driving: u64) -> Verdict {
    Verdict::Art7 {
        first,
        last,
        driving,
    }
}

const fn art8(spread: u64) -> Verdict {
    Verdict::Art8 { spread }
}

/// Duties of much driving.
fn driven_duties_are_judged() -> bool {
    are_judged(&[
        (&[], 0, Verdict::Lawful),
        (
            &[drive(0, 16200), drive(2700, 16200)],
            40000,
            Verdict::Lawful,
        ),
        (
            &[drive(0, 16201), drive(2700, 16199)],
            40000,
            art7(0, 0, 16201),
        ),
        (&[drive(0, 16200), drive(2700, 16201)], 40000, art6(32401)),
        (
            &[drive(0, 16200), drive(2699, 16200)],
            40000,
            art7(0, 1, 32400),
        ),
    ])
}

/// Duties with a quarter of an hour, and then half an hour or less.
fn parted_breaks_are_judged() -> bool {
    are_judged(&[
        (
            &[drive(0, 3600), drive(900, 10800), drive(1800, 14400)],
            31500,
            Verdict::Lawful,
        ),
        (
            &[drive(0, 3600), drive(1800, 10800), drive(900, 3600)],
            20700,
            art7(0, 2, 18000),
        ),
        (
            &[
                drive(0, 1800),
                drive(900, 1800),
                drive(1800, 10800),
                drive(1800, 14400),
            ],
            33300,
            art7(2, 3, 25200),
        ),
    ])
}

const fn two(pause: u32) -> [Drive; 2] {
    [drive(0, 3600), drive(pause, 3600)]
}

/// Duties of a long spread.
fn spreads_are_judged() -> bool {
    are_judged(&[
        (&two(2700), 46800, Verdict::Lawful),
        (&two(2700), 46801, art8(46801)),
        (&two(10800), 54000, Verdict::Lawful),
        (&two(10800), 54001, art8(54001)),
        (&two(10799), 46800, Verdict::Lawful),
        (&two(10799), 54000, art8(54000)),
    ])
}

#[test]
fn duties_are_judged(rt: HostRuntime) {
    assert!(rt; driven_duties_are_judged());
    assert!(rt; parted_breaks_are_judged());
    assert!(rt; spreads_are_judged());
}

/// Ten hours of driving, and a second more.
fn long_days_are_judged() -> bool {
    let ten = Limits::of(true, false);
    let long = [drive(0, 16200), drive(2700, 16200), drive(2700, 3600)];
    let longer = [drive(0, 16200), drive(2700, 16200), drive(2700, 3601)];
    is_judged(&long, 42000, ten, Verdict::Lawful)
        && is_judged(&long, 42000, Limits::regular(), art6(36000))
        && is_judged(&longer, 42000, ten, art6(36001))
}

/// Fifteen hours from sign-on to sign-off, and a second more.
fn short_rests_are_judged() -> bool {
    let short = Limits::of(false, true);
    is_judged(&two(2700), 54000, short, Verdict::Lawful)
        && is_judged(&two(2700), 54001, short, art8(54001))
}

#[test]
fn allowances_are_granted(rt: HostRuntime) {
    assert!(rt; long_days_are_judged());
    assert!(rt; short_rests_are_judged());
}

fn breaks_are_told() -> bool {
    let drives = [
        drive(0, 1800),
        drive(900, 1800),
        drive(1800, 10800),
        drive(1800, 14400),
        drive(2700, 0),
    ];
    !is_full_break(&drives, 0)
        && !is_full_break(&drives, 1)
        && is_full_break(&drives, 2)
        && !is_full_break(&drives, 3)
        && is_full_break(&drives, 4)
}

#[test]
fn full_breaks_are_told(rt: HostRuntime) {
    assert!(rt; breaks_are_told());
}
