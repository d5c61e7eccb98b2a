//! Covers of a small problem, worked by hand: every list that rises is worth 1 in each of two classes.

ghost use Rattle.std.specs.Prelude.{◌≡◌, ◌≤◌, ◌<◌, ◌-ℤ◌, true, length};
ghost use Rattle.plan_core.specs.Limits.{most_items};
ghost use Rattle.cover_core.specs.Plans.{price_at};
ghost use Rattle.mark_cover.specs.Searches.{AreThere};
ghost use Rattle.label_tests.specs.Samples.{AreSmall, StepFits, rising, steps, steps-apart, steps-ordered, steps-placed, steps-safe, steps-tied};

use cover_core::Gap;
use mark_cover::{Marks, OpenLists, cover_is_paid, first_gap, kept_marks_are_minimal, make_marks};
use plan_core::{Memory, Price};
use std::alloc::Global;
use std::test::Fail;

/// Lists that rise, under prices.
#[derive(Drop)]
struct Rising {
    prices: Vec<Price>,
    ghost few: { length prices.items ≤ most_items },
    ghost small: { AreSmall prices.items },
}

/// The price of an item.
fn price(prices: &[Price], item: u32) -> i64
    requires { item < length prices.now }
    ensures { result ≡ price_at prices.now item }
{
    prices[item as usize].0
}

/// A value less the price of an item.
fn less(value: i64, price: i64) -> i128
    ensures { result ≡ value -ℤ price }
{
    value as i128 - price as i128
}

impl Marks for Rising {
    type Mark = (u32, u32, i64);

    type Open = (u32, u32, i128);

    ghost marking = { λ s. steps s.prices.items };

    ghost problem = { λ s. rising s.prices.items };

    ghost prices = { λ s. s.prices.items };

    ghost seen = { λ s made. made };

    ghost ordered = { λ s. steps-ordered s.prices.items };

    ghost placed = { λ s. steps-placed s.prices.items };

    ghost tied = { λ s. steps-tied s.prices.items };

    fn items(&self) -> u32 {
        self.prices.len() as u32
    }

    fn classes(&self) -> u32 {
        2
    }

    fn class_of(&self, mark: &(u32, u32, i64)) -> u32 {
        mark.0
    }

    fn last(&self, mark: &(u32, u32, i64)) -> u32 {
        mark.1
    }

    fn first(&self, class: u32, item: u32) -> Option<(u32, u32, i128)> {
        Some((class, item, less(1000, price(self.prices.as_slice(), item))))
    }

    fn next(&self, mark: &(u32, u32, i64), item: u32) -> Option<(u32, u32, i128)> {
        if mark.1 < item {
            Some((
                mark.0,
                item,
                less(mark.2, price(self.prices.as_slice(), item)),
            ))
        } else {
            None
        }
    }

    fn close(&self, mark: &(u32, u32, i64)) -> Option<i128> {
        Some(mark.2 as i128)
    }

    fn is_as_good(&self, mark: &(u32, u32, i64), made: &(u32, u32, i128)) -> bool {
        mark.0 == made.0 && mark.1 == made.1 && mark.2 as i128 <= made.2
    }
}

impl OpenLists for Rising {
    ghost sound = { λ s. StepFits };

    ghost safe = { λ s. steps-safe s.prices.items s.few s.small };

    ghost apart = { λ s. steps-apart s.prices.items };

    fn narrow(&self, made: &(u32, u32, i128)) -> (u32, u32, i64) {
        (made.0, made.1, made.2 as i64)
    }

    fn beats(&self, a: &(u32, u32, i64), b: &(u32, u32, i64)) -> bool {
        a.0 == b.0 && a.1 == b.1 && a.2 <= b.2
    }
}

/// Three items, each of price 400.
fn three(alloc: Global) -> Result<Rising, Memory> {
    Ok(Rising {
        prices: vec![in alloc; Price(400), Price(400), Price(400)]?,
    })
}

/// Whether the classes and items of marks are there, and the marks are few.
fn are_there(rising: &Rising, marks: &[(u32, u32, i64)]) -> bool
    ensures there { result ≡ true → AreThere (steps rising.now.prices.items) marks.now }
    ensures few { result ≡ true → length marks.now < 4294967296 }
{
    for place in 0..marks.len() {
        if marks[place].0 >= 2 || marks[place].1 as usize >= rising.prices.len() {
            return false;
        }
    }
    marks.len() < 4294967296
}

/// The first gap of marks, if there is one, where the classes and items of the marks are there.
fn gap_of(rising: &Rising, marks: &[(u32, u32, i64)], class_prices: &[i64]) -> Option<Option<Gap>> {
    cover_is_paid::<Rising>();
    kept_marks_are_minimal::<Rising>();
    if are_there(rising, marks) {
        Some(first_gap(rising, marks, class_prices))
    } else {
        None
    }
}

/// The best marks of three items, by class and last item: lists of one, two and three items have the values 600, 200 and -200.
fn best_marks() -> [(u32, u32, i64); 6] {
    [
        (0, 0, 600),
        (0, 1, 200),
        (0, 2, -200),
        (1, 0, 600),
        (1, 1, 200),
        (1, 2, -200),
    ]
}

/// Whether the best marks are a cover with class prices of 200, in any order, and less is none.
fn gaps_are_right(alloc: Global) -> Result<bool, Memory> {
    let rising = three(alloc)?;
    let best = best_marks();
    let other_order = [
        best[5], best[2], best[4], best[1], best[3], best[0], best[0],
    ];
    let no_mark = [best[0], best[2], best[3], best[4], best[5]];
    let mut too_high = best;
    too_high[1] = (0, 1, 201);
    let mut from_outside = best;
    from_outside[0] = (0, 0, i64::MIN);
    from_outside[1] = (0, 1, i64::MIN);
    for (marks, second, gap) in [
        (best.as_slice(), 200, None),
        (other_order.as_slice(), 200, None),
        (best.as_slice(), 199, Some(Gap::Close { place: 5 })),
        (
            no_mark.as_slice(),
            200,
            Some(Gap::First { class: 0, piece: 1 }),
        ),
        (
            too_high.as_slice(),
            200,
            Some(Gap::Next { place: 0, piece: 1 }),
        ),
        (
            from_outside.as_slice(),
            200,
            Some(Gap::Next { place: 0, piece: 1 }),
        ),
    ] {
        if gap_of(&rising, marks, [200, second].as_slice()) != Some(gap) {
            return Ok(false);
        }
    }
    Ok(true)
}

#[test]
fn covers_and_gaps(rt: HostRuntime) -> Result<(), Fail> {
    assert!(rt; gaps_are_right(rt.alloc())?);
    Ok(())
}

/// Whether the marks that are made are the best ones.
fn best_are_made(alloc: Global) -> Result<bool, Memory> {
    let rising = three(alloc)?;
    let made = make_marks(alloc, &rising)?;
    Ok(made.as_slice() == best_marks().as_slice())
}

#[test]
fn marks_that_are_made(rt: HostRuntime) -> Result<(), Fail> {
    assert!(rt; best_are_made(rt.alloc())?);
    Ok(())
}
