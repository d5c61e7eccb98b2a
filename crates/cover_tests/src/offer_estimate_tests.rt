//! Guesses of scales, and prices at a scale, worked by hand.

use crate::made_columns::prices;
use offer_estimate::{Scale, best_guess, scaled};
use plan_core::Price;
use std::test::Fail;

/// Prices of the sum 10,000 in a class of two places: its least value is -2,000, and its cheapest single item is worth 3,000. Unscaled
/// they bound 10,000 - 2 * 2,000; at 3,000 / 5,000 the least value is 0, and they bound 6,000 too: the first is kept. With three places the
/// scale is better, and with no loss there is nothing to scale.
#[test]
fn guesses_of_one_class(rt: HostRuntime) {
    for (cap, least, part, whole, bound) in [
        (2, -2000, 1, 1, 6000),
        (3, -2000, 3000, 5000, 6000),
        (3, 0, 1, 1, 10000),
    ] {
        let best = best_guess(
            10000,
            [least].as_slice(),
            [3000].as_slice(),
            [cap].as_slice(),
        );
        assert_eq!(rt; best.scale.part, part);
        assert_eq!(rt; best.scale.whole, whole);
        assert_eq!(rt; best.bound, bound);
    }
}

/// A part is rounded down, also below 0.
#[test]
fn prices_at_a_scale(rt: HostRuntime) -> Result<(), Fail> {
    let prices = prices(rt.alloc(), [Price(1000), Price(-1000), Price(0)].as_slice())?;
    let scale = Scale { part: 2, whole: 3 };
    let scaled = scaled(rt.alloc(), &prices, scale)?;
    assert_eq!(rt;
        scaled.items.as_slice(),
        [Price(666), Price(-667), Price(0)].as_slice()
    );
    Ok(())
}
