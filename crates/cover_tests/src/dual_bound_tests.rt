//! Class prices, bounds and offers, worked by hand.

ghost use Rattle.std.specs.Prelude.{◌≤ℤ◌, pos, neg_ℤ};

use crate::made_columns::prices;
use dual_bound::{Kept, bound, class_price};
use plan_core::{Memory, Price};
use std::alloc::Global;
use std::test::Fail;

/// A class pays minus its least value, and nothing where no value is below 0.
#[test]
fn class_prices(rt: HostRuntime) {
    assert_eq!(rt; class_price(-300), 300);
    assert_eq!(rt; class_price(0), 0);
    assert_eq!(rt; class_price(5), 0);
    assert_eq!(rt; class_price(-1000000000000000000), 1000000000000000000);
}

/// The bound of prices 1,500, 700 and -200 at two class prices, of a class of two places and one of 10,000.
fn bound_at(alloc: Global, first: i64, second: i64) -> Result<u64, Memory>
    requires first { pos 0 ≤ℤ first }
    requires second { pos 0 ≤ℤ second }
{
    let prices = prices(alloc, [Price(1500), Price(700), Price(-200)].as_slice())?;
    let rents = [first, second];
    Ok(bound(&prices, rents.as_slice(), [2, 10000].as_slice()))
}

/// The bound of large prices at a class price, of a class of two places, and none of the other class.
fn large_bound(alloc: Global, first: i64) -> Result<u64, Memory>
    requires { pos 0 ≤ℤ first }
{
    let prices = prices(alloc, [Price(3000000000000000), Price(1)].as_slice())?;
    let rents = [first, 0];
    Ok(bound(&prices, rents.as_slice(), [2, 10000].as_slice()))
}

/// Prices 1,500, 700 and -200 are 2,000 in all; two places at 300 take 600 of it, and 1,400 is rounded up to 2.
#[test]
fn bounds(rt: HostRuntime) -> Result<(), Fail> {
    for (first, second, wanted) in [(300, 0, 2), (0, 0, 2), (0, 1, 0), (499, 0, 2), (500, 0, 1)] {
        assert_eq!(rt; bound_at(rt.alloc(), first, second)?, wanted);
    }
    assert_eq!(rt; large_bound(rt.alloc(), 9223372036854775807)?, 0);
    assert_eq!(rt; large_bound(rt.alloc(), 0)?, 3000000000001);
    Ok(())
}

/// The offer of prices 1,500 and 1,500 with a least value of 0, in a class of two places.
fn first_offer(alloc: Global) -> Result<Kept, Memory> {
    let low = prices(alloc, [Price(1500), Price(1500)].as_slice())?;
    Kept::first(alloc, &low, [0].as_slice(), [2].as_slice())
}

/// Whether an offer of prices 2,500 and 2,500 with a least value is taken.
fn is_taken(alloc: Global, kept: &mut Kept, least: i64) -> Result<bool, Memory>
    requires { neg_ℤ (pos 1000) ≤ℤ least }
{
    let high = prices(alloc, [Price(2500), Price(2500)].as_slice())?;
    kept.offer(&high, [least].as_slice(), [2].as_slice())
}

/// Whether the kept offer has a bound, two equal prices and a class price.
fn is_kept(kept: &Kept, bound: u64, price: i64, class_price: i64) -> bool {
    kept.bound == bound
        && kept.prices.items.as_slice() == [Price(price), Price(price)].as_slice()
        && kept.class_prices.as_slice() == [class_price].as_slice()
}

/// Whether the first offer of the greatest bound is kept, with its class prices: 5,000 less 2 times 1,000 is 3 again, so the first offer
/// stays beside it.
fn first_offer_is_kept(alloc: Global) -> Result<bool, Memory> {
    let mut kept = first_offer(alloc)?;
    let first = is_kept(&kept, 3, 1500, 0);
    let equal = is_taken(alloc, &mut kept, -1000)?;
    let stays = is_kept(&kept, 3, 1500, 0);
    let greater = is_taken(alloc, &mut kept, -999)?;
    Ok(first && !equal && stays && greater && is_kept(&kept, 4, 2500, 999))
}

#[test]
fn offers(rt: HostRuntime) -> Result<(), Fail> {
    assert!(rt; first_offer_is_kept(rt.alloc())?);
    Ok(())
}
