//! The range of prices.

ghost use Rattle.std.specs.Prelude.{◌≡◌};
ghost use Rattle.cover_master.specs.Method.{clamped};

/// A price between its limits.
pub fn clamp(price: i64) -> i64
    ensures { result ≡ clamped price }
{
    if 10000000000000 < price {
        10000000000000
    } else if price < -10000000000000 {
        -10000000000000
    } else {
        price
    }
}
