//! Rows of calls that were worked by hand.

use label_region::Region;
use plan_core::Memory;
use std::alloc::Global;
use std::test::Fail;

/// A label of several fields.
#[derive(Clone, Copy, PartialEq)]
struct Mark {
    cost: i64,
    from: u32,
    last: bool,
}

/// Whether the number given back last is given again, and the other label stays.
fn back_is_given_again(alloc: Global) -> Result<bool, Memory> {
    let mut region = Region::new(alloc);
    region.reserve(2)?;
    let first = region.put('a');
    let second = region.put('b');
    region.give_back(first);
    let third = region.put('c');
    Ok(
        (first, second, third) == (0, 1, 0)
            && *region.get(second) == 'b'
            && *region.get(third) == 'c',
    )
}

/// Whether labels get numbers of their own after all were taken out, one of which had come back.
fn numbers_differ_after_clear(alloc: Global) -> Result<bool, Memory> {
    let mut region = Region::new(alloc);
    region.reserve(2)?;
    let old = region.put('a');
    let _kept = region.put('b');
    region.give_back(old);
    region.clear();
    region.reserve(3)?;
    let first = region.put('x');
    let second = region.put('y');
    let third = region.put('z');
    Ok(
        first != second
            && first != third
            && second != third
            && *region.get(first) == 'x'
            && *region.get(second) == 'y'
            && *region.get(third) == 'z',
    )
}

#[test]
fn numbers_are_used_again(rt: HostRuntime) -> Result<(), Fail> {
    assert!(rt; back_is_given_again(rt.alloc())?);
    assert!(rt; numbers_differ_after_clear(rt.alloc())?);
    Ok(())
}

/// Whether labels of several fields keep their numbers while their memory grows.
fn labels_stay(alloc: Global) -> Result<bool, Memory> {
    let low = Mark {
        cost: -5,
        from: 100,
        last: true,
    };
    let high = Mark {
        cost: 9000000000000,
        from: 0,
        last: false,
    };
    let mut region = Region::new(alloc);
    region.reserve(1)?;
    let first = region.put(low);
    region.reserve(1)?;
    let second = region.put(high);
    region.reserve(500)?;
    let third = region.put(low);
    Ok(*region.get(first) == low && *region.get(second) == high && *region.get(third) == low)
}

#[test]
fn labels_move_with_their_memory(rt: HostRuntime) -> Result<(), Fail> {
    assert!(rt; labels_stay(rt.alloc())?);
    Ok(())
}

/// Whether labels that take no bytes have numbers too.
fn no_bytes_are_numbered(alloc: Global) -> Result<bool, Memory> {
    let mut region = Region::new(alloc);
    region.reserve(2)?;
    let first = region.put(());
    let second = region.put(());
    region.give_back(first);
    Ok((first, second) == (0, 1) && *region.get(second) == ())
}

#[test]
fn labels_of_no_bytes(rt: HostRuntime) -> Result<(), Fail> {
    assert!(rt; no_bytes_are_numbered(rt.alloc())?);
    Ok(())
}

/// Whether a region is as before after a growth that was refused, whichever allocation fails.
fn stays_after_refusal(alloc: Global) -> bool {
    let mut region = Region::new(alloc);
    if region.reserve(2).is_err() {
        return true;
    }
    let first = region.put(11u64);
    let refused = region.reserve(2147483647).is_err();
    let _growth = region.reserve(1000);
    let second = region.put(12u64);
    refused && second == 1 && *region.get(first) == 11 && *region.get(second) == 12
}

#[test]
fn refused_growth(rt: HostRuntime) {
    assert!(rt; stays_after_refusal(rt.alloc()));
}

/// Takes what may cross threads.
fn crosses<T: Send + Sync>(_value: &T) {}

/// A region may cross threads where its labels may.
#[test]
fn regions_cross_threads(rt: HostRuntime) {
    let region: Region<u64> = Region::new(rt.alloc());
    crosses(&region);
}
