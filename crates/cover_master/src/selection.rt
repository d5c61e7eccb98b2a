//! The columns that a price step need look at: of each class those up to the value of the last one that may be chosen. So no more than
//! these are brought into order.

ghost use Rattle.std.specs.Prelude.{◌≡◌, ◌≤◌, length, filter, IfOk};
ghost use Rattle.cover_core.specs.Plans.{number_at};
ghost use Rattle.cover_master.specs.Candidates.{is_candidate, IsLimit, AreLimits, class_values};

use cover_core::ColumnKey;
use plan_core::Memory;
use std::alloc::Global;

/// The values of the columns of a class.
fn values_of(alloc: Global, keys: &[ColumnKey], class: u32) -> Result<Vec<i64>, Memory>
    ensures { IfOk result (λ values. values.items ≡ class_values class keys.now) }
{
    let mut values = Vec::new(alloc);
    for key in keys {
        if key.class == class {
            match values.push(key.value) {
                Ok(()) => {}
                Err(_) => return Err(Memory),
            }
        }
    }
    Ok(values)
}

/// A value up to which at least cap columns of a class are, or -1 where the class has no more than that.
fn limit(alloc: Global, keys: &[ColumnKey], class: u32, cap: u32) -> Result<i64, Memory>
    ensures { IfOk result (λ limit. IsLimit keys.now class cap limit) }
{
    if cap == 0 {
        return Ok(0);
    }
    let mut values = values_of(alloc, keys, class)?;
    let values = values.as_mut_slice();
    if values.len() <= cap as usize {
        return Ok(-1);
    }
    let (_, value, _) = values.select_nth_unstable(cap as usize - 1);
    Ok(*value)
}

/// The limits of all classes.
pub fn limits(alloc: Global, keys: &[ColumnKey], caps: &[u32]) -> Result<Vec<i64>, Memory>
    requires { length caps.now ≤ 32 }
    ensures { IfOk result (λ limits. AreLimits keys.now caps.now limits.items) }
{
    let mut limits = Vec::new(alloc);
    for (class, cap) in caps.iter().enumerate() {
        let limit = limit(alloc, keys, class as u32, *cap)?;
        match limits.push(limit) {
            Ok(()) => {}
            Err(_) => return Err(Memory),
        }
    }
    Ok(limits)
}

/// The limit of a class.
fn limit_of(limits: &[i64], class: u32) -> i64
    ensures { result ≡ number_at limits.now class }
{
    if (class as usize) < limits.len() {
        limits[class as usize]
    } else {
        0
    }
}

/// The columns up to the limits.
pub fn candidates(
    alloc: Global,
    keys: &[ColumnKey],
    limits: &[i64],
) -> Result<Vec<ColumnKey>, Memory>
    ensures { IfOk result (λ candidates. candidates.items ≡ filter (is_candidate limits.now) keys.now) }
{
    let mut candidates = Vec::new(alloc);
    for key in keys {
        if key.value <= limit_of(limits, key.class) {
            match candidates.push(*key) {
                Ok(()) => {}
                Err(_) => return Err(Memory),
            }
        }
    }
    Ok(candidates)
}
