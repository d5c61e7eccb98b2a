//! Columns as numbers.

use cover_core::Column;
use plan_core::Memory;

/// Columns as numbers: of each one its worth, its items and 99.
pub(crate) fn spell(out: &mut Vec<u64>, columns: &[Column]) -> Result<(), Memory> {
    for column in columns {
        out.push(column.worth)?;
        for item in column.items.as_slice() {
            out.push(*item as u64)?;
        }
        out.push(99)?;
    }
    Ok(())
}
