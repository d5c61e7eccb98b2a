//! A place where tables differ.

/// A place where given tables are not the ones that they should be.
#[derive(Clone, Copy, Debug, PartialEq, Eq)]
pub struct Difference {
    /// The table's place, from 0, among those that should be there.
    pub table: usize,
    /// The row, from 1, or 0 for the table as a whole: it is missing, stands twice, or has other columns. Where one table has more rows
    /// than the other, the first of these counts.
    pub row: usize,
}
