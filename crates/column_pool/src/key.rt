//! A column by what decides on its order.

/// The value of a column and its place in the pool.
#[derive(Clone, Copy)]
pub struct Key {
    pub value: i64,
    pub place: u32,
}
