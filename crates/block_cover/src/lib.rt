//! Certificates of blocks: marks of open blocks by which it is shown that prices are paid over all blocks of a day.
//!
//! A mark of an open block has its pool, its last trip, the driving since the last cut, and its value so far. Marks are a cover where
//! each open block of one trip has a mark at least as good as its own, each open extension of a mark has one, and no mark whose block
//! can be driven in closes with a value below minus the price of its pool. Whoever made the marks, a cover with class prices of at least
//! 0 shows that no block has a value below minus its class price; so a bound is checked with no search.
#![tactic(auto)]

mod cover;
mod laws;
mod lists;
mod made;
mod marks;
mod moves;

pub use cover::{first_block_gap, make_block_cover};
pub use laws::block_cover_is_paid;
pub use made::OpenMark;
pub use marks::BlockMarks;
