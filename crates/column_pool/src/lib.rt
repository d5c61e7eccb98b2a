//! A pool of distinct columns in order of arrival. A column is found by its class and list through a table of buckets, so that no call
//! goes through all columns to see whether one is there.
#![tactic(auto)]

mod buckets;
mod key;
mod order;
mod pool;

pub use pool::Pool;
