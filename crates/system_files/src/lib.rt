//! The files, streams and words of the operating system, as the traits of `plan_core` that the commands take: the edge of each program.
//!
//! No contract can say what a disk holds, so these adapters tell no content ([`DiskFiles`] has `held` None, [`Stream`] has `taken` None), and
//! count each error. What the commands promise of content they promise of files and sinks that tell it; that these here keep to the
//! same is read, tested, and trusted.
#![tactic(auto)]

mod files;
mod streams;
mod words;

pub use files::{DiskFiles, copy_front};
pub use streams::Stream;
pub use words::{longest_of, words_of};
