//! Tests of labels: what no contract says. Regions and covers of marks are tried on rows of calls that were worked by hand, searches and
//! dives beside an enumeration of all lists.
//!
//! A crate with tests is proved twice, so those of a floor stand above it, in a crate of their own.
#![tactic(auto)]

#[cfg(test)]
mod hauls;
#[cfg(test)]
mod label_dive_tests;
#[cfg(test)]
mod label_region_tests;
#[cfg(test)]
mod label_search_tests;
#[cfg(test)]
mod mark_cover_tests;
#[cfg(test)]
mod singles;
#[cfg(test)]
mod tie_search_tests;
#[cfg(test)]
mod ways;
