//! Tests of words and files: what no contract says, as words with what they ask for, and files in memory and of the operating system, which
//! are read and written.
//!
//! A crate with tests is proved twice, with them and without, so those of this floor stand in a crate of their own above it.
#![tactic(auto)]

#[cfg(test)]
mod command_words_tests;
#[cfg(test)]
mod input_files_tests;
#[cfg(test)]
mod system_files_tests;
