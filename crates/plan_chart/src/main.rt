//! A picture of a plan as a program: the page of a file that is handed in, and the real files and streams at its edge.
#![tactic(auto)]

mod lines;
mod run;
mod status;
#[cfg(test)]
mod tests;
mod words;

use std::process::ExitCode;
use system_files::{DiskFiles, Stream, longest_of, words_of};

/// The status number where there is no memory for the words, or for the room in which the file is read.
const NO_MEMORY: u8 = 9;

fn main(rt: HostRuntime) -> ExitCode {
    let alloc = rt.alloc();
    let words = match words_of(&rt, alloc) {
        Ok(words) => words,
        Err(_) => return ExitCode::from(NO_MEMORY),
    };
    let mut files = match DiskFiles::new(&rt, alloc, longest_of(words.as_slice())) {
        Ok(files) => files,
        Err(_) => return ExitCode::from(NO_MEMORY),
    };
    let mut out = Stream::new(rt.stdout());
    let mut err = Stream::new(rt.stderr());
    let status = run::run(alloc, words.as_slice(), &mut files, &mut out, &mut err);
    ExitCode::from(status.code())
}
