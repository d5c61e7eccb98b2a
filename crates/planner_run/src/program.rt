//! The program: the words that it was started with, the files of the operating system, and the code with which it ends.

ghost use Rattle.std.specs.Prelude.{◌≡◌};
ghost use Rattle.std.specs.Process.{exit_status};
ghost use Rattle.planner_run.specs.Codes.{code_of};

use crate::running::run;
use crate::status::Status;
use plan_core::{NoGate, Sink};
use std::alloc::Global;
use std::env::Env;
use std::process::ExitCode;
use std::rt::Files as Disk;
use std::thread::Threads;
use system_files::{DiskFiles, longest_of, words_of};

/// The code with which the program ends.
pub(crate) fn exit_code(status: &Status) -> ExitCode
    ensures { exit_status result ≡ code_of status.now }
{
    ExitCode::from(status.code())
}

/// Carries out the words behind the program's name over the files of the operating system, and answers the code with which the program
/// ends. It is that of `Memory` also where there is no memory for the words, or for the room in which files are read; then nothing is
/// said.
pub fn run_program<R: Threads + Sync + Disk, V: Env, O: Sink, E: Sink>(
    rt: &R,
    alloc: Global,
    started: &V,
    out: &mut O,
    err: &mut E,
) -> ExitCode {
    let words = match words_of(started, alloc) {
        Ok(words) => words,
        Err(_) => return exit_code(&Status::Memory),
    };
    let mut files = match DiskFiles::new(rt, alloc, longest_of(words.as_slice())) {
        Ok(files) => files,
        Err(_) => return exit_code(&Status::Memory),
    };
    let status = run(rt, alloc, words.as_slice(), &mut files, out, err, &NoGate);
    exit_code(&status)
}
