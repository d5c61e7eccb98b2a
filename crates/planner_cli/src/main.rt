//! The planner as a program: `run_program` with the streams of the operating system.
#![tactic(auto)]

use planner_run::run_program;
use std::process::ExitCode;
use system_files::Stream;

fn main(rt: HostRuntime) -> ExitCode {
    let mut out = Stream::new(rt.stdout());
    let mut err = Stream::new(rt.stderr());
    run_program(&rt, rt.alloc(), &rt, &mut out, &mut err)
}
