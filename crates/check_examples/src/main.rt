// The same program, run on example files: a program's crate has one run, so another run needs a crate of its own.
#![tactic(auto)]

use commands::Failed;
use std::process::ExitCode;

// What there is to say of a failure is printed by `run`, so `main` answers its status alone.
fn main(rt: HostRuntime) -> ExitCode {
    match commands::run(&rt) {
        Ok(()) => ExitCode::SUCCESS,
        Err(Failed) => ExitCode::FAILURE,
    }
}
