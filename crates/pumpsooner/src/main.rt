// The program: `commands` does all the work.
#![tactic(auto)]

use commands::Failed;
use std::process::ExitCode;

// What there is to say of a failure is printed by `run`, so `main` answers its status alone.
fn main(rt: HostRuntime) -> ExitCode {
    match commands::run(&rt) {
        Ok(()) => ExitCode::SUCCESS,
        Err(Failed) => ExitCode::FAILURE,
    }
}
