//! The program once more, for a stored run on words that are no command.
#![tactic(auto)]

use std::process::ExitCode;
use tl_run::run_process;

fn main(rt: HostRuntime) -> ExitCode {
    run_process(rt)
}
