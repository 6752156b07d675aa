//! Domino tilings of square-lattice regions and lozenge tilings of triangular-lattice regions.
#![tactic(auto)]

use std::process::ExitCode;
use tl_run::run_process;

fn main(rt: HostRuntime) -> ExitCode {
    run_process(rt)
}
