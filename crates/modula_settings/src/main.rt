// The program: the words of the command line, real files, and standard output.
#![tactic(auto)]

use mc_edge::program;
use std::process::ExitCode;

fn main(rt: HostRuntime) -> ExitCode {
    ExitCode::from(program(&rt))
}
