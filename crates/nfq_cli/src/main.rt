//! `nfq`: the command line. The words after its name are a command of `commands`.
#![tactic(auto)]

use commands::program;
pub use commands::{live, live_pools, play};
use host_io::FileHost;
use std::env;
use std::process::ExitCode;

/// Does the command that the arguments are, over the machine's files, and ends with its status.
fn main(rt: HostRuntime) -> ExitCode {
    let arguments = env::args(&rt);
    let mut host = FileHost::new(&rt);
    ExitCode::from(program(&rt, rt.alloc(), arguments, &mut host))
}
