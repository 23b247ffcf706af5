//! Explains dumps: every fault of their registers, what gives a page its type, what differs between two dumps, and how many pairs
//! the types need.
#![tactic(auto)]

mod command;
mod input;
mod program;

use std::process::ExitCode;

fn main(rt: HostRuntime) -> ExitCode {
    program::run(&rt)
}
