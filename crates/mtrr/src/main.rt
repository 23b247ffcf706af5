//! Reads dumps of memory type range registers, answers about memory types, and replays scripts.
#![tactic(auto)]

use mt_cli::program_status;
use mt_ports::{OpenGate, StdSink, StdSource};
use std::env;
use std::process::ExitCode;

fn main(rt: HostRuntime) -> ExitCode {
    let mut source = StdSource::new(rt.stdin());
    let mut sink = StdSink::new(rt.stdout());
    program_status(&rt, env::args(&rt), &mut source, &mut sink, &OpenGate)
}
