//! Answers about dumps of memory type range registers: the commands of `mtrr` that start no thread.
#![tactic(auto)]

use mt_answers::serial_status;
use mt_ports::{StdSink, StdSource};
use std::env;
use std::process::ExitCode;

fn main(rt: HostRuntime) -> ExitCode {
    let mut source = StdSource::new(rt.stdin());
    let mut sink = StdSink::new(rt.stdout());
    serial_status(rt.alloc(), env::args(&rt), &mut source, &mut sink)
}
