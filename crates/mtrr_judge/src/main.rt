//! Judges a procedure that changes memory type registers.
#![tactic(auto)]

use mt_judge::program_status;
use mt_ports::{StdSink, StdSource};
use mt_shell::Input;
use std::env;
use std::process::ExitCode;

fn main(rt: HostRuntime) -> ExitCode {
    let mut source = StdSource::new(Input::standard(rt.stdin()));
    let mut sink = StdSink::new(rt.stdout());
    let mut errors = StdSink::new(rt.stderr());
    program_status(&rt, env::args(&rt), &mut source, &mut sink, &mut errors)
}
