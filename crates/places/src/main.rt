//! `places`: reads a trace from standard input, and writes to standard output where its resources lie.
#![tactic(auto)]

mod exit;
mod options;

use exit::exit_status;
use options::Options;
use std::io;
use std::process::ExitCode;
use std::rt::Env;
use vk_console::{arguments, complain, refuse};
use vk_places::run;
use vk_trace::Watched;

/// Does what the command line asks, and answers the exit status.
fn perform<R: Env + Input + Print + Eprint + AllocGlobal>(rt: &R) -> u8 {
    let arguments = match arguments(rt) {
        Ok(arguments) => arguments,
        Err(status) => return status,
    };
    match options::read(rt.alloc(), arguments.as_slice()) {
        Ok(options) => list(rt, options),
        Err(error) => refuse(rt, error),
    }
}

/// Lists where the resources of the trace of standard input lie, and answers the exit status.
fn list<R: Env + Input + Print + Eprint + AllocGlobal>(rt: &R, options: Options) -> u8 {
    let mut reader = Watched::new(rt.reader());
    let mut writer = Watched::new(io::writer(rt));
    match run(
        rt.alloc(),
        &mut reader,
        &mut writer,
        options.config,
        options.after,
    ) {
        Ok(told) => exit_status(told),
        Err(error) => complain(rt, error),
    }
}

fn main(rt: HostRuntime) -> ExitCode {
    ExitCode::from(perform(&rt))
}
