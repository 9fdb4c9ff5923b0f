//! `replay`: reads a trace from standard input, and writes what it gives to standard output.
#![tactic(auto)]

mod exit;
mod options;

use exit::exit_status;
use options::{Options, Order};
use std::io;
use std::process::ExitCode;
use std::rt::Env;
use vk_console::{arguments, complain, refuse};
use vk_model::{First, Last, Scheduler, Seeded};
use vk_run::run;
use vk_trace::Watched;

/// Does what the command line asks, and answers the exit status.
fn perform<R: Env + Input + Print + Eprint + AllocGlobal>(rt: &R) -> u8 {
    let arguments = match arguments(rt) {
        Ok(arguments) => arguments,
        Err(status) => return status,
    };
    let options = match options::read(rt.alloc(), arguments.as_slice()) {
        Ok(options) => options,
        Err(error) => return refuse(rt, error),
    };
    match options.order {
        Order::First => replay(rt, &options, &mut First),
        Order::Last => replay(rt, &options, &mut Last),
        Order::Seed(seed) => replay(rt, &options, &mut Seeded::new(seed)),
    }
}

/// Replays the standard input, and answers the exit status.
fn replay<R: Env + Input + Print + Eprint + AllocGlobal, S: Scheduler>(
    rt: &R,
    options: &Options,
    sched: &mut S,
) -> u8 {
    let mut reader = Watched::new(rt.reader());
    let mut writer = Watched::new(io::writer(rt));
    let (config, caches) = (options.config, options.caches);
    match run(rt.alloc(), &mut reader, &mut writer, config, caches, sched) {
        Ok(status) => exit_status(status),
        Err(error) => complain(rt, error),
    }
}

fn main(rt: HostRuntime) -> ExitCode {
    ExitCode::from(perform(&rt))
}
