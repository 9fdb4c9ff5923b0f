//! `explain`: reads traces, from files or from standard input, and writes to standard output that each
//! is accepted, or why it is refused.
#![tactic(auto)]

mod exit;
mod inputs;
mod names;
mod options;
mod terminals;

use inputs::explain_all;
use names::calls_of_file;
use options::Options;
use std::io;
use std::process::ExitCode;
use std::rt::{Env, Files};
use terminals::Terminals;
use vk_console::{OptionsError, arguments, complain, refuse};
use vk_trace::{RunError, Watched, write_all};

/// Does what the command line asks, and answers the exit status.
fn perform<R: Env + Files + Input + Print + Eprint + AllocGlobal>(
    rt: &R,
    terminals: Terminals,
) -> u8 {
    let arguments = match arguments(rt) {
        Ok(arguments) => arguments,
        Err(status) => return status,
    };
    match options::read(rt.alloc(), arguments.as_slice()) {
        Ok(options) => explain(rt, &options, terminals),
        Err(error) => answer(rt, error),
    }
}

/// Explains traces, with the calls of their points where a file of them is named, and answers the exit
/// status.
fn explain<R: Env + Files + Input + Print + Eprint + AllocGlobal>(
    rt: &R,
    options: &Options<'_>,
    terminals: Terminals,
) -> u8 {
    let files = options.files.as_slice();
    match options.names {
        None => explain_all(rt, options.wanted, None, files, terminals),
        Some(name) => match calls_of_file(rt, name) {
            Ok(calls) => explain_all(rt, options.wanted, Some(&calls), files, terminals),
            Err(status) => status,
        },
    }
}

/// Writes the help or the version, or says why the command line asks for nothing, and answers the exit
/// status.
fn answer<R: Print + Eprint + AllocGlobal>(rt: &R, error: OptionsError) -> u8 {
    if let OptionsError::Refused(text) = &error {
        if !text.use_stderr() {
            return match text.to_string(rt.alloc()) {
                Ok(text) => show(rt, text.as_bytes()),
                Err(_) => complain(rt, RunError::NoMemory),
            };
        }
    }
    refuse(rt, error)
}

/// Writes a text to standard output, and answers the exit status.
fn show<R: Print + Eprint>(rt: &R, text: &[u8]) -> u8 {
    let mut writer = Watched::new(io::writer(rt));
    match write_all(&mut writer, text) {
        Ok(()) => 0,
        Err(error) => complain(rt, error),
    }
}

fn main(rt: HostRuntime) -> ExitCode {
    let terminals = Terminals::of(&rt);
    ExitCode::from(perform(&rt, terminals))
}
