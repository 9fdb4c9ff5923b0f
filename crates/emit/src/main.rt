//! `emit`: reads a trace from standard input, and writes it to standard output as a program in C.
#![tactic(auto)]

mod exit;
mod options;

use exit::exit_status;
use options::Options;
use std::alloc::AllocError;
use std::io;
use std::process::ExitCode;
use std::rt::{Env, Files};
use vk_console::{arguments, bytes_of_file, complain, refuse};
use vk_emit::{Emitted, Wanted, run};
use vk_trace::{RunError, Watched};
use vk_words::push_at;

/// Does what the command line asks, and answers the exit status.
fn perform<R: Env + Files + Input + Print + Eprint + AllocGlobal>(rt: &R) -> u8 {
    let arguments = match arguments(rt) {
        Ok(arguments) => arguments,
        Err(status) => return status,
    };
    let options = match options::read(rt.alloc(), arguments.as_slice()) {
        Ok(options) => options,
        Err(error) => return refuse(rt, error),
    };
    match options.header {
        None => emit(rt, &options, None),
        Some(name) => match bytes_of_file(rt, name) {
            Ok(header) => emit(rt, &options, Some(header.as_slice())),
            Err(status) => status,
        },
    }
}

/// Writes the trace of standard input, and answers the exit status.
fn emit<R: Env + Input + Print + Eprint + AllocGlobal>(
    rt: &R,
    options: &Options<'_>,
    header: Option<&[u8]>,
) -> u8 {
    let wanted = Wanted {
        refused: options.refused,
        header,
    };
    let mut reader = Watched::new(rt.reader());
    let mut writer = Watched::new(io::writer(rt));
    match run(rt.alloc(), &mut reader, &mut writer, options.config, wanted) {
        Ok(emitted) => match tell(rt, emitted) {
            Ok(()) => exit_status(emitted),
            Err(AllocError) => complain(rt, RunError::NoMemory),
        },
        Err(error) => complain(rt, error),
    }
}

/// Says on standard error which rule the trace breaks, or which entry finds no room. That it can't be
/// printed changes no status.
fn tell<R: Eprint + AllocGlobal>(rt: &R, emitted: Emitted) -> Result<(), AllocError> {
    match emitted {
        Emitted::Whole => {}
        Emitted::Stopped(entry) => {
            let _unprinted = eprintln!(rt; "stopped {entry} NO_ROOM").is_err();
        }
        Emitted::Refused(at, rule) => {
            let mut point = String::new(rt.alloc());
            push_at(&mut point, at)?;
            let name = rule.name();
            let _unprinted = eprintln!(rt; "refused {point} {name}").is_err();
        }
    }
    Ok(())
}

fn main(rt: HostRuntime) -> ExitCode {
    ExitCode::from(perform(&rt))
}
