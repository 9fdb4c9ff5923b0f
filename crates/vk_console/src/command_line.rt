use crate::statuses::{COMMAND_LINE_REFUSED, error_status};
use clap::Error;
use clap::error::ErrorKind;
use std::alloc::AllocError;
use std::io;
use std::rt::Env;
use vk_trace::RunError;

/// Why the command line asks for nothing.
#[derive(Drop)]
pub enum OptionsError {
    /// An allocation failed.
    NoMemory,
    /// The arguments are refused, or ask for help; with the text to show.
    Refused(Error),
}

impl From<AllocError> for OptionsError {
    fn from(_refused: AllocError) -> OptionsError {
        OptionsError::NoMemory
    }
}

impl From<Error> for OptionsError {
    fn from(error: Error) -> OptionsError {
        if error.kind() == ErrorKind::OutOfMemory {
            OptionsError::NoMemory
        } else {
            OptionsError::Refused(error)
        }
    }
}

/// Prints a line to standard error, and answers the exit status. That it can't be printed changes no status.
pub fn complain(rt: &impl Eprint, error: RunError) -> u8 {
    let _unprinted = eprintln!(rt; "{error}").is_err();
    error_status(error)
}

/// Says why the command line asks for nothing, and answers the exit status.
pub fn refuse(rt: &impl Eprint, error: OptionsError) -> u8 {
    match error {
        OptionsError::NoMemory => complain(rt, RunError::NoMemory),
        OptionsError::Refused(text) => {
            let _unprinted = rt.eprint(&text).is_err();
            COMMAND_LINE_REFUSED
        }
    }
}

/// The arguments of the command line, of which the first is the program's own name; or the exit status
/// where they can't be had.
///
/// # Errors
///
/// An exit status, after a line on standard error, where one isn't UTF-8 or no memory is left.
pub fn arguments<R: Env + Eprint + AllocGlobal>(rt: &R) -> Result<Vec<String>, u8> {
    let arguments = match std::env::args(rt) {
        Ok(arguments) => arguments,
        Err(error) => return Err(without_arguments(rt, &error)),
    };
    match arguments.collect::<Vec<String>>(rt.alloc()) {
        Ok(arguments) => Ok(arguments),
        Err(_) => Err(complain(rt, RunError::NoMemory)),
    }
}

/// The exit status where the arguments can't be had: one isn't UTF-8, or there is no memory for them.
fn without_arguments<R: Eprint>(rt: &R, error: &io::Error) -> u8 {
    if error.kind() == io::ErrorKind::OutOfMemory {
        return complain(rt, RunError::NoMemory);
    }
    let _unprinted = eprintln!(rt; "an argument is not UTF-8").is_err();
    COMMAND_LINE_REFUSED
}
