use std::rt::Files;
use vk_calls::{Calls, CallsError, CallsMistake, CallsPlace, read_calls};
use vk_console::{bytes_of_file, error_status};
use vk_explain::{InputPlace, line_and_column};
use vk_trace::RunError;

/// The exit status where the file of `--names` isn't such a file.
const NO_NAMES: u8 = 7;

/// The calls of a file, or the exit status where it can't be read or has none, which is said on standard
/// error.
pub fn calls_of_file<R: Files + Eprint + AllocGlobal>(rt: &R, name: &str) -> Result<Calls, u8> {
    let bytes = bytes_of_file(rt, name)?;
    match read_calls(rt.alloc(), &bytes) {
        Ok(calls) => Ok(calls),
        Err(CallsError::NoMemory) => {
            let error = RunError::NoMemory;
            let _unprinted = eprintln!(rt; "{name}: {error}").is_err();
            Err(error_status(error))
        }
        Err(CallsError::Mistake(mistake)) => {
            tell(rt, name, &bytes, &mistake);
            Err(NO_NAMES)
        }
    }
}

/// Says what keeps a file from having calls.
fn tell(rt: &impl Eprint, name: &str, bytes: &[u8], mistake: &CallsMistake) {
    const KIND: &str = "isn't a file of from_capture.py --names";
    let expected = mistake.expected;
    let found = mistake.found;
    let _unprinted = match &mistake.place {
        CallsPlace::Member(member) => {
            eprintln!(rt; "{name} {KIND}: member {member}: expected {expected}; found {found}")
        }
        CallsPlace::Byte(byte) => {
            let InputPlace { line, column } = line_and_column(bytes, *byte);
            eprintln!(rt;
                "{name} {KIND}: line {line}, column {column}: expected {expected}; found {found}"
            )
        }
        CallsPlace::Line { line, column } => {
            eprintln!(rt;
                "{name} {KIND}: line {line}, column {column}: expected {expected}; found {found}"
            )
        }
    }
    .is_err();
}
