use crate::statuses::error_status;
use std::fs::{File, OpenFile};
use std::rt::Files;
use vk_trace::{RunError, Watched, read_all};

/// The bytes of a file that the command line names.
///
/// # Errors
///
/// An exit status, after a line on standard error, where it can't be read.
pub fn bytes_of_file<R: Files + Eprint + AllocGlobal>(rt: &R, name: &str) -> Result<Vec<u8>, u8> {
    let file = match File::open(rt, name) {
        Ok(file) => file,
        Err(error) => {
            let _unprinted = eprintln!(rt; "{name}: {error}").is_err();
            return Err(error_status(RunError::ReadFault));
        }
    };
    let mut reader = Watched::new(file);
    match read_all(rt.alloc(), &mut reader) {
        Ok(bytes) => Ok(bytes),
        Err(error) => {
            let _unprinted = eprintln!(rt; "{name}: {error}").is_err();
            Err(error_status(error))
        }
    }
}
