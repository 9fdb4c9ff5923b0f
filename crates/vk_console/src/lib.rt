//! What the programs share: their version, the arguments of the command line, files that it
//! names, what is said on standard error, and the exit statuses of errors.
#![tactic(auto)]

mod command_line;
mod files;
mod statuses;
mod version;

pub use command_line::{OptionsError, arguments, complain, refuse};
pub use files::bytes_of_file;
pub use statuses::{COMMAND_LINE_REFUSED, error_status};
pub use version::VERSION;
