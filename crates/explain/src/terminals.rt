use std::env::{VarError, var};
use std::io::IsTerminal;
use std::rt::Env;

/// Which streams are terminals.
#[derive(Clone, Copy)]
pub struct Terminals {
    /// Whether standard input is one.
    pub input: bool,
    /// Whether standard output is one.
    pub output: bool,
}

impl Terminals {
    /// As the system says.
    pub fn of(rt: &HostRuntime) -> Terminals {
        Terminals {
            input: rt.stdin().is_terminal(),
            output: rt.stdout().is_terminal(),
        }
    }
}

/// Whether the environment leaves colours to terminals: `NO_COLOR` is missing or empty, and `TERM` isn't
/// `dumb`.
pub fn allows_colours<R: Env + AllocGlobal>(rt: &R) -> bool {
    let no_colour = match var(rt, "NO_COLOR") {
        Ok(value) => !value.is_empty(),
        Err(VarError::NotPresent) => false,
        Err(_) => true,
    };
    let is_dumb = match var(rt, "TERM") {
        Ok(terminal) => terminal.as_str() == "dumb",
        Err(_) => false,
    };
    !no_colour && !is_dumb
}
