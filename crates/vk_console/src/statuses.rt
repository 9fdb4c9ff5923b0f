ghost use Rattle.std.specs.Prelude.{◌≡◌};
ghost use Rattle.vk_console.specs.ErrorStatus.{error_status_of};

use vk_trace::RunError;

/// The exit status where the arguments of the command line can't be had, or aren't understood.
pub const COMMAND_LINE_REFUSED: u8 = 6;

/// A program's exit status after an error.
pub fn error_status(error: RunError) -> u8
    ensures { result ≡ error_status_of error }
{
    match error {
        RunError::NotTrace => 2,
        RunError::NoMemory => 4,
        RunError::TooLong | RunError::ReadFault | RunError::WriteFault(_) => 5,
    }
}
