use std::alloc::{AllocError, AllocFailed};
use thiserror::Error;

/// Why no entries were read.
#[derive(Clone, Copy, Debug, Drop, PartialEq, Eq, Error)]
pub enum ReadTraceError {
    /// The bytes are no trace.
    #[error("no trace")]
    NotTrace,
    /// An allocation failed.
    #[error("no memory")]
    NoMemory,
}

impl From<AllocError> for ReadTraceError {
    ghost use Rattle.vk_trace.specs.declared.errors.ReadTraceError.TheVariants.{NoMemory};
    ghost use Rattle.std.specs.Prelude.{◌≡◌};

    ghost from_gives = { λ _ e. e ≡ NoMemory };

    fn from(_refused: AllocError) -> ReadTraceError {
        ReadTraceError::NoMemory
    }
}

impl<T: Drop> From<AllocFailed<T>> for ReadTraceError {
    ghost use Rattle.vk_trace.specs.declared.errors.ReadTraceError.TheVariants.{NoMemory};
    ghost use Rattle.std.specs.Prelude.{◌≡◌};

    ghost from_gives = { λ _ e. e ≡ NoMemory };

    fn from(_refused: AllocFailed<T>) -> ReadTraceError {
        ReadTraceError::NoMemory
    }
}

/// Why a run gave no answer, or not all of it.
#[derive(Clone, Copy, Debug, Drop, PartialEq, Eq, Error)]
pub enum RunError {
    /// The bytes that were read are no trace.
    #[error("no trace")]
    NotTrace,
    /// An allocation failed.
    #[error("no memory")]
    NoMemory,
    /// The input has more than 16,777,216 bytes, or had no end after 1,048,576 reads.
    #[error("too long")]
    TooLong,
    /// The reader answered an error.
    #[error("read failed")]
    ReadFault,
    /// The writer answered an error or took no byte, after it had taken this many bytes.
    #[error("write failed after {0} bytes")]
    WriteFault(u64),
}

impl From<AllocError> for RunError {
    ghost use Rattle.vk_trace.specs.declared.errors.RunError.TheVariants.{NoMemory};
    ghost use Rattle.std.specs.Prelude.{◌≡◌};

    ghost from_gives = { λ _ e. e ≡ NoMemory };

    fn from(_refused: AllocError) -> RunError {
        RunError::NoMemory
    }
}

impl<T: Drop> From<AllocFailed<T>> for RunError {
    ghost use Rattle.vk_trace.specs.declared.errors.RunError.TheVariants.{NoMemory};
    ghost use Rattle.std.specs.Prelude.{◌≡◌};

    ghost from_gives = { λ _ e. e ≡ NoMemory };

    fn from(_refused: AllocFailed<T>) -> RunError {
        RunError::NoMemory
    }
}
