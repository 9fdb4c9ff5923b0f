use std::alloc::{AllocError, AllocFailed};
use thiserror::Error;

/// Why an entry was not applied.
#[derive(Clone, Copy, Debug, Drop, PartialEq, Eq, Error)]
pub enum ApplyError {
    /// The program's own memory could not grow. The device answers `Failed` from now on.
    #[error("no memory")]
    NoMemory,
    /// An earlier entry met `NoMemory`.
    #[error("the device has failed before")]
    Failed,
}

impl From<AllocError> for ApplyError {
    ghost use Rattle.vk_device.specs.declared.applied.ApplyError.TheVariants.{NoMemory};
    ghost use Rattle.std.specs.Prelude.{◌≡◌};

    ghost from_gives = { λ _ e. e ≡ NoMemory };

    fn from(_refused: AllocError) -> ApplyError {
        ApplyError::NoMemory
    }
}

impl<T: Drop> From<AllocFailed<T>> for ApplyError {
    ghost use Rattle.vk_device.specs.declared.applied.ApplyError.TheVariants.{NoMemory};
    ghost use Rattle.std.specs.Prelude.{◌≡◌};

    ghost from_gives = { λ _ e. e ≡ NoMemory };

    fn from(_refused: AllocFailed<T>) -> ApplyError {
        ApplyError::NoMemory
    }
}
