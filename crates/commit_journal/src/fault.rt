//! Why calls of the journal gave no answer.

ghost use Rattle.std.specs.Prelude.{◌≡◌};
ghost use Rattle.commit_journal.specs.declared.fault.OpenError.TheVariants.{Disk, Memory};
ghost use Rattle.commit_journal.specs.declared.fault.RotateError.TheVariants as rotate_error;
ghost use Rattle.commit_journal.specs.Causes.{without_room};

use outside::DiskFault;
use std::alloc::{AllocError, AllocFailed};

/// Why a journal couldn't be opened.
#[derive(Clone, Copy, Debug, PartialEq, Eq)]
pub enum OpenError {
    /// A disk call failed.
    Disk,
    /// Memory was wanting.
    Memory,
}

impl From<DiskFault> for OpenError {
    ghost from_gives = { λ _ e. e ≡ Disk };

    fn from(_error: DiskFault) -> OpenError {
        OpenError::Disk
    }
}

impl From<AllocError> for OpenError {
    ghost from_gives = { λ _ e. e ≡ Memory };

    fn from(_error: AllocError) -> OpenError {
        OpenError::Memory
    }
}

impl<T: Drop> From<AllocFailed<T>> for OpenError {
    ghost from_gives = { λ _ e. e ≡ Memory };

    fn from(_error: AllocFailed<T>) -> OpenError {
        OpenError::Memory
    }
}

/// Why the journal didn't take a batch, or didn't move on to the other slot.
#[derive(Clone, Copy, Debug, PartialEq, Eq)]
pub enum RotateError {
    /// A disk call failed.
    Disk,
    /// The batch or the slot would be too long, or no generation is left.
    Limit,
    /// Memory was wanting.
    Memory,
}

impl From<DiskFault> for RotateError {
    ghost from_gives = { λ _ e. e ≡ rotate_error.Disk };

    fn from(_error: DiskFault) -> RotateError {
        RotateError::Disk
    }
}

impl From<AllocError> for RotateError {
    ghost from_gives = { λ _ e. e ≡ rotate_error.Memory };

    fn from(_error: AllocError) -> RotateError {
        RotateError::Memory
    }
}

/// Why there is no room for an entry.
#[derive(Clone, Copy, Debug, PartialEq, Eq)]
pub enum ReserveError {
    /// The batch or the slot would be too long.
    Limit,
    /// Memory was wanting.
    Memory,
}

impl From<ReserveError> for RotateError {
    ghost from_gives = { λ error e. e ≡ without_room error };

    fn from(error: ReserveError) -> RotateError {
        match error {
            ReserveError::Limit => RotateError::Limit,
            ReserveError::Memory => RotateError::Memory,
        }
    }
}
