//! Why the drill ends early.

use commit_journal::{OpenError, ReserveError, RotateError};
use outside::DiskFault;
use std::alloc::{AllocError, AllocFailed};
use std::io;
use thiserror::Error;

/// Why the drill ends early.
#[derive(Debug, Error)]
pub enum DrillError {
    /// A call of the disk failed.
    #[error("a call of the disk failed")]
    Disk,
    /// A call was refused that shouldn't be.
    #[error("a call was refused")]
    Refused,
    /// Memory is wanting.
    #[error("memory is wanting")]
    Memory,
    /// What is told can't be written.
    #[error("{0}")]
    Stream(#[from] io::Error),
}

// By hand, so that what lets an error go has one call, and not all its forms.
impl Drop for DrillError {
    fn drop(self) {
        match self {
            Self::Disk => {}
            Self::Refused => {}
            Self::Memory => {}
            Self::Stream(_) => {}
        }
    }
}

impl From<AllocError> for DrillError {
    fn from(_error: AllocError) -> DrillError {
        DrillError::Memory
    }
}

impl<T: Drop> From<AllocFailed<T>> for DrillError {
    fn from(_error: AllocFailed<T>) -> DrillError {
        DrillError::Memory
    }
}

impl From<DiskFault> for DrillError {
    fn from(_error: DiskFault) -> DrillError {
        DrillError::Disk
    }
}

impl From<OpenError> for DrillError {
    fn from(error: OpenError) -> DrillError {
        match error {
            OpenError::Disk => DrillError::Disk,
            OpenError::Memory => DrillError::Memory,
        }
    }
}

impl From<ReserveError> for DrillError {
    fn from(error: ReserveError) -> DrillError {
        match error {
            ReserveError::Limit => DrillError::Refused,
            ReserveError::Memory => DrillError::Memory,
        }
    }
}

impl From<RotateError> for DrillError {
    fn from(error: RotateError) -> DrillError {
        match error {
            RotateError::Disk => DrillError::Disk,
            RotateError::Limit => DrillError::Refused,
            RotateError::Memory => DrillError::Memory,
        }
    }
}
