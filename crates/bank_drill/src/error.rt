//! Why the drill ends early.

use backing_sqlite::OpenError;
use outside::{BankError, DiskFault};
use std::alloc::{AllocError, AllocFailed};
use std::io;
use thiserror::Error;

/// Why the drill ends early.
#[derive(Clone, Copy, Debug, Error)]
pub enum DrillError {
    /// The line with this number, from 1, asks for nothing that there is.
    #[error("line {0} isn't understood")]
    Line(usize),
    /// Memory is wanting.
    #[error("memory is wanting")]
    Memory,
    /// A call failed where an answer is needed to go on.
    #[error("a call failed")]
    Failed,
    /// The database can't be opened.
    #[error("{0}")]
    Open(OpenError),
    /// The script can't be read, what is told can't be written, or the slots can't be opened.
    #[error("{0}")]
    Stream(#[from] io::Error),
}

impl From<AllocError> for DrillError {
    fn from(_error: AllocError) -> DrillError {
        DrillError::Memory
    }
}

impl<T: Drop> From<AllocFailed<T>> for DrillError {
    fn from(_error: AllocFailed<T>) -> DrillError {
        DrillError::Memory
    }
}

impl From<OpenError> for DrillError {
    fn from(error: OpenError) -> DrillError {
        DrillError::Open(error)
    }
}

impl From<DiskFault> for DrillError {
    fn from(_error: DiskFault) -> DrillError {
        DrillError::Failed
    }
}

impl From<BankError> for DrillError {
    fn from(error: BankError) -> DrillError {
        match error {
            BankError::Failed => DrillError::Failed,
            BankError::Memory => DrillError::Memory,
        }
    }
}
