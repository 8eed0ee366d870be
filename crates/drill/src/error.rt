//! Why nothing is run.

use std::alloc::{AllocError, AllocFailed};
use std::io;
use thiserror::Error;

/// Why nothing is run.
#[derive(Clone, Copy, Debug, Error)]
pub enum DrillError {
    /// The line with this number, from 1, plans nothing that there is, or what it plans can't be.
    #[error("line {0} isn't understood")]
    Line(usize),
    /// Memory is wanting.
    #[error("memory is wanting")]
    Memory(#[from] AllocError),
    /// The script can't be read, or what is told can't be written.
    #[error("{0}")]
    Stream(#[from] io::Error),
}

impl<T: Drop> From<AllocFailed<T>> for DrillError {
    fn from(_error: AllocFailed<T>) -> DrillError {
        DrillError::Memory(AllocError)
    }
}
