//! Why the measures end early.

use std::alloc::{AllocError, AllocFailed};
use std::io;
use thiserror::Error;

/// Why the measures end early.
#[derive(Debug, Drop, Error)]
pub enum BenchError {
    /// The first word is no number of rows within the limits, or the second is none of the words.
    #[error("usage: store_bench ROWS [keys | slots | index | order | overlay], ROWS from 1000 to 10000000")]
    Word,
    /// Memory is wanting.
    #[error("memory is wanting")]
    Memory,
    /// A row doesn't fit its table, or a session's operation doesn't apply.
    #[error("a row or an operation of the measures is refused")]
    Refused,
    /// What is told can't be written, or the system has no clock.
    #[error("{0}")]
    System(#[from] io::Error),
}

impl From<AllocError> for BenchError {
    fn from(_error: AllocError) -> BenchError {
        BenchError::Memory
    }
}

impl<T: Drop> From<AllocFailed<T>> for BenchError {
    fn from(_error: AllocFailed<T>) -> BenchError {
        BenchError::Memory
    }
}
