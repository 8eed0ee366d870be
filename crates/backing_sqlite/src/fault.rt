//! Refusals of the store.

use sqlite::{Error, ErrorCode};
use std::alloc::{AllocError, AllocFailed};

/// Why a call of the store gave no answer.
#[derive(Clone, Copy)]
pub(crate) enum StoreFault {
    /// It failed, or what stands in it can't be read.
    Failed,
    /// Memory was wanting.
    Memory,
}

impl From<AllocError> for StoreFault {
    fn from(_error: AllocError) -> StoreFault {
        StoreFault::Memory
    }
}

impl<T: Drop> From<AllocFailed<T>> for StoreFault {
    fn from(_error: AllocFailed<T>) -> StoreFault {
        StoreFault::Memory
    }
}

impl From<Error> for StoreFault {
    fn from(error: Error) -> StoreFault {
        if is_memory(error) {
            StoreFault::Memory
        } else {
            StoreFault::Failed
        }
    }
}

// Whether memory was wanting. A comparison is one call, and a pattern has each form of an error written out.
fn is_memory(error: Error) -> bool {
    error == Error::SqliteFailure(ErrorCode::OutOfMemory)
}

/// Why a file wasn't opened.
#[derive(Clone, Copy, Debug, thiserror::Error)]
pub enum OpenError {
    /// The store refused it.
    #[error("{0}")]
    Store(Error),
    /// What this crate keeps in it can't be read or made.
    #[error("the definitions in the database can't be read")]
    Catalog,
    /// Memory was wanting.
    #[error("memory is wanting")]
    Memory,
}

impl From<Error> for OpenError {
    fn from(error: Error) -> OpenError {
        if is_memory(error) {
            OpenError::Memory
        } else {
            OpenError::Store(error)
        }
    }
}

impl From<StoreFault> for OpenError {
    fn from(fault: StoreFault) -> OpenError {
        match fault {
            StoreFault::Failed => OpenError::Catalog,
            StoreFault::Memory => OpenError::Memory,
        }
    }
}
