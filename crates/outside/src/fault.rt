//! Faults of the outside.

/// A call of a source, a sink or the backing database failed.
#[derive(Clone, Copy, Debug, PartialEq, Eq)]
pub struct Failed;

/// A call of the journal's disk failed.
#[derive(Clone, Copy, Debug, PartialEq, Eq)]
pub struct DiskFault;

/// Why a call of the backing database gave no answer.
#[derive(Clone, Copy, Debug, PartialEq, Eq)]
pub enum BankError {
    /// It failed. Its own entry came or didn't come.
    Failed,
    /// Memory was wanting. Its own entry didn't come.
    Memory,
}
