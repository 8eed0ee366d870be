//! What a tier is opened again with, and why it can't be.

ghost use Rattle.std.specs.Prelude.{◌≡◌};
ghost use Rattle.reopening.specs.Starting.{TellsFault, fault_of};

use group_catalog::Catalog;
use outside::BankError;
use propagators::RoundFault;
use row_types::Key;
use std::alloc::Global;
use std::collections::VecDeque;
use stored_tier::clock::Pace;
use table_defs::BackingSchema;
use table_state::Sealed;
use tier_base::{Moment, TableId};

/// What a tier is opened again with: what its journal's entries leave over the backing database, and the moment.
pub struct Start {
    /// The definitions of the backing tables.
    pub schema: BackingSchema,
    /// The groups, with their STATEs and flags.
    pub catalog: Catalog,
    /// The committed transactions whose receipt isn't known, in ticket order. Those of groups that were dropped since
    /// are among them.
    pub commits: VecDeque<Sealed>,
    /// The next ticket.
    pub next: u64,
    /// The moment of the opening.
    pub now: Moment,
    /// When work is done.
    pub pace: Pace,
}

impl Drop for Start {
    fn drop(self) {
        let Self {
            schema: _,
            catalog: _,
            commits: _,
            next: _,
            now: _,
            pace: _,
        } = self;
    }
}

impl Start {
    // The schema, the groups and the commits.
    pub(crate) fn into_parts(self) -> (BackingSchema, Catalog, VecDeque<Sealed>)
        ensures schema { result.0 ≡ self.schema }
        ensures catalog { result.1 ≡ self.catalog }
        ensures commits { result.2 ≡ self.commits }
    {
        let Self {
            schema,
            catalog,
            commits,
            next: _,
            now: _,
            pace: _,
        } = self;
        (schema, catalog, commits)
    }
}

/// Why a tier can't be opened again.
pub enum ReopenError {
    /// A call of the bank failed.
    Failed,
    /// A backing row differs from what a committed transaction tells of it: its table and its key.
    Differs(TableId, Key),
    /// Memory was wanting.
    Memory,
}

impl Drop for ReopenError {
    fn drop(self) {
        match self {
            Self::Failed => {}
            Self::Differs(_, _) => {}
            Self::Memory => {}
        }
    }
}

// Why a round ended early. Memory may be wanting for the key of the row that differs.
pub(crate) fn told_of(alloc: Global, fault: &RoundFault) -> ReopenError
    ensures { TellsFault fault.now result }
{
    match fault {
        RoundFault::Failed => ReopenError::Failed,
        RoundFault::Memory => ReopenError::Memory,
        RoundFault::Differs(table, key) => match key.copied(alloc) {
            Err(_) => ReopenError::Memory,
            Ok(key) => ReopenError::Differs(*table, key),
        },
    }
}

// The fault of a call of the bank.
pub(crate) fn error_of(error: BankError) -> ReopenError
    ensures { result ≡ fault_of error }
{
    match error {
        BankError::Failed => ReopenError::Failed,
        BankError::Memory => ReopenError::Memory,
    }
}
