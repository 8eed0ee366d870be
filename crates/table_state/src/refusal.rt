//! Why an operation wasn't applied.

use std::alloc::AllocError;
use table_defs::row_types::{Key, Row, Rule};
use table_defs::tier_base::TableId;

/// Why an operation wasn't applied.
#[derive(Drop)]
pub enum ApplyError {
    /// A rule is broken.
    Rule(Rule),
    /// The old row of an update or delete isn't there as it should be: the table, its key, and the row at the key.
    Differs(TableId, Key, Option<Row>),
    /// Memory was wanting.
    Memory,
}

impl From<AllocError> for ApplyError {
    ghost use Rattle.std.specs.Prelude.{◌≡◌};
    ghost use Rattle.table_state.specs.declared.refusal.ApplyError.TheVariants.{Memory};

    ghost from_gives = { λ _ e. e ≡ Memory };

    fn from(_error: AllocError) -> ApplyError {
        ApplyError::Memory
    }
}
