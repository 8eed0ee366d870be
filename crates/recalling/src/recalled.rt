//! What a journal's entries leave, and why there may be nothing of it.

ghost use Rattle.std.specs.Prelude.{◌≡◌, ◌≤◌, ◌^◌, IfErr, IfOk};
ghost use Rattle.order_laws.specs.Commits.{RiseBetween};
ghost use Rattle.cache_tier.specs.Journals.{next_behind};
ghost use Rattle.cache_tier.specs.TierStates.{Settings};
ghost use Rattle.group_catalog.specs.Catalogs.{groups_in};
ghost use Rattle.tier_journal.specs.Opening.{meanings};
ghost use Rattle.recovery_laws.specs.Notes.{commits_in};
ghost use Rattle.recovery.specs.Recalling.{notes_of};
ghost use Rattle.recalling.specs.Recalled.{AreInOrder, IsRecalled, IsRefusedFor};
ghost use Rattle.recalling.specs.declared.recalled.RecallError.TheVariants.{Memory};

use crate::folding::Fold;
use group_catalog::Catalog;
use group_catalog::laws::read_back_law;
use std::alloc::{AllocError, Global};
use std::collections::VecDeque;
use table_defs::BackingSchema;
use table_state::Sealed;
use tier_base::{Limit, Moment};
use tier_journal::Record;

/// What the entries of a journal leave.
pub struct Recalled {
    /// the groups, with their STATEs and loaded flags
    pub catalog: Catalog,
    /// the next ticket
    pub next: u64,
    /// the asynchronous transactions that were committed, in their order
    pub commits: VecDeque<Sealed>,
}

// By hand, so that what lets it go has one call, and not all its fields.
impl Drop for Recalled {
    fn drop(self) {
        let Self {
            catalog: _,
            next: _,
            commits: _,
        } = self;
    }
}

impl Recalled {
    /// The groups, the next ticket, and the transactions.
    pub fn into_parts(self) -> (Catalog, u64, VecDeque<Sealed>)
        ensures { result ≡ (self.catalog, self.next, self.commits) }
    {
        let Self {
            catalog,
            next,
            commits,
        } = self;
        (catalog, next, commits)
    }
}

/// Why entries leave nothing.
#[derive(Clone, Copy, Debug, PartialEq, Eq)]
pub enum RecallError {
    /// The entry whose first byte has this place doesn't fit over what those before it leave.
    Unfit(u64),
    /// Memory was wanting.
    Memory,
}

impl From<AllocError> for RecallError {
    ghost from_gives = { λ _ e. e ≡ Memory };

    fn from(_error: AllocError) -> RecallError {
        RecallError::Memory
    }
}

/// What a journal's entries leave of a tier that is opened at this moment over this schema. They are given in their
/// order, each with the place of its first byte.
///
/// `Unfit` with the place of the first entry that doesn't fit over what those before it leave: a definition that breaks
/// a rule, or is of what isn't done yet; a drop or a flag of no group, a STATE of one that isn't READONLY; a commit
/// without operations, or with one that isn't on a table of an ASYNCHRONOUS WRITETHROUGH group, whose rows don't fit
/// the table, or that changes a primary key; the same of a prepared transaction and SYNCHRONOUS groups; a ticket that
/// isn't above those before it, or is past the last; a mark past one above it. `Memory` for want of memory. (TimesTen
/// Cache User's Guide, "Recovery"; which entries fit is this project's rule.)
pub fn recall(
    alloc: Global,
    schema: &BackingSchema,
    now: Moment,
    records: Vec<(u64, Record)>,
) -> Result<Recalled, RecallError>
    ensures recalls { IfOk result (λ recalled. (settings : Settings)
        → IsRecalled settings now.0 schema.now (meanings records.items) (groups_in recalled.catalog)) }
    ensures order { IfOk result (λ recalled. AreInOrder schema.now (groups_in recalled.catalog)) }
    ensures next { IfOk result (λ recalled. recalled.next ≡ next_behind (meanings records.items)) }
    ensures last { IfOk result (λ recalled. recalled.next ≤ 2 ^ 63) }
    ensures commits { IfOk result (λ recalled.
        recalled.commits.items ≡ commits_in (notes_of schema.now (meanings records.items))) }
    ensures rise { IfOk result (λ recalled. RiseBetween 1 recalled.commits.items recalled.next) }
    ensures unfit { IfErr result (λ error. (settings : Settings)
        → IsRefusedFor settings now.0 schema.now records.items error) }
{
    read_back_law();
    let moment = Moment(now.0.min(Limit::Clock.number()));
    let mut fold = Fold::new(alloc);
    for (place, entry) in records {
        if !fold.take(alloc, schema, moment, entry)? {
            return Err(RecallError::Unfit(place));
        }
    }
    Ok(fold.into_recalled())
}
