//! What a session's write makes in the cache before the bank is asked.

ghost use Rattle.std.specs.Prelude.{◌≡◌, IfOk, None, Some, true};
ghost use Rattle.table_state.specs.Operations.{applied_all};
ghost use Rattle.table_state.specs.Tables.{TableState};
ghost use Rattle.evaluator.specs.Rules.{Gives};
ghost use Rattle.open_sessions.specs.Lookups.{open_ops};
ghost use Rattle.open_sessions.specs.Opening.{seen_all};
ghost use Rattle.cache_tier.specs.TierStates.{Session as OneSession, Tier as AbstractTier};
ghost use Rattle.cache_tier.specs.Worlds.{World};
ghost use Rattle.tier_statements.specs.Preparing.{inserted_row, prepared};
ghost use Rattle.tier_statements.specs.Routing.{Routes};
ghost use Rattle.session_engine.specs.Changing.{IsUnbroken, Prepares};
ghost use Rattle.stored_tier.specs.Stored.{HasSession, IsSound, IsStoredAs, ShowsRows, rows_of};

use crate::query::level;
use cache_tier::laws::tier_law;
use evaluator::Change;
use group_catalog::Catalog;
use group_store::Shown;
use open_sessions::laws::label_law;
use row_types::Refused;
use sql_query::Write;
use std::alloc::Global;
use stored_tier::tier::Tier;
use table_state::Ops;
use table_state::scan_laws::keyed_law;
use tier_base::{SessionId, TableId};
use tier_statements::{RoutedWrite, prepare_write};

/// The operations of a write, and the table that it names.
#[derive(Drop)]
pub struct Prepared {
    /// The table.
    pub table: TableId,
    /// The operations.
    pub ops: Ops,
}

// The groups by the numbers of their tables.
struct ByTable<'a>(&'a Catalog);

impl Drop for ByTable<'_> {
    fn drop(self) {
        let Self(_) = self;
    }
}

impl tier_statements::Catalog for ByTable<'_> {
    ghost use Rattle.group_catalog.specs.Catalogs.{groups_in};

    ghost groups = { λ catalog. groups_in catalog.0.now };

    fn is_cached(&self, table: TableId) -> bool {
        self.0.has_table(table)
    }

    fn is_written_through(&self, table: TableId) -> bool {
        self.0.is_written_through(table)
    }

    fn is_only_read(&self, table: TableId) -> bool {
        self.0.is_only_read(table)
    }

    fn is_synchronous(&self, table: TableId) -> bool {
        self.0.is_synchronous(table)
    }
}

/// The operations of a write of an open session in the cache, whose names are found, all tested that can be before the
/// bank is asked.
pub(crate) fn prepare(
    tier: &Tier,
    alloc: Global,
    id: SessionId,
    change: &Change,
) -> Result<Prepared, Refused>
    requires sound { IsSound tier.now }
    requires verified { tier.now.verified ≡ true }
    ensures prepared { (w : World) (s : OneSession) → IsStoredAs tier.now w.tier → ShowsRows tier.now w
        → HasSession tier.now id s → Prepares s change.now w result }
    ensures unbroken { IfOk result (λ p. inserted_row p.ops ≡ None → IsUnbroken tier.now id p.ops) }
{
    tier_law();
    label_law();
    match effects(tier, alloc, id, change) {
        Err(refused) => Err(refused),
        Ok(ops) => Ok(Prepared {
            table: change.table,
            ops,
        }),
    }
}

/// Finds the names of a write of an open session, and where it is done.
///
/// The refusal is the first rule that it breaks before that: 102, 103; 118, 104, 105; 121, 110, 117; or memory was
/// wanting. (TimesTen SQL Reference, "INSERT", "UPDATE", "DELETE"; TimesTen Cache User's Guide, "Setting a passthrough
/// level"; the codes and their order are this project's rule.)
pub fn route_write(
    tier: &Tier,
    alloc: Global,
    id: SessionId,
    write: &Write,
) -> Result<RoutedWrite, Refused>
    requires { IsSound tier.now }
    ensures { (a : AbstractTier) (s : OneSession) → IsStoredAs tier.now a → HasSession tier.now id s
        → Routes a s write.now result }
{
    label_law();
    let groups = ByTable(&tier.catalog);
    let level = level(tier, id);
    tier_statements::route_write(
        alloc,
        &groups,
        &tier.schema,
        level,
        tier.sessions.ops(id),
        write,
    )
}

// The operations of a write with its names found, over what the session sees.
fn effects(tier: &Tier, alloc: Global, id: SessionId, change: &Change) -> Result<Ops, Refused>
    requires sound { IsSound tier.now }
    requires verified { tier.now.verified ≡ true }
    ensures prepared { (a : AbstractTier) (s : OneSession) (seen : TableState) → IsStoredAs tier.now a
        → HasSession tier.now id s
        → applied_all (open_ops id (seen_all tier.now.sessions)) (rows_of tier.now) ≡ Some seen
        → Gives (prepared a s change.now seen) result }
    ensures unbroken { IfOk result (λ ops. inserted_row ops ≡ None → IsUnbroken tier.now id ops) }
{
    keyed_law();
    label_law();
    match tier.sessions.get(id) {
        None => Err(Refused::Memory),
        Some(session) => {
            let shown = Shown::new(&tier.schema, tier.stores.as_slice(), &tier.directory);
            let seen = tier.sessions.overlay(id, &shown);
            prepare_write(alloc, &seen, tier.sessions.as_slice(), session, change)
        }
    }
}
