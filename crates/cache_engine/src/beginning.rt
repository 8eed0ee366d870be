//! How a tier begins.

ghost use Rattle.std.specs.Prelude.{IfOk};
ghost use Rattle.cache_engine.specs.Beginning.{IsFresh, IsNewClock, BeginsAt};
ghost use Rattle.cache_engine.specs.Engines.{IsBegunWith, IsInOrder};
ghost use Rattle.stored_tier.specs.Stored.{IsSound};
ghost use Rattle.outside.specs.Faults.{BankHasCause};

use crate::engine::Engine;
use cache_tier::opened_law;
use group_catalog::Catalog;
use open_sessions::Sessions;
use outside::{BankError, Site};
use pending_writes::PendingWrites;
use std::alloc::{AllocError, Global};
use std::collections::VecDeque;
use stored_tier::clock::{Pace, TierClock};
use stored_tier::naming::name_tables;
use stored_tier::tier::Tier;
use table_defs::BackingSchema;
use tier_base::{Limit, Moment};

/// An engine over a backing database in which no transaction of a tier stands: nothing is in doubt, and no journal is
/// kept. It asks for the schema; transactions of others may come in that call. `start` is its first moment, and
/// `pace` says when work is done.
///
/// `Failed` only where the count of bank faults rose in this call; nothing else is known then, as for want of
/// memory.
pub fn begin<P: Site>(
    alloc: Global,
    site: &mut P,
    start: Moment,
    pace: Pace,
) -> Result<Engine, BankError>
    ensures begins { IsBegunWith start pace
        (P.Disk.state site.old)
        (P.Disk.state site.new)
        result }
    ensures order { IfOk result IsInOrder }
    ensures cause { BankHasCause (P.Disk.state site.old) (P.Disk.state site.new) result }
    ensures later { BeginsAt
        (P.Disk.state site.old)
        (P.Disk.state site.new) }
{
    opened_law();
    match site.schema() {
        Err(error) => Err(error),
        Ok(schema) => match new_tier(alloc, schema, start, pace) {
            Err(_) => Err(BankError::Memory),
            Ok(tier) => Ok(Engine {
                tier,
                doubt: None,
                journal: None,
            }),
        },
    }
}

// The tier that knows this schema, before its first line. It fails for want of memory alone.
fn new_tier(
    alloc: Global,
    schema: BackingSchema,
    start: Moment,
    pace: Pace,
) -> Result<Tier, AllocError>
    ensures fresh { IfOk result (λ tier. IsFresh tier schema start.0 pace) }
    ensures sound { IfOk result IsSound }
{
    let catalog = Catalog::new(alloc);
    let stores = Vec::new(alloc);
    let (visible, directory) = name_tables(alloc, &catalog, stores.as_slice(), schema.as_slice())?;
    Ok(Tier {
        schema,
        visible,
        stale: false,
        catalog,
        stores,
        hidden: Vec::new(alloc),
        directory,
        sessions: Sessions::new(alloc),
        unsettled: VecDeque::new(alloc),
        writers: PendingWrites::new(alloc),
        next: 1,
        clock: new_clock(alloc, start, pace),
        verified: false,
    })
}

// The clock of a tier that is opened at a moment. It takes no memory.
fn new_clock(alloc: Global, start: Moment, pace: Pace) -> TierClock
    ensures { IsNewClock result start.0 pace }
{
    let now = start.0.min(Limit::Clock.number());
    TierClock {
        now,
        added: 0,
        round: now,
        sets: Vec::new(alloc),
        pace,
    }
}
