//! SELECT at the backing database.

ghost use Rattle.std.specs.Prelude.{◌≡◌};
ghost use Rattle.propagators.specs.Certainty.{KeepsCertain};
ghost use Rattle.session_engine.specs.Selecting.{PassesQuery};
ghost use Rattle.stored_tier.specs.declared.tier.Tier.{Tier as Stored};
ghost use Rattle.stored_tier.specs.Performing.{IsCalm, IsCaused, reply_of};
ghost use Rattle.tier_statements.specs.Answering.{IsAnswerTo};

use crate::copied_rows::are_keyed;
use crate::query::tables_of;
use cache_tier::reply::Reply;
use outside::Site;
use resolution::ResolvedQuery;
use row_types::Refused;
use std::alloc::Global;
use table_state::Tables;
use tier_statements::{answer_query, bank_fault};

/// SELECT that is passed on: the query's tables are copied in one call of the backing database, and the query is
/// answered over these rows. The tier stays as it is, and the journal isn't written to.
///
/// The reply is 201 where the call failed, and 299 where memory was wanting in it. The refusal is the first broken
/// rule, as the evaluator tells it; or memory was wanting, which is also said where a row doesn't stand under its key
/// or doesn't fit its table. (TimesTen SQL Reference, "SELECT"; TimesTen Cache User's Guide, "Setting a passthrough
/// level".)
pub fn select_passed<P: Site>(
    alloc: Global,
    site: &mut P,
    query: &ResolvedQuery,
) -> Result<Reply, Refused>
    ensures passes { (t : Stored) → PassesQuery t
        (P.Disk.state site.old)
        (P.Disk.state site.new)
        query.now result }
    ensures cause { IsCaused
        (P.Disk.state site.old)
        (P.Disk.state site.new)
        (reply_of result) }
    ensures certain { KeepsCertain P.Disk.state P.Disk.possible site.old site.new }
    ensures disk { (P.Disk.state site.new).disk_faults ≡ (P.Disk.state site.old).disk_faults }
{
    match site.snapshot(tables_of(query)) {
        Err(error) => Ok(bank_fault(alloc, error)),
        Ok(snapshot) => answer_over(alloc, &snapshot.tables, query),
    }
}

// The answer to a query over a copy of its tables.
fn answer_over(alloc: Global, tables: &Tables, query: &ResolvedQuery) -> Result<Reply, Refused>
    ensures answers { IsAnswerTo query.now tables.now result }
    ensures calm { IsCalm (reply_of result) }
{
    if !are_keyed(alloc, tables) {
        return Err(Refused::Memory);
    }
    answer_query(alloc, tables, query)
}
