//! COMMIT of a transaction whose groups are ASYNCHRONOUS WRITETHROUGH.

ghost use Rattle.std.specs.Prelude.{◌≡◌, ◌≤◌, ◌++◌, ◌∷◌, [], IsTrue, OnErr, OnOk, Some, false, length, option_copied, true};
ghost use Rattle.std.specs.List.{list_any};
ghost use Rattle.std.specs.Option.{option_map};
ghost use Rattle.row_types.specs.declared.rule.Refused.TheVariants as refused;
ghost use Rattle.table_defs.specs.Declarations.{Tells};
ghost use Rattle.table_state.specs.Operations.{table_of};
ghost use Rattle.instances.specs.Trees.{same_table};
ghost use Rattle.pending_writes.specs.Noting.{TellsWriters};
ghost use Rattle.cache_tier.specs.Groups.{Group};
ghost use Rattle.cache_tier.specs.Rules.{past};
ghost use Rattle.group_catalog.specs.Catalogs.{groups_in};
ghost use Rattle.group_catalog.specs.Kept.{group_seen};
ghost use Rattle.open_sessions.specs.Lookups.{open_ops};
ghost use Rattle.open_sessions.specs.Opening.{seen_all};
ghost use Rattle.cache_tier.specs.TierStates.{Session as OneSession, Tier as AbstractTier};
ghost use Rattle.session_engine.specs.Committing.{AnswersInWorlds, CommitsOps, HaveRoomFor, SparesHidden, are_deferred, bare_all, commit_answer, commit_fault, is_deferred, ops_at, StoresOps};
ghost use Rattle.stored_tier.specs.Lists.{hides_keys};
ghost use Rattle.stored_tier.specs.Performing.{IsCalm, reply_of};
ghost use Rattle.stored_tier.specs.Stored.{IsSound, IsStoredAs, KeepsHidden};

use crate::noting::{is_verified_for, note_verified};
use cache_tier::reply::Reply;
use group_catalog::{Catalog, KeptGroup};
use group_store::{Directory, Home, Store};
use open_sessions::laws::label_law;
use pending_writes::PendingWrites;
use row_types::{Detail, Key, Refused, Rule};
use statement_uses::{entered_by_ops, touch_stores};
use std::alloc::{AllocError, Global};
use std::collections::VecDeque;
use stored_tier::filling::hides_keys;
use stored_tier::tier::Tier;
use table_defs::BackingSchema;
use table_state::{Op, Ops, Sealed, copied_ops};
use tier_base::{Code, Limit, Seq, SessionId, TableId, Ticket};
use tier_statements::done;

/// COMMIT of an open session that has written tables of ASYNCHRONOUS WRITETHROUGH groups: the writes get the next
/// ticket and wait for the backing database, the stores do them, and the transaction ends. Other sessions' writes
/// still apply then, as no two conflict; no row is looked at for that.
///
/// The refusal is 119 where 4,096 transactions wait, then 119 where no ticket is left; or memory was wanting. All
/// then stays. (TimesTen Cache User's Guide: asynchronous writethrough cache groups.)
pub fn commit_writes(tier: &mut Tier, alloc: Global, id: SessionId) -> Result<Reply, Refused>
    requires sound { IsSound tier.old }
    requires deferred { are_deferred (groups_in tier.old.catalog) (open_ops id (seen_all tier.old.sessions)) ≡ true }
    ensures answers { AnswersInWorlds tier.old tier.new id commit_fault commit_answer result }
    ensures stores { StoresOps tier.old tier.new id result }
    ensures hidden { KeepsHidden tier.old tier.new }
    ensures sound { IsSound tier.new }
    ensures calm { IsCalm (reply_of result) }
{
    label_law();
    judge_commit(tier)?;
    if !spares_hidden(&tier.catalog, tier.sessions.ops(id)) {
        return Err(Refused::Memory);
    }
    let sealed = tier.sessions.seal(alloc, id, Ticket(tier.next))?;
    let ops = copied_ops(alloc, tier.sessions.ops(id))?;
    let entered = entered_by_ops(alloc, &tier.catalog, tier.stores.as_slice(), &ops)?;
    reserve_all(alloc, &mut tier.stores, ops.len())?;
    let first = tier.first_unsettled();
    let_wait(
        alloc,
        &mut tier.unsettled,
        &mut tier.writers,
        &tier.schema,
        first,
        sealed,
    )?;
    let known = is_verified_for(tier, ops.as_slice());
    tier.verified = false;
    commit_ops(&mut tier.stores, &tier.directory, ops, entered.as_slice());
    tier.sessions.rest(id);
    let ticket = tier.next;
    tier.next = ticket + 1;
    note_verified(tier, known);
    Ok(done(alloc, ticket))
}

/// 119 of the transactions that wait, then of the tickets.
pub(crate) fn judge_commit(tier: &Tier) -> Result<(), Refused>
    ensures told { (a : AbstractTier) (s : OneSession) → IsStoredAs tier.now a
        → Tells result (commit_fault s a) }
    ensures fits { OnOk result (tier.now.next ≤ 9223372036854775807) }
{
    if tier.unsettled.len() >= 4096 {
        return Err(past(Limit::Pending));
    }
    if tier.next > 9_223_372_036_854_775_807 {
        return Err(past(Limit::Tickets));
    }
    Ok(())
}

/// Whether a session has written tables of ASYNCHRONOUS WRITETHROUGH groups alone.
pub fn may_wait(tier: &Tier, id: SessionId) -> bool
    ensures { result ≡ are_deferred (groups_in tier.now.catalog) (open_ops id (seen_all tier.now.sessions)) }
{
    are_deferred(&tier.catalog, tier.sessions.ops(id))
}

// Whether each operation is on a table of an ASYNCHRONOUS WRITETHROUGH group, and of no synchronous one.
fn are_deferred(catalog: &Catalog, ops: &[Op]) -> bool
    ensures { result ≡ are_deferred (groups_in catalog.now) ops.now }
{
    ops.iter().all(|op| is_deferred(catalog, op.table()))
}

fn is_deferred(catalog: &Catalog, table: TableId) -> bool
    ensures { result ≡ is_deferred (groups_in catalog.now) table }
{
    catalog.is_written_through(table) && !catalog.is_synchronous(table)
}

/// 119 of a limit.
pub fn past(limit: Limit) -> Refused
    ensures { result ≡ refused.Rule (past limit) }
{
    Refused::Rule(Rule {
        code: Code::Limit,
        detail: Detail::Limit(limit),
    })
}

// The transaction waits behind the others, of which the first has this ticket, and is noted as the last writer of its
// keys. It fails for want of memory alone.
fn let_wait(
    alloc: Global,
    unsettled: &mut VecDeque<Sealed>,
    writers: &mut PendingWrites,
    schema: &BackingSchema,
    first: Ticket,
    sealed: Sealed,
) -> Result<(), AllocError>
    ensures ok { OnOk result (unsettled.new.items ≡ unsettled.old.items ++ sealed ∷ []) }
    ensures err { OnErr result (unsettled.new.items ≡ unsettled.old.items) }
    ensures noted { first.0 ≤ sealed.ticket.0
        → TellsWriters schema.now first.0 unsettled.old.items writers.old
        → OnOk result (TellsWriters schema.now first.0 (unsettled.old.items ++ sealed ∷ []) writers.new) }
    ensures kept { TellsWriters schema.now first.0 unsettled.old.items writers.old
        → OnErr result (TellsWriters schema.now first.0 unsettled.old.items writers.new) }
{
    unsettled.reserve(1)?;
    writers.sweep(first, sealed.ops.as_slice());
    writers.add(alloc, schema, &sealed)?;
    unsettled.push_back_reserved(sealed);
    Ok(())
}

/// Makes room for so many rows in each store. It fails for want of memory alone, and no row changes.
pub(crate) fn reserve_all(
    alloc: Global,
    stores: &mut Vec<Store>,
    more: usize,
) -> Result<(), AllocError>
    ensures same { bare_all stores.new.items ≡ bare_all stores.old.items }
    ensures room { OnOk result (HaveRoomFor more stores.new.items) }
{
    for number in 0..stores.len() {
        stores[number].reserve(alloc, more)?;
    }
    Ok(())
}

/// Whether operations write no root table of a group that keeps hidden keys. Such a group is READONLY, and no session
/// writes its tables.
pub(crate) fn spares_hidden(catalog: &Catalog, ops: &[Op]) -> bool
    ensures { IsTrue result → SparesHidden (groups_in catalog.now) ops.now }
{
    for place in 0..catalog.len() {
        if hides_some(catalog.get(place), ops) {
            return false;
        }
    }
    true
}

fn hides_some(group: Option<&KeptGroup>, ops: &[Op]) -> bool
    ensures { result ≡ false → (g : Group) → option_map group_seen (option_copied group.entry) ≡ Some g
        → hides_keys g ≡ true → list_any (λ op. same_table g.def.tree.root.table (table_of op)) ops.now ≡ false }
{
    match group {
        None => false,
        Some(group) => hides_keys(group) && are_any_on(group.def.tree.root.table, ops),
    }
}

fn are_any_on(table: TableId, ops: &[Op]) -> bool
    ensures { result ≡ list_any (λ op. same_table table (table_of op)) ops.now }
{
    ops.iter().any(|op| table.0 == op.table().0)
}

/// The stores do operations, one after another, and then these root keys become the newest of each. It takes no memory.
pub(crate) fn commit_ops(
    stores: &mut Vec<Store>,
    directory: &Directory,
    ops: Ops,
    entered: &[Seq<Key>],
)
    requires { HaveRoomFor (length ops) stores.old.items }
    ensures { CommitsOps directory.now ops entered.now (bare_all stores.old.items) (bare_all stores.new.items) }
{
    store_ops(stores, directory, ops);
    touch_stores(stores, entered);
}

/// The stores do operations, one after another. It takes no memory.
fn store_ops(stores: &mut Vec<Store>, directory: &Directory, ops: Ops)
    requires { HaveRoomFor (length ops) stores.old.items }
    ensures { bare_all stores.new.items ≡ ops_at directory.now ops (bare_all stores.old.items) }
{
    for op in ops.into_vec() {
        match directory.home(op.table()) {
            None => {}
            Some(Home { store, place: _ }) => {
                if store < stores.len() {
                    stores[store].apply(op);
                }
            }
        }
    }
}
