//! INSERT of a row whose key isn't shown.

ghost use Rattle.std.specs.Prelude.{◌≡◌, IfOk, IsTrue, true};
ghost use Rattle.session_engine.specs.Inserting.{has_row, InsertsAt, IsJudged, IsSince, IsWeighed, IsWeighedRow, KnowsKey, TakenIn};
ghost use Rattle.propagators.specs.Certainty.{KeepsCertain};
ghost use Rattle.group_catalog.specs.Catalogs.{groups_in};
ghost use Rattle.stored_tier.specs.Performing.{IsCalm, IsCaused, reply_of};
ghost use Rattle.stored_tier.specs.Stored.{IsSound};

use crate::preparing::Prepared;
use crate::writing::change;
use cache_tier::laws::tier_law;
use cache_tier::reply::Reply;
use cache_tier::{others_shown_law, pending_row_law, use_shown_law};
use group_store::Shown;
use open_sessions::laws::label_law;
use outside::Site;
use row_types::{Key, Refused, Row, Rule};
use std::alloc::{AllocError, Global};
use stored_tier::tier::Tier;
use table_state::scan_laws::keyed_law;
use table_state::{ApplyError, Op, key_of_row};
use tier_base::{SessionId, TableId, Ticket};
use tier_statements::{bank_fault, judge_ops, taken};

/// What is known of a key before the bank is asked for it.
#[derive(Drop)]
pub enum Known {
    /// The session's own operations write the key; what they leave there is shown.
    Own,
    /// Unsettled transactions write the key, and the last of them leaves a row there, or none.
    Left(bool),
    /// Neither writes it: the bank's row tells.
    Free,
}

/// What is known of an INSERT before the bank is asked for its key.
#[derive(Drop)]
pub struct Weighed {
    /// The table.
    pub table: TableId,
    /// The key.
    pub key: Key,
    /// The rule that is broken where the key has a row.
    pub taken: Rule,
    /// What is known of the key.
    pub known: Known,
    /// The rule that the row breaks over what the session sees.
    pub fault: Option<Rule>,
}

/// INSERT of a row whose key isn't shown: the bank is asked for the key. The row goes behind the session's own
/// operations. Where unsettled transactions wrote the key, the last of them tells whether it has a row, and the bank's
/// row doesn't count.
///
/// The refusal is 107 of the key, then 108; the reply is 201 where the bank's call failed; or memory was wanting. All
/// then stays. Memory is said to be wanting, too, where the last of those transactions is older than the table's
/// group; no run should come to that, as a group that is dropped leaves nothing unsettled, but no clause says so.
pub(crate) fn insert_rows<P: Site>(
    tier: &mut Tier,
    alloc: Global,
    site: &mut P,
    id: SessionId,
    prepared: Prepared,
) -> Result<Reply, Refused>
    requires sound { IsSound tier.old }
    requires verified { tier.old.verified ≡ true }
    ensures performs { InsertsAt tier.old tier.new
        (P.Disk.state site.old)
        (P.Disk.state site.new)
        id prepared result }
    ensures sound { IsSound tier.new }
    ensures cause { IsCaused
        (P.Disk.state site.old)
        (P.Disk.state site.new)
        (reply_of result) }
    ensures certain { KeepsCertain P.Disk.state P.Disk.possible site.old site.new }
    ensures disk { (P.Disk.state site.new).disk_faults ≡ (P.Disk.state site.old).disk_faults }
{
    tier_law();
    label_law();
    others_shown_law();
    pending_row_law();
    use_shown_law();
    match weigh(tier, alloc, id, &prepared) {
        Err(_) => Err(Refused::Memory),
        Ok(weighed) => match site.find(weighed.table, &weighed.key) {
            Err(error) => Ok(bank_fault(alloc, error)),
            Ok(found) => take_in(tier, alloc, id, prepared, weighed, found),
        },
    }
}

// The row goes behind the session's own operations, where the bank's answer lets it.
fn take_in(
    tier: &mut Tier,
    alloc: Global,
    id: SessionId,
    prepared: Prepared,
    weighed: Weighed,
    found: Option<Row>,
) -> Result<Reply, Refused>
    requires sound { IsSound tier.old }
    requires verified { tier.old.verified ≡ true }
    requires weighed { IsWeighed tier.old id prepared weighed }
    ensures taken { TakenIn tier.old tier.new id prepared weighed found result }
    ensures sound { IsSound tier.new }
    ensures calm { IsCalm (reply_of result) }
{
    let Weighed {
        table: _,
        key: _,
        taken,
        known,
        fault,
    } = weighed;
    if has_row(known, &found) {
        return Err(Refused::Rule(taken));
    }
    match fault {
        Some(rule) => Err(Refused::Rule(rule)),
        None => change(tier, alloc, id, prepared),
    }
}

// What is known of an INSERT of one row. It fails for want of memory, and where the table is of no writethrough group.
fn weigh(
    tier: &Tier,
    alloc: Global,
    id: SessionId,
    prepared: &Prepared,
) -> Result<Weighed, AllocError>
    requires sound { IsSound tier.now }
    requires verified { tier.now.verified ≡ true }
    ensures { IfOk result (IsWeighed tier.now id prepared.now) }
{
    let ops = prepared.ops.as_slice();
    match ops.split_first() {
        Some((Op::Insert(table, row), others)) => {
            if table.0 == prepared.table.0
                && others.is_empty()
                && tier.catalog.is_written_through(*table)
            {
                weigh_row(tier, alloc, id, *table, row, ops)
            } else {
                Err(AllocError)
            }
        }
        _ => Err(AllocError),
    }
}

// The same of the row.
fn weigh_row(
    tier: &Tier,
    alloc: Global,
    id: SessionId,
    table: TableId,
    row: &Row,
    ops: &[Op],
) -> Result<Weighed, AllocError>
    requires sound { IsSound tier.now }
    requires verified { tier.now.verified ≡ true }
    ensures { IfOk result (IsWeighedRow tier.now id table row.now ops.now) }
{
    match tier.schema.get(table.0 as usize) {
        None => Err(AllocError),
        Some(def) => {
            let key = key_of_row(alloc, def, row)?;
            let taken = taken(alloc, def, row)?;
            let known = know_key(tier, id, table, &key)?;
            let fault = judge(tier, alloc, id, ops)?;
            Ok(Weighed {
                table,
                key,
                taken,
                known,
                fault,
            })
        }
    }
}

// What is known of a key: its own operations come first, then the last unsettled transaction that writes it. It
// fails where that transaction is older than the table's group. No run should come to that, as a group that is dropped
// leaves nothing unsettled; no clause says so. It takes no memory.
fn know_key(tier: &Tier, id: SessionId, table: TableId, key: &Key) -> Result<Known, AllocError>
    requires sound { IsSound tier.now }
    ensures { IfOk result (KnowsKey tier.now id table key.now) }
{
    if tier.sessions.writes(id, table, key) {
        return Ok(Known::Own);
    }
    match tier.writers.last(tier.first_unsettled(), table, key) {
        None => Ok(Known::Free),
        Some(writer) => {
            if !is_since(tier, table, writer.ticket) {
                return Err(AllocError);
            }
            Ok(Known::Left(writer.leaves))
        }
    }
}

// Whether the group that has a table has been there since before a ticket.
fn is_since(tier: &Tier, table: TableId, ticket: Ticket) -> bool
    ensures { IsTrue result → IsSince (groups_in tier.now.catalog) table ticket.0 }
{
    match tier.catalog.over(table) {
        None => false,
        Some(place) => match tier.catalog.get(place) {
            None => false,
            Some(group) => group.first.0 <= ticket.0,
        },
    }
}

// The rule that operations break over what the session sees.
fn judge(tier: &Tier, alloc: Global, id: SessionId, ops: &[Op]) -> Result<Option<Rule>, AllocError>
    requires sound { IsSound tier.now }
    requires verified { tier.now.verified ≡ true }
    ensures { IfOk result (IsJudged tier.now id ops.now) }
{
    keyed_law();
    let shown = Shown::new(&tier.schema, tier.stores.as_slice(), &tier.directory);
    let seen = tier.sessions.overlay(id, &shown);
    match judge_ops(alloc, &seen, ops) {
        Ok(()) => Ok(None),
        Err(ApplyError::Rule(rule)) => Ok(Some(rule)),
        Err(_) => Err(AllocError),
    }
}

// Whether a row stands at the key, by the bank's.
fn has_row(known: Known, found: &Option<Row>) -> bool
    ensures { result ≡ has_row known found.now }
{
    match known {
        Known::Own => false,
        Known::Left(leaves) => leaves,
        Known::Free => found.is_some(),
    }
}
