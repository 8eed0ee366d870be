//! INSERT, UPDATE and DELETE of a session in the cache.

ghost use Rattle.std.specs.Prelude.{◌≡◌, true};
ghost use Rattle.std.specs.List.{list_all};
ghost use Rattle.transactions.specs.Transactions.{rows_in};
ghost use Rattle.session_engine.specs.Changing.{is_change, Changed, IsUnbroken, WritesCached};
ghost use Rattle.propagators.specs.Certainty.{KeepsCertain};
ghost use Rattle.stored_tier.specs.Performing.{IsCalm, IsCaused, reply_of};
ghost use Rattle.stored_tier.specs.Stored.{IsSound};

use crate::holding::hold_used;
use crate::inserting::insert_rows;
use crate::preparing::{Prepared, prepare};
use cache_tier::laws::tier_law;
use cache_tier::reply::Reply;
use cache_tier::use_shown_law;
use evaluator::Change;
use open_sessions::laws::label_law;
use outside::Site;
use row_types::Refused;
use std::alloc::Global;
use stored_tier::tier::Tier;
use table_state::Op;
use tier_base::{SessionId, TableId};
use tier_statements::done;

/// A write of an open session in the cache, whose names are found: its operations stand behind the session's own, and
/// hold the keys that they write and the parents that they name, until the transaction ends. The reply tells how many
/// rows of the named table they write. The bank is asked for the key of an INSERT that isn't shown. In each group in
/// which the order of last use counts, the instances that they change are used. Nothing is loaded for it, and the
/// journal isn't written to.
///
/// The refusal is the first broken rule: row by row 120, 105, 106; 119 of the operations; 111 with the holder of a key;
/// 107, 108, 109. It is 201 where the bank's call failed; or memory was wanting. All then stays. (TimesTen SQL
/// Reference, "INSERT", "UPDATE", "DELETE"; TimesTen Cache User's Guide, writethrough cache groups; the codes and their
/// order are this project's rule.)
pub fn write_cached<P: Site>(
    tier: &mut Tier,
    alloc: Global,
    site: &mut P,
    id: SessionId,
    named: &Change,
) -> Result<Reply, Refused>
    requires { IsSound tier.old }
    ensures unwritten { WritesCached tier.old tier.new
        (P.Disk.state site.old)
        (P.Disk.state site.new)
        id named.now result }
    ensures sound { IsSound tier.new }
    ensures cause { IsCaused
        (P.Disk.state site.old)
        (P.Disk.state site.new)
        (reply_of result) }
    ensures certain { KeepsCertain P.Disk.state P.Disk.possible site.old site.new }
    ensures disk { (P.Disk.state site.new).disk_faults ≡ (P.Disk.state site.old).disk_faults }
{
    tier_law();
    label_law();
    use_shown_law();
    match tier.verify(alloc) {
        Err(_) => Err(Refused::Memory),
        Ok(()) => match prepare(tier, alloc, id, named) {
            Err(refused) => Err(refused),
            Ok(prepared) => {
                if are_changes(prepared.ops.as_slice()) {
                    change(tier, alloc, id, prepared)
                } else {
                    insert_rows(tier, alloc, site, id, prepared)
                }
            }
        },
    }
}

/// Operations go behind the session's own, and the instances that they change are used.
pub(crate) fn change(
    tier: &mut Tier,
    alloc: Global,
    id: SessionId,
    prepared: Prepared,
) -> Result<Reply, Refused>
    requires sound { IsSound tier.old }
    requires verified { tier.old.verified ≡ true }
    requires unbroken { IsUnbroken tier.old id prepared.ops }
    ensures changed { Changed tier.old tier.new id prepared result }
    ensures sound { IsSound tier.new }
    ensures calm { IsCalm (reply_of result) }
{
    let rows = rows_in(prepared.table, prepared.ops.as_slice());
    match hold_used(tier, alloc, id, prepared.ops) {
        Err(_) => Err(Refused::Memory),
        Ok(()) => Ok(done(alloc, rows as u64)),
    }
}

// How many of the operations are on a table.
fn rows_in(table: TableId, ops: &[Op]) -> usize
    ensures { result ≡ rows_in table ops.now }
{
    ops.iter().filter(|op| op.table().0 == table.0).count()
}

// Whether no operation inserts a row.
fn are_changes(ops: &[Op]) -> bool
    ensures { result ≡ list_all is_change ops.now }
{
    ops.iter().all(|op| is_change(op))
}

fn is_change(op: &Op) -> bool
    ensures { result ≡ is_change op.now }
{
    match op {
        Op::Insert(_, _) => false,
        Op::Update(_, _, _) => true,
        Op::Delete(_, _) => true,
    }
}
