//! The console's writes.

ghost use Rattle.std.specs.Prelude.{◌≡◌, IfOk, find, option_copied};
ghost use Rattle.sql_subset.specs.declared.request.ConsoleRequest.TheVariants as console;
ghost use Rattle.resolution.specs.Writes.{table_of};
ghost use Rattle.cache_tier.specs.ConsoleSteps.{DoesConsole};
ghost use Rattle.cache_tier.specs.PassedSteps.{passed_reply};
ghost use Rattle.cache_tier.specs.Rules.{named};
ghost use Rattle.cache_tier.specs.TierStates.{Tier as AbstractTier};
ghost use Rattle.cache_tier.specs.Worlds.{Tries};
ghost use Rattle.tier_base.specs.declared.code.Code.TheVariants as code;
ghost use Rattle.stored_tier.specs.Performing.{IsCaused};
ghost use Rattle.stored_tier.specs.Sites.{Serves};
ghost use Rattle.propagators.specs.Certainty.{KeepsCertain};
ghost use Rattle.stored_tier.specs.Stored.{IsStoredAs};
ghost use Rattle.cache_engine.specs.Writing.{JudgesWrites, writes_through};

use cache_tier::reply::Reply;
use evaluator::Change;
use outside::{BankError, Done, Site};
use resolution::resolve_writes;
use row_types::{Detail, Refused, Rule};
use sql_query::Write;
use std::alloc::{AllocError, Global};
use stored_tier::tier::Tier;
use table_defs::find_table;
use tier_base::{Code, Name, Seq};
use tier_statements::{bank_fault, done, refuse, refuses};

/// INSERT, UPDATE and DELETE of the console, as one transaction of others at the backing database: all of them, or
/// none. The reply tells how many rows of the tables that they name they write. The tier stays as it is.
///
/// They are refused write by write with 102 and then 103; then with 118, 104, and 105 of a literal that no type
/// holds; then with 121 of a writethrough group's table. The backing database refuses the first write that breaks a
/// rule: row by row 120 of the condition, 105 and then 106 of a column, 120 of a value; 119 of operations and rows;
/// then 107, 108, 109.
/// Behind a refusal, and where memory is wanting, nothing of theirs is done; behind 201, a failed call of the bank,
/// all of it, or nothing. (TimesTen SQL Reference, "INSERT", "UPDATE", "DELETE"; the codes and their order are this
/// project's rule.)
pub fn write_console<P: Site>(tier: &Tier, alloc: Global, site: &mut P, writes: &[Write]) -> Reply
    ensures serves { Serves tier.now tier.now
        (P.Disk.state site.old)
        (P.Disk.state site.new)
        (λ w w'. Tries (DoesConsole (console.Writes writes.now)) w w' result) }
    ensures certain { KeepsCertain P.Disk.state P.Disk.possible site.old site.new }
    ensures disk { (P.Disk.state site.new).disk_faults ≡ (P.Disk.state site.old).disk_faults }
    ensures cause { IsCaused
        (P.Disk.state site.old)
        (P.Disk.state site.new)
        result }
{
    match judge_writes(tier, alloc, writes) {
        Err(refused) => refuse(alloc, refused),
        Ok(changes) => {
            let end = site.foreign(changes.as_slice());
            reply_to_writes(alloc, end)
        }
    }
}

// What the writes stand for, where nothing refuses them before the bank is called.
fn judge_writes(tier: &Tier, alloc: Global, writes: &[Write]) -> Result<Seq<Change>, Refused>
    ensures { (a : AbstractTier) → IsStoredAs tier.now a → JudgesWrites a writes.now result }
{
    let changes = resolve_writes(alloc, &tier.schema, writes)?;
    match first_writethrough(tier, writes) {
        None => Ok(changes),
        Some(write) => Err(refuse_table(alloc, write)?),
    }
}

// The first of the writes on a table of a writethrough group.
fn first_writethrough<'a>(tier: &Tier, writes: &'a [Write]) -> Option<&'a Write>
    ensures { option_copied result ≡ find (λ w. writes_through tier.now (table_of w)) writes.now }
{
    writes
        .iter()
        .find(|write| is_written_through(tier, table_of(write)))
}

// Whether the table of a name is one of a writethrough group.
fn is_written_through(tier: &Tier, name: &Name) -> bool
    ensures { result ≡ writes_through tier.now name.now }
{
    match find_table(&tier.schema, name) {
        None => false,
        Some(table) => tier.catalog.is_written_through(table),
    }
}

// 121 of a write's table. Its own error is want of memory.
fn refuse_table(alloc: Global, write: &Write) -> Result<Refused, AllocError>
    ensures { IfOk result (λ error. error ≡ Refused.Rule (named code.WritethroughTable (table_of write.now))) }
{
    let name = table_of(write).copied(alloc)?;
    Ok(Refused::Rule(Rule {
        code: Code::WritethroughTable,
        detail: Detail::Name(name),
    }))
}

// The table of a write.
fn table_of(write: &Write) -> &Name
    ensures { result.now ≡ table_of write.now }
{
    match write {
        Write::Insert(insert) => &insert.table,
        Write::Update(update) => &update.table,
        Write::Delete(delete) => &delete.table,
    }
}

// The reply to what became of them at the bank.
pub(crate) fn reply_to_writes(alloc: Global, end: Result<Done, BankError>) -> Reply
    ensures { result ≡ passed_reply end }
{
    match end {
        Ok(Done::Rows(rows)) => done(alloc, rows),
        Ok(Done::Broken(rule)) => refuses(alloc, rule),
        Err(error) => bank_fault(alloc, error),
    }
}
