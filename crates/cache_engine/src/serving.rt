//! The console's lines.

ghost use Rattle.std.specs.Prelude.{◌≡◌, ◌++◌, ◌∷◌, [], IfOk};
ghost use Rattle.cache_tier.specs.ConsoleSteps.{CreatesTable, DoesConsole};
ghost use Rattle.cache_tier.specs.Worlds.{Tries};
ghost use Rattle.stored_tier.specs.Performing.{IsCaused, Performs, reply_of};
ghost use Rattle.tier_journal.specs.Ways.{HasBecome};
ghost use Rattle.propagators.specs.Certainty.{KeepsCertain};
ghost use Rattle.stored_tier.specs.Stored.{IsSound};

use crate::console::write_console;
use crate::create::check_table;
use crate::growing::{learn, name_grown};
use cache_tier::reply::Reply;
use cache_tier::{others_shown_law, round_shown_law, table_shown_law};
use outside::{BankError, Site};
use row_types::{Refused, TableDeclaration};
use sql_subset::request::ConsoleRequest;
use std::alloc::{AllocError, Global};
use stored_tier::tier::Tier;
use table_defs::{BackingSchema, TableDef, copied_schema};
use tier_base::Code;
use tier_statements::{done, faulty};

/// What the console asks: CREATE TABLE, which `check_table` judges, or writes as one transaction of others, as
/// `write_console` does them. (TimesTen SQL Reference, "CREATE TABLE", "INSERT", "UPDATE", "DELETE".)
pub fn serve_console<P: Site>(
    tier: &mut Tier,
    alloc: Global,
    site: &mut P,
    request: &ConsoleRequest,
) -> Result<Reply, Refused>
    requires { IsSound tier.old }
    ensures performs { Performs tier.old tier.new
        (P.Disk.state site.old)
        (P.Disk.state site.new)
        (λ w w'. Tries (DoesConsole request.now) w w' (reply_of result)) }
    ensures sound { IsSound tier.new }
    ensures grown { HasBecome tier.old.schema tier.new.schema }
    ensures certain { KeepsCertain P.Disk.state P.Disk.possible site.old site.new }
    ensures disk { (P.Disk.state site.new).disk_faults ≡ (P.Disk.state site.old).disk_faults }
    ensures cause { IsCaused
        (P.Disk.state site.old)
        (P.Disk.state site.new)
        (reply_of result) }
{
    match request {
        ConsoleRequest::CreateTable(declaration) => { create_table(tier, alloc, site, declaration) }
        ConsoleRequest::Writes(writes) => {
            others_shown_law();
            round_shown_law();
            Ok(write_console(tier, alloc, site, writes.as_slice()))
        }
    }
}

// CREATE TABLE. Where the schema isn't known, and nothing refuses the definition over what is known, memory is said to
// be wanting. No line should come to that: `ask_schema` comes before, where a name isn't cached; and where all are, 113
// refuses the name. No clause says so.
fn create_table<P: Site>(
    tier: &mut Tier,
    alloc: Global,
    site: &mut P,
    declaration: &TableDeclaration,
) -> Result<Reply, Refused>
    requires { IsSound tier.old }
    ensures performs { Performs tier.old tier.new
        (P.Disk.state site.old)
        (P.Disk.state site.new)
        (λ w w'. Tries (CreatesTable declaration.now) w w' (reply_of result)) }
    ensures sound { IsSound tier.new }
    ensures grown { HasBecome tier.old.schema tier.new.schema }
    ensures certain { KeepsCertain P.Disk.state P.Disk.possible site.old site.new }
    ensures disk { (P.Disk.state site.new).disk_faults ≡ (P.Disk.state site.old).disk_faults }
    ensures cause { IsCaused
        (P.Disk.state site.old)
        (P.Disk.state site.new)
        (reply_of result) }
{
    let def = check_table(tier, alloc, declaration)?;
    if tier.stale {
        return Err(Refused::Memory);
    }
    let schema = with_table(alloc, tier.schema.as_slice(), &def)?;
    let (visible, directory) = name_grown(tier, alloc, &schema)?;
    others_shown_law();
    table_shown_law();
    match site.define(&def) {
        Ok(()) => {
            learn(tier, schema, visible, directory);
            Ok(done(alloc, 0))
        }
        Err(BankError::Failed) => {
            tier.stale = true;
            Ok(faulty(alloc, Code::BackingFault))
        }
        Err(BankError::Memory) => Err(Refused::Memory),
    }
}

// The definitions with one more behind them. It fails for want of memory alone.
fn with_table(alloc: Global, defs: &[TableDef], def: &TableDef) -> Result<BackingSchema, AllocError>
    ensures { IfOk result (λ more. more ≡ defs.now ++ def.now ∷ []) }
{
    let mut more = copied_schema(alloc, defs)?;
    let def = def.copied(alloc)?;
    more.push(def)?;
    Ok(more)
}
