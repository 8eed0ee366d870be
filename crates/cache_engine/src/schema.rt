//! What the tier knows of the backing tables.

ghost use Rattle.std.specs.Prelude.{◌≡◌};
ghost use Rattle.std.specs.List.{list_any};
ghost use Rattle.resolution.specs.Writes.{table_of};
ghost use Rattle.sql_subset.specs.declared.request.Line.TheVariants as says;
ghost use Rattle.cache_tier.specs.ConsoleSteps.{names_of, names_of_line, AsksSchema};
ghost use Rattle.cache_tier.specs.Definitions.{names_in};
ghost use Rattle.cache_engine.specs.Growing.{has_to_ask, misses};
ghost use Rattle.tier_journal.specs.Ways.{HasBecome};
ghost use Rattle.stored_tier.specs.Performing.{IsStopCaused, Performs, stop_of};
ghost use Rattle.propagators.specs.Certainty.{KeepsCertain};
ghost use Rattle.stored_tier.specs.Stored.{IsSound};

use crate::growing::{learn, name_grown};
use cache_tier::reply::Reply;
use cache_tier::{others_shown_law, table_shown_law};
use outside::Site;
use row_types::TableDeclaration;
use sql_query::{FromTable, Write};
use sql_subset::request::{ConsoleRequest, Line, Request};
use sql_subset::stmt::{GroupTable, Stmt};
use std::alloc::Global;
use stored_tier::tier::Tier;
use table_defs::find_table;
use tier_base::{Code, Name};
use tier_statements::{bank_fault, faulty};

/// Asks the bank for the schema, where a definition has failed since it was told, and the line names a table that
/// isn't cached. The reply that it fails with is 201 of the call, or want of memory; the tier then knows what it knew.
pub fn ask_schema<P: Site>(
    tier: &mut Tier,
    alloc: Global,
    site: &mut P,
    line: &Line,
) -> Result<(), Reply>
    requires { IsSound tier.old }
    ensures performs { Performs tier.old tier.new
        (P.Disk.state site.old)
        (P.Disk.state site.new)
        (λ w w'. AsksSchema line.now w w' (stop_of result)) }
    ensures sound { IsSound tier.new }
    ensures grown { HasBecome tier.old.schema tier.new.schema }
    ensures certain { KeepsCertain P.Disk.state P.Disk.possible site.old site.new }
    ensures disk { (P.Disk.state site.new).disk_faults ≡ (P.Disk.state site.old).disk_faults }
    ensures cause { IsStopCaused
        (P.Disk.state site.old)
        (P.Disk.state site.new)
        (stop_of result) }
{
    if !has_to_ask(tier, line) {
        return Ok(());
    }
    others_shown_law();
    table_shown_law();
    match site.schema() {
        Err(error) => Err(bank_fault(alloc, error)),
        Ok(schema) => match name_grown(tier, alloc, &schema) {
            Err(_) => Err(faulty(alloc, Code::Memory)),
            Ok((visible, directory)) => {
                learn(tier, schema, visible, directory);
                Ok(())
            }
        },
    }
}

// Whether the bank has to be asked for the schema before the line.
fn has_to_ask(tier: &Tier, line: &Line) -> bool
    ensures { result ≡ has_to_ask tier.now line.now }
{
    tier.stale && misses_in_line(tier, line)
}

fn misses_in_line(tier: &Tier, line: &Line) -> bool
    ensures { result ≡ list_any (misses tier.now) (names_of_line line.now) }
{
    match line {
        Line::Session(_, Request::Statement(statement)) => misses_in_statement(tier, statement),
        Line::Session(_, _) => false,
        Line::Console(request) => misses_in_console(tier, request),
        Line::Clock(_) => false,
    }
}

fn misses_in_console(tier: &Tier, request: &ConsoleRequest) -> bool
    ensures { result ≡ list_any (misses tier.now) (names_of_line (says.Console request.now)) }
{
    match request {
        ConsoleRequest::CreateTable(declaration) => misses_declared(tier, declaration),
        ConsoleRequest::Writes(writes) => misses_written(tier, writes.as_slice()),
    }
}

fn misses_in_statement(tier: &Tier, statement: &Stmt) -> bool
    ensures { result ≡ list_any (misses tier.now) (names_of statement.now) }
{
    match statement {
        Stmt::Select(query) => misses_from(tier, query.tables.as_slice()),
        Stmt::Write(write) => misses(tier, written_table(write)),
        Stmt::CreateGroup(declared) => misses_grouped(tier, declared.tables.as_slice()),
        _ => false,
    }
}

fn misses_from(tier: &Tier, tables: &[FromTable]) -> bool
    ensures { result ≡ list_any (λ f. misses tier.now f.table) tables.now }
{
    tables.iter().any(|from| misses(tier, &from.table))
}

fn misses_written(tier: &Tier, writes: &[Write]) -> bool
    ensures { result ≡ list_any (λ w. misses tier.now (table_of w)) writes.now }
{
    writes
        .iter()
        .any(|write| misses(tier, written_table(write)))
}

fn misses_grouped(tier: &Tier, tables: &[GroupTable]) -> bool
    ensures { result ≡ list_any (λ g. list_any (misses tier.now) (names_in g.table)) tables.now }
{
    tables
        .iter()
        .any(|declared| misses_declared(tier, &declared.table))
}

// The table of a declaration isn't cached, or its parent isn't.
fn misses_declared(tier: &Tier, declaration: &TableDeclaration) -> bool
    ensures { result ≡ list_any (misses tier.now) (names_in declaration.now) }
{
    match &declaration.foreign_key {
        None => misses(tier, &declaration.name),
        Some(foreign) => misses(tier, &declaration.name) || misses(tier, &foreign.parent),
    }
}

// The table of a name isn't cached.
fn misses(tier: &Tier, name: &Name) -> bool
    ensures { result ≡ misses tier.now name.now }
{
    match find_table(&tier.schema, name) {
        None => true,
        Some(table) => !tier.catalog.has_table(table),
    }
}

// The table of a write.
fn written_table(write: &Write) -> &Name
    ensures { result.now ≡ table_of write.now }
{
    match write {
        Write::Insert(insert) => &insert.table,
        Write::Update(update) => &update.table,
        Write::Delete(delete) => &delete.table,
    }
}
