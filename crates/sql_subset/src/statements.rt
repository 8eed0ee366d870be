//! Statements and requests, read off the tokens of a line.
ghost use Rattle.std.specs.Prelude.{◌≡◌, IfOk};
ghost use Rattle.sql_subset.specs.Statements.{alter_of, at_write, call_with, clock_of, commit_every_of, console_of, create_of, digit_of, drop_of, goes_on, group_statement_of, id_of, index_of, load_of, of_group_of, open_with, parallel_of, passthrough_of, request_of, statement_of, which_of, writes_of};

use crate::groups::{read_group, state_of};
use crate::request::{ConsoleRequest, OpenOptions, Request};
use crate::stmt::{Alter, Call, CreateIndex, Load, OfGroup, Stmt, Which};
use sql_phrases::conditions::read_filter;
use sql_phrases::queries::read_query;
use sql_phrases::reader::Reader;
use sql_phrases::reading::{
    number_of, read_identifier, read_identifiers, read_literals, read_name,
};
use sql_phrases::sql_query::{Literal, Write};
use sql_phrases::sql_tokens::kind::Kind;
use sql_phrases::sql_tokens::token::is_kind;
use sql_phrases::tables::read_table;
use sql_phrases::tier_base::{Name, Seq};
use sql_phrases::writes::read_write;
use std::alloc::AllocError;

/// Whether a write stands behind the `;` in front.
fn goes_on(r: &Reader<'_>) -> bool
    ensures { result ≡ goes_on r.now }
{
    let rest = r.fork().skip(1);
    rest.begins(Kind::Insert) || rest.begins(Kind::Update) || rest.begins(Kind::Delete)
}

fn read_writes(r: Reader<'_>) -> Result<(Seq<Write>, Reader<'_>), AllocError>
    ensures { IfOk result (λ x. writes_of r.entry ≡ (x.0, x.1)) }
{
    let mut writes = Vec::new(r.alloc());
    let (first, mut rest) = read_write(r)?;
    writes.push(first)?;
    while goes_on(&rest) {
        let (write, behind) = read_write(rest.skip(1))?;
        writes.push(write)?;
        rest = behind;
    }
    Ok((Seq::from_vec(writes), rest))
}

/// Reads a request of the console.
pub fn read_console(r: Reader<'_>) -> Result<ConsoleRequest, AllocError>
    ensures { IfOk result (λ x. x ≡ console_of r.entry) }
{
    if r.begins(Kind::Create) {
        let (cached, _) = read_table(r.skip(2))?;
        return Ok(ConsoleRequest::CreateTable(cached.table));
    }
    let (writes, _) = read_writes(r)?;
    Ok(ConsoleRequest::Writes(writes))
}

/// Reads the arguments of a procedure, where there are some.
fn read_call(procedure: Name, r: Reader<'_>) -> Result<Stmt, AllocError>
    ensures { IfOk result (λ x. x ≡ call_with procedure r.entry) }
{
    if r.begins(Kind::OpenParen) {
        let first = r.skip(1);
        if !first.begins(Kind::CloseParen) {
            let (arguments, _) = read_literals(first)?;
            return Ok(Stmt::Call(Call {
                procedure,
                arguments,
            }));
        }
        let arguments = Seq::new(first.alloc());
        return Ok(Stmt::Call(Call {
            procedure,
            arguments,
        }));
    }
    let arguments = Seq::new(r.alloc());
    Ok(Stmt::Call(Call {
        procedure,
        arguments,
    }))
}

/// Reads COMMIT EVERY, where it stands.
fn read_commit_every(r: Reader<'_>) -> (Option<u64>, Reader<'_>)
    ensures { commit_every_of r.entry ≡ (result.0, result.1) }
{
    if r.begins(Kind::Commit) {
        let rows = r.skip(2);
        let number = number_of(rows.text());
        return (Some(number), rows.skip(2));
    }
    (None, r)
}

/// Reads PARALLEL, where it stands.
fn read_parallel(r: Reader<'_>) -> (Option<u64>, Reader<'_>)
    ensures { parallel_of r.entry ≡ (result.0, result.1) }
{
    if r.begins(Kind::Parallel) {
        let threads = r.skip(1);
        let number = number_of(threads.text());
        return (Some(number), threads.skip(1));
    }
    (None, r)
}

fn read_id(r: Reader<'_>) -> Result<(Option<Seq<Literal>>, Reader<'_>), AllocError>
    ensures { IfOk result (λ x. id_of r.entry ≡ (x.0, x.1)) }
{
    if r.begins(Kind::With) {
        let (literals, rest) = read_literals(r.skip(3))?;
        return Ok((Some(literals), rest.skip(1)));
    }
    Ok((None, r))
}

#[tactic(auto, unfolding(crate::specs::Statements::which_of))]
fn read_which(r: Reader<'_>) -> Result<(Which, Reader<'_>), AllocError>
    ensures { IfOk result (λ x. which_of r.entry ≡ (x.0, x.1)) }
{
    let (filter, rest) = read_filter(r)?;
    let (id, rest) = read_id(rest)?;
    Ok((Which { filter, id }, rest))
}

// Reads what stands behind LOAD or REFRESH.
#[tactic(auto, unfolding(crate::specs::Statements::load_of))]
fn read_load(r: Reader<'_>) -> Result<(Load, Reader<'_>), AllocError>
    ensures { IfOk result (λ x. load_of r.entry ≡ (x.0, x.1)) }
{
    let (group, rest) = read_name(r.skip(2))?;
    let (which, rest) = read_which(rest)?;
    let (commit_every, rest) = read_commit_every(rest);
    let (parallel, rest) = read_parallel(rest);
    Ok((
        Load {
            group,
            which,
            commit_every,
            parallel,
        },
        rest,
    ))
}

// Reads what stands behind UNLOAD or FLUSH.
#[tactic(auto, unfolding(crate::specs::Statements::of_group_of))]
fn read_of_group(r: Reader<'_>) -> Result<OfGroup, AllocError>
    ensures { IfOk result (λ x. x ≡ of_group_of r.entry) }
{
    let (group, rest) = read_name(r.skip(2))?;
    let (which, _) = read_which(rest)?;
    Ok(OfGroup { group, which })
}

// Reads what stands behind ALTER.
fn read_alter(r: Reader<'_>) -> Result<Alter, AllocError>
    ensures { IfOk result (λ x. x ≡ alter_of r.entry) }
{
    let (group, rest) = read_name(r.skip(2))?;
    let state = state_of(rest.skip(3).first_kind());
    Ok(Alter { group, state })
}

// Reads what stands behind INDEX.
#[tactic(auto, unfolding(crate::specs::Statements::index_of))]
fn read_index(r: Reader<'_>) -> Result<CreateIndex, AllocError>
    ensures { IfOk result (λ x. x ≡ index_of r.entry) }
{
    let (name, rest) = read_identifier(r)?;
    let (table, rest) = read_name(rest.skip(1))?;
    let (columns, _) = read_identifiers(rest.skip(1))?;
    Ok(CreateIndex {
        name,
        table,
        columns,
    })
}

// Reads what stands behind CREATE.
#[tactic(auto, unfolding(crate::specs::Statements::create_of))]
fn read_create(r: Reader<'_>) -> Result<Stmt, AllocError>
    ensures { IfOk result (λ x. x ≡ create_of r.entry) }
{
    if r.begins(Kind::Index) {
        let index = read_index(r.skip(1))?;
        return Ok(Stmt::CreateIndex(index));
    }
    let (group, _) = read_group(r)?;
    Ok(Stmt::CreateGroup(group))
}

// Reads what stands behind DROP.
#[tactic(auto, unfolding(crate::specs::Statements::drop_of))]
fn read_drop(r: Reader<'_>) -> Result<Stmt, AllocError>
    ensures { IfOk result (λ x. x ≡ drop_of r.entry) }
{
    if r.begins(Kind::Index) {
        let (index, _) = read_identifier(r.skip(1))?;
        return Ok(Stmt::DropIndex(index));
    }
    let (group, _) = read_name(r.skip(2))?;
    Ok(Stmt::DropGroup(group))
}

#[tactic(auto, unfolding(crate::specs::Statements::group_statement_of))]
fn read_group_statement(r: Reader<'_>) -> Result<Stmt, AllocError>
    ensures { IfOk result (λ x. x ≡ group_statement_of r.entry) }
{
    if r.begins(Kind::Load) {
        let (load, _) = read_load(r.skip(1))?;
        return Ok(Stmt::Load(load));
    }
    if r.begins(Kind::Refresh) {
        let (load, _) = read_load(r.skip(1))?;
        return Ok(Stmt::Refresh(load));
    }
    if r.begins(Kind::Unload) {
        let unload = read_of_group(r.skip(1))?;
        return Ok(Stmt::Unload(unload));
    }
    if r.begins(Kind::Flush) {
        let flush = read_of_group(r.skip(1))?;
        return Ok(Stmt::Flush(flush));
    }
    let alter = read_alter(r.skip(1))?;
    Ok(Stmt::Alter(alter))
}

// Whether a write stands in front.
fn at_write(r: &Reader<'_>) -> bool
    ensures { result ≡ at_write r.now }
{
    r.begins(Kind::Insert) || r.begins(Kind::Update) || r.begins(Kind::Delete)
}

/// Reads a statement of a session.
#[tactic(auto, unfolding(crate::specs::Statements::statement_of))]
pub fn read_statement(r: Reader<'_>) -> Result<Stmt, AllocError>
    ensures { IfOk result (λ x. x ≡ statement_of r.entry) }
{
    if r.begins(Kind::Select) {
        let (query, _) = read_query(r.skip(1))?;
        return Ok(Stmt::Select(query));
    }
    if at_write(&r) {
        let (write, _) = read_write(r)?;
        return Ok(Stmt::Write(write));
    }
    if r.begins(Kind::Create) {
        return read_create(r.skip(1));
    }
    if r.begins(Kind::Drop) {
        return read_drop(r.skip(1));
    }
    if r.begins(Kind::Call) {
        let (procedure, rest) = read_name(r.skip(1))?;
        return read_call(procedure, rest);
    }
    if r.begins(Kind::Commit) {
        return Ok(Stmt::Commit);
    }
    if r.begins(Kind::Rollback) {
        return Ok(Stmt::Rollback);
    }
    read_group_statement(r)
}

fn digit_of(kind: Kind) -> u8
    ensures { result ≡ digit_of kind }
{
    if is_kind(kind, Kind::Zero) {
        return 0;
    }
    if is_kind(kind, Kind::One) {
        return 1;
    }
    if is_kind(kind, Kind::Two) {
        return 2;
    }
    3
}

fn read_passthrough(r: Reader<'_>) -> (u8, Reader<'_>)
    ensures { passthrough_of r.entry ≡ (result.0, result.1) }
{
    if r.begins(Kind::Passthrough) {
        let digit = r.skip(1);
        return (digit_of(digit.first_kind()), digit.skip(1));
    }
    (0, r)
}

fn read_open(r: Reader<'_>) -> OpenOptions
    ensures { result ≡ open_with (passthrough_of r.entry) }
{
    let (passthrough, rest) = read_passthrough(r);
    let durable = rest.begins(Kind::Durable) && rest.skip(1).begins(Kind::One);
    OpenOptions {
        passthrough,
        durable,
    }
}

/// Reads a request of a session.
pub fn read_request(r: Reader<'_>) -> Result<Request, AllocError>
    ensures { IfOk result (λ x. x ≡ request_of r.entry) }
{
    if r.begins(Kind::Open) {
        return Ok(Request::Open(read_open(r.skip(1))));
    }
    if r.begins(Kind::Close) {
        return Ok(Request::Close);
    }
    let statement = read_statement(r)?;
    Ok(Request::Statement(statement))
}

/// Reads what is added to the clock.
pub fn read_clock(r: Reader<'_>) -> u64
    ensures { result ≡ clock_of r.entry }
{
    let count = r.skip(1);
    number_of(count.text())
}
