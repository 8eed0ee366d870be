//! Statements behind what is printed so far, in their normal form.
ghost use Rattle.std.specs.Prelude.{◌≡◌, ◌++◌, ◌∷◌, [], OnOk, codes};
ghost use Rattle.sql_print.specs.Groups.{state_word};
ghost use Rattle.sql_print.specs.Normal.{normal};
ghost use Rattle.sql_print.specs.Statements.{argument_words, commit_words, id_words, index_words, load_words, of_group_words, parallel_words, rest_words, statement_words, which_words};
ghost use Rattle.sql_words.specs.Words.{joined, name_words, spaced};

use crate::group::{put_group, state_word};
use crate::query::put_query;
use crate::write::{first_write_words, put_write_rest};
use sql_subset::sql_query::Literal;
use sql_subset::stmt::{Alter, Call, CreateIndex, Load, OfGroup, Stmt, Which};
use sql_subset::tier_base::Seq;
use sql_words::condition::put_filter;
use sql_words::literal::put_literals;
use sql_words::word::{put, put_name, put_names, put_number};
use std::alloc::{AllocError, Global};

fn put_id(out: &mut Vec<u8>, id: &Option<Seq<Literal>>) -> Result<(), AllocError>
    ensures { OnOk result (out.new.items ≡ out.old.items ++ spaced (id_words id.now)) }
{
    match id {
        None => Ok(()),
        Some(literals) => {
            put(out, b"WITH ID")?;
            put_literals(out, literals.as_slice())
        }
    }
}

fn put_which(out: &mut Vec<u8>, which: &Which) -> Result<(), AllocError>
    ensures { OnOk result (out.new.items ≡ out.old.items ++ spaced (which_words which.now)) }
{
    put_filter(out, &which.filter)?;
    put_id(out, &which.id)
}

fn put_commit_every(out: &mut Vec<u8>, rows: Option<u64>) -> Result<(), AllocError>
    ensures { OnOk result (out.new.items ≡ out.old.items ++ spaced (commit_words rows)) }
{
    let Some(rows) = rows else {
        return Ok(());
    };
    put(out, b"COMMIT EVERY")?;
    put_number(out, rows)?;
    put(out, b"ROWS")
}

fn put_parallel(out: &mut Vec<u8>, threads: Option<u64>) -> Result<(), AllocError>
    ensures { OnOk result (out.new.items ≡ out.old.items ++ spaced (parallel_words threads)) }
{
    let Some(threads) = threads else {
        return Ok(());
    };
    put(out, b"PARALLEL")?;
    put_number(out, threads)
}

fn put_load(out: &mut Vec<u8>, load: &Load) -> Result<(), AllocError>
    ensures { OnOk result (out.new.items ≡ out.old.items ++ spaced (load_words load.now)) }
{
    put_name(out, &load.group)?;
    put_which(out, &load.which)?;
    put_commit_every(out, load.commit_every)?;
    put_parallel(out, load.parallel)
}

fn put_of_group(out: &mut Vec<u8>, statement: &OfGroup) -> Result<(), AllocError>
    ensures { OnOk result (out.new.items ≡ out.old.items ++ spaced (of_group_words statement.now)) }
{
    put_name(out, &statement.group)?;
    put_which(out, &statement.which)
}

fn put_index(out: &mut Vec<u8>, index: &CreateIndex) -> Result<(), AllocError>
    ensures { OnOk result (out.new.items ≡ out.old.items ++ spaced (index_words index.now)) }
{
    put(out, index.name.as_bytes())?;
    put(out, b"ON")?;
    put_name(out, &index.table)?;
    put_names(out, index.columns.as_slice())
}

fn put_alter(out: &mut Vec<u8>, alter: &Alter) -> Result<(), AllocError>
    ensures { OnOk result (out.new.items ≡ out.old.items
        ++ spaced (name_words alter.now.group ++ codes "SET" ∷ codes "AUTOREFRESH" ∷ codes "STATE"
        ∷ state_word alter.now.state ∷ [])) }
{
    put_name(out, &alter.group)?;
    put(out, b"SET AUTOREFRESH STATE")?;
    put(out, state_word(alter.state))
}

fn put_arguments(out: &mut Vec<u8>, arguments: &[Literal]) -> Result<(), AllocError>
    ensures { OnOk result (out.new.items ≡ out.old.items ++ spaced (argument_words arguments.now)) }
{
    if arguments.is_empty() {
        return Ok(());
    }
    put_literals(out, arguments)
}

fn put_call(out: &mut Vec<u8>, call: &Call) -> Result<(), AllocError>
    ensures { OnOk result (out.new.items ≡ out.old.items
        ++ spaced (name_words call.now.procedure ++ argument_words call.now.arguments)) }
{
    put_name(out, &call.procedure)?;
    put_arguments(out, call.arguments.as_slice())
}

/// The words with which the statement begins.
pub fn first_words(s: &Stmt) -> &'static [u8]
    ensures { joined (statement_words (normal s.now)) ≡ result.now ++ spaced (rest_words (normal s.now)) }
{
    match s {
        Stmt::Select(_) => b"SELECT",
        Stmt::Write(write) => first_write_words(write),
        Stmt::CreateGroup(_) => b"CREATE",
        Stmt::CreateIndex(_) => b"CREATE INDEX",
        Stmt::Load(_) => b"LOAD CACHE GROUP",
        Stmt::Refresh(_) => b"REFRESH CACHE GROUP",
        Stmt::Unload(_) => b"UNLOAD CACHE GROUP",
        Stmt::Flush(_) => b"FLUSH CACHE GROUP",
        Stmt::Alter(_) => b"ALTER CACHE GROUP",
        Stmt::DropGroup(_) => b"DROP CACHE GROUP",
        Stmt::DropIndex(_) => b"DROP INDEX",
        Stmt::Call(_) => b"CALL",
        Stmt::Commit => b"COMMIT",
        Stmt::Rollback => b"ROLLBACK",
    }
}

/// Puts the words behind those.
pub fn put_rest(alloc: Global, out: &mut Vec<u8>, s: &Stmt) -> Result<(), AllocError>
    ensures { OnOk result (out.new.items ≡ out.old.items ++ spaced (rest_words (normal s.now))) }
{
    match s {
        Stmt::Select(query) => put_query(out, query),
        Stmt::Write(write) => put_write_rest(out, write),
        Stmt::CreateGroup(group) => put_group(alloc, out, group),
        Stmt::CreateIndex(index) => put_index(out, index),
        Stmt::Load(load) => put_load(out, load),
        Stmt::Refresh(load) => put_load(out, load),
        Stmt::Unload(statement) => put_of_group(out, statement),
        Stmt::Flush(statement) => put_of_group(out, statement),
        Stmt::Alter(alter) => put_alter(out, alter),
        Stmt::DropGroup(name) => put_name(out, name),
        Stmt::DropIndex(name) => put(out, name.as_bytes()),
        Stmt::Call(call) => put_call(out, call),
        Stmt::Commit => Ok(()),
        Stmt::Rollback => Ok(()),
    }
}
