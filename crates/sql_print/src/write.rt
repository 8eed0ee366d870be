//! Statements that write rows, behind what is printed so far.
ghost use Rattle.std.specs.Prelude.{◌≡◌, ◌++◌, ◌∷◌, [], OnOk, codes};
ghost use Rattle.sql_subset.specs.sql_query.specs.declared.write.Write.TheVariants.{Insert as InsertOf};
ghost use Rattle.sql_print.specs.Printed.{more_write_words};
ghost use Rattle.sql_print.specs.Queries.{assignment_words, insert_column_words, write_rest_words, write_words};
ghost use Rattle.sql_words.specs.Words.{joined, listed, more, spaced};

use sql_subset::sql_query::{Assignment, Insert, Write};
use sql_subset::tier_base::{Name, Seq};
use sql_words::condition::put_filter;
use sql_words::expression::{put_expression, put_expressions};
use sql_words::word::{put, put_name, put_names};
use std::alloc::AllocError;

fn put_insert_columns(out: &mut Vec<u8>, columns: &Option<Seq<Name>>) -> Result<(), AllocError>
    ensures { OnOk result (out.new.items ≡ out.old.items ++ spaced (insert_column_words columns.now)) }
{
    match columns {
        None => Ok(()),
        Some(names) => put_names(out, names.as_slice()),
    }
}

fn put_insert(out: &mut Vec<u8>, insert: &Insert) -> Result<(), AllocError>
    ensures { OnOk result (out.new.items ≡ out.old.items ++ spaced (write_rest_words (InsertOf insert.now))) }
{
    put_name(out, &insert.table)?;
    put_insert_columns(out, &insert.columns)?;
    put(out, b"VALUES")?;
    put_expressions(out, insert.values.as_slice())
}

fn put_assignment(out: &mut Vec<u8>, assignment: &Assignment) -> Result<(), AllocError>
    ensures { OnOk result (out.new.items ≡ out.old.items ++ spaced (assignment_words assignment.now)) }
{
    put(out, assignment.column.as_bytes())?;
    put(out, b"=")?;
    put_expression(out, &assignment.value)
}

/// Puts a comma and an assignment for each.
fn put_more_assignments(out: &mut Vec<u8>, assignments: &[Assignment]) -> Result<(), AllocError>
    ensures { OnOk result (out.new.items ≡ out.old.items ++ spaced (more assignment_words assignments.now)) }
{
    for assignment in assignments {
        put(out, b",")?;
        put_assignment(out, assignment)?;
    }
    Ok(())
}

fn put_assignments(out: &mut Vec<u8>, assignments: &[Assignment]) -> Result<(), AllocError>
    ensures { OnOk result (out.new.items ≡ out.old.items ++ spaced (listed assignment_words assignments.now)) }
{
    match assignments.split_first() {
        None => Ok(()),
        Some((first, rest)) => {
            put_assignment(out, first)?;
            put_more_assignments(out, rest)
        }
    }
}

/// The words with which a write begins.
pub fn first_write_words(write: &Write) -> &'static [u8]
    ensures begins { joined (write_words write.now) ≡ result.now ++ spaced (write_rest_words write.now) }
    ensures first { spaced (write_words write.now) ≡ 32 ∷ result.now ++ spaced (write_rest_words write.now) }
{
    match write {
        Write::Insert(_) => b"INSERT INTO",
        Write::Update(_) => b"UPDATE",
        Write::Delete(_) => b"DELETE FROM",
    }
}

/// Puts the words behind those.
pub fn put_write_rest(out: &mut Vec<u8>, write: &Write) -> Result<(), AllocError>
    ensures { OnOk result (out.new.items ≡ out.old.items ++ spaced (write_rest_words write.now)) }
{
    match write {
        Write::Insert(insert) => put_insert(out, insert),
        Write::Update(update) => {
            put_name(out, &update.table)?;
            put(out, b"SET")?;
            put_assignments(out, update.assignments.as_slice())?;
            put_filter(out, &update.filter)
        }
        Write::Delete(delete) => {
            put_name(out, &delete.table)?;
            put_filter(out, &delete.filter)
        }
    }
}

fn put_write(out: &mut Vec<u8>, write: &Write) -> Result<(), AllocError>
    ensures { OnOk result (out.new.items ≡ out.old.items ++ spaced (write_words write.now)) }
{
    put(out, first_write_words(write))?;
    put_write_rest(out, write)
}

/// Puts a `;` and a write for each.
pub fn put_more_writes(out: &mut Vec<u8>, writes: &[Write]) -> Result<(), AllocError>
    ensures { OnOk result (out.new.items ≡ out.old.items ++ spaced (more_write_words writes.now)) }
{
    for write in writes {
        put(out, b";")?;
        put_write(out, write)?;
    }
    Ok(())
}
