//! Statements that write rows, read off the tokens of a line.
ghost use Rattle.std.specs.Prelude.{◌≡◌, IfOk};
ghost use Rattle.sql_phrases.specs.Writes.{assignment_of, assignments_of, delete_of, insert_columns_of, insert_of, update_of, write_of};

use crate::conditions::read_filter;
use crate::expression::{read_expression, read_expressions};
use crate::reader::Reader;
use crate::reading::{read_identifier, read_identifiers, read_name};
use sql_grammar::sql_tokens::kind::Kind;
use sql_query::tier_base::{Name, Seq};
use sql_query::{Assignment, Delete, Insert, Update, Write};
use std::alloc::AllocError;

fn read_insert_columns(r: Reader<'_>) -> Result<(Option<Seq<Name>>, Reader<'_>), AllocError>
    ensures { IfOk result (λ x. insert_columns_of r.entry ≡ (x.0, x.1)) }
{
    if r.begins(Kind::OpenParen) {
        let (columns, rest) = read_identifiers(r.skip(1))?;
        return Ok((Some(columns), rest.skip(1)));
    }
    Ok((None, r))
}

// Reads what stands behind INSERT.
#[tactic(auto, unfolding(crate::specs::Writes::insert_of))]
fn read_insert(r: Reader<'_>) -> Result<(Insert, Reader<'_>), AllocError>
    ensures { IfOk result (λ x. insert_of r.entry ≡ (x.0, x.1)) }
{
    let (table, rest) = read_name(r.skip(1))?;
    let (columns, rest) = read_insert_columns(rest)?;
    let (values, rest) = read_expressions(rest.skip(2))?;
    Ok((
        Insert {
            table,
            columns,
            values,
        },
        rest.skip(1),
    ))
}

fn read_assignment(r: Reader<'_>) -> Result<(Assignment, Reader<'_>), AllocError>
    ensures { IfOk result (λ x. assignment_of r.entry ≡ (x.0, x.1)) }
{
    let (column, rest) = read_identifier(r)?;
    let (value, rest) = read_expression(rest.skip(1))?;
    Ok((Assignment { column, value }, rest))
}

fn read_assignments(r: Reader<'_>) -> Result<(Seq<Assignment>, Reader<'_>), AllocError>
    ensures { IfOk result (λ x. assignments_of r.entry ≡ (x.0, x.1)) }
{
    let mut assignments = Vec::new(r.alloc());
    let (first, mut rest) = read_assignment(r)?;
    assignments.push(first)?;
    while rest.begins(Kind::Comma) {
        let (assignment, behind) = read_assignment(rest.skip(1))?;
        assignments.push(assignment)?;
        rest = behind;
    }
    Ok((Seq::from_vec(assignments), rest))
}

// Reads what stands behind UPDATE.
#[tactic(auto, unfolding(crate::specs::Writes::update_of))]
fn read_update(r: Reader<'_>) -> Result<(Update, Reader<'_>), AllocError>
    ensures { IfOk result (λ x. update_of r.entry ≡ (x.0, x.1)) }
{
    let (table, rest) = read_name(r)?;
    let (assignments, rest) = read_assignments(rest.skip(1))?;
    let (filter, rest) = read_filter(rest)?;
    Ok((
        Update {
            table,
            assignments,
            filter,
        },
        rest,
    ))
}

// Reads what stands behind DELETE.
#[tactic(auto, unfolding(crate::specs::Writes::delete_of))]
fn read_delete(r: Reader<'_>) -> Result<(Delete, Reader<'_>), AllocError>
    ensures { IfOk result (λ x. delete_of r.entry ≡ (x.0, x.1)) }
{
    let (table, rest) = read_name(r.skip(1))?;
    let (filter, rest) = read_filter(rest)?;
    Ok((Delete { table, filter }, rest))
}

/// Reads a statement that writes rows.
#[tactic(auto, unfolding(crate::specs::Writes::write_of))]
pub fn read_write(r: Reader<'_>) -> Result<(Write, Reader<'_>), AllocError>
    ensures { IfOk result (λ x. write_of r.entry ≡ (x.0, x.1)) }
{
    if r.begins(Kind::Insert) {
        let (insert, rest) = read_insert(r.skip(1))?;
        return Ok((Write::Insert(insert), rest));
    }
    if r.begins(Kind::Update) {
        let (update, rest) = read_update(r.skip(1))?;
        return Ok((Write::Update(update), rest));
    }
    let (delete, rest) = read_delete(r.skip(1))?;
    Ok((Write::Delete(delete), rest))
}
