//! Statements as text.
ghost use Rattle.std.specs.Prelude.{◌≡◌, IfOk};
ghost use Rattle.sql_print.specs.Printed.{printed, printed_table, printed_writes};

use crate::statement::{first_words, put_rest};
use crate::write::{first_write_words, put_more_writes, put_write_rest};
use sql_subset::row_types::{TableDeclaration, Text};
use sql_subset::sql_query::Write;
use sql_subset::stmt::Stmt;
use sql_words::table::put_table;
use std::alloc::{AllocError, Global};

/// The statement as text: its words in upper case with one space between each two, in its normal form.
///
/// The error is want of memory.
pub fn print(alloc: Global, s: &Stmt) -> Result<Text, AllocError>
    ensures { IfOk result (λ text. text ≡ printed s.now) }
{
    let mut out = Vec::from_slice(alloc, first_words(s))?;
    put_rest(alloc, &mut out, s)?;
    Ok(Text::from_vec(out))
}

/// The console's definition of the table as text, in its normal form: `CREATE TABLE` and the table.
///
/// The error is want of memory.
pub fn print_table(alloc: Global, table: &TableDeclaration) -> Result<Text, AllocError>
    ensures { IfOk result (λ text. text ≡ printed_table table.now) }
{
    let mut out = Vec::from_slice(alloc, b"CREATE TABLE")?;
    put_table(alloc, &mut out, table, None)?;
    Ok(Text::from_vec(out))
}

/// The console's writes as text, with `;` between each two; the empty text of none.
///
/// The error is want of memory.
pub fn print_writes(alloc: Global, writes: &[Write]) -> Result<Text, AllocError>
    ensures { IfOk result (λ text. text ≡ printed_writes writes.now) }
{
    match writes.split_first() {
        None => Ok(Text::from_vec(Vec::new(alloc))),
        Some((first, rest)) => {
            let mut out = Vec::from_slice(alloc, first_write_words(first))?;
            put_write_rest(&mut out, first)?;
            put_more_writes(&mut out, rest)?;
            Ok(Text::from_vec(out))
        }
    }
}
