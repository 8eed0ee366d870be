//! The answer to a query.

ghost use Rattle.std.specs.Prelude.{◌≡◌, ◌++◌, IfOk, OnOk};
ghost use Rattle.table_state.specs.Keyed.{IsKeyed};
ghost use Rattle.cache_tier.specs.Printing.{row_bytes, rows_bytes};
ghost use Rattle.cache_tier.specs.SelectSteps.{rows_reply};
ghost use Rattle.tier_statements.specs.Answering.{IsAnswerTo};

use cache_tier::reply::{Last, Reply};
use evaluator::{select, summarize};
use resolution::ResolvedQuery;
use row_types::{Refused, Row, print_values_into};
use std::alloc::{AllocError, Global};
use std::slice::from_ref;
use table_state::Scan;
use tier_base::Seq;

/// The rows that a query answers over what the session sees, as they are printed, and their number. A query for totals
/// answers one row.
///
/// The refusal is the first broken rule, as the evaluator tells it: 119 of the tables in FROM, 119 of their
/// combinations, 120 of the condition or the select list in any combination, then 119 of the rows of the answer, or 120
/// of a sum; or memory was wanting. Nothing is changed in any case. (TimesTen SQL Reference, "SELECT", "Aggregate
/// functions".)
pub fn answer_query<S: Scan>(
    alloc: Global,
    scan: &S,
    query: &ResolvedQuery,
) -> Result<Reply, Refused>
    requires { IsKeyed (S.state scan.now) }
    ensures { IsAnswerTo query.now (S.state scan.now) result }
{
    match query {
        ResolvedQuery::Rows(plan) => {
            let rows = select(alloc, plan, scan)?;
            let reply = reply_of_rows(alloc, rows.as_slice())?;
            Ok(reply)
        }
        ResolvedQuery::Totals(totals, plan) => {
            let row = summarize(alloc, totals.as_slice(), plan, scan)?;
            let reply = reply_of_rows(alloc, from_ref(&row))?;
            Ok(reply)
        }
    }
}

// The reply that has these rows.
fn reply_of_rows(alloc: Global, rows: &[Row]) -> Result<Reply, AllocError>
    ensures { IfOk result (λ reply. reply ≡ rows_reply rows.now) }
{
    let printed = print_rows(alloc, rows)?;
    Ok(Reply {
        notes: Seq::new(alloc),
        rows: Seq::from_vec(printed),
        last: Last::Done(rows.len() as u64),
    })
}

// The rows as they are printed, one behind the other, in one buffer.
fn print_rows(alloc: Global, rows: &[Row]) -> Result<Vec<u8>, AllocError>
    ensures { IfOk result (λ out. out.items ≡ rows_bytes rows.now) }
{
    let mut out = Vec::new(alloc);
    for row in rows {
        print_row_into(&mut out, row)?;
    }
    Ok(out)
}

// Puts a row as it is printed behind what the buffer holds.
fn print_row_into(out: &mut Vec<u8>, row: &Row) -> Result<(), AllocError>
    ensures { OnOk result (out.new.items ≡ out.old.items ++ row_bytes row.now) }
{
    out.extend_from_slice(b"= ")?;
    print_values_into(out, row.values())?;
    out.push(b'\n')?;
    Ok(())
}
