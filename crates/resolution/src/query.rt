//! What the names of a query stand for.

ghost use Rattle.std.specs.Prelude.{◌≡◌, ◌&&◌, IfOk, [], map};
ghost use Rattle.evaluator.specs.expressions.specs.Types.{family_of};
ghost use Rattle.resolution.specs.Placing.{expressions_seen, filter_seen};
ghost use Rattle.resolution.specs.Queries.{planned, query_seen, resolved_in, resolved_query, suits_families};
ghost use Rattle.resolution.specs.Results.{Gives, judged};
ghost use Rattle.resolution.specs.Scopes.{families, shown};
ghost use Rattle.resolution.specs.WrittenTypes.{has_sound_filter};

use crate::listing::{descending_of, place_order, place_selected, suits_families, totals_of};
use crate::placing::{has_sound_filter, place_filter};
use crate::refusing::{mismatch, no_type};
use crate::resolved::ResolvedQuery;
use crate::scope::{Seen, families, scope_of, tables_of};
use evaluator::Plan;
use evaluator::expressions::{Cond, Expr};
use evaluator::row_types::Refused;
use evaluator::table_defs::BackingSchema;
use evaluator::tier_base::{Seq, TableId};
use sql_query::{Query, SelectList};
use std::alloc::{AllocError, Global};

/// The query with places in place of names, over the tables of the schema. It has no GROUP BY, which isn't done yet.
///
/// The refusal is the first broken rule: 102 of the first table in FROM that there isn't; 103 of the first name, in the
/// select list, then in WHERE, then in ORDER BY, that fits no column of these tables, or two; 104 where comparison,
/// arithmetic or SUM meets types that don't suit, or the list has expressions and aggregates; 105 where no type holds
/// some literal. Or memory was wanting. Nothing is changed in any case. (TimesTen SQL Reference, "SELECT"; codes and
/// their order are this project's rule.)
pub fn resolve_query(
    alloc: Global,
    schema: &BackingSchema,
    query: &Query,
) -> Result<ResolvedQuery, Refused>
    requires { query.now.groups ≡ [] }
    ensures { Gives query_seen (resolved_query schema.now query.now) result }
{
    let tables = tables_of(alloc, schema, query.tables.as_slice())?;
    let scope = scope_of(alloc, schema, query.tables.as_slice())?;
    resolve_in(alloc, tables, scope.as_slice(), query)
}

#[tactic(auto, unfolding(crate::specs::Queries::resolved_in))]
fn resolve_in(
    alloc: Global,
    tables: Seq<TableId>,
    scope: &[Seen<'_>],
    query: &Query,
) -> Result<ResolvedQuery, Refused>
    ensures { Gives query_seen (resolved_in tables (shown scope.now) query.now) result }
{
    let mut unheld = false;
    let listed = place_selected(alloc, scope, &query.selected, &mut unheld)?;
    let filter = place_filter(alloc, scope, &query.filter, &mut unheld)?;
    let order = place_order(alloc, scope, query.order.as_slice())?;
    let sound = is_sound(alloc, scope, &query.selected, listed.as_slice(), &filter)?;
    planned(alloc, tables, query, listed, filter, order, sound, unheld)
}

// Whether the select list and the condition keep the rule of types, as they were placed.
fn is_sound(
    alloc: Global,
    scope: &[Seen<'_>],
    selected: &SelectList,
    listed: &[Expr],
    filter: &Option<Cond>,
) -> Result<bool, AllocError>
    ensures { IfOk result (λ sound. sound ≡ (suits_families selected.now
        (map (λ e. family_of e (families (shown scope.now))) listed.now)
        && has_sound_filter filter.now (families (shown scope.now)))) }
{
    let families = families(alloc, scope)?;
    let families = families.as_slice();
    Ok(suits_families(selected, listed, families) && has_sound_filter(filter, families))
}

fn planned(
    alloc: Global,
    tables: Seq<TableId>,
    query: &Query,
    listed: Vec<Expr>,
    filter: Option<Cond>,
    order: Vec<usize>,
    sound: bool,
    unheld: bool,
) -> Result<ResolvedQuery, Refused>
    ensures { Gives query_seen (judged sound unheld
        (planned tables query.now (expressions_seen listed.items) (filter_seen filter) order.items)) result }
{
    if !sound {
        return Err(Refused::Rule(mismatch()));
    }
    if unheld {
        return Err(Refused::Rule(no_type()));
    }
    let descending = descending_of(alloc, query.order.as_slice())?;
    let totals = totals_of(alloc, &query.selected)?;
    let plan = Plan {
        tables,
        filter,
        listed: Seq::from_vec(listed),
        order: Seq::from_vec(order),
        descending: Seq::from_vec(descending),
    };
    Ok(match totals {
        None => ResolvedQuery::Rows(plan),
        Some(totals) => ResolvedQuery::Totals(totals, plan),
    })
}
