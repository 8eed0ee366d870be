//! What the names of a write stand for.

ghost use Rattle.std.specs.Prelude.{◌≡◌, ◌&&◌, ◌||◌, [], IfOk, OnOk, map};
ghost use Rattle.evaluator.specs.tier_base.specs.declared.code.Code.TheVariants.{KeyColumnSet};
ghost use Rattle.evaluator.specs.Rules.{unless};
ghost use Rattle.evaluator.specs.expressions.specs.Types.{family_of};
ghost use Rattle.resolution.specs.Literals.{some_unheld};
ghost use Rattle.resolution.specs.Placing.{expressions_seen, filter_seen};
ghost use Rattle.resolution.specs.Assignments.{arranged, key_column_of, suit_columns};
ghost use Rattle.resolution.specs.Results.{Gives, judged, then_make};
ghost use Rattle.resolution.specs.Scopes.{columns_seen, families, shown};
ghost use Rattle.resolution.specs.WrittenTypes.{has_sound_filter, written_families};
ghost use Rattle.resolution.specs.Writes.{Delete as DeleteOf, Insert as InsertOf, Update as UpdateOf, action_seen, all_sound, assignments_behind, assignments_seen, change_of, change_seen, changes_seen, named_action, named_delete, named_insert, named_update, named_write, named_writes, no_assignments, nulls, resolved_write, resolved_writes, sound_with, table_of, unchanged, values_set};

use crate::assigning::{
    all_places, arranged, insert_targets, key_column_of, suit_columns, target_of,
};
use crate::placing::{has_sound_filter, place_expression, place_filter, place_list};
use crate::refusing::{about, mismatch, no_type, rule_about};
use crate::resolved::Judged;
use crate::scope::{Seen, columns_seen, families};
use evaluator::expressions::{Cond, Expr};
use evaluator::row_types::{Column, Refused, Value};
use evaluator::table_defs::{BackingSchema, TableDef, find_table};
use evaluator::tier_base::{Code, Name, Seq, TableId};
use evaluator::{Action, Change};
use sql_query::{Assignment, Delete, Insert, Update, Write};
use std::alloc::{AllocError, Global};

/// The write with places in place of names, over the tables of the schema.
///
/// The refusal is the first broken rule: 102 where there is no such table; 103 of the first name, in the order of the
/// text, that fits no column, or that the column list or SET names a second time; 118 of the first column of the
/// primary key that SET names; 104 where types don't suit, or there are more or fewer values than columns; 105 where no
/// type holds some literal. Or memory was wanting. Nothing is changed in any case. A column that an INSERT doesn't name
/// is NULL. (TimesTen SQL Reference, "INSERT", "UPDATE", "DELETE"; codes and their order are this project's rule.)
pub fn resolve_write(
    alloc: Global,
    schema: &BackingSchema,
    write: &Write,
) -> Result<Change, Refused>
    ensures { Gives change_seen (resolved_write schema.now write.now) result }
{
    let change = name_write(alloc, schema, write)?;
    change.map_err(Refused::Rule)
}

/// Several writes with places in place of names, in their order, as of one transaction.
///
/// The refusal is the first broken rule, but all names come before all types: 102 and 103 of the first write, then
/// those of the second, and so on; where all names are known, 118, 104 and 105 of the first write, then those of the
/// second, and so on. Or memory was wanting. Nothing is changed in any case. (The codes and their order are this
/// project's rule.)
pub fn resolve_writes(
    alloc: Global,
    schema: &BackingSchema,
    writes: &[Write],
) -> Result<Seq<Change>, Refused>
    ensures { Gives changes_seen (resolved_writes schema.now writes.now) result }
{
    let named = name_writes(alloc, schema, writes)?;
    let changes = all_sound(alloc, named)?;
    changes.map_err(Refused::Rule)
}

// The writes whose names are known, one after the other.
fn name_writes(
    alloc: Global,
    schema: &BackingSchema,
    writes: &[Write],
) -> Result<Vec<Judged<Change>>, Refused>
    ensures { Gives (λ named. map (then_make change_seen) named.items) (named_writes schema.now writes.now) result }
{
    let mut named = Vec::with_capacity(alloc, writes.len())?;
    for write in writes {
        let change = name_write(alloc, schema, write)?;
        named.push(change).map_err(AllocError::from)?;
    }
    Ok(named)
}

// All of them, or what the first that isn't sound breaks.
fn all_sound(alloc: Global, named: Vec<Judged<Change>>) -> Result<Judged<Seq<Change>>, AllocError>
    ensures { IfOk result (λ sound. then_make changes_seen sound
        ≡ all_sound (map (then_make change_seen) named.items)) }
{
    let mut sound = Ok(Seq::new(alloc));
    for change in named {
        sound = with_change(sound, change)?;
    }
    Ok(sound)
}

// One more write behind those that are sound.
fn with_change(
    sound: Judged<Seq<Change>>,
    change: Judged<Change>,
) -> Result<Judged<Seq<Change>>, AllocError>
    ensures { IfOk result (λ more. then_make changes_seen more
        ≡ sound_with (then_make changes_seen sound) (then_make change_seen change)) }
{
    match (sound, change) {
        (Err(rule), _) => Ok(Err(rule)),
        (Ok(_), Err(rule)) => Ok(Err(rule)),
        (Ok(mut changes), Ok(change)) => {
            changes.push(change)?;
            Ok(Ok(changes))
        }
    }
}

// The write with its names found, and what is judged of it.
#[tactic(auto, unfolding(crate::specs::Writes::named_write))]
fn name_write(
    alloc: Global,
    schema: &BackingSchema,
    write: &Write,
) -> Result<Judged<Change>, Refused>
    ensures { Gives (then_make change_seen) (named_write schema.now write.now) result }
{
    let name = table_of(write);
    match find_table(schema, name) {
        None => Err(about(alloc, Code::UnknownTable, name)),
        Some(table) => match schema.get(table.0 as usize) {
            None => Err(about(alloc, Code::UnknownTable, name)),
            Some(def) => {
                let action = name_action(alloc, def, write)?;
                Ok(change_of(table, action))
            }
        },
    }
}

fn change_of(table: TableId, action: Judged<Action>) -> Judged<Change>
    ensures { then_make change_seen result ≡ then_make (change_of table) (then_make action_seen action) }
{
    match action {
        Err(rule) => Err(rule),
        Ok(action) => Ok(Change { table, action }),
    }
}

fn table_of(write: &Write) -> &Name
    ensures { result.now ≡ table_of write.now }
{
    match write {
        Write::Insert(insert) => &insert.table,
        Write::Update(update) => &update.table,
        Write::Delete(delete) => &delete.table,
    }
}

#[tactic(auto, unfolding(crate::specs::Writes::named_action))]
fn name_action(alloc: Global, def: &TableDef, write: &Write) -> Result<Judged<Action>, Refused>
    ensures { Gives (then_make action_seen) (named_action def.now write.now) result }
{
    match write {
        Write::Insert(insert) => name_insert(alloc, def.columns.as_slice(), insert),
        Write::Update(update) => name_update(alloc, def, update),
        Write::Delete(delete) => name_delete(alloc, def, delete),
    }
}

fn name_update(alloc: Global, def: &TableDef, update: &Update) -> Result<Judged<Action>, Refused>
    ensures { Gives (then_make action_seen) (named_update def.now
        (columns_seen update.now.table def.now.columns) update.now) result }
{
    let scope = columns_seen(alloc, &update.table, def.columns.as_slice())?;
    name_update_in(alloc, def, scope.as_slice(), update)
}

fn name_delete(alloc: Global, def: &TableDef, delete: &Delete) -> Result<Judged<Action>, Refused>
    ensures { Gives (then_make action_seen) (named_delete (columns_seen delete.now.table def.now.columns) delete.now)
        result }
{
    let scope = columns_seen(alloc, &delete.table, def.columns.as_slice())?;
    name_delete_in(alloc, scope.as_slice(), delete)
}

#[tactic(auto, unfolding(crate::specs::Writes::named_insert))]
fn name_insert(
    alloc: Global,
    columns: &[Column],
    insert: &Insert,
) -> Result<Judged<Action>, Refused>
    ensures { Gives (then_make action_seen) (named_insert columns.now insert.now) result }
{
    let targets = insert_targets(alloc, columns, &insert.columns)?;
    let mut unheld = false;
    let values = place_list(alloc, &[], insert.values.as_slice(), &mut unheld)?;
    let action = judge_insert(alloc, columns, targets, values, unheld)?;
    Ok(action)
}

fn judge_insert(
    alloc: Global,
    columns: &[Column],
    targets: Vec<usize>,
    values: Vec<Expr>,
    unheld: bool,
) -> Result<Judged<Action>, AllocError>
    ensures { IfOk result (λ action. then_make action_seen action
        ≡ judged (suit_columns columns.now targets.items (map (λ e. family_of e []) values.items)) unheld
        (InsertOf (arranged (nulls columns.now) targets.items (expressions_seen values.items)))) }
{
    let targets = targets.as_slice();
    if !suit_columns(columns, targets, values.as_slice(), &[]) {
        return Ok(Err(mismatch()));
    }
    if unheld {
        return Ok(Err(no_type()));
    }
    let row = nulls(alloc, columns)?;
    let row = arranged(row, targets, values);
    Ok(Ok(Action::Insert(Seq::from_vec(row))))
}

fn nulls(alloc: Global, columns: &[Column]) -> Result<Vec<Expr>, AllocError>
    ensures { IfOk result (λ row. expressions_seen row.items ≡ nulls columns.now) }
{
    let mut row = Vec::with_capacity(alloc, columns.len())?;
    for _column in columns {
        row.push(Expr::literal(Value::Null))?;
    }
    Ok(row)
}

fn unchanged(alloc: Global, columns: &[Column]) -> Result<Vec<Expr>, AllocError>
    ensures { IfOk result (λ row. expressions_seen row.items ≡ unchanged 0 columns.now) }
{
    let places = all_places(alloc, columns)?;
    let mut row = Vec::with_capacity(alloc, places.len())?;
    for place in &places {
        row.push(Expr::column(*place))?;
    }
    Ok(row)
}

/// What SET sets, with what.
#[derive(Drop)]
struct Assignments {
    targets: Vec<usize>,
    values: Vec<Expr>,
}

/// Each SET column with its expression. `unheld` becomes true where no type holds some literal.
///
/// The refusal is 103 of the first name that is no column's, stands a second time before `=`, or fits no column or two;
/// or memory was wanting.
fn place_assignments(
    alloc: Global,
    columns: &[Column],
    scope: &[Seen<'_>],
    assignments: &[Assignment],
    unheld: &mut bool,
) -> Result<Assignments, Refused>
    ensures placed { Gives assignments_seen (assignments_behind columns.now
        (shown scope.now) no_assignments assignments.now) result }
    ensures typed { IfOk result (λ a. map (λ e. family_of e (families (shown scope.now))) a.values.items
        ≡ written_families (shown scope.now) (values_set assignments.now)) }
    ensures held { OnOk result (unheld.new ≡ unheld.old || some_unheld (values_set assignments.now)) }
{
    let mut targets = Vec::with_capacity(alloc, assignments.len())?;
    let mut values = Vec::with_capacity(alloc, assignments.len())?;
    for assignment in assignments {
        let place = target_of(alloc, columns, targets.as_slice(), &assignment.column)?;
        let value = place_expression(alloc, scope, &assignment.value, unheld)?;
        targets.push(place).map_err(AllocError::from)?;
        values.push(value).map_err(AllocError::from)?;
    }
    Ok(Assignments { targets, values })
}

#[tactic(auto, unfolding(crate::specs::Writes::named_update))]
fn name_update_in(
    alloc: Global,
    def: &TableDef,
    scope: &[Seen<'_>],
    update: &Update,
) -> Result<Judged<Action>, Refused>
    ensures { Gives (then_make action_seen) (named_update def.now (shown scope.now) update.now) result }
{
    let columns = def.columns.as_slice();
    let mut unheld = false;
    let list = update.assignments.as_slice();
    let set = place_assignments(alloc, columns, scope, list, &mut unheld)?;
    let filter = place_filter(alloc, scope, &update.filter, &mut unheld)?;
    let action = judge_update(alloc, def, scope, set, filter, unheld)?;
    Ok(action)
}

fn judge_update(
    alloc: Global,
    def: &TableDef,
    scope: &[Seen<'_>],
    set: Assignments,
    filter: Option<Cond>,
    unheld: bool,
) -> Result<Judged<Action>, AllocError>
    ensures { IfOk result (λ action. then_make action_seen action
        ≡ unless KeyColumnSet (key_column_of def.now set.targets.items)
        (judged (suit_columns def.now.columns set.targets.items
        (map (λ e. family_of e (families (shown scope.now))) set.values.items)
        && has_sound_filter filter (families (shown scope.now))) unheld
        (UpdateOf (arranged (unchanged 0 def.now.columns) set.targets.items (expressions_seen set.values.items))
        (filter_seen filter)))) }
{
    let Assignments { targets, values } = set;
    let targets = targets.as_slice();
    if let Some(name) = key_column_of(def, targets) {
        let rule = rule_about(alloc, Code::KeyColumnSet, name)?;
        return Ok(Err(rule));
    }
    let columns = def.columns.as_slice();
    let families = families(alloc, scope)?;
    let families = families.as_slice();
    let suit = suit_columns(columns, targets, values.as_slice(), families);
    let sound = suit && has_sound_filter(&filter, families);
    update_row(alloc, columns, targets, values, filter, sound, unheld)
}

fn update_row(
    alloc: Global,
    columns: &[Column],
    targets: &[usize],
    values: Vec<Expr>,
    filter: Option<Cond>,
    sound: bool,
    unheld: bool,
) -> Result<Judged<Action>, AllocError>
    ensures { IfOk result (λ action. then_make action_seen action
        ≡ judged sound unheld (UpdateOf (arranged (unchanged 0 columns.now) targets.now (expressions_seen values.items))
        (filter_seen filter))) }
{
    if !sound {
        return Ok(Err(mismatch()));
    }
    if unheld {
        return Ok(Err(no_type()));
    }
    let row = unchanged(alloc, columns)?;
    let row = arranged(row, targets, values);
    Ok(Ok(Action::Update(Seq::from_vec(row), filter)))
}

#[tactic(auto, unfolding(crate::specs::Writes::named_delete))]
fn name_delete_in(
    alloc: Global,
    scope: &[Seen<'_>],
    delete: &Delete,
) -> Result<Judged<Action>, Refused>
    ensures { Gives (then_make action_seen) (named_delete (shown scope.now) delete.now) result }
{
    let mut unheld = false;
    let filter = place_filter(alloc, scope, &delete.filter, &mut unheld)?;
    let action = judge_delete(alloc, scope, filter, unheld)?;
    Ok(action)
}

fn judge_delete(
    alloc: Global,
    scope: &[Seen<'_>],
    filter: Option<Cond>,
    unheld: bool,
) -> Result<Judged<Action>, AllocError>
    ensures { IfOk result (λ action. then_make action_seen action
        ≡ judged (has_sound_filter filter (families (shown scope.now))) unheld (DeleteOf (filter_seen filter))) }
{
    let families = families(alloc, scope)?;
    if !has_sound_filter(&filter, families.as_slice()) {
        return Ok(Err(mismatch()));
    }
    if unheld {
        return Ok(Err(no_type()));
    }
    Ok(Ok(Action::Delete(filter)))
}
