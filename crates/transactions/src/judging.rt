//! Whether an operation can be applied, over any tables that can be scanned.

ghost use Rattle.std.specs.Prelude.{◌≡◌, IfOk, None, Some, slice_get, if◌then◌else◌};
ghost use Rattle.std.specs.FinMap as map;
ghost use Rattle.evaluator.specs.row_types.specs.declared.rule.Detail.TheVariants as detail;
ghost use Rattle.evaluator.specs.tier_base.specs.declared.code.Code.TheVariants as code;
ghost use Rattle.evaluator.specs.table_state.specs.Independence.{IsWhole};
ghost use Rattle.evaluator.specs.table_state.specs.declared.refusal.ApplyError.TheVariants as error;
ghost use Rattle.evaluator.specs.table_state.specs.Refusals.{Judges, delete_fault, has_children, insert_fault, missing_parent, refused, row_of, update_fault};
ghost use Rattle.evaluator.specs.indexed_rows.specs.Rows.{is_same};
ghost use Rattle.evaluator.specs.table_state.specs.Tables.{is_found, table_at};
ghost use Rattle.evaluator.specs.table_state.specs.Keyed.{IsKeyed};
ghost use Rattle.transactions.specs.Judging.{broken_by_delete, broken_by_insert, broken_by_update};

use crate::children::first_child;
use evaluator::indexed_rows::key_at;
use evaluator::row_types::{Detail, Key, Row, Rule, order_of_values};
use evaluator::table_defs::TableDef;
use evaluator::table_state::{ApplyError, Scan, check_key_stays, check_row, key_of_row};
use evaluator::tier_base::{Code, TableId};
use std::alloc::{AllocError, Global};
use std::cmp::Ordering;

/// Whether a row can be inserted, without inserting it. So the operation of an INSERT is judged over rows that can't
/// be changed in place.
///
/// `ApplyError::Rule` tells the first rule that the operation breaks, as `Tables::apply_all` does: 102 without the
/// table; 104, 105 and 106 of a row that doesn't fit; 107 where its key has a row; 108 without its parent.
/// `ApplyError::Memory` may come at any time.
pub fn judge_insert<S: Scan>(
    alloc: Global,
    table: TableId,
    row: &Row,
    scan: &S,
) -> Result<(), ApplyError>
    requires { IsWhole (S.state scan.now) }
    ensures { Judges result (broken_by_insert table row.now (S.state scan.now)) }
{
    match scan.schema().get(table.0 as usize) {
        None => Err(broken(Code::UnknownTable, Detail::Nothing)),
        Some(def) => check_insert(alloc, scan, table, def, row),
    }
}

/// Whether a row can become another, without changing it.
///
/// `ApplyError::Rule` tells the first rule that the operation breaks, as `Tables::apply_all` does: 102 without the
/// table; 118 of a primary key that changes; 104, 105 and 106 of a new row that doesn't fit; 108 without its parent.
/// 107 can't come. `ApplyError::Differs` tells that the old row isn't there, and what is. `ApplyError::Memory` may come
/// at any time.
pub fn judge_update<S: Scan>(
    alloc: Global,
    table: TableId,
    old: &Row,
    new: &Row,
    scan: &S,
) -> Result<(), ApplyError>
    requires { IsWhole (S.state scan.now) }
    ensures { Judges result (broken_by_update table old.now new.now (S.state scan.now)) }
{
    match scan.schema().get(table.0 as usize) {
        None => Err(broken(Code::UnknownTable, Detail::Nothing)),
        Some(def) => check_update(alloc, scan, table, def, old, new),
    }
}

/// Whether a row can be deleted, without deleting it. Rows that refer to it aren't thought away.
///
/// `ApplyError::Rule` tells the first rule that the operation breaks, as `Tables::apply_all` does: 102 without the
/// table; 109 of a row with a child, with the child of the least key in the first such table. `ApplyError::Differs`
/// tells that the row isn't there, and what is. `ApplyError::Memory` may come at any time.
pub fn judge_delete<S: Scan>(
    alloc: Global,
    table: TableId,
    old: &Row,
    scan: &S,
) -> Result<(), ApplyError>
    requires whole { IsWhole (S.state scan.now) }
    requires keyed { IsKeyed (S.state scan.now) }
    ensures { Judges result (broken_by_delete table old.now (S.state scan.now)) }
{
    match scan.schema().get(table.0 as usize) {
        None => Err(broken(Code::UnknownTable, Detail::Nothing)),
        Some(def) => check_delete(alloc, scan, table, def, old),
    }
}

fn broken(code: Code, detail: Detail) -> ApplyError
    ensures { Some result ≡ refused code detail }
{
    ApplyError::Rule(Rule { code, detail })
}

fn check_insert<S: Scan>(
    alloc: Global,
    scan: &S,
    table: TableId,
    def: &TableDef,
    row: &Row,
) -> Result<(), ApplyError>
    ensures { Judges result (insert_fault (S.state scan.now) row.now def.now (table_at (S.state scan.now) table)) }
{
    check_row(alloc, def.columns.as_slice(), row)?;
    let key = key_of_row(alloc, def, row)?;
    check_new(alloc, scan, table, def, &key)?;
    check_parent(alloc, scan, def, row)
}

fn check_new<S: Scan>(
    alloc: Global,
    scan: &S,
    table: TableId,
    def: &TableDef,
    key: &Key,
) -> Result<(), ApplyError>
    ensures { Judges result (if map.contains_key (table_at (S.state scan.now) table) key.now then refused code.KeyExists
        (detail.Row def.now.name key.now) else None) }
{
    match scan.find(table, key) {
        None => Ok(()),
        Some(_) => {
            let name = def.name.copied(alloc)?;
            let key = key.copied(alloc)?;
            Err(broken(Code::KeyExists, Detail::Row(name, key)))
        }
    }
}

fn check_parent<S: Scan>(
    alloc: Global,
    scan: &S,
    def: &TableDef,
    row: &Row,
) -> Result<(), ApplyError>
    ensures { Judges result (missing_parent (S.state scan.now) def.now row.now) }
{
    match &def.foreign_key {
        None => Ok(()),
        Some(foreign) => {
            let key = key_at(alloc, foreign.columns.as_slice(), row)?;
            match scan.find(foreign.parent, &key) {
                Some(_) => Ok(()),
                None => {
                    let detail = row_detail(alloc, scan, foreign.parent, key)?;
                    Err(broken(Code::ParentMissing, detail))
                }
            }
        }
    }
}

fn row_detail<S: Scan>(
    alloc: Global,
    scan: &S,
    table: TableId,
    key: Key,
) -> Result<Detail, AllocError>
    ensures { IfOk result (λ detail. detail ≡ row_of key (slice_get (S.state scan.now).schema table.0)) }
{
    match scan.schema().get(table.0 as usize) {
        None => Ok(Detail::Nothing),
        Some(def) => {
            let name = def.name.copied(alloc)?;
            Ok(Detail::Row(name, key))
        }
    }
}

fn check_update<S: Scan>(
    alloc: Global,
    scan: &S,
    table: TableId,
    def: &TableDef,
    old: &Row,
    new: &Row,
) -> Result<(), ApplyError>
    ensures { Judges result (update_fault (S.state scan.now) table old.now new.now def.now
        (table_at (S.state scan.now) table)) }
{
    check_key_stays(alloc, def, old, new)?;
    check_row(alloc, def.columns.as_slice(), new)?;
    let key = key_of_row(alloc, def, old)?;
    check_there(alloc, scan, table, &key, old)?;
    check_parent(alloc, scan, def, new)
}

fn check_delete<S: Scan>(
    alloc: Global,
    scan: &S,
    table: TableId,
    def: &TableDef,
    old: &Row,
) -> Result<(), ApplyError>
    requires whole { IsWhole (S.state scan.now) }
    requires keyed { IsKeyed (S.state scan.now) }
    ensures { Judges result (delete_fault (S.state scan.now) table old.now def.now
        (table_at (S.state scan.now) table)) }
{
    let key = key_of_row(alloc, def, old)?;
    check_there(alloc, scan, table, &key, old)?;
    check_childless(alloc, scan, table, &key)
}

fn check_there<S: Scan>(
    alloc: Global,
    scan: &S,
    table: TableId,
    key: &Key,
    row: &Row,
) -> Result<(), ApplyError>
    ensures { Judges result (if is_found row.now
        (map.get (table_at (S.state scan.now) table) key.now) then None else Some
        (error.Differs table key.now (map.get (table_at (S.state scan.now) table) key.now))) }
{
    match scan.find(table, key) {
        None => {
            let key = key.copied(alloc)?;
            Err(ApplyError::Differs(table, key, None))
        }
        Some(found) => {
            if is_same_row(found, row) {
                return Ok(());
            }
            let key = key.copied(alloc)?;
            let found = found.copied(alloc)?;
            Err(ApplyError::Differs(table, key, Some(found)))
        }
    }
}

fn is_same_row(a: &Row, b: &Row) -> bool
    ensures { result ≡ is_same a.now b.now }
{
    match order_of_values(a.values(), b.values()) {
        Ordering::Equal => true,
        _ => false,
    }
}

fn check_childless<S: Scan>(
    alloc: Global,
    scan: &S,
    table: TableId,
    key: &Key,
) -> Result<(), ApplyError>
    requires whole { IsWhole (S.state scan.now) }
    requires keyed { IsKeyed (S.state scan.now) }
    ensures { Judges result (has_children (S.state scan.now) table key.now) }
{
    match first_child(alloc, scan, table, key) {
        Err(_) => Err(ApplyError::Memory),
        Ok(None) => Ok(()),
        Ok(Some(child)) => Err(broken(Code::ChildExists, child)),
    }
}
