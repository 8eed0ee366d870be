//! The row at which a transaction doesn't apply.

ghost use Rattle.std.specs.Prelude.{◌≡◌, IfOk, None, Some};
ghost use Rattle.std.specs.FinMap as map;
ghost use Rattle.std.specs.Option.{option_map};
ghost use Rattle.table_state.specs.Changes.{LeadsBack};
ghost use Rattle.table_state.specs.Operations.{applied_all};
ghost use Rattle.table_state.specs.Refusals.{IsFault, broken_by};
ghost use Rattle.table_state.specs.Tables.{TableState, table_at};
ghost use Rattle.outside.specs.Differences.{difference_of, first_difference, own_key, place_of, row_of};

use row_types::{Detail, Key, Row};
use std::alloc::{AllocError, Global};
use table_defs::find_table;
use table_state::{ApplyError, Op, Tables, UndoLog, key_of_row};
use tier_base::TableId;

/// A row that isn't as an operation wants it: its table, its key, and the row that is there.
#[derive(Drop)]
pub(crate) struct Difference {
    /// The table.
    pub table: TableId,
    /// The key.
    pub key: Key,
    /// The row there, where there is one.
    pub row: Option<Row>,
}

/// The difference at the first operation that doesn't apply. A condition is that one doesn't. Those before it are
/// applied and taken back again, so the tables are as they were. It fails for want of memory alone.
pub(crate) fn first_difference(
    alloc: Global,
    tables: &mut Tables,
    ops: &[Op],
) -> Result<Difference, AllocError>
    requires { applied_all ops.now tables.old ≡ None }
    ensures found { IfOk result (λ difference. first_difference ops.now tables.old
        ≡ Some (difference.table, difference.key, difference.row)) }
    ensures unchanged { tables.new ≡ tables.old }
{
    let mut log = UndoLog::new(alloc);
    let found = difference_in(alloc, tables, ops, &mut log);
    tables.take_all_back(alloc, log);
    found
}

// The operations before the first that doesn't apply stay applied, and it is noted how they are taken back.
fn difference_in(
    alloc: Global,
    tables: &mut Tables,
    ops: &[Op],
    log: &mut UndoLog,
) -> Result<Difference, AllocError>
    requires { applied_all ops.now tables.old ≡ None }
    ensures found { IfOk result (λ difference. first_difference ops.now tables.old
        ≡ Some (difference.table, difference.key, difference.row)) }
    ensures back { (s : TableState) → LeadsBack log.old tables.old s → LeadsBack log.new tables.new s }
{
    for op in ops {
        match tables.apply_one(alloc, op, log) {
            Ok(()) => {}
            Err(error) => return difference_of(alloc, &*tables, op, error),
        }
    }
    unreachable!()
}

// The difference at an operation that has this fault.
fn difference_of(
    alloc: Global,
    tables: &Tables,
    op: &Op,
    error: ApplyError,
) -> Result<Difference, AllocError>
    requires { IsFault (broken_by op.now tables.now) error }
    ensures { IfOk result (λ difference. option_map (difference_of op.now tables.now) (broken_by op.now tables.now)
        ≡ Some (difference.table, difference.key, difference.row)) }
{
    match error {
        ApplyError::Memory => return Err(AllocError),
        ApplyError::Differs(table, key, row) => return Ok(Difference { table, key, row }),
        ApplyError::Rule(rule) => {
            let (table, key) = place_of(alloc, tables, op, rule.into_detail())?;
            let row = row_at(alloc, tables, table, &key)?;
            return Ok(Difference { table, key, row });
        }
    }
}

// The row that a rule names, else the operation's own.
fn place_of(
    alloc: Global,
    tables: &Tables,
    op: &Op,
    detail: Detail,
) -> Result<(TableId, Key), AllocError>
    ensures { IfOk result (λ place. place ≡ place_of op.now tables.now detail) }
{
    match &detail {
        Detail::Row(name, key) => {
            let table = find_table(tables.schema(), name).unwrap_or(op.table());
            let key = key.copied(alloc)?;
            Ok((table, key))
        }
        _ => {
            let key = own_key(alloc, tables, op)?;
            Ok((op.table(), key))
        }
    }
}

fn own_key(alloc: Global, tables: &Tables, op: &Op) -> Result<Key, AllocError>
    ensures { IfOk result (λ key. key ≡ own_key op.now tables.now) }
{
    match tables.schema().get(op.table().0 as usize) {
        None => Ok(Key::from_vec(Vec::new(alloc))),
        Some(def) => key_of_row(alloc, def, row_of(op)),
    }
}

/// A copy of the row at the key of the table, none where there is none. It fails for want of memory alone.
pub(crate) fn row_at(
    alloc: Global,
    tables: &Tables,
    table: TableId,
    key: &Key,
) -> Result<Option<Row>, AllocError>
    ensures { IfOk result (λ row. row ≡ map.get (table_at tables.now table) key.now) }
{
    match tables.table(table) {
        None => Ok(None),
        Some(rows) => match rows.get(key) {
            None => Ok(None),
            Some(row) => {
                let row = row.copied(alloc)?;
                Ok(Some(row))
            }
        },
    }
}

fn row_of(op: &Op) -> &Row
    ensures { result.now ≡ row_of op.now }
{
    match op {
        Op::Insert(_, row) => row,
        Op::Update(_, row, _) => row,
        Op::Delete(_, row) => row,
    }
}
