//! What the operations of a write use.

ghost use Rattle.std.specs.Prelude.{◌≡◌, ◌+◌, ◌++◌, ◌<◌, ℕ, IfOk, List, None, OnOk, Some, [], ◌∷◌, length, option_copied, slice_get, true};
ghost use Rattle.std.specs.Option.{option_map};
ghost use Rattle.table_state.specs.Independence.{IsWhole};
ghost use Rattle.table_state.specs.Keyed.{IsKeyed};
ghost use Rattle.table_state.specs.Operations.{table_of};
ghost use Rattle.table_state.specs.Tables.{TableState};
ghost use Rattle.evaluator.specs.Cascades.{key_in};
ghost use Rattle.table_state.specs.Refusals.{broken_by_all};
ghost use Rattle.table_state.specs.declared.operation.Op.{Op as OneOp};
ghost use Rattle.own_rows.specs.Laying.{HaveRoom};
ghost use Rattle.own_rows.specs.OwnTables.{AreRowsOf};
ghost use Rattle.own_rows.specs.Overlays.{FitsOn, overlaid};
ghost use Rattle.cache_tier.specs.Groups.{Group};
ghost use Rattle.cache_tier.specs.Recency.{op_key};
ghost use Rattle.group_catalog.specs.Catalogs.{groups_in};
ghost use Rattle.group_catalog.specs.Kept.{group_seen};
ghost use Rattle.statement_uses.specs.Uses.{HaveUses, keeps_order, roots_of_ops, roots_of_row};

use crate::rooting::root_of;
use crate::using::keeps_order;
use group_catalog::{Catalog, KeptGroup};
use instances::Tree;
use own_rows::{OwnTables, steps_of};
use row_types::{Key, Row};
use std::alloc::{AllocError, Global};
use std::slice::from_ref;
use table_defs::BackingSchema;
use table_state::{Op, RowKey, Scan, key_of_row};
use tier_base::{Seq, TableId};
use tier_statements::are_small;

/// For each group in which the order of last use counts, the root keys of the instances that operations change: of each
/// operation the instance of its row before it, and the one behind it, over what those before it leave.
///
/// It fails for want of memory alone, which is also said where a table has 2^62 rows. (TimesTen Cache User's Guide,
/// "LRU aging".)
pub fn used_by_ops<S: Scan>(
    alloc: Global,
    catalog: &Catalog,
    scan: &S,
    ops: &[Op],
) -> Result<Seq<Seq<Key>>, AllocError>
    requires whole { IsWhole (S.state scan.now) }
    requires keyed { IsKeyed (S.state scan.now) }
    requires unbroken { broken_by_all ops.now (S.state scan.now) ≡ None }
    ensures { IfOk result (HaveUses (groups_in catalog.now)
        (λ g. roots_of_ops ops.now (S.state scan.now) g.def.tree)) }
{
    let mut uses = Vec::new(alloc);
    for place in 0..catalog.len() {
        let roots = used_in(alloc, catalog.get(place), scan, ops)?;
        uses.push(roots)?;
    }
    Ok(Seq::from_vec(uses))
}

fn used_in<S: Scan>(
    alloc: Global,
    group: Option<&KeptGroup>,
    scan: &S,
    ops: &[Op],
) -> Result<Seq<Key>, AllocError>
    requires whole { IsWhole (S.state scan.now) }
    requires keyed { IsKeyed (S.state scan.now) }
    requires unbroken { broken_by_all ops.now (S.state scan.now) ≡ None }
    ensures { IfOk result (λ roots. (g : Group) → option_map group_seen (option_copied group.entry) ≡ Some g
        → keeps_order g ≡ true → roots ≡ roots_of_ops ops.now (S.state scan.now) g.def.tree) }
{
    match group {
        None => Ok(Seq::new(alloc)),
        Some(group) => {
            if keeps_order(group) {
                roots_of_ops(alloc, scan, &group.def.tree, ops)
            } else {
                Ok(Seq::new(alloc))
            }
        }
    }
}

// The root keys that the rows of operations are reached from. Where the tree has no table of them there are none.
fn roots_of_ops<S: Scan>(
    alloc: Global,
    scan: &S,
    tree: &Tree,
    ops: &[Op],
) -> Result<Seq<Key>, AllocError>
    requires whole { IsWhole (S.state scan.now) }
    requires keyed { IsKeyed (S.state scan.now) }
    requires unbroken { broken_by_all ops.now (S.state scan.now) ≡ None }
    ensures { IfOk result (λ roots. roots ≡ roots_of_ops ops.now (S.state scan.now) tree.now) }
{
    if ops.len() >= MOST || !are_small(scan) {
        return Err(AllocError);
    }
    let mut own = OwnTables::new(alloc);
    own.widen(alloc, scan.schema())?;
    let mut roots = Vec::new(alloc);
    for op in ops {
        let row = op_key(alloc, scan.schema(), op)?;
        push_root(alloc, scan, &own, tree, &row, &mut roots)?;
        lay_op(alloc, scan.schema(), &mut own, op)?;
        push_root(alloc, scan, &own, tree, &row, &mut roots)?;
    }
    Ok(Seq::from_vec(roots))
}

// The table and the key of an operation's row.
fn op_key(alloc: Global, schema: &BackingSchema, op: &Op) -> Result<RowKey, AllocError>
    ensures { IfOk result (λ row. (s : TableState) → s.schema ≡ schema.now → row ≡ op_key s op.now) }
{
    match op {
        Op::Insert(table, row) => row_key(alloc, schema, *table, row),
        Op::Update(table, old, _) => row_key(alloc, schema, *table, old),
        Op::Delete(table, old) => row_key(alloc, schema, *table, old),
    }
}

fn row_key(
    alloc: Global,
    schema: &BackingSchema,
    table: TableId,
    row: &Row,
) -> Result<RowKey, AllocError>
    ensures { IfOk result (λ key. key
        ≡ record { table = table; key = key_in (slice_get schema.now table.0) row.now }) }
{
    match schema.get(table.0 as usize) {
        None => Ok(RowKey {
            table,
            key: Key::from_vec(Vec::new(alloc)),
        }),
        Some(def) => {
            let key = key_of_row(alloc, def, row)?;
            Ok(RowKey { table, key })
        }
    }
}

// Puts the root key behind the others that a row is reached from over a scan with own rows over it, where there is one.
fn push_root<S: Scan>(
    alloc: Global,
    scan: &S,
    own: &OwnTables,
    tree: &Tree,
    row: &RowKey,
    roots: &mut Vec<Key>,
) -> Result<(), AllocError>
    requires { FitsOn own.now (S.state scan.now) }
    ensures { OnOk result (roots.new.items
        ≡ roots.old.items ++ roots_of_row (overlaid own.now (S.state scan.now)) tree.now row.now) }
{
    let over = own.over(scan);
    match root_of(alloc, &over, tree, row.table, &row.key)? {
        None => {}
        Some(root) => roots.push(root)?,
    }
    Ok(())
}

// Lays one operation more. It fails for want of memory alone.
fn lay_op(
    alloc: Global,
    schema: &BackingSchema,
    own: &mut OwnTables,
    op: &Op,
) -> Result<(), AllocError>
    requires within { (table_of op.now).0 < length schema.now }
    requires wide { length own.old ≡ length schema.now }
    requires room { HaveRoom 1 own.old }
    ensures rows { OnOk result ((ops : List OneOp) → AreRowsOf schema.now ops own.old
        → AreRowsOf schema.now (ops ++ op.now ∷ []) own.new) }
    ensures room { OnOk result ((n : ℕ) → HaveRoom (1 + n) own.old → HaveRoom n own.new) }
    ensures long { OnOk result (length own.new ≡ length own.old) }
{
    let steps = steps_of(alloc, schema, from_ref(op))?;
    own.lay(alloc, steps);
    Ok(())
}

// More operations than memory can hold.
const MOST: usize = 0x4000_0000_0000_0000;
