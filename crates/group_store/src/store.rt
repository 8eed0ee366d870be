//! What a cache group keeps.

ghost use Rattle.std.specs.Prelude.{◌≡◌, ◌≤◌, ◌<◌, ◌+◌, ◌^◌, ◌++◌, [], ◌∷◌, Some, IfOk, IfSome, OnErr, OnOk, length, option_copied, position, slice_get, true};
ghost use Rattle.std.specs.Option.{option_and_then};
ghost use Rattle.std.specs.FinMap as map;
ghost use Rattle.cache_store.specs.recency.specs.Rings.{keys_without, next_key};
ghost use Rattle.slot_rows.specs.indexed_rows.specs.Rows.{is_same, key_of};
ghost use Rattle.cache_store.specs.table_state.specs.Operations.{table_of};
ghost use Rattle.cache_store.specs.instances.specs.Trees.{same_table};
ghost use Rattle.cache_store.specs.instances.specs.Views.{kept_at};
ghost use Rattle.slot_rows.specs.Orders.{place_from};
ghost use Rattle.slot_rows.specs.SlotKeys.{IsKeyedBy};
ghost use Rattle.group_store.specs.Trees.{key_at};
ghost use Rattle.group_store.specs.Entering.{commit_done, entered, keys_of_rows, root_entered};
ghost use Rattle.group_store.specs.Hiding.{hidden_with};
ghost use Rattle.group_store.specs.Stores.{AddsChild, HasRootKeys, IsInstanceUnder, IsNewStore, SameButSpare, cleared_store, count_all, foreign_columns, key_columns, cut_store, op_done, ops_done, place_in, put_rows, put_store, put_tables, renewed_store, touched_store};

use crate::columns::joined;
use crate::recent::RecentRows;
use crate::tree_rows::{ChildRows, TreeRows};
use cache_store::table_state::{Op, Ops};
use slot_rows::SlotRows;
use slot_rows::indexed_rows::{Rows, key_at};
use slot_rows::row_types::{Key, Row};
use slot_rows::tier_base::{Seq, TableId};
use std::alloc::{AllocError, Global};
use std::marker::Model;

/// What a cache group keeps: the rows of the tables of its tree, and its root keys in the order of last use. Clauses
/// see the tables by place of the tree, the root's first, each by primary key; the root keys, with the one first that
/// was not used for longest; and how many more rows go in without memory, whatever their tables.
///
/// (TimesTen Cache User's Guide, "Cache groups" and "Implementing aging in a cache group".)
pub struct Store {
    pub(crate) table: TableId,
    pub(crate) rows: TreeRows,
}

impl Drop for Store {
    fn drop(self) {
        let Self { table: _, rows: _ } = self;
    }
}

impl Model for Store {
    ghost use Rattle.group_store.specs.Stores.{Kept, kept_code};
    ghost use Rattle.group_store.specs.Joined.{AreJoined, layers_of, least_spare, tables_of};

    ghost Value = { Kept };

    ghost coded = { kept_code };

    ghost view = { λ s. record {
      table = s.table;
      key = s.rows.roots.places;
      foreign = s.rows.roots.foreign;
      layers = layers_of s.rows;
      tables = tables_of s.rows;
      keys = s.rows.roots.keys;
      spare = least_spare s.rows;
    } };

    ghost invariant = { λ s. AreJoined s.rows };
}

impl Store {
    /// No rows of a root table, whose primary key has these columns, and whose foreign key those, where it has one;
    /// and no child tables.
    ///
    /// It fails for want of memory alone.
    pub fn new(
        alloc: Global,
        table: TableId,
        key: Seq<usize>,
        foreign: Seq<usize>,
    ) -> Result<Store, AllocError>
        ensures { IfOk result (IsNewStore table key foreign) }
    {
        let roots = RecentRows::new(alloc, key, foreign)?;
        Ok(Store {
            table,
            rows: TreeRows {
                roots,
                children: Vec::new(alloc),
            },
        })
    }

    /// Gives the tree another child table: its id, the columns of its primary key and of its foreign key, and the
    /// place of the table that this one refers to.
    ///
    /// It fails for want of memory alone, and the store is then as it was.
    pub fn add_child(
        &mut self,
        alloc: Global,
        table: TableId,
        key: Seq<usize>,
        foreign: Seq<usize>,
        parent: usize,
    ) -> Result<(), AllocError>
        requires parent { parent ≤ length self.old.layers }
        requires some { 0 < length foreign }
        requires long { length foreign ≡ length (key_at self.old.key self.old.layers parent) }
        ensures ok { OnOk result (AddsChild self.old self.new
            (record { table = table; key = key; foreign = foreign; parent = parent })) }
        ensures err { OnErr result (self.new ≡ self.old) }
    {
        let columns = joined(alloc, foreign.as_slice(), key.as_slice())?;
        let mut rows = SlotRows::new(alloc, key);
        rows.add_order(alloc, columns)?;
        self.rows.children.push(ChildRows {
            table,
            parent,
            foreign,
            rows,
        })?;
        Ok(())
    }

    /// The place of a table in the tree, 0 for the root; none where the tree doesn't have the table.
    pub fn place_of(&self, table: TableId) -> Option<usize>
        ensures place { result ≡ place_in self.now table }
        ensures within { IfSome result (λ place. place ≤ length self.now.layers) }
    {
        if self.table.0 == table.0 {
            return Some(0);
        }
        match place_among(self.rows.children.as_slice(), table) {
            None => None,
            Some(place) => Some(place + 1),
        }
    }

    /// The columns of the root's primary key.
    pub fn key(&self) -> &[usize]
        ensures { result.now ≡ self.now.key }
    {
        self.rows.roots.places()
    }

    /// The row of a key in the table at a place of the tree. It costs O(log n) comparisons.
    pub fn get(&self, place: usize, key: &Key) -> Option<&Row>
        requires { place ≤ length self.now.layers }
        ensures { option_copied result ≡ map.get (kept_at self.now.tables place) key.now }
    {
        self.rows.get(place, key.values())
    }

    /// How many rows the table at a place of the tree has. Each stands under its key.
    pub fn len(&self, place: usize) -> usize
        requires { place ≤ length self.now.layers }
        ensures value { result ≡ map.len (kept_at self.now.tables place) }
        ensures fits { result < 2 ^ 63 }
        ensures keyed { IsKeyedBy (key_columns self.now place) (kept_at self.now.tables place) }
    {
        self.rows.len(place)
    }

    /// The row at a place in key order, from 0, of the table at a place of the tree.
    pub fn row(&self, place: usize, at: usize) -> Option<&Row>
        requires { place ≤ length self.now.layers }
        ensures { option_copied result ≡ slice_get (map.values (kept_at self.now.tables place)) at }
    {
        self.rows.row(place, at)
    }

    /// The first place in key order, from a place on, of a row of the table at a place of the tree whose foreign key
    /// names this key. It costs O(log n) comparisons.
    pub fn child(&self, place: usize, key: &Key, from: usize) -> Option<usize>
        requires { place ≤ length self.now.layers }
        ensures { result ≡ place_from (kept_at self.now.tables place) (foreign_columns self.now place) key.now from }
    {
        self.rows.child(place, key.values(), from)
    }

    /// The keys in the order of last use are those of the root rows, each once. It does nothing.
    pub fn keys_law(&self)
        ensures { HasRootKeys self.now }
    {
        self.rows.roots.keys_law();
    }

    /// How many root keys there are.
    pub fn count(&self) -> usize
        ensures { result ≡ length self.now.keys }
    {
        self.rows.roots.count()
    }

    /// The root row that was not used for longest.
    pub fn oldest(&self) -> Option<&Row>
        ensures { option_copied result ≡ option_and_then (map.get (kept_at self.now.tables 0))
            (slice_get self.now.keys 0) }
    {
        self.rows.roots.oldest()
    }

    /// The root row whose key is behind another in the order of last use.
    pub fn newer(&self, root: &Key) -> Option<&Row>
        ensures { option_copied result ≡ option_and_then (map.get (kept_at self.now.tables 0))
            (next_key is_same root.now self.now.keys) }
    {
        self.rows.roots.newer(root.values())
    }

    /// Makes room for so many more rows in each table.
    ///
    /// It fails for want of memory alone.
    pub fn reserve(&mut self, alloc: Global, more: usize) -> Result<(), AllocError>
        ensures same { SameButSpare self.old self.new }
        ensures ok { OnOk result (more ≤ self.new.spare) }
        ensures spare { self.old.spare ≤ self.new.spare }
    {
        self.rows.reserve(alloc, more)
    }

    /// A root key becomes the newest, where it has a row. It takes no memory.
    pub fn touch(&mut self, root: &Key)
        ensures touched { SameButSpare (touched_store root.now self.old) self.new }
        ensures newest { map.contains_key (kept_at self.old.tables 0) root.now ≡ true →
            self.new.keys ≡ keys_without is_same root.now self.old.keys ++ root.now ∷ [] }
        ensures spare { self.old.spare ≤ self.new.spare }
    {
        self.rows.roots.touch(root.values());
    }

    /// Takes out the row of a key in the table at a place of the tree, and all rows that lead to it by foreign keys.
    /// Where the table is the root's, that is the instance of a root key. It takes no memory.
    pub fn cut(&mut self, place: usize, key: &Key)
        requires { place ≤ length self.old.layers }
        ensures gone { SameButSpare (cut_store place key.now self.old) self.new }
        ensures spare { self.old.spare ≤ self.new.spare }
    {
        let _ = self.rows.cut(place, key.values());
    }

    /// Takes out the instance of a root key: its row, and all rows that lead to it by foreign keys. It takes no memory.
    pub fn drop_instance(&mut self, root: &Key)
        ensures gone { SameButSpare (cut_store 0 root.now self.old) self.new }
        ensures spare { self.old.spare ≤ self.new.spare }
    {
        self.cut(0, root);
    }

    /// Takes out the instance of a root key, as `drop_instance` does, and gives its root row. It takes no memory.
    pub fn take_instance(&mut self, root: &Key) -> Option<Row>
        ensures row { result ≡ map.get (kept_at self.old.tables 0) root.now }
        ensures gone { SameButSpare (cut_store 0 root.now self.old) self.new }
        ensures spare { self.old.spare ≤ self.new.spare }
    {
        self.rows.cut(0, root.values())
    }

    /// Hides the instance of a root key: takes it out as `drop_instance` does, and puts its root row among the hidden
    /// ones, whose key is the root's. It takes no memory.
    pub fn hide(&mut self, root: &Key, hidden: &mut SlotRows)
        requires key { hidden.old.places ≡ self.old.key }
        requires room { 0 < hidden.old.spare }
        ensures gone { SameButSpare (cut_store 0 root.now self.old) self.new }
        ensures spare { self.old.spare ≤ self.new.spare }
        ensures hidden { hidden.new.table ≡
            hidden_with (map.get (kept_at self.old.tables 0) root.now) root.now hidden.old.table }
        ensures hidden_key { hidden.new.places ≡ hidden.old.places }
        ensures hidden_room { hidden.old.spare ≤ hidden.new.spare + 1 }
    {
        let _held = self.len(0);
        match self.take_instance(root) {
            None => {}
            Some(row) => {
                let _ = hidden.insert_reserved(row);
            }
        }
    }

    /// Takes out all rows and root keys. It takes no memory. What room there was for more is to be made anew.
    pub fn clear(&mut self, alloc: Global)
        ensures { SameButSpare (cleared_store self.old) self.new }
    {
        self.rows.clear(alloc);
    }

    /// Puts a row into the table at a place of the tree, where its key has none there. A root key that comes is the
    /// newest. It takes no memory.
    pub fn put(&mut self, place: usize, row: Row)
        requires within { place ≤ length self.old.layers }
        requires room { 0 < self.old.spare }
        ensures put { SameButSpare (put_store place row self.old) self.new }
        ensures spare { self.old.spare ≤ self.new.spare + 1 }
    {
        self.rows.put(place, row);
    }

    /// Puts in the rows of an instance, the root's first, by place of the tree, where their keys have none there. Its
    /// root key is the newest. It takes no memory.
    pub fn put_instance(&mut self, tables: Seq<Seq<Row>>)
        requires within { length tables ≤ length self.old.layers + 1 }
        requires room { count_all tables ≤ self.old.spare }
        ensures put { SameButSpare (put_tables 0 tables self.old) self.new }
        ensures spare { self.old.spare ≤ self.new.spare + count_all tables }
    {
        self.put_from(0, tables.into_vec());
    }

    /// The instance of a root key that has a row becomes these rows, the root's first, by place of the tree. It isn't a
    /// use: the key keeps its place in the order of last use. It takes no memory.
    pub fn renew_instance(&mut self, root: &Key, tables: Seq<Seq<Row>>)
        requires within { length tables ≤ length self.old.layers + 1 }
        requires room { count_all tables ≤ self.old.spare }
        requires there { map.contains_key (kept_at self.old.tables 0) root.now ≡ true }
        requires under { IsInstanceUnder self.old.key root.now tables }
        ensures renewed { SameButSpare (renewed_store root.now tables self.old) self.new }
        ensures spare { self.old.spare ≤ self.new.spare + count_all tables }
    {
        let mut tables = tables.into_vec();
        let rows = tables.remove(0);
        let mut rows = rows.into_vec();
        let row = rows.remove(0);
        self.renew_root(root, row);
        self.put_from(1, tables);
    }

    // A row of the root's key becomes this one, and what leads to it goes.
    fn renew_root(&mut self, root: &Key, row: Row)
        requires room { 0 < self.old.spare }
        requires there { map.contains_key (kept_at self.old.tables 0) root.now ≡ true }
        requires under { key_of self.old.key row ≡ root.now }
        ensures renewed { SameButSpare (renewed_store root.now ((row ∷ []) ∷ []) self.old) self.new }
        ensures spare { self.old.spare ≤ self.new.spare + 1 }
    {
        self.rows.bare(0, root.values());
        self.rows.replace(0, row);
    }

    // Puts rows into the tables from a place of the tree on, where their keys have none there.
    fn put_from(&mut self, mut place: usize, tables: Vec<Seq<Row>>)
        requires within { place + length tables.items ≤ length self.old.layers + 1 }
        requires fits { place + length tables.items < 2 ^ 64 }
        requires room { count_all tables.items ≤ self.old.spare }
        ensures put { SameButSpare (put_tables place tables.items self.old) self.new }
        ensures spare { self.old.spare ≤ self.new.spare + count_all tables.items }
    {
        for rows in tables {
            self.put_rows(place, rows);
            place += 1;
        }
    }

    // Puts rows into the table at a place of the tree, where their keys have none there.
    fn put_rows(&mut self, place: usize, rows: Seq<Row>)
        requires within { place ≤ length self.old.layers }
        requires room { length rows ≤ self.old.spare }
        ensures put { SameButSpare (put_rows place rows self.old) self.new }
        ensures spare { self.old.spare ≤ self.new.spare + length rows }
    {
        for row in rows.into_vec() {
            self.put(place, row);
        }
    }

    /// Does what a committed operation says, where its table is one of the tree: a row comes, becomes another of its
    /// key, or goes. It takes no memory.
    pub fn apply(&mut self, op: Op)
        requires { 0 < self.old.spare }
        ensures done { SameButSpare (op_done op self.old) self.new }
        ensures spare { self.old.spare ≤ self.new.spare + 1 }
    {
        match self.place_of(op.table()) {
            None => {}
            Some(place) => self.apply_at(place, op),
        }
    }

    /// Does what committed operations say, one after another, for which there is room. It takes no memory.
    pub fn apply_ops(&mut self, ops: Ops)
        requires { length ops ≤ self.old.spare }
        ensures done { SameButSpare (ops_done ops self.old) self.new }
        ensures spare { self.old.spare ≤ self.new.spare + length ops }
    {
        for op in ops.into_vec() {
            self.apply(op);
        }
    }

    /// The root keys that operations insert and leave there, as `commit_ops` wants them: each with a row of no values.
    ///
    /// It fails for want of memory alone.
    pub fn entered(&self, alloc: Global, ops: &Ops) -> Result<Rows, AllocError>
        ensures { IfOk result (λ roots. map.keys roots ≡ map.keys (entered self.now ops.now)) }
    {
        let places = self.rows.roots.places();
        let mut roots = Rows::new(alloc);
        for op in ops.as_slice() {
            if same_table(self.table, op.table()) {
                enter_root(alloc, &mut roots, places, op)?;
            }
        }
        Ok(roots)
    }

    /// Does what the operations of one transaction say, as `apply_ops` does; the root keys that they insert and leave
    /// there, which `entered` gives, then come behind the others in key order. It takes no memory.
    pub fn commit_ops(&mut self, ops: Ops, roots: &Rows)
        requires room { length ops ≤ self.old.spare }
        requires roots { map.keys roots.now ≡ map.keys (entered self.old ops) }
        ensures done { SameButSpare (commit_done ops self.old) self.new }
        ensures spare { self.old.spare ≤ self.new.spare + length ops }
    {
        let _ = &self.table;
        self.apply_ops(ops);
        for at in 0..roots.len() {
            self.touch(&roots.entry_at(at).0);
        }
    }

    // Does what an operation on the table at a place says.
    fn apply_at(&mut self, place: usize, op: Op)
        requires place { place_in self.old (table_of op) ≡ Some place }
        requires within { place ≤ length self.old.layers }
        requires room { 0 < self.old.spare }
        ensures done { SameButSpare (op_done op self.old) self.new }
        ensures spare { self.old.spare ≤ self.new.spare + 1 }
    {
        match &op {
            Op::Insert(_, _) => self.rows.put(place, op.into_row()),
            Op::Update(_, _, _) => self.rows.replace(place, op.into_row()),
            Op::Delete(_, row) => self.rows.take(place, row),
        }
    }
}

// Enters the root key that an operation inserts, or leaves out the one that it deletes.
fn enter_root(alloc: Global, roots: &mut Rows, places: &[usize], op: &Op) -> Result<(), AllocError>
    ensures { OnOk result (keys_of_rows roots.new ≡ root_entered places.now op.now (keys_of_rows roots.old)) }
{
    match op {
        Op::Insert(_, row) => {
            let key = key_at(alloc, places, row)?;
            let _ = roots.insert(key, Row::from_vec(Vec::new(alloc)))?;
        }
        Op::Update(_, _, _) => {}
        Op::Delete(_, row) => {
            let key = key_at(alloc, places, row)?;
            let _ = roots.remove(&key);
        }
    }
    Ok(())
}

fn place_among(children: &[ChildRows], table: TableId) -> Option<usize>
    ensures { result ≡ position (λ c. same_table c.table table) children.now }
{
    children
        .iter()
        .position(|child| same_table(child.table, table))
}

fn same_table(a: TableId, b: TableId) -> bool
    ensures { result ≡ same_table a b }
{
    a.0 == b.0
}
