//! What open operations leave of all tables.

ghost use Rattle.std.specs.Prelude.{◌≡◌, ℕ, ◌+◌, ◌++◌, ◌<◌, ◌≤◌, ◌^◌, [], List, OnOk, length};
ghost use Rattle.table_state.specs.table_defs.specs.declared.definition.TableDef.{TableDef as Def};
ghost use Rattle.table_state.specs.declared.operation.Op.{Op};

use crate::overlay::Overlay;
use crate::own::OwnRows;
use crate::steps::{Steps, lay_all};
use crate::widening::widen_rows;
use std::alloc::{AllocError, Global};
use std::marker::Model;
use table_state::Scan;
use table_state::table_defs::BackingSchema;

/// What open operations leave of each table, by its place in the schema. Tables past the end have no own rows. Clauses
/// see a list.
#[derive(Drop)]
pub struct OwnTables {
    tables: Vec<OwnRows>,
}

impl Model for OwnTables {
    ghost use Rattle.std.specs.Prelude.{List};
    ghost use Rattle.std.specs.Coded.{coded_list};
    ghost use Rattle.own_rows.specs.declared.own.OwnRows.{OwnRows as Own};
    ghost use Rattle.own_rows.specs.OwnCode.{own_code};

    ghost Value = { List Own };

    ghost coded = { coded_list own_code };

    ghost view = { λ all. all.tables.items };
}

impl OwnTables {
    ghost use Rattle.own_rows.specs.Laying.{AreReady, AreStepsOf, HaveRoom};
    ghost use Rattle.own_rows.specs.OwnTables.{AreRowsOf};
    ghost use Rattle.own_rows.specs.Overlays.{FitsOn, overlaid};

    /// Nothing is left of no operations. It takes no memory.
    pub fn new(alloc: Global) -> OwnTables
        ensures { result ≡ [] }
    {
        OwnTables {
            tables: Vec::new(alloc),
        }
    }

    /// Nothing is left any more. It takes no memory.
    pub fn clear(&mut self)
        ensures { self.new ≡ [] }
    {
        self.tables.clear();
    }

    /// Makes a place for each table of the schema.
    ///
    /// It fails for want of memory alone. Places that were made then stay, and say nothing.
    pub fn widen(&mut self, alloc: Global, schema: &BackingSchema) -> Result<(), AllocError>
        requires { length self.old ≤ length schema.now }
        ensures rows { (known : List Def) (ops : List Op)
            → AreRowsOf known ops self.old → AreRowsOf known ops self.new }
        ensures room { (n : ℕ) → n < 2 ^ 63 → HaveRoom n self.old → HaveRoom n self.new }
        ensures within { length self.new ≤ length schema.now }
        ensures wide { OnOk result (length self.new ≡ length schema.now) }
    {
        widen_rows(alloc, &mut self.tables, schema)
    }

    /// Makes the steps of operations, one after another. It doesn't fail: their memory was taken before.
    pub fn lay(&mut self, alloc: Global, steps: Steps)
        requires ready { AreReady (length self.old) steps }
        requires room { HaveRoom (length steps) self.old }
        ensures rows { (schema : List Def) (ops more : List Op) → length self.old ≡ length schema
            → AreStepsOf schema more steps → AreRowsOf schema ops self.old → AreRowsOf schema (ops ++ more) self.new }
        ensures room { (n : ℕ) → HaveRoom (length steps + n) self.old → HaveRoom n self.new }
        ensures long { length self.new ≡ length self.old }
    {
        lay_all(self.tables.as_mut_slice(), alloc, steps);
    }

    /// The tables of a scan with these rows over them. It takes no memory.
    pub fn over<'a, S: Scan>(&'a self, under: &'a S) -> Overlay<'a, S>
        requires { FitsOn self.now (S.state under.now) }
        ensures { ⟦<Overlay<'a, S> as Scan>⟧.state result ≡ overlaid self.now (S.state under.now) }
    {
        Overlay::new(under, self.tables.as_slice())
    }
}
