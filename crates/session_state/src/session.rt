//! One open session.

ghost use Rattle.std.specs.Prelude.{◌≡◌, ◌+◌, ◌++◌, ◌≤◌, List, [], IfOk, None, OnErr, OnOk, Some, length, map, true};
ghost use Rattle.own_rows.specs.table_defs.specs.declared.definition.TableDef.{TableDef as Def};
ghost use Rattle.own_rows.specs.tier_base.specs.declared.limit.Limit.{Limit as OneLimit};
ghost use Rattle.own_rows.specs.tier_base.specs.declared.limit.Limit.TheVariants.{Operations};
ghost use Rattle.own_rows.specs.tier_base.specs.Limits.{greatest};
ghost use Rattle.own_rows.specs.table_state.specs.Footprints.{footprint_of, is_among};
ghost use Rattle.own_rows.specs.Laying.{AreStepsOf};
ghost use Rattle.session_state.specs.Holding.{key_of_mark};
ghost use Rattle.session_state.specs.Kept.{are_defined};

use crate::held::HeldKeys;
use crate::mark::{Mark, marks};
use own_rows::row_types::Key;
use own_rows::table_defs::BackingSchema;
use own_rows::table_state::{Footprint, Op, Ops, Scan};
use own_rows::tier_base::{Label, SessionId, TableId};
use own_rows::{Overlay, OwnTables, Steps, steps_of};
use std::alloc::{AllocError, Global};

/// An open session.
pub struct Session {
    /// Its number.
    pub id: SessionId,
    /// Its label.
    pub label: Label,
    /// Its level of passthrough.
    pub level: u8,
    /// Whether its commits are flushed.
    pub durable: bool,
    /// The level that its open transaction was given.
    pub flag: Option<u8>,
    /// Its open operations.
    pub ops: Vec<Op>,
    /// What they leave of each table.
    pub own: OwnTables,
    /// The keys that they write.
    pub written: HeldKeys,
    /// The keys that their rows name as parents.
    pub referred: HeldKeys,
}

impl Session {
    ghost use Rattle.session_state.specs.Kept.{IsKept, seen_of};
    ghost use Rattle.session_state.specs.Sessions.{at_rest, begun, level_of, with_flag, with_ops};
    ghost use Rattle.own_rows.specs.OwnTables.{AreShown};
    ghost use Rattle.own_rows.specs.table_state.specs.Operations.{applied_all};

    /// A session that has written nothing. It takes no memory.
    pub fn start(alloc: Global, id: SessionId, label: Label, level: u8, durable: bool) -> Session
        ensures seen { seen_of result ≡ begun id label level durable }
        ensures kept { (schema : List Def) → IsKept schema result }
    {
        Session {
            id,
            label,
            level,
            durable,
            flag: None,
            ops: Vec::new(alloc),
            own: OwnTables::new(alloc),
            written: HeldKeys::new(alloc),
            referred: HeldKeys::new(alloc),
        }
    }

    /// The transaction ends, as by COMMIT or ROLLBACK: its operations are forgotten, their keys are held no more, and
    /// the level that it was given is gone. It takes no memory.
    pub fn rest(&mut self)
        ensures seen { seen_of self.new ≡ at_rest (seen_of self.old) }
        ensures kept { (schema : List Def) → IsKept schema self.new }
    {
        self.flag = None;
        self.ops.clear();
        self.own.clear();
        self.written.clear();
        self.referred.clear();
    }

    /// The transaction is given a level of passthrough.
    pub fn set_flag(&mut self, level: u8)
        ensures seen { seen_of self.new ≡ with_flag level (seen_of self.old) }
        ensures kept { (schema : List Def) → IsKept schema self.old → IsKept schema self.new }
    {
        self.flag = Some(level);
    }

    /// The level of passthrough that counts: that of the transaction, where it was given one, else the session's.
    pub fn effective_level(&self) -> u8
        ensures { result ≡ level_of (seen_of self.now) }
    {
        match self.flag {
            None => self.level,
            Some(level) => level,
        }
    }

    /// The tables of a scan with the open operations over them: what these leave there. It takes no memory.
    pub fn overlay<'a, S: Scan>(&'a self, under: &'a S) -> Overlay<'a, S>
        requires kept { IsKept (S.state under.now).schema self.now }
        requires shown { AreShown (seen_of self.now).ops (S.state under.now) }
        ensures { applied_all (seen_of self.now).ops (S.state under.now)
            ≡ Some (⟦<Overlay<'a, S> as Scan>⟧.state result) }
    {
        self.own.over(under)
    }

    /// Whether an open operation writes a key. It takes no memory.
    pub fn writes(&self, table: TableId, key: &Key) -> bool
        ensures { (schema : List Def) → IsKept schema self.now
            → result ≡ is_among (footprint_of schema (seen_of self.now).ops).written
            (record { table = table; key = key.now }) }
    {
        self.written.has_key(table, key)
    }

    /// The operations go behind the open ones, and their keys are held.
    ///
    /// It fails for want of memory alone, and the session then has the operations that it had.
    pub fn write(
        &mut self,
        alloc: Global,
        schema: &BackingSchema,
        ops: Ops,
    ) -> Result<(), AllocError>
        requires kept { IsKept schema.now self.old }
        requires defined { are_defined schema.now ops ≡ true }
        requires few { length self.old.ops.items + length ops ≤ greatest Operations }
        ensures ok { OnOk result (seen_of self.new ≡ with_ops ops (seen_of self.old)) }
        ensures err { OnErr result (seen_of self.new ≡ seen_of self.old) }
        ensures kept { IsKept schema.now self.new }
    {
        self.widen(alloc, schema)?;
        let ready = make_ready(alloc, schema, &ops)?;
        let mut more = ops.into_vec();
        self.ops.append(&mut more)?;
        let (steps, written, referred) = ready.into_parts();
        self.own.lay(alloc, steps);
        self.written.hold(written);
        self.referred.hold(referred);
        Ok(())
    }

    // Makes places for the tables of the schema. Those that were made where memory is wanting stay, and hold nothing.
    fn widen(&mut self, alloc: Global, schema: &BackingSchema) -> Result<(), AllocError>
        requires { IsKept schema.now self.old }
        ensures seen { seen_of self.new ≡ seen_of self.old }
        ensures kept { IsKept schema.now self.new }
        ensures own { OnOk result (length self.new.own ≡ length schema.now) }
        ensures written { OnOk result (length self.new.written ≡ length schema.now) }
        ensures referred { OnOk result (length self.new.referred ≡ length schema.now) }
    {
        self.widen_own(alloc, schema)?;
        self.widen_written(alloc, schema)?;
        self.widen_referred(alloc, schema)
    }

    fn widen_own(&mut self, alloc: Global, schema: &BackingSchema) -> Result<(), AllocError>
        requires { IsKept schema.now self.old }
        ensures seen { seen_of self.new ≡ seen_of self.old }
        ensures kept { IsKept schema.now self.new }
        ensures own { OnOk result (length self.new.own ≡ length schema.now) }
    {
        self.own.widen(alloc, schema)
    }

    fn widen_written(&mut self, alloc: Global, schema: &BackingSchema) -> Result<(), AllocError>
        requires { IsKept schema.now self.old }
        ensures seen { seen_of self.new ≡ seen_of self.old }
        ensures kept { IsKept schema.now self.new }
        ensures own { self.new.own ≡ self.old.own }
        ensures written { OnOk result (length self.new.written ≡ length schema.now) }
    {
        self.written.widen(alloc, schema.len())
    }

    fn widen_referred(&mut self, alloc: Global, schema: &BackingSchema) -> Result<(), AllocError>
        requires { IsKept schema.now self.old }
        ensures seen { seen_of self.new ≡ seen_of self.old }
        ensures kept { IsKept schema.now self.new }
        ensures own { self.new.own ≡ self.old.own }
        ensures written { self.new.written ≡ self.old.written }
        ensures referred { OnOk result (length self.new.referred ≡ length schema.now) }
    {
        self.referred.widen(alloc, schema.len())
    }
}

impl Drop for Session {
    fn drop(self) {
        let Self {
            id: _,
            label: _,
            level: _,
            durable: _,
            flag: _,
            ops: _,
            own: _,
            written: _,
            referred: _,
        } = self;
    }
}

// What operations are to leave and hold, with all memory for it.
struct Ready {
    steps: Steps,
    written: Vec<Mark>,
    referred: Vec<Mark>,
}

impl Ready {
    fn into_parts(self) -> (Steps, Vec<Mark>, Vec<Mark>)
        ensures steps { result.0 ≡ self.steps }
        ensures written { result.1 ≡ self.written }
        ensures referred { result.2 ≡ self.referred }
    {
        let Self {
            steps,
            written,
            referred,
        } = self;
        (steps, written, referred)
    }
}

impl Drop for Ready {
    fn drop(self) {
        let Self {
            steps: _,
            written: _,
            referred: _,
        } = self;
    }
}

fn make_ready(alloc: Global, schema: &BackingSchema, ops: &Ops) -> Result<Ready, AllocError>
    requires { are_defined schema.now ops.now ≡ true }
    ensures steps { IfOk result (λ ready. AreStepsOf schema.now ops.now ready.steps) }
    ensures written { IfOk result (λ ready.
        map key_of_mark ready.written.items ≡ (footprint_of schema.now ops.now).written) }
    ensures referred { IfOk result (λ ready.
        map key_of_mark ready.referred.items ≡ (footprint_of schema.now ops.now).referred) }
{
    let footprint = Footprint::of(alloc, schema, ops.as_slice())?;
    let (written, referred) = footprint.into_parts();
    let written = marks(alloc, written)?;
    let referred = marks(alloc, referred)?;
    let steps = steps_of(alloc, schema, ops.as_slice())?;
    Ok(Ready {
        steps,
        written,
        referred,
    })
}
