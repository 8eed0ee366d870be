//! Who wrote the keys of all tables last.

ghost use Rattle.std.specs.Prelude.{◌≡◌, ◌∷◌, ◌++◌, ◌<◌, ◌≤◌, ℕ, [], All, IfOk, List, OnErr, OnOk, length, option_map, true};
ghost use Rattle.table_state.specs.table_defs.specs.declared.definition.TableDef.{TableDef as Def};
ghost use Rattle.table_state.specs.declared.footprint.RowKey.{RowKey as OneKey};
ghost use Rattle.table_state.specs.declared.history.Sealed.{Sealed as OneSealed};
ghost use Rattle.pending_writes.specs.LastWriters.{last_writer};
ghost use Rattle.pending_writes.specs.Noting.{AllStaySince, AreEntered, IsEntered, noted_all, StayEntered, StayTold, WritesNoted};

use crate::writers::{Writer, Writers};
use crate::writes::{Write, writes_of};
use std::alloc::{AllocError, Global};
use table_state::row_types::Key;
use table_state::table_defs::BackingSchema;
use table_state::tier_base::{TableId, Ticket};
use table_state::{Op, Sealed};

/// The last writer of each key, of the transactions that wait for their receipt, by the place of its table in the
/// schema. What is kept of transactions that don't wait any more has tickets below those of all that wait, and says
/// nothing.
pub struct PendingWrites {
    pub(crate) tables: Vec<Writers>,
}

impl Drop for PendingWrites {
    fn drop(self) {
        let Self { tables: _ } = self;
    }
}

impl PendingWrites {
    ghost use Rattle.pending_writes.specs.Noting.{TellsWriters};

    /// No transaction waits. It takes no memory.
    pub fn new(alloc: Global) -> PendingWrites
        ensures { (schema : List Def) (first : ℕ) → TellsWriters schema first [] result }
    {
        PendingWrites {
            tables: Vec::new(alloc),
        }
    }

    /// One more transaction waits, behind the others.
    ///
    /// It fails for want of memory alone, and then says what it said.
    pub fn add(
        &mut self,
        alloc: Global,
        schema: &BackingSchema,
        sealed: &Sealed,
    ) -> Result<(), AllocError>
        ensures ok { (first : ℕ) (waiting : List OneSealed) → first ≤ sealed.now.ticket.0
            → TellsWriters schema.now first waiting self.old
            → OnOk result (TellsWriters schema.now first (waiting ++ sealed.now ∷ []) self.new) }
        ensures err { (known : List Def) (first : ℕ) (waiting : List OneSealed)
            → TellsWriters known first waiting self.old
            → OnErr result (TellsWriters known first waiting self.new) }
    {
        let writes = writes_of(alloc, schema, sealed.ops.as_slice())?;
        widen(alloc, &mut self.tables, schema.len())?;
        enter_and_note(alloc, self.tables.as_mut_slice(), sealed.ticket, writes)
    }

    /// Looks at two of the keys that are kept for each of these operations, each time at others in turn, and lets those
    /// go whose last writers don't wait any more; `first` is the ticket of the first that waits, or the next one where
    /// none does. It takes no memory.
    pub fn sweep(&mut self, first: Ticket, ops: &[Op])
        ensures { (schema : List Def) (waiting : List OneSealed) → TellsWriters schema first.0 waiting self.old
            → TellsWriters schema first.0 waiting self.new }
    {
        sweep_all(self.tables.as_mut_slice(), first, ops);
    }

    /// The last writer of a key of a table, of the transactions that wait; `first` is the ticket of the first of them.
    /// It takes no memory.
    pub fn last(&self, first: Ticket, table: TableId, key: &Key) -> Option<Writer>
        ensures { (schema : List Def) (waiting : List OneSealed) → TellsWriters schema first.0 waiting self.now
            → result ≡ last_writer schema (record { table = table; key = key.now }) waiting }
    {
        match self.tables.as_slice().get(table.0 as usize) {
            None => None,
            Some(writers) => match writers.get(key) {
                None => None,
                Some(None) => None,
                Some(Some(writer)) => {
                    if first.0 <= writer.ticket.0 {
                        Some(writer)
                    } else {
                        None
                    }
                }
            },
        }
    }
}

// Looks at two entries of the table of each operation. It takes no memory.
fn sweep_all(tables: &mut [Writers], first: Ticket, ops: &[Op])
    ensures { AllStaySince first.0 tables.old tables.new }
{
    for op in ops {
        sweep_two(tables, first, op.table());
    }
}

// Looks at two entries of a table.
fn sweep_two(tables: &mut [Writers], first: Ticket, table: TableId)
    ensures { AllStaySince first.0 tables.old tables.new }
{
    sweep(tables, first, table);
    sweep(tables, first, table);
}

// Looks at an entry of a table, where there is a place for it.
fn sweep(tables: &mut [Writers], first: Ticket, table: TableId)
    ensures { AllStaySince first.0 tables.old tables.new }
{
    let place = table.0 as usize;
    if place < tables.len() {
        tables[place].sweep(first);
    }
}

// Makes a place for each of so many tables. It fails for want of memory alone; what was made then stays, and says
// nothing.
fn widen(alloc: Global, tables: &mut Vec<Writers>, count: usize) -> Result<(), AllocError>
    ensures told { StayTold tables.old.items tables.new.items }
    ensures wide { OnOk result (count ≤ length tables.new.items) }
{
    for place in tables.len()..count {
        let _ = place;
        tables.push(Writers::new(alloc))?;
    }
    Ok(())
}

// Notes that this transaction made writes. It fails for want of memory alone; what was entered then stays, and says
// nothing.
fn enter_and_note(
    alloc: Global,
    tables: &mut [Writers],
    ticket: Ticket,
    writes: Vec<Write>,
) -> Result<(), AllocError>
    ensures ok { OnOk result (WritesNoted ticket writes.items tables.old tables.new) }
    ensures err { OnErr result (StayTold tables.old tables.new) }
{
    enter_all(alloc, tables, writes.as_slice())?;
    note_all(tables, ticket, writes);
    Ok(())
}

// Enters the keys of all writes. It fails for want of memory alone; what was entered then stays, and says nothing.
fn enter_all(alloc: Global, tables: &mut [Writers], writes: &[Write]) -> Result<(), AllocError>
    ensures told { StayTold tables.old tables.new }
    ensures entered { OnOk result (AreEntered tables.new writes.now) }
{
    for write in writes {
        enter(alloc, tables, write)?;
    }
    Ok(())
}

// Enters the key of a write. It fails for want of memory, and where there is no place for its table.
fn enter(alloc: Global, tables: &mut [Writers], write: &Write) -> Result<(), AllocError>
    ensures told { StayTold tables.old tables.new }
    ensures stay { StayEntered tables.old tables.new }
    ensures entered { OnOk result (IsEntered tables.new write.now) }
{
    let place = write.table.0 as usize;
    if place >= tables.len() {
        return Err(AllocError);
    }
    tables[place].enter(alloc, &write.key)
}

// Notes that this transaction made writes, whose keys are entered. It takes no memory.
fn note_all(tables: &mut [Writers], ticket: Ticket, writes: Vec<Write>)
    requires { AreEntered tables.old writes.items }
    ensures { tables.new ≡ noted_all ticket writes.items tables.old }
{
    for write in writes {
        write.note(tables, ticket);
    }
}
