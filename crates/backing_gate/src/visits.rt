//! The transactions of others that are planned, and the calls at which they come.

ghost use Rattle.std.specs.Prelude.{◌≡◌, IfOk, OnErr, OnOk, option_copied};
ghost use Rattle.backing_gate.specs.Visits.{after_bank_call, is_at, no_visits, number_behind, same_side, tables_of, visit_at, with_visit};

use crate::visit::{Side, Visit};
use evaluator::Change;
use std::alloc::{AllocError, Global};
use std::marker::Model;
use tier_base::{Seq, TableId};

/// The transactions of others that are planned, the tables that they name, and the bank calls so far.
pub(crate) struct Visits {
    visits: Vec<Visit>,
    shared: Vec<TableId>,
    calls: u64,
}

impl Drop for Visits {
    fn drop(self) {
        let Self {
            visits: _,
            shared: _,
            calls: _,
        } = self;
    }
}

impl Model for Visits {
    ghost use Rattle.backing_gate.specs.Visits.{Visiting};
    ghost use Rattle.backing_gate.specs.VisitCode.{visiting_code};

    ghost Value = { Visiting };

    ghost coded = { visiting_code };

    ghost view = { λ v. record { visits = v.visits.items; shared = v.shared.items; calls = v.calls } };
}

impl Visits {
    /// No transaction, and no call yet. It takes no memory.
    pub(crate) fn new(alloc: Global) -> Visits
        ensures { result ≡ no_visits }
    {
        Visits {
            visits: Vec::new(alloc),
            shared: Vec::new(alloc),
            calls: 0,
        }
    }

    /// Plans a transaction behind the others, for this side of the call that so many calls come before. For want of
    /// memory nothing changes.
    pub(crate) fn add(
        &mut self,
        alloc: Global,
        calls: u64,
        side: Side,
        changes: Seq<Change>,
    ) -> Result<(), AllocError>
        ensures ok { OnOk result (self.new ≡ with_visit
            (record { number = number_behind calls self.old; side = side; changes = changes }) self.old) }
        ensures err { OnErr result (self.new ≡ self.old) }
    {
        let mut tables = tables_of(alloc, changes.as_slice())?;
        let number = self.calls.saturating_add(calls);
        self.visits.push(Visit {
            number,
            side,
            changes,
        })?;
        match self.shared.append(&mut tables) {
            Ok(()) => Ok(()),
            Err(failed) => {
                let _ = self.visits.pop();
                Err(failed)
            }
        }
    }

    /// Counts a bank call, and tells its number.
    pub(crate) fn next(&mut self) -> u64
        ensures number { result ≡ self.old.calls }
        ensures counted { self.new ≡ after_bank_call self.old }
    {
        let number = self.calls;
        self.calls = self.calls.saturating_add(1);
        number
    }

    /// The writes of the first transaction for this side of the call of this number.
    pub(crate) fn find(&self, side: Side, number: u64) -> Option<&Seq<Change>>
        ensures { option_copied result ≡ visit_at side number self.now.visits }
    {
        match self.visits.iter().find(|visit| is_at(visit, side, number)) {
            None => None,
            Some(visit) => Some(&visit.changes),
        }
    }

    /// The tables that the planned transactions name.
    pub(crate) fn shared(&self) -> &[TableId]
        ensures { result.now ≡ self.now.shared }
    {
        self.shared.as_slice()
    }
}

fn is_at(visit: &Visit, side: Side, number: u64) -> bool
    ensures { result ≡ is_at side number visit.now }
{
    is_same_side(visit.side, side) && visit.number == number
}

fn is_same_side(a: Side, b: Side) -> bool
    ensures { result ≡ same_side a b }
{
    a == b
}

fn tables_of(alloc: Global, changes: &[Change]) -> Result<Vec<TableId>, AllocError>
    ensures { IfOk result (λ tables. tables.items ≡ tables_of changes.now) }
{
    let mut tables = Vec::with_capacity(alloc, changes.len())?;
    for change in changes {
        tables.push(change.table)?;
    }
    Ok(tables)
}
