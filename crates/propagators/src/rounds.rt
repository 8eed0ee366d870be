//! A round of propagation by one thread.

ghost use Rattle.std.specs.Prelude.{◌≡◌, ◌≤◌, [], Err, IfOk, IsSome, List, Some, length};
ghost use Rattle.std.specs.Result.{OnOk};
ghost use Rattle.outside.specs.Calls.{BankTold};
ghost use Rattle.outside.specs.Holding.{Held};
ghost use Rattle.row_types.specs.declared.value.Value.{Value};
ghost use Rattle.propagators.specs.Certainty.{KeepsCertain};
ghost use Rattle.propagators.specs.Rounds.{DifferedAt, IsRestOf, RoundHasCause, RoundTold, Settles, doubts};
ghost use Rattle.propagators.specs.declared.rounds.RoundFault.TheVariants as stop;

use outside::{Applied, BankError, Site};
use row_types::Key;
use std::collections::VecDeque;
use table_state::Sealed;
use tier_base::TableId;

/// Why a round ended early.
pub enum RoundFault {
    /// A call of the bank failed.
    Failed,
    /// Memory was wanting.
    Memory,
    /// A backing row differs from what a committed transaction tells of it. Of the first operation that doesn't apply:
    /// the table and the key of the row that isn't as it should be.
    Differs(TableId, Key),
}

impl Drop for RoundFault {
    fn drop(self) {
        match self {
            Self::Failed => {}
            Self::Memory => {}
            Self::Differs(_, _) => {}
        }
    }
}

/// Applies the unsettled transactions in turn, in ticket order, and lets those go whose receipt it sees. It gives their
/// number. Transactions of others may come before, between and behind.
///
/// After a fault those without a receipt stay, in their order, also where the site tells nothing. `Failed` only where
/// the count of bank faults rose in this call; the first that is left may then have come, and in no other case has one
/// come that is left. `Differs` tells the first difference of the first that is left.
///
/// (TimesTen Cache User's Guide, asynchronous writethrough; the round is this project's rule.)
pub fn round<P: Site>(site: &mut P, unsettled: &mut VecDeque<Sealed>) -> Result<u64, RoundFault>
    ensures goes { RoundTold (P.Disk.state site.old) (P.Disk.state site.new) (doubts result)
        unsettled.old.items unsettled.new.items }
    ensures all { OnOk result (unsettled.new.items ≡ []) }
    ensures told { IfOk result (λ n. n ≡ length unsettled.old.items) }
    ensures rest { IsRestOf unsettled.old.items unsettled.new.items }
    ensures differs { (table : TableId) (key : List Value) → result ≡ Err (stop.Differs table key)
        → IsSome (P.Disk.state site.old).held → (held : Held) → (P.Disk.state site.new).held ≡ Some held
        → DifferedAt (P.Disk.state site.old).shared table key unsettled.new.items held.history }
    ensures moment { (P.Disk.state site.old).moment ≤ (P.Disk.state site.new).moment }
    ensures certain { KeepsCertain P.Disk.state P.Disk.possible site.old site.new }
    ensures cause { RoundHasCause (P.Disk.state site.old) (P.Disk.state site.new) result }
{
    let mut receipts = 0;
    while let Some(sealed) = unsettled.front() {
        settle(site, sealed)?;
        unsettled.pop_front();
        receipts += 1;
    }
    Ok(receipts)
}

/// Sees to it that the transaction stands in the backing history.
fn settle<P: Site>(site: &mut P, sealed: &Sealed) -> Result<(), RoundFault>
    ensures told { BankTold (P.Disk.state site.old) (P.Disk.state site.new) (Settles sealed.now result) }
    ensures moment { (P.Disk.state site.old).moment ≤ (P.Disk.state site.new).moment }
    ensures certain { KeepsCertain P.Disk.state P.Disk.possible site.old site.new }
    ensures cause { RoundHasCause (P.Disk.state site.old) (P.Disk.state site.new) result }
{
    match site.apply_once(sealed, &[]) {
        Ok(Applied::Now(_)) => Ok(()),
        Ok(Applied::Before(_)) => Ok(()),
        // It waits for no other.
        Ok(Applied::NotReady(_)) => unreachable!(),
        Ok(Applied::Differs(table, key, _)) => Err(RoundFault::Differs(table, key)),
        Err(BankError::Failed) => Err(RoundFault::Failed),
        Err(BankError::Memory) => Err(RoundFault::Memory),
    }
}
