//! Rounds of propagation, and ttDrain.

ghost use Rattle.std.specs.Prelude.{◌≡◌, [], IfOk, None, OnOk, Some};
ghost use Rattle.row_types.specs.declared.rule.Detail.TheVariants as detail;
ghost use Rattle.cache_tier.specs.Rounds.{Drains, Round, RoundIfUnsettled};
ghost use Rattle.cache_tier.specs.Worlds.{Tries};
ghost use Rattle.stored_tier.specs.Draining.{IsEnded};
ghost use Rattle.tier_base.specs.declared.code.Code.TheVariants as code;

use crate::new_slot::slot_batch;
use crate::tier::Tier;
use cache_tier::reply::{Last, Reply};
use cache_tier::round_shown_law;
use outside::Site;
use propagators::laws::{follow_law, left_law};
use propagators::{RoundFault, round};
use row_types::{Detail, Key, Rule};
use std::alloc::{AllocError, Global};
use tier_base::{Code, Name, TableId};
use tier_journal::{TierJournal, flush_tail, is_long, rotate_journal};
use tier_statements::{done, faulty, only};

impl Tier {
    ghost use Rattle.cache_tier.specs.Rotations.{RotatesIfLong};
    ghost use Rattle.tier_journal.specs.KeptOver.{DiskIsCaused};
    ghost use Rattle.propagators.specs.Certainty.{KeepsCertain};
    ghost use Rattle.stored_tier.specs.Draining.{AppliesAll, SettlesAll, settled_reply, settled_stop};
    ghost use Rattle.stored_tier.specs.Performing.{IsCaused, IsCausedOver, IsStopCausedOver, Performs, PerformsOver, stop_of};
    ghost use Rattle.stored_tier.specs.Refusing.{TellsRoundEnd};
    ghost use Rattle.stored_tier.specs.Stored.{IsSound};

    /// CALL ttDrain: the unsettled transactions are applied at the bank, in ticket order, and a long journal is
    /// rotated. The reply tells how many got their receipt; nothing is unsettled then.
    ///
    /// It is 202 where a call of the journal's disk failed; the run is to end then. It is 201 where a call of the bank
    /// failed, 210 with the table and the key of a row that isn't as the transaction says, and 299 where memory was
    /// wanting; then those stay unsettled that have no receipt. (TimesTen Cache User's Guide, asynchronous
    /// writethrough; the call and its codes are this project's rule.)
    pub fn drain<P: Site>(
        &mut self,
        alloc: Global,
        site: &mut P,
        journal: &mut Option<TierJournal>,
    ) -> Reply
        requires { IsSound self.old }
        ensures performs { PerformsOver P.Disk.state P.Disk.possible self.old self.new journal.old journal.new
            site.old site.new (Some result) (λ w w'. Tries Drains w w' result) }
        ensures none { journal.old ≡ None → journal.new ≡ None }
        ensures sound { IsSound self.new }
        ensures cause { IsCausedOver journal.old
            (P.Disk.state site.old)
            (P.Disk.state site.new)
            result }
    {
        match self.settle(alloc, site, journal) {
            Ok(receipts) => done(alloc, receipts),
            Err(reply) => reply,
        }
    }

    /// A round, with a rotation of a long journal behind it. The reply is the one with which it ended early; else
    /// nothing is unsettled.
    pub fn settle_all<P: Site>(
        &mut self,
        alloc: Global,
        site: &mut P,
        journal: &mut Option<TierJournal>,
    ) -> Result<(), Reply>
        requires { IsSound self.old }
        ensures performs { PerformsOver P.Disk.state P.Disk.possible self.old self.new journal.old journal.new
            site.old site.new (stop_of result) (λ w w'. Round w w' (stop_of result)) }
        ensures all { OnOk result (self.new.unsettled.items ≡ []) }
        ensures same { self.new ≡ record self.old { unsettled = self.new.unsettled; clock = self.new.clock } }
        ensures clock { self.new.clock ≡ record self.old.clock { round = self.old.clock.now } }
        ensures none { journal.old ≡ None → journal.new ≡ None }
        ensures sound { IsSound self.new }
        ensures cause { IsStopCausedOver journal.old
            (P.Disk.state site.old)
            (P.Disk.state site.new)
            (stop_of result) }
    {
        match self.settle(alloc, site, journal) {
            Ok(_) => Ok(()),
            Err(reply) => Err(reply),
        }
    }

    /// A round, where a transaction is unsettled. The reply is the one with which it ended early; else nothing is
    /// unsettled.
    pub fn settle_pending<P: Site>(
        &mut self,
        alloc: Global,
        site: &mut P,
        journal: &mut Option<TierJournal>,
    ) -> Result<(), Reply>
        requires { IsSound self.old }
        ensures performs { PerformsOver P.Disk.state P.Disk.possible self.old self.new journal.old journal.new
            site.old site.new (stop_of result) (λ w w'. RoundIfUnsettled w w' (stop_of result)) }
        ensures all { OnOk result (self.new.unsettled.items ≡ []) }
        ensures same { self.new ≡ record self.old { unsettled = self.new.unsettled; clock = self.new.clock } }
        ensures none { journal.old ≡ None → journal.new ≡ None }
        ensures sound { IsSound self.new }
        ensures cause { IsStopCausedOver journal.old
            (P.Disk.state site.old)
            (P.Disk.state site.new)
            (stop_of result) }
    {
        if self.unsettled.is_empty() {
            return Ok(());
        }
        self.settle_all(alloc, site, journal)
    }

    // A round, and how many got their receipt, or the reply with which it ended early.
    fn settle<P: Site>(
        &mut self,
        alloc: Global,
        site: &mut P,
        journal: &mut Option<TierJournal>,
    ) -> Result<u64, Reply>
        requires { IsSound self.old }
        ensures performs { PerformsOver P.Disk.state P.Disk.possible self.old self.new journal.old journal.new
            site.old site.new (settled_stop result) (λ w w'. SettlesAll w w' result) }
        ensures all { OnOk result (self.new.unsettled.items ≡ []) }
        ensures same { self.new ≡ record self.old { unsettled = self.new.unsettled; clock = self.new.clock } }
        ensures clock { self.new.clock ≡ record self.old.clock { round = self.old.clock.now } }
        ensures none { journal.old ≡ None → journal.new ≡ None }
        ensures sound { IsSound self.new }
        ensures cause { IsCausedOver journal.old
            (P.Disk.state site.old)
            (P.Disk.state site.new)
            (settled_reply result) }
    {
        match flush_tail(alloc, site, journal) {
            Err(reply) => {
                self.clock.round = self.clock.now;
                Err(reply)
            }
            Ok(()) => {
                let applied = self.apply(alloc, site);
                let turned = self.rotate_if_long(alloc, site, journal);
                round_ended(applied, turned)
            }
        }
    }

    // What is unsettled is applied at the bank: how many got their receipt, or the reply with which that ended early.
    fn apply<P: Site>(&mut self, alloc: Global, site: &mut P) -> Result<u64, Reply>
        requires { IsSound self.old }
        ensures performs { Performs self.old self.new
            (P.Disk.state site.old)
            (P.Disk.state site.new)
            (λ w w'. AppliesAll w w' result) }
        ensures certain { KeepsCertain P.Disk.state P.Disk.possible site.old site.new }
        ensures all { OnOk result (self.new.unsettled.items ≡ []) }
        ensures same { self.new ≡ record self.old { unsettled = self.new.unsettled; clock = self.new.clock } }
        ensures clock { self.new.clock ≡ record self.old.clock { round = self.old.clock.now } }
        ensures sound { IsSound self.new }
        ensures cause { IsCaused
            (P.Disk.state site.old)
            (P.Disk.state site.new)
            (settled_reply result) }
        ensures disk { (P.Disk.state site.new).disk_faults ≡ (P.Disk.state site.old).disk_faults }
    {
        left_law();
        follow_law();
        round_shown_law();
        self.clock.round = self.clock.now;
        match round(site, &mut self.unsettled) {
            Ok(receipts) => Ok(receipts),
            Err(fault) => Err(self.reply_to_round(alloc, &fault)),
        }
    }

    // The journal's other slot is begun anew, where the live one is long and nothing is unsettled.
    fn rotate_if_long<P: Site>(
        &mut self,
        alloc: Global,
        site: &mut P,
        journal: &mut Option<TierJournal>,
    ) -> Result<(), Reply>
        ensures performs { PerformsOver P.Disk.state P.Disk.possible self.old self.new journal.old journal.new
            site.old site.new (stop_of result) (λ w w'. RotatesIfLong w w' (stop_of result)) }
        ensures same { self.new ≡ self.old }
        ensures none { journal.old ≡ None → journal.new ≡ None }
        ensures cause { DiskIsCaused journal.old (P.Disk.state site.old) (P.Disk.state site.new) (stop_of result) }
    {
        if !self.unsettled.is_empty() {
            return Ok(());
        }
        if !is_long(journal, self.clock.pace.rotate_bytes) {
            return Ok(());
        }
        match slot_batch(alloc, &mut self.catalog, self.next) {
            Err(AllocError) => Ok(()),
            Ok(batch) => rotate_journal(alloc, site, journal, &batch),
        }
    }

    // The reply to a round that ended early.
    fn reply_to_round(&self, alloc: Global, fault: &RoundFault) -> Reply
        ensures { TellsRoundEnd self.now fault.now result }
    {
        match fault {
            RoundFault::Failed => faulty(alloc, Code::BackingFault),
            RoundFault::Memory => faulty(alloc, Code::Memory),
            RoundFault::Differs(table, key) => self.reply_to_difference(alloc, *table, key),
        }
    }

    /// 210 of a row; want of memory where there is no such table.
    pub fn reply_to_difference(&self, alloc: Global, table: TableId, key: &Key) -> Reply
        ensures { TellsRoundEnd self.now (RoundFault.Differs table key.now) result }
    {
        match self.schema.get(table.0 as usize) {
            None => faulty(alloc, Code::Memory),
            Some(def) => match difference(alloc, &def.name, key) {
                Err(_) => faulty(alloc, Code::Memory),
                Ok(rule) => only(alloc, Last::Fault(rule)),
            },
        }
    }
}

// How a round ended: of two ends the disk's counts.
fn round_ended(applied: Result<u64, Reply>, turned: Result<(), Reply>) -> Result<u64, Reply>
    ensures { IsEnded applied turned result }
{
    match turned {
        Err(reply) => Err(reply),
        Ok(()) => applied,
    }
}

// 210 of the row at this key of the table of this name.
fn difference(alloc: Global, name: &Name, key: &Key) -> Result<Rule, AllocError>
    ensures { IfOk result (λ rule. rule ≡ record { code = code.RowDiffers; detail = detail.Row name.now key.now }) }
{
    let name = name.copied(alloc)?;
    let key = key.copied(alloc)?;
    Ok(Rule {
        code: Code::RowDiffers,
        detail: Detail::Row(name, key),
    })
}
