//! Calls that are planned to fail.

ghost use Rattle.std.specs.Prelude.{◌≡◌, OnErr, OnOk};
ghost use Rattle.backing_gate.specs.Plans.{after_call, counted, is_for, no_plans, number_of, outcome_of, planned_next, same_kind, with_plan};

use std::alloc::{AllocError, Global};
use std::marker::Model;

/// A call of the site.
#[derive(Clone, Copy, Debug, PartialEq, Eq)]
pub enum CallKind {
    /// `schema`.
    Schema,
    /// `define`.
    Define,
    /// `apply_once`.
    ApplyOnce,
    /// `recorded`.
    Recorded,
    /// `find`.
    Find,
    /// `foreign`.
    Foreign,
    /// `passed`.
    Passed,
    /// `snapshot`.
    Snapshot,
    /// `reach`.
    Reach,
    /// `changes`.
    Changes,
    /// `len` of the disk.
    Len,
    /// `read_at` of the disk.
    ReadAt,
    /// `write_at` of the disk.
    WriteAt,
    /// `cut` of the disk.
    Cut,
    /// `sync` of the disk.
    Sync,
}

/// When a call fails.
#[derive(Clone, Copy, Debug, PartialEq, Eq)]
pub enum When {
    /// Before its effect, which doesn't come.
    Before,
    /// After its effect, which stands.
    After,
}

/// How a call comes out that doesn't just answer.
#[derive(Clone, Copy, Debug, PartialEq, Eq)]
pub enum Outcome {
    /// It fails.
    Failed(When),
    /// Memory is wanting.
    Refused,
}

/// That the call of this kind and number, from 0, comes out so.
#[derive(Clone, Copy, Debug, PartialEq, Eq)]
pub struct Plan {
    /// The kind.
    pub kind: CallKind,
    /// The number.
    pub number: u64,
    /// How it comes out.
    pub outcome: Outcome,
}

/// How many calls of each kind there were. The counts stay at 2^64 - 1.
#[derive(Clone, Copy, Debug, PartialEq, Eq)]
pub struct CallCounts {
    /// Of `schema`.
    pub schema: u64,
    /// Of `define`.
    pub define: u64,
    /// Of `apply_once`.
    pub apply_once: u64,
    /// Of `recorded`.
    pub recorded: u64,
    /// Of `find`.
    pub find: u64,
    /// Of `foreign`.
    pub foreign: u64,
    /// Of `passed`.
    pub passed: u64,
    /// Of `snapshot`.
    pub snapshot: u64,
    /// Of `reach`.
    pub reach: u64,
    /// Of `changes`.
    pub changes: u64,
    /// Of `len`.
    pub len: u64,
    /// Of `read_at`.
    pub read_at: u64,
    /// Of `write_at`.
    pub write_at: u64,
    /// Of `cut`.
    pub cut: u64,
    /// Of `sync`.
    pub sync: u64,
}

impl CallCounts {
    /// How many calls of this kind there were.
    pub(crate) fn of(&self, kind: CallKind) -> u64
        ensures { result ≡ number_of kind self.now }
    {
        match kind {
            CallKind::Schema => self.schema,
            CallKind::Define => self.define,
            CallKind::ApplyOnce => self.apply_once,
            CallKind::Recorded => self.recorded,
            CallKind::Find => self.find,
            CallKind::Foreign => self.foreign,
            CallKind::Passed => self.passed,
            CallKind::Snapshot => self.snapshot,
            CallKind::Reach => self.reach,
            CallKind::Changes => self.changes,
            CallKind::Len => self.len,
            CallKind::ReadAt => self.read_at,
            CallKind::WriteAt => self.write_at,
            CallKind::Cut => self.cut,
            CallKind::Sync => self.sync,
        }
    }

    /// Counts a call of this kind.
    pub(crate) fn count(&mut self, kind: CallKind)
        ensures { self.new ≡ counted kind self.old }
    {
        match kind {
            CallKind::Schema => self.schema = self.schema.saturating_add(1),
            CallKind::Define => self.define = self.define.saturating_add(1),
            CallKind::ApplyOnce => self.apply_once = self.apply_once.saturating_add(1),
            CallKind::Recorded => self.recorded = self.recorded.saturating_add(1),
            CallKind::Find => self.find = self.find.saturating_add(1),
            CallKind::Foreign => self.foreign = self.foreign.saturating_add(1),
            CallKind::Passed => self.passed = self.passed.saturating_add(1),
            CallKind::Snapshot => self.snapshot = self.snapshot.saturating_add(1),
            CallKind::Reach => self.reach = self.reach.saturating_add(1),
            CallKind::Changes => self.changes = self.changes.saturating_add(1),
            CallKind::Len => self.len = self.len.saturating_add(1),
            CallKind::ReadAt => self.read_at = self.read_at.saturating_add(1),
            CallKind::WriteAt => self.write_at = self.write_at.saturating_add(1),
            CallKind::Cut => self.cut = self.cut.saturating_add(1),
            CallKind::Sync => self.sync = self.sync.saturating_add(1),
        }
    }
}

/// The plans, and the calls so far.
pub(crate) struct Plans {
    plans: Vec<Plan>,
    calls: CallCounts,
}

impl Drop for Plans {
    fn drop(self) {
        let Self { plans: _, calls: _ } = self;
    }
}

impl Model for Plans {
    ghost use Rattle.backing_gate.specs.Plans.{Planned};

    ghost Value = { Planned };

    ghost view = { λ p. record { plans = p.plans.items; calls = p.calls } };
}

impl Plans {
    /// No plan, and no call yet. It takes no memory.
    pub(crate) fn new(alloc: Global) -> Plans
        ensures { result ≡ no_plans }
    {
        Plans {
            plans: Vec::new(alloc),
            calls: CallCounts {
                schema: 0,
                define: 0,
                apply_once: 0,
                recorded: 0,
                find: 0,
                foreign: 0,
                passed: 0,
                snapshot: 0,
                reach: 0,
                changes: 0,
                len: 0,
                read_at: 0,
                write_at: 0,
                cut: 0,
                sync: 0,
            },
        }
    }

    /// Adds a plan behind the others. For want of memory they stay.
    pub(crate) fn add(&mut self, plan: Plan) -> Result<(), AllocError>
        ensures ok { OnOk result (self.new ≡ with_plan plan self.old) }
        ensures err { OnErr result (self.new ≡ self.old) }
    {
        self.plans.push(plan)?;
        Ok(())
    }

    /// Counts a call of this kind, and tells what is planned of it.
    pub(crate) fn next(&mut self, kind: CallKind) -> Option<Outcome>
        ensures outcome { result ≡ planned_next kind self.old }
        ensures counted { self.new ≡ after_call kind self.old }
    {
        let number = self.calls.of(kind);
        self.calls.count(kind);
        self.planned(kind, number)
    }

    fn planned(&self, kind: CallKind, number: u64) -> Option<Outcome>
        ensures { result ≡ outcome_of self.now.plans kind number }
    {
        match self.plans.iter().find(|plan| is_for(plan, kind, number)) {
            None => None,
            Some(plan) => Some(plan.outcome),
        }
    }
}

fn is_for(plan: &Plan, kind: CallKind, number: u64) -> bool
    ensures { result ≡ is_for kind number plan.now }
{
    is_same_kind(plan.kind, kind) && plan.number == number
}

fn is_same_kind(a: CallKind, b: CallKind) -> bool
    ensures { result ≡ same_kind a b }
{
    a == b
}
