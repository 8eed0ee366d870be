//! The fold: what one entry makes of what those before it leave.

ghost use Rattle.std.specs.Prelude.{◌≡◌, ◌+◌, IfOk, List, ℕ, false, max, true};
ghost use Rattle.cache_tier.specs.StandingBetween.{HaveOwnTables};
ghost use Rattle.cache_tier.specs.Journals.{Commits, Defines};
ghost use Rattle.cache_tier.specs.Undone.{is_user_managed};

use crate::fitting::{is_mark, is_next_ticket, ops_fit};
use crate::naming::{drop_named, set_loaded, set_state};
use crate::recalled::Recalled;
use group_catalog::{Catalog, KeptGroup, define_read_back};
use row_types::Refused;
use sql_subset::stmt::{CreateGroup, GroupKind};
use std::alloc::{AllocError, Global};
use std::collections::VecDeque;
use table_defs::BackingSchema;
use table_state::Sealed;
use tier_base::{Moment, Ticket};
use tier_journal::Record;

// What entries leave: the groups, one above their greatest ticket, the next ticket, which is at least their marks,
// and the transactions that they commit.
pub(crate) struct Fold {
    pub(crate) catalog: Catalog,
    pub(crate) above: u64,
    pub(crate) next: u64,
    pub(crate) commits: VecDeque<Sealed>,
}

impl Drop for Fold {
    fn drop(self) {
        let Self {
            catalog: _,
            above: _,
            next: _,
            commits: _,
        } = self;
    }
}

impl Fold {
    ghost use Rattle.group_catalog.specs.Catalogs.{groups_in};
    ghost use Rattle.tier_journal.specs.Opening.{is_commit, is_definition, meaning};
    ghost use Rattle.recalling.specs.Fitting.{definition_fits, fits, is_mark, is_next_ticket, sealed_fits};
    ghost use Rattle.recalling.specs.Steps.{AreNamedApart, IsNewFold, IsTaken, is_of_kind};

    // No entry. It takes no memory.
    pub(crate) fn new(alloc: Global) -> Fold
        ensures { IsNewFold result }
    {
        Fold {
            catalog: Catalog::new(alloc),
            above: 1,
            next: 1,
            commits: VecDeque::new(alloc),
        }
    }

    // What is kept of it.
    pub(crate) fn into_recalled(self) -> Recalled
        ensures { result ≡ record { catalog = self.catalog; next = self.next; commits = self.commits } }
    {
        let Self {
            catalog,
            above: _,
            next,
            commits,
        } = self;
        Recalled {
            catalog,
            next,
            commits,
        }
    }

    // Takes an entry in, at the moment of the opening; false where it doesn't fit.
    pub(crate) fn take(
        &mut self,
        alloc: Global,
        schema: &BackingSchema,
        now: Moment,
        entry: Record,
    ) -> Result<bool, AllocError>
        requires own { HaveOwnTables (groups_in self.old.catalog) }
        requires named { AreNamedApart (groups_in self.old.catalog) }
        ensures taken { IfOk result (λ fit. fit ≡ true
            → IsTaken schema.now now.0 (meaning entry) self.old self.new) }
        ensures unfit { IfOk result (λ fit. fit ≡ false
            → fits schema.now (groups_in self.old.catalog) self.old.above (meaning entry) ≡ false) }
    {
        match entry.into_commit() {
            Ok(sealed) => self.take_commit(schema, sealed),
            Err(entry) => match entry.into_definition() {
                Ok((declared, _)) => self.take_definition(alloc, schema, now, declared),
                Err(entry) => Ok(self.take_other(schema, &entry)),
            },
        }
    }

    // An asynchronous transaction, which waits behind those before it.
    fn take_commit(&mut self, schema: &BackingSchema, sealed: Sealed) -> Result<bool, AllocError>
        requires own { HaveOwnTables (groups_in self.old.catalog) }
        ensures taken { (moment : ℕ) → IfOk result (λ fit. fit ≡ true
            → IsTaken schema.now moment (Commits sealed) self.old self.new) }
        ensures unfit { IfOk result (λ fit. fit ≡ false
            → fits schema.now (groups_in self.old.catalog) self.old.above (Commits sealed) ≡ false) }
    {
        if !self.take_sealed(schema, false, &sealed) {
            return Ok(false);
        }
        self.commits.push_back(sealed)?;
        Ok(true)
    }

    // The definition of a group, which comes behind the others.
    fn take_definition(
        &mut self,
        alloc: Global,
        schema: &BackingSchema,
        now: Moment,
        declared: CreateGroup,
    ) -> Result<bool, AllocError>
        ensures taken { (text : List ℕ) → IfOk result (λ fit. fit ≡ true
            → IsTaken schema.now now.0 (Defines declared text) self.old self.new) }
        ensures unfit { IfOk result (λ fit. fit ≡ false
            → definition_fits schema.now (groups_in self.old.catalog) declared ≡ false) }
    {
        match define_read_back(alloc, schema, &self.catalog, declared) {
            Err(Refused::Memory) => Err(AllocError),
            Err(Refused::Rule(_)) => Ok(false),
            Ok(def) => {
                if is_user_managed(def.kind) {
                    return Ok(false);
                }
                self.catalog
                    .add(KeptGroup::new(def, Ticket(self.above), now))?;
                Ok(true)
            }
        }
    }

    // An entry that is no commit and no definition.
    fn take_other(&mut self, schema: &BackingSchema, entry: &Record) -> bool
        requires own { HaveOwnTables (groups_in self.old.catalog) }
        requires named { AreNamedApart (groups_in self.old.catalog) }
        requires commit { is_commit entry.now ≡ false }
        requires definition { is_definition entry.now ≡ false }
        ensures taken { (moment : ℕ) → result ≡ true
            → IsTaken schema.now moment (meaning entry.now) self.old self.new }
        ensures unfit { result ≡ false
            → fits schema.now (groups_in self.old.catalog) self.old.above (meaning entry.now) ≡ false }
    {
        match entry {
            Record::Commit(_) => unreachable!(),
            Record::Prepare(sealed) => self.take_sealed(schema, true, sealed),
            Record::Number(ticket) => self.take_ticket(*ticket),
            Record::Mark(next) => self.take_mark(*next),
            Record::Define(_, _) => unreachable!(),
            Record::Drop(name) => drop_named(&mut self.catalog, name.as_slice()),
            Record::State(name, state) => set_state(&mut self.catalog, name.as_slice(), *state),
            Record::Loaded(name, loaded) => {
                set_loaded(&mut self.catalog, name.as_slice(), *loaded)
            }
        }
    }

    // A transaction of SYNCHRONOUS or of ASYNCHRONOUS WRITETHROUGH groups.
    fn take_sealed(&mut self, schema: &BackingSchema, synchronous: bool, sealed: &Sealed) -> bool
        requires own { HaveOwnTables (groups_in self.old.catalog) }
        ensures fit { result ≡ sealed_fits schema.now (groups_in self.old.catalog) (is_of_kind synchronous)
            self.old.above sealed.now }
        ensures taken { result ≡ true → self.new ≡ record self.old {
          above = sealed.now.ticket.0 + 1;
          next = max self.old.next (sealed.now.ticket.0 + 1);
        } }
    {
        !sealed.ops.is_empty()
            && ops_fit(schema, &self.catalog, synchronous, sealed.ops.as_slice())
            && self.take_ticket(sealed.ticket)
    }

    fn take_ticket(&mut self, ticket: Ticket) -> bool
        ensures fit { result ≡ is_next_ticket self.old.above ticket.0 }
        ensures taken { result ≡ true → self.new ≡ record self.old {
          above = ticket.0 + 1;
          next = max self.old.next (ticket.0 + 1);
        } }
    {
        if is_next_ticket(self.above, ticket) {
            let above = ticket.0 + 1;
            self.above = above;
            self.next = self.next.max(above);
            true
        } else {
            false
        }
    }

    fn take_mark(&mut self, next: Ticket) -> bool
        ensures fit { result ≡ is_mark next.0 }
        ensures taken { result ≡ true → self.new ≡ record self.old { next = max self.old.next next.0 } }
    {
        if is_mark(next) {
            self.next = self.next.max(next.0);
            true
        } else {
            false
        }
    }
}

// USERMANAGED.
fn is_user_managed(kind: GroupKind) -> bool
    ensures { result ≡ is_user_managed kind }
{
    match kind {
        GroupKind::UserManaged => true,
        _ => false,
    }
}
