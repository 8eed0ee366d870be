//! The tier.

ghost use Rattle.std.specs.Prelude.{◌≡◌};
ghost use Rattle.stored_tier.specs.Stored.{first_unsettled};

use crate::clock::TierClock;
use group_catalog::Catalog;
use group_store::{Directory, Store};
use open_sessions::Sessions;
use pending_writes::PendingWrites;
use slot_rows::SlotRows;
use std::collections::VecDeque;
use table_defs::BackingSchema;
use table_state::Sealed;
use tier_base::Ticket;

/// The tier: what it keeps between request lines. Clauses say of which abstract tiers it keeps what can change their
/// answers, and which rows it shows.
pub struct Tier {
    /// The definitions of the backing tables, as the bank told them last.
    pub schema: BackingSchema,
    /// The same at their places, where a table that isn't cached has no name.
    pub visible: BackingSchema,
    /// A definition failed since, so the bank is asked before they count.
    pub stale: bool,
    /// The groups, without their rows.
    pub catalog: Catalog,
    /// The rows of each group.
    pub stores: Vec<Store>,
    /// The root rows of each group's instances that aging by time hides, until the group's next refresh.
    pub hidden: Vec<SlotRows>,
    /// Where each table is kept.
    pub directory: Directory,
    /// The open sessions.
    pub sessions: Sessions,
    /// The committed transactions whose receipt the tier hasn't seen, in ticket order.
    pub unsettled: VecDeque<Sealed>,
    /// Which of them wrote each key last.
    pub writers: PendingWrites,
    /// The next ticket.
    pub next: u64,
    /// The clock, and when what is due was done last.
    pub clock: TierClock,
    /// Whether each session's operations are known to apply on the stored rows.
    pub verified: bool,
}

impl Drop for Tier {
    fn drop(self) {
        let Self {
            schema: _,
            visible: _,
            stale: _,
            catalog: _,
            stores: _,
            hidden: _,
            directory: _,
            sessions: _,
            unsettled: _,
            writers: _,
            next: _,
            clock: _,
            verified: _,
        } = self;
    }
}

impl Tier {
    /// The ticket of the first of the unsettled transactions, or the next ticket where there is none.
    pub fn first_unsettled(&self) -> Ticket
        ensures { result.0 ≡ first_unsettled self.now.unsettled.items self.now.next }
    {
        match self.unsettled.front() {
            None => Ticket(self.next),
            Some(first) => first.ticket,
        }
    }
}
