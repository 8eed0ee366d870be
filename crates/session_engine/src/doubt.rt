//! A ticket of which nobody knows whether its transaction came.

use row_types::Key;
use table_state::Ops;
use tier_base::{Seq, SessionId};

/// What a ticket in doubt is of.
#[derive(Drop)]
pub enum Doubted {
    /// A commit, with what the session has written. The stores have room for these operations since the ticket was
    /// drawn, so the doubt is settled without memory.
    Commit(Ops),
    /// A write that was passed on.
    PassedWrite,
}

/// A ticket whose call at the backing database failed, and the session that asked for it.
#[derive(Drop)]
pub struct Doubt {
    /// The ticket.
    pub ticket: u64,
    /// The session.
    pub session: SessionId,
    /// What the ticket is of.
    pub of: Doubted,
    /// For each group the root keys that a commit enters.
    pub entered: Seq<Seq<Key>>,
}
