//! The engine: what stands between request lines.

use session_engine::doubt::Doubt;
use stored_tier::tier::Tier;
use tier_journal::TierJournal;

/// The tier as it is stored, the ticket that is in doubt, where one is, and the journal, where one is kept.
pub struct Engine {
    /// The tier.
    pub(crate) tier: Tier,
    /// The ticket of which nobody knows whether its transaction came.
    pub(crate) doubt: Option<Doubt>,
    /// The commit journal.
    pub(crate) journal: Option<TierJournal>,
}

impl Drop for Engine {
    fn drop(self) {
        let Self {
            tier: _,
            doubt: _,
            journal: _,
        } = self;
    }
}
