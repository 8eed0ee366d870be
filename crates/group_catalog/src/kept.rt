//! What is kept of a group beside its rows.

ghost use Rattle.std.specs.Prelude.{◌≡◌};
ghost use Rattle.cache_tier.specs.Definitions.{refresh_of};

use cache_tier::group::GroupDef;
use sql_subset::stmt::{Autorefresh, CreateGroup, RefreshMode, RefreshState};
use tier_base::{Moment, Position, Ticket};

/// A group: its definition, and what changes of it. Its keys and rows are kept elsewhere.
pub struct KeptGroup {
    /// its definition
    pub def: GroupDef,
    /// the first ticket that may be of its tables
    pub first: Ticket,
    /// AUTOREFRESH STATE, of a READONLY group
    pub state: RefreshState,
    /// Whether an explicit READONLY group shows its view; of a writethrough group it says what a recovery loads.
    pub loaded: bool,
    /// the position in the backing history at which a READONLY group was refreshed last
    pub position: Option<Position>,
    /// instances whose time, in seconds since 1970, is at or under it have left
    pub horizon: Option<i128>,
    /// the moment of its last aging cycle, or of its definition or recovery
    pub aged: Moment,
}

impl Drop for KeptGroup {
    fn drop(self) {
        let Self {
            def: _,
            first: _,
            state: _,
            loaded: _,
            position: _,
            horizon: _,
            aged: _,
        } = self;
    }
}

impl KeptGroup {
    ghost use Rattle.cache_tier.specs.Definitions.{new_group};
    ghost use Rattle.group_catalog.specs.Kept.{group_seen};

    /// The group as it begins, at this moment, with the first ticket that may be of its tables: it shows nothing, and
    /// has no position. Its STATE is that of its AUTOREFRESH clause, PAUSED where that is left out. It takes no
    /// memory.
    pub fn new(def: GroupDef, first: Ticket, now: Moment) -> KeptGroup
        ensures { group_seen result ≡ new_group first.0 now.0 def.declared def }
    {
        let state = refresh_of(&def.declared).state;
        KeptGroup {
            def,
            first,
            state,
            loaded: false,
            position: None,
            horizon: None,
            aged: now,
        }
    }
}

/// The AUTOREFRESH clause, or what stands for it where it is left out: INCREMENTAL, 5 MINUTES, PAUSED.
pub(crate) fn refresh_of(declared: &CreateGroup) -> Autorefresh
    ensures { result ≡ refresh_of declared.now }
{
    match &declared.autorefresh {
        Some(refresh) => *refresh,
        None => Autorefresh {
            mode: RefreshMode::Incremental,
            interval: 300_000,
            state: RefreshState::Paused,
        },
    }
}
