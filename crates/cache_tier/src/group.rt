//! What a definition says of a cache group.

use instances::Tree;
use sql_subset::stmt::{CreateGroup, GroupKind, RefreshMode};
use tier_base::Name;

/// An instance leaves when the time in a column of its root row is so long ago.
#[derive(Clone, Copy, Debug, PartialEq, Eq)]
pub struct TimeRule {
    /// the place of the column in the root table, from 0
    pub column: usize,
    /// after so many seconds an instance leaves
    pub lifetime: u64,
    /// each so many seconds the instances are looked at
    pub cycle: u64,
}

/// Which instances leave the cache by themselves.
///
/// (TimesTen Cache User's Guide, "Implementing aging on a cache group".)
#[derive(Clone, Copy, Debug, PartialEq, Eq)]
pub enum AgingRule {
    /// those not used for the longest time
    LastUse,
    /// those whose time has passed
    ByTime(TimeRule),
}

/// What a definition says of a group, and the definition itself.
///
/// (TimesTen SQL Reference, "CREATE CACHE GROUP".)
pub struct GroupDef {
    /// its name
    pub name: Name,
    /// its kind
    pub kind: GroupKind,
    /// whether its instances are loaded on demand
    pub dynamic: bool,
    /// its tables with their conditions
    pub tree: Tree,
    /// how it is refreshed, where it is READONLY
    pub mode: RefreshMode,
    /// the interval of its refreshes in milliseconds, where it is READONLY
    pub interval: u64,
    /// which instances leave, where a rule stands there, or is the default, and is ON
    pub aging: Option<AgingRule>,
    /// the definition as it was read
    pub declared: CreateGroup,
}

impl Drop for GroupDef {
    fn drop(self) {
        let Self {
            name: _,
            kind: _,
            dynamic: _,
            tree: _,
            mode: _,
            interval: _,
            aging: _,
            declared: _,
        } = self;
    }
}
