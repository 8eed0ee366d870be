//! Statements.

use sql_phrases::row_types::TableDeclaration;
use sql_phrases::sql_query::{Condition, Literal, Query, Write};
use sql_phrases::tables::TableAttribute;
use sql_phrases::tier_base::{Name, Seq};

/// The kind of a cache group. (TimesTen SQL Reference, "CREATE CACHE GROUP".)
#[derive(Clone, Copy, Debug, PartialEq, Eq)]
pub enum GroupKind {
    /// READONLY
    ReadOnly,
    /// ASYNCHRONOUS WRITETHROUGH
    AsynchronousWritethrough,
    /// SYNCHRONOUS WRITETHROUGH
    SynchronousWritethrough,
    /// USERMANAGED
    UserManaged,
}

/// How a group is refreshed.
#[derive(Clone, Copy, Debug, PartialEq, Eq)]
pub enum RefreshMode {
    /// by what has changed
    Incremental,
    /// in full
    Full,
}

/// Whether a group is refreshed by itself.
#[derive(Clone, Copy, Debug, PartialEq, Eq)]
pub enum RefreshState {
    /// at each interval
    On,
    /// not
    Off,
    /// not before it is loaded
    Paused,
}

/// `AUTOREFRESH [MODE mode] [INTERVAL n unit] [STATE state]`, each part that is left out being its
/// default: INCREMENTAL, 5 MINUTES, PAUSED.
#[derive(Clone, Copy)]
pub struct Autorefresh {
    /// the mode
    pub mode: RefreshMode,
    /// the interval in milliseconds; 2^64 - 1 stands for all that is longer
    pub interval: u64,
    /// the state
    pub state: RefreshState,
}

/// `USE column LIFETIME n span [CYCLE n span]`
pub struct TimeAging {
    /// the column, one identifier
    pub column: Name,
    /// the lifetime in seconds; 2^64 - 1 stands for all that is longer
    pub lifetime: u64,
    /// the cycle in seconds, 300 where it is left out; 2^64 - 1 stands for all that is longer
    pub cycle: u64,
}

impl Drop for TimeAging {
    fn drop(self) {
        let Self {
            column: _,
            lifetime: _,
            cycle: _,
        } = self;
    }
}

/// What decides which instances of a group leave the cache.
pub enum AgingRule {
    /// LRU
    LastUse,
    /// USE
    Time(TimeAging),
}

impl Drop for AgingRule {
    fn drop(self) {
        match self {
            Self::LastUse => {}
            Self::Time(_) => {}
        }
    }
}

/// `AGING rule [ON|OFF]`, ON where it is left out
pub struct AgingClause {
    /// the rule
    pub rule: AgingRule,
    /// whether it acts
    pub on: bool,
}

impl Drop for AgingClause {
    fn drop(self) {
        let Self { rule: _, on: _ } = self;
    }
}

/// A table of a group's definition.
#[derive(Drop)]
pub struct GroupTable {
    /// the table
    pub table: TableDeclaration,
    /// Its attribute. A table of a user-managed group has one, written or not: NOT PROPAGATE where none is written.
    pub attribute: Option<TableAttribute>,
    /// its WHERE clause
    pub filter: Option<Condition>,
    /// its AGING clause
    pub aging: Option<AgingClause>,
}

/// `CREATE [DYNAMIC] kind CACHE GROUP name [AUTOREFRESH ..] FROM table, ..`
#[derive(Drop)]
pub struct CreateGroup {
    /// the group
    pub name: Name,
    /// its kind
    pub kind: GroupKind,
    /// whether its instances are loaded on demand
    pub dynamic: bool,
    /// Its AUTOREFRESH clause. A READONLY group has one, written or not.
    pub autorefresh: Option<Autorefresh>,
    /// its tables, of which there is at least one
    pub tables: Seq<GroupTable>,
}

/// `CREATE INDEX name ON table (column, ..)`
pub struct CreateIndex {
    /// the index, one identifier
    pub name: Name,
    /// its table
    pub table: Name,
    /// its columns
    pub columns: Seq<Name>,
}

impl Drop for CreateIndex {
    fn drop(self) {
        let Self {
            name: _,
            table: _,
            columns: _,
        } = self;
    }
}

/// `[WHERE condition] [WITH ID (literal, ..)]`: both must hold.
pub struct Which {
    /// the condition; all instances where there is none
    pub filter: Option<Condition>,
    /// the root's key, in its order
    pub id: Option<Seq<Literal>>,
}

impl Drop for Which {
    fn drop(self) {
        let Self { filter: _, id: _ } = self;
    }
}

/// `LOAD CACHE GROUP ..` and `REFRESH CACHE GROUP group which [COMMIT EVERY n ROWS] [PARALLEL n]`
#[derive(Drop)]
pub struct Load {
    /// the group
    pub group: Name,
    /// which instances
    pub which: Which,
    /// the rows of COMMIT EVERY, where it is written; 2^64 - 1 stands for all that are more
    pub commit_every: Option<u64>,
    /// the threads of PARALLEL, where it is written; 2^64 - 1 stands for all that are more
    pub parallel: Option<u64>,
}

/// `UNLOAD CACHE GROUP group which` and `FLUSH CACHE GROUP group which`
pub struct OfGroup {
    /// the group
    pub group: Name,
    /// which instances
    pub which: Which,
}

impl Drop for OfGroup {
    fn drop(self) {
        let Self { group: _, which: _ } = self;
    }
}

/// `ALTER CACHE GROUP group SET AUTOREFRESH STATE state`
pub struct Alter {
    /// the group
    pub group: Name,
    /// its new state
    pub state: RefreshState,
}

impl Drop for Alter {
    fn drop(self) {
        let Self { group: _, state: _ } = self;
    }
}

/// `CALL procedure [([argument, ..])]`
#[derive(Drop)]
pub struct Call {
    /// the procedure
    pub procedure: Name,
    /// its arguments; none where there are no parentheses
    pub arguments: Seq<Literal>,
}

/// A statement of a session.
#[derive(Drop)]
pub enum Stmt {
    /// SELECT
    Select(Query),
    /// INSERT, UPDATE, DELETE
    Write(Write),
    /// CREATE CACHE GROUP
    CreateGroup(CreateGroup),
    /// CREATE INDEX
    CreateIndex(CreateIndex),
    /// LOAD CACHE GROUP
    Load(Load),
    /// REFRESH CACHE GROUP
    Refresh(Load),
    /// UNLOAD CACHE GROUP
    Unload(OfGroup),
    /// FLUSH CACHE GROUP
    Flush(OfGroup),
    /// ALTER CACHE GROUP
    Alter(Alter),
    /// DROP CACHE GROUP, with the group
    DropGroup(Name),
    /// DROP INDEX, with the index
    DropIndex(Name),
    /// CALL
    Call(Call),
    /// COMMIT
    Commit,
    /// ROLLBACK
    Rollback,
}
