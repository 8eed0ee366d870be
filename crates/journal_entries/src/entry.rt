//! What the journal keeps.

use row_types::Row;
use row_types::tier_base::{Seq, Ticket};

/// The bytes of a name of a table or a group, or of the statement that defines a group. The journal knows no schema:
/// whether they name or define something is told by what opens it.
pub type Bytes = Seq<u8>;

/// A change of one row of the table of this name.
pub enum Op {
    /// The row is new.
    Insert(Bytes, Row),
    /// The first row becomes the second.
    Update(Bytes, Row, Row),
    /// The row leaves.
    Delete(Bytes, Row),
}

// By hand, so that what lets an operation go has one call, and not all its forms.
impl Drop for Op {
    fn drop(self) {
        match self {
            Self::Insert(_, _) => {}
            Self::Update(_, _, _) => {}
            Self::Delete(_, _) => {}
        }
    }
}

/// The autorefresh state of a group. (TimesTen's Cache User's Guide, "AUTOREFRESH".)
#[derive(Clone, Copy, Debug, PartialEq, Eq)]
pub enum GroupState {
    /// It isn't refreshed.
    Off,
    /// It isn't refreshed until it is loaded.
    Paused,
    /// It is refreshed.
    On,
}

/// An entry of the journal.
pub enum Entry {
    /// A transaction of asynchronous writethrough groups was committed.
    Commit(Ticket, Seq<Op>),
    /// A transaction of synchronous writethrough groups is to be applied.
    Prepare(Ticket, Seq<Op>),
    /// A write that is passed on to the backing database has this ticket.
    Passed(Ticket),
    /// The next ticket is at least this.
    Mark(Ticket),
    /// A group was defined by this statement.
    Defined(Bytes),
    /// The group of this name was dropped.
    Dropped(Bytes),
    /// The group of this name has this state.
    Turned(Bytes, GroupState),
    /// Whether the group of this name is loaded.
    Loaded(Bytes, bool),
}

// By hand, so that what lets an entry go has one call, and not all its forms.
impl Drop for Entry {
    fn drop(self) {
        match self {
            Self::Commit(_, _) => {}
            Self::Prepare(_, _) => {}
            Self::Passed(_) => {}
            Self::Mark(_) => {}
            Self::Defined(_) => {}
            Self::Dropped(_) => {}
            Self::Turned(_, _) => {}
            Self::Loaded(_, _) => {}
        }
    }
}
