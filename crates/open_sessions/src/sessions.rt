//! The list of open sessions.

ghost use Rattle.std.specs.Prelude.{◌≡◌, ◌≤◌, ◌<◌, ◌++◌, ◌∷◌, All, List, [], Some, None, true, false, find, IfOk, IfErr, MatchOption, OnErr, OnOk, length, map, nat_eq, nat_le, position};
ghost use Rattle.std.specs.List.{list_any};
ghost use Rattle.std.specs.Option.{option_copied, option_map};
ghost use Rattle.session_state.specs.table_defs.specs.declared.definition.TableDef.{TableDef as Def};
ghost use Rattle.session_state.specs.table_state.specs.Footprints.{footprint_of, is_among};
ghost use Rattle.session_state.specs.table_state.specs.Operations.{applied_all};
ghost use Rattle.session_state.specs.own_rows.specs.OwnTables.{AreShown};
ghost use Rattle.session_state.specs.Kept.{IsKept, are_defined, seen_of};
ghost use Rattle.session_state.specs.Locks.{holder_of, keeper};
ghost use Rattle.session_state.specs.Sessions.{at_rest, level_of, with_flag, with_ops};
ghost use Rattle.session_state.specs.tier_base.specs.declared.limit.Limit.TheVariants.{Operations};
ghost use Rattle.session_state.specs.tier_base.specs.declared.limit.Limit.TheVariants as limit;
ghost use Rattle.session_state.specs.tier_base.specs.Limits.{greatest};
ghost use Rattle.open_sessions.specs.Lookups.{has_label, of_label, of_number, open_ops, room_of};

use session_state::own_rows::Overlay;
use session_state::row_types::Key;
use session_state::table_defs::BackingSchema;
use session_state::table_state::{Op, Ops, Scan, Sealed, copied_ops};
use session_state::tier_base::{Label, Limit, SessionId, TableId, Ticket};
use session_state::{Session, holder, keeper_of_key};
use std::alloc::{AllocError, Global};

// The greatest number of open sessions.
const LIMIT: usize = 64;

/// Why a session wasn't opened.
#[derive(Clone, Copy, Debug, PartialEq, Eq)]
pub enum OpenError {
    /// A session with the label is open.
    Label,
    /// As many sessions are open as may be.
    Limit,
    /// Memory was wanting.
    Memory,
}

impl From<AllocError> for OpenError {
    ghost use Rattle.open_sessions.specs.declared.sessions.OpenError.TheVariants.{Memory};
    ghost use Rattle.std.specs.Prelude.{◌≡◌};

    ghost from_gives = { λ _ e. e ≡ Memory };

    fn from(_error: AllocError) -> OpenError {
        OpenError::Memory
    }
}

/// The open sessions, in the order in which they were opened. Each has a number and a label that no other has.
pub struct Sessions {
    pub(crate) open: Vec<Session>,
}

impl Drop for Sessions {
    fn drop(self) {
        let Self { open: _ } = self;
    }
}

fn has_label(session: &Session, label: &Label) -> bool
    ensures { result ≡ has_label label.now (seen_of session.now) }
{
    session.label.same(label)
}

// The most operations that a transaction may have.
fn most_operations() -> usize
    ensures { result ≡ greatest Operations }
{
    Limit::Operations.number() as usize
}

impl Sessions {
    ghost use Rattle.session_state.specs.Sessions.{has_id};
    ghost use Rattle.open_sessions.specs.Opening.{AreSessions, IsOpenCause, Opens, closed, on_session, seen_all};

    /// No session is open. It takes no memory.
    pub fn new(alloc: Global) -> Sessions
        ensures seen { seen_all result ≡ [] }
        ensures sound { (schema : List Def) → AreSessions schema result }
    {
        Sessions {
            open: Vec::new(alloc),
        }
    }

    /// Opens a session, which gets a number that no open session has.
    ///
    /// `Label` where a session with the label is open, and then `Limit` where 64 are. It fails for want of memory
    /// besides. After an error the sessions are as they were. (This project's rule.)
    pub fn open(
        &mut self,
        alloc: Global,
        label: &Label,
        level: u8,
        durable: bool,
    ) -> Result<SessionId, OpenError>
        ensures ok { IfOk result (λ id. Opens (seen_all self.old) (seen_all self.new) id label.now level durable) }
        ensures err { OnErr result (seen_all self.new ≡ seen_all self.old) }
        ensures cause { IfErr result (IsOpenCause (seen_all self.old) label.now) }
        ensures sound { (schema : List Def) → AreSessions schema self.old → AreSessions schema self.new }
    {
        if self.has_label(label) {
            return Err(OpenError::Label);
        }
        match self.free_number() {
            None => Err(OpenError::Limit),
            Some(id) => {
                let session = Session::start(alloc, id, label.copied(alloc)?, level, durable);
                self.push(session)?;
                Ok(id)
            }
        }
    }

    /// Whether as many sessions are open as may be. It takes no memory.
    pub fn is_full(&self) -> bool
        ensures { result ≡ nat_le (greatest limit.Sessions) (length (seen_all self.now)) }
    {
        LIMIT <= self.open.len()
    }

    fn push(&mut self, session: Session) -> Result<(), AllocError>
        ensures ok { OnOk result (self.new.open.items ≡ self.old.open.items ++ session ∷ []) }
        ensures err { OnErr result (self.new.open.items ≡ self.old.open.items) }
    {
        self.open.push(session)?;
        Ok(())
    }

    fn has_label(&self, label: &Label) -> bool
        ensures { result ≡ list_any (λ s. has_label label.now (seen_of s)) self.now.open.items }
    {
        self.open.iter().any(|session| has_label(session, label))
    }

    fn has_number(&self, number: u32) -> bool
        ensures { result ≡ list_any (λ s. nat_eq s.id.0 number) self.now.open.items }
    {
        self.open.iter().any(|session| session.id.0 == number)
    }

    // The least number that no session has; none where there are as many sessions as may be.
    fn free_number(&self) -> Option<SessionId>
        ensures { MatchOption result (LIMIT ≤ length self.now.open.items)
            (λ id. (list_any (λ s. nat_eq s.id.0 id.0) self.now.open.items ≡ false)
            × (length self.now.open.items < LIMIT)) }
    {
        if self.open.len() >= LIMIT {
            return None;
        }
        for number in 0..LIMIT as u32 {
            if !self.has_number(number) {
                return Some(SessionId(number));
            }
        }
        None
    }

    // The place of a session among the open ones.
    fn place_of(&self, id: SessionId) -> Option<usize>
        ensures { result ≡ position (λ s. has_id id (seen_of s)) self.now.open.items }
    {
        self.open.iter().position(|session| session.id.0 == id.0)
    }

    fn first_of_number(&self, id: SessionId) -> Option<&Session>
        ensures { option_copied result ≡ find (λ s. has_id id (seen_of s)) self.now.open.items }
    {
        self.open.iter().find(|session| session.id.0 == id.0)
    }

    fn first_of_label(&self, label: &Label) -> Option<&Session>
        ensures { option_copied result ≡ find (λ s. has_label label.now (seen_of s)) self.now.open.items }
    {
        self.open.iter().find(|session| has_label(session, label))
    }

    /// The sessions, in the order in which they were opened. It takes no memory.
    pub fn as_slice(&self) -> &[Session]
        ensures seen { map seen_of result.now ≡ seen_all self.now }
        ensures kept { (schema : List Def) → AreSessions schema self.now → All (IsKept schema) result.now }
    {
        self.open.as_slice()
    }

    /// The session of a number. It takes no memory.
    pub fn get(&self, id: SessionId) -> Option<&Session>
        ensures { option_map seen_of (option_copied result) ≡ of_number id (seen_all self.now) }
    {
        self.first_of_number(id)
    }

    /// The session of a label. It takes no memory.
    pub fn find(&self, label: &Label) -> Option<&Session>
        ensures { option_map seen_of (option_copied result) ≡ of_label label.now (seen_all self.now) }
    {
        self.first_of_label(label)
    }

    /// The open operations of a session; none where no session has the number. It takes no memory.
    pub fn ops(&self, id: SessionId) -> &[Op]
        ensures { result.now ≡ open_ops id (seen_all self.now) }
    {
        match self.get(id) {
            None => &[],
            Some(session) => session.ops.as_slice(),
        }
    }

    /// Whether an open operation of a session writes a key. It takes no memory.
    pub fn writes(&self, id: SessionId, table: TableId, key: &Key) -> bool
        ensures { (schema : List Def) → AreSessions schema self.now
            → result ≡ is_among (footprint_of schema (open_ops id (seen_all self.now))).written
            (record { table = table; key = key.now }) }
    {
        let session = self.first_of_number(id);
        match session {
            None => false,
            Some(session) => session.writes(table, key),
        }
    }

    /// The level of passthrough that counts for a session now: that of its transaction, where it was given one, else
    /// that of the session. (TimesTen Cache User's Guide, "Setting a passthrough level".)
    pub fn level(&self, id: SessionId) -> Option<u8>
        ensures { result ≡ option_map level_of (of_number id (seen_all self.now)) }
    {
        match self.get(id) {
            None => None,
            Some(session) => Some(session.effective_level()),
        }
    }

    /// How many operations more the open transaction of a session can have, from 10,000 down to 0.
    pub fn room(&self, id: SessionId) -> usize
        ensures { result ≡ room_of id (seen_all self.now) }
    {
        most_operations().saturating_sub(self.ops(id).len())
    }

    /// What a session sees of tables: those of the scan with the session's open operations over them. That they apply
    /// there is a condition. A number that no session has sees the tables as they are. It takes no memory.
    pub fn overlay<'a, S: Scan>(&'a self, id: SessionId, under: &'a S) -> Overlay<'a, S>
        requires sound { AreSessions (S.state under.now).schema self.now }
        requires shown { AreShown (open_ops id (seen_all self.now)) (S.state under.now) }
        ensures { applied_all (open_ops id (seen_all self.now)) (S.state under.now)
            ≡ Some (⟦<Overlay<'a, S> as Scan>⟧.state result) }
    {
        match self.first_of_number(id) {
            None => Overlay::bare(under),
            Some(session) => session.overlay(under),
        }
    }

    /// The session that operations of a session meet at a row lock: the first operation that meets one decides, by the
    /// keys that it writes and then by the parents that it names. It takes no memory. (This project's rule.)
    pub fn holder(
        &self,
        but: Option<SessionId>,
        schema: &BackingSchema,
        ops: &[Op],
    ) -> Option<SessionId>
        requires { AreSessions schema.now self.now }
        ensures { result ≡ holder_of but schema.now (seen_all self.now) ops.now }
    {
        holder(self.open.as_slice(), but, schema, ops)
    }

    /// Of the sessions but one, the one opened earliest that holds a key. It takes no memory.
    pub fn holds(&self, but: Option<SessionId>, table: TableId, key: &Key) -> Option<SessionId>
        ensures { (schema : List Def) → AreSessions schema self.now
            → result ≡ keeper but schema (seen_all self.now) (record { table = table; key = key.now }) }
    {
        keeper_of_key(self.open.as_slice(), but, table, key)
    }

    /// Operations that meet no other session, and for which there is room, go behind the open ones of a session, and
    /// their keys are held. `holder` and `room` are the tests.
    ///
    /// It fails for want of memory alone, and the sessions then are as they were.
    pub fn write(
        &mut self,
        alloc: Global,
        schema: &BackingSchema,
        id: SessionId,
        ops: Ops,
    ) -> Result<(), AllocError>
        requires sound { AreSessions schema.now self.old }
        requires free { holder_of (Some id) schema.now (seen_all self.old) ops ≡ None }
        requires defined { are_defined schema.now ops ≡ true }
        requires few { length ops ≤ room_of id (seen_all self.old) }
        ensures ok { OnOk result (seen_all self.new ≡ on_session id (with_ops ops) (seen_all self.old)) }
        ensures err { OnErr result (seen_all self.new ≡ seen_all self.old) }
        ensures sound { AreSessions schema.now self.new }
    {
        match self.place_of(id) {
            None => Ok(()),
            Some(place) => self.open[place].write(alloc, schema, ops),
        }
    }

    /// The open transaction of a session is given a level of passthrough, until it ends. It takes no memory. (TimesTen
    /// built-in procedures, "ttOptSetFlag".)
    pub fn set_flag(&mut self, id: SessionId, level: u8)
        ensures seen { (schema : List Def) → AreSessions schema self.old
            → seen_all self.new ≡ on_session id (with_flag level) (seen_all self.old) }
        ensures sound { (schema : List Def) → AreSessions schema self.old → AreSessions schema self.new }
    {
        match self.place_of(id) {
            None => {}
            Some(place) => self.open[place].set_flag(level),
        }
    }

    /// The open operations of a session under a ticket, as its commit passes them on. They are copied: until the
    /// transaction ends its keys are held and its session sees them.
    ///
    /// It fails for want of memory alone.
    pub fn seal(&self, alloc: Global, id: SessionId, ticket: Ticket) -> Result<Sealed, AllocError>
        ensures { IfOk result (λ sealed. sealed ≡ record { ticket = ticket; ops = open_ops id (seen_all self.now) }) }
    {
        let ops = copied_ops(alloc, self.ops(id))?;
        Ok(Sealed { ticket, ops })
    }

    /// A session's transaction ends, by COMMIT or by ROLLBACK: its operations are forgotten, their keys are held no
    /// more, and the level that it was given is gone. It takes no memory.
    pub fn rest(&mut self, id: SessionId)
        ensures seen { (schema : List Def) → AreSessions schema self.old
            → seen_all self.new ≡ on_session id at_rest (seen_all self.old) }
        ensures sound { (schema : List Def) → AreSessions schema self.old → AreSessions schema self.new }
    {
        match self.place_of(id) {
            None => {}
            Some(place) => self.open[place].rest(),
        }
    }

    /// A session is closed: it leaves the list, and its keys are held no more. It takes no memory.
    pub fn close(&mut self, id: SessionId)
        ensures seen { (schema : List Def) → AreSessions schema self.old
            → seen_all self.new ≡ closed id (seen_all self.old) }
        ensures sound { (schema : List Def) → AreSessions schema self.old → AreSessions schema self.new }
    {
        match self.place_of(id) {
            None => {}
            Some(place) => {
                let _ = self.open.remove(place);
            }
        }
    }
}
