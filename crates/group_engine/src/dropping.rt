//! DROP CACHE GROUP.

ghost use Rattle.std.specs.Prelude.{◌≡◌, ◌<◌, ◌≤◌, ◌&&◌, [], IfOk, None, OnErr, OnOk, Some, false, find, insert, length, not, option_copied, remove, slice_get, true, unwrap_or};
ghost use Rattle.std.specs.Vec.{vec_capacity};
ghost use Rattle.table_state.specs.Operations.{table_of};
ghost use Rattle.group_store.specs.Shown.{homes_of};
ghost use Rattle.cache_tier.specs.Definitions.{is_read_only_kind};
ghost use Rattle.tier_statements.specs.Seen.{session_seen};
ghost use Rattle.stored_tier.specs.Naming.{named_def};
ghost use Rattle.std.specs.List.{list_any};
ghost use Rattle.std.specs.Option.{option_map};
ghost use Rattle.sql_subset.specs.declared.stmt.Stmt.TheVariants as statement;
ghost use Rattle.table_defs.specs.Declarations.{IsRefusedBy, Tells};
ghost use Rattle.open_sessions.specs.Lookups.{open_ops};
ghost use Rattle.open_sessions.specs.Opening.{seen_all};
ghost use Rattle.session_state.specs.Kept.{seen_of};
ghost use Rattle.session_state.specs.Sessions.{has_id};
ghost use Rattle.group_catalog.specs.Catalogs.{groups_in};
ghost use Rattle.group_catalog.specs.Kept.{group_seen};
ghost use Rattle.cache_tier.specs.Groups.{covers, place_called, Group as OneGroup};
ghost use Rattle.cache_tier.specs.Locks.{group_lock, locked_by, writes_on};
ghost use Rattle.cache_tier.specs.Order.{refusal};
ghost use Rattle.cache_tier.specs.TierStates.{Session as OneSession, Tier as AbstractTier};
ghost use Rattle.group_engine.specs.Dropping.{DropsHere, IsFreeAt, IsReadyToGo, IsWithoutGroup, RoundFor, is_written_at};
ghost use Rattle.group_engine.specs.Ready.{IsMemoryOf, IsPlacedReady};
ghost use Rattle.tier_journal.specs.Drafts.{StaysKept};
ghost use Rattle.stored_tier.specs.Grouping.{KeepsGroups};
ghost use Rattle.stored_tier.specs.Stored.{named_where_cached, HasSession, IsSound, IsStoredAs};
ghost use Rattle.stored_tier.specs.Performing.{Executes, IsCausedOver, IsStopCausedOver, PerformsInOver, PerformsOver, reply_of, stop_of};

use crate::ready::{Ready, answer_behind, slot_is_full};
use crate::readying::ready_drop;
use cache_tier::drop_statement_law;
use cache_tier::reply::Reply;
use group_catalog::{Catalog, KeptGroup};
use group_store::{Directory, Store};
use open_sessions::laws::label_law;
use outside::Site;
use row_types::{Detail, Refused, Rule};
use session_state::Session;
use sql_subset::stmt::GroupKind;
use std::alloc::{AllocError, Global};
use stored_tier::naming::refuse_name;
use stored_tier::tier::Tier;
use table_defs::{BackingSchema, TableDef};
use table_state::Op;
use tier_base::{Code, Name, Seq, SessionId, TableId};
use tier_journal::TierJournal;
use tier_statements::done;

/// DROP CACHE GROUP: the group is gone with its rows; the backing tables stay. What is unsettled is applied at the bank
/// first where it is a writethrough group. Where a journal is kept, the drop is flushed.
///
/// The refusal is 112, 122, then 111 where another session has written in the group, then 119 where the journal has no
/// room; a failed call of the bank is 201, one of the journal's disk 202, after which the run is to end; a row that
/// isn't as a transaction says is 210; or memory was wanting. (TimesTen SQL Reference, "DROP CACHE GROUP".)
pub fn drop_group<P: Site>(
    tier: &mut Tier,
    alloc: Global,
    site: &mut P,
    journal: &mut Option<TierJournal>,
    id: SessionId,
    name: &Name,
) -> Result<Reply, Refused>
    requires { IsSound tier.old }
    ensures performs { PerformsInOver P.Disk.state P.Disk.possible tier.old tier.new journal.old journal.new
        site.old site.new id (Executes (statement.DropGroup name.now)) result }
    ensures sound { IsSound tier.new }
    ensures cause { IsCausedOver journal.old (P.Disk.state site.old) (P.Disk.state site.new) (reply_of result) }
{
    match judge_drop(tier, alloc, id, name) {
        Err(refused) => Err(refused),
        Ok(place) => match settle_for(tier, alloc, site, journal, place) {
            Err(reply) => Ok(reply),
            Ok(()) => drop_at(tier, alloc, site, journal, id, place),
        },
    }
}

// 112, then 122; else the place of the group.
fn judge_drop(tier: &Tier, alloc: Global, id: SessionId, name: &Name) -> Result<usize, Refused>
    requires { IsSound tier.now }
    ensures told { (a : AbstractTier) (s : OneSession) → IsStoredAs tier.now a → HasSession tier.now id s
        → Tells result (refusal a s (statement.DropGroup name.now)) }
    ensures place { IfOk result (λ place. place_called (groups_in tier.now.catalog) name.now ≡ Some place) }
    ensures within { IfOk result (λ place. place < length (groups_in tier.now.catalog)) }
    ensures rests { OnOk result (open_ops id (seen_all tier.now.sessions) ≡ []) }
{
    label_law();
    match tier.catalog.find(name) {
        None => Err(refuse_name(alloc, Code::UnknownGroup, name)),
        Some(place) => {
            if !tier.sessions.ops(id).is_empty() {
                return Err(Refused::Rule(Rule {
                    code: Code::TransactionOpen,
                    detail: Detail::Nothing,
                }));
            }
            if place >= tier.catalog.len() {
                return Err(Refused::Memory);
            }
            Ok(place)
        }
    }
}

// A round, where the group at the place is a writethrough one. The reply is the one with which it ended early.
fn settle_for<P: Site>(
    tier: &mut Tier,
    alloc: Global,
    site: &mut P,
    journal: &mut Option<TierJournal>,
    place: usize,
) -> Result<(), Reply>
    requires { IsSound tier.old }
    ensures performs { PerformsOver P.Disk.state P.Disk.possible tier.old tier.new journal.old journal.new
        site.old site.new (stop_of result) (λ w w'. RoundFor place w w' (stop_of result)) }
    ensures all { OnOk result (is_written_at (groups_in tier.old.catalog) place ≡ true
        → tier.new.unsettled.items ≡ []) }
    ensures same { tier.new ≡ record tier.old { unsettled = tier.new.unsettled; clock = tier.new.clock } }
    ensures sound { IsSound tier.new }
    ensures cause { IsStopCausedOver journal.old
        (P.Disk.state site.old)
        (P.Disk.state site.new)
        (stop_of result) }
    ensures none { journal.old ≡ None → journal.new ≡ None }
{
    if is_written_at(&tier.catalog, place) {
        tier.settle_all(alloc, site, journal)
    } else {
        Ok(())
    }
}

// The group at a place goes, where no other session has written on its tables; else 111. The drop is flushed last.
fn drop_at<P: Site>(
    tier: &mut Tier,
    alloc: Global,
    site: &mut P,
    journal: &mut Option<TierJournal>,
    id: SessionId,
    place: usize,
) -> Result<Reply, Refused>
    requires sound { IsSound tier.old }
    requires within { place < length (groups_in tier.old.catalog) }
    requires rests { open_ops id (seen_all tier.old.sessions) ≡ [] }
    requires settled { is_written_at (groups_in tier.old.catalog) place ≡ true → tier.old.unsettled.items ≡ [] }
    ensures performs { DropsHere P.Disk.state P.Disk.possible tier.old tier.new journal.old journal.new
        site.old site.new id place (reply_of result) }
    ensures sound { IsSound tier.new }
    ensures cause { IsCausedOver journal.old (P.Disk.state site.old) (P.Disk.state site.new) (reply_of result) }
{
    match judge_writers(tier, alloc, id, place) {
        Err(refused) => Err(refused),
        Ok(()) => match ready_to_go(&tier.catalog, alloc, journal, place) {
            Err(refused) => Err(refused),
            Ok(ready) => take_away(tier, alloc, site, journal, id, place, &ready),
        },
    }
}

// What is made ready for the drop of the group at a place. It fails for want of memory alone.
fn ready_to_go(
    catalog: &Catalog,
    alloc: Global,
    journal: &mut Option<TierJournal>,
    place: usize,
) -> Result<Ready, Refused>
    ensures ready { IfOk result (λ ready. IsReadyToGo (groups_in catalog.now) journal.new place ready) }
    ensures placed { IfOk result (λ ready. IsPlacedReady journal.new ready) }
    ensures kept { StaysKept journal.old journal.new }
    ensures memory { IsMemoryOf result }
{
    match catalog.get(place) {
        None => Err(Refused::Memory),
        Some(group) => match ready_drop(alloc, journal, &group.def.name) {
            Err(AllocError) => Err(Refused::Memory),
            Ok(ready) => Ok(ready),
        },
    }
}

// The group at a place goes, and its drop, which was made ready, is flushed; or 119. No other session has written on
// its tables.
fn take_away<P: Site>(
    tier: &mut Tier,
    alloc: Global,
    site: &mut P,
    journal: &mut Option<TierJournal>,
    id: SessionId,
    place: usize,
    ready: &Ready,
) -> Result<Reply, Refused>
    requires sound { IsSound tier.old }
    requires within { place < length (groups_in tier.old.catalog) }
    requires rests { open_ops id (seen_all tier.old.sessions) ≡ [] }
    requires settled { is_written_at (groups_in tier.old.catalog) place ≡ true → tier.old.unsettled.items ≡ [] }
    requires free { IsFreeAt tier.old id place }
    requires ready { IsReadyToGo (groups_in tier.old.catalog) journal.old place ready.now }
    requires placed { IsPlacedReady journal.old ready.now }
    ensures performs { DropsHere P.Disk.state P.Disk.possible tier.old tier.new journal.old journal.new
        site.old site.new id place (reply_of result) }
    ensures sound { IsSound tier.new }
    ensures cause { IsCausedOver journal.old (P.Disk.state site.old) (P.Disk.state site.new) (reply_of result) }
{
    label_law();
    drop_statement_law();
    if ready.is_full() {
        return Ok(slot_is_full(alloc));
    }
    match remove_group(tier, alloc, place) {
        Err(AllocError) => Err(Refused::Memory),
        Ok(()) => Ok(answer_behind(alloc, site, journal, ready, done(alloc, 0))),
    }
}

// 111: another session has written on a table of the group at a place.
fn judge_writers(tier: &Tier, alloc: Global, id: SessionId, place: usize) -> Result<(), Refused>
    requires { IsSound tier.now }
    ensures { (a : AbstractTier) (s : OneSession) (g : OneGroup) → IsStoredAs tier.now a → HasSession tier.now id s
        → slice_get a.groups place ≡ Some g → Tells result (group_lock s.label a g) }
{
    label_law();
    match tier.catalog.get(place) {
        None => Err(Refused::Memory),
        Some(group) => match find_writer(group, tier.sessions.as_slice(), id) {
            None => Ok(()),
            Some(session) => Err(refuse_locked(alloc, session)),
        },
    }
}

// The group at a place goes with its store and its hidden rows. It fails for want of memory alone; all then stays.
fn remove_group(tier: &mut Tier, alloc: Global, place: usize) -> Result<(), AllocError>
    requires within { place < length (groups_in tier.old.catalog) }
    requires kept { place < length tier.old.stores.items }
    requires hidden { place < length tier.old.hidden.items }
    ensures ok { OnOk result (IsWithoutGroup tier.old tier.new place) }
    ensures err { OnErr result (KeepsGroups tier.old tier.new) }
{
    let visible = names_without(alloc, &tier.catalog, place, tier.schema.as_slice())?;
    let tables = count_tables(tier.schema.as_slice())?;
    let directory = take_store(alloc, &mut tier.stores, place, tables)?;
    let _ = tier.hidden.remove(place);
    tier.catalog.drop_group(place);
    tier.visible = visible;
    tier.directory = directory;
    tier.verified = false;
    Ok(())
}

// How many tables there are.
fn count_tables(schema: &[TableDef]) -> Result<u32, AllocError>
    ensures { IfOk result (λ tables. tables ≡ length schema.now) }
{
    match u32::try_from(schema.len()) {
        Err(_) => Err(AllocError),
        Ok(tables) => Ok(tables),
    }
}

// Whether the group at a place is a writethrough one.
fn is_written_at(catalog: &Catalog, place: usize) -> bool
    ensures { result ≡ is_written_at (groups_in catalog.now) place }
{
    match catalog.get(place) {
        None => false,
        Some(group) => !is_only_read(group.def.kind),
    }
}

fn is_only_read(kind: GroupKind) -> bool
    ensures { result ≡ is_read_only_kind kind }
{
    match kind {
        GroupKind::ReadOnly => true,
        GroupKind::AsynchronousWritethrough
        | GroupKind::SynchronousWritethrough
        | GroupKind::UserManaged => false,
    }
}

// The session opened earliest that has written on a table of the group, but that of the number.
fn find_writer<'a>(group: &KeptGroup, sessions: &'a [Session], id: SessionId) -> Option<&'a Session>
    ensures { option_copied result
        ≡ find (λ s. not (has_id id (seen_of s)) && writes_on (group_seen group.now) s.ops.items)
        sessions.now }
{
    sessions.iter().find(|session| session.id.0 != id.0 && writes_on(group, session.ops.as_slice()))
}

// Whether one of the operations is on a table of the group.
fn writes_on(group: &KeptGroup, ops: &[Op]) -> bool
    ensures { result ≡ writes_on (group_seen group.now) ops.now }
{
    ops.iter().any(|op| is_on(group, op))
}

fn is_on(group: &KeptGroup, op: &Op) -> bool
    ensures { result ≡ covers (table_of op.now) (group_seen group.now) }
{
    group.def.tree.place_of(op.table()).is_some()
}

/// 111, with the label of a session.
pub(crate) fn refuse_locked(alloc: Global, session: &Session) -> Refused
    ensures { IsRefusedBy (Some (locked_by (session_seen (seen_of session.now)))) result }
{
    match session.label.copied(alloc) {
        Err(_) => Refused::Memory,
        Ok(label) => Refused::Rule(Rule {
            code: Code::Locked,
            detail: Detail::Label(label),
        }),
    }
}

// The definitions at their places, where a table of no group but the one at a place has no name.
fn names_without(
    alloc: Global,
    catalog: &Catalog,
    place: usize,
    schema: &[TableDef],
) -> Result<BackingSchema, AllocError>
    ensures { IfOk result (λ visible. visible ≡ named_where_cached (remove (groups_in catalog.now) place) schema.now) }
{
    let mut visible = Vec::new(alloc);
    for number in 0..schema.len() {
        if number >= 4_294_967_296 {
            return Err(AllocError);
        }
        let table = TableId(number as u32);
        visible.push(name_without(alloc, catalog, place, table, &schema[number])?)?;
    }
    Ok(Seq::from_vec(visible))
}

// A definition, without its name where the table is of no group but the one at a place.
fn name_without(
    alloc: Global,
    catalog: &Catalog,
    place: usize,
    table: TableId,
    def: &TableDef,
) -> Result<TableDef, AllocError>
    ensures { IfOk result (λ named. named ≡ named_def (remove (groups_in catalog.now) place) table def.now) }
{
    let mut named = def.copied(alloc)?;
    if is_elsewhere(catalog, place, table) {
        return Ok(named);
    }
    named.name = Name::hidden(alloc);
    Ok(named)
}

// Whether a group has the table, but the one at a place.
fn is_elsewhere(catalog: &Catalog, place: usize, table: TableId) -> bool
    ensures { result ≡ list_any (covers table) (remove (groups_in catalog.now) place) }
{
    for number in 0..catalog.len() {
        if number != place && has_table(catalog, number, table) {
            return true;
        }
    }
    false
}

// Whether the group at a place has the table.
fn has_table(catalog: &Catalog, place: usize, table: TableId) -> bool
    ensures { result ≡ unwrap_or (option_map (covers table) (slice_get (groups_in catalog.now) place)) false }
{
    match catalog.get(place) {
        None => false,
        Some(group) => group.def.tree.place_of(table).is_some(),
    }
}

// The store at a place goes; the homes of so many tables in the others. It fails for want of memory alone, and the
// stores are then as they were.
fn take_store(
    alloc: Global,
    stores: &mut Vec<Store>,
    place: usize,
    tables: u32,
) -> Result<Directory, AllocError>
    requires { place < length stores.old.items }
    ensures ok { OnOk result (stores.new.items ≡ remove stores.old.items place) }
    ensures homes { IfOk result (λ homes. homes ≡ homes_of (remove stores.old.items place) tables) }
    ensures err { OnErr result (stores.new.items ≡ stores.old.items) }
{
    let store = stores.remove(place);
    match Directory::of(alloc, stores.as_slice(), tables) {
        Ok(directory) => Ok(directory),
        Err(e) => {
            put_back(stores, place, store);
            Err(e)
        }
    }
}

// A store comes where there is room for it. It takes no memory.
fn put_back(stores: &mut Vec<Store>, place: usize, store: Store)
    requires within { place ≤ length stores.old.items }
    requires room { length stores.old.items < vec_capacity stores.old }
    ensures { stores.new.items ≡ insert stores.old.items place store }
{
    let _ = stores.insert(place, store);
}
