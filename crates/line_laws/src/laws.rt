//! Laws of lines, each on the contract of a function that does nothing. They are this project's rules.

ghost use Rattle.std.specs.Prelude.{◌≡◌, List, [], ℕ};
ghost use Rattle.std.specs.Prelude.{Ok};
ghost use Rattle.table_defs.specs.declared.definition.TableDef.{TableDef};
ghost use Rattle.resolution.specs.Writes.{PlacedChange};
ghost use Rattle.sql_query.specs.declared.query.Query.{Query};
ghost use Rattle.sql_query.specs.declared.write.Write.{Write};
ghost use Rattle.sql_subset.specs.declared.request.Line.{Line};
ghost use Rattle.sql_subset.specs.declared.request.OpenOptions.{OpenOptions};
ghost use Rattle.sql_subset.specs.declared.stmt.Alter.{Alter};
ghost use Rattle.sql_subset.specs.declared.stmt.CreateGroup.{CreateGroup};
ghost use Rattle.sql_subset.specs.declared.stmt.Load.{Load};
ghost use Rattle.sql_subset.specs.declared.stmt.OfGroup.{OfGroup};
ghost use Rattle.cache_tier.specs.AlterSteps.{Alters};
ghost use Rattle.cache_tier.specs.CommitSteps.{CommitsAll, CommitsLater, CommitsNow, RollsBack};
ghost use Rattle.cache_tier.specs.ConsoleSteps.{AsksSchema, Creates, WritesAll, clock_answer};
ghost use Rattle.cache_tier.specs.DefineSteps.{CreatesGroup};
ghost use Rattle.cache_tier.specs.DropSteps.{DropsGroup};
ghost use Rattle.cache_tier.specs.DueWork.{DueAging, DueDoubt, DueRound, DueSets};
ghost use Rattle.cache_tier.specs.LoadSteps.{Loads};
ghost use Rattle.cache_tier.specs.PassedSteps.{PassesOn};
ghost use Rattle.cache_tier.specs.RefreshSteps.{Refreshes};
ghost use Rattle.cache_tier.specs.Rounds.{Drains};
ghost use Rattle.cache_tier.specs.Routes.{Cached};
ghost use Rattle.cache_tier.specs.SelectSteps.{Selects};
ghost use Rattle.cache_tier.specs.SessionSteps.{close_answer, flag_answer, open_answer};
ghost use Rattle.cache_tier.specs.Steps.{Finishes, RefreshesCalled};
ghost use Rattle.cache_tier.specs.TierStates.{Session};
ghost use Rattle.cache_tier.specs.UnloadSteps.{Unloads};
ghost use Rattle.cache_tier.specs.Worlds.{Quiet};
ghost use Rattle.cache_tier.specs.WriteSteps.{WritesBy};
ghost use Rattle.line_laws.specs.Keeping.{Anything, AreOffLive, BreaksJournal, BreaksJournalAt, BreaksJournalDue, BreaksJournalOf, BreaksJournalWhere, HasNoWrites, IsOffLive, KeepsJournal, KeepsJournalAt, KeepsJournalDue, KeepsJournalInDoubt, KeepsJournalOf, KeepsJournalWhere, MayCreate, MeetsIfAtOnce, MeetsNone, NeverBreaks, RefersToNone};

/// The journal stays the tier's where a line changes nothing that an entry tells: OPEN (`opens`), CLOSE (`closes`),
/// ttOptSetFlag (`sets_level`), ROLLBACK (`rolls_back`), the clock (`clock`), the question for the schema (`asks`).
pub fn quiet_line_law()
    ensures opens { (label : List ℕ) (options : OpenOptions)
        → KeepsJournal (λ w w' reply. Quiet (open_answer w.tier label options) w w' reply) }
    ensures closes { (label : List ℕ) → KeepsJournal (λ w w' reply. Quiet (close_answer w.tier label) w w' reply) }
    ensures sets_level { (label : List ℕ) (level : ℕ)
        → KeepsJournal (λ w w' reply. Quiet (flag_answer w.tier label level) w w' reply) }
    ensures rolls_back { (s : Session) → KeepsJournal (RollsBack s) }
    ensures clock { KeepsJournal (λ w w' reply. Quiet (clock_answer w.tier) w w' reply) }
    ensures asks { (l : Line) → KeepsJournalAt (AsksSchema l) }
{}

/// The journal stays the tier's behind ALTER CACHE GROUP (`alters`) and UNLOAD CACHE GROUP (`unloads`), whose records
/// are flushed before the group changes, and behind ttCacheAutorefresh (`refreshes_called`).
pub fn group_line_law()
    ensures alters { (a : Alter) → KeepsJournal (Alters a) }
    ensures unloads { (s : Session) (u : OfGroup) → KeepsJournal (Unloads s u) }
    ensures refreshes_called { (interval : ℕ) → KeepsJournal (RefreshesCalled interval) }
{}

/// The journal stays the tier's behind a round, and what comes behind one: ttDrain (`drains`), LOAD CACHE GROUP
/// (`loads`), REFRESH CACHE GROUP (`refreshes`), DROP CACHE GROUP of a session that has no uncommitted writes
/// (`drops`).
pub fn round_line_law()
    ensures drains { KeepsJournal Drains }
    ensures loads { (load : Load) → KeepsJournal (Loads load) }
    ensures refreshes { (load : Load) → KeepsJournal (Refreshes load) }
    ensures drops { (s : Session) (name : List ℕ) → KeepsJournalOf s (HasNoWrites s) (DropsGroup s name) }
{}

/// The journal stays the tier's behind COMMIT of asynchronous writes, whose record is noted, or flushed with DURABLE
/// (`commits_later`); of synchronous ones, whose record is flushed first, and with which nothing pending conflicts, be
/// they in doubt then or not (`commits_now`); of either (`commits`); and behind CREATE CACHE GROUP of a group that may
/// come (`creates`).
pub fn commit_line_law()
    ensures commits_later { (s : Session) → KeepsJournalOf s Anything (CommitsLater s) }
    ensures commits_now { (s : Session) → KeepsJournalOf s (MeetsNone s) (CommitsNow s) }
    ensures commits { (s : Session) → KeepsJournalOf s (MeetsIfAtOnce s) (CommitsAll s) }
    ensures creates { (d : CreateGroup) → KeepsJournalWhere (MayCreate d) (CreatesGroup d) }
{}

/// The journal stays the tier's behind SELECT (`selects`), and behind INSERT, UPDATE and DELETE in the cache
/// (`writes`), with the dynamic load that may come before them; and behind a write that is passed on, which has its
/// number flushed first, and touches no table of a live writethrough group (`passes_on`).
pub fn query_line_law()
    ensures selects { (s : Session) (q : Query) → KeepsJournal (Selects s q) }
    ensures writes { (s : Session) (placed : PlacedChange) → KeepsJournal (WritesBy (Ok Cached) s placed) }
    ensures passes_on { (s : Session) (placed : PlacedChange)
        → KeepsJournalWhere (IsOffLive placed) (PassesOn s placed) }
{}

/// The journal stays the tier's behind what the console does: CREATE TABLE, whose foreign key refers to no table of a
/// live writethrough group, be it done or not (`creates`), and its writes, which touch none (`writes`).
pub fn console_line_law()
    ensures creates { (def : TableDef) → KeepsJournalWhere (RefersToNone def) (Creates def) }
    ensures writes { (writes : List Write) → KeepsJournalWhere (AreOffLive writes) (WritesAll writes) }
{}

/// The journal stays the tier's behind each item of due work: the doubt, where the bank tells whether its ticket
/// stands, whether the tier stands or not (`doubt`), the round (`round`), the sets (`sets`), aging (`aging`).
pub fn due_line_law()
    ensures doubt { KeepsJournalInDoubt DueDoubt }
    ensures round { KeepsJournalDue DueRound }
    ensures sets { KeepsJournalDue DueSets }
    ensures aging { KeepsJournalDue DueAging }
{}

/// The journal stays the tier's behind the flush at the end of the input.
pub fn end_line_law()
    ensures { KeepsJournalAt Finishes }
{}

/// A call of the journal's disk failed in a part, which ends the run: what may be there is the journal of a tier,
/// perhaps of the one that the part would have left, and each commit that was held is held. So it is of ALTER CACHE
/// GROUP (`alters`), UNLOAD CACHE GROUP (`unloads`) and ttCacheAutorefresh (`refreshes_called`).
pub fn broken_group_law()
    ensures alters { (a : Alter) → BreaksJournal (Alters a) }
    ensures unloads { (s : Session) (u : OfGroup) → BreaksJournal (Unloads s u) }
    ensures refreshes_called { (interval : ℕ) → BreaksJournal (RefreshesCalled interval) }
{}

/// So it is of a round, and what comes behind one: ttDrain (`drains`), LOAD CACHE GROUP (`loads`), REFRESH CACHE GROUP
/// (`refreshes`), DROP CACHE GROUP of a session that has no uncommitted writes (`drops`).
pub fn broken_round_law()
    ensures drains { BreaksJournal Drains }
    ensures loads { (load : Load) → BreaksJournal (Loads load) }
    ensures refreshes { (load : Load) → BreaksJournal (Refreshes load) }
    ensures drops { (s : Session) (name : List ℕ) → s.own ≡ [] → BreaksJournalOf s (DropsGroup s name) }
{}

/// So it is of COMMIT of asynchronous writes (`commits_later`), of synchronous ones, whatever is pending
/// (`commits_now`), of either (`commits`), and of CREATE CACHE GROUP of a group that may come (`creates`).
pub fn broken_commit_law()
    ensures commits_later { (s : Session) → BreaksJournalOf s (CommitsLater s) }
    ensures commits_now { (s : Session) → BreaksJournalOf s (CommitsNow s) }
    ensures commits { (s : Session) → BreaksJournalOf s (CommitsAll s) }
    ensures creates { (d : CreateGroup) → BreaksJournalWhere (MayCreate d) (CreatesGroup d) }
{}

/// So it is of SELECT (`selects`), of INSERT, UPDATE and DELETE in the cache (`writes`), and of a write that is passed
/// on, whatever tables it touches (`passes_on`).
pub fn broken_query_law()
    ensures selects { (s : Session) (q : Query) → BreaksJournal (Selects s q) }
    ensures writes { (s : Session) (placed : PlacedChange) → BreaksJournal (WritesBy (Ok Cached) s placed) }
    ensures passes_on { (s : Session) (placed : PlacedChange) → BreaksJournal (PassesOn s placed) }
{}

/// So it is of the items of due work: the doubt, which writes no record (`doubt`), the round (`round`), the sets
/// (`sets`), aging (`aging`); and of the flush at the end of the input (`ends`), whether the tier stands or not.
pub fn broken_due_law()
    ensures doubt { NeverBreaks DueDoubt }
    ensures round { BreaksJournalDue DueRound }
    ensures sets { BreaksJournalDue DueSets }
    ensures aging { BreaksJournalDue DueAging }
    ensures ends { BreaksJournalAt Finishes }
{}

/// So it is of parts that write no record: OPEN (`opens`), CLOSE (`closes`), ttOptSetFlag (`sets_level`), ROLLBACK
/// (`rolls_back`), the clock (`clock`), the question for the schema (`asks`), CREATE TABLE (`creates`), the console's
/// writes (`writes`).
pub fn broken_quiet_law()
    ensures opens { (label : List ℕ) (options : OpenOptions)
        → BreaksJournal (λ w w' reply. Quiet (open_answer w.tier label options) w w' reply) }
    ensures closes { (label : List ℕ) → BreaksJournal (λ w w' reply. Quiet (close_answer w.tier label) w w' reply) }
    ensures sets_level { (label : List ℕ) (level : ℕ)
        → BreaksJournal (λ w w' reply. Quiet (flag_answer w.tier label level) w w' reply) }
    ensures rolls_back { (s : Session) → BreaksJournal (RollsBack s) }
    ensures clock { BreaksJournal (λ w w' reply. Quiet (clock_answer w.tier) w w' reply) }
    ensures asks { (l : Line) → BreaksJournalAt (AsksSchema l) }
    ensures creates { (def : TableDef) → BreaksJournal (Creates def) }
    ensures writes { (writes : List Write) → BreaksJournal (WritesAll writes) }
{}
