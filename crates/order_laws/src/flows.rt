//! What happens to a pipeline, a law for each event. All are this project's rules, over the writethrough cache groups
//! of the TimesTen Cache User's Guide.

ghost use Rattle.std.specs.Prelude.{◌≡◌, ◌+◌, ◌≤◌, ◌++◌, ◌^◌, ℕ, List, [], ◌∷◌, true};
ghost use Rattle.table_state.specs.table_defs.specs.declared.definition.TableDef.{TableDef};
ghost use Rattle.table_state.specs.declared.history.Entry.{Entry};
ghost use Rattle.table_state.specs.declared.history.Entry.TheVariants.{Definition, Foreign};
ghost use Rattle.table_state.specs.declared.history.Sealed.{Sealed};
ghost use Rattle.table_state.specs.declared.operation.Op.{Op};
ghost use Rattle.table_state.specs.Histories.{entry_of};
ghost use Rattle.table_state.specs.Independence.{with_new};
ghost use Rattle.table_state.specs.Tables.{TableState};
ghost use Rattle.order_laws.specs.Commits.{LiveGroup, pending};
ghost use Rattle.order_laws.specs.Standing.{HasGroup, HasGroupOrders, PendingIsLive, Progress, live_tables};
ghost use Rattle.order_laws.specs.Steps.{AreOfOthers, JoinsNone, MayBegin, MayComeAtOnce, MayCommit, MayDefine};
ghost use Rattle.order_laws.specs.Steps.{after_coming, after_committing, after_entries, at_begin, with_live_group, with_next, without_live_group};
ghost use Rattle.order_laws.specs.Events.{Event, Follows, IsNext, IsSettled};
ghost use Rattle.order_laws.specs.Pipelines.{FlowsAs, FlowsWithLive, Pipeline, with_history};

/// It begins over a history in which each ticket stands at most once, with nothing unsettled.
pub fn flow_begin_law()
    ensures { (history : List Entry) (next : ℕ) → MayBegin history next → next ≤ 2 ^ 63
        → Pipeline (at_begin history next) [] }
{}

/// A transaction commits, and is the last of the unsettled ones. The virtual state is what it leaves.
pub fn flow_commit_law()
    ensures { (p : Progress) (us : List Sealed) (x : Pipeline p us) (s : Sealed) (v : TableState)
        → MayCommit p x.stand.over s v → s.ticket.0 + 1 ≤ 2 ^ 63
        → FlowsAs (after_committing p s) (us ++ s ∷ []) v }
{}

/// A transaction commits and comes at once, as a synchronous one or one that is passed on. It isn't unsettled then.
pub fn flow_at_once_law()
    ensures { (p : Progress) (us : List Sealed) (x : Pipeline p us) (s : Sealed) (v : TableState)
        → MayComeAtOnce p x.stand.over s v → s.ticket.0 + 1 ≤ 2 ^ 63 → FlowsAs (after_coming p s) us v }
{}

/// A pending transaction comes that conflicts with none that is pending before it. The virtual state stays.
pub fn flow_come_law()
    ensures { (p : Progress) (us : List Sealed) (x : Pipeline p us) (s : Sealed)
        → IsNext x.stand.over.backing.schema p.history us s
        → FlowsAs (after_entries p (entry_of s ∷ [])) us x.stand.over.virtual }
{}

/// A transaction that stands in the history leaves the unsettled ones. The virtual state stays.
pub fn flow_settle_law()
    ensures { (p : Progress) (us : List Sealed) (x : Pipeline p us) (s : Sealed) (gone : IsSettled p.history us s)
        → FlowsAs p (gone.before ++ gone.behind) x.stand.over.virtual }
{}

/// A transaction of others comes, on no live table.
pub fn flow_others_law()
    ensures { (p : Progress) (us : List Sealed) (x : Pipeline p us) (ops : List Op)
        → AreOfOthers p x.stand.over ops
        → FlowsWithLive (after_entries p (Foreign ops ∷ [])) us x.stand.over.virtual }
{}

/// A round: pending transactions come and leave, and others' come between them, as many as may be. It need not end.
pub fn flow_round_law()
    ensures { (p : Progress) (us left : List Sealed) (x : Pipeline p us) (events : List Event) (later : List Entry)
        → Follows x.stand.over.backing.schema (live_tables p.groups) events p.history us later left
        → FlowsWithLive (with_history p later) left x.stand.over.virtual }
{}

/// Where nothing unsettled is pending, the backing state has in each live group's tables what the group's order leaves.
pub fn flow_drained_law()
    ensures { (p : Progress) (us : List Sealed) (x : Pipeline p us) → pending p.history us ≡ []
        → HasGroupOrders p x.stand.over.backing }
{}

/// A table is defined that no foreign key joins with those of a live group (`table`). A group is defined over tables
/// that nothing pending writes (`group`). A group is dropped where what is pending is on tables of the others
/// (`dropped`).
pub fn flow_define_law()
    ensures table { (p : Progress) (us : List Sealed) (x : Pipeline p us) (def : TableDef)
        → JoinsNone p x.stand.over def
        → FlowsAs (after_entries p (Definition def ∷ [])) us (with_new def x.stand.over.virtual) }
    ensures group { (p : Progress) (us : List Sealed) (x : Pipeline p us) (g : LiveGroup) → MayDefine p x.stand.over g
        → Pipeline (with_live_group p g) us }
    ensures dropped { (p : Progress) (us : List Sealed) (g : LiveGroup) (one : HasGroup p.groups g) → Pipeline p us
        → PendingIsLive (one.before ++ one.behind) p.history p.log → Pipeline (without_live_group p g one) us }
{}

/// A ticket is given to nothing.
pub fn flow_skip_law()
    ensures { (p : Progress) (us : List Sealed) (later : ℕ) → p.next ≤ later → later ≤ 2 ^ 63 → Pipeline p us
        → Pipeline (with_next p later) us }
{}
