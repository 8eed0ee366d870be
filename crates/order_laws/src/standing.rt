//! What keeps that transactions stand over a history: a law for each event. All are this project's rules, over the
//! writethrough cache groups of the TimesTen Cache User's Guide.

ghost use Rattle.std.specs.Prelude.{◌≡◌, ◌≤◌, ◌++◌, ℕ, List, [], ◌∷◌, true, is_some};
ghost use Rattle.table_state.specs.table_defs.specs.declared.definition.TableDef.{TableDef};
ghost use Rattle.table_state.specs.declared.history.Entry.{Entry};
ghost use Rattle.table_state.specs.declared.history.Entry.TheVariants.{Definition, Foreign};
ghost use Rattle.table_state.specs.declared.history.Sealed.{Sealed};
ghost use Rattle.table_state.specs.declared.operation.Op.{Op};
ghost use Rattle.table_state.specs.Histories.{entry_of};
ghost use Rattle.table_state.specs.Independence.{with_new};
ghost use Rattle.table_state.specs.Operations.{applied_all};
ghost use Rattle.table_state.specs.Tables.{TableState};
ghost use Rattle.order_laws.specs.Commits.{IsInLog, LiveGroup, is_pending, pending};
ghost use Rattle.order_laws.specs.Laws.{FollowsAfterCommit, FollowsLater, IsNoHindrance, LowerBehind};
ghost use Rattle.order_laws.specs.Standing.{HasGroupOrders, HasGroup, PendingIsLive, Progress, Stand, StandOver, StandsAs, StandsWithLive};
ghost use Rattle.order_laws.specs.Steps.{AreOfOthers, ComesNext, IsRound, JoinsNone, LeavesLog, MayBegin, MayComeAtOnce, MayCommit, MayDefine, MeetsNone};
ghost use Rattle.order_laws.specs.Steps.{after_coming, after_committing, after_entries, at_begin, with_live_group, longer_by, with_next, without_live_group, without_one};

/// It begins over a history in which each ticket stands at most once, with no group and no transaction.
pub fn begin_law()
    ensures { (history : List Entry) (next : ℕ) → MayBegin history next → Stand (at_begin history next) }
{}

/// In each live group's tables the virtual state is what the group's order leaves (`order`), and so is the backing
/// state once nothing is pending (`drained`).
pub fn group_law()
    ensures order { (p : Progress) (over : StandOver p) → HasGroupOrders p over.virtual }
    ensures drained { (p : Progress) (over : StandOver p) → pending p.history p.log ≡ []
        → HasGroupOrders p over.backing }
{}

/// A transaction commits, and is pending then. The virtual state is what it leaves.
pub fn commit_law()
    ensures { (p : Progress) (stand : Stand p) (s : Sealed) (v : TableState) → MayCommit p stand.over s v
        → StandsAs (after_committing p s) v }
{}

/// A transaction commits and comes at once, as a synchronous one or one that is passed on, where no pending one
/// conflicts with it (`stands`). It then applies to the virtual state exactly where it applies to the backing state
/// (`applies`).
pub fn at_once_law()
    ensures stands { (p : Progress) (stand : Stand p) (s : Sealed) (v : TableState) → MayComeAtOnce p stand.over s v
        → StandsAs (after_coming p s) v }
    ensures applies { (p : Progress) (over : StandOver p) (s : Sealed) → MeetsNone p over s
        → is_some (applied_all s.ops over.virtual) ≡ is_some (applied_all s.ops over.backing) }
{}

/// A pending transaction comes to the history, where no lower pending one conflicts with it, and the virtual state
/// stays (`stands`). That it may come stays so where others come (`later`) or commit (`committed`) before it.
pub fn come_law()
    ensures stands { (p : Progress) (stand : Stand p) (s : Sealed) → ComesNext p stand.over s
        → StandsAs (after_entries p (entry_of s ∷ [])) stand.over.virtual }
    ensures later { FollowsLater }
    ensures committed { FollowsAfterCommit }
{}

/// A transaction of others comes, on no live table.
pub fn others_law()
    ensures { (p : Progress) (stand : Stand p) (ops : List Op) → AreOfOthers p stand.over ops
        → StandsWithLive (after_entries p (Foreign ops ∷ [])) stand.over.virtual }
{}

/// Pending transactions come in any legal order, and others' between them.
pub fn round_law()
    ensures { (p : Progress) (stand : Stand p) (entries : List Entry) → IsRound p stand.over entries
        → StandsWithLive (after_entries p entries) stand.over.virtual }
{}

/// A table is defined that no foreign key joins with those of a live group (`table`). A group is defined over tables
/// that nothing pending writes (`group`). A group is dropped where what is pending is on tables of the others
/// (`dropped`).
pub fn define_law()
    ensures table { (p : Progress) (stand : Stand p) (def : TableDef) → JoinsNone p stand.over def
        → StandsAs (after_entries p (Definition def ∷ [])) (with_new def stand.over.virtual) }
    ensures group { (p : Progress) (stand : Stand p) (g : LiveGroup) → MayDefine p stand.over g
        → Stand (with_live_group p g) }
    ensures dropped { (p : Progress) (g : LiveGroup) (one : HasGroup p.groups g) → Stand p
        → PendingIsLive (one.before ++ one.behind) p.history p.log → Stand (without_live_group p g one) }
{}

/// The last transaction is lost in a crash, where it is pending (`transaction`). A ticket is given to nothing
/// (`ticket`).
pub fn lost_law()
    ensures transaction { (p : Progress) (s : Sealed) → is_pending p.history s ≡ true
        → Stand (longer_by p s) → Stand p }
    ensures ticket { (p : Progress) (later : ℕ) → p.next ≤ later → Stand p → Stand (with_next p later) }
{}

/// A transaction leaves the log, as when a journal no longer has it: it stands in the history, and could as well be
/// one of others' (`stands`). An entry behind it is no hindrance where it is on no table of the group, or has no
/// conflict with it (`behind`); a lower one of a legal history has none (`lower`).
pub fn leave_law()
    ensures stands { (p : Progress) (stand : Stand p) (s : Sealed) (one : IsInLog p.log s)
        → LeavesLog p stand.over s one → StandsAs (without_one p s one) stand.over.virtual }
    ensures behind { IsNoHindrance }
    ensures lower { LowerBehind }
{}
