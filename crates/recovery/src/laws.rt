//! Laws of recovery, each on the contract of a function that does nothing. They are this project's rules, over recovery
//! as the TimesTen Cache User's Guide tells of it.

ghost use Rattle.std.specs.Prelude.{◌≡◌, ◌≤◌, ◌^◌, ◌++◌, ◌∷◌, Bool, ℕ, List, [], None, Some, false, length, true};
ghost use Rattle.table_defs.specs.declared.definition.TableDef.{TableDef};
ghost use Rattle.table_state.specs.declared.history.Entry.{Entry};
ghost use Rattle.table_state.specs.declared.history.Entry.TheVariants.{Definition};
ghost use Rattle.table_state.specs.declared.history.Sealed.{Sealed};
ghost use Rattle.order_laws.specs.Events.{Event, Follows};
ghost use Rattle.order_laws.specs.Standing.{live_tables};
ghost use Rattle.cache_tier.specs.ConsoleSteps.{refers_to_writethrough};
ghost use Rattle.cache_tier.specs.Events.{at_history, settled_to, with_tier};
ghost use Rattle.cache_tier.specs.Defining.{IsNewGroup};
ghost use Rattle.cache_tier.specs.DefineSteps.{with_new_group};
ghost use Rattle.cache_tier.specs.Definitions.{IsTreeOf, definition_names, placed_tables};
ghost use Rattle.cache_tier.specs.Dropping.{MayDrop};
ghost use Rattle.cache_tier.specs.DropSteps.{without_group};
ghost use Rattle.cache_tier.specs.Groups.{Group, definitions_of, is_called};
ghost use Rattle.cache_tier.specs.Journals.{Defines, Drops, Journal, JournalEntry, Numbers, Prepares, SetsLoaded, SetsState};
ghost use Rattle.cache_tier.specs.CommitSteps.{sealed_own};
ghost use Rattle.cache_tier.specs.PassedSteps.{with_ticket};
ghost use Rattle.table_state.specs.Histories.{entry_of};
ghost use Rattle.instances.specs.declared.tree.Tree.{Tree};
ghost use Rattle.sql_subset.specs.declared.stmt.CreateGroup.{CreateGroup};
ghost use Rattle.cache_tier.specs.AlterSteps.{with_state};
ghost use Rattle.sql_subset.specs.declared.stmt.RefreshState.{RefreshState};
ghost use Rattle.cache_tier.specs.Shown.{shown_state};
ghost use Rattle.cache_tier.specs.StandingBetween.{Stands, live_groups_of};
ghost use Rattle.cache_tier.specs.TierStates.{Session, Settings, Tier, opened, session_of, with_group};
ghost use Rattle.cache_tier.specs.WayPoints.{with_way};
ghost use Rattle.cache_tier.specs.Worlds.{BankCall, IsUnshared, World};
ghost use Rattle.outside.specs.Bank.{Grows};
ghost use Rattle.outside.specs.Others.{AreOthers};
ghost use Rattle.recovery.specs.Journalled.{CrashLeaves, IsFlushed, IsFlushedWith, IsJournalled, IsJournalledOn, IsNumbered, IsPrepared, IsQuiet, IsRenewed, IsToldAtOnce, with_commit_noted, with_flushed_entry};
ghost use Rattle.recovery.specs.Recalling.{AreMatched, RecallsAll, group_of, recalled, with_loaded};

/// Where a journal's entries and a history belong together, the tier that the entries leave stands over the history,
/// with no session, and the entries' commits unsettled (`stands`). It shows what a tier shows that has no group:
/// nothing is loaded yet (`bare`).
pub fn recalled_law()
    ensures stands { (w : World) (entries : List JournalEntry) (settings : Settings) (moment : ℕ) (t : Tier)
        (m : AreMatched entries w.history) → RecallsAll entries (opened settings moment m.backing.schema) t
        → Stands (with_tier (recalled m.backing.schema entries w.history t) w) }
    ensures bare { (h : List Entry) (entries : List JournalEntry) (settings : Settings) (moment : ℕ) (t : Tier)
        (m : AreMatched entries h) → RecallsAll entries (opened settings moment m.backing.schema) t
        → shown_state h (recalled m.backing.schema entries h t)
        ≡ shown_state h (opened settings moment m.backing.schema) }
{}

/// The journal stays the tier's where a session's transaction commits and its record is noted (`commits`), where the
/// tail is flushed (`flushes`), or with a definition, a drop, a STATE or a flag behind it (`definitions`, `drops`,
/// `states`, `flags`), where a round is done, with the tail flushed before, and transactions of others come (`round`),
/// where a synchronous transaction's record is flushed (`prepares`) and it comes (`applies`), where the number of a
/// write that is passed on is flushed (`numbers`) and it comes (`passes`), where transactions of others come that
/// change no table of a live writethrough group, as in a call of the bank that reads (`others`, `reads`), where a table
/// is defined whose foreign key refers to no table of such a group, whether the tier has been told or not (`tables`),
/// where a slot is begun anew and nothing is unsettled (`rotates`), and where the tier changes in what no entry tells
/// (`quiet`). What was held is held, and each point of the journal's way is safe (`HasSafeWay`). Where a group is
/// dropped it is asked that others change no table of a live writethrough group.
pub fn journalled_law()
    ensures commits { (w : World) (early : List Sealed) (s : Session) → Stands w → IsJournalled w early
        → session_of w.tier s.label ≡ Some s → IsJournalledOn (with_commit_noted s w) early }
    ensures flushes { (w : World) (early : List Sealed) (new : Journal) → IsJournalled w early
        → IsFlushed (length w.history) w.journal new → IsJournalledOn (record w { journal = new }) early }
    ensures definitions { (w : World) (early : List Sealed) (d : CreateGroup) (text : List ℕ) (tree : Tree) (t : Tier)
        (new : Journal) → Stands w → IsJournalled w early → IsTreeOf (placed_tables w.tier.schema d) tree
        → definition_names w.tier.schema (definitions_of w.tier.groups) d ≡ None
        → IsNewGroup w (group_of w.tier d tree) → IsFlushedWith (Defines d text) (length w.history) w.journal new
        → IsQuiet (with_new_group d tree w.tier) t → IsJournalledOn (with_flushed_entry t new w) early }
    ensures drops { (w : World) (early : List Sealed) (name : List ℕ) (g : Group) (t : Tier) (new : Journal)
        → Stands w → IsJournalled w early → IsUnshared w → MayDrop w name g → is_called name g ≡ true
        → IsFlushedWith (Drops name) (length w.history) w.journal new → IsQuiet (without_group name w.tier) t
        → IsJournalledOn (with_flushed_entry t new w) early }
    ensures states { (w : World) (early : List Sealed) (name : List ℕ) (state : RefreshState) (t : Tier) (new : Journal)
        → IsJournalled w early → IsFlushedWith (SetsState name state) (length w.history) w.journal new
        → IsQuiet (with_group name (with_state state) w.tier) t → IsJournalledOn (with_flushed_entry t new w) early }
    ensures flags { (w : World) (early : List Sealed) (name : List ℕ) (flag : Bool) (t : Tier) (new : Journal)
        → IsJournalled w early → IsFlushedWith (SetsLoaded name flag) (length w.history) w.journal new
        → IsQuiet (with_group name (with_loaded flag) w.tier) t → IsJournalledOn (with_flushed_entry t new w) early }
    ensures round { (w : World) (early : List Sealed) (events : List Event) (later : List Entry) (left : List Sealed)
        (moment : ℕ) (stands : Stands w) → IsJournalled w early → w.journal.tail ≡ []
        → Follows stands.flow.stand.over.backing.schema (live_tables (live_groups_of w.tier.groups)) events w.history
        w.tier.unsettled later left → IsJournalledOn (settled_to left moment (at_history later w)) early }
    ensures prepares { (w : World) (early : List Sealed) (s : Session) (t : Tier) (new : Journal) → Stands w
        → IsJournalled w early → session_of w.tier s.label ≡ Some s
        → IsFlushedWith (Prepares (sealed_own w.tier s)) (length w.history) w.journal new
        → IsQuiet (with_ticket w.tier) t → IsJournalledOn (with_flushed_entry t new w) early }
    ensures applies { (w : World) (early : List Sealed) (s : Sealed) (front : List JournalEntry) (t : Tier)
        → IsJournalled w early → IsPrepared w s front → IsToldAtOnce s w.tier t
        → IsJournalledOn (at_history (w.history ++ entry_of s ∷ []) (record w { tier = t })) early }
    ensures numbers { (w : World) (early : List Sealed) (t : Tier) (new : Journal) → Stands w → IsJournalled w early
        → IsFlushedWith (Numbers w.tier.next) (length w.history) w.journal new → IsQuiet (with_ticket w.tier) t
        → IsJournalledOn (with_flushed_entry t new w) early }
    ensures passes { (w : World) (early : List Sealed) (s : Sealed) (front : List JournalEntry) (t : Tier)
        → IsJournalled w early → IsNumbered w s front → IsToldAtOnce s w.tier t
        → IsJournalledOn (at_history (w.history ++ entry_of s ∷ []) (record w { tier = t })) early }
    ensures others { (w : World) (early : List Sealed) (entries : List Entry) (t : Tier) → IsJournalled w early
        → IsUnshared w → AreOthers w.shared w.history entries → IsQuiet w.tier t
        → IsJournalledOn (at_history (w.history ++ entries) (record w { tier = t })) early }
    ensures reads { (w w' : World) (early : List Sealed) → IsJournalled w early → IsUnshared w
        → BankCall (Grows []) w w' → IsQuiet w.tier w'.tier → IsJournalledOn w' early }
    ensures tables { (w : World) (early : List Sealed) (def : TableDef) (t : Tier) → IsJournalled w early
        → refers_to_writethrough w.tier def.foreign_key ≡ false → IsQuiet w.tier t
        → IsJournalledOn (at_history (w.history ++ Definition def ∷ []) (record w { tier = t })) early }
    ensures rotates { (w : World) (early : List Sealed) (new : Journal) → Stands w → IsJournalled w early
        → w.journal.tail ≡ [] → w.tier.unsettled ≡ [] → IsRenewed w.tier (length w.history) w.journal new
        → IsJournalledOn (record w { journal = new }) early }
    ensures quiet { (w : World) (early : List Sealed) (t : Tier) → IsJournalled w early → IsQuiet w.tier t
        → IsJournalled (record w { tier = t }) early }
{}

/// What a crash leaves between two events, whether the tier stands or a commit is in doubt: the entries that are
/// flushed belong to the history, they leave the tier's catalog, and all commits that were held are held. By
/// `recalled_law` the tier of these entries stands.
pub fn crash_leaves_law()
    ensures { (w : World) (early : List Sealed) (settings : Settings) (moment : ℕ) → w.tier.next ≤ 2 ^ 63
        → IsJournalled w early → CrashLeaves w early settings moment }
{}

/// A way of the journal may begin at any moment, whatever way it had: its one point is what is flushed now, over the
/// history as it is. From then on `journalled_law` tells of each point of it that entries and history belong together,
/// and hold all commits that were held when it began, as long as tickets are left.
pub fn way_law()
    ensures { (w : World) (early : List Sealed) (moment : ℕ) → IsJournalled w early
        → IsJournalled (record w { journal = with_way moment (length w.history) w.journal }) early }
{}
