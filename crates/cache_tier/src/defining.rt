//! What an opened tier is, and what definitions leave of what is shown. This project's rules.

ghost use Rattle.std.specs.Prelude.{◌≡◌, ◌++◌, ℕ, List, [], ◌∷◌, Some, true, false};
ghost use Rattle.table_defs.specs.declared.definition.TableDef.{TableDef};
ghost use Rattle.table_state.specs.declared.history.Entry.TheVariants.{Definition};
ghost use Rattle.table_state.specs.Histories.{state_of};
ghost use Rattle.table_state.specs.Tables.{TableState};
ghost use Rattle.order_laws.specs.Steps.{MayBegin};
ghost use Rattle.instances.specs.declared.tree.Tree.{Tree};
ghost use Rattle.sql_subset.specs.declared.stmt.CreateGroup.{CreateGroup};
ghost use Rattle.cache_tier.specs.ConsoleSteps.{refers_to_writethrough};
ghost use Rattle.cache_tier.specs.Definitions.{defined_by, new_group};
ghost use Rattle.cache_tier.specs.DefineSteps.{with_new_group};
ghost use Rattle.cache_tier.specs.DropSteps.{without_group};
ghost use Rattle.cache_tier.specs.Groups.{Group};
ghost use Rattle.cache_tier.specs.TierStates.{Settings, opened};
ghost use Rattle.cache_tier.specs.Worlds.{World};
ghost use Rattle.cache_tier.specs.StandingBetween.{Stands};
ghost use Rattle.cache_tier.specs.Defining.{IsNewGroup, ShowsSchema, ShowsTable};
ghost use Rattle.cache_tier.specs.Dropping.{MayDrop, ShowsWithout};
ghost use Rattle.cache_tier.specs.Events.{StaysShown, at_history, with_tier};

/// A tier stands as it is opened, over a history without transactions of the tier's.
pub fn opened_law()
    ensures { (w : World) (settings : Settings) (moment : ℕ) (s : TableState) → state_of w.history ≡ Some s
        → MayBegin w.history 1 → Stands (with_tier (opened settings moment s.schema) w) }
{}

/// A group is defined. What is shown stays.
pub fn group_shown_law()
    ensures { (w : World) (d : CreateGroup) (tree : Tree) → Stands w
        → IsNewGroup w (new_group w.tier.next w.tier.now d (defined_by w.tier.schema d tree))
        → StaysShown w (with_tier (with_new_group d tree w.tier) w) }
{}

/// A table is defined at the bank, whose foreign key refers to no table of a writethrough group. Where the tier knew
/// all of the schema and is told at once, one table without rows more is shown (`told`). Where it isn't told what is
/// shown stays (`untold`). When it is told the whole schema later, all tables that are new to it are shown without
/// rows (`schema`).
pub fn table_shown_law()
    ensures told { (w : World) (def : TableDef) → Stands w → w.tier.stale ≡ false
        → refers_to_writethrough w.tier def.foreign_key ≡ false
        → ShowsTable def w (with_tier (record w.tier { schema = w.tier.schema ++ def ∷ [] })
        (at_history (w.history ++ Definition def ∷ []) w)) }
    ensures untold { (w : World) (def : TableDef) → Stands w → refers_to_writethrough w.tier def.foreign_key ≡ false
        → StaysShown w (with_tier (record w.tier { stale = true }) (at_history (w.history ++ Definition def ∷ []) w)) }
    ensures schema { (w : World) (more : List TableDef) (s : TableState) → Stands w → state_of w.history ≡ Some s
        → s.schema ≡ w.tier.schema ++ more
        → ShowsSchema more w (with_tier (record w.tier { schema = s.schema; stale = false }) w) }
{}

/// A group is dropped: nothing is shown of its tables, and the others as they were. Of a writethrough group it is asked
/// that nothing is unsettled, and that no session has written on its tables.
pub fn drop_shown_law()
    ensures { (w : World) (name : List ℕ) (g : Group) → Stands w → MayDrop w name g
        → ShowsWithout g w (with_tier (without_group name w.tier) w) }
{}
