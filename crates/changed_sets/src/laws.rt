//! Laws of the definitions, each on the contract of a function that does nothing.

ghost use Rattle.table_state.specs.Tables.{TableState};
ghost use Rattle.instances.specs.declared.tree.Tree.{Tree};
ghost use Rattle.changed_sets.specs.Told.{ShowsChanged};

use group_store::laws::drop_instance_law;

/// A store that shows instances of one state shows those of another one behind a refresh by the instances that differ.
pub fn changed_law()
    ensures { (from : TableState) (to : TableState) (tree : Tree) → ShowsChanged from to tree }
{
    drop_instance_law();
}
