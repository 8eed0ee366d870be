//! Laws of the definitions, each on the contract of a function that does nothing.

ghost use Rattle.table_state.specs.Tables.{TableState};
ghost use Rattle.instances.specs.Instances.{IsApart, IsCovered, IsPart};
ghost use Rattle.instances.specs.declared.tree.Tree.{Tree as OneTree};

/// Each row of an instance is one of the view, and each row of the view is in one instance: that of the root key that
/// it is reached from.
pub fn instance_law()
    ensures part { (s : TableState) (tree : OneTree) → IsPart s tree }
    ensures covered { (s : TableState) (tree : OneTree) → IsCovered s tree }
    ensures apart { (s : TableState) (tree : OneTree) → IsApart s tree }
{}
