//! Laws of the definitions, each on the contract of a function that does nothing.

ghost use Rattle.cache_store.specs.table_state.specs.Tables.{TableState};
ghost use Rattle.cache_store.specs.instances.specs.declared.tree.Tree.{Tree};
ghost use Rattle.group_store.specs.Hiding.{HidesOne};
ghost use Rattle.group_store.specs.Keeping.{KeepsOneMore, KeepsOthers, KeepsPace};

/// A store that keeps what its group shows of a state for some roots keeps, without a root's instance, what the group
/// shows for the others.
pub fn drop_instance_law()
    ensures { (state : TableState) (tree : Tree) → KeepsOthers state tree }
{}

/// A store that keeps what its group shows of a state for some roots keeps, with the instance that a root has in that
/// state, what the group shows for that root too.
pub fn put_instance_law()
    ensures { (state : TableState) (tree : Tree) → KeepsOneMore state tree }
{}

/// A store that keeps what its group shows of a state for the keys of its list keeps, behind operations that apply
/// there one after another, what the group shows of the state behind them for the keys that the list has then. The
/// conditions are that the tree has no WHERE, and that each operation's row is of an instance of the store.
pub fn apply_ops_law()
    ensures { (state : TableState) (new : TableState) (tree : Tree) → KeepsPace state new tree }
{}

/// Where hidden rows are the root rows of a state whose keys pass a test, and a store keeps what its group shows of it
/// for the roots that pass another, the hidden rows behind `hide` are those of one key more, where it was shown.
pub fn hide_law()
    ensures { (state : TableState) (tree : Tree) → HidesOne state tree }
{}
