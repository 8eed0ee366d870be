//! Laws of the definitions, each on the contract of a function that does nothing.

ghost use Rattle.std.specs.Prelude.{◌≡◌, ℕ, List, true};
ghost use Rattle.instances.specs.row_types.specs.declared.value.Value.{Value};
ghost use Rattle.instances.specs.table_state.specs.Tables.{TableState};
ghost use Rattle.instances.specs.declared.tree.Tree.{Tree};
ghost use Rattle.instances.specs.Views.{view_of};
ghost use Rattle.cache_store.specs.Covering.{CoversTables};
ghost use Rattle.cache_store.specs.Growing.{ShowsMore, ShowsMoved};
ghost use Rattle.cache_store.specs.Operating.{ShowsDelete, ShowsInsert, ShowsUpdate};
ghost use Rattle.cache_store.specs.Owning.{DropsOwn};
ghost use Rattle.cache_store.specs.Tying.{TiesKeys};
ghost use Rattle.cache_store.specs.Shown.{GetsChosen, ShowsOneLess, ShowsOneMore, shown_of};

/// What is shown of a state for the roots that pass a test, and what more or fewer roots change of it.
pub fn shown_law()
    ensures whole { (s : TableState) (tree : Tree) → GetsChosen s tree }
    ensures all { (s : TableState) (tree : Tree) → shown_of s tree (λ k. true) ≡ view_of s tree }
    ensures put { (s : TableState) (tree : Tree) → ShowsOneMore s tree }
    ensures drop { (s : TableState) (tree : Tree) → ShowsOneLess s tree }
{}

/// A row that comes to a state is shown where its root is, and nothing else changes of what is shown. Read backwards,
/// from the second state to the first, this is a row that leaves.
pub fn growth_law()
    ensures { (s : TableState) (new : TableState) (tree : Tree) → ShowsMore s new tree }
{}

/// A row that becomes another, also one that refers to another parent and so moves to another instance with all that
/// refers to it.
pub fn move_law()
    ensures { (s : TableState) (new : TableState) (tree : Tree) → ShowsMoved s new tree }
{}

/// The view of a tree without WHERE, over a state whose foreign keys name rows, is its tables.
pub fn cover_law()
    ensures { (s : TableState) (tree : Tree) → CoversTables s tree }
{}

/// What an insert that applies makes of what is shown.
pub fn insert_law()
    ensures { (s : TableState) (new : TableState) (tree : Tree) → ShowsInsert s new tree }
{}

/// What a delete that applies makes of what is shown.
pub fn delete_law()
    ensures { (s : TableState) (new : TableState) (tree : Tree) → ShowsDelete s new tree }
{}

/// What an update that applies makes of what is shown, also one that moves its row to another instance.
pub fn update_law()
    ensures { (s : TableState) (new : TableState) (tree : Tree) → ShowsUpdate s new tree }
{}

/// The instance of a root among the rows that a store shows, reached by foreign keys alone, is the one of the state.
pub fn drop_law()
    ensures { (own : TableState) (s : TableState) (tree : Tree) → DropsOwn own s tree }
{}

/// What a call does to recent slots it does to the keys of the rows in them.
pub fn tie_law()
    ensures { (key_in : ℕ → List Value) (slots : List ℕ) (slot : ℕ) → TiesKeys key_in slots slot }
{}
