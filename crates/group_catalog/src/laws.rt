//! Laws of definitions that are accepted, on the contract of a function that does nothing.

ghost use Rattle.group_catalog.specs.ReadBack.{StandsReadBack};
ghost use Rattle.group_catalog.specs.Sound.{HasNewTables, StandsApart, WritesAll};

/// What holds of the tree of a definition that breaks no rule: none of its tables is in another group. In a
/// writethrough group no table has a condition, and no foreign key joins one of its tables with a table outside.
pub fn definition_law()
    ensures has_new_tables { HasNewTables }
    ensures writes_all { WritesAll }
    ensures stands_apart { StandsApart }
{}

/// The group of a definition that is read back, and breaks no rule, may stand in the catalog: its tree is sound over
/// the schema; of a writethrough group no table has a condition, and the root refers to no table; and no other group
/// has its name, or a table of it.
pub fn read_back_law()
    ensures { StandsReadBack }
{}
