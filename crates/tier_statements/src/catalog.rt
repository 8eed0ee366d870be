//! Which cache group has a table.

ghost use Rattle.std.specs.Prelude.{◌≡◌, List, true};
ghost use Rattle.cache_tier.specs.Groups.{Group, is_read_only, is_synchronous, is_table_of, is_writethrough};

use tier_base::TableId;

/// Tells by the number of a table what kind of cache group has it. Clauses see a list of groups, of which their tables
/// and kinds alone are asked. Each call is to cost no more than a look-up, and none takes memory.
pub trait Catalog {
    ghost groups: { Self → List Group };

    /// Whether a group has the table.
    fn is_cached(&self, table: TableId) -> bool
        ensures { result ≡ is_table_of (λ g. true) (groups self.now) table };

    /// Whether a writethrough group has the table.
    fn is_written_through(&self, table: TableId) -> bool
        ensures { result ≡ is_table_of is_writethrough (groups self.now) table };

    /// Whether a READONLY group has the table.
    fn is_only_read(&self, table: TableId) -> bool
        ensures { result ≡ is_table_of is_read_only (groups self.now) table };

    /// Whether a SYNCHRONOUS WRITETHROUGH group has the table.
    fn is_synchronous(&self, table: TableId) -> bool
        ensures { result ≡ is_table_of is_synchronous (groups self.now) table };
}
