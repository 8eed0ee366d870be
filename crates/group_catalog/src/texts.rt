//! The texts of definitions.

ghost use Rattle.std.specs.Prelude.{◌≡◌, ◌<◌, IfOk, Some, length, slice_get};
ghost use Rattle.cache_tier.specs.Definitions.{text_of};
ghost use Rattle.cache_tier.specs.Groups.{Group};
ghost use Rattle.group_catalog.specs.Catalogs.{groups_in};
ghost use Rattle.sql_subset.specs.declared.stmt.CreateGroup.{CreateGroup as OneGroup};
ghost use Rattle.sql_subset.specs.declared.stmt.Stmt.TheVariants as statements;

use crate::catalog::Catalog;
use row_types::Text;
use sql_print::print::print;
use sql_subset::stmt::{CreateGroup, GroupKind, Stmt};
use std::alloc::{AllocError, Global};
use std::mem;
use tier_base::{Name, Seq};

impl Catalog {
    /// The text by which a journal keeps the definition of the group at a place. It fails for want of memory alone.
    ///
    /// A statement is printed, so the definition is taken out for it, and put back behind it.
    pub fn definition_text(&mut self, alloc: Global, place: usize) -> Result<Text, AllocError>
        requires { place < length (groups_in self.old) }
        ensures text { IfOk result (λ text. (g : Group) → slice_get (groups_in self.old) place ≡ Some g
            → text ≡ text_of g.def.declared) }
        ensures same { self.new ≡ self.old }
    {
        let group = &mut self.groups[place];
        print_definition(alloc, &mut group.def.declared)
    }
}

// The text of the definition, which is taken out for it and put back.
fn print_definition(alloc: Global, declared: &mut CreateGroup) -> Result<Text, AllocError>
    ensures text { IfOk result (λ text. text ≡ text_of declared.old) }
    ensures same { declared.new ≡ declared.old }
{
    let statement = Stmt::CreateGroup(mem::replace(declared, no_tables(alloc)));
    let text = print(alloc, &statement);
    put_back(declared, statement);
    text
}

// A definition without tables. It takes no memory.
fn no_tables(alloc: Global) -> CreateGroup {
    CreateGroup {
        name: Name::hidden(alloc),
        kind: GroupKind::ReadOnly,
        dynamic: false,
        autorefresh: None,
        tables: Seq::new(alloc),
    }
}

// Puts the definition that a statement is in this place; another statement is let go.
fn put_back(declared: &mut CreateGroup, statement: Stmt)
    ensures { (d : OneGroup) → statement ≡ statements.CreateGroup d → declared.new ≡ d }
{
    match statement {
        Stmt::CreateGroup(definition) => *declared = definition,
        _ => {}
    }
}
