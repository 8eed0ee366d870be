//! Where tables are kept.

ghost use Rattle.std.specs.Prelude.{◌≡◌, IfOk, Some, slice_get};
ghost use Rattle.std.specs.Option.{option_and_then};
ghost use Rattle.group_store.specs.Shown.{home_from, home_of, homes_of};

use crate::store::Store;
use slot_rows::tier_base::TableId;
use std::alloc::{AllocError, Global};
use std::marker::Model;

/// Where a table is kept: the number of its store among all, and its place in the store's tree.
#[derive(Clone, Copy)]
pub struct Home {
    /// The number of the store.
    pub store: usize,
    /// The place of the table in its tree.
    pub place: usize,
}

/// Where each table of a schema is kept, by its id. It is made anew where a group comes or goes, or the schema grows.
pub struct Directory {
    homes: Vec<Option<Home>>,
}

impl Drop for Directory {
    fn drop(self) {
        let Self { homes: _ } = self;
    }
}

impl Model for Directory {
    ghost use Rattle.std.specs.Prelude.{List, Option};
    ghost use Rattle.group_store.specs.declared.directory.Home.{Home};

    ghost Value = { List (Option Home) };

    ghost view = { λ d. d.homes.items };

    ghost invariant = { λ d. Unit {0} };
}

impl Directory {
    /// Where the first so many tables are kept in these stores.
    ///
    /// It fails for want of memory alone.
    pub fn of(alloc: Global, stores: &[Store], tables: u32) -> Result<Directory, AllocError>
        ensures { IfOk result (λ directory. directory ≡ homes_of stores.now tables) }
    {
        let mut homes = Vec::new(alloc);
        for number in 0..tables {
            homes.push(home_of(stores, TableId(number)))?;
        }
        Ok(Directory { homes })
    }

    /// Where a table is kept, where one of the stores has it. It costs O(1).
    pub fn home(&self, table: TableId) -> Option<Home>
        ensures { result ≡ option_and_then (λ home. home) (slice_get self.now table.0) }
    {
        match self.homes.get(table.0 as usize) {
            None => None,
            Some(home) => *home,
        }
    }
}

fn home_of(stores: &[Store], table: TableId) -> Option<Home>
    ensures { result ≡ home_of stores.now table }
{
    for number in 0..stores.len() {
        match stores[number].place_of(table) {
            None => {}
            Some(place) => {
                return Some(Home {
                    store: number,
                    place,
                });
            }
        }
    }
    None
}
