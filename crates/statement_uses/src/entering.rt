//! What a commit enters into the lists of root keys.

ghost use Rattle.std.specs.Prelude.{◌≡◌, IfOk, Some, [], option_copied, if◌then◌else◌};
ghost use Rattle.std.specs.FinMap as map;
ghost use Rattle.std.specs.Option.{option_map};
ghost use Rattle.cache_tier.specs.Groups.{Group};
ghost use Rattle.group_catalog.specs.Catalogs.{groups_in};
ghost use Rattle.group_catalog.specs.Kept.{group_seen};
ghost use Rattle.group_store.specs.Stores.{Kept};
ghost use Rattle.statement_uses.specs.Touching.{HaveEntered, entered_keys};
ghost use Rattle.statement_uses.specs.Uses.{keeps_list};

use crate::using::keeps_list;
use group_catalog::{Catalog, KeptGroup};
use group_store::Store;
use indexed_rows::Rows;
use row_types::Key;
use std::alloc::{AllocError, Global};
use table_state::Ops;
use tier_base::Seq;

/// For each group of which the list of root keys counts, the root keys that operations insert into its store and leave
/// there, in key order; none for another group. The store of a group stands at its place.
///
/// It fails for want of memory alone. (TimesTen Cache User's Guide, "LRU aging"; that new roots of one transaction come
/// in key order is this project's rule.)
pub fn entered_by_ops(
    alloc: Global,
    catalog: &Catalog,
    stores: &[Store],
    ops: &Ops,
) -> Result<Seq<Seq<Key>>, AllocError>
    ensures { IfOk result (HaveEntered (groups_in catalog.now) stores.now ops.now) }
{
    let mut entered = Vec::new(alloc);
    for place in 0..catalog.len() {
        let roots = entered_in(alloc, catalog.get(place), stores.get(place), ops)?;
        entered.push(roots)?;
    }
    Ok(Seq::from_vec(entered))
}

fn entered_in(
    alloc: Global,
    group: Option<&KeptGroup>,
    store: Option<&Store>,
    ops: &Ops,
) -> Result<Seq<Key>, AllocError>
    ensures { IfOk result (λ roots. (g : Group) (s : Kept) → option_map group_seen (option_copied group.entry) ≡ Some g
        → option_copied store.entry ≡ Some s
        → roots ≡ (if keeps_list g then entered_keys s ops.now else [])) }
{
    match (group, store) {
        (Some(group), Some(store)) => {
            if keeps_list(group) {
                let roots = store.entered(alloc, ops)?;
                keys_of(alloc, &roots)
            } else {
                Ok(Seq::new(alloc))
            }
        }
        _ => Ok(Seq::new(alloc)),
    }
}

// The keys of rows, in key order.
fn keys_of(alloc: Global, rows: &Rows) -> Result<Seq<Key>, AllocError>
    ensures { IfOk result (λ keys. keys ≡ map.keys rows.now) }
{
    let mut keys = Vec::new(alloc);
    for at in 0..rows.len() {
        let key = rows.entry_at(at).0.copied(alloc)?;
        keys.push(key)?;
    }
    Ok(Seq::from_vec(keys))
}
