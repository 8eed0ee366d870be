//! What drops and flags do to the groups that they name.

ghost use Rattle.std.specs.Prelude.{◌≡◌, IfSome, None, is_some, not, option_copied, true};
ghost use Rattle.std.specs.List.{filter};
ghost use Rattle.std.specs.Option.{option_map};
ghost use Rattle.cache_tier.specs.AlterSteps.{with_state};
ghost use Rattle.cache_tier.specs.Groups.{changed_where, is_called};
ghost use Rattle.group_catalog.specs.Catalogs.{groups_in};
ghost use Rattle.group_catalog.specs.Kept.{group_seen};
ghost use Rattle.recovery.specs.Recalling.{with_loaded};
ghost use Rattle.recalling.specs.Fitting.{group_called, is_one_read_only};
ghost use Rattle.recalling.specs.Steps.{AreNamedApart, IsPlaceOf, is_one_called};

use group_catalog::{Catalog, KeptGroup};
use sql_subset::stmt::{GroupKind, RefreshState};

// The group of this name leaves; false where there is none.
pub(crate) fn drop_named(catalog: &mut Catalog, name: &[u8]) -> bool
    requires { AreNamedApart (groups_in catalog.old) }
    ensures fit { result ≡ is_some (group_called (groups_in catalog.old) name.now) }
    ensures left { result ≡ true
        → groups_in catalog.new ≡ filter (λ g. not (is_called name.now g)) (groups_in catalog.old) }
{
    match find_named(catalog, name) {
        None => false,
        Some(place) => {
            catalog.drop_group(place);
            true
        }
    }
}

// The READONLY group of this name has this STATE; false where there is none.
pub(crate) fn set_state(catalog: &mut Catalog, name: &[u8], state: RefreshState) -> bool
    requires { AreNamedApart (groups_in catalog.old) }
    ensures fit { result ≡ is_one_read_only (group_called (groups_in catalog.old) name.now) }
    ensures left { result ≡ true
        → groups_in catalog.new ≡ changed_where (is_called name.now) (with_state state) (groups_in catalog.old) }
{
    match find_named(catalog, name) {
        None => false,
        Some(place) => {
            if is_read_only(catalog.get(place)) {
                catalog.with_state(place, state);
                true
            } else {
                false
            }
        }
    }
}

// The group of this name has this loaded flag; false where there is none.
pub(crate) fn set_loaded(catalog: &mut Catalog, name: &[u8], loaded: bool) -> bool
    requires { AreNamedApart (groups_in catalog.old) }
    ensures fit { result ≡ is_some (group_called (groups_in catalog.old) name.now) }
    ensures left { result ≡ true
        → groups_in catalog.new ≡ changed_where (is_called name.now) (with_loaded loaded) (groups_in catalog.old) }
{
    match find_named(catalog, name) {
        None => false,
        Some(place) => {
            catalog.with_loaded(place, loaded);
            true
        }
    }
}

// The place of the group of this name. The journal has the bytes of names, and no names.
fn find_named(catalog: &Catalog, name: &[u8]) -> Option<usize>
    ensures found { IfSome result (IsPlaceOf (groups_in catalog.now) name.now) }
    ensures none { result ≡ None → group_called (groups_in catalog.now) name.now ≡ None }
{
    for place in 0..catalog.len() {
        if is_called(catalog.get(place), name) {
            return Some(place);
        }
    }
    None
}

fn is_called(group: Option<&KeptGroup>, name: &[u8]) -> bool
    ensures { result ≡ is_one_called name.now (option_map group_seen (option_copied group.entry)) }
{
    match group {
        None => false,
        Some(group) => group.def.name.as_bytes() == name,
    }
}

fn is_read_only(group: Option<&KeptGroup>) -> bool
    ensures { result ≡ is_one_read_only (option_map group_seen (option_copied group.entry)) }
{
    match group {
        None => false,
        Some(group) => match group.def.kind {
            GroupKind::ReadOnly => true,
            _ => false,
        },
    }
}
