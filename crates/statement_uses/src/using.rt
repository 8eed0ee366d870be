//! Groups in which the order of last use counts.

ghost use Rattle.std.specs.Prelude.{◌≡◌};
ghost use Rattle.cache_tier.specs.Groups.{has_list, is_read_only};
ghost use Rattle.group_catalog.specs.Kept.{group_seen};
ghost use Rattle.statement_uses.specs.Uses.{keeps_list, keeps_order, leaves_by_use};

use cache_tier::group::AgingRule;
use group_catalog::KeptGroup;
use sql_subset::stmt::GroupKind;

/// Whether the order of last use counts in a group: it shows the instances of a list, and they leave so.
pub(crate) fn keeps_order(group: &KeptGroup) -> bool
    ensures { result ≡ keeps_order (group_seen group.now) }
{
    has_list(group) && leaves_by_use(&group.def.aging)
}

// Whether a group shows the instances of a list, and not its whole view.
fn has_list(group: &KeptGroup) -> bool
    ensures { result ≡ has_list (group_seen group.now) }
{
    group.def.dynamic || !is_read_only(group)
}

/// Whether a group is READONLY.
pub(crate) fn is_read_only(group: &KeptGroup) -> bool
    ensures { result ≡ is_read_only (group_seen group.now) }
{
    match group.def.kind {
        GroupKind::ReadOnly => true,
        GroupKind::AsynchronousWritethrough => false,
        GroupKind::SynchronousWritethrough => false,
        GroupKind::UserManaged => false,
    }
}

/// Whether it counts which keys are listed, or in what order.
pub(crate) fn keeps_list(group: &KeptGroup) -> bool
    ensures { result ≡ keeps_list (group_seen group.now) }
{
    group.def.dynamic || keeps_order(group)
}

fn leaves_by_use(aging: &Option<AgingRule>) -> bool
    ensures { result ≡ leaves_by_use aging.now }
{
    match aging {
        None => false,
        Some(AgingRule::LastUse) => true,
        Some(AgingRule::ByTime(_)) => false,
    }
}
