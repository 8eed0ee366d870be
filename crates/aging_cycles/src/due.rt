//! When the cycle of a group is due, and the horizon that it leaves.

ghost use Rattle.std.specs.Prelude.{◌≡◌, ◌≤◌, ◌^◌, MatchOption};
ghost use Rattle.group_catalog.specs.Kept.{group_seen};
ghost use Rattle.cache_tier.specs.Aging.{horizon_at, is_over, later};
ghost use Rattle.aging_cycles.specs.Cycles.{horizon_behind, is_due, span_of};

use cache_tier::group::{AgingRule, TimeRule};
use group_catalog::KeptGroup;
use stored_tier::clock::Pace;

/// Whether the group's aging cycle is due at this moment.
pub(crate) fn is_due(pace: &Pace, now: u64, group: &KeptGroup) -> bool
    ensures { result ≡ is_due pace.now now (group_seen group.now) }
{
    match &group.def.aging {
        None => false,
        Some(rule) => match span_of(pace, rule) {
            None => false,
            Some(span) => is_over(now, group.aged.0, span),
        },
    }
}

// The milliseconds between two cycles; none where they are more than a moment has.
fn span_of(pace: &Pace, rule: &AgingRule) -> Option<u64>
    ensures { MatchOption result (2 ^ 64 ≤ span_of pace.now rule.now) (λ span. span ≡ span_of pace.now rule.now) }
{
    match rule {
        AgingRule::LastUse => Some(pace.lru_cycle_ms),
        AgingRule::ByTime(rule) => rule.cycle.checked_mul(1000),
    }
}

// Whether so much time has passed since then.
fn is_over(now: u64, last: u64, span: u64) -> bool
    ensures { result ≡ is_over now last span }
{
    match last.checked_add(span) {
        None => false,
        Some(due) => due <= now,
    }
}

/// The group's horizon behind a cycle at this moment: by time a lifetime before it, or what the group had where that is
/// later; by last use it stays.
pub(crate) fn horizon_of(now: u64, group: &KeptGroup) -> Option<i128>
    ensures { result ≡ horizon_behind now (group_seen group.now).def.aging (group_seen group.now).horizon }
{
    match &group.def.aging {
        Some(AgingRule::ByTime(rule)) => Some(later(group.horizon, horizon_at(now, rule))),
        _ => group.horizon,
    }
}

// A lifetime before this moment.
fn horizon_at(now: u64, rule: &TimeRule) -> i128
    ensures { result ≡ horizon_at now rule.now }
{
    i128::from(now / 1000) - i128::from(rule.lifetime)
}

// The later of two horizons.
fn later(horizon: Option<i128>, at: i128) -> i128
    ensures { result ≡ later horizon at }
{
    match horizon {
        None => at,
        Some(old) => { if old < at { at } else { old } }
    }
}
