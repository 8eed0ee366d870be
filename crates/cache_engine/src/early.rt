//! The second place of the order of refusals: what is refused there does no due work.

ghost use Rattle.std.specs.Prelude.{◌≡◌, ◌+◌, length, nat_lt};
ghost use Rattle.sql_subset.specs.declared.request.Line.TheVariants as says;
ghost use Rattle.table_defs.specs.Declarations.{Tells};
ghost use Rattle.std.specs.Option.{is_none};
ghost use Rattle.tier_base.specs.Limits.{greatest};
ghost use Rattle.tier_base.specs.declared.code.Code.TheVariants as code;
ghost use Rattle.tier_base.specs.declared.limit.Limit.TheVariants as limit;
ghost use Rattle.cache_tier.specs.Rules.{at_limit, broken_if, labelled};
ghost use Rattle.cache_tier.specs.SessionSteps.{open_fault};
ghost use Rattle.cache_tier.specs.Steps.{clock_fault, early_fault, session_fault};
ghost use Rattle.cache_tier.specs.TierStates.{Tier as AbstractTier, session_of};
ghost use Rattle.stored_tier.specs.Stored.{IsStoredAs};

use row_types::Refused;
use session_engine::commit::past;
use sql_subset::request::{Line, Request};
use std::alloc::Global;
use stored_tier::session::refuse_label;
use stored_tier::tier::Tier;
use tier_base::{Code, Label, Limit, Moment};

/// 123 of a session that isn't open; of OPEN 113 and 119; 119 of an addition to the clock past the end of the year
/// 9999. Or memory was wanting.
pub(crate) fn judge_early(
    tier: &Tier,
    alloc: Global,
    base: Moment,
    line: &Line,
) -> Result<(), Refused>
    ensures { (a : AbstractTier) → IsStoredAs tier.now a → Tells result (early_fault base.0 line.now a) }
{
    match line {
        Line::Session(label, request) => judge_label(tier, alloc, label, request),
        Line::Console(_) => Ok(()),
        Line::Clock(ms) => judge_clock(tier, base, *ms),
    }
}

fn judge_label(tier: &Tier, alloc: Global, label: &Label, request: &Request) -> Result<(), Refused>
    ensures { (a : AbstractTier) → IsStoredAs tier.now a
        → Tells result (session_fault a label.now request.now) }
{
    match request {
        Request::Open(_) => judge_open(tier, alloc, label),
        Request::Close => judge_session(tier, alloc, label),
        Request::Statement(_) => judge_session(tier, alloc, label),
    }
}

// 123: no session has the label.
fn judge_session(tier: &Tier, alloc: Global, label: &Label) -> Result<(), Refused>
    ensures { (a : AbstractTier) → IsStoredAs tier.now a
        → Tells result (broken_if (is_none (session_of a label.now)) (labelled code.UnknownSession label.now)) }
{
    tier.session(alloc, label)?;
    Ok(())
}

// 113 of the label of an open session, then 119.
fn judge_open(tier: &Tier, alloc: Global, label: &Label) -> Result<(), Refused>
    ensures { (a : AbstractTier) → IsStoredAs tier.now a → Tells result (open_fault a label.now) }
{
    match tier.sessions.find(label) {
        Some(_) => Err(refuse_label(alloc, Code::NameInUse, label)?),
        None => judge_room(tier),
    }
}

// 119: as many sessions are open as may be.
fn judge_room(tier: &Tier) -> Result<(), Refused>
    ensures { (a : AbstractTier) → IsStoredAs tier.now a
        → Tells result (at_limit limit.Sessions (length a.sessions)) }
{
    if tier.sessions.is_full() {
        return Err(past(Limit::Sessions));
    }
    Ok(())
}

// 119: the moment would pass the end of the year 9999.
fn judge_clock(tier: &Tier, base: Moment, ms: u64) -> Result<(), Refused>
    ensures { (a : AbstractTier) → IsStoredAs tier.now a → Tells result (clock_fault base.0 (says.Clock ms) a) }
{
    if is_past_clock(base.0, tier.clock.added, ms) {
        return Err(past(Limit::Clock));
    }
    Ok(())
}

// The sum is past the end of the year 9999.
fn is_past_clock(base: u64, added: u64, ms: u64) -> bool
    ensures { result ≡ nat_lt (greatest limit.Clock) (base + (added + ms)) }
{
    match added.checked_add(ms) {
        None => true,
        Some(more) => match base.checked_add(more) {
            None => true,
            Some(moment) => Limit::Clock.number() < moment,
        },
    }
}
