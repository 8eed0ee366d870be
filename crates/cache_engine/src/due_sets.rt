//! Which sets of READONLY groups are due.

ghost use Rattle.std.specs.Prelude.{◌≡◌, ℕ, IfOk, OnOk, true};
ghost use Rattle.std.specs.List.{filter, list_all};
ghost use Rattle.cache_tier.specs.DueWork.{intervals, with_number};
ghost use Rattle.group_catalog.specs.Catalogs.{groups_in};
ghost use Rattle.cache_engine.specs.DueItems.{due_at, is_due_at};
ghost use Rattle.stored_tier.specs.Refreshing.{has_moment, moment_in};

use group_catalog::Catalog;
use std::alloc::{AllocError, Global};
use stored_tier::moments::SetMoment;
use stored_tier::refreshing::{is_on, is_read_only, make_moment};

// The intervals of the sets that are due at a moment, rising. It fails for want of memory alone.
pub(crate) fn due_intervals(
    alloc: Global,
    catalog: &Catalog,
    sets: &[SetMoment],
    now: u64,
) -> Result<Vec<u64>, AllocError>
    ensures { IfOk result (λ due. due.items ≡ due_at now sets.now (groups_in catalog.now)) }
{
    let all = set_intervals(alloc, catalog)?;
    due_among(alloc, all.as_slice(), sets, now)
}

// The intervals of all sets, rising.
fn set_intervals(alloc: Global, catalog: &Catalog) -> Result<Vec<u64>, AllocError>
    ensures { IfOk result (λ all. all.items ≡ intervals (groups_in catalog.now)) }
{
    let mut all = Vec::new(alloc);
    let mut place = catalog.len();
    while place > 0 {
        place -= 1;
        let Some(group) = catalog.get(place) else {
            return Err(AllocError);
        };
        if is_read_only(group) && is_on(group.state) {
            put_number(&mut all, group.def.interval)?;
        }
    }
    Ok(all)
}

// Puts a number among rising ones, where it isn't there.
fn put_number(numbers: &mut Vec<u64>, number: u64) -> Result<(), AllocError>
    ensures { OnOk result (numbers.new.items ≡ with_number number numbers.old.items) }
{
    for place in 0..numbers.len() {
        if number < numbers[place] {
            numbers.insert(place, number)?;
            return Ok(());
        }
        if number == numbers[place] {
            return Ok(());
        }
    }
    numbers.push(number)?;
    Ok(())
}

// Those among these intervals of which the set is due.
fn due_among(
    alloc: Global,
    all: &[u64],
    sets: &[SetMoment],
    now: u64,
) -> Result<Vec<u64>, AllocError>
    ensures { IfOk result (λ due. due.items ≡ filter (is_due_at now sets.now) all.now) }
{
    let mut due = Vec::new(alloc);
    for interval in all {
        if is_due_at(sets, now, *interval) {
            due.push(*interval)?;
        }
    }
    Ok(due)
}

// Whether the set of an interval is due at a moment.
fn is_due_at(sets: &[SetMoment], now: u64, interval: u64) -> bool
    ensures { result ≡ is_due_at now sets.now interval }
{
    match last_refresh(sets, interval).checked_add(interval) {
        None => false,
        Some(due) => due <= now,
    }
}

// When the set of an interval was refreshed last; 0 where it never was.
fn last_refresh(sets: &[SetMoment], interval: u64) -> u64
    ensures { result ≡ moment_in sets.now interval }
{
    for set in sets {
        if set.interval == interval {
            return set.refreshed;
        }
    }
    0
}

// The last refreshes, with an entry for the set of each interval. It fails for want of memory alone.
pub(crate) fn with_entries(
    alloc: Global,
    sets: &[SetMoment],
    intervals: &[u64],
) -> Result<Vec<SetMoment>, AllocError>
    ensures same { IfOk result (λ all. (i : ℕ) → moment_in all.items i ≡ moment_in sets.now i) }
    ensures entries { IfOk result (λ all. list_all (has_moment all.items) intervals.now ≡ true) }
{
    let mut all = Vec::from_slice(alloc, sets)?;
    for interval in intervals {
        make_moment(&mut all, *interval)?;
    }
    Ok(all)
}
