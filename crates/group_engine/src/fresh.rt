//! What is read of the backing database for a refresh of READONLY groups, and how it comes to be shown.

ghost use Rattle.std.specs.Prelude.{◌≡◌, ℕ, IfOk, None, Some, true};
ghost use Rattle.group_catalog.specs.Catalogs.{groups_in};
ghost use Rattle.cache_tier.specs.Groups.{definitions_of};
ghost use Rattle.cache_tier.specs.Sets.{RefreshesSet, of_set};
ghost use Rattle.changed_sets.specs.Since.{asked_since};
ghost use Rattle.stored_tier.specs.Refreshing.{choice_of, end_of, has_moment, is_filled};
ghost use Rattle.group_engine.specs.Fresh.{AreFormed, IsCalled, IsExchanged, ReadsFresh};
ghost use Rattle.group_engine.specs.Noted.{RefreshesNoted};
ghost use Rattle.propagators.specs.Certainty.{KeepsCertain};
ghost use Rattle.stored_tier.specs.Performing.{Performs};
ghost use Rattle.stored_tier.specs.Stored.{IsSound};

use changed_sets::reading::read_changed;
use changed_sets::showing::show_changed;
use changed_sets::since::told_since;
use outside::{BankError, Site};
use std::alloc::Global;
use stored_tier::refreshing::{
    Chosen, Made, exchange, give_position, make_stores, note_moment, tables_read,
};
use stored_tier::tier::Tier;
use tier_base::Position;

/// What was read for a refresh.
pub struct Fresh {
    // the position in the backing history
    pub(crate) position: Position,
    // the stores of the groups that get one, with their hidden rows
    pub(crate) made: Vec<Option<Made>>,
}

impl Drop for Fresh {
    fn drop(self) {
        let Self {
            position: _,
            made: _,
        } = self;
    }
}

impl Fresh {
    fn into_parts(self) -> (Position, Vec<Option<Made>>)
        ensures { result ≡ (self.position, self.made) }
    {
        let Self { position, made } = self;
        (position, made)
    }
}

/// The tables of the chosen groups are read from one snapshot, and stores are made that show of those that are loaded,
/// or are so from now on, the views past the horizon, and of dynamic ones the instances that they have. Nothing
/// changes.
///
/// It is `Failed` where the call failed, and `Memory` where memory was wanting.
pub fn read_fresh<P: Site>(
    tier: &Tier,
    alloc: Global,
    site: &mut P,
    chosen: Chosen,
    loads: Option<usize>,
) -> Result<Fresh, BankError>
    requires { IsSound tier.now }
    ensures reads { ReadsFresh tier.now
        (P.Disk.state site.old)
        (P.Disk.state site.new)
        (is_filled (choice_of chosen) loads) result }
    ensures formed { IfOk result (λ fresh. AreFormed tier.now.schema (groups_in tier.now.catalog) fresh.made.items) }
    ensures called { IsCalled
        (P.Disk.state site.old)
        (P.Disk.state site.new)
        result }
    ensures certain { KeepsCertain P.Disk.state P.Disk.possible site.old site.new }
{
    let Ok(tables) = tables_read(alloc, &tier.catalog, chosen) else {
        return Err(BankError::Memory);
    };
    let snapshot = site.snapshot(tables.as_slice())?;
    match make_stores(alloc, tier, chosen, loads, &snapshot.tables) {
        Err(_) => Err(BankError::Memory),
        Ok(made) => Ok(Fresh {
            position: snapshot.position,
            made,
        }),
    }
}

/// What was read is shown: the stores come in the place of the old ones, with their hidden rows, and the chosen groups
/// are at the position. It takes no memory.
pub fn show_fresh(tier: &mut Tier, chosen: Chosen, fresh: Fresh)
    requires sound { IsSound tier.old }
    requires formed { AreFormed tier.old.schema (groups_in tier.old.catalog) fresh.made.items }
    ensures shown { IsExchanged tier.old tier.new (choice_of chosen) fresh.position.0 fresh.made.items }
    ensures sound { IsSound tier.new }
{
    let (position, made) = fresh.into_parts();
    exchange(&mut tier.stores, &mut tier.hidden, made);
    give_position(&mut tier.catalog, chosen, position);
    tier.verified = false;
}

/// The set of an interval is refreshed, which is noted first: by what changed since its position where its groups go by
/// changes and have one position, since which the bank tells them; else from one snapshot. It has an entry among the
/// moments.
///
/// It is `Failed` where the call failed, and `Memory` where memory was wanting.
pub fn refresh_members<P: Site>(
    tier: &mut Tier,
    alloc: Global,
    site: &mut P,
    interval: u64,
) -> Result<(), BankError>
    requires sound { IsSound tier.old }
    requires entry { has_moment tier.old.clock.sets.items interval ≡ true }
    ensures performs { Performs tier.old tier.new
        (P.Disk.state site.old)
        (P.Disk.state site.new)
        (λ w w'. RefreshesSet interval w w' (end_of result)) }
    ensures groups { definitions_of (groups_in tier.new.catalog) ≡ definitions_of (groups_in tier.old.catalog) }
    ensures entries { (i : ℕ) → has_moment tier.old.clock.sets.items i ≡ true
        → has_moment tier.new.clock.sets.items i ≡ true }
    ensures sound { IsSound tier.new }
    ensures called { IsCalled
        (P.Disk.state site.old)
        (P.Disk.state site.new)
        result }
    ensures certain { KeepsCertain P.Disk.state P.Disk.possible site.old site.new }
{
    note_moment(&mut tier.clock.sets, interval, tier.clock.now);
    match told_since(&tier.catalog, site, Chosen::Joined(interval, None)) {
        None => refresh_whole(tier, alloc, site, interval),
        Some(since) => refresh_changed(tier, alloc, site, interval, since),
    }
}

// The set of an interval is refreshed from one snapshot.
fn refresh_whole<P: Site>(
    tier: &mut Tier,
    alloc: Global,
    site: &mut P,
    interval: u64,
) -> Result<(), BankError>
    requires { IsSound tier.old }
    ensures refreshes { RefreshesNoted interval tier.old tier.new
        (P.Disk.state site.old)
        (P.Disk.state site.new)
        (end_of result) }
    ensures groups { definitions_of (groups_in tier.new.catalog) ≡ definitions_of (groups_in tier.old.catalog) }
    ensures clock { tier.new.clock ≡ tier.old.clock }
    ensures sound { IsSound tier.new }
    ensures called { IsCalled
        (P.Disk.state site.old)
        (P.Disk.state site.new)
        result }
    ensures certain { KeepsCertain P.Disk.state P.Disk.possible site.old site.new }
{
    let chosen = Chosen::Joined(interval, None);
    match read_fresh(tier, alloc, site, chosen, None) {
        Err(error) => Err(error),
        Ok(fresh) => {
            show_fresh(tier, chosen, fresh);
            Ok(())
        }
    }
}

// The set of an interval is refreshed by what changed since its position.
fn refresh_changed<P: Site>(
    tier: &mut Tier,
    alloc: Global,
    site: &mut P,
    interval: u64,
    since: Position,
) -> Result<(), BankError>
    requires sound { IsSound tier.old }
    requires since { asked_since (of_set interval None) (groups_in tier.old.catalog) ≡ Some since.0 }
    ensures refreshes { RefreshesNoted interval tier.old tier.new
        (P.Disk.state site.old)
        (P.Disk.state site.new)
        (end_of result) }
    ensures groups { definitions_of (groups_in tier.new.catalog) ≡ definitions_of (groups_in tier.old.catalog) }
    ensures clock { tier.new.clock ≡ tier.old.clock }
    ensures sound { IsSound tier.new }
    ensures called { IsCalled
        (P.Disk.state site.old)
        (P.Disk.state site.new)
        result }
    ensures certain { KeepsCertain P.Disk.state P.Disk.possible site.old site.new }
{
    let chosen = Chosen::Joined(interval, None);
    match read_changed(tier, alloc, site, chosen, since, 0, None) {
        Err(error) => Err(error),
        Ok(changed) => {
            show_changed(tier, alloc, chosen, changed);
            Ok(())
        }
    }
}
