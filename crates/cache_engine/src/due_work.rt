//! The items of due work.

ghost use Rattle.std.specs.Prelude.{◌≡◌, ◌≤◌, ◌<◌, ◌+◌, ◌++◌, [], ℕ, Option, None, Ok, Some, length, true, vec_capacity, vec_len};
ghost use Rattle.std.specs.List.{list_all};
ghost use Rattle.cache_tier.specs.DueWork.{DueRound, DueSetsOf, DueWork, Noted, noted, noted_code, stopped};
ghost use Rattle.cache_tier.specs.Groups.{definitions_of};
ghost use Rattle.cache_tier.specs.Sets.{RefreshesIfShown};
ghost use Rattle.group_catalog.specs.Catalogs.{groups_in};
ghost use Rattle.cache_engine.specs.Due.{IsDueCaused};
ghost use Rattle.cache_engine.specs.DueItems.{DoesItem, DueRest, KeepsSets, RunsCycles, due_at, due_of, note_of, over, round_is_due};
ghost use Rattle.session_engine.specs.Doubting.{IsReady, LeadsOver};
ghost use Rattle.stored_tier.specs.Performing.{stop_of, IsStopCaused, Performs};
ghost use Rattle.stored_tier.specs.Refreshing.{has_moment};
ghost use Rattle.stored_tier.specs.Stored.{IsSound};
ghost use Rattle.session_engine.specs.Settling.{told_of};
ghost use Rattle.propagators.specs.Certainty.{KeepsCertain};
ghost use Rattle.tier_journal.specs.declared.journal.TierJournal.{TierJournal as Kept};

use cache_tier::reply::{Last, Note, Reply};
use dynamic_loads::{age, refresh_members};
use outside::Site;
use session_engine::doubt::Doubt;
use session_engine::settling::settle_doubt;
use std::alloc::Global;
use stored_tier::refreshing::shows_something;
use stored_tier::tier::Tier;
use tier_base::Code;
use tier_journal::TierJournal;
use tier_statements::bank_fault;

// A commit in doubt is settled, and then what is due is done. All its notes are told, and it is the reply that ends the
// line.
pub(crate) fn settle_and_do<P: Site>(
    tier: &mut Tier,
    doubt: &mut Option<Doubt>,
    alloc: Global,
    site: &mut P,
    journal: &mut Option<TierJournal>,
    intervals: &[u64],
    notes: &mut Vec<Note>,
) -> Option<Reply>
    requires sound { IsSound tier.old }
    requires ready { IsReady tier.old doubt.old }
    requires none { notes.old.items ≡ [] }
    requires room { vec_len notes.old + (length intervals.now + 2) ≤ vec_capacity notes.old }
    requires entries { list_all (has_moment tier.old.clock.sets.items) intervals.now ≡ true }
    requires due { intervals.now
        ≡ due_at tier.old.clock.now tier.old.clock.sets.items (groups_in tier.old.catalog) }
    ensures performs { LeadsOver P.Disk.state P.Disk.possible tier.old doubt.old tier.new doubt.new
        journal.old journal.new site.old site.new result (λ w w'. DueWork w w' notes.new.items result) }
    ensures none { journal.old ≡ None → journal.new ≡ None }
    ensures settled { result ≡ None → doubt.new ≡ None }
    ensures sound { IsSound tier.new }
    ensures ready { IsReady tier.new doubt.new }
    ensures cause { IsDueCaused journal.old
        (P.Disk.state site.old)
        (P.Disk.state site.new)
        (due_of notes.new.items result) }
{
    match settle_doubt(tier, site, doubt) {
        Err(error) => Some(bank_fault(alloc, error)),
        Ok(told) => {
            tell(told, notes);
            do_due(tier, alloc, site, journal, intervals, notes)
        }
    }
}

// What is told of a doubt is noted.
fn tell(told: Option<Note>, notes: &mut Vec<Note>)
    requires { vec_len notes.old < vec_capacity notes.old }
    ensures notes { notes.new.items ≡ notes.old.items ++ told_of (Ok told) }
    ensures capacity { vec_capacity notes.new ≡ vec_capacity notes.old }
    ensures few { vec_len notes.new ≤ vec_len notes.old + 1 }
{
    if let Some(note) = told {
        notes.push_reserved(note);
    }
}

// What is due is done: the round, the sets of these intervals, and the cycles of aging. Its notes come behind the
// others, and it is the reply that ends the line.
fn do_due<P: Site>(
    tier: &mut Tier,
    alloc: Global,
    site: &mut P,
    journal: &mut Option<TierJournal>,
    intervals: &[u64],
    notes: &mut Vec<Note>,
) -> Option<Reply>
    requires sound { IsSound tier.old }
    requires room { vec_len notes.old + (length intervals.now + 1) ≤ vec_capacity notes.old }
    requires entries { list_all (has_moment tier.old.clock.sets.items) intervals.now ≡ true }
    requires due { intervals.now
        ≡ due_at tier.old.clock.now tier.old.clock.sets.items (groups_in tier.old.catalog) }
    ensures does { DoesItem P.Disk.state P.Disk.possible DueRest tier.old tier.new
        (over journal.old site.old) (over journal.new site.new)
        notes.old.items notes.new.items result }
    ensures sound { IsSound tier.new }
{
    match settle_due(tier, alloc, site, journal, notes) {
        Some(stop) => Some(stop),
        None => match refresh_sets(tier, alloc, site, intervals, notes) {
            Some(stop) => Some(stop),
            None => {
                age_due(tier, alloc);
                None
            }
        },
    }
}

// The cycles of aging that are due.
fn age_due(tier: &mut Tier, alloc: Global)
    requires { IsSound tier.old }
    ensures runs { RunsCycles tier.old tier.new }
    ensures sound { IsSound tier.new }
{
    age(tier, alloc);
}

// A round, where it is due.
fn settle_due<P: Site>(
    tier: &mut Tier,
    alloc: Global,
    site: &mut P,
    journal: &mut Option<TierJournal>,
    notes: &mut Vec<Note>,
) -> Option<Reply>
    requires sound { IsSound tier.old }
    requires room { vec_len notes.old < vec_capacity notes.old }
    ensures does { DoesItem P.Disk.state P.Disk.possible DueRound tier.old tier.new
        (over journal.old site.old) (over journal.new site.new)
        notes.old.items notes.new.items result }
    ensures sound { IsSound tier.new }
    ensures same { KeepsSets tier.old tier.new }
    ensures capacity { vec_capacity notes.new ≡ vec_capacity notes.old }
    ensures few { vec_len notes.new ≤ vec_len notes.old + 1 }
{
    if !is_round_due(
        tier.clock.now,
        tier.clock.round,
        tier.clock.pace.propagate_ms,
    ) {
        return None;
    }
    let end = tier.settle_all(alloc, site, journal);
    note_end(end, None, notes)
}

// The sets of these intervals are refreshed, one after the other.
fn refresh_sets<P: Site>(
    tier: &mut Tier,
    alloc: Global,
    site: &mut P,
    intervals: &[u64],
    notes: &mut Vec<Note>,
) -> Option<Reply>
    requires sound { IsSound tier.old }
    requires room { vec_len notes.old + length intervals.now ≤ vec_capacity notes.old }
    requires entries { list_all (has_moment tier.old.clock.sets.items) intervals.now ≡ true }
    ensures does { (k : Option Kept) → DoesItem P.Disk.state P.Disk.possible (DueSetsOf intervals.now) tier.old tier.new
        (over k site.old) (over k site.new)
        notes.old.items notes.new.items result }
    ensures sound { IsSound tier.new }
{
    for interval in intervals {
        match refresh_due(tier, alloc, site, *interval, notes) {
            Some(stop) => return Some(stop),
            None => {}
        }
    }
    None
}

// The set of an interval is refreshed; a failure becomes a note.
fn refresh_due<P: Site>(
    tier: &mut Tier,
    alloc: Global,
    site: &mut P,
    interval: u64,
    notes: &mut Vec<Note>,
) -> Option<Reply>
    requires sound { IsSound tier.old }
    requires room { vec_len notes.old < vec_capacity notes.old }
    requires entry { has_moment tier.old.clock.sets.items interval ≡ true }
    ensures does { (k : Option Kept) → DoesItem P.Disk.state P.Disk.possible
        (Noted (note_of (Some interval)) (RefreshesIfShown interval)) tier.old tier.new
        (over k site.old) (over k site.new)
        notes.old.items notes.new.items result }
    ensures sound { IsSound tier.new }
    ensures capacity { vec_capacity notes.new ≡ vec_capacity notes.old }
    ensures few { vec_len notes.new ≤ vec_len notes.old + 1 }
{
    let end = refresh_set(tier, alloc, site, interval);
    note_end(end, Some(interval), notes)
}

// The set of an interval is refreshed, where it has something to show. It is noted that this was tried: the set has an
// entry for that.
pub(crate) fn refresh_set<P: Site>(
    tier: &mut Tier,
    alloc: Global,
    site: &mut P,
    interval: u64,
) -> Result<(), Reply>
    requires sound { IsSound tier.old }
    requires entry { has_moment tier.old.clock.sets.items interval ≡ true }
    ensures performs { Performs tier.old tier.new
        (P.Disk.state site.old)
        (P.Disk.state site.new)
        (λ w w'. RefreshesIfShown interval w w' (stop_of result)) }
    ensures groups { definitions_of (groups_in tier.new.catalog) ≡ definitions_of (groups_in tier.old.catalog) }
    ensures entries { (i : ℕ) → has_moment tier.old.clock.sets.items i ≡ true
        → has_moment tier.new.clock.sets.items i ≡ true }
    ensures sound { IsSound tier.new }
    ensures certain { KeepsCertain P.Disk.state P.Disk.possible site.old site.new }
    ensures cause { IsStopCaused
        (P.Disk.state site.old)
        (P.Disk.state site.new)
        (stop_of result) }
    ensures disk { (P.Disk.state site.new).disk_faults ≡ (P.Disk.state site.old).disk_faults }
{
    if !shows_something(tier, interval) {
        return Ok(());
    }
    match refresh_members(tier, alloc, site, interval) {
        Ok(()) => Ok(()),
        Err(error) => Err(bank_fault(alloc, error)),
    }
}

// Whether a round is due so long after the last one; never, where that is 0.
fn is_round_due(now: u64, round: u64, propagate_ms: u64) -> bool
    ensures { result ≡ round_is_due now round propagate_ms }
{
    match round.checked_add(propagate_ms) {
        None => false,
        Some(due) => propagate_ms > 0 && due <= now,
    }
}

// What ended a stage becomes a note, of a round or of the set of an interval, or it ends the line.
fn note_end(end: Result<(), Reply>, interval: Option<u64>, notes: &mut Vec<Note>) -> Option<Reply>
    requires { vec_len notes.old < vec_capacity notes.old }
    ensures notes { notes.new.items ≡ notes.old.items ++ noted (note_of interval) (stop_of end) }
    ensures stop { result ≡ stopped (stop_of end) }
    ensures capacity { vec_capacity notes.new ≡ vec_capacity notes.old }
    ensures few { vec_len notes.new ≤ vec_len notes.old + 1 }
{
    match end {
        Ok(()) => None,
        Err(reply) => match noted_code(&reply.last) {
            None => Some(reply),
            Some(code) => {
                notes.push_reserved(note_of(interval, code));
                None
            }
        },
    }
}

fn note_of(interval: Option<u64>, code: Code) -> Note
    ensures { result ≡ note_of interval code }
{
    match interval {
        None => Note::Propagate(code),
        Some(interval) => Note::Refresh(code, interval),
    }
}

// The code of a fault that becomes a note.
fn noted_code(last: &Last) -> Option<Code>
    ensures { result ≡ noted_code last.now }
{
    match last {
        Last::Done(_) => None,
        Last::No(_) => None,
        Last::Fault(rule) => {
            if rule.code == Code::BackingFault || rule.code == Code::Memory {
                Some(rule.code)
            } else {
                None
            }
        }
    }
}
