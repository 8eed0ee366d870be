//! What is due before a line.

ghost use Rattle.std.specs.Prelude.{◌≡◌, ◌≤◌, ◌+◌, [], IfOk, IfSome, None, length, max, vec_capacity, vec_len, OnErr};
ghost use Rattle.cache_tier.specs.Steps.{added_by, with_moment};
ghost use Rattle.cache_tier.specs.TierStates.{Tier as AbstractTier, cut};
ghost use Rattle.cache_tier.specs.DueWork.{DueWork};
ghost use Rattle.cache_engine.specs.Due.{IsDueCaused};
ghost use Rattle.session_engine.specs.Doubting.{IsReady, LeadsOver};
ghost use Rattle.stored_tier.specs.Stored.{IsSound};

use crate::due_sets::{due_intervals, with_entries};
use crate::due_work::settle_and_do;
use cache_tier::reply::{Note, Reply};
use outside::Site;
use session_engine::doubt::Doubt;
use sql_subset::request::Line;
use std::alloc::{AllocError, Global};
use stored_tier::moments::SetMoment;
use stored_tier::tier::Tier;
use tier_base::{Limit, Moment, Seq};
use tier_journal::TierJournal;

/// What became of the work that was due.
#[derive(Drop)]
pub struct Due {
    /// What is told of it, in its order.
    pub notes: Seq<Note>,
    /// The reply with which it ended the line.
    pub stop: Option<Reply>,
}

/// The moment of a line comes, which is the greater of the last one and the base with the console's additions, and what
/// is due then is done: a commit in doubt is settled, then a round of propagation, then the refreshes of sets by rising
/// interval, then the cycles of aging. Where the question for the doubt fails, or memory is wanting for it, the line
/// ends with that, and nothing else is done. A later fault of the bank, or want of memory, becomes a note, and the line
/// goes on; another fault ends it, and so does want of memory for the cycles of aging, of which none is run then.
///
/// It fails for want of memory alone, before anything is done. (TimesTen Cache User's Guide, "Automatically refreshing
/// a cache group", "Implementing aging on a cache group"; the order is this project's rule.)
pub fn begin_line<P: Site>(
    tier: &mut Tier,
    doubt: &mut Option<Doubt>,
    alloc: Global,
    site: &mut P,
    journal: &mut Option<TierJournal>,
    base: Moment,
    line: &Line,
) -> Result<Due, AllocError>
    requires sound { IsSound tier.old }
    requires ready { IsReady tier.old doubt.old }
    ensures performs { IfOk result (λ due. LeadsOver P.Disk.state P.Disk.possible tier.old doubt.old tier.new doubt.new
        journal.old journal.new site.old site.new due.stop
        (λ w w'. DueWork (with_moment base.0 line.now w) w' due.notes due.stop)) }
    ensures none { journal.old ≡ None → journal.new ≡ None }
    ensures settled { IfOk result (λ due. due.stop ≡ None → doubt.new ≡ None) }
    ensures err { OnErr result ((tier.new ≡ tier.old) × (doubt.new ≡ doubt.old) × (site.new ≡ site.old)
        × (journal.new ≡ journal.old)) }
    ensures sound { IsSound tier.new }
    ensures ready { IsReady tier.new doubt.new }
    ensures cause { IfOk result (IsDueCaused journal.old
        (P.Disk.state site.old)
        (P.Disk.state site.new)) }
{
    let Some(added) = added_by(tier.clock.added, line) else {
        return Err(AllocError);
    };
    let now = moment_of(tier.clock.now, base, added);
    let intervals = due_intervals(alloc, &tier.catalog, tier.clock.sets.as_slice(), now)?;
    let sets = with_entries(alloc, tier.clock.sets.as_slice(), intervals.as_slice())?;
    let mut notes = room_for_notes(alloc, intervals.as_slice())?;
    set_clock(tier, now, added, sets);
    let stop = settle_and_do(
        tier,
        doubt,
        alloc,
        site,
        journal,
        intervals.as_slice(),
        &mut notes,
    );
    Ok(Due {
        notes: Seq::from_vec(notes),
        stop,
    })
}

// The moment of a line comes.
fn set_clock(tier: &mut Tier, now: u64, added: u64, sets: Vec<SetMoment>)
    requires { IsSound tier.old }
    ensures set { tier.new ≡ record tier.old {
      clock = record tier.old.clock { now = now; added = added; sets = sets };
    } }
    ensures sound { IsSound tier.new }
{
    tier.clock.now = now;
    tier.clock.added = added;
    tier.clock.sets = sets;
}

// The clock's additions with those of the line; none where they leave 64 bits.
fn added_by(added: u64, line: &Line) -> Option<u64>
    ensures { IfSome result (λ sum. (a : AbstractTier) → a.added ≡ added → added_by line.now a ≡ sum) }
{
    match line {
        Line::Clock(ms) => added.checked_add(*ms),
        Line::Session(_, _) => Some(added),
        Line::Console(_) => Some(added),
    }
}

// The greater of the last moment and the base with the additions, cut at the end of the year 9999.
fn moment_of(now: u64, base: Moment, added: u64) -> u64
    ensures { result ≡ cut (max now (base.0 + added)) }
{
    base.0
        .saturating_add(added)
        .max(now)
        .min(Limit::Clock.number())
}

// Room for a note of the doubt, for one of the round, and for one of each set.
fn room_for_notes(alloc: Global, intervals: &[u64]) -> Result<Vec<Note>, AllocError>
    ensures items { IfOk result (λ notes. notes.items ≡ []) }
    ensures room { IfOk result (λ notes. vec_len notes + (length intervals.now + 2) ≤ vec_capacity notes) }
{
    let Some(room) = intervals.len().checked_add(2) else {
        return Err(AllocError);
    };
    Vec::with_capacity(alloc, room)
}
