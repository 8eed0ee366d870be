//! A look at the slots, which keeps the bodies of batches.

ghost use Rattle.std.specs.Prelude.{◌≡◌, ◌≤◌, ℕ, [], length, None, Some, IfOk};
ghost use Rattle.outside.specs.Calls.{Certain, Leaves, Rests};
ghost use Rattle.outside.specs.Holding.{Held, slot_of};
ghost use Rattle.commit_journal.specs.Causes.{OpenHasCause};
ghost use Rattle.commit_journal.specs.Layout.{entries_of, HaveBytes, Reads};
ghost use Rattle.commit_journal.specs.Looking.{BeginsWith, LooksAt, SlotsShow};
ghost use Rattle.commit_journal.specs.Opening.{Keeps};
ghost use Rattle.commit_journal.specs.Resting.{AtRest};

use crate::fault::OpenError;
use crate::heading::{is_blank, survey};
use crate::looked::Looked;
use crate::opening::{Opened, open_surveyed};
use crate::reading::slot_length;
use crate::scan::Next;
use crate::scanning::next_batch;
use journal_entries::Bytes;
use outside::{Disk, Slot};
use std::alloc::Global;
use tier_base::Seq;

/// The bodies of the whole batches that stand in a live slot, one behind the other.
fn read_bodies<D: Disk>(alloc: Global, d: &mut D, slot: Slot) -> Result<Vec<Bytes>, OpenError>
    ensures bodies { IfOk result (λ bodies. (o : Held) → Certain D.state D.possible d.old o
        → 11 ≤ length (slot_of slot o.slots) → BeginsWith (slot_of slot o.slots) bodies.items) }
    ensures rests { Rests D.state D.possible d.old d.new }
    ensures cause { OpenHasCause (D.state d.old) (D.state d.new) result }
{
    let len = slot_length(d, slot)?;
    let mut bodies = Vec::new(alloc);
    let mut place = 10;
    while place < len {
        match next_batch(alloc, d, slot, place, len - place)? {
            Next::Closed => return Ok(bodies),
            Next::Cut => return Ok(bodies),
            Next::Body(body) => {
                place += 5 + body.len() as u64;
                bodies.push(Seq::from_vec(body))?;
            }
        }
    }
    Ok(bodies)
}

/// Reads the bodies of the journal that was opened.
fn with_bodies<D: Disk>(alloc: Global, d: &mut D, opened: Opened) -> Result<Looked, OpenError>
    ensures shows { IfOk result (λ r. (o now : Held) → Certain D.state D.possible d.old now
        → Reads o.slots opened.entries.items opened.damaged
        → (opened.damaged ≡ None → AtRest opened.journal now.slots (entries_of opened.entries.items) [])
        → SlotsShow o now r) }
    ensures rests { Rests D.state D.possible d.old d.new }
    ensures cause { OpenHasCause (D.state d.old) (D.state d.new) result }
{
    let Opened {
        journal,
        entries: _,
        damaged,
    } = opened;
    match damaged {
        Some((slot, place)) => Ok(Looked::Damaged(slot, place)),
        None => {
            let bodies = read_bodies(alloc, d, journal.slot)?;
            Ok(Looked::Live(journal, bodies))
        }
    }
}

/// What the slots have, with the bodies of the live slot's batches. Of two live slots the one that doesn't count is
/// closed, as at an opening. Without a live slot nothing is written.
///
/// `Disk` where a disk call failed, `Memory` for want of memory. After either the disk says what it said.
pub fn look<D: Disk>(alloc: Global, d: &mut D) -> Result<Looked, OpenError>
    ensures crash { (o : Held) → Certain D.state D.possible d.old o → HaveBytes o.slots
        → Leaves D.state D.possible d.old d.new (Keeps o) }
    ensures looked { IfOk result (λ r. (o : Held) → (D.state d.old).held ≡ Some o → HaveBytes o.slots
        → LooksAt D.state D.possible d.new o r) }
    ensures cause { OpenHasCause (D.state d.old) (D.state d.new) result }
{
    let found = survey(alloc, d)?;
    if is_blank(found) {
        return Ok(Looked::Blank);
    }
    let opened = open_surveyed(alloc, d, found)?;
    let looked = with_bodies(alloc, d, opened)?;
    Ok(looked)
}
