//! Opening a journal.

ghost use Rattle.std.specs.Prelude.{◌≡◌, ◌≢◌, ◌+◌, ◌^◌, ◌<◌, ◌≤◌, ℕ, List, [], ◌∷◌, ◌++◌, length, take, Some, None, IfOk, OnOk};
ghost use Rattle.std.specs.Result.{IsErrOf};
ghost use Rattle.commit_journal.specs.Causes.{OpenHasCause};
ghost use Rattle.commit_journal.specs.declared.fault.OpenError.TheVariants as open_error;
ghost use Rattle.outside.specs.Calls.{Certain, Leaves, Rests};
ghost use Rattle.outside.specs.Holding.{Held, other, slot_of};
ghost use Rattle.commit_journal.specs.declared.head.Head.TheVariants.{Dead, Live};
ghost use Rattle.commit_journal.specs.Layout.{Batches, Beats, entries_of, HaveBytes, head_of};
ghost use Rattle.commit_journal.specs.Opening.{Finds, HeadFits, IsBlank, IsNew, Keeps, Opens, Surveyed};

use crate::fault::OpenError;
use crate::head::{Head, Survey};
use crate::heading::survey;
use crate::journal::Journal;
use crate::placing::{other as other_slot, put, write_batch};
use crate::scan::Scan;
use crate::scanning::read_batches;
use journal_entries::{Entry, Standing};
use outside::{Disk, Slot};
use std::alloc::Global;

/// What an opening finds.
#[derive(Drop)]
pub struct Opened {
    /// The journal. Where a place is damaged it isn't to be used.
    pub journal: Journal,
    /// The entries, each with its first byte.
    pub entries: Vec<(u64, Entry)>,
    /// The first place that doesn't read.
    pub damaged: Option<(Slot, u64)>,
}

/// Reads the batches of a live slot.
fn open_live<D: Disk>(
    alloc: Global,
    d: &mut D,
    slot: Slot,
    version: u8,
    generation: u64,
    len: u64,
) -> Result<Opened, OpenError>
    requires { 11 ≤ len }
    ensures found { IfOk result (λ r. (o : Held) → Certain D.state D.possible d.old o
        → length (slot_of slot o.slots) ≡ len → head_of (slot_of slot o.slots) ≡ Live version generation
        → head_of (slot_of (other slot) o.slots) ≡ Dead → 1 ≤ length (slot_of (other slot) o.slots) → Finds o.slots r) }
    ensures rests { Rests D.state D.possible d.old d.new }
    ensures cause { OpenHasCause (D.state d.old) (D.state d.new) result }
{
    let staged = Vec::from_elem(alloc, 0, 4)?;
    let mut staged = staged;
    staged.reserve(1)?;
    let mut entries = Vec::new(alloc);
    let scan = read_batches(alloc, d, slot, version, len, &mut entries)?;
    match scan {
        Scan::Closed(gate, standing) => {
            let journal = Journal {
                slot,
                version,
                generation,
                gate,
                standing,
                staged,
            };
            Ok(Opened {
                journal,
                entries,
                damaged: None,
            })
        }
        Scan::Damaged(at) => {
            let journal = Journal {
                slot,
                version,
                generation,
                gate: 0,
                standing: Standing::beginning(),
                staged,
            };
            Ok(Opened {
                journal,
                entries,
                damaged: Some((slot, at)),
            })
        }
    }
}

/// Makes a journal where no slot is live.
fn make<D: Disk>(alloc: Global, d: &mut D) -> Result<Opened, OpenError>
    ensures crash { (o : Held) → Certain D.state D.possible d.old o → HaveBytes o.slots → head_of o.slots.first ≡ Dead
        → head_of o.slots.second ≡ Dead → Leaves D.state D.possible d.old d.new (Keeps o) }
    ensures made { IfOk result (λ r. (o : Held) → Certain D.state D.possible d.old o → HaveBytes o.slots
        → head_of o.slots.first ≡ Dead → head_of o.slots.second ≡ Dead → Opens D.state D.possible d.new o r) }
    ensures new { IfOk result (λ r. IsNew r.journal) }
    ensures cause { OpenHasCause (D.state d.old) (D.state d.new) result }
{
    let mut staged = Vec::from_elem(alloc, 0, 4)?;
    staged.reserve(1)?;
    write_batch(d, Slot::First, 0, &[2, 0, 0, 0, 0, 0, 0, 0, 1, 0])?;
    let journal = Journal {
        slot: Slot::First,
        version: 2,
        generation: 1,
        gate: 10,
        standing: Standing::beginning(),
        staged,
    };
    Ok(Opened {
        journal,
        entries: Vec::new(alloc),
        damaged: None,
    })
}

/// Closes the other of two live slots, and reads this one's batches.
fn open_newer<D: Disk>(
    alloc: Global,
    d: &mut D,
    slot: Slot,
    version: u8,
    generation: u64,
    len: u64,
) -> Result<Opened, OpenError>
    requires { 11 ≤ len }
    ensures crash { (o : Held) (w k : ℕ) → Certain D.state D.possible d.old o → HaveBytes o.slots
        → head_of (slot_of slot o.slots) ≡ Live version generation → head_of (slot_of (other slot) o.slots) ≡ Live w k
        → Beats slot generation (Live w k) → Leaves D.state D.possible d.old d.new (Keeps o) }
    ensures opened { IfOk result (λ r. (o : Held) (w k : ℕ) → Certain D.state D.possible d.old o
        → length (slot_of slot o.slots) ≡ len → head_of (slot_of slot o.slots) ≡ Live version generation
        → head_of (slot_of (other slot) o.slots) ≡ Live w k → Beats slot generation (Live w k)
        → Opens D.state D.possible d.new o r) }
    ensures cause { OpenHasCause (D.state d.old) (D.state d.new) result }
{
    put(d, other_slot(slot), 0, &[0])?;
    let opened = open_live(alloc, d, slot, version, generation, len)?;
    Ok(opened)
}

/// Reads the batches of the only live slot.
fn open_alone<D: Disk>(
    alloc: Global,
    d: &mut D,
    slot: Slot,
    version: u8,
    generation: u64,
    len: u64,
) -> Result<Opened, OpenError>
    requires { 11 ≤ len }
    ensures crash { (o : Held) → Certain D.state D.possible d.old o → HaveBytes o.slots
        → Leaves D.state D.possible d.old d.new (Keeps o) }
    ensures opened { IfOk result (λ r. (o : Held) → Certain D.state D.possible d.old o
        → length (slot_of slot o.slots) ≡ len → head_of (slot_of slot o.slots) ≡ Live version generation
        → head_of (slot_of (other slot) o.slots) ≡ Dead → 1 ≤ length (slot_of (other slot) o.slots)
        → Opens D.state D.possible d.new o r) }
    ensures cause { OpenHasCause (D.state d.old) (D.state d.new) result }
{
    let opened = open_live(alloc, d, slot, version, generation, len)?;
    Ok(opened)
}

/// Tells that a slot's head doesn't read at this byte.
fn damaged_at(alloc: Global, slot: Slot, place: u64) -> Result<Opened, OpenError>
    ensures told { IfOk result (λ r. (r.entries.items ≡ []) × (r.damaged ≡ Some (slot, place))) }
    ensures memory { IsErrOf result open_error.Disk → ⊥ }
{
    let mut staged = Vec::from_elem(alloc, 0, 4)?;
    staged.reserve(1)?;
    let journal = Journal {
        slot,
        version: 2,
        generation: 0,
        gate: 0,
        standing: Standing::beginning(),
        staged,
    };
    Ok(Opened {
        journal,
        entries: Vec::new(alloc),
        damaged: Some((slot, place)),
    })
}

/// Opens where slot 0 isn't live.
fn open_second<D: Disk>(
    alloc: Global,
    d: &mut D,
    second: Head,
    second_len: u64,
) -> Result<Opened, OpenError>
    requires { HeadFits second_len second }
    ensures crash { (o : Held) → Certain D.state D.possible d.old o → HaveBytes o.slots → head_of o.slots.first ≡ Dead
        → head_of o.slots.second ≡ second → Leaves D.state D.possible d.old d.new (Keeps o) }
    ensures opened { IfOk result (λ r. (o : Held) → Certain D.state D.possible d.old o → HaveBytes o.slots
        → length o.slots.second ≡ second_len → head_of o.slots.first ≡ Dead → head_of o.slots.second ≡ second
        → Opens D.state D.possible d.new o r) }
    ensures new { IfOk result (λ r. second ≡ Dead → IsNew r.journal) }
    ensures cause { OpenHasCause (D.state d.old) (D.state d.new) result }
{
    match second {
        Head::Faulty(place) => {
            let opened = damaged_at(alloc, Slot::Second, place)?;
            Ok(opened)
        }
        Head::Dead => {
            let opened = make(alloc, d)?;
            Ok(opened)
        }
        Head::Live(version, generation) => {
            let opened = open_alone(alloc, d, Slot::Second, version, generation, second_len)?;
            Ok(opened)
        }
    }
}

/// Opens where slot 0 is live.
fn open_first<D: Disk>(
    alloc: Global,
    d: &mut D,
    version: u8,
    generation: u64,
    first_len: u64,
    second: Head,
    second_len: u64,
) -> Result<Opened, OpenError>
    requires first { 11 ≤ first_len }
    requires second { HeadFits second_len second }
    ensures crash { (o : Held) → Certain D.state D.possible d.old o → HaveBytes o.slots
        → head_of o.slots.first ≡ Live version generation → head_of o.slots.second ≡ second
        → Leaves D.state D.possible d.old d.new (Keeps o) }
    ensures opened { IfOk result (λ r. (o : Held) → Certain D.state D.possible d.old o → HaveBytes o.slots
        → length o.slots.first ≡ first_len → length o.slots.second ≡ second_len
        → head_of o.slots.first ≡ Live version generation → head_of o.slots.second ≡ second
        → Opens D.state D.possible d.new o r) }
    ensures cause { OpenHasCause (D.state d.old) (D.state d.new) result }
{
    match second {
        Head::Faulty(place) => {
            let opened = damaged_at(alloc, Slot::Second, place)?;
            Ok(opened)
        }
        Head::Dead => {
            let opened = open_alone(alloc, d, Slot::First, version, generation, first_len)?;
            Ok(opened)
        }
        Head::Live(another, greater) => {
            if greater <= generation {
                let opened = open_newer(alloc, d, Slot::First, version, generation, first_len)?;
                return Ok(opened);
            }
            let opened = open_newer(alloc, d, Slot::Second, another, greater, second_len)?;
            Ok(opened)
        }
    }
}

/// Opens the slots that have these heads and lengths.
fn open_by<D: Disk>(
    alloc: Global,
    d: &mut D,
    first: Head,
    first_len: u64,
    second: Head,
    second_len: u64,
) -> Result<Opened, OpenError>
    requires first { HeadFits first_len first }
    requires second { HeadFits second_len second }
    ensures crash { (o : Held) → Certain D.state D.possible d.old o → HaveBytes o.slots
        → head_of o.slots.first ≡ first → head_of o.slots.second ≡ second
        → Leaves D.state D.possible d.old d.new (Keeps o) }
    ensures opened { IfOk result (λ r. (o : Held) → Certain D.state D.possible d.old o → HaveBytes o.slots
        → length o.slots.first ≡ first_len → length o.slots.second ≡ second_len → head_of o.slots.first ≡ first
        → head_of o.slots.second ≡ second → Opens D.state D.possible d.new o r) }
    ensures new { IfOk result (λ r. first ≡ Dead → second ≡ Dead → IsNew r.journal) }
    ensures cause { OpenHasCause (D.state d.old) (D.state d.new) result }
{
    match first {
        Head::Faulty(place) => {
            let opened = damaged_at(alloc, Slot::First, place)?;
            Ok(opened)
        }
        Head::Dead => open_second(alloc, d, second, second_len),
        Head::Live(version, generation) => open_first(
            alloc, d, version, generation, first_len, second, second_len,
        ),
    }
}

/// Opens the slots that this survey is of.
pub(crate) fn open_surveyed<D: Disk>(
    alloc: Global,
    d: &mut D,
    found: Survey,
) -> Result<Opened, OpenError>
    requires first { HeadFits found.first_len found.first }
    requires second { HeadFits found.second_len found.second }
    ensures crash { (o : Held) → Surveyed D.state D.possible d.old o found → HaveBytes o.slots
        → Leaves D.state D.possible d.old d.new (Keeps o) }
    ensures opened { IfOk result (λ r. (o : Held) → Surveyed D.state D.possible d.old o found → HaveBytes o.slots
        → Opens D.state D.possible d.new o r) }
    ensures new { IfOk result (λ r. found.first ≡ Dead → found.second ≡ Dead → IsNew r.journal) }
    ensures cause { OpenHasCause (D.state d.old) (D.state d.new) result }
{
    let opened = open_by(
        alloc,
        d,
        found.first,
        found.first_len,
        found.second,
        found.second_len,
    )?;
    Ok(opened)
}

/// The journal on a disk, with the entries that it has. Where no slot is live a new journal is made in slot 0.
///
/// `Disk` where a disk call failed, `Memory` for want of memory. After either, and after a crash at any moment, the
/// disk says what it said and nothing else, and no slot is without bytes.
pub fn open<D: Disk>(alloc: Global, d: &mut D) -> Result<Opened, OpenError>
    ensures crash { (o : Held) → Certain D.state D.possible d.old o → HaveBytes o.slots
        → Leaves D.state D.possible d.old d.new (Keeps o) }
    ensures opened { IfOk result (λ r. (o : Held) → (D.state d.old).held ≡ Some o → HaveBytes o.slots
        → Opens D.state D.possible d.new o r) }
    ensures new { IfOk result (λ r. (o : Held) → (D.state d.old).held ≡ Some o → IsBlank o.slots → IsNew r.journal) }
    ensures cause { OpenHasCause (D.state d.old) (D.state d.new) result }
{
    let found = survey(alloc, d)?;
    let opened = open_surveyed(alloc, d, found)?;
    Ok(opened)
}
