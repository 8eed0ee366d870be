//! Opening the tier's journal.

ghost use Rattle.std.specs.Prelude.{◌≡◌, ◌<◌, ◌^◌, ℕ, Some, None, [], IfErr, IfOk, length};
ghost use Rattle.outside.specs.declared.disk.Slot.{Slot as OneSlot};
ghost use Rattle.outside.specs.Calls.{Certain, Leaves};
ghost use Rattle.outside.specs.Holding.{Held, Slots};
ghost use Rattle.commit_journal.specs.Causes.{OpenHasCause};
ghost use Rattle.commit_journal.specs.Layout.{entries_of, HaveBytes, Reads};
ghost use Rattle.commit_journal.specs.Opening.{IsBlank, Keeps};
ghost use Rattle.commit_journal.specs.Resting.{AtRest};
ghost use Rattle.tier_journal.specs.declared.opening.Found.TheVariants.{Damaged, Whole};
ghost use Rattle.tier_journal.specs.Opening.{Finds, IsNewFound, IsOfJournal, ShowsFound};

use crate::journal::TierJournal;
use crate::reading::{Told, read_entries};
use crate::record::Record;
use commit_journal::{Journal, OpenError, Opened};
use outside::{Disk, Slot};
use std::alloc::{AllocError, Global};
use table_defs::TableDef;

/// What an opening finds.
pub enum Found {
    /// The journal, with its entries in order, each with the place of its first byte in the slot.
    Whole(TierJournal, Vec<(u64, Record)>),
    /// This is the first place that doesn't read, or whose entry doesn't fit the schema: the slot, and the byte in it.
    Damaged(Slot, u64),
}

// By hand, so that what lets it go has one call, and not all its forms.
impl Drop for Found {
    fn drop(self) {
        match self {
            Self::Whole(_, _) => {}
            Self::Damaged(_, _) => {}
        }
    }
}

impl Found {
    /// The journal with its entries; or the first damaged place.
    pub fn into_whole(self) -> Result<(TierJournal, Vec<(u64, Record)>), (Slot, u64)>
        ensures whole { IfOk result (λ parts. self ≡ Whole parts.0 parts.1) }
        ensures damaged { IfErr result (λ place. self ≡ Damaged place.0 place.1) }
    {
        match self {
            Self::Whole(journal, records) => Ok((journal, records)),
            Self::Damaged(slot, place) => Err((slot, place)),
        }
    }
}

/// The slot of the damage, or the journal's.
fn slot_of(journal: &Journal, damaged: Option<(Slot, u64)>) -> Slot
    ensures none { damaged ≡ None → result ≡ journal.now.slot }
    ensures some { (slot : OneSlot) (place : ℕ) → damaged ≡ Some (slot, place) → result ≡ slot }
{
    match damaged {
        None => journal.slot(),
        Some((slot, _)) => slot,
    }
}

/// What was opened, in the tier's words.
fn in_words(alloc: Global, schema: &[TableDef], opened: Opened) -> Result<Found, AllocError>
    requires { length schema.now < 2 ^ 32 }
    ensures shows { IfOk result (λ found. (slots now : Slots) → Reads slots opened.entries.items opened.damaged
        → (opened.damaged ≡ None → AtRest opened.journal now (entries_of opened.entries.items) [])
        → ShowsFound schema.now slots now found) }
    ensures journal { IfOk result (λ found. IsOfJournal opened.journal found) }
{
    let Opened {
        journal,
        entries,
        damaged,
    } = opened;
    let Told { records, unfit } = read_entries(alloc, schema, &entries)?;
    match unfit {
        Some(place) => {
            let slot = slot_of(&journal, damaged);
            Ok(Found::Damaged(slot, place))
        }
        None => match damaged {
            None => Ok(Found::Whole(TierJournal { journal }, records)),
            Some((slot, place)) => Ok(Found::Damaged(slot, place)),
        },
    }
}

/// The journal on a disk, with its entries in the tier's words, under this schema. Where no slot is live a new journal
/// is made in slot 0.
///
/// `Disk` where a disk call failed, `Memory` for want of memory. After either the disk says what it said.
pub fn open<D: Disk>(alloc: Global, d: &mut D, schema: &[TableDef]) -> Result<Found, OpenError>
    requires { length schema.now < 2 ^ 32 }
    ensures crash { (o : Held) → Certain D.state D.possible d.old o → HaveBytes o.slots
        → Leaves D.state D.possible d.old d.new (Keeps o) }
    ensures found { IfOk result (λ found. (o : Held) → (D.state d.old).held ≡ Some o → HaveBytes o.slots
        → Finds D.state D.possible d.new schema.now o found) }
    ensures new { IfOk result (λ found. (o : Held) → (D.state d.old).held ≡ Some o → IsBlank o.slots
        → IsNewFound found) }
    ensures cause { OpenHasCause (D.state d.old) (D.state d.new) result }
{
    let opened = commit_journal::open(alloc, d)?;
    let found = in_words(alloc, schema, opened)?;
    Ok(found)
}
