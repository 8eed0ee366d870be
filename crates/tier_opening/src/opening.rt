//! The opening of a tier.

ghost use Rattle.std.specs.Prelude.{◌≡◌, IfErr, IfOk, Some};
ghost use Rattle.outside.specs.Calls.{Certain, Leaves};
ghost use Rattle.outside.specs.Holding.{Held};
ghost use Rattle.commit_journal.specs.Layout.{HaveBytes};
ghost use Rattle.commit_journal.specs.Opening.{Keeps};
ghost use Rattle.tier_journal.specs.declared.opening.Found.TheVariants.{Whole};
ghost use Rattle.tier_journal.specs.Keeping.{version_in};
ghost use Rattle.tier_journal.specs.Opening.{Finds};
ghost use Rattle.stored_tier.specs.Stored.{IsSound};
ghost use Rattle.tier_opening.specs.Leaving.{FailsLeaving};
ghost use Rattle.tier_opening.specs.Opening.{Opens};
ghost use Rattle.tier_opening.specs.Telling.{FindHasCause, IsNamed, IsTold, OpenIsCaused};

use outside::{BankError, Site, Slot};
use recalling::{RecallError, recall};
use recovery::recalled_law;
use reopening::reopen;
use reopening::start::{ReopenError, Start};
use row_types::Key;
use std::alloc::{AllocError, Global};
use stored_tier::clock::Pace;
use stored_tier::tier::Tier;
use table_defs::{BackingSchema, TableDef, copied_schema};
use tier_base::{Moment, Name, TableId};
use tier_journal::{OpenError as JournalError, Record, TierJournal, open};

/// A tier with its journal.
pub struct OpenedTier {
    /// The tier.
    pub tier: Tier,
    /// Its journal.
    pub journal: TierJournal,
}

impl Drop for OpenedTier {
    fn drop(self) {
        let Self {
            tier: _,
            journal: _,
        } = self;
    }
}

impl OpenedTier {
    /// The tier, and its journal.
    pub fn into_parts(self) -> (Tier, TierJournal)
        ensures { result ≡ (self.tier, self.journal) }
    {
        let Self { tier, journal } = self;
        (tier, journal)
    }
}

/// Why a tier isn't opened.
pub enum OpenError {
    /// A call of the journal's disk failed.
    Disk,
    /// A call of the backing database failed.
    Bank,
    /// This is the first place of the journal that doesn't read, or whose entry doesn't fit the schema and what the
    /// entries before it leave: the slot, and the byte in it.
    Damaged(Slot, u64),
    /// A row of a backing table isn't as a committed transaction says: the table, and the row's key.
    Differs(Name, Key),
    /// Memory was wanting.
    Memory,
}

// By hand, so that what lets it go has one call, and not all its forms.
impl Drop for OpenError {
    fn drop(self) {
        match self {
            Self::Disk => {}
            Self::Bank => {}
            Self::Damaged(_, _) => {}
            Self::Differs(_, _) => {}
            Self::Memory => {}
        }
    }
}

/// Opens a tier over what the site holds: the bank is asked for its schema, the journal is opened, a new one where no
/// slot is live, and its entries are folded into the catalog of groups. Then what they have committed is applied at
/// the bank, and the rows of explicit groups whose flag is set come back. `start` is the tier's first moment, and
/// `pace` says when work is done.
///
/// `Disk` and `Bank` only where that one's count of faults rose in this call; `Damaged` with the first place that
/// doesn't read or fit, and as yet with byte 1 of a slot of version 1; `Differs` only where a backing row wasn't as a
/// commit tells, as that was tried; `Memory` for want of memory, that for the name of a table or a key that differs
/// included. What was applied at the bank stands there behind each of them, and the journal says what it said. So it
/// does behind a crash at each moment of the opening, as long as a crash where it began left just what the site told.
/// (TimesTen Cache User's Guide, "Recovery"; the journal is this project's.)
pub fn open_tier<P: Site>(
    alloc: Global,
    site: &mut P,
    start: Moment,
    pace: Pace,
) -> Result<OpenedTier, OpenError>
    ensures opens { IfOk result (λ made. Opens P.Disk.state P.Disk.possible start.0 pace
        site.old site.new made.tier made.journal) }
    ensures sound { IfOk result (λ made. IsSound made.tier) }
    ensures fails { IfErr result (λ error. FailsLeaving P.Disk.state P.Disk.possible start.0 pace site.old site.new) }
    ensures cause { OpenIsCaused start.0 pace (P.Disk.state site.old) (P.Disk.state site.new) result }
{
    recalled_law();
    let schema = match site.schema() {
        Ok(schema) => schema,
        Err(BankError::Failed) => return Err(OpenError::Bank),
        Err(BankError::Memory) => return Err(OpenError::Memory),
    };
    let (journal, records) = found_journal(alloc, site, schema.as_slice())?;
    let recalled = match recall(alloc, &schema, start, records) {
        Ok(recalled) => recalled,
        Err(RecallError::Unfit(place)) => return Err(OpenError::Damaged(journal.slot(), place)),
        Err(RecallError::Memory) => return Err(OpenError::Memory),
    };
    let (catalog, next, commits) = recalled.into_parts();
    let Ok(known) = copied_schema(alloc, schema.as_slice()) else {
        return Err(OpenError::Memory);
    };
    let begins = Start {
        schema,
        catalog,
        commits,
        next,
        now: start,
        pace,
    };
    match reopen(alloc, site, begins) {
        Ok(tier) => Ok(OpenedTier { tier, journal }),
        Err(error) => Err(told_error(alloc, &known, &error)),
    }
}

// The journal of the disk, with its entries in the tier's words.
fn found_journal<P: Site>(
    alloc: Global,
    site: &mut P,
    schema: &[TableDef],
) -> Result<(TierJournal, Vec<(u64, Record)>), OpenError>
    ensures found { IfOk result (λ parts. (o : Held) → (P.Disk.state site.old).held ≡ Some o → HaveBytes o.slots
        → Finds P.Disk.state P.Disk.possible site.new schema.now o (Whole parts.0 parts.1)) }
    ensures version { IfOk result (λ parts. version_in parts.0 ≡ 2) }
    ensures crash { (o : Held) → Certain P.Disk.state P.Disk.possible site.old o → HaveBytes o.slots
        → Leaves P.Disk.state P.Disk.possible site.old site.new (Keeps o) }
    ensures cause { FindHasCause schema.now (P.Disk.state site.old) (P.Disk.state site.new) result }
{
    if schema.len() >= 1 << 32 {
        return Err(OpenError::Memory);
    }
    match open(alloc, site, schema) {
        Err(JournalError::Disk) => Err(OpenError::Disk),
        Err(JournalError::Memory) => Err(OpenError::Memory),
        Ok(found) => match found.into_whole() {
            Err((slot, place)) => Err(OpenError::Damaged(slot, place)),
            Ok((journal, records)) => {
                if journal.version() != 2 {
                    return Err(OpenError::Damaged(journal.slot(), 1));
                }
                Ok((journal, records))
            }
        },
    }
}

// Why the tier isn't opened again, with the table's name in this schema. Its own want of memory is one, too.
fn told_error(alloc: Global, schema: &BackingSchema, error: &ReopenError) -> OpenError
    ensures { IsTold schema.now error.now result }
{
    match error {
        ReopenError::Failed => OpenError::Bank,
        ReopenError::Memory => OpenError::Memory,
        ReopenError::Differs(table, key) => match named_row(alloc, schema, *table, key) {
            Ok((name, key)) => OpenError::Differs(name, key),
            Err(AllocError) => OpenError::Memory,
        },
    }
}

// The name of a table of the schema, and a copy of the key. That there is such a table no clause of the bank says: else
// memory is said to be wanting.
fn named_row(
    alloc: Global,
    schema: &BackingSchema,
    table: TableId,
    key: &Key,
) -> Result<(Name, Key), AllocError>
    ensures { IfOk result (λ row. IsNamed schema.now table row.0 × (row.1 ≡ key.now)) }
{
    match schema.get(table.0 as usize) {
        None => Err(AllocError),
        Some(def) => {
            let name = def.name.copied(alloc)?;
            let key = key.copied(alloc)?;
            Ok((name, key))
        }
    }
}
