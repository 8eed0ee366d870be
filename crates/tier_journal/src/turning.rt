//! Beginning the journal's other slot anew, where a tier keeps a journal.

ghost use Rattle.std.specs.Prelude.{◌≡◌, None};
ghost use Rattle.journal_entries.specs.Bodies.{beginning};
ghost use Rattle.tier_journal.specs.KeptOver.{DiskIsCaused, stop_of};
ghost use Rattle.tier_journal.specs.Turning.{TurnsOver, is_long_kept};

use crate::{Batch, RotateError, TierJournal};
use cache_tier::reply::{Reply, faulty};
use outside::Disk;
use std::alloc::Global;
use tier_base::Code;

/// Whether a journal is kept whose live slot is longer than so many bytes.
pub fn is_long(journal: &Option<TierJournal>, rotate_bytes: u64) -> bool
    ensures { result ≡ is_long_kept journal.now rotate_bytes }
{
    match journal {
        None => false,
        Some(journal) => journal.is_long(rotate_bytes),
    }
}

/// Begins the journal's other slot anew with the batch's entries, where a journal is kept. It stays as it was where the
/// entries take more than 2^24 bytes, where no generation is left, and where memory is wanting.
///
/// The reply is `fault 202`: a call of the disk failed, and the run is to end. (This project's rule.)
pub fn rotate_journal<D: Disk>(
    alloc: Global,
    disk: &mut D,
    journal: &mut Option<TierJournal>,
    batch: &Batch,
) -> Result<(), Reply>
    requires { batch.now.begins ≡ beginning }
    ensures turns { TurnsOver D.state D.possible journal.old journal.new disk.old disk.new batch.now (stop_of result) }
    ensures none { journal.old ≡ None → journal.new ≡ None }
    ensures cause { DiskIsCaused journal.old (D.state disk.old) (D.state disk.new) (stop_of result) }
{
    match journal {
        None => Ok(()),
        Some(journal) => match journal.rotate(alloc, disk, batch) {
            Ok(()) => Ok(()),
            Err(RotateError::Limit) => Ok(()),
            Err(RotateError::Memory) => Ok(()),
            Err(RotateError::Disk) => Err(faulty(alloc, Code::JournalFault)),
        },
    }
}
