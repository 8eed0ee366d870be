//! The site of real files in the working folder.

use backing_sqlite::{OpenError, RealSite, SqliteBank};
use file_disk::FileDisk;
use std::fs::OpenOptions;

/// The first slot of the journal.
const FIRST_SLOT: &str = "ttcache.j0";

/// The second one.
const SECOND_SLOT: &str = "ttcache.j1";

/// The backing database.
const DATABASE: &str = "ttcache.db";

/// Why there is no site.
#[derive(Clone, Copy, Debug, PartialEq, Eq)]
pub enum SiteError {
    /// The file of this name can't be opened: another program holds it, or it isn't one of these, or the operating
    /// system refuses it.
    Unopened(&'static str),
    /// Memory was wanting.
    Memory,
}

/// The journal's disk and the backing database in the working folder, as one site. Files that are missing are made:
/// slots that were never used, and a database with an empty history.
pub fn open_site(rt: &HostRuntime) -> Result<RealSite<FileDisk>, SiteError> {
    let Ok(disk) = FileDisk::open(rt, ".", FIRST_SLOT, SECOND_SLOT) else {
        return Err(SiteError::Unopened(unopened_slot(rt)));
    };
    match SqliteBank::open(rt, DATABASE) {
        Ok(bank) => Ok(RealSite::of(disk, bank)),
        Err(OpenError::Memory) => Err(SiteError::Memory),
        Err(_) => Err(SiteError::Unopened(DATABASE)),
    }
}

// The slot that can't be opened, by another try.
fn unopened_slot(rt: &HostRuntime) -> &'static str {
    match OpenOptions::new()
        .read(true)
        .write(true)
        .open(rt, FIRST_SLOT)
    {
        Ok(_) => SECOND_SLOT,
        Err(_) => FIRST_SLOT,
    }
}
