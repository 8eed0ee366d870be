//! The journal.

ghost use Rattle.std.specs.Prelude.{◌+◌, ◌^◌, ◌≤◌, ◌<◌, length, vec_capacity};

use journal_entries::Standing;
use outside::Slot;

/// The journal: which slot is live, where its closed gate stands, and the entries that aren't flushed.
#[derive(Drop)]
pub struct Journal {
    /// The live slot.
    pub(crate) slot: Slot,
    /// Its version.
    pub(crate) version: u8,
    /// Its generation.
    pub(crate) generation: u64,
    /// The place of its closed gate.
    pub(crate) gate: u64,
    /// Behind the last entry.
    pub(crate) standing: Standing,
    /// Room for a length, and then the bytes of the entries that aren't flushed.
    pub(crate) staged: Vec<u8>,
    ghost least: { 4 ≤ length staged.items },
    ghost room: { length staged.items < vec_capacity staged },
    ghost ends: { 4 < length staged.items → gate + length staged.items + 2 ≤ 2 ^ 30 },
}
