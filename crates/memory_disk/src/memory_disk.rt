//! The disk in memory.

ghost use Rattle.std.specs.Prelude.{◌≡◌};
ghost use Rattle.memory_disk.specs.Images.{after_calls, certain_image};
ghost use Rattle.outside.specs.declared.disk.Slot.TheVariants.{First, Second};

use crate::call::DiskCall;
use crate::failure::Failure;
use std::alloc::Global;

/// A disk in memory, which tells everything: two slots, as they were at first and as they are, and the calls since that
/// changed something. Each such call is a moment.
pub struct MemoryDisk {
    pub(crate) alloc: Global,
    /// The slots as they were at first, when they were certain.
    pub(crate) base_first: Vec<u8>,
    pub(crate) base_second: Vec<u8>,
    pub(crate) calls: Vec<DiskCall>,
    pub(crate) first: Vec<u8>,
    pub(crate) second: Vec<u8>,
    /// How many calls there were, of all kinds.
    pub(crate) made: u64,
    /// Which calls fail.
    pub(crate) failing: Vec<Failure>,
    pub(crate) faults: u64,
    ghost first_is: { first.items ≡ (after_calls First calls.items (certain_image base_first.items)).seen },
    ghost second_is: { second.items ≡ (after_calls Second calls.items (certain_image base_second.items)).seen },
}

impl Drop for MemoryDisk {
    fn drop(self) {
        let Self {
            alloc: _,
            base_first: _,
            base_second: _,
            calls: _,
            first: _,
            second: _,
            made: _,
            failing: _,
            faults: _,
        } = self;
    }
}
