//! Stops at each moment.

use crate::error::DrillError;
use crate::telling::{tell_number, tell_opening};
use memory_disk::{MemoryDisk, Pick};
use std::alloc::Global;

/// What a crash may leave in ranges that aren't certain.
const PICKS: [Pick; 4] = [Pick::Old, Pick::New, Pick::Ones, Pick::Drawn(3)];

/// What an opening finds after a stop at each moment of the disk, with each pick.
pub fn tell_stops(alloc: Global, disk: &MemoryDisk, out: &mut Vec<u8>) -> Result<(), DrillError> {
    for moment in 0..=disk.moments() {
        out.extend_from_slice(b"stop")?;
        tell_number(moment, out)?;
        out.extend_from_slice(b":")?;
        tell_picks(alloc, disk, moment, out)?;
        out.extend_from_slice(b"\n")?;
    }
    Ok(())
}

/// What an opening finds after a stop at this moment, with each pick.
pub fn tell_picks(
    alloc: Global,
    disk: &MemoryDisk,
    moment: u64,
    out: &mut Vec<u8>,
) -> Result<(), DrillError> {
    if moment > disk.moments() {
        return Err(DrillError::Refused);
    }
    for pick in &PICKS {
        let mut crashed = disk.crash(moment, *pick)?;
        tell_opening(alloc, &mut crashed, out)?;
        out.extend_from_slice(b",")?;
    }
    Ok(())
}
