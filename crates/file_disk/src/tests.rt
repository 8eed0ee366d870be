//! What no clause says: which bytes reach the files, and stay there.

use crate::FileDisk;
use outside::{Disk, DiskFault, Slot};
use std::{fs, io};

/// Why the test can't go on.
#[derive(Clone, Copy, Debug)]
enum Stop {
    Disk,
    Io,
}

impl From<DiskFault> for Stop {
    fn from(_error: DiskFault) -> Stop {
        Stop::Disk
    }
}

impl From<io::Error> for Stop {
    fn from(_error: io::Error) -> Stop {
        Stop::Io
    }
}

fn open(rt: &HostRuntime) -> io::Result<FileDisk> {
    FileDisk::open(rt, "slots", "slots/0", "slots/1")
}

fn written(rt: &HostRuntime) -> Result<bool, Stop> {
    let mut disk = open(rt)?;
    let new = disk.len(Slot::First)? == 1 && disk.len(Slot::Second)? == 1;
    disk.write_at(Slot::Second, 1, b"abcdef")?;
    disk.cut(Slot::Second, 5)?;
    disk.sync(Slot::Second)?;
    Ok(new)
}

fn read_again(rt: &HostRuntime) -> Result<bool, Stop> {
    let mut disk = open(rt)?;
    let mut buf = [9u8; 6];
    let count = disk.read_at(Slot::Second, 1, &mut buf)?;
    let first = disk.len(Slot::First)?;
    Ok(first == 1 && count == 4 && buf == [b'a', b'b', b'c', b'd', 9, 9])
}

#[test]
fn what_was_written_is_read_when_the_files_are_opened_again(rt: HostRuntime) {
    let _ = fs::remove_dir_all(&rt, "slots");
    assert!(rt; fs::create_dir(&rt, "slots").is_ok());
    assert!(rt; matches!(written(&rt), Ok(true)));
    assert!(rt; matches!(read_again(&rt), Ok(true)));
    assert!(rt; fs::remove_dir_all(&rt, "slots").is_ok());
}
