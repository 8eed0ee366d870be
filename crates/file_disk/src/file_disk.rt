//! Two files as the journal's disk.

ghost use Rattle.file_disk.specs.Untold.{no_certain, no_read, untold, untold_state};
ghost use Rattle.outside.specs.Faults.{HasCause};

use crate::bytes::read_all_at;
use outside::{Disk, DiskFault, Slot};
use std::fs::{File, OpenOptions};
use std::io;
use std::os::unix::fs::FileExt;

/// Two files, of which each is a slot. It doesn't tell what they hold. Each failed call is counted.
#[derive(Drop)]
pub struct FileDisk {
    first: File,
    second: File,
    faults: u64,
}

impl FileDisk {
    /// The slots in these two files. A file that is missing, or has no bytes, is made a slot that was never used: the
    /// one byte 00. It and its place in the folder are on the disk then.
    ///
    /// The error is that of the first call of the operating system that failed.
    pub fn open(rt: &HostRuntime, folder: &str, first: &str, second: &str) -> io::Result<FileDisk> {
        let first = open_slot(rt, first)?;
        let second = open_slot(rt, second)?;
        File::open(rt, folder)?.sync_all()?;
        Ok(FileDisk {
            first,
            second,
            faults: 0,
        })
    }

    fn file(&self, slot: Slot) -> &File {
        match slot {
            Slot::First => &self.first,
            Slot::Second => &self.second,
        }
    }

    // The answer of a call, whose failure is counted.
    fn answer<T>(&mut self, done: io::Result<T>) -> Result<T, DiskFault>
        ensures { HasCause self.old.faults self.new.faults result }
    {
        match done {
            Ok(told) => Ok(told),
            Err(_) => {
                self.faults = self.faults.saturating_add(1);
                Err(DiskFault)
            }
        }
    }
}

/// Opens the file, or makes it; where it has no bytes it gets the byte 00.
fn open_slot(rt: &HostRuntime, path: &str) -> io::Result<File> {
    let file = OpenOptions::new()
        .read(true)
        .write(true)
        .create(true)
        .open(rt, path)?;
    if file.metadata()?.len() == 0 {
        file.write_all_at(&[0], 0)?;
        file.sync_all()?;
    }
    Ok(file)
}

impl Disk for FileDisk {
    ghost state = { λ d. untold_state d.faults };

    ghost possible = { untold };

    fn len(&mut self, slot: Slot) -> Result<u64, DiskFault> {
        let told = match self.file(slot).metadata() {
            Ok(metadata) => Ok(metadata.len()),
            Err(error) => Err(error),
        };
        self.answer(told)
    }

    fn read_at(&mut self, slot: Slot, at: u64, buf: &mut [u8]) -> Result<usize, DiskFault> {
        let told = read_all_at(self.file(slot), at, buf);
        self.answer(told)
    }

    fn write_at(&mut self, slot: Slot, at: u64, bytes: &[u8]) -> Result<(), DiskFault> {
        let done = self.file(slot).write_all_at(bytes, at);
        self.answer(done)
    }

    fn cut(&mut self, slot: Slot, len: u64) -> Result<(), DiskFault> {
        let done = self.file(slot).set_len(len);
        self.answer(done)
    }

    fn sync(&mut self, slot: Slot) -> Result<(), DiskFault> {
        let done = self.file(slot).sync_data();
        self.answer(done)
    }

    ghost certain = { no_certain };

    ghost read_possible = { no_read };
}
