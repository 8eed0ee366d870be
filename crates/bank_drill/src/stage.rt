//! The site, and what a script keeps beside it.

use crate::answers::{tell_bank_error, tell_opening};
use crate::calls::{apply, changes, console, find, passed, reach, schema, seal, snapshot, tells};
use crate::command::Command;
use crate::error::DrillError;
use crate::telling::Output;
use backing_sqlite::{RealSite, SqliteBank};
use file_disk::FileDisk;
use outside::{Disk, Slot};
use table_state::Sealed;
use tier_base::Position;

/// How many bytes of a slot are told.
const TOLD: usize = 64;

/// The site, and the transactions that were sealed.
pub struct Stage {
    site: RealSite<FileDisk>,
    sealed: Vec<Sealed>,
}

impl Drop for Stage {
    fn drop(self) {
        let Self { site: _, sealed: _ } = self;
    }
}

impl Stage {
    /// The site in the working folder.
    pub fn open(rt: &HostRuntime) -> Result<Stage, DrillError> {
        Ok(Stage {
            site: open_site(rt)?,
            sealed: Vec::new(rt.alloc()),
        })
    }

    /// Does what the line asks for, and tells the line and the answer.
    pub fn follow(
        self,
        rt: &HostRuntime,
        line: &[u8],
        number: usize,
        out: &mut Output,
    ) -> Result<Stage, DrillError> {
        out.put_bytes(line);
        out.end_line();
        out.check()?;
        match Command::parse(line) {
            None => Err(DrillError::Line(number)),
            Some(Command::Again) => self.again(rt, out),
            Some(command) => {
                let mut stage = self;
                stage.call(rt, command, number, out)?;
                Ok(stage)
            }
        }
    }

    // Closes the files and opens them again.
    fn again(self, rt: &HostRuntime, out: &mut Output) -> Result<Stage, DrillError> {
        let Self { site, sealed } = self;
        let (_, bank) = site.parts();
        match bank.close() {
            Ok(()) => out.put_line("closed"),
            Err(error) => tell_bank_error(out, error),
        }
        Ok(Stage {
            site: open_site(rt)?,
            sealed,
        })
    }

    fn call(
        &mut self,
        rt: &HostRuntime,
        command: Command<'_>,
        line: usize,
        out: &mut Output,
    ) -> Result<(), DrillError> {
        let alloc = rt.alloc();
        match command {
            Command::Note => Ok(()),
            Command::Again => Ok(()),
            Command::Seal(ticket, ops) => {
                let sealed = seal(alloc, &mut self.site, ticket, ops, line)?;
                self.sealed.push(sealed)?;
                Ok(())
            }
            Command::Apply(ticket, after) => {
                apply(
                    alloc,
                    &mut self.site,
                    self.sealed.as_slice(),
                    ticket,
                    after,
                    line,
                    out,
                )
            }
            Command::Passed(ticket, write) => {
                passed(alloc, &mut self.site, ticket, write, line, out)
            }
            Command::Find(table, key) => find(alloc, &mut self.site, table, key, line, out),
            Command::Reach(table, rest) => reach(alloc, &mut self.site, table, rest, line, out),
            Command::Changes(since, least, wants, trees) => {
                let from = (Position(since), Position(least));
                changes(alloc, &mut self.site, from, wants, trees, line, out)
            }
            Command::Tells(since) => {
                tells(&mut self.site, Position(since), out);
                Ok(())
            }
            Command::Schema => {
                schema(&mut self.site, out);
                Ok(())
            }
            Command::Snapshot(tables) => snapshot(alloc, &mut self.site, tables, line, out),
            Command::Put(text) => put(&mut self.site, text.as_bytes()),
            Command::Get => get(&mut self.site, out),
            Command::Open(path) => {
                tell_opening(alloc, SqliteBank::open(rt, path), out)?;
                Ok(())
            }
            Command::Console(text) => console(alloc, &mut self.site, text, line, out),
        }
    }
}

fn open_site(rt: &HostRuntime) -> Result<RealSite<FileDisk>, DrillError> {
    let disk = FileDisk::open(rt, ".", "slot0", "slot1")?;
    let bank = SqliteBank::open(rt, "bank.db")?;
    Ok(RealSite::of(disk, bank))
}

fn put<D: Disk>(disk: &mut D, bytes: &[u8]) -> Result<(), DrillError> {
    disk.write_at(Slot::Second, 1, bytes)?;
    disk.sync(Slot::Second)?;
    Ok(())
}

fn get<D: Disk>(disk: &mut D, out: &mut Output) -> Result<(), DrillError> {
    let mut buf = [0u8; TOLD];
    let count = disk.read_at(Slot::Second, 1, &mut buf)?;
    for byte in buf.iter().take(count) {
        out.put_bytes(&[*byte]);
    }
    out.end_line();
    Ok(())
}
