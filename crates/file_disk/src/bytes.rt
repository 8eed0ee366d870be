//! Bytes of a file from a place on.

use std::fs::File;
use std::io::{self, ErrorKind};
use std::os::unix::fs::FileExt;

/// Reads from the place on until the buffer is full, or the file ends, and tells how many bytes.
pub(crate) fn read_all_at(file: &File, at: u64, buf: &mut [u8]) -> io::Result<usize> {
    let mut done = 0;
    for _ in 0..u64::MAX {
        if done >= buf.len() {
            break;
        }
        match file.read_at(&mut buf[done..], at.wrapping_add(done as u64)) {
            Ok(0) => break,
            Ok(count) => done += count,
            Err(error) if error.kind() == ErrorKind::Interrupted => {}
            Err(error) => return Err(error),
        }
    }
    Ok(done)
}
