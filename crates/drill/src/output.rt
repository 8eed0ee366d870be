//! The text that is told.

use itoa::Buffer;
use row_types::{Row, print_values_into};
use std::alloc::{AllocError, Global};

/// A text that grows. Where memory is wanting nothing is put any more, so that what tells something needn't look at
/// each part of it.
pub struct Output {
    bytes: Vec<u8>,
    is_whole: bool,
}

impl Drop for Output {
    fn drop(self) {
        let Self {
            bytes: _,
            is_whole: _,
        } = self;
    }
}

impl Output {
    /// Nothing yet.
    pub fn new(alloc: Global) -> Output {
        Output {
            bytes: Vec::new(alloc),
            is_whole: true,
        }
    }

    /// It fails where memory was wanting.
    pub fn check(&self) -> Result<(), AllocError> {
        if self.is_whole {
            Ok(())
        } else {
            Err(AllocError)
        }
    }

    /// What was put.
    pub fn bytes(&self) -> &[u8] {
        self.bytes.as_slice()
    }

    /// Puts bytes.
    pub fn put_bytes(&mut self, bytes: &[u8]) {
        if self.is_whole {
            self.is_whole = self.bytes.extend_from_slice(bytes).is_ok();
        }
    }

    /// Puts a text.
    pub fn put(&mut self, text: &str) {
        self.put_bytes(text.as_bytes());
    }

    /// Ends the line.
    pub fn end_line(&mut self) {
        self.put("\n");
    }

    /// Puts a number.
    pub fn put_number(&mut self, number: u64) {
        let mut digits = Buffer::new();
        self.put(digits.format(number));
    }

    /// Puts the values of a row.
    pub fn put_row(&mut self, row: &Row) {
        if self.is_whole {
            self.is_whole = print_values_into(&mut self.bytes, row.values()).is_ok();
        }
    }
}
