//! Parts of answers as text.

use crate::error::DrillError;
use itoa::Buffer;
use row_types::{Column, Key, Row, Ty, print_key_into, print_values_into};
use std::alloc::Global;
use table_defs::TableDef;
use tier_base::Name;

/// What is told. Where memory is wanting nothing is put any more, so that what tells an answer needn't look at each
/// part of it.
pub struct Output {
    bytes: Vec<u8>,
    is_whole: bool,
}

impl Drop for Output {
    fn drop(self) {
        let Self {
            bytes: _,
            is_whole: _,
        } = self;
    }
}

impl Output {
    /// Nothing yet.
    pub fn new(alloc: Global) -> Output {
        Output {
            bytes: Vec::new(alloc),
            is_whole: true,
        }
    }

    /// It fails where memory was wanting.
    pub fn check(&self) -> Result<(), DrillError> {
        if self.is_whole {
            Ok(())
        } else {
            Err(DrillError::Memory)
        }
    }

    /// What was told.
    pub fn bytes(&self) -> &[u8] {
        self.bytes.as_slice()
    }

    /// The bytes.
    pub fn put_bytes(&mut self, bytes: &[u8]) {
        if self.is_whole {
            self.is_whole = self.bytes.extend_from_slice(bytes).is_ok();
        }
    }

    /// The text.
    pub fn put(&mut self, text: &str) {
        self.put_bytes(text.as_bytes());
    }

    /// The end of a line.
    pub fn end_line(&mut self) {
        self.put("\n");
    }

    /// The text as a line.
    pub fn put_line(&mut self, text: &str) {
        self.put(text);
        self.end_line();
    }

    /// A name.
    pub fn put_name(&mut self, name: &Name) {
        self.put_bytes(name.as_bytes());
    }

    /// A number.
    pub fn put_number(&mut self, number: u64) {
        let mut digits = Buffer::new();
        self.put(digits.format(number));
    }

    /// A row as a line.
    pub fn put_row(&mut self, row: &Row) {
        if self.is_whole {
            self.is_whole = print_values_into(&mut self.bytes, row.values()).is_ok();
        }
        self.end_line();
    }

    /// A key behind a blank.
    pub fn put_key(&mut self, key: &Key) {
        self.put(" ");
        if self.is_whole {
            self.is_whole = print_key_into(&mut self.bytes, key).is_ok();
        }
    }
}

/// A column as a line.
pub fn tell_column(out: &mut Output, column: &Column) {
    out.put("  ");
    out.put_name(&column.name);
    tell_type(out, column.ty);
    if column.not_null {
        out.put(" NOT NULL");
    }
    out.end_line();
}

fn tell_type(out: &mut Output, ty: Ty) {
    match ty {
        Ty::TtInteger => out.put(" TT_INTEGER"),
        Ty::TtBigint => out.put(" TT_BIGINT"),
        Ty::Timestamp => out.put(" TIMESTAMP"),
        Ty::Varchar2(size) => {
            out.put(" VARCHAR2 ");
            out.put_number(u64::from(size));
        }
        Ty::Number(precision, scale) => {
            out.put(" NUMBER ");
            out.put_number(u64::from(precision));
            out.put(" ");
            out.put_number(u64::from(scale));
        }
    }
}

/// The names of the columns at these places.
pub fn tell_places(out: &mut Output, def: &TableDef, places: &[usize]) {
    for place in places {
        out.put(" ");
        if let Some(column) = def.columns.get(*place) {
            out.put_name(&column.name);
        }
    }
}
