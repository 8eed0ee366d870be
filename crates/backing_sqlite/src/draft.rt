//! Texts as they are written.

use crate::fault::StoreFault;
use std::alloc::Global;
use std::{mem, str};
use tier_base::Name;

/// A text that grows, and the first fault that was met. Behind a fault nothing is put any more, so that what writes a
/// text needn't look at each part of it.
pub(crate) struct Draft {
    alloc: Global,
    text: String,
    fault: Option<StoreFault>,
}

impl Drop for Draft {
    fn drop(self) {
        let Self {
            alloc: _,
            text: _,
            fault: _,
        } = self;
    }
}

impl Draft {
    /// An empty text. It takes no memory.
    pub(crate) fn new(alloc: Global) -> Draft {
        Draft {
            alloc,
            text: String::new(alloc),
            fault: None,
        }
    }

    /// Puts a text behind what stands there.
    pub(crate) fn put(&mut self, text: &str) {
        if self.fault.is_none() && self.text.push_str(text).is_err() {
            self.fault = Some(StoreFault::Memory);
        }
    }

    /// Puts a name.
    pub(crate) fn put_name(&mut self, name: &Name) {
        match text_of(name) {
            Ok(text) => self.put(text),
            Err(fault) => self.fail(fault),
        }
    }

    /// A fault was met.
    pub(crate) fn fail(&mut self, fault: StoreFault) {
        if self.fault.is_none() {
            self.fault = Some(fault);
        }
    }

    /// Takes the text out; an empty one begins. It is whole where no fault was met.
    pub(crate) fn take(&mut self) -> String {
        mem::replace(&mut self.text, String::new(self.alloc))
    }

    /// The text, or the fault.
    pub(crate) fn end(self) -> Result<String, StoreFault> {
        let Self {
            alloc: _,
            text,
            fault,
        } = self;
        match fault {
            None => Ok(text),
            Some(fault) => Err(fault),
        }
    }

    /// The fault, where one was met.
    pub(crate) fn fault(&self) -> Option<StoreFault> {
        self.fault
    }
}

/// The name as text.
pub(crate) fn text_of(name: &Name) -> Result<&str, StoreFault> {
    match str::from_utf8(name.as_bytes()) {
        Ok(text) => Ok(text),
        Err(_) => Err(StoreFault::Failed),
    }
}
