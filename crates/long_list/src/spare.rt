//! An element with room for it.

ghost use Rattle.std.specs.Prelude.{◌≡◌, length, IfOk, [], ◌∷◌};

use std::alloc::{AllocError, Global};
use std::collections::LinkedList;
use std::marker::Model;
use std::mem;

/// An element, and the room that it takes to put it back. Clauses see a list of that one element.
#[derive(Drop)]
pub struct Spare<T> {
    node: LinkedList<T>,
}

impl<T> Model for Spare<T> {
    ghost use Rattle.std.specs.Prelude.{List, ◌≡◌, length};

    ghost Value = { List T };

    ghost view = { λ s. s.node };

    ghost invariant = { λ s. length s.node ≡ 1 };
}

impl<T> Spare<T> {
    /// Makes room for an element.
    pub fn new(alloc: Global, element: T) -> Result<Spare<T>, AllocError>
    where
        T: Drop,
        ensures { IfOk result (λ spare. spare ≡ element ∷ []) }
    {
        let mut node = LinkedList::new(alloc);
        node.push_back(element)?;
        Ok(Spare { node })
    }

    /// The element.
    pub fn element(&self) -> &T
        ensures { self.now ≡ result.now ∷ [] }
    {
        self.node.front().unwrap()
    }

    /// Puts another element in, and gives back the old one. It takes no memory.
    pub fn replace(&mut self, element: T) -> T
        ensures old { self.old ≡ result ∷ [] }
        ensures new { self.new ≡ element ∷ [] }
    {
        mem::replace(self.node.front_mut().unwrap(), element)
    }

    // The node with the element.
    pub(crate) fn into_node(self) -> LinkedList<T>
        ensures value { result ≡ self }
        ensures one { length result ≡ 1 }
    {
        let Spare { node } = self;
        node
    }
}
