//! One list type, which clauses see as a list.

ghost use Rattle.std.specs.Prelude.{◌≡◌, [], ◌∷◌, ◌++◌, length, IfSome, IsSome, OnErr, OnOk, option_copied, slice_get, IfErr, ◌↔◌, ◌<◌, ◌==◌};

use std::alloc::{AllocFailed, Global};
use std::marker::Model;

/// A list. Clauses see its elements in order.
#[derive(Drop)]
pub struct Seq<T> {
    items: Vec<T>,
}

impl<T> Model for Seq<T> {
    ghost use Rattle.std.specs.Prelude.{List};

    ghost Value = { List T };

    ghost view = { λ s. s.items.items };
}

impl<T> Seq<T> {
    /// The list without elements. It takes no memory.
    pub fn new(alloc: Global) -> Self
        ensures { result ≡ [] }
    {
        Seq {
            items: Vec::new(alloc),
        }
    }

    /// The list of the vector's elements. It takes no memory.
    pub fn from_vec(items: Vec<T>) -> Self
        ensures { result ≡ items.items }
    {
        Seq { items }
    }

    /// The elements as a vector. It takes no memory.
    pub fn into_vec(self) -> Vec<T>
        ensures { result.items ≡ self }
    {
        self.items
    }

    /// How many elements there are.
    pub fn len(&self) -> usize
        ensures { result ≡ length self.now }
    {
        self.items.len()
    }

    /// Whether there is none.
    pub fn is_empty(&self) -> bool
        ensures { result ≡ (length self.now == 0) }
    {
        self.items.is_empty()
    }

    /// The elements in order.
    pub fn as_slice(&self) -> &[T]
        ensures { result.now ≡ self.now }
    {
        self.items.as_slice()
    }

    /// The element at a place, from 0; none at the length and past it.
    pub fn get(&self, place: usize) -> Option<&T>
        ensures { option_copied result ≡ slice_get self.now place }
    {
        self.items.get(place)
    }

    /// Puts an element behind the others.
    ///
    /// Where memory is wanting the list stays and the error has the element.
    pub fn push(&mut self, item: T) -> Result<(), AllocFailed<T>>
        ensures ok { OnOk result (self.new ≡ self.old ++ item ∷ []) }
        ensures err { OnErr result (self.new ≡ self.old) }
        ensures value_returned { IfErr result (λ e. e.value ≡ item) }
    {
        self.items.push(item)
    }

    /// Takes the last element away; none of an empty list.
    pub fn pop(&mut self) -> Option<T>
        ensures some { IfSome result (λ last. self.old ≡ self.new ++ last ∷ []) }
        ensures variant { IsSome result ↔ (0 < length self.old) }
        ensures none { result ≡ None → self.new ≡ self.old }
    {
        self.items.pop()
    }
}
