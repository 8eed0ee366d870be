//! Lists in chunks.

ghost use Rattle.std.specs.Prelude.{◌≡◌, ◌==◌, ◌≤◌, ◌<◌, ◌+◌, ◌-◌, List, length, OnOk, OnErr, insert, remove, slice_index_or, slice_set, [], ◌∷◌, ◌++◌, ◌^◌, take, drop};
ghost use Rattle.std.specs.Bool.{OnTrue, OnFalse};
ghost use Rattle.std.specs.Option.{option_copied};
ghost use Rattle.std.specs.List.Sorted.{IsSearchInRange, IsBinarySearchResult};
ghost use Rattle.std.specs.declared.cmp.Ordering.{Ordering};
ghost use Rattle.long_list.specs.Chunks.{begins_up_to};

use crate::probe::Probe;
use crate::room::{insert_in_room, push_in_room};
use crate::starts::{locate, lower_from, raise_from};
use std::alloc::{AllocError, Global};
use std::cmp::Ordering;
use std::collections::LinkedList;
use std::marker::Model;
use std::mem;

// How many elements a chunk has at most.
const MOST: usize = 256;

/// A list in chunks, in which an element is found, put in and taken out by its place.
///
/// An edit moves at most one chunk, and counts the chunks behind it anew.
#[derive(Drop)]
pub struct Chunks<T> {
    chunks: Vec<Vec<T>>,
    // How many elements stand before each chunk.
    starts: Vec<usize>,
    len: usize,
    alloc: Global,
}

impl<T> Model for Chunks<T> {
    ghost use Rattle.std.specs.Prelude.{List, map, vec_items};
    ghost use Rattle.long_list.specs.Chunks.{joined, IsCounted};

    ghost Value = { List T };

    ghost view = { λ l. joined (map vec_items l.chunks.items) };

    ghost invariant = { λ l. IsCounted (map vec_items l.chunks.items) l.starts.items l.len };
}

impl<T> Chunks<T> {
    /// An empty list. It takes no memory yet.
    pub fn new(alloc: Global) -> Chunks<T>
        ensures { result ≡ [] }
    {
        Chunks {
            chunks: Vec::new(alloc),
            starts: Vec::new(alloc),
            len: 0,
            alloc,
        }
    }

    /// How many elements there are.
    pub fn len(&self) -> usize
        ensures { result ≡ length self.now }
    {
        self.len
    }

    /// The element at a place, which is below the length.
    pub fn at(&self, place: usize) -> &T
        requires { place < length self.now }
        ensures { result.now ≡ slice_index_or self.now place result.now }
    {
        let (c, i) = locate(&self.chunks, &self.starts, place);
        &self.chunks[c][i]
    }

    /// Where what is sought is, as `Ok`, or where it would go, as `Err`.
    pub fn search<P: Probe<T>>(&self, probe: &P) -> Result<usize, usize>
        ensures bound { IsSearchInRange result (length self.now) }
        ensures position { IsBinarySearchResult (P.order_gives probe.now) self.now result }
    {
        let _len = self.len;
        let after = self.chunks.partition_point(
            |chunk: &Vec<T>| -> bool
                ensures { result ≡ begins_up_to (P.order_gives probe.entry.now) chunk.now.items }
            {
                match chunk.first() {
                    Some(first) => !probe.order(first).is_gt(),
                    None => true,
                }
            },
        );
        if after == 0 {
            return Err(0);
        }
        let start = self.starts[after - 1];
        match self.chunks[after - 1].binary_search_by(
            |element: &T| -> Ordering
                ensures { result ≡ P.order_gives probe.entry.now element.now }
            { probe.order(element) },
        ) {
            Ok(i) => Ok(start + i),
            Err(i) => Err(start + i),
        }
    }

    /// Puts another element at a place below the length, and gives back the old one.
    pub fn replace(&mut self, place: usize, element: T) -> T
        requires { place < length self.old }
        ensures old { result ≡ slice_index_or self.old place result }
        ensures new { self.new ≡ slice_set self.old place element }
    {
        let (c, i) = locate(&self.chunks, &self.starts, place);
        mem::replace(&mut self.chunks[c][i], element)
    }

    /// Takes out the element at a place below the length. Those behind it move down by one.
    pub fn remove(&mut self, place: usize) -> T
        requires { place < length self.old }
        ensures old { result ≡ slice_index_or self.old place result }
        ensures new { self.new ≡ remove self.old place }
    {
        let (c, i) = locate(&self.chunks, &self.starts, place);
        lower_from(&mut self.starts, c + 1);
        self.len -= 1;
        if self.chunks[c].len() == 1 {
            let _ = self.starts.remove(c);
            let mut chunk = self.chunks.remove(c);
            let element = chunk.remove(0);
            chunk.destroy_empty();
            return element;
        }
        let element = self.chunks[c].remove(i);
        self.join_next(c);
        element
    }

    // Joins a chunk and the next where both are short, and there is room for it.
    fn join_next(&mut self, c: usize)
        ensures { self.new ≡ self.old }
    {
        let count = self.chunks.len();
        if count < 2 || c > count - 2 {
            return;
        }
        let high = self.chunks[c + 1].len();
        if self.chunks[c].len() > MOST / 4 || high > MOST / 4 {
            return;
        }
        match self.chunks[c].reserve(high) {
            Ok(()) => {}
            Err(_) => return,
        }
        let mut next = self.chunks.remove(c + 1);
        let _ = self.starts.remove(c + 1);
        let _ = self.chunks[c].append(&mut next);
        next.destroy_empty();
    }

    /// Puts in an element at a place up to the length. Those from there on move up by one.
    ///
    /// It fails for want of memory alone, and the list then is as it was.
    pub fn insert(&mut self, place: usize, element: T) -> Result<(), AllocError>
    where
        T: Drop,
        requires { place ≤ length self.old }
        ensures ok { OnOk result (self.new ≡ insert self.old place element) }
        ensures err { OnErr result (self.new ≡ self.old) }
    {
        if self.begins_chunk(place) {
            return self.push_chunk(element);
        }
        self.make_room(place)?;
        self.put(place, element)
    }

    // Whether what goes to a place begins a chunk of its own, behind all others.
    fn begins_chunk(&self, place: usize) -> bool
        requires { place ≤ length self.now }
        ensures end { OnTrue result (place ≡ length self.now) }
        ensures some { OnFalse result (0 < length self.now) }
    {
        self.len == 0 || (place == self.len && self.is_last_full())
    }

    // Whether the last chunk has no room.
    fn is_last_full(&self) -> bool {
        match self.chunks.last() {
            Some(chunk) => chunk.len() >= MOST,
            None => true,
        }
    }

    // Puts an element behind all others, in a chunk of its own.
    fn push_chunk(&mut self, element: T) -> Result<(), AllocError>
    where
        T: Drop,
        ensures ok { OnOk result (self.new ≡ self.old ++ element ∷ []) }
        ensures err { OnErr result (self.new ≡ self.old) }
    {
        if self.len == usize::MAX {
            return Err(AllocError);
        }
        let mut chunk = Vec::new(self.alloc);
        chunk.push(element)?;
        self.starts.reserve(1)?;
        self.chunks.push(chunk)?;
        self.starts.push(self.len)?;
        self.len += 1;
        Ok(())
    }

    // Puts an element into the chunk of its place.
    fn put(&mut self, place: usize, element: T) -> Result<(), AllocError>
    where
        T: Drop,
        requires within { place ≤ length self.old }
        requires some { 0 < length self.old }
        ensures ok { OnOk result (self.new ≡ insert self.old place element) }
        ensures err { OnErr result (self.new ≡ self.old) }
    {
        if self.len == usize::MAX {
            return Err(AllocError);
        }
        let (c, i) = locate(&self.chunks, &self.starts, place);
        self.chunks[c].insert(i, element)?;
        raise_from(&mut self.starts, c + 1);
        self.len += 1;
        Ok(())
    }

    // Splits the chunk of a place where it is full.
    fn make_room(&mut self, place: usize) -> Result<(), AllocError>
    where
        T: Drop,
        requires { 0 < length self.old }
        ensures { self.new ≡ self.old }
    {
        let (c, _) = locate(&self.chunks, &self.starts, place);
        let len = self.chunks[c].len();
        if len < MOST {
            return Ok(());
        }
        let half = len / 2;
        self.starts.reserve(1)?;
        self.chunks.reserve(1)?;
        let high = self.chunks[c].split_off(half)?;
        let start = self.starts[c] + half;
        self.chunks.insert(c + 1, high)?;
        self.starts.insert(c + 1, start)?;
        Ok(())
    }

    // Exchanges the element at a place below the length with another.
    fn exchange(&mut self, place: usize, other: &mut T)
        requires { place < length self.old }
        ensures old { other.new ≡ slice_index_or self.old place other.new }
        ensures new { self.new ≡ slice_set self.old place other.old }
    {
        let (c, i) = locate(&self.chunks, &self.starts, place);
        mem::swap(&mut self.chunks[c][i], other);
    }

    /// Puts in an element at a place up to the length, and hands out the last one, so that the length stays.
    pub fn carry(&mut self, place: usize, carried: &mut T)
        requires { place ≤ length self.old }
        ensures { self.new ++ carried.new ∷ [] ≡ insert self.old place carried.old }
    {
        for at in place..self.len() {
            self.exchange(at, carried);
        }
    }

    /// Takes the element of a node in at a place, where there is memory for that, and says whether it did.
    pub fn take_in(&mut self, place: usize, node: &mut LinkedList<T>) -> bool
    where
        T: Drop,
        requires within { place ≤ length self.old }
        requires one { length node.old ≡ 1 }
        ensures taken { OnTrue result (self.new ≡ take place self.old ++ (node.old ++ drop place self.old)) }
        ensures empty { OnTrue result (node.new ≡ []) }
        ensures left { OnFalse result (self.new ≡ self.old) }
        ensures kept { OnFalse result (node.new ≡ node.old) }
    {
        if self.len == usize::MAX {
            return false;
        }
        if self.begins_chunk(place) {
            return self.take_in_chunk(node);
        }
        let _ = self.make_room(place);
        self.take_at(place, node)
    }

    // Takes an element in behind all others, in a chunk of its own.
    fn take_in_chunk(&mut self, node: &mut LinkedList<T>) -> bool
    where
        T: Drop,
        requires one { length node.old ≡ 1 }
        requires fits { length self.old < 2 ^ 64 - 1 }
        ensures taken { OnTrue result (self.new ≡ self.old ++ node.old) }
        ensures empty { OnTrue result (node.new ≡ []) }
        ensures left { OnFalse result (self.new ≡ self.old) }
        ensures kept { OnFalse result (node.new ≡ node.old) }
    {
        let mut chunk = match Vec::with_capacity(self.alloc, 1) {
            Ok(chunk) => chunk,
            Err(_) => return false,
        };
        if self.starts.reserve(1).is_err() || self.chunks.reserve(1).is_err() {
            return false;
        }
        push_in_room(&mut chunk, node.pop_front().unwrap());
        push_in_room(&mut self.chunks, chunk);
        push_in_room(&mut self.starts, self.len);
        self.len += 1;
        true
    }

    // Takes an element into the chunk of its place.
    fn take_at(&mut self, place: usize, node: &mut LinkedList<T>) -> bool
    where
        T: Drop,
        requires within { place ≤ length self.old }
        requires some { 0 < length self.old }
        requires fits { length self.old < 2 ^ 64 - 1 }
        requires one { length node.old ≡ 1 }
        ensures taken { OnTrue result (self.new ≡ take place self.old ++ (node.old ++ drop place self.old)) }
        ensures empty { OnTrue result (node.new ≡ []) }
        ensures left { OnFalse result (self.new ≡ self.old) }
        ensures kept { OnFalse result (node.new ≡ node.old) }
    {
        let (c, i) = locate(&self.chunks, &self.starts, place);
        if self.chunks[c].reserve(1).is_err() {
            return false;
        }
        insert_in_room(&mut self.chunks[c], i, node.pop_front().unwrap());
        raise_from(&mut self.starts, c + 1);
        self.len += 1;
        true
    }
}
