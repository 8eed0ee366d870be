//! Numbers with names of their own.

/// A backing table: its place in the backing schema, from 0. The schema only grows, so a place stays.
#[derive(Clone, Copy, Debug, PartialEq, Eq)]
pub struct TableId(pub u32);

/// A cache group: its place in the catalog's order of definitions, from 0.
#[derive(Clone, Copy, Debug, PartialEq, Eq)]
pub struct GroupId(pub u32);

/// A session of the tier, numbered in the order in which they were opened.
#[derive(Clone, Copy, Debug, PartialEq, Eq)]
pub struct SessionId(pub u32);

/// The number of a committed transaction. Tickets count from 1, and 2^63 - 1 is the last.
#[derive(Clone, Copy, Debug, PartialEq, Eq)]
pub struct Ticket(pub u64);

/// A place in the backing history: how many entries stand before it.
#[derive(Clone, Copy, Debug, PartialEq, Eq)]
pub struct Position(pub u64);

/// A moment in milliseconds since 1970-01-01 00:00:00.
#[derive(Clone, Copy, Debug, PartialEq, Eq)]
pub struct Moment(pub u64);
