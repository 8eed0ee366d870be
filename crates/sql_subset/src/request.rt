//! Request lines.

use crate::stmt::Stmt;
use sql_phrases::row_types::TableDeclaration;
use sql_phrases::sql_query::Write;
use sql_phrases::tier_base::{Label, Seq};

/// `OPEN [PASSTHROUGH n] [DURABLE n]`
#[derive(Clone, Copy, Debug, PartialEq, Eq)]
pub struct OpenOptions {
    /// the passthrough level, from 0 to 3; 0 where it is left out
    pub passthrough: u8,
    /// whether commits are durable; not where it is left out
    pub durable: bool,
}

/// What a session asks.
#[derive(Drop)]
pub enum Request {
    /// OPEN
    Open(OpenOptions),
    /// CLOSE
    Close,
    /// a statement
    Statement(Stmt),
}

/// What the console asks of the backing database.
#[derive(Drop)]
pub enum ConsoleRequest {
    /// CREATE TABLE
    CreateTable(TableDeclaration),
    /// writes, of which there is at least one, as one transaction
    Writes(Seq<Write>),
}

/// What a request line says.
#[derive(Drop)]
pub enum Line {
    /// a session's request, with its label
    Session(Label, Request),
    /// the console's request, of `backing:`
    Console(ConsoleRequest),
    /// `clock: +n`: the milliseconds that are added; 2^64 - 1 stands for all that is more
    Clock(u64),
}

/// Why a line says nothing.
#[derive(Clone, Copy, Debug, PartialEq, Eq)]
pub enum ParseError {
    /// It is spelt wrong: the byte of the first token with which no request goes on, or the line's length at its
    /// end.
    At(usize),
    /// Its first wrong token goes on only more than 32 levels deep.
    Depth,
    /// Memory was wanting.
    Memory,
}
