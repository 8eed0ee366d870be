//! What a script's run comes to.

ghost use Rattle.std.specs.Prelude.{◌≡◌, ◌++◌, IfOk, OnOk};
ghost use Rattle.std.specs.Fmt.{decimal};
ghost use Rattle.session_cli.specs.Summaries.{greatest_ticket, summary_bytes, ticket_in};

use crate::counts::Counts;
use itoa::Buffer;
use std::alloc::{AllocError, Global};
use table_state::Entry;

/// What a script's run comes to.
#[derive(Clone, Copy, PartialEq, Eq)]
pub struct Summary {
    /// The counts of its replies.
    pub counts: Counts,
    /// The greatest ticket of the backing history, 0 where it has none.
    pub ticket: u64,
    /// How many entries the backing history has.
    pub entries: u64,
}

impl Summary {
    ghost use Rattle.std.specs.Prelude.{◌≡◌, IfOk};
    ghost use Rattle.session_cli.specs.Summaries.{summary_bytes};

    /// Its three lines.
    pub fn to_text(&self, alloc: Global) -> Result<Vec<u8>, AllocError>
        ensures { IfOk result (λ text. text.items ≡ summary_bytes self.now) }
    {
        let mut text = Vec::new(alloc);
        put_number(&mut text, b"requests ", self.counts.requests)?;
        put_number(&mut text, b"\nok ", self.counts.done)?;
        put_number(&mut text, b" no ", self.counts.refused)?;
        put_number(&mut text, b" fault ", self.counts.faults)?;
        put_number(&mut text, b"\ntickets ", self.ticket)?;
        put_number(&mut text, b" entries ", self.entries)?;
        text.push(b'\n')?;
        Ok(text)
    }
}

// Words with a number behind them.
fn put_number(text: &mut Vec<u8>, words: &[u8], number: u64) -> Result<(), AllocError>
    ensures { OnOk result (text.new.items ≡ text.old.items ++ words.now ++ decimal number) }
{
    let mut digits = Buffer::new();
    text.extend_from_slice(words)?;
    text.extend_from_slice(digits.format(number).as_bytes())
}

/// The greatest ticket of a history, 0 where it has none.
pub(crate) fn greatest_ticket(history: &[Entry]) -> u64
    ensures { result ≡ greatest_ticket history.now }
{
    let mut greatest = 0;
    for entry in history {
        greatest = ticket_in(entry).max(greatest);
    }
    greatest
}

// The ticket of an entry, 0 where it has none.
fn ticket_in(entry: &Entry) -> u64
    ensures { result ≡ ticket_in entry.now }
{
    match entry {
        Entry::Definition(_) => 0,
        Entry::Foreign(_) => 0,
        Entry::Own(ticket, _) => ticket.0,
    }
}
