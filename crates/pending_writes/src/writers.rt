//! Who wrote each key of a table last.

ghost use Rattle.std.specs.Prelude.{◌≡◌, ◌<◌, IfErr, IfOk, None, OnErr, OnOk, Some, is_some, option_copied, if◌then◌else◌, slice_get, true};
ghost use Rattle.std.specs.Bool.{OnTrue};
ghost use Rattle.std.specs.List.Sorted.{IsSearchInRange};
ghost use Rattle.std.specs.FinMap as map;
ghost use Rattle.table_state.specs.row_types.specs.Order.{key_order};
ghost use Rattle.pending_writes.specs.Places.{IsGapFor, IsKeyAt};
ghost use Rattle.pending_writes.specs.Noting.{IsIdleAt, StaysSince, entered, since};

use std::alloc::{AllocError, Global};
use std::cmp::Ordering;
use std::marker::Model;
use table_state::long_list::{LongList, Probe};
use table_state::row_types::Key;
use table_state::tier_base::Ticket;

/// A transaction that wrote a key.
#[derive(Clone, Copy)]
pub struct Writer {
    /// Its ticket.
    pub ticket: Ticket,
    /// Whether it leaves a row at the key.
    pub leaves: bool,
}

// The entry of a key.
#[derive(Drop)]
struct ByKey<'a>(&'a Key);

impl<'a> Probe<(Key, Option<Writer>)> for ByKey<'a> {
    ghost order_gives = { λ sought entry. key_order entry.0 sought.0.now };

    fn order(&self, entry: &(Key, Option<Writer>)) -> Ordering {
        entry.0.order(self.0)
    }
}

/// The last writer of each key of a table, by key. Clauses see a finite map. A key that is entered, and that none has
/// written yet, has no writer.
#[derive(Drop)]
pub struct Writers {
    entries: LongList<(Key, Option<Writer>)>,
    // The place that is looked at next for an entry that says nothing any more.
    next: usize,
}

impl Model for Writers {
    ghost use Rattle.std.specs.Prelude.{Option, T};
    ghost use Rattle.std.specs.FinMap as map;
    ghost use Rattle.table_state.specs.row_types.specs.Order.{key_order};
    ghost use Rattle.std.specs.Coded.{coded_list, coded_option};
    ghost use Rattle.table_state.specs.row_types.specs.contracts.value.Value as value;
    ghost use Rattle.pending_writes.specs.contracts.writers.Writer as one;
    ghost use Rattle.pending_writes.specs.declared.writers.Writer.{Writer as OneWriter};

    ghost Value = { map.FinMap key_order (Option OneWriter) };

    ghost coded = { map.code (coded_list value.the_row.coded) (coded_option one.the_row.coded) };

    ghost view = { λ w. map.from_sorted w.entries };

    ghost invariant = { λ w. T (map.is_sorted key_order w.entries) };
}

impl Writers {
    /// No key is entered. It takes no memory.
    pub(crate) fn new(alloc: Global) -> Writers
        ensures { result ≡ map.empty }
    {
        Writers {
            entries: LongList::new(alloc),
            next: 0,
        }
    }

    // Where a key is, or where it would go.
    fn search(&self, key: &Key) -> Result<usize, usize>
        ensures bound { IsSearchInRange result (map.len self.now) }
        ensures found { IfOk result (IsKeyAt (map.entries self.now) key.now) }
        ensures absent { IfErr result (IsGapFor (map.entries self.now) key.now) }
    {
        self.entries.search(&ByKey(key))
    }

    /// The writer of a key, where it is entered.
    pub(crate) fn get(&self, key: &Key) -> Option<Option<Writer>>
        ensures { result ≡ map.get self.now key.now }
    {
        match self.search(key) {
            Ok(place) => Some(self.entries.at(place).1),
            Err(_) => None,
        }
    }

    /// Enters a key without a writer, where it isn't entered. It fails for want of memory alone; all is then as it was.
    pub(crate) fn enter(&mut self, alloc: Global, key: &Key) -> Result<(), AllocError>
        ensures ok { OnOk result (self.new ≡ entered key.now self.old) }
        ensures err { OnErr result (self.new ≡ self.old) }
    {
        match self.search(key) {
            Ok(_) => Ok(()),
            Err(place) => {
                let key = key.copied(alloc)?;
                self.entries.insert(place, (key, None))?;
                Ok(())
            }
        }
    }

    /// Notes the writer of a key that is entered. It takes no memory.
    pub(crate) fn note(&mut self, key: Key, writer: Writer)
        requires { map.contains_key self.old key ≡ true }
        ensures { self.new ≡ map.insert self.old key (Some writer) }
    {
        match self.search(&key) {
            Ok(place) => {
                let _ = self.entries.replace(place, (key, Some(writer)));
            }
            Err(_) => {}
        }
    }

    /// Looks at one entry, each time at another in turn, and takes it out where its transaction doesn't wait: where it
    /// has no writer, or one below the first ticket that waits. It takes no memory.
    pub(crate) fn sweep(&mut self, first: Ticket)
        ensures { StaysSince first.0 self.old self.new }
    {
        let place = if self.next < self.entries.len() {
            self.next
        } else {
            0
        };
        if self.is_idle(place, first) {
            let _ = self.entries.remove(place);
            self.next = place;
        } else {
            self.next = place.saturating_add(1);
        }
    }

    // Whether there is an entry at the place whose transaction doesn't wait.
    fn is_idle(&self, place: usize, first: Ticket) -> bool
        ensures { OnTrue result (IsIdleAt first.0 (map.entries self.now) place) }
    {
        match self.entries.get(place) {
            None => false,
            Some(entry) => !waits(entry.1, first),
        }
    }
}

// Whether the ticket of a writer isn't below the first one.
fn waits(writer: Option<Writer>, first: Ticket) -> bool
    ensures { result ≡ is_some (since first.0 writer) }
{
    match writer {
        None => false,
        Some(writer) => first.0 <= writer.ticket.0,
    }
}
