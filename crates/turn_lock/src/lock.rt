//! The lock.
ghost use Rattle.std.specs.Prelude.{◌≡◌, ◌++◌, [], ◌∷◌, Some, None, ◌+◌, ◌<◌, ◌≤◌, List, vec_capacity, ℕ, All, IfOk, IfErr, length, vec_len};
ghost use mathlib.Core.List.{IsPrefix};
ghost use Rattle.turn_lock.specs.Places.{new_places, occurrences, AllBegin};
ghost use Rattle.turn_lock.specs.Turns.{waiting, holding, after_giving, found_of, number_of};
ghost use Rattle.turn_lock.specs.declared.view.Stage.TheVariants.{Idle, Waits, Holds};

use crate::held::{Held, Pass, Seen};
use crate::plays::{Advance, Cut, Draw, Glue, Look, Tell};
use crate::view::{Grows, Opening, TurnSeat, TurnTable};
use atomic_table::{Refused, Table};
use std::alloc::Global;
use std::snapshot::Snapshot;
use std::sync::Wait;
use std::thread;

/// A value that one pass at a time may have: the one whose turn is served.
///
/// It is a ticket lock over two words and a slot. The value's list only grows, and each pass keeps
/// what it has seen of it and which places it gave.
#[derive(Drop)]
pub struct TurnLock<V: Grows> {
    table: TurnTable<V>,
    ghost sized: { (table.shared.table_id.words ≡ 2) × (table.shared.table_id.slots ≡ 1) },
    ghost some: { 0 < table.shared.key.seats },
}

impl<V: Grows> TurnLock<V> {
    ghost use Rattle.turn_lock.specs.Passes.{lock_id, lock_opening, lock_seats, pass_lock, pass_parts, total_parts, pass_seen, pass_told, pass_given, times_given, held_lock, held_parts, held_found, held_told, held_given, seen_lock, seen_list, seen_told};

    /// A lock of a value, and its passes, of which there are `seats`, at least one.
    ///
    /// For want of memory the value comes back as it was.
    pub fn new(alloc: Global, value: V, seats: usize) -> Result<(TurnLock<V>, Vec<Pass<V>>), V>
        requires { 0 < seats }

        // The lock knows what it was made with.
        ensures opening { IfOk result (λ r. lock_opening r.0 ≡ value) }
        ensures seats { IfOk result (λ r. (lock_seats r.0 ≡ seats) × (vec_len r.1 ≡ seats)) }

        // Each pass is of this lock, stands for one part, has seen the value's list, and has given nothing.
        ensures lock { IfOk result (λ r. All (λ p. pass_lock p ≡ lock_id r.0) r.1.items) }
        ensures parts { IfOk result (λ r. All (λ p. pass_parts p ≡ 1) r.1.items) }
        ensures seen { IfOk result (λ r. All (λ p. (pass_seen p ≡ V.list value) × (pass_told p ≡ [])) r.1.items) }
        ensures given { IfOk result (λ r. All (λ p. pass_given p ≡ []) r.1.items) }
        ensures err { IfErr result (λ v. v ≡ value) }
    {
        let mut passes = Vec::new(alloc);
        if passes.reserve(seats).is_err() {
            passes.destroy_empty();
            return Err(value);
        }
        let about = Opening {
            value: Snapshot::of(&value),
            seats,
        };
        match TurnLock::lay(alloc, value, &about) {
            Ok((lock, pass)) => {
                lock.deal(pass, &mut passes, seats);
                Ok((lock, passes))
            }
            Err(value) => {
                passes.destroy_empty();
                Err(value)
            }
        }
    }

    /// Waits for a turn, and lends the value. It takes no memory.
    ///
    /// No clause says that the turn comes.
    pub fn turn<R: Wait>(&self, rt: &R, pass: Pass<V>) -> Held<V>
        requires { pass_lock pass ≡ lock_id self.now }
        ensures lock { held_lock result ≡ pass_lock pass }
        ensures parts { held_parts result ≡ pass_parts pass }

        // The value's list begins with all that the pass has seen.
        ensures found { held_found result ≡ V.list result.value }
        ensures seen { IsPrefix (pass_seen pass) (V.list result.value) }
        ensures told { AllBegin (pass_told pass) (V.list result.value) }
        ensures same { (held_told result ≡ pass_told pass) × (held_given result ≡ pass_given pass) }
    {
        let Pass { mut seat } = pass;
        let turn = self.draw(rt, &mut seat);
        self.await_turn(rt, &mut seat, turn);
        let value = self.table.shared.exchange(&mut seat, 0, None).unwrap();
        Held { value, seat }
    }

    /// Takes the value back, with a list that begins with the one found, and serves the next turn.
    /// It takes no memory and doesn't wait.
    pub fn give(&self, held: Held<V>) -> Pass<V>
        requires lock { held_lock held ≡ lock_id self.now }
        requires grows { IsPrefix (held_found held) (V.list held.value) }
        ensures lock { pass_lock result ≡ held_lock held }
        ensures parts { pass_parts result ≡ held_parts held }

        // The pass has seen the list that it gave, and the places that the list gained are its own.
        ensures seen { pass_seen result ≡ V.list held.value }
        ensures given { pass_given result ≡ held_given held ++ new_places (held_found held) (V.list held.value) }
        ensures same { pass_told result ≡ held_told held }
    {
        let Held { value, seat } = held;
        let seat = self.advance(self.put_back(seat, value));
        Pass { seat }
    }

    /// Splits a pass of one part off, which takes turns of its own, perhaps in another thread.
    /// It takes no memory and doesn't wait.
    pub fn split(&self, pass: &mut Pass<V>) -> Pass<V>
        requires lock { pass_lock pass.old ≡ lock_id self.now }
        requires parts { 2 ≤ pass_parts pass.old }
        ensures lock { pass_lock result ≡ pass_lock pass.old }
        ensures parts { (pass_parts result ≡ 1) × (pass_parts pass.new + 1 ≡ pass_parts pass.old) }

        // The new pass knows the same, and has given nothing.
        ensures seen { (pass_seen result ≡ pass_seen pass.old) × (pass_told result ≡ pass_told pass.old) }
        ensures given { pass_given result ≡ [] }

        // The old one keeps all but the part.
        ensures same_lock { pass_lock pass.new ≡ pass_lock pass.old }
        ensures same_seen { (pass_seen pass.new ≡ pass_seen pass.old) × (pass_told pass.new ≡ pass_told pass.old) }
        ensures same_given { pass_given pass.new ≡ pass_given pass.old }
    {
        let seat = self.table.shared.split_seat::<Cut>(&mut pass.seat);
        Pass { seat }
    }

    /// Takes another pass in, with its parts, and with all that it knows and gave.
    /// It takes no memory and doesn't wait.
    pub fn join(&self, pass: &mut Pass<V>, other: Pass<V>)
        requires pass { pass_lock pass.old ≡ lock_id self.now }
        requires other { pass_lock other ≡ lock_id self.now }
        ensures parts { pass_parts pass.new ≡ pass_parts pass.old + pass_parts other }
        ensures told { pass_told pass.new ≡ pass_told pass.old ++ pass_seen other ∷ pass_told other }
        ensures given { pass_given pass.new ≡ pass_given pass.old ++ pass_given other }

        // The lock and the list seen stay as they were.
        ensures same_lock { pass_lock pass.new ≡ pass_lock pass.old }
        ensures same_seen { pass_seen pass.new ≡ pass_seen pass.old }
    {
        let Pass { seat: other } = other;
        self.table.shared.join_seat::<Glue>(&mut pass.seat, other);
    }

    /// Splits off what a pass knows, to be told to another pass, perhaps in another thread.
    /// The pass keeps all its parts, so one part is enough.
    /// It takes no memory and doesn't wait.
    pub fn split_seen(&self, pass: &mut Pass<V>) -> Seen<V>
        requires { pass_lock pass.old ≡ lock_id self.now }
        ensures lock { seen_lock result ≡ pass_lock pass.old }
        ensures seen { (seen_list result ≡ pass_seen pass.old) × (seen_told result ≡ pass_told pass.old) }

        // The pass stays as it was.
        ensures same_lock { pass_lock pass.new ≡ pass_lock pass.old }
        ensures same_parts { pass_parts pass.new ≡ pass_parts pass.old }
        ensures same_seen { (pass_seen pass.new ≡ pass_seen pass.old) × (pass_told pass.new ≡ pass_told pass.old) }
        ensures same_given { pass_given pass.new ≡ pass_given pass.old }
    {
        let seat = self.table.shared.split_seat::<Tell>(&mut pass.seat);
        Seen { seat }
    }

    /// Tells a pass what another pass had seen. So the list that it finds next begins with that too.
    /// It takes no memory and doesn't wait.
    pub fn join_seen(&self, pass: &mut Pass<V>, seen: Seen<V>)
        requires pass { pass_lock pass.old ≡ lock_id self.now }
        requires seen { seen_lock seen ≡ lock_id self.now }
        ensures told { pass_told pass.new ≡ pass_told pass.old ++ seen_list seen ∷ seen_told seen }

        // All else stays as it was.
        ensures same_lock { pass_lock pass.new ≡ pass_lock pass.old }
        ensures same_parts { pass_parts pass.new ≡ pass_parts pass.old }
        ensures same_seen { pass_seen pass.new ≡ pass_seen pass.old }
        ensures same_given { pass_given pass.new ≡ pass_given pass.old }
    {
        let Seen { seat } = seen;
        self.table.shared.join_seat::<Glue>(&mut pass.seat, seat);
    }

    /// Ends the lock, and gives the value back. It is handed passes that have all parts of the lock,
    /// in whatever way they were split and joined. It takes no memory and doesn't wait.
    pub fn close(self, mut passes: Vec<Pass<V>>) -> V
        requires lock { All (λ p. pass_lock p ≡ lock_id self) passes.items }
        requires all { total_parts passes.items ≡ lock_seats self }

        // The value's list begins with the opening one, and with all that each pass has seen.
        ensures begins { IsPrefix (V.list (lock_opening self)) (V.list result) }
        ensures seen { All (λ p. IsPrefix (pass_seen p) (V.list result)) passes.items }
        ensures told { All (λ p. AllBegin (pass_told p) (V.list result)) passes.items }

        // Each place past the opening list was given by the passes, all together, once, and no other place was.
        ensures given { (k : ℕ) → times_given k passes.items
            ≡ occurrences k (new_places (V.list (lock_opening self)) (V.list result)) }
        ensures once { (k : ℕ) → length (V.list (lock_opening self)) ≤ k → k < length (V.list result)
            → times_given k passes.items ≡ 1 }
    {
        let Some(mut first) = passes.pop() else {
            unreachable!()
        };
        self.join_all(&mut first, passes);
        self.finish(first)
    }

    // The table, with the value at home, and one pass with all parts.
    fn lay(alloc: Global, value: V, about: &Opening<V>) -> Result<(TurnLock<V>, Pass<V>), V>
        requires value { about.now.value.value ≡ value }
        requires seats { 0 < about.now.seats }
        ensures about { IfOk result (λ r. r.0.table.shared.key ≡ about.now) }
        ensures pass { IfOk result (λ r. (pass_lock r.1 ≡ lock_id r.0) × (pass_parts r.1 ≡ about.now.seats)) }
        ensures seen { IfOk result (λ r. (pass_seen r.1 ≡ V.list value) × (pass_told r.1 ≡ [])
            × (pass_given r.1 ≡ [])) }
        ensures err { IfErr result (λ v. v ≡ value) }
    {
        let mut slots = Vec::new(alloc);
        if slots.reserve(1).is_err() {
            slots.destroy_empty();
            return Err(value);
        }
        slots.push_reserved(Some(value));
        match Table::new(alloc, &[0, 0], slots, about) {
            Ok((table, seat)) => Ok((TurnLock { table }, Pass { seat })),
            Err(refused) => {
                let Refused { mut slots } = refused;
                let value = slots.pop().unwrap().unwrap();
                slots.destroy_empty();
                Err(value)
            }
        }
    }

    // Splits a pass into passes of one part each.
    fn deal(&self, mut pass: Pass<V>, passes: &mut Vec<Pass<V>>, seats: usize)
        requires lock { pass_lock pass ≡ lock_id self.now }
        requires parts { pass_parts pass ≡ seats }
        requires given { (pass_told pass ≡ []) × (pass_given pass ≡ []) }
        requires room { (passes.old.items ≡ []) × (seats ≤ vec_capacity passes.old) }
        ensures len { vec_len passes.new ≡ seats }
        ensures lock { All (λ p. pass_lock p ≡ lock_id self.now) passes.new.items }
        ensures parts { All (λ p. pass_parts p ≡ 1) passes.new.items }
        ensures seen { All (λ p. (pass_seen p ≡ pass_seen pass) × (pass_told p ≡ [])) passes.new.items }
        ensures given { All (λ p. pass_given p ≡ []) passes.new.items }
    {
        for _ in 1..seats {
            let other = self.split(&mut pass);
            passes.push_reserved(other);
        }
        passes.push_reserved(pass);
    }

    // Draws the next turn. After 2^64 - 1 turns there is none left, and it waits for good.
    fn draw<R: Wait>(&self, rt: &R, seat: &mut TurnSeat<V>) -> u64
        requires seat { seat.old.table_id ≡ self.now.table.shared.table_id }
        requires idle { (seat.old.me.0.stage ≡ Idle) × (0 < seat.old.me.0.parts) }
        ensures same { (seat.new.table_id ≡ seat.old.table_id) × (seat.new.me.1 ≡ seat.old.me.1) }
        ensures drawn { seat.new.me.0 ≡ waiting seat.old.me.0 result }
    {
        let mut turn = 0;
        for _ in rt.forever() {
            if turn == u64::MAX {
                thread::yield_now();
                turn = 0;
                continue;
            }
            let found = self
                .table
                .shared
                .compare_exchange::<Draw>(seat, 0, turn, turn + 1);
            if found == turn {
                return turn;
            }
            turn = found;
        }
        unreachable!()
    }

    // Waits until the turn is served, and takes the slot.
    fn await_turn<R: Wait>(&self, rt: &R, seat: &mut TurnSeat<V>, turn: u64)
        requires seat { (seat.old.table_id ≡ self.now.table.shared.table_id) × (seat.old.me.1 ≡ []) }
        requires waits { seat.old.me.0.stage ≡ Waits turn }
        ensures same { seat.new.table_id ≡ seat.old.table_id }
        ensures took { (x : V) × (seat.new.me ≡ (holding seat.old.me.0 turn (V.list x), (0, Some x) ∷ []))
            × IsPrefix seat.old.me.0.seen (V.list x) × AllBegin seat.old.me.0.told (V.list x) }
    {
        for _ in rt.forever() {
            if self.table.shared.load::<Look>(seat, 1) == turn {
                return;
            }
            thread::yield_now();
        }
        unreachable!()
    }

    // Puts the value into the slot, which the seat has.
    fn put_back(&self, mut seat: TurnSeat<V>, value: V) -> TurnSeat<V>
        requires lock { seat.table_id ≡ lock_id self.now }
        requires empty { seat.me.1 ≡ (0, None) ∷ [] }
        ensures lock { result.table_id ≡ seat.table_id }
        ensures full { result.me ≡ (seat.me.0, (0, Some value) ∷ []) }
    {
        match self.table.shared.exchange(&mut seat, 0, Some(value)) {
            None => {}
            Some(_) => unreachable!(),
        }
        seat
    }

    // Gives the slot back, with a list that begins with the one found, and serves the next turn.
    fn advance(&self, mut seat: TurnSeat<V>) -> TurnSeat<V>
        requires lock { seat.table_id ≡ lock_id self.now }
        requires served { seat.me.0.stage ≡ Holds (number_of seat.me.0.stage) (found_of seat.me.0.stage) }
        requires full { (x : V) × (seat.me.1 ≡ (0, Some x) ∷ []) × IsPrefix (found_of seat.me.0.stage) (V.list x) }
        ensures lock { result.table_id ≡ seat.table_id }
        ensures given { (x : V) → seat.me.1 ≡ (0, Some x) ∷ []
            → result.me ≡ (after_giving seat.me.0 (found_of seat.me.0.stage) (V.list x), []) }
    {
        self.table.shared.fetch_add::<Advance>(&mut seat, 1, 1);
        seat
    }

    // Takes each of the other passes in.
    fn join_all(&self, pass: &mut Pass<V>, mut others: Vec<Pass<V>>)
        requires pass { pass_lock pass.old ≡ lock_id self.now }
        requires others { All (λ p. pass_lock p ≡ lock_id self.now) others.items }
        ensures same { (pass_lock pass.new ≡ pass_lock pass.old) × (pass_seen pass.new ≡ pass_seen pass.old) }
        ensures parts { pass_parts pass.new ≡ pass_parts pass.old + total_parts others.items }
        ensures told { (l : List V.Item) → AllBegin (pass_told pass.new) l
            → AllBegin (pass_told pass.old) l
            × All (λ p. IsPrefix (pass_seen p) l × AllBegin (pass_told p) l) others.items }
        ensures given { (k : ℕ) → occurrences k (pass_given pass.new)
            ≡ occurrences k (pass_given pass.old) + times_given k others.items }
    {
        while let Some(other) = others.pop() {
            self.join(pass, other);
        }
        others.destroy_empty();
    }

    // Ends the table, by a pass with all parts.
    fn finish(self, pass: Pass<V>) -> V
        requires lock { pass_lock pass ≡ lock_id self }
        requires all { pass_parts pass ≡ lock_seats self }
        ensures begins { IsPrefix (V.list (lock_opening self)) (V.list result) }
        ensures seen { IsPrefix (pass_seen pass) (V.list result) }
        ensures told { AllBegin (pass_told pass) (V.list result) }
        ensures given { (k : ℕ) → occurrences k (pass_given pass)
            ≡ occurrences k (new_places (V.list (lock_opening self)) (V.list result)) }
    {
        let mut closed = self.table.close_with(pass.seat);
        let value = closed.take(0).unwrap();
        closed.free();
        value
    }
}
