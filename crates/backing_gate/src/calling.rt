//! How a bank call begins and ends.

ghost use Rattle.std.specs.Prelude.{◌≡◌};
ghost use Rattle.backing_gate.specs.Calling.{Begins, Ends, Unmarks, wanting};
ghost use Rattle.backing_gate.specs.Heeding.{MayVisit};
ghost use Rattle.backing_gate.specs.Memory.{now_of};
ghost use Rattle.backing_gate.specs.Visits.{visit_at};

use crate::mark::Mark;
use crate::memory_site::{Begun, MemorySite};
use crate::plan::{CallKind, Outcome, When};
use crate::visit::Side;

impl MemorySite {
    /// How far the site is.
    pub(crate) fn mark(&self) -> Mark
        ensures { result ≡ now_of self.now }
    {
        Mark {
            calls: self.disk.moments(),
            entries: self.bank.history().len() as u64,
        }
    }

    /// Begins a call: counts it, marks its moment, and lets those transactions of others come that are planned before
    /// it. Where memory is wanting for the mark, nothing may come in this call.
    pub(crate) fn begin(&mut self, kind: CallKind) -> Begun
        ensures { Begins kind result self.old self.new }
    {
        let outcome = self.plans.next(kind);
        let number = self.visits.next();
        let mark = self.mark();
        match self.past.push(mark) {
            Err(_) => {
                return Begun {
                    outcome: wanting(outcome),
                    number,
                    mark: None,
                };
            }
            Ok(()) => {
                self.heed_others(Side::Before, number);
                return Begun {
                    outcome,
                    number,
                    mark: Some(mark),
                };
            }
        }
    }

    /// Ends a call: lets those transactions of others come that are planned behind it, and takes the mark back where
    /// nothing came in the call.
    pub(crate) fn end(&mut self, begun: Begun)
        ensures { Ends begun self.old self.new }
    {
        match begun.mark {
            None => {}
            Some(mark) => {
                self.heed_others(Side::Behind, begun.number);
                self.unmark(mark);
            }
        }
    }

    // Lets the transaction of others come that is planned for this side of the call of this number.
    fn heed_others(&mut self, side: Side, number: u64)
        ensures came { MayVisit self.old.visits.shared (visit_at side number self.old.visits.visits)
            self.old.history self.new.history }
        ensures kept { self.new ≡ record self.old { history = self.new.history } }
    {
        match self.visits.find(side, number) {
            None => {}
            Some(changes) => {
                self.bank
                    .visit(self.alloc, self.visits.shared(), changes.as_slice());
            }
        }
    }

    // Takes the mark back where the history is as long as it was.
    fn unmark(&mut self, mark: Mark)
        ensures past { Unmarks mark self.old self.new }
        ensures kept { self.new ≡ record self.old { past = self.new.past } }
    {
        if self.bank.history().len() as u64 == mark.entries {
            let _ = self.past.pop();
        }
    }
}

fn wanting(outcome: Option<Outcome>) -> Option<Outcome>
    ensures { result ≡ wanting outcome }
{
    match outcome {
        Some(Outcome::Failed(When::Before)) => Some(Outcome::Failed(When::Before)),
        _ => Some(Outcome::Refused),
    }
}
