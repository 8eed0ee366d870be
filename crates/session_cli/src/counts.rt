//! Counts of replies.

use cache_tier::reply::{Last, Reply};

/// How many lines had a reply, and how many of the replies ended in each kind of line.
#[derive(Clone, Copy, PartialEq, Eq)]
pub struct Counts {
    /// The lines with a reply.
    pub requests: u64,
    /// The replies that ended in `ok`.
    pub done: u64,
    /// Those that ended in `no`.
    pub refused: u64,
    /// Those that ended in `fault`.
    pub faults: u64,
}

impl Counts {
    ghost use Rattle.std.specs.Prelude.{◌≡◌, [], ◌^◌, ◌≤◌};
    ghost use Rattle.session_cli.specs.Summaries.{HasRoom, counted, counted_last};

    /// Nothing is counted.
    pub(crate) fn none() -> Counts
        ensures { result ≡ record { requests = 0; done = 0; refused = 0; faults = 0 } }
    {
        Counts {
            requests: 0,
            done: 0,
            refused: 0,
            faults: 0,
        }
    }

    /// One line more, which had this reply or none.
    pub(crate) fn with(self, reply: &Option<Reply>) -> Counts
        requires { HasRoom self 1 }
        ensures { result ≡ counted reply.now self }
    {
        match reply {
            None => self,
            Some(reply) => self.with_last(&reply.last),
        }
    }

    fn with_last(mut self, last: &Last) -> Counts
        requires { HasRoom self 1 }
        ensures { result ≡ counted_last last.now self }
    {
        self.requests += 1;
        match last {
            Last::Done(_) => self.done += 1,
            Last::No(_) => self.refused += 1,
            Last::Fault(_) => self.faults += 1,
        }
        self
    }
}
