//! Replies of one line. None of them takes memory.

ghost use Rattle.std.specs.Prelude.{◌≡◌};
ghost use Rattle.cache_tier.specs.declared.reply.Last.TheVariants.{Done, No};
ghost use Rattle.cache_tier.specs.Worlds.{bank_fault, only};
ghost use Rattle.tier_statements.specs.Replies.{reply_to};

use cache_tier::reply::{Last, Reply, faulty, only};
use outside::BankError;
use row_types::{Refused, Rule};
use std::alloc::Global;
use tier_base::Code;

/// `ok n`: so many rows, groups, instances, or the ticket.
pub fn done(alloc: Global, number: u64) -> Reply
    ensures { result ≡ only (Done number) }
{
    only(alloc, Last::Done(number))
}

/// The refusal by a rule.
pub fn refuses(alloc: Global, rule: Rule) -> Reply
    ensures { result ≡ only (No rule) }
{
    only(alloc, Last::No(rule))
}

/// A failed call of the backing database, or its want of memory.
pub fn bank_fault(alloc: Global, error: BankError) -> Reply
    ensures { result ≡ bank_fault error }
{
    match error {
        BankError::Failed => faulty(alloc, Code::BackingFault),
        BankError::Memory => faulty(alloc, Code::Memory),
    }
}

/// The refusal by a rule, or want of memory.
pub fn refuse(alloc: Global, refused: Refused) -> Reply
    ensures { result ≡ reply_to refused }
{
    match refused {
        Refused::Rule(rule) => refuses(alloc, rule),
        Refused::Memory => faulty(alloc, Code::Memory),
    }
}
