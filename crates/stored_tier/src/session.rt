//! The open sessions: OPEN, CLOSE, ROLLBACK, and the passthrough flag of a transaction.

ghost use Rattle.std.specs.Prelude.{◌≡◌, IfOk, None, Ok};
ghost use Rattle.row_types.specs.declared.rule.Refused.TheVariants as refused;
ghost use Rattle.cache_tier.specs.CommitSteps.{ends};
ghost use Rattle.cache_tier.specs.Rules.{labelled};
ghost use Rattle.cache_tier.specs.SessionSteps.{close_answer, flag_answer, open_answer, open_fault};
ghost use Rattle.cache_tier.specs.declared.reply.Last.TheVariants.{Done};
ghost use Rattle.cache_tier.specs.Worlds.{only};

use crate::tier::Tier;
use cache_tier::reply::Reply;
use open_sessions::OpenError;
use open_sessions::laws::label_law;
use row_types::{Detail, Refused, Rule};
use sql_subset::request::OpenOptions;
use std::alloc::{AllocError, Global};
use tier_base::{Code, Label, Limit, SessionId};
use tier_statements::done;

impl Tier {
    ghost use Rattle.stored_tier.specs.Answering.{Answers, AnswersIn, FindsSession};
    ghost use Rattle.stored_tier.specs.Performing.{IsCalm, reply_of};
    ghost use Rattle.stored_tier.specs.Stored.{IsSound, KeepsHidden, rows_of};

    /// The number of the open session of a label.
    ///
    /// The refusal is 123 where no session has the label; or memory was wanting.
    pub fn session(&self, alloc: Global, label: &Label) -> Result<SessionId, Refused>
        ensures { FindsSession self.now label.now result }
    {
        match self.sessions.find(label) {
            Some(session) => Ok(session.id),
            None => Err(refuse_label(alloc, Code::UnknownSession, label)?),
        }
    }

    /// OPEN: a session begins.
    ///
    /// The refusal is 113 where a session of the label is open, and 119 where 64 sessions are; or memory was wanting.
    /// All then stays. (This project's rule.)
    pub fn open(
        &mut self,
        alloc: Global,
        label: &Label,
        options: OpenOptions,
    ) -> Result<Reply, Refused>
        requires { IsSound self.old }
        ensures answers { Answers self.old self.new (λ a. open_fault a label.now)
            (λ a. open_answer a label.now options) result }
        ensures rows { rows_of self.new ≡ rows_of self.old }
        ensures hidden { KeepsHidden self.old self.new }
        ensures sound { IsSound self.new }
        ensures calm { IsCalm (reply_of result) }
    {
        match self
            .sessions
            .open(alloc, label, options.passthrough, options.durable)
        {
            Ok(_) => Ok(done(alloc, 0)),
            Err(OpenError::Label) => Err(refuse_label(alloc, Code::NameInUse, label)?),
            Err(OpenError::Limit) => Err(Refused::Rule(Rule {
                code: Code::Limit,
                detail: Detail::Limit(Limit::Sessions),
            })),
            Err(OpenError::Memory) => Err(Refused::Memory),
        }
    }

    /// CLOSE of an open session: its uncommitted writes are forgotten. It takes no memory, and nothing refuses it.
    pub fn close(&mut self, alloc: Global, id: SessionId) -> Reply
        requires { IsSound self.old }
        ensures answers { AnswersIn self.old self.new id (λ s a. None) (λ s a. close_answer a s.label) (Ok result) }
        ensures rows { rows_of self.new ≡ rows_of self.old }
        ensures hidden { KeepsHidden self.old self.new }
        ensures sound { IsSound self.new }
        ensures calm { IsCalm result }
    {
        self.sessions.close(id);
        label_law();
        done(alloc, 0)
    }

    /// ROLLBACK: the session's uncommitted writes are forgotten, and so is the level that its transaction was given. It
    /// takes no memory, and nothing refuses it.
    pub fn rollback(&mut self, alloc: Global, id: SessionId) -> Reply
        requires { IsSound self.old }
        ensures answers { AnswersIn self.old self.new id (λ s a. None) (λ s a. (ends s a, only (Done 0))) (Ok result) }
        ensures rows { rows_of self.new ≡ rows_of self.old }
        ensures hidden { KeepsHidden self.old self.new }
        ensures sound { IsSound self.new }
        ensures calm { IsCalm result }
    {
        self.sessions.rest(id);
        label_law();
        done(alloc, 0)
    }

    /// ttOptSetFlag: the session's transaction is given a level of passthrough, until it ends. It takes no memory, and
    /// nothing refuses it. (TimesTen built-in procedures, "ttOptSetFlag".)
    pub fn set_level(&mut self, alloc: Global, id: SessionId, level: u8) -> Reply
        requires { IsSound self.old }
        ensures answers { AnswersIn self.old self.new id (λ s a. None) (λ s a. flag_answer a s.label level)
            (Ok result) }
        ensures rows { rows_of self.new ≡ rows_of self.old }
        ensures hidden { KeepsHidden self.old self.new }
        ensures sound { IsSound self.new }
        ensures calm { IsCalm result }
    {
        self.sessions.set_flag(id, level);
        label_law();
        done(alloc, 0)
    }
}

/// The refusal with a label. Its own error is want of memory.
pub fn refuse_label(alloc: Global, code: Code, label: &Label) -> Result<Refused, AllocError>
    ensures { IfOk result (λ error. error ≡ refused.Rule (labelled code label.now)) }
{
    let label = label.copied(alloc)?;
    Ok(Refused::Rule(Rule {
        code,
        detail: Detail::Label(label),
    }))
}
