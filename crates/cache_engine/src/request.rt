//! One request line.

ghost use Rattle.std.specs.Prelude.{◌≡◌, None, Some, false};
ghost use Rattle.cache_tier.specs.Rules.{wrong_at};
ghost use Rattle.row_types.specs.declared.rule.Refused.TheVariants as refused;
ghost use Rattle.cache_tier.specs.Steps.{Heeds, Says, with_notes};
ghost use Rattle.cache_tier.specs.Undone.{is_undone};
ghost use Rattle.cache_engine.specs.Serving.{misread, WorksAndAnswers};
ghost use Rattle.cache_engine.specs.Engines.{Goes, IsInOrder};
ghost use Rattle.cache_engine.specs.Requests.{IsLineCaused, LineGoes};

use crate::due::{Due, begin_line};
use crate::early::judge_early;
use crate::engine::Engine;
use crate::statement::answer_line;
use crate::undone::is_undone;
use cache_tier::heeding::heed_law;
use cache_tier::reply::{Note, Reply};
use outside::Site;
use row_types::{Detail, Refused, Rule};
use session_engine::commit::past;
use sql_subset::line::parse_line;
use sql_subset::request::{Line, ParseError};
use std::alloc::Global;
use tier_base::{Code, Limit, Moment, Seq};
use tier_statements::{faulty, refuse};

/// Answers one request line, without its line end. A line that is empty or a comment has no reply, and the site isn't
/// called. Moments are counted from `base`.
///
/// The line is a step of the abstract tier, and the reply is that step's. It is so in each world in which the engine
/// was left so: its tier stands there, or a commit is in doubt. Where memory is wanting the reply says so, and the
/// engine is as before but for the due work.
///
/// A reply tells a fault of the bank only where the count of bank faults rose in this call, and a fault of the journal
/// (202) only where a journal is kept and the count of the disk's faults rose, also where the site tells nothing of
/// what it holds. Behind a fault of the journal the run is to end: nothing is said of what the engine is left in.
pub fn request<P: Site>(
    engine: &mut Engine,
    alloc: Global,
    site: &mut P,
    base: Moment,
    line: &[u8],
) -> Option<Reply>
    requires { IsInOrder engine.old }
    ensures performs { Goes P.Disk.state P.Disk.possible engine.old engine.new site.old site.new result
        (λ w w'. LineGoes base.0 w line.now w' result) }
    ensures none { engine.old.journal ≡ None → engine.new.journal ≡ None }
    ensures silent { result ≡ None → site.new ≡ site.old }
    ensures order { IsInOrder engine.new }
    ensures cause { IsLineCaused engine.old.journal
        (P.Disk.state site.old)
        (P.Disk.state site.new)
        result }
{
    heed_law();
    if Limit::Line.number() < line.len() as u64 {
        return Some(refuse(alloc, past(Limit::Line)));
    }
    match parse_line(alloc, line) {
        Ok(None) => None,
        Ok(Some(line)) => Some(heed_kept(engine, alloc, site, base, line)),
        Err(error) => Some(refuse(alloc, misread(error))),
    }
}

// The same as `heed`. Where no journal was kept, none is kept behind it.
fn heed_kept<P: Site>(
    engine: &mut Engine,
    alloc: Global,
    site: &mut P,
    base: Moment,
    line: Line,
) -> Reply
    requires { IsInOrder engine.old }
    ensures performs { Goes P.Disk.state P.Disk.possible engine.old engine.new site.old site.new (Some result)
        (λ w w'. Heeds base.0 (Says line) w w' result) }
    ensures none { engine.old.journal ≡ None → engine.new.journal ≡ None }
    ensures order { IsInOrder engine.new }
    ensures cause { IsLineCaused engine.old.journal
        (P.Disk.state site.old)
        (P.Disk.state site.new)
        (Some result) }
{
    heed_law();
    let kept = engine.journal.is_some();
    let reply = heed(engine, alloc, site, base, line);
    if !kept {
        engine.journal = None;
    }
    reply
}

// Answers a line that is read: 101 at byte 0 where it isn't done yet, then what the second place of the order refuses.
fn heed<P: Site>(
    engine: &mut Engine,
    alloc: Global,
    site: &mut P,
    base: Moment,
    line: Line,
) -> Reply
    requires { IsInOrder engine.old }
    ensures performs { Goes P.Disk.state P.Disk.possible engine.old engine.new site.old site.new (Some result)
        (λ w w'. Heeds base.0 (Says line) w w' result) }
    ensures order { IsInOrder engine.new }
    ensures cause { IsLineCaused engine.old.journal
        (P.Disk.state site.old)
        (P.Disk.state site.new)
        (Some result) }
{
    if is_undone(&line) {
        return refuse(alloc, wrong_at(0));
    }
    match judge_early(&engine.tier, alloc, base, &line) {
        Err(refused) => refuse(alloc, refused),
        Ok(()) => work_and_answer(engine, alloc, site, base, line),
    }
}

// The work that is due, and then the line, unless the work ended it. What the work tells stands before the reply.
fn work_and_answer<P: Site>(
    engine: &mut Engine,
    alloc: Global,
    site: &mut P,
    base: Moment,
    line: Line,
) -> Reply
    requires order { IsInOrder engine.old }
    requires done { is_undone line ≡ false }
    ensures performs { Goes P.Disk.state P.Disk.possible engine.old engine.new site.old site.new (Some result)
        (λ w w'. WorksAndAnswers base.0 line w w' result) }
    ensures order { IsInOrder engine.new }
    ensures cause { IsLineCaused engine.old.journal
        (P.Disk.state site.old)
        (P.Disk.state site.new)
        (Some result) }
{
    let tier = &mut engine.tier;
    let doubt = &mut engine.doubt;
    let journal = &mut engine.journal;
    let Ok(Due { notes, stop }) = begin_line(tier, doubt, alloc, site, journal, base, &line) else {
        return faulty(alloc, Code::Memory);
    };
    match stop {
        Some(reply) => with_notes(notes, reply),
        None => with_notes(notes, answer_line(tier, doubt, alloc, site, journal, line)),
    }
}

// Why a line isn't read.
fn misread(error: ParseError) -> Refused
    ensures { result ≡ misread error }
{
    match error {
        ParseError::At(place) => wrong_at(place),
        ParseError::Depth => past(Limit::Depth),
        ParseError::Memory => Refused::Memory,
    }
}

// 101 at a byte.
fn wrong_at(place: usize) -> Refused
    ensures { result ≡ refused.Rule (wrong_at place) }
{
    Refused::Rule(Rule {
        code: Code::Syntax,
        detail: Detail::Byte(place as u64),
    })
}

// The notes before the reply.
fn with_notes(notes: Seq<Note>, mut reply: Reply) -> Reply
    ensures { result ≡ with_notes notes reply }
{
    reply.notes = notes;
    reply
}
