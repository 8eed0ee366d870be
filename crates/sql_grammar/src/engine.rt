//! The engine: reads tokens by a grammar that its next token decides.
ghost use Rattle.std.specs.Prelude.{◌≡◌, true, ◌≢◌, ◌++◌, ℕ, List, option_to_list, slice_get, map, IfOk, OnOk, IfNone, IfSome, IsTrue};
ghost use Rattle.sql_tokens.specs.Kinds.{code};

use crate::rule::Rule;
use crate::sql::{body, whole};
use crate::start::Start;
use crate::syntax::Syntax;
use crate::test::Test;
use sql_tokens::kind::Kind;
use sql_tokens::token::{Token, number_of};
use std::alloc::{AllocError, Global};

/// The greatest number of levels that conditions may nest.
const LEVELS: u8 = 32;

/// For how many parts that are still to be read there is room at first: more than most lines want.
const ROOM: usize = 32;

/// What the tokens are.
#[derive(Clone, Copy)]
pub enum Verdict {
    /// They are spelt by the grammar.
    Fits,
    /// The token at this place, or the end, is the first with which nothing spelt goes on.
    At(usize),
    /// The first such token goes on only more than 32 levels deep.
    Deep,
}

/// What a step did.
#[derive(Clone, Copy)]
pub enum Move {
    /// no token was taken
    On,
    /// the next token was taken
    Took,
    /// the next token doesn't go on
    Wrong,
    /// the next token goes on too deep
    Deep,
    /// all parts and all tokens were read
    Ended,
}

/// A part of a grammar that is still to be read, on its level.
#[derive(Clone, Copy)]
pub struct Entry {
    level: u8,
    part: &'static Syntax<'static>,
}

ghost use Rattle.sql_grammar.specs.Grammar.{Parts, Over, Part};
ghost use Rattle.sql_grammar.specs.Machine.{view, parts_of, is_next, at_end, step_of, Settles};
ghost use Rattle.sql_grammar.specs.Sql.{rule, grammar_of, known};
ghost use Rattle.sql_grammar.specs.Verdict.{kinds_of, Judged};
ghost use Rattle.sql_tokens.specs.declared.kind.Kind.{Kind as OneKind};
ghost use Rattle.sql_grammar.specs.Grammar.{Grammar as OneGrammar};
ghost use Rattle.sql_grammar.specs.Decided.{is_decided};
ghost use Rattle.sql_grammar.specs.declared.engine.Verdict.{Verdict as OneVerdict};

fn put(stack: &mut Vec<Entry>, level: u8, part: &'static Syntax<'static>) -> Result<(), AllocError>
    ensures { OnOk result (parts_of stack.new.items ≡ Part level (view part.now) (parts_of stack.old.items)) }
{
    stack.push(Entry { level, part })?;
    Ok(())
}

// The uppermost part: the one held beside the stack, or else the stack's last.
fn next_part(stack: &mut Vec<Entry>, top: Option<Entry>) -> Option<Entry>
    ensures none { IfNone result ((parts_of (stack.old.items ++ option_to_list top) ≡ Over)
        × (parts_of stack.new.items ≡ Over)) }
    ensures some { IfSome result (λ e. parts_of (stack.old.items ++ option_to_list top)
        ≡ Part e.level (view e.part.now) (parts_of stack.new.items)) }
{
    match top {
        Some(entry) => Some(entry),
        None => stack.pop(),
    }
}

// A part as the one that is held beside the stack.
fn held(stack: &[Entry], level: u8, part: &'static Syntax<'static>) -> Option<Entry>
    ensures { parts_of (stack.now ++ option_to_list result) ≡ Part level (view part.now) (parts_of stack.now) }
{
    let _stack = stack;
    Some(Entry { level, part })
}

fn would_pass(test: Test, next: Option<Kind>) -> bool
    ensures { result ≡ is_next test next }
{
    match next {
        None => false,
        Some(kind) => test.lets_pass(kind),
    }
}

fn ended(next: Option<Kind>) -> Move
    ensures { result ≡ at_end next }
{
    match next {
        None => Move::Ended,
        Some(_) => Move::Wrong,
    }
}

// A step on the parts of the stack and of the part that is held beside it, and what is then held.
fn step(
    stack: &mut Vec<Entry>,
    top: Option<Entry>,
    next: Option<Kind>,
) -> Result<(Move, Option<Entry>), AllocError>
    ensures { IfOk result (λ r. step_of rule next (parts_of (stack.old.items ++ option_to_list top))
        ≡ (r.0, parts_of (stack.new.items ++ option_to_list r.1))) }
{
    let Some(top) = next_part(stack, top) else {
        return Ok((ended(next), None));
    };
    let level = top.level;
    match top.part {
        Syntax::Empty => Ok((Move::On, None)),
        Syntax::Token(t) => {
            if would_pass(*t, next) {
                return Ok((Move::Took, None));
            }
            Ok((Move::Wrong, None))
        }
        Syntax::Then(a, b) => {
            put(stack, level, b)?;
            Ok((Move::On, held(stack, level, a)))
        }
        Syntax::Either(t, a, b) => {
            if would_pass(*t, next) {
                return Ok((Move::Took, held(stack, level, a)));
            }
            Ok((Move::On, held(stack, level, b)))
        }
        Syntax::Many(t, a) => {
            if would_pass(*t, next) {
                put(stack, level, top.part)?;
                return Ok((Move::Took, held(stack, level, a)));
            }
            Ok((Move::On, None))
        }
        Syntax::Deeper(t, a, c, b) => {
            if would_pass(*t, next) {
                if level < LEVELS {
                    put(stack, level, c)?;
                    return Ok((Move::Took, held(stack, level + 1, a)));
                }
                return Ok((Move::Deep, None));
            }
            Ok((Move::On, held(stack, level, b)))
        }
        Syntax::Named(m) => Ok((Move::On, held(stack, level, body(*m)))),
    }
}

fn settle(
    stack: &mut Vec<Entry>,
    top: Option<Entry>,
    next: Option<Kind>,
) -> Result<(Move, Option<Entry>), AllocError>
    ensures settles { IfOk result (λ r. Settles rule next (parts_of (stack.old.items ++ option_to_list top))
        (r.0, parts_of (stack.new.items ++ option_to_list r.1))) }
    ensures over { IfOk result (λ r. r.0 ≢ Move.On) }
{
    let mut held = top;
    loop {
        let (done, left) = step(stack, held, next)?;
        match done {
            Move::On => held = left,
            Move::Took => return Ok((Move::Took, left)),
            Move::Wrong => return Ok((Move::Wrong, left)),
            Move::Deep => return Ok((Move::Deep, left)),
            Move::Ended => return Ok((Move::Ended, left)),
        }
    }
}

fn token_at(tokens: &[Token], i: usize) -> Option<Kind>
    ensures { result ≡ slice_get (kinds_of tokens.now) i }
{
    match tokens.get(i) {
        None => None,
        Some(token) => Some(token.kind),
    }
}

/// Reads the tokens by a grammar that its next token decides: whether they are spelt by it, or else where not. Only
/// want of memory is an error.
pub fn recognize_by(
    alloc: Global,
    grammar: &'static Syntax<'static>,
    tokens: &[Token],
) -> Result<Verdict, AllocError>
    requires { is_decided known (view grammar.now) ≡ true }
    ensures { IfOk result (λ v. Judged (view grammar.now) (kinds_of tokens.now) v) }
{
    let mut stack = Vec::with_capacity(alloc, ROOM)?;
    let mut top = Some(Entry {
        level: 0,
        part: grammar,
    });
    let mut i = 0;
    loop {
        let next = token_at(tokens, i);
        let (done, left) = settle(&mut stack, top, next)?;
        match done {
            Move::Took => {
                top = left;
                i += 1;
            }
            Move::Deep => return Ok(Verdict::Deep),
            Move::Ended => return Ok(Verdict::Fits),
            Move::Wrong => return Ok(Verdict::At(i)),
            Move::On => return Ok(Verdict::At(i)),
        }
    }
}

/// Reads the tokens as this: whether they are spelt so, or else where not. Only want of memory is an error.
#[tactic(auto, using(crate::proofs::Passes::start_decided))]
pub fn recognize(alloc: Global, start: Start, tokens: &[Token]) -> Result<Verdict, AllocError>
    ensures { IfOk result (λ v. Judged (grammar_of start) (kinds_of tokens.now) v) }
{
    recognize_by(alloc, whole(start), tokens)
}

/// Just one verdict is right.
pub fn one_verdict()
    ensures { (s : OneGrammar) (ks : List OneKind) (v w : OneVerdict) → Judged s ks v → Judged s ks w → v ≡ w }
{}
