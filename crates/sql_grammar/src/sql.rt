//! The rules of the grammar, and what a whole text may be.
ghost use Rattle.std.specs.Prelude.{◌≡◌};
ghost use Rattle.sql_grammar.specs.Machine.{view};
ghost use Rattle.sql_grammar.specs.Sql as sql;

use crate::groups::{AGING_RULE, CREATE_RULE, GROUP_RULE};
use crate::loading::CHOSEN_RULE;
use crate::queries::{
    AFTER_RULE, AGGS_REST_RULE, COND_RULE, EXPR_RULE, EXPRS_REST_RULE, IDENTS_RULE, LITERAL_RULE,
    MIXED_REST_RULE, NAMED_RULE, PRED_RULE, SELECT_RULE,
};
use crate::rule::Rule;
use crate::start::Start;
use crate::statements::{
    ALONE_START, CALLED_RULE, CLOCK_START, CONSOLE_START, SESSION_START, STATEMENT_RULE,
};
use crate::syntax::Syntax;
use crate::tables::{CACHED_COLUMNS_RULE, CACHED_TABLE_RULE, COLUMNS_RULE};
use crate::writes::{DELETE_RULE, INSERT_RULE, UPDATE_RULE, WRITES_RULE};

/// What the rule says.
pub fn body(rule: Rule) -> &'static Syntax<'static>
    ensures { view result.now ≡ sql.rule rule }
{
    match rule {
        Rule::Named => &NAMED_RULE,
        Rule::Idents => &IDENTS_RULE,
        Rule::Literal => &LITERAL_RULE,
        Rule::Expr => &EXPR_RULE,
        Rule::Pred => &PRED_RULE,
        Rule::Cond => &COND_RULE,
        Rule::After => &AFTER_RULE,
        Rule::Exprs => &EXPRS_REST_RULE,
        Rule::Aggs => &AGGS_REST_RULE,
        Rule::Mixed => &MIXED_REST_RULE,
        Rule::Select => &SELECT_RULE,
        Rule::Insert => &INSERT_RULE,
        Rule::Update => &UPDATE_RULE,
        Rule::Delete => &DELETE_RULE,
        Rule::Writes => &WRITES_RULE,
        Rule::Columns => &COLUMNS_RULE,
        Rule::CachedColumns => &CACHED_COLUMNS_RULE,
        Rule::CachedTable => &CACHED_TABLE_RULE,
        Rule::Aging => &AGING_RULE,
        Rule::Group => &GROUP_RULE,
        Rule::Create => &CREATE_RULE,
        Rule::Chosen => &CHOSEN_RULE,
        Rule::Called => &CALLED_RULE,
        Rule::Statement => &STATEMENT_RULE,
    }
}

/// What a whole text may be.
pub fn whole(start: Start) -> &'static Syntax<'static>
    ensures { view result.now ≡ sql.grammar_of start }
{
    match start {
        Start::Statement => &ALONE_START,
        Start::Session => &SESSION_START,
        Start::Console => &CONSOLE_START,
        Start::Clock => &CLOCK_START,
    }
}
