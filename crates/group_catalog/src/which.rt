//! The conditions of LOAD, REFRESH and UNLOAD.

ghost use Rattle.std.specs.Prelude.{◌≡◌, ◌&&◌, ◌||◌, IfOk, IfSome, List, is_none, option_copied, vec_items};
ghost use Rattle.std.specs.Option.{option_map};
ghost use Rattle.row_types.specs.declared.value.Value.{Value as OneValue};
ghost use Rattle.table_defs.specs.Declarations.{Tells};
ghost use Rattle.evaluator.specs.Writes.{selects};
ghost use Rattle.instances.specs.Views.{is_true};
ghost use Rattle.cache_tier.specs.Conditions.{StandsForFilter, is_id, same_value, suits_id, take_all, takes, unheld_in_id, which_names, which_types};
ghost use Rattle.cache_tier.specs.Rules.{rule_in};
ghost use Rattle.group_catalog.specs.Identified.{are_equal, is_given, judged_which, takes_at, values_of};

use crate::refusing::{no_type, plain};
use evaluator::looking::selects;
use expressions::{Cond, family_of_type, suits};
use resolution::{family_of_literal, resolve_filter};
use row_types::{Column, Key, Refused, Row, Rule, Truth, Value, compare};
use sql_query::Literal;
use sql_subset::stmt::Which;
use std::alloc::{AllocError, Global};
use table_defs::TableDef;
use tier_base::{Code, Seq};

/// Which instances of a group: both must hold.
pub struct ResolvedWhich {
    /// the condition over the root table's columns; all rows where there is none
    pub filter: Option<Cond>,
    /// the values of WITH ID, in the order of the root's key; all keys where there are none
    pub id: Option<Key>,
}

impl Drop for ResolvedWhich {
    fn drop(self) {
        let Self { filter: _, id: _ } = self;
    }
}

impl ResolvedWhich {
    /// Whether the condition selects a root row; none where it is 120 on it. It takes no memory.
    pub fn selects(&self, row: &Row) -> Option<Truth>
        ensures { result ≡ selects self.now.filter row.now }
    {
        selects(self.filter.as_ref(), row)
    }

    /// Whether the key is the one of WITH ID. It takes no memory.
    pub fn is_given(&self, key: &Key) -> bool
        ensures { result ≡ is_given key.now self.now.id }
    {
        match &self.id {
            None => true,
            Some(id) => are_equal(key.values(), id.values()),
        }
    }

    /// Whether a root row with its key matches: the condition is true of it, and the key is the one of WITH ID. It
    /// takes no memory.
    pub fn matches(&self, row: &Row, key: &Key) -> bool
        ensures { result ≡ (is_true (selects self.now.filter row.now) && is_given key.now self.now.id) }
    {
        match self.selects(row) {
            Some(Truth::True) => self.is_given(key),
            _ => false,
        }
    }
}

/// What WHERE and WITH ID stand for, over the definition of the group's root table.
///
/// The refusal is 103 of the first name, in the order of the text, that is no column of it; or memory was wanting.
/// What is judged then is told apart, since what the group refuses by its kind and state comes between: 104 where
/// types don't suit, or WITH ID has another number or kind of values than the primary key; 105 where no type holds
/// some literal. NULL, and a number that the column can't hold, are no key's. (TimesTen SQL Reference, "LOAD CACHE
/// GROUP": WHERE and WITH ID; codes and their order are this project's rule.)
pub fn resolve_which(
    alloc: Global,
    def: &TableDef,
    which: &Which,
) -> Result<Result<ResolvedWhich, Rule>, Refused>
    ensures names { Tells result (which_names (Some def.now) which.now) }
    ensures types { IfOk result (λ judged. rule_in judged ≡ which_types (Some def.now) which.now) }
    ensures filter { IfOk result (λ judged. IfOk judged (λ r. StandsForFilter (Some def.now) which.now r.filter)) }
    ensures id { IfOk result (λ judged. IfOk judged (λ r. (key : List OneValue) → is_given key r.id
        ≡ is_id key which.now.id)) }
{
    let filter = resolve_filter(alloc, &def.name, def.columns.as_slice(), &which.filter)?;
    let sound = filter.sound && suits_id(def, &which.id);
    let unheld = filter.unheld;
    let id = id_values(alloc, &which.id)?;
    Ok(judged(sound, unheld, filter.into_cond(), id))
}

// 104, then 105.
fn judged(
    sound: bool,
    unheld: bool,
    filter: Option<Cond>,
    id: Option<Option<Key>>,
) -> Result<ResolvedWhich, Rule>
    ensures types { rule_in result ≡ judged_which sound (unheld || is_none id) }
    ensures kept { IfOk result (λ r. (r.filter ≡ filter) × (id ≡ Some r.id)) }
{
    if !sound {
        return Err(plain(Code::TypeMismatch));
    }
    if unheld {
        return Err(no_type());
    }
    match id {
        None => Err(no_type()),
        Some(id) => Ok(ResolvedWhich { filter, id }),
    }
}

// The values of WITH ID; none where no type holds one of its literals.
fn id_values(alloc: Global, id: &Option<Seq<Literal>>) -> Result<Option<Option<Key>>, AllocError>
    ensures unheld { IfOk result (λ values. is_none values ≡ unheld_in_id id.now) }
    ensures id { IfOk result (λ values. IfSome values (λ given. (key : List OneValue) → is_given key given
        ≡ is_id key id.now)) }
{
    match id {
        None => Ok(Some(None)),
        Some(literals) => match literal_values(alloc, literals.as_slice())? {
            None => Ok(None),
            Some(values) => Ok(Some(Some(Key::from_vec(values)))),
        },
    }
}

// The values of literals, in their order; none where no type holds one of them.
fn literal_values(alloc: Global, literals: &[Literal]) -> Result<Option<Vec<Value>>, AllocError>
    ensures { IfOk result (λ values. option_map vec_items values ≡ values_of literals.now) }
{
    let mut values = Vec::with_capacity(alloc, literals.len())?;
    for literal in literals {
        match literal.value(alloc)? {
            None => return Ok(None),
            Some(value) => values.push(value)?,
        }
    }
    Ok(Some(values))
}

// Whether there are as many literals as columns of the primary key, each of a kind that its column takes.
fn suits_id(def: &TableDef, id: &Option<Seq<Literal>>) -> bool
    ensures { result ≡ suits_id (Some def.now) id.now }
{
    match id {
        None => true,
        Some(literals) => take_all(
            def.columns.as_slice(),
            def.primary_key.as_slice(),
            literals.as_slice(),
        ),
    }
}

fn take_all(columns: &[Column], places: &[usize], literals: &[Literal]) -> bool
    ensures { result ≡ take_all columns.now places.now literals.now }
{
    match (places.split_first(), literals.split_first()) {
        (None, None) => true,
        (Some((place, places)), Some((literal, literals))) => {
            takes(columns.get(*place), literal) && take_all(columns, places, literals)
        }
        _ => false,
    }
}

fn takes(column: Option<&Column>, literal: &Literal) -> bool
    ensures { result ≡ takes_at (option_copied column.entry) literal.now }
{
    match column {
        None => true,
        Some(column) => suits(Some(family_of_type(column.ty)), family_of_literal(literal)),
    }
}

// As many values, each equal to the other one.
fn are_equal(key: &[Value], values: &[Value]) -> bool
    ensures { result ≡ are_equal key.now values.now }
{
    match (key.split_first(), values.split_first()) {
        (None, None) => true,
        (Some((a, key)), Some((b, values))) => is_equal(a, b) && are_equal(key, values),
        _ => false,
    }
}

fn is_equal(a: &Value, b: &Value) -> bool
    ensures { result ≡ same_value a.now (Some b.now) }
{
    match compare(a, b) {
        Truth::True => true,
        Truth::False => false,
        Truth::Unknown => false,
    }
}
