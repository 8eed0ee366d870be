//! The columns that an INSERT or a SET names, and the row of expressions that they make.

ghost use Rattle.std.specs.Prelude.{◌≡◌, [], IfOk, Ok, drop, find, map, option_copied, slice_set};
ghost use Rattle.evaluator.specs.table_defs.specs.Names.{same_name};
ghost use Rattle.evaluator.specs.expressions.specs.Types.{agrees, family_of};
ghost use Rattle.resolution.specs.Assignments.{arranged, column_named, family_at, is_place, key_column_of, put_first, suit_columns, target_of, targets_behind};
ghost use Rattle.resolution.specs.Placing.{expression_seen, expressions_seen};
ghost use Rattle.resolution.specs.Results.{Gives};
ghost use Rattle.resolution.specs.Writes.{all_places, insert_targets};

use crate::refusing::about;
use evaluator::expressions::{Expr, Family, family_of, family_of_type, suits};
use evaluator::row_types::{Column, Refused};
use evaluator::table_defs::TableDef;
use evaluator::tier_base::{Code, Name, Seq};
use std::alloc::{AllocError, Global};

/// The place of the column of this name, which isn't among those before.
///
/// The refusal is 103 where there is no such column, or it is among those before; or memory was wanting.
#[tactic(auto, unfolding(crate::specs::Assignments::target_of))]
pub(crate) fn target_of(
    alloc: Global,
    columns: &[Column],
    before: &[usize],
    name: &Name,
) -> Result<usize, Refused>
    ensures { Gives (λ place. place) (target_of columns.now before.now name.now) result }
{
    match column_named(columns, name) {
        None => Err(about(alloc, Code::UnknownColumn, name)),
        Some(place) => {
            if is_place(before, place) {
                Err(about(alloc, Code::UnknownColumn, name))
            } else {
                Ok(place)
            }
        }
    }
}

fn column_named(columns: &[Column], name: &Name) -> Option<usize>
    ensures { result ≡ column_named columns.now name.now }
{
    columns
        .iter()
        .position(|column| is_same_name(&column.name, name))
}

fn is_same_name(a: &Name, b: &Name) -> bool
    ensures { result ≡ same_name a.now b.now }
{
    a.as_bytes() == b.as_bytes()
}

fn is_place(places: &[usize], place: usize) -> bool
    ensures { result ≡ is_place places.now place }
{
    places.iter().any(|other| *other == place)
}

/// The columns that get the values of an INSERT: those of its list, or all.
///
/// The refusal is 103 of the first name in the list that is no column's, or that stands there a second time; or memory
/// was wanting.
pub(crate) fn insert_targets(
    alloc: Global,
    columns: &[Column],
    names: &Option<Seq<Name>>,
) -> Result<Vec<usize>, Refused>
    ensures { Gives (λ targets. targets.items) (insert_targets columns.now names.now) result }
{
    match names {
        None => Ok(all_places(alloc, columns)?),
        Some(names) => targets_of(alloc, columns, names.as_slice()),
    }
}

fn targets_of(alloc: Global, columns: &[Column], names: &[Name]) -> Result<Vec<usize>, Refused>
    ensures { Gives (λ targets. targets.items) (targets_behind columns.now [] names.now) result }
{
    let mut targets = Vec::with_capacity(alloc, names.len())?;
    for name in names {
        let place = target_of(alloc, columns, targets.as_slice(), name)?;
        targets.push(place).map_err(AllocError::from)?;
    }
    Ok(targets)
}

/// The places of all columns.
pub(crate) fn all_places(alloc: Global, columns: &[Column]) -> Result<Vec<usize>, AllocError>
    ensures { IfOk result (λ places. places.items ≡ all_places 0 columns.now) }
{
    let mut places = Vec::with_capacity(alloc, columns.len())?;
    for (place, _) in columns.iter().enumerate() {
        places.push(place)?;
    }
    Ok(places)
}

/// The row with each value at its column's place.
#[tactic(auto, using(crate::proofs::ArrangingLaws::arranged_seen, crate::proofs::ArrangingLaws::drop_more))]
pub(crate) fn arranged(row: Vec<Expr>, targets: &[usize], values: Vec<Expr>) -> Vec<Expr>
    ensures { expressions_seen result.items ≡ arranged (expressions_seen row.items) targets.now
        (expressions_seen values.items) }
{
    let mut row = row;
    let mut left = targets;
    for value in values {
        left = put_next(&mut row, left, value);
    }
    row
}

// Puts the value at the first of these places, where there is one, and answers the others.
#[tactic(auto, using(crate::proofs::ArrangingLaws::seen_set))]
fn put_next<'t>(row: &mut Vec<Expr>, targets: &'t [usize], value: Expr) -> &'t [usize]
    ensures row { expressions_seen row.new.items
        ≡ put_first (expressions_seen row.old.items) targets.now (expression_seen value) }
    ensures left { result.now ≡ drop 1 targets.now }
{
    match targets.split_first() {
        None => &[],
        Some((place, behind)) => {
            put(row, *place, value);
            behind
        }
    }
}

fn put(row: &mut Vec<Expr>, place: usize, value: Expr)
    ensures { row.new.items ≡ slice_set row.old.items place value }
{
    if let Some(slot) = row.get_mut(place) {
        *slot = value;
    }
}

/// Whether there are as many values as columns, and each is of the family of its column, or NULL.
pub(crate) fn suit_columns(
    columns: &[Column],
    targets: &[usize],
    values: &[Expr],
    families: &[Family],
) -> bool
    ensures { result ≡ suit_columns columns.now targets.now (map (λ e. family_of e families.now) values.now) }
{
    if targets.len() != values.len() {
        return false;
    }
    for (place, value) in targets.iter().zip(values) {
        if !suits_column(columns, *place, value, families) {
            return false;
        }
    }
    true
}

fn suits_column(columns: &[Column], place: usize, value: &Expr, families: &[Family]) -> bool
    ensures { result ≡ agrees (Ok (family_at columns.now place)) (family_of value.now families.now) }
{
    match family_of(value, families) {
        Err(_) => false,
        Ok(family) => suits(family_at(columns, place), family),
    }
}

fn family_at(columns: &[Column], place: usize) -> Option<Family>
    ensures { result ≡ family_at columns.now place }
{
    match columns.get(place) {
        None => None,
        Some(column) => Some(family_of_type(column.ty)),
    }
}

/// The name of the first of these columns that is of the primary key.
pub(crate) fn key_column_of<'a>(def: &'a TableDef, targets: &[usize]) -> Option<&'a Name>
    ensures { option_copied result ≡ key_column_of def.now targets.now }
{
    match key_target(def.primary_key.as_slice(), targets) {
        None => None,
        Some(place) => match def.columns.get(place) {
            None => None,
            Some(column) => Some(&column.name),
        },
    }
}

fn key_target(keys: &[usize], targets: &[usize]) -> Option<usize>
    ensures { result ≡ find (is_place keys.now) targets.now }
{
    targets.iter().copied().find(|place| is_place(keys, *place))
}
