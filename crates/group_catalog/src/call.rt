//! What a CALL asks for.

ghost use Rattle.std.specs.Prelude.{◌≡◌, ◌++◌, ◌∷◌, IfOk, Some, option_copied, vec_items};
ghost use Rattle.std.specs.Char.{is_ascii_digit};
ghost use Rattle.std.specs.List.{list_all};
ghost use Rattle.std.specs.Option.{option_map};
ghost use Rattle.cache_tier.specs.declared.called.Called.{Called as OneCall};
ghost use Rattle.cache_tier.specs.Called.{are_held, called, called_drain, called_flag, called_refresh, is_integer, level_called, level_in, refreshed_group, spelt_group, text_in, unknown_flag, with_flag, with_owner};
ghost use Rattle.cache_tier.specs.Groups.{group_at, is_on, is_read_only, place_called};
ghost use Rattle.row_types.specs.declared.value.Value.TheVariants.{Number as NumberOf};
ghost use Rattle.resolution.specs.Results.{Gives, IsRefusal};
ghost use Rattle.group_catalog.specs.Arguments.{folds_to_flag, is_flag, out_of_levels};
ghost use Rattle.group_catalog.specs.Catalogs.{groups_in};
ghost use Rattle.group_catalog.specs.Kept.{group_seen};

use crate::catalog::Catalog;
use crate::kept::KeptGroup;
use crate::refusing::{about, no_type, plain};
use cache_tier::called::Called;
use numbers::Number;
use row_types::{Detail, Refused, Rule, Text, Value};
use sql_query::Literal;
use sql_subset::stmt::{Call, GroupKind, RefreshState};
use std::alloc::{AllocError, Global};
use tier_base::{Code, Name, NameError};

/// What a CALL asks for, beside the groups that there are.
///
/// The refusal is the first broken rule. `ttDrain`: 104 where it has arguments. `ttCacheAutorefresh`: 104 where its
/// arguments aren't a group, an owner and a group, or these and an integer; 112 where there is no such group; 115
/// where it isn't READONLY with STATE ON; 105 of an integer that no type holds. `ttOptSetFlag`: 104 where its
/// arguments aren't a text and one more; 103 of another flag than PassThrough; 104 where the level is no integer; 105
/// where no type holds it, or it isn't from 0 to 3. Another procedure: 103. Or memory was wanting. (TimesTen Cache
/// User's Guide, "ttCacheAutorefresh"; TimesTen built-in procedures, "ttOptSetFlag"; ttDrain, the codes and their
/// order are this project's.)
pub fn resolve_call(alloc: Global, catalog: &Catalog, call: &Call) -> Result<Called, Refused>
    ensures { Gives (λ (c : OneCall). c) (called (groups_in catalog.now) call.now.procedure call.now.arguments) result }
{
    let procedure = call.procedure.as_bytes();
    let arguments = call.arguments.as_slice();
    if procedure == b"TTDRAIN".as_slice() {
        return called_drain(arguments);
    }
    if procedure == b"TTCACHEAUTOREFRESH".as_slice() {
        return called_refresh(alloc, catalog, arguments);
    }
    if procedure == b"TTOPTSETFLAG".as_slice() {
        return called_flag(alloc, arguments);
    }
    Err(about(alloc, Code::UnknownColumn, &call.procedure))
}

fn called_drain(arguments: &[Literal]) -> Result<Called, Refused>
    ensures { Gives (λ (c : OneCall). c) (called_drain arguments.now) result }
{
    match arguments.split_first() {
        None => Ok(Called::Drain),
        Some(_) => Err(Refused::Rule(plain(Code::TypeMismatch))),
    }
}

fn called_refresh(
    alloc: Global,
    catalog: &Catalog,
    arguments: &[Literal],
) -> Result<Called, Refused>
    ensures { Gives (λ (c : OneCall). c)
        (called_refresh (groups_in catalog.now) arguments.now (spelt_group arguments.now)) result }
{
    match spelt_group(alloc, arguments)? {
        None => Err(Refused::Rule(plain(Code::TypeMismatch))),
        Some(text) => called_text(alloc, catalog, arguments, text.as_slice()),
    }
}

// The group of this name, which is one or not.
fn called_text(
    alloc: Global,
    catalog: &Catalog,
    arguments: &[Literal],
    text: &[u8],
) -> Result<Called, Refused>
    ensures { Gives (λ (c : OneCall). c) (called_refresh (groups_in catalog.now) arguments.now (Some text.now)) result }
{
    match Name::new(alloc, text) {
        Ok(name) => called_group(alloc, catalog, arguments, &name),
        Err(NameError::Memory) => Err(Refused::Memory),
        Err(NameError::Bad) => Err(Refused::Rule(Rule {
            code: Code::UnknownGroup,
            detail: Detail::NoType,
        })),
    }
}

fn called_group(
    alloc: Global,
    catalog: &Catalog,
    arguments: &[Literal],
    name: &Name,
) -> Result<Called, Refused>
    ensures { Gives (λ (c : OneCall). c)
        (refreshed_group name.now arguments.now
        (group_at (groups_in catalog.now) (place_called (groups_in catalog.now) name.now))) result }
{
    match catalog.named(name) {
        None => Err(about(alloc, Code::UnknownGroup, name)),
        Some(group) => refreshed(alloc, group, arguments, name),
    }
}

fn refreshed(
    alloc: Global,
    group: &KeptGroup,
    arguments: &[Literal],
    name: &Name,
) -> Result<Called, Refused>
    ensures { Gives (λ (c : OneCall). c) (refreshed_group name.now arguments.now (Some (group_seen group.now))) result }
{
    if !is_read_only(group) {
        return Err(about(alloc, Code::WrongState, name));
    }
    if !is_on(group.state) {
        return Err(about(alloc, Code::WrongState, name));
    }
    if !are_held(alloc, arguments)? {
        return Err(Refused::Rule(no_type()));
    }
    Ok(Called::RefreshSet(group.def.interval))
}

fn is_read_only(group: &KeptGroup) -> bool
    ensures { result ≡ is_read_only (group_seen group.now) }
{
    match group.def.kind {
        GroupKind::ReadOnly => true,
        _ => false,
    }
}

fn is_on(state: RefreshState) -> bool
    ensures { result ≡ is_on state }
{
    match state {
        RefreshState::On => true,
        RefreshState::Off => false,
        RefreshState::Paused => false,
    }
}

// Whether some type holds each of the literals.
fn are_held(alloc: Global, literals: &[Literal]) -> Result<bool, AllocError>
    ensures { IfOk result (λ held. held ≡ are_held literals.now) }
{
    for literal in literals {
        if literal.value(alloc)?.is_none() {
            return Ok(false);
        }
    }
    Ok(true)
}

// The name of the group: a name, an owner and a name, or these and an integer.
fn spelt_group(alloc: Global, arguments: &[Literal]) -> Result<Option<Vec<u8>>, AllocError>
    ensures { IfOk result (λ text. option_map vec_items text ≡ spelt_group arguments.now) }
{
    match arguments.split_first() {
        None => Ok(None),
        Some((first, more)) => match text_in(first) {
            None => Ok(None),
            Some(text) => with_owner(alloc, text, more),
        },
    }
}

fn with_owner(alloc: Global, name: &Text, more: &[Literal]) -> Result<Option<Vec<u8>>, AllocError>
    ensures { IfOk result (λ text. option_map vec_items text ≡ with_owner name.now more.now) }
{
    match more.split_first() {
        None => {
            let text = Vec::from_slice(alloc, name.as_bytes())?;
            Ok(Some(text))
        }
        Some((second, more)) => match text_in(second) {
            None => Ok(None),
            Some(text) => with_flag(alloc, name, text, more),
        },
    }
}

fn with_flag(
    alloc: Global,
    owner: &Text,
    name: &Text,
    more: &[Literal],
) -> Result<Option<Vec<u8>>, AllocError>
    ensures { IfOk result (λ text. option_map vec_items text ≡ with_flag (owner.now ++ 46 ∷ name.now) more.now) }
{
    if !is_flag(more) {
        return Ok(None);
    }
    let mut text = Vec::from_slice(alloc, owner.as_bytes())?;
    text.push(b'.')?;
    text.extend_from_slice(name.as_bytes())?;
    Ok(Some(text))
}

// Nothing, or an integer.
fn is_flag(more: &[Literal]) -> bool
    ensures { result ≡ is_flag more.now }
{
    match more.split_first() {
        None => true,
        Some((flag, more)) => is_integer(flag) && more.is_empty(),
    }
}

// The text of an argument; '' is NULL.
fn text_in(literal: &Literal) -> Option<&Text>
    ensures { option_copied result ≡ text_in literal.now }
{
    match literal {
        Literal::Text(text) => match text.as_bytes().split_first() {
            None => None,
            Some(_) => Some(text),
        },
        _ => None,
    }
}

fn is_integer(literal: &Literal) -> bool
    ensures { result ≡ is_integer literal.now }
{
    match literal {
        Literal::Number(number) => are_digits(number.digits.as_bytes()),
        _ => false,
    }
}

fn are_digits(bytes: &[u8]) -> bool
    ensures { result ≡ list_all is_ascii_digit bytes.now }
{
    bytes.iter().all(|byte| byte.is_ascii_digit())
}

fn called_flag(alloc: Global, arguments: &[Literal]) -> Result<Called, Refused>
    ensures { Gives (λ (c : OneCall). c) (called_flag arguments.now) result }
{
    match arguments {
        [flag, level] => match text_in(flag) {
            None => Err(Refused::Rule(plain(Code::TypeMismatch))),
            Some(text) => level_called(alloc, level, text),
        },
        _ => Err(Refused::Rule(plain(Code::TypeMismatch))),
    }
}

fn level_called(alloc: Global, level: &Literal, text: &Text) -> Result<Called, Refused>
    ensures { Gives (λ (c : OneCall). c) (level_called level.now (Some text.now)) result }
{
    if !folds_to_flag(alloc, text)? {
        return Err(unknown_flag(alloc, text));
    }
    if !is_integer(level) {
        return Err(Refused::Rule(plain(Code::TypeMismatch)));
    }
    let value = level.value(alloc)?;
    level_in(alloc, &value)
}

// Whether it is PassThrough, in any case.
fn folds_to_flag(alloc: Global, text: &Text) -> Result<bool, AllocError>
    ensures { IfOk result (λ is. is ≡ folds_to_flag text.now) }
{
    let folded: Vec<u8> = text
        .as_bytes()
        .iter()
        .map(|byte| byte.to_ascii_uppercase())
        .collect(alloc)?;
    Ok(folded.as_slice() == b"PASSTHROUGH".as_slice())
}

// 103 of the flag, by its name where it spells one.
fn unknown_flag(alloc: Global, text: &Text) -> Refused
    ensures { IsRefusal (unknown_flag text.now) result }
{
    match Name::new(alloc, text.as_bytes()) {
        Ok(name) => Refused::Rule(Rule {
            code: Code::UnknownColumn,
            detail: Detail::Name(name),
        }),
        Err(NameError::Memory) => Refused::Memory,
        Err(NameError::Bad) => Refused::Rule(Rule {
            code: Code::UnknownColumn,
            detail: Detail::NoType,
        }),
    }
}

fn level_in(alloc: Global, value: &Option<Value>) -> Result<Called, Refused>
    ensures { Gives (λ (c : OneCall). c) (level_in value.now) result }
{
    match value {
        None => Err(Refused::Rule(no_type())),
        Some(value) => match value {
            Value::Number(number) => level_of(alloc, *number),
            _ => Err(Refused::Rule(plain(Code::TypeMismatch))),
        },
    }
}

fn level_of(alloc: Global, number: Number) -> Result<Called, Refused>
    ensures { Gives (λ (c : OneCall). c) (level_in (Some (NumberOf number))) result }
{
    if number.scale() != 0 {
        return Err(Refused::Rule(plain(Code::TypeMismatch)));
    }
    let units = number.units();
    if units < 0 || units > 3 {
        return Err(out_of_levels(alloc));
    }
    Ok(Called::SetLevel(units.unsigned_abs() as u8))
}

// 105 PASSTHROUGH.
fn out_of_levels(alloc: Global) -> Refused
    ensures { IsRefusal out_of_levels result }
{
    match Name::new(alloc, b"PASSTHROUGH") {
        Ok(name) => Refused::Rule(Rule {
            code: Code::OutOfRange,
            detail: Detail::Name(name),
        }),
        Err(_) => Refused::Memory,
    }
}
