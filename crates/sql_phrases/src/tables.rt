//! Tables, read off the tokens of a line.
ghost use Rattle.std.specs.Prelude.{◌≡◌, ◌++◌, ◌∷◌, IfOk};
ghost use Rattle.sql_grammar.specs.sql_tokens.specs.declared.kind.Kind.TheVariants.{Comma};
ghost use Rattle.sql_phrases.specs.Reading.{begins};

use crate::reader::Reader;
use crate::reading::{read_identifier, read_identifiers, read_name};
use sql_grammar::sql_tokens::kind::Kind;
use sql_query::row_types::{
    ColumnDeclaration, ForeignKeyDeclaration, TableDeclaration, Text, TypeDeclaration,
};
use sql_query::tier_base::{Name, Seq};
use std::alloc::AllocError;

/// What may be done to a table of a user-managed cache group. (TimesTen SQL Reference, "CREATE CACHE GROUP".)
#[derive(Clone, Copy, Debug, PartialEq, Eq)]
pub enum TableAttribute {
    /// READONLY: the cache doesn't write it.
    ReadOnly,
    /// PROPAGATE: what the cache writes goes to the backing database at each commit.
    Propagate,
    /// NOT PROPAGATE: what the cache writes stays there until it is flushed.
    NotPropagate,
}

/// A table as a statement declares it, and what may be done to it, where that is written.
#[derive(Drop)]
pub struct CacheTable {
    /// the table
    pub table: TableDeclaration,
    /// its attribute
    pub attribute: Option<TableAttribute>,
}

/// What stands between the commas of a table.
#[derive(Drop)]
pub enum Element {
    /// a column
    Column(ColumnDeclaration),
    /// the columns of a PRIMARY KEY clause
    Key(Seq<Name>),
    /// a FOREIGN KEY clause
    ForeignKey(ForeignKeyDeclaration),
    /// an attribute
    Attribute(TableAttribute),
}

ghost use Rattle.sql_phrases.specs.Tables.{closes, column_of, element_of, elements_of, foreign_key_of, foreign_referred, number_type, past_two, past_word, table_of, text_type, time_type, type_of, with_element};

/// Passes a word where it is this one.
pub fn past_word(r: Reader<'_>, kind: Kind) -> Reader<'_>
    ensures { result ≡ past_word kind r.entry }
{
    if r.begins(kind) {
        return r.skip(1);
    }
    r
}

// Reads what stands behind VARCHAR2.
fn read_text_type(r: Reader<'_>) -> Result<(TypeDeclaration, Reader<'_>), AllocError>
    ensures { IfOk result (λ x. text_type r.entry ≡ (x.0, x.1)) }
{
    let alloc = r.alloc();
    let number = r.skip(1);
    let digits = Text::new(alloc, number.text())?;
    let rest = past_word(number.skip(1), Kind::Byte);
    Ok((TypeDeclaration::Varchar2(digits), rest.skip(1)))
}

// Reads what stands behind NUMBER.
fn read_number_type(r: Reader<'_>) -> Result<(TypeDeclaration, Reader<'_>), AllocError>
    ensures { IfOk result (λ x. number_type r.entry ≡ (x.0, x.1)) }
{
    let alloc = r.alloc();
    let number = r.skip(1);
    let precision = Text::new(alloc, number.text())?;
    let rest = number.skip(1);
    if rest.begins(Kind::Comma) {
        let number = rest.skip(1);
        let scale = Text::new(alloc, number.text())?;
        return Ok((
            TypeDeclaration::Number(precision, Some(scale)),
            number.skip(2),
        ));
    }
    Ok((TypeDeclaration::Number(precision, None), rest.skip(1)))
}

// Reads what stands behind TIMESTAMP.
fn read_time_type(r: Reader<'_>) -> (TypeDeclaration, Reader<'_>)
    ensures { time_type r.entry ≡ (result.0, result.1) }
{
    if r.begins(Kind::OpenParen) {
        return (TypeDeclaration::Timestamp, r.skip(3));
    }
    (TypeDeclaration::Timestamp, r)
}

#[tactic(auto, unfolding(crate::specs::Tables::type_of))]
fn read_type(r: Reader<'_>) -> Result<(TypeDeclaration, Reader<'_>), AllocError>
    ensures { IfOk result (λ x. type_of r.entry ≡ (x.0, x.1)) }
{
    if r.begins(Kind::TtInteger) {
        return Ok((TypeDeclaration::TtInteger, r.skip(1)));
    }
    if r.begins(Kind::TtBigint) {
        return Ok((TypeDeclaration::TtBigint, r.skip(1)));
    }
    if r.begins(Kind::Varchar2) {
        return read_text_type(r.skip(1));
    }
    if r.begins(Kind::Number) {
        return read_number_type(r.skip(1));
    }
    Ok(read_time_type(r.skip(1)))
}

/// Passes two words where the first is this one, and says whether it is.
fn passes_two(r: Reader<'_>, kind: Kind) -> (bool, Reader<'_>)
    ensures is { result.0 ≡ begins kind r.entry }
    ensures rest { result.1 ≡ past_two kind r.entry }
{
    if r.begins(kind) {
        return (true, r.skip(2));
    }
    (false, r)
}

#[tactic(auto, unfolding(crate::specs::Tables::column_of))]
fn read_column(r: Reader<'_>) -> Result<(ColumnDeclaration, Reader<'_>), AllocError>
    ensures { IfOk result (λ x. column_of r.entry ≡ (x.0, x.1)) }
{
    let (name, rest) = read_identifier(r)?;
    let (ty, rest) = read_type(rest)?;
    let (not_null, rest) = passes_two(rest, Kind::Not);
    let (primary_key, rest) = passes_two(rest, Kind::Primary);
    Ok((
        ColumnDeclaration {
            name,
            ty,
            not_null,
            primary_key,
        },
        rest,
    ))
}

// Reads ON DELETE CASCADE, where it stands, and makes the foreign key.
fn foreign_key(
    columns: Seq<Name>,
    parent: Name,
    parent_columns: Seq<Name>,
    r: Reader<'_>,
) -> (ForeignKeyDeclaration, Reader<'_>)
    ensures { foreign_referred columns parent (parent_columns, r.entry) ≡ (result.0, result.1) }
{
    let rest = r.skip(1);
    let cascade = rest.begins(Kind::On);
    let key = ForeignKeyDeclaration {
        columns,
        parent,
        parent_columns,
        cascade,
    };
    if cascade {
        return (key, rest.skip(3));
    }
    (key, rest)
}

#[tactic(auto, unfolding(crate::specs::Tables::foreign_key_of))]
fn read_foreign_key(r: Reader<'_>) -> Result<(ForeignKeyDeclaration, Reader<'_>), AllocError>
    ensures { IfOk result (λ x. foreign_key_of r.entry ≡ (x.0, x.1)) }
{
    let (columns, rest) = read_identifiers(r.skip(3))?;
    let (parent, rest) = read_name(rest.skip(2))?;
    let (parent_columns, rest) = read_identifiers(rest.skip(1))?;
    Ok(foreign_key(columns, parent, parent_columns, rest))
}

// Whether the word closes the table.
fn closes(r: &Reader<'_>, kind: Kind) -> bool
    ensures { result ≡ closes kind r.now }
{
    r.begins(kind) && r.fork().skip(1).begins(Kind::CloseParen)
}

#[tactic(auto, unfolding(crate::specs::Tables::element_of))]
fn read_element(r: Reader<'_>) -> Result<(Element, Reader<'_>), AllocError>
    ensures { IfOk result (λ x. element_of r.entry ≡ (x.0, x.1)) }
{
    if r.begins(Kind::Primary) {
        let (names, rest) = read_identifiers(r.skip(3))?;
        return Ok((Element::Key(names), rest.skip(1)));
    }
    if r.begins(Kind::Foreign) {
        let (key, rest) = read_foreign_key(r)?;
        return Ok((Element::ForeignKey(key), rest));
    }
    if closes(&r, Kind::Readonly) {
        return Ok((Element::Attribute(TableAttribute::ReadOnly), r.skip(1)));
    }
    if closes(&r, Kind::Propagate) {
        return Ok((Element::Attribute(TableAttribute::Propagate), r.skip(1)));
    }
    if r.begins(Kind::Not) {
        return Ok((Element::Attribute(TableAttribute::NotPropagate), r.skip(2)));
    }
    let (column, rest) = read_column(r)?;
    Ok((Element::Column(column), rest))
}

/// Adds an element to the table.
fn with_element(cached: CacheTable, element: Element) -> Result<CacheTable, AllocError>
    ensures { IfOk result (λ t. t ≡ with_element Comma cached element) }
{
    let CacheTable {
        mut table,
        mut attribute,
    } = cached;
    match element {
        Element::Column(column) => table.columns.push(column)?,
        Element::Key(names) => table.primary_key = Some(names),
        Element::ForeignKey(key) => table.foreign_key = Some(key),
        Element::Attribute(written) => attribute = Some(written),
    }
    Ok(CacheTable { table, attribute })
}

/// Reads the elements behind the first column.
fn read_elements(
    name: Name,
    first: ColumnDeclaration,
    r: Reader<'_>,
) -> Result<(CacheTable, Reader<'_>), AllocError>
    ensures { IfOk result (λ x. elements_of name (first, r.entry) ≡ (x.0, x.1)) }
{
    let mut columns = Vec::new(r.alloc());
    columns.push(first)?;
    let mut table = CacheTable {
        table: TableDeclaration {
            name,
            columns: Seq::from_vec(columns),
            primary_key: None,
            foreign_key: None,
        },
        attribute: None,
    };
    let mut rest = r;
    while rest.begins(Kind::Comma) {
        let (element, behind) = read_element(rest.skip(1))?;
        table = with_element(table, element)?;
        rest = behind;
    }
    Ok((table, rest))
}

/// Reads a table.
#[tactic(auto, unfolding(crate::specs::Tables::table_of))]
pub fn read_table(r: Reader<'_>) -> Result<(CacheTable, Reader<'_>), AllocError>
    ensures { IfOk result (λ x. table_of r.entry ≡ (x.0, x.1)) }
{
    let (name, rest) = read_name(r)?;
    let (first, rest) = read_column(rest.skip(1))?;
    let (table, rest) = read_elements(name, first, rest)?;
    Ok((table, rest.skip(1)))
}
