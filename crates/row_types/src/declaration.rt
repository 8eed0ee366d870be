//! Tables as a statement declares them, before any name is looked up.

use crate::text::Text;
use tier_base::{Name, Seq};

/// The type of a column as it is written.
#[derive(Drop)]
pub enum TypeDeclaration {
    /// TT_INTEGER.
    TtInteger,
    /// TT_BIGINT.
    TtBigint,
    /// NUMBER(p) or NUMBER(p, s), with the digits of p and s. They are a type's numbers where p is from 1 to 18 and s
    /// from 0 to p; an s that isn't there is 0.
    Number(Text, Option<Text>),
    /// VARCHAR2(n), with the digits of n. They are a type's number where it is from 1 to 4000.
    Varchar2(Text),
    /// TIMESTAMP, TIMESTAMP(0) is the same.
    Timestamp,
}

/// A column as it is written.
#[derive(Drop)]
pub struct ColumnDeclaration {
    /// Its name, one identifier.
    pub name: Name,
    /// Its type.
    pub ty: TypeDeclaration,
    /// Whether NOT NULL stands behind it.
    pub not_null: bool,
    /// Whether PRIMARY KEY stands behind it.
    pub primary_key: bool,
}

/// A foreign key as it is written.
#[derive(Drop)]
pub struct ForeignKeyDeclaration {
    /// The columns.
    pub columns: Seq<Name>,
    /// The table that they refer to.
    pub parent: Name,
    /// The columns of that table.
    pub parent_columns: Seq<Name>,
    /// Whether ON DELETE CASCADE stands behind it.
    pub cascade: bool,
}

/// A table as a statement declares it.
#[derive(Drop)]
pub struct TableDeclaration {
    /// Its name.
    pub name: Name,
    /// Its columns, in their order.
    pub columns: Seq<ColumnDeclaration>,
    /// The columns of its PRIMARY KEY clause, where it has one.
    pub primary_key: Option<Seq<Name>>,
    /// Its FOREIGN KEY clause, where it has one.
    pub foreign_key: Option<ForeignKeyDeclaration>,
}
