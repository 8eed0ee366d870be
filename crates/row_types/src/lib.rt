//! Values, their order and three-valued comparison, columns, rows, keys and broken rules.
#![tactic(auto)]

pub mod column;
pub mod declaration;
pub mod key;
pub mod laws;
pub mod literal;
pub mod printing;
pub mod row;
pub mod rule;
pub mod text;
pub mod time;
pub mod truth;
pub mod value;
pub mod values;

pub use column::{Column, Ty, fits, rescaled, stored};
pub use declaration::{
    ColumnDeclaration, ForeignKeyDeclaration, TableDeclaration, TypeDeclaration,
};
pub use key::Key;
pub use literal::{held_text, parse_literal};
pub use numbers;
pub use printing::{print, print_into, print_key_into, print_values_into};
pub use row::Row;
pub use rule::{Detail, Letter, Refused, Rule};
pub use text::Text;
pub use tier_base;
pub use time::Time;
pub use truth::Truth;
pub use value::{Value, compare, order, value_order};
pub use values::{copied_values, order_of_values, same_values};
