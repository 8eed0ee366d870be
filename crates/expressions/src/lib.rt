//! Expressions and conditions over the columns of a row: their values, three-valued truth and types.
#![tactic(auto)]

pub mod columns;
pub mod condition;
pub mod copies;
pub mod expression;
pub mod operand;
pub mod typing;

pub use columns::{Columns, NoColumns};
pub use condition::{Comparator, Cond, CondNode, holds, truth_on};
pub use expression::{Arithmetic, Expr, ExprNode, Step, eval, value_of};
pub use operand::Operand;
pub use row_types;
pub use row_types::{numbers, tier_base};
pub use typing::{Family, family_of, family_of_type, has_sound_types, is_numeric, suits};
