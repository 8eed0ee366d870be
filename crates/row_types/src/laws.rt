//! Laws of the definitions, each on the contract of a function that does nothing.

ghost use Rattle.std.specs.Prelude.{◌≡◌, ◌≤◌, ◌++◌, ℕ, ℤ, List, length, codes, true, Some};
ghost use Rattle.row_types.specs.Columns.{holds, rescaled_for};
ghost use Rattle.row_types.specs.Literals.{value_of};
ghost use Rattle.row_types.specs.Order.{key_order, order_of, value_order};
ghost use Rattle.row_types.specs.Printing.{printed};
ghost use Rattle.row_types.specs.TimeTexts.{time_of, time_text};
ghost use Rattle.numbers.specs.Decimals.{Decimal, IsNumber};
ghost use Rattle.row_types.specs.declared.column.Ty.{Ty as ColumnType};
ghost use Rattle.row_types.specs.declared.value.Value.{Value as One};
ghost use Rattle.row_types.specs.declared.value.Value.TheVariants as value;
ghost use Rattle.std.specs.FinMap.{IsAntisymmetric};
ghost use Rattle.std.specs.Cmp.{IsTotalOrder};
ghost use Rattle.std.specs.declared.cmp.Ordering.TheVariants.{Equal};

use crate::time::Time;

/// The order of values is total, and only the same values are equal in it.
pub fn order_law()
    ensures total { IsTotalOrder order_of }
    ensures exact { IsAntisymmetric order_of }
{}

/// Values that one type holds are ordered by what they stand for.
pub fn column_order_law()
    ensures { (t : ColumnType) (a b : One) → holds t a ≡ true → holds t b ≡ true
        → value_order a b ≡ order_of a b }
{}

/// A value that a type holds, and that is equal to another one, is that one with the scale of the type's numbers.
pub fn rescaled_law()
    ensures { (t : ColumnType) (v w r : One) → holds t v ≡ true → value_order v w ≡ Equal → rescaled_for t w ≡ Some r
        → v ≡ r }
{}

/// The order of keys is total, and only the same keys are equal in it.
pub fn key_order_law()
    ensures total { IsTotalOrder key_order }
    ensures exact { IsAntisymmetric key_order }
{}

/// What is printed of NULL, of a number and of a text of 1 to 4,000 bytes is a literal of it.
pub fn printed_literal_law()
    ensures null { value_of (printed value.Null) ≡ Some value.Null }
    ensures number { (n : Decimal) → IsNumber n → value_of (printed (value.Number n)) ≡ Some (value.Number n) }
    ensures text { (text : List ℕ) → 1 ≤ length text → length text ≤ 4000
        → value_of (printed (value.Text text)) ≡ Some (value.Text text) }
{}

/// What is printed of a time names it, alone and in a literal.
pub fn time_text_law(time: Time)
    ensures text { time_of (time_text time) ≡ Some time }
    ensures literal { value_of (codes "TIMESTAMP '" ++ time_text time ++ codes "'")
        ≡ Some (value.Time time) }
{
    let _date = time.date();
}
