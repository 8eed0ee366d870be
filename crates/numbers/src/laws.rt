//! Laws of the definitions, each on the contract of a function that does nothing.

ghost use Rattle.std.specs.Prelude.{◌≡◌, ◌≤◌, ◌<ℤ◌, Some};
ghost use Rattle.std.specs.Cmp.{IsTotalOrder};
ghost use Rattle.std.specs.declared.cmp.Ordering.TheVariants.{Equal, Less};
ghost use Rattle.numbers.specs.Decimals.{Decimal, IsNumber, floor_of, order_of_numbers};
ghost use Rattle.numbers.specs.NumberTexts.{number_read, printed_number};
ghost use Rattle.numbers.specs.Rounding.{rescaled_to};

/// The order of numbers is total. Numbers of one scale that are equal in it are the same, and the whole number below a
/// number rises with it.
pub fn order_law()
    ensures total { IsTotalOrder order_of_numbers }
    ensures same { (a b : Decimal) → a.scale ≡ b.scale → order_of_numbers a b ≡ Equal → a ≡ b }
    ensures floor { (a b : Decimal) → floor_of a <ℤ floor_of b → order_of_numbers a b ≡ Less }
{}

/// The only number with a scale that stands for the same as another one is that one with this scale.
pub fn rescaled_law()
    ensures only { (a b : Decimal) → IsNumber a → IsNumber b → order_of_numbers a b ≡ Equal
        → rescaled_to a.scale b ≡ Some a }
{}

/// What is printed of a number is read as that number.
pub fn printed_number_law()
    ensures read { (number : Decimal) → IsNumber number
        → number_read (printed_number number) ≡ Some number }
{}
