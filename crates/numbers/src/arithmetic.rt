//! Exact arithmetic.

ghost use Rattle.std.specs.Prelude.{◌≡◌};
ghost use Rattle.numbers.specs.Arithmetic.{difference_of, product_of, sum_of};

use crate::number::Number;

impl Number {
    /// The sum, at the greater scale. None where 64 signed bits don't hold its units.
    pub fn plus(self, other: Number) -> Option<Number>
        ensures { result ≡ sum_of self other }
    {
        let scale = self.scale().max(other.scale());
        Number::checked(self.units_at(scale) + other.units_at(scale), scale)
    }

    /// The difference, at the greater scale. None where 64 signed bits don't hold its units.
    pub fn minus(self, other: Number) -> Option<Number>
        ensures { result ≡ difference_of self other }
    {
        let scale = self.scale().max(other.scale());
        Number::checked(self.units_at(scale) - other.units_at(scale), scale)
    }

    /// The product, at the sum of the scales. None where 64 signed bits don't hold its units, or that scale passes 18.
    pub fn times(self, other: Number) -> Option<Number>
        ensures { result ≡ product_of self other }
    {
        let units = i128::from(self.units()) * i128::from(other.units());
        Number::checked(units, self.scale() + other.scale())
    }
}
