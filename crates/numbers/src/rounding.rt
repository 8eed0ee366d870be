//! Rounding.

ghost use Rattle.std.specs.Prelude.{◌≡◌, ◌≤◌, ◌^◌, pos};
ghost use Rattle.numbers.specs.Rounding.{nearest, rescaled_to, rounded_to};

use crate::number::{GREATEST_SCALE, Number, power_of_ten};

impl Number {
    /// The number nearest to it with this scale, and of two the one farther from zero. None where 64 signed bits don't
    /// hold its units, or the scale passes 18.
    pub fn rounded(self, scale: u8) -> Option<Number>
        ensures { result ≡ rounded_to scale self }
    {
        if scale > GREATEST_SCALE {
            return None;
        }
        if self.scale() <= scale {
            return Number::checked(self.units_at(scale), scale);
        }
        Number::checked(nearest(self.units(), self.scale() - scale), scale)
    }

    /// The number itself with this scale. None where there is none: where a digit would be lost, where 64 signed bits
    /// don't hold its units, and where the scale passes 18.
    pub fn rescaled_exactly(self, scale: u8) -> Option<Number>
        ensures { result ≡ rescaled_to scale self }
    {
        let rounded = self.rounded(scale)?;
        if rounded.order(self).is_eq() {
            Some(rounded)
        } else {
            None
        }
    }
}

/// Units divided by a power of ten, rounded half away from zero.
fn nearest(units: i64, exponent: u8) -> i128
    requires { exponent ≤ 18 }
    ensures { result ≡ nearest units (10 ^ exponent) }
{
    let parts = power_of_ten(exponent);
    let magnitude = i128::from((units.unsigned_abs() + parts / 2) / parts);
    if units < 0 { -magnitude } else { magnitude }
}
