//! Numbers.

ghost use Rattle.std.specs.Prelude.{◌≡◌, ◌≤◌, ◌^◌, pos, unsigned_abs};
ghost use Rattle.std.specs.Int.{int_div_euclid};
ghost use Rattle.numbers.specs.Decimals.{IsNumber, floor_of, has_precision, number_of, order_of_numbers, units_at};

use std::cmp::Ordering;
use std::marker::Model;

/// The greatest scale.
pub(crate) const GREATEST_SCALE: u8 = 18;

/// A decimal number: units of 64 signed bits, and a scale from 0 to 18. It stands for units / 10^scale. Two numbers are
/// `==` where both are the same, so 1.5 isn't 1.50 there. Clauses see units and scale.
#[derive(Clone, Copy, Debug, PartialEq, Eq)]
pub struct Number {
    units: i64,
    scale: u8,
}

impl Model for Number {
    ghost use Rattle.numbers.specs.Decimals.{Decimal, IsNumber};

    ghost Value = { Decimal };

    ghost view = { λ number. record { units = number.units; scale = number.scale } };

    ghost invariant = { λ number. IsNumber (record { units = number.units; scale = number.scale }) };

    ghost inverse = { λ number. record { units = number.units; scale = number.scale } };
}

impl Number {
    /// So many units at a scale. None where the scale passes 18.
    pub fn new(units: i64, scale: u8) -> Option<Number>
        ensures { result ≡ number_of units scale }
    {
        if scale > GREATEST_SCALE {
            return None;
        }
        Some(Number { units, scale })
    }

    /// A whole number, at scale 0.
    pub fn integer(number: i64) -> Number
        ensures { result ≡ record { units = number; scale = 0 } }
    {
        Number {
            units: number,
            scale: 0,
        }
    }

    /// The units.
    pub fn units(self) -> i64
        ensures value { result ≡ self.units }
        ensures range { IsNumber self }
    {
        self.units
    }

    /// The scale.
    pub fn scale(self) -> u8
        ensures value { result ≡ self.scale }
        ensures bound { result ≤ 18 }
    {
        self.scale
    }

    /// Whether its units have at most so many digits.
    pub fn has_precision(self, precision: u8) -> bool
        ensures { result ≡ has_precision precision self }
    {
        precision > GREATEST_SCALE || self.units.unsigned_abs() < power_of_ten(precision)
    }

    /// The greatest whole number that isn't above it.
    pub fn floor(self) -> i64
        ensures { result ≡ floor_of self }
    {
        floor_at(self.units, self.scale)
    }

    /// The order of numbers, by what they stand for: 1.5 and 1.50 are equal in it.
    pub fn order(self, other: Number) -> Ordering
        ensures { result ≡ order_of_numbers self other }
    {
        if self.scale == other.scale {
            return self.units.cmp(&other.units);
        }
        self.units_at(GREATEST_SCALE)
            .cmp(&other.units_at(GREATEST_SCALE))
    }

    /// The units of the same number at a scale from its own up to 18.
    pub(crate) fn units_at(self, scale: u8) -> i128
        requires own { self.scale ≤ scale }
        requires greatest { scale ≤ 18 }
        ensures value { result ≡ units_at scale self }
        ensures bound { unsigned_abs result ≤ 2 ^ 123 }
    {
        i128::from(self.units) * i128::from(power_of_ten(scale - self.scale))
    }

    /// So many units at a scale. None where 64 signed bits don't hold the units, or the scale passes 18.
    pub(crate) fn checked(units: i128, scale: u8) -> Option<Number>
        ensures { result ≡ number_of units scale }
    {
        match i64::try_from(units) {
            Ok(units) => Number::new(units, scale),
            Err(_) => None,
        }
    }
}

/// Units divided by a power of ten, rounded down.
fn floor_at(units: i64, exponent: u8) -> i64
    requires { exponent ≤ 18 }
    ensures { result ≡ int_div_euclid units (pos (10 ^ exponent)) }
{
    if exponent == 0 {
        return units;
    }
    units.div_euclid(power_of_ten(exponent) as i64)
}

/// A power of ten.
pub(crate) fn power_of_ten(exponent: u8) -> u64
    requires { exponent ≤ 18 }
    ensures value { result ≡ 10 ^ exponent }
    ensures least { 1 ≤ result }
    ensures greatest { result ≤ 10 ^ 18 }
{
    10_u64.pow(u32::from(exponent))
}
