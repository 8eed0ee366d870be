//! Numbers of texts.

ghost use Rattle.std.specs.Prelude.{◌≡◌, ◌≤◌, length, min, ◌^◌, true};
ghost use Rattle.std.specs.List.{list_all};
ghost use Rattle.std.specs.Char.{is_ascii_digit};
ghost use Rattle.std.specs.Str.Parse.{digits_value_after};
ghost use Rattle.numbers.specs.NumberTexts.{are_decimal_digits, fraction_digits, is_negative, number_read, point_place, signed, units_in, unsigned, whole_digits};

use crate::number::{GREATEST_SCALE, Number};

/// More units than any number has, from which on they aren't told apart.
const LIMIT: u128 = 18_446_744_073_709_551_616;

impl Number {
    /// The number that the text writes: digits, then a point and digits behind it or neither, with or without a `-`
    /// before them. Its scale is the number of digits behind the point. Leading zeros are as one likes.
    ///
    /// None of other texts, of more than 18 digits behind the point, and of units that 64 signed bits don't hold.
    pub fn from_text(text: &[u8]) -> Option<Number>
        ensures { result ≡ number_read text.now }
    {
        let digits = unsigned(text);
        if !are_decimal_digits(digits) {
            return None;
        }
        let fraction = fraction_digits(digits);
        if fraction.len() > GREATEST_SCALE as usize {
            return None;
        }
        let units = signed(is_negative(text), units_in(digits));
        Number::checked(units, fraction.len() as u8)
    }
}

fn is_negative(text: &[u8]) -> bool
    ensures { result ≡ is_negative text.now }
{
    !text.is_empty() && text[0] == b'-'
}

fn unsigned(text: &[u8]) -> &[u8]
    ensures { result.now ≡ unsigned text.now }
{
    if is_negative(text) { &text[1..] } else { text }
}

fn are_decimal_digits(digits: &[u8]) -> bool
    ensures { result ≡ are_decimal_digits digits.now }
{
    let place = point_place(digits);
    place > 0
        && place + 1 != digits.len()
        && are_digits(&digits[..place])
        && are_digits(fraction_digits(digits))
}

/// The place of the first point; the length where there is none.
fn point_place(digits: &[u8]) -> usize
    ensures value { result ≡ point_place digits.now }
    ensures bound { result ≤ length digits.now }
{
    let mut place = 0;
    while place < digits.len() && digits[place] != b'.' {
        place += 1;
    }
    place
}

fn whole_digits(digits: &[u8]) -> &[u8]
    ensures { result.now ≡ whole_digits digits.now }
{
    &digits[..point_place(digits)]
}

fn fraction_digits(digits: &[u8]) -> &[u8]
    ensures { result.now ≡ fraction_digits digits.now }
{
    let place = point_place(digits);
    if place < digits.len() {
        &digits[place + 1..]
    } else {
        &digits[place..]
    }
}

fn are_digits(bytes: &[u8]) -> bool
    ensures { result ≡ list_all is_ascii_digit bytes.now }
{
    bytes.iter().all(|byte| byte.is_ascii_digit())
}

/// The units that the digits write, as far as a number may have so many.
fn units_in(digits: &[u8]) -> u128
    requires { are_decimal_digits digits.now ≡ true }
    ensures { result ≡ min (units_in digits.now) (2 ^ 64) }
{
    digits_after(
        digits_after(0, whole_digits(digits)),
        fraction_digits(digits),
    )
}

/// The number that the digits write where they follow those of another one, both up to the limit.
fn digits_after(number: u128, digits: &[u8]) -> u128
    requires limit { number ≤ 2 ^ 64 }
    requires digits { list_all is_ascii_digit digits.now ≡ true }
    ensures { result ≡ min (digits_value_after 10 number digits.now) (2 ^ 64) }
{
    let mut number = number;
    for digit in digits {
        number = (number * 10 + u128::from(*digit - b'0')).min(LIMIT);
    }
    number
}

fn signed(negative: bool, units: u128) -> i128
    requires { units ≤ 2 ^ 64 }
    ensures { result ≡ signed negative units }
{
    let units = units as i128;
    if negative { -units } else { units }
}
