//! Types of columns as they are declared.

ghost use Rattle.std.specs.Prelude.{◌≡◌, ◌≤◌, codes, min, option_copied, true, unwrap_or};
ghost use Rattle.table_defs.specs.Names.{same_name};
ghost use Rattle.table_defs.specs.Declarations.{has_type, number_of, number_type, same_type, text_type, type_of};
ghost use Rattle.std.specs.List.{list_all};
ghost use Rattle.std.specs.Char.{is_ascii_digit};

use row_types::{ColumnDeclaration, Text, Ty, TypeDeclaration};

/// The greatest number of bytes of a VARCHAR2.
const VARCHAR2_BYTES: u16 = 4000;

/// The greatest precision of a NUMBER.
const PRECISION: u16 = 18;

/// The declared type, where there is such a type.
pub(crate) fn type_of(ty: &TypeDeclaration) -> Option<Ty>
    ensures { result ≡ type_of ty.now }
{
    match ty {
        TypeDeclaration::TtInteger => Some(Ty::TtInteger),
        TypeDeclaration::TtBigint => Some(Ty::TtBigint),
        TypeDeclaration::Number(precision, scale) => {
            number_type(precision.as_bytes(), scale_digits(scale.as_ref()))
        }
        TypeDeclaration::Varchar2(digits) => text_type(digits),
        TypeDeclaration::Timestamp => Some(Ty::Timestamp),
    }
}

// The digits of a scale; those of 0 where there is none.
fn scale_digits(scale: Option<&Text>) -> &[u8]
    ensures { result.now ≡ unwrap_or (option_copied scale.entry) (codes "0") }
{
    match scale {
        None => b"0",
        Some(digits) => digits.as_bytes(),
    }
}

fn number_type(precision: &[u8], scale: &[u8]) -> Option<Ty>
    ensures { result ≡ number_type precision.now scale.now }
{
    if !are_digits(precision) || !are_digits(scale) {
        return None;
    }
    let precision = number_up_to(precision);
    let scale = number_up_to(scale);
    if precision >= 1 && precision <= PRECISION && scale <= precision {
        Some(Ty::Number(precision as u8, scale as u8))
    } else {
        None
    }
}

fn text_type(digits: &Text) -> Option<Ty>
    ensures { result ≡ text_type digits.now }
{
    let digits = digits.as_bytes();
    if !are_digits(digits) {
        return None;
    }
    let number = number_up_to(digits);
    if number >= 1 && number <= VARCHAR2_BYTES {
        Some(Ty::Varchar2(number))
    } else {
        None
    }
}

fn are_digits(bytes: &[u8]) -> bool
    ensures { result ≡ list_all is_ascii_digit bytes.now }
{
    bytes.iter().all(|byte| byte.is_ascii_digit())
}

// The number that the digits write, or 4001 where it is greater than 4000.
fn number_up_to(digits: &[u8]) -> u16
    requires { list_all is_ascii_digit digits.now ≡ true }
    ensures { result ≡ min 4001 (number_of digits.now) }
{
    let mut number: u16 = 0;
    for digit in digits {
        number = 10 * number + (*digit as u16 - 48);
        if number > VARCHAR2_BYTES {
            return VARCHAR2_BYTES + 1;
        }
    }
    number
}

/// Whether the declared column has the type. None has none.
pub fn has_type(column: Option<&ColumnDeclaration>, ty: Ty) -> bool
    ensures { result ≡ has_type (option_copied column.entry) ty }
{
    match column {
        None => false,
        Some(column) => match type_of(&column.ty) {
            None => false,
            Some(declared) => is_same_type(declared, ty),
        },
    }
}

fn is_same_type(a: Ty, b: Ty) -> bool
    ensures { result ≡ same_type a b }
{
    a == b
}
