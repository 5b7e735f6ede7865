//! The lexical forms that are checked.

ghost use Rattle.std.specs.Prelude.{◌≡◌, ◌↔◌, ◌≤ℤ◌, IsTrue, IfSome, true, codes};
ghost use Rattle.std.specs.Char.{is_ascii_digit};
ghost use Rattle.std.specs.Str.{chars, encode_utf8_all};
ghost use Rattle.std.specs.Str.Parse.{signed_digits_value, starts_with_minus, without_leading_sign};
ghost use Rattle.owl_characters.specs.Names.{IsRunOf};
ghost use Rattle.owl_characters.specs.Iri.{AllAre};
ghost use Rattle.rdf_terms.specs.Datatypes.{has, boolean_forms, IsDecimalForm, IsIntegerForm, IsLexicalForm, UnsignedDecimal};
ghost use Rattle.rdf_terms.specs.Tables.{range, FitsRows};
ghost use Rattle.rdf_terms.specs.Vocabulary.{xsd};

use crate::datatypes::is_one_of;
use crate::iri::Iri;
use crate::literal::Literal;
use crate::vocabulary::{BOOLEAN, DECIMAL};
use crate::xsd;

/// An integer datatype, and the least and the greatest number, where there are
/// any.
struct IntegerRow {
    datatype: &'static str,
    least: Option<i128>,
    greatest: Option<i128>,
}

/// The row of a name of XML Schema.
macro_rules! between {
    ($name:literal, $least:expr, $greatest:expr) => {
        IntegerRow {
            datatype: xsd!($name),
            least: $least,
            greatest: $greatest,
        }
    };
}

/// The integer datatypes (XML Schema Part 2, sections 3.4.13 to 3.4.25).
const INTEGERS: [IntegerRow; 13] = [
    between!("integer", None, None),
    between!("nonNegativeInteger", Some(0), None),
    between!("nonPositiveInteger", None, Some(0)),
    between!("positiveInteger", Some(1), None),
    between!("negativeInteger", None, Some(-1)),
    between!("long", Some(i64::MIN as i128), Some(i64::MAX as i128)),
    between!("int", Some(i32::MIN as i128), Some(i32::MAX as i128)),
    between!("short", Some(i16::MIN as i128), Some(i16::MAX as i128)),
    between!("byte", Some(i8::MIN as i128), Some(i8::MAX as i128)),
    between!("unsignedLong", Some(0), Some(u64::MAX as i128)),
    between!("unsignedInt", Some(0), Some(u32::MAX as i128)),
    between!("unsignedShort", Some(0), Some(u16::MAX as i128)),
    between!("unsignedByte", Some(0), Some(u8::MAX as i128)),
];

/// The forms of the datatype of truth values (XML Schema Part 2, section
/// 3.3.2).
const BOOLEANS: [&str; 4] = ["true", "false", "1", "0"];

/// Whether the literal's lexical form is one of its datatype, where that is
/// boolean, decimal or one of the integer datatypes (XML Schema 1.1 Part 2,
/// sections 3.3.2, 3.3.3 and 3.4.13 to 3.4.25). Forms of other datatypes are
/// all taken. Takes no memory.
pub fn lexical_ok(value: &Literal) -> bool
    ensures { IsTrue result ↔ IsLexicalForm value.now.datatype value.now.lexical }
{
    is_lexical(value.datatype(), value.lexical())
}

/// Whether the datatype has the lexical form, as far as forms are checked.
pub(crate) fn is_lexical(datatype: &Iri, form: &str) -> bool
    ensures { IsTrue result ↔ IsLexicalForm datatype.now (chars form.now) }
{
    fits_boolean(datatype, form)
        && fits_decimal(datatype, form)
        && fits_integers(&INTEGERS, datatype, form)
}

/// Whether the form is a truth value, where the datatype is that of these.
fn fits_boolean(datatype: &Iri, form: &str) -> bool
    ensures { IsTrue result ↔ (datatype.now ≡ xsd (codes "boolean") → has boolean_forms (chars form.now) ≡ true) }
{
    datatype.text() != BOOLEAN || is_one_of(&BOOLEANS, form)
}

/// Whether the form is a decimal number, where the datatype is that of these.
fn fits_decimal(datatype: &Iri, form: &str) -> bool
    ensures { IsTrue result ↔ (datatype.now ≡ xsd (codes "decimal") → IsDecimalForm (chars form.now)) }
{
    datatype.text() != DECIMAL || is_decimal(form)
}

/// Whether each row with the datatype has the form.
fn fits_integers(rows: &[IntegerRow], datatype: &Iri, form: &str) -> bool
    ensures { IsTrue result ↔ FitsRows rows.now (encode_utf8_all datatype.now) (chars form.now) }
{
    rows.iter().all(|row| row.datatype != datatype.text() || is_integer(row, form))
}

/// Whether the form is that of a number in the range of the row.
fn is_integer(row: &IntegerRow, form: &str) -> bool
    ensures { IsTrue result ↔ IsIntegerForm (range row.now) (chars form.now) }
{
    is_digits(without_sign(form)) && is_at_least(form, row.least) && is_at_most(form, row.greatest)
}

/// Whether the number of the form is no less than the least one, where there is
/// one. A number that `i128` does not hold is beyond each that it holds.
fn is_at_least(form: &str, least: Option<i128>) -> bool
    ensures { IsRunOf is_ascii_digit (without_leading_sign (chars form.now)) → (IsTrue result ↔ IfSome least (λ least. least ≤ℤ signed_digits_value 10 (chars form.now))) }
{
    let Some(least) = least else {
        return true;
    };
    match form.parse::<i128>() {
        Ok(number) => least <= number,
        Err(_) => !is_negative(form),
    }
}

/// Whether the number of the form is no greater than the greatest one, where
/// there is one.
fn is_at_most(form: &str, greatest: Option<i128>) -> bool
    ensures { IsRunOf is_ascii_digit (without_leading_sign (chars form.now)) → (IsTrue result ↔ IfSome greatest (λ greatest. signed_digits_value 10 (chars form.now) ≤ℤ greatest)) }
{
    let Some(greatest) = greatest else {
        return true;
    };
    match form.parse::<i128>() {
        Ok(number) => number <= greatest,
        Err(_) => is_negative(form),
    }
}

/// Whether the form begins with a minus.
fn is_negative(form: &str) -> bool
    ensures { result ≡ starts_with_minus form.now }
{
    form.starts_with('-')
}

/// Whether the form is a sign, or none, and digits with at most one point.
fn is_decimal(form: &str) -> bool
    ensures { IsTrue result ↔ IsDecimalForm (chars form.now) }
{
    is_unsigned_decimal(without_sign(form))
}

/// Whether the form is digits with at most one point among them.
fn is_unsigned_decimal(form: &str) -> bool
    ensures { IsTrue result ↔ UnsignedDecimal (chars form.now) }
{
    match form.split_once('.') {
        Some((before, after)) => {
            if before.is_empty() {
                is_digits(after)
            } else {
                is_digits(before) && are_digits(after)
            }
        }
        None => is_digits(form),
    }
}

/// The form without the sign that stands before it, where there is one.
fn without_sign(form: &str) -> &str
    ensures { chars result.now ≡ without_leading_sign (chars form.now) }
{
    match form.strip_prefix('-') {
        Some(rest) => rest,
        None => match form.strip_prefix('+') {
            Some(rest) => rest,
            None => form,
        },
    }
}

/// Whether the text is one or more digits.
fn is_digits(text: &str) -> bool
    ensures { IsTrue result ↔ IsRunOf is_ascii_digit (chars text.now) }
{
    !text.is_empty() && are_digits(text)
}

fn are_digits(text: &str) -> bool
    ensures { IsTrue result ↔ AllAre is_ascii_digit (chars text.now) }
{
    text.chars().all(|c| c.is_ascii_digit())
}
