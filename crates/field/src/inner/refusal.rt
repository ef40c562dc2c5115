// The tests that a public call begins with, in the order of the table of numbers. Each says what it turns down, or hands on what passed.
ghost use Rattle.std.specs.Prelude.{◌≡◌, [], ◌∷◌};
ghost use Rattle.field.specs.Refusal.{◌⇒◌, outcome, too_large, any_too_large, wrong_count, polynomial_tests, list_tests, element_tests, elements_tests};
ghost use Rattle.field.specs.Answers.{of_field, field_of, of_nothing};

use crate::Element;
use crate::limits::{POLYNOMIAL_CEILING, POLYNOMIAL_FLOOR};
use crate::refused::Refusal;
use arithmetic::inner::field::Field;
use binary::inner::digit::power_of_two;
use binary::inner::modulo::Modulus;

// The field of a polynomial.
pub fn accepted(p: u32) -> Result<Field, Refusal>
    ensures { of_field result ≡ outcome (polynomial_tests p) (field_of p) }
{
    if p < POLYNOMIAL_FLOOR || POLYNOMIAL_CEILING <= p {
        return Err(Refusal::OutOfRange);
    }
    let modulus = Modulus::new(p);
    if modulus.factor_free() {
        return Ok(Field::new(modulus));
    }
    Err(Refusal::HasFactor)
}

// Whether a is no element of the field: 2^m or more.
fn too_large(field: Field, a: u32) -> bool
    ensures { result ≡ too_large field.polynomial a }
{
    power_of_two(field.degree) <= a
}

fn element(field: Field, a: u32) -> Result<(), Refusal>
    ensures { of_nothing result ≡ outcome (too_large field.polynomial a ⇒ 4 ∷ []) tt }
{
    if too_large(field, a) {
        return Err(Refusal::TooLarge);
    }
    Ok(())
}

// The field, where a is an element of it.
pub fn with_element(p: u32, a: Element) -> Result<Field, Refusal>
    ensures { of_field result ≡ outcome (element_tests p a.0) (field_of p) }
{
    let field = accepted(p)?;
    element(field, a.0)?;
    Ok(field)
}

// The field, where a and b are elements of it.
pub fn with_elements(p: u32, a: Element, b: Element) -> Result<Field, Refusal>
    ensures { of_field result ≡ outcome (elements_tests p a.0 b.0) (field_of p) }
{
    let field = with_element(p, a)?;
    element(field, b.0)?;
    Ok(field)
}

// Whether there are no coefficients, or more than there may be.
pub fn wrong_count(most: usize, count: usize) -> bool
    ensures { result ≡ wrong_count most count }
{
    count == 0 || most < count
}

// Whether one of the coefficients is no element of the field.
fn any_too_large(field: Field, coefficients: &[u32]) -> bool
    ensures { result ≡ any_too_large field.polynomial coefficients.now }
{
    for &a in coefficients {
        if too_large(field, a) {
            return true;
        }
    }
    false
}

// A list of coefficients: turned down where their count is wrong, or one of them is no element. (Which counts are
// wrong each call says for itself.)
pub fn of_list(field: Field, wrong: bool, coefficients: &[u32]) -> Result<(), Refusal>
    ensures { of_nothing result ≡ outcome (list_tests field.polynomial wrong coefficients.now) tt }
{
    if wrong {
        return Err(Refusal::WrongCount);
    }
    if any_too_large(field, coefficients) {
        return Err(Refusal::TooLarge);
    }
    Ok(())
}
