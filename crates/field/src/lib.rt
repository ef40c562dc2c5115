// GF(2^m), m from 2 to 16: the public calls of the arithmetic. Each takes the field polynomial and tests it; none asks anything of its
// caller, and each answers by its definition in specs/Calls, for every input.
#![tactic(auto)]

ghost use Rattle.std.specs.Prelude.{◌≡◌};
ghost use Rattle.field.specs.Answers.{of_value, of_element, of_number};
ghost use Rattle.field.specs.Calls.{accept_outcome, sum_outcome, product_outcome, quotient_outcome, power_outcome, square_root_outcome, trace_outcome, number_outcome, element_outcome, power_of_x_outcome, house_outcome};

pub mod inner;
pub mod limits;
pub mod refused;

use crate::inner::house;
use crate::inner::refusal::{accepted, with_element, with_elements};
use crate::limits::{LARGEST_DEGREE, SMALLEST_DEGREE};
pub use crate::refused::Refusal;

// Three readings of "14", each its own kind of value: going between them is a named call.
#[derive(Clone, Copy, Debug, PartialEq, Eq)]
pub struct Element(pub u32);

#[derive(Clone, Copy, Debug, PartialEq, Eq)]
pub struct Exponent(pub i32);

#[derive(Clone, Copy, Debug, PartialEq, Eq)]
pub struct LogNumber(pub u32);

// Tests a field polynomial, and gives its degree.
pub fn accept(p: u32) -> Result<u32, Refusal>
    ensures { of_value result ≡ accept_outcome p }
{
    let field = accepted(p)?;
    Ok(field.degree)
}

// The exclusive or of two elements.
pub fn sum(p: u32, a: Element, b: Element) -> Result<Element, Refusal>
    ensures { of_element result ≡ sum_outcome p a.0 b.0 }
{
    with_elements(p, a, b)?;
    Ok(Element(a.0 ^ b.0))
}

// The product of two elements, modulo the field polynomial.
pub fn product(p: u32, a: Element, b: Element) -> Result<Element, Refusal>
    ensures { of_element result ≡ product_outcome p a.0 b.0 }
{
    let field = with_elements(p, a, b)?;
    Ok(Element(field.product(a.0, b.0)))
}

// The one element q with q·b = a.
pub fn quotient(p: u32, a: Element, b: Element) -> Result<Element, Refusal>
    ensures { of_element result ≡ quotient_outcome p a.0 b.0 }
{
    let field = with_elements(p, a, b)?;
    if b.0 == 0 {
        return Err(Refusal::DivisionByZero);
    }
    Ok(Element(field.quotient(a.0, b.0)))
}

// a to any exponent; a negative one is the power of the inverse.
pub fn power(p: u32, a: Element, e: Exponent) -> Result<Element, Refusal>
    ensures { of_element result ≡ power_outcome p a.0 e.0 }
{
    let field = with_element(p, a)?;
    if a.0 == 0 && e.0 < 0 {
        return Err(Refusal::DivisionByZero);
    }
    Ok(Element(field.power(a.0, e.0)))
}

// The one element that squares to b.
pub fn square_root(p: u32, b: Element) -> Result<Element, Refusal>
    ensures { of_element result ≡ square_root_outcome p b.0 }
{
    let field = with_element(p, b)?;
    Ok(Element(field.square_root(b.0)))
}

// 0 or 1.
pub fn trace(p: u32, c: Element) -> Result<u32, Refusal>
    ensures { of_value result ≡ trace_outcome p c.0 }
{
    let field = with_element(p, c)?;
    Ok(field.trace(c.0))
}

// Element to logarithm number,
pub fn number_of_element(p: u32, a: Element) -> Result<LogNumber, Refusal>
    ensures { of_number result ≡ number_outcome p a.0 }
{
    let field = with_element(p, a)?;
    Ok(LogNumber(field.number(a.0)))
}

// and back. (A number is as large as an element, and no larger: it is tested as one.)
pub fn element_of_number(p: u32, n: LogNumber) -> Result<Element, Refusal>
    ensures { of_element result ≡ element_outcome p n.0 }
{
    let field = with_element(p, Element(n.0))?;
    Ok(Element(field.element(n.0)))
}

// Exponent to element.
pub fn power_of_x(p: u32, e: Exponent) -> Result<Element, Refusal>
    ensures { of_element result ≡ power_of_x_outcome p e.0 }
{
    let field = accepted(p)?;
    Ok(Element(field.power(2, e.0)))
}

// The house's polynomial of a degree.
pub fn house_polynomial(degree: u32) -> Result<u32, Refusal>
    ensures { of_value result ≡ house_outcome degree }
{
    if degree < SMALLEST_DEGREE {
        return Err(Refusal::OutOfRange);
    }
    if LARGEST_DEGREE < degree {
        return Err(Refusal::OutOfRange);
    }
    Ok(house::entry(degree))
}
