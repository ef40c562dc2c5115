// The arithmetic, and the test of a field polynomial: each call has one value, which it puts in the first place of a lent list.
ghost use Rattle.std.specs.Prelude.{◌≡◌};
ghost use Rattle.field.specs.Calls.{accept_outcome, sum_outcome, product_outcome, quotient_outcome, power_outcome, square_root_outcome, trace_outcome, number_outcome, element_outcome, power_of_x_outcome, house_outcome};
ghost use Rattle.firmware.specs.Lent.{fits, returned, after, value_of};

use crate::inner::lent::{put_answer, status};
use field::{Element, Exponent, LogNumber};

// Tests a field polynomial, and gives its degree.
pub fn gfroots_accept(p: u32, degree: &mut [u32]) -> u32
    ensures value { result ≡ returned (accept_outcome p) (fits 1 degree.old) }
    ensures degree_after { degree.new ≡ after result (value_of (accept_outcome p)) degree.old }
{
    status(put_answer(field::accept(p), degree))
}

// The house's polynomial of a degree.
pub fn gfroots_house_polynomial(degree: u32, polynomial: &mut [u32]) -> u32
    ensures value { result ≡ returned (house_outcome degree) (fits 1 polynomial.old) }
    ensures polynomial_after { polynomial.new ≡ after result (value_of (house_outcome degree)) polynomial.old }
{
    status(put_answer(field::house_polynomial(degree), polynomial))
}

// The exclusive or of two elements.
pub fn gfroots_sum(p: u32, a: u32, b: u32, element: &mut [u32]) -> u32
    ensures value { result ≡ returned (sum_outcome p a b) (fits 1 element.old) }
    ensures element_after { element.new ≡ after result (value_of (sum_outcome p a b)) element.old }
{
    status(put_answer(field::sum(p, Element(a), Element(b)), element))
}

// The product of two elements, modulo the field polynomial.
pub fn gfroots_product(p: u32, a: u32, b: u32, element: &mut [u32]) -> u32
    ensures value { result ≡ returned (product_outcome p a b) (fits 1 element.old) }
    ensures element_after { element.new ≡ after result (value_of (product_outcome p a b)) element.old }
{
    status(put_answer(field::product(p, Element(a), Element(b)), element))
}

// The one element q with q·b = a.
pub fn gfroots_quotient(p: u32, a: u32, b: u32, element: &mut [u32]) -> u32
    ensures value { result ≡ returned (quotient_outcome p a b) (fits 1 element.old) }
    ensures element_after { element.new ≡ after result (value_of (quotient_outcome p a b)) element.old }
{
    status(put_answer(field::quotient(p, Element(a), Element(b)), element))
}

// a to any exponent; a negative one is the power of the inverse.
pub fn gfroots_power(p: u32, a: u32, exponent: i32, element: &mut [u32]) -> u32
    ensures value { result ≡ returned (power_outcome p a exponent) (fits 1 element.old) }
    ensures element_after { element.new ≡ after result (value_of (power_outcome p a exponent)) element.old }
{
    status(put_answer(field::power(p, Element(a), Exponent(exponent)), element))
}

// The one element that squares to b.
pub fn gfroots_square_root(p: u32, b: u32, element: &mut [u32]) -> u32
    ensures value { result ≡ returned (square_root_outcome p b) (fits 1 element.old) }
    ensures element_after { element.new ≡ after result (value_of (square_root_outcome p b)) element.old }
{
    status(put_answer(field::square_root(p, Element(b)), element))
}

// 0 or 1.
pub fn gfroots_trace(p: u32, c: u32, trace: &mut [u32]) -> u32
    ensures value { result ≡ returned (trace_outcome p c) (fits 1 trace.old) }
    ensures trace_after { trace.new ≡ after result (value_of (trace_outcome p c)) trace.old }
{
    status(put_answer(field::trace(p, Element(c)), trace))
}

// Element to logarithm number,
pub fn gfroots_number_of_element(p: u32, a: u32, number: &mut [u32]) -> u32
    ensures value { result ≡ returned (number_outcome p a) (fits 1 number.old) }
    ensures number_after { number.new ≡ after result (value_of (number_outcome p a)) number.old }
{
    status(put_answer(field::number_of_element(p, Element(a)), number))
}

// and back.
pub fn gfroots_element_of_number(p: u32, number: u32, element: &mut [u32]) -> u32
    ensures value { result ≡ returned (element_outcome p number) (fits 1 element.old) }
    ensures element_after { element.new ≡ after result (value_of (element_outcome p number)) element.old }
{
    status(put_answer(field::element_of_number(p, LogNumber(number)), element))
}

// Exponent to element.
pub fn gfroots_power_of_x(p: u32, exponent: i32, element: &mut [u32]) -> u32
    ensures value { result ≡ returned (power_of_x_outcome p exponent) (fits 1 element.old) }
    ensures element_after { element.new ≡ after result (value_of (power_of_x_outcome p exponent)) element.old }
{
    status(put_answer(field::power_of_x(p, Exponent(exponent)), element))
}
