// An equation's tests, and what has passed them.
ghost use Rattle.std.specs.Prelude.{◌≡◌, ◌≤◌, length};
ghost use Rattle.algebra.specs.Lists.{padded};
ghost use Rattle.linear.specs.Limits.{places};
ghost use Rattle.galois.specs.Polynomial.{AllZero};
ghost use Rattle.field.specs.Refusal.{refusal, outcome};
ghost use Rattle.field.specs.Answers.{of_field, field_of};
ghost use Rattle.roots.specs.Limits.{most_coefficients};
ghost use Rattle.roots.specs.Calls.{all_zero, equation_tests};

use crate::inner::polynomial::Polynomial;
use crate::limits::MOST_COEFFICIENTS;
use arithmetic::inner::field::Field;
use field::Refusal;
use field::inner::refusal::{accepted, of_list, wrong_count};

// A polynomial with coefficients that are not all 0, over a field with places for all of its digits.
#[derive(Clone, Copy, Debug, PartialEq, Eq)]
pub struct Equation {
    pub polynomial: Polynomial,
    pub ghost largest: { polynomial.field.degree ≤ places },
    pub ghost nonzero: { AllZero polynomial.coefficients → ⊥ },
}

impl Equation {
    pub fn new(field: Field, coefficients: &[u32]) -> Self
        requires { refusal (equation_tests field.polynomial coefficients.now) ≡ 0 }
        ensures field { result.polynomial.field ≡ field }
        ensures coefficients { result.polynomial.coefficients ≡ padded most_coefficients coefficients.now }
    {
        let coefficients = five(coefficients);
        let polynomial = Polynomial {
            field,
            coefficients,
        };
        Equation { polynomial }
    }
}

// Zeros above the coefficients given change nothing.
fn five(coefficients: &[u32]) -> [u32; MOST_COEFFICIENTS]
    requires { length coefficients.now ≤ most_coefficients }
    ensures { result ≡ padded most_coefficients coefficients.now }
{
    let mut out: [u32; MOST_COEFFICIENTS] = [0; MOST_COEFFICIENTS];
    out[..coefficients.len()].copy_from_slice(coefficients);
    out
}

fn all_zero(coefficients: &[u32]) -> bool
    ensures { result ≡ all_zero coefficients.now }
{
    coefficients.iter().all(|c| *c == 0)
}

// The field, where the polynomial and the coefficients pass their tests.
pub fn tested(p: u32, coefficients: &[u32]) -> Result<Field, Refusal>
    ensures { of_field result ≡ outcome (equation_tests p coefficients.now) (field_of p) }
{
    let field = accepted(p)?;
    of_list(
        field,
        wrong_count(MOST_COEFFICIENTS, coefficients.len()),
        coefficients,
    )?;
    if all_zero(coefficients) {
        return Err(Refusal::AllZero);
    }
    Ok(field)
}
