// The product of all (x + r).
ghost use Rattle.std.specs.Prelude.{◌≡◌, ◌≤◌, length};
ghost use Rattle.algebra.specs.Lists.{padded};
ghost use Rattle.galois.specs.Polynomial.{Coeffs, build};
ghost use Rattle.field.specs.Refusal.{outcome};
ghost use Rattle.field.specs.Answers.{of_field, field_of};
ghost use Rattle.roots.specs.Limits.{most_coefficients, most_roots};
ghost use Rattle.roots.specs.Calls.{build_tests};

use crate::inner::polynomial::Polynomial;
use crate::limits::{MOST_COEFFICIENTS, MOST_ROOTS};
use arithmetic::inner::field::Field;
use field::Refusal;
use field::inner::refusal::{accepted, of_list};

// The field, where the polynomial and the roots pass their tests.
pub fn tested(p: u32, roots: &[u32]) -> Result<Field, Refusal>
    ensures { of_field result ≡ outcome (build_tests p roots.now) (field_of p) }
{
    let field = accepted(p)?;
    of_list(field, MOST_ROOTS < roots.len(), roots)?;
    Ok(field)
}

// From the last root to the first, beginning with 1.
pub fn built(field: Field, roots: &[u32]) -> [u32; MOST_COEFFICIENTS]
    requires { (length roots.now ≤ most_roots) × Coeffs field.degree roots.now }
    ensures { result ≡ padded most_coefficients (build field.polynomial roots.now) }
{
    let mut f = Polynomial::one(field);
    // The place is the count of the roots before it, too.
    for i in (0..roots.len()).rev() {
        f = f.with_root(roots.len() - i, roots[i]);
    }
    f.coefficients
}
