// An equation's tests, and its solution by elimination.
ghost use Rattle.std.specs.Prelude.{◌≡◌, option_map};
ghost use Rattle.field.specs.Refusal.{outcome};
ghost use Rattle.field.specs.Answers.{of_field, field_of};
ghost use Rattle.linear.specs.Values.{solutions};
ghost use Rattle.affine.specs.Equation.{Ready, solution_of};
ghost use Rattle.affine.specs.Calls.{equation_tests};

use crate::inner::columns::columns_of;
use arithmetic::inner::field::Field;
use field::Refusal;
use field::inner::refusal::{accepted, of_list, wrong_count};
use linear::inner::solution::solved;
use linear::inner::space::Space;
use linear::inner::system::rows_of;

// The field, where the polynomial and the coefficients pass their tests.
pub fn tested(p: u32, coefficients: &[u32]) -> Result<Field, Refusal>
    ensures { of_field result ≡ outcome (equation_tests p coefficients.now) (field_of p) }
{
    let field = accepted(p)?;
    let most = (field.degree + 1) as usize;
    of_list(field, wrong_count(most, coefficients.len()), coefficients)?;
    Ok(field)
}

// The roots of an equation that has passed: its matrix by columns, and the elimination.
pub fn solution(field: Field, coefficients: &[u32]) -> Option<Space>
    requires { Ready field.degree field.polynomial coefficients.now }
    ensures { option_map solutions result ≡ solution_of field.polynomial coefficients.now }
{
    let columns = columns_of(field, &coefficients[1..]);
    let rows = rows_of(field.degree, columns, coefficients[0]);
    solved(field.degree, rows)
}
