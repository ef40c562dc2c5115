// The answer to an equation that has passed its tests.
ghost use Rattle.std.specs.Prelude.{◌≡◌};
ghost use Rattle.field.specs.Refusal.{refusal};
ghost use Rattle.roots.specs.Answers.{of_roots};
ghost use Rattle.roots.specs.Calls.{equation_tests, solve_answer};

use crate::RootsAnswer;
use crate::inner::equation::Equation;
use arithmetic::inner::field::Field;
use binary::inner::digit::degree;

// Asks for no more than the tests' passing, so that the benchmark can call it as a solve does.
pub fn solved(p: u32, coefficients: &[u32]) -> RootsAnswer
    requires { refusal (equation_tests p coefficients.now) ≡ 0 }
    ensures { of_roots result ≡ solve_answer p coefficients.now }
{
    let field = Field {
        polynomial: p,
        degree: degree(p),
    };
    let equation = Equation::new(field, coefficients);
    let found = equation.roots().sorted();
    let counts = equation.multiplicities(found);
    let roots = found.numbers;
    let multiplicities = counts.numbers;
    RootsAnswer {
        count: Ok(found.count as u32),
        roots,
        multiplicities,
    }
}
