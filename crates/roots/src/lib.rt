// Equations of degree up to 4 over GF(2^m): the public calls. Each takes the field polynomial and tests its input; none asks anything of its
// caller, and each answers by its definition in specs/Calls, for every input.
#![tactic(auto)]

ghost use Rattle.std.specs.Prelude.{◌≡◌};
ghost use Rattle.roots.specs.Answers.{of_roots, of_built};
ghost use Rattle.roots.specs.Calls.{solve_answer, build_answer};

pub mod inner;
pub mod limits;

use crate::inner::solved::solved;
use crate::inner::{building, equation};
use crate::limits::{MOST_COEFFICIENTS, MOST_ROOTS};
use field::Refusal;

// The number of different roots, or why the equation is turned down. The roots, ascending, stand first in their places, each with its
// multiplicity in the same place; unused places are 0. The scope names this form: the arrays stand beside the Result.
#[derive(Clone, Copy, Debug, PartialEq, Eq)]
pub struct RootsAnswer {
    pub count: Result<u32, Refusal>,
    pub roots: [u32; MOST_ROOTS],
    pub multiplicities: [u32; MOST_ROOTS],
}

// Every root of the polynomial with these coefficients, constant first, with its multiplicity.
pub fn solve(p: u32, coefficients: &[u32]) -> RootsAnswer
    ensures { of_roots result ≡ solve_answer p coefficients.now }
{
    match equation::tested(p, coefficients) {
        Ok(_) => solved(p, coefficients),
        Err(refusal) => RootsAnswer {
            count: Err(refusal),
            roots: [0; MOST_ROOTS],
            multiplicities: [0; MOST_ROOTS],
        },
    }
}

// The coefficients of the product of all (x + r), constant first, 0 above the degree.
pub fn build(p: u32, roots: &[u32]) -> Result<[u32; MOST_COEFFICIENTS], Refusal>
    ensures { of_built result ≡ build_answer p roots.now }
{
    let field = building::tested(p, roots)?;
    Ok(building::built(field, roots))
}
