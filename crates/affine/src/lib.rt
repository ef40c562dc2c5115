// Affine equations c + l0·x + l1·x^2 + l2·x^4 + .. over GF(2^m): the public calls. Each takes the field polynomial and the coefficients, c
// first, and tests them; none asks anything of its caller, and each answers by its definition in specs/Calls, for every input.
#![tactic(auto)]

ghost use Rattle.std.specs.Prelude.{◌≡◌, length};
ghost use Rattle.field.specs.Answers.{of_value, of_element};
ghost use Rattle.affine.specs.Answers.{of_affine};
ghost use Rattle.affine.specs.Calls.{solve_answer, place_outcome, listing_outcome, listing_after};

pub mod inner;
pub mod space;

use crate::inner::equation::{solution, tested};
pub use crate::space::RootSpace;
use field::{Element, Refusal};
use linear::inner::listing::Entry;

// All roots, as base and directions; None where there is no root.
pub fn solve(p: u32, coefficients: &[u32]) -> Result<Option<RootSpace>, Refusal>
    ensures { of_affine result ≡ solve_answer p coefficients.now }
{
    let field = tested(p, coefficients)?;
    // A `map` would do, but its proof is given no name for what `from` says of the space.
    match solution(field, coefficients) {
        Some(space) => Ok(Some(RootSpace::from(space))),
        None => Ok(None),
    }
}

// The root at place n, from 0, in ascending order.
pub fn root_at_place(p: u32, coefficients: &[u32], n: u32) -> Result<Element, Refusal>
    ensures { of_element result ≡ place_outcome p coefficients.now n }
{
    let field = tested(p, coefficients)?;
    let Some(space) = solution(field, coefficients) else {
        return Err(Refusal::NoPlace);
    };
    if space.size() <= n {
        return Err(Refusal::NoPlace);
    }
    Ok(Element(space.place(n)))
}

// All roots, ascending, at the front of the lent list; the entries after them stay as they were.
pub fn list_roots(p: u32, coefficients: &[u32], list: &mut [Entry]) -> Result<u32, Refusal>
    ensures result_value { of_value result ≡ listing_outcome p coefficients.now (length list.old) }
    ensures list_after { list.new ≡ listing_after p coefficients.now list.old }
{
    let field = tested(p, coefficients)?;
    let Some(space) = solution(field, coefficients) else {
        return Ok(0);
    };
    let roots = space.size();
    if list.len() < roots as usize {
        return Err(Refusal::NoPlace);
    }
    space.list_all(list);
    Ok(roots)
}
