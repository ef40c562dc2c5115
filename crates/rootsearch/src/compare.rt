// The two calls of `roots` beside what the search and the program's own tests say.
use crate::polynomial::Polynomial;
use crate::search;
use crate::search::Root;
use roots::RootsAnswer;
use trial::inner::plain::Field;
use trial::inner::refusal::Refusal;

// Whether an answer's places hold these roots, and 0 after them.
fn roots_agree(answer: &RootsAnswer, found: &[Root]) -> bool {
    let places = answer.roots.iter().zip(&answer.multiplicities);
    places.enumerate().all(|(i, (element, multiplicity))| {
        let root = found.get(i).copied().unwrap_or_default();
        root.element == *element && root.multiplicity == *multiplicity as usize
    })
}

// Whether `solve` answers by the roots found, or turns the call down for what it is to be.
pub fn solve_agrees(
    field: Field,
    coefficients: &[u32],
    expected: Result<&[Root], Refusal>,
) -> bool {
    let answer = roots::solve(field.polynomial, coefficients);
    let count = expected.map(|found| found.len()).map_err(Refusal::number);
    let said = answer
        .count
        .map(|n| n as usize)
        .map_err(field::Refusal::number);
    said == count && roots_agree(&answer, expected.unwrap_or(&[]))
}

// Whether `build` gives the product over the list, or turns the call down for what it is to be; and then whether `solve` gives the list's
// entries back from the coefficients that were built from them.
pub fn build_agrees(field: Field, list: &[u32], expected: Result<(), Refusal>) -> bool {
    match (roots::build(field.polynomial, list), expected) {
        (Err(said), Err(refusal)) => said.number() == refusal.number(),
        (Ok(coefficients), Ok(())) => {
            let found = search::listed(field, list);
            coefficients == Polynomial::with_roots(field, 1, list).coefficients
                && solve_agrees(field, &coefficients, Ok(&found))
        }
        _ => false,
    }
}
