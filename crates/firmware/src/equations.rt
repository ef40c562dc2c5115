// Equations of degree up to 4.
ghost use Rattle.std.specs.Prelude.{◌≡◌};
ghost use Rattle.roots.specs.Limits.{most_coefficients};
ghost use Rattle.roots.specs.Calls.{solve_answer, build_answer};
ghost use Rattle.roots.specs.Answers.{of_roots, of_built};
ghost use Rattle.firmware.specs.Lent.{fits, returned, after, value_of, status, roots_fit};

use crate::inner::lent::{put, put_all, status};
use field::Refusal;
use roots::RootsAnswer;
use roots::limits::{MOST_COEFFICIENTS, MOST_ROOTS};

// How many roots there are, and the roots, each with its multiplicity, in four places each.
fn put_roots(
    answer: RootsAnswer,
    count: &mut [u32],
    roots: &mut [u32],
    multiplicities: &mut [u32],
) -> Result<(), Refusal>
    ensures value { status result ≡ returned (of_roots answer).says (roots_fit count.old roots.old multiplicities.old) }
    ensures count_after { count.new ≡ after (status result) (value_of (of_roots answer).says) count.old }
    ensures roots_after { roots.new ≡ after (status result) (of_roots answer).roots roots.old }
    ensures multiplicities_after { multiplicities.new ≡ after (status result) (of_roots answer).multiplicities multiplicities.old }
{
    let n = answer.count?;
    if roots.len() < MOST_ROOTS || multiplicities.len() < MOST_ROOTS {
        return Err(Refusal::NoPlace);
    }
    put(n, count)?;
    let found = answer.roots;
    put_all(&found, roots);
    let often = answer.multiplicities;
    put_all(&often, multiplicities);
    Ok(())
}

// Every root of the polynomial with these coefficients, constant first, with its multiplicity.
pub fn gfroots_solve(
    p: u32,
    coefficients: &[u32],
    count: &mut [u32],
    roots: &mut [u32],
    multiplicities: &mut [u32],
) -> u32
    ensures value { result ≡ returned (solve_answer p coefficients.now).says (roots_fit count.old roots.old multiplicities.old) }
    ensures count_after { count.new ≡ after result (value_of (solve_answer p coefficients.now).says) count.old }
    ensures roots_after { roots.new ≡ after result (solve_answer p coefficients.now).roots roots.old }
    ensures multiplicities_after { multiplicities.new ≡ after result (solve_answer p coefficients.now).multiplicities multiplicities.old }
{
    let answer = roots::solve(p, coefficients);
    status(put_roots(answer, count, roots, multiplicities))
}

fn put_coefficients(
    answer: Result<[u32; MOST_COEFFICIENTS], Refusal>,
    coefficients: &mut [u32],
) -> Result<(), Refusal>
    ensures value { status result ≡ returned (of_built answer).says (fits most_coefficients coefficients.old) }
    ensures coefficients_after { coefficients.new ≡ after (status result) (of_built answer).coefficients coefficients.old }
{
    let built = answer?;
    if coefficients.len() < MOST_COEFFICIENTS {
        return Err(Refusal::NoPlace);
    }
    put_all(&built, coefficients);
    Ok(())
}

// The coefficients of the product of all (x + r), constant first, in five places.
pub fn gfroots_build(p: u32, roots: &[u32], coefficients: &mut [u32]) -> u32
    ensures value { result ≡ returned (build_answer p roots.now).says (fits most_coefficients coefficients.old) }
    ensures coefficients_after { coefficients.new ≡ after result (build_answer p roots.now).coefficients coefficients.old }
{
    status(put_coefficients(roots::build(p, roots), coefficients))
}
