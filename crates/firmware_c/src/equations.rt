// Equations of degree up to 4.
ghost use Rattle.std.specs.Prelude.{◌≡◌};
ghost use Rattle.roots.specs.Limits.{most_coefficients};
ghost use Rattle.roots.specs.Calls.{solve_answer, build_answer};
ghost use Rattle.firmware.specs.Lent.{fits, returned, after, value_of, roots_fit};

// Every root of the polynomial with these coefficients, constant first, with its multiplicity.
#[unsafe(no_mangle)]
pub extern "C" fn gfroots_solve(
    p: u32,
    coefficients: &[u32],
    count: &mut [u32],
    roots: &mut [u32],
    multiplicities: &mut [u32],
) -> u32
    ensures value { result ≡ returned (solve_answer p coefficients.now).says (roots_fit count.old roots.old multiplicities.old) }
    ensures count_after { count.new ≡ after result (value_of (solve_answer p coefficients.now).says) count.old }
    ensures roots_after { roots.new ≡ after result (solve_answer p coefficients.now).roots roots.old }
    ensures multiplicities_after { multiplicities.new ≡ after result (solve_answer p coefficients.now).multiplicities multiplicities.old }
{
    firmware::equations::gfroots_solve(p, coefficients, count, roots, multiplicities)
}

// The coefficients of the product of all (x + r), constant first, in five places.
#[unsafe(no_mangle)]
pub extern "C" fn gfroots_build(p: u32, roots: &[u32], coefficients: &mut [u32]) -> u32
    ensures value { result ≡ returned (build_answer p roots.now).says (fits most_coefficients coefficients.old) }
    ensures coefficients_after { coefficients.new ≡ after result (build_answer p roots.now).coefficients coefficients.old }
{
    firmware::equations::gfroots_build(p, roots, coefficients)
}
