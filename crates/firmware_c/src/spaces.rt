// Affine equations.
ghost use Rattle.std.specs.Prelude.{◌≡◌, length};
ghost use Rattle.binary.specs.Factor.{degree_of};
ghost use Rattle.affine.specs.Equation.{all_roots};
ghost use Rattle.affine.specs.Calls.{solve_answer, place_outcome, listing_outcome};
ghost use Rattle.firmware.specs.Lent.{fits, returned, after, value_of, space_values, space_fits};

use linear::inner::listing::Entry;

// All roots, as base and directions: found or not, k and the base in one list, the directions in the other.
#[unsafe(no_mangle)]
pub extern "C" fn gfroots_affine_solve(
    p: u32,
    coefficients: &[u32],
    space: &mut [u32],
    directions: &mut [u32],
) -> u32
    ensures value { result ≡ returned (solve_answer p coefficients.now).says (space_fits space.old directions.old) }
    ensures space_after { space.new ≡ after result (space_values (solve_answer p coefficients.now).says (solve_answer p coefficients.now).base) space.old }
    ensures directions_after { directions.new ≡ after result (solve_answer p coefficients.now).directions directions.old }
{
    firmware::spaces::gfroots_affine_solve(p, coefficients, space, directions)
}

// The root at place n, from 0, in ascending order.
#[unsafe(no_mangle)]
pub extern "C" fn gfroots_root_at_place(
    p: u32,
    coefficients: &[u32],
    n: u32,
    root: &mut [u32],
) -> u32
    ensures value { result ≡ returned (place_outcome p coefficients.now n) (fits 1 root.old) }
    ensures root_after { root.new ≡ after result (value_of (place_outcome p coefficients.now n)) root.old }
{
    firmware::spaces::gfroots_root_at_place(p, coefficients, n, root)
}

// All roots, ascending, at the front of the lent list, and how many they are.
#[unsafe(no_mangle)]
pub extern "C" fn gfroots_list_roots(
    p: u32,
    coefficients: &[u32],
    count: &mut [u32],
    list: &mut [Entry],
) -> u32
    ensures value { result ≡ returned (listing_outcome p coefficients.now (length list.old)) (fits 1 count.old) }
    ensures count_after { count.new ≡ after result (value_of (listing_outcome p coefficients.now (length list.old))) count.old }
    ensures list_after { list.new ≡ after result (all_roots (degree_of p) p coefficients.now) list.old }
{
    firmware::spaces::gfroots_list_roots(p, coefficients, count, list)
}
