// Affine equations.
ghost use Rattle.std.specs.Prelude.{◌≡◌, false, [], ◌∷◌, length};
ghost use Rattle.binary.specs.Factor.{degree_of};
ghost use Rattle.affine.specs.Equation.{all_roots};
ghost use Rattle.affine.specs.Calls.{solve_answer, place_outcome, listing_outcome};
ghost use Rattle.affine.specs.Answers.{of_roots, of_affine};
ghost use Rattle.firmware.specs.Lent.{fits, returned, after, value_of, status, space_values, space_fits, room_number};

use crate::inner::lent::{put_all, put_answer, status};
use affine::RootSpace;
use field::Refusal;
use linear::inner::elimination::PLACES;
use linear::inner::listing::Entry;

// Found or not, k and the base in three places.
const SPACE_PLACES: usize = 3;

// The three, and the directions: a space's, or zeros where there is no root.
fn put_space(
    answer: Option<RootSpace>,
    space: &mut [u32],
    directions: &mut [u32],
) -> Result<(), Refusal>
    ensures value { status result ≡ room_number (space_fits space.old directions.old) }
    ensures space_after { space.new ≡ after (status result) (space_values (of_roots answer).says (of_roots answer).base) space.old }
    ensures directions_after { directions.new ≡ after (status result) (of_roots answer).directions directions.old }
{
    if space.len() < SPACE_PLACES || directions.len() < PLACES {
        return Err(Refusal::NoPlace);
    }
    match answer {
        Some(found) => {
            let steps = found.directions;
            put_all(&[1, found.dimension, found.base.0], space);
            put_all(&steps, directions);
        }
        None => {
            put_all(&[0; SPACE_PLACES], space);
            put_all(&[0; PLACES], directions);
        }
    }
    Ok(())
}

fn put_solved(
    answer: Result<Option<RootSpace>, Refusal>,
    space: &mut [u32],
    directions: &mut [u32],
) -> Result<(), Refusal>
    ensures value { status result ≡ returned (of_affine answer).says (space_fits space.old directions.old) }
    ensures space_after { space.new ≡ after (status result) (space_values (of_affine answer).says (of_affine answer).base) space.old }
    ensures directions_after { directions.new ≡ after (status result) (of_affine answer).directions directions.old }
{
    put_space(answer?, space, directions)
}

// All roots, as base and directions: found or not, k and the base in one list, the directions in the other.
pub fn gfroots_affine_solve(
    p: u32,
    coefficients: &[u32],
    space: &mut [u32],
    directions: &mut [u32],
) -> u32
    ensures value { result ≡ returned (solve_answer p coefficients.now).says (space_fits space.old directions.old) }
    ensures space_after { space.new ≡ after result (space_values (solve_answer p coefficients.now).says (solve_answer p coefficients.now).base) space.old }
    ensures directions_after { directions.new ≡ after result (solve_answer p coefficients.now).directions directions.old }
{
    status(put_solved(affine::solve(p, coefficients), space, directions))
}

// The root at place n, from 0, in ascending order.
pub fn gfroots_root_at_place(p: u32, coefficients: &[u32], n: u32, root: &mut [u32]) -> u32
    ensures value { result ≡ returned (place_outcome p coefficients.now n) (fits 1 root.old) }
    ensures root_after { root.new ≡ after result (value_of (place_outcome p coefficients.now n)) root.old }
{
    status(put_answer(affine::root_at_place(p, coefficients, n), root))
}

// With no place for the count nothing may be listed: turned down as the solver turns it down, else by 7.
fn without_count(p: u32, coefficients: &[u32]) -> u32
    ensures { result ≡ returned (solve_answer p coefficients.now).says false }
{
    match affine::solve(p, coefficients) {
        Ok(_) => Refusal::NoPlace.number(),
        Err(refusal) => refusal.number(),
    }
}

// All roots, ascending, at the front of the lent list, and how many they are.
pub fn gfroots_list_roots(
    p: u32,
    coefficients: &[u32],
    count: &mut [u32],
    list: &mut [Entry],
) -> u32
    ensures value { result ≡ returned (listing_outcome p coefficients.now (length list.old)) (fits 1 count.old) }
    ensures count_after { count.new ≡ after result (value_of (listing_outcome p coefficients.now (length list.old))) count.old }
    ensures list_after { list.new ≡ after result (all_roots (degree_of p) p coefficients.now) list.old }
{
    if count.len() == 0 {
        return without_count(p, coefficients);
    }
    status(put_answer(affine::list_roots(p, coefficients, list), count))
}
