// The three calls of `affine` beside what the search and the program's own tests say.
use crate::equation::{ELEMENTS, Equation};
use affine::RootSpace;
use trial::inner::refusal::Refusal;

// The roots, ascending, or why the call is to be turned down.
pub type Expected<'a> = Result<&'a [u16], Refusal>;

// The length of the list that is lent: all elements, and eight entries to spare.
pub const ENTRIES: usize = 65544;

// What a lent list is filled with before a call.
const FILLING: u16 = 43690;

fn space_agrees(space: &RootSpace, equation: &Equation<'_>, roots: &[u16]) -> bool {
    let k = space.dimension;
    k <= 16
        && 1 << k == roots.len()
        && roots
            .first()
            .is_some_and(|base| u32::from(*base) == space.base.0)
        && space.directions == equation.directions()
}

fn solve_agrees(equation: &Equation<'_>, expected: Expected<'_>) -> bool {
    let answer = affine::solve(equation.field.polynomial, equation.coefficients);
    match (answer, expected) {
        (Err(said), Err(refusal)) => said.number() == refusal.number(),
        (Ok(None), Ok(roots)) => roots.is_empty(),
        (Ok(Some(space)), Ok(roots)) => space_agrees(&space, equation, roots),
        _ => false,
    }
}

// A listing into the whole of a list, filled before: it is to hold the roots, and the filling after them; one that is too short for the roots
// stays as it was.
fn listing_agrees(equation: &Equation<'_>, expected: Expected<'_>, list: &mut [u16]) -> bool {
    list.fill(FILLING);
    let answer = affine::list_roots(equation.field.polynomial, equation.coefficients, list);
    let listed = match expected {
        Ok(roots) if list.len() < roots.len() => Err(Refusal::NoPlace),
        _ => expected,
    };
    let roots = listed.unwrap_or(&[]);
    let count = listed.map(|roots| roots.len()).map_err(Refusal::number);
    let rest = list.strip_prefix(roots);
    answer.map(|n| n as usize).map_err(field::Refusal::number) == count
        && rest.is_some_and(|rest| rest.iter().all(|x| *x == FILLING))
}

// Listings into lists that are longer than needed, just long enough, and an entry too short: the front of the lent one. It is never too short
// for them, as there are no more roots than elements; if there were, `solve` would not have agreed.
fn listings_agree(
    equation: &Equation<'_>,
    expected: Expected<'_>,
    list: &mut [u16; ENTRIES],
) -> bool {
    let count = expected.map_or(0, |roots| roots.len());
    for room in [count.saturating_add(8), count, count.saturating_sub(1)] {
        if !listing_agrees(equation, expected, &mut list[..room.min(ENTRIES)]) {
            return false;
        }
    }
    true
}

// The root at place n.
fn root_at_place(expected: Expected<'_>, n: u32) -> Result<u32, Refusal> {
    let root = expected?.get(n as usize).ok_or(Refusal::NoPlace)?;
    Ok(u32::from(*root))
}

fn place_agrees(equation: &Equation<'_>, expected: Expected<'_>, n: u32) -> bool {
    let answer = affine::root_at_place(equation.field.polynomial, equation.coefficients, n);
    let said = answer.map(|x| x.0).map_err(field::Refusal::number);
    said == root_at_place(expected, n).map_err(Refusal::number)
}

// How many places were compared, if none differs: those of the roots, the one after the last, and the largest number. From the last place
// down: as a call takes some time, fewer places are compared the further up they are, and every place below 2,048. Such steps are no range's,
// so the loop carries the place.
fn places_compared(equation: &Equation<'_>, expected: Expected<'_>) -> Option<u32> {
    let count = expected.map_or(0, |roots| roots.len().min(ELEMENTS) as u32);
    let mut compared = 2;
    let mut left = count;
    while let Some(n) = left.checked_sub(1) {
        if !place_agrees(equation, expected, n) {
            return None;
        }
        compared += 1;
        left = n - n / 2048 * 20;
    }
    let agrees = place_agrees(equation, expected, count)
        && place_agrees(equation, expected, u32::MAX);
    agrees.then_some(compared)
}

// All comparisons of an equation's three calls: how many places were compared, if nothing differs.
pub fn compared(
    equation: &Equation<'_>,
    expected: Expected<'_>,
    list: &mut [u16; ENTRIES],
) -> Option<u32> {
    if solve_agrees(equation, expected) && listings_agree(equation, expected, list) {
        places_compared(equation, expected)
    } else {
        None
    }
}
