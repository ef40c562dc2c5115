// The search over all elements.
use crate::polynomial::Polynomial;
use arrayvec::ArrayVec;
use trial::inner::plain::Field;

// Room for one root more than an answer has. There are never more than four; if there were, the fifth would show in the comparison, so those
// after it may be let go.
const ROOTS: usize = 5;

#[derive(Debug, Clone, Copy, Default, PartialEq, Eq)]
pub struct Root {
    pub element: u32,
    pub multiplicity: usize,
}

// The roots, ascending: the elements whose multiplicity is not 0.
fn roots<F: Fn(u32) -> usize>(field: Field, multiplicity: F) -> ArrayVec<Root, ROOTS>
    requires { F.IsAlwaysCallable multiplicity }
{
    let mut roots = ArrayVec::new();
    for element in 0..field.size() {
        let multiplicity = multiplicity(element);
        if multiplicity != 0 {
            let _ = roots.try_push(Root {
                element,
                multiplicity,
            });
        }
    }
    roots
}

// The roots by trying every element.
pub fn solved(polynomial: Polynomial) -> ArrayVec<Root, ROOTS> {
    roots(polynomial.field, |x| polynomial.multiplicity(x))
}

// The roots of the polynomial that was built from the list, without solving: every element that stands in it, as often as it does.
pub fn listed(field: Field, list: &[u32]) -> ArrayVec<Root, ROOTS> {
    roots(field, |x| list.iter().filter(|r| **r == x).count())
}
