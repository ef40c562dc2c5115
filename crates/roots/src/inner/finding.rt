// The roots of an equation of degree up to 4, each once, in no order (E1 to E4). Every step keeps the roots and adds none, so that no number
// need be tried.
ghost use Rattle.std.specs.Prelude.{◌≡◌, ◌≢◌, ◌^◌, ◌≤◌, ◌<◌, get_or, option_map};
ghost use Rattle.galois.specs.Polynomial.{Coeffs};
ghost use Rattle.galois.specs.Roots.{roots_of};
ghost use Rattle.linear.specs.Limits.{places};
ghost use Rattle.linear.specs.Values.{solutions};
ghost use Rattle.affine.specs.Equation.{solution_of};
ghost use Rattle.roots.specs.Equation.{Ready, quartic_of, folded, from_inverse};
ghost use Rattle.roots.specs.Roots.{AreRoots};
ghost use Rattle.roots.specs.ShortList.{entries};

use crate::inner::equation::Equation;
use crate::inner::short_list::ShortList;
use affine::inner::equation::solution;
use arithmetic::inner::field::Field;
use linear::inner::space::Space;

// The degree of the smallest field. There x^4 = x for every element, and affine equations stop at x^2: the coefficient of x^4 is added to
// that of x.
const FOLDED: u32 = 2;

// The solutions of c + l0·x + l1·x^2 + l2·x^4 = 0 as base and directions.
fn space(field: Field, c: u32, l0: u32, l1: u32, l2: u32) -> Option<Space>
    requires { (field.degree ≤ places) × Coeffs field.degree (quartic_of c l0 l1 l2) }
    ensures { option_map solutions result ≡ solution_of field.polynomial (folded field.degree c l0 l1 l2) }
{
    if field.degree == FOLDED {
        solution(field, &[c, l0 ^ l2, l1])
    } else {
        solution(field, &[c, l0, l1, l2])
    }
}

// The roots of c + l0·x + l1·x^2 + l2·x^4, not all zero: there are at most four, so at most two directions.
fn solutions(field: Field, c: u32, l0: u32, l1: u32, l2: u32) -> ShortList
    requires { Ready field.degree field.polynomial (quartic_of c l0 l1 l2) }
    ensures { entries result ≡ roots_of field.degree field.polynomial (quartic_of c l0 l1 l2) }
{
    let Some(space) = space(field, c, l0, l1, l2) else {
        return ShortList::empty();
    };
    let base = space.base;
    let [first, second, ..] = space.directions;
    ShortList {
        count: space.size() as usize,
        numbers: [base, base ^ first, base ^ second, base ^ first ^ second],
    }
}

// s + 1/y.
fn from_inverse(field: Field, s: u32, y: u32) -> u32
    requires { (0 < y) × (y < 2 ^ field.degree) }
    ensures { result ≡ from_inverse field.degree field.polynomial s y }
{
    s ^ field.inverse(y)
}

impl Equation {
    // Degree 1: c0/c1 (E1).
    fn linear_root(self) -> ShortList
        requires { (get_or self.polynomial.coefficients 1 0 ≢ 0) × (get_or self.polynomial.coefficients 2 0 ≡ 0) × (get_or self.polynomial.coefficients 3 0 ≡ 0) × (get_or self.polynomial.coefficients 4 0 ≡ 0) }
        ensures { AreRoots self (entries result) }
    {
        let [c0, c1, ..] = self.polynomial.coefficients;
        let root = self.polynomial.field.quotient(c0, c1);
        ShortList::empty().with_last(root)
    }

    // Degree 3: x = z + t with t = c2/c3 takes away the term z^2. Times z it is c3·z^4 + (c1 + c2·t)·z^2 + (c0 + c1·t)·z, and affine (E2).
    // The root 0 that comes with the factor z, the smallest of all, counts only if t is a root of the cubic, whose value there is c0 + c1·t.
    fn cubic_roots(self) -> ShortList
        requires { (get_or self.polynomial.coefficients 3 0 ≢ 0) × (get_or self.polynomial.coefficients 4 0 ≡ 0) }
        ensures { AreRoots self (entries result) }
    {
        let field = self.polynomial.field;
        let [c0, c1, c2, c3, _] = self.polynomial.coefficients;
        let t = field.quotient(c2, c3);
        let l0 = c0 ^ field.product(c1, t);
        let l1 = c1 ^ field.product(c2, t);
        let zs = solutions(field, 0, l0, l1, c3);
        if l0 != 0 {
            zs.rest().map(move |z| z ^ t)
        } else {
            zs.map(move |z| z ^ t)
        }
    }

    // Degree 4 with c3 not 0: x = s + 1/y with s^2 = q = c1/c3 takes away the term y^3. Times y^4 it is
    // f(s)·y^4 + (c2 + c3·s)·y^2 + c3·y + c4, and y is not 0 as c4 is not (E3). As c3·s^3 = c1·s, f(s) is c4·q^2 + c2·q + c0. No y stands for
    // s itself.
    fn quartic_roots(self) -> ShortList
        requires { (get_or self.polynomial.coefficients 3 0 ≢ 0) × (get_or self.polynomial.coefficients 4 0 ≢ 0) }
        ensures { AreRoots self (entries result) }
    {
        let field = self.polynomial.field;
        let [c0, c1, c2, c3, c4] = self.polynomial.coefficients;
        let q = field.quotient(c1, c3);
        let s = field.square_root(q);
        let l1 = c2 ^ field.product(c3, s);
        let l2 = c0 ^ field.product(q, c2 ^ field.product(q, c4));
        let ys = solutions(field, c4, c3, l1, l2);
        let others = ys.map(move |y| from_inverse(field, s, y));
        if l2 != 0 { others } else { others.with_last(s) }
    }

    // With a term in x^3: a quartic or a cubic. Without one: an equation that is affine as it stands, of degree 4 or 2; degree 1; a constant.
    pub fn roots(self) -> ShortList
        ensures { AreRoots self (entries result) }
    {
        let [c0, c1, c2, c3, c4] = self.polynomial.coefficients;
        if c3 != 0 {
            if c4 != 0 {
                self.quartic_roots()
            } else {
                self.cubic_roots()
            }
        } else if c2 | c4 != 0 {
            solutions(self.polynomial.field, c0, c1, c2, c4)
        } else if c1 != 0 {
            self.linear_root()
        } else {
            ShortList::empty()
        }
    }
}
