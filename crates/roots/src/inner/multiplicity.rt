// How often x + r divides.
ghost use Rattle.std.specs.Prelude.{◌≡◌, ◌^◌, ◌<◌};
ghost use Rattle.galois.specs.Polynomial.{AllZero, IsDegree, Root};
ghost use Rattle.galois.specs.Multiplicity.{multiplicity};
ghost use Rattle.roots.specs.Roots.{roots, multiplicities};
ghost use Rattle.roots.specs.ShortList.{Placed};

use crate::inner::equation::Equation;
use crate::inner::polynomial::Polynomial;
use crate::inner::short_list::ShortList;
use crate::limits::MOST_COEFFICIENTS;

impl Polynomial {
    // One division after the other, until one leaves a remainder.
    fn divisions(self, r: u32) -> u32
        requires { r < 2 ^ self.field.degree }
        ensures { result ≡ multiplicity self.field.polynomial r self.coefficients }
    {
        let mut left = self;
        for k in 0..MOST_COEFFICIENTS as u32 {
            let (remainder, quotient) = left.divided(r);
            if remainder != 0 {
                return k;
            }
            left = quotient;
        }
        MOST_COEFFICIENTS as u32
    }

    // At a root r the quotient by x + r has the value of the derivative, c1 + c3·r^2: where that is not 0, x + r divides once (E5).
    fn multiplicity(self, r: u32) -> u32
        requires { Root self.field.degree self.field.polynomial self.coefficients r }
        ensures { result ≡ multiplicity self.field.polynomial r self.coefficients }
    {
        let f = self.coefficients;
        let field = self.field;
        if f[1] ^ field.product(f[3], field.product(r, r)) != 0 {
            1
        } else {
            self.divisions(r)
        }
    }

    // The highest coefficient that is not 0.
    fn degree(self) -> usize
        requires { AllZero self.coefficients → ⊥ }
        ensures { IsDegree result self.coefficients }
    {
        // The place is the answer, so it is counted.
        for i in (1..MOST_COEFFICIENTS).rev() {
            if self.coefficients[i] != 0 {
                return i;
            }
        }
        0
    }
}

impl Equation {
    // Of each root that was found. As many different roots as the degree: then each counts once, and nothing need be divided (E5).
    pub fn multiplicities(self, found: ShortList) -> ShortList
        requires { Placed (roots self) found }
        ensures { Placed (multiplicities self) result }
    {
        let f = self.polynomial;
        if found.count == f.degree() {
            found.map(|_| 1)
        } else {
            found.map(move |r| f.multiplicity(r))
        }
    }
}
