// The inverse by Euclid's algorithm, one digit a turn; and the quotient.
ghost use Rattle.std.specs.Prelude.{◌≡◌, ◌^◌, ◌<◌};
ghost use Rattle.binary.specs.Product.{product};
ghost use Rattle.arithmetic.specs.Quotient.{quotient_of};

use crate::inner::field::Field;
use binary::inner::digit::degree;

impl Field {
    // Throughout, g·a = u and h·a = v modulo the polynomial. A turn takes the top digit off the larger of u and v by a shift of the other,
    // and does the same to its multiplier; the polynomial has no factor, so it ends at u = 1, and g is the inverse.
    pub fn inverse(self, a: u32) -> u32
        requires { (0 < a) × (a < 2 ^ self.degree) }
        ensures { (product self.polynomial a result ≡ 1) × (result < 2 ^ self.degree) }
    {
        let mut u = a;
        let mut v = self.polynomial;
        let mut g: u32 = 1;
        let mut h: u32 = 0;
        // No index: the turns end with u.
        while u != 1 {
            // A choice of values, and no swap in place: so the compiler makes no branch of it.
            let (high, low, above, below) = if u < v { (v, u, h, g) } else { (u, v, g, h) };
            let j = degree(high) - degree(low);
            u = high ^ low << j;
            v = low;
            g = above ^ below << j;
            h = below;
        }
        g
    }

    // The one element q with q·b = a.
    pub fn quotient(self, a: u32, b: u32) -> u32
        requires { (a < 2 ^ self.degree) × (0 < b) × (b < 2 ^ self.degree) }
        ensures { result ≡ quotient_of self.degree self.polynomial a b }
    {
        self.product(a, self.inverse(b))
    }
}
