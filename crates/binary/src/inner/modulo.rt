// Sums and products modulo a polynomial.
ghost use Rattle.std.specs.Prelude.{◌≡◌, ◌^◌, ◌≤◌, ◌<◌};
ghost use Rattle.binary.specs.Product.{product, times_x, Modulus as IsModulus};
ghost use Rattle.binary.specs.Factor.{degree_of};

use crate::inner::digit::{degree, picked};

// A polynomial to divide by, and its degree: from 2 on, and small enough that a double has room in a word.
#[derive(Clone, Copy, Debug, PartialEq, Eq)]
pub struct Modulus {
    pub polynomial: u32,
    pub degree: u32,
    pub ghost is_modulus: { IsModulus degree polynomial },
}

impl Modulus {
    pub fn new(polynomial: u32) -> Self
        requires { (4 ≤ polynomial) × (polynomial < 2 ^ 31) }
        ensures { (result.polynomial ≡ polynomial) × (result.degree ≡ degree_of polynomial) }
    {
        Modulus {
            polynomial,
            degree: degree(polynomial),
        }
    }

    // x times the polynomial x: a shift, and the modulus taken off where a digit goes out at the top.
    pub fn doubled(self, x: u32) -> u32
        requires { x < 2 ^ self.degree }
        ensures { result ≡ times_x self.polynomial x }
    {
        x * 2 ^ picked(x >> (self.degree - 1), self.polynomial)
    }

    // One digit of b a turn, lowest first, with a doubled beside it.
    pub fn product(self, a: u32, b: u32) -> u32
        requires { (a < 2 ^ self.degree) × (b < 2 ^ self.degree) }
        ensures { result ≡ product self.polynomial a b }
    {
        let mut sum: u32 = 0;
        let mut x = a;
        let mut y = b;
        for _ in 0..self.degree {
            sum ^= picked(y % 2, x);
            x = self.doubled(x);
            y /= 2;
        }
        sum
    }
}
