// The field modulo p: polynomials over GF(2) are numbers, bit i the coefficient of x^i. An element is a polynomial of lower degree than p.
ghost use Rattle.std.specs.Prelude.{◌≤◌};

use crate::refusal::Refusal;
use std::ops::Range;

// The largest degree of a field polynomial.
const LARGEST: u32 = 16;

// The degree of a polynomial, up to 16: the first m with p below 2^(m + 1).
fn degree(p: u32) -> u32
    ensures { result ≤ 16 }
{
    (0..LARGEST).find(|&m| p < 2 << m).unwrap_or(LARGEST)
}

// What is left of p after the long division by d, from the highest bit down: bit i of the rest is cleared by the multiple of d that has it
// as its highest bit.
fn remainder(p: u32, d: u32) -> u32 {
    let n = degree(d);
    let mut rest = p;
    for i in (n..=LARGEST).rev() {
        if rest >> i & 1 == 1 {
            rest ^= d << (i - n);
        }
    }
    rest
}

// Whether a polynomial of degree 1 to m/2 divides p. Every one is tried: they are the numbers from 2, which is x, to below 2^(m/2 + 1).
fn has_factor(p: u32) -> bool {
    let end = 2 << (degree(p) / 2);
    (2..end).any(|d| remainder(p, d) == 0)
}

// The field modulo a polynomial: it has 2^m elements, where the polynomial has degree m.
#[derive(Debug, Clone, Copy)]
pub struct Field {
    polynomial: u32,
    size: u32,
}

impl Field {
    // The field polynomials are those of degree 2 to 16 that have no factor.
    pub fn new(polynomial: u32) -> Result<Field, Refusal> {
        if !(4..131_072).contains(&polynomial) {
            return Err(Refusal::OutOfRange);
        }
        if has_factor(polynomial) {
            return Err(Refusal::HasFactor);
        }
        let size = 1 << degree(polynomial);
        Ok(Field { polynomial, size })
    }

    // m, which is at most 16.
    pub fn degree(self) -> u32
        ensures { result ≤ 16 }
    {
        degree(self.polynomial)
    }

    pub fn elements(self) -> Range<u32> {
        0..self.size
    }

    // x times a: a shift, and the polynomial is added where that reaches 2^m.
    fn times_x(self, a: u32) -> u32 {
        let shifted = a << 1;
        if shifted < self.size {
            shifted
        } else {
            shifted ^ self.polynomial
        }
    }

    // a times b, by the bits of b from the highest down: the sum so far is multiplied by x, and a is added where the bit is 1. A `for` over
    // the places of the bits was tried: the whole program is slower by half.
    pub fn product(self, a: u32, b: u32) -> u32 {
        let mut sum = 0;
        let mut bit = self.size / 2;
        while bit != 0 {
            sum = self.times_x(sum);
            if b & bit != 0 {
                sum ^= a;
            }
            bit /= 2;
        }
        sum
    }
}
