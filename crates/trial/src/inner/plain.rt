// Arithmetic in a field, and the tests of a call that has a field polynomial and a list, by the definitions.
ghost use Rattle.std.specs.Prelude.{◌≤◌};

use crate::inner::refusal::Refusal;

// The largest degree of a field polynomial.
pub const LARGEST: u32 = 16;

// A field polynomial, and the place of its highest bit, of those up to bit 16. Any number may stand here: `check` says whether it is one.
#[derive(Debug, Clone, Copy)]
pub struct Field {
    pub polynomial: u32,
    pub degree: u32,
    pub ghost small: { degree ≤ 16 },
}

impl Field {
    pub fn of(polynomial: u32) -> Field {
        Field {
            polynomial,
            degree: polynomial.checked_ilog2().unwrap_or(0).min(LARGEST),
        }
    }

    // How many elements there are, 2^m.
    pub fn size(self) -> u32
        ensures least { 1 ≤ result }
        ensures most { result ≤ 65536 }
    {
        1 << self.degree
    }

    // a·b: the sum of the x^i·a for the bits i of b, each shifted from the one before and reduced where it has reached 2^m.
    pub fn product(self, a: u32, b: u32) -> u32 {
        let mut sum = 0;
        let mut moved = a;
        let mut rest = b;
        // No index: the bits of b are used up.
        while rest != 0 {
            if rest % 2 == 1 {
                sum ^= moved;
            }
            moved <<= 1;
            if moved & self.size() != 0 {
                moved ^= self.polynomial;
            }
            rest /= 2;
        }
        sum
    }

    // The first reason why a call is to be turned down whose list is to have `least` to `most` entries, all of them elements.
    pub fn check(self, list: &[u32], least: usize, most: usize) -> Result<(), Refusal> {
        if self.polynomial < 4 || 131072 <= self.polynomial {
            Err(Refusal::NoDegree)
        } else if has_factor(self.polynomial) {
            Err(Refusal::Factor)
        } else if list.len() < least || most < list.len() {
            Err(Refusal::Length)
        } else if list.iter().any(|&x| self.size() <= x) {
            Err(Refusal::NoElement)
        } else {
            Ok(())
        }
    }
}

// Whether d divides p, by long division: p has at most degree 16, so the first multiple to try is x^16·d. A multiple is taken off where that
// leaves less: then its highest bit stands in the rest.
fn divides(d: u32, p: u32) -> bool {
    (0..=LARGEST)
        .rev()
        .fold(p, |rest, k| rest.min(rest ^ (d << k)))
        == 0
}

// Whether p, below 2^17, has a proper factor. If it has one, it has one of degree 1 to 8, which is a number from 2 to 511.
fn has_factor(p: u32) -> bool {
    (2..p.min(512)).any(|d| divides(d, p))
}
